// Calls that ask for memory. Each is made again where it is refused for want of it: so each test
// passes wherever one request of its run is refused, and tools/memory_requests.py refuses each in turn.

ghost use Rattle.std.specs.Prelude.{◌≤◌, OnOk};

use crate::checks::is_same;
use access_slots::decl::Decl;
use access_slots::lock::LockSet;
use access_slots::slot::Mode;
use bpf_encoding::code::Code;
use bpf_encoding::decode::{DecodeFault, decode};
use bpf_encoding::encode::encode;
use bpf_encoding::insn::Insn;
use data_component::dc::Dc;
use lock_table::table::LockTable;
use request_numbers::numbers::Numbers;
use samples::procedures::keyed;
use samples::{PUT_AND_ABORT, log_bytes};
use std::alloc::{AllocError, Global};
use std::process::Abort;
use tc_log::event::{Entry, Event, Outcome};
use tc_log::log::Log;
use tc_log::read::LogFault;
use verifier::verify::{Verified, VerifyFault, verify};

// Writes a record, and ends with what that answers: mov r1, 0; call 3; exit.
const WRITE_CODE: [u8; 24] = [
    0xb7, 1, 0, 0, 0, 0, 0, 0, 0x85, 0, 0, 0, 3, 0, 0, 0, 0x95, 0, 0, 0, 0, 0, 0, 0,
];

fn made(alloc: Global, insns: &[Insn]) -> Result<Code, DecodeFault> {
    match Code::from_insns(alloc, insns) {
        Err(DecodeFault::Memory) => Code::from_insns(alloc, insns),
        made => made,
    }
}

fn decoded(alloc: Global, bytes: &[u8]) -> Result<Code, DecodeFault> {
    match decode(alloc, bytes) {
        Err(DecodeFault::Memory) => decode(alloc, bytes),
        decoded => decoded,
    }
}

fn encoded(alloc: Global, code: &Code) -> Result<Vec<u8>, AllocError> {
    match encode(alloc, code) {
        Ok(bytes) => Ok(bytes),
        Err(_) => encode(alloc, code),
    }
}

// The code has these bytes.
fn encodes_to(rt: &impl Abort, alloc: Global, code: &Code, bytes: &[u8]) {
    let encoded = encoded(alloc, code).expect(rt, "not encoded");
    is_same(rt, encoded.as_slice(), bytes);
}

// Code that was decoded, and code that was made from an instruction.
#[test]
fn code_and_its_bytes(rt: HostRuntime) {
    let write = decoded(rt.alloc(), &WRITE_CODE).expect(&rt, "not decoded");
    encodes_to(&rt, rt.alloc(), &write, &WRITE_CODE);
    drop(write);
    let exit = made(rt.alloc(), &[Insn::Exit]).expect(&rt, "not made");
    encodes_to(&rt, rt.alloc(), &exit, &[0x95, 0, 0, 0, 0, 0, 0, 0]);
    drop(exit);
}

// A declaration of one record that is written.
fn write_decl(rt: &impl Abort) -> Decl {
    Decl::new(1, &[keyed(Mode::Write, 0, 0)]).expect(rt, "not declared")
}

fn verified_once(rt: &impl Abort, alloc: Global) -> Result<Verified, VerifyFault> {
    let code = decoded(alloc, &WRITE_CODE).expect(rt, "not decoded");
    verify(alloc, code, write_decl(rt))
}

// A verdict that isn't reached leaves neither code nor declaration.
fn verified(rt: &impl Abort, alloc: Global) -> Result<Verified, VerifyFault> {
    match verified_once(rt, alloc) {
        Err(VerifyFault::Memory) => verified_once(rt, alloc),
        verified => verified,
    }
}

#[test]
fn code_that_is_verified(rt: HostRuntime) {
    let write = verified(&rt, rt.alloc()).expect(&rt, "not verified");
    is_same(&rt, (write.code().len(), write.calls()), (3, 1));
    drop(write);
}

fn read(alloc: Global, bytes: &[u8]) -> Result<Log, LogFault> {
    match Log::read(alloc, bytes) {
        Err(LogFault::Memory) => Log::read(alloc, bytes),
        read => read,
    }
}

fn printed(alloc: Global, log: &Log) -> Result<Vec<u8>, AllocError> {
    match log.print(alloc) {
        Ok(bytes) => Ok(bytes),
        Err(_) => log.print(alloc),
    }
}

// The bytes of the log of a put and an abort.
fn put_and_abort(alloc: Global) -> Result<Vec<u8>, AllocError> {
    match log_bytes(alloc, &PUT_AND_ABORT) {
        Ok(bytes) => Ok(bytes),
        Err(_) => log_bytes(alloc, &PUT_AND_ABORT),
    }
}

#[test]
fn a_log_and_its_bytes(rt: HostRuntime) {
    let bytes = put_and_abort(rt.alloc()).expect(&rt, "no bytes");
    let log = read(rt.alloc(), bytes.as_slice()).expect(&rt, "not read");
    let again = printed(rt.alloc(), &log).expect(&rt, "not printed");
    drop(log);
    is_same(&rt, again.as_slice(), bytes.as_slice());
}

// The log has as many events as before, whose places stay.
fn reserved_in_log(rt: &impl Abort, log: &mut Log) -> Result<(), AllocError>
    ensures { OnOk result (1 ≤ log.new.room) }
{
    let before = log.len();
    match log.reserve(1) {
        Ok(()) => Ok(()),
        Err(_) => {
            is_same(rt, log.len(), before);
            log.reserve(1)
        }
    }
}

// Twenty events are logged.
fn twenty_are_logged(rt: &impl Abort, log: &mut Log) {
    for txn in 0..20u64 {
        reserved_in_log(rt, log).expect(rt, "not reserved");
        log.push(Event::End {
            txn,
            outcome: Outcome::Committed,
        });
    }
    let is_eighth = matches!(log.at(7), Some(Entry::End { txn: 7, .. }));
    is_same(rt, (log.len(), is_eighth), (20, true));
}

#[test]
fn events_of_a_log(rt: HostRuntime) {
    let mut log = Log::new(rt.alloc());
    twenty_are_logged(&rt, &mut log);
    drop(log);
}

// The last number and those that are open stay.
fn reserved_in_numbers(rt: &impl Abort, numbers: &mut Numbers) -> Result<(), AllocError>
    ensures { OnOk result (1 ≤ numbers.new.room) }
{
    let last = numbers.last();
    match numbers.reserve(1) {
        Ok(()) => Ok(()),
        Err(_) => {
            is_same(rt, (numbers.last(), numbers.low_water()), (last, 0));
            numbers.reserve(1)
        }
    }
}

// The numbers up to 19 are given out.
fn are_given_out(rt: &impl Abort, numbers: &mut Numbers) {
    for number in 1..20u64 {
        reserved_in_numbers(rt, numbers).expect(rt, "not reserved");
        is_same(rt, numbers.next().ok(), Some(number));
    }
}

#[test]
fn numbers_that_are_given_out(rt: HostRuntime) {
    let mut numbers = Numbers::new(rt.alloc());
    are_given_out(&rt, &mut numbers);
    drop(numbers);
}

// Whether the locks are ready; nothing stands in their way.
fn are_ready(rt: &impl Abort, table: &LockTable, set: &LockSet, are_ready: bool) {
    is_same(rt, (table.ready(set), table.busy(set)), (are_ready, None));
}

// What is held stays, here nothing.
fn reserved_in_table(
    rt: &impl Abort,
    table: &mut LockTable,
    set: &LockSet,
) -> Result<(), AllocError> {
    match table.reserve(set) {
        Ok(()) => Ok(()),
        Err(_) => {
            are_ready(rt, table, set, false);
            table.reserve(set)
        }
    }
}

// The locks that a declaration of one argument asks for under five keys.
fn five_are_ready(rt: &impl Abort, table: &mut LockTable, decl: &Decl) {
    assert!(rt; decl.args() == 1);
    for key in 0..5u64 {
        let set = decl.resolve(&[key]);
        reserved_in_table(rt, table, &set).expect(rt, "not reserved");
        are_ready(rt, table, &set, true);
    }
}

#[test]
fn locks_that_are_ready(rt: HostRuntime) {
    let mut table = LockTable::new(rt.alloc());
    five_are_ready(&rt, &mut table, &write_decl(&rt));
    drop(table);
}

// A data component of room for four records.
fn dc(alloc: Global) -> Result<Dc, AllocError> {
    match Dc::new(alloc, 4, 100) {
        Ok(dc) => Ok(dc),
        Err(_) => Dc::new(alloc, 4, 100),
    }
}

// A data component that isn't made takes nothing.
#[test]
fn a_data_component(rt: HostRuntime) {
    let dc = dc(rt.alloc()).expect(&rt, "not made");
    is_same(&rt, (dc.rows().len(), dc.mark()), (0, 0));
    drop(dc);
}
