//! The log from bytes.

ghost use Rattle.std.specs.Prelude.{◌≡◌, ◌↔◌, Some, ℕ, ◌<◌, ◌≤◌, ◌%◌, List, true, length, drop, slice_index, reverse, IfErr, IfNone, IfOk, IfSome, OnOk};
ghost use Rattle.std.specs.Int.{w16, w64, from_le_bytes};
ghost use Rattle.tc_log.specs.Reading.{u16_at, u64_at, cells_in, record_in, op_in, said_in, outcome_in, call_in, event_in, numbers_in, has_row, IsRecord, IsOp, IsSaid, IsOutcome, AreNumbers, IsEvent, IsPrinted, ArePrinted, AreOnlyOnes, IsReadFault};
ghost use Rattle.tc_log.specs.Printed.{printed};

use crate::event::{Args, Event, Outcome};
use crate::log::Log;
use crate::print::write_event;
use access_slots::op::{Op, Said};
use access_slots::slot::{Record, Value};
use byteorder::{ByteOrder, LittleEndian};
use std::alloc::{AllocError, AllocFailed, Global};

/// Why bytes are no log.
#[derive(Clone, Copy, Debug, PartialEq, Eq)]
pub enum LogFault {
    /// They are no whole number of 96-byte records (L1).
    Length,
    /// This record, counted from 0, is the first that no event prints (L2).
    Kind(usize),
    /// Memory ran out (L3).
    Memory,
}

impl<T: Drop> From<AllocFailed<T>> for LogFault {
    ghost use Rattle.std.specs.Prelude.{◌≡◌};
    ghost use Rattle.tc_log.specs.declared.read.LogFault.TheVariants.{Memory};

    ghost from_gives = { λ _ e. e ≡ Memory };

    fn from(_e: AllocFailed<T>) -> LogFault {
        LogFault::Memory
    }
}

impl From<AllocError> for LogFault {
    ghost use Rattle.std.specs.Prelude.{◌≡◌};
    ghost use Rattle.tc_log.specs.declared.read.LogFault.TheVariants.{Memory};

    ghost from_gives = { λ _ e. e ≡ Memory };

    fn from(_e: AllocError) -> LogFault {
        LogFault::Memory
    }
}

// A number of two bytes.
#[tactic(auto, using(crate::proofs::Numbers::short_is))]
fn short(bytes: &[u8]) -> u16
    requires { length bytes.now ≡ 2 }
    ensures { result ≡ from_le_bytes w16 bytes.now }
{
    LittleEndian::read_u16(bytes)
}

// A number of eight bytes.
#[inline(always)]
#[tactic(auto, using(crate::proofs::Numbers::long_is))]
pub(crate) fn long(bytes: &[u8]) -> u64
    requires { length bytes.now ≡ 8 }
    ensures { result ≡ from_le_bytes w64 bytes.now }
{
    LittleEndian::read_u64(bytes)
}

fn record_in(bytes: &[u8]) -> Record
    requires { length bytes.now ≡ 96 }
    ensures value { result ≡ record_in (cells_in bytes.now) }
    ensures machine { IsRecord result }
{
    Record {
        dc: short(&bytes[2..4]),
        table: short(&bytes[4..6]),
        key: long(&bytes[24..32]),
    }
}

fn value_in(bytes: &[u8]) -> Value
    requires { length bytes.now ≡ 96 }
    ensures value { result ≡ drop 32 bytes.now }
    ensures long { length result ≡ 64 }
{
    let mut value = [0; 64];
    value.copy_from_slice(&bytes[32..]);
    value
}

fn op_in(bytes: &[u8]) -> Option<Op>
    requires { length bytes.now ≡ 96 }
    ensures value { result ≡ op_in (cells_in bytes.now) }
    ensures machine { IfSome result IsOp }
{
    let record = record_in(bytes);
    match bytes[1] {
        1 => Some(Op::Read(record)),
        2 => Some(Op::Insert(record, value_in(bytes))),
        3 => Some(Op::Update(record, value_in(bytes))),
        4 => Some(Op::Delete(record)),
        _ => None,
    }
}

fn said_in(bytes: &[u8]) -> Option<Said>
    requires { length bytes.now ≡ 96 }
    ensures value { result ≡ said_in (cells_in bytes.now) }
    ensures machine { IfSome result IsSaid }
{
    match bytes[1] {
        1 => Some(Said::Value(value_in(bytes))),
        2 => Some(Said::Absent),
        3 => Some(Said::Done(None)),
        4 => Some(Said::Done(Some(value_in(bytes)))),
        5 => Some(Said::Duplicate),
        6 => Some(Said::Missing),
        7 => Some(Said::NoRoom),
        _ => None,
    }
}

fn outcome_in(bytes: &[u8]) -> Option<Outcome>
    requires { length bytes.now ≡ 96 }
    ensures value { result ≡ outcome_in (cells_in bytes.now) }
    ensures machine { IfSome result IsOutcome }
{
    match bytes[1] {
        1 => Some(Outcome::Committed),
        2 => Some(Outcome::Aborted(long(&bytes[16..24]))),
        3 => Some(Outcome::NoRoom),
        _ => None,
    }
}

// So many numbers of eight bytes.
fn numbers_in(alloc: Global, count: usize, body: &[u8]) -> Result<Vec<u64>, AllocError>
    requires few { count ≤ 8 }
    requires long { length body.now ≡ 64 }
    ensures value { IfOk result (λ numbers. numbers.items ≡ numbers_in count body.now) }
    ensures machine { IfOk result (λ numbers. AreNumbers numbers.items) }
{
    let mut numbers = Vec::with_capacity(alloc, count)?;
    let mut rest = body;
    'numbers: for _ in 0..count {
        let (front, after) = rest.split_at(8);
        numbers.push(long(front))?;
        rest = after;
    }
    Ok(numbers)
}

fn call_in(alloc: Global, bytes: &[u8]) -> Result<Option<Event>, AllocError>
    requires { length bytes.now ≡ 96 }
    ensures value { IfOk result (λ e. e ≡ call_in (cells_in bytes.now)) }
    ensures machine { IfOk result (λ e. IfSome e IsEvent) }
{
    let count = usize::from(bytes[1]);
    if count > 8 {
        return Ok(None);
    }
    let numbers = numbers_in(alloc, count, &bytes[32..])?;
    Ok(Some(Event::Admit {
        txn: long(&bytes[8..16]),
        proc: long(&bytes[16..24]) as usize,
        args: Args::from_vec(numbers),
    }))
}

// The event that the 96 bytes may be, by their fields.
fn event_in(alloc: Global, bytes: &[u8]) -> Result<Option<Event>, AllocError>
    requires { length bytes.now ≡ 96 }
    ensures value { IfOk result (λ e. e ≡ event_in (cells_in bytes.now)) }
    ensures machine { IfOk result (λ e. IfSome e IsEvent) }
{
    let txn = long(&bytes[8..16]);
    let number = long(&bytes[16..24]);
    Ok(match bytes[0] {
        1 => call_in(alloc, bytes)?,
        2 => op_in(bytes).map(|op| Event::Ask { txn, number, op }),
        3 => said_in(bytes).map(|said| Event::Answer { txn, number, said }),
        4 => op_in(bytes).map(|op| Event::Undo { txn, number, op }),
        5 => outcome_in(bytes).map(|outcome| Event::End { txn, outcome }),
        6 => Some(Event::Checkpoint {
            admitted: txn,
            given: number,
        }),
        _ => None,
    })
}

// Whether the event is printed as these bytes; `again` is written over.
fn prints(event: &Event, bytes: &[u8], again: &mut Vec<u8>) -> Result<bool, AllocError>
    ensures { IfOk result (λ b. (b ≡ true) ↔ (printed event.now ≡ bytes.now)) }
{
    again.clear();
    write_event(again, &event.entry())?;
    Ok(again.as_slice() == bytes)
}

// The event that is printed as these 96 bytes.
fn read_event(alloc: Global, bytes: &[u8], again: &mut Vec<u8>) -> Result<Option<Event>, AllocError>
    requires { length bytes.now ≡ 96 }
    ensures some { IfOk result (λ o. IfSome o (λ e. (has_row e ≡ true) × (printed e ≡ bytes.now))) }
    ensures none { IfOk result (λ o. IfNone o (IsPrinted bytes.now → ⊥)) }
    ensures seen { IfOk result (λ o. IfSome o (λ e. event_in (cells_in bytes.now) ≡ Some e)) }
    ensures machine { IfOk result (λ o. IfSome o IsEvent) }
{
    let Some(event) = event_in(alloc, bytes)? else {
        return Ok(None);
    };
    if prints(&event, bytes, again)? {
        Ok(Some(event))
    } else {
        Ok(None)
    }
}

fn events_in(alloc: Global, bytes: &[u8]) -> Result<Log, LogFault>
    requires { length bytes.now % 96 ≡ 0 }
    ensures ok { IfOk result (λ log. ArePrinted (reverse log.events) bytes.now) }
    ensures only { IfOk result (λ log. AreOnlyOnes (reverse log.events) bytes.now) }
    ensures err { IfErr result (IsReadFault bytes.now) }
{
    let count = bytes.len() / 96;
    let mut log = Log::new(alloc);
    log.reserve(count)?;
    let mut again = Vec::with_capacity(alloc, 96)?;
    let mut rest = bytes;
    'records: for place in 0..count {
        let (record, after) = rest.split_at(96);
        match read_event(alloc, record, &mut again)? {
            Some(event) => log.push(event),
            None => return Err(LogFault::Kind(place)),
        }
        rest = after;
    }
    Ok(log)
}

impl Log {
    ghost use Rattle.std.specs.Prelude.{reverse, IfOk, IfErr};
    ghost use Rattle.tc_log.specs.Reading.{ArePrinted, AreOnlyOnes, IsReadFault};

    /// The log that is printed as these bytes.
    ///
    /// Refused as [`LogFault::Length`] where they are no whole number of records, as
    /// [`LogFault::Kind`] with the first record that no event is printed as, and as
    /// [`LogFault::Memory`].
    pub fn read(alloc: Global, bytes: &[u8]) -> Result<Log, LogFault>
        ensures ok { IfOk result (λ log. ArePrinted (reverse log.events) bytes.now) }
        // No other events are printed so.
        ensures only { IfOk result (λ log. AreOnlyOnes (reverse log.events) bytes.now) }
        ensures err { IfErr result (IsReadFault bytes.now) }
    {
        if bytes.len() % 96 != 0 {
            return Err(LogFault::Length);
        }
        events_in(alloc, bytes)
    }
}
