//! Four procedures, from their first question to each end, on each answer that fits.

ghost use Rattle.std.specs.Prelude.{◌≡◌, length, true, false};
ghost use Rattle.access_slots.specs.Access.{fits, is_no_room};
ghost use Rattle.interpreter.specs.Joining.Paused.{IsPaused};
ghost use Rattle.interpreter.specs.declared.pause.Pause.TheVariants.{Ask};

use crate::checks::is_same;
use access_slots::op::{Op, Said, fits};
use access_slots::slot::Value;
use interpreter::layout::Layout;
use interpreter::machine::Machine;
use interpreter::pause::Pause;
use samples::{bad_procedure, get_procedure, move_procedure, put_procedure, record, value};
use std::process::Abort;
use verifier::verify::Verified;

// A value that begins with this number; each byte behind it is its place.
fn marked(number: u64) -> Value {
    let mut marked = [0; 64];
    for (place, byte) in marked.iter_mut().enumerate() {
        *byte = place as u8;
    }
    marked[..8].copy_from_slice(&number.to_le_bytes());
    marked
}

// A call under way.
#[derive(Drop)]
struct Conversation {
    machine: Machine,
    pause: Pause,
}

// To the first question or the end.
fn call(verified: &Verified, args: &[u64]) -> Conversation
    requires { length args.now ≡ verified.now.decl.args }
    ensures { IsPaused verified.now result.machine result.pause }
{
    let mut machine = Machine::start(verified, args, Layout::plain());
    let pause = machine.resume(verified, None);
    Conversation { machine, pause }
}

// The same, where there are as many arguments as are declared.
fn begun(rt: &impl Abort, verified: &Verified, args: &[u64]) -> Conversation
    ensures { IsPaused verified.now result.machine result.pause }
{
    assert!(rt; args.len() == verified.decl().args());
    call(verified, args)
}

// On with an answer that fits.
fn hear(call: &mut Conversation, verified: &Verified, op: Op, said: Said)
    requires asks { IsPaused verified.now call.old.machine (Ask op) }
    requires fits { fits op said ≡ true }
    requires room { is_no_room said ≡ false }
    ensures { IsPaused verified.now call.new.machine call.new.pause }
{
    call.pause = call.machine.resume(verified, Some(said));
}

// The same, where it asks, the answer fits and isn't NoRoom.
fn goes_on(call: &mut Conversation, verified: &Verified, said: Said) -> bool
    requires { IsPaused verified.now call.old.machine call.old.pause }
    ensures { IsPaused verified.now call.new.machine call.new.pause }
{
    let Pause::Ask(op) = call.pause else {
        return false;
    };
    if !fits(&op, &said) || matches!(said, Said::NoRoom) {
        return false;
    }
    hear(call, verified, op, said);
    true
}

fn stands(rt: &impl Abort, call: &Conversation, wanted: Pause, executed: u32) {
    is_same(
        rt,
        (call.pause, call.machine.executed()),
        (wanted, executed),
    );
}

// On with this answer, to what is wanted after so many instructions.
fn told(
    rt: &impl Abort,
    call: &mut Conversation,
    verified: &Verified,
    said: Said,
    wanted: Pause,
    executed: u32,
)
    requires { IsPaused verified.now call.old.machine call.old.pause }
    ensures { IsPaused verified.now call.new.machine call.new.pause }
{
    assert!(rt; goes_on(call, verified, said));
    stands(rt, call, wanted, executed);
}

// What is to be seen of a procedure, where it was verified.
fn with_procedure<R: Abort, F: FnOnce(&R, &Verified)>(rt: &R, verified: Option<Verified>, sees: F)
    requires { F.IsAlwaysCallable sees }
{
    let verified = verified.expect(rt, "not verified");
    sees(rt, &verified);
    drop(verified);
}

fn put_goes(rt: &impl Abort, put: &Verified) {
    for (said, answer) in [(Said::Done(None), 0), (Said::Duplicate, 1)] {
        let mut it = begun(rt, put, &[5, 100]);
        let insert = Op::Insert(record(5), value(100));
        stands(rt, &it, Pause::Ask(insert), 6);
        told(rt, &mut it, put, said, Pause::Exit(answer), 7);
    }
}

#[test]
fn put_inserts(rt: HostRuntime) {
    with_procedure(&rt, put_procedure(rt.alloc(), 0), put_goes);
}

fn get_goes(rt: &impl Abort, get: &Verified) {
    for (said, answer) in [(Said::Value(marked(100)), 0), (Said::Absent, 1)] {
        let mut it = begun(rt, get, &[5]);
        stands(rt, &it, Pause::Ask(Op::Read(record(5))), 2);
        told(rt, &mut it, get, said, Pause::Exit(answer), 5);
    }
}

#[test]
fn get_reads(rt: HostRuntime) {
    with_procedure(&rt, get_procedure(rt.alloc()), get_goes);
}

fn bad_finds_no_record(rt: &impl Abort, bad: &Verified) {
    let mut it = begun(rt, bad, &[5]);
    stands(rt, &it, Pause::Ask(Op::Read(record(5))), 2);
    told(rt, &mut it, bad, Said::Absent, Pause::Exit(1), 5);
}

// The answer to the update changes nothing.
fn bad_aborts(rt: &impl Abort, bad: &Verified, said: Said) {
    let mut it = begun(rt, bad, &[5]);
    let update = Pause::Ask(Op::Update(record(5), marked(7)));
    told(rt, &mut it, bad, Said::Value(marked(100)), update, 6);
    told(rt, &mut it, bad, said, Pause::Exit(5), 8);
}

fn bad_goes(rt: &impl Abort, bad: &Verified) {
    bad_finds_no_record(rt, bad);
    bad_aborts(rt, bad, Said::Done(Some(marked(100))));
    bad_aborts(rt, bad, Said::Missing);
}

#[test]
fn bad_writes_and_aborts(rt: HostRuntime) {
    with_procedure(&rt, bad_procedure(rt.alloc()), bad_goes);
}

// The first record isn't there.
fn move_finds_no_first(rt: &impl Abort, transfer: &Verified) {
    let mut it = begun(rt, transfer, &[5, 6, 10]);
    stands(rt, &it, Pause::Ask(Op::Read(record(5))), 3);
    told(rt, &mut it, transfer, Said::Absent, Pause::Exit(1), 6);
}

// To the question for the second record.
fn moving(rt: &impl Abort, transfer: &Verified) -> Conversation
    ensures { IsPaused transfer.now result.machine result.pause }
{
    let mut it = begun(rt, transfer, &[5, 6, 10]);
    let second = Pause::Ask(Op::Read(record(6)));
    told(rt, &mut it, transfer, Said::Value(marked(100)), second, 7);
    it
}

fn move_finds_no_second(rt: &impl Abort, transfer: &Verified) {
    let mut it = moving(rt, transfer);
    told(rt, &mut it, transfer, Said::Absent, Pause::Exit(1), 10);
}

fn move_without_a_record(rt: &impl Abort, transfer: &Verified) {
    move_finds_no_first(rt, transfer);
    move_finds_no_second(rt, transfer);
}

#[test]
fn move_finds_no_record(rt: HostRuntime) {
    with_procedure(&rt, move_procedure(rt.alloc()), move_without_a_record);
}

// Both records are written; the two updates are answered so, and the call ends with this answer.
fn moves(rt: &impl Abort, transfer: &Verified, (first, last): (Said, Said), answer: u64) {
    let mut it = moving(rt, transfer);
    let less = Pause::Ask(Op::Update(record(5), marked(90)));
    told(rt, &mut it, transfer, Said::Value(value(7)), less, 17);
    let more = Pause::Ask(Op::Update(record(6), value(17)));
    told(rt, &mut it, transfer, first, more, 19);
    told(rt, &mut it, transfer, last, Pause::Exit(answer), 20);
}

// The answer to the last update is the call's.
fn move_goes(rt: &impl Abort, transfer: &Verified) {
    let done = Said::Done(Some(marked(100)));
    moves(rt, transfer, (done, done), 0);
    moves(rt, transfer, (done, Said::Missing), 1);
    moves(rt, transfer, (Said::Missing, done), 0);
}

#[test]
fn move_writes_both_records(rt: HostRuntime) {
    with_procedure(&rt, move_procedure(rt.alloc()), move_goes);
}
