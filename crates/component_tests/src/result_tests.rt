// What calls read and wrote, told once their runs have ended, and once more by the places of their ends.

use crate::checks::is_same;
use crate::state_tests::{admitted, ask_is, asks, ends, undoes, wire, with_state};
use access_slots::op::{Op, Said};
use access_slots::slot::{Mode, Value};
use call_results::{SlotResult, logged_result, logged_slot_count, slot_count, slot_result};
use samples::procedures::{keyed, procedure};
use samples::{BAD, GET, PUT, load, record, value};
use std::alloc::Global;
use std::process::Abort;
use tc_core::state::{TcState, TxnId};
use tc_log::event::Outcome;

// Reads what stands under its argument and writes 7 into the buffer, and into no record. Then it deletes the record by
// its other slot, which names the same one.
const TWICE_TEXT: &str = "mov r1, 0
call 1
jeq r0, 0, +4
stdw [r0+0], 7
mov r1, 1
call 4
mov r0, 0
exit
";

const TWICE: usize = 5;

// Its number; none where it isn't verified or isn't loaded.
fn load_twice(alloc: Global, tc: &mut TcState) -> Option<usize> {
    let slots = [keyed(Mode::Read, 0, 0), keyed(Mode::Write, 0, 0)];
    let code = procedure(alloc, 1, &slots, TWICE_TEXT)?;
    load(tc, "twice", code)
}

fn there(value: Value) -> Option<SlotResult> {
    Some(SlotResult {
        value,
        is_there: true,
    })
}

fn not_there(value: Value) -> Option<SlotResult> {
    Some(SlotResult {
        value,
        is_there: false,
    })
}

// A slot of an open transaction holds this.
fn holds(rt: &impl Abort, tc: &TcState, txn: TxnId, slot: usize, wanted: Option<SlotResult>) {
    is_same(rt, slot_result(tc, txn, slot), wanted);
}

// The call whose end stands at the place is told so by the log.
fn is_logged(rt: &impl Abort, tc: &TcState, place: usize, slot: usize, wanted: Option<SlotResult>) {
    tc.known();
    is_same(rt, logged_result(tc.procs(), tc.log(), place, slot), wanted);
}

// The procedure of the call whose end stands at the place declares so many slots.
fn declares(rt: &impl Abort, tc: &TcState, place: usize, wanted: usize) {
    tc.known();
    is_same(rt, logged_slot_count(tc.procs(), tc.log(), place), wanted);
}

// A slot holds this while its call is open, and behind its end, which stands at the place.
fn ends_with(
    rt: &impl Abort,
    tc: &mut TcState,
    txn: TxnId,
    (place, outcome): (usize, Outcome),
    wanted: Option<SlotResult>,
) {
    holds(rt, tc, txn, 0, wanted);
    ends(rt, tc, txn, place, outcome);
    holds(rt, tc, txn, 0, None);
    is_logged(rt, tc, place, 0, wanted);
}

// 100 is put under 5; nothing is told before the run has ended, nor of a slot that isn't declared.
fn put_is_told(rt: &impl Abort, alloc: Global, tc: &mut TcState) {
    let put = admitted(rt, alloc, tc, (PUT, &[5, 100]), 1);
    holds(rt, tc, put, 0, None);
    let insert = Op::Insert(record(5), value(100));
    asks(rt, tc, put, wire(1, 0, insert), Said::Done(None));
    holds(rt, tc, put, 1, None);
    ends_with(rt, tc, put, (3, Outcome::Committed), there(value(100)));
    is_logged(rt, tc, 2, 0, None);
    is_logged(rt, tc, 4, 0, None);
}

#[test]
fn a_put(rt: HostRuntime) {
    with_state(&rt, rt.alloc(), put_is_told);
}

// An insert that finds no room leaves no record; the buffer has what was to be written.
fn full_is_told(rt: &impl Abort, alloc: Global, tc: &mut TcState) {
    let put = admitted(rt, alloc, tc, (PUT, &[5, 100]), 1);
    let insert = Op::Insert(record(5), value(100));
    asks(rt, tc, put, wire(1, 0, insert), Said::NoRoom);
    ends_with(rt, tc, put, (3, Outcome::NoRoom), not_there(value(100)));
}

#[test]
fn an_insert_without_room(rt: HostRuntime) {
    with_state(&rt, rt.alloc(), full_is_told);
}

// What is read, and that nothing is there.
fn reads_are_told(rt: &impl Abort, alloc: Global, tc: &mut TcState) {
    let first = admitted(rt, alloc, tc, (GET, &[5]), 1);
    let second = admitted(rt, alloc, tc, (GET, &[6]), 2);
    let read = Op::Read(record(5));
    asks(rt, tc, first, wire(1, 0, read), Said::Value(value(100)));
    asks(
        rt,
        tc,
        second,
        wire(2, 1, Op::Read(record(6))),
        Said::Absent,
    );
    ends_with(rt, tc, first, (6, Outcome::Committed), there(value(100)));
    ends_with(
        rt,
        tc,
        second,
        (7, Outcome::Aborted(1)),
        not_there(value(0)),
    );
}

#[test]
fn two_reads(rt: HostRuntime) {
    with_state(&rt, rt.alloc(), reads_are_told);
}

// A call that aborts is told as its run left it, before its update is undone and behind that.
fn abort_is_told(rt: &impl Abort, alloc: Global, tc: &mut TcState) {
    let bad = admitted(rt, alloc, tc, (BAD, &[5]), 1);
    let read = Op::Read(record(5));
    asks(rt, tc, bad, wire(1, 0, read), Said::Value(value(100)));
    let update = Op::Update(record(5), value(7));
    asks(
        rt,
        tc,
        bad,
        wire(2, 1, update),
        Said::Done(Some(value(100))),
    );
    holds(rt, tc, bad, 0, there(value(7)));
    let undo = Op::Update(record(5), value(100));
    undoes(rt, tc, bad, wire(3, 2, undo), Said::Done(Some(value(7))));
    ends_with(rt, tc, bad, (7, Outcome::Aborted(5)), there(value(7)));
}

#[test]
fn an_abort(rt: HostRuntime) {
    with_state(&rt, rt.alloc(), abort_is_told);
}

// Two slots that name one record are told each by itself: what was read and then changed in the buffer, and that
// nothing is there.
fn both_slots_are_told(rt: &impl Abort, alloc: Global, tc: &mut TcState) {
    is_same(rt, load_twice(alloc, tc), Some(TWICE));
    let twice = admitted(rt, alloc, tc, (TWICE, &[5]), 1);
    is_same(rt, slot_count(tc, twice), 2);
    let read = Op::Read(record(5));
    asks(rt, tc, twice, wire(1, 0, read), Said::Value(value(100)));
    let delete = Op::Delete(record(5));
    asks(
        rt,
        tc,
        twice,
        wire(2, 1, delete),
        Said::Done(Some(value(100))),
    );
    ask_is(rt, tc, twice, ("over", 0));
    holds(rt, tc, twice, 1, not_there(value(0)));
    holds(rt, tc, twice, 2, None);
    ends_with(rt, tc, twice, (5, Outcome::Committed), there(value(7)));
    is_logged(rt, tc, 5, 1, not_there(value(0)));
    is_same(rt, slot_count(tc, twice), 0);
    declares(rt, tc, 5, 2);
    declares(rt, tc, 4, 0);
}

#[test]
fn two_slots_of_one_record(rt: HostRuntime) {
    with_state(&rt, rt.alloc(), both_slots_are_told);
}
