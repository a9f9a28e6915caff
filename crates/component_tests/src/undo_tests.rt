// Undos that fail: four tries for each write, and no room for one.

use crate::checks::is_same;
use crate::state_tests::{admitted, ask_is, asks, ends, undo_is, undoes, wire, with_state};
use access_slots::op::{Op, Said, Wire};
use access_slots::slot::Mode;
use samples::procedures::{keyed, procedure};
use samples::{DROP, load, record, value};
use std::alloc::Global;
use std::process::Abort;
use tc_core::state::{TcState, TxnId};
use tc_log::event::Outcome;

// Deletes what stands under both its arguments, and ends with 5.
const DROP_BOTH_TEXT: &str = "mov r1, 0
call 4
mov r1, 1
call 4
mov r0, 5
exit
";

const DROP_BOTH: usize = 5;

// Its number; none where it isn't verified or isn't loaded.
fn load_drop_both(alloc: Global, tc: &mut TcState) -> Option<usize> {
    let slots = [keyed(Mode::Write, 0, 0), keyed(Mode::Write, 0, 1)];
    let code = procedure(alloc, 2, &slots, DROP_BOTH_TEXT)?;
    load(tc, "drop_both", code)
}

// What is sent under this number, when all before it are answered.
fn sent(number: u64, op: Op) -> Wire {
    wire(number, number.saturating_sub(1), op)
}

// 100 under this key is deleted.
fn deletes(rt: &impl Abort, tc: &mut TcState, txn: TxnId, number: u64, key: u64) {
    let delete = sent(number, Op::Delete(record(key)));
    asks(rt, tc, txn, delete, Said::Done(Some(value(100))));
}

// It is to be put back, and this is told.
fn puts_back(rt: &impl Abort, tc: &mut TcState, txn: TxnId, number: u64, key: u64, said: Said) {
    let insert = sent(number, Op::Insert(record(key), value(100)));
    undoes(rt, tc, txn, insert, said);
}

// It is put back by the last of four tries, under these numbers.
fn put_back_at_last(rt: &impl Abort, tc: &mut TcState, txn: TxnId, numbers: [u64; 4], key: u64) {
    let [first, second, third, fourth] = numbers;
    puts_back(rt, tc, txn, first, key, Said::Duplicate);
    puts_back(rt, tc, txn, second, key, Said::NoRoom);
    puts_back(rt, tc, txn, third, key, Said::Duplicate);
    puts_back(rt, tc, txn, fourth, key, Said::Done(None));
}

fn both_are_put_back(rt: &impl Abort, alloc: Global, tc: &mut TcState) {
    is_same(rt, load_drop_both(alloc, tc), Some(DROP_BOTH));
    let txn = admitted(rt, alloc, tc, (DROP_BOTH, &[5, 6]), 1);
    deletes(rt, tc, txn, 1, 5);
    deletes(rt, tc, txn, 2, 6);
    ask_is(rt, tc, txn, ("undoing", 0));
    put_back_at_last(rt, tc, txn, [3, 4, 5, 6], 6);
    put_back_at_last(rt, tc, txn, [7, 8, 9, 10], 5);
    undo_is(rt, tc, txn, ("over", 0));
    ends(rt, tc, txn, 21, Outcome::Aborted(5));
}

// Each of two writes has four tries of its own.
#[test]
fn two_writes_undone(rt: HostRuntime) {
    with_state(&rt, rt.alloc(), both_are_put_back);
}

fn is_put_back(rt: &impl Abort, alloc: Global, tc: &mut TcState) {
    let txn = admitted(rt, alloc, tc, (DROP, &[5]), 1);
    deletes(rt, tc, txn, 1, 5);
    puts_back(rt, tc, txn, 2, 5, Said::NoRoom);
    puts_back(rt, tc, txn, 3, 5, Said::Done(None));
    undo_is(rt, tc, txn, ("over", 0));
    ends(rt, tc, txn, 7, Outcome::Aborted(5));
}

// No room for an undo is a try that failed: the procedure's own answer stays the outcome.
#[test]
fn no_room_for_an_undo(rt: HostRuntime) {
    with_state(&rt, rt.alloc(), is_put_back);
}
