// Worked runs on the state without a world, and calls and replies that are refused.

use crate::checks::is_same;
use crate::log_tests::prints_to;
use access_slots::op::{News, Op, Reply, Said, Wire};
use lock_table::table::Busy;
use samples::{
    BAD, DROP, PUT, PUT_AND_ABORT, call, loaded, log_bytes, put_procedure, record, value,
};
use std::alloc::Global;
use std::process::Abort;
use tc_core::procs::{LoadFault, LoadRefusal, Procs};
use tc_core::state::{
    Asked, Call, NotOver, Receipt, Redo, Refusal, Request, Stranger, TcState, TxnId,
};
use tc_log::event::Outcome;

/// A state of one data component in which the procedures are loaded.
pub(crate) fn state(rt: &impl Abort, alloc: Global) -> TcState {
    loaded(alloc, 1).expect(rt, "not loaded")
}

/// What a test does with such a state, which is let go in this one place.
pub(crate) fn with_state<R: Abort, F: FnOnce(&R, Global, &mut TcState)>(
    rt: &R,
    alloc: Global,
    test: F,
)
    requires { F.IsAlwaysCallable test }
{
    let mut tc = state(rt, alloc);
    test(rt, alloc, &mut tc);
    drop(tc);
}

pub(crate) fn wire(number: u64, low_water: u64, op: Op) -> Wire {
    Wire {
        number,
        low_water,
        incarnation: 0,
        redo: false,
        op,
    }
}

/// The transaction of a call that is admitted under this serial number.
pub(crate) fn admitted(
    rt: &impl Abort,
    alloc: Global,
    tc: &mut TcState,
    (proc, args): (usize, &[u64]),
    serial: u64,
) -> TxnId {
    let call = call(alloc, proc, args).expect(rt, "no call");
    let txn = tc.admit(&call).expect(rt, "not admitted");
    drop(call);
    is_same(rt, txn.serial(), serial);
    txn
}

// What is answered, as a word; a request is given up.
fn word(tc: &mut TcState, asked: Asked) -> (&'static str, u64) {
    match asked {
        Asked::Request(request) => ("request", tc.give_up(request)),
        Asked::Undoing => ("undoing", 0),
        Asked::Over => ("over", 0),
        Asked::Stuck(number) => ("stuck", number),
        Asked::Waits(number) => ("waits", number),
        Asked::Running => ("running", 0),
        Asked::Unknown => ("unknown", 0),
    }
}

/// The transaction is told this where it asks.
pub(crate) fn ask_is(rt: &impl Abort, tc: &mut TcState, txn: TxnId, told: (&'static str, u64)) {
    let asked = tc.ask(txn);
    is_same(rt, word(tc, asked), told);
}

/// The transaction is told this where it undoes.
pub(crate) fn undo_is(rt: &impl Abort, tc: &mut TcState, txn: TxnId, told: (&'static str, u64)) {
    let asked = tc.undo_next(txn);
    is_same(rt, word(tc, asked), told);
}

fn request_in(rt: &impl Abort, asked: Asked) -> Request {
    match asked {
        Asked::Request(request) => request,
        Asked::Undoing | Asked::Over | Asked::Running | Asked::Unknown => panic!(rt; "no request"),
        Asked::Stuck(_) | Asked::Waits(_) => panic!(rt; "no request"),
    }
}

// The request is answered so.
fn answered(rt: &impl Abort, tc: &mut TcState, request: Request, reply: Reply) {
    match tc.answer(request, reply) {
        Ok(()) => {}
        Err(Stranger { request }) => {
            tc.give_up(request);
            panic!(rt; "a stranger");
        }
    }
}

// The request is sent as this wire, and answered so.
fn carried(rt: &impl Abort, tc: &mut TcState, request: Request, wire: Wire, said: Said) {
    is_same(rt, tc.wire(&request), Ok(wire));
    let reply = Reply {
        number: wire.number,
        incarnation: 0,
        said,
    };
    answered(rt, tc, request, reply);
}

// The transaction asks so, and is answered so.
pub(crate) fn asks(rt: &impl Abort, tc: &mut TcState, txn: TxnId, wire: Wire, said: Said) {
    let request = request_in(rt, tc.ask(txn));
    carried(rt, tc, request, wire, said);
}

// The transaction undoes so, and is answered so.
pub(crate) fn undoes(rt: &impl Abort, tc: &mut TcState, txn: TxnId, wire: Wire, said: Said) {
    let request = request_in(rt, tc.undo_next(txn));
    carried(rt, tc, request, wire, said);
}

pub(crate) fn ends(rt: &impl Abort, tc: &mut TcState, txn: TxnId, place: usize, outcome: Outcome) {
    let receipt = Receipt {
        place,
        txn: txn.serial(),
        outcome,
    };
    is_same(rt, tc.end(txn), Ok(receipt));
}

// The first transaction, which puts 100 under 5, is open.
fn before_put(rt: &impl Abort, alloc: Global, tc: &mut TcState) -> TxnId {
    admitted(rt, alloc, tc, (PUT, &[5, 100]), 1)
}

fn put_is_admitted(rt: &impl Abort, alloc: Global, tc: &mut TcState) {
    let _put = before_put(rt, alloc, tc);
}

// Asks for memory as often as the next test does, which asks for none behind the admission.
#[test]
fn put_admitted(rt: HostRuntime) {
    with_state(&rt, rt.alloc(), put_is_admitted);
}

// 100 is put under 5 by the first transaction, which commits.
pub(crate) fn put_commits(rt: &impl Abort, alloc: Global, tc: &mut TcState) {
    let put = before_put(rt, alloc, tc);
    let insert = Op::Insert(record(5), value(100));
    asks(rt, tc, put, wire(1, 0, insert), Said::Done(None));
    ask_is(rt, tc, put, ("over", 0));
    ends(rt, tc, put, 3, Outcome::Committed);
}

#[test]
fn put_ended(rt: HostRuntime) {
    with_state(&rt, rt.alloc(), put_commits);
}

// 100 was put under 5, and the second transaction, of the procedure with this number, is open.
fn behind_put(rt: &impl Abort, alloc: Global, tc: &mut TcState, proc: usize) -> TxnId {
    put_commits(rt, alloc, tc);
    admitted(rt, alloc, tc, (proc, &[5]), 2)
}

// 7 is written over 100.
fn wrote_seven(rt: &impl Abort, tc: &mut TcState, bad: TxnId) {
    let read = wire(2, 1, Op::Read(record(5)));
    asks(rt, tc, bad, read, Said::Value(value(100)));
    let update = wire(3, 2, Op::Update(record(5), value(7)));
    asks(rt, tc, bad, update, Said::Done(Some(value(100))));
}

// It is to be undone.
fn is_undoing(rt: &impl Abort, tc: &mut TcState, bad: TxnId) {
    ask_is(rt, tc, bad, ("undoing", 0));
    is_same(rt, tc.end(bad), Err(NotOver));
}

// 100 stands again.
fn undid_seven(rt: &impl Abort, tc: &mut TcState, bad: TxnId) {
    let undo = wire(4, 3, Op::Update(record(5), value(100)));
    undoes(rt, tc, bad, undo, Said::Done(Some(value(7))));
    undo_is(rt, tc, bad, ("over", 0));
}

// The transaction ends with 5; it is unknown then.
fn aborts(rt: &impl Abort, tc: &mut TcState, bad: TxnId) {
    ends(rt, tc, bad, 11, Outcome::Aborted(5));
    ask_is(rt, tc, bad, ("unknown", 0));
}

fn abort_is_admitted(rt: &impl Abort, alloc: Global, tc: &mut TcState) {
    let _bad = behind_put(rt, alloc, tc, BAD);
}

// Asks for memory as often as the next test does, which asks for none behind the admission.
#[test]
fn abort_admitted(rt: HostRuntime) {
    with_state(&rt, rt.alloc(), abort_is_admitted);
}

// A procedure that ends with 5, whose update is undone.
fn put_and_abort(rt: &impl Abort, alloc: Global, tc: &mut TcState) {
    let bad = behind_put(rt, alloc, tc, BAD);
    wrote_seven(rt, tc, bad);
    is_undoing(rt, tc, bad);
    undid_seven(rt, tc, bad);
    aborts(rt, tc, bad);
}

#[test]
fn abort_ended(rt: HostRuntime) {
    with_state(&rt, rt.alloc(), put_and_abort);
}

fn put_and_abort_are_logged(rt: &impl Abort, alloc: Global, tc: &mut TcState) {
    put_and_abort(rt, alloc, tc);
    let want = log_bytes(alloc, &PUT_AND_ABORT).expect(rt, "no bytes");
    prints_to(rt, alloc, tc.log(), want.as_slice());
}

// What the two log.
#[test]
fn put_and_abort_logged(rt: HostRuntime) {
    with_state(&rt, rt.alloc(), put_and_abort_are_logged);
}

// A call of `put` under 5, where a record stands or another transaction has it.
fn put_again(rt: &impl Abort, alloc: Global) -> Call {
    call(alloc, PUT, &[5, 1]).expect(rt, "no call")
}

// A delete behind a put, and another put beside it; nothing stands in the way of this call yet.
fn delete_and_put(
    rt: &impl Abort,
    alloc: Global,
    tc: &mut TcState,
    again: &Call,
) -> (TxnId, TxnId) {
    let delete = behind_put(rt, alloc, tc, DROP);
    let put = admitted(rt, alloc, tc, (PUT, &[6, 1]), 3);
    is_same(rt, tc.blocked(again), false);
    (delete, put)
}

// The row is deleted, and is to be put back.
fn deleted(rt: &impl Abort, tc: &mut TcState, delete: TxnId) {
    let wire = wire(2, 1, Op::Delete(record(5)));
    asks(rt, tc, delete, wire, Said::Done(Some(value(100))));
    ask_is(rt, tc, delete, ("undoing", 0));
}

// The put takes the row's place, and commits.
fn put_beside(rt: &impl Abort, tc: &mut TcState, put: TxnId) {
    let insert = wire(3, 2, Op::Insert(record(6), value(1)));
    asks(rt, tc, put, insert, Said::Done(None));
    undo_is(rt, tc, put, ("running", 0));
    ends(rt, tc, put, 10, Outcome::Committed);
}

// The row isn't put back under four numbers: there is no room.
fn not_put_back(rt: &impl Abort, tc: &mut TcState, delete: TxnId) {
    for number in 4..8u64 {
        let insert = wire(number, number - 1, Op::Insert(record(5), value(100)));
        undoes(rt, tc, delete, insert, Said::NoRoom);
    }
}

// It is stuck and doesn't end, and no other is open.
fn is_stuck(rt: &impl Abort, tc: &mut TcState, delete: TxnId) {
    undo_is(rt, tc, delete, ("stuck", 7));
    ask_is(rt, tc, delete, ("stuck", 7));
    is_same(rt, tc.end(delete), Err(NotOver));
    is_same(rt, tc.open_count(), 1);
}

// It stands in the way of the call.
fn is_in_the_way(rt: &impl Abort, tc: &mut TcState, again: &Call) {
    let busy = Busy {
        name: record(5),
        holder: 2,
    };
    is_same(rt, tc.admit(again), Err(Refusal::Busy(busy)));
    is_same(rt, tc.blocked(again), true);
}

// The two transactions are admitted.
fn two_admitted(rt: &impl Abort, alloc: Global, tc: &mut TcState) {
    let again = put_again(rt, alloc);
    let _both = delete_and_put(rt, alloc, tc, &again);
    drop(again);
}

// Asks for memory as often as the next test does, which asks for none behind the admissions.
#[test]
fn delete_admitted(rt: HostRuntime) {
    with_state(&rt, rt.alloc(), two_admitted);
}

// A delete that can't be undone, since the row's place was taken.
fn delete_is_stuck(rt: &impl Abort, alloc: Global, tc: &mut TcState) {
    let again = put_again(rt, alloc);
    let (delete, put) = delete_and_put(rt, alloc, tc, &again);
    deleted(rt, tc, delete);
    put_beside(rt, tc, put);
    not_put_back(rt, tc, delete);
    is_stuck(rt, tc, delete);
    is_in_the_way(rt, tc, &again);
    drop(again);
}

#[test]
fn delete_stuck(rt: HostRuntime) {
    with_state(&rt, rt.alloc(), delete_is_stuck);
}

// Why `put` isn't loaded under this name; none where it is.
fn refusal(alloc: Global, tc: &mut TcState, name: &str) -> Option<LoadRefusal> {
    let LoadFault { why, code } = tc.load(name, put_procedure(alloc, 1)?).err()?;
    drop(code);
    Some(why)
}

// A name that is taken, and a slot of a data component that isn't there.
fn are_not_loaded(rt: &impl Abort, alloc: Global, tc: &mut TcState) {
    is_same(rt, refusal(alloc, tc, "put"), Some(LoadRefusal::NameTaken));
    is_same(
        rt,
        refusal(alloc, tc, "far"),
        Some(LoadRefusal::DcUnknown(0)),
    );
}

#[test]
fn procedures_not_loaded(rt: HostRuntime) {
    with_state(&rt, rt.alloc(), are_not_loaded);
}

fn are_lent(rt: &impl Abort, procs: &Procs) {
    is_same(
        rt,
        (procs.dcs(), procs.len(), procs.is_empty()),
        (1, 5, false),
    );
    let are_there = (procs.get(DROP).is_some(), procs.get(5).is_some());
    is_same(rt, are_there, (true, false));
    is_same(
        rt,
        (procs.find("bad"), procs.name(BAD)),
        (Some(BAD), Some("bad")),
    );
}

// The procedures by their names.
fn are_loaded(rt: &impl Abort, _alloc: Global, tc: &mut TcState) {
    is_same(rt, (tc.find("drop"), tc.find("far")), (Some(DROP), None));
    is_same(rt, tc.dcs(), 1);
    are_lent(rt, tc.procs());
}

#[test]
fn procedures_that_are_loaded(rt: HostRuntime) {
    with_state(&rt, rt.alloc(), are_loaded);
}

// A call of the procedure with this number isn't admitted, and isn't blocked by what is open.
fn is_refused(
    rt: &impl Abort,
    alloc: Global,
    tc: &mut TcState,
    (proc, args): (usize, &[u64]),
    why: Refusal,
) {
    let call = call(alloc, proc, args).expect(rt, "no call");
    is_same(rt, (tc.admit(&call), tc.blocked(&call)), (Err(why), false));
    drop(call);
}

// The serial number of the transaction that is found under this one.
fn found(tc: &TcState, serial: u64) -> Option<u64> {
    Some(tc.find_txn(serial)?.serial())
}

// No such procedure, and too few arguments; the first transaction is open, and no other.
fn two_are_refused(rt: &impl Abort, alloc: Global, tc: &mut TcState) {
    let _put = before_put(rt, alloc, tc);
    is_refused(rt, alloc, tc, (5, &[]), Refusal::NoProcedure);
    is_refused(rt, alloc, tc, (PUT, &[5]), Refusal::ArgumentCount);
    is_same(rt, (found(tc, 1), found(tc, 2)), (Some(1), None));
}

#[test]
fn calls_that_are_refused(rt: HostRuntime) {
    with_state(&rt, rt.alloc(), two_are_refused);
}

// The request, to which the reply is a stranger.
fn still_open(rt: &impl Abort, tc: &mut TcState, request: Request, reply: Reply) -> Request {
    match tc.answer(request, reply) {
        Ok(()) => panic!(rt; "answered"),
        Err(Stranger { request }) => request,
    }
}

// A value is no answer to an insert: the request comes back, and is given up.
fn not_answered(rt: &impl Abort, tc: &mut TcState, request: Request) {
    let reply = Reply {
        number: 1,
        incarnation: 0,
        said: Said::Value(value(7)),
    };
    let request = still_open(rt, tc, request, reply);
    is_same(rt, tc.give_up(request), 1);
}

// The first request of a put.
fn is_for_put(rt: &impl Abort, request: &Request) {
    is_same(rt, (request.txn(), request.number()), (1, 1));
    is_same(rt, request.op(), Op::Insert(record(5), value(100)));
}

// The put asks, and isn't answered.
fn asked_for_put(rt: &impl Abort, tc: &mut TcState, txn: TxnId) {
    let request = request_in(rt, tc.ask(txn));
    is_for_put(rt, &request);
    not_answered(rt, tc, request);
}

// A reply that isn't one, and a number that is given up: the transaction waits for its request, and what wants its
// lock is blocked.
fn is_given_up(rt: &impl Abort, alloc: Global, tc: &mut TcState) {
    let txn = before_put(rt, alloc, tc);
    asked_for_put(rt, tc, txn);
    ask_is(rt, tc, txn, ("waits", 1));
    let again = put_again(rt, alloc);
    is_same(rt, (tc.blocked(&again), tc.log().len()), (true, 2));
    drop(again);
}

#[test]
fn a_request_given_up(rt: HostRuntime) {
    with_state(&rt, rt.alloc(), is_given_up);
}

// That the insert was done, as this incarnation says it.
fn inserted(incarnation: u64) -> Reply {
    Reply {
        number: 1,
        incarnation,
        said: Said::Done(None),
    }
}

// Behind a restart nothing is an answer until the redo is over, and then what the incarnation says that was told.
fn restarted_meanwhile(rt: &impl Abort, tc: &mut TcState, txn: TxnId) {
    let news = News {
        incarnation: 1,
        mark: 0,
    };
    let request = request_in(rt, tc.ask(txn));
    is_same(rt, tc.told(0, news), Ok(()));
    let request = still_open(rt, tc, request, inserted(1));
    is_same(rt, tc.redo_next(0), Redo::Finished);
    let request = still_open(rt, tc, request, inserted(0));
    answered(rt, tc, request, inserted(1));
}

fn put_over_a_restart(rt: &impl Abort, alloc: Global, tc: &mut TcState) {
    let txn = before_put(rt, alloc, tc);
    restarted_meanwhile(rt, tc, txn);
    ask_is(rt, tc, txn, ("over", 0));
}

#[test]
fn answers_of_the_incarnation_that_was_told(rt: HostRuntime) {
    with_state(&rt, rt.alloc(), put_over_a_restart);
}

// Its request is made again, and answered.
fn taken_up_again(rt: &impl Abort, tc: &mut TcState, txn: TxnId) {
    match tc.request(txn) {
        Some(request) => answered(rt, tc, request, inserted(0)),
        None => panic!(rt; "no request"),
    }
}

// A number that was given up is answered after all: what wants the lock is blocked until then.
fn is_answered_after_all(rt: &impl Abort, alloc: Global, tc: &mut TcState) {
    let txn = before_put(rt, alloc, tc);
    asked_for_put(rt, tc, txn);
    let again = put_again(rt, alloc);
    is_same(rt, tc.blocked(&again), true);
    taken_up_again(rt, tc, txn);
    is_same(rt, (tc.blocked(&again), tc.log().len()), (false, 3));
    drop(again);
    ask_is(rt, tc, txn, ("over", 0));
}

#[test]
fn a_number_given_up_and_answered(rt: HostRuntime) {
    with_state(&rt, rt.alloc(), is_answered_after_all);
}
