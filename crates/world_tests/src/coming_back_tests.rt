// A state and new data components that come back from each beginning of a log.

use crate::checks::is_same;
use crate::step_tests::{admit, closed, is_carried, new_dcs, sent, stepped, world};
use access_slots::slot::Value;
use audit::auditing::audit;
use coming_back::{ComeBackFault, Resumed, come_back};
use data_component::dc::Dc;
use samples::{BAD, MOVE, PUT, loaded, record, value};
use std::alloc::Global;
use std::process::Abort;
use tc_core::checking::CheckFault;
use tc_core::recovery::RecoverFault;
use tc_core::state::TcState;
use tc_log::log::Log;
use tc_world::{Step, World};

const RECORD: usize = 96;

// So many events are of the three calls of `put`.
const PUTS: usize = 12;

// Fewer operations than they have.
const SMALL: usize = 2;

// A wire is sent by the step, and comes to its component, and the reply back.
fn carried(world: &mut World, step: Step) -> bool {
    match sent(world, step) {
        Some(place) => is_carried(world, place),
        None => false,
    }
}

// One operation of the transaction, where it has one; else its end.
fn moves(world: &mut World, txn: u64) {
    if !carried(world, Step::Ask(txn)) && !carried(world, Step::Undo(txn)) {
        let _ = stepped(world, Step::End(txn));
    }
}

/// One operation of each of both transactions, as long as they have one; then their ends.
pub(crate) fn both_end(world: &mut World, one: u64, other: u64) {
    for _ in 0..20 {
        moves(world, one);
        moves(world, other);
    }
}

/// A put, to its end.
pub(crate) fn put_ends(rt: &impl Abort, alloc: Global, world: &mut World, txn: u64, args: &[u64]) {
    let _ = stepped(world, admit(rt, alloc, (PUT, args)));
    both_end(world, txn, txn);
}

// Three puts, one after another; then a move and a write that is undone, both open at once.
fn live(rt: &impl Abort, alloc: Global, world: &mut World) {
    put_ends(rt, alloc, world, 1, &[5, 100]);
    put_ends(rt, alloc, world, 2, &[6, 50]);
    put_ends(rt, alloc, world, 3, &[7, 1]);
    let _ = stepped(world, admit(rt, alloc, (MOVE, &[5, 6, 10])));
    let _ = stepped(world, admit(rt, alloc, (BAD, &[7])));
    both_end(world, 4, 5);
}

// The bytes of the log behind the five calls.
fn written(rt: &impl Abort, alloc: Global) -> Vec<u8> {
    let mut world = world(rt, alloc);
    live(rt, alloc, &mut world);
    is_same(rt, world.state().open_count(), 0);
    let bytes = world.state().log().print(alloc).expect(rt, "not printed");
    closed(world);
    bytes
}

// The log of so many of the first events.
fn beginning(rt: &impl Abort, alloc: Global, bytes: &[u8], events: usize) -> Log {
    let first = bytes
        .get(..events.saturating_mul(RECORD))
        .expect(rt, "too few events");
    Log::read(alloc, first).expect(rt, "not read")
}

// What came back: the state, its component, and what came of open transactions.
#[derive(Drop)]
struct Back {
    state: TcState,
    dcs: Vec<Dc>,
    resumed: Result<Vec<Resumed>, ComeBackFault>,
}

// The state and a component for so many operations come back from so many of the first events.
fn brought_back(rt: &impl Abort, alloc: Global, bytes: &[u8], events: usize, ops: usize) -> Back {
    let log = beginning(rt, alloc, bytes, events);
    let mut state = loaded(alloc, 1).expect(rt, "not loaded");
    let mut dcs = new_dcs(rt, alloc, ops);
    let resumed = come_back(alloc, &mut state, dcs.as_mut_slice(), &log);
    drop(log);
    Back {
        state,
        dcs,
        resumed,
    }
}

// From so many of the events of the five calls.
fn behind(rt: &impl Abort, alloc: Global, events: usize, ops: usize) -> Back {
    let bytes = written(rt, alloc);
    let back = brought_back(rt, alloc, bytes.as_slice(), events, ops);
    drop(bytes);
    back
}

fn row(dcs: &[Dc], key: u64) -> Option<Value> {
    dcs.first()?.get(&record(key))
}

// The value under a key once the call that was admitted behind so many events has ended, or the one before.
fn expected(events: usize, admitted_at: usize, then: u64, before: Option<Value>) -> Option<Value> {
    if events > admitted_at {
        Some(value(then))
    } else {
        before
    }
}

fn row_is(rt: &impl Abort, dcs: &[Dc], key: u64, wanted: Option<Value>, events: usize) {
    is_same(rt, (events, row(dcs, key)), (events, wanted));
}

fn rows_are(rt: &impl Abort, dcs: &[Dc], events: usize) {
    let five = expected(events, 0, 100, None);
    row_is(rt, dcs, 5, expected(events, PUTS, 90, five), events);
    let six = expected(events, 4, 50, None);
    row_is(rt, dcs, 6, expected(events, PUTS, 60, six), events);
    row_is(rt, dcs, 7, expected(events, 8, 1, None), events);
}

// What came of open transactions, where it came back.
fn resumed_in<'a>(rt: &impl Abort, back: &'a Back) -> &'a [Resumed] {
    back.resumed.as_ref().expect(rt, "not back").as_slice()
}

// Whether each that was open has ended.
fn all_ended(resumed: &[Resumed]) -> bool {
    for one in resumed {
        if let Resumed::InDoubt { .. } = one {
            return false;
        }
    }
    true
}

// It came back, each that was open has ended, and an audit has nothing to say.
fn is_back(rt: &impl Abort, alloc: Global, back: &Back, events: usize) {
    let ended = (all_ended(resumed_in(rt, back)), back.state.open_count());
    is_same(rt, (events, ended), (events, (true, 0)));
    rows_are(rt, &back.dcs, events);
    let audited = audit(alloc, back.state.procs(), back.state.log(), &back.dcs);
    is_same(rt, (events, audited.is_ok()), (events, true));
}

fn comes_back(rt: &impl Abort, alloc: Global, bytes: &[u8], events: usize) {
    let back = brought_back(rt, alloc, bytes, events, 100);
    is_back(rt, alloc, &back, events);
    drop(back);
}

#[test]
fn each_beginning_comes_back(rt: HostRuntime) {
    let alloc = rt.alloc();
    let bytes = written(&rt, alloc);
    let events = bytes.len() / RECORD;
    is_same(&rt, events > PUTS, true);
    for count in 0..=events {
        comes_back(&rt, alloc, bytes.as_slice(), count);
    }
}

// Two transactions that ended, and whether the first ended before the other.
fn two_ended(resumed: &[Resumed]) -> Option<(u64, u64, bool)> {
    match resumed {
        [Resumed::Ended(one), Resumed::Ended(other)] => {
            Some((one.txn, other.txn, one.place < other.place))
        }
        _ => None,
    }
}

// Behind the admissions of both transactions both are resumed.
#[test]
fn two_that_were_open_are_named(rt: HostRuntime) {
    let back = behind(&rt, rt.alloc(), PUTS + 2, 100);
    let named = two_ended(resumed_in(&rt, &back));
    is_same(&rt, named, Some((4, 5, true)));
    drop(back);
}

// It didn't come back for this.
fn is_refused(rt: &impl Abort, back: &Back, wanted: ComeBackFault) {
    is_same(rt, back.resumed.as_ref().err(), Some(&wanted));
}

fn without_the_third(bytes: &mut Vec<u8>) {
    for at in (2 * RECORD..3 * RECORD).rev() {
        if at < bytes.len() {
            let _ = bytes.remove(at);
        }
    }
}

// A log whose third event is missing isn't legal from there on.
#[test]
fn a_log_that_is_off_is_refused(rt: HostRuntime) {
    let mut bytes = written(&rt, rt.alloc());
    without_the_third(&mut bytes);
    let back = brought_back(&rt, rt.alloc(), bytes.as_slice(), PUTS - 1, 100);
    let fault = ComeBackFault::Recover(RecoverFault::Unfit(CheckFault::LogIllegal(2)));
    is_refused(&rt, &back, fault);
    is_same(&rt, back.state.log().is_empty(), true);
    drop(back);
}

// A component for fewer operations than are redone.
#[test]
fn a_component_that_is_too_small_is_refused(rt: HostRuntime) {
    let back = behind(&rt, rt.alloc(), PUTS, SMALL);
    is_refused(&rt, &back, ComeBackFault::NoRoom(0));
    drop(back);
}

// One for no more operations than are redone: what goes on is in doubt.
#[test]
fn what_finds_no_room_is_in_doubt(rt: HostRuntime) {
    let back = behind(&rt, rt.alloc(), PUTS + 1, 3);
    let doubt = Resumed::InDoubt { txn: 4, number: 4 };
    is_same(&rt, resumed_in(&rt, &back), [doubt].as_slice());
    is_same(&rt, back.state.open_count(), 1);
    drop(back);
}
