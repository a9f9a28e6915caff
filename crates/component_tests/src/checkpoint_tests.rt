// A log that begins anew, and what bars it.

use crate::checks::is_same;
use crate::state_tests::{admitted, ask_is, asks, ends, put_commits, wire, with_state};
use access_slots::op::{News, Op, Said};
use samples::{PUT, record, value};
use std::alloc::Global;
use std::process::Abort;
use tc_core::CheckpointFault;
use tc_core::state::{NewsFault, TcState, TxnId};
use tc_log::event::{Entry, Outcome};

const NEWS: News = News {
    incarnation: 1,
    mark: 1,
};

// It isn't begun anew, and is as it was.
fn is_barred(rt: &impl Abort, tc: &mut TcState, kept: &[u64], fault: CheckpointFault) {
    let events = tc.log().len();
    is_same(rt, tc.checkpoint(kept), Err(fault));
    is_same(rt, (tc.log().len(), tc.begun()), (events, 0));
}

fn one_is_open(rt: &impl Abort, alloc: Global, tc: &mut TcState) -> TxnId {
    is_barred(rt, tc, &[9], CheckpointFault::Nothing);
    put_commits(rt, alloc, tc);
    let open = admitted(rt, alloc, tc, (PUT, &[6, 1]), 2);
    is_barred(rt, tc, &[9], CheckpointFault::Open(1));
    open
}

// One mark for the one data component, which has kept number 1 but not number 2; then it is down.
fn second_is_kept(rt: &impl Abort, tc: &mut TcState, open: TxnId) {
    let insert = Op::Insert(record(6), value(1));
    asks(rt, tc, open, wire(2, 1, insert), Said::Done(None));
    ask_is(rt, tc, open, ("over", 0));
    ends(rt, tc, open, 7, Outcome::Committed);
    is_barred(rt, tc, &[], CheckpointFault::DcCount);
    is_barred(rt, tc, &[2, 2], CheckpointFault::DcCount);
    is_barred(rt, tc, &[1], CheckpointFault::Behind);
}

fn begins(rt: &impl Abort, tc: &mut TcState) {
    is_same(rt, (tc.checkpoint(&[2]), tc.begun()), (Ok(()), 2));
    is_same(rt, (tc.log().len(), tc.low_water()), (1, 2));
    let is_first = matches!(
        tc.log().at(0),
        Some(Entry::Checkpoint {
            admitted: 2,
            given: 2
        })
    );
    is_same(rt, is_first, true);
    is_same(rt, tc.told(0, NEWS), Err(NewsFault::Forgotten));
}

// Serial numbers and numbers go on, and places count anew.
fn goes_on(rt: &impl Abort, alloc: Global, tc: &mut TcState) {
    let third = admitted(rt, alloc, tc, (PUT, &[7, 1]), 3);
    let insert = Op::Insert(record(7), value(1));
    asks(rt, tc, third, wire(3, 2, insert), Said::Done(None));
    ask_is(rt, tc, third, ("over", 0));
    ends(rt, tc, third, 4, Outcome::Committed);
}

fn begins_anew(rt: &impl Abort, alloc: Global, tc: &mut TcState) {
    let open = one_is_open(rt, alloc, tc);
    second_is_kept(rt, tc, open);
    begins(rt, tc);
    goes_on(rt, alloc, tc);
}

#[test]
fn a_log_begins_anew(rt: HostRuntime) {
    with_state(&rt, rt.alloc(), begins_anew);
}

fn down_bars(rt: &impl Abort, alloc: Global, tc: &mut TcState) {
    put_commits(rt, alloc, tc);
    is_same(rt, tc.told(0, NEWS), Ok(()));
    is_barred(rt, tc, &[1], CheckpointFault::Down);
}

#[test]
fn a_component_that_is_down_bars_it(rt: HostRuntime) {
    with_state(&rt, rt.alloc(), down_bars);
}
