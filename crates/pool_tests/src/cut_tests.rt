// Lists of calls between which the log begins anew.

use crate::test_pool::{are_committed, begun, is_same, two_locked_dcs, value_at};
use crate::test_state::{calls_of, puts, state};
use dc_links::LockedDcs;
use journals::NoJournal;
use samples::{MOVE, value};
use std::alloc::Global;
use std::process::Abort;
use std::sync::Wait;
use std::thread::Threads;
use tc_core::state::{Call, TcState};
use tc_world::cutting::cut;
use worker_pool::{OpenGate, Report, run};

// The state behind these calls, all of which commit.
fn behind<R: Threads + Wait + Sync + Abort>(
    rt: &R,
    alloc: Global,
    state: TcState,
    calls: Vec<Call>,
    workers: usize,
    link: &LockedDcs,
) -> TcState {
    let count = calls.len();
    let (_, ran) = run(
        rt,
        alloc,
        state,
        calls.as_slice(),
        workers,
        3,
        link,
        &OpenGate,
        NoJournal,
    );
    drop(calls);
    let Report { state, answers } = begun(rt, ran);
    are_committed(rt, answers.as_slice(), count);
    drop(answers);
    state
}

// One from each of the first four records to the one four keys on.
fn four_moves(rt: &impl Abort, alloc: Global) -> Vec<Call> {
    calls_of(
        rt,
        alloc,
        &[
            (MOVE, &[0, 4, 1]),
            (MOVE, &[1, 5, 1]),
            (MOVE, &[2, 6, 1]),
            (MOVE, &[3, 7, 1]),
        ],
    )
}

// The log begins anew, and its data components forget what they have performed.
fn cut_once(rt: &impl Abort, alloc: Global, state: &mut TcState, link: LockedDcs) -> LockedDcs {
    let mut dcs = link.into_dcs(alloc).expect(rt, "no components");
    is_same(rt, cut(alloc, state, &mut dcs).is_ok(), true);
    is_same(rt, state.log().len(), 1);
    LockedDcs::new(alloc, dcs).expect(rt, "no link")
}

// The log has the checkpoint and ten events a move: its beginning, four requests and their answers, its end.
fn cut_between<R: Threads + Wait + Sync + Abort>(rt: &R, alloc: Global, workers: usize) {
    let link = two_locked_dcs(alloc, 8).expect(rt, "no components");
    let first = puts(alloc, 8, 1).expect(rt, "no calls");
    let empty = state(rt, alloc);
    let mut state = behind(rt, alloc, empty, first, workers, &link);
    let mut link = cut_once(rt, alloc, &mut state, link);
    let second = four_moves(rt, alloc);
    let state = behind(rt, alloc, state, second, workers, &link);
    is_same(rt, state.log().len(), 41);
    for key in 0..4u64 {
        is_same(rt, value_at(&mut link, key), Some(value(0)));
    }
    for key in 4..8u64 {
        is_same(rt, value_at(&mut link, key), Some(value(2)));
    }
    drop(state);
    drop(link);
}

// Puts, a checkpoint, and moves of what was put: all commit, and the log has the moves alone.
#[test]
fn a_checkpoint_between_two_lists(rt: HostRuntime) {
    for workers in [1usize, 4, 8] {
        cut_between(&rt, rt.alloc(), workers);
    }
}
