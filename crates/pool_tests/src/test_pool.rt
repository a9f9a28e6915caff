//! Runs of calls by workers, of which the tests look at the answers.

use crate::test_state::{calls_of, dc, state};
use access_slots::slot::Value;
use data_component::dc::Dc;
use dc_links::{Link, LockedDcs};
use journals::NoJournal;
use samples::{PUT, record, value};
use std::alloc::{AllocError, Global};
use std::fmt::Debug;
use std::process::Abort;
use std::sync::Wait;
use std::sync::atomic::{AtomicU64, Ordering};
use std::thread;
use std::thread::Threads;
use tc_core::state::{Call, TcState};
use worker_pool::{Answer, Gate, OpenGate, Report, RunFault, run};

/// What was found is what was wanted. It stands here once, since the proof of each function that has an `assert_eq!`
/// of its own takes as long again.
pub(crate) fn is_same<T: PartialEq + Debug + Drop>(rt: &impl Abort, found: T, wanted: T) {
    assert_eq!(rt; found, wanted);
}

/// A data component with room for so many rows, behind a lock.
pub(crate) fn locked_dc(alloc: Global, rows: usize) -> Result<LockedDcs, AllocError> {
    let mut dcs = Vec::new(alloc);
    dcs.push(dc(alloc, rows)?)?;
    LockedDcs::new(alloc, dcs)
}

fn push_both(alloc: Global, dcs: &mut Vec<Dc>, rows: usize) -> Result<(), AllocError> {
    dcs.push(dc(alloc, rows)?)?;
    dcs.push(dc(alloc, rows)?)?;
    Ok(())
}

/// Both data components that the state knows, each with room for so many rows.
pub(crate) fn two_locked_dcs(alloc: Global, rows: usize) -> Result<LockedDcs, AllocError> {
    let mut dcs = Vec::new(alloc);
    push_both(alloc, &mut dcs, rows)?;
    LockedDcs::new(alloc, dcs)
}

/// The value of a row, where no worker is at work.
pub(crate) fn value_at(dcs: &mut LockedDcs, key: u64) -> Option<Value> {
    dcs.get_mut(0)?.get(&record(key))
}

/// The report of calls that were begun.
pub(crate) fn begun(rt: &impl Abort, ran: Result<Report, RunFault>) -> Report {
    match ran {
        Ok(report) => report,
        Err(fault) => {
            drop(fault.into_state());
            panic!(rt; "no call was begun");
        }
    }
}

/// The answers, without the state.
pub(crate) fn answers_of(report: Report) -> Vec<Answer> {
    let Report { state, answers } = report;
    drop(state);
    answers
}

/// The state, without the answers.
pub(crate) fn state_of(report: Report) -> TcState {
    let Report { state, answers } = report;
    drop(answers);
    state
}

/// What these calls are answered by so many workers, each request sent three times at most.
pub(crate) fn answers<R: Threads + Wait + Sync + Abort, L: Link + Sync, G: Gate + Sync>(
    rt: &R,
    alloc: Global,
    state: TcState,
    calls: &[Call],
    workers: usize,
    link: &L,
    gate: &G,
) -> Vec<Answer> {
    let (_, ran) = run(rt, alloc, state, calls, workers, 3, link, gate, NoJournal);
    answers_of(begun(rt, ran))
}

/// What these calls are answered where nothing is before them.
pub(crate) fn first_answers<R: Threads + Wait + Sync + Abort, L: Link + Sync, G: Gate + Sync>(
    rt: &R,
    alloc: Global,
    calls: Vec<Call>,
    workers: usize,
    link: &L,
    gate: &G,
) -> Vec<Answer> {
    let state = state(rt, alloc);
    let answers = answers(rt, alloc, state, calls.as_slice(), workers, link, gate);
    drop(calls);
    answers
}

/// The state after `put 5 100` by one worker, whose end is the fourth event.
pub(crate) fn behind_put<R: Threads + Wait + Sync + Abort, L: Link + Sync>(
    rt: &R,
    alloc: Global,
    link: &L,
) -> TcState {
    let first = calls_of(rt, alloc, &[(PUT, &[5, 100])]);
    let state = state(rt, alloc);
    let (_, ran) = run(
        rt,
        alloc,
        state,
        first.as_slice(),
        1,
        3,
        link,
        &OpenGate,
        NoJournal,
    );
    drop(first);
    let report = begun(rt, ran);
    is_same(rt, report.ends(), 1);
    is_same(
        rt,
        report.answers.as_slice(),
        [Answer::Committed(3)].as_slice(),
    );
    state_of(report)
}

/// What these calls are answered behind `put 5 100`.
pub(crate) fn answers_behind_put<R: Threads + Wait + Sync + Abort, L: Link + Sync>(
    rt: &R,
    alloc: Global,
    calls: Vec<Call>,
    workers: usize,
    link: &L,
) -> Vec<Answer> {
    let state = behind_put(rt, alloc, link);
    let answers = answers(rt, alloc, state, calls.as_slice(), workers, link, &OpenGate);
    drop(calls);
    answers
}

/// Sees that record 5 holds this number, where no worker is at work.
pub(crate) fn holds(rt: &impl Abort, dcs: &mut LockedDcs, number: u64) {
    is_same(rt, value_at(dcs, 5), Some(value(number)));
}

/// Whether so many calls were made, and all are committed.
pub(crate) fn all_commit(answers: &[Answer], calls: usize) -> bool {
    answers.len() == calls
        && answers
            .iter()
            .all(|answer| matches!(answer, Answer::Committed(_)))
}

/// Sees that so many calls were made, and all are committed.
pub(crate) fn are_committed(rt: &impl Abort, answers: &[Answer], calls: usize) {
    assert!(rt; all_commit(answers, calls));
}

// A turn is one look at an atomic flag, and yields; says whether the flag was set in time.
fn is_set_in_time(flag: &AtomicU64) -> bool {
    for _ in 0..100_000_000u64 {
        if flag.load(Ordering::SeqCst) == 1 {
            return true;
        }
        thread::yield_now();
    }
    false
}

/// What holds call 0 until call 1 is answered, for so long as a test may take.
#[derive(Drop)]
pub(crate) struct Hold {
    is_answered: AtomicU64,
    is_too_late: AtomicU64,
}

impl Hold {
    pub(crate) fn new() -> Hold {
        Hold {
            is_answered: AtomicU64::new(0),
            is_too_late: AtomicU64::new(0),
        }
    }

    /// Holds who calls it.
    pub(crate) fn wait(&self) {
        if !is_set_in_time(&self.is_answered) {
            self.is_too_late.store(1, Ordering::SeqCst);
        }
    }

    /// Ends the holding where this is call 1.
    pub(crate) fn answered(&self, call: usize) {
        if call == 1 {
            self.is_answered.store(1, Ordering::SeqCst);
        }
    }

    /// Whether it held for too long.
    pub(crate) fn is_too_late(&self) -> bool {
        self.is_too_late.load(Ordering::SeqCst) == 1
    }
}
