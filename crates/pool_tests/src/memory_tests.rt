// Calls by workers where a request for memory is refused: what is refused is asked for once more,
// so each test passes wherever one request of its run is refused.

use crate::test_pool::{answers_of, is_same, locked_dc, value_at};
use crate::test_state::{loaded, puts, state};
use access_slots::slot::Value;
use dc_links::LockedDcs;
use journals::NoJournal;
use samples::value;
use std::alloc::{AllocError, Global};
use std::process::Abort;
use std::sync::Wait;
use std::thread::Threads;
use tc_core::state::{Call, Refusal, TcState};
use worker_pool::{Answer, OpenGate, run};

fn state_in_the_end(rt: &impl Abort, alloc: Global) -> TcState {
    match loaded(alloc) {
        Some(state) => state,
        None => state(rt, alloc),
    }
}

fn link_in_the_end(alloc: Global) -> Result<LockedDcs, AllocError> {
    match locked_dc(alloc, 4) {
        Ok(link) => Ok(link),
        Err(_) => locked_dc(alloc, 4),
    }
}

// `put` under 0, 1 and 2.
fn calls_in_the_end(alloc: Global) -> Result<Vec<Call>, AllocError> {
    match puts(alloc, 3, 100) {
        Ok(calls) => Ok(calls),
        Err(_) => puts(alloc, 3, 100),
    }
}

// What the calls are answered, or the state that comes back.
fn begun<R: Threads + Wait + Sync>(
    rt: &R,
    alloc: Global,
    state: TcState,
    calls: &[Call],
    workers: usize,
    link: &LockedDcs,
) -> Result<Vec<Answer>, TcState> {
    let (_, ran) = run(
        rt, alloc, state, calls, workers, 3, link, &OpenGate, NoJournal,
    );
    match ran {
        Ok(report) => Ok(answers_of(report)),
        Err(fault) => Err(fault.into_state()),
    }
}

// The same on a state that came back, in which nothing has happened.
fn begun_again<R: Threads + Wait + Sync + Abort>(
    rt: &R,
    alloc: Global,
    back: TcState,
    calls: &[Call],
    workers: usize,
    link: &LockedDcs,
) -> Vec<Answer> {
    is_same(rt, back.log().len(), 0);
    match begun(rt, alloc, back, calls, workers, link) {
        Ok(answers) => answers,
        Err(back) => {
            drop(back);
            panic!(rt; "no call was begun");
        }
    }
}

fn answers<R: Threads + Wait + Sync + Abort>(
    rt: &R,
    alloc: Global,
    calls: &[Call],
    workers: usize,
    link: &LockedDcs,
) -> Vec<Answer> {
    let state = state_in_the_end(rt, alloc);
    match begun(rt, alloc, state, calls, workers, link) {
        Ok(answers) => answers,
        Err(back) => begun_again(rt, alloc, back, calls, workers, link),
    }
}

// The row that a call leaves. One that isn't admitted for want of memory leaves none.
fn left_by(rt: &impl Abort, answer: &Answer) -> Option<Value> {
    match answer {
        Answer::Committed(_) => Some(value(100)),
        Answer::Refused(Refusal::Memory) => None,
        _ => panic!(rt; "another answer"),
    }
}

// Where a call isn't admitted, those that were go on to their ends.
fn rows_are_those(rt: &impl Abort, link: &mut LockedDcs, answers: &[Answer]) {
    for (key, answer) in (0..3u64).zip(answers) {
        is_same(rt, value_at(link, key), left_by(rt, answer));
    }
}

fn run_puts<R: Threads + Wait + Sync + Abort>(rt: &R, alloc: Global, workers: usize) {
    let mut link = link_in_the_end(alloc).expect(rt, "no link");
    let calls = calls_in_the_end(alloc).expect(rt, "no calls");
    let answers = answers(rt, alloc, calls.as_slice(), workers, &link);
    is_same(rt, answers.len(), 3);
    rows_are_those(rt, &mut link, answers.as_slice());
    drop(calls);
    drop(link);
}

#[test]
fn calls_by_one_worker(rt: HostRuntime) {
    run_puts(&rt, rt.alloc(), 1);
}

#[test]
fn calls_by_two_workers(rt: HostRuntime) {
    run_puts(&rt, rt.alloc(), 2);
}
