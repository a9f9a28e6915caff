// How many calls a worker has on their way at a time: several by several workers over what is prompt, and one
// over all else.

use crate::test_pool::{are_committed, first_answers, is_same, locked_dc};
use crate::test_state::puts;
use access_slots::op::{News, Reply, Wire};
use dc_links::{Link, LockedDcs, Outstanding};
use std::alloc::{AllocError, Global};
use std::process::Abort;
use std::sync::Wait;
use std::sync::atomic::{AtomicU64, Ordering};
use std::thread::Threads;
use worker_pool::{Acknowledgement, Gate, OpenGate, RunSpec};

// A link that knows the most wires that were carried together.
#[derive(Drop)]
struct Together {
    dcs: LockedDcs,
    is_prompt: bool,
    most: AtomicU64,
}

impl Together {
    fn new(alloc: Global, is_prompt: bool) -> Result<Together, AllocError> {
        Ok(Together {
            dcs: locked_dc(alloc, 64)?,
            is_prompt,
            most: AtomicU64::new(0),
        })
    }

    fn most(&self) -> u64 {
        self.most.load(Ordering::SeqCst)
    }
}

impl Link for Together {
    fn carry<R: Wait>(&self, rt: &R, worker: usize, wire: &Wire) -> Option<Reply> {
        self.dcs.carry(rt, worker, wire)
    }

    fn news<R: Wait>(&self, _rt: &R, _worker: usize, _dc: u16) -> Option<News> {
        None
    }

    fn is_prompt(&self) -> bool {
        self.is_prompt
    }

    fn carry_all<O: Outstanding, R: Wait>(&self, rt: &R, worker: usize, requests: &mut [O]) {
        let count = requests.iter().filter(|r| r.wire().is_some()).count();
        self.most.fetch_max(count as u64, Ordering::SeqCst);
        self.dcs.carry_all(rt, worker, requests);
    }
}

// A gate that may take long.
#[derive(Drop)]
struct Slow;

impl Gate for Slow {
    fn begun(&self, _call: usize) {}

    fn answered<J: RunSpec>(&self, _acknowledgement: &Acknowledgement<J>) {}
}

// So many wires are carried together at most, while 64 calls are run that all commit, none in the way of another.
fn carried_together<R: Threads + Wait + Sync + Abort, G: Gate + Sync>(
    rt: &R,
    alloc: Global,
    (workers, is_prompt): (usize, bool),
    gate: &G,
    most: u64,
) {
    let link = Together::new(alloc, is_prompt).expect(rt, "no link");
    let calls = puts(alloc, 64, 1).expect(rt, "no calls");
    let answers = first_answers(rt, alloc, calls, workers, &link, gate);
    are_committed(rt, answers.as_slice(), 64);
    drop(answers);
    is_same(rt, link.most(), most);
    drop(link);
}

#[test]
fn eight_calls_of_a_worker_over_a_prompt_link(rt: HostRuntime) {
    carried_together(&rt, rt.alloc(), (2, true), &OpenGate, 8);
}

#[test]
fn one_call_of_a_worker_over_another_link(rt: HostRuntime) {
    carried_together(&rt, rt.alloc(), (2, false), &OpenGate, 1);
}

#[test]
fn one_call_of_a_worker_with_a_gate_that_is_not_prompt(rt: HostRuntime) {
    carried_together(&rt, rt.alloc(), (2, true), &Slow, 1);
}

#[test]
fn one_call_of_one_worker(rt: HostRuntime) {
    carried_together(&rt, rt.alloc(), (1, true), &OpenGate, 1);
}
