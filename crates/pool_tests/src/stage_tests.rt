// What a gate is told of a call on its way: the stages in their order, a wait, and what is sent again.

use crate::pool_tests::Loses;
use crate::test_pool::{Hold, answers, are_committed, first_answers, is_same, locked_dc};
use crate::test_state::{calls_of, state};
use access_slots::op::{News, Reply, Wire};
use dc_links::{Link, LockedDcs};
use samples::procedures::procedure;
use samples::{PUT, load};
use std::alloc::Global;
use std::process::Abort;
use std::sync::Wait;
use std::sync::atomic::{AtomicU64, Ordering};
use std::thread::Threads;
use worker_pool::{Acknowledgement, Gate, RunSpec, Stage};

// The stages of call 0, a digit each: 1 begun, 2 carried, 3 carried again, 4 back, 5 answered, 6 told, 7 waiting.
#[derive(Drop)]
struct Path {
    stages: AtomicU64,
}

impl Path {
    fn new() -> Path {
        Path {
            stages: AtomicU64::new(0),
        }
    }

    fn add(&self, call: usize, digit: u64) {
        if call == 0 {
            let so_far = self.stages.load(Ordering::SeqCst);
            self.stages.store(
                so_far.wrapping_mul(10).wrapping_add(digit),
                Ordering::SeqCst,
            );
        }
    }
}

impl Gate for Path {
    fn begun(&self, call: usize) {
        self.add(call, 1);
    }

    fn reaches(&self, call: usize, stage: Stage) {
        let digit = match stage {
            Stage::Carried => 2,
            Stage::CarriedAgain => 3,
            Stage::Back => 4,
            Stage::Answered => 5,
            Stage::Waiting => 7,
        };
        self.add(call, digit);
    }

    fn answered<J: RunSpec>(&self, acknowledgement: &Acknowledgement<J>) {
        self.add(acknowledgement.call(), 6);
    }
}

// The same, told under the lock.
#[derive(Drop)]
struct NotedPath {
    path: Path,
}

impl Gate for NotedPath {
    fn begun(&self, call: usize) {
        self.path.begun(call);
    }

    fn reaches(&self, call: usize, stage: Stage) {
        self.path.reaches(call, stage);
    }

    fn answered<J: RunSpec>(&self, acknowledgement: &Acknowledgement<J>) {
        Gate::answered(&self.path, acknowledgement);
    }

    fn only_notes(&self) -> bool {
        true
    }
}

// What such a gate is told of `put 5 1` over a link.
fn stages_of_put<R: Threads + Wait + Sync + Abort, L: Link + Sync>(
    rt: &R,
    alloc: Global,
    link: &L,
) -> u64 {
    let path = Path::new();
    let calls = calls_of(rt, alloc, &[(PUT, &[5, 1])]);
    drop(first_answers(rt, alloc, calls, 2, link, &path));
    path.stages.load(Ordering::SeqCst)
}

// The same of a gate that only notes.
fn noted_stages_of_put<R: Threads + Wait + Sync + Abort, L: Link + Sync>(
    rt: &R,
    alloc: Global,
    link: &L,
) -> u64 {
    let noted = NotedPath { path: Path::new() };
    let calls = calls_of(rt, alloc, &[(PUT, &[5, 1])]);
    drop(first_answers(rt, alloc, calls, 2, link, &noted));
    noted.path.stages.load(Ordering::SeqCst)
}

// By a wire that is carried, and by one that is performed at once.
#[test]
fn a_call_that_is_answered(rt: HostRuntime) {
    let link = locked_dc(rt.alloc(), 4).expect(&rt, "no link");
    is_same(&rt, stages_of_put(&rt, rt.alloc(), &link), 12_456);
    drop(link);
    let link = locked_dc(rt.alloc(), 4).expect(&rt, "no link");
    is_same(&rt, noted_stages_of_put(&rt, rt.alloc(), &link), 12_456);
    drop(link);
}

// Each request is sent three times. A link that performs nothing at once is asked that first.
#[test]
fn a_call_whose_wires_are_lost(rt: HostRuntime) {
    let link = Loses::new();
    is_same(&rt, stages_of_put(&rt, rt.alloc(), &link), 124_343_456);
    let link = Loses::new();
    is_same(
        &rt,
        noted_stages_of_put(&rt, rt.alloc(), &link),
        12_424_343_456,
    );
}

// A procedure without access slots asks nothing, and the gate is told that its call began.
#[test]
fn a_call_that_asks_nothing(rt: HostRuntime) {
    let mut tc = state(&rt, rt.alloc());
    let nothing = procedure(rt.alloc(), 0, &[], "mov r0, 0\nexit\n").expect(&rt, "no procedure");
    let number = load(&mut tc, "nothing", nothing).expect(&rt, "it isn't loaded");
    let path = Path::new();
    let link = locked_dc(rt.alloc(), 4).expect(&rt, "no link");
    let calls = calls_of(&rt, rt.alloc(), &[(number, &[])]);
    let answered = answers(&rt, rt.alloc(), tc, calls.as_slice(), 2, &link, &path);
    are_committed(&rt, answered.as_slice(), 1);
    drop(answered);
    drop(calls);
    drop(link);
    is_same(&rt, path.stages.load(Ordering::SeqCst), 156);
}

// Holds each wire until call 1 waits, and counts the waits.
#[derive(Drop)]
struct HeldUntilWait {
    dcs: LockedDcs,
    hold: Hold,
    waits: AtomicU64,
}

impl Link for HeldUntilWait {
    fn carry<R: Wait>(&self, rt: &R, worker: usize, wire: &Wire) -> Option<Reply> {
        self.hold.wait();
        self.dcs.carry(rt, worker, wire)
    }

    fn news<R: Wait>(&self, _rt: &R, _worker: usize, _dc: u16) -> Option<News> {
        None
    }
}

impl Gate for HeldUntilWait {
    fn begun(&self, _call: usize) {}

    fn reaches(&self, call: usize, stage: Stage) {
        if stage == Stage::Waiting {
            self.waits.fetch_add(1, Ordering::SeqCst);
            self.hold.answered(call);
        }
    }

    fn answered<J: RunSpec>(&self, _acknowledgement: &Acknowledgement<J>) {}
}

// Call 0 is in the way of call 1, and goes on once the gate is told that this one waits.
#[test]
fn a_call_that_waits(rt: HostRuntime) {
    let link = HeldUntilWait {
        dcs: locked_dc(rt.alloc(), 4).expect(&rt, "no components"),
        hold: Hold::new(),
        waits: AtomicU64::new(0),
    };
    let calls = calls_of(&rt, rt.alloc(), &[(PUT, &[5, 1]), (PUT, &[5, 2])]);
    drop(first_answers(&rt, rt.alloc(), calls, 2, &link, &link));
    is_same(&rt, link.hold.is_too_late(), false);
    is_same(&rt, link.waits.load(Ordering::SeqCst), 1);
    drop(link);
}
