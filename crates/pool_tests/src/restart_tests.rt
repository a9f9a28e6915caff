// Runs over a data component that restarts and loses what came after its last checkpoint.

use crate::test_pool::{answers_of, are_committed, begun, behind_put, is_same};
use crate::test_state::{PUT_BESIDE, calls_of, dc, moves, puts, state};
use access_slots::op::{News, Reply, Wire};
use data_component::dc::Dc;
use dc_links::Link;
use journals::NoJournal;
use samples::record;
use std::alloc::{AllocError, Global};
use std::process::Abort;
use std::sync::{Mutex, Wait};
use std::thread::Threads;
use tc_core::state::{Call, TcState};
use worker_pool::{Answer, OpenGate, run};

// How often a request, or what is to be redone before it, is sent at most.
const TRIES: u64 = 10;

// A data component, how often something was carried to it, at which carries it restarts and keeps a
// checkpoint, and what it told of its last restart.
#[derive(Drop)]
struct Restarting {
    dc: Dc,
    carried: u64,
    restart_at: u64,
    checkpoint_at: u64,
    news: Option<News>,
}

impl Restarting {
    // It restarts before the wire comes, and keeps a checkpoint behind it.
    fn perform(&mut self, wire: &Wire) -> Option<Reply> {
        self.carried = self.carried.wrapping_add(1);
        if self.carried.is_multiple_of(self.restart_at) {
            self.news = self.dc.restart().ok();
        }
        let reply = self.dc.perform(wire);
        if self.carried.is_multiple_of(self.checkpoint_at) {
            let _mark = self.dc.checkpoint();
        }
        reply
    }
}

// Carries to one such component, which has this number, and hands its last news out again and again.
#[derive(Drop)]
struct Restarts {
    number: u16,
    // Whether it performs at once too.
    is_at_once: bool,
    dc: Mutex<Restarting>,
}

impl Restarts {
    // A component with room for so many rows that restarts and keeps a checkpoint at every so many
    // carries.
    fn new(
        alloc: Global,
        (number, is_at_once): (u16, bool),
        rows: usize,
        restart_at: u64,
        checkpoint_at: u64,
    ) -> Result<Restarts, AllocError> {
        Ok(Restarts {
            number,
            is_at_once,
            dc: Mutex::new(Restarting {
                dc: dc(alloc, rows)?,
                carried: 0,
                restart_at,
                checkpoint_at,
                news: None,
            }),
        })
    }

    // How often it restarted.
    fn incarnation<R: Wait>(&self, rt: &R) -> u64 {
        self.dc.lock(rt).dc.incarnation()
    }
}

impl Link for Restarts {
    fn carry<R: Wait>(&self, rt: &R, _worker: usize, wire: &Wire) -> Option<Reply> {
        self.dc.lock(rt).perform(wire)
    }

    fn news<R: Wait>(&self, rt: &R, _worker: usize, dc: u16) -> Option<News> {
        if dc != self.number {
            return None;
        }
        self.dc.lock(rt).news
    }

    fn perform_at_once<R: Wait>(&self, rt: &R, wire: &Wire) -> Option<Reply> {
        if !self.is_at_once {
            return None;
        }
        self.dc.lock(rt).perform(wire)
    }
}

// What the calls are answered by so many workers.
fn answers<R: Threads + Wait + Sync + Abort>(
    rt: &R,
    alloc: Global,
    state: TcState,
    calls: &[Call],
    workers: usize,
    link: &Restarts,
) -> Vec<Answer> {
    let (_, ran) = run(
        rt, alloc, state, calls, workers, TRIES, link, &OpenGate, NoJournal,
    );
    answers_of(begun(rt, ran))
}

// Whether an answer is that of a commit, or of a transaction in doubt.
fn is_committed_or_in_doubt(answer: &Answer) -> bool {
    matches!(answer, Answer::Committed(_) | Answer::InDoubt(_))
}

// Whether a call is committed or in doubt, or another that is in doubt has record 5.
fn is_told(answer: &Answer, answers: &[Answer]) -> bool {
    match answer {
        Answer::Blocked(busy) => {
            busy.name == record(5)
                && answers
                    .iter()
                    .any(|other| matches!(other, Answer::InDoubt(_)))
        }
        _ => is_committed_or_in_doubt(answer),
    }
}

fn are_told(rt: &impl Abort, answers: &[Answer], calls: usize) {
    is_same(rt, answers.len(), calls);
    for answer in answers {
        assert!(rt; is_told(answer, answers), "{answer:?}");
    }
}

fn has_restarted<R: Wait + Abort>(rt: &R, link: &Restarts) {
    assert!(rt; link.incarnation(rt) > 1);
}

fn eight_moved<R: Threads + Wait + Sync + Abort>(
    rt: &R,
    alloc: Global,
    is_at_once: bool,
    workers: usize,
) {
    let link = Restarts::new(alloc, (0, is_at_once), 4, 7, 5).expect(rt, "no link");
    let calls = moves(rt, alloc, 1, 8);
    let state = behind_put(rt, alloc, &link);
    let answers = answers(rt, alloc, state, calls.as_slice(), workers, &link);
    are_told(rt, answers.as_slice(), 8);
    has_restarted(rt, &link);
    drop(calls);
    drop(link);
}

// A restart at every seventh carry, a checkpoint at every fifth, and `move 5 5 1` eight times behind
// `put 5 100`.
#[test]
fn eight_moves_over_restarts(rt: HostRuntime) {
    eight_moved(&rt, rt.alloc(), false, 1);
    eight_moved(&rt, rt.alloc(), false, 2);
    eight_moved(&rt, rt.alloc(), false, 8);
}

// The same where wires are performed at once: none while the component is down.
#[test]
fn eight_moves_at_once_over_restarts(rt: HostRuntime) {
    eight_moved(&rt, rt.alloc(), true, 1);
    eight_moved(&rt, rt.alloc(), true, 2);
    eight_moved(&rt, rt.alloc(), true, 8);
}

// Eight workers send and redo beside one another: two hundred calls, each of a key of its own.
#[test]
fn eight_workers_over_restarts(rt: HostRuntime) {
    let link = Restarts::new(rt.alloc(), (0, false), 200, 37, 11).expect(&rt, "no link");
    let calls = puts(rt.alloc(), 200, 1).expect(&rt, "no calls");
    let state = state(&rt, rt.alloc());
    let answers = answers(&rt, rt.alloc(), state, calls.as_slice(), 8, &link);
    are_told(&rt, answers.as_slice(), 200);
    has_restarted(&rt, &link);
    drop(calls);
    drop(link);
}

// News of the second component are asked for where it is silent, and reach it: a restart at every third carry, and
// a checkpoint behind each, so that `put` commits each time.
fn puts_beside<R: Threads + Wait + Sync + Abort>(rt: &R, alloc: Global, is_at_once: bool) {
    let link = Restarts::new(alloc, (1, is_at_once), 4, 3, 1).expect(rt, "no link");
    let calls = calls_of(
        rt,
        alloc,
        &[
            (PUT_BESIDE, &[5, 1]),
            (PUT_BESIDE, &[6, 2]),
            (PUT_BESIDE, &[7, 3]),
            (PUT_BESIDE, &[8, 4]),
        ],
    );
    let state = state(rt, alloc);
    let answers = answers(rt, alloc, state, calls.as_slice(), 1, &link);
    are_committed(rt, answers.as_slice(), 4);
    has_restarted(rt, &link);
    drop(answers);
    drop(calls);
    drop(link);
}

#[test]
fn news_of_the_component_that_restarted(rt: HostRuntime) {
    puts_beside(&rt, rt.alloc(), false);
    puts_beside(&rt, rt.alloc(), true);
}
