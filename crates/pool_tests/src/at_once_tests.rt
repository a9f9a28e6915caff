// Links that perform at once, and gates that only note where a call is begun and that don't.

use crate::pool_tests::Counts;
use crate::test_pool::{
    answers_behind_put, are_committed, first_answers, holds, is_same, locked_dc,
};
use crate::test_state::{calls_of, moves};
use access_slots::op::{News, Reply, Wire};
use dc_links::{Link, LockedDcs};
use samples::{BAD, GET, PUT};
use std::alloc::{AllocError, Global};
use std::process::Abort;
use std::sync::Wait;
use std::sync::atomic::{AtomicU64, Ordering};
use std::thread::Threads;
use worker_pool::{Answer, Gate, OpenGate};

// What a link does that is asked to perform at once.
#[derive(Clone, Copy, Debug)]
enum Manner {
    // It performs each wire.
    Each,
    // Of two wires it performs the second.
    EverySecond,
    // It performs each wire, and the reply has the next number.
    Forges,
}

// Does so, and counts the wires that it is asked to perform at once, and those that it carries.
#[derive(Drop)]
struct Performs {
    manner: Manner,
    dcs: LockedDcs,
    asked: AtomicU64,
    carried: AtomicU64,
}

impl Performs {
    // With room for one row.
    fn new(alloc: Global, manner: Manner) -> Result<Performs, AllocError> {
        Ok(Performs {
            manner,
            dcs: locked_dc(alloc, 1)?,
            asked: AtomicU64::new(0),
            carried: AtomicU64::new(0),
        })
    }

    // How many it was asked to perform at once, and how many it carried.
    fn counts(&self) -> (u64, u64) {
        (
            self.asked.load(Ordering::SeqCst),
            self.carried.load(Ordering::SeqCst),
        )
    }
}

impl Link for Performs {
    fn carry<R: Wait>(&self, rt: &R, worker: usize, wire: &Wire) -> Option<Reply> {
        self.carried.fetch_add(1, Ordering::SeqCst);
        self.dcs.carry(rt, worker, wire)
    }

    fn news<R: Wait>(&self, _rt: &R, _worker: usize, _dc: u16) -> Option<News> {
        None
    }

    fn perform_at_once<R: Wait>(&self, rt: &R, wire: &Wire) -> Option<Reply> {
        let before = self.asked.fetch_add(1, Ordering::SeqCst);
        if matches!(self.manner, Manner::EverySecond) && before.is_multiple_of(2) {
            return None;
        }
        let reply = self.dcs.perform_at_once(rt, wire)?;
        match self.manner {
            Manner::Each | Manner::EverySecond => Some(reply),
            Manner::Forges => Some(Reply {
                number: reply.number.wrapping_add(1),
                ..reply
            }),
        }
    }
}

// One worker commits `put 5 100`, undoes an abort, reads what isn't there and finds no room for an insert. The six
// wires are performed at once and carried so often.
fn check<R: Threads + Wait + Sync + Abort, G: Gate + Sync>(
    rt: &R,
    alloc: Global,
    manner: Manner,
    gate: &G,
    counts: (u64, u64),
) {
    let mut link = Performs::new(alloc, manner).expect(rt, "no link");
    let calls = calls_of(
        rt,
        alloc,
        &[(PUT, &[5, 100]), (BAD, &[5]), (GET, &[6]), (PUT, &[6, 1])],
    );
    let answers = first_answers(rt, alloc, calls, 1, &link, gate);
    let wanted = [
        Answer::Committed(3),
        Answer::Aborted(5, 11),
        Answer::Aborted(1, 15),
        Answer::NoRoom(19),
    ];
    is_same(rt, answers.as_slice(), wanted.as_slice());
    is_same(rt, link.counts(), counts);
    holds(rt, &mut link.dcs, 100);
    drop(link);
}

// What undoes a write is carried, and all else is performed at once.
#[test]
fn each_wire_at_once(rt: HostRuntime) {
    check(&rt, rt.alloc(), Manner::Each, &OpenGate, (5, 1));
}

// A gate is told of each call that begins before anything is sent for it, and nothing is performed at once.
#[test]
fn a_gate_that_does_more_than_note(rt: HostRuntime) {
    let gate = Counts::new();
    check(&rt, rt.alloc(), Manner::Each, &gate, (0, 6));
    is_same(&rt, gate.told(), (4, 4));
}

// The first, third and fifth wire are carried as well.
#[test]
fn every_second_wire_at_once(rt: HostRuntime) {
    check(&rt, rt.alloc(), Manner::EverySecond, &OpenGate, (5, 4));
}

// A reply under another number answers nothing: the wire is carried.
#[test]
fn forged_replies_at_once(rt: HostRuntime) {
    check(&rt, rt.alloc(), Manner::Forges, &OpenGate, (5, 6));
}

fn eight_moved<R: Threads + Wait + Sync + Abort>(
    rt: &R,
    alloc: Global,
    manner: Manner,
    workers: usize,
) {
    let mut link = Performs::new(alloc, manner).expect(rt, "no link");
    let calls = moves(rt, alloc, 1, 8);
    let answers = answers_behind_put(rt, alloc, calls, workers, &link);
    are_committed(rt, answers.as_slice(), 8);
    drop(answers);
    holds(rt, &mut link.dcs, 108);
    drop(link);
}

// `move 5 5 1` eight times behind `put 5 100`.
#[test]
fn eight_moves_at_once(rt: HostRuntime) {
    eight_moved(&rt, rt.alloc(), Manner::Each, 1);
    eight_moved(&rt, rt.alloc(), Manner::EverySecond, 2);
    eight_moved(&rt, rt.alloc(), Manner::Each, 8);
}
