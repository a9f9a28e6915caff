// Links that are against the run. Each request is sent three times at most.

use crate::test_pool::{answers_behind_put, are_committed, first_answers, holds, locked_dc};
use crate::test_state::{calls_of, moves};
use access_slots::op::{News, Op, Reply, Said, Wire};
use dc_links::{Link, LockedDcs};
use samples::{GET, PUT, record, value};
use std::alloc::{AllocError, Global};
use std::mem;
use std::process::Abort;
use std::sync::atomic::{AtomicU64, Ordering};
use std::sync::{Mutex, Wait};
use std::thread::Threads;
use worker_pool::{Answer, OpenGate};

// What a link does to the replies.
#[derive(Clone, Copy, Debug)]
enum Harm {
    // They have the next number.
    OtherNumber,
    // Each number was answered long ago.
    Old,
    // An insert is answered by a value.
    Misfit,
    // A read finds nothing.
    Absent,
    // The next wire gets the reply to this one.
    Late,
    // The reply is to the third of three performs.
    Thrice,
}

// Does so to all that it carries, and counts it.
#[derive(Drop)]
struct Hostile {
    harm: Harm,
    dcs: LockedDcs,
    late: Mutex<Option<Reply>>,
    carried: AtomicU64,
}

// The reply, where it says something else.
const fn saying(reply: Reply, said: Said) -> Reply {
    Reply { said, ..reply }
}

impl Hostile {
    fn new(alloc: Global, harm: Harm) -> Result<Hostile, AllocError> {
        Ok(Hostile {
            harm,
            dcs: locked_dc(alloc, 4)?,
            late: Mutex::new(None),
            carried: AtomicU64::new(0),
        })
    }

    // What comes back in place of this reply.
    fn harmed<R: Wait>(&self, rt: &R, wire: &Wire, reply: Reply) -> Option<Reply> {
        match self.harm {
            Harm::OtherNumber => Some(Reply {
                number: reply.number.wrapping_add(1),
                ..reply
            }),
            Harm::Old => Some(saying(reply, Said::Old)),
            Harm::Misfit => Some(saying(reply, Said::Value(value(1)))),
            Harm::Absent if wire.op.is_read() => Some(saying(reply, Said::Absent)),
            Harm::Absent | Harm::Thrice => Some(reply),
            Harm::Late => mem::replace(&mut *self.late.lock(rt), Some(reply)),
        }
    }
}

impl Link for Hostile {
    fn carry<R: Wait>(&self, rt: &R, worker: usize, wire: &Wire) -> Option<Reply> {
        self.carried.fetch_add(1, Ordering::SeqCst);
        if matches!(self.harm, Harm::Thrice) {
            let _first = self.dcs.carry(rt, worker, wire);
            let _second = self.dcs.carry(rt, worker, wire);
        }
        let reply = self.dcs.carry(rt, worker, wire)?;
        self.harmed(rt, wire, reply)
    }

    fn news<R: Wait>(&self, _rt: &R, _worker: usize, _dc: u16) -> Option<News> {
        None
    }
}

// The answer of one call, and how often was carried for it.
fn is_answered(rt: &impl Abort, link: &Hostile, answers: &[Answer], answer: Answer, carried: u64) {
    let harm = link.harm;
    let found = (answers, link.carried.load(Ordering::SeqCst));
    assert_eq!(rt; found, ([answer].as_slice(), carried), "over {harm:?}");
}

// One worker makes this call over the link: its answer, and how often was carried.
fn check<R: Threads + Wait + Sync + Abort>(
    rt: &R,
    alloc: Global,
    link: &Hostile,
    call: (usize, &[u64]),
    answer: Answer,
    carried: u64,
) {
    let calls = calls_of(rt, alloc, &[call]);
    let answers = first_answers(rt, alloc, calls, 1, link, &OpenGate);
    is_answered(rt, link, answers.as_slice(), answer, carried);
}

fn check_put<R: Threads + Wait + Sync + Abort>(
    rt: &R,
    alloc: Global,
    harm: Harm,
    answer: Answer,
    carried: u64,
) {
    let link = Hostile::new(alloc, harm).expect(rt, "no link");
    check(rt, alloc, &link, (PUT, &[5, 1]), answer, carried);
    drop(link);
}

// `put 5 1`, where no reply is one to its request, and where each reply comes late.
#[test]
fn puts_over_hostile_links(rt: HostRuntime) {
    check_put(&rt, rt.alloc(), Harm::OtherNumber, Answer::InDoubt(1), 3);
    check_put(&rt, rt.alloc(), Harm::Old, Answer::InDoubt(1), 3);
    check_put(&rt, rt.alloc(), Harm::Misfit, Answer::InDoubt(1), 3);
    check_put(&rt, rt.alloc(), Harm::Late, Answer::Committed(3), 2);
}

// Inserts record 5 behind the back of the run.
fn insert<R: Wait + Abort>(rt: &R, dcs: &LockedDcs) {
    let insert = Wire {
        number: 1000,
        low_water: 0,
        incarnation: 0,
        redo: false,
        op: Op::Insert(record(5), value(100)),
    };
    assert!(rt; dcs.carry(rt, 0, &insert).is_some());
}

// `get 5`, where the record is there.
#[test]
fn a_read_that_is_told_of_nothing(rt: HostRuntime) {
    let mut link = Hostile::new(rt.alloc(), Harm::Absent).expect(&rt, "no link");
    insert(&rt, &link.dcs);
    check(
        &rt,
        rt.alloc(),
        &link,
        (GET, &[5]),
        Answer::Aborted(1, 3),
        1,
    );
    holds(&rt, &mut link.dcs, 100);
    drop(link);
}

fn moved_thrice<R: Threads + Wait + Sync + Abort>(rt: &R, alloc: Global, workers: usize) {
    let mut link = Hostile::new(alloc, Harm::Thrice).expect(rt, "no link");
    let calls = moves(rt, alloc, 1, 8);
    let answers = answers_behind_put(rt, alloc, calls, workers, &link);
    are_committed(rt, answers.as_slice(), 8);
    drop(answers);
    holds(rt, &mut link.dcs, 108);
    drop(link);
}

// Each wire is performed three times: eight moves of 1 onto itself add up to 8.
#[test]
fn wires_performed_three_times(rt: HostRuntime) {
    moved_thrice(&rt, rt.alloc(), 1);
    moved_thrice(&rt, rt.alloc(), 2);
    moved_thrice(&rt, rt.alloc(), 8);
}
