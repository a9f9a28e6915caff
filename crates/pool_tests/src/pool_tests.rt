// Runs by one, two and eight workers over components behind locks, with a gate that holds a call,
// and links that wait, lose and change what they carry.

use crate::test_pool::{
    Hold, answers, answers_behind_put, are_committed, begun, behind_put, first_answers, holds,
    is_same, locked_dc, state_of,
};
use crate::test_state::{NO_PROCEDURE, add_call, calls_of, moves, puts, state};
use access_slots::op::{News, Reply, Wire};
use dc_links::{Link, LockedDcs};
use journals::NoJournal;
use lock_table::table::Busy;
use samples::{BAD, GET, MOVE, PUT, record};
use std::alloc::{AllocError, Global};
use std::process::Abort;
use std::sync::atomic::{AtomicU64, Ordering};
use std::sync::{Mutex, Wait};
use std::thread::Threads;
use tc_core::state::{Call, Refusal, TcState};
use tc_log::event::Entry;
use worker_pool::{Acknowledgement, Answer, Gate, OpenGate, RunFault, RunSpec, run};

fn one_moved<R: Threads + Wait + Sync + Abort>(rt: &R, alloc: Global, workers: usize) {
    let mut link = locked_dc(alloc, 4).expect(rt, "no link");
    let calls = moves(rt, alloc, 10, 1);
    let answers = answers_behind_put(rt, alloc, calls, workers, &link);
    is_same(rt, answers.as_slice(), [Answer::Committed(13)].as_slice());
    holds(rt, &mut link, 110);
    drop(link);
}

// `move 5 5 10`: the last write of the record stands.
#[test]
fn one_record_moved_onto_itself(rt: HostRuntime) {
    one_moved(&rt, rt.alloc(), 1);
    one_moved(&rt, rt.alloc(), 2);
    one_moved(&rt, rt.alloc(), 8);
}

fn eight_moved<R: Threads + Wait + Sync + Abort>(rt: &R, alloc: Global, workers: usize) {
    let mut link = locked_dc(alloc, 4).expect(rt, "no link");
    let calls = moves(rt, alloc, 1, 8);
    let answers = answers_behind_put(rt, alloc, calls, workers, &link);
    are_committed(rt, answers.as_slice(), 8);
    holds(rt, &mut link, 108);
    drop(link);
}

#[test]
fn eight_moves_by_any_number_of_workers(rt: HostRuntime) {
    eight_moved(&rt, rt.alloc(), 1);
    eight_moved(&rt, rt.alloc(), 2);
    eight_moved(&rt, rt.alloc(), 8);
}

// An abort is undone; a read of what isn't there answers 1; an insert finds no room.
#[test]
fn aborts_and_no_room(rt: HostRuntime) {
    let mut link = locked_dc(rt.alloc(), 1).expect(&rt, "no link");
    let calls = calls_of(&rt, rt.alloc(), &[(BAD, &[5]), (GET, &[6]), (PUT, &[6, 1])]);
    let answers = answers_behind_put(&rt, rt.alloc(), calls, 1, &link);
    let wanted = [
        Answer::Aborted(5, 11),
        Answer::Aborted(1, 15),
        Answer::NoRoom(19),
    ];
    is_same(&rt, answers.as_slice(), wanted.as_slice());
    holds(&rt, &mut link, 100);
    drop(link);
}

// Calls of no procedure, and of one that has another number of arguments.
#[test]
fn refused_calls(rt: HostRuntime) {
    let link = locked_dc(rt.alloc(), 4).expect(&rt, "no link");
    let calls = calls_of(&rt, rt.alloc(), &[(NO_PROCEDURE, &[5]), (GET, &[5, 6])]);
    let answers = answers_behind_put(&rt, rt.alloc(), calls, 2, &link);
    let wanted = [
        Answer::Refused(Refusal::NoProcedure),
        Answer::Refused(Refusal::ArgumentCount),
    ];
    is_same(&rt, answers.as_slice(), wanted.as_slice());
    drop(link);
}

// Counts the calls that it is told of as begun and as answered.
#[derive(Drop)]
pub(crate) struct Counts {
    begun: AtomicU64,
    answered: AtomicU64,
}

impl Counts {
    pub(crate) fn new() -> Counts {
        Counts {
            begun: AtomicU64::new(0),
            answered: AtomicU64::new(0),
        }
    }

    // How many were begun, and how many answered.
    pub(crate) fn told(&self) -> (u64, u64) {
        (
            self.begun.load(Ordering::SeqCst),
            self.answered.load(Ordering::SeqCst),
        )
    }
}

impl Gate for Counts {
    fn begun(&self, _call: usize) {
        self.begun.fetch_add(1, Ordering::SeqCst);
    }

    fn answered<J: RunSpec>(&self, _acknowledgement: &Acknowledgement<J>) {
        self.answered.fetch_add(1, Ordering::SeqCst);
    }
}

// Notes, of each call, the place of the end that it is told of, and one more.
#[derive(Drop)]
struct Told {
    ends: Vec<AtomicU64>,
}

fn push_none(ends: &mut Vec<AtomicU64>, calls: usize) -> Result<(), AllocError> {
    for _ in 0..calls {
        ends.push(AtomicU64::new(0))?;
    }
    Ok(())
}

impl Told {
    fn new(alloc: Global, calls: usize) -> Result<Told, AllocError> {
        let mut ends = Vec::new(alloc);
        push_none(&mut ends, calls)?;
        Ok(Told { ends })
    }

    // Whether the call was told of with this answer, and is committed.
    fn was_told(&self, call: usize, answer: &Answer) -> bool {
        match (self.ends.get(call), answer) {
            (Some(end), Answer::Committed(place)) => {
                end.load(Ordering::SeqCst) == (*place as u64).saturating_add(1)
            }
            _ => false,
        }
    }

    // The same of all calls.
    fn were_told(&self, answers: &[Answer]) -> bool {
        (0..answers.len()).all(|call| match answers.get(call) {
            Some(answer) => self.was_told(call, answer),
            None => false,
        })
    }
}

impl Gate for Told {
    fn begun(&self, _call: usize) {}

    fn answered<J: RunSpec>(&self, acknowledgement: &Acknowledgement<J>) {
        if let (Some(end), Answer::Committed(place)) = (
            self.ends.get(acknowledgement.call()),
            acknowledgement.answer(),
        ) {
            end.store((place as u64).saturating_add(1), Ordering::SeqCst);
        }
    }
}

fn told_as_reported<R: Threads + Wait + Sync + Abort>(rt: &R, alloc: Global, workers: usize) {
    let told = Told::new(alloc, 8).expect(rt, "no room");
    let link = locked_dc(alloc, 8).expect(rt, "no link");
    let calls = puts(alloc, 8, 1).expect(rt, "no calls");
    let answers = first_answers(rt, alloc, calls, workers, &link, &told);
    are_committed(rt, answers.as_slice(), 8);
    is_same(rt, told.were_told(answers.as_slice()), true);
    drop(answers);
    drop(told);
    drop(link);
}

// What is told of a call is what is reported of it.
#[test]
fn the_answer_told_is_the_one_reported(rt: HostRuntime) {
    told_as_reported(&rt, rt.alloc(), 1);
    told_as_reported(&rt, rt.alloc(), 8);
}

// Holds call 0 in `begun` until call 1 is answered, and counts what it is told.
#[derive(Drop)]
struct HoldsBegun {
    hold: Hold,
    counts: Counts,
}

impl Gate for HoldsBegun {
    fn begun(&self, call: usize) {
        self.counts.begun(call);
        if call == 0 {
            self.hold.wait();
        }
    }

    fn answered<J: RunSpec>(&self, acknowledgement: &Acknowledgement<J>) {
        self.counts.answered(acknowledgement);
        self.hold.answered(acknowledgement.call());
    }
}

// `put 5 1` and `put 6 2` are committed by two workers.
fn both_commit<R: Threads + Wait + Sync + Abort, L: Link + Sync, G: Gate + Sync>(
    rt: &R,
    alloc: Global,
    link: &L,
    gate: &G,
) {
    let calls = calls_of(rt, alloc, &[(PUT, &[5, 1]), (PUT, &[6, 2])]);
    let answers = first_answers(rt, alloc, calls, 2, link, gate);
    are_committed(rt, answers.as_slice(), 2);
}

// Two workers are at work at once, and no lock is held while a gate is told.
#[test]
fn two_calls_at_once_by_a_gate(rt: HostRuntime) {
    let gate = HoldsBegun {
        hold: Hold::new(),
        counts: Counts::new(),
    };
    let link = locked_dc(rt.alloc(), 4).expect(&rt, "no link");
    both_commit(&rt, rt.alloc(), &link, &gate);
    drop(link);
    is_same(&rt, gate.hold.is_too_late(), false);
    is_same(&rt, gate.counts.told(), (2, 2));
}

// Holds the first carry for record 0/0/5 until call 1 is answered.
#[derive(Drop)]
struct HoldsCarry {
    dcs: LockedDcs,
    hold: Hold,
}

impl Link for HoldsCarry {
    fn carry<R: Wait>(&self, rt: &R, worker: usize, wire: &Wire) -> Option<Reply> {
        if *wire.op.record() == record(5) {
            self.hold.wait();
        }
        self.dcs.carry(rt, worker, wire)
    }

    fn news<R: Wait>(&self, _rt: &R, _worker: usize, _dc: u16) -> Option<News> {
        None
    }
}

impl Gate for HoldsCarry {
    fn begun(&self, _call: usize) {}

    fn answered<J: RunSpec>(&self, acknowledgement: &Acknowledgement<J>) {
        self.hold.answered(acknowledgement.call());
    }
}

// No lock is held while a wire is carried.
#[test]
fn two_calls_at_once_by_a_link(rt: HostRuntime) {
    let link = HoldsCarry {
        dcs: locked_dc(rt.alloc(), 4).expect(&rt, "no components"),
        hold: Hold::new(),
    };
    both_commit(&rt, rt.alloc(), &link, &link);
    is_same(&rt, link.hold.is_too_late(), false);
    drop(link);
}

// Loses every wire, and counts them.
#[derive(Drop)]
pub(crate) struct Loses {
    carried: AtomicU64,
}

impl Loses {
    pub(crate) fn new() -> Loses {
        Loses {
            carried: AtomicU64::new(0),
        }
    }
}

impl Link for Loses {
    fn carry<R: Wait>(&self, _rt: &R, _worker: usize, _wire: &Wire) -> Option<Reply> {
        self.carried.fetch_add(1, Ordering::SeqCst);
        None
    }

    fn news<R: Wait>(&self, _rt: &R, _worker: usize, _dc: u16) -> Option<News> {
        None
    }
}

// `put 5 1` falls in doubt, and is in the way of `put 5 2`.
fn are_lost(rt: &impl Abort, answers: &[Answer]) {
    let in_the_way = Busy {
        name: record(5),
        holder: 1,
    };
    let wanted = [Answer::InDoubt(1), Answer::Blocked(in_the_way)];
    is_same(rt, answers, wanted.as_slice());
}

#[test]
fn in_doubt_after_three_carries_and_blocked(rt: HostRuntime) {
    let link = Loses::new();
    let gate = Counts::new();
    let calls = calls_of(&rt, rt.alloc(), &[(PUT, &[5, 1]), (PUT, &[5, 2])]);
    let answers = first_answers(&rt, rt.alloc(), calls, 1, &link, &gate);
    are_lost(&rt, answers.as_slice());
    is_same(&rt, link.carried.load(Ordering::SeqCst), 3);
    is_same(&rt, gate.told(), (1, 2));
}

// Records every wire. It loses every third one, and changes the reply to every third one.
#[derive(Drop)]
struct Records {
    dcs: LockedDcs,
    wires: Mutex<Vec<Wire>>,
}

impl Records {
    // Records the wire, and says how many there are; 0 where memory runs out.
    fn record<R: Wait>(&self, rt: &R, wire: &Wire) -> usize {
        let mut wires = self.wires.lock(rt);
        match wires.push(*wire) {
            Ok(()) => wires.len(),
            Err(_) => 0,
        }
    }
}

impl Link for Records {
    fn carry<R: Wait>(&self, rt: &R, worker: usize, wire: &Wire) -> Option<Reply> {
        let count = self.record(rt, wire);
        let reply = self.dcs.carry(rt, worker, wire)?;
        match count % 3 {
            0 => Some(reply),
            1 => Some(Reply {
                number: reply.number.wrapping_add(1),
                ..reply
            }),
            _ => None,
        }
    }

    fn news<R: Wait>(&self, _rt: &R, _worker: usize, _dc: u16) -> Option<News> {
        None
    }
}

// Whether the event asks or undoes under the wire's number, with its operation.
fn is_of(event: &Entry<'_>, wire: &Wire) -> bool {
    match event {
        Entry::Ask { txn: _, number, op } => *number == wire.number && *op == wire.op,
        Entry::Undo { txn: _, number, op } => *number == wire.number && *op == wire.op,
        _ => false,
    }
}

// Whether the log asks or undoes under this number, with this operation.
fn is_logged(state: &TcState, wire: &Wire) -> bool {
    let log = state.log();
    for place in 0..log.len() {
        if let Some(event) = log.at(place) {
            if is_of(&event, wire) {
                return true;
            }
        }
    }
    false
}

// How often a wire of this number was sent.
fn sent(wires: &[Wire], number: u64) -> usize {
    wires.iter().filter(|wire| wire.number == number).count()
}

// Calls of which some commit, some abort, and some fall in doubt.
fn moves_and_aborts(rt: &impl Abort, alloc: Global) -> Vec<Call> {
    let mut calls = calls_of(rt, alloc, &[(PUT, &[5, 100])]);
    for _ in 0..8 {
        add_call(rt, alloc, &mut calls, (MOVE, &[5, 5, 1]));
        add_call(rt, alloc, &mut calls, (BAD, &[5]));
    }
    calls
}

// Each wire stands in the log, and was sent four times at most.
fn are_logged(rt: &impl Abort, state: &TcState, wires: &[Wire]) {
    is_same(rt, wires.is_empty(), false);
    for wire in wires {
        let found = (is_logged(state, wire), sent(wires, wire.number) <= 4);
        is_same(rt, found, (true, true));
    }
}

// The state behind moves and aborts over the link, each request sent four times at most.
fn moved_and_aborted<R: Threads + Wait + Sync + Abort>(
    rt: &R,
    alloc: Global,
    link: &Records,
) -> TcState {
    let calls = moves_and_aborts(rt, alloc);
    let state = state(rt, alloc);
    let (_, ran) = run(
        rt,
        alloc,
        state,
        calls.as_slice(),
        4,
        4,
        link,
        &OpenGate,
        NoJournal,
    );
    drop(calls);
    state_of(begun(rt, ran))
}

fn are_recorded<R: Wait + Abort>(rt: &R, link: &Records, state: &TcState) {
    let wires = link.wires.lock(rt);
    are_logged(rt, state, wires.as_slice());
}

// What is sent is what the log says, and at most as often as there are tries.
#[test]
fn wires_are_the_logs(rt: HostRuntime) {
    let link = Records {
        dcs: locked_dc(rt.alloc(), 4).expect(&rt, "no components"),
        wires: Mutex::new(Vec::new(rt.alloc())),
    };
    let state = moved_and_aborted(&rt, rt.alloc(), &link);
    are_recorded(&rt, &link, &state);
    drop(state);
    drop(link);
}

fn name(fault: &RunFault) -> &'static str {
    match fault {
        RunFault::Workers(_) => "G1",
        RunFault::Tries(_) => "G2",
        _ => "another",
    }
}

// Sees that a run by so many workers and tries has this fault, and hands the state back.
fn faults<R: Threads + Wait + Sync + Abort>(
    rt: &R,
    alloc: Global,
    state: TcState,
    link: &LockedDcs,
    (workers, tries, fault): (usize, u64, &'static str),
) -> TcState {
    let (_, ran) = run(
        rt,
        alloc,
        state,
        &[],
        workers,
        tries,
        link,
        &OpenGate,
        NoJournal,
    );
    match ran {
        Err(found) => {
            is_same(rt, name(&found), fault);
            found.into_state()
        }
        Ok(report) => {
            drop(state_of(report));
            panic!(rt; "begun");
        }
    }
}

// 65 workers and no try; no worker; 1,001 tries; no try.
fn all_faults<R: Threads + Wait + Sync + Abort>(
    rt: &R,
    alloc: Global,
    state: TcState,
    link: &LockedDcs,
) -> TcState {
    let state = faults(rt, alloc, state, link, (65, 0, "G1"));
    let state = faults(rt, alloc, state, link, (0, 3, "G1"));
    let state = faults(rt, alloc, state, link, (64, 1001, "G2"));
    faults(rt, alloc, state, link, (1, 0, "G2"))
}

// What comes back runs.
#[test]
fn faults_hand_the_state_back(rt: HostRuntime) {
    let link = locked_dc(rt.alloc(), 4).expect(&rt, "no link");
    let state = behind_put(&rt, rt.alloc(), &link);
    let state = all_faults(&rt, rt.alloc(), state, &link);
    let get = calls_of(&rt, rt.alloc(), &[(GET, &[5])]);
    let answers = answers(&rt, rt.alloc(), state, get.as_slice(), 64, &link, &OpenGate);
    is_same(&rt, answers.as_slice(), [Answer::Committed(7)].as_slice());
    drop(get);
    drop(link);
}
