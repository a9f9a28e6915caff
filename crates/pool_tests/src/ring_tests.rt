// Runs over data components in threads of their own, by one, two and eight workers, with a gate and
// a link that hold a call, and with a link that is closed under way.

ghost use Rattle.std.specs.Prelude.{◌≤◌};

use crate::test_pool::{Hold, answers_of, are_committed, begun, is_same, state_of};
use crate::test_state::{PUT_BESIDE, add_call, calls_of, dc, moves, state};
use access_slots::op::{News, Op, Reply, Wire};
use access_slots::slot::{Record, Value};
use data_component::dc::Dc;
use dc_links::{Link, RingLink};
use journals::NoJournal;
use samples::{PUT, record, value};
use std::alloc::Global;
use std::process::Abort;
use std::sync::Wait;
use std::thread;
use std::thread::Threads;
use tc_core::state::{Call, TcState};
use worker_pool::{Acknowledgement, Answer, Gate, OpenGate, Report, RunFault, RunSpec, run};

// How many rows each component has room for.
const ROWS: usize = 100;

// Runs the calls, and then ends the serving.
fn run_and_close<R: Threads + Wait + Sync, L: Link + Sync, G: Gate + Sync>(
    rt: &R,
    alloc: Global,
    state: TcState,
    calls: &[Call],
    workers: usize,
    rings: &RingLink,
    link: &L,
    gate: &G,
) -> Result<Report, RunFault> {
    let (_, ran) = run(rt, alloc, state, calls, workers, 3, link, gate, NoJournal);
    rings.close();
    ran
}

// The same while the first component is served; it is handed back.
fn run_beside<R: Threads + Wait + Sync, L: Link + Sync, G: Gate + Sync>(
    rt: &R,
    alloc: Global,
    state: TcState,
    calls: &[Call],
    workers: usize,
    rings: &RingLink,
    link: &L,
    gate: &G,
    dc: Dc,
) -> (Dc, Result<Report, RunFault>) {
    thread::join(
        rt,
        move || rings.serve(rt, 0, dc),
        move || run_and_close(rt, alloc, state, calls, workers, rings, link, gate),
    )
}

// The same by workers whom nothing holds.
fn run_open<R: Threads + Wait + Sync>(
    rt: &R,
    alloc: Global,
    state: TcState,
    calls: &[Call],
    workers: usize,
    rings: &RingLink,
    dc: Dc,
) -> (Dc, Result<Report, RunFault>) {
    run_beside(
        rt, alloc, state, calls, workers, rings, rings, &OpenGate, dc,
    )
}

fn new_dc(rt: &impl Abort, alloc: Global) -> Dc {
    dc(alloc, ROWS).expect(rt, "no component")
}

// The component and the state behind `put 5 100` by one worker.
fn behind_put<R: Threads + Wait + Sync + Abort>(rt: &R, alloc: Global) -> (Dc, TcState) {
    let rings = RingLink::new(alloc, 1, 1).expect(rt, "no rings");
    let first = calls_of(rt, alloc, &[(PUT, &[5, 100])]);
    let (dc, state) = (new_dc(rt, alloc), state(rt, alloc));
    let (dc, ran) = run_open(rt, alloc, state, first.as_slice(), 1, &rings, dc);
    drop(first);
    drop(rings);
    let report = begun(rt, ran);
    are_committed(rt, report.answers.as_slice(), 1);
    (dc, state_of(report))
}

// What record 5 holds once so many workers have committed all these calls behind `put 5 100`.
fn left<R: Threads + Wait + Sync + Abort>(
    rt: &R,
    alloc: Global,
    calls: &[Call],
    workers: usize,
    rings: &RingLink,
) -> Option<Value> {
    let (dc, state) = behind_put(rt, alloc);
    let (dc, ran) = run_open(rt, alloc, state, calls, workers, rings, dc);
    let left = dc.get(&record(5));
    drop(dc);
    let answers = answers_of(begun(rt, ran));
    are_committed(rt, answers.as_slice(), calls.len());
    drop(answers);
    left
}

// Behind `put 5 100` so many moves of an amount from record 5 onto itself leave this, since the last
// write of the record stands.
fn moves_leave<R: Threads + Wait + Sync + Abort>(
    rt: &R,
    alloc: Global,
    amount: u64,
    times: usize,
    workers: usize,
    stands: u64,
)
    requires { (1 ≤ workers) × (workers ≤ 64) }
{
    let rings = RingLink::new(alloc, 1, workers).expect(rt, "no rings");
    let calls = moves(rt, alloc, amount, times);
    let left = left(rt, alloc, calls.as_slice(), workers, &rings);
    drop(calls);
    drop(rings);
    is_same(rt, left, Some(value(stands)));
}

#[test]
fn one_record_moved_onto_itself(rt: HostRuntime) {
    moves_leave(&rt, rt.alloc(), 10, 1, 1, 110);
    moves_leave(&rt, rt.alloc(), 10, 1, 2, 110);
    moves_leave(&rt, rt.alloc(), 10, 1, 8, 110);
}

#[test]
fn eight_moves_by_any_number_of_workers(rt: HostRuntime) {
    moves_leave(&rt, rt.alloc(), 1, 8, 1, 108);
    moves_leave(&rt, rt.alloc(), 1, 8, 2, 108);
    moves_leave(&rt, rt.alloc(), 1, 8, 8, 108);
}

// Holds call 0 until call 1 is answered: as a gate where it is begun, as a link at the first carry
// for its record.
#[derive(Drop)]
struct Holds {
    rings: RingLink,
    hold: Hold,
    holds_begun: bool,
}

impl Gate for Holds {
    fn begun(&self, call: usize) {
        if self.holds_begun && call == 0 {
            self.hold.wait();
        }
    }

    fn answered<J: RunSpec>(&self, acknowledgement: &Acknowledgement<J>) {
        self.hold.answered(acknowledgement.call());
    }
}

impl Link for Holds {
    fn carry<R: Wait>(&self, rt: &R, worker: usize, wire: &Wire) -> Option<Reply> {
        if !self.holds_begun && wire.op.record().key == 5 {
            self.hold.wait();
        }
        self.rings.carry(rt, worker, wire)
    }

    fn news<R: Wait>(&self, _rt: &R, _worker: usize, _dc: u16) -> Option<News> {
        None
    }
}

// The answers of these calls by two workers over the first component.
fn held<R: Threads + Wait + Sync + Abort>(
    rt: &R,
    alloc: Global,
    calls: &[Call],
    holds: &Holds,
) -> Vec<Answer> {
    let (dc, state) = (new_dc(rt, alloc), state(rt, alloc));
    let rings = &holds.rings;
    let (dc, ran) = run_beside(rt, alloc, state, calls, 2, rings, holds, holds, dc);
    drop(dc);
    answers_of(begun(rt, ran))
}

// Two calls at once, the first of which is held until the second is answered, are committed in time.
fn are_two_at_once<R: Threads + Wait + Sync + Abort>(rt: &R, alloc: Global, holds_begun: bool) {
    let holds = Holds {
        rings: RingLink::new(alloc, 1, 2).expect(rt, "no rings"),
        hold: Hold::new(),
        holds_begun,
    };
    let calls = calls_of(rt, alloc, &[(PUT, &[5, 1]), (PUT, &[6, 2])]);
    let answers = held(rt, alloc, calls.as_slice(), &holds);
    drop(calls);
    are_committed(rt, answers.as_slice(), 2);
    drop(answers);
    is_same(rt, holds.hold.is_too_late(), false);
    drop(holds);
}

// Two workers are at work at once, and nothing is locked while a gate is told or a wire is carried.
#[test]
fn two_calls_at_once(rt: HostRuntime) {
    are_two_at_once(&rt, rt.alloc(), true);
    are_two_at_once(&rt, rt.alloc(), false);
}

// Closes the link when call 50 is begun.
#[derive(Drop)]
struct Closes<'a> {
    rings: &'a RingLink,
}

impl Gate for Closes<'_> {
    fn begun(&self, call: usize) {
        if call == 50 {
            self.rings.close();
        }
    }

    fn answered<J: RunSpec>(&self, _acknowledgement: &Acknowledgement<J>) {}
}

// What the calls come to over both components, where the link is closed under way.
fn run_beside_both<R: Threads + Wait + Sync>(
    rt: &R,
    alloc: Global,
    state: TcState,
    calls: &[Call],
    rings: &RingLink,
    left: Dc,
    right: Dc,
) -> Result<Report, RunFault> {
    let gate = Closes { rings };
    let (right, (left, ran)) = thread::join(
        rt,
        move || rings.serve(rt, 1, right),
        move || run_beside(rt, alloc, state, calls, 2, rings, rings, &gate, left),
    );
    drop(right);
    drop(left);
    ran
}

// Two calls under each key below 50, one in each component.
fn hundred_puts(rt: &impl Abort, alloc: Global) -> Vec<Call> {
    let mut calls = Vec::new(alloc);
    for key in 0..50u64 {
        add_call(rt, alloc, &mut calls, (PUT, &[key, 1]));
        add_call(rt, alloc, &mut calls, (PUT_BESIDE, &[key, 1]));
    }
    calls
}

fn commit_or_fall_in_doubt(rt: &impl Abort, answers: &[Answer]) {
    is_same(rt, answers.len(), 100);
    for answer in answers {
        assert!(rt; matches!(answer, Answer::Committed(_) | Answer::InDoubt(_)));
    }
}

#[test]
fn closed_while_two_workers_carry(rt: HostRuntime) {
    let rings = RingLink::new(rt.alloc(), 2, 2).expect(&rt, "no rings");
    let calls = hundred_puts(&rt, rt.alloc());
    let state = state(&rt, rt.alloc());
    let (left, right) = (new_dc(&rt, rt.alloc()), new_dc(&rt, rt.alloc()));
    let ran = run_beside_both(
        &rt,
        rt.alloc(),
        state,
        calls.as_slice(),
        &rings,
        left,
        right,
    );
    let answers = answers_of(begun(&rt, ran));
    drop(calls);
    drop(rings);
    commit_or_fall_in_doubt(&rt, answers.as_slice());
}

fn wire_of(op: Op) -> Wire {
    Wire {
        number: 1,
        low_water: 0,
        incarnation: 0,
        redo: false,
        op,
    }
}

fn wire(dc: u16) -> Wire {
    wire_of(Op::Read(Record {
        dc,
        table: 0,
        key: 5,
    }))
}

fn carries_nothing<R: Wait + Abort>(rt: &R, rings: &RingLink, worker: usize, dc: u16) {
    is_same(rt, rings.carry(rt, worker, &wire(dc)), None);
}

fn serves_nothing<R: Wait + Abort>(rt: &R, rings: &RingLink, number: usize, dc: Dc) -> Dc {
    let dc = rings.serve(rt, number, dc);
    is_same(rt, dc.rows().len(), 0);
    dc
}

// No such component, no such worker, and a link that is closed; what has no inbox comes back.
#[test]
fn nothing_to_carry(rt: HostRuntime) {
    let rings = RingLink::new(rt.alloc(), 1, 1).expect(&rt, "no rings");
    carries_nothing(&rt, &rings, 0, 1);
    carries_nothing(&rt, &rings, 1, 0);
    let unserved = serves_nothing(&rt, &rings, 1, new_dc(&rt, rt.alloc()));
    rings.close();
    carries_nothing(&rt, &rings, 0, 0);
    drop(serves_nothing(&rt, &rings, 0, unserved));
    drop(rings);
}

// Has the component that is served insert a row, and then serves another one under its number.
fn serve_beside<R: Wait + Abort>(rt: &R, rings: &RingLink, other: Dc) -> Dc {
    let insert = wire_of(Op::Insert(record(5), value(1)));
    is_same(rt, rings.carry(rt, 0, &insert).is_some(), true);
    let back = rings.serve(rt, 0, other);
    rings.close();
    back
}

// How many rows the component that is served has behind that, and the other one.
fn rows_of_both<R: Threads + Wait + Sync + Abort>(
    rt: &R,
    rings: &RingLink,
    dc: Dc,
    other: Dc,
) -> (usize, usize) {
    let (served, back) = thread::join(
        rt,
        move || rings.serve(rt, 0, dc),
        move || serve_beside(rt, rings, other),
    );
    let rows = (served.rows().len(), back.rows().len());
    drop(served);
    drop(back);
    rows
}

// A second component under a number that is served comes back as it was.
#[test]
fn one_component_under_a_number(rt: HostRuntime) {
    let rings = RingLink::new(rt.alloc(), 1, 1).expect(&rt, "no rings");
    let (dc, other) = (new_dc(&rt, rt.alloc()), new_dc(&rt, rt.alloc()));
    let rows = rows_of_both(&rt, &rings, dc, other);
    drop(rings);
    is_same(&rt, rows, (1, 0));
}
