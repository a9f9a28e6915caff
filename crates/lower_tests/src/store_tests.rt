use crate::checks::is_same;
use access_slots::op::{News, Op, Reply, Said, Wire};
use access_slots::slot::{Record, Value};
use data_component::dc::Dc;
use std::alloc::Global;
use std::process::Abort;

const fn record(key: u64) -> Record {
    Record {
        dc: 0,
        table: 0,
        key,
    }
}

// A value that begins with this byte.
fn value(first: u8) -> Value {
    let mut value = [0; 64];
    value[0] = first;
    value
}

// What is said to the operation under this number, with this low-water mark.
fn said(dc: &mut Dc, number: u64, low_water: u64, op: Op) -> Option<Said> {
    let wire = Wire {
        number,
        low_water,
        incarnation: dc.incarnation(),
        redo: false,
        op,
    };
    said_to(dc, &wire)
}

// What this incarnation says to a wire.
fn said_to(dc: &mut Dc, wire: &Wire) -> Option<Said> {
    match dc.perform(wire) {
        Some(
            Reply {
                number,
                incarnation,
                said,
            },
        ) if number == wire.number && incarnation == dc.incarnation() => Some(said),
        _ => None,
    }
}

// Operations under these numbers, with these low-water marks, and what is said to each.
fn each_is_said(rt: &impl Abort, dc: &mut Dc, asked: &[(u64, u64, Op, Option<Said>)]) {
    for &(number, low_water, op, want) in asked {
        is_same(
            rt,
            (number, said(dc, number, low_water, op)),
            (number, want),
        );
    }
}

// One record and four operations: want of room is kept under its number, and so is a read; a number
// at or under the mark is old, and a new one above it finds no room.
fn is_full(rt: &impl Abort, dc: &mut Dc) {
    let five = Op::Insert(record(5), value(100));
    let six = Op::Insert(record(6), value(1));
    let deleted = Some(Said::Done(Some(value(100))));
    let asked = [
        (1, 0, five, Some(Said::Done(None))),
        (2, 0, six, Some(Said::NoRoom)),
        (3, 0, Op::Delete(record(5)), deleted),
        (2, 0, six, Some(Said::NoRoom)),
        (4, 3, Op::Read(record(6)), Some(Said::Absent)),
        (2, 0, six, Some(Said::Old)),
        (5, 3, Op::Read(record(6)), None),
    ];
    each_is_said(rt, dc, &asked);
}

// All of it is kept over a restart behind a checkpoint.
fn is_kept(rt: &impl Abort, dc: &mut Dc) {
    let news = News {
        incarnation: 1,
        mark: 3,
    };
    let marks = (dc.mark(), dc.checkpoint(), dc.restart());
    is_same(rt, marks, (3, 3, Ok(news)));
    each_is_said(rt, dc, &[(4, 3, Op::Read(record(6)), Some(Said::Absent))]);
    is_same(rt, (dc.performed().len(), dc.rows().len()), (4, 0));
}

// A data component with room for so many rows and operations.
fn new_dc(rt: &impl Abort, alloc: Global, rows: usize, ops: usize) -> Dc {
    Dc::new(alloc, rows, ops).expect(rt, "no data component")
}

#[test]
fn one_record_and_four_operations(rt: HostRuntime) {
    let mut dc = new_dc(&rt, rt.alloc(), 1, 4);
    is_full(&rt, &mut dc);
    is_kept(&rt, &mut dc);
    drop(dc);
}

// Behind a checkpoint, and in the first incarnation.
fn is_performed(rt: &impl Abort, dc: &mut Dc, old: &Wire) {
    let five = Op::Insert(record(5), value(100));
    let deleted = Some(Said::Done(Some(value(100))));
    each_is_said(rt, dc, &[(1, 0, five, Some(Said::Done(None)))]);
    let mark = dc.checkpoint();
    each_is_said(rt, dc, &[(2, 0, Op::Delete(record(5)), deleted)]);
    is_same(rt, (mark, said_to(dc, old)), (0, Some(Said::Done(None))));
}

fn went_back(rt: &impl Abort, dc: &mut Dc) {
    let news = News {
        incarnation: 1,
        mark: 0,
    };
    let restarted = (dc.restart(), dc.incarnation(), dc.performed().len());
    is_same(rt, restarted, (Ok(news), 1, 1));
    is_same(rt, dc.get(&record(5)), Some(value(100)));
}

// Wires, and what is said to each; the mark stays.
fn each_wire_is_said(rt: &impl Abort, dc: &mut Dc, wires: &[(Wire, Option<Said>)]) {
    for (wire, want) in wires {
        is_same(rt, (said_to(dc, wire), dc.mark()), (*want, 0));
    }
}

// A wire that was sent before a restart.
fn old_wire() -> Wire {
    Wire {
        number: 3,
        low_water: 2,
        incarnation: 0,
        redo: false,
        op: Op::Insert(record(6), value(1)),
    }
}

// Wires behind the restart, and what is said to each.
fn wires_behind(old: Wire) -> [(Wire, Option<Said>); 4] {
    let redone = Wire {
        low_water: 0,
        incarnation: 1,
        redo: true,
        ..old
    };
    let of_a_later_one = Wire {
        low_water: 3,
        incarnation: 2,
        ..redone
    };
    let new = Wire {
        number: 4,
        redo: false,
        ..redone
    };
    [
        (old, None),
        (of_a_later_one, None),
        (new, Some(Said::NoRoom)),
        (redone, Some(Said::Done(None))),
    ]
}

// A restart loses what was performed behind the last checkpoint, and wires that were sent before it
// aren't answered; what is redone finds room beyond the limit.
#[test]
fn a_restart_goes_back_to_the_checkpoint(rt: HostRuntime) {
    let old = old_wire();
    let mut dc = new_dc(&rt, rt.alloc(), 1, 4);
    is_performed(&rt, &mut dc, &old);
    went_back(&rt, &mut dc);
    each_wire_is_said(&rt, &mut dc, &wires_behind(old));
    is_same(&rt, dc.rows().len(), 2);
    drop(dc);
}

// Inserted in another order.
fn are_inserted(rt: &impl Abort, dc: &mut Dc) {
    let asked = [
        (
            1,
            0,
            Op::Insert(record(7), value(9)),
            Some(Said::Done(None)),
        ),
        (
            2,
            0,
            Op::Insert(record(3), value(9)),
            Some(Said::Done(None)),
        ),
        (
            3,
            0,
            Op::Insert(record(5), value(9)),
            Some(Said::Done(None)),
        ),
        (4, 0, Op::Insert(record(5), value(1)), Some(Said::Duplicate)),
        (
            5,
            0,
            Op::Update(record(3), value(2)),
            Some(Said::Done(Some(value(9)))),
        ),
        (6, 0, Op::Delete(record(4)), Some(Said::Missing)),
    ];
    each_is_said(rt, dc, &asked);
}

fn have_risen(rt: &impl Abort, dc: &Dc) {
    let want = [
        (record(3), value(2)),
        (record(5), value(9)),
        (record(7), value(9)),
    ];
    is_same(rt, dc.rows(), want.as_slice());
}

fn are_back(rt: &impl Abort, dc: &mut Dc) {
    is_same(rt, (dc.checkpoint(), dc.restart().is_ok()), (0, true));
    have_risen(rt, dc);
    let found = (dc.get(&record(3)), dc.get(&record(4)));
    is_same(rt, found, (Some(value(2)), None));
}

// Inserted in another order, the rows rise; a restart brings them back.
#[test]
fn rows_rise(rt: HostRuntime) {
    let mut dc = new_dc(&rt, rt.alloc(), 4, 8);
    are_inserted(&rt, &mut dc);
    have_risen(&rt, &dc);
    are_back(&rt, &mut dc);
    drop(dc);
}

// Two rows, the numbers up to 2 answered; the mark of another incarnation isn't heard.
fn two_rows(rt: &impl Abort, dc: &mut Dc) {
    let asked = [
        (
            1,
            0,
            Op::Insert(record(5), value(1)),
            Some(Said::Done(None)),
        ),
        (
            2,
            0,
            Op::Insert(record(3), value(2)),
            Some(Said::Done(None)),
        ),
    ];
    each_is_said(rt, dc, &asked);
    dc.hear_mark(1, 9);
    let unheard = (dc.mark(), dc.checkpoint(), dc.forget());
    is_same(rt, unheard, (0, 0, false));
    dc.hear_mark(0, 2);
    is_same(rt, (dc.mark(), dc.forget()), (2, false));
    is_same(
        rt,
        (dc.checkpoint(), dc.base_mark(), dc.performed().len()),
        (2, 0, 2),
    );
}

// What was performed is forgotten, and there is room for as many operations again.
fn two_rows_stay(rt: &impl Abort, dc: &mut Dc) {
    let want = [(record(3), value(2)), (record(5), value(1))];
    is_same(
        rt,
        (dc.forget(), dc.base_mark(), dc.performed().len()),
        (true, 2, 0),
    );
    is_same(rt, dc.base(), want.as_slice());
    is_same(rt, dc.rows(), want.as_slice());
    let asked = [
        (2, 2, Op::Insert(record(3), value(2)), Some(Said::Old)),
        (3, 2, Op::Insert(record(5), value(7)), Some(Said::Duplicate)),
        (
            4,
            2,
            Op::Delete(record(5)),
            Some(Said::Done(Some(value(1)))),
        ),
        (5, 2, Op::Read(record(3)), None),
    ];
    each_is_said(rt, dc, &asked);
}

// A restart behind the checkpoint goes back to the rows with which the list begins.
fn two_rows_are_back(rt: &impl Abort, dc: &mut Dc) {
    let news = News {
        incarnation: 1,
        mark: 2,
    };
    is_same(rt, (dc.rows().len(), dc.restart()), (1, Ok(news)));
    is_same(
        rt,
        (dc.rows().len(), dc.get(&record(5))),
        (2, Some(value(1))),
    );
}

#[test]
fn what_a_checkpoint_has_is_forgotten(rt: HostRuntime) {
    let mut dc = new_dc(&rt, rt.alloc(), 4, 2);
    two_rows(&rt, &mut dc);
    two_rows_stay(&rt, &mut dc);
    two_rows_are_back(&rt, &mut dc);
    drop(dc);
}
