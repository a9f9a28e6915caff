//! A data component with many rows, and a long list.

use access_slots::op::{Op, Wire};
use access_slots::slot::Record;
use data_component::dc::Dc;
use std::alloc::Global;

// A record whose key is far from those of its neighbours.
const fn record(place: u64) -> Record {
    Record {
        dc: 0,
        table: 0,
        key: place.wrapping_mul(0x9e37_79b9_7f4a_7c15),
    }
}

// Performs an operation under this number; all earlier ones are answered.
fn perform(dc: &mut Dc, number: u64, op: Op) -> u64 {
    let wire = Wire {
        number,
        low_water: number.saturating_sub(1),
        incarnation: 0,
        redo: false,
        op,
    };
    u64::from(dc.perform(&wire).is_some())
}

// So many rows are inserted, and then so many updates are spread over them.
fn filled(alloc: Global, rows: u64, updates: u64, replies: &mut u64) -> Option<Dc> {
    let ops = rows.saturating_add(updates);
    let mut dc = Dc::new(alloc, rows as usize, ops as usize).ok()?;
    for place in 0..rows {
        let op = Op::Insert(record(place), [1; 64]);
        *replies = replies.wrapping_add(perform(&mut dc, place.saturating_add(1), op));
    }
    for place in 0..updates {
        let op = Op::Update(record(place.checked_rem(rows)?), [2; 64]);
        let number = rows.saturating_add(place).saturating_add(1);
        *replies = replies.wrapping_add(perform(&mut dc, number, op));
    }
    Some(dc)
}

/// So many rows and updates of them, a checkpoint that keeps them all, and then so many restarts. How
/// many operations were replied to.
pub fn repeat(alloc: Global, rows: u64, updates: u64, restarts: u64) -> Option<u64> {
    let mut replies = 0;
    let mut dc = filled(alloc, rows, updates, &mut replies)?;
    let _mark = dc.checkpoint();
    for _ in 0..restarts {
        dc.restart().ok()?;
    }
    Some(replies)
}

// All numbers up to this one are answered: the mark rises, and nothing else is done.
fn raise(dc: &mut Dc, low_water: u64) {
    let _reply = dc.perform(&Wire {
        number: 0,
        low_water,
        incarnation: 0,
        redo: false,
        op: Op::Read(record(0)),
    });
}

/// So many rows and updates of them; then the mark rises and a checkpoint is kept, so many times. The
/// marks that were kept, added up.
pub fn repeat_checkpoints(alloc: Global, rows: u64, updates: u64, times: u64) -> Option<u64> {
    let mut replies = 0;
    let mut dc = filled(alloc, rows, updates, &mut replies)?;
    let mut marks: u64 = 0;
    for count in 0..times {
        raise(&mut dc, replies.wrapping_add(count));
        marks = marks.wrapping_add(dc.checkpoint());
    }
    Some(marks)
}
