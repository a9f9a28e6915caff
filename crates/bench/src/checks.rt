//! The check of a long log, and the audit of one beside a data component that performed it.

use crate::procedures::{move_one, put, state};
use crate::steps::many;
use audit::auditing::audit;
use data_component::dc::Dc;
use std::alloc::Global;
use tc_core::checking::check_log;
use tc_core::state::{Asked, Call, Request, Stranger, TcState, TxnId};

fn checked(alloc: Global, state: &mut TcState, ended: u64, times: u64) -> Option<u64> {
    many(alloc, state, ended)?;
    let mut events: u64 = 0;
    for _ in 0..times {
        check_log(alloc, state.procs(), state.log()).ok()?;
        events = events.wrapping_add(state.log().len() as u64);
    }
    Some(events)
}

/// So many transactions of one insert have ended; the log is checked so many times. How many events
/// were checked.
pub fn repeat(alloc: Global, ended: u64, times: u64) -> Option<u64> {
    let mut state = state(alloc)?;
    let events = checked(alloc, &mut state, ended, times);
    drop(state);
    events
}

// A request is performed, and its reply taken in.
fn carry(state: &mut TcState, dc: &mut Dc, request: Request) -> Option<()> {
    let reply = match state.wire(&request) {
        Ok(wire) => dc.perform(&wire),
        Err(_) => None,
    };
    let Some(reply) = reply else {
        state.give_up(request);
        return None;
    };
    match state.answer(request, reply) {
        Ok(()) => Some(()),
        Err(Stranger { request }) => {
            state.give_up(request);
            None
        }
    }
}

// Performs what is asked for until nothing is, at most so many times.
fn carry_all(state: &mut TcState, dc: &mut Dc, txn: TxnId, most: u64) -> Option<()> {
    for _ in 0..most {
        match state.ask(txn) {
            Asked::Request(request) => carry(state, dc, request)?,
            Asked::Undoing | Asked::Over | Asked::Running | Asked::Unknown => break,
            Asked::Stuck(_) | Asked::Waits(_) => break,
        }
    }
    Some(())
}

// One call from its admission to its end: four operations at most.
fn run_call(state: &mut TcState, dc: &mut Dc, call: &Call) -> Option<()> {
    let txn = state.admit(call).ok()?;
    carry_all(state, dc, txn, 5)?;
    match state.end(txn) {
        Ok(_) => Some(()),
        Err(_) => None,
    }
}

// So many records are put, and then so many calls move 1 from one of them to the next.
fn run_calls(alloc: Global, state: &mut TcState, dc: &mut Dc, ended: u64, rows: u64) -> Option<()> {
    for key in 0..rows {
        run_call(state, dc, &put(alloc, key, 1_000_000)?)?;
    }
    for from in 0..ended {
        let to = from.checked_add(1)?.checked_rem(rows)?;
        run_call(state, dc, &move_one(alloc, from.checked_rem(rows)?, to)?)?;
    }
    Some(())
}

fn audited(alloc: Global, state: &mut TcState, ended: u64, rows: u64, times: u64) -> Option<u64> {
    let ops = ended.checked_mul(4)?.checked_add(rows)?;
    let mut dcs = Vec::new(alloc);
    let found = match push_called(alloc, state, (ended, rows), ops, &mut dcs) {
        Some(()) => audited_again(alloc, state, dcs.as_slice(), times),
        None => None,
    };
    drop(dcs);
    found
}

// A data component that has performed the calls.
fn push_called(
    alloc: Global,
    state: &mut TcState,
    (ended, rows): (u64, u64),
    ops: u64,
    dcs: &mut Vec<Dc>,
) -> Option<()> {
    dcs.push(Dc::new(alloc, rows as usize, ops as usize).ok()?)
        .ok()?;
    run_calls(alloc, state, dcs.first_mut()?, ended, rows)
}

fn audited_again(alloc: Global, state: &TcState, dcs: &[Dc], times: u64) -> Option<u64> {
    let mut found: u64 = 0;
    for _ in 0..times {
        let audited = audit(alloc, state.procs(), state.log(), dcs).ok()?;
        found = found.wrapping_add(audited.ended);
    }
    Some(found)
}

/// So many records were put, and so many calls have moved 1 from one of them to the next, over a data
/// component; the log is audited beside it so many times. How many ended transactions the audits
/// found: those that put are among them.
pub fn repeat_audits(alloc: Global, ended: u64, rows: u64, times: u64) -> Option<u64> {
    let mut state = state(alloc)?;
    let found = audited(alloc, &mut state, ended, rows, times);
    drop(state);
    found
}
