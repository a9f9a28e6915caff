//! The steps of a transaction beside a long log and many that are open.

use crate::procedures::{put, state};
use access_slots::op::{Reply, Said};
use std::alloc::Global;
use tc_core::state::{Asked, Request, Stranger, TcState, TxnId};

// What is asked for is done.
fn answer(state: &mut TcState, request: Request) {
    let reply = Reply {
        number: request.number(),
        incarnation: 0,
        said: Said::Done(None),
    };
    if let Err(Stranger { request }) = state.answer(request, reply) {
        state.give_up(request);
    }
}

// Asks until nothing is asked for, at most so many times.
fn ask_all(state: &mut TcState, txn: TxnId, most: u64) {
    for _ in 0..most {
        match state.ask(txn) {
            Asked::Request(request) => answer(state, request),
            Asked::Undoing | Asked::Over | Asked::Running | Asked::Unknown => return,
            Asked::Stuck(_) | Asked::Waits(_) => return,
        }
    }
}

/// Admits a call that inserts under this key.
pub fn admitted(alloc: Global, state: &mut TcState, key: u64) -> Option<TxnId> {
    state.admit(&put(alloc, key, 1)?).ok()
}

// One transaction from its admission to its end: an insert.
fn one(alloc: Global, state: &mut TcState, key: u64) -> Option<()> {
    let txn = admitted(alloc, state, key)?;
    ask_all(state, txn, 2);
    match state.end(txn) {
        Ok(_) => Some(()),
        Err(_) => None,
    }
}

/// So many inserts from admission to end, all under the key 0.
pub fn many(alloc: Global, state: &mut TcState, times: u64) -> Option<()> {
    for _ in 0..times {
        one(alloc, state, 0)?;
    }
    Some(())
}

// So many that stay open, each under a key of its own.
fn open(alloc: Global, state: &mut TcState, count: u64) -> Option<()> {
    for key in 0..count {
        admitted(alloc, state, key.checked_add(1)?)?;
    }
    Some(())
}

fn run(alloc: Global, state: &mut TcState, ended: u64, opened: u64, times: u64) -> Option<u64> {
    many(alloc, state, ended)?;
    open(alloc, state, opened)?;
    many(alloc, state, times)?;
    Some(state.log().len() as u64)
}

/// So many transactions have ended, and so many are open; one more is run from its admission to its
/// end so many times. The length of the log, in events: four for each that has ended, and one for
/// each that is open.
pub fn repeat(alloc: Global, ended: u64, opened: u64, times: u64) -> Option<u64> {
    let mut state = state(alloc)?;
    let events = run(alloc, &mut state, ended, opened, times);
    drop(state);
    events
}
