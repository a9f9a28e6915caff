//! The redo of all that a data component did, as a long log has it.

use crate::procedures::state;
use crate::steps::{admitted, many};
use access_slots::op::{News, Reply, Said, Wire};
use std::alloc::Global;
use tc_core::state::{Asked, Redo, TcState, TxnId};

// Asks, and gives the request up: its number stays open.
fn give_up(state: &mut TcState, txn: TxnId) {
    match state.ask(txn) {
        Asked::Request(request) => {
            let _number = state.give_up(request);
        }
        Asked::Undoing | Asked::Over | Asked::Running | Asked::Unknown => {}
        Asked::Stuck(_) | Asked::Waits(_) => {}
    }
}

// So many numbers that stay open, each of a transaction under a key of its own.
fn leave_open(alloc: Global, state: &mut TcState, count: u64) -> Option<()> {
    for key in 0..count {
        let txn = admitted(alloc, state, key.checked_add(1)?)?;
        give_up(state, txn);
    }
    Some(())
}

// What was done is done again.
fn redone(state: &mut TcState, wire: &Wire) -> Option<()> {
    let reply = Reply {
        number: wire.number,
        incarnation: wire.incarnation,
        said: Said::Done(None),
    };
    state.redone(0, &reply).ok()
}

// Redoes until nothing is left. How many operations it was.
fn redo_all(state: &mut TcState) -> Option<u64> {
    let most = state.log().len() as u64;
    for count in 0..=most {
        match state.redo_next(0) {
            Redo::Send(wire) => redone(state, &wire)?,
            Redo::Finished => return Some(count),
            Redo::NotDown | Redo::NoDc => return None,
        }
    }
    None
}

// A restart is told that lost all, under the next incarnation, and everything is redone.
fn restart(state: &mut TcState, incarnation: u64) -> Option<u64> {
    let news = News {
        incarnation,
        mark: 0,
    };
    state.told(0, news).ok()?;
    redo_all(state)
}

fn run(alloc: Global, state: &mut TcState, ended: u64, opened: u64, times: u64) -> Option<u64> {
    leave_open(alloc, state, opened)?;
    many(alloc, state, ended)?;
    let mut redone: u64 = 0;
    for before in 0..times {
        redone = redone.wrapping_add(restart(state, before.checked_add(1)?)?);
    }
    Some(redone)
}

/// So many numbers are open, and behind them so many transactions of one insert have ended; a restart
/// that lost all is told and everything is redone so many times. How many operations were redone.
pub fn repeat(alloc: Global, ended: u64, opened: u64, times: u64) -> Option<u64> {
    let mut state = state(alloc)?;
    let redone = run(alloc, &mut state, ended, opened, times);
    drop(state);
    redone
}
