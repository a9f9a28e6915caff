//! Transactions in doubt, and a call that they block.

use crate::procedures::{put, state};
use crate::steps::admitted;
use std::alloc::Global;
use tc_core::state::{Asked, TcState};

// So many transactions insert under a key each, and their requests are given up.
fn doubt_all(alloc: Global, state: &mut TcState, count: u64) -> Option<()> {
    for key in 0..count {
        let txn = admitted(alloc, state, key)?;
        match state.ask(txn) {
            Asked::Request(request) => state.give_up(request),
            Asked::Undoing | Asked::Over | Asked::Running | Asked::Unknown => return None,
            Asked::Stuck(_) | Asked::Waits(_) => return None,
        };
    }
    Some(())
}

/// So many transactions are in doubt; whether the call of one in their midst is blocked is asked so many
/// times. How often it was.
pub fn repeat(alloc: Global, doubted: u64, times: u64) -> Option<u64> {
    let mut state = state(alloc)?;
    let blocked = blocked(alloc, &mut state, doubted, times);
    drop(state);
    blocked
}

fn blocked(alloc: Global, state: &mut TcState, doubted: u64, times: u64) -> Option<u64> {
    doubt_all(alloc, state, doubted)?;
    let call = put(alloc, doubted / 2, 1)?;
    let mut blocked: u64 = 0;
    for _ in 0..times {
        blocked = blocked.wrapping_add(u64::from(state.blocked(&call)));
    }
    drop(call);
    Some(blocked)
}

/// In so many transaction components, one after another, so many transactions are admitted, asked, and their
/// requests given up. How many.
pub fn repeat_give_ups(alloc: Global, doubted: u64, times: u64) -> Option<u64> {
    let mut given_up: u64 = 0;
    for _ in 0..times {
        let mut state = state(alloc)?;
        let all = doubt_all(alloc, &mut state, doubted);
        drop(state);
        all?;
        given_up = given_up.wrapping_add(doubted);
    }
    Some(given_up)
}
