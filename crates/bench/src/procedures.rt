//! The two procedures whose calls are timed, and a transaction component that has them.

use samples::{call, load, move_procedure, put_procedure};
use std::alloc::Global;
use tc_core::state::{Call, TcState};

/// The number of the procedure that inserts.
pub const PUTS: usize = 0;

/// The number of the procedure that moves an amount from one record to another.
pub const MOVES: usize = 1;

// The number of the last.
fn load_both(alloc: Global, state: &mut TcState) -> Option<usize> {
    load(state, "put", put_procedure(alloc, 0)?)?;
    load(state, "move", move_procedure(alloc)?)
}

/// A transaction component over one data component, with both procedures.
pub fn state(alloc: Global) -> Option<TcState> {
    let mut state = TcState::new(alloc, 1).ok()?;
    match load_both(alloc, &mut state) {
        Some(MOVES) => Some(state),
        _ => {
            drop(state);
            None
        }
    }
}

/// A call that inserts a number under a key.
pub fn put(alloc: Global, key: u64, number: u64) -> Option<Call> {
    call(alloc, PUTS, &[key, number]).ok()
}

/// A call that moves 1 from a record to another.
pub fn move_one(alloc: Global, from: u64, to: u64) -> Option<Call> {
    call(alloc, MOVES, &[from, to, 1]).ok()
}
