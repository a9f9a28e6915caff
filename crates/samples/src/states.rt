//! A state in which the procedures are loaded, and calls of them.

use crate::procedures::{
    bad_procedure, drop_procedure, get_procedure, move_procedure, put_procedure,
};
use access_slots::slot::{Record, Value};
use std::alloc::{AllocError, Global};
use tc_core::state::{Call, TcState};
use verifier::verify::Verified;

/// The number of `put` in a state.
pub const PUT: usize = 0;

/// The number of `get`.
pub const GET: usize = 1;

/// The number of `bad`.
pub const BAD: usize = 2;

/// The number of `move`.
pub const MOVE: usize = 3;

/// The number of `drop`.
pub const DROP: usize = 4;

/// Loads a procedure, and answers its number; none where it is refused.
pub fn load(state: &mut TcState, name: &str, code: Verified) -> Option<usize> {
    state.load(name, code).ok()
}

// The number of the last. They have their numbers by the order in which they are loaded.
fn load_all(alloc: Global, state: &mut TcState) -> Option<usize> {
    load(state, "put", put_procedure(alloc, 0)?)?;
    load(state, "get", get_procedure(alloc)?)?;
    load(state, "bad", bad_procedure(alloc)?)?;
    load(state, "move", move_procedure(alloc)?)?;
    load(state, "drop", drop_procedure(alloc)?)
}

/// A state of so many data components, at the first of which the five procedures work; none where there
/// is no component or memory ran out.
pub fn loaded(alloc: Global, dcs: u16) -> Option<TcState> {
    let mut state = TcState::new(alloc, dcs).ok()?;
    match load_all(alloc, &mut state) {
        Some(DROP) => Some(state),
        _ => {
            drop(state);
            None
        }
    }
}

/// A call of the procedure with this number.
pub fn call(alloc: Global, proc: usize, args: &[u64]) -> Result<Call, AllocError> {
    Ok(Call {
        proc,
        args: Vec::from_slice(alloc, args)?,
    })
}

/// The record under this key, at the first data component.
pub const fn record(key: u64) -> Record {
    Record {
        dc: 0,
        table: 0,
        key,
    }
}

/// The eight bytes of a number, and zeros.
pub fn value(number: u64) -> Value {
    let mut value = [0; 64];
    value[..8].copy_from_slice(&number.to_le_bytes());
    value
}
