//! A state in which the tests' procedures are loaded, and calls of them.

use data_component::dc::Dc;
use samples::{MOVE, PUT, call, load, put_procedure};
use std::alloc::{AllocError, Global};
use std::process::Abort;
use tc_core::state::{Call, TcState};

/// The number of a `put` into the second component.
pub(crate) const PUT_BESIDE: usize = 5;

/// A number that no procedure has.
pub(crate) const NO_PROCEDURE: usize = 6;

fn load_put_beside(alloc: Global, state: &mut TcState) -> Option<usize> {
    load(state, "put beside", put_procedure(alloc, 1)?)
}

/// A state for two components in which the procedures are loaded; none where memory is refused.
pub(crate) fn loaded(alloc: Global) -> Option<TcState> {
    let mut state = samples::loaded(alloc, 2)?;
    match load_put_beside(alloc, &mut state) {
        Some(PUT_BESIDE) => Some(state),
        _ => {
            drop(state);
            None
        }
    }
}

/// The same, which a test that is refused no memory has.
pub(crate) fn state(rt: &impl Abort, alloc: Global) -> TcState {
    loaded(alloc).expect(rt, "a procedure isn't loaded")
}

/// A data component with room for so many rows.
pub(crate) fn dc(alloc: Global, rows: usize) -> Result<Dc, AllocError> {
    Dc::new(alloc, rows, 10_000)
}

fn push_call(
    alloc: Global,
    calls: &mut Vec<Call>,
    proc: usize,
    args: &[u64],
) -> Result<(), AllocError> {
    calls.push(call(alloc, proc, args)?)?;
    Ok(())
}

fn push_puts(
    alloc: Global,
    calls: &mut Vec<Call>,
    count: u64,
    number: u64,
) -> Result<(), AllocError> {
    for key in 0..count {
        push_call(alloc, calls, PUT, &[key, number])?;
    }
    Ok(())
}

/// A `put` of this number under each key below this count.
pub(crate) fn puts(alloc: Global, count: u64, number: u64) -> Result<Vec<Call>, AllocError> {
    let mut calls = Vec::new(alloc);
    match push_puts(alloc, &mut calls, count, number) {
        Ok(()) => Ok(calls),
        Err(error) => {
            drop(calls);
            Err(error)
        }
    }
}

/// Appends a call of the procedure with this number.
pub(crate) fn add_call(
    rt: &impl Abort,
    alloc: Global,
    calls: &mut Vec<Call>,
    (proc, args): (usize, &[u64]),
) {
    push_call(alloc, calls, proc, args).expect(rt, "no call");
}

/// A call of each procedure with such a number, with these arguments.
pub(crate) fn calls_of(rt: &impl Abort, alloc: Global, each: &[(usize, &[u64])]) -> Vec<Call> {
    let mut calls = Vec::new(alloc);
    for call in each {
        add_call(rt, alloc, &mut calls, *call);
    }
    calls
}

/// So many calls that move this amount from record 5 onto itself.
pub(crate) fn moves(rt: &impl Abort, alloc: Global, amount: u64, count: usize) -> Vec<Call> {
    let mut calls = Vec::new(alloc);
    for _ in 0..count {
        add_call(rt, alloc, &mut calls, (MOVE, &[5, 5, amount]));
    }
    calls
}
