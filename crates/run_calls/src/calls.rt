//! The calls that a script says.

ghost use Rattle.std.specs.Prelude.{◌≡◌, IfOk};
ghost use Rattle.tc_core.specs.Admission.{call_of};
ghost use Rattle.run_calls.specs.Answered.{AreCallsOf, said_call};

use scripts::script;
use std::alloc::{AllocError, Global};
use tc_core::state::Call;

/// The call that a line of the script says.
pub fn call_of(alloc: Global, said: &script::Call) -> Result<Call, AllocError>
    ensures { IfOk result (λ call. call_of call ≡ said_call said.now) }
{
    Ok(Call {
        proc: said.procedure,
        args: Vec::from_slice(alloc, said.args.as_slice())?,
    })
}

/// The calls that lines of the script say, in their order.
pub fn calls_of(alloc: Global, said: &[script::Call]) -> Result<Vec<Call>, AllocError>
    ensures { IfOk result (λ calls. AreCallsOf said.now calls.items) }
{
    let mut calls = Vec::with_capacity(alloc, said.len())?;
    for line in said {
        calls.push(call_of(alloc, line)?)?;
    }
    Ok(calls)
}
