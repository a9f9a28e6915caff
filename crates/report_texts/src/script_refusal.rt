//! Why a script is refused.

ghost use Rattle.std.specs.Prelude.{◌≡◌, IfOk, string_bytes};
ghost use Rattle.report_texts.specs.ScriptRefusal.{script_refusal};

use crate::fault_names::script_fault_name;
use crate::output::Output;
use scripts::reading::Fault;
use std::alloc::{AllocError, Global};

/// The report of a script that is refused: its fault and the fault's line, with status 1.
pub fn refusal(alloc: Global, fault: Fault) -> Result<Output, AllocError>
    ensures lines { IfOk result (λ r. string_bytes r.lines ≡ script_refusal fault) }
    ensures status { IfOk result (λ r. r.status ≡ 1) }
{
    let line = fault.line;
    let name = script_fault_name(alloc, fault.fault)?;
    Ok(Output {
        status: 1,
        lines: format!(in alloc; "refused line {line} {name}\n")?,
        notes: None,
    })
}
