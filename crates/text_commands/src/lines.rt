//! What `exec` prints, and its exit status.

ghost use Rattle.std.specs.Prelude.{◌≡◌, IfOk, string_bytes};
ghost use Rattle.text_commands.specs.CodeReport.{IsExecution};
ghost use Rattle.text_commands.specs.Execution.{answer_lines, lines_of, status_of, text_execution};

use crate::execute::{Execution, execute_text};
use report_texts::fault_names::{fault_name, violation_name};
use report_texts::output::Output;
use std::alloc::{AllocError, Global};

fn answer_lines(alloc: Global, value: u64, executed: u32) -> Result<String, AllocError>
    ensures { IfOk result (λ s. string_bytes s ≡ answer_lines value executed) }
{
    let mut lines = format!(in alloc; "answer {value}\n")?;
    let count = format!(in alloc; "executed {executed}\n")?;
    lines.push_str(count.as_str())?;
    Ok(lines)
}

/// The lines that say what a run came to.
pub(crate) fn lines(alloc: Global, execution: &Execution) -> Result<String, AllocError>
    ensures { IfOk result (λ s. string_bytes s ≡ lines_of execution.now) }
{
    match execution {
        Execution::Answer(value, executed) => answer_lines(alloc, *value, *executed),
        Execution::NotHex(at) => format!(in alloc; "refused H1 NotHex at {at}\n"),
        Execution::Code(fault) => {
            let fault = fault_name(alloc, fault)?;
            format!(in alloc; "refused {fault}\n")
        }
        Execution::TooManyArgs => String::from_str(alloc, "refused S1 TooManyArgs\n"),
        Execution::Refused(slot, violation) => {
            let violation = violation_name(*violation);
            format!(in alloc; "refused {violation} slot {slot}\n")
        }
    }
}

/// The exit status that goes with it: 0 for an answer, 1 for a refusal.
pub(crate) fn status(execution: &Execution) -> u8
    ensures { result ≡ status_of execution.now }
{
    match execution {
        Execution::Answer(..) => 0,
        _ => 1,
    }
}

/// Runs code that stands in hex text, or in its bytes with `raw`, on at most 8 arguments; a refusal is a
/// report with status 1.
pub fn execution(
    alloc: Global,
    raw: bool,
    text: &[u8],
    numbers: &[u64],
) -> Result<Output, AllocError>
    ensures { IfOk result (λ r. IsExecution (text_execution raw text.now numbers.now) r.status (string_bytes r.lines)) }
{
    let execution = execute_text(alloc, raw, text, numbers)?;
    Ok(Output {
        status: status(&execution),
        lines: lines(alloc, &execution)?,
        notes: None,
    })
}
