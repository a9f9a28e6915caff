//! A script's steps taken one after another, and what is printed of them.

ghost use Rattle.std.specs.Prelude.{◌≡◌, ◌++◌, IfOk, OnOk, string_bytes};
ghost use Rattle.world_command.specs.Stepping.{IsStepOf, is_want_of_memory, AreTaken, log_lines};

use crate::outcome_lines::step_line;
use report_texts::hex::write_pair;
use scripts::script;
use std::alloc::{AllocError, Global};
use tc_core::state::{Call, Refusal};
use tc_world::step::{Illegal, Outcome, Step};
use tc_world::world::World;

// The world's step that a line of the script says.
fn step_of(alloc: Global, line: &script::Step) -> Result<Step, AllocError>
    ensures { IfOk result (IsStepOf line.now) }
{
    Ok(match line {
        script::Step::Admit(call) => Step::Admit(Call {
            proc: call.procedure,
            args: Vec::from_slice(alloc, call.args.as_slice())?,
        }),
        script::Step::Ask(txn) => Step::Ask(*txn),
        script::Step::Undo(txn) => Step::Undo(*txn),
        script::Step::End(txn) => Step::End(*txn),
        script::Step::Resend(txn) => Step::Resend(*txn),
        script::Step::Perform(copy) => Step::Perform(*copy as usize),
        script::Step::Take(reply) => Step::Take(*reply as usize),
        script::Step::Restart(dc) => Step::Restart(*dc),
        script::Step::Checkpoint(dc) => Step::Checkpoint(*dc),
        script::Step::Tell(news) => Step::Tell(*news as usize),
        script::Step::Redo(dc) => Step::Redo(*dc),
        script::Step::Crash(events) => Step::Crash(*events as usize),
        script::Step::Cut => Step::Cut,
        script::Step::Forge(reply) => Step::Forge(*reply),
    })
}

fn is_want_of_memory(told: &Result<Outcome, Illegal>) -> bool
    ensures { result ≡ is_want_of_memory told.now }
{
    match told {
        Err(Illegal::Refused(Refusal::Memory)) | Err(Illegal::Memory) => true,
        _ => false,
    }
}

/// Takes the steps one after another, also behind one that isn't possible, and adds a line for
/// each. Answers whether all were possible. At want of memory in a step it ends there.
pub fn take_steps(
    alloc: Global,
    world: &mut World,
    steps: &[script::Step],
    lines: &mut String,
) -> Result<bool, AllocError>
    ensures { IfOk result (λ all. AreTaken world.old steps.now world.new (string_bytes lines.old) (string_bytes lines.new) all) }
{
    let mut all = true;
    for line in steps {
        let step = step_of(alloc, line)?;
        let told = world.step(&step);
        if is_want_of_memory(&told) {
            return Err(AllocError);
        }
        let text = step_line(alloc, &told)?;
        lines.push_str(text.as_str())?;
        all &= told.is_ok();
    }
    Ok(all)
}

/// Adds a line for each event of a log's bytes.
pub fn write_log(bytes: &[u8], lines: &mut String) -> Result<(), AllocError>
    ensures { OnOk result (string_bytes lines.new ≡ string_bytes lines.old ++ log_lines bytes.now) }
{
    'bytes: for at in 0..bytes.len() {
        write_pair(lines, bytes[at])?;
        if at % 96 == 95 {
            lines.push('\n')?;
        }
    }
    Ok(())
}
