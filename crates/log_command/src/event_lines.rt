//! The lines of events.

ghost use Rattle.std.specs.Prelude.{◌≡◌, ◌<◌, ◌+◌, ◌^◌, ◌++◌, length, IfOk, OnOk, string_bytes};
ghost use Rattle.tc_log.specs.Entered.{seen};
ghost use Rattle.log_command.specs.EventLines.{arguments_text, event_line, event_lines};

use state_lines::operation_texts::{op_text, outcome_text, said_text};
use std::alloc::{AllocError, Global};
use tc_log::event::Entry;
use tc_log::events::Events;

// Each argument behind a space.
fn arguments_text(alloc: Global, args: &[u64]) -> Result<String, AllocError>
    ensures { IfOk result (λ s. string_bytes s ≡ arguments_text args.now) }
{
    let mut text = String::new(alloc);
    'pieces: for arg in args {
        let piece = format!(in alloc; " {arg}")?;
        text.push_str(piece.as_str())?;
    }
    Ok(text)
}

// The line of the event at this place of the log, from 0.
fn event_line(alloc: Global, place: usize, event: &Entry<'_>) -> Result<String, AllocError>
    ensures { IfOk result (λ s. string_bytes s ≡ event_line place (seen event.now)) }
{
    match event {
        Entry::Admit { txn, proc, args } => {
            let args = arguments_text(alloc, args)?;
            format!(in alloc; "{place} admit {txn} procedure {proc}{args}\n")
        }
        Entry::Ask { txn, number, op } => {
            let op = op_text(alloc, op)?;
            format!(in alloc; "{place} ask {txn} number {number} {op}\n")
        }
        Entry::Answer { txn, number, said } => {
            let said = said_text(alloc, said)?;
            format!(in alloc; "{place} answer {txn} number {number} {said}\n")
        }
        Entry::Undo { txn, number, op } => {
            let op = op_text(alloc, op)?;
            format!(in alloc; "{place} undo {txn} number {number} {op}\n")
        }
        Entry::End { txn, outcome } => {
            let outcome = outcome_text(alloc, *outcome)?;
            format!(in alloc; "{place} end {txn} {outcome}\n")
        }
        Entry::Checkpoint { admitted, given } => {
            format!(in alloc; "{place} checkpoint {admitted} {given}\n")
        }
    }
}

/// Adds a line for each of these events, the oldest first, which stands at the place `first` of its log.
pub(crate) fn write_events(
    alloc: Global,
    first: usize,
    events: &Events<'_>,
    lines: &mut String,
) -> Result<(), AllocError>
    requires { first + length events.now < 2 ^ 64 }
    ensures { OnOk result (string_bytes lines.new ≡ string_bytes lines.old ++ event_lines first events.now) }
{
    'events: for place in 0..events.len() {
        let line = event_line(alloc, first + place, &events.entry(place))?;
        lines.push_str(line.as_str())?;
    }
    Ok(())
}
