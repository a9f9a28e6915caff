//! The lines of steps.

ghost use Rattle.std.specs.Prelude.{◌≡◌, IfOk, string_bytes};
ghost use Rattle.world_command.specs.OutcomeLines.{sent_line, held_line, told_line, redo_line};
ghost use Rattle.world_command.specs.OutcomeLines.{ended_line, outcome_line, illegal_line, step_line};

use access_slots::op::{News, Op, Wire};
use state_lines::operation_texts::{op_text, outcome_text, said_text};
use state_lines::refusal_texts::{checkpoint_fault_text, refusal_text};
use std::alloc::{AllocError, Global};
use tc_core::state::Receipt;
use tc_world::step::{Illegal, Outcome};

fn sent_line(alloc: Global, place: usize, wire: &Wire) -> Result<String, AllocError>
    ensures { IfOk result (λ s. string_bytes s ≡ sent_line place wire.now) }
{
    let op = op_text(alloc, &wire.op)?;
    let number = wire.number;
    let low_water = wire.low_water;
    format!(in alloc; "sent {place} number {number} {op} low {low_water}\n")
}

fn held_line(alloc: Global, number: u64, op: &Op) -> Result<String, AllocError>
    ensures { IfOk result (λ s. string_bytes s ≡ held_line number op.now) }
{
    let op = op_text(alloc, op)?;
    format!(in alloc; "held number {number} {op}\n")
}

fn told_line(alloc: Global, dc: u16, news: &News) -> Result<String, AllocError>
    ensures { IfOk result (λ s. string_bytes s ≡ told_line dc news.now) }
{
    let incarnation = news.incarnation;
    let mark = news.mark;
    format!(in alloc; "told {dc} incarnation {incarnation} mark {mark}\n")
}

fn redo_line(alloc: Global, place: usize, wire: &Wire) -> Result<String, AllocError>
    ensures { IfOk result (λ s. string_bytes s ≡ redo_line place wire.now) }
{
    let op = op_text(alloc, &wire.op)?;
    let number = wire.number;
    format!(in alloc; "redo {place} number {number} {op}\n")
}

fn ended_line(alloc: Global, receipt: &Receipt) -> Result<String, AllocError>
    ensures { IfOk result (λ s. string_bytes s ≡ ended_line receipt.now.place receipt.now.txn receipt.now.outcome) }
{
    let place = receipt.place;
    let txn = receipt.txn;
    let outcome = outcome_text(alloc, receipt.outcome)?;
    format!(in alloc; "ended {txn} {outcome} at {place}\n")
}

// What a step did.
fn outcome_line(alloc: Global, outcome: &Outcome) -> Result<String, AllocError>
    ensures { IfOk result (λ s. string_bytes s ≡ outcome_line outcome.now) }
{
    match outcome {
        Outcome::Admitted(txn) => format!(in alloc; "admitted {txn}\n"),
        Outcome::Sent(place, wire) => sent_line(alloc, *place, wire),
        Outcome::Held(number, op) => held_line(alloc, *number, op),
        Outcome::Undoing(txn) => format!(in alloc; "undoing {txn}\n"),
        Outcome::Over(txn) => format!(in alloc; "over {txn}\n"),
        Outcome::Stuck(txn, number) => format!(in alloc; "stuck {txn} number {number}\n"),
        Outcome::Replied(place, reply) => {
            let said = said_text(alloc, &reply.said)?;
            let number = reply.number;
            format!(in alloc; "reply {place} number {number} {said}\n")
        }
        Outcome::Silent => String::from_str(alloc, "silent\n"),
        Outcome::Took(number) => format!(in alloc; "took number {number}\n"),
        Outcome::Ended(receipt) => ended_line(alloc, receipt),
        Outcome::Restarted(dc) => format!(in alloc; "restarted {dc}\n"),
        Outcome::Forged(place) => format!(in alloc; "forged {place}\n"),
        Outcome::Checkpointed(dc, mark) => format!(in alloc; "checkpoint {dc} mark {mark}\n"),
        Outcome::Told(dc, news) => told_line(alloc, *dc, news),
        Outcome::Redoing(place, wire) => redo_line(alloc, *place, wire),
        Outcome::Redone(number) => format!(in alloc; "redone number {number}\n"),
        Outcome::Up(dc) => format!(in alloc; "up {dc}\n"),
        Outcome::Crashed(events, open) => format!(in alloc; "crashed {events} open {open}\n"),
        Outcome::Cut(admitted, given) => format!(in alloc; "cut {admitted} {given}\n"),
    }
}

// Why a step isn't possible.
fn illegal_line(alloc: Global, why: &Illegal) -> Result<String, AllocError>
    ensures { IfOk result (λ s. string_bytes s ≡ illegal_line why.now) }
{
    match why {
        Illegal::Refused(refusal) => {
            let refusal = refusal_text(alloc, refusal)?;
            format!(in alloc; "illegal I1 Refused {refusal}\n")
        }
        Illegal::NoTxn => String::from_str(alloc, "illegal I2 NoTxn\n"),
        Illegal::Waits(number) => format!(in alloc; "illegal I3 Waits {number}\n"),
        Illegal::Running => String::from_str(alloc, "illegal I4 Running\n"),
        Illegal::NotOver => String::from_str(alloc, "illegal I5 NotOver\n"),
        Illegal::NothingOpen => String::from_str(alloc, "illegal I6 NothingOpen\n"),
        Illegal::NoCopy => String::from_str(alloc, "illegal I7 NoCopy\n"),
        Illegal::NoReply => String::from_str(alloc, "illegal I8 NoReply\n"),
        Illegal::Stranger => String::from_str(alloc, "illegal I9 Stranger\n"),
        Illegal::NoDc => String::from_str(alloc, "illegal I10 NoDc\n"),
        Illegal::Memory => String::from_str(alloc, "illegal I11 Memory\n"),
        Illegal::IncarnationsSpent => String::from_str(alloc, "illegal I12 IncarnationsSpent\n"),
        Illegal::Down(dc) => format!(in alloc; "illegal I13 Down {dc}\n"),
        Illegal::NoNews => String::from_str(alloc, "illegal I14 NoNews\n"),
        Illegal::OldNews => String::from_str(alloc, "illegal I15 OldNews\n"),
        Illegal::NotDown => String::from_str(alloc, "illegal I16 NotDown\n"),
        Illegal::NotWritten => String::from_str(alloc, "illegal I17 NotWritten\n"),
        Illegal::Forgotten => String::from_str(alloc, "illegal I18 Forgotten\n"),
        Illegal::NotCut(fault) => {
            let fault = checkpoint_fault_text(alloc, fault)?;
            format!(in alloc; "illegal I19 NotCut {fault}\n")
        }
        Illegal::Unforgettable(dc) => format!(in alloc; "illegal I20 Unforgettable {dc}\n"),
    }
}

/// The line of a step: what it did, or why it isn't possible.
pub fn step_line(alloc: Global, step: &Result<Outcome, Illegal>) -> Result<String, AllocError>
    ensures { IfOk result (λ s. string_bytes s ≡ step_line step.now) }
{
    match step {
        Ok(outcome) => outcome_line(alloc, outcome),
        Err(why) => illegal_line(alloc, why),
    }
}
