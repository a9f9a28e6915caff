//! The texts of operations, of their answers, and of how transactions end.

ghost use Rattle.std.specs.Prelude.{◌≡◌, IfOk, string_bytes};
ghost use Rattle.state_lines.specs.OperationTexts.{op_text, said_text, outcome_text};

use crate::record_texts::{record_text, value_text};
use access_slots::op::{Op, Said};
use std::alloc::{AllocError, Global};
use tc_log::event::Outcome;

/// An operation, as `insert 0/0/5 100`.
pub fn op_text(alloc: Global, op: &Op) -> Result<String, AllocError>
    ensures { IfOk result (λ s. string_bytes s ≡ op_text op.now) }
{
    match op {
        Op::Read(record) => {
            let name = record_text(alloc, record)?;
            format!(in alloc; "read {name}")
        }
        Op::Insert(record, value) => {
            let name = record_text(alloc, record)?;
            let value = value_text(alloc, value)?;
            format!(in alloc; "insert {name} {value}")
        }
        Op::Update(record, value) => {
            let name = record_text(alloc, record)?;
            let value = value_text(alloc, value)?;
            format!(in alloc; "update {name} {value}")
        }
        Op::Delete(record) => {
            let name = record_text(alloc, record)?;
            format!(in alloc; "delete {name}")
        }
    }
}

/// An answer, as `done was 100`.
pub fn said_text(alloc: Global, said: &Said) -> Result<String, AllocError>
    ensures { IfOk result (λ s. string_bytes s ≡ said_text said.now) }
{
    match said {
        Said::Value(value) => {
            let value = value_text(alloc, value)?;
            format!(in alloc; "value {value}")
        }
        Said::Absent => String::from_str(alloc, "absent"),
        Said::Done(None) => String::from_str(alloc, "done"),
        Said::Done(Some(former)) => {
            let former = value_text(alloc, former)?;
            format!(in alloc; "done was {former}")
        }
        Said::Duplicate => String::from_str(alloc, "duplicate"),
        Said::Missing => String::from_str(alloc, "missing"),
        Said::NoRoom => String::from_str(alloc, "noroom"),
        Said::Old => String::from_str(alloc, "old"),
    }
}

/// How a transaction ended, as `aborted 5`.
pub fn outcome_text(alloc: Global, outcome: Outcome) -> Result<String, AllocError>
    ensures { IfOk result (λ s. string_bytes s ≡ outcome_text outcome) }
{
    match outcome {
        Outcome::Committed => String::from_str(alloc, "committed"),
        Outcome::Aborted(value) => format!(in alloc; "aborted {value}"),
        Outcome::NoRoom => String::from_str(alloc, "noroom"),
    }
}
