//! Why calls aren't admitted, and why a log can't begin anew, as text.

ghost use Rattle.std.specs.Prelude.{◌≡◌, IfOk, string_bytes};
ghost use Rattle.state_lines.specs.RefusalTexts.{busy_text, refusal_text, checkpoint_fault_text};

use crate::record_texts::record_text;
use lock_table::table::Busy;
use std::alloc::{AllocError, Global};
use tc_core::beginning::CheckpointFault;
use tc_core::state::Refusal;

// The record whose lock is in the way, and who holds it.
fn busy_text(alloc: Global, busy: &Busy) -> Result<String, AllocError>
    ensures { IfOk result (λ s. string_bytes s ≡ busy_text busy.now) }
{
    let name = record_text(alloc, &busy.name)?;
    let holder = busy.holder;
    format!(in alloc; "B1 Busy {name} holder {holder}")
}

/// Why a call isn't admitted: code, name and detail.
pub fn refusal_text(alloc: Global, refusal: &Refusal) -> Result<String, AllocError>
    ensures { IfOk result (λ s. string_bytes s ≡ refusal_text refusal.now) }
{
    match refusal {
        Refusal::NoProcedure => String::from_str(alloc, "B4 NoProcedure"),
        Refusal::ArgumentCount => String::from_str(alloc, "B5 ArgumentCount"),
        Refusal::Busy(busy) => busy_text(alloc, busy),
        Refusal::NumbersSpent => String::from_str(alloc, "B2 NumbersSpent"),
        Refusal::Memory => String::from_str(alloc, "B3 Memory"),
    }
}

/// Why a log can't begin anew: code, name and detail.
pub fn checkpoint_fault_text(alloc: Global, fault: &CheckpointFault) -> Result<String, AllocError>
    ensures { IfOk result (λ s. string_bytes s ≡ checkpoint_fault_text fault.now) }
{
    match fault {
        CheckpointFault::Nothing => String::from_str(alloc, "G1 Nothing"),
        CheckpointFault::Open(open) => format!(in alloc; "G2 Open {open}"),
        CheckpointFault::DcCount => String::from_str(alloc, "G3 DcCount"),
        CheckpointFault::Down => String::from_str(alloc, "G4 Down"),
        CheckpointFault::Behind => String::from_str(alloc, "G5 Behind"),
        CheckpointFault::Spent => String::from_str(alloc, "G6 Spent"),
    }
}
