//! What an audit found, as a line.

ghost use Rattle.std.specs.Prelude.{◌≡◌, IfOk, string_bytes};
ghost use Rattle.state_lines.specs.AuditLines.{audit_line, lacks_memory, AddsAudit, AddsIf};
ghost use Rattle.state_lines.specs.AuditLines.{gap_of, first_gap, gap_text, skipped_line, AddsStateAudit};

use crate::record_texts::record_text;
use audit::auditing::{AuditFault, Audited, audit};
use data_component::dc::Dc;
use std::alloc::{AllocError, Global};
use tc_core::procs::Procs;
use tc_core::state::TcState;
use tc_log::log::Log;
use transactions::Site;

/// How a data component isn't as the transaction component knows it: what it keeps isn't to be
/// compared with the log then.
#[derive(Clone, Copy, Debug, PartialEq, Eq)]
pub enum Gap {
    /// It is down: what it lost is not all redone.
    Down,
    /// It has restarted, and the transaction component wasn't told.
    Restarted,
}

fn audit_line(alloc: Global, found: &Result<Audited, AuditFault>) -> Result<String, AllocError>
    ensures { IfOk result (λ s. string_bytes s ≡ audit_line found.now) }
{
    match found {
        Ok(Audited { ended, left }) => format!(in alloc; "audit ok ended {ended} open {left}\n"),
        Err(AuditFault::Begun(dc)) => format!(in alloc; "refused U0 Begun dc {dc}\n"),
        Err(AuditFault::LogIllegal(place)) => {
            format!(in alloc; "refused U1 LogIllegal place {place}\n")
        }
        Err(AuditFault::NotAsked(dc, place)) => {
            format!(in alloc; "refused U2 NotAsked dc {dc} place {place}\n")
        }
        Err(AuditFault::Mismatch(number)) => format!(in alloc; "refused U3 Mismatch {number}\n"),
        Err(AuditFault::Rows(record)) => {
            let name = record_text(alloc, record)?;
            format!(in alloc; "refused U4 Rows {name}\n")
        }
        Err(AuditFault::Memory) => String::from_str(alloc, "refused U5 Memory\n"),
    }
}

fn lacks_memory(found: &Result<Audited, AuditFault>) -> bool
    ensures { result ≡ lacks_memory found.now }
{
    matches!(found, Err(AuditFault::Memory))
}

/// Audits a log and data components, adds the line of what is found, and answers whether nothing is
/// wrong.
pub fn write_audit(
    alloc: Global,
    procs: &Procs,
    log: &Log,
    dcs: &[Dc],
    lines: &mut String,
) -> Result<bool, AllocError>
    ensures { IfOk result (λ sound. AddsAudit procs.now.codes log.now.events dcs.now
        (string_bytes lines.old) (string_bytes lines.new) sound) }
{
    let found = audit(alloc, procs, log, dcs);
    if lacks_memory(&found) {
        return Err(AllocError);
    }
    let line = audit_line(alloc, &found)?;
    lines.push_str(line.as_str())?;
    Ok(found.is_ok())
}

/// The same of a state's log, where it is wanted; where it isn't, nothing is known to be wrong.
pub fn write_audit_if(
    alloc: Global,
    audit: bool,
    state: &TcState,
    dcs: &[Dc],
    lines: &mut String,
) -> Result<bool, AllocError>
    ensures { IfOk result (λ sound. AddsIf audit (string_bytes lines.old) (string_bytes lines.new) sound
        (AddsAudit state.now.procs state.now.events dcs.now (string_bytes lines.old) (string_bytes lines.new) sound)) }
{
    if !audit {
        return Ok(true);
    }
    write_audit(alloc, state.procs(), state.log(), dcs, lines)
}

fn gap_of(site: &Site, dc: &Dc) -> Option<Gap>
    ensures { result ≡ gap_of site.now dc.now }
{
    if site.redo.is_some() {
        Some(Gap::Down)
    } else if site.incarnation == dc.incarnation() {
        None
    } else {
        Some(Gap::Restarted)
    }
}

// The first data component that isn't as the state knows it.
fn first_gap(state: &TcState, dcs: &[Dc]) -> Option<(usize, Gap)>
    ensures { result ≡ first_gap 0 state.now.sites dcs.now }
{
    for (place, dc) in dcs.iter().enumerate() {
        if let Some(gap) = gap_of(&state.site(place), dc) {
            return Some((place, gap));
        }
    }
    None
}

fn gap_text(gap: Gap) -> &'static str
    ensures { result.now ≡ gap_text gap }
{
    match gap {
        Gap::Down => "down",
        Gap::Restarted => "restarted",
    }
}

fn skipped_line(alloc: Global, dc: usize, gap: Gap) -> Result<String, AllocError>
    ensures { IfOk result (λ s. string_bytes s ≡ skipped_line dc gap) }
{
    let gap = gap_text(gap);
    format!(in alloc; "audit skipped dc {dc} {gap}\n")
}

/// The same of a state's log and its data components. Where one of these is down, or has restarted
/// and the state wasn't told, the line says so, and nothing is audited.
pub fn write_state_audit(
    alloc: Global,
    state: &TcState,
    dcs: &[Dc],
    lines: &mut String,
) -> Result<bool, AllocError>
    ensures { IfOk result (λ sound. AddsStateAudit state.now.sites state.now.procs state.now.events dcs.now
        (string_bytes lines.old) (string_bytes lines.new) sound) }
{
    let Some((dc, gap)) = first_gap(state, dcs) else {
        return write_audit(alloc, state.procs(), state.log(), dcs, lines);
    };
    let line = skipped_line(alloc, dc, gap)?;
    lines.push_str(line.as_str())?;
    Ok(true)
}
