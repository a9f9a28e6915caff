//! `verify`: a line for each procedure of an object file, with the line of its source that is refused.

ghost use Rattle.std.specs.Prelude.{◌≡◌, ◌++◌, ◌||◌, if◌then◌else◌, IfOk, OnOk, Ok, string_bytes, true};
ghost use Rattle.std.specs.List.{flat_map, list_any};
ghost use Rattle.std.specs.Option.{option_map};
ghost use Rattle.object_file.specs.LineSections.{line_bytes};
ghost use Rattle.object_procedures.specs.Finding.{all_of};
ghost use Rattle.object_procedures.specs.Refusal.{object_refusal};
ghost use Rattle.object_procedures.specs.SourcePlaces.{fault_text};
ghost use Rattle.text_commands.specs.ObjectVerification.{fault_line, found_line, is_found_refused, findings_lines, has_some, status_of_found, IsVerification};

use crate::verification::{Said, verdict_line};
use bpf_encoding::decode::DecodeFault;
use object_file::{LineSections, line_sections};
use object_procedures::finding::{FindError, Findings, Found, ObjectRefusal, find_all};
use object_procedures::refusal::{refusal, refusal_line};
use object_procedures::source_place::Origin;
use report_texts::fault_names::fault_name;
use report_texts::output::Output;
use std::alloc::{AllocError, Global};

// What is said of a procedure whose bytes aren't code.
fn fault_line(
    alloc: Global,
    name: &str,
    fault: &DecodeFault,
    origin: &Origin<'_>,
) -> Result<Said, AllocError>
    ensures line { IfOk result (λ r. string_bytes r.line
        ≡ fault_line name.now fault.now
        (fault_text (option_map line_bytes origin.now.lines) origin.now.section fault.now)) }
    ensures refused { IfOk result (λ r. r.is_refused ≡ true) }
{
    let place = origin.fault_text(alloc, fault)?;
    let fault = fault_name(alloc, fault)?;
    Ok(Said {
        line: format!(in alloc; "{name} {fault}{place}\n")?,
        is_refused: true,
    })
}

// What is said of a procedure's code, and whether it is refused.
fn found_line<'a>(
    alloc: Global,
    lines: Option<LineSections<'a>>,
    found: Found<'a>,
) -> Result<Said, AllocError>
    ensures line { IfOk result (λ r. string_bytes r.line ≡ found_line (option_map line_bytes lines.entry) found.entry) }
    ensures refused { IfOk result (λ r. r.is_refused ≡ is_found_refused found.entry) }
{
    let Found {
        name,
        decl,
        code,
        section,
    } = found;
    let origin = Origin { lines, section };
    match code {
        Ok(code) => verdict_line(alloc, name.as_str(), code, decl, &origin),
        Err(fault) => {
            drop(decl);
            fault_line(alloc, name.as_str(), &fault, &origin)
        }
    }
}

// Adds the line of a procedure. Whether it is refused.
fn add_line<'a>(
    alloc: Global,
    table: Option<LineSections<'a>>,
    found: Found<'a>,
    lines: &mut String,
) -> Result<bool, AllocError>
    ensures line { OnOk result (string_bytes lines.new
        ≡ string_bytes lines.old ++ found_line (option_map line_bytes table.entry) found.entry) }
    ensures refused { IfOk result (λ r. r ≡ is_found_refused found.entry) }
{
    let said = found_line(alloc, table, found)?;
    lines.push_str(said.line.as_str())?;
    Ok(said.is_refused)
}

// A line for each refusal of the file.
fn refusal_lines(
    alloc: Global,
    file: &[u8],
    refusals: &[ObjectRefusal],
) -> Result<String, AllocError>
    ensures { IfOk result (λ s. string_bytes s ≡ flat_map (object_refusal file.now) refusals.now) }
{
    let mut lines = String::new(alloc);
    'refusals: for why in refusals {
        let line = refusal_line(alloc, file, *why)?;
        lines.push_str(line.as_str())?;
    }
    Ok(lines)
}

// A line for each procedure, and whether one is refused.
fn verdicts<'a>(
    alloc: Global,
    table: Option<LineSections<'a>>,
    found: Vec<Found<'a>>,
) -> Result<Said, AllocError>
    ensures lines { IfOk result (λ r. string_bytes r.line ≡ flat_map (found_line (option_map line_bytes table.entry)) found.entry.items) }
    ensures refused { IfOk result (λ r. r.is_refused ≡ list_any is_found_refused found.entry.items) }
{
    let mut lines = String::new(alloc);
    let mut has_refused = false;
    'found: for procedure in found {
        let is_refused = add_line(alloc, table, procedure, &mut lines)?;
        has_refused = has_refused || is_refused;
    }
    Ok(Said {
        line: lines,
        is_refused: has_refused,
    })
}

// 1 where a part of the file or a procedure is refused.
fn status_of(refusals: &[ObjectRefusal], is_refused: bool) -> u8
    ensures { result ≡ (if has_some refusals.now || is_refused then 1 else 0) }
{
    if refusals.is_empty() {
        return u8::from(is_refused);
    }
    1
}

// The lines of what a file has, and 1 where something is refused.
fn all_verified<'a>(
    alloc: Global,
    file: &'a [u8],
    findings: Findings<'a>,
) -> Result<Output, AllocError>
    ensures lines { IfOk result (λ r. string_bytes r.lines ≡ findings_lines file.entry.now (all_of findings.entry)) }
    ensures status { IfOk result (λ r. r.status ≡ status_of_found (Ok (all_of findings.entry))) }
{
    let Findings { found, refusals } = findings;
    let said = verdicts(alloc, line_sections(alloc, file)?, found)?;
    let mut lines = refusal_lines(alloc, file, refusals.as_slice())?;
    lines.push_str(said.line.as_str())?;
    Ok(Output {
        status: status_of(refusals.as_slice(), said.is_refused),
        lines,
        notes: None,
    })
}

/// Verifies the procedures of an object file: a line for each part of the file that is refused, then one for each other
/// procedure; or why the file isn't read. Where the file has a line table, the line of a slot stands behind it.
pub fn object_verification(alloc: Global, file: &[u8]) -> Result<Output, AllocError>
    ensures { IfOk result (λ r. IsVerification true file.now r.status (string_bytes r.lines)) }
{
    match find_all(alloc, file) {
        Ok(findings) => all_verified(alloc, file, findings),
        Err(FindError::Refused(why)) => refusal(alloc, file, why),
        Err(FindError::Memory) => Err(AllocError),
    }
}
