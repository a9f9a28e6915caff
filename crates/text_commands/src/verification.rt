//! `verify`: a line for each procedure of a script.

ghost use Rattle.std.specs.Prelude.{◌≡◌, ◌++◌, IfOk, OnOk, if◌then◌else◌, is_some, string_bytes};
ghost use Rattle.std.specs.List.{flat_map, list_any};
ghost use Rattle.std.specs.Option.{option_map};
ghost use Rattle.object_file.specs.LineSections.{line_bytes};
ghost use Rattle.verifier.specs.Verdict.{verdict};
ghost use Rattle.object_procedures.specs.SourcePlaces.{slot_text};
ghost use Rattle.text_commands.specs.Verification.{verdict_line, procedure_line, is_refused, verification_lines, verification_status};

use access_slots::decl::Decl;
use bpf_encoding::code::Code;
use object_procedures::source_place::Origin;
use register_kinds::kind::Violation;
use report_texts::fault_names::violation_name;
use report_texts::output::Output;
use report_texts::script_refusal::refusal;
use scripts::keyword::Command;
use scripts::reading::parse;
use scripts::script::Procedure;
use std::alloc::{AllocError, Global};
use verifier::verify::{VerifyFault, verify};

/// What is said of a procedure.
#[derive(Drop)]
pub(crate) struct Said {
    pub line: String,
    pub is_refused: bool,
}

// What the verifier refuses first of code, and at which slot.
pub(crate) fn refused_at(
    alloc: Global,
    code: Code,
    decl: Decl,
) -> Result<Option<(usize, Violation)>, AllocError>
    ensures { IfOk result (λ r. r ≡ verdict decl code) }
{
    match verify(alloc, code, decl) {
        Ok(_) => Ok(None),
        Err(VerifyFault::At(slot, violation)) => Ok(Some((slot, violation))),
        Err(VerifyFault::Memory) => Err(AllocError),
    }
}

/// What the verifier says of code under this name.
pub(crate) fn verdict_line(
    alloc: Global,
    name: &str,
    code: Code,
    decl: Decl,
    origin: &Origin<'_>,
) -> Result<Said, AllocError>
    ensures line { IfOk result (λ r. string_bytes r.line
        ≡ verdict_line (verdict decl code) (slot_text (option_map line_bytes origin.now.lines) origin.now.section) name.now code) }
    ensures refused { IfOk result (λ r. r.is_refused ≡ is_some (verdict decl code)) }
{
    let slots = code.len();
    match refused_at(alloc, code, decl)? {
        None => Ok(Said {
            line: format!(in alloc; "{name} accepted {slots}\n")?,
            is_refused: false,
        }),
        Some((slot, violation)) => {
            let why = violation_name(violation);
            let place = origin.slot_text(alloc, slot)?;
            Ok(Said {
                line: format!(in alloc; "{name} {why} slot {slot}{place}\n")?,
                is_refused: true,
            })
        }
    }
}

fn procedure_line(alloc: Global, procedure: Procedure) -> Result<Said, AllocError>
    ensures line { IfOk result (λ r. string_bytes r.line ≡ procedure_line procedure.entry) }
    ensures refused { IfOk result (λ r. r.is_refused ≡ is_refused procedure.entry) }
{
    verdict_line(
        alloc,
        procedure.name.as_str(),
        procedure.code,
        procedure.decl,
        &Origin::none(),
    )
}

// Adds the line of a procedure. Whether it is refused.
fn add_line(alloc: Global, procedure: Procedure, lines: &mut String) -> Result<bool, AllocError>
    ensures line { OnOk result (string_bytes lines.new ≡ string_bytes lines.old ++ procedure_line procedure.entry) }
    ensures refused { IfOk result (λ r. r ≡ is_refused procedure.entry) }
{
    let said = procedure_line(alloc, procedure)?;
    lines.push_str(said.line.as_str())?;
    Ok(said.is_refused)
}

// A line for each procedure, and 1 where one is refused.
fn verified(alloc: Global, procedures: Vec<Procedure>) -> Result<Output, AllocError>
    ensures lines { IfOk result (λ r. string_bytes r.lines ≡ flat_map procedure_line procedures.entry.items) }
    ensures status { IfOk result (λ r. r.status ≡ (if list_any is_refused procedures.entry.items then 1 else 0)) }
{
    let mut lines = String::new(alloc);
    let mut has_refused = false;
    'procedures: for procedure in procedures {
        let is_refused = add_line(alloc, procedure, &mut lines)?;
        has_refused = has_refused || is_refused;
    }
    Ok(Output {
        status: u8::from(has_refused),
        lines,
        notes: None,
    })
}

/// Verifies the procedures of a script: a line for each, or the script's first fault with its
/// line.
pub fn verification(alloc: Global, text: &str) -> Result<Output, AllocError>
    ensures lines { IfOk result (λ r. string_bytes r.lines ≡ verification_lines text.now) }
    ensures status { IfOk result (λ r. r.status ≡ verification_status text.now) }
{
    let parsed = parse(alloc, Command::Verify, text)?;
    match parsed.fault {
        Some(fault) => refusal(alloc, fault),
        None => verified(alloc, parsed.script.procedures),
    }
}
