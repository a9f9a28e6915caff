//! Why an object file is refused.

ghost use Rattle.std.specs.Prelude.{◌≡◌, IfOk, string_bytes};
ghost use Rattle.std.specs.Option.{option_map};
ghost use Rattle.object_file.specs.LineSections.{line_bytes};
ghost use Rattle.object_file.specs.Referring.{referred};
ghost use Rattle.object_procedures.specs.Refusal.{entry_fault, declared_fault, object_fault_name, refusal_name, object_refusal};
ghost use Rattle.object_procedures.specs.Refusal.{fault_section, refused_section, name_text, section_text, reference_by, reference_text};

use crate::finding::ObjectRefusal;
use crate::source_place::{Origin, SLOT, file_text};
use access_slots::decl::DeclFault;
use object_file::{
    LineSections, ObjectFault, Reference, first_reference, line_sections, section_name,
};
use report_texts::fault_names::decl_fault_name;
use report_texts::output::Output;
use std::alloc::{AllocError, Global};

// What is wrong with an entry of a section of accesses.
fn entry_fault(alloc: Global, section: usize, entry: usize) -> Result<String, AllocError>
    ensures { IfOk result (λ s. string_bytes s ≡ entry_fault section entry) }
{
    format!(in alloc; "NoSlot section {section} entry {entry}")
}

// What is wrong with what a section of accesses declares.
fn declared_fault(alloc: Global, section: usize, fault: DeclFault) -> Result<String, AllocError>
    ensures { IfOk result (λ s. string_bytes s ≡ declared_fault section fault) }
{
    let fault = decl_fault_name(alloc, fault)?;
    format!(in alloc; "Declared section {section} {fault}")
}

/// A fault of an object file, by its name and what is wrong in it.
pub fn object_fault_name(alloc: Global, fault: ObjectFault) -> Result<String, AllocError>
    ensures { IfOk result (λ s. string_bytes s ≡ object_fault_name fault) }
{
    match fault {
        ObjectFault::NotElf => String::from_str(alloc, "NotElf"),
        ObjectFault::NotLittle64 => String::from_str(alloc, "NotLittle64"),
        ObjectFault::NotRelocatable(kind) => format!(in alloc; "NotRelocatable {kind}"),
        ObjectFault::NotBpf(machine) => format!(in alloc; "NotBpf {machine}"),
        ObjectFault::EntrySize(size) => format!(in alloc; "EntrySize {size}"),
        ObjectFault::TooManySections(count) => format!(in alloc; "TooManySections {count}"),
        ObjectFault::NoTable => String::from_str(alloc, "NoTable"),
        ObjectFault::NoNames => String::from_str(alloc, "NoNames"),
        ObjectFault::NoName(section) => format!(in alloc; "NoName section {section}"),
        ObjectFault::Outside(section) => format!(in alloc; "Outside section {section}"),
        ObjectFault::Relocated(section) => format!(in alloc; "Relocated section {section}"),
        ObjectFault::Twice(section) => format!(in alloc; "Twice section {section}"),
        ObjectFault::NoAccesses(section) => format!(in alloc; "NoAccesses section {section}"),
        ObjectFault::AccessesSize(section) => format!(in alloc; "AccessesSize section {section}"),
        ObjectFault::NoArguments(section) => format!(in alloc; "NoArguments section {section}"),
        ObjectFault::NoSlot(section, entry) => entry_fault(alloc, section, entry),
        ObjectFault::Declared(section, fault) => declared_fault(alloc, section, fault),
        ObjectFault::NoProcedures => String::from_str(alloc, "NoProcedures"),
    }
}

fn refusal_name(alloc: Global, why: ObjectRefusal) -> Result<String, AllocError>
    ensures { IfOk result (λ s. string_bytes s ≡ refusal_name why) }
{
    match why {
        ObjectRefusal::Unread(fault) => object_fault_name(alloc, fault),
        ObjectRefusal::BadName(section) => format!(in alloc; "BadName section {section}"),
    }
}

// The section that a fault names.
fn fault_section(fault: ObjectFault) -> Option<usize>
    ensures { result ≡ fault_section fault }
{
    match fault {
        ObjectFault::NoName(section)
        | ObjectFault::Outside(section)
        | ObjectFault::Relocated(section)
        | ObjectFault::Twice(section)
        | ObjectFault::NoAccesses(section)
        | ObjectFault::AccessesSize(section)
        | ObjectFault::NoArguments(section)
        | ObjectFault::NoSlot(section, _)
        | ObjectFault::Declared(section, _) => Some(section),
        ObjectFault::NotElf
        | ObjectFault::NotLittle64
        | ObjectFault::NotRelocatable(_)
        | ObjectFault::NotBpf(_)
        | ObjectFault::EntrySize(_)
        | ObjectFault::TooManySections(_)
        | ObjectFault::NoTable
        | ObjectFault::NoNames
        | ObjectFault::NoProcedures => None,
    }
}

// The section that a refusal names.
fn refused_section(why: ObjectRefusal) -> Option<usize>
    ensures { result ≡ refused_section why }
{
    match why {
        ObjectRefusal::Unread(fault) => fault_section(fault),
        ObjectRefusal::BadName(section) => Some(section),
    }
}

// A name behind these words, where there is one.
fn name_text(alloc: Global, before: &str, name: Option<&[u8]>) -> Result<String, AllocError>
    ensures { IfOk result (λ s. string_bytes s ≡ name_text before.now (option_map (λ name. name.now) name.entry)) }
{
    match name {
        Some(name) if !name.is_empty() => {
            let name = file_text(alloc, name)?;
            format!(in alloc; "{before}{name}")
        }
        _ => Ok(String::new(alloc)),
    }
}

// The name of the section of this number, behind a blank.
fn section_text(alloc: Global, file: &[u8], section: Option<usize>) -> Result<String, AllocError>
    ensures { IfOk result (λ s. string_bytes s ≡ section_text file.now section) }
{
    match section {
        Some(section) => name_text(alloc, " ", section_name(alloc, file, section)?),
        None => Ok(String::new(alloc)),
    }
}

// What a place of a section refers to, and the line of its slot.
fn reference_by(
    alloc: Global,
    lines: Option<LineSections<'_>>,
    section: usize,
    reference: Option<Reference<'_>>,
) -> Result<String, AllocError>
    ensures { IfOk result (λ s. string_bytes s
        ≡ reference_by (option_map line_bytes lines.entry) section (option_map referred reference.entry)) }
{
    let Some(Reference { place, symbol }) = reference else {
        return Ok(String::new(alloc));
    };
    let mut text = name_text(alloc, " symbol ", symbol)?;
    let line = Origin { lines, section }.slot_text(alloc, (place / SLOT) as usize)?;
    text.push_str(line.as_str())?;
    Ok(text)
}

// What a section that is to be relocated refers to first.
fn reference_text(alloc: Global, file: &[u8], why: ObjectRefusal) -> Result<String, AllocError>
    ensures { IfOk result (λ s. string_bytes s ≡ reference_text file.now why) }
{
    match why {
        ObjectRefusal::Unread(ObjectFault::Relocated(section)) => {
            let lines = line_sections(alloc, file)?;
            let reference = first_reference(alloc, file, section)?;
            reference_by(alloc, lines, section, reference)
        }
        _ => Ok(String::new(alloc)),
    }
}

/// The line of a refusal of an object file: why, the name of the section that is meant, and of a section that is to be
/// relocated what it refers to first, and in which line of the source.
pub fn refusal_line(alloc: Global, file: &[u8], why: ObjectRefusal) -> Result<String, AllocError>
    ensures { IfOk result (λ s. string_bytes s ≡ object_refusal file.now why) }
{
    let name = refusal_name(alloc, why)?;
    let section = section_text(alloc, file, refused_section(why))?;
    let reference = reference_text(alloc, file, why)?;
    format!(in alloc; "refused object {name}{section}{reference}\n")
}

/// The report of an object file that is refused: why, in a line, with status 1.
pub fn refusal(alloc: Global, file: &[u8], why: ObjectRefusal) -> Result<Output, AllocError>
    ensures lines { IfOk result (λ r. string_bytes r.lines ≡ object_refusal file.now why) }
    ensures status { IfOk result (λ r. r.status ≡ 1) }
{
    Ok(Output {
        status: 1,
        lines: refusal_line(alloc, file, why)?,
        notes: None,
    })
}
