//! The procedures of an object file.

ghost use Rattle.std.specs.Prelude.{◌≡◌, ◌++◌, OnOk, Some, None, Ok, Err, map, IfSome, IfNone, IfOk, IfErr};
ghost use Rattle.std.specs.Option.{option_map};
ghost use Rattle.object_file.specs.Gathering.{IsStop, there, fault_there, viewed};
ghost use Rattle.object_file.specs.Object.{kind_of, named, first_of, section_said, sections_kept, section_faults, procedure_said};
ghost use Rattle.object_file.specs.Object.{procedures_kept, procedure_faults, contents_of, contents_said, said_of, object_said, declared_of};

use crate::accesses::declaration_in;
use crate::elf::{Header, headers_in, is_relocated, names_of, table_of};
use crate::fault::{ObjectFault, ReadError};
use access_slots::decl::Decl;
use std::alloc::{AllocError, Global};

/// What a section of a procedure has.
#[derive(Clone, Copy, PartialEq, Eq)]
enum Kind {
    Code,
    Accesses,
}

// A section of a procedure.
#[derive(Clone, Copy)]
struct Section<'a> {
    number: usize,
    kind: Kind,
    name: &'a [u8],
    bytes: &'a [u8],
}

/// A procedure of an object file.
#[derive(Drop)]
pub struct Procedure<'a> {
    /// Of any bytes but 0, at most 256.
    pub name: &'a [u8],
    /// Not yet decoded.
    pub code: &'a [u8],
    pub decl: Decl,
    /// The number of the section with its code.
    pub section: usize,
}

/// What is read of an object file of which a part may be refused.
#[derive(Drop)]
pub struct Contents<'a> {
    /// Those without a fault, in the order of their sections.
    pub procedures: Vec<Procedure<'a>>,
    /// Those of sections, then those of procedures.
    pub faults: Vec<ObjectFault>,
}

// Keeps what was found, if something was, or its fault.
fn keep<T: Drop>(
    all: &mut Vec<T>,
    faults: &mut Vec<ObjectFault>,
    said: Result<Option<T>, ObjectFault>,
) -> Result<(), AllocError>
    ensures all { OnOk result (all.new.items ≡ all.old.items ++ there said) }
    ensures faults { OnOk result (faults.new.items ≡ faults.old.items ++ fault_there said) }
{
    match said {
        Ok(Some(found)) => all.push(found)?,
        Ok(None) => {}
        Err(fault) => faults.push(fault)?,
    }
    Ok(())
}

// What a section of this name has, and of which procedure.
fn kind_of(name: &[u8]) -> Option<(Kind, &[u8])>
    ensures some { IfSome result (λ r. kind_of name.now ≡ Some (r.0, r.1.now)) }
    ensures none { IfNone result (kind_of name.now ≡ None) }
{
    if let Some(procedure) = name.strip_prefix(b"procedure/") {
        return Some((Kind::Code, procedure));
    }
    match name.strip_prefix(b"accesses/") {
        Some(procedure) => Some((Kind::Accesses, procedure)),
        None => None,
    }
}

// The section of this number, if it is one of a procedure.
fn section_of<'a>(
    file: &'a [u8],
    names: &'a [u8],
    headers: &[Header],
    number: usize,
    header: &Header,
) -> Result<Option<Section<'a>>, ObjectFault>
    ensures ok { IfOk result (λ s. section_said file.entry.now names.entry.now headers.now number header.now ≡ Ok (option_map named s)) }
    ensures err { IfErr result (λ fault. section_said file.entry.now names.entry.now headers.now number header.now ≡ Err fault) }
{
    if !header.has_bits() {
        return Ok(None);
    }
    let name = header.name(names).ok_or(ObjectFault::NoName(number))?;
    let Some((kind, name)) = kind_of(name) else {
        return Ok(None);
    };
    let bytes = header.bytes(file).ok_or(ObjectFault::Outside(number))?;
    if is_relocated(headers, number) {
        return Err(ObjectFault::Relocated(number));
    }
    Ok(Some(Section {
        number,
        kind,
        name,
        bytes,
    }))
}

// The sections of procedures that have no fault, and the faults of the others.
fn sections_of<'a>(
    alloc: Global,
    file: &'a [u8],
    names: &'a [u8],
    headers: &[Header],
) -> Result<(Vec<Section<'a>>, Vec<ObjectFault>), AllocError>
    ensures sections { IfOk result (λ r. map named r.0.items ≡ sections_kept file.entry.now names.entry.now headers.now) }
    ensures faults { IfOk result (λ r. r.1.items ≡ section_faults file.entry.now names.entry.now headers.now) }
{
    let mut sections = Vec::new(alloc);
    let mut faults = Vec::new(alloc);
    'headers: for number in 0..headers.len() {
        let found = section_of(file, names, headers, number, &headers[number]);
        keep(&mut sections, &mut faults, found)?;
    }
    Ok((sections, faults))
}

// The first section of this kind and name.
fn first_of<'a>(sections: &[Section<'a>], kind: Kind, name: &[u8]) -> Option<Section<'a>>
    ensures { option_map named result ≡ first_of kind name.now (map named sections.now) }
{
    'sections: for section in sections {
        if section.kind == kind && section.name == name {
            return Some(*section);
        }
    }
    None
}

// The procedure with its code in this section, if it has code.
fn procedure_of<'a>(
    alloc: Global,
    sections: &[Section<'a>],
    section: &Section<'a>,
) -> Result<Option<Procedure<'a>>, ReadError>
    ensures ok { IfOk result (λ p. procedure_said (map named sections.now) (named section.now) ≡ Ok (option_map declared_of p)) }
    ensures err { IfErr result (IsStop (procedure_said (map named sections.now) (named section.now))) }
{
    let Section {
        number,
        name,
        bytes,
        ..
    } = *section;
    if section.kind != Kind::Code {
        return Ok(None);
    }
    match first_of(sections, Kind::Code, name) {
        Some(first) if first.number == number => {}
        _ => return Err(ReadError::Fault(ObjectFault::Twice(number))),
    }
    let Some(accesses) = first_of(sections, Kind::Accesses, name) else {
        return Err(ReadError::Fault(ObjectFault::NoAccesses(number)));
    };
    let decl = declaration_in(alloc, accesses.number, accesses.bytes)?;
    Ok(Some(Procedure {
        name,
        code: bytes,
        decl,
        section: number,
    }))
}

// The same, or its fault, memory aside.
fn procedure_or_fault<'a>(
    alloc: Global,
    sections: &[Section<'a>],
    section: &Section<'a>,
) -> Result<Result<Option<Procedure<'a>>, ObjectFault>, AllocError>
    ensures { IfOk result (λ r. procedure_said (map named sections.now) (named section.now) ≡ viewed declared_of r) }
{
    match procedure_of(alloc, sections, section) {
        Ok(found) => Ok(Ok(found)),
        Err(ReadError::Fault(fault)) => Ok(Err(fault)),
        Err(ReadError::Memory) => Err(AllocError),
    }
}

// The procedures of these sections that have no fault, and the faults of the others.
fn procedures_of<'a>(alloc: Global, sections: &[Section<'a>]) -> Result<Contents<'a>, AllocError>
    ensures procedures { IfOk result (λ c. map declared_of c.procedures.items ≡ procedures_kept (map named sections.now)) }
    ensures faults { IfOk result (λ c. c.faults.items ≡ procedure_faults (map named sections.now)) }
{
    let mut procedures = Vec::new(alloc);
    let mut faults = Vec::new(alloc);
    'sections: for section in sections {
        let found = procedure_or_fault(alloc, sections, section)?;
        keep(&mut procedures, &mut faults, found)?;
    }
    Ok(Contents { procedures, faults })
}

// The procedures of these sections, and all faults; there is one where there is no procedure.
fn contents_of<'a>(
    alloc: Global,
    sections: &[Section<'a>],
    section_faults: Vec<ObjectFault>,
) -> Result<Contents<'a>, AllocError>
    ensures { IfOk result (λ c. said_of c ≡ contents_of section_faults.items (map named sections.now)) }
{
    let Contents {
        procedures,
        faults: further,
    } = procedures_of(alloc, sections)?;
    let mut faults = section_faults;
    faults.extend_from_slice(further.as_slice())?;
    if procedures.is_empty() && faults.is_empty() {
        faults.push(ObjectFault::NoProcedures)?;
    }
    Ok(Contents { procedures, faults })
}

/// The procedures of an object file that have no fault, in the order of its sections, and the faults of the others.
///
/// Refused with the first fault of the header, of the section header table, or of the names of sections.
pub fn read_contents<'a>(alloc: Global, file: &'a [u8]) -> Result<Contents<'a>, ReadError>
    ensures ok { IfOk result (λ c. contents_said file.entry.now ≡ Ok (said_of c)) }
    ensures err { IfErr result (IsStop (contents_said file.entry.now)) }
{
    let table = table_of(file)?;
    let headers = headers_in(alloc, table)?;
    let names = names_of(file, headers.as_slice())?;
    let (sections, faults) = sections_of(alloc, file, names, headers.as_slice())?;
    Ok(contents_of(alloc, sections.as_slice(), faults)?)
}

/// The procedures of an object file, in the order of its sections.
///
/// Refused with the first fault: of the header, of the section header table, of the names of sections, then of
/// the sections of procedures in their order, and then of the procedures in theirs.
pub fn read<'a>(alloc: Global, file: &'a [u8]) -> Result<Vec<Procedure<'a>>, ReadError>
    // What is read is what the file says.
    ensures ok { IfOk result (λ ps. object_said file.entry.now ≡ Ok (map declared_of ps.items)) }
    // A fault is the first one; what the file says is read, unless memory runs out.
    ensures err { IfErr result (IsStop (object_said file.entry.now)) }
{
    let Contents { procedures, faults } = read_contents(alloc, file)?;
    match faults.first() {
        Some(fault) => Err(ReadError::Fault(*fault)),
        None => Ok(procedures),
    }
}
