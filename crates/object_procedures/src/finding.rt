//! The procedures that an object file has for scripts.

ghost use Rattle.std.specs.Prelude.{◌≡◌, ◌++◌, map, IfOk, IfErr, OnOk, Ok};
ghost use Rattle.object_file.specs.Object.{declared_of};
ghost use Rattle.object_procedures.specs.Each.{there, why_not, kept, refusals};
ghost use Rattle.object_procedures.specs.Finding.{code_said, found_of, all_of, findings_in, found_in, IsStop};
ghost use Rattle.object_procedures.specs.declared.finding.ObjectRefusal.TheVariants.{Unread};

use access_slots::decl::Decl;
use bpf_encoding::code::Code;
use bpf_encoding::decode::{DecodeFault, decode};
use object_file::{Contents, ObjectFault, Procedure, ReadError, read_contents};
use scripts::name::Name;
use std::alloc::{AllocError, AllocFailed, Global};

/// A procedure of an object file, not yet verified.
#[derive(Drop)]
pub struct Found<'a> {
    pub name: Name<'a>,
    pub decl: Decl,
    /// Or the first fault of its section's bytes, which isn't want of memory.
    pub code: Result<Code, DecodeFault>,
    /// The number of the section with its code.
    pub section: usize,
}

/// Why the procedures of an object file aren't taken.
#[derive(Clone, Copy, Debug)]
pub enum ObjectRefusal {
    /// The file isn't read.
    Unread(ObjectFault),
    /// No procedure of a script can have the name of the one whose code is the section of this number, from 0.
    BadName(usize),
}

/// What an object file has for scripts, of which a part may be refused.
#[derive(Drop)]
pub struct Findings<'a> {
    /// Those that aren't refused, in the order of their sections.
    pub found: Vec<Found<'a>>,
    /// Of the file, then of names.
    pub refusals: Vec<ObjectRefusal>,
}

/// Why there are no procedures: they are refused, or memory ran out.
#[derive(Clone, Copy, Debug)]
pub enum FindError {
    Refused(ObjectRefusal),
    Memory,
}

impl From<AllocError> for FindError {
    ghost use Rattle.std.specs.Prelude.{◌≡◌};
    ghost use Rattle.object_procedures.specs.declared.finding.FindError.TheVariants.{Memory};

    ghost from_gives = { λ _ e. e ≡ Memory };

    fn from(_e: AllocError) -> FindError {
        FindError::Memory
    }
}

impl<T: Drop> From<AllocFailed<T>> for FindError {
    ghost use Rattle.std.specs.Prelude.{◌≡◌};
    ghost use Rattle.object_procedures.specs.declared.finding.FindError.TheVariants.{Memory};

    ghost from_gives = { λ _ e. e ≡ Memory };

    fn from(_e: AllocFailed<T>) -> FindError {
        FindError::Memory
    }
}

// The code that bytes spell, or their first fault.
fn code_in(alloc: Global, bytes: &[u8]) -> Result<Result<Code, DecodeFault>, AllocError>
    ensures { IfOk result (λ code. code ≡ code_said bytes.now) }
{
    match decode(alloc, bytes) {
        Ok(code) => Ok(Ok(code)),
        Err(DecodeFault::Memory) => Err(AllocError),
        Err(fault) => Ok(Err(fault)),
    }
}

// What a procedure of the file is for scripts, or why it isn't taken.
fn found_of<'a>(
    alloc: Global,
    procedure: Procedure<'a>,
) -> Result<Result<Found<'a>, ObjectRefusal>, AllocError>
    ensures { IfOk result (λ r. found_of (declared_of procedure.entry) ≡ r) }
{
    let Procedure {
        name,
        code,
        decl,
        section,
    } = procedure;
    let Ok(name) = Name::parse(name) else {
        return Ok(Err(ObjectRefusal::BadName(section)));
    };
    Ok(Ok(Found {
        name,
        decl,
        code: code_in(alloc, code)?,
        section,
    }))
}

// Keeps what was found, or why it isn't taken.
fn keep<T: Drop, W: Drop>(
    all: &mut Vec<T>,
    refusals: &mut Vec<W>,
    one: Result<T, W>,
) -> Result<(), AllocError>
    ensures all { OnOk result (all.new.items ≡ all.old.items ++ there one) }
    ensures refusals { OnOk result (refusals.new.items ≡ refusals.old.items ++ why_not one) }
{
    match one {
        Ok(found) => all.push(found)?,
        Err(why) => refusals.push(why)?,
    }
    Ok(())
}

// Of these procedures of a file those that scripts can have, and why the others aren't taken.
fn all_found<'a>(alloc: Global, procedures: Vec<Procedure<'a>>) -> Result<Findings<'a>, AllocError>
    ensures found { IfOk result (λ f. f.found.items ≡ kept found_of (map declared_of procedures.entry.items)) }
    ensures refusals { IfOk result (λ f. f.refusals.items ≡ refusals found_of (map declared_of procedures.entry.items)) }
{
    let mut found = Vec::new(alloc);
    let mut refusals = Vec::new(alloc);
    'procedures: for procedure in procedures {
        let one = found_of(alloc, procedure)?;
        keep(&mut found, &mut refusals, one)?;
    }
    Ok(Findings { found, refusals })
}

// Faults of a file as refusals.
fn unread(alloc: Global, faults: &[ObjectFault]) -> Result<Vec<ObjectRefusal>, AllocError>
    ensures { IfOk result (λ refusals. refusals.items ≡ map Unread faults.now) }
{
    let mut refusals = Vec::new(alloc);
    'faults: for fault in faults {
        refusals.push(ObjectRefusal::Unread(*fault))?;
    }
    Ok(refusals)
}

/// Of an object file's procedures those that aren't refused, in the order of its sections, and why the others are.
///
/// Refused with the first fault of the header, of the section header table, or of the names of sections.
pub fn find_all<'a>(alloc: Global, file: &'a [u8]) -> Result<Findings<'a>, FindError>
    ensures ok { IfOk result (λ f. findings_in file.entry.now ≡ Ok (all_of f)) }
    ensures err { IfErr result (IsStop (findings_in file.entry.now)) }
{
    let Contents { procedures, faults } = match read_contents(alloc, file) {
        Ok(contents) => contents,
        Err(ReadError::Fault(fault)) => {
            return Err(FindError::Refused(ObjectRefusal::Unread(fault)));
        }
        Err(ReadError::Memory) => return Err(FindError::Memory),
    };
    let mut refusals = unread(alloc, faults.as_slice())?;
    let Findings {
        found,
        refusals: further,
    } = all_found(alloc, procedures)?;
    refusals.extend_from_slice(further.as_slice())?;
    Ok(Findings { found, refusals })
}

/// The procedures of an object file, in the order of its sections.
///
/// Refused with the first fault of the file, else with the first procedure that has no name of a script's.
pub fn find<'a>(alloc: Global, file: &'a [u8]) -> Result<Vec<Found<'a>>, FindError>
    ensures ok { IfOk result (λ found. found_in file.entry.now ≡ Ok found.items) }
    ensures err { IfErr result (IsStop (found_in file.entry.now)) }
{
    let Findings { found, refusals } = find_all(alloc, file)?;
    match refusals.first() {
        Some(why) => Err(FindError::Refused(*why)),
        None => Ok(found),
    }
}
