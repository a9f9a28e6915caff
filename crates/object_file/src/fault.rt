//! Why bytes are no object file.

use access_slots::decl::DeclFault;
use std::alloc::{AllocError, AllocFailed};

/// What is wrong with a file. Sections are named by their numbers, from 0, entries by their places, from 0.
#[derive(Clone, Copy, Debug, PartialEq, Eq)]
pub enum ObjectFault {
    /// There are fewer than the 64 bytes of a header, or they don't begin with ELF's magic number.
    NotElf,
    /// The file is of 32 bits, or its numbers have their highest byte first.
    NotLittle64,
    /// The file isn't relocatable, but of this type.
    NotRelocatable(u16),
    /// It is for this machine.
    NotBpf(u16),
    /// Entries of the section header table have so many bytes, and not 64.
    EntrySize(u16),
    /// There are more sections than [`crate::MOST_SECTIONS`].
    TooManySections(u16),
    /// The section header table isn't in the file.
    NoTable,
    /// The section with the names isn't in the file, or isn't a string table.
    NoNames,
    /// The section's name isn't in the string table, or has more than [`crate::MOST_NAME`] bytes.
    NoName(usize),
    /// The section's bytes aren't in the file.
    Outside(usize),
    /// The section's bytes are to be relocated: they refer to variables or to other functions.
    Relocated(usize),
    /// An earlier section has a procedure of the same name.
    Twice(usize),
    /// There is no section with the accesses of this section's procedure.
    NoAccesses(usize),
    /// The section of accesses isn't 1 to 17 entries of 16 bytes.
    AccessesSize(usize),
    /// The section of accesses doesn't begin with how many arguments there are.
    NoArguments(usize),
    /// In this section of accesses, the entry at this place is no access slot.
    NoSlot(usize, usize),
    /// What the section of accesses declares is refused.
    Declared(usize, DeclFault),
    /// The file has no section with a procedure's code.
    NoProcedures,
}

/// Why a file isn't read: its fault, or want of memory.
#[derive(Clone, Copy, Debug, PartialEq, Eq)]
pub enum ReadError {
    Fault(ObjectFault),
    Memory,
}

impl From<ObjectFault> for ReadError {
    ghost use Rattle.std.specs.Prelude.{◌≡◌};
    ghost use Rattle.object_file.specs.declared.fault.ReadError.TheVariants.{Fault};

    ghost from_gives = { λ fault e. e ≡ Fault fault };

    fn from(fault: ObjectFault) -> ReadError {
        ReadError::Fault(fault)
    }
}

impl From<AllocError> for ReadError {
    ghost use Rattle.std.specs.Prelude.{◌≡◌};
    ghost use Rattle.object_file.specs.declared.fault.ReadError.TheVariants.{Memory};

    ghost from_gives = { λ _ e. e ≡ Memory };

    fn from(_e: AllocError) -> ReadError {
        ReadError::Memory
    }
}

impl<T: Drop> From<AllocFailed<T>> for ReadError {
    ghost use Rattle.std.specs.Prelude.{◌≡◌};
    ghost use Rattle.object_file.specs.declared.fault.ReadError.TheVariants.{Memory};

    ghost from_gives = { λ _ e. e ≡ Memory };

    fn from(_e: AllocFailed<T>) -> ReadError {
        ReadError::Memory
    }
}
