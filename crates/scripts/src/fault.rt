//! What is wrong with a script.

use access_slots::decl::DeclFault;
use bpf_asm::line::LineFault;
use std::alloc::{AllocError, AllocFailed};

/// What is wrong with a script's line.
#[derive(Clone, Copy, Debug, PartialEq, Eq)]
pub enum ScriptFault {
    /// An unknown word, a wrong count of words, a bad name, or the end inside of a procedure.
    BadLine,
    /// A number isn't decimal digits, or is outside of its range.
    BadNumber,
    /// There is a procedure of this name already.
    NameTaken,
    /// There is no procedure of this name.
    NameUnknown,
    /// What is wrong with the procedure's declaration.
    Decl(DeclFault),
    /// What is wrong with a line of its code.
    Asm(LineFault),
    /// The line that passes 4096 slots.
    TooLong,
    /// A procedure without code.
    NoCode,
    /// A slot names a data component that the script doesn't have.
    DcUnknown,
    /// A line before or after its place.
    Order,
}

/// Why a line is not taken: its fault, or want of memory.
#[derive(Clone, Copy, Debug, PartialEq, Eq)]
pub enum LineError {
    Fault(ScriptFault),
    Memory,
}

impl From<ScriptFault> for LineError {
    ghost use Rattle.std.specs.Prelude.{◌≡◌};
    ghost use Rattle.scripts.specs.declared.fault.LineError.TheVariants.{Fault};

    ghost from_gives = { λ fault e. e ≡ Fault fault };

    fn from(fault: ScriptFault) -> LineError {
        LineError::Fault(fault)
    }
}

impl From<AllocError> for LineError {
    ghost use Rattle.std.specs.Prelude.{◌≡◌};
    ghost use Rattle.scripts.specs.declared.fault.LineError.TheVariants.{Memory};

    ghost from_gives = { λ _ e. e ≡ Memory };

    fn from(_e: AllocError) -> LineError {
        LineError::Memory
    }
}

impl<T: Drop> From<AllocFailed<T>> for LineError {
    ghost use Rattle.std.specs.Prelude.{◌≡◌};
    ghost use Rattle.scripts.specs.declared.fault.LineError.TheVariants.{Memory};

    ghost from_gives = { λ _ e. e ≡ Memory };

    fn from(_e: AllocFailed<T>) -> LineError {
        LineError::Memory
    }
}
