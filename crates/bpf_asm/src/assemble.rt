//! From text to code.

ghost use Rattle.std.specs.Prelude.{◌≡◌, ℕ, ◌+◌, ◌++◌, ◌<◌, ◌≤◌, Ok, Err, length, IfOk, IfErr};
ghost use Rattle.std.specs.Str.Lines.{lines};
ghost use Rattle.bpf_encoding.specs.Spelling.{places_of};
ghost use Rattle.bpf_asm.specs.Lines.{insns_from, assembled};
ghost use Rattle.bpf_asm.specs.Refused.{IsAsmFault};

use crate::line::{LineFault, insn_of};
use bpf_encoding::code::{Code, MOST_SLOTS};
use bpf_encoding::decode::DecodeFault;
use bpf_encoding::insn::Insn;
use std::alloc::{AllocFailed, Global};
use thiserror::Error;

/// Why a text is refused.
#[derive(Clone, Copy, Debug, PartialEq, Eq, Error)]
pub enum AsmFault {
    /// What is wrong with this line, counted from 1.
    #[error("line {0}: {1}")]
    Line(usize, LineFault),
    /// The line that passes 4096 slots.
    #[error("line {0}: more than {MOST_SLOTS} slots")]
    TooLong(usize),
    /// No line has an instruction.
    #[error("there is no instruction")]
    NoCode,
    /// Memory ran out.
    #[error("out of memory")]
    Memory,
}

// By hand, since contracts name what `?` makes of an error.

impl<T: Drop> From<AllocFailed<T>> for AsmFault {
    ghost use Rattle.std.specs.Prelude.{◌≡◌};
    ghost use Rattle.bpf_asm.specs.declared.assemble.AsmFault.TheVariants.{Memory};

    ghost from_gives = { λ _ e. e ≡ Memory };

    fn from(_e: AllocFailed<T>) -> AsmFault {
        AsmFault::Memory
    }
}

// The instructions that all lines say.
fn insns_of(alloc: Global, text: &str) -> Result<Vec<Insn>, AsmFault>
    ensures ok { IfOk result (λ insns. insns_from 1 0 (lines text.now) ≡ Ok insns.items) }
    ensures err { IfErr result (IsAsmFault (insns_from 1 0 (lines text.now))) }
{
    let mut insns = Vec::new(alloc);
    let mut number = 0;
    let mut slots = 0;
    'lines: for line in text.lines() {
        number += 1;
        let insn = match insn_of(line.as_bytes()) {
            Ok(Some(insn)) => insn,
            Ok(None) => continue,
            Err(fault) => return Err(AsmFault::Line(number, fault)),
        };
        slots += insn.slots();
        if slots > MOST_SLOTS {
            return Err(AsmFault::TooLong(number));
        }
        insns.push(insn)?;
    }
    Ok(insns)
}

/// The code that the lines of a text say, or its first fault.
pub fn assemble(alloc: Global, text: &str) -> Result<Code, AsmFault>
    ensures ok { IfOk result (λ code. assembled text.now ≡ Ok code) }
    ensures err { IfErr result (IsAsmFault (assembled text.now)) }
{
    let insns = insns_of(alloc, text)?;
    if insns.is_empty() {
        return Err(AsmFault::NoCode);
    }
    Code::from_insns(alloc, insns.as_slice()).map_err(|_| AsmFault::Memory)
}
