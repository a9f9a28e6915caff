//! Operands: registers, sources and memory.

ghost use Rattle.std.specs.Prelude.{◌≡◌, ◌==◌, false, Ok, Err, length, take, drop, IfSome, IfNone};
ghost use Rattle.std.specs.List.{position_or_len};
ghost use Rattle.bpf_encoding.specs.Spelling.{number_of};
ghost use Rattle.bpf_asm.specs.Operand.{register_name, registers, register_said, source_said, address_said, memory_said, is_sign};
ghost use Rattle.bpf_asm.specs.Mnemonics.{named};
ghost use Rattle.bpf_asm.specs.declared.line.LineFault.TheVariants.{BadRegister};

use crate::line::LineFault;
use crate::number::{jump, number};
use bpf_encoding::insn::{Register, Source};

const REGISTERS: [Register; 11] = [
    Register::R0,
    Register::R1,
    Register::R2,
    Register::R3,
    Register::R4,
    Register::R5,
    Register::R6,
    Register::R7,
    Register::R8,
    Register::R9,
    Register::R10,
];

/// Its name in the text.
pub fn register_name(register: Register) -> &'static str
    ensures { result.now ≡ register_name register }
{
    match register {
        Register::R0 => "r0",
        Register::R1 => "r1",
        Register::R2 => "r2",
        Register::R3 => "r3",
        Register::R4 => "r4",
        Register::R5 => "r5",
        Register::R6 => "r6",
        Register::R7 => "r7",
        Register::R8 => "r8",
        Register::R9 => "r9",
        Register::R10 => "r10",
    }
}

// The first of these that has this name.
fn first_named(registers: &[Register], text: &[u8]) -> Result<Register, LineFault>
    ensures { result ≡ named register_name BadRegister registers.now text.now }
{
    'names: for register in registers {
        if text == register_name(*register).as_bytes() {
            return Ok(*register);
        }
    }
    Err(LineFault::BadRegister)
}

/// The register of this name.
pub fn register(text: &[u8]) -> Result<Register, LineFault>
    ensures { result ≡ register_said text.now }
{
    first_named(&REGISTERS, text)
}

/// A register where it begins with `r`, and otherwise a number.
pub fn source(text: &[u8]) -> Result<Source, LineFault>
    ensures { result ≡ source_said text.now }
{
    match text {
        [b'r', ..] => Ok(Source::Reg(register(text)?)),
        _ => Ok(Source::Imm(number(text)?)),
    }
}

fn is_sign(byte: u8) -> bool
    ensures { result ≡ is_sign byte }
{
    byte == b'+' || byte == b'-'
}

// What stands before the first sign, and the rest with it; `None` where there is none.
fn split_at_sign(text: &[u8]) -> Option<(&[u8], &[u8])>
    ensures some { IfSome result (λ r. ((position_or_len is_sign text.now == length text.now) ≡ false)
        × (r.0.now ≡ take (position_or_len is_sign text.now) text.now) × (r.1.now ≡ drop (position_or_len is_sign text.now) text.now)) }
    ensures none { IfNone result (position_or_len is_sign text.now ≡ length text.now) }
{
    let cut = text.iter().position(|&b| is_sign(b))?;
    Some(text.split_at(cut))
}

// A register, a sign and digits.
fn address(inner: &[u8]) -> Result<(Register, i16), LineFault>
    ensures { result ≡ address_said inner.now }
{
    let Some((base, offset)) = split_at_sign(inner) else {
        return Err(LineFault::Operands);
    };
    Ok((register(base)?, jump(offset)?))
}

/// `[register+offset]`, or with `-`.
pub fn memory(text: &[u8]) -> Result<(Register, i16), LineFault>
    ensures { result ≡ memory_said text.now }
{
    match text {
        [b'[', inner @ .., b']'] => address(inner),
        _ => Err(LineFault::Operands),
    }
}
