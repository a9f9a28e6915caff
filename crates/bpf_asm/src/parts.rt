//! An instruction as its mnemonic and its operands.

ghost use Rattle.std.specs.Prelude.{◌≡◌};
ghost use Rattle.bpf_asm.specs.Parts.{IsOperand, AreOperands, parts_of, source_operand, with_none, with_one, with_two, with_three};

use crate::mnemonic::Mnemonic;
use Operand::{Jump, JumpLong, Memory, Number, Reg, Wide};
use bpf_encoding::insn::{Insn, Register, Source};

/// What stands between commas.
#[derive(Clone, Copy)]
pub enum Operand {
    Reg(Register),
    Number(i32),
    /// A number of 64 bits, written with 16 hexadecimal digits.
    Wide(u64),
    Jump(i16),
    JumpLong(i32),
    /// The register with the base address, and the offset.
    Memory(Register, i16),
}

/// A mnemonic with up to three operands.
#[derive(Clone, Copy)]
pub struct Parts {
    pub mnemonic: Mnemonic,
    pub first: Option<Operand>,
    pub second: Option<Operand>,
    pub third: Option<Operand>,
}

fn none(mnemonic: Mnemonic) -> Parts
    ensures { result ≡ with_none mnemonic }
{
    Parts {
        mnemonic,
        first: None,
        second: None,
        third: None,
    }
}

fn one(mnemonic: Mnemonic, first: Operand) -> Parts
    ensures { result ≡ with_one mnemonic first }
{
    Parts {
        first: Some(first),
        ..none(mnemonic)
    }
}

fn two(mnemonic: Mnemonic, first: Operand, second: Operand) -> Parts
    ensures { result ≡ with_two mnemonic first second }
{
    Parts {
        second: Some(second),
        ..one(mnemonic, first)
    }
}

fn three(mnemonic: Mnemonic, first: Operand, second: Operand, third: Operand) -> Parts
    ensures { result ≡ with_three mnemonic first second third }
{
    Parts {
        third: Some(third),
        ..two(mnemonic, first, second)
    }
}

fn source_operand(source: Source) -> Operand
    ensures value { result ≡ source_operand source }
    ensures fits { IsOperand result }
{
    match source {
        Source::Imm(n) => Number(n),
        Source::Reg(register) => Reg(register),
    }
}

/// The parts of an instruction.
pub fn parts_of(insn: &Insn) -> Parts
    ensures value { result ≡ parts_of insn.now }
    ensures fits { AreOperands result }
{
    match *insn {
        Insn::Alu(width, operation, dst, source) => {
            let mnemonic = Mnemonic::Alu(width, operation);
            two(mnemonic, Reg(dst), source_operand(source))
        }
        Insn::Negate(width, dst) => one(Mnemonic::Negate(width), Reg(dst)),
        Insn::MoveSigned(extension, dst, src) => {
            two(Mnemonic::MoveSigned(extension), Reg(dst), Reg(src))
        }
        Insn::Order(order, width, dst) => one(Mnemonic::Order(order, width), Reg(dst)),
        Insn::LoadWide(dst, value) => two(Mnemonic::LoadWide, Reg(dst), Wide(value)),
        Insn::Jump(offset) => one(Mnemonic::Jump, Jump(offset)),
        Insn::JumpLong(offset) => one(Mnemonic::JumpLong, JumpLong(offset)),
        Insn::JumpIf(width, condition, dst, source, offset) => {
            let mnemonic = Mnemonic::JumpIf(width, condition);
            three(mnemonic, Reg(dst), source_operand(source), Jump(offset))
        }
        Insn::Load(size, dst, base, offset) => {
            two(Mnemonic::Load(size), Reg(dst), Memory(base, offset))
        }
        Insn::LoadSigned(size, dst, base, offset) => {
            let mnemonic = Mnemonic::LoadSigned(size);
            two(mnemonic, Reg(dst), Memory(base, offset))
        }
        Insn::StoreImm(size, base, offset, imm) => {
            let mnemonic = Mnemonic::StoreImm(size);
            two(mnemonic, Memory(base, offset), Number(imm))
        }
        Insn::Store(size, base, src, offset) => {
            two(Mnemonic::Store(size), Memory(base, offset), Reg(src))
        }
        Insn::Atomic(width, operation, base, src, offset) => {
            let mnemonic = Mnemonic::Atomic(width, operation);
            two(mnemonic, Memory(base, offset), Reg(src))
        }
        Insn::Call(helper) => one(Mnemonic::Call, Number(helper)),
        Insn::Exit => none(Mnemonic::Exit),
    }
}
