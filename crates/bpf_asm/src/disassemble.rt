//! From code to text.

ghost use Rattle.std.specs.Prelude.{◌≡◌, ◌++◌, ◌≤◌, Ok, OnOk, IfOk, string_bytes, codes};
ghost use Rattle.bpf_asm.specs.Parts.{hex_text, wide_text, offset_text, operand_text, placed, AreOperands, parts_of, line_of, place_text, AreOperandsAt, text_of};
ghost use Rattle.bpf_asm.specs.Lines.{assembled};

use crate::operand::register_name;
use crate::parts::{Operand, parts_of};
use bpf_encoding::code::Code;
use bpf_encoding::insn::{Insn, Place};
use std::alloc::{AllocError, Global};

// The lowest hexadecimal digits, this many.
fn write_hex(text: &mut String, digits: u32, value: u64) -> Result<(), AllocError>
    ensures { OnOk result (string_bytes text.new ≡ string_bytes text.old ++ hex_text digits value) }
{
    if digits == 0 {
        return Ok(());
    }
    write_hex(text, digits - 1, value / 16)?;
    text.push(char::from_digit((value % 16) as u32, 16).unwrap_or('0'))
}

fn write_wide(text: &mut String, value: u64) -> Result<(), AllocError>
    ensures { OnOk result (string_bytes text.new ≡ string_bytes text.old ++ wide_text value) }
{
    text.push_str("0x")?;
    write_hex(text, 16, value)
}

fn write_offset(text: &mut String, offset: i32) -> Result<(), AllocError>
    ensures { OnOk result (string_bytes text.new ≡ string_bytes text.old ++ offset_text offset) }
{
    if offset >= 0 {
        text.push('+')?;
    }
    write!(text, "{offset}")
}

fn write_operand(text: &mut String, operand: Operand) -> Result<(), AllocError>
    ensures { OnOk result (string_bytes text.new ≡ string_bytes text.old ++ operand_text operand) }
{
    match operand {
        Operand::Reg(register) => text.push_str(register_name(register)),
        Operand::Number(n) => write!(text, "{n}"),
        Operand::Wide(value) => write_wide(text, value),
        Operand::Jump(offset) => write_offset(text, i32::from(offset)),
        Operand::JumpLong(offset) => write_offset(text, offset),
        Operand::Memory(base, offset) => {
            text.push_str("[")?;
            text.push_str(register_name(base))?;
            write_offset(text, i32::from(offset))?;
            text.push_str("]")
        }
    }
}

fn write_placed(
    text: &mut String,
    separator: &str,
    operand: Option<Operand>,
) -> Result<(), AllocError>
    ensures { OnOk result (string_bytes text.new ≡ string_bytes text.old ++ placed separator.now operand) }
{
    let Some(operand) = operand else {
        return Ok(());
    };
    text.push_str(separator)?;
    write_operand(text, operand)
}

fn write_line(text: &mut String, insn: &Insn) -> Result<(), AllocError>
    ensures text { OnOk result (string_bytes text.new ≡ string_bytes text.old ++ (line_of insn.now ++ codes "\n")) }
    ensures fits { AreOperands (parts_of insn.now) }
{
    let parts = parts_of(insn);
    let (stem, suffix) = parts.mnemonic.name();
    text.push_str(stem)?;
    text.push_str(suffix)?;
    write_placed(text, " ", parts.first)?;
    write_placed(text, ", ", parts.second)?;
    write_placed(text, ", ", parts.third)?;
    text.push_str("\n")
}

fn write_place(text: &mut String, place: &Place) -> Result<(), AllocError>
    ensures text { OnOk result (string_bytes text.new ≡ string_bytes text.old ++ place_text place.now) }
    ensures fits { AreOperandsAt place.now }
{
    match place {
        Place::Insn(insn) => write_line(text, insn),
        Place::Second => Ok(()),
    }
}

/// The text of the code, an instruction a line, which says the code again.
pub fn disassemble(alloc: Global, code: &Code) -> Result<String, AllocError>
    ensures text { IfOk result (λ text. string_bytes text ≡ text_of code.now) }
    ensures says { IfOk result (λ text. assembled (string_bytes text) ≡ Ok code.now) }
{
    let mut text = String::new(alloc);
    for place in code.places() {
        write_place(&mut text, place)?;
    }
    Ok(text)
}
