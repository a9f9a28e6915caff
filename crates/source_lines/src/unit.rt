//! A unit of a line table: its header, and the line number program behind it.

ghost use Rattle.std.specs.Prelude.{◌≡◌, ◌+◌, ◌≤◌, ◌<◌, Some, None, IfSome, IfNone, length};
ghost use Rattle.source_lines.specs.Unit.{shown, behind_version, program_behind, program_in};

use crate::numbers::behind;
use object_file::{half_at, word_at};

// Bytes of a header from its length to the first special opcode.
const HEADER: usize = 10;

/// A line number program, and what its header says.
#[derive(Clone, Copy)]
pub(crate) struct Program<'a> {
    /// Whether it is of DWARF 5, or of DWARF 4.
    pub is_five: bool,
    /// Bytes of an instruction.
    pub instruction: u8,
    /// Of special opcodes: the least line that one adds, as a byte with sign, and how many there are.
    pub line_base: u8,
    pub line_range: u8,
    /// The first special opcode.
    pub opcode_base: u8,
    /// How many operands each standard opcode has.
    pub lengths: &'a [u8],
    /// The tables of directories and files.
    pub tables: &'a [u8],
    pub opcodes: &'a [u8],
}

// What stands behind the version, and whether that is 5.
fn behind_version(unit: &[u8]) -> Option<(bool, &[u8])>
    ensures some { IfSome result (λ r. behind_version unit.now ≡ Some (r.0, r.1.now)) }
    ensures none { IfNone result (behind_version unit.now ≡ None) }
{
    if unit.len() < 4 {
        return None;
    }
    match half_at(0, unit) {
        4 => Some((false, &unit[2..])),
        5 if half_at(2, unit) == 8 => Some((true, &unit[4..])),
        _ => None,
    }
}

// The program and its header, from the header's length on.
fn program_behind(is_five: bool, rest: &[u8]) -> Option<Program<'_>>
    ensures some { IfSome result (λ p. program_behind is_five rest.now ≡ Some (shown p)) }
    ensures none { IfNone result (program_behind is_five rest.now ≡ None) }
    ensures range { IfSome result (λ p. 0 < p.line_range) }
    ensures lengths { IfSome result (λ p. p.opcode_base ≤ length p.lengths.now + 1) }
{
    if rest.len() < HEADER {
        return None;
    }
    if rest[5] != 1 || rest[8] == 0 || rest[9] == 0 {
        return None;
    }
    let standard = rest[9] - 1;
    let operands = &rest[HEADER..];
    let tables = behind(u64::from(standard), operands)?;
    let opcodes = behind(u64::from(word_at(0, rest)), &rest[4..])?;
    Some(Program {
        is_five,
        instruction: rest[4],
        line_base: rest[7],
        line_range: rest[8],
        opcode_base: rest[9],
        lengths: &operands[..usize::from(standard)],
        tables,
        opcodes,
    })
}

/// The program of these bytes of a unit, behind its length.
pub(crate) fn program_in(unit: &[u8]) -> Option<Program<'_>>
    ensures some { IfSome result (λ p. program_in unit.now ≡ Some (shown p)) }
    ensures none { IfNone result (program_in unit.now ≡ None) }
    ensures range { IfSome result (λ p. 0 < p.line_range) }
    ensures lengths { IfSome result (λ p. p.opcode_base ≤ length p.lengths.now + 1) }
{
    let (is_five, rest) = behind_version(unit)?;
    program_behind(is_five, rest)
}
