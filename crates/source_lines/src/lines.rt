//! The line of the source that a place of a section comes from.

ghost use Rattle.std.specs.Prelude.{◌≡◌, Some, None, IfSome, IfNone};
ghost use Rattle.std.specs.Option.{option_map};
ghost use Rattle.object_file.specs.LineSections.{line_bytes};
ghost use Rattle.source_lines.specs.Lines.{shown_line, line_of, named, line_in, unit_at, line_at};
ghost use Rattle.source_lines.specs.Machine.{around};
ghost use Rattle.source_lines.specs.Unit.{shown};

use crate::files::{base_name, path_said};
use crate::machine::{Context, Registers, relocations_from};
use crate::rows::{Place, covering};
use crate::unit::{Program, program_in};
use object_file::{LineSections, word_at};

/// Bytes of a file's name, at most.
pub const MOST_NAME: usize = 255;

/// A line of a file.
#[derive(Clone, Copy)]
pub struct SourceLine<'a> {
    /// The file's name, behind the last slash of its path: 1 to [`MOST_NAME`] bytes, but 0.
    pub file: &'a [u8],
    /// From 1.
    pub line: u64,
}

// Bytes of a unit's length.
const LENGTH: usize = 4;

// From here on lengths are reserved; one of them says that a unit has the 64-bit format.
const RESERVED: u32 = 0xffff_fff0;

// The line of a file of this name, if it is one.
fn line_of(file: &[u8], line: u64) -> Option<SourceLine<'_>>
    ensures { option_map shown_line result ≡ line_of file.now line }
{
    if file.is_empty() || file.len() > MOST_NAME {
        return None;
    }
    Some(SourceLine { file, line })
}

// The line that a row has.
fn named<'a>(strings: &'a [u8], program: &Program<'a>, row: Registers) -> Option<SourceLine<'a>>
    ensures { option_map shown_line result ≡ named strings.entry.now (shown program.now) row }
{
    if row.line == 0 {
        return None;
    }
    let path = path_said(strings, row.file, program)?;
    line_of(base_name(path), row.line)
}

// The line that a unit says.
fn line_in<'a>(
    strings: &'a [u8],
    context: Context<'a>,
    place: Place,
    unit: &'a [u8],
) -> Option<SourceLine<'a>>
    ensures { option_map shown_line result ≡ line_in strings.entry.now (around context.entry) place unit.entry.now }
{
    let program = program_in(unit)?;
    let row = covering(&program, context, place)?;
    named(strings, &program, row)
}

// The unit that begins here, behind its length, and what stands behind it.
fn unit_at(bytes: &[u8]) -> Option<(&[u8], &[u8])>
    ensures some { IfSome result (λ r. unit_at bytes.now ≡ Some (r.0.now, r.1.now)) }
    ensures none { IfNone result (unit_at bytes.now ≡ None) }
{
    if bytes.len() < LENGTH {
        return None;
    }
    let size = word_at(0, bytes);
    let (_, rest) = bytes.split_at(LENGTH);
    if size >= RESERVED || size as usize > rest.len() {
        return None;
    }
    Some(rest.split_at(size as usize))
}

/// The line that a line table says a place of the section of this number comes from, if it says one.
///
/// Of a table that isn't understood, what is understood counts.
pub fn line_at<'a>(table: &LineSections<'a>, place: Place) -> Option<SourceLine<'a>>
    ensures { option_map shown_line result ≡ line_at (line_bytes table.now) place }
{
    let mut relocations = table.relocations;
    let mut rest = table.lines;
    'units: for _ in 0..table.lines.len() {
        let (unit, after) = unit_at(rest)?;
        let begin = table.lines.len().saturating_sub(rest.len());
        relocations = relocations_from(begin, relocations);
        let context = Context {
            end: table.lines.len().saturating_sub(after.len()),
            symbols: table.symbols,
            relocations,
        };
        if let Some(line) = line_in(table.strings, context, place, unit) {
            return Some(line);
        }
        rest = after;
    }
    None
}
