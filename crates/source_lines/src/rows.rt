//! The row of a line table that covers a place of a section.

ghost use Rattle.std.specs.Prelude.{◌≡◌, ◌+◌, ◌<◌, ◌≤◌, length};
ghost use Rattle.source_lines.specs.Machine.{around};
ghost use Rattle.source_lines.specs.Rows.{at_operands, rows_of, is_section, covers, covers_before, going_on, covering};
ghost use Rattle.source_lines.specs.Unit.{shown};
ghost use Rattle.source_lines.specs.Searching.{looked};

use crate::machine::{Context, Registers, Row, relocations_from};
use crate::unit::Program;

/// A place of a section.
#[derive(Clone, Copy)]
pub struct Place {
    /// The section's number.
    pub section: usize,
    pub address: u64,
}

// Where the search for a row is.
#[derive(Clone, Copy)]
enum Looked {
    Found(Registers),
    /// It goes on, behind this row of the sequence, if one of its rows was there.
    Behind(Option<Registers>),
}

impl<'a> Context<'a> {
    // Without the relocations in front of these operands of an opcode.
    fn at_operands(self, operands: &[u8]) -> Context<'a>
        ensures { around result ≡ at_operands operands.now (around self.entry) }
    {
        let place = self.end.saturating_sub(operands.len());
        Context {
            relocations: relocations_from(place, self.relocations),
            ..self
        }
    }
}

impl Row {
    // The row that the next one of its sequence stands behind.
    fn going_on(self) -> Option<Registers>
        ensures { result ≡ going_on self }
    {
        if self.ends_sequence {
            return None;
        }
        Some(self.registers)
    }
}

impl Place {
    // Whether a row is of its section.
    fn is_section(self, row: Registers) -> bool
        ensures { result ≡ is_section self.section row.section }
    {
        match row.section {
            Some(section) => usize::from(section) == self.section,
            None => false,
        }
    }

    // Whether a row covers it, which this one follows.
    fn covers(self, row: Registers, next: Registers) -> bool
        ensures { result ≡ covers self row next }
    {
        self.is_section(row)
            && self.is_section(next)
            && row.address <= self.address
            && self.address < next.address
    }

    // What a row that may have been appended comes to, behind this one.
    fn looked(self, before: Option<Registers>, row: Option<Row>) -> Looked
        ensures { result ≡ looked self before row }
    {
        let Some(row) = row else {
            return Looked::Behind(before);
        };
        match before {
            Some(before) if self.covers(before, row.registers) => Looked::Found(before),
            _ => Looked::Behind(row.going_on()),
        }
    }
}

/// The first row that covers a place.
pub(crate) fn covering<'a>(
    program: &Program<'a>,
    context: Context<'a>,
    place: Place,
) -> Option<Registers>
    requires range { 0 < program.now.line_range }
    requires lengths { program.now.opcode_base ≤ length program.now.lengths.now + 1 }
    ensures { result ≡ covering place (rows_of (shown program.now) (around context.entry)) }
{
    let mut context = context;
    let mut registers = Registers::initial();
    let mut before = None;
    let mut rest = program.opcodes;
    'opcodes: for _ in 0..program.opcodes.len() {
        let (opcode, operands) = rest.split_first()?;
        context = context.at_operands(operands);
        let stepped = registers.step(program, &context, *opcode, operands)?;
        match place.looked(before, stepped.row) {
            Looked::Found(row) => return Some(row),
            Looked::Behind(row) => before = row,
        }
        registers = stepped.registers;
        rest = stepped.rest;
    }
    None
}
