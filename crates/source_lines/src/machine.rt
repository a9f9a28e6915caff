//! The state machine of line number programs.

ghost use Rattle.std.specs.Prelude.{◌≡◌, ◌+◌, ◌/◌, ◌<◌, ◌≤◌, Some, None, IfSome, IfNone, length, slice_index};
ghost use Rattle.std.specs.Option.{option_map};
ghost use Rattle.source_lines.specs.Machine.{around, relocations_from, symbol_at, target_of, initial, advanced, moved};
ghost use Rattle.source_lines.specs.Machine.{signed_byte, after, quiet, appending, special, addressed};
ghost use Rattle.source_lines.specs.Machine.{extended_by, extended_in, extended, standard, step};
ghost use Rattle.source_lines.specs.Unit.{shown};

use crate::numbers::{behind, behind_lebs, leb, unsigned};
use crate::unit::Program;
use object_file::{half_at, long_at, word_at};

// Bytes of a relocation, and of a symbol.
const RELOCATION: usize = 16;

const SYMBOL: usize = 24;

// R_BPF_64_ABS64, of eight bytes, and R_BPF_DATA_64, as binutils before 2.41 calls it.
const ABSOLUTE: u32 = 2;

const EARLIER_ABSOLUTE: u32 = 12;

/// The registers, as far as a line needs them.
#[derive(Clone, Copy)]
pub(crate) struct Registers {
    /// The number of the section that the address is a place of, where that is known.
    pub section: Option<u16>,
    pub address: u64,
    pub file: u64,
    pub line: u64,
}

/// A row of the line table.
#[derive(Clone, Copy)]
pub(crate) struct Row {
    pub registers: Registers,
    pub ends_sequence: bool,
}

/// What an opcode leaves: the registers, the row that it appends, and the bytes behind it.
#[derive(Clone, Copy)]
pub(crate) struct Stepped<'a> {
    pub registers: Registers,
    pub row: Option<Row>,
    pub rest: &'a [u8],
}

/// What says which addresses a program's operands are.
#[derive(Clone, Copy)]
pub(crate) struct Context<'a> {
    /// The place in `.debug_line` where the program ends.
    pub end: usize,
    pub symbols: &'a [u8],
    /// Those from the opcode on.
    pub relocations: &'a [u8],
}

/// The relocations from this place on.
pub(crate) fn relocations_from(place: usize, relocations: &[u8]) -> &[u8]
    ensures { result.now ≡ relocations_from (length relocations.now / 16) place relocations.now }
{
    let mut rest = relocations;
    'relocations: for _ in 0..relocations.len() / RELOCATION {
        if rest.len() < RELOCATION {
            return rest;
        }
        if long_at(0, rest) >= place as u64 {
            return rest;
        }
        let (_, after) = rest.split_at(RELOCATION);
        rest = after;
    }
    rest
}

// The symbol of this number.
fn symbol_at(number: u32, symbols: &[u8]) -> Option<&[u8]>
    ensures some { IfSome result (λ symbol. symbol_at number symbols.now ≡ Some symbol.now) }
    ensures none { IfNone result (symbol_at number symbols.now ≡ None) }
    ensures whole { IfSome result (λ symbol. 24 ≤ length symbol.now) }
{
    let symbol = behind(u64::from(number) * SYMBOL as u64, symbols)?;
    if symbol.len() < SYMBOL {
        return None;
    }
    Some(symbol)
}

// The section and the place in it that the operand at this place stands for.
fn target_of(place: usize, context: &Context<'_>, operand: &[u8]) -> Option<(u16, u64)>
    requires { length operand.now ≡ 8 }
    ensures { result ≡ target_of place (around context.now) operand.now }
{
    let relocations = context.relocations;
    if relocations.len() < RELOCATION || long_at(0, relocations) != place as u64 {
        return None;
    }
    if !matches!(word_at(8, relocations), ABSOLUTE | EARLIER_ABSOLUTE) {
        return None;
    }
    let symbol = symbol_at(word_at(12, relocations), context.symbols)?;
    let address = long_at(0, operand).wrapping_add(long_at(8, symbol));
    Some((half_at(6, symbol), address))
}

// A byte with sign, as a number of 64 bits.
fn signed_byte(byte: u8) -> u64
    ensures { result ≡ signed_byte byte }
{
    let bits = u64::from(byte);
    if byte >= 128 {
        return bits + 0xffff_ffff_ffff_ff00;
    }
    bits
}

impl Registers {
    /// As they are at the beginning of each sequence.
    pub(crate) fn initial() -> Registers
        ensures { result ≡ initial }
    {
        Registers {
            section: None,
            address: 0,
            file: 1,
            line: 1,
        }
    }

    // So many times so many bytes on.
    fn advanced(self, instruction: u8, count: u64) -> Registers
        ensures { result ≡ advanced instruction count self }
    {
        let bytes = count.wrapping_mul(u64::from(instruction));
        let address = self.address.wrapping_add(bytes);
        Registers { address, ..self }
    }

    // So many lines on.
    fn moved(self, lines: u64) -> Registers
        ensures { result ≡ moved lines self }
    {
        let line = self.line.wrapping_add(lines);
        Registers { line, ..self }
    }

    // At this place of a section, if it is known.
    fn addressed(self, target: Option<(u16, u64)>) -> Registers
        ensures { result ≡ addressed target self }
    {
        match target {
            Some((section, address)) => Registers {
                section: Some(section),
                address,
                ..self
            },
            None => Registers {
                section: None,
                address: 0,
                ..self
            },
        }
    }

    // What a special opcode leaves.
    fn special(self, program: &Program<'_>, opcode: u8) -> Registers
        requires range { 0 < program.now.line_range }
        requires opcode { program.now.opcode_base ≤ opcode }
        ensures { result ≡ special (shown program.now) opcode self }
    {
        let adjusted = opcode - program.opcode_base;
        let lines = signed_byte(program.line_base).wrapping_add(u64::from(
            adjusted % program.line_range,
        ));
        self.advanced(
            program.instruction,
            u64::from(adjusted / program.line_range),
        )
        .moved(lines)
    }

    // No row, and the program goes on here.
    fn quiet(self, rest: &[u8]) -> Stepped<'_>
        ensures { after result ≡ quiet self rest.now }
    {
        Stepped {
            registers: self,
            row: None,
            rest,
        }
    }

    // A row of these registers, and the program goes on here.
    fn appending(self, rest: &[u8]) -> Stepped<'_>
        ensures { after result ≡ appending self rest.now }
    {
        let row = Row {
            registers: self,
            ends_sequence: false,
        };
        Stepped {
            registers: self,
            row: Some(row),
            rest,
        }
    }

    // What an extended opcode with this operand leaves, and the program goes on here.
    fn extended_by<'a>(
        self,
        context: &Context<'a>,
        code: u8,
        operand: &[u8],
        rest: &'a [u8],
    ) -> Option<Stepped<'a>>
        ensures { option_map after result ≡ extended_by (around context.now) code operand.now rest.entry.now self }
    {
        match code {
            1 => Some(Stepped {
                registers: Registers::initial(),
                row: Some(Row {
                    registers: self,
                    ends_sequence: true,
                }),
                rest,
            }),
            2 if operand.len() == 8 => {
                let place = context.end.saturating_sub(rest.len() + 8);
                let target = target_of(place, context, operand);
                Some(self.addressed(target).quiet(rest))
            }
            2 => None,
            _ => Some(self.quiet(rest)),
        }
    }

    // What an extended opcode of these bytes leaves, and the program goes on here.
    fn extended_in<'a>(
        self,
        context: &Context<'a>,
        own: &[u8],
        rest: &'a [u8],
    ) -> Option<Stepped<'a>>
        ensures { option_map after result ≡ extended_in (around context.now) own.now rest.entry.now self }
    {
        let (code, operand) = own.split_first()?;
        self.extended_by(context, *code, operand, rest)
    }

    // What an extended opcode leaves, whose length these bytes begin with.
    fn extended<'a>(self, context: &Context<'a>, bytes: &'a [u8]) -> Option<Stepped<'a>>
        ensures { option_map after result ≡ extended (around context.now) bytes.entry.now self }
    {
        let (size, bytes) = unsigned(bytes)?;
        if size > bytes.len() as u64 {
            return None;
        }
        let (own, rest) = bytes.split_at(size as usize);
        self.extended_in(context, own, rest)
    }

    // What a standard opcode leaves, whose operands these begin with.
    fn standard<'a>(self, program: &Program<'a>, opcode: u8, bytes: &'a [u8]) -> Option<Stepped<'a>>
        requires range { 0 < program.now.line_range }
        requires standard { 0 < opcode }
        requires lengths { opcode ≤ length program.now.lengths.now }
        ensures { option_map after result ≡ standard (shown program.now) opcode bytes.entry.now self }
    {
        match opcode {
            1 => Some(self.appending(bytes)),
            2 => {
                let (count, rest) = unsigned(bytes)?;
                Some(self.advanced(program.instruction, count).quiet(rest))
            }
            3 => {
                let (lines, rest) = leb(true, bytes)?;
                Some(self.moved(lines).quiet(rest))
            }
            4 => {
                let (file, rest) = unsigned(bytes)?;
                Some(Registers { file, ..self }.quiet(rest))
            }
            8 => {
                let count = (255 - program.opcode_base) / program.line_range;
                let registers = self.advanced(program.instruction, u64::from(count));
                Some(registers.quiet(bytes))
            }
            9 => {
                let rest = behind(2, bytes)?;
                let registers = self.advanced(1, u64::from(half_at(0, bytes)));
                Some(registers.quiet(rest))
            }
            _ => {
                let operands = program.lengths[usize::from(opcode - 1)];
                Some(self.quiet(behind_lebs(operands, bytes)?))
            }
        }
    }

    /// What an opcode leaves, whose operands these begin with.
    pub(crate) fn step<'a>(
        self,
        program: &Program<'a>,
        context: &Context<'a>,
        opcode: u8,
        bytes: &'a [u8],
    ) -> Option<Stepped<'a>>
        requires range { 0 < program.now.line_range }
        requires lengths { program.now.opcode_base ≤ length program.now.lengths.now + 1 }
        ensures { option_map after result ≡ step (shown program.now) (around context.now) opcode bytes.entry.now self }
    {
        if opcode >= program.opcode_base {
            return Some(self.special(program, opcode).appending(bytes));
        }
        if opcode == 0 {
            return self.extended(context, bytes);
        }
        self.standard(program, opcode, bytes)
    }
}
