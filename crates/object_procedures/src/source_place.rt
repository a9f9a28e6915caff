//! The line of the source that a slot comes from, as it is printed.

ghost use Rattle.std.specs.Prelude.{◌≡◌, ◌<◌, ◌≤◌, IfOk, None, string_bytes};
ghost use Rattle.std.specs.Option.{option_map};
ghost use Rattle.object_file.specs.LineSections.{line_bytes};
ghost use Rattle.source_lines.specs.Lines.{shown_line};
ghost use Rattle.object_procedures.specs.SourcePlaces.{shown_byte, file_text, place_text, slot_line, slot_text, fault_slot, fault_text};

use bpf_encoding::decode::DecodeFault;
use object_file::LineSections;
use source_lines::{Place, SourceLine, line_at};
use std::alloc::{AllocError, Global};

/// Bytes of a slot.
pub(crate) const SLOT: u64 = 8;

/// A section of code, with the line table of its file, if there is one.
#[derive(Clone, Copy)]
pub struct Origin<'a> {
    pub lines: Option<LineSections<'a>>,
    pub section: usize,
}

// A byte of a file's name.
fn shown_byte(byte: u8) -> char
    ensures value { result ≡ shown_byte byte }
    ensures ascii { result < 128 }
{
    if byte >= b'!' && byte <= b'~' {
        return char::from(byte);
    }
    '?'
}

/// A name as it is printed.
pub(crate) fn file_text(alloc: Global, file: &[u8]) -> Result<String, AllocError>
    ensures { IfOk result (λ s. string_bytes s ≡ file_text file.now) }
{
    let mut text = String::new(alloc);
    'bytes: for byte in file {
        text.push(shown_byte(*byte))?;
    }
    Ok(text)
}

// A line, behind a blank, if there is one.
fn place_text(alloc: Global, line: Option<SourceLine<'_>>) -> Result<String, AllocError>
    ensures { IfOk result (λ s. string_bytes s ≡ place_text (option_map shown_line line.entry)) }
{
    let Some(SourceLine { file, line }) = line else {
        return Ok(String::new(alloc));
    };
    let file = file_text(alloc, file)?;
    format!(in alloc; " {file}:{line}")
}

// The slot that a fault of decoding names.
fn fault_slot(fault: &DecodeFault) -> Option<usize>
    ensures { result ≡ fault_slot fault.now }
{
    match *fault {
        DecodeFault::WideCut(slot)
        | DecodeFault::UnusedField(slot)
        | DecodeFault::Undefined(slot)
        | DecodeFault::OutsideProfile(slot, _) => Some(slot),
        DecodeFault::NoCode | DecodeFault::Length | DecodeFault::TooLong | DecodeFault::Memory =>
            None,
    }
}

impl<'a> Origin<'a> {
    /// Of code that isn't of an object file.
    pub fn none() -> Origin<'static>
        ensures { result.lines ≡ None }
    {
        Origin {
            lines: None,
            section: 0,
        }
    }

    /// The line of a slot.
    pub fn line(&self, slot: usize) -> Option<SourceLine<'a>>
        ensures { option_map shown_line result ≡ slot_line (option_map line_bytes self.now.lines) self.now.section slot }
    {
        let lines = self.lines?;
        let place = Place {
            section: self.section,
            address: (slot as u64).wrapping_mul(SLOT),
        };
        line_at(&lines, place)
    }

    /// What is printed of the line of a slot.
    pub fn slot_text(&self, alloc: Global, slot: usize) -> Result<String, AllocError>
        ensures { IfOk result (λ s. string_bytes s ≡ slot_text (option_map line_bytes self.now.lines) self.now.section slot) }
    {
        place_text(alloc, self.line(slot))
    }

    /// What is printed of the line of the slot that a fault of the section's bytes names, if it names one.
    pub fn fault_text(&self, alloc: Global, fault: &DecodeFault) -> Result<String, AllocError>
        ensures { IfOk result (λ s. string_bytes s ≡ fault_text (option_map line_bytes self.now.lines) self.now.section fault.now) }
    {
        match fault_slot(fault) {
            Some(slot) => self.slot_text(alloc, slot),
            None => Ok(String::new(alloc)),
        }
    }
}
