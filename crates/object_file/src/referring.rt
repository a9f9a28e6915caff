//! How sections are called, and what their relocations refer to.

ghost use Rattle.std.specs.Prelude.{◌≡◌, IfOk};
ghost use Rattle.std.specs.List.{position};
ghost use Rattle.std.specs.Option.{option_map};
ghost use Rattle.object_file.specs.Elf.{relocates};
ghost use Rattle.object_file.specs.Referring.{name_at, symbol_name, referred, reference_in, section_name_said, reference_said};

use crate::elf::{Header, half_at, long_at, part_of, string_at, tables_of, word_at};
use crate::lines::{bytes_at, linked};
use std::alloc::{AllocError, Global};

/// Bytes of an entry of a symbol table.
const SYMBOL: u64 = 24;

/// The type of a symbol that stands for a section.
const OF_SECTION: u16 = 3;

/// Bytes with which each relocation begins.
const RELOCATION: u64 = 16;

/// A place of a section that is to be relocated.
#[derive(Clone, Copy)]
pub struct Reference<'a> {
    /// In bytes from the section's beginning.
    pub place: u64,
    /// What it refers to, where that has a name of at most [`crate::MOST_NAME`] bytes.
    pub symbol: Option<&'a [u8]>,
}

// The name of the section of this number.
fn name_at<'a>(names: &'a [u8], headers: &[Header], number: usize) -> Option<&'a [u8]>
    ensures { option_map (λ name. name.now) result ≡ name_at names.entry.now headers.now number }
{
    match headers.get(number) {
        Some(header) => header.name(names),
        None => None,
    }
}

// The name of the symbol of this number: that of a section, where it stands for one.
fn symbol_name<'a>(
    file: &'a [u8],
    names: &'a [u8],
    headers: &[Header],
    symbols: Option<usize>,
    number: u32,
) -> Option<&'a [u8]>
    ensures { option_map (λ name. name.now) result ≡ symbol_name file.entry.now names.entry.now headers.now symbols number }
{
    let table = bytes_at(file, headers, symbols);
    let entry = part_of(table, SYMBOL * u64::from(number), SYMBOL)?;
    if half_at(4, entry) % 16 == OF_SECTION {
        return name_at(names, headers, usize::from(half_at(6, entry)));
    }
    string_at(
        word_at(0, entry),
        bytes_at(file, headers, linked(headers, symbols)),
    )
}

// The first section with relocations of the section of this number.
fn relocations_of(headers: &[Header], number: usize) -> Option<usize>
    ensures { result ≡ position (relocates number) headers.now }
{
    headers.iter().position(|header| header.relocates(number))
}

// The first place that a section with relocations names.
fn reference_in<'a>(
    file: &'a [u8],
    names: &'a [u8],
    headers: &[Header],
    relocations: Option<usize>,
) -> Option<Reference<'a>>
    ensures { option_map referred result ≡ reference_in file.entry.now names.entry.now headers.now relocations }
{
    let entry = part_of(bytes_at(file, headers, relocations), 0, RELOCATION)?;
    let symbols = linked(headers, relocations);
    Some(Reference {
        place: long_at(0, entry),
        symbol: symbol_name(file, names, headers, symbols, word_at(12, entry)),
    })
}

/// The name of the section of this number, where it has one.
pub fn section_name<'a>(
    alloc: Global,
    file: &'a [u8],
    number: usize,
) -> Result<Option<&'a [u8]>, AllocError>
    ensures { IfOk result (λ o. option_map (λ name. name.now) o ≡ section_name_said file.entry.now number) }
{
    match tables_of(alloc, file)? {
        Some((headers, names)) => Ok(name_at(names, headers.as_slice(), number)),
        None => Ok(None),
    }
}

/// The first place of the section of this number that is to be relocated, where there is one.
pub fn first_reference<'a>(
    alloc: Global,
    file: &'a [u8],
    number: usize,
) -> Result<Option<Reference<'a>>, AllocError>
    ensures { IfOk result (λ o. option_map referred o ≡ reference_said file.entry.now number) }
{
    match tables_of(alloc, file)? {
        Some((headers, names)) => {
            let headers = headers.as_slice();
            Ok(reference_in(file, names, headers, relocations_of(headers, number)))
        }
        None => Ok(None),
    }
}
