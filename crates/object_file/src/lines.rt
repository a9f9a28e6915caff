//! The sections that say of which lines of a source code is.

ghost use Rattle.std.specs.Prelude.{◌≡◌, IfOk};
ghost use Rattle.std.specs.List.{position};
ghost use Rattle.std.specs.Option.{option_map};
ghost use Rattle.object_file.specs.LineSections.{line_bytes, bytes_at, number_named, relocations_of, linked};
ghost use Rattle.object_file.specs.LineSections.{lines_at, lines_in, line_sections_said};

use crate::elf::{Header, tables_of};
use std::alloc::{AllocError, Global};

/// The bytes of these sections, none of one that isn't there.
#[derive(Clone, Copy)]
pub struct LineSections<'a> {
    /// `.debug_line`.
    pub lines: &'a [u8],
    /// `.debug_line_str`.
    pub strings: &'a [u8],
    /// The relocations of `.debug_line`, as SHT_REL has them.
    pub relocations: &'a [u8],
    /// The symbol table of these relocations.
    pub symbols: &'a [u8],
}

// The first section of this name.
fn number_named(names: &[u8], headers: &[Header], name: &[u8]) -> Option<usize>
    ensures { result ≡ number_named names.now headers.now name.now }
{
    headers
        .iter()
        .position(|header| header.is_named(names, name))
}

// The first section with relocations of the section of this number.
fn relocations_of(headers: &[Header], number: usize) -> Option<usize>
    ensures { result ≡ relocations_of headers.now number }
{
    headers
        .iter()
        .position(|header| header.relocates_in_place(number))
}

/// The section that the one of this number refers to.
pub(crate) fn linked(headers: &[Header], number: Option<usize>) -> Option<usize>
    ensures { result ≡ linked headers.now number }
{
    match headers.get(number?) {
        Some(header) => Some(header.link()),
        None => None,
    }
}

/// The bytes of the section of this number, if they are there.
pub(crate) fn bytes_at<'a>(file: &'a [u8], headers: &[Header], number: Option<usize>) -> &'a [u8]
    ensures { result.now ≡ bytes_at file.entry.now headers.now number }
{
    let Some(number) = number else {
        return &[];
    };
    let Some(header) = headers.get(number) else {
        return &[];
    };
    match header.bytes(file) {
        Some(bytes) => bytes,
        None => &[],
    }
}

// The sections around the line table of this number.
fn lines_at<'a>(file: &'a [u8], names: &[u8], headers: &[Header], number: usize) -> LineSections<'a>
    ensures { line_bytes result ≡ lines_at file.entry.now names.now headers.now number }
{
    let relocations = relocations_of(headers, number);
    LineSections {
        lines: bytes_at(file, headers, Some(number)),
        strings: bytes_at(
            file,
            headers,
            number_named(names, headers, b".debug_line_str"),
        ),
        relocations: bytes_at(file, headers, relocations),
        symbols: bytes_at(file, headers, linked(headers, relocations)),
    }
}

// The same, if there is a line table.
fn lines_in<'a>(file: &'a [u8], names: &[u8], headers: &[Header]) -> Option<LineSections<'a>>
    ensures { option_map line_bytes result ≡ lines_in file.entry.now names.now headers.now }
{
    match number_named(names, headers, b".debug_line") {
        Some(number) => Some(lines_at(file, names, headers, number)),
        None => None,
    }
}

/// The line table of an object file, if it has one, and what belongs to it.
pub fn line_sections<'a>(
    alloc: Global,
    file: &'a [u8],
) -> Result<Option<LineSections<'a>>, AllocError>
    ensures { IfOk result (λ s. option_map line_bytes s ≡ line_sections_said file.entry.now) }
{
    match tables_of(alloc, file)? {
        Some((headers, names)) => Ok(lines_in(file, names, headers.as_slice())),
        None => Ok(None),
    }
}
