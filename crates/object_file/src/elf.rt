//! The header of an ELF-64 file, its section header table and its strings.

ghost use Rattle.std.specs.Prelude.{◌≡◌, ◌==◌, ◌+◌, ◌*◌, ◌≤◌, None, Some, Ok, Err, length, map, IfOk, IfErr, IfSome, IfNone};
ghost use Rattle.std.specs.List.{list_any, position};
ghost use Rattle.object_file.specs.Elf.{half_at, word_at, long_at, part_of, string_at, header_in, headers_in, table_said, names_said, tables_said, relocates, relocates_in_place, has_bits, is_elf, is_named};

use crate::fault::ObjectFault;
use byteorder::{ByteOrder, LittleEndian};
use std::alloc::{AllocError, Global};

/// Sections of a file, at most.
pub const MOST_SECTIONS: u16 = 4096;

/// Bytes of a section's name, at most.
pub const MOST_NAME: usize = 266;

// Of a file's header, and of an entry of the section header table.
const HEADER: usize = 64;

// Types of sections.
const BITS: u32 = 1;

const STRINGS: u32 = 3;

const RELOCATIONS: u32 = 9;

const RELOCATIONS_ADDING: u32 = 4;

/// An entry of the section header table.
#[derive(Clone, Copy)]
pub(crate) struct Header {
    name: u32,
    kind: u32,
    offset: u64,
    size: u64,
    link: u32,
    info: u32,
}

/// Whether bytes begin with ELF's magic number, as each object file does.
pub fn is_elf(bytes: &[u8]) -> bool
    ensures { result ≡ is_elf bytes.now }
{
    bytes.strip_prefix(b"\x7fELF").is_some()
}

/// The number of two bytes at this place.
#[tactic(auto, using(crate::proofs::Numbers::half_is))]
pub fn half_at(place: usize, bytes: &[u8]) -> u16
    requires { place + 2 ≤ length bytes.now }
    ensures { result ≡ half_at place bytes.now }
{
    LittleEndian::read_u16(&bytes[place..place + 2])
}

/// The number of four bytes at this place.
#[tactic(auto, using(crate::proofs::Numbers::word_is))]
pub fn word_at(place: usize, bytes: &[u8]) -> u32
    requires { place + 4 ≤ length bytes.now }
    ensures { result ≡ word_at place bytes.now }
{
    LittleEndian::read_u32(&bytes[place..place + 4])
}

/// The number of eight bytes at this place.
#[tactic(auto, using(crate::proofs::Numbers::long_is))]
pub fn long_at(place: usize, bytes: &[u8]) -> u64
    requires { place + 8 ≤ length bytes.now }
    ensures { result ≡ long_at place bytes.now }
{
    LittleEndian::read_u64(&bytes[place..place + 8])
}

// So many bytes of the file from this place on, if they are all there.
pub(crate) fn part_of(file: &[u8], offset: u64, size: u64) -> Option<&[u8]>
    ensures some { IfSome result (λ part. part_of file.now offset size ≡ Some part.now) }
    ensures none { IfNone result (part_of file.now offset size ≡ None) }
    ensures long { IfSome result (λ part. length part.now ≡ size) }
{
    let length = file.len() as u64;
    if offset > length || size > length - offset {
        return None;
    }
    let start = offset as usize;
    Some(&file[start..start + size as usize])
}

fn first_zero(bytes: &[u8]) -> Option<usize>
    ensures { result ≡ position (λ byte. byte == 0) bytes.now }
{
    bytes.iter().position(|&byte| byte == 0)
}

// The string at this place of a table.
pub(crate) fn string_at(place: u32, strings: &[u8]) -> Option<&[u8]>
    ensures some { IfSome result (λ s. string_at place strings.now ≡ Some s.now) }
    ensures none { IfNone result (string_at place strings.now ≡ None) }
{
    let place = place as usize;
    if place > strings.len() {
        return None;
    }
    let (_, text) = strings.split_at(place);
    let (front, _) = text.split_at((MOST_NAME + 1).min(text.len()));
    match first_zero(front) {
        Some(end) => Some(&text[..end]),
        None => None,
    }
}

// The entry that these 64 bytes are.
fn header_in(entry: &[u8]) -> Header
    requires { length entry.now ≡ 64 }
    ensures { result ≡ header_in entry.now }
{
    Header {
        name: word_at(0, entry),
        kind: word_at(4, entry),
        offset: long_at(24, entry),
        size: long_at(32, entry),
        link: word_at(40, entry),
        info: word_at(44, entry),
    }
}

/// The entries of a section header table.
pub(crate) fn headers_in(alloc: Global, table: &[u8]) -> Result<Vec<Header>, AllocError>
    ensures { IfOk result (λ headers. headers.items ≡ headers_in table.now) }
{
    let count = table.len() / HEADER;
    let mut headers = Vec::with_capacity(alloc, count)?;
    let mut rest = table;
    'entries: for _ in 0..count {
        let (entry, after) = rest.split_at(HEADER);
        headers.push(header_in(entry))?;
        rest = after;
    }
    Ok(headers)
}

/// The section header table of a relocatable file for BPF.
pub(crate) fn table_of(file: &[u8]) -> Result<&[u8], ObjectFault>
    ensures ok { IfOk result (λ table. table_said file.now ≡ Ok table.now) }
    ensures err { IfErr result (λ fault. table_said file.now ≡ Err fault) }
    ensures long { IfOk result (λ _. 64 ≤ length file.now) }
{
    if file.len() < HEADER || word_at(0, file) != 0x464c_457f {
        return Err(ObjectFault::NotElf);
    }
    if half_at(4, file) != 0x0102 {
        return Err(ObjectFault::NotLittle64);
    }
    let kind = half_at(16, file);
    if kind != 1 {
        return Err(ObjectFault::NotRelocatable(kind));
    }
    let machine = half_at(18, file);
    if machine != 247 {
        return Err(ObjectFault::NotBpf(machine));
    }
    let size = half_at(58, file);
    if size != 64 {
        return Err(ObjectFault::EntrySize(size));
    }
    let count = half_at(60, file);
    if count > MOST_SECTIONS {
        return Err(ObjectFault::TooManySections(count));
    }
    part_of(file, long_at(40, file), 64 * u64::from(count)).ok_or(ObjectFault::NoTable)
}

/// The table with the names of sections.
pub(crate) fn names_of<'a>(file: &'a [u8], headers: &[Header]) -> Result<&'a [u8], ObjectFault>
    requires { 64 ≤ length file.now }
    ensures ok { IfOk result (λ names. names_said file.entry.now headers.now ≡ Ok names.now) }
    ensures err { IfErr result (λ fault. names_said file.entry.now headers.now ≡ Err fault) }
{
    let number = usize::from(half_at(62, file));
    match headers.get(number) {
        Some(header) if header.kind == STRINGS => {
            part_of(file, header.offset, header.size).ok_or(ObjectFault::NoNames)
        }
        _ => Err(ObjectFault::NoNames),
    }
}

/// The section header table and the names of sections, where both are there.
pub(crate) fn tables_of<'a>(
    alloc: Global,
    file: &'a [u8],
) -> Result<Option<(Vec<Header>, &'a [u8])>, AllocError>
    ensures some { IfOk result (λ o. IfSome o (λ r. tables_said file.entry.now ≡ Some (r.0.items, r.1.now))) }
    ensures none { IfOk result (λ o. IfNone o (tables_said file.entry.now ≡ None)) }
{
    let Ok(table) = table_of(file) else {
        return Ok(None);
    };
    let headers = headers_in(alloc, table)?;
    match names_of(file, headers.as_slice()) {
        Ok(names) => Ok(Some((headers, names))),
        Err(_) => Ok(None),
    }
}

impl Header {
    /// Whether the section has bytes in the file that mean what a program says.
    pub(crate) fn has_bits(&self) -> bool
        ensures { result ≡ has_bits self.now }
    {
        self.kind == BITS
    }

    /// The section's name.
    pub(crate) fn name<'a>(&self, names: &'a [u8]) -> Option<&'a [u8]>
        ensures some { IfSome result (λ name. string_at self.now.name names.entry.now ≡ Some name.now) }
        ensures none { IfNone result (string_at self.now.name names.entry.now ≡ None) }
    {
        string_at(self.name, names)
    }

    /// The section's bytes.
    pub(crate) fn bytes<'a>(&self, file: &'a [u8]) -> Option<&'a [u8]>
        ensures some { IfSome result (λ bytes. part_of file.entry.now self.now.offset self.now.size ≡ Some bytes.now) }
        ensures none { IfNone result (part_of file.entry.now self.now.offset self.now.size ≡ None) }
    {
        part_of(file, self.offset, self.size)
    }

    /// Whether it has bytes and this name.
    pub(crate) fn is_named(&self, names: &[u8], name: &[u8]) -> bool
        ensures { result ≡ is_named names.now name.now self.now }
    {
        self.has_bits() && self.name(names) == Some(name)
    }

    /// The number of the section that it refers to.
    pub(crate) fn link(&self) -> usize
        ensures { result ≡ self.now.link }
    {
        self.link as usize
    }

    /// Whether it says how to relocate the section of this number, and what to add stands in that section.
    pub(crate) fn relocates_in_place(&self, number: usize) -> bool
        ensures { result ≡ relocates_in_place number self.now }
    {
        self.kind == RELOCATIONS && self.info as usize == number
    }

    /// Whether it says how to relocate the section of this number.
    pub(crate) fn relocates(&self, number: usize) -> bool
        ensures { result ≡ relocates number self.now }
    {
        matches!(self.kind, RELOCATIONS | RELOCATIONS_ADDING) && self.info as usize == number
    }
}

/// Whether the section of this number is to be relocated.
pub(crate) fn is_relocated(headers: &[Header], number: usize) -> bool
    ensures { result ≡ list_any (relocates number) headers.now }
{
    headers.iter().any(|header| header.relocates(number))
}
