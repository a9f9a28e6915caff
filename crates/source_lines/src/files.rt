//! The names of a unit's files.

ghost use Rattle.std.specs.Prelude.{◌≡◌, ◌-◌, ◌≤◌, Some, None, IfSome, IfNone, length, take};
ghost use Rattle.source_lines.specs.Files.{behind_directories, path_four, form_of, behind_field, text_at, string_field};
ghost use Rattle.source_lines.specs.Files.{field_in, behind_formats, behind_entry, behind_entries, path_in, shown, table_in};
ghost use Rattle.source_lines.specs.Files.{path_of, path_five, path_said, base_name};
ghost use Rattle.source_lines.specs.Unit.{shown as shown_program};

use crate::numbers::{behind, behind_lebs, text, unsigned};
use crate::unit::Program;
use object_file::word_at;

/// Bytes of a path, with the zero behind it, at most: many units may name one string.
const MOST_PATH: usize = 4096;

/// What a field that has a path says that it has.
const PATH: u64 = 1;

/// How a field of an entry is written.
#[derive(Clone, Copy)]
enum Form {
    /// A string, up to the zero that ends it.
    String,
    /// The place of a string in `.debug_line_str`.
    LineString,
    /// A LEB128.
    Number,
    /// A LEB128, and so many bytes.
    Block,
    /// So many bytes.
    Bytes(u8),
}

/// A table of directories or files: what says how its entries are written, and these.
#[derive(Clone, Copy)]
struct Table<'a> {
    /// Fields of an entry.
    width: u8,
    /// What each of them has, and its form.
    formats: &'a [u8],
    count: u64,
    entries: &'a [u8],
}

// ---- version 4

// What stands behind the directories' names, and the empty one that ends them.
#[tactic(auto, using(crate::proofs::FileLoops::directories_on))]
fn behind_directories(tables: &[u8]) -> Option<&[u8]>
    ensures some { IfSome result (λ rest. behind_directories (length tables.now) tables.now ≡ Some rest.now) }
    ensures none { IfNone result (behind_directories (length tables.now) tables.now ≡ None) }
{
    let mut rest = tables;
    'directories: for _ in 0..tables.len() {
        let (name, after) = text(rest)?;
        if name.is_empty() {
            return Some(after);
        }
        rest = after;
    }
    None
}

// The path of the file of this number, from 1.
#[tactic(auto, using(crate::proofs::FileLoops::files_on))]
fn path_four(file: u64, entries: &[u8]) -> Option<&[u8]>
    ensures some { IfSome result (λ path. path_four file entries.now ≡ Some path.now) }
    ensures none { IfNone result (path_four file entries.now ≡ None) }
{
    let mut rest = entries;
    'files: for before in 0..file {
        let (name, after) = text(rest)?;
        if name.is_empty() {
            return None;
        }
        if before + 1 == file {
            return Some(name);
        }
        rest = behind_lebs(3, after)?;
    }
    None
}

// ---- version 5

fn form_of(code: u64) -> Option<Form>
    ensures { result ≡ form_of code }
{
    match code {
        0x08 => Some(Form::String),
        0x1f => Some(Form::LineString),
        0x0f => Some(Form::Number),
        0x09 => Some(Form::Block),
        0x0b => Some(Form::Bytes(1)),
        0x05 => Some(Form::Bytes(2)),
        0x06 | 0x0e => Some(Form::Bytes(4)),
        0x07 => Some(Form::Bytes(8)),
        0x1e => Some(Form::Bytes(16)),
        _ => None,
    }
}

// What stands behind a field.
fn behind_field(form: Form, bytes: &[u8]) -> Option<&[u8]>
    ensures some { IfSome result (λ rest. behind_field form bytes.now ≡ Some rest.now) }
    ensures none { IfNone result (behind_field form bytes.now ≡ None) }
{
    match form {
        Form::String => {
            let (_, rest) = text(bytes)?;
            Some(rest)
        }
        Form::LineString => behind(4, bytes),
        Form::Number => {
            let (_, rest) = unsigned(bytes)?;
            Some(rest)
        }
        Form::Block => {
            let (size, rest) = unsigned(bytes)?;
            behind(size, rest)
        }
        Form::Bytes(size) => behind(u64::from(size), bytes),
    }
}

// At most so many bytes.
fn front_of(bytes: &[u8]) -> &[u8]
    ensures { result.now ≡ take MOST_PATH bytes.now }
{
    if bytes.len() <= MOST_PATH {
        return bytes;
    }
    let (front, _) = bytes.split_at(MOST_PATH);
    front
}

// The string at this place, if it is no longer than a path.
fn text_at(place: u64, strings: &[u8]) -> Option<&[u8]>
    ensures some { IfSome result (λ name. text_at place strings.now ≡ Some name.now) }
    ensures none { IfNone result (text_at place strings.now ≡ None) }
{
    let (name, _) = text(front_of(behind(place, strings)?))?;
    Some(name)
}

// The string that a field is.
fn string_field<'a>(strings: &'a [u8], form: Form, bytes: &'a [u8]) -> Option<&'a [u8]>
    ensures some { IfSome result (λ name. string_field strings.entry.now form bytes.entry.now ≡ Some name.now) }
    ensures none { IfNone result (string_field strings.entry.now form bytes.entry.now ≡ None) }
{
    match form {
        Form::String => {
            let (name, _) = text(bytes)?;
            Some(name)
        }
        Form::LineString => {
            if bytes.len() < 4 {
                return None;
            }
            text_at(u64::from(word_at(0, bytes)), strings)
        }
        Form::Number | Form::Block | Form::Bytes(_) => None,
    }
}

// What a field has, its form, and what says the same of the next one.
fn field_in(formats: &[u8]) -> Option<(u64, Form, &[u8])>
    ensures some { IfSome result (λ r. field_in formats.now ≡ Some (r.0, r.1, r.2.now)) }
    ensures none { IfNone result (field_in formats.now ≡ None) }
{
    let (content, codes) = unsigned(formats)?;
    let (code, rest) = unsigned(codes)?;
    let form = form_of(code)?;
    Some((content, form, rest))
}

// What stands behind the formats of so many fields.
#[tactic(auto, using(crate::proofs::FileLoops::formats_on))]
fn behind_formats(width: u8, formats: &[u8]) -> Option<&[u8]>
    ensures some { IfSome result (λ rest. behind_formats width formats.now ≡ Some rest.now) }
    ensures none { IfNone result (behind_formats width formats.now ≡ None) }
{
    let mut rest = formats;
    'fields: for _ in 0..width {
        let (_, _, next) = field_in(rest)?;
        rest = next;
    }
    Some(rest)
}

// What stands behind an entry.
#[tactic(auto, using(crate::proofs::FileLoops::entry_on))]
fn behind_entry<'a>(width: u8, formats: &[u8], bytes: &'a [u8]) -> Option<&'a [u8]>
    ensures some { IfSome result (λ rest. behind_entry width formats.now bytes.entry.now ≡ Some rest.now) }
    ensures none { IfNone result (behind_entry width formats.now bytes.entry.now ≡ None) }
{
    let mut formats = formats;
    let mut rest = bytes;
    'fields: for _ in 0..width {
        let (_, form, next) = field_in(formats)?;
        rest = behind_field(form, rest)?;
        formats = next;
    }
    Some(rest)
}

// What stands behind so many entries. Without fields they have no bytes.
#[tactic(auto, using(crate::proofs::FileLoops::entries_on, crate::proofs::FileLoops::entries_blank_at))]
fn behind_entries<'a>(count: u64, width: u8, formats: &[u8], bytes: &'a [u8]) -> Option<&'a [u8]>
    ensures some { IfSome result (λ rest. behind_entries count width formats.now bytes.entry.now ≡ Some rest.now) }
    ensures none { IfNone result (behind_entries count width formats.now bytes.entry.now ≡ None) }
{
    let mut rest = bytes;
    if width == 0 {
        return Some(rest);
    }
    'entries: for _ in 0..count {
        rest = behind_entry(width, formats, rest)?;
    }
    Some(rest)
}

// The path that an entry has.
fn path_in<'a>(strings: &'a [u8], width: u8, formats: &[u8], bytes: &'a [u8]) -> Option<&'a [u8]>
    ensures some { IfSome result (λ path. path_in strings.entry.now width formats.now bytes.entry.now ≡ Some path.now) }
    ensures none { IfNone result (path_in strings.entry.now width formats.now bytes.entry.now ≡ None) }
{
    let mut formats = formats;
    let mut rest = bytes;
    'fields: for _ in 0..width {
        let (content, form, next) = field_in(formats)?;
        if content == PATH {
            return string_field(strings, form, rest);
        }
        rest = behind_field(form, rest)?;
        formats = next;
    }
    None
}

// The table that begins here.
fn table_in(bytes: &[u8]) -> Option<Table<'_>>
    ensures some { IfSome result (λ t. table_in bytes.now ≡ Some (shown t)) }
    ensures none { IfNone result (table_in bytes.now ≡ None) }
{
    let (width, formats) = bytes.split_first()?;
    let (count, entries) = unsigned(behind_formats(*width, formats)?)?;
    Some(Table {
        width: *width,
        formats,
        count,
        entries,
    })
}

// The path of the entry of this number, from 0.
fn path_of<'a>(strings: &'a [u8], file: u64, table: Table<'a>) -> Option<&'a [u8]>
    ensures some { IfSome result (λ path. path_of strings.entry.now file (shown table.entry) ≡ Some path.now) }
    ensures none { IfNone result (path_of strings.entry.now file (shown table.entry) ≡ None) }
{
    let Table {
        width,
        formats,
        count,
        entries,
    } = table;
    if file >= count {
        return None;
    }
    let entry = behind_entries(file, width, formats, entries)?;
    path_in(strings, width, formats, entry)
}

// The path of the file of this number, from 0.
fn path_five<'a>(strings: &'a [u8], file: u64, tables: &'a [u8]) -> Option<&'a [u8]>
    ensures some { IfSome result (λ path. path_five strings.entry.now file tables.entry.now ≡ Some path.now) }
    ensures none { IfNone result (path_five strings.entry.now file tables.entry.now ≡ None) }
{
    let Table {
        width,
        formats,
        count,
        entries,
    } = table_in(tables)?;
    let rest = behind_entries(count, width, formats, entries)?;
    path_of(strings, file, table_in(rest)?)
}

// ---- both

/// The path of the file that a register has the number of.
pub(crate) fn path_said<'a>(strings: &'a [u8], file: u64, program: &Program<'a>) -> Option<&'a [u8]>
    ensures some { IfSome result (λ path. path_said strings.entry.now file (shown_program program.now) ≡ Some path.now) }
    ensures none { IfNone result (path_said strings.entry.now file (shown_program program.now) ≡ None) }
{
    if program.is_five {
        return path_five(strings, file, program.tables);
    }
    path_four(file, behind_directories(program.tables)?)
}

/// What stands behind a path's last slash.
pub(crate) fn base_name(path: &[u8]) -> &[u8]
    ensures { result.now ≡ base_name path.now }
{
    let mut name = path;
    let mut rest = path;
    'bytes: while let Some((byte, after)) = rest.split_first() {
        if *byte == b'/' {
            name = after;
        }
        rest = after;
    }
    name
}
