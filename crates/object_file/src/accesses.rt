//! What a section of accesses declares: entries of 16 bytes, first how many arguments a call takes, and then
//! a slot each.

ghost use Rattle.std.specs.Prelude.{◌≡◌, ◌*◌, length, Ok, IfOk, IfErr};
ghost use Rattle.object_file.specs.Gathering.{Gives, IsStop};
ghost use Rattle.object_file.specs.Accesses.{key_in, slot_in, arguments_in, slots_said, accesses_said};

use crate::elf::{half_at, long_at};
use crate::fault::{ObjectFault, ReadError};
use access_slots::decl::Decl;
use access_slots::slot::{Key, Mode, Slot};
use std::alloc::Global;

/// Bytes of an entry.
const ENTRY: usize = 16;

/// Entries, at most.
const MOST_ENTRIES: usize = 17;

// The key that an entry has.
fn key_in(is_argument: bool, number: u64) -> Option<Key>
    ensures { result ≡ key_in is_argument number }
{
    if !is_argument {
        return Some(Key::Fixed(number));
    }
    match u8::try_from(number) {
        Ok(argument) => Some(Key::Arg(argument)),
        Err(_) => None,
    }
}

// The slot that an entry is.
fn slot_in(entry: &[u8]) -> Option<Slot>
    requires { length entry.now ≡ 16 }
    ensures { result ≡ slot_in entry.now }
{
    let flags = half_at(4, entry);
    if flags > 3 {
        return None;
    }
    let mode = if flags % 2 == 1 {
        Mode::Write
    } else {
        Mode::Read
    };
    let key = key_in(flags >= 2, long_at(8, entry))?;
    Some(Slot {
        mode,
        dc: half_at(0, entry),
        table: half_at(2, entry),
        key,
    })
}

// The slots that so many entries of this section are.
fn slots_in(
    alloc: Global,
    section: usize,
    count: usize,
    entries: &[u8],
) -> Result<Vec<Slot>, ReadError>
    requires { length entries.now ≡ 16 * count }
    ensures ok { IfOk result (λ slots. slots_said section count entries.now ≡ Ok slots.items) }
    ensures err { IfErr result (IsStop (slots_said section count entries.now)) }
{
    let mut slots = Vec::with_capacity(alloc, count)?;
    let mut rest = entries;
    'entries: for place in 0..count {
        let (entry, after) = rest.split_at(ENTRY);
        match slot_in(entry) {
            Some(slot) => slots.push(slot)?,
            None => return Err(ReadError::Fault(ObjectFault::NoSlot(section, place))),
        }
        rest = after;
    }
    Ok(slots)
}

// How many arguments an entry says that there are.
fn arguments_in(entry: &[u8]) -> Option<u8>
    requires { length entry.now ≡ 16 }
    ensures { result ≡ arguments_in entry.now }
{
    if half_at(4, entry) != 4 {
        return None;
    }
    u8::try_from(long_at(8, entry)).ok()
}

/// The declaration of the section of this number.
pub(crate) fn declaration_in(alloc: Global, section: usize, bytes: &[u8]) -> Result<Decl, ReadError>
    ensures { Gives (accesses_said section bytes.now) result }
{
    let count = bytes.len() / ENTRY;
    if bytes.len() % ENTRY != 0 || count == 0 || count > MOST_ENTRIES {
        return Err(ReadError::Fault(ObjectFault::AccessesSize(section)));
    }
    let (first, entries) = bytes.split_at(ENTRY);
    let Some(args) = arguments_in(first) else {
        return Err(ReadError::Fault(ObjectFault::NoArguments(section)));
    };
    let slots = slots_in(alloc, section, count - 1, entries)?;
    match Decl::new(args, slots.as_slice()) {
        Ok(decl) => Ok(decl),
        Err(fault) => Err(ReadError::Fault(ObjectFault::Declared(section, fault))),
    }
}
