//! Numbers, from the Ask or the Undo that gives them out to their Answer.

ghost use Rattle.std.specs.Prelude.{◌≡◌, ◌+◌, ◌<◌, ◌^◌, option_map, length, IfOk};
ghost use Rattle.std.specs.List.{list_any};
ghost use Rattle.tc_log.specs.Entered.{seen};
ghost use Rattle.log_picture.specs.Ways.{answering_of, way_of, is_back, ways_from, is_of, is_write_of, uses, mode_of};

use access_slots::op::{Op, Said};
use access_slots::slot::{Mode, Record};
use std::alloc::{AllocError, Global};
use tc_log::event::Entry;
use tc_log::events::Events;

/// What a number was answered, and the place of its Answer.
#[derive(Clone, Copy, Debug, PartialEq, Eq)]
pub struct Answering {
    pub place: usize,
    pub said: Said,
}

/// A number on its way, in a log whose places are counted from 0.
#[derive(Clone, Copy, Debug, PartialEq, Eq)]
pub struct Way {
    pub number: u64,
    /// Whether it undoes a write.
    pub undo: bool,
    pub op: Op,
    /// The place of its Ask or Undo.
    pub begin: usize,
    /// Its Answer, where there is one.
    pub end: Option<Answering>,
}

impl Way {
    /// The place of its Answer.
    pub fn end_place(&self) -> Option<usize>
        ensures { result ≡ option_map (λ a. a.place) self.now.end }
    {
        self.end.map(|answering| answering.place)
    }
}

// The first Answer to a number among these events, of which the first is at this place.
fn answering_of(number: u64, first: usize, events: &Events<'_>) -> Option<Answering>
    requires { first + length events.now < 2 ^ 64 }
    ensures { result ≡ answering_of number first events.now }
{
    'events: for index in 0..events.len() {
        match events.entry(index) {
            Entry::Answer {
                number: answered,
                said,
                ..
            } if answered == number => {
                return Some(Answering {
                    place: first + index,
                    said,
                });
            }
            _ => {}
        }
    }
    None
}

// The number that the event at this place gives out for a transaction, if it gives one out.
fn way_of(txn: u64, place: usize, event: &Entry<'_>, later: &Events<'_>) -> Option<Way>
    requires { place + 1 + length later.now < 2 ^ 64 }
    ensures { result ≡ way_of txn place (seen event.now) later.now }
{
    let (asker, number, op, undo) = match event {
        Entry::Ask { txn, number, op } => (*txn, *number, *op, false),
        Entry::Undo { txn, number, op } => (*txn, *number, *op, true),
        _ => return None,
    };
    if asker != txn {
        return None;
    }
    Some(Way {
        number,
        undo,
        op,
        begin: place,
        end: answering_of(number, place + 1, later),
    })
}

// Whether it is answered before a place.
fn is_back(from: usize, way: &Way) -> bool
    ensures { result ≡ is_back from way.now }
{
    match way.end {
        Some(answering) => answering.place < from,
        None => false,
    }
}

/// The numbers of a transaction that these events give out, of which the first is at this place, but for those that
/// are answered before the place `from`.
pub fn ways_in(
    alloc: Global,
    txn: u64,
    from: usize,
    first: usize,
    events: &Events<'_>,
) -> Result<Vec<Way>, AllocError>
    requires { first + length events.now < 2 ^ 64 }
    ensures { IfOk result (λ ways. ways.items ≡ ways_from txn from first events.now) }
{
    let mut ways = Vec::new(alloc);
    'events: for index in 0..events.len() {
        let later = events.behind(index + 1);
        match way_of(txn, first + index, &events.entry(index), &later) {
            Some(way) if !is_back(from, &way) => ways.push(way)?,
            _ => {}
        }
    }
    Ok(ways)
}

// Whether an operation is of this record.
fn is_of(record: &Record, way: &Way) -> bool
    ensures { result ≡ is_of record.now way.now }
{
    way.op.record() == record
}

// Whether it writes this record.
fn is_write_of(record: &Record, way: &Way) -> bool
    ensures { result ≡ is_write_of record.now way.now }
{
    is_of(record, way) && !way.op.is_read()
}

// Whether one of the operations writes the record.
fn any_writes(ways: &[Way], record: &Record) -> bool
    ensures { result ≡ list_any (is_write_of record.now) ways.now }
{
    'ways: for way in ways {
        if is_write_of(record, way) {
            return true;
        }
    }
    false
}

/// Whether one of these operations is of the record.
pub fn uses(ways: &[Way], record: &Record) -> bool
    ensures { result ≡ uses record.now ways.now }
{
    'ways: for way in ways {
        if is_of(record, way) {
            return true;
        }
    }
    false
}

/// The mode in which these operations need a record's lock, where one of them is of the record.
pub fn mode_of(ways: &[Way], record: &Record) -> Option<Mode>
    ensures { result ≡ mode_of ways.now record.now }
{
    if any_writes(ways, record) {
        Some(Mode::Write)
    } else if uses(ways, record) {
        Some(Mode::Read)
    } else {
        None
    }
}
