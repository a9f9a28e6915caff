//! A log's file that is cut short, or of which one byte is another: what it is read as.

ghost use Rattle.std.specs.Prelude.{◌≡◌, []};
ghost use Rattle.frame_file.specs.Memory.{memory_bytes};

use crate::log::asks;
use access_slots::slot::Record;
use frame_file::{FrameFault, Memory};
use log_file::{BaseRow, Header, LogFile, OpenFault};
use std::alloc::Global;
use tc_log::event::Event;
use tc_log::log::Log;

const HEADER: Header = Header {
    dcs: 1,
    procedures: 1,
    digest: [7; 32],
    session: None,
};

// Bytes of an event's row, and of what stands before a frame's payload.
const ROW: usize = 96;

const HEAD: usize = 24;

// So many rows has a frame.
const FRAME: usize = 40 * ROW;

// So many bytes of a header of either layout are the same: the number of its frame.
const SAME: usize = 8;

// The records with which a log begins that was cut.
const BASE: [BaseRow; 2] = [
    (
        Record {
            dc: 0,
            table: 0,
            key: 1,
        },
        [5; 64],
    ),
    (
        Record {
            dc: 0,
            table: 0,
            key: 2,
        },
        [6; 64],
    ),
];

// A whole file, and what it has.
#[derive(Drop)]
struct Written {
    bytes: Vec<u8>,
    // The rows of its events.
    rows: Vec<u8>,
    // Where the header's frame ends, and where each further one does.
    ends: Vec<usize>,
    is_cut: bool,
}

// What bytes were read as, or are to be read as.
#[derive(Clone, Copy, PartialEq, Eq)]
enum Found {
    /// So many bytes of the rows.
    Rows(usize),
    /// The frame of this number is damaged.
    Damaged(u64),
    /// The frame of this number isn't there, of a base.
    NoBase(u64),
    /// No log.
    Other,
    /// Anything else.
    Another,
}

// What was tried, and what came of it.
#[derive(Clone, Copy, Default)]
struct Tried {
    truncations: u64,
    changes: u64,
    beginnings: u64,
    refused: u64,
    wrong: u64,
}

// The row of a checkpoint.
fn checkpoint_row(alloc: Global) -> Option<Vec<u8>> {
    let mut log = Log::new(alloc);
    let Ok(()) = log.reserve(1) else {
        return None;
    };
    log.push(Event::Checkpoint {
        admitted: 1,
        given: 9,
    });
    log.print(alloc).ok()
}

// Where the frames end of a file that has these bytes, one behind the other.
fn frame_ends(alloc: Global, bytes: &[u8]) -> Option<Vec<usize>> {
    let mut ends = Vec::new(alloc);
    let mut end = 0usize;
    // There are fewer frames than bytes.
    for _ in 0..bytes.len() {
        if end >= bytes.len() {
            break;
        }
        let length = bytes.get(end.checked_add(8)?..end.checked_add(16)?)?;
        let length = u64::from_le_bytes(length.try_into().ok()?);
        end = end
            .checked_add(HEAD)?
            .checked_add(usize::try_from(length).ok()?)?;
        ends.push(end).ok()?;
    }
    Some(ends)
}

// A file with so many events; where it was cut, they stand behind a checkpoint.
fn whole_file(alloc: Global, events: u64, is_cut: bool) -> Option<Written> {
    let mut file = LogFile::new(Memory::new(alloc, Vec::new(alloc)));
    let mut written = Written {
        bytes: Vec::new(alloc),
        rows: Vec::new(alloc),
        ends: Vec::new(alloc),
        is_cut,
    };
    let all = write_rows(alloc, events, &mut file, &mut written);
    drop(file);
    match all {
        Some(()) => Some(written),
        None => {
            drop(written);
            None
        }
    }
}

// Writes the file, and enters what it has.
fn write_rows(
    alloc: Global,
    events: u64,
    file: &mut LogFile<Memory>,
    written: &mut Written,
) -> Option<()>
    requires { memory_bytes file.old.frames.device ≡ [] }
{
    let Err(OpenFault::Empty) = file.open(alloc, &HEADER, &[]) else {
        return None;
    };
    if written.is_cut {
        written.rows = checkpoint_row(alloc)?;
        file.begin_anew(alloc, &HEADER, &BASE, &written.rows).ok()?;
    } else {
        file.create(alloc, &HEADER).ok()?;
    }
    append_asks(alloc, events, file, &mut written.rows)?;
    written.bytes.extend_from_slice(file.device().bytes()).ok()?;
    written.ends = frame_ends(alloc, &written.bytes)?;
    Some(())
}

// Appends so many events in frames of 40, and their rows to the others.
fn append_asks(
    alloc: Global,
    events: u64,
    file: &mut LogFile<Memory>,
    rows: &mut Vec<u8>,
) -> Option<()> {
    let before = rows.len();
    asks_behind(alloc, events, rows)?;
    for frame in rows.get(before..)?.chunks(FRAME) {
        file.append(alloc, &[], frame).ok()?;
    }
    Some(())
}

// The rows of so many events behind these.
fn asks_behind(alloc: Global, events: u64, rows: &mut Vec<u8>) -> Option<()> {
    let log = asks(alloc, events)?;
    let behind = log.print(alloc);
    drop(log);
    let behind = behind.ok()?;
    let all = rows.extend_from_slice(&behind).ok();
    drop(behind);
    all
}

impl Written {
    // What these bytes are read as; `None` where memory ran out.
    fn read(&self, alloc: Global, bytes: &[u8]) -> Option<Found> {
        let copy = Vec::from_slice(alloc, bytes).ok()?;
        let mut file = LogFile::new(Memory::new(alloc, copy));
        match file.open(alloc, &HEADER, bytes) {
            Ok(found) => {
                let again = found.log.print(alloc).ok()?;
                let begins = self.rows.as_slice().starts_with(&again);
                Some(if begins {
                    Found::Rows(again.len())
                } else {
                    Found::Another
                })
            }
            Err(OpenFault::Empty) => Some(Found::Rows(0)),
            Err(OpenFault::Frames(FrameFault::Damaged(frame))) => Some(Found::Damaged(frame)),
            Err(OpenFault::Frames(FrameFault::Device(_))) => None,
            Err(OpenFault::NoBase(frame)) => Some(Found::NoBase(frame as u64)),
            Err(OpenFault::Other) => Some(Found::Other),
            Err(_) => Some(Found::Another),
        }
    }

    // So many frames end at this place or before it.
    fn whole(&self, place: usize) -> usize {
        self.ends.iter().filter(|end| **end <= place).count()
    }

    // What so many frames are read as: their rows. Behind the header of a log that was cut come its base and its
    // checkpoint, of a frame each.
    fn rows_of(&self, frames: usize) -> Found {
        let (front, first) = if self.is_cut { (3, ROW) } else { (1, 0) };
        if self.is_cut && frames < front {
            return Found::NoBase(frames as u64);
        }
        let rows = frames
            .saturating_sub(front)
            .saturating_mul(FRAME)
            .saturating_add(first);
        Found::Rows(rows.min(self.rows.len()))
    }

    // What so many bytes are read as. A part of a header's frame is a beginning only of layout 1.
    fn front_of(&self, len: usize) -> Found {
        match self.whole(len) {
            0 if self.is_cut && len > SAME => Found::Other,
            0 => Found::Rows(0),
            frames => self.rows_of(frames),
        }
    }

    // A file that is cut short is a beginning.
    fn truncate(&self, alloc: Global, len: usize, tried: &mut Tried) -> Option<()> {
        let found = self.read(alloc, self.bytes.get(..len)?)?;
        tried.truncations = tried.truncations.wrapping_add(1);
        tried.take(found, self.front_of(len));
        Some(())
    }

    // Whether the last frame with another byte in this place is an end that a crash may have left: not with
    // another number, nor with a lower length.
    fn is_end(&self, changed: &[u8], place: usize) -> Option<bool> {
        let start = *self.ends.get(self.ends.len().checked_sub(2)?)?;
        Some(match place.checked_sub(start)? {
            0..=7 => false,
            8..=15 => changed.get(place)? > self.bytes.get(place)?,
            _ => true,
        })
    }

    // A frame with another byte is damaged, but for the last one where it is an end.
    fn change(&self, alloc: Global, place: usize, bits: u8, tried: &mut Tried) -> Option<()> {
        let mut changed = Vec::from_slice(alloc, &self.bytes).ok()?;
        let byte = changed.get_mut(place)?;
        *byte ^= bits;
        let frame = self.whole(place);
        let is_last = frame.saturating_add(1) == self.ends.len();
        let is_end = is_last && self.is_end(&changed, place)?;
        let found = self.read(alloc, &changed)?;
        tried.changes = tried.changes.wrapping_add(1);
        let wanted = if is_end {
            self.rows_of(frame)
        } else {
            Found::Damaged(frame as u64)
        };
        tried.take(found, wanted);
        Some(())
    }
}

impl Tried {
    // Counts what was found where this was wanted.
    fn take(&mut self, found: Found, wanted: Found) {
        let counter = match found {
            _ if found != wanted => &mut self.wrong,
            Found::Rows(_) => &mut self.beginnings,
            _ => &mut self.refused,
        };
        *counter = counter.wrapping_add(1);
    }
}

fn try_all(alloc: Global, written: &Written, tried: &mut Tried) -> Option<()> {
    for len in 0..=written.bytes.len() {
        written.truncate(alloc, len, tried)?;
    }
    for place in 0..written.bytes.len() {
        // One of its bits in turn, and then all.
        let bit = 1u8.rotate_left((place % 8) as u32);
        written.change(alloc, place, bit, tried)?;
        written.change(alloc, place, u8::MAX, tried)?;
    }
    Some(())
}

/// A log of so many events is written in frames of 40, and another behind the records and the checkpoint with
/// which it begins anew; then a copy of each file is cut at each length, and of each byte a copy has one bit
/// turned, and another all bits. A cut copy has to be read as the events of its whole frames, or refused where
/// the base isn't whole; one with a changed byte as those before its last frame, where the byte is one of it,
/// or else be refused with the number of the frame. `wrong` counts those that aren't.
pub fn repeat(alloc: Global, events: u64) -> Option<String> {
    let mut tried = Tried::default();
    for is_cut in [false, true] {
        let written = whole_file(alloc, events, is_cut)?;
        try_all(alloc, &written, &mut tried)?;
    }
    format!(in alloc;
        "truncations {} changes {} beginnings {} refused {} wrong {}\n",
        tried.truncations, tried.changes, tried.beginnings, tried.refused, tried.wrong
    )
    .ok()
}
