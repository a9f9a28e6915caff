//! `log --follow`: a log's file that is read on from where it was read before.

ghost use Rattle.std.specs.Prelude.{◌≡◌, ◌⊎◌, ◌+◌, ◌++◌, ℕ, List, length, drop, take, reverse, IfOk, OnOk, IfSome, IfNone, string_bytes};
ghost use Rattle.std.specs.List.{fold};
ghost use Rattle.frame_file.specs.Reading.{Reads};
ghost use Rattle.tc_log.specs.Entered.{seen};
ghost use Rattle.log_file.specs.Stored.{IsStored};
ghost use Rattle.log_part.specs.declared.part.Part.{Part as PartValue};
ghost use Rattle.log_part.specs.declared.part.Part.TheVariants.{Whole as WholeLog};
ghost use Rattle.log_command.specs.LogReport.{IsUnread};
ghost use Rattle.log_command.specs.declared.following.Seam.TheVariants.{Another};
ghost use Rattle.log_command.specs.Following.{after, origin_of, lines_behind, seam_by, seam_line, HasPrinted, IsBegun, IsWaiting, IsAnew, IsTaken, IsReadable, IsUnlike};

use crate::event_lines::write_events;
use crate::further::further_frames;
use crate::refusing::refused;
use frame_file::read_frames;
use log_file::{Header, Stored, read_file};
use log_part::Part;
use report_texts::output::Output;
use std::alloc::{AllocError, Global};
use tc_log::event::Entry;
use tc_log::events::Events;

/// How far a log came: the serial number of the transaction that was admitted last, and the number that was given last.
#[derive(Clone, Copy, Debug, PartialEq, Eq)]
pub struct Reached {
    pub serial: u64,
    pub number: u64,
}

impl Reached {
    // The same behind one event more.
    fn after(self, event: &Entry<'_>) -> Reached
        ensures { result ≡ after self (seen event.now) }
    {
        match event {
            Entry::Admit { txn, .. } => Reached {
                serial: *txn,
                number: self.number,
            },
            Entry::Ask { number, .. } | Entry::Undo { number, .. } => Reached {
                serial: self.serial,
                number: *number,
            },
            Entry::Checkpoint { admitted, given } => Reached {
                serial: *admitted,
                number: *given,
            },
            _ => self,
        }
    }
}

/// How a log goes on behind another one whose place its file took.
#[derive(Clone, Copy, Debug, PartialEq, Eq)]
pub enum Seam {
    /// It begins anew behind the last event of that.
    Whole,
    /// So many transactions and numbers were logged between.
    Gap { transactions: u64, numbers: u64 },
    /// It isn't the same log.
    Another,
}

/// A log that is followed, and how far its file was read.
#[derive(Drop)]
pub struct Followed {
    header: Header,
    /// The number of the frame that isn't there yet.
    frames: u64,
    /// How many bytes the frames have.
    bytes: usize,
    /// How many bytes stood behind them when the file was read last.
    unfinished: usize,
    /// How many events were read.
    events: usize,
    /// The place of the first event that has a line.
    first: usize,
    /// What the checkpoint says with which the log begins, if it does.
    origin: Option<Reached>,
    reached: Reached,
}

/// What a file is read as that is to be followed.
#[derive(Drop)]
pub enum Begun {
    /// A log, and the lines of its events.
    Followed(Followed, String),
    Unread(Output),
}

// The number of the frame that isn't there yet.
fn frames_in(alloc: Global, file: &[u8]) -> Result<u64, AllocError>
    ensures { IfOk result (λ n. (payloads : List (List ℕ)) → Reads file.now payloads → n ≡ length payloads) }
{
    match read_frames(alloc, file) {
        Ok(found) => Ok(found.payloads.len() as u64),
        Err(_) => Err(AllocError),
    }
}

// The log of this header that a file has, if it is read.
fn read_own(alloc: Global, header: &Header, file: &[u8]) -> Option<Stored>
    ensures some { IfSome result (λ s. IsStored file.now s × (s.header ≡ header.now)) }
    ensures none { IfNone result (IsUnlike header.now file.now) }
{
    match read_file(alloc, file) {
        Ok(stored) => {
            if stored.header == *header {
                Some(stored)
            } else {
                None
            }
        }
        Err(_fault) => None,
    }
}

// What the checkpoint says with which a log of these events begins.
fn origin_of(events: &Events<'_>) -> Option<Reached>
    ensures { result ≡ origin_of events.now }
{
    match events.at(0) {
        Some(Entry::Checkpoint { admitted, given }) => Some(Reached {
            serial: admitted,
            number: given,
        }),
        _ => None,
    }
}

/// Begins to follow a log with these bytes of its file: from a part of its events on.
pub fn begin(alloc: Global, file: &[u8], part: Part) -> Result<Begun, AllocError>
    ensures { IfOk result (IsBegun part file.now) }
{
    let stored = match read_file(alloc, file) {
        Ok(stored) => stored,
        Err(fault) => return Ok(Begun::Unread(refused(alloc, fault)?)),
    };
    let events = stored.log.events();
    let mut followed = Followed {
        header: stored.header,
        frames: frames_in(alloc, file)?,
        bytes: file.len() - stored.unfinished,
        unfinished: stored.unfinished,
        events: 0,
        first: part.begin(events.len()),
        origin: origin_of(&events),
        reached: Reached {
            serial: 0,
            number: 0,
        },
    };
    let lines = followed.take(alloc, &events)?;
    Ok(Begun::Followed(followed, lines))
}

/// The report of a file that isn't read as a log, if it isn't.
pub fn unread(alloc: Global, file: &[u8]) -> Result<Option<Output>, AllocError>
    ensures some { IfOk result (λ o. IfSome o (λ r. IsUnread file.now r.status (string_bytes r.lines))) }
    ensures none { IfOk result (λ o. IfNone o (IsReadable file.now)) }
{
    match read_file(alloc, file) {
        Ok(_stored) => Ok(None),
        Err(fault) => Ok(Some(refused(alloc, fault)?)),
    }
}

impl Followed {
    /// How many bytes the frames have that were read.
    pub fn bytes(&self) -> usize
        ensures { result ≡ self.now.bytes }
    {
        self.bytes
    }

    /// How many bytes stood behind them.
    pub fn unfinished(&self) -> usize
        ensures { result ≡ self.now.unfinished }
    {
        self.unfinished
    }

    // Takes events that stand behind those that were read; the lines of those that have one.
    fn take(&mut self, alloc: Global, events: &Events<'_>) -> Result<String, AllocError>
        ensures lines { IfOk result (λ lines. string_bytes lines ≡ lines_behind self.old.first self.old.events events.now) }
        ensures taken { OnOk result (IsTaken self.old events.now self.new) }
    {
        let Some(count) = self.events.checked_add(events.len()) else {
            return Err(AllocError);
        };
        let skipped = self.first.saturating_sub(self.events).min(events.len());
        let mut lines = String::new(alloc);
        write_events(
            alloc,
            self.events + skipped,
            &events.behind(skipped),
            &mut lines,
        )?;
        self.events = count;
        'events: for place in 0..events.len() {
            self.reached = self.reached.after(&events.entry(place));
        }
        Ok(lines)
    }

    /// Reads on: these bytes of the file stand behind the frames that were read. The lines of the events that they have.
    /// Where the frames that came aren't a log's, none is read.
    pub fn read_on(&mut self, alloc: Global, bytes: &[u8]) -> Result<String, AllocError>
        ensures { (part : PartValue) (file printed : List ℕ) → HasPrinted part file self.old printed
            → IfOk result (λ lines. HasPrinted part (take self.old.bytes file ++ bytes.now) self.new (printed ++ string_bytes lines)
            ⊎ IsWaiting self.old bytes.now self.new (string_bytes lines)) }
    {
        let further = further_frames(alloc, &self.header, self.frames, bytes)?;
        let Some(stored) = read_own(alloc, &self.header, &further.file) else {
            self.unfinished = bytes.len();
            return Ok(String::new(alloc));
        };
        let Some(end) = self.bytes.checked_add(bytes.len() - further.unfinished) else {
            return Err(AllocError);
        };
        let lines = self.take(alloc, &stored.log.events())?;
        self.frames = further.next;
        self.bytes = end;
        self.unfinished = further.unfinished;
        Ok(lines)
    }

    /// Follows the log of another file, which took the place of this one's: each of its events has a line.
    pub fn anew(&self, alloc: Global, file: &[u8]) -> Result<Begun, AllocError>
        ensures begun { IfOk result (IsBegun WholeLog file.now) }
        ensures behind { (part : PartValue) (old printed : List ℕ) → HasPrinted part old self.now printed → IfOk result (IsAnew part file.now printed) }
    {
        begin(alloc, file, Part::Whole)
    }

    /// How a log goes on behind this one.
    pub fn seam(&self, next: &Followed) -> Seam
        ensures same { self.now.header ≡ next.now.header → result ≡ seam_by self.now.reached next.now.origin }
        ensures other { ¬ (self.now.header ≡ next.now.header) → result ≡ Another }
    {
        if self.header != next.header {
            return Seam::Another;
        }
        let Some(origin) = next.origin else {
            return Seam::Another;
        };
        let transactions = origin.serial.checked_sub(self.reached.serial);
        let numbers = origin.number.checked_sub(self.reached.number);
        match (transactions, numbers) {
            (Some(0), Some(0)) => Seam::Whole,
            (Some(transactions), Some(numbers)) => Seam::Gap {
                transactions,
                numbers,
            },
            _ => Seam::Another,
        }
    }
}

/// The line that says what wasn't seen between two logs, or none where nothing is missing.
pub fn seam_line(alloc: Global, seam: Seam) -> Result<String, AllocError>
    ensures { IfOk result (λ line. string_bytes line ≡ seam_line seam) }
{
    match seam {
        Seam::Whole => Ok(String::new(alloc)),
        Seam::Gap {
            transactions,
            numbers,
        } => format!(in alloc; "unseen {transactions} transactions {numbers} numbers\n"),
        Seam::Another => String::from_str(alloc, "another log\n"),
    }
}
