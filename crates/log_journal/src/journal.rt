// The journal.

ghost use Rattle.std.specs.Prelude.{◌≡◌, ◌++◌, ℕ, List, [], drop, reverse, Some, None, IfOk, IfErr, OnOk};
ghost use Rattle.tc_log.specs.declared.event.Event.{Event as EventValue};
ghost use Rattle.frame_file.specs.Device.{Only, LeavesOnly};
ghost use Rattle.frame_file.specs.Reading.{IsSettled};
ghost use Rattle.log_file.specs.declared.header.Header.{Header as HeaderValue};
ghost use Rattle.log_file.specs.Reading.{IsOpenFault, IsRefusal, IsAsItWas};
ghost use Rattle.log_file.specs.Found.{base_in};
ghost use Rattle.log_journal.specs.Keeping.{HasWritten, HasWrittenBehind, IsLeft, IsLogOf, Fails, told_as};
ghost use Rattle.log_journal.specs.Leaving.{left_now};

use frame_file::{Device, DeviceError, FrameFault};
use journals::{Journal, NotKept};
use log_file::{BaseRow, Header, LogFile, OpenFault, Recovered, begins_anew, is_base};
use std::alloc::Global;
use tc_log::log::Log;

// Why events weren't kept.
fn unkept(fault: FrameFault) -> NotKept
    ensures { result ≡ told_as fault }
{
    match fault {
        FrameFault::Device(DeviceError::Memory) => NotKept::Memory,
        FrameFault::Device(DeviceError::Failed | DeviceError::Unkept)
        | FrameFault::Full
        | FrameFault::Damaged(_) => NotKept::Failed,
    }
}

// Why a file isn't begun.
fn not_begun(fault: FrameFault) -> OpenFault
    ensures fault { (header : HeaderValue) (file : List ℕ) → IsOpenFault header file result }
    ensures refused { IsRefusal result → ⊥ }
{
    match fault {
        FrameFault::Device(error) => OpenFault::Frames(FrameFault::Device(error)),
        FrameFault::Full | FrameFault::Damaged(_) => OpenFault::Frames(FrameFault::Full),
    }
}

/// What a journal's file has.
#[derive(Drop)]
pub struct Restored {
    /// The records with which the data components begin, rising, where the log begins behind an earlier one.
    pub base: Option<Vec<BaseRow>>,
    pub log: Log,
}

/// A journal whose file has the log. Its data components end with the process: nothing is noted of them.
#[derive(Drop)]
pub struct LogJournal<D: Device> {
    alloc: Global,
    header: Header,
    file: LogFile<D>,
}

impl<D: Device + Drop> LogJournal<D> {
    /// The journal of a file of these bytes, which is begun where it has no frame, and what the file has.
    pub fn open(
        alloc: Global,
        device: D,
        header: Header,
        bytes: &[u8],
    ) -> Result<(LogJournal<D>, Restored), OpenFault>
        requires bytes { bytes.now ≡ D.seen device }
        // After a restart, what is read is what is on the disk.
        requires settled { Only (D.seen device) (D.may_leave device) }
        ensures kept { IfOk result (λ r. HasWrittenBehind D.seen D.may_leave header (base_in r.1.base) r.0.file (reverse r.1.log.events)) }
        ensures header { IfOk result (λ r. r.0.header ≡ header) }
        ensures log { IfOk result (λ r. IsLogOf header (D.seen device) (base_in r.1.base) (reverse r.1.log.events)) }
        ensures fault { IfErr result (IsOpenFault header (D.seen device)) }
    {
        let mut file = LogFile::new(device);
        let restored = LogJournal::begin(alloc, &mut file, &header, bytes)?;
        Ok((LogJournal::over(alloc, file, header), restored))
    }

    /// What a file of these bytes has, which is begun where it has no frame.
    pub fn begin(
        alloc: Global,
        file: &mut LogFile<D>,
        header: &Header,
        bytes: &[u8],
    ) -> Result<Restored, OpenFault>
        requires bytes { bytes.now ≡ D.seen file.old.frames.device }
        // After a restart, what is read is what is on the disk.
        requires settled { Only (D.seen file.old.frames.device) (D.may_leave file.old.frames.device) }
        ensures kept { IfOk result (λ r. HasWrittenBehind D.seen D.may_leave header.now (base_in r.base) file.new (reverse r.log.events)) }
        ensures log { IfOk result (λ r. IsLogOf header.now (D.seen file.old.frames.device) (base_in r.base) (reverse r.log.events)) }
        ensures fault { IfErr result (IsOpenFault header.now (D.seen file.old.frames.device)) }
        ensures refused { IfErr result (λ fault. IsRefusal fault
            → IsAsItWas D.seen D.may_leave D.kept file.old.frames.device file.new.frames.device) }
    {
        match file.open(alloc, header, bytes) {
            Ok(Recovered { base, log, notes }) => {
                drop(notes);
                Ok(Restored { base, log })
            }
            Err(OpenFault::Empty) => match file.create(alloc, header) {
                Ok(()) => Ok(Restored {
                    base: None,
                    log: Log::new(alloc),
                }),
                Err(fault) => Err(not_begun(fault)),
            },
            Err(fault) => Err(fault),
        }
    }

    /// The journal of a file that has the log.
    pub fn over(alloc: Global, file: LogFile<D>, header: Header) -> LogJournal<D>
        ensures file { result.file ≡ file }
        ensures header { result.header ≡ header }
    {
        LogJournal {
            alloc,
            header,
            file,
        }
    }

    /// A journal of a device whose file is empty, in which the log begins anew, behind an earlier one: with these
    /// records, with which the data components begin, and this log, whose oldest event is a checkpoint. `Err` says
    /// why it isn't kept, [`NotKept::Failed`] also where the records don't rise or the log doesn't begin
    /// so; until it is, a crash leaves a file that says no log.
    pub fn begin_anew(
        alloc: Global,
        device: D,
        header: Header,
        base: &[BaseRow],
        log: &Log,
    ) -> (LogJournal<D>, Result<(), NotKept>)
        requires empty { D.seen device ≡ [] }
        requires settled { Only (D.seen device) (D.may_leave device) }
        ensures kept { OnOk result.1 (HasWrittenBehind D.seen D.may_leave header (Some base.now) result.0.file (reverse log.now.events)) }
        ensures header { result.0.header ≡ header }
    {
        let mut journal = LogJournal::over(alloc, LogFile::new(device), header);
        let kept = journal.write_anew(base, log);
        (journal, kept)
    }

    // Writes these records and this log into its file, which is empty.
    fn write_anew(&mut self, base: &[BaseRow], log: &Log) -> Result<(), NotKept>
        requires { IsSettled D.seen D.may_leave self.old.file.frames [] }
        ensures kept { OnOk result (HasWrittenBehind D.seen D.may_leave self.old.header (Some base.now) self.new.file (reverse log.now.events)) }
        ensures header { self.new.header ≡ self.old.header }
    {
        if !is_base(base) || !begins_anew(log) {
            return Err(NotKept::Failed);
        }
        let Ok(rows) = log.print_from(self.alloc, 0) else {
            return Err(NotKept::Memory);
        };
        match self.file.begin_anew(self.alloc, &self.header, base, &rows) {
            Ok(()) => Ok(()),
            Err(fault) => Err(unkept(fault)),
        }
    }

    /// Keeps the events of a log from this place on, the oldest at 0, behind those that it has kept.
    /// Whatever keeps them from being on the disk, it is told as not kept: the file is to be opened again.
    pub fn keep_from(&mut self, log: &Log, place: usize) -> Result<(), NotKept>
        ensures kept { (before : List EventValue) → HasWritten D.seen D.may_leave self.old.header self.old.file before
            → OnOk result (HasWritten D.seen D.may_leave self.new.header self.new.file (before ++ drop place (reverse log.now.events))) }
        // Whatever comes of it, a crash at any moment of the call leaves all that the file had before it.
        ensures any_moment { (before : List EventValue) → HasWritten D.seen D.may_leave self.old.header self.old.file before
            → LeavesOnly D.moment D.left_since self.old.file.frames.device self.new.file.frames.device
            (IsLeft self.old.header before (drop place (reverse log.now.events))) }
        // It doesn't give up by itself.
        ensures failed { IfErr result (λ why. Fails D.faults self.old.file why self.new.file) }
        ensures header { self.new.header ≡ self.old.header }
    {
        let Ok(rows) = log.print_from(self.alloc, place) else {
            return Err(NotKept::Memory);
        };
        match self.file.append(self.alloc, &[], &rows) {
            Ok(()) => Ok(()),
            Err(fault) => Err(unkept(fault)),
        }
    }

    /// Whose log it is.
    pub fn header(&self) -> &Header
        ensures { result.now ≡ self.now.header }
    {
        &self.header
    }

    /// The device of its file.
    pub fn device(&self) -> &D
        ensures { result.now ≡ self.now.file.frames.device }
    {
        self.file.device()
    }
}

impl<D: Device + Drop> Journal for LogJournal<D> {
    ghost use Rattle.std.specs.Prelude.{true};

    ghost keeps = { λ journal. true };

    ghost has_kept = { λ journal events. HasWritten D.seen D.may_leave journal.header journal.file events };

    ghost moment = { λ journal. D.moment journal.file.frames.device };

    ghost left_since = { λ journal t left. D.left_since journal.file.frames.device t left };

    ghost leaves = { λ journal before more left. IsLeft journal.header before more left };

    ghost fails = { λ before why after. Fails D.faults before.file why after.file };

    ghost kept_now = { λ journal events left kept now. left_now D.seen D.may_leave journal.header journal.file events [] kept left
        (D.only_now journal.file.frames.device left now) };

    fn keeps(&self) -> bool {
        true
    }

    fn keep(&mut self, events: &Log) -> Result<(), NotKept> {
        self.keep_from(events, 0)
    }
}
