// The log that payloads say.

ghost use Rattle.std.specs.Prelude.{◌≡◌, ◌≢◌, ◌%◌, ◌++◌, ◌∷◌, [], length, reverse, IsTrue, IsFalse, IfOk, IfErr, IfSome, IfNone};
ghost use Rattle.frame_file.specs.Reading.{IsFound, payloads_in};
ghost use Rattle.frame_file.specs.declared.device.DeviceError.TheVariants.{Memory};
ghost use Rattle.frame_file.specs.declared.reading.FrameFault.TheVariants.{Device as DeviceFault};
ghost use Rattle.tc_log.specs.Reading.{ArePrinted, AreOnlyOnes};
ghost use Rattle.tc_log.specs.Entered.{seen};
ghost use Rattle.log_file.specs.declared.reading.OpenFault.TheVariants.{Frames as FramesFault, Empty as EmptyFault};
ghost use Rattle.log_file.specs.Bytes.{front_of};
ghost use Rattle.log_file.specs.Found.{base_in};
ghost use Rattle.log_file.specs.Reading.{IsStart, is_checkpoint, begins_anew, IsBehind, Says, IsSayFault, IsBegun, IsOpenFault};
ghost use Rattle.log_file.specs.Joining.Fields.{IsNotBehind, IsRowsFault};

use crate::base::{BaseRow, read_base};
use crate::gathering::gather;
use crate::header::{Header, base_count, is_begun, is_header};
use frame_file::{DeviceError, Found, FrameFault};
use std::alloc::{AllocError, AllocFailed, Global};
use tc_core::SiteNote;
use tc_log::event::Entry;
use tc_log::log::Log;
use tc_log::read::LogFault;

/// Why a file isn't read as a log.
#[derive(Clone, Copy, Debug, PartialEq, Eq)]
pub enum OpenFault {
    /// Its frames aren't read, or memory ran out.
    Frames(FrameFault),
    /// It is empty, or the beginning of this header's frame: a log is begun by [`crate::LogFile::create`].
    Empty,
    /// The first frame isn't this header's: another format, number of data components, or other
    /// procedures. Or there is no frame, and the file is no beginning of this header's.
    Other,
    /// The base of a log that begins behind an earlier one isn't whole: the frame of this number, the
    /// header's being 0, isn't there, or is the first that is no part of the base, or in which its records
    /// don't rise. Or it is whole, this is the frame behind it, and the log doesn't begin with a checkpoint.
    NoBase(usize),
    /// The frame of this number, the header's being 0, is the first that isn't a batch: its notes are cut
    /// short or of no kind, one is of a data component that there isn't, or its rows are no whole number.
    NoBatch(usize),
    /// The row of this place in the log, counted from 0, is the first that is no event's.
    Row(usize),
}

impl From<FrameFault> for OpenFault {
    ghost from_gives = { λ fault e. e ≡ FramesFault fault };

    fn from(fault: FrameFault) -> Self {
        OpenFault::Frames(fault)
    }
}

impl From<DeviceError> for OpenFault {
    ghost from_gives = { λ error e. e ≡ FramesFault (DeviceFault error) };

    fn from(error: DeviceError) -> Self {
        OpenFault::Frames(FrameFault::Device(error))
    }
}

impl From<AllocError> for OpenFault {
    ghost from_gives = { λ _ e. e ≡ FramesFault (DeviceFault Memory) };

    fn from(_: AllocError) -> Self {
        OpenFault::Frames(FrameFault::Device(DeviceError::Memory))
    }
}

impl<T: Drop> From<AllocFailed<T>> for OpenFault {
    ghost from_gives = { λ _ e. e ≡ FramesFault (DeviceFault Memory) };

    fn from(_: AllocFailed<T>) -> Self {
        OpenFault::Frames(FrameFault::Device(DeviceError::Memory))
    }
}

/// What a log's file says, for a state to come back with.
#[derive(Drop)]
pub struct Recovered {
    /// The records with which data components begin, rising, where the log begins behind an earlier one.
    pub base: Option<Vec<BaseRow>>,
    pub log: Log,
    /// Of each data component what its last note says.
    pub notes: Vec<SiteNote>,
}

// The log of a whole number of rows.
fn log_of(alloc: Global, rows: &[u8]) -> Result<Log, OpenFault>
    requires { length rows.now % 96 ≡ 0 }
    ensures printed { IfOk result (λ log. ArePrinted (reverse log.events) rows.now) }
    ensures only { IfOk result (λ log. AreOnlyOnes (reverse log.events) rows.now) }
    ensures fault { IfErr result (IsRowsFault rows.now) }
{
    match Log::read(alloc, rows) {
        Ok(log) => Ok(log),
        Err(LogFault::Kind(place)) => Err(OpenFault::Row(place)),
        Err(LogFault::Memory) => Err(OpenFault::Frames(FrameFault::Device(DeviceError::Memory))),
        Err(LogFault::Length) => unreachable!(),
    }
}

fn is_checkpoint(event: &Entry<'_>) -> bool
    ensures { result ≡ is_checkpoint (seen event.now) }
{
    matches!(event, Entry::Checkpoint { .. })
}

/// Whether a log can stand behind base records: its oldest event is a checkpoint.
pub fn begins_anew(log: &Log) -> bool
    ensures { result ≡ begins_anew (reverse log.now.events) }
{
    match log.at(0) {
        Some(event) => is_checkpoint(&event),
        None => false,
    }
}

// Whether a log with this base may have these events.
fn may_follow(base: &Option<Vec<BaseRow>>, log: &Log) -> bool
    ensures yes { IsTrue result → IsBehind (base_in base.now) (reverse log.now.events) }
    ensures no { IsFalse result → IsNotBehind (base_in base.now) (reverse log.now.events) }
{
    match base {
        Some(_rows) => begins_anew(log),
        None => true,
    }
}

// The base that payloads begin with, and the payloads behind it, unless the first isn't this header's.
fn read_front<'a>(
    alloc: Global,
    header: &Header,
    payloads: &'a [Vec<u8>],
) -> Result<(Option<Vec<BaseRow>>, &'a [Vec<u8>]), OpenFault>
    ensures starts { IfOk result (λ r. IsStart (base_in r.0)) }
    ensures is { IfOk result (λ r. payloads_in payloads.now ≡ front_of header.now (base_in r.0) ++ payloads_in r.1.now) }
    ensures fault { IfErr result (IsSayFault header.now (payloads_in payloads.now)) }
{
    let Some((first, rest)) = payloads.split_first() else {
        return Err(OpenFault::Empty);
    };
    if is_header(alloc, header, first)? {
        return Ok((None, rest));
    }
    let Some(count) = base_count(alloc, header, first)? else {
        return Err(OpenFault::Other);
    };
    let (base, rest) = read_base(alloc, count, rest)?;
    Ok((Some(base), rest))
}

/// What payloads say which begin with this header's.
pub(crate) fn read_log(
    alloc: Global,
    header: &Header,
    payloads: &[Vec<u8>],
) -> Result<Recovered, OpenFault>
    ensures says { IfOk result (λ r. Says header.now (payloads_in payloads.now) (base_in r.base) r.notes.items (reverse r.log.events)) }
    ensures fault { IfErr result (IsSayFault header.now (payloads_in payloads.now)) }
{
    let (base, batches) = read_front(alloc, header, payloads)?;
    let front = payloads.len() - batches.len();
    let gathered = gather(alloc, header.dcs, front, batches)?;
    let log = log_of(alloc, &gathered.rows)?;
    if !may_follow(&base, &log) {
        return Err(OpenFault::NoBase(front));
    }
    Ok(Recovered {
        base,
        log,
        notes: gathered.known,
    })
}

/// What a file's frames say; none where it is empty, or the beginning of this header's
/// frame.
pub fn read_own(
    alloc: Global,
    header: &Header,
    bytes: &[u8],
    found: &Found,
) -> Result<Option<Recovered>, OpenFault>
    requires { IsFound bytes.now found.now }
    ensures says { IfOk result (λ o. IfSome o (λ r.
        Says header.now (payloads_in found.now.payloads.items) (base_in r.base) r.notes.items (reverse r.log.events))) }
    ensures none { IfOk result (λ o. IfNone o ((payloads_in found.now.payloads.items ≡ []) × IsBegun header.now bytes.now)) }
    ensures fault { IfErr result (IsOpenFault header.now bytes.now) }
    ensures refused { IfErr result (λ fault. fault ≢ EmptyFault) }
{
    if found.payloads.is_empty() {
        if is_begun(alloc, header, bytes)? {
            return Ok(None);
        }
        return Err(OpenFault::Other);
    }
    Ok(Some(read_log(alloc, header, &found.payloads)?))
}
