//! A log's file that is opened, and what comes back from it.

ghost use Rattle.std.specs.Prelude.{◌≡◌, ℕ, List, length, Some, IfOk, IfSome, OnOk, string_bytes};
ghost use Rattle.frame_file.specs.Device.{Only};
ghost use Rattle.disk_file.specs.Disk.{disk_bytes, left_of};
ghost use Rattle.tc_core.specs.Core.{Core};
ghost use Rattle.tc_log.specs.declared.event.Event.{Event as EventValue};
ghost use Rattle.history.specs.Places.{Begins};
ghost use Rattle.std.specs.List.{All, list_any, position};
ghost use Rattle.data_component.specs.Store.{Store, is_overfull};
ghost use Rattle.coming_back.specs.Coming.{HasOnlyRows};
ghost use Rattle.log_file.specs.Reading.{IsOpenFault};
ghost use Rattle.procedure_digest.specs.Header.{header_of};
ghost use Rattle.tc_core.specs.Core.{loaded_in};
ghost use Rattle.run_log.specs.LogLines.{IsOpenRefusal};
ghost use Rattle.log_file.specs.Found.{base_in};
ghost use Rattle.run_ground.specs.Kept.{KeepsLog};
ghost use Rattle.run_log.specs.Joining.Opening.{IsUnfit, IsComing};
ghost use Rattle.run_log.specs.Recovering.{is_in_doubt, overfull, IsLogFor, IsLogRefusal, IsBegun, IsGoingBack, IsOpened, IsOpening};
ghost use Rattle.run_log.specs.declared.recovering.Recovery.TheVariants.{Refused};

pub use crate::log_lines::kind_refusal;
use crate::log_lines::{back_lines, back_refusal, open_refusal, other_refusal, overfull_refusal};
use crate::upgrade::{Upgrade, upgrade_log};
use base_records::{base_fault_line, begin as begin_with};
use coming_back::{ComeBackFault, Resumed, come_back};
use data_component::dc::Dc;
use disk_file::{DiskFile, OpenError};
use frame_file::{DeviceError, FrameFault};
use log_file::{BaseRow, Header, LogFile, OpenFault};
use log_journal::{LogJournal, Restored};
use procedure_digest::header_of;
use report_texts::output::Output;
use run_ground::ground::FileJournal;
use run_ground::stop::Stop;
use std::alloc::{AllocError, Global};
use std::fs::File;
use std::rt::Files;
use tc_core::state::TcState;
use tc_log::log::Log;

/// What a step of recovery comes to: what the run goes on with, or its refusal.
#[derive(Drop)]
pub enum Recovery<T> {
    Ready(T),
    Refused(Output),
}

/// A log's file that was opened.
#[derive(Drop)]
pub struct OpenLog {
    pub journal: FileJournal,
    /// The records with which its log begins, where that was cut.
    pub base: Option<Vec<BaseRow>>,
    pub log: Log,
    /// How many bytes at its end were cut off.
    pub dropped: usize,
}

/// What a run goes on from: what keeps its log, and the lines of what came back.
#[derive(Drop)]
pub struct RecoveredRun {
    pub journal: FileJournal,
    pub lines: String,
}

// Why a log's file of these bytes isn't read; none where something is to be cut off, and there is no place for it.
fn unread(
    alloc: Global,
    fault: &OpenFault,
    header: &Header,
    bytes: &[u8],
    device: &DiskFile,
) -> Result<Option<Output>, Stop>
    ensures { IfOk result (λ o. IfSome o (λ report.
        IsOpenRefusal header.now bytes.now fault.now (string_bytes report.lines) × (report.status ≡ 1))) }
{
    if let Some(line) = open_refusal(alloc, fault)? {
        return Ok(Some(Output::refusal(line)));
    }
    match fault {
        OpenFault::Other => {
            let line = other_refusal(alloc, header, bytes)?;
            Ok(Some(Output::refusal(line)))
        }
        OpenFault::Frames(FrameFault::Device(DeviceError::Unkept)) => Ok(None),
        OpenFault::Frames(FrameFault::Device(DeviceError::Memory)) => Err(Stop::Memory),
        _ => Err(Stop::NotKept(device.failure())),
    }
}

// What comes of opening it then.
fn refused(
    alloc: Global,
    fault: &OpenFault,
    header: &Header,
    bytes: &[u8],
    device: &DiskFile,
) -> Result<Option<Recovery<OpenLog>>, Stop>
    ensures { (start : Core) → header.now ≡ header_of (loaded_in start) → IsOpenFault header.now bytes.now fault.now
        → IfOk result (λ o. IfSome o (λ x. (empties : List Store) → IsOpening start empties x)) }
{
    match unread(alloc, fault, header, bytes, device)? {
        Some(report) => Ok(Some(Recovery::Refused(report))),
        None => Ok(None),
    }
}

// Where what is cut off from a log's file is kept.
#[derive(Clone, Copy)]
enum Dropped {
    // Nowhere: the file isn't opened where something is to be cut off.
    Nowhere,
    // In the file beside it.
    Beside,
}

// Opens a log's file, and reads it.
fn open_file<F: Files<File = File>>(
    rt: &F,
    alloc: Global,
    path: &str,
    place: Dropped,
) -> Result<(DiskFile, Vec<u8>), OpenError>
    ensures bytes { IfOk result (λ r. r.1.items ≡ disk_bytes r.0) }
    ensures settled { IfOk result (λ r. Only (disk_bytes r.0) (left_of r.0)) }
{
    let (mut file, bytes) = DiskFile::open(rt, alloc, path)?;
    match place {
        Dropped::Nowhere => Ok((file, bytes)),
        Dropped::Beside => {
            file.keep_dropped(rt, alloc, path)?;
            Ok((file, bytes))
        }
    }
}

// Why a log's file isn't opened.
fn unopened(alloc: Global, error: OpenError) -> Result<Output, Stop>
    ensures { (start : Core) (empties : List Store) → IfOk result (λ report.
        IsLogRefusal start empties (string_bytes report.lines) × (report.status ≡ 1)) }
{
    match error {
        OpenError::Unread(fault) => Err(Stop::Unread(fault)),
        OpenError::Unwritten(fault) => Err(Stop::NotKept(Some(fault))),
        OpenError::Memory => Err(Stop::Memory),
        OpenError::Busy => Ok(Output::refusal(String::from_str(alloc, "refused log Busy\n")?)),
        OpenError::Kind(kind) => Ok(Output::refusal(kind_refusal(alloc, kind)?)),
    }
}

// Reads a file of these bytes as a log's, and begins it where it is empty; none where something is to be cut off, and
// there is no place for it.
fn read_log(
    alloc: Global,
    file: DiskFile,
    header: Header,
    bytes: &[u8],
) -> Result<Option<Recovery<OpenLog>>, Stop>
    requires bytes { bytes.now ≡ disk_bytes file }
    requires settled { Only (disk_bytes file) (left_of file) }
    ensures { (start : Core) → header ≡ header_of (loaded_in start)
        → IfOk result (λ o. IfSome o (λ x. (empties : List Store) → IsOpening start empties x)) }
{
    let mut file = LogFile::new(file);
    match LogJournal::begin(alloc, &mut file, &header, bytes) {
        Ok(Restored { base, log }) => {
            let dropped = file.device().cut_off();
            Ok(Some(Recovery::Ready(OpenLog {
                journal: LogJournal::over(alloc, file, header),
                base,
                log,
                dropped,
            })))
        }
        Err(fault) => {
            let opening = refused(alloc, &fault, &header, bytes, file.device());
            drop(file);
            opening
        }
    }
}

// Opens the log's file of a state in which nothing has happened, and begins it where it is empty; none where
// something is to be cut off, and there is no place for it.
fn try_log<F: Files<File = File>>(
    rt: &F,
    alloc: Global,
    path: &str,
    state: &TcState,
    place: Dropped,
) -> Result<Option<Recovery<OpenLog>>, Stop>
    ensures { IfOk result (λ o. IfSome o (λ x. (empties : List Store) → IsOpening state.now empties x)) }
{
    let header = header_of(alloc, state.procs())?;
    match open_file(rt, alloc, path, place) {
        Ok((file, bytes)) => {
            let opening = read_log(alloc, file, header, &bytes);
            drop(bytes);
            opening
        }
        Err(error) => Ok(Some(Recovery::Refused(unopened(alloc, error)?))),
    }
}

/// Opens the log's file of a state in which nothing has happened, and begins it where it is empty. The file
/// beside it is made only where something is cut off.
pub fn open_log<F: Files<File = File>>(
    rt: &F,
    alloc: Global,
    path: &str,
    state: &TcState,
) -> Result<Recovery<OpenLog>, Stop>
    ensures { (empties : List Store) → IfOk result (IsOpening state.now empties) }
{
    if let Some(opening) = try_log(rt, alloc, path, state, Dropped::Nowhere)? {
        return Ok(opening);
    }
    match try_log(rt, alloc, path, state, Dropped::Beside)? {
        Some(opening) => Ok(opening),
        None => Err(Stop::NotKept(None)),
    }
}

// Keeps what a log has behind this place, if anything.
fn keep_behind(journal: &mut FileJournal, log: &Log, place: usize) -> Result<(), Stop>
    ensures { (start : List EventValue) → KeepsLog (Some journal.old) start → Begins start log.now.events → place ≡ length start
        → OnOk result (KeepsLog (Some journal.new) log.now.events) }
{
    if log.len() <= place {
        return Ok(());
    }
    match journal.keep_from(log, place) {
        Ok(()) => Ok(()),
        Err(why) => Err(Stop::unkept(why, journal.device().failure())),
    }
}

fn has_doubt(resumed: &[Resumed]) -> bool
    ensures { result ≡ list_any is_in_doubt resumed.now }
{
    resumed
        .iter()
        .any(|one| matches!(one, Resumed::InDoubt { .. }))
}

fn first_overfull(dcs: &[Dc]) -> Option<usize>
    ensures { result ≡ position is_overfull dcs.now }
{
    dcs.iter().position(|dc| dc.is_overfull())
}

// The first data component that has more records than it has room for, unless a transaction is in doubt: that
// may have been about to delete some.
fn overfull(dcs: &[Dc], resumed: &[Resumed]) -> Option<usize>
    ensures { result ≡ overfull dcs.now resumed.now }
{
    if has_doubt(resumed) {
        return None;
    }
    first_overfull(dcs)
}

// Comes back from a log that was opened, and keeps what that adds to it.
fn come(
    alloc: Global,
    state: &mut TcState,
    dcs: &mut [Dc],
    base: &Option<Vec<BaseRow>>,
    log: &Log,
    dropped: usize,
    path: &str,
    journal: &mut FileJournal,
) -> Result<Recovery<String>, Stop>
    requires { All HasOnlyRows dcs.old }
    ensures { (file : List ℕ) → IsLogFor state.old file (base_in base.now) log.now.events → KeepsLog (Some journal.old) log.now.events
        → IfOk result (IsComing state.old dcs.old (base_in base.now) log.now.events state.new dcs.new journal.new) }
{
    if let Some(fault) = begin_with(dcs, base, log)? {
        return Ok(Recovery::Refused(Output::refusal(base_fault_line(alloc, fault)?)));
    }
    let resumed = match come_back(alloc, state, dcs, log) {
        Ok(resumed) => resumed,
        Err(fault) => return unfit(alloc, &fault),
    };
    if let Some(dc) = overfull(dcs, resumed.as_slice()) {
        return Ok(Recovery::Refused(Output::refusal(overfull_refusal(alloc, dc)?)));
    }
    keep_behind(journal, state.log(), log.len())?;
    Ok(Recovery::Ready(back_lines(alloc, log.len(), dropped, path, resumed.as_slice())?))
}

// Why a log isn't gone on from.
fn unfit(alloc: Global, fault: &ComeBackFault) -> Result<Recovery<String>, Stop>
    ensures { IfOk result (IsUnfit fault.now) }
{
    match back_refusal(alloc, fault)? {
        Some(line) => Ok(Recovery::Refused(Output::refusal(line))),
        None => Err(Stop::Memory),
    }
}

/// Goes on from the log in a state in which nothing has happened, with new data components, and keeps what
/// that adds to the log.
pub fn go_back(
    alloc: Global,
    state: &mut TcState,
    dcs: &mut [Dc],
    opened: OpenLog,
    path: &str,
) -> Result<Recovery<RecoveredRun>, Stop>
    requires { All HasOnlyRows dcs.old }
    ensures { IsOpened state.old opened
        → IfOk result (IsGoingBack state.old dcs.old (base_in opened.base) opened.log.events state.new dcs.new) }
{
    let OpenLog {
        mut journal,
        base,
        log,
        dropped,
    } = opened;
    let coming = come(alloc, state, dcs, &base, &log, dropped, path, &mut journal);
    drop(base);
    drop(log);
    match coming {
        Ok(Recovery::Ready(lines)) => Ok(Recovery::Ready(RecoveredRun { journal, lines })),
        Ok(Recovery::Refused(report)) => {
            drop(journal);
            Ok(Recovery::Refused(report))
        }
        Err(fault) => {
            drop(journal);
            Err(fault)
        }
    }
}

// What comes of a log that was refused so.
fn if_upgraded<F: Files<File = File>>(
    rt: &F,
    alloc: Global,
    path: &str,
    state: &TcState,
    dcs: &[Dc],
    report: Output,
) -> Result<Recovery<OpenLog>, Stop>
    requires { IsOpening state.now dcs.now (Refused report) }
    ensures { IfOk result (IsOpening state.now dcs.now) }
{
    match upgrade_log(rt, alloc, path, state, dcs)? {
        Upgrade::Done(opened) => Ok(Recovery::Ready(opened)),
        Upgrade::Unfit(fault) => Ok(Recovery::Refused(Output::refusal(base_fault_line(
            alloc, fault,
        )?))),
        Upgrade::Bound => Ok(Recovery::Refused(report)),
    }
}

// Opens the log's file, also one of other procedures that says nothing of them.
fn open_or_upgrade<F: Files<File = File>>(
    rt: &F,
    alloc: Global,
    path: &str,
    state: &TcState,
    dcs: &[Dc],
) -> Result<Recovery<OpenLog>, Stop>
    ensures { IfOk result (IsOpening state.now dcs.now) }
{
    match open_log(rt, alloc, path, state)? {
        Recovery::Ready(opened) => Ok(Recovery::Ready(opened)),
        Recovery::Refused(report) => if_upgraded(rt, alloc, path, state, dcs, report),
    }
}

/// Opens the log's file and goes on from its log. One of other procedures goes on under those of the state if it says
/// nothing of its own ([`upgrade_log`]).
pub fn begin<F: Files<File = File>>(
    rt: &F,
    alloc: Global,
    path: &str,
    state: &mut TcState,
    dcs: &mut [Dc],
) -> Result<Recovery<RecoveredRun>, Stop>
    requires { All HasOnlyRows dcs.old }
    ensures { IfOk result (IsBegun state.old dcs.old state.new dcs.new) }
{
    match open_or_upgrade(rt, alloc, path, state, dcs)? {
        Recovery::Ready(opened) => go_back(alloc, state, dcs, opened, path),
        Recovery::Refused(report) => Ok(Recovery::Refused(report)),
    }
}
