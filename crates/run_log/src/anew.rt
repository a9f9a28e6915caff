//! `run --checkpoint`: the log begins anew, in a file that takes the place of the one that has all of it.

ghost use Rattle.std.specs.Prelude.{◌≡◌, ◌≢◌, ◌++◌, List, Some, None, is_some, true, false, IsTrue, IfOk, IfErr, OnOk, string_bytes};
ghost use Rattle.data_component.specs.Store.{Store};
ghost use Rattle.tc_core.specs.Core.{Core};
ghost use Rattle.tc_world.specs.Cutting.{IsUncut};
ghost use Rattle.run_log.specs.declared.anew.Renewal.TheVariants.{Unwanted};
ghost use Rattle.run_log.specs.Anew.{AreAllRows, HasWrittenAnew, HasBegunAnew, IsBar, IsHeeded, IsRenewal, renewal_line};
ghost use Rattle.run_ground.specs.Kept.{IsOver, KeepsLog};
ghost use Rattle.run_ground.specs.declared.stop.Stop.TheVariants as Stop;
ghost use Rattle.run_ground.specs.Stops.{IsUnkept};

use data_component::dc::Dc;
use disk_file::{Beside, BesideError, DiskFile, FileFault, OpenError, PlaceError};
use log_file::{BaseRow, Header, may_be_left};
use log_journal::LogJournal;
use run_ground::ground::{FileJournal, Ground};
use run_ground::stop::Stop;
use state_lines::refusal_texts::checkpoint_fault_text;
use std::alloc::{AllocError, Global};
use std::fs::File;
use std::rt::Files;
use tc_core::beginning::CheckpointFault;
use tc_core::state::TcState;
use tc_log::log::Log;
use tc_world::cutting::cut;
use tc_world::step::Illegal;

/// Why a log doesn't begin anew, and goes on as it is.
#[derive(Clone, Copy, Debug, PartialEq, Eq)]
pub enum Bar {
    /// The transaction component's reason: transactions are open, in doubt or stuck, say.
    Fault(CheckpointFault),
    /// This data component can't forget what it has performed: it has more records than it has room for.
    Unforgettable(usize),
    /// The file beside LOG, under its name with `.new` behind it, isn't one that this program left there, or it
    /// can't be opened.
    InTheWay,
}

/// What came of a log that may begin anew.
#[derive(Clone, Copy, Debug, PartialEq, Eq)]
pub enum Renewal {
    /// It isn't to.
    Unwanted,
    /// It did.
    Begun,
    Barred(Bar),
}

// The line of what came of it.
fn renewal_line(alloc: Global, renewal: Renewal, state: &TcState) -> Result<String, AllocError>
    ensures { IfOk result (λ s. string_bytes s ≡ renewal_line state.now.events renewal) }
{
    match renewal {
        Renewal::Unwanted => Ok(String::new(alloc)),
        Renewal::Begun => {
            let admitted = state.admitted();
            let given = state.begun();
            format!(in alloc; "checkpoint {admitted} {given}\n")
        }
        Renewal::Barred(Bar::Fault(fault)) => {
            let fault = checkpoint_fault_text(alloc, &fault)?;
            format!(in alloc; "no checkpoint {fault}\n")
        }
        Renewal::Barred(Bar::Unforgettable(dc)) => {
            format!(in alloc; "no checkpoint NoRoom dc {dc}\n")
        }
        Renewal::Barred(Bar::InTheWay) => String::from_str(alloc, "no checkpoint LOG.new\n"),
    }
}

/// Adds the line of what came of it.
pub fn write_renewal(
    alloc: Global,
    renewal: Renewal,
    state: &TcState,
    lines: &mut String,
) -> Result<(), AllocError>
    ensures { OnOk result (string_bytes lines.new ≡ string_bytes lines.old ++ renewal_line state.now.events renewal) }
{
    lines.push_str(renewal_line(alloc, renewal, state)?.as_str())
}

// Why a log that isn't cut goes on as it is.
fn bar_of(why: Illegal) -> Result<Bar, Stop>
    ensures bar { (c : Core) (dcs : List Store) → IsUncut c dcs why → IfOk result (IsBar c dcs) }
    ensures fault { IfErr result (λ e. e ≡ Stop.Memory) }
{
    match why {
        Illegal::NotCut(fault) => Ok(Bar::Fault(fault)),
        Illegal::Unforgettable(dc) => Ok(Bar::Unforgettable(dc)),
        _ => Err(Stop::Memory),
    }
}

// The records of all data components.
fn base_of(alloc: Global, dcs: &[Dc]) -> Result<Vec<BaseRow>, AllocError>
    ensures { IfOk result (λ base. AreAllRows dcs.now base.items) }
{
    let mut base = Vec::new(alloc);
    'dcs: for dc in dcs {
        base.extend_from_slice(dc.rows())?;
    }
    Ok(base)
}

// The file beside the log's, if its bytes are what a run left that was cut short, under one of these headers, or none.
fn if_left(
    alloc: Global,
    headers: &[Header],
    beside: Beside,
    bytes: Vec<u8>,
) -> Result<Option<Beside>, AllocError> {
    'headers: for header in headers {
        if may_be_left(alloc, header, &bytes)? {
            return Ok(Some(beside));
        }
    }
    drop(beside);
    Ok(None)
}

// Opens the file beside the log's, if it may be written over: it is empty, or what a run left that was cut
// short, under one of these headers.
pub(crate) fn open_beside<F: Files<File = File>>(
    rt: &F,
    alloc: Global,
    path: &str,
    headers: &[Header],
) -> Result<Option<Beside>, AllocError> {
    match Beside::open(rt, alloc, path) {
        Ok((beside, bytes)) => if_left(alloc, headers, beside, bytes),
        Err(BesideError::Open(OpenError::Memory)) => Err(AllocError),
        Err(_) => Ok(None),
    }
}

// Why a file that was to be written anew isn't.
fn unopened(error: OpenError) -> Stop
    ensures { IsUnkept true result }
{
    match error {
        OpenError::Unread(fault) | OpenError::Unwritten(fault) => Stop::NotKept(Some(fault)),
        OpenError::Memory => Stop::Memory,
        OpenError::Busy | OpenError::Kind(_) => Stop::NotKept(None),
    }
}

// Why the new file isn't in the old one's place.
fn unplaced(error: PlaceError) -> Stop
    ensures { IsUnkept true result }
{
    match error {
        PlaceError::Kept(fault) => Stop::NotKept(Some(fault)),
        PlaceError::Unsynced(error) => Stop::NotKept(Some(FileFault::Io(error))),
    }
}

// What a log that begins anew has: whose it is, the records of its data components, and what follows them.
#[derive(Clone, Copy)]
pub(crate) struct NewLog<'a> {
    pub header: Header,
    pub base: &'a [BaseRow],
    pub log: &'a Log,
}

// Writes it into the file beside the old one.
fn write_beside<F: Files<File = File>>(
    rt: &F,
    alloc: Global,
    path: &str,
    beside: Beside,
    old: &DiskFile,
    new: NewLog,
) -> Result<FileJournal, Stop>
    ensures written { IfOk result (HasWrittenAnew new.entry.header new.entry.base.now new.entry.log.now.events) }
    ensures fault { IfErr result (IsUnkept true) }
{
    let device = match beside.emptied(rt, alloc, path, old) {
        Ok(device) => device,
        Err(error) => return Err(unopened(error)),
    };
    let (journal, kept) = LogJournal::begin_anew(alloc, device, new.header, new.base, new.log);
    match kept {
        Ok(()) => Ok(journal),
        Err(why) => {
            journal.device().give_up_place(rt, alloc, path);
            let failure = journal.device().failure();
            drop(journal);
            Err(Stop::unkept(why, failure))
        }
    }
}

// Writes it, and puts that file in the place of the old one.
pub(crate) fn replace<F: Files<File = File>>(
    rt: &F,
    alloc: Global,
    path: &str,
    beside: Beside,
    old: &DiskFile,
    new: NewLog,
) -> Result<FileJournal, Stop>
    ensures written { IfOk result (HasWrittenAnew new.entry.header new.entry.base.now new.entry.log.now.events) }
    ensures fault { IfErr result (IsUnkept true) }
{
    let journal = write_beside(rt, alloc, path, beside, old, new)?;
    match journal.device().take_place(rt, alloc, path, old) {
        Ok(()) => Ok(journal),
        Err(error) => {
            if let PlaceError::Kept(_) = error {
                journal.device().give_up_place(rt, alloc, path);
            }
            drop(journal);
            Err(unplaced(error))
        }
    }
}

// Writes the log and the records of the data components into a file that takes the place of the journal's.
fn write_anew<F: Files<File = File>>(
    rt: &F,
    alloc: Global,
    path: &str,
    beside: Beside,
    journal: &mut FileJournal,
    log: &Log,
    dcs: &[Dc],
) -> Result<(), Stop>
    ensures kept { OnOk result (HasBegunAnew dcs.now log.now.events journal.new) }
    ensures fault { IfErr result (IsUnkept true) }
{
    let base = base_of(alloc, dcs)?;
    let new = NewLog {
        header: *journal.header(),
        base: base.as_slice(),
        log,
    };
    let replaced = replace(rt, alloc, path, beside, journal.device(), new);
    drop(base);
    *journal = replaced?;
    Ok(())
}

// Takes the file beside the log's away again.
fn give_up<F: Files<File = File>>(
    rt: &F,
    alloc: Global,
    path: &str,
    beside: Beside,
    journal: &FileJournal,
) {
    if let Ok(new) = beside.emptied(rt, alloc, path, journal.device()) {
        new.give_up_place(rt, alloc, path);
    }
}

// Begins the log anew, if nothing bars it.
fn begin_anew<F: Files<File = File>>(
    rt: &F,
    alloc: Global,
    path: &str,
    state: &mut TcState,
    dcs: &mut Vec<Dc>,
    journal: &mut FileJournal,
) -> Result<Renewal, Stop>
    ensures goes { IfOk result (IsRenewal state.old dcs.old.items state.new dcs.new.items) }
    ensures kept { KeepsLog (Some journal.old) state.old.events → OnOk result (KeepsLog (Some journal.new) state.new.events) }
    ensures tried { IfOk result (λ renewal. renewal ≡ Unwanted → ⊥) }
    ensures fault { IfErr result (IsUnkept true) }
{
    let Some(beside) = open_beside(rt, alloc, path, &[*journal.header()])? else {
        return Ok(Renewal::Barred(Bar::InTheWay));
    };
    match cut(alloc, state, dcs) {
        Ok(()) => {
            write_anew(
                rt,
                alloc,
                path,
                beside,
                journal,
                state.log(),
                dcs.as_slice(),
            )?;
            Ok(Renewal::Begun)
        }
        Err(why) => {
            give_up(rt, alloc, path, beside, journal);
            Ok(Renewal::Barred(bar_of(why)?))
        }
    }
}

// Whether the log's file has more bytes than this.
fn is_over(journal: &Option<FileJournal>, over: Option<u64>) -> bool
    ensures wanted { IsTrue result → over ≢ None }
    ensures over { IsTrue result → IsOver journal.now over }
    ensures not { result ≡ false → IsOver journal.now over → ⊥ }
{
    match (journal, over) {
        (Some(journal), Some(over)) => journal.device().len() > over,
        _ => false,
    }
}

/// Begins the log anew where there is a journal whose file has more bytes than this, if that is given, and nothing
/// bars it: the file that has all of it stays where it is until the new one is synced, and a crash leaves the one
/// or the other. `Err` ends the run: then the state has a log that no file has.
pub fn renew<F: Files<File = File>>(
    rt: &F,
    alloc: Global,
    path: &str,
    over: Option<u64>,
    ground: &mut Ground,
) -> Result<Renewal, Stop>
    ensures goes { IfOk result (IsRenewal ground.old.state ground.old.dcs.items ground.new.state ground.new.dcs.items) }
    ensures unwanted { IfOk result (λ renewal. over ≡ None → renewal ≡ Unwanted) }
    ensures heeded { IfOk result (IsHeeded ground.new.journal over) }
    ensures needless { IfOk result (λ renewal. (IsOver ground.old.journal over → ⊥) → renewal ≡ Unwanted) }
    ensures kept { KeepsLog ground.old.journal ground.old.state.events
        → OnOk result (KeepsLog ground.new.journal ground.new.state.events) }
    ensures same { is_some ground.new.journal ≡ is_some ground.old.journal }
    ensures fault { IfErr result (IsUnkept (is_some ground.old.journal)) }
{
    if !is_over(&ground.journal, over) {
        return Ok(Renewal::Unwanted);
    }
    match &mut ground.journal {
        Some(journal) => begin_anew(rt, alloc, path, &mut ground.state, &mut ground.dcs, journal),
        None => Ok(Renewal::Unwanted),
    }
}
