//! A log of other procedures that says nothing of them goes on under those of now.

ghost use Rattle.std.specs.Prelude.{◌≡◌, ℕ, List, IfOk, IfSome};
ghost use Rattle.log_file.specs.declared.header.Header.{Header as HeaderValue};
ghost use Rattle.procedure_digest.specs.Header.{header_of};
ghost use Rattle.tc_core.specs.Core.{Core, loaded_in};
ghost use Rattle.run_log.specs.Recovering.{IsOpened};
ghost use Rattle.run_log.specs.Checkpoint.{IsAsFound, IsCheckpointIn};
ghost use Rattle.run_log.specs.Upgrade.{IsUpgrade};

use crate::anew::{NewLog, open_beside, replace};
use crate::recovering::OpenLog;
use base_records::{BaseFault, base_fault};
use data_component::dc::Dc;
use disk_file::DiskFile;
use log_file::{BaseRow, Header, Stored, read_file};
use procedure_digest::{header_of, is_same_session};
use run_ground::stop::Stop;
use std::alloc::Global;
use std::fs::File;
use std::rt::Files;
use tc_core::state::TcState;
use tc_log::log::Log;

/// What comes of a log that was refused.
#[derive(Drop)]
pub enum Upgrade {
    /// It was of other procedures and said nothing of them. Now it is of those of the state.
    Done(OpenLog),
    /// It says nothing of its procedures, but its records don't fit the data components. The file is as it was.
    Unfit(BaseFault),
    /// It stays refused, and the file is as it was.
    Bound,
}

/// The records of a log and its checkpoint, where nothing follows that.
#[derive(Drop)]
struct StoredCheckpoint {
    header: Header,
    base: Vec<BaseRow>,
    log: Log,
}

// What a file of these bytes has, if that is a whole log of records and a checkpoint alone, of no more data components
// than this header's.
fn checkpoint_in(alloc: Global, header: &Header, bytes: &[u8]) -> Option<StoredCheckpoint>
    ensures { IfSome result (IsCheckpointIn header.now bytes.now) }
{
    let Ok(stored) = read_file(alloc, bytes) else {
        return None;
    };
    let Stored {
        header: own,
        base,
        log,
        notes,
        frames: _,
        unfinished,
    } = stored;
    drop(notes);
    let Some(base) = base else {
        drop(log);
        return None;
    };
    if unfinished != 0
        || log.len() != 1
        || header.dcs < own.dcs
        || !is_same_session(&own.session, &header.session)
    {
        drop(base);
        drop(log);
        return None;
    }
    Some(StoredCheckpoint {
        header: own,
        base,
        log,
    })
}

// Writes what was found under this header, in a file that takes the place of the old one.
fn rewrite<F: Files<File = File>>(
    rt: &F,
    alloc: Global,
    path: &str,
    old: &DiskFile,
    header: Header,
    found: StoredCheckpoint,
) -> Result<OpenLog, Stop>
    ensures same { IfOk result (IsAsFound found) }
    ensures opened { (start : Core) (file : List ℕ) → header ≡ header_of (loaded_in start) → IsCheckpointIn header file found
        → IfOk result (IsOpened start) }
{
    let StoredCheckpoint {
        header: own,
        base,
        log,
    } = found;
    let Some(beside) = open_beside(rt, alloc, path, &[header, own])? else {
        drop(base);
        drop(log);
        return Err(Stop::NotKept(None));
    };
    let new = NewLog {
        header,
        base: base.as_slice(),
        log: &log,
    };
    match replace(rt, alloc, path, beside, old, new) {
        Ok(journal) => Ok(OpenLog {
            journal,
            base: Some(base),
            log,
            dropped: 0,
        }),
        Err(stop) => {
            drop(base);
            drop(log);
            Err(stop)
        }
    }
}

// What comes of what was found: where the data components don't begin with its records nothing is written.
fn fitted<F: Files<File = File>>(
    rt: &F,
    alloc: Global,
    path: &str,
    old: &DiskFile,
    header: Header,
    found: StoredCheckpoint,
    dcs: &[Dc],
) -> Result<Upgrade, Stop>
    ensures { (start : Core) (file : List ℕ) → header ≡ header_of (loaded_in start) → IsCheckpointIn header file found
        → IfOk result (IsUpgrade start dcs.now) }
{
    if let Some(fault) = base_fault(found.base.as_slice(), dcs) {
        drop(found);
        return Ok(Upgrade::Unfit(fault));
    }
    match rewrite(rt, alloc, path, old, header, found) {
        Ok(opened) => Ok(Upgrade::Done(opened)),
        Err(stop) => Err(stop),
    }
}

/// Looks whether the log's file of this name, which was refused, is one of other procedures that says nothing of them: a
/// whole log of records and a checkpoint alone, as `run --checkpoint` leaves it. It goes on under the procedures of this
/// state, in a file that takes its place: a crash leaves the one or the other.
pub fn upgrade_log<F: Files<File = File>>(
    rt: &F,
    alloc: Global,
    path: &str,
    state: &TcState,
    dcs: &[Dc],
) -> Result<Upgrade, Stop>
    ensures { IfOk result (IsUpgrade state.now dcs.now) }
{
    let header = header_of(alloc, state.procs())?;
    let Ok((file, bytes)) = DiskFile::open(rt, alloc, path) else {
        return Ok(Upgrade::Bound);
    };
    let upgrade = match checkpoint_in(alloc, &header, &bytes) {
        Some(found) => fitted(rt, alloc, path, &file, header, found, dcs),
        None => Ok(Upgrade::Bound),
    };
    drop(bytes);
    drop(file);
    upgrade
}
