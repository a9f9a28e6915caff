// What a file says, for a state to come back with.

ghost use Rattle.std.specs.Prelude.{◌≡◌, ◌≢◌, ◌↔◌, ◌≤◌, ◌-◌, ℕ, List, [], Some, length, IsTrue, IsFalse, IfOk, IfErr, IfSome, IfNone};
ghost use Rattle.frame_file.specs.declared.device.DeviceError.TheVariants.{Memory};
ghost use Rattle.frame_file.specs.declared.reading.FrameFault.TheVariants.{Device};
ghost use Rattle.log_file.specs.declared.reading.OpenFault.TheVariants.{Frames};
ghost use Rattle.log_file.specs.declared.header.Header.{Header as HeaderValue};
ghost use Rattle.log_file.specs.Bytes.{Rows, of_session};
ghost use Rattle.log_file.specs.Found.{base_in};
ghost use Rattle.log_file.specs.Stored.{MayBegin, IsStored};
ghost use Rattle.procedure_digest.specs.Header.{header_of};
ghost use Rattle.tc_core.specs.Core.{loaded_in};
ghost use Rattle.engine_log.specs.Handing.{HasNoRecords};
ghost use Rattle.engine_log.specs.Back.{IsBack, HasRecords, IsBackFault};
ghost use Rattle.engine_log.specs.declared.back.BackFault.TheVariants.{Unread};

use crate::ahead::EngineLog;
use frame_file::{DeviceError, FrameFault};
use log_file::{BaseRow, Header, OpenFault, Stored, read_file};
use procedure_digest::header_of_session;
use std::alloc::{AllocError, Global};
use tc_core::TcState;
use tc_log::log::Log;

/// Why a file isn't taken for a state's log.
#[derive(Clone, Copy, Debug, PartialEq, Eq)]
pub enum BackFault {
    /// It isn't read, or memory ran out; [`OpenFault::Other`] where it is no log of this format.
    Unread(OpenFault),
    /// It is the log of other procedures, or of another number of data components.
    Others,
    /// It begins with records of data components, which an engine's have themselves.
    Records,
}

impl From<AllocError> for BackFault {
    ghost from_gives = { λ _ e. e ≡ Unread (Frames (Device Memory)) };

    fn from(_: AllocError) -> Self {
        BackFault::Unread(OpenFault::Frames(FrameFault::Device(DeviceError::Memory)))
    }
}

/// What a file says.
#[derive(Drop)]
pub struct Back {
    pub log: Log,
    /// How many of its bytes are whole frames: what stands behind them is of one that a crash cut short.
    pub whole: usize,
    /// Goes on behind the whole frames, with what was noted of data components.
    pub file: EngineLog,
}

fn is_same(header: &Header, other: &Header) -> bool
    ensures { IsTrue result ↔ (header.now ≡ other.now) }
{
    header == other
}

// Whether a log begins with records of data components.
fn has_records(base: &Option<Vec<BaseRow>>) -> bool
    ensures no { IsFalse result → HasNoRecords (base_in base.now) }
    ensures yes { IsTrue result → (rows : Rows) × (base_in base.now ≡ Some rows) × (rows ≢ []) }
{
    match base {
        Some(rows) => !rows.is_empty(),
        None => false,
    }
}

// What goes on behind so many whole bytes of the file, unless its log begins with records.
fn behind(alloc: Global, whole: usize, stored: Stored) -> Option<Back>
    ensures back { (h : HeaderValue) (bytes : List ℕ) → IsStored bytes stored → stored.header ≡ of_session h stored.header.session
        → whole ≡ length bytes - stored.unfinished → IfSome result (IsBack h bytes) }
    ensures records { (h : HeaderValue) (bytes : List ℕ) → IsStored bytes stored → stored.header ≡ of_session h stored.header.session
        → IfNone result (HasRecords h bytes) }
{
    let Stored {
        header,
        base,
        log,
        notes,
        frames,
        unfinished: _,
    } = stored;
    if has_records(&base) {
        return None;
    }
    let file = EngineLog::behind(alloc, header, frames as u64, log.len(), notes);
    Some(Back { log, whole, file })
}

impl EngineLog {
    /// What the bytes of a file say, for [`TcState::recover`] on this state, in which nothing has happened yet: nothing where it is empty, or
    /// may be the beginning of a first frame.
    pub fn read(alloc: Global, tc: &TcState, bytes: &[u8]) -> Result<Option<Back>, BackFault>
        ensures begun { IfOk result (λ o. IfNone o (MayBegin bytes.now)) }
        ensures back { IfOk result (λ o. IfSome o (IsBack (header_of (loaded_in tc.now)) bytes.now)) }
        ensures fault { IfErr result (IsBackFault (header_of (loaded_in tc.now)) bytes.now) }
    {
        let stored = match read_file(alloc, bytes) {
            Ok(stored) => stored,
            Err(OpenFault::Empty) => return Ok(None),
            Err(fault) => return Err(BackFault::Unread(fault)),
        };
        let own = header_of_session(alloc, tc.procs(), stored.header.session)?;
        if !is_same(&stored.header, &own) {
            return Err(BackFault::Others);
        }
        let whole = bytes.len() - stored.unfinished;
        match behind(alloc, whole, stored) {
            Some(back) => Ok(Some(back)),
            None => Err(BackFault::Records),
        }
    }
}
