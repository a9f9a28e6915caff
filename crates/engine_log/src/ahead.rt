// How far a log was handed out, and what comes next.

ghost use Rattle.std.specs.Prelude.{◌≡◌, ◌↔◌, ◌≤◌, ◌+◌, ◌^◌, ◌++◌, [], ◌∷◌, ℕ, List, Option, Some, None, length, drop, map, replicate, reverse, is_some, IsTrue, IfOk, IfErr, OnOk, OnErr};
ghost use Rattle.tc_core.specs.Core.{loaded_in};
ghost use Rattle.tc_core.specs.declared.recovery.SiteNote.TheVariants.{Untold};
ghost use Rattle.frame_file.specs.Frame.{framed, IsPayload};
ghost use Rattle.log_file.specs.declared.header.Header.{Header as HeaderValue};
ghost use Rattle.log_file.specs.Bytes.{of_session, front_of, batch_bytes};
ghost use Rattle.procedure_digest.specs.Header.{header_of};
ghost use Rattle.tc_log.specs.declared.event.Event.{Event};
ghost use Rattle.engine_log.specs.Notes.{known_of};
ghost use Rattle.engine_log.specs.Handing.{base_of, says_session, AreFrames, Fits, GoesOn, IsOneMore, IsAheadFault, IsAppendFault};
ghost use Rattle.engine_log.specs.declared.ahead.AheadFault.TheVariants.{Memory as NoMemory};

use crate::notes::changed;
use frame_file::write_frame;
use log_file::{
    Header, Note, based_header_bytes, batch_bytes, begins_anew, header_bytes, take_notes,
};
use procedure_digest::header_of_session;
use std::alloc::{AllocError, Global};
use tc_core::{SiteNote, TcState};

// The bytes of a frame's head.
const HEAD: usize = 24;

/// Why nothing is handed out.
#[derive(Clone, Copy, Debug, PartialEq, Eq)]
pub enum AheadFault {
    Memory,
    /// The file was begun for other procedures than those that are loaded.
    Others,
    /// It has 2^64 - 1 frames.
    Full,
}

impl From<AllocError> for AheadFault {
    ghost from_gives = { λ _ e. e ≡ NoMemory };

    fn from(_: AllocError) -> Self {
        AheadFault::Memory
    }
}

/// How far a transaction component's log was handed out for a file.
#[derive(Drop)]
pub struct EngineLog {
    alloc: Global,
    /// The session that the next header has.
    session: Option<u64>,
    /// The file's header, once that was handed out.
    header: Option<Header>,
    /// How many frames the file has.
    frames: u64,
    /// How many events.
    events: usize,
    /// Of each data component what its last note says.
    notes: Vec<SiteNote>,
}

// The bytes of a file's first frame: of a log that begins behind an earlier one with a base, which is empty.
fn front_bytes(alloc: Global, header: &Header, tc: &TcState) -> Result<Vec<u8>, AllocError>
    ensures { IfOk result (λ bytes. bytes.items ∷ [] ≡ front_of header.now (base_of (reverse tc.now.events))) }
{
    if begins_anew(tc.log()) {
        based_header_bytes(alloc, header, 0)
    } else {
        header_bytes(alloc, header)
    }
}

// How far a file is handed out that has its header alone.
fn begun(
    alloc: Global,
    session: Option<u64>,
    tc: &TcState,
    out: &mut Vec<u8>,
) -> Result<EngineLog, AllocError>
    ensures header { IfOk result (λ l. l.header ≡ Some (of_session (header_of (loaded_in tc.now)) session)) }
    ensures session { IfOk result (λ l. l.session ≡ session) }
    ensures frames { IfOk result (λ l. out.old.items ≡ []
        → AreFrames (of_session (header_of (loaded_in tc.now)) session) (base_of (reverse tc.now.events)) l out.new.items []) }
    ensures one { IfOk result (λ l. l.frames ≡ 1) }
    ensures notes { IfOk result (λ l. length l.notes.items ≡ tc.now.dcs) }
    ensures events { IfOk result (λ l. l.events ≡ 0) }
{
    let header = header_of_session(alloc, tc.procs(), session)?;
    let payload = front_bytes(alloc, &header, tc)?;
    let notes = vec![in alloc; SiteNote::Untold; usize::from(header.dcs)]?;
    write_frame(out, 0, &payload)?;
    Ok(EngineLog {
        alloc,
        session,
        header: Some(header),
        frames: 1,
        events: 0,
        notes,
    })
}

impl EngineLog {
    /// Nothing is handed out yet of this session. It takes no memory.
    pub fn new(alloc: Global, session: Option<u64>) -> EngineLog
        ensures header { result.header ≡ None }
        ensures session { result.session ≡ session }
    {
        EngineLog {
            alloc,
            session,
            header: None,
            frames: 0,
            events: 0,
            notes: Vec::new(alloc),
        }
    }

    /// Of a file with this header and its session, so many frames and events, and these notes.
    pub(crate) fn behind(
        alloc: Global,
        header: Header,
        frames: u64,
        events: usize,
        notes: Vec<SiteNote>,
    ) -> EngineLog
        ensures header { result.header ≡ Some header }
        ensures session { result.session ≡ header.session }
        ensures frames { result.frames ≡ frames }
        ensures events { result.events ≡ events }
        ensures notes { result.notes ≡ notes }
    {
        EngineLog {
            alloc,
            session: header.session,
            header: Some(header),
            frames,
            events,
            notes,
        }
    }

    /// The session that the next header has.
    pub fn session(&self) -> Option<u64>
        ensures { result ≡ self.now.session }
    {
        self.session
    }

    /// The next header has this session.
    pub fn set_session(&mut self, session: Option<u64>)
        ensures { self.new ≡ record self.old { session = session } }
    {
        self.session = session;
    }

    /// Whether the header that was handed out says a session.
    pub fn says_session(&self) -> bool
        ensures { result ≡ says_session self.now.header }
    {
        match &self.header {
            Some(header) => header.session.is_some(),
            None => false,
        }
    }

    /// Whether the file's header was handed out.
    pub fn is_begun(&self) -> bool
        ensures { result ≡ is_some self.now.header }
    {
        self.header.is_some()
    }

    /// Of each data component what was noted last; nothing before the header was handed out.
    pub fn notes(&self) -> &[SiteNote]
        ensures { result.now ≡ self.now.notes.items }
    {
        self.notes.as_slice()
    }

    // Whether there are as many data components and procedures as the file was begun for.
    fn fits(&self, header: &Header, tc: &TcState) -> bool
        ensures { IsTrue result ↔ Fits header.now self.now tc.now }
    {
        self.notes.len() == usize::from(tc.dcs()) && header.procedures == tc.procs().len() as u64
    }

    /// Puts behind `out` what has to be behind the file's end, and synced, before a wire of this state is carried,
    /// and before anyone is told how a call ended: the header, where nothing was handed out yet, and where notes or the log have
    /// changed since, one batch. Refused means that nothing changed.
    pub fn ahead(&mut self, tc: &TcState, out: &mut Vec<u8>) -> Result<(), AheadFault>
        ensures goes_on { OnOk result ((bytes : List ℕ) × (out.new.items ≡ out.old.items ++ bytes) × GoesOn self.old tc.now bytes self.new) }
        ensures refused { OnErr result ((self.new ≡ self.old) × (out.new.items ≡ out.old.items)) }
        ensures why { IfErr result (IsAheadFault self.old tc.now) }
    {
        let Some(header) = &self.header else {
            let mut bytes = Vec::new(self.alloc);
            let mut file = begun(self.alloc, self.session, tc, &mut bytes)?;
            file.append(tc, &mut bytes)?;
            out.extend_from_slice(&bytes)?;
            *self = file;
            return Ok(());
        };
        if !self.fits(header, tc) {
            return Err(AheadFault::Others);
        }
        self.append(tc, out)
    }

    // One batch more, if something has changed.
    fn append(&mut self, tc: &TcState, out: &mut Vec<u8>) -> Result<(), AheadFault>
        requires { length self.old.notes.items ≡ tc.now.dcs }
        ensures header { self.new.header ≡ self.old.header }
        ensures session { self.new.session ≡ self.old.session }
        ensures one_more { OnOk result ((bytes : List ℕ) × (out.new.items ≡ out.old.items ++ bytes) × IsOneMore self.old tc.now bytes self.new) }
        ensures refused { OnErr result ((self.new ≡ self.old) × (out.new.items ≡ out.old.items)) }
        ensures why { IfErr result (IsAppendFault self.old) }
    {
        let notes = changed(self.alloc, self.notes.as_slice(), tc)?;
        let rows = tc.log().print_from(self.alloc, self.events)?;
        if notes.is_empty() && rows.is_empty() {
            return Ok(());
        }
        let Some(frames) = self.frames.checked_add(1) else {
            return Err(AheadFault::Full);
        };
        let frame = batch_frame(self.alloc, self.frames, &notes, &rows)?;
        out.extend_from_slice(&frame)?;
        self.frames = frames;
        self.events = self.events.max(tc.log().len());
        take_notes(&mut self.notes, &notes);
        Ok(())
    }
}

// The frame of this number with these notes and rows.
fn batch_frame(
    alloc: Global,
    number: u64,
    notes: &[Note],
    rows: &[u8],
) -> Result<Vec<u8>, AllocError>
    ensures bytes { IfOk result (λ bytes. bytes.items ≡ framed number (batch_bytes (record { notes = notes.now; rows = rows.now }))) }
    ensures fits { IfOk result (λ _. IsPayload (batch_bytes (record { notes = notes.now; rows = rows.now }))) }
{
    let payload = batch_bytes(alloc, notes, rows)?;
    let mut frame = Vec::with_capacity(alloc, HEAD + payload.len())?;
    write_frame(&mut frame, number, &payload)?;
    Ok(frame)
}
