// A transaction component and its log's file behind a frame.

ghost use Rattle.std.specs.Prelude.{◌≡◌, ◌≢◌, [], replicate, None, IfOk, IfErr, OnErr, OnOk};
ghost use Rattle.transactions.specs.InFlight.{untold};
ghost use Rattle.embedding.specs.Gathering.{HasNothing, IsAsGathered};
ghost use Rattle.embedding.specs.Serving.{KeepsRequests, IsServed};
ghost use Rattle.embedding.specs.Sound.{IsSoundCore};
ghost use Rattle.embedding.specs.Filing.{Prepares, WhyNotPrepared, IsNew, TakesBack, HasTaken, WhyNotTaken, IsFileAnew, HasSameFile, IsFiled};
ghost use Rattle.embedding.specs.Filing.{kept_session, session_number, TellsSession, SetsSession, WhyNoSession};

use crate::call;
use crate::codes::{self, BAD_FRAME, BEGUN, DONE, SESSION_STAYS};
use crate::frame::Frame;
use crate::prepared::Prepared;
use crate::tc_part::TcPart;
use engine_log::EngineLog;
use std::alloc::{AllocError, Global};

/// A transaction component, how far its log is prepared for a file, and what of that isn't handed out.
pub struct FiledPart {
    alloc: Global,
    part: TcPart,
    file: EngineLog,
    prepared: Prepared,
}

// The session that a file says; where it says none, the one that was set.
fn kept_session(said: Option<u64>, set: Option<u64>) -> Option<u64>
    ensures { result ≡ kept_session said set }
{
    match said {
        Some(session) => Some(session),
        None => set,
    }
}

// As the frame says it: none is 0.
fn session_number(session: Option<u64>) -> u64
    ensures { result ≡ session_number session }
{
    match session {
        Some(session) => session,
        None => 0,
    }
}

impl FiledPart {
    /// For so many data components: nothing is loaded, and nothing has happened.
    pub fn new(alloc: Global, dcs: u16) -> Result<FiledPart, AllocError>
        ensures dcs { IfOk result (λ p. p.part.state.dcs ≡ dcs) }
        ensures procs { IfOk result (λ p. (p.part.state.procs ≡ []) × (p.part.state.names ≡ [])) }
        ensures events { IfOk result (λ p. p.part.state.events ≡ []) }
        ensures given_up { IfOk result (λ p. p.part.state.given_up ≡ []) }
        ensures sites { IfOk result (λ p. p.part.state.sites ≡ replicate dcs untold) }
        ensures requests { IfOk result (λ p. p.part.requests.items ≡ []) }
        ensures gathered { IfOk result (λ p. HasNothing p.part.gathered) }
        ensures file { IfOk result (λ p. p.file.header ≡ None) }
        ensures session { IfOk result (λ p. p.file.session ≡ None) }
        ensures prepared { IfOk result (λ p. p.prepared ≡ []) }
    {
        Ok(FiledPart {
            alloc,
            part: TcPart::new(alloc, dcs)?,
            file: EngineLog::new(alloc, None),
            prepared: Prepared::new(alloc),
        })
    }

    /// What the state's type keeps, told to a caller.
    pub fn known(&self)
        ensures { IsSoundCore self.now.part.state }
    {
        self.part.known();
    }

    /// Ends it. Open requests are given up.
    pub fn close(self) {
        let FiledPart {
            alloc: _,
            part,
            file,
            prepared,
        } = self;
        part.close();
        drop(file);
        drop(prepared);
    }

    fn prepare(&mut self, frame: &mut Frame) -> u32
        ensures done { result ≡ 0 → Prepares self.old self.new frame.new }
        ensures refused { result ≢ 0 → self.new ≡ self.old }
        ensures why { result ≢ 0 → WhyNotPrepared self.old result }
    {
        match self.prepared.prepare(&mut self.file, self.part.state()) {
            Ok(()) => {
                frame.word = self.prepared.len() as u64;
                DONE
            }
            Err(fault) => codes::ahead_code(fault),
        }
    }

    // Why it doesn't come back: the code, and the place. Else how many of the file's bytes are whole frames.
    fn come_back(&mut self) -> Result<u64, (u32, u64)>
        ensures new { OnOk result (IsNew self.old) }
        ensures taken { IfOk result (TakesBack self.old self.new) }
        ensures nothing { OnOk result (HasNothing self.new.part.gathered) }
        ensures prepared { self.new.prepared ≡ self.old.prepared }
        ensures requests { KeepsRequests self.old.part self.new.part }
        ensures refused { OnErr result (self.new.part.state ≡ self.old.part.state) }
        ensures gathered { OnErr result (IsAsGathered self.old.part.gathered self.new.part.gathered) }
        ensures file { OnErr result (self.new.file ≡ self.old.file) }
        ensures why { IfErr result (λ r. WhyNotTaken self.old r.0 r.1) }
        ensures code { IfErr result (λ r. r.0 ≢ 0) }
    {
        if self.file.is_begun() || !self.part.state().log().is_empty() {
            return Err((BEGUN, 0));
        }
        match self.part.file() {
            Ok(None) => {
                self.part.forget();
                Ok(0)
            }
            Ok(Some(back)) => {
                self.part.come_back(&back)?;
                let session = kept_session(back.file.session(), self.file.session());
                self.file = back.file;
                self.file.set_session(session);
                Ok(back.whole as u64)
            }
            Err(fault) => Err(codes::back_code(fault)),
        }
    }

    fn take_back(&mut self, frame: &mut Frame) -> u32
        ensures done { result ≡ 0 → HasTaken self.old self.new frame.new }
        ensures refused { result ≢ 0 → self.new.part.state ≡ self.old.part.state }
        ensures gathered { result ≢ 0 → IsAsGathered self.old.part.gathered self.new.part.gathered }
        ensures requests { KeepsRequests self.old.part self.new.part }
        ensures file { result ≢ 0 → HasSameFile self.old self.new }
        ensures why { result ≢ 0 → WhyNotTaken self.old result frame.new.place }
    {
        match self.come_back() {
            Ok(whole) => {
                frame.word = whole;
                DONE
            }
            Err((code, place)) => {
                frame.place = place;
                code
            }
        }
    }

    fn session(&self, frame: &mut Frame) -> u32
        ensures code { result ≡ 0 }
        ensures done { TellsSession self.now self.now frame.new }
    {
        frame.word = session_number(self.file.session());
        DONE
    }

    fn set_session(&mut self, frame: &Frame) -> u32
        ensures done { result ≡ 0 → SetsSession self.old frame.now self.new }
        ensures refused { result ≢ 0 → self.new ≡ self.old }
        ensures why { result ≢ 0 → WhyNoSession self.old frame.now result }
    {
        if frame.word == 0 {
            return BAD_FRAME;
        }
        if self.part.state().last_number() > 0 {
            return SESSION_STAYS;
        }
        if self.file.says_session() {
            return SESSION_STAYS;
        }
        self.file.set_session(Some(frame.word));
        DONE
    }

    // What is prepared from then on is a new file's.
    fn begin_anew(&mut self, frame: &mut Frame) -> u32
        ensures served { IsServed self.old.part frame.old result self.new.part frame.new }
        ensures done { result ≡ 0 → IsFileAnew self.old self.new }
        ensures file { result ≢ 0 → HasSameFile self.old self.new }
    {
        let code = self.part.serve(frame);
        if code == DONE {
            self.file = EngineLog::new(self.alloc, self.file.session());
            self.prepared.clear();
        }
        code
    }

    /// Makes the call that the frame has.
    pub fn serve(&mut self, frame: &mut Frame) -> u32
        ensures { IsFiled self.old frame.old result self.new frame.new }
    {
        match frame.what {
            call::FILE_AHEAD => self.prepare(frame),
            call::FILE_BYTES => {
                self.prepared.hand_out(frame);
                DONE
            }
            call::FILE_BACK => self.take_back(frame),
            call::SESSION => self.session(frame),
            call::SET_SESSION => self.set_session(frame),
            call::LOG_ANEW => self.begin_anew(frame),
            _ => self.part.serve(frame),
        }
    }
}
