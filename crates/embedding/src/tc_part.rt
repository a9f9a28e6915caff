// A transaction component behind a frame.

ghost use Rattle.std.specs.Prelude.{◌≡◌, ◌≢◌, ◌<◌, ◌≤◌, ⊤, [], ◌∷◌, length, take, vec_len, vec_capacity, slice_get, Some, None, IfOk, OnOk};
ghost use Rattle.std.specs.Prelude.{IfErr, OnErr, IfSome, IfNone, replicate};
ghost use Rattle.history.specs.Flight.{given, low_water};
ghost use Rattle.transactions.specs.InFlight.{untold};
ghost use Rattle.transactions.specs.Room.{each_one, total};
ghost use Rattle.transactions.specs.Standing.{standing};
ghost use Rattle.tc_core.specs.Recovery.{open_request, sent_in};
ghost use Rattle.tc_core.specs.Redo.{redo_reply, redo_behind};
ghost use Rattle.embedding.specs.Frames.{HasArgs, args_in, text_in};
ghost use Rattle.embedding.specs.Gathering.{HasNothing, IsAsGathered};
ghost use Rattle.embedding.specs.Sound.{IsSoundCore};
ghost use Rattle.embedding.specs.Telling.{TellsRedo};
ghost use Rattle.embedding.specs.Serving.{Loads, WhyNotLoaded, FindsProcedure, WhyNotFound, HasNoCall, Admits, WhyNotAdmitted, WhyNotAsked};
ghost use Rattle.embedding.specs.Serving.{Asks, Undoes, Resends, WhyNotResent, Answers, WhyNotAnswered, GivesUp, Ends, WhyNotEnded};
ghost use Rattle.embedding.specs.Serving.{KeepsRequests, Hears, WhyNotHeard, Redoes, HasRedone, WhyNotRedone, BeginsAnew, WhyNotBegun};
ghost use Rattle.embedding.specs.Serving.{SaysBlocked, ShowsEvent, WhyNoEvent, ShowsSite, IsServed, IsRequestOf, HasNoRequest, Recovers};
ghost use Rattle.embedding.specs.Serving.{WhyNotRecovered, Retakes, WhyNotRetaken, NoneIsOpen, ShowsOpen, SaysHeld, SaysAwaited, NoneWaits};
ghost use Rattle.embedding.specs.Serving.{ShowsWaiting, HasNoLock, ShowsLock, ShowsResult, WhyNoResult};
ghost use Rattle.log_file.specs.Stored.{MayBegin};
ghost use Rattle.engine_log.specs.Back.{IsBack, IsBackFault};
ghost use Rattle.embedding.specs.Filing.{own_header, ComesBack, WhyNotBack};

use crate::codes::{
    self, BAD_FRAME, DONE, DOWN, MEMORY, NO_DC, NO_PLACE, NO_SUCH_CALL, NO_TXN, NOT_OVER,
    NOTHING_OPEN, STRANGER,
};
use crate::frame::{Frame, bit_of};
use crate::gathered::Gathered;
use crate::opened::{first_open, first_waiting, locks_at, open_in};
use crate::{call, telling};
use call_results::{slot_count, slot_result};
use engine_log::{Back, BackFault, EngineLog};
use std::alloc::{AllocError, Global};
use tc_core::state::{Call, Request, Stranger, TcState};
use transactions::{Sent, all_covered, all_in_flight_covered, none_in_flight_conflict};

/// A transaction component, the requests that wait for a reply, and what is handed in for the next
/// procedure.
pub struct TcPart {
    alloc: Global,
    state: TcState,
    requests: Vec<Request>,
    gathered: Gathered,
}

// The place of this transaction's request.
fn find(requests: &[Request], txn: u64) -> Option<usize>
    ensures inside { IfSome result (λ k. k < length requests.now) }
    ensures found { IfSome result (IsRequestOf requests.now txn) }
    ensures absent { IfNone result (HasNoRequest requests.now txn) }
{
    for (k, request) in requests.iter().enumerate() {
        if request.txn() == txn {
            return Some(k);
        }
    }
    None
}

impl TcPart {
    /// For so many data components: nothing is loaded, and nothing has happened.
    pub fn new(alloc: Global, dcs: u16) -> Result<TcPart, AllocError>
        ensures dcs { IfOk result (λ p. p.state.dcs ≡ dcs) }
        ensures procs { IfOk result (λ p. (p.state.procs ≡ []) × (p.state.names ≡ [])) }
        ensures events { IfOk result (λ p. p.state.events ≡ []) }
        ensures given_up { IfOk result (λ p. p.state.given_up ≡ []) }
        ensures sites { IfOk result (λ p. p.state.sites ≡ replicate dcs untold) }
        ensures requests { IfOk result (λ p. p.requests.items ≡ []) }
        ensures gathered { IfOk result (λ p. HasNothing p.gathered) }
    {
        Ok(TcPart {
            alloc,
            state: TcState::new(alloc, dcs)?,
            requests: Vec::new(alloc),
            gathered: Gathered::new(alloc),
        })
    }

    /// What the state's type keeps, told to a caller.
    pub fn known(&self)
        ensures { IsSoundCore self.now.state }
    {
        self.state.known();
        all_covered();
        all_in_flight_covered();
        none_in_flight_conflict();
    }

    /// Ends it. Open requests are given up.
    pub fn close(self) {
        let TcPart {
            alloc: _,
            mut state,
            mut requests,
            gathered: _,
        } = self;
        while let Some(request) = requests.pop() {
            let _number = state.give_up(request);
        }
        requests.destroy_empty();
        drop(state);
    }

    fn load(&mut self, frame: &mut Frame) -> u32
        ensures refused { result ≢ 0 → self.new.state ≡ self.old.state }
        ensures why { result ≢ 0 → WhyNotLoaded self.old frame.old result frame.new }
        ensures done { result ≡ 0 → Loads self.old frame.old self.new frame.new }
        ensures gathered { IsAsGathered self.old.gathered self.new.gathered }
        ensures kept { KeepsRequests self.old self.new }
    {
        let verified = match self.gathered.verified(frame.word) {
            Ok(verified) => verified,
            Err(wrong) => {
                let (code, place) = wrong.code();
                frame.place = place;
                return code;
            }
        };
        let name = match frame.name() {
            Ok(name) => name,
            Err(code) => return code,
        };
        match self.state.load(name, verified) {
            Ok(number) => {
                frame.word = number as u64;
                DONE
            }
            Err(fault) => telling::put_loading(fault.why, frame),
        }
    }

    fn find(&self, frame: &mut Frame) -> u32
        ensures why { result ≢ 0 → WhyNotFound self.now frame.old result }
        ensures done { result ≡ 0 → FindsProcedure self.now frame.old frame.new }
    {
        let name = match frame.name() {
            Ok(name) => name,
            Err(code) => return code,
        };
        match self.state.find(name) {
            Some(number) => {
                frame.word = number as u64;
                DONE
            }
            None => codes::NO_PROCEDURE,
        }
    }

    fn recover(&mut self, frame: &mut Frame) -> u32
        ensures refused { result ≢ 0 → self.new.state ≡ self.old.state }
        ensures why { result ≢ 0 → WhyNotRecovered self.old result frame.new }
        ensures done { result ≡ 0 → Recovers self.old self.new }
        ensures taken { result ≡ 0 → HasNothing self.new.gathered }
        ensures gathered { result ≢ 0 → IsAsGathered self.old.gathered self.new.gathered }
        ensures kept { KeepsRequests self.old self.new }
    {
        let log = match self.gathered.log() {
            Ok(log) => log,
            Err(fault) => {
                let (code, place) = codes::read_code(fault);
                frame.place = place;
                return code;
            }
        };
        if telling::make_room_for(&mut self.requests, open_in(&log)).is_err() {
            return MEMORY;
        }
        match self.state.recover(&log, self.gathered.notes()) {
            Ok(()) => self.gathered.clear(),
            Err(fault) => {
                let (code, place) = codes::recover_code(fault);
                frame.place = place;
                code
            }
        }
    }

    /// What happened, and what is known of data components.
    pub fn state(&self) -> &TcState
        ensures { result.now ≡ self.now.state }
    {
        &self.state
    }

    /// What the file says whose bytes were handed in.
    pub fn file(&self) -> Result<Option<Back>, BackFault>
        ensures begun { IfOk result (λ o. IfNone o (MayBegin self.now.gathered.bytes.items)) }
        ensures back { IfOk result (λ o. IfSome o (IsBack (own_header self.now.state) self.now.gathered.bytes.items)) }
        ensures fault { IfErr result (IsBackFault (own_header self.now.state) self.now.gathered.bytes.items) }
    {
        EngineLog::read(self.alloc, &self.state, self.gathered.bytes())
    }

    /// Comes back from what a file says; then nothing is handed in any more. Else the code, and the place.
    pub fn come_back(&mut self, back: &Back) -> Result<(), (u32, u64)>
        ensures done { OnOk result (ComesBack self.old back.now self.new) }
        ensures why { IfErr result (λ r. WhyNotBack self.old back.now r.0 r.1) }
        ensures code { IfErr result (λ r. r.0 ≢ 0) }
        ensures refused { OnErr result (self.new.state ≡ self.old.state) }
        ensures taken { OnOk result (HasNothing self.new.gathered) }
        ensures gathered { OnErr result (IsAsGathered self.old.gathered self.new.gathered) }
        ensures kept { KeepsRequests self.old self.new }
    {
        if telling::make_room_for(&mut self.requests, open_in(&back.log)).is_err() {
            return Err((MEMORY, 0));
        }
        match self.state.recover(&back.log, back.file.notes()) {
            Ok(()) => {
                self.forget();
                Ok(())
            }
            Err(fault) => Err(codes::recover_code(fault)),
        }
    }

    /// Forgets what was handed in.
    pub fn forget(&mut self)
        ensures gathered { HasNothing self.new.gathered }
        ensures state { self.new.state ≡ self.old.state }
        ensures kept { KeepsRequests self.old self.new }
    {
        let _done = self.gathered.clear();
    }

    fn call_of(&self, frame: &Frame) -> Result<Call, u32>
        ensures call { IfOk result (λ call. (call.proc ≡ frame.now.word) × (call.args.items ≡ args_in frame.now)) }
        ensures few { IfOk result (λ _. HasArgs frame.now) }
        ensures refused { IfErr result (λ code. code ≢ 0) }
        ensures why { IfErr result (HasNoCall frame.now) }
    {
        let Some(args) = frame.arguments() else {
            return Err(BAD_FRAME);
        };
        let mut copied = Vec::new(self.alloc);
        match copied.extend_from_slice(args) {
            Ok(()) => Ok(Call {
                proc: frame.word as usize,
                args: copied,
            }),
            Err(_) => Err(MEMORY),
        }
    }

    fn admit(&mut self, frame: &mut Frame) -> u32
        ensures refused { result ≢ 0 → self.new.state ≡ self.old.state }
        ensures why { result ≢ 0 → WhyNotAdmitted self.old frame.old result frame.new }
        ensures done { result ≡ 0 → Admits self.old frame.old self.new frame.new }
        ensures gathered { IsAsGathered self.old.gathered self.new.gathered }
        ensures kept { KeepsRequests self.old self.new }
    {
        let call = match self.call_of(frame) {
            Ok(call) => call,
            Err(code) => return code,
        };
        let open = self.state.open_count().saturating_add(1);
        if telling::make_room_for(&mut self.requests, open).is_err() {
            return MEMORY;
        }
        match self.state.admit(&call) {
            Ok(txn) => {
                frame.txn = txn.serial();
                DONE
            }
            Err(refusal) => telling::put_refusal(refusal, frame),
        }
    }

    fn blocked(&self, frame: &mut Frame) -> u32
        ensures why { result ≢ 0 → HasNoCall frame.old result }
        ensures done { result ≡ 0 → SaysBlocked self.now frame.old frame.new }
    {
        let call = match self.call_of(frame) {
            Ok(call) => call,
            Err(code) => return code,
        };
        frame.word = u64::from(bit_of(self.state.blocked(&call)));
        DONE
    }

    fn ask(&mut self, frame: &mut Frame) -> u32
        ensures refused { result ≢ 0 → self.new.state ≡ self.old.state }
        ensures why { result ≢ 0 → WhyNotAsked self.old frame.old result }
        ensures done { result ≡ 0 → Asks self.old frame.old self.new frame.new }
        ensures gathered { IsAsGathered self.old.gathered self.new.gathered }
        ensures kept { result ≢ 0 → KeepsRequests self.old self.new }
    {
        let Some(txn) = self.state.find_txn(frame.txn) else {
            return NO_TXN;
        };
        if telling::make_room(&mut self.requests).is_err() {
            return MEMORY;
        }
        let asked = self.state.ask(txn);
        telling::tell(asked, &self.state, &mut self.requests, frame);
        DONE
    }

    fn undo(&mut self, frame: &mut Frame) -> u32
        ensures refused { result ≢ 0 → self.new.state ≡ self.old.state }
        ensures why { result ≢ 0 → WhyNotAsked self.old frame.old result }
        ensures done { result ≡ 0 → Undoes self.old frame.old self.new frame.new }
        ensures gathered { IsAsGathered self.old.gathered self.new.gathered }
        ensures kept { result ≢ 0 → KeepsRequests self.old self.new }
    {
        let Some(txn) = self.state.find_txn(frame.txn) else {
            return NO_TXN;
        };
        if telling::make_room(&mut self.requests).is_err() {
            return MEMORY;
        }
        let asked = self.state.undo_next(txn);
        telling::tell(asked, &self.state, &mut self.requests, frame);
        DONE
    }

    fn wire(&self, frame: &mut Frame) -> u32
        ensures why { result ≢ 0 → WhyNotResent self.now frame.old result }
        ensures done { result ≡ 0 → Resends self.now frame.old frame.new }
    {
        let Some(place) = find(self.requests.as_slice(), frame.txn) else {
            return NOTHING_OPEN;
        };
        match self.state.wire(&self.requests[place]) {
            Ok(wire) => {
                frame.put_wire(&wire);
                DONE
            }
            Err(_) => DOWN,
        }
    }

    fn retake(&mut self, frame: &mut Frame) -> u32
        ensures refused { result ≢ 0 → self.new.state ≡ self.old.state }
        ensures why { result ≢ 0 → WhyNotRetaken self.old frame.old result }
        ensures done { result ≡ 0 → Retakes self.old frame.old self.new frame.new }
        ensures gathered { IsAsGathered self.old.gathered self.new.gathered }
        ensures kept { result ≢ 0 → KeepsRequests self.old self.new }
    {
        let Some(txn) = self.state.find_txn(frame.txn) else {
            return NO_TXN;
        };
        if let Some(place) = find(self.requests.as_slice(), frame.txn) {
            telling::put_request(&self.state, &self.requests[place], frame);
            return DONE;
        }
        if telling::make_room(&mut self.requests).is_err() {
            return MEMORY;
        }
        let Some(request) = self.state.request(txn) else {
            return NOTHING_OPEN;
        };
        telling::put_request(&self.state, &request, frame);
        self.requests.push_reserved(request);
        DONE
    }

    fn answer(&mut self, frame: &mut Frame) -> u32
        ensures refused { result ≢ 0 → self.new.state ≡ self.old.state }
        ensures why { result ≢ 0 → WhyNotAnswered self.old frame.old result self.new }
        ensures done { result ≡ 0 → Answers self.old frame.old self.new }
        ensures gathered { IsAsGathered self.old.gathered self.new.gathered }
        ensures kept { result ≢ 0 → result ≢ STRANGER → KeepsRequests self.old self.new }
    {
        let Some(reply) = frame.reply() else {
            return BAD_FRAME;
        };
        let Some(place) = find(self.requests.as_slice(), frame.txn) else {
            return NOTHING_OPEN;
        };
        let request = self.requests.swap_remove(place);
        match self.state.answer(request, reply) {
            Ok(()) => DONE,
            Err(Stranger { request }) => {
                self.requests.push_reserved(request);
                STRANGER
            }
        }
    }

    fn give_up(&mut self, frame: &mut Frame) -> u32
        ensures refused { result ≢ 0 → self.new.state ≡ self.old.state }
        ensures why { result ≢ 0 → (result ≡ NOTHING_OPEN) × HasNoRequest self.old.requests.items frame.old.txn }
        ensures done { result ≡ 0 → GivesUp self.old frame.old self.new frame.new }
        ensures gathered { IsAsGathered self.old.gathered self.new.gathered }
        ensures kept { result ≢ 0 → KeepsRequests self.old self.new }
    {
        let Some(place) = find(self.requests.as_slice(), frame.txn) else {
            return NOTHING_OPEN;
        };
        let request = self.requests.swap_remove(place);
        frame.number = self.state.give_up(request);
        DONE
    }

    fn end(&mut self, frame: &mut Frame) -> u32
        ensures refused { result ≢ 0 → self.new.state ≡ self.old.state }
        ensures why { result ≢ 0 → WhyNotEnded self.old frame.old result }
        ensures done { result ≡ 0 → Ends self.old frame.old self.new frame.new }
        ensures gathered { IsAsGathered self.old.gathered self.new.gathered }
        ensures kept { KeepsRequests self.old self.new }
    {
        let Some(txn) = self.state.find_txn(frame.txn) else {
            return NO_TXN;
        };
        match self.state.end(txn) {
            Ok(receipt) => {
                telling::put_outcome(frame, receipt.outcome);
                frame.place = receipt.place as u64;
                DONE
            }
            Err(_) => NOT_OVER,
        }
    }

    // Whether the transaction's request is kept, as the frame says it.
    fn held(&self, txn: u64) -> u32
        ensures { SaysHeld self.now.requests.items txn result }
    {
        match find(self.requests.as_slice(), txn) {
            Some(_) => 1,
            None => 2,
        }
    }

    fn put_awaited(&self, txn: u64, sent: Option<Sent>, frame: &mut Frame)
        ensures says { SaysAwaited self.now.requests.items txn sent frame.new }
        ensures place { frame.new.place ≡ frame.old.place }
        ensures txn { frame.new.txn ≡ frame.old.txn }
        ensures word { frame.new.word ≡ frame.old.word }
        ensures count { frame.new.count ≡ frame.old.count }
    {
        match sent {
            None => frame.kind = 3,
            Some(sent) => telling::put_sent(&sent, self.held(txn), frame),
        }
    }

    fn open_from(&self, frame: &mut Frame) -> u32
        ensures none { result ≢ 0 → (result ≡ NO_PLACE) × NoneIsOpen self.now.state frame.old.place (length self.now.state.events) }
        ensures done { result ≡ 0 → ShowsOpen self.now frame.old frame.new }
    {
        let Some(opened) = first_open(&self.state, frame.place as usize) else {
            return NO_PLACE;
        };
        let serial = opened.txn.serial();
        frame.place = opened.place as u64;
        frame.txn = serial;
        frame.word = opened.proc as u64;
        let stranded = self.state.is_stranded(opened.txn);
        frame.count = bit_of(stranded);
        self.put_awaited(serial, self.state.waits_for(opened.txn), frame);
        DONE
    }

    fn waiting_from(&self, frame: &mut Frame) -> u32
        ensures none { result ≢ 0
            → (result ≡ NO_PLACE) × NoneWaits self.now.state frame.old.dc frame.old.place (length self.now.state.events) }
        ensures done { result ≡ 0 → ShowsWaiting self.now frame.old frame.new }
    {
        let Some((opened, sent)) = first_waiting(&self.state, frame.place as usize, frame.dc) else {
            return NO_PLACE;
        };
        let serial = opened.txn.serial();
        frame.place = opened.place as u64;
        frame.txn = serial;
        frame.word = opened.proc as u64;
        let stranded = self.state.is_stranded(opened.txn);
        frame.count = bit_of(stranded);
        telling::put_sent(&sent, self.held(serial), frame);
        DONE
    }

    fn lock_at(&self, frame: &mut Frame) -> u32
        ensures none { result ≢ 0 → (result ≡ NO_PLACE) × HasNoLock self.now.state frame.old.place frame.old.word }
        ensures done { result ≡ 0 → ShowsLock self.now frame.old frame.new }
    {
        let Some((opened, set)) = locks_at(&self.state, frame.place as usize) else {
            return NO_PLACE;
        };
        let Some(lock) = set.locks().get(frame.word as usize) else {
            return NO_PLACE;
        };
        frame.txn = opened.txn.serial();
        telling::put_lock(lock, frame);
        DONE
    }

    fn held_in_slot(&self, frame: &mut Frame) -> u32
        ensures why { result ≢ 0 → WhyNoResult self.now frame.old result }
        ensures done { result ≡ 0 → ShowsResult self.now frame.old frame.new }
    {
        let Some(txn) = self.state.find_txn(frame.txn) else {
            return NO_TXN;
        };
        let slot = frame.place as usize;
        let Some(held) = slot_result(&self.state, txn, slot) else {
            let declared = slot_count(&self.state, txn);
            return if slot < declared { NOT_OVER } else { NO_PLACE };
        };
        let value = held.value;
        frame.value = value;
        frame.word = u64::from(bit_of(held.is_there));
        DONE
    }

    fn open_count(&self, frame: &mut Frame) -> u32
        ensures code { result ≡ 0 }
        ensures done { frame.new.word ≡ total each_one self.now.state.events }
    {
        frame.word = self.state.open_count() as u64;
        DONE
    }

    fn log_length(&self, frame: &mut Frame) -> u32
        ensures code { result ≡ 0 }
        ensures done { frame.new.word ≡ length self.now.state.events }
    {
        frame.word = self.state.log().len() as u64;
        DONE
    }

    fn low_water(&self, frame: &mut Frame) -> u32
        ensures code { result ≡ 0 }
        ensures done { (frame.new.low_water ≡ low_water self.now.state.events) × (frame.new.number ≡ given self.now.state.events) }
    {
        frame.low_water = self.state.low_water();
        frame.number = self.state.last_number();
        DONE
    }

    fn log_bytes(&self, frame: &mut Frame) -> u32
        ensures why { result ≢ 0 → WhyNoEvent self.now frame.old result }
        ensures done { result ≡ 0 → ShowsEvent self.now frame.old frame.new }
    {
        let Some(event) = self.state.log().at(frame.place as usize) else {
            return NO_PLACE;
        };
        match telling::bytes_of(self.alloc, &event) {
            Ok(bytes) => {
                telling::put_bytes(frame, bytes.as_slice());
                DONE
            }
            Err(_) => MEMORY,
        }
    }

    fn site(&self, frame: &mut Frame) -> u32
        ensures why { result ≢ 0 → (result ≡ NO_DC) × (self.now.state.dcs ≤ frame.old.dc) }
        ensures done { result ≡ 0 → ShowsSite self.now frame.old frame.new }
    {
        if frame.dc >= self.state.dcs() {
            return NO_DC;
        }
        let site = self.state.site(usize::from(frame.dc));
        telling::put_site(&site, frame);
        DONE
    }

    fn told(&mut self, frame: &Frame) -> u32
        ensures refused { result ≢ 0 → self.new.state ≡ self.old.state }
        ensures why { result ≢ 0 → WhyNotHeard self.old frame.now result }
        ensures done { result ≡ 0 → Hears self.old frame.now self.new }
        ensures gathered { IsAsGathered self.old.gathered self.new.gathered }
        ensures kept { KeepsRequests self.old self.new }
    {
        match self.state.told(frame.dc, frame.news()) {
            Ok(()) => DONE,
            Err(fault) => codes::news_code(fault),
        }
    }

    fn redo_next(&mut self, frame: &mut Frame) -> u32
        ensures refused { result ≢ 0 → self.new.state ≡ self.old.state }
        ensures why { result ≢ 0 → TellsRedo (redo_reply self.old.state frame.old.dc) result frame.new }
        ensures done { result ≡ 0 → Redoes self.old frame.old result self.new frame.new }
        ensures gathered { IsAsGathered self.old.gathered self.new.gathered }
        ensures kept { KeepsRequests self.old self.new }
    {
        let redo = self.state.redo_next(frame.dc);
        telling::put_redo(redo, frame)
    }

    fn redo_behind(&self, frame: &mut Frame) -> u32
        ensures { TellsRedo (redo_behind self.now.state frame.old.dc frame.old.number) result frame.new }
    {
        let redo = self.state.redo_behind(frame.dc, frame.number);
        telling::put_redo(redo, frame)
    }

    fn redone(&mut self, frame: &Frame) -> u32
        ensures refused { result ≢ 0 → self.new.state ≡ self.old.state }
        ensures why { result ≢ 0 → WhyNotRedone self.old frame.now result }
        ensures done { result ≡ 0 → HasRedone self.old frame.now self.new }
        ensures gathered { IsAsGathered self.old.gathered self.new.gathered }
        ensures kept { KeepsRequests self.old self.new }
    {
        let Some(reply) = frame.reply() else {
            return BAD_FRAME;
        };
        match self.state.redone(frame.dc, &reply) {
            Ok(()) => DONE,
            Err(_) => STRANGER,
        }
    }

    fn begin_anew(&mut self, frame: &Frame) -> u32
        ensures refused { result ≢ 0 → self.new.state ≡ self.old.state }
        ensures why { result ≢ 0 → WhyNotBegun self.old frame.now result }
        ensures done { result ≡ 0 → BeginsAnew self.old frame.now self.new }
        ensures gathered { IsAsGathered self.old.gathered self.new.gathered }
        ensures kept { KeepsRequests self.old self.new }
    {
        let dcs = usize::from(self.state.dcs());
        let Ok(kept) = Vec::from_elem(self.alloc, frame.low_water, dcs) else {
            return MEMORY;
        };
        match self.state.checkpoint(kept.as_slice()) {
            Ok(()) => DONE,
            Err(fault) => codes::checkpoint_code(fault),
        }
    }

    /// Makes the call that the frame has.
    pub fn serve(&mut self, frame: &mut Frame) -> u32
        ensures { IsServed self.old frame.old result self.new frame.new }
    {
        match frame.what {
            call::BYTES => self.gathered.more_bytes(frame),
            call::SLOT => self.gathered.more_slots(frame),
            call::CLEAR => self.gathered.clear(),
            call::LOAD => self.load(frame),
            call::FIND => self.find(frame),
            call::NOTE => self.gathered.more_notes(frame),
            call::RECOVER => self.recover(frame),
            call::ADMIT => self.admit(frame),
            call::BLOCKED => self.blocked(frame),
            call::ASK => self.ask(frame),
            call::UNDO => self.undo(frame),
            call::WIRE => self.wire(frame),
            call::ANSWER => self.answer(frame),
            call::GIVE_UP => self.give_up(frame),
            call::END => self.end(frame),
            call::OPEN_COUNT => self.open_count(frame),
            call::LOG_LENGTH => self.log_length(frame),
            call::LOG_BYTES => self.log_bytes(frame),
            call::SITE => self.site(frame),
            call::TOLD => self.told(frame),
            call::REDO_NEXT => self.redo_next(frame),
            call::REDONE => self.redone(frame),
            call::LOG_ANEW => self.begin_anew(frame),
            call::LOW_WATER => self.low_water(frame),
            call::OPEN_FROM => self.open_from(frame),
            call::RETAKE => self.retake(frame),
            call::LOCK_AT => self.lock_at(frame),
            call::WAITING_FROM => self.waiting_from(frame),
            call::REDO_BEHIND => self.redo_behind(frame),
            call::RESULT => self.held_in_slot(frame),
            _ => NO_SUCH_CALL,
        }
    }
}
