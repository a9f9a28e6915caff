// What lies under the lock: the state, how far each call has come, and what of the log was handed over
// to be kept.

ghost use Rattle.std.specs.Prelude.{◌≡◌, ◌↔◌, ◌+◌, ◌<◌, ◌≤◌, ◌++◌, ◌∷◌, true, List, ℕ, [], length};
ghost use Rattle.std.specs.Prelude.{replicate, reverse, Some, None, slice_get, OnOk, OnErr, IfOk};
ghost use Rattle.std.specs.Prelude.{IfErr, IfSome, IfNone, IsSome, IsTrue, vec_capacity, map, false};
ghost use Rattle.tc_core.specs.AtOnce.{HasRunAtOnce};
ghost use Rattle.tc_core.specs.Core.{Core, Asking};
ghost use Rattle.tc_core.specs.Replies.{ask_reply, after_ask, end_of};
ghost use Rattle.tc_core.specs.Admission.{call_of, IsRefused};
ghost use Rattle.tc_core.specs.GivingUp.{IsOpenHere};
ghost use Rattle.access_slots.specs.Locks.{target};
ghost use Rattle.worker_pool.specs.Answers.{place_of, AnswerFits, AdmitRefusalFits};
ghost use Rattle.worker_pool.specs.Doubts.{IsDoubtful, IsGoing};
ghost use Rattle.worker_pool.specs.Joining.Ups.{IsUpFor};
ghost use Rattle.worker_pool.specs.Joining.Untried.{IsUntried};
ghost use Rattle.worker_pool.specs.Wires.{IsItsOwn, IsToRedo, IsOfRun, IsSentBy};
ghost use Rattle.worker_pool.specs.Restarts.{StaysKnown, AreKnown, IsKnownRedone};
ghost use Rattle.worker_pool.specs.Joining.Seen.{IsAnswered};

use crate::acknowledgement::ReadyAnswer;
use crate::answer::{Answer, Progress, answer_for, answers_of};
use crate::attempt::{Attempt, is_sent_for};
use crate::batch::Batch;
use crate::handed::{Count, Handed};
use crate::performing::{CallPerformer, RunPerformer};
use crate::report::Report;
use crate::run_spec::RunSpec;
use access_slots::op::{News, Reply, Wire};
use lock_table::table::Busy;
use std::alloc::AllocError;
use std::marker::{Model, PhantomData};
use tc_core::procs::Procs;
use tc_core::state::{
    Asked, Call, Down, NotOver, Redo, RedoMismatch, Refusal, Request, Stranger, TcState, TxnId,
};

/// What is to be done for a call without the lock.
pub enum Next {
    /// It was admitted: the gate is told.
    Begun,
    /// A wire is to be carried.
    Carry,
    /// Nothing came back that answers what was carried: the link is asked for news.
    Unanswered,
    /// A transaction stands in its way: one that leaves is waited for.
    Busy,
    /// Its answer stands, and is ready.
    Over,
    /// It isn't admitted, since memory ran out before it. Its answer stands, and nobody is told.
    LeftOut,
}

/// The state, how far each call has come, and what of the log was handed over to be kept.
#[derive(Drop)]
pub struct PoolState<J: RunSpec> {
    state: TcState,
    progress: Vec<Progress>,
    tries: u64,
    taken: usize,
    touched: bool,
    // Whether a call was refused for want of memory. None is admitted behind it.
    is_out_of_memory: bool,
    handed: Handed<J>,
    // How many events of the log there were when something was handed over last.
    copied: usize,
    of: PhantomData<J>,
}

impl<J: RunSpec> Model for PoolState<J> {
    ghost use Rattle.worker_pool.specs.Joining.Seen.{Seen};

    ghost Value = { Seen };

    ghost use Rattle.std.specs.Prelude.{◌≡◌, false};
    ghost use Rattle.worker_pool.specs.Kept.{Keeps};
    ghost use Rattle.worker_pool.specs.Joining.Handing.{IsHanded};

    ghost view = { λ d. record {
      state = d.state;
      progress = d.progress.items;
      is_touched = d.touched;
      is_out_of_memory = d.is_out_of_memory;
    } };

    ghost invariant = { λ d. Keeps J.start J.calls d.state d.progress.items × (d.touched ≡ false → d.state ≡ J.start)
        × IsHanded J.start.events d.handed d.copied d.state.events };
}

impl<J: RunSpec> PoolState<J> {
    ghost use Rattle.worker_pool.specs.Joining.Moves.{MovesOn, IsHeldBy, Sends, GoesOnSending};
    ghost use Rattle.worker_pool.specs.Joining.Seen.{IsAnswered, AnswersStay};
    ghost use Rattle.worker_pool.specs.Joining.Handing.{events_of};
    ghost use Rattle.worker_pool.specs.Joining.Leaving.{HasStood};
    ghost use Rattle.worker_pool.specs.Journals.{HasGoneOn};
    ghost use Rattle.worker_pool.specs.Reports.{Reports};

    /// Each call waits, nothing was done, and nothing was handed over. A request will be sent so often at
    /// most.
    pub fn new(
        state: TcState,
        progress: Vec<Progress>,
        tries: u64,
        handed: Handed<J>,
    ) -> PoolState<J>
        requires start { state ≡ J.start }
        requires waiting { progress.items ≡ replicate (length J.calls) Progress.Waiting }
        requires handed { handed ≡ [] }
    {
        let copied = state.log().len();
        PoolState {
            state,
            progress,
            tries,
            taken: 0,
            touched: false,
            is_out_of_memory: false,
            handed,
            copied,
            of: PhantomData,
        }
    }

    /// Copies what the log has behind what was handed over before into the batch, and answers all that is
    /// handed over then, and how many events the log has. `known` is what was handed over before, as who
    /// keeps it knows it; where that isn't what the pool's state knows, nothing is handed over. Only want of memory is
    /// an error.
    pub fn hand_over(
        &mut self,
        count: &Count<J>,
        known: &Handed<J>,
        batch: &mut Batch,
    ) -> Result<Option<(Handed<J>, usize)>, AllocError>
        ensures more { IfOk result (λ some. IfSome some (λ r. r.0 ≡ known.now ++ batch.new ∷ [])) }
        ensures all { IfOk result (λ some. IfSome some (λ r. self.old.state.events ≡ reverse (events_of r.0) ++ J.start.events)) }
        ensures events { IfOk result (λ some. IfSome some (λ r. r.1 ≡ length J.start.events + length (events_of r.0))) }
        ensures stood { IfOk result (λ some. IfSome some (λ r. HasStood J.start r.0)) }
        ensures same { self.new ≡ self.old }
    {
        self.known();
        if !self.handed.is_same(known) {
            return Ok(None);
        }
        let log = self.state.log();
        batch.fill(log, self.copied)?;
        let mut handed = known.again();
        if !handed.add(count, batch) {
            return Ok(None);
        }
        self.copied = log.len();
        self.handed = handed.again();
        Ok(Some((handed, self.copied)))
    }

    /// The next call that no worker has taken.
    pub fn take(&mut self) -> Option<usize>
        ensures { self.new.progress ≡ self.old.progress }
    {
        let k = self.taken;
        if k >= self.progress.len() {
            return None;
        }
        self.taken = k + 1;
        Some(k)
    }

    // Admits a call that waits.
    #[inline(always)]
    fn admit(&mut self, k: usize, call: &Call) -> Result<(), Refusal>
        requires call { slice_get J.calls k ≡ Some call.now }
        requires waits { slice_get self.old.progress k ≡ Some Progress.Waiting }
        ensures ok { OnOk result (AnswersStay self.old.progress self.new.progress) }
        ensures err { OnErr result ((self.new.state ≡ self.old.state) × (self.new.progress ≡ self.old.progress)) }
        ensures refused { IfErr result (λ why. AdmitRefusalFits J.start self.old.state (call_of call.now) why) }
        ensures memory { IfErr result (λ why. why ≡ Refusal.Memory → self.new.is_out_of_memory ≡ true) }
        ensures sites { self.new.state.sites ≡ self.old.state.sites }
    {
        self.touched = true;
        self.state.known();
        match self.state.admit(call) {
            Ok(txn) => {
                self.progress[k] = Progress::Begun(txn);
                Ok(())
            }
            Err(Refusal::Memory) => {
                self.is_out_of_memory = true;
                Err(Refusal::Memory)
            }
            Err(refusal) => Err(refusal),
        }
    }

    // Whether all that stand in the way of a call that isn't admitted are in doubt or stuck.
    fn is_blocked(&self, call: &Call, busy: Busy) -> bool
        requires { IsRefused self.now.state (call_of call.now) (Refusal.Busy busy) }
        ensures { result ≡ true → AnswerFits J.start self.now.state (call_of call.now) (Answer.Blocked busy) None }
    {
        self.state.blocked(call)
    }

    // Answers a call that waits: no event is its.
    #[inline(always)]
    fn answer_waiting(&mut self, k: usize, call: &Call, answer: Answer)
        requires call { slice_get J.calls k ≡ Some call.now }
        requires waits { slice_get self.old.progress k ≡ Some Progress.Waiting }
        requires fits { AnswerFits J.start self.old.state (call_of call.now) answer None }
        requires placeless { place_of answer ≡ None }
        ensures answered { IsAnswered self.new.progress k × AnswersStay self.old.progress self.new.progress }
        ensures same { (self.new.state ≡ self.old.state) × (self.new.is_out_of_memory ≡ self.old.is_out_of_memory) }
    {
        self.touched = true;
        self.progress[k] = Progress::Answered(answer, None);
    }

    // Why a call isn't admitted that isn't tried, since memory ran out.
    fn refusal_untried(&self, call: &Call) -> Refusal
        ensures { AnswerFits J.start self.now.state (call_of call.now) (Answer.Refused result) None }
    {
        untried(self.state.procs(), call)
    }

    // Answers a call that waits once memory ran out.
    fn leave_out(&mut self, k: usize, call: &Call) -> Next
        requires call { slice_get J.calls k ≡ Some call.now }
        requires waits { slice_get self.old.progress k ≡ Some Progress.Waiting }
        ensures moves { MovesOn self.old.progress self.new.progress k result }
        ensures none { IsHeldBy result None }
        ensures same { (self.new.state ≡ self.old.state) × (self.new.is_out_of_memory ≡ self.old.is_out_of_memory) }
    {
        let refusal = self.refusal_untried(call);
        self.answer_waiting(k, call, Answer::Refused(refusal));
        Next::LeftOut
    }

    // A call that waits is admitted or refused, or goes on waiting. None is admitted once memory ran out.
    #[inline(always)]
    fn begin(&mut self, k: usize, call: &Call) -> Next
        requires call { slice_get J.calls k ≡ Some call.now }
        requires waits { slice_get self.old.progress k ≡ Some Progress.Waiting }
        ensures moves { MovesOn self.old.progress self.new.progress k result }
        ensures none { IsHeldBy result None }
        ensures full { self.old.is_out_of_memory ≡ true → (self.new.state ≡ self.old.state) × (self.new.is_out_of_memory ≡ true) }
        ensures sites { self.new.state.sites ≡ self.old.state.sites }
    {
        if self.is_out_of_memory {
            return self.leave_out(k, call);
        }
        match self.admit(k, call) {
            Ok(()) => Next::Begun,
            Err(Refusal::Busy(busy)) => {
                if !self.is_blocked(call, busy) {
                    return Next::Busy;
                }
                self.answer_waiting(k, call, Answer::Blocked(busy));
                Next::Over
            }
            Err(refusal) => {
                self.answer_waiting(k, call, Answer::Refused(refusal));
                Next::Over
            }
        }
    }

    // What the type keeps: the state is one of the run.
    fn known(&self)
        ensures { IsOfRun J.start self.now.state }
    {
        self.state.known();
    }

    // What is to be redone at a request's data component before the request can be sent, if anything is.
    #[inline(always)]
    fn to_redo(&mut self, request: &Request) -> Option<Wire>
        ensures redo { IfSome result (IsToRedo self.new.state request.now) }
        ensures up { IfNone result (IsUpFor self.new.state request.now) }
        ensures events { self.new.state.events ≡ self.old.state.events }
        ensures known { StaysKnown self.old.state self.new.state }
        ensures same { self.new.progress ≡ self.old.progress }
    {
        self.touched = true;
        match self.state.redo_next(request.op().record().dc) {
            Redo::Send(wire) => Some(wire),
            Redo::Finished | Redo::NotDown | Redo::NoDc => None,
        }
    }

    // A request's own wire, unless its data component is down.
    #[inline(always)]
    #[tactic(auto, using(crate::proofs::Carrying::own))]
    fn own_wire(&self, request: &Request) -> Option<Wire>
        requires { IsOpenHere self.now.state request.now }
        ensures { IfSome result (IsItsOwn self.now.state request.now) }
    {
        self.state.wire(request).ok()
    }

    // The same, where its data component is up.
    #[inline(always)]
    fn wire(&self, request: &Request) -> Wire
        requires is_open { IsOpenHere self.now.state request.now }
        requires up { IsUpFor self.now.state request.now }
        ensures { IsItsOwn self.now.state request.now result }
    {
        match self.state.wire(request) {
            Ok(wire) => wire,
            Err(Down) => unreachable!(),
        }
    }

    // Whether its transaction waits for the request.
    fn is_open(&self, request: &Request) -> bool
        ensures { IsTrue result ↔ IsOpenHere self.now.state request.now }
    {
        let Some(txn) = self.state.find_txn(request.txn()) else {
            return false;
        };
        match self.state.waits_for(txn) {
            Some(sent) => is_sent_for(&sent, request),
            None => false,
        }
    }

    // What is carried for a request next: its own operation, unless something is to be redone first.
    #[inline(always)]
    #[tactic(auto, using(crate::proofs::Carrying::carries_own))]
    fn carry(&mut self, request: Request, attempt: &mut Attempt<J>)
        requires none { attempt.old.request ≡ None }
        requires is_open { IsOpenHere self.old.state request }
        ensures held { IsSome attempt.new.request }
        ensures sent { IsSentBy self.new.state attempt.new }
        ensures known { StaysKnown self.old.state self.new.state }
        ensures same { self.new.progress ≡ self.old.progress }
    {
        self.known();
        match self.own_wire(&request) {
            Some(wire) => attempt.own(request, wire),
            None => self.carry_behind_redo(request, attempt),
        }
    }

    // The same where the request's data component was down.
    #[tactic(auto, using(crate::proofs::Carrying::carries_own, crate::proofs::Carrying::carries_redo, crate::proofs::Carrying::open_still))]
    fn carry_behind_redo(&mut self, request: Request, attempt: &mut Attempt<J>)
        requires none { attempt.old.request ≡ None }
        requires is_open { IsOpenHere self.old.state request }
        ensures held { IsSome attempt.new.request }
        ensures sent { IsSentBy self.new.state attempt.new }
        ensures known { StaysKnown self.old.state self.new.state }
        ensures same { self.new.progress ≡ self.old.progress }
    {
        let to_redo = self.to_redo(&request);
        self.known();
        match to_redo {
            Some(wire) => attempt.redo(request, wire),
            None => {
                let wire = self.wire(&request);
                attempt.own(request, wire);
            }
        }
    }

    // A request is sent for the first time.
    #[inline(always)]
    fn send(&mut self, request: Request, attempt: &mut Attempt<J>)
        requires none { attempt.old.request ≡ None }
        requires is_open { IsOpenHere self.old.state request }
        ensures held { IsSome attempt.new.request }
        ensures sent { IsSentBy self.new.state attempt.new }
        ensures known { StaysKnown self.old.state self.new.state }
        ensures same { self.new.progress ≡ self.old.progress }
    {
        attempt.begin(self.tries);
        self.carry(request, attempt);
    }

    // What undoes the last write that stands, of a transaction that is to be undone.
    fn undo(&mut self, txn: TxnId, attempt: &mut Attempt<J>)
        requires undoing { ask_reply self.old.state txn.serial ≡ Asked.Undoing }
        requires none { attempt.old.request ≡ None }
        ensures held { IsSome attempt.new.request }
        ensures sent { IsSentBy self.new.state attempt.new }
        ensures known { StaysKnown self.old.state self.new.state }
        ensures same { self.new.progress ≡ self.old.progress }
    {
        self.touched = true;
        match self.state.undo_next(txn) {
            Asked::Request(request) => self.send(request, attempt),
            Asked::Undoing | Asked::Over | Asked::Running | Asked::Unknown => unreachable!(),
            Asked::Stuck(_) | Asked::Waits(_) => unreachable!(),
        }
    }

    // An operation that nothing more is known of becomes the call's answer.
    fn doubt(&mut self, k: usize, call: &Call, txn: TxnId, number: u64)
        requires call { slice_get J.calls k ≡ Some call.now }
        requires begun { slice_get self.old.progress k ≡ Some (Progress.Begun txn) }
        requires doubtful { IsDoubtful self.old.state txn.serial number }
        ensures answered { IsAnswered self.new.progress k × AnswersStay self.old.progress self.new.progress }
        ensures sites { self.new.state.sites ≡ self.old.state.sites }
    {
        self.touched = true;
        self.progress[k] = Progress::Answered(Answer::InDoubt(number), Some(txn));
    }

    // Ends a transaction that is over, and answers its call by the end's place.
    #[inline(always)]
    fn end(&mut self, k: usize, call: &Call, txn: TxnId)
        requires call { slice_get J.calls k ≡ Some call.now }
        requires begun { slice_get self.old.progress k ≡ Some (Progress.Begun txn) }
        requires over { ask_reply self.old.state txn.serial ≡ Asked.Over }
        ensures answered { IsAnswered self.new.progress k × AnswersStay self.old.progress self.new.progress }
        ensures sites { self.new.state.sites ≡ self.old.state.sites }
    {
        self.touched = true;
        match self.state.end(txn) {
            Ok(receipt) => {
                let answer = answer_for(receipt);
                self.progress[k] = Progress::Answered(answer, Some(txn));
            }
            Err(NotOver) => unreachable!(),
        }
    }

    // How far a call has come.
    #[inline(always)]
    fn progress_of(&self, k: usize, call: &Call) -> Progress
        requires { slice_get J.calls k ≡ Some call.now }
        ensures { slice_get self.now.progress k ≡ Some result }
    {
        self.progress[k]
    }

    /// The answer of a call that has one, as it is ready: it is true of the log as it is now.
    #[inline(always)]
    pub fn ready(&self, k: usize, call: &Call) -> ReadyAnswer<J>
        requires call { slice_get J.calls k ≡ Some call.now }
        requires answered { IsAnswered self.now.progress k }
        ensures { result.call ≡ k }
    {
        let logged = self.state.log().len();
        match self.progress_of(k, call) {
            Progress::Answered(answer, _txn) => ReadyAnswer {
                call: k,
                answer,
                logged,
                is_begun: false,
                of: PhantomData,
            },
            Progress::Waiting | Progress::Begun(_) => unreachable!(),
        }
    }

    // What a transaction asks once all was answered that is answered at once.
    #[inline(always)]
    fn run_at_once<P: RunPerformer<J>>(
        &mut self,
        k: usize,
        call: &Call,
        txn: TxnId,
        performer: &P,
    ) -> Asked
        requires call { slice_get J.calls k ≡ Some call.now }
        requires begun { slice_get self.old.progress k ≡ Some (Progress.Begun txn) }
        ensures ran { HasRunAtOnce txn.serial self.old.state self.new.state result }
        ensures goes { IsGoing result }
        ensures sites { self.new.state.sites ≡ self.old.state.sites }
        ensures same { self.new.progress ≡ self.old.progress }
    {
        self.touched = true;
        let performer: CallPerformer<J, P> = CallPerformer::new(performer, k);
        let asked = self.state.run_at_once(txn, &performer);
        self.state.known();
        asked
    }

    /// The next step of a call, whatever was done for it before: as far as its questions are performed at once.
    /// What is to be carried is written into `attempt`, where nothing is on its way.
    pub fn advance<P: RunPerformer<J>>(
        &mut self,
        k: usize,
        call: &Call,
        attempt: &mut Attempt<J>,
        performer: &P,
    ) -> Next
        requires call { slice_get J.calls k ≡ Some call.now }
        requires none { attempt.old.request ≡ None }
        ensures moves { MovesOn self.old.progress self.new.progress k result }
        ensures held { IsHeldBy result attempt.new.request }
        ensures sends { Sends self.new.state result attempt.new }
        ensures known { StaysKnown self.old.state self.new.state }
    {
        let txn = match self.progress_of(k, call) {
            Progress::Waiting => return self.begin(k, call),
            Progress::Answered(..) => return Next::Over,
            Progress::Begun(txn) => txn,
        };
        match self.run_at_once(k, call, txn, performer) {
            Asked::Request(request) => {
                self.send(request, attempt);
                Next::Carry
            }
            Asked::Undoing => {
                self.undo(txn, attempt);
                Next::Carry
            }
            Asked::Over => {
                self.end(k, call, txn);
                Next::Over
            }
            Asked::Stuck(number) | Asked::Waits(number) => {
                self.doubt(k, call, txn, number);
                Next::Over
            }
            Asked::Running | Asked::Unknown => unreachable!(),
        }
    }

    // Takes a reply in.
    #[inline(always)]
    fn answer(&mut self, request: Request, reply: Reply) -> Result<(), Stranger>
        ensures same { self.new.progress ≡ self.old.progress }
        ensures back { IfErr result (λ stranger. stranger.request ≡ request) }
    {
        self.touched = true;
        self.state.answer(request, reply)
    }

    // Gives a request up: its transaction is in doubt.
    fn give_up(&mut self, request: Request)
        ensures sites { self.new.state.sites ≡ self.old.state.sites }
        ensures same { self.new.progress ≡ self.old.progress }
    {
        self.touched = true;
        let _number = self.state.give_up(request);
    }

    /// Gives up the request for which something is on its way, if anything is, without going on with its
    /// call.
    #[inline(always)]
    pub fn abandon(&mut self, attempt: Attempt<J>)
        ensures { self.new.progress ≡ self.old.progress }
    {
        if let Some(request) = attempt.into_request() {
            self.give_up(request);
        }
    }

    /// The same in place: nothing is on its way then.
    #[inline(always)]
    pub fn release(&mut self, attempt: &mut Attempt<J>)
        ensures none { attempt.new.request ≡ None }
        ensures same { self.new.progress ≡ self.old.progress }
    {
        if let Some(request) = attempt.take() {
            self.give_up(request);
        }
    }

    // Gives a request up, and goes on with its call.
    fn go_on_without<P: RunPerformer<J>>(
        &mut self,
        k: usize,
        call: &Call,
        attempt: &mut Attempt<J>,
        performer: &P,
    ) -> Next
        requires call { slice_get J.calls k ≡ Some call.now }
        ensures moves { MovesOn self.old.progress self.new.progress k result }
        ensures held { IsHeldBy result attempt.new.request }
        ensures sends { Sends self.new.state result attempt.new }
        ensures known { StaysKnown self.old.state self.new.state }
    {
        if let Some(request) = attempt.take() {
            self.give_up(request);
        }
        self.advance(k, call, attempt, performer)
    }

    // Takes in that an operation is redone.
    fn redone(&mut self, dc: u16, reply: &Reply) -> Result<(), RedoMismatch>
        ensures redone { IsKnownRedone self.old.state self.new.state dc reply.now }
        ensures same { self.new.progress ≡ self.old.progress }
    {
        self.touched = true;
        self.state.known();
        self.state.redone(dc, reply)
    }

    // Takes news of a restart in. Old ones change nothing: another worker was told of them before.
    fn told(&mut self, dc: u16, news: News)
        ensures told { AreKnown self.old.state self.new.state dc news }
        ensures same { self.new.progress ≡ self.old.progress }
    {
        self.touched = true;
        let _old = self.state.told(dc, news);
    }

    // The same of the news that the link has, if it has any, of the data component that something was carried to.
    fn hear_news(&mut self, attempt: &Attempt<J>, news: Option<News>)
        ensures told { IfSome news (AreKnown self.old.state self.new.state (target attempt.now.wire.op).dc) }
        ensures same { self.new.progress ≡ self.old.progress }
    {
        if let Some(news) = news {
            self.told(attempt.dc(), news);
        }
    }

    /// Takes in what came back for what was carried. The call goes on where that answers it; a stranger
    /// counts as no answer. What is redone is redone at the data component that it was carried to.
    #[inline(always)]
    pub fn hear<P: RunPerformer<J>>(
        &mut self,
        k: usize,
        call: &Call,
        attempt: &mut Attempt<J>,
        reply: &Reply,
        performer: &P,
    ) -> Next
        requires call { slice_get J.calls k ≡ Some call.now }
        ensures moves { MovesOn self.old.progress self.new.progress k result }
        ensures held { IsHeldBy result attempt.new.request }
        ensures sends { GoesOnSending self.new.state result attempt.old attempt.new }
        ensures redone { IsSome attempt.old.request → attempt.old.wire.redo ≡ true
            → IsKnownRedone self.old.state self.new.state (target attempt.old.wire.op).dc reply.now }
    {
        if attempt.wire().redo {
            return self.hear_redo(k, call, attempt, reply, performer);
        }
        let Some(request) = attempt.take() else {
            return self.advance(k, call, attempt, performer);
        };
        match self.answer(request, *reply) {
            Ok(()) => self.advance(k, call, attempt, performer),
            Err(Stranger { request }) => {
                attempt.put_back(request);
                Next::Unanswered
            }
        }
    }

    // The same for what is redone.
    fn hear_redo<P: RunPerformer<J>>(
        &mut self,
        k: usize,
        call: &Call,
        attempt: &mut Attempt<J>,
        reply: &Reply,
        performer: &P,
    ) -> Next
        requires call { slice_get J.calls k ≡ Some call.now }
        ensures moves { MovesOn self.old.progress self.new.progress k result }
        ensures held { IsHeldBy result attempt.new.request }
        ensures sends { GoesOnSending self.new.state result attempt.old attempt.new }
        ensures redone { IsSome attempt.old.request
            → IsKnownRedone self.old.state self.new.state (target attempt.old.wire.op).dc reply.now }
    {
        if attempt.is_held() && self.redone(attempt.dc(), reply).is_err() {
            return Next::Unanswered;
        }
        self.carry_on(k, call, attempt, performer)
    }

    // What is carried for a request next. Where what is to be redone first was sent as often as it may
    // be, the request is given up. Nothing is carried for one that its transaction doesn't wait for.
    fn carry_on<P: RunPerformer<J>>(
        &mut self,
        k: usize,
        call: &Call,
        attempt: &mut Attempt<J>,
        performer: &P,
    ) -> Next
        requires call { slice_get J.calls k ≡ Some call.now }
        ensures moves { MovesOn self.old.progress self.new.progress k result }
        ensures held { IsHeldBy result attempt.new.request }
        ensures sends { Sends self.new.state result attempt.new }
        ensures known { StaysKnown self.old.state self.new.state }
    {
        let Some(request) = attempt.take() else {
            return self.advance(k, call, attempt, performer);
        };
        if !self.is_open(&request) {
            self.give_up(request);
            return self.advance(k, call, attempt, performer);
        }
        self.carry(request, attempt);
        if attempt.is_spent() {
            return self.go_on_without(k, call, attempt, performer);
        }
        Next::Carry
    }

    /// Goes on where nothing came back that answers what was carried, with the news that the link has. A
    /// request is sent again, with the low-water mark of now, as often as is left, and then given up.
    pub fn go_on_unanswered<P: RunPerformer<J>>(
        &mut self,
        k: usize,
        call: &Call,
        attempt: &mut Attempt<J>,
        news: Option<News>,
        performer: &P,
    ) -> Next
        requires call { slice_get J.calls k ≡ Some call.now }
        ensures moves { MovesOn self.old.progress self.new.progress k result }
        ensures held { IsHeldBy result attempt.new.request }
        ensures sends { Sends self.new.state result attempt.new }
        ensures told { IfSome news (AreKnown self.old.state self.new.state (target attempt.old.wire.op).dc) }
    {
        self.hear_news(attempt, news);
        if attempt.is_last() {
            return self.go_on_without(k, call, attempt, performer);
        }
        self.carry_on(k, call, attempt, performer)
    }

    /// Whether the call was begun and isn't answered.
    pub fn is_begun(&self, k: usize) -> bool {
        matches!(self.progress.get(k), Some(Progress::Begun(_)))
    }

    /// Whether the call's answer stands.
    pub fn is_answered(&self, k: usize) -> bool
        ensures { result ≡ true → IsAnswered self.now.progress k }
    {
        matches!(self.progress.get(k), Some(Progress::Answered(..)))
    }

    /// Whether anything was done.
    pub fn is_touched(&self) -> bool
        ensures touched { result ≡ self.now.is_touched }
        ensures start { self.now.is_touched ≡ false → self.now.state ≡ J.start }
    {
        self.touched
    }

    /// The state.
    pub fn into_state(self) -> TcState
        ensures { result ≡ self.state }
    {
        let PoolState {
            state,
            progress: _,
            tries: _,
            taken: _,
            touched: _,
            is_out_of_memory: _,
            handed: _,
            copied: _,
            of: _,
        } = self;
        state
    }

    /// The state of a run that stops, with what is known of it.
    pub fn halted(self) -> TcState
        ensures { HasGoneOn J.start result }
    {
        let state = self.into_state();
        state.known();
        state
    }

    /// The report, once every call is answered. The answers are handed in empty, with room.
    pub fn close(self, answers: Vec<Answer>) -> Report
        requires all { (k : ℕ) → k < length J.calls → IsAnswered self.progress k }
        requires empty { answers.items ≡ [] }
        requires room { length J.calls ≤ vec_capacity answers }
        ensures reports { Reports J.start J.calls result.state result.answers.items }
        ensures state { result.state ≡ self.state }
    {
        let PoolState {
            state,
            progress,
            tries: _,
            taken: _,
            touched: _,
            is_out_of_memory: _,
            handed: _,
            copied: _,
            of: _,
        } = self;
        state.known();
        let answers = answers_of(&progress, answers);
        Report { state, answers }
    }
}

// Why a call isn't admitted that isn't tried.
fn untried(procs: &Procs, call: &Call) -> Refusal
    ensures { IsUntried procs.now.codes (call_of call.now) result }
{
    let Some(code) = procs.get(call.proc) else {
        return Refusal::NoProcedure;
    };
    if call.args.len() != code.decl().args() {
        return Refusal::ArgumentCount;
    }
    Refusal::Memory
}
