// The calls that a worker has on their way.

ghost use Rattle.std.specs.Prelude.{◌≡◌, ◌+◌, ◌<◌, ◌≤◌, true, Some, None, IfSome, length, slice_get, vec_len};
ghost use Rattle.std.specs.Prelude.{vec_capacity};
ghost use Rattle.access_slots.specs.Locks.{target};
ghost use Rattle.worker_pool.specs.Joining.Moves.{IsAnsweredBy};
ghost use Rattle.worker_pool.specs.Restarts.{AreKnown};

use crate::acknowledgement::ReadyAnswer;
use crate::outstanding_call::OutstandingCall;
use crate::performing::RunPerformer;
use crate::pool::Gate;
use crate::pool_state::{Next, PoolState};
use crate::run_spec::RunSpec;
use crate::stage::Stage;
use dc_links::{Link, Outstanding};
use std::alloc::{AllocError, Global};
use std::marker::Model;
use std::sync::Wait;
use tc_core::state::Call;

// A call that no wire is on its way for, since it isn't admitted.
#[derive(Clone, Copy)]
struct WaitingCall {
    call: usize,
    // Whether the gate was told that it waits.
    is_told: bool,
}

/// How many calls a worker has at a time.
#[derive(Clone, Copy)]
pub struct MostCalls {
    /// With a wire that is to be carried or on its way.
    pub away: usize,
    /// With another transaction in their way.
    pub waiting: usize,
    /// That are taken up under one taking of the pool's lock, or gone on with, or that end.
    pub of_a_taking: usize,
}

/// The calls that a worker has on their way, so many at most.
pub struct OutstandingCalls<J: RunSpec> {
    // Those whose wires are to be carried or on their way, each in its place until it is over. Another call has
    // the place then.
    away: Vec<OutstandingCall<J>>,
    // The places of calls whose wires are to be carried since the link was called last.
    ready: Vec<usize>,
    // The places of calls for which something came back, or nothing will.
    back: Vec<usize>,
    // The places where no call is.
    free: Vec<usize>,
    // Answers that stand, and are ready.
    over: Vec<ReadyAnswer<J>>,
    // Calls with another transaction in their way, in the order in which they were taken up.
    waiting: Vec<WaitingCall>,
    // Whether there was room for more calls when as many were taken up as in a taking may be.
    is_cut: bool,
    most: MostCalls,
}

impl<J: RunSpec> Model for OutstandingCalls<J> {
    ghost use Rattle.std.specs.Prelude.{◌+◌, ◌≤◌, ℕ, vec_len, vec_capacity};

    ghost Value = { ℕ };

    ghost view = { λ e. vec_len e.away + vec_len e.over };

    ghost invariant = { λ e. (vec_len e.away ≤ e.most.away) × (vec_len e.over ≤ e.most.of_a_taking)
        × (vec_len e.ready + vec_len e.back + vec_len e.free ≤ vec_len e.away)
        × (e.most.away ≤ vec_capacity e.away) × (e.most.away ≤ vec_capacity e.ready)
        × (e.most.away ≤ vec_capacity e.back) × (e.most.away ≤ vec_capacity e.free)
        × (e.most.of_a_taking ≤ vec_capacity e.over) × (e.most.waiting ≤ vec_capacity e.waiting) };
}

// What becomes of an outstanding call behind a step of its call.
enum Course<J: RunSpec> {
    // Its wire is to be carried.
    Carry,
    // Something came back that doesn't answer its wire, or nothing did.
    Unanswered,
    // Its call has to wait.
    Waits,
    // Nothing more is done for its call.
    Over,
    // The same, and its answer is ready.
    Answered(ReadyAnswer<J>),
}

// What a step of a call leads to.
#[inline(always)]
fn course_of<J: RunSpec, P: RunPerformer<J>>(
    pool_state: &PoolState<J>,
    k: usize,
    call: &Call,
    next: Next,
    performer: &P,
) -> Course<J>
    requires call { slice_get J.calls k ≡ Some call.now }
    requires answered { IsAnsweredBy pool_state.now.progress k next }
{
    match next {
        Next::Carry => Course::Carry,
        Next::Unanswered => Course::Unanswered,
        Next::Begun | Next::Busy => Course::Waits,
        Next::Over => {
            performer.note_answered(k);
            Course::Answered(pool_state.ready(k, call))
        }
        Next::LeftOut => Course::Over,
    }
}

// The first step of a call, and the next one where it was admitted.
#[inline(always)]
#[tactic(auto, using(crate::proofs::Steps::answered_by))]
fn first_steps<J: RunSpec, P: RunPerformer<J>>(
    pool_state: &mut PoolState<J>,
    call: &Call,
    outstanding: &mut OutstandingCall<J>,
    performer: &P,
) -> Next
    requires call { slice_get J.calls outstanding.old.call ≡ Some call.now }
    requires none { outstanding.old.attempt.request ≡ None }
    ensures answered { IsAnsweredBy pool_state.new.progress outstanding.old.call result }
    ensures call { outstanding.new.call ≡ outstanding.old.call }
{
    match pool_state.advance(outstanding.call, call, &mut outstanding.attempt, performer) {
        Next::Begun => {
            outstanding.is_begun = !performer.notes_begun(outstanding.call);
            pool_state.advance(outstanding.call, call, &mut outstanding.attempt, performer)
        }
        next => next,
    }
}

// The first steps of a call, which has this place from now on: one that is admitted goes on at once.
#[inline(always)]
fn start<J: RunSpec, P: RunPerformer<J>>(
    pool_state: &mut PoolState<J>,
    k: usize,
    call: &Call,
    outstanding: &mut OutstandingCall<J>,
    performer: &P,
) -> Course<J>
    requires { slice_get J.calls k ≡ Some call.now }
{
    pool_state.release(&mut outstanding.attempt);
    outstanding.restart(k);
    let next = first_steps(pool_state, call, outstanding, performer);
    course_of(pool_state, k, call, next, performer)
}

// The same of the call with this number, which is one of these.
#[inline(always)]
fn begin<J: RunSpec, P: RunPerformer<J>>(
    pool_state: &mut PoolState<J>,
    calls: &[Call],
    k: usize,
    outstanding: &mut OutstandingCall<J>,
    performer: &P,
) -> Course<J>
    requires { calls.now ≡ J.calls }
{
    match calls.get(k) {
        Some(call) => start(pool_state, k, call, outstanding, performer),
        None => Course::Over,
    }
}

// The step of a call that what came back leads to, or that nothing did.
#[inline(always)]
#[tactic(auto, using(crate::proofs::Steps::answered_by))]
fn next_step<J: RunSpec, P: RunPerformer<J>>(
    pool_state: &mut PoolState<J>,
    call: &Call,
    outstanding: &mut OutstandingCall<J>,
    performer: &P,
) -> Next
    requires { slice_get J.calls outstanding.old.call ≡ Some call.now }
    ensures answered { IsAnsweredBy pool_state.new.progress outstanding.old.call result }
    ensures call { outstanding.new.call ≡ outstanding.old.call }
    ensures told { outstanding.old.reply ≡ None
        → IfSome outstanding.old.news (AreKnown pool_state.old.state pool_state.new.state (target outstanding.old.attempt.wire.op).dc) }
{
    match &outstanding.reply {
        Some(reply) => pool_state.hear(
            outstanding.call,
            call,
            &mut outstanding.attempt,
            reply,
            performer,
        ),
        None => pool_state.go_on_unanswered(
            outstanding.call,
            call,
            &mut outstanding.attempt,
            outstanding.news,
            performer,
        ),
    }
}

#[inline(always)]
fn go_on<J: RunSpec, P: RunPerformer<J>>(
    pool_state: &mut PoolState<J>,
    call: &Call,
    outstanding: &mut OutstandingCall<J>,
    performer: &P,
) -> Course<J>
    requires { slice_get J.calls outstanding.old.call ≡ Some call.now }
    ensures told { outstanding.old.reply ≡ None
        → IfSome outstanding.old.news (AreKnown pool_state.old.state pool_state.new.state (target outstanding.old.attempt.wire.op).dc) }
{
    outstanding.is_again = outstanding.reply.is_none();
    let next = next_step(pool_state, call, outstanding, performer);
    course_of(pool_state, outstanding.call, call, next, performer)
}

// The next step of an outstanding call's call, which is one of these.
#[inline(always)]
fn step<J: RunSpec, P: RunPerformer<J>>(
    pool_state: &mut PoolState<J>,
    calls: &[Call],
    outstanding: &mut OutstandingCall<J>,
    performer: &P,
) -> Course<J>
    requires { calls.now ≡ J.calls }
{
    match calls.get(outstanding.call) {
        Some(call) => go_on(pool_state, call, outstanding, performer),
        None => Course::Waits,
    }
}

// Gives an outstanding call's request up, if it has one, without going on with its call.
fn abandon<J: RunSpec>(pool_state: &mut PoolState<J>, outstanding: OutstandingCall<J>) {
    let OutstandingCall {
        call: _,
        is_begun: _,
        is_again: _,
        is_free: _,
        is_submitted: _,
        is_unanswered: _,
        is_news_due: _,
        reply: _,
        attempt,
        news: _,
    } = outstanding;
    pool_state.abandon(attempt);
}

// Gives the requests of these outstanding calls up.
fn abandon_all<J: RunSpec>(
    pool_state: &mut PoolState<J>,
    mut outstanding_calls: Vec<OutstandingCall<J>>,
) {
    while let Some(outstanding) = outstanding_calls.pop() {
        abandon(pool_state, outstanding);
    }
    outstanding_calls.destroy_empty();
}

// Answers that are told to nobody.
fn forget_all<J: RunSpec>(mut over: Vec<ReadyAnswer<J>>) {
    while let Some(ready) = over.pop() {
        ready.forget();
    }
    over.destroy_empty();
}

// The call in this place of those that wait, or else the next one that no worker has taken, if one more may wait.
#[inline(always)]
fn next_call<J: RunSpec>(
    waiting: &[WaitingCall],
    at: usize,
    most: usize,
    pool_state: &mut PoolState<J>,
) -> Option<usize>
    ensures { IfSome result (λ k. length waiting.now ≤ at → length waiting.now < most) }
{
    match waiting.get(at) {
        Some(waiting) => Some(waiting.call),
        None if waiting.len() < most => pool_state.take(),
        None => None,
    }
}

// Notes whether a call has to wait that waited in this place, or behind them all did not yet wait. The next place to
// look at.
#[inline(always)]
fn note(waiting: &mut Vec<WaitingCall>, at: usize, call: usize, waits: bool) -> usize
    requires { vec_len waiting.old ≤ at → vec_len waiting.old < vec_capacity waiting.old }
    ensures { vec_capacity waiting.new ≡ vec_capacity waiting.old }
{
    if at >= waiting.len() {
        if waits {
            waiting.push_reserved(WaitingCall {
                call,
                is_told: false,
            });
        }
        return waiting.len();
    }
    if waits {
        return at + 1;
    }
    waiting.remove(at);
    at
}

// What becomes of a call's place behind a step of the call.
#[derive(Clone, Copy)]
enum Standing {
    // Its wire is to be carried.
    Ready,
    // Nothing came back that answers its wire.
    Back,
    // The call is over.
    Free,
    // The same, since it has to wait.
    Waits,
}

// Where an outstanding call stands behind a step.
#[inline(always)]
fn stand<J: RunSpec>(
    outstanding: &mut OutstandingCall<J>,
    over: &mut Vec<ReadyAnswer<J>>,
    course: Course<J>,
) -> Standing
    requires room { vec_len over.old < vec_capacity over.old }
    ensures one { vec_len over.new ≤ vec_len over.old + 1 }
    ensures over { vec_capacity over.new ≡ vec_capacity over.old }
{
    match course {
        Course::Carry => {
            outstanding.ready();
            Standing::Ready
        }
        Course::Unanswered => {
            outstanding.unanswered();
            Standing::Back
        }
        Course::Answered(mut ready) => {
            ready.is_begun = outstanding.is_begun;
            outstanding.is_free = true;
            over.push_reserved(ready);
            Standing::Free
        }
        Course::Over => {
            outstanding.is_free = true;
            Standing::Free
        }
        Course::Waits => {
            outstanding.is_free = true;
            Standing::Waits
        }
    }
}

// Puts a place among those that it belongs to now.
#[inline(always)]
fn put(
    place: usize,
    standing: Standing,
    ready: &mut Vec<usize>,
    back: &mut Vec<usize>,
    free: &mut Vec<usize>,
)
    requires ready { vec_len ready.old < vec_capacity ready.old }
    requires back { vec_len back.old < vec_capacity back.old }
    requires free { vec_len free.old < vec_capacity free.old }
    ensures one { vec_len ready.new + vec_len back.new + vec_len free.new ≡ vec_len ready.old + vec_len back.old + vec_len free.old + 1 }
    ensures more { vec_len back.old ≤ vec_len back.new }
    ensures ready { vec_capacity ready.new ≡ vec_capacity ready.old }
    ensures back { vec_capacity back.new ≡ vec_capacity back.old }
    ensures free { vec_capacity free.new ≡ vec_capacity free.old }
{
    match standing {
        Standing::Ready => ready.push_reserved(place),
        Standing::Back => back.push_reserved(place),
        Standing::Free | Standing::Waits => free.push_reserved(place),
    }
}

// Whether there is a place for one more call, where there are so many places, so many of them free, and so many at most.
#[inline(always)]
const fn has_room(places: usize, free: usize, most: usize) -> bool
    ensures { result ≡ true → free ≡ 0 → places < most }
{
    free > 0 || places < most
}

// A free place, or a new one behind the others. There are so many at most.
#[inline(always)]
fn place<J: RunSpec>(
    away: &mut Vec<OutstandingCall<J>>,
    free: &mut Vec<usize>,
    most: usize,
) -> usize
    requires room { vec_len free.old ≡ 0 → vec_len away.old < most }
    requires most { (vec_len away.old ≤ most) × (most ≤ vec_capacity away.old) }
    ensures most { vec_len away.new ≤ most }
    ensures one { vec_len away.new + vec_len free.old ≡ vec_len away.old + vec_len free.new + 1 }
    ensures away { vec_capacity away.new ≡ vec_capacity away.old }
    ensures free { vec_capacity free.new ≡ vec_capacity free.old }
{
    match free.pop() {
        Some(place) => place,
        None => {
            away.push_reserved(OutstandingCall::new());
            away.len() - 1
        }
    }
}

// Tells the gate which calls in these places were admitted since it was told last.
fn tell_begun<J: RunSpec, G: Gate>(away: &mut [OutstandingCall<J>], places: &[usize], gate: &G) {
    for place in places {
        if let Some(outstanding) = away.get_mut(*place) {
            if outstanding.is_begun {
                gate.begun(outstanding.call);
                outstanding.is_begun = false;
            }
        }
    }
}

// Tells the gate that the wires of the calls in these places are carried.
fn tell_carried<J: RunSpec, G: Gate>(away: &[OutstandingCall<J>], places: &[usize], gate: &G) {
    for place in places {
        if let Some(outstanding) = away.get(*place) {
            gate.reaches(outstanding.call, outstanding.stage());
        }
    }
}

// The places of calls for which something came back, or nothing will, of which the gate is told; and the free ones.
fn collect<J: RunSpec, G: Gate>(
    away: &[OutstandingCall<J>],
    back: &mut Vec<usize>,
    free: &mut Vec<usize>,
    gate: &G,
)
    requires none { (vec_len back.old ≡ 0) × (vec_len free.old ≡ 0) }
    requires room { (length away.now ≤ vec_capacity back.old) × (length away.now ≤ vec_capacity free.old) }
    ensures each { vec_len back.new + vec_len free.new ≤ length away.now }
    ensures back { vec_capacity back.new ≡ vec_capacity back.old }
    ensures free { vec_capacity free.new ≡ vec_capacity free.old }
{
    'collecting: for (place, outstanding) in away.iter().enumerate() {
        if outstanding.is_free {
            free.push_reserved(place);
        } else if outstanding.is_back() {
            gate.reaches(outstanding.call, Stage::Back);
            back.push_reserved(place);
        }
    }
}

// Asks for news of the components from which no answer came to the calls in these places.
fn ask_news<J: RunSpec, R: Wait, L: Link>(
    rt: &R,
    worker: usize,
    link: &L,
    away: &mut [OutstandingCall<J>],
    places: &[usize],
) {
    for place in places {
        if let Some(outstanding) = away.get_mut(*place) {
            if outstanding.is_news_due {
                outstanding.is_news_due = false;
                outstanding.news = link.news(rt, worker, outstanding.attempt.dc());
            }
        }
    }
}

impl<J: RunSpec> OutstandingCalls<J> {
    /// No call, and no room for one. It takes no memory.
    pub fn new(alloc: Global) -> OutstandingCalls<J>
        ensures { result ≡ 0 }
    {
        OutstandingCalls {
            away: Vec::new(alloc),
            ready: Vec::new(alloc),
            back: Vec::new(alloc),
            free: Vec::new(alloc),
            over: Vec::new(alloc),
            waiting: Vec::new(alloc),
            is_cut: false,
            most: MostCalls {
                away: 0,
                waiting: 0,
                of_a_taking: 0,
            },
        }
    }

    /// Makes room for so many calls, where there is none yet.
    pub fn reserve(&mut self, most: MostCalls) -> Result<(), AllocError>
        requires { self.old ≡ 0 }
    {
        self.away.reserve(most.away)?;
        self.ready.reserve(most.away)?;
        self.back.reserve(most.away)?;
        self.free.reserve(most.away)?;
        self.over.reserve(most.of_a_taking)?;
        self.waiting.reserve(most.waiting)?;
        self.most = most;
        Ok(())
    }

    /// Hears what came back, of so many calls as one taking of the lock goes on with.
    pub fn hear<P: RunPerformer<J>>(
        &mut self,
        pool_state: &mut PoolState<J>,
        calls: &[Call],
        performer: &P,
    )
        requires { calls.now ≡ J.calls }
    {
        let mut left = self.back.len();
        'hearing: for _ in 0..self.most.of_a_taking {
            if left == 0 || self.over.len() >= self.most.of_a_taking {
                return;
            }
            left -= 1;
            let place = self.back.swap_remove(left);
            let Some(outstanding) = self.away.get_mut(place) else {
                return;
            };
            let course = step(pool_state, calls, outstanding, performer);
            let standing = stand(outstanding, &mut self.over, course);
            put(
                place,
                standing,
                &mut self.ready,
                &mut self.back,
                &mut self.free,
            );
        }
    }

    /// Takes calls up while there is room, first those that waited, and so many others as one taking of the lock does.
    pub fn take_up<P: RunPerformer<J>>(
        &mut self,
        pool_state: &mut PoolState<J>,
        calls: &[Call],
        performer: &P,
    )
        requires { calls.now ≡ J.calls }
    {
        self.is_cut = false;
        let mut at = 0;
        'taking: for _ in 0..self.waiting.len().saturating_add(self.most.of_a_taking) {
            if !has_room(self.away.len(), self.free.len(), self.most.away) {
                return;
            }
            if self.over.len() >= self.most.of_a_taking {
                break;
            }
            let next = next_call(self.waiting.as_slice(), at, self.most.waiting, pool_state);
            let Some(k) = next else {
                return;
            };
            let place = place(&mut self.away, &mut self.free, self.most.away);
            let Some(outstanding) = self.away.get_mut(place) else {
                return;
            };
            let course = begin(pool_state, calls, k, outstanding, performer);
            let standing = stand(outstanding, &mut self.over, course);
            put(
                place,
                standing,
                &mut self.ready,
                &mut self.back,
                &mut self.free,
            );
            at = note(
                &mut self.waiting,
                at,
                k,
                matches!(standing, Standing::Waits),
            );
        }
        self.is_cut = has_room(self.away.len(), self.free.len(), self.most.away);
    }

    /// Whether no call has a wire, and no answer is ready.
    pub fn is_idle(&self) -> bool {
        self.free.len() == self.away.len() && self.over.is_empty()
    }

    /// Whether a call has a transaction in its way.
    pub fn is_waiting(&self) -> bool {
        !self.waiting.is_empty()
    }

    /// Whether an answer is ready.
    pub fn is_ready(&self) -> bool {
        !self.over.is_empty()
    }

    /// Tells the gate of the answers that are ready, unless it noted that already, and puts the first one last.
    pub fn tell_ready<G: Gate>(&mut self, gate: &G)
        ensures { self.new ≡ self.old }
    {
        if !gate.only_notes() {
            for ready in &self.over {
                ready.tell_stage(gate);
            }
        }
        self.over.reverse();
    }

    /// The last one of the answers that are ready.
    pub fn next_ready(&mut self) -> Option<ReadyAnswer<J>>
        ensures { IfSome result (λ ready. self.new + 1 ≡ self.old) }
    {
        self.over.pop()
    }

    /// Whether a call has a transaction in its way, and the gate isn't told of that yet.
    pub fn has_new_wait(&self) -> bool {
        self.waiting.iter().any(|waiting| !waiting.is_told)
    }

    /// Tells the gate of that.
    pub fn tell_waiting<G: Gate>(&mut self, gate: &G) {
        for waiting in &mut self.waiting {
            if !waiting.is_told {
                gate.reaches(waiting.call, Stage::Waiting);
                waiting.is_told = true;
            }
        }
    }

    /// Tells the gate which calls were admitted since it was told last.
    pub fn tell_begun<G: Gate>(&mut self, gate: &G) {
        tell_begun(self.away.as_mut_slice(), self.ready.as_slice(), gate);
    }

    // Finds the calls for which something came back, or nothing will, and tells the gate; and the free places.
    fn collect<G: Gate>(&mut self, gate: &G) {
        self.ready.clear();
        self.back.clear();
        self.free.clear();
        collect(self.away.as_slice(), &mut self.back, &mut self.free, gate);
    }

    /// Has the link take the wires that are to be carried and give what came back, and asks for news where no answer
    /// came. It is waited for only where nothing else is to be done: what came back before is heard first.
    pub fn exchange<R: Wait, L: Link, G: Gate>(
        &mut self,
        rt: &R,
        worker: usize,
        link: &L,
        gate: &G,
    ) {
        if self.back.is_empty() && self.free.len() < self.away.len() {
            tell_carried(self.away.as_slice(), self.ready.as_slice(), gate);
            link.exchange(rt, worker, self.away.as_mut_slice(), !self.is_cut);
            self.collect(gate);
        }
        ask_news(
            rt,
            worker,
            link,
            self.away.as_mut_slice(),
            self.back.as_slice(),
        );
    }

    /// Gives all requests up.
    pub fn close(self, pool_state: &mut PoolState<J>) {
        let OutstandingCalls {
            away,
            ready: _,
            back: _,
            free: _,
            over,
            waiting: _,
            is_cut: _,
            most: _,
        } = self;
        abandon_all(pool_state, away);
        forget_all(over);
    }
}
