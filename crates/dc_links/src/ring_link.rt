// The link to data components in threads of their own.

ghost use Rattle.std.specs.Prelude.{true, false, ◌≡◌, ◌<◌, ◌≤◌, ℕ, None, vec_len, IfOk, IfSome};
ghost use Rattle.std.specs.Option.{ForSome};
ghost use Rattle.access_slots.specs.Locks.{target};
ghost use Rattle.crossbeam_queue.specs.Fifo.{Admits, Held, Learns, Pops};
ghost use Rattle.dc_links.specs.Serving.{IsServed};

use crate::link::{Link, Outstanding, WIRES_OF_A_WORKER, wire_for};
use crate::ring::Ring;
use crate::seat::Seat;
use access_slots::op::{News, Reply, Wire};
use crossbeam_queue::protocol::{Free, Lesson, Outcome, Protocol};
use data_component::dc::Dc;
use std::alloc::{AllocError, Global};
use std::snapshot::Snapshot;
use std::sync::Wait;
use std::sync::atomic::{AtomicU64, Ordering};
use std::thread::Promise;

// A worker has so many wires on their way at most, and a completion comes for each; there is room besides for those
// of wires that were left behind.
const COMPLETIONS: usize = 2 * WIRES_OF_A_WORKER;

// A wire, with the worker that sent it.
#[derive(Clone, Copy, Drop)]
struct Envelope {
    worker: usize,
    wire: Wire,
}

// What became of the wire of this number: its reply, or silence.
#[derive(Drop)]
struct Completion {
    number: u64,
    reply: Option<Reply>,
    ghost same: { ForSome reply (λ r. r.number ≡ number) },
}

type Inbox = Ring<Envelope, (), Free>;

type Completions = Ring<Completion, (), Free>;

/// What a thread that serves a component promises of the component that it hands back: it is the one
/// with this number and of this kind at first, which performed wires for it and nothing else.
#[derive(Drop)]
pub struct ServedFrom(pub usize, pub Snapshot<Dc>);

impl Promise<Dc> for ServedFrom {
    ghost kept_by = { λ p dc. IsServed p.0 p.1.value dc };
}

// A component's endpoint: its seat, and the inbox for the wires of those who don't find it idle.
#[derive(Drop)]
struct Endpoint {
    inbox: Inbox,
    seat: Seat,
}

impl Endpoint {
    // What the component does with a wire, where the thread that serves it sleeps and the component is free.
    // One that is awake is soon there, and works beside the worker.
    fn perform_idle(&self, wire: &Wire) -> Option<Option<Reply>>
        ensures { IfSome result (λ said. IfSome said (λ reply. reply.number ≡ wire.now.number)) }
    {
        if self.inbox.has_sleeper() {
            self.seat.try_perform(wire)
        } else {
            None
        }
    }

    // Has the component perform the requests' wires that are for it, where that is so. Whether it was.
    fn perform_all_idle<O: Outstanding>(&self, requests: &mut [O]) -> bool {
        self.inbox.has_sleeper() && self.seat.try_perform_all(requests)
    }

    // Puts a wire into the inbox. Whether that was done: not where it is full.
    fn send<R: Wait>(&self, rt: &R, worker: usize, wire: &Wire) -> bool {
        let envelope = Envelope {
            worker,
            wire: *wire,
        };
        self.inbox.put(rt, envelope).is_ok()
    }

    // Puts the requests' wires that are for the component, which has this number, into the inbox. How many
    // completions will come for them.
    fn send_all<O: Outstanding, R: Wait>(
        &self,
        rt: &R,
        worker: usize,
        number: usize,
        requests: &[O],
    ) -> usize {
        let mut sent = 0usize;
        for request in requests {
            if let Some(wire) = wire_for(request, number) {
                if self.send(rt, worker, wire) {
                    sent = sent.saturating_add(1);
                }
            }
        }
        sent
    }
}

/// A link to data components that run in threads of their own, numbered from 0: a worker puts a wire
/// into the component's inbox and waits for the completion that comes back. Where the component's thread sleeps,
/// the worker has the component perform the wire there and then.
///
/// ```
/// let link = RingLink::new(alloc, 1, 4)?;
/// let (ran, dc) = thread::scope(thread::scope_env(), rt, |scope| {
///     let server = scope.spawn(|| link.serve(rt, 0, dc))?;
///     let (_, ran) = run(rt, alloc, state, calls, 4, 3, &link, &OpenGate, NoJournal);
///     link.close();
///     (ran, server.join(rt))
/// });
/// ```
///
/// Each component is to be served by one thread, and each worker's number used by one thread at a
/// time: two that share a number would take one another's completions.
#[derive(Drop)]
pub struct RingLink {
    endpoints: Vec<Endpoint>,
    completions: Vec<Completions>,
    closed: AtomicU64,
}

// So many endpoints with empty seats, whose inboxes have room for all wires that workers have on their way.
fn endpoints(alloc: Global, dcs: usize, workers: usize) -> Result<Vec<Endpoint>, AllocError>
    requires { (0 < workers) × (workers ≤ 64) }
    ensures { IfOk result (λ endpoints. vec_len endpoints ≡ dcs) }
{
    let mut endpoints = Vec::with_capacity(alloc, dcs)?;
    for dc in 0..dcs {
        endpoints.push(Endpoint {
            inbox: Ring::new(alloc, WIRES_OF_A_WORKER * workers)?,
            seat: Seat::empty(alloc)?,
        })?;
    }
    Ok(endpoints)
}

// A ring of completions for each worker.
fn rings_of_completions(alloc: Global, workers: usize) -> Result<Vec<Completions>, AllocError>
    ensures { IfOk result (λ rings. vec_len rings ≡ workers) }
{
    let mut rings = Vec::with_capacity(alloc, workers)?;
    for worker in 0..workers {
        rings.push(Ring::new(alloc, COMPLETIONS)?)?;
    }
    Ok(rings)
}

impl RingLink {
    /// Rings for so many components and 1 to 64 workers. Nothing is made where memory is refused.
    pub fn new(alloc: Global, dcs: usize, workers: usize) -> Result<RingLink, AllocError>
        requires { (1 ≤ workers) × (workers ≤ 64) }
        ensures { IfOk result (λ link. (vec_len link.endpoints ≡ dcs) × (vec_len link.completions ≡ workers)) }
    {
        Ok(RingLink {
            endpoints: endpoints(alloc, dcs, workers)?,
            completions: rings_of_completions(alloc, workers)?,
            closed: AtomicU64::new(0),
        })
    }

    /// Has this component perform the wires of its inbox, and puts a completion of each, silence too, into the
    /// ring of the worker that sent it. While the thread sleeps for want of wires, workers have the component
    /// perform theirs. Hands it back once the link is closed and the inbox was found empty; at once
    /// where there is no inbox of this number, and where another thread serves a component under it. A thread
    /// that is started with [`ServedFrom`] for a promise tells at its join where what it hands back comes from.
    pub fn serve<R: Wait>(&self, rt: &R, number: usize, dc: Dc) -> Dc
        ensures served { IsServed number dc result }
        ensures absent { vec_len self.now.endpoints ≤ number → result ≡ dc }
    {
        let Some(endpoint) = self.endpoints.get(number) else {
            return dc;
        };
        match endpoint.seat.sit(rt, number, dc) {
            Ok(pass) => {
                self.serve_inbox::<(), Free, Free, R>(rt, &endpoint.inbox, &endpoint.seat);
                endpoint.seat.leave(rt, pass)
            }
            Err(dc) => dc,
        }
    }

    // Has the component of this seat perform the wires of an inbox until that is closed and empty: at one moment
    // of the call it was.
    fn serve_inbox<
        V,
        P: Protocol<Envelope, V>,
        M: Outcome<Envelope, V> + Lesson<Envelope, V>,
        R: Wait,
    >(&self, rt: &R, inbox: &Ring<Envelope, V, P>, seat: &Seat)
        requires admits { Admits P.holds P.first }
        requires pops { (pass : ℕ) → Pops P.holds pass P.first (M.then P.first) }
        requires learns { (pass : ℕ) → Learns P.holds pass P.first (M.fact P.first) }
        ensures empty { Held 0 (M.fact P.first) }
    {
        for _ in rt.forever() {
            let Some(envelope) = inbox.take::<M, R>(rt, &self.closed) else {
                return;
            };
            let completion = Completion {
                number: envelope.wire.number,
                reply: seat.perform(rt, &envelope.wire),
            };
            self.hand_back(rt, envelope.worker, completion);
        }
        unreachable!()
    }

    // Puts a completion into a worker's ring. It is lost where the ring is full of completions that the worker
    // doesn't wait for.
    fn hand_back<R: Wait>(&self, rt: &R, worker: usize, completion: Completion) {
        if let Some(completions) = self.completions.get(worker) {
            let _ = completions.put(rt, completion);
        }
    }

    /// Ends all waiting: each component is handed back once its inbox is empty, and what is carried
    /// from now on is lost. To close again changes nothing.
    pub fn close(&self) {
        self.closed.store(1, Ordering::SeqCst);
        for endpoint in &self.endpoints {
            endpoint.inbox.wake();
        }
        for completions in &self.completions {
            completions.wake();
        }
    }

    fn is_closed(&self) -> bool {
        self.closed.load(Ordering::SeqCst) != 0
    }

    // Waits for the completion of this number, and drops those of others.
    fn reply_to<R: Wait>(&self, rt: &R, completions: &Completions, number: u64) -> Option<Reply>
        ensures { IfSome result (λ reply. reply.number ≡ number) }
    {
        for _ in rt.forever() {
            let completion = completions.take::<Free, R>(rt, &self.closed)?;
            if completion.number == number {
                return completion.reply;
            }
        }
        unreachable!()
    }

    // Waits for so many completions, and brings the requests what they reply.
    fn bring_all<O: Outstanding, R: Wait>(
        &self,
        rt: &R,
        completions: &Completions,
        count: usize,
        requests: &mut [O],
    ) {
        for _ in 0..count {
            let Some(completion) = completions.take::<Free, R>(rt, &self.closed) else {
                return;
            };
            if let Some(reply) = completion.reply {
                bring(requests, reply);
            }
        }
    }
}

impl Link for RingLink {
    /// What the wire's component replies. Nothing where there is no such component or no such
    /// worker, where the inbox is full, and where the link is closed, also while it waits.
    fn carry<R: Wait>(&self, rt: &R, worker: usize, wire: &Wire) -> Option<Reply>
        ensures absent { vec_len self.now.endpoints ≤ (target wire.now.op).dc → result ≡ None }
        ensures stranger { vec_len self.now.completions ≤ worker → result ≡ None }
        ensures number { IfSome result (λ reply. reply.number ≡ wire.now.number) }
    {
        let completions = self.completions.get(worker)?;
        let endpoint = self.endpoints.get(usize::from(wire.op.record().dc))?;
        if self.is_closed() {
            return None;
        }
        if let Some(said) = endpoint.perform_idle(wire) {
            return said;
        }
        if !endpoint.send(rt, worker, wire) {
            return None;
        }
        self.reply_to(rt, completions, wire.number)
    }

    /// Nothing: no component of this process restarts.
    fn news<R: Wait>(&self, _rt: &R, _worker: usize, _dc: u16) -> Option<News>
        ensures { result ≡ None }
    {
        None
    }

    /// Yes: the components are in this process, and are asked nothing but to perform.
    fn is_prompt(&self) -> bool
        ensures { result ≡ true }
    {
        true
    }

    /// What the wire's component replies, where its thread sleeps and it is free. Nothing where there is no such
    /// component, and where the link is closed.
    fn perform_at_once<R: Wait>(&self, _rt: &R, wire: &Wire) -> Option<Reply>
        ensures absent { vec_len self.now.endpoints ≤ (target wire.now.op).dc → result ≡ None }
        ensures number { IfSome result (λ reply. reply.number ≡ wire.now.number) }
    {
        if self.is_closed() {
            return None;
        }
        self.endpoints
            .get(usize::from(wire.op.record().dc))?
            .perform_idle(wire)?
    }

    /// The wires for components whose threads sleep are performed by them there and then; all others are put
    /// into the inboxes before the first completion is waited for.
    fn carry_all<O: Outstanding, R: Wait>(&self, rt: &R, worker: usize, requests: &mut [O]) {
        let Some(completions) = self.completions.get(worker) else {
            return;
        };
        if self.is_closed() {
            return;
        }
        let mut sent = 0usize;
        for (number, endpoint) in self.endpoints.iter().enumerate() {
            if requests
                .iter()
                .any(|request| wire_for(request, number).is_some())
                && !endpoint.perform_all_idle(requests)
            {
                sent = sent.saturating_add(endpoint.send_all(rt, worker, number, requests));
            }
        }
        self.bring_all(rt, completions, sent, requests);
    }
}

// Brings a reply to the request that carries its number, if one does.
fn bring<O: Outstanding>(requests: &mut [O], reply: Reply) {
    for request in requests {
        if is_under(request, reply.number) {
            request.bring(reply);
            return;
        }
    }
}

// Whether a wire of this number is carried.
fn is_under<O: Outstanding>(request: &O, number: u64) -> bool {
    match request.wire() {
        Some(wire) => wire.number == number,
        None => false,
    }
}
