//! Both lists of a script's calls, answered while each data component runs in a thread of its own, and kept
//! in a journal where there is one.

ghost use Rattle.std.specs.Prelude.{◌≡◌, ◌++◌, ℕ, Bool, List, [], length, Option, is_some, Ok, IfOk, IfErr, IsErrAnd, OnOk};
ghost use Rattle.data_component.specs.Store.{Store};
ghost use Rattle.worker_pool.specs.Faults.{InRange};
ghost use Rattle.std.specs.List.{list_any};
ghost use Rattle.run_calls.specs.Answered.{AreAnswered, AreServed, is_failed, is_want_of_memory, run_status};
ghost use Rattle.run_calls.specs.Stops.{Stops};
ghost use Rattle.run_ground.specs.Kept.{KeepsLog};
ghost use Rattle.run_calls.specs.Joining.Stopping.{stop_of};
ghost use Rattle.disk_file.specs.declared.fault.FileFault.{FileFault as FaultValue};
ghost use Rattle.run_calls.specs.Joining.Servers.{ArePromised};

use crate::stop::stop_of;
use crate::watching::{Waits, Watch};
use data_component::dc::Dc;
use dc_links::{RingLink, ServedFrom};
use disk_file::FileFault;
use run_ground::ground::{Checkpoints, FileJournal, Ground};
use run_ground::stop::Stop;
use std::alloc::{AllocError, Global};
use std::snapshot::Snapshot;
use std::sync::Wait;
use std::thread;
use std::thread::{PromisedHandle, Scope, Threads};
use std::time::{Clock, Duration, Instant};
use tc_core::state::{Call, Refusal, TcState};
use worker_pool::{Answer, MOST_TRIES, MOST_WORKERS, OpenGate, Report, RunFault, run};

/// How the calls of a script are run: the second list by so many workers, each request sent so often
/// at most; with the figures of that list as notes, with an audit behind the rows, with a status that says whether one of
/// them failed, and with what slots of calls hold behind the calls' lines.
#[derive(Clone, Copy, Debug)]
pub struct Manner {
    pub workers: u64,
    pub tries: u64,
    pub stats: bool,
    pub audit: bool,
    pub strict: bool,
    pub results: bool,
}

/// Calls of both lists of a script, how they are run, and when the log begins anew meanwhile.
pub struct RunInput<'a, C> {
    pub first: &'a [C],
    pub calls: &'a [C],
    /// The place of the second list's first one among all of that list.
    pub place: usize,
    pub manner: Manner,
    pub checkpoints: Checkpoints,
}

impl<C> Clone for RunInput<'_, C> {
    fn clone(&self) -> Result<Self, AllocError> {
        Ok(*self)
    }
}

impl<C> Copy for RunInput<'_, C> {}

// What the file of a journal says of a keep that failed.
fn failure_of(journal: &Option<FileJournal>) -> Option<FileFault> {
    match journal {
        None => None,
        Some(journal) => journal.device().failure(),
    }
}

// What came of one list of calls, with the journal that has kept the log; or what stopped them.
fn listed(
    journal: Option<FileJournal>,
    ran: Result<Report, RunFault>,
) -> Result<(Report, Option<FileJournal>), Stop>
    ensures report { IfOk result (λ r. (ran ≡ Ok r.0) × (r.1 ≡ journal)) }
    ensures fault { IfErr result (λ stop. IsErrAnd ran (λ fault. (failure : Option FaultValue) × (stop ≡ stop_of fault failure))) }
{
    match ran {
        Ok(report) => Ok((report, journal)),
        Err(fault) => {
            let failure = failure_of(&journal);
            drop(journal);
            Err(stop_of(fault, failure))
        }
    }
}

/// What calls of both lists were answered, and how long those of the second list took in all, if the clock can be read.
#[derive(Drop)]
pub struct Answers {
    pub first: Vec<Answer>,
    pub calls: Vec<Answer>,
    pub elapsed: Option<Duration>,
}

// Adds answers behind these.
fn add(answers: &mut Vec<Answer>, more: Vec<Answer>) -> Result<(), AllocError>
    ensures { OnOk result (answers.new.items ≡ answers.old.items ++ more.items) }
{
    if answers.is_empty() {
        *answers = more;
        return Ok(());
    }
    answers.extend_from_slice(more.as_slice())
}

// How long both took.
fn both(one: Option<Duration>, other: Option<Duration>) -> Option<Duration> {
    one?.checked_add(other?)
}

impl Answers {
    /// None, in no time.
    pub fn new(alloc: Global) -> Answers
        ensures { (result.first.items ≡ []) × (result.calls.items ≡ []) }
    {
        Answers {
            first: Vec::new(alloc),
            calls: Vec::new(alloc),
            elapsed: Some(Duration::ZERO),
        }
    }

    /// Adds those of more calls behind them.
    pub fn add(&mut self, more: Answers) -> Result<(), AllocError>
        ensures first { OnOk result (self.new.first.items ≡ self.old.first.items ++ more.first.items) }
        ensures calls { OnOk result (self.new.calls.items ≡ self.old.calls.items ++ more.calls.items) }
    {
        let Answers {
            first,
            calls,
            elapsed,
        } = more;
        add(&mut self.first, first)?;
        add(&mut self.calls, calls)?;
        self.elapsed = both(self.elapsed, elapsed);
        Ok(())
    }
}

/// Whether a call was refused for want of memory.
pub fn has_want_of_memory(answers: &[Answer]) -> bool
    ensures { result ≡ list_any is_want_of_memory answers.now }
{
    answers.iter().any(|answer| matches!(answer, Answer::Refused(Refusal::Memory)))
}

// Whether a call was neither committed nor aborted by its procedure.
fn has_failed(answers: &[Answer]) -> bool
    ensures { result ≡ list_any is_failed answers.now }
{
    answers.iter().any(|answer| !matches!(answer, Answer::Committed(_) | Answer::Aborted(..)))
}

/// The exit status: 1 where an audit found something wrong and, if that counts, where one of these calls failed.
pub fn run_status(strict: bool, answers: &[Answer], sound: bool) -> u8
    ensures { result ≡ run_status strict answers.now sound }
{
    if strict && has_failed(answers) {
        return 1;
    }
    u8::from(!sound)
}

// What both lists left, with the data components behind them, and their answers.
fn with_dcs(
    answered: Result<(TcState, Option<FileJournal>, Answers), Stop>,
    dcs: Result<Vec<Dc>, AllocError>,
) -> Result<(Ground, Answers), Stop>
    ensures answered { IfOk result (λ r. answered ≡ Ok (r.0.state, r.0.journal, r.1)) }
    ensures dcs { IfOk result (λ r. dcs ≡ Ok r.0.dcs) }
    ensures fault { (keeps : Bool) (workers tries : ℕ) → IfErr answered (Stops keeps workers tries)
        → IfErr result (Stops keeps workers tries) }
{
    match answered {
        Ok((state, journal, answers)) => match dcs {
            Ok(dcs) => {
                let ground = Ground {
                    state,
                    dcs,
                    journal,
                };
                Ok((ground, answers))
            }
            Err(error) => {
                drop(state);
                drop(journal);
                drop(answers);
                Err(Stop::from(error))
            }
        },
        Err(stop) => {
            drop(dcs);
            Err(stop)
        }
    }
}

// How long ago that was, if the clock can be read.
fn since<R: Clock>(rt: &R, start: Option<Instant>) -> Option<Duration> {
    start?.elapsed(rt).ok()
}

// Runs the first calls by one worker, and then the others by all.
fn answer_all<R: Clock + Threads + Wait + Sync>(
    rt: &R,
    alloc: Global,
    state: TcState,
    input: RunInput<Call>,
    waits: &Waits,
    link: &RingLink,
    journal: Option<FileJournal>,
) -> Result<(TcState, Option<FileJournal>, Answers), Stop>
    ensures answered { IfOk result (λ r. AreAnswered state input.entry.first.now input.entry.calls.now
        r.2.first.items r.2.calls.items r.0) }
    ensures kept { KeepsLog journal state.events → IfOk result (λ r. KeepsLog r.1 r.0.events) }
    ensures same { IfOk result (λ r. is_some r.1 ≡ is_some journal) }
    ensures range { IfOk result (λ _. InRange input.entry.manner.workers input.entry.manner.tries) }
    ensures fault { IfErr result (Stops (is_some journal) input.entry.manner.workers input.entry.manner.tries) }
{
    let manner = input.manner;
    let workers = manner.workers as usize;
    let tries = manner.tries;
    let first = input.first;
    let (journal, ran) = run(rt, alloc, state, first, 1, tries, link, &OpenGate, journal);
    let (report, journal) = listed(journal, ran)?;
    let Report {
        state,
        answers: first,
    } = report;
    let start = Instant::now(rt).ok();
    let gate = Watch::new(rt, waits, input.place);
    let calls = input.calls;
    let (journal, ran) = run(
        rt, alloc, state, calls, workers, tries, link, &gate, journal,
    );
    let (report, journal) = listed(journal, ran)?;
    let Report {
        state,
        answers: calls,
    } = report;
    let answers = Answers {
        first,
        calls,
        elapsed: since(rt, start),
    };
    Ok((state, journal, answers))
}

// Why no call is begun where a component has no thread: the tries are looked at first.
fn unserved(tries: u64) -> Stop
    ensures { (keeps : Bool) (workers : ℕ) → Stops keeps workers tries result }
{
    if (1..=MOST_TRIES).contains(&tries) {
        Stop::NoThread
    } else {
        Stop::Tries
    }
}

// A thread that serves a component, and promises to have done no more than that.
type Server = PromisedHandle<Dc, ServedFrom>;

/// The rings to data components, with room for the threads that serve them.
#[derive(Drop)]
pub struct Rings {
    link: RingLink,
    servers: Vec<Server>,
    ghost idle: { servers.items ≡ [] },
}

impl Rings {
    /// Rings for so many components and so many workers. For a number of workers that no run has,
    /// they are those of one worker, whom the first list needs.
    pub fn new(alloc: Global, dcs: usize, workers: u64) -> Result<Rings, AllocError> {
        let workers = if (1..=MOST_WORKERS as u64).contains(&workers) {
            workers as usize
        } else {
            1
        };
        Ok(Rings {
            link: RingLink::new(alloc, dcs, workers)?,
            servers: Vec::with_capacity(alloc, dcs)?,
        })
    }
}

// Starts a thread for each component, which serves it under its number, up to the first that can't be
// started.
fn serve_all<'s, E, R: Wait + Sync>(
    scope: &Scope<'s, E>,
    rt: &'s R,
    link: &'s RingLink,
    dcs: Vec<Dc>,
    mut servers: Vec<Server>,
) -> Vec<Server>
    requires { servers.items ≡ [] }
    ensures { ArePromised dcs.items result.items }
{
    for dc in dcs {
        let number = servers.len();
        let promise = ServedFrom(number, Snapshot::of(&dc));
        let Ok(server) = scope.spawn_with(promise, move || link.serve(rt, number, dc)) else {
            return servers;
        };
        if servers.push(server).is_err() {
            return servers;
        }
    }
    servers
}

// The components that the threads hand back, each at its place.
fn handed_back<R: Threads>(rt: &R, servers: Vec<Server>) -> Result<Vec<Dc>, AllocError>
    ensures { (dcs : List Store) → ArePromised dcs servers.items → length dcs ≡ length servers.items
        → IfOk result (λ back. AreServed dcs back.items) }
{
    Ok(thread::join_promised(rt, servers)?)
}

/// Answers calls on this ground while a thread for each component serves it, and hands back what they left with what they
/// were answered. Where a thread can't be started, no call is begun. Where there is a journal, no answer is told before it
/// is kept.
pub fn answer_on<R: Clock + Threads + Wait + Sync>(
    rt: &R,
    alloc: Global,
    ground: Ground,
    input: RunInput<Call>,
    waits: &Waits,
    rings: Rings,
) -> Result<(Ground, Answers), Stop>
    ensures answered { IfOk result (λ r. AreAnswered ground.state input.entry.first.now input.entry.calls.now
        r.1.first.items r.1.calls.items r.0.state) }
    ensures served { IfOk result (λ r. AreServed ground.dcs.items r.0.dcs.items) }
    ensures kept { KeepsLog ground.journal ground.state.events → IfOk result (λ r. KeepsLog r.0.journal r.0.state.events) }
    ensures same { IfOk result (λ r. is_some r.0.journal ≡ is_some ground.journal) }
    ensures range { IfOk result (λ _. InRange input.entry.manner.workers input.entry.manner.tries) }
    ensures fault { IfErr result (Stops (is_some ground.journal) input.entry.manner.workers input.entry.manner.tries) }
{
    let (state, dcs, journal) = (ground.state, ground.dcs, ground.journal);
    let (first, calls) = (input.first, input.calls);
    let (place, manner, checkpoints) = (input.place, input.manner, input.checkpoints);
    let Rings { link, servers } = rings;
    let link = &link;
    thread::scope(
        thread::scope_env(),
        rt,
        |scope| -> Result<(Ground, Answers), Stop>
            requires { servers.items ≡ [] }
            ensures answered { IfOk result (λ r. AreAnswered state first.entry.now calls.entry.now r.1.first.items r.1.calls.items r.0.state) }
            ensures served { IfOk result (λ r. AreServed dcs.items r.0.dcs.items) }
            ensures kept { KeepsLog journal state.events → IfOk result (λ r. KeepsLog r.0.journal r.0.state.events) }
            ensures same { IfOk result (λ r. is_some r.0.journal ≡ is_some journal) }
            ensures range { IfOk result (λ _. InRange manner.workers manner.tries) }
            ensures fault { IfErr result (Stops (is_some journal) manner.workers manner.tries) }
        {
            let count = dcs.len();
            let servers = serve_all(scope, rt, link, dcs, servers);
            if servers.len() == count {
                let input = RunInput {
                    first,
                    calls,
                    place,
                    manner,
                    checkpoints,
                };
                let answered = answer_all(rt, alloc, state, input, waits, link, journal);
                link.close();
                with_dcs(answered, handed_back(rt, servers))
            } else {
                link.close();
                drop(state);
                drop(journal);
                drop(handed_back(rt, servers));
                Err(unserved(manner.tries))
            }
        },
    )
}
