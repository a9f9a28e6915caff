// A run: its faults, and what it begins with.

ghost use Rattle.std.specs.Prelude.{◌≡◌, ◌⊎◌, ◌<◌, ◌≤◌, ℕ, List, [], true, false, length, replicate, vec_capacity};
ghost use Rattle.std.specs.Prelude.{IfOk, IfErr, MatchResult};
ghost use Rattle.tc_log.specs.declared.event.Event.{Event as EventValue};
ghost use Rattle.frame_file.specs.Device.{LeavesOnly};
ghost use Rattle.tc_core.specs.Core.{Core};
ghost use Rattle.worker_pool.specs.Joining.Unfitting.{fault_of};
ghost use Rattle.worker_pool.specs.Faults.{state_of, InRange, WorkersFit, TriesFit, FaultFits, IsUnkeptBy};
ghost use Rattle.worker_pool.specs.Reports.{Reports};
ghost use Rattle.worker_pool.specs.Journals.{HasKept, WasKept, IsLeftOfRun};

use crate::answer::{Answer, Progress};
use crate::batch::Batch;
use crate::group_commit::{GroupCommit, GroupCommitLock};
use crate::handed::Opened;
use crate::pool::{Gate, Pool, work_all};
use crate::pool_state::PoolState;
use crate::report::Report;
use crate::run_spec::RunSpec;
use dc_links::Link;
use journals::{Journal, NotKept};
use std::alloc::{AllocError, Global};
use std::marker::Brand;
use std::sync::Wait;
use std::thread::Threads;
use tc_core::state::{Call, TcState};

/// How many workers a run has at most.
pub const MOST_WORKERS: usize = 64;

/// How often a request is sent at most.
pub const MOST_TRIES: u64 = 1000;

/// Why a run has no report. The first four are looked for in this order, before any call is begun. Each hands the state
/// back.
#[derive(Drop)]
pub enum RunFault {
    /// G1: the number of workers isn't 1 to 64.
    Workers(TcState),
    /// G2: the number of tries isn't 1 to 1,000.
    Tries(TcState),
    /// G3: there is no memory for the answers.
    Memory(TcState),
    /// G4: no worker could be started.
    NoThread(TcState),
    /// G5: the journal didn't keep what it was given, and why. The state is as it was then: some calls may have
    /// ended, and some transactions may be open.
    NotKept(NotKept, TcState),
}

impl RunFault {
    /// The state: of G1 to G4 the one that was handed in.
    pub fn into_state(self) -> TcState
        ensures { result ≡ state_of self }
    {
        match self {
            RunFault::Workers(state) | RunFault::Tries(state) => state,
            RunFault::Memory(state) | RunFault::NoThread(state) => state,
            RunFault::NotKept(_, state) => state,
        }
    }
}

fn all_waiting(alloc: Global, count: usize) -> Result<Vec<Progress>, AllocError>
    ensures { IfOk result (λ v. v.items ≡ replicate count Progress.Waiting) }
{
    vec![in alloc; Progress::Waiting; count]
}

fn room_for(alloc: Global, count: usize) -> Result<Vec<Answer>, AllocError>
    ensures { IfOk result (λ v. (v.items ≡ []) × (count ≤ vec_capacity v)) }
{
    Vec::with_capacity(alloc, count)
}

// Whether so many workers can be started.
fn are_workers(workers: usize) -> bool
    ensures yes { result ≡ true → WorkersFit workers }
    ensures no { result ≡ false → (workers ≡ 0) ⊎ (64 < workers) }
{
    (1..=MOST_WORKERS).contains(&workers)
}

// Whether a request can be sent so often.
fn are_tries(tries: u64) -> bool
    ensures yes { result ≡ true → TriesFit tries }
    ensures no { result ≡ false → (tries ≡ 0) ⊎ (1000 < tries) }
{
    (1..=MOST_TRIES).contains(&tries)
}

// Room for what becomes of each call.
struct RunRoom {
    answers: Vec<Answer>,
    progress: Vec<Progress>,
}

// Why no call of a run is begun.
enum Unfit {
    Workers,
    Tries,
    Memory,
}

impl Unfit {
    // The fault that hands this state back.
    fn fault(self, state: TcState) -> RunFault
        ensures { result ≡ fault_of self state }
    {
        match self {
            Unfit::Workers => RunFault::Workers(state),
            Unfit::Tries => RunFault::Tries(state),
            Unfit::Memory => RunFault::Memory(state),
        }
    }
}

// Room for a run of these calls, in whose results no state is: to hand one on by value in several enums takes as much code
// as all else of a run.
fn room_for_run(alloc: Global, calls: &[Call], workers: usize, tries: u64) -> Result<RunRoom, Unfit>
    ensures answers { IfOk result (λ p. (p.answers.items ≡ []) × (length calls.now ≤ vec_capacity p.answers)) }
    ensures progress { IfOk result (λ p. p.progress.items ≡ replicate (length calls.now) Progress.Waiting) }
    ensures which { MatchResult result (λ _. InRange workers tries)
        (λ unfit. (state : Core) → FaultFits state false workers tries (fault_of unfit state)) }
{
    if !are_workers(workers) {
        return Err(Unfit::Workers);
    }
    if !are_tries(tries) {
        return Err(Unfit::Tries);
    }
    let Ok(answers) = room_for(alloc, calls.len()) else {
        return Err(Unfit::Memory);
    };
    let Ok(progress) = all_waiting(alloc, calls.len()) else {
        return Err(Unfit::Memory);
    };
    Ok(RunRoom { answers, progress })
}

// The run under a name for its first state, its calls and what its journal had kept.
fn run_named<
    J: RunSpec + Send + Sync,
    K: Journal + Send,
    R: Threads + Wait + Sync,
    L: Link + Sync,
    G: Gate + Sync,
>(
    rt: &R,
    alloc: Global,
    state: TcState,
    calls: &[Call],
    workers: usize,
    tries: u64,
    link: &L,
    gate: &G,
    journal: K,
    opened: Opened,
) -> (K, Result<Report, RunFault>)
    requires state { state ≡ J.start }
    requires calls { calls.now ≡ J.calls }
    requires keeps { J.keeps ≡ K.keeps journal }
    requires before { (events : List EventValue) → J.before events → K.has_kept journal events }
    requires kept { (later : K) (events : List EventValue) → K.has_kept later events → J.kept events }
    requires was { (events : List EventValue) → J.kept events → WasKept K.has_kept events }
    requires since { J.since ≡ K.moment journal }
    requires past { (t : ℕ) (left : List ℕ) → K.left_since journal t left → J.past t left }
    requires past_only { (t : ℕ) (left : List ℕ) → J.past t left → K.left_since journal t left }
    requires leaves { (events more : List EventValue) (left : List ℕ) → K.leaves journal events more left
        → J.leaves events more left }
    requires book { opened.seen.book ≡ J.book }
    ensures report { IfOk result.1 (λ r. Reports J.start J.calls r.state r.answers.items) }
    ensures kept { J.keeps ≡ true → IfOk result.1 (λ r. HasKept K.has_kept J.before result.0 J.start.events r.state.events) }
    ensures any_moment { (before : List EventValue) → J.before before
        → LeavesOnly K.moment K.left_since journal result.0 (IsLeftOfRun J.leaves before J.start) }
    ensures which { MatchResult result.1 (λ _. InRange workers tries) (λ f. FaultFits J.start J.keeps workers tries f) }
    ensures unkept { IfErr result.1 (IsUnkeptBy K.fails result.0) }
    ensures goes_on { K.keeps result.0 ≡ J.keeps }
{
    state.known();
    let (count, handed) = opened.named::<J>();
    let RunRoom { answers, progress } = match room_for_run(alloc, calls, workers, tries) {
        Ok(room) => room,
        Err(unfit) => return (journal, Err(unfit.fault(state))),
    };
    let events = state.log().len();
    let batch = Batch::new(alloc);
    let keeps = journal.keeps();
    let group_commit = GroupCommit::new(journal, keeps, count, handed.again(), events, batch);
    let pool_state = PoolState::new(state, progress, tries, handed);
    let commit_lock = GroupCommitLock::new(group_commit, keeps);
    let pool = Pool::new(pool_state, commit_lock);
    let started = work_all(rt, alloc, &pool, calls, workers, link, gate);
    let (group_commit, ran) = pool.ran_by(rt, started, calls, answers, link, gate);
    let journal = group_commit.into_journal();
    (journal, ran)
}

/// Runs the calls by so many workers, each call to its answer, and keeps the log in a journal, which is handed back. A
/// request that isn't answered is sent so often at most.
///
/// Behind each carry that isn't answered a worker asks the link for news of the data component. Once a
/// restart is told, nothing is sent there until what was done above the checkpoint's mark is redone;
/// each worker that wants to send something there redoes it, one number after the other, and sends each
/// so often at most. Where a number isn't redone by then, the worker gives its own request up.
///
/// A worker takes the next call and admits it; where another transaction stands in its way, it waits
/// until one ends, falls in doubt or is stuck, and tries again, unless all that stand in its way are
/// in doubt or stuck. A state that is handed in with open transactions, which no call runs, may so make `run` wait for
/// ever. Nothing is carried and no gate is told while the lock is held; where the gate only notes, it may note, and the
/// link may perform at once what a call asks: of up to 8,192 calls (512 with a journal), if both are prompt, before the
/// lock is let go.
///
/// A worker has as many calls on their way as the link's window says, if the gate is prompt. Else it has one, so that
/// none waits for another's gate: also one that only notes is told of answers. Over a prompt link the window is eight, but one
/// for a single worker, which runs the calls one after the other, and in a run with a journal. Over another link it is
/// one unless the link can leave wires on their way ([`Link::exchange`]). Then a worker goes on with a call as soon as
/// something came back for it, with as many under one taking of the lock, and sends nothing again that is on its way.
/// Up to 64 calls with a transaction in their way are laid aside for others, and tried again whenever something came
/// back to their worker. It ends once all that is on its way came back or is lost. With a journal a call may wait until
/// what others logged is kept.
///
/// Where the journal keeps anything (`NoJournal` doesn't), no answer is told to the gate before it has kept all that
/// the log had when the answer stood, and a report comes once all of the log is kept. Nothing is kept before a wire is
/// carried: that is enough where the data components end with the process, and not where they outlive it. Events are
/// written under the journal's own lock, while the state is free: whoever writes does it for all who wait. Where the
/// journal fails the run stops: no answer is told from then on, workers give up what they wait for and begin nothing.
pub fn run<R: Threads + Wait + Sync, L: Link + Sync, G: Gate + Sync, K: Journal + Send>(
    rt: &R,
    alloc: Global,
    state: TcState,
    calls: &[Call],
    workers: usize,
    tries: u64,
    link: &L,
    gate: &G,
    journal: K,
) -> (K, Result<Report, RunFault>)
    ensures report { IfOk result.1 (λ r. Reports state calls.now r.state r.answers.items) }
    ensures kept { K.keeps journal ≡ true
        → IfOk result.1 (λ r. HasKept K.has_kept (K.has_kept journal) result.0 state.events r.state.events) }
    // Whatever came of it, a crash at any moment of the run leaves a beginning of its log, behind what the journal had.
    ensures any_moment { (before : List EventValue) → K.has_kept journal before
        → LeavesOnly K.moment K.left_since journal result.0 (IsLeftOfRun (K.leaves journal) before state) }
    ensures which { MatchResult result.1 (λ _. InRange workers tries) (λ f. FaultFits state (K.keeps journal) workers tries f) }
    // It stops only where the journal failed, or there was no memory for what was to be kept.
    ensures unkept { IfErr result.1 (IsUnkeptBy K.fails result.0) }
    ensures goes_on { K.keeps result.0 ≡ K.keeps journal }
{
    run_named::<Brand, K, R, L, G>(
        rt,
        alloc,
        state,
        calls,
        workers,
        tries,
        link,
        gate,
        journal,
        Opened::new(),
    )
}
