// Workers over one lock.

ghost use Rattle.std.specs.Prelude.{◌≡◌, ◌<◌, ◌≤◌, ℕ, [], true, length, Some, slice_get, IfOk, IfErr, OnOk};
ghost use Rattle.std.specs.Prelude.{vec_capacity};
ghost use Rattle.worker_pool.specs.Joining.Seen.{IsAnswered, AnswersStay};
ghost use Rattle.worker_pool.specs.Journals.{HasGoneOn};
ghost use Rattle.worker_pool.specs.Reports.{Reports};
ghost use Rattle.worker_pool.specs.Joining.Ran.{StopFits, IsFaultOf, KeepsAll};

use crate::acknowledgement::{Acknowledgement, ReadyAnswer};
use crate::answer::Answer;
use crate::attempt::Attempt;
use crate::group_commit::{GroupCommit, GroupCommitLock, Stopped};
use crate::outstanding_calls::{MostCalls, OutstandingCalls};
use crate::performing::{AtOnce, RunPerformer};
use crate::pool_state::{Next, PoolState};
use crate::report::Report;
use crate::run_spec::RunSpec;
use crate::running::RunFault;
use crate::stage::Stage;
use access_slots::op::{Reply, Wire};
use dc_links::{Link, acquire};
use journals::{Journal, NotKept};
use std::alloc::Global;
use std::sync::{Condvar, Mutex, Wait};
use std::thread;
use std::thread::Threads;
use tc_core::state::{Call, TcState};

const ONE_CALL: MostCalls = MostCalls {
    away: 1,
    waiting: 1,
    of_a_taking: 1,
};

// So many calls are taken up, gone on with and end while a worker holds the pool's lock, for about a millisecond then, in a
// run with a journal.
const CALLS_OF_A_TAKING: usize = 512;

// The same without a journal, where no answer waits for a sync. To hand the lock over, with the state to another
// processor's cache, takes as long as some 200 calls.
const CALLS_WITHOUT_JOURNAL: usize = 8192;

// So many calls of a worker wait for other transactions over a link that leaves wires on their way.
const WAITING_CALLS: usize = 64;

/// What is told of the calls, by their places in the list.
pub trait Gate {
    /// The call was admitted. It is called once, before anything is sent for it, and without the lock unless the gate
    /// only notes.
    fn begun(&self, call: usize);

    /// A call came to a stage of its way. It is called without the lock unless the gate only notes, of each wait once.
    /// Where no other worker is left, nobody is told of waits.
    fn reaches(&self, _call: usize, _stage: Stage) {}

    /// A call's answer is there, and in a run with a journal the log that it is true of is kept. It is called once,
    /// without the lock, one after the other of the answers that a worker came to under one taking of the lock, in the
    /// order of the log. A call that isn't tried, since memory ran out before it, is told to nobody.
    fn answered<J: RunSpec>(&self, acknowledgement: &Acknowledgement<J>);

    /// Whether the gate only notes where a call is begun or reaches a stage, and waits for nobody then: so it is told of
    /// that under the lock too. Then, over a link that performs at once, a call is run under one taking of the lock, as
    /// far as the link performs.
    fn only_notes(&self) -> bool {
        false
    }

    /// Whether the gate never keeps a worker for long, also not where it is told of an answer: then a worker may have
    /// more than one call on their way at a time.
    fn is_prompt(&self) -> bool {
        false
    }
}

/// A gate that does nothing.
pub struct OpenGate;

impl Gate for OpenGate {
    fn begun(&self, _call: usize) {}

    fn answered<J: RunSpec>(&self, _acknowledgement: &Acknowledgement<J>) {}

    fn only_notes(&self) -> bool {
        true
    }

    fn is_prompt(&self) -> bool {
        true
    }
}

// A worker's number, its link and gate, and how many calls it has on their way at most.
#[derive(Drop)]
struct Worker<'a, L, G> {
    number: usize,
    link: &'a L,
    gate: &'a G,
    most: MostCalls,
}

// Tells an answer as soon as what it names is kept, where no other worker is left.
fn conclude_alone<J: RunSpec, K: Journal, R: Wait, G: Gate>(
    rt: &R,
    pool_state: &mut PoolState<J>,
    ready: ReadyAnswer<J>,
    gate: &G,
    group_commit: &mut GroupCommit<J, K>,
) -> Result<(), Stopped<J>>
    ensures same { pool_state.new ≡ pool_state.old }
    ensures stopped { IfErr result (λ stopped. group_commit.new.fault ≡ Some stopped.why) }
{
    group_commit
        .conclude_alone(rt, pool_state, ready)?
        .tell(gate);
    Ok(())
}

// Carries a call's wire, where no other worker is left.
fn carry_alone<R: Wait, L: Link, G: Gate>(
    rt: &R,
    k: usize,
    wire: &Wire,
    stage: Stage,
    worker: &Worker<L, G>,
) -> Option<Reply> {
    worker.gate.reaches(k, stage);
    let reply = worker.link.carry(rt, worker.number, wire);
    worker.gate.reaches(k, Stage::Back);
    reply
}

// Runs a call to its answer, where no other worker is left.
fn run_alone<J: RunSpec, K: Journal, R: Wait, L: Link, G: Gate>(
    rt: &R,
    pool_state: &mut PoolState<J>,
    k: usize,
    call: &Call,
    worker: &Worker<L, G>,
    group_commit: &mut GroupCommit<J, K>,
) -> Result<(), Stopped<J>>
    requires { slice_get J.calls k ≡ Some call.now }
    ensures answered { IsAnswered pool_state.new.progress k × AnswersStay pool_state.old.progress pool_state.new.progress }
    ensures stopped { IfErr result (λ stopped. group_commit.new.fault ≡ Some stopped.why) }
{
    let mut attempt = Attempt::none();
    let performer = AtOnce::unwanted(rt, worker.link, worker.gate);
    let mut carried = Stage::Carried;
    let mut next = pool_state.advance(k, call, &mut attempt, &performer);
    for _ in rt.forever() {
        next = match next {
            Next::Over => {
                pool_state.abandon(attempt);
                let ready = pool_state.ready(k, call);
                worker.gate.reaches(k, Stage::Answered);
                return conclude_alone(rt, pool_state, ready, worker.gate, group_commit);
            }
            Next::LeftOut => {
                pool_state.abandon(attempt);
                return Ok(());
            }
            Next::Begun => {
                worker.gate.begun(k);
                pool_state.advance(k, call, &mut attempt, &performer)
            }
            Next::Busy => {
                thread::yield_now();
                pool_state.advance(k, call, &mut attempt, &performer)
            }
            Next::Carry => match carry_alone(rt, k, attempt.wire(), carried, worker) {
                Some(reply) => {
                    carried = Stage::Carried;
                    pool_state.hear(k, call, &mut attempt, &reply, &performer)
                }
                None => Next::Unanswered,
            },
            Next::Unanswered => {
                carried = Stage::CarriedAgain;
                let news = worker.link.news(rt, worker.number, attempt.dc());
                pool_state.go_on_unanswered(k, call, &mut attempt, news, &performer)
            }
        };
    }
    unreachable!()
}

// Runs every call that has no answer to its answer: first those that were begun.
fn run_all_alone<J: RunSpec, K: Journal, R: Wait, L: Link, G: Gate>(
    rt: &R,
    pool_state: &mut PoolState<J>,
    calls: &[Call],
    worker: &Worker<L, G>,
    group_commit: &mut GroupCommit<J, K>,
) -> Result<(), Stopped<J>>
    requires { calls.now ≡ J.calls }
    ensures answered { OnOk result ((k : ℕ) → k < length calls.now → IsAnswered pool_state.new.progress k) }
    ensures stopped { IfErr result (λ stopped. group_commit.new.fault ≡ Some stopped.why) }
{
    for (k, call) in calls.iter().enumerate() {
        if pool_state.is_begun(k) {
            run_alone(rt, pool_state, k, call, worker, group_commit)?;
        }
    }
    for (k, call) in calls.iter().enumerate() {
        if !pool_state.is_answered(k) {
            run_alone(rt, pool_state, k, call, worker, group_commit)?;
        }
    }
    Ok(())
}

// The same, in a run that didn't stop before, and then keeps what is left of the log.
fn run_and_keep<J: RunSpec, K: Journal, R: Wait, L: Link, G: Gate>(
    rt: &R,
    pool_state: &mut PoolState<J>,
    calls: &[Call],
    worker: &Worker<L, G>,
    group_commit: &mut GroupCommit<J, K>,
) -> Result<(), Stopped<J>>
    requires { calls.now ≡ J.calls }
    ensures answered { OnOk result ((k : ℕ) → k < length calls.now → IsAnswered pool_state.new.progress k) }
    ensures kept { OnOk result (J.keeps ≡ true
        → KeepsAll K.has_kept J.before J.start.events pool_state.new.state.events group_commit.new) }
    ensures stopped { IfErr result (λ stopped. group_commit.new.fault ≡ Some stopped.why) }
{
    group_commit.check()?;
    run_all_alone(rt, pool_state, calls, worker, group_commit)?;
    group_commit.keep_rest(rt, pool_state)
}

// The lock, what tells of transactions that leave the way, and the run's journal, which is under a lock of
// its own. Nobody waits for the journal who holds the pool's state.
pub(crate) struct Pool<J: RunSpec, K: Journal> {
    state: Mutex<PoolState<J>>,
    freed: Condvar,
    commit_lock: GroupCommitLock<J, K>,
}

// Tells an answer as soon as what it names is kept. Where it can't be the run stops, and who waits for a
// change is woken to see that.
fn conclude<J: RunSpec, K: Journal, R: Wait, G: Gate>(
    rt: &R,
    pool: &Pool<J, K>,
    ready: ReadyAnswer<J>,
    gate: &G,
) {
    match pool.commit_lock.conclude(rt, &pool.state, ready) {
        Some(acknowledgement) => acknowledgement.tell(gate),
        None => {
            drop(acquire(rt, &pool.state));
            pool.freed.notify_all();
        }
    }
}

// Under one taking of the lock, the pool's state hears what came back, and calls are taken up. Where all that is left
// has another transaction in its way, waits for a change, once the gate is told. Whether anything is on its way then, or
// ready.
#[inline(always)]
fn schedule<J: RunSpec, K: Journal, R: Wait, P: RunPerformer<J>, G: Gate>(
    rt: &R,
    pool: &Pool<J, K>,
    calls: &[Call],
    outstanding_calls: &mut OutstandingCalls<J>,
    performer: &P,
    gate: &G,
) -> bool
    requires { calls.now ≡ J.calls }
{
    let mut pool_state = acquire(rt, &pool.state);
    outstanding_calls.hear(&mut *pool_state, calls, performer);
    for _ in rt.forever() {
        outstanding_calls.take_up(&mut *pool_state, calls, performer);
        if !outstanding_calls.is_idle() {
            drop(pool_state);
            if outstanding_calls.is_ready() {
                pool.freed.notify_all();
            }
            return true;
        }
        if !outstanding_calls.is_waiting() || pool.commit_lock.is_stopped() {
            return false;
        }
        if gate.only_notes() {
            outstanding_calls.tell_waiting(gate);
        }
        if outstanding_calls.has_new_wait() {
            drop(pool_state);
            outstanding_calls.tell_waiting(gate);
            pool_state = acquire(rt, &pool.state);
        } else {
            pool_state = pool.freed.wait(rt, pool_state);
        }
    }
    unreachable!()
}

// What a worker does: it runs calls, each to its answer, until none is left or the run stops. Gate, link and journal are
// called without the lock, but for what the link performs at once. Where there is no memory for its outstanding calls, it
// takes none, and others do.
fn work<J: RunSpec, K: Journal, R: Wait, L: Link, G: Gate>(
    rt: &R,
    alloc: Global,
    pool: &Pool<J, K>,
    calls: &[Call],
    worker: &Worker<L, G>,
)
    requires { calls.now ≡ J.calls }
{
    let gate = worker.gate;
    let performer = AtOnce::new(rt, worker.link, gate);
    let mut outstanding_calls = OutstandingCalls::new(alloc);
    if outstanding_calls.reserve(worker.most).is_ok() {
        for _ in rt.forever() {
            if pool.commit_lock.is_stopped()
                || !schedule(rt, pool, calls, &mut outstanding_calls, &performer, gate)
            {
                break;
            }
            outstanding_calls.tell_waiting(gate);
            outstanding_calls.tell_begun(gate);
            outstanding_calls.tell_ready(gate);
            while let Some(ready) = outstanding_calls.next_ready() {
                conclude(rt, pool, ready, gate);
            }
            if pool.commit_lock.is_stopped() {
                break;
            }
            outstanding_calls.exchange(rt, worker.number, worker.link, gate);
        }
    }
    let mut pool_state = acquire(rt, &pool.state);
    outstanding_calls.close(&mut *pool_state);
}

// How many calls each of so many workers has on their way at a time: one where a call could wait for another's wire or
// gate. Over a prompt link one worker, and each in a run with a journal, carries one call's wires after the other's.
fn at_a_time<L: Link, G: Gate>(
    link: &L,
    gate: &G,
    has_journal: bool,
    workers: usize,
    calls: usize,
) -> MostCalls {
    let window = link.window().max(1);
    let is_prompt = link.is_prompt();
    if !gate.is_prompt() || (!is_prompt && window == 1) {
        return ONE_CALL;
    }
    MostCalls {
        away: if is_prompt && (has_journal || workers == 1) {
            1
        } else {
            window
        },
        waiting: if is_prompt { 1 } else { WAITING_CALLS },
        of_a_taking: if has_journal {
            CALLS_OF_A_TAKING
        } else {
            CALLS_WITHOUT_JOURNAL.min(calls.max(1))
        },
    }
}

// Starts the workers and joins them. Answers how many were started.
pub(crate) fn work_all<
    J: RunSpec + Send + Sync,
    K: Journal + Send,
    R: Threads + Wait + Sync,
    L: Link + Sync,
    G: Gate + Sync,
>(
    rt: &R,
    alloc: Global,
    pool: &Pool<J, K>,
    calls: &[Call],
    workers: usize,
    link: &L,
    gate: &G,
) -> usize
    requires { calls.now ≡ J.calls }
{
    let most = at_a_time(
        link,
        gate,
        pool.commit_lock.has_journal(),
        workers,
        calls.len(),
    );
    thread::scope(
        thread::scope_env(),
        rt,
        |scope| -> usize
            requires { calls.now ≡ J.calls }
        {
            let mut started = 0usize;
            for number in 0..workers {
                let body = move ||
                    requires { calls.now ≡ J.calls }
                {
                    work(
                        rt,
                        alloc,
                        pool,
                        calls,
                        &Worker {
                            number,
                            link,
                            gate,
                            most,
                        },
                    )
                };
                if scope.spawn(body).is_ok() {
                    started = started.saturating_add(1);
                }
            }
            started
        },
    )
}

impl<J: RunSpec, K: Journal> Pool<J, K> {
    // No worker holds any of it yet.
    pub(crate) fn new(pool_state: PoolState<J>, commit_lock: GroupCommitLock<J, K>) -> Pool<J, K> {
        Pool {
            state: Mutex::new(pool_state),
            freed: Condvar::new(),
            commit_lock,
        }
    }

    // What came of a run once its workers have ended, of whom so many were started, and the journal behind it.
    pub(crate) fn ran_by<R: Wait, L: Link, G: Gate>(
        self,
        rt: &R,
        started: usize,
        calls: &[Call],
        answers: Vec<Answer>,
        link: &L,
        gate: &G,
    ) -> (GroupCommit<J, K>, Result<Report, RunFault>)
        requires calls { calls.now ≡ J.calls }
        requires empty { answers.items ≡ [] }
        requires room { length J.calls ≤ vec_capacity answers }
        ensures report { IfOk result.1 (λ r. Reports J.start J.calls r.state r.answers.items) }
        ensures kept { IfOk result.1 (λ r. J.keeps ≡ true → KeepsAll K.has_kept J.before J.start.events r.state.events result.0) }
        ensures stopped { IfErr result.1 (StopFits J.start J.keeps) }
        ensures unkept { IfErr result.1 (IsFaultOf result.0) }
    {
        let Pool {
            state,
            freed: _,
            commit_lock,
        } = self;
        let pool_state = state.into_inner();
        let mut group_commit = commit_lock.into_group_commit();
        if started == 0 && !pool_state.is_touched() {
            let fault = RunFault::NoThread(pool_state.into_state());
            return (group_commit, Err(fault));
        }
        let worker = Worker {
            number: 0,
            link,
            gate,
            most: ONE_CALL,
        };
        let ran = completed(rt, pool_state, calls, answers, &worker, &mut group_commit);
        (group_commit, ran)
    }
}

// The report, once each call that has no answer yet has one, and all is kept.
fn completed<J: RunSpec, K: Journal, R: Wait, L: Link, G: Gate>(
    rt: &R,
    mut pool_state: PoolState<J>,
    calls: &[Call],
    answers: Vec<Answer>,
    worker: &Worker<L, G>,
    group_commit: &mut GroupCommit<J, K>,
) -> Result<Report, RunFault>
    requires calls { calls.now ≡ J.calls }
    requires empty { answers.items ≡ [] }
    requires room { length J.calls ≤ vec_capacity answers }
    ensures report { IfOk result (λ r. Reports J.start J.calls r.state r.answers.items) }
    ensures kept { IfOk result (λ r. J.keeps ≡ true
        → KeepsAll K.has_kept J.before J.start.events r.state.events group_commit.new) }
    ensures stopped { IfErr result (StopFits J.start J.keeps) }
    ensures unkept { IfErr result (IsFaultOf group_commit.new) }
{
    match run_and_keep(rt, &mut pool_state, calls, worker, group_commit) {
        Ok(()) => Ok(pool_state.close(answers)),
        Err(stopped) => {
            let why = stopped.why;
            Err(RunFault::NotKept(why, halted_by(pool_state, stopped)))
        }
    }
}

// The state of a run that stops.
fn halted_by<J: RunSpec>(pool_state: PoolState<J>, _stopped: Stopped<J>) -> TcState
    ensures { (J.keeps ≡ true) × HasGoneOn J.start result }
{
    pool_state.halted()
}
