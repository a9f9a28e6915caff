// What lies under the journal's lock. Acknowledgements come from there alone.
//
// Whoever has an answer takes the journal's lock, and then, while what isn't kept is
// copied, the state's; nobody who holds the state's lock waits for the journal's. Whoever holds the journal's
// writes what all have logged by then, so that those who wait behind it find it kept.

ghost use Rattle.std.specs.Prelude.{◌≡◌, ◌+◌, ◌++◌, ◌∷◌, [], true, length, reverse, IfOk};
ghost use Rattle.worker_pool.specs.Joining.Handing.{events_of};
ghost use Rattle.worker_pool.specs.Joining.Leaving.{HasStood};

use crate::acknowledgement::{Acknowledgement, ReadyAnswer};
use crate::batch::Batch;
use crate::handed::{Count, Handed};
use crate::pool_state::PoolState;
use crate::run_spec::RunSpec;
use dc_links::acquire;
use journals::{Journal, NotKept};
use std::alloc::AllocError;
use std::marker::{Model, PhantomData};
use std::sync::atomic::{AtomicU64, Ordering};
use std::sync::{Mutex, Wait};

/// A run with a journal stops.
#[derive(Drop)]
pub struct Stopped<J: RunSpec> {
    pub why: NotKept,
    of: PhantomData<J>,
    pub ghost keeps: { J.keeps ≡ true },
}

impl<J: RunSpec> Stopped<J> {
    fn new(why: NotKept) -> Stopped<J>
        requires { J.keeps ≡ true }
        ensures { result.why ≡ why }
    {
        Stopped {
            why,
            of: PhantomData,
        }
    }
}

// What the pool's state hands over behind what was handed over before. Both locks are held whenever anything is handed
// over, so both know of the same; that types alone don't tell it is why this may look again.
fn hand_over<J: RunSpec, R: Wait>(
    rt: &R,
    pool_state: &Mutex<PoolState<J>>,
    count: &Count<J>,
    known: &Handed<J>,
    batch: &mut Batch,
) -> Result<(Handed<J>, usize), AllocError>
    ensures more { IfOk result (λ r. r.0 ≡ known.now ++ batch.new ∷ []) }
    ensures events { IfOk result (λ r. r.1 ≡ length J.start.events + length (events_of r.0)) }
    ensures stood { IfOk result (λ r. HasStood J.start r.0) }
{
    for _ in rt.forever() {
        let found = acquire(rt, pool_state).hand_over(count, known, batch)?;
        if let Some(handed) = found {
            return Ok(handed);
        }
    }
    unreachable!()
}

// The same, where no other worker is left.
fn hand_over_alone<J: RunSpec, R: Wait>(
    rt: &R,
    pool_state: &mut PoolState<J>,
    count: &Count<J>,
    known: &Handed<J>,
    batch: &mut Batch,
) -> Result<(Handed<J>, usize), AllocError>
    ensures more { IfOk result (λ r. r.0 ≡ known.now ++ batch.new ∷ []) }
    ensures all { IfOk result (λ r. pool_state.old.state.events ≡ reverse (events_of r.0) ++ J.start.events) }
    ensures events { IfOk result (λ r. r.1 ≡ length J.start.events + length (events_of r.0)) }
    ensures stood { IfOk result (λ r. HasStood J.start r.0) }
    ensures same { pool_state.new ≡ pool_state.old }
{
    for _ in rt.forever() {
        let found = pool_state.hand_over(count, known, batch)?;
        if let Some(handed) = found {
            return Ok(handed);
        }
    }
    unreachable!()
}

/// A journal, and what is known of what it has kept.
pub struct GroupCommit<J: RunSpec, K: Journal> {
    journal: K,
    // Whether the run has a journal.
    keeps: bool,
    count: Count<J>,
    // What was handed over by when something was kept last.
    handed: Handed<J>,
    // How many events the log had then.
    events: usize,
    batch: Batch,
    // Why events weren't kept, if any weren't. The journal isn't asked again then.
    fault: Option<NotKept>,
}

impl<J: RunSpec, K: Journal> Model for GroupCommit<J, K> {
    ghost use Rattle.std.specs.Prelude.{◌≡◌, ◌+◌, ℕ, List, None, Some, length};
    ghost use Rattle.tc_log.specs.declared.event.Event.{Event};
    ghost use Rattle.worker_pool.specs.Joining.Handing.{Shelf, HasAll, events_of};
    ghost use Rattle.worker_pool.specs.Joining.Leaving.{LeavesBehind};
    ghost use Rattle.worker_pool.specs.Journals.{IsUnkept};
    ghost use Rattle.journals.specs.declared.journal.NotKept.{NotKept as Why};

    ghost Value = { Shelf K };

    ghost view = { λ k. record { journal = k.journal; handed = k.handed; batch = k.batch; fault = k.fault } };

    ghost invariant = { λ k. (k.keeps ≡ J.keeps) × (k.fault ≡ None → HasAll K.has_kept J.before k.journal k.handed
        × (k.events ≡ length J.start.events + length (events_of k.handed)))
        × ((journal : K) (events : List Event) → K.has_kept journal events → J.kept events)
        × ((events : List Event) → J.before events
        → LeavesBehind K.moment K.left_since J.start J.since J.past J.leaves events k.journal)
        × ((events more : List Event) (left : List ℕ) → K.leaves k.journal events more left → J.leaves events more left)
        × ((why : Why) → k.fault ≡ Some why → IsUnkept K.fails k.journal why)
        × (K.keeps k.journal ≡ J.keeps) };
}

impl<J: RunSpec, K: Journal> GroupCommit<J, K> {
    ghost use Rattle.std.specs.Prelude.{◌≡◌, ◌+◌, ◌++◌, ◌∷◌, ℕ, List, [], None, Some, true, length, reverse, OnOk};
    ghost use Rattle.std.specs.Prelude.{IfOk, IfErr, IsErrOf};
    ghost use Rattle.tc_log.specs.declared.event.Event.{Event as EventValue};
    ghost use Rattle.worker_pool.specs.Joining.Handing.{HasAll, events_of};
    ghost use Rattle.worker_pool.specs.Joining.Leaving.{HasStood, LeavesBehind};
    ghost use Rattle.worker_pool.specs.Joining.Ran.{KeepsAll};
    ghost use Rattle.worker_pool.specs.Journals.{IsUnkept};
    ghost use Rattle.journals.specs.declared.journal.NotKept.{NotKept as Why};

    /// The journal of a run, or none, before anything is handed over. The log has so many events.
    pub fn new(
        journal: K,
        keeps: bool,
        count: Count<J>,
        handed: Handed<J>,
        events: usize,
        batch: Batch,
    ) -> GroupCommit<J, K>
        requires keeps { keeps ≡ J.keeps }
        requires goes_on { K.keeps journal ≡ J.keeps }
        requires before { (events : List EventValue) → J.before events → K.has_kept journal events }
        requires kept { (journal : K) (events : List EventValue) → K.has_kept journal events → J.kept events }
        requires handed { handed ≡ [] }
        requires events { events ≡ length J.start.events }
        requires left { (events : List EventValue) → J.before events
            → LeavesBehind K.moment K.left_since J.start J.since J.past J.leaves events journal }
        requires leaves { (events more : List EventValue) (left : List ℕ) → K.leaves journal events more left
            → J.leaves events more left }
    {
        GroupCommit {
            journal,
            keeps,
            count,
            handed,
            events,
            batch,
            fault: None,
        }
    }

    // The acknowledgement of an answer, where the log that it is true of is kept.
    fn acknowledge(&self, ready: ReadyAnswer<J>) -> Result<Acknowledgement<J>, ReadyAnswer<J>>
        ensures same { IfOk result (λ acknowledgement. acknowledgement ≡ ready) }
        ensures back { IfErr result (λ back. back ≡ ready) }
        ensures keeps { IfErr result (λ same. J.keeps ≡ true) }
    {
        if !self.keeps {
            return Ok(Acknowledgement::free(ready));
        }
        if self.fault.is_some() {
            return Err(ready);
        }
        if ready.logged > self.events {
            return Err(ready);
        }
        Ok(Acknowledgement::kept(ready))
    }

    // Whether the journal may be asked: not behind a keep that failed.
    fn may_ask(&self) -> Result<(), NotKept>
        ensures sound { OnOk result (self.now.fault ≡ None) }
        ensures failed { IfErr result (λ why. self.now.fault ≡ Some why) }
        ensures unkept { IfErr result (IsUnkept K.fails self.now.journal) }
    {
        match self.fault {
            None => Ok(()),
            Some(fault) => Err(fault),
        }
    }

    // Keeps the batch, behind which all of this is handed over and the log has so many events.
    fn write(&mut self, handed: Handed<J>, events: usize) -> Result<(), NotKept>
        requires sound { self.old.fault ≡ None }
        requires handed { handed ≡ self.old.handed ++ self.old.batch ∷ [] }
        requires events { events ≡ length J.start.events + length (events_of handed) }
        requires stood { HasStood J.start handed }
        ensures all { OnOk result ((self.new.handed ≡ handed) × HasAll K.has_kept J.before self.new.journal handed) }
        ensures failed { IfErr result (λ why. (self.new.handed ≡ self.old.handed) × (self.new.fault ≡ Some why)) }
        ensures unkept { IfErr result (IsUnkept K.fails self.new.journal) }
    {
        match self.journal.keep(self.batch.log()) {
            Ok(()) => {
                self.handed = handed;
                self.events = events;
                Ok(())
            }
            Err(fault) => {
                self.fault = Some(fault);
                Err(fault)
            }
        }
    }

    // Keeps all that the log has. The state's lock is held while that is copied, and free while it is written.
    fn keep<R: Wait>(&mut self, rt: &R, pool_state: &Mutex<PoolState<J>>) -> Result<(), NotKept>
        ensures unkept { IfErr result (IsUnkept K.fails self.new.journal) }
        ensures never_again { (why : Why) → self.old.fault ≡ Some why → (self.new ≡ self.old) × IsErrOf result why }
    {
        self.may_ask()?;
        let (handed, events) = hand_over(
            rt,
            pool_state,
            &self.count,
            &self.handed,
            &mut self.batch,
        )?;
        self.write(handed, events)
    }

    // The same, where no other worker is left.
    fn keep_alone<R: Wait>(&mut self, rt: &R, pool_state: &mut PoolState<J>) -> Result<(), NotKept>
        ensures same { pool_state.new ≡ pool_state.old }
        ensures all { OnOk result (KeepsAll K.has_kept J.before J.start.events pool_state.new.state.events self.new) }
        ensures unkept { IfErr result (IsUnkept K.fails self.new.journal) }
        ensures never_again { (why : Why) → self.old.fault ≡ Some why → (self.new ≡ self.old) × IsErrOf result why }
    {
        self.may_ask()?;
        let (handed, events) = hand_over_alone(
            rt,
            pool_state,
            &self.count,
            &self.handed,
            &mut self.batch,
        )?;
        self.write(handed, events)
    }

    // Nothing is kept any more, for this reason.
    fn stop(&mut self, why: NotKept) -> Stopped<J>
        requires keeps { J.keeps ≡ true }
        requires unkept { IsUnkept K.fails self.old.journal why }
        ensures same { self.new.journal ≡ self.old.journal }
        ensures stopped { self.new.fault ≡ Some result.why }
    {
        self.fault = Some(why);
        Stopped::new(why)
    }

    /// The acknowledgement of an answer, once the log that it is true of is kept.
    pub fn conclude<R: Wait>(
        &mut self,
        rt: &R,
        pool_state: &Mutex<PoolState<J>>,
        mut ready: ReadyAnswer<J>,
    ) -> Result<Acknowledgement<J>, Stopped<J>>
        ensures ready { IfOk result (λ acknowledgement. acknowledgement ≡ ready) }
        ensures never_again { (why : Why) → self.old.fault ≡ Some why → self.new.journal ≡ self.old.journal }
        ensures stopped { IfErr result (λ stopped. self.new.fault ≡ Some stopped.why) }
    {
        for _ in rt.forever() {
            ready = match self.acknowledge(ready) {
                Ok(acknowledgement) => return Ok(acknowledgement),
                Err(ready) => ready,
            };
            if let Err(why) = self.keep(rt, pool_state) {
                ready.forget();
                return Err(self.stop(why));
            }
        }
        unreachable!()
    }

    /// The same, where no other worker is left.
    pub fn conclude_alone<R: Wait>(
        &mut self,
        rt: &R,
        pool_state: &mut PoolState<J>,
        mut ready: ReadyAnswer<J>,
    ) -> Result<Acknowledgement<J>, Stopped<J>>
        ensures ready { IfOk result (λ acknowledgement. acknowledgement ≡ ready) }
        ensures same { pool_state.new ≡ pool_state.old }
        ensures never_again { (why : Why) → self.old.fault ≡ Some why → self.new.journal ≡ self.old.journal }
        ensures stopped { IfErr result (λ stopped. self.new.fault ≡ Some stopped.why) }
    {
        for _ in rt.forever() {
            ready = match self.acknowledge(ready) {
                Ok(acknowledgement) => return Ok(acknowledgement),
                Err(ready) => ready,
            };
            if let Err(why) = self.keep_alone(rt, pool_state) {
                ready.forget();
                return Err(self.stop(why));
            }
        }
        unreachable!()
    }

    /// Whether the run stopped, and why.
    pub fn check(&self) -> Result<(), Stopped<J>>
        ensures stopped { IfErr result (λ stopped. self.now.fault ≡ Some stopped.why) }
    {
        if !self.keeps {
            return Ok(());
        }
        match self.fault {
            None => Ok(()),
            Some(fault) => Err(Stopped::new(fault)),
        }
    }

    /// Keeps what is left of the log, in a run with a journal.
    pub fn keep_rest<R: Wait>(
        &mut self,
        rt: &R,
        pool_state: &mut PoolState<J>,
    ) -> Result<(), Stopped<J>>
        ensures same { pool_state.new ≡ pool_state.old }
        ensures all { OnOk result (J.keeps ≡ true
            → KeepsAll K.has_kept J.before J.start.events pool_state.new.state.events self.new) }
        ensures never_again { (why : Why) → self.old.fault ≡ Some why → self.new.journal ≡ self.old.journal }
        ensures stopped { IfErr result (λ stopped. self.new.fault ≡ Some stopped.why) }
    {
        if !self.keeps {
            return Ok(());
        }
        match self.keep_alone(rt, pool_state) {
            Ok(()) => Ok(()),
            Err(why) => Err(self.stop(why)),
        }
    }

    /// The journal.
    pub fn into_journal(self) -> K
        ensures same { result ≡ self.journal }
        ensures left { (events : List EventValue) → J.before events
            → LeavesBehind K.moment K.left_since J.start J.since J.past J.leaves events result }
        ensures unkept { (why : Why) → self.fault ≡ Some why → IsUnkept K.fails result why }
        ensures goes_on { K.keeps result ≡ J.keeps }
    {
        let GroupCommit {
            journal,
            keeps: _,
            count: _,
            handed: _,
            events: _,
            batch: _,
            fault: _,
        } = self;
        journal
    }
}

/// The journal of a run as all workers reach it.
pub struct GroupCommitLock<J: RunSpec, K: Journal> {
    group_commit: Mutex<GroupCommit<J, K>>,
    // Whether the run has a journal.
    has_journal: bool,
    stopped: AtomicU64,
    ghost journal_is: { has_journal ≡ J.keeps },
}

impl<J: RunSpec, K: Journal> GroupCommitLock<J, K> {
    ghost use Rattle.std.specs.Prelude.{◌≡◌, IfSome};

    /// The journal of a run that has one, or none.
    pub fn new(group_commit: GroupCommit<J, K>, has_journal: bool) -> GroupCommitLock<J, K>
        requires { has_journal ≡ J.keeps }
    {
        GroupCommitLock {
            group_commit: Mutex::new(group_commit),
            has_journal,
            stopped: AtomicU64::new(0),
        }
    }

    /// The acknowledgement of an answer, once the log that it is true of is kept; none where the run stops. In
    /// a run without a journal it is given at once.
    pub fn conclude<R: Wait>(
        &self,
        rt: &R,
        pool_state: &Mutex<PoolState<J>>,
        ready: ReadyAnswer<J>,
    ) -> Option<Acknowledgement<J>>
        ensures { IfSome result (λ acknowledgement. acknowledgement ≡ ready) }
    {
        if !self.has_journal {
            return Some(Acknowledgement::free(ready));
        }
        let concluded = self.group_commit.lock(rt).conclude(rt, pool_state, ready);
        match concluded {
            Ok(acknowledgement) => Some(acknowledgement),
            Err(_) => {
                self.stopped.store(1, Ordering::SeqCst);
                None
            }
        }
    }

    /// Whether the run has a journal.
    pub fn has_journal(&self) -> bool {
        self.has_journal
    }

    /// Whether the run stops.
    pub fn is_stopped(&self) -> bool {
        self.stopped.load(Ordering::SeqCst) == 1
    }

    /// What lies under the lock, where no other worker is left.
    pub fn into_group_commit(self) -> GroupCommit<J, K> {
        let GroupCommitLock {
            group_commit,
            has_journal: _,
            stopped: _,
        } = self;
        group_commit.into_inner()
    }
}
