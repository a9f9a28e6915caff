// What keeps the events of a log.

ghost use Rattle.std.specs.Prelude.{◌≡◌, ◌++◌, ℕ, List, [], reverse, OnOk, IfErr};
ghost use Rattle.tc_log.specs.declared.event.Event.{Event as EventValue};
ghost use Rattle.frame_file.specs.Device.{LeavesOnly};
ghost use Rattle.journals.specs.declared.journal.NotKept.TheVariants.{Memory};

use std::alloc::AllocError;
use tc_log::log::Log;

/// Why events weren't kept. How many of them were isn't known, and the journal isn't asked again.
#[derive(Clone, Copy, Debug, PartialEq, Eq)]
pub enum NotKept {
    /// There was no memory for them.
    Memory,
    /// The journal failed, as a device that is full or gone.
    Failed,
}

impl From<AllocError> for NotKept {
    ghost from_gives = { λ _ why. why ≡ Memory };

    fn from(_: AllocError) -> Self {
        NotKept::Memory
    }
}

/// What keeps the events of a log where they outlast the run, as a file does.
pub trait Journal {
    ghost use Rattle.std.specs.Prelude.{ℕ, Bool, List, []};
    ghost use Rattle.tc_log.specs.declared.event.Event.{Event};
    ghost use Rattle.journals.specs.declared.journal.NotKept.{NotKept as Why};

    /// Whether it keeps anything.
    ghost keeps: { Self → Bool };

    /// It has kept these events, the oldest first. Which events are kept in a file is for the journal to
    /// say: they needn't be a function of the journal itself.
    ghost has_kept: { Self → List Event → Type 0 };

    /// The moment, as a number that doesn't fall.
    ghost moment: { Self → ℕ };

    /// The bytes that a crash at some moment from that one on might have left, during a call or between two. Of a
    /// journal that outlasts no crash there are none.
    ghost left_since: { Self → ℕ → List ℕ → Type 0 };

    /// A crash may leave these bytes of a journal that had kept the first events, while it was keeping the others
    /// behind them.
    ghost leaves: { Self → List Event → List Event → List ℕ → Type 0 };

    /// It may say so why events weren't kept, by a call that found it as the first and left it as the second.
    ghost fails: { Self → Why → Self → Type 0 };

    /// Whether it keeps anything. One that doesn't isn't asked to.
    fn keeps(&self) -> bool
        ensures { result ≡ keeps self.now };

    /// Keeps these events behind those that it has kept. At Ok a crash doesn't lose them. It is called by one
    /// worker at a time, and no lock but the journal's own is held.
    fn keep(&mut self, events: &Log) -> Result<(), NotKept>
        ensures kept { (before : List EventValue) → has_kept self.old before
            → OnOk result (has_kept self.new (before ++ reverse events.now.events)) }
        // Whatever comes of it, a crash at any moment of the call leaves all that was kept before it.
        ensures any_moment { (before : List EventValue) → has_kept self.old before
            → LeavesOnly moment left_since self.old self.new (leaves self.old before (reverse events.now.events)) }
        ensures same { (before more : List EventValue) (left : List ℕ) → leaves self.new before more left → leaves self.old before more left }
        // It doesn't give up by itself.
        ensures failed { IfErr result (λ why. fails self.old why self.new) }
        ensures goes_on { keeps self.new ≡ keeps self.old };

    /// A crash at this moment leaves what is kept.
    ghost kept_now: { (journal : Self) (events : List Event) (left : List ℕ) → has_kept journal events
        → left_since journal (moment journal) left → leaves journal events [] left };
}

/// No journal. It keeps nothing.
#[derive(Clone, Copy)]
pub struct NoJournal;

impl Journal for NoJournal {
    ghost use Rattle.std.specs.Prelude.{false};

    ghost keeps = { λ journal. false };

    ghost has_kept = { λ journal events. ⊥ };

    ghost moment = { λ journal. 0 };

    ghost left_since = { λ journal since left. ⊥ };

    ghost leaves = { λ journal before more left. ⊥ };

    ghost fails = { λ before why after. Unit {0} };

    ghost kept_now = { λ journal events left kept now. now };

    fn keeps(&self) -> bool {
        false
    }

    fn keep(&mut self, _events: &Log) -> Result<(), NotKept> {
        Err(NotKept::Failed)
    }
}
