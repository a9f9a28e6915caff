// What was handed over to be kept. The pool's state and who keeps its events lie under two locks, and of what lies
// under a lock only its type tells: so both hold what they know of one history, which only grows, of what
// was handed over. The history is in proofs alone. What stands for it when the program runs is the number
// of batches in it.

ghost use Rattle.std.specs.Prelude.{◌≡◌, ◌==◌, ◌++◌, ◌∷◌, [], true, length, MatchBool};
ghost use mathlib.Core.List.{IsPrefix};
ghost use Rattle.worker_pool.specs.Joining.Handing.{head_of};

use crate::batch::Batch;
use crate::run_spec::RunSpec;
use logbook::{Gain, Offer, Plain, Play, Rule, Seen, Start, Word};
use std::marker::{Model, PhantomData};

/// The rule of the history: its word is the number of its batches.
pub struct Counted;

impl Rule<Batch, u64> for Counted {
    ghost use Rattle.std.specs.Prelude.{[]};
    ghost use base.Fml.{ftrue};
    ghost use Rattle.worker_pool.specs.Joining.Handing.{IsCounted};

    ghost holds = { λ cells log. IsCounted cells log };

    ghost first = { [] };

    ghost hinted = { λ n log. Unit {0} };

    ghost shows = { λ log. [] };

    ghost keeps = { λ names log. ftrue };

    ghost moves = { λ ask before after answer. Unit {0} };
}

/// Nothing is traded for a batch.
pub struct Nothing;

impl Gain<Batch, u64> for Nothing {
    ghost use base.Fml.{ftrue};

    ghost after = { λ names about answer. ftrue };
}

/// The step that adds a batch.
pub struct Add;

impl Play<Batch, u64> for Add {
    ghost use Rattle.worker_pool.specs.Joining.Handing.{Adds};

    ghost then = { Adds };
}

impl Plain<Batch, Batch, u64> for Add {
    ghost use Rattle.std.specs.Prelude.{None};

    ghost ask = { λ batch. batch };

    ghost state = { λ batch. None };
}

/// A history without a batch, which no run has taken.
pub struct Opened {
    head: Word<Batch, u64, Counted>,
    seen: Seen<Batch, u64, Counted>,
    pub ghost empty: { seen.log ≡ [] },
    pub ghost head_is: { head ≡ head_of seen.book },
}

impl Opened {
    /// No batch was handed over.
    pub fn new() -> Opened {
        let (seen, mut first, _second) = Seen::open(Start::alone(), 0, 0);
        Opened {
            head: Word::tracked(0, &mut first),
            seen,
        }
    }

    /// The run's history, of which nothing is seen since there is nothing.
    pub fn named<J: RunSpec>(self) -> (Count<J>, Handed<J>)
        requires { self.seen.book ≡ J.book }
        ensures { result.1 ≡ [] }
    {
        let Opened { head, seen } = self;
        (
            Count {
                head,
                of: PhantomData,
            },
            Handed {
                batches: 0,
                seen,
                of: PhantomData,
            },
        )
    }
}

/// How many batches were handed over.
#[derive(Drop)]
pub struct Count<J: RunSpec> {
    head: Word<Batch, u64, Counted>,
    of: PhantomData<J>,
    ghost head_is: { head ≡ head_of J.book },
}

/// The batches that were handed over, as far as its holder knows. Contracts see them as lists of events.
#[derive(Drop)]
pub struct Handed<J: RunSpec> {
    batches: u64,
    seen: Seen<Batch, u64, Counted>,
    of: PhantomData<J>,
}

impl<J: RunSpec> Model for Handed<J> {
    ghost use Rattle.std.specs.Prelude.{◌≡◌, List, length};
    ghost use Rattle.tc_log.specs.declared.event.Event.{Event};

    ghost Value = { List (List Event) };

    ghost view = { λ f. f.seen.log };

    ghost invariant = { λ f. (f.batches ≡ length f.seen.log) × (f.seen.book ≡ J.book) };
}

impl<J: RunSpec> Handed<J> {
    /// A copy.
    pub fn again(&self) -> Handed<J>
        ensures { result ≡ self.now }
    {
        Handed {
            batches: self.batches,
            seen: self.seen.again(),
            of: PhantomData,
        }
    }

    /// Whether another holder knows the same.
    pub fn is_same(&self, other: &Handed<J>) -> bool
        ensures { result ≡ true → self.now ≡ other.now }
    {
        let mut both = self.seen.again();
        both.learn(&other.seen);
        self.batches == other.batches
    }

    /// Hands a batch over behind all that is known here, and says whether it did. It didn't where more was
    /// handed over than that.
    pub fn add(&mut self, count: &Count<J>, batch: &Batch) -> bool
        ensures { result ≡ true → self.new ≡ self.old ++ batch.now ∷ [] }
    {
        let batches = self.batches;
        if batches == u64::MAX {
            return false;
        }
        let mut offer: Offer<Batch, u64, Counted, Nothing> = self
            .seen
            .plain::<Nothing, Batch, Add>(batch);
        let mut pen = self.seen.no_pen();
        let found = count
            .head
            .compare_exchange::<Add, Nothing>(
                batches,
                batches + 1,
                &mut self.seen,
                &mut offer,
                &mut pen,
            );
        self.batches = if found == batches { batches + 1 } else { found };
        found == batches
    }
}
