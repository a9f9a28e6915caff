//! What happens to transactions.

ghost use Rattle.std.specs.Prelude.{◌≡◌, IfOk};
ghost use Rattle.tc_log.specs.Arguments.{listed};

use access_slots::op::{Op, Said};
use arrayvec::ArrayVec;
use std::alloc::{AllocError, Global};
use std::marker::Model;

// Numbers with memory of their own, which contracts see as a list.
#[derive(Debug, Drop)]
pub(crate) struct Long {
    numbers: Vec<u64>,
}

impl Model for Long {
    ghost use Rattle.std.specs.Prelude.{ℕ, List};

    ghost Value = { List ℕ };

    ghost view = { λ l. l.numbers.items };
}

impl Long {
    pub(crate) fn as_slice(&self) -> &[u64]
        ensures { result.now ≡ self.now }
    {
        self.numbers.as_slice()
    }
}

// The numbers of a call. Up to 8, the most that a procedure takes, lie in place and need no memory of their own.
#[derive(Debug, Drop)]
pub(crate) enum Numbers {
    Few(ArrayVec<u64, 8>),
    Many(Long),
}

/// The arguments of a call, which contracts see as a list.
#[derive(Debug, Drop)]
pub struct Args {
    numbers: Numbers,
}

impl Model for Args {
    ghost use Rattle.std.specs.Prelude.{ℕ, List};
    ghost use Rattle.tc_log.specs.Arguments.{listed};

    ghost Value = { List ℕ };

    ghost view = { λ a. listed a.numbers };
}

impl Args {
    /// These numbers.
    pub fn from_vec(numbers: Vec<u64>) -> Args
        ensures { result ≡ numbers.items }
    {
        let numbers = match ArrayVec::try_from(numbers.as_slice()) {
            Ok(few) => Numbers::Few(few),
            Err(_) => Numbers::Many(Long { numbers }),
        };
        Args { numbers }
    }

    /// A copy of these numbers. It takes memory only for more than 8.
    #[inline(always)]
    pub fn copy_of(alloc: Global, numbers: &[u64]) -> Result<Args, AllocError>
        ensures { IfOk result (λ a. a ≡ numbers.now) }
    {
        let numbers = match ArrayVec::try_from(numbers) {
            Ok(few) => Numbers::Few(few),
            Err(_) => Numbers::Many(Long {
                numbers: Vec::from_slice(alloc, numbers)?,
            }),
        };
        Ok(Args { numbers })
    }

    /// The numbers.
    #[inline(always)]
    pub fn as_slice(&self) -> &[u64]
        ensures { result.now ≡ self.now }
    {
        match &self.numbers {
            Numbers::Few(few) => few.as_slice(),
            Numbers::Many(many) => many.as_slice(),
        }
    }

    // How they lie.
    #[inline(always)]
    pub(crate) fn numbers(self) -> Numbers
        ensures { listed result ≡ self }
    {
        self.numbers
    }
}

/// How a transaction ended.
#[derive(Clone, Copy, Debug, PartialEq, Eq)]
pub enum Outcome {
    Committed,
    /// With the value that its procedure answered, which isn't 0.
    Aborted(u64),
    /// An insert found no room.
    NoRoom,
}

/// One event of one transaction, by its serial number; or what a log begins behind.
#[derive(Debug, Drop)]
pub enum Event {
    /// It is admitted, with all its locks.
    Admit { txn: u64, proc: usize, args: Args },
    /// It asks for an operation under a new number.
    Ask { txn: u64, number: u64, op: Op },
    /// Its request is answered.
    Answer { txn: u64, number: u64, said: Said },
    /// It undoes a write, under a new number.
    Undo { txn: u64, number: u64, op: Op },
    /// It ends, and its locks are free.
    End { txn: u64, outcome: Outcome },
    /// The log begins behind an earlier one, in which so many transactions were admitted and all of them
    /// ended, and so many numbers were given out and all of them answered. It is of no transaction.
    Checkpoint { admitted: u64, given: u64 },
}

/// An event as a log shows it, with the arguments of a call that the log keeps.
#[derive(Clone, Copy, Debug)]
pub enum Entry<'a> {
    Admit {
        txn: u64,
        proc: usize,
        args: &'a [u64],
    },
    Ask {
        txn: u64,
        number: u64,
        op: Op,
    },
    Answer {
        txn: u64,
        number: u64,
        said: Said,
    },
    Undo {
        txn: u64,
        number: u64,
        op: Op,
    },
    End {
        txn: u64,
        outcome: Outcome,
    },
    Checkpoint {
        admitted: u64,
        given: u64,
    },
}

impl Event {
    ghost use Rattle.std.specs.Prelude.{◌≡◌, IfOk};
    ghost use Rattle.tc_log.specs.Entered.{seen};

    /// The event as a log would show it.
    pub fn entry(&self) -> Entry<'_>
        ensures { seen result ≡ self.now }
    {
        match *self {
            Event::Admit {
                txn,
                proc,
                ref args,
            } => Entry::Admit {
                txn,
                proc,
                args: args.as_slice(),
            },
            Event::Ask { txn, number, op } => Entry::Ask { txn, number, op },
            Event::Answer { txn, number, said } => Entry::Answer { txn, number, said },
            Event::Undo { txn, number, op } => Entry::Undo { txn, number, op },
            Event::End { txn, outcome } => Entry::End { txn, outcome },
            Event::Checkpoint { admitted, given } => Entry::Checkpoint { admitted, given },
        }
    }

    /// The same event once more. It takes memory only for a call with more than 8 arguments.
    pub fn copied(&self, alloc: Global) -> Result<Event, AllocError>
        ensures { IfOk result (λ copy. copy ≡ self.now) }
    {
        self.entry().copied(alloc)
    }
}

impl Entry<'_> {
    ghost use Rattle.std.specs.Prelude.{◌≡◌, IfOk};
    ghost use Rattle.tc_log.specs.Entered.{seen};

    /// The event by itself. It takes memory only for a call with more than 8 arguments.
    pub fn copied(&self, alloc: Global) -> Result<Event, AllocError>
        ensures { IfOk result (λ copy. copy ≡ seen self.now) }
    {
        Ok(match *self {
            Entry::Admit { txn, proc, args } => {
                let args = Args::copy_of(alloc, args)?;
                Event::Admit { txn, proc, args }
            }
            Entry::Ask { txn, number, op } => Event::Ask { txn, number, op },
            Entry::Answer { txn, number, said } => Event::Answer { txn, number, said },
            Entry::Undo { txn, number, op } => Event::Undo { txn, number, op },
            Entry::End { txn, outcome } => Event::End { txn, outcome },
            Entry::Checkpoint { admitted, given } => Event::Checkpoint { admitted, given },
        })
    }
}
