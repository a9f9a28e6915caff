//! Transactions, from their Admit to their End.

ghost use Rattle.std.specs.Prelude.{◌≡◌, ◌+◌, ◌<◌, ◌^◌, option_map, length, IfOk};
ghost use Rattle.tc_log.specs.Entered.{seen};
ghost use Rattle.log_picture.specs.Lives.{ending_of, is_over, life_of, lives_from, last_of};

use std::alloc::{AllocError, Global};
use tc_log::event::{Entry, Outcome};
use tc_log::events::Events;

/// How a transaction ended, and the place of its End.
#[derive(Clone, Copy, Debug, PartialEq, Eq)]
pub struct Ending {
    pub place: usize,
    pub outcome: Outcome,
}

/// A transaction in a log, whose places are counted from 0.
#[derive(Clone, Copy, Debug, PartialEq, Eq)]
pub struct Life {
    pub txn: u64,
    pub proc: usize,
    /// The place of its Admit.
    pub begin: usize,
    /// Its End, where there is one.
    pub end: Option<Ending>,
}

impl Life {
    /// The place of its End.
    pub fn end_place(&self) -> Option<usize>
        ensures { result ≡ option_map (λ e. e.place) self.now.end }
    {
        self.end.map(|ending| ending.place)
    }

    /// The last place at which it holds its locks; of one that doesn't end, the last that there could be.
    pub fn last(&self) -> usize
        ensures { result ≡ last_of self.now }
    {
        match self.end {
            Some(ending) => ending.place,
            None => usize::MAX,
        }
    }
}

// The first End of a transaction among these events, of which the first is at this place.
fn ending_of(txn: u64, first: usize, events: &Events<'_>) -> Option<Ending>
    requires { first + length events.now < 2 ^ 64 }
    ensures { result ≡ ending_of txn first events.now }
{
    'events: for index in 0..events.len() {
        match events.entry(index) {
            Entry::End {
                txn: ended,
                outcome,
            } if ended == txn => {
                return Some(Ending {
                    place: first + index,
                    outcome,
                });
            }
            _ => {}
        }
    }
    None
}

// The transaction that the event at this place admits, if it admits one.
fn life_of(place: usize, event: &Entry<'_>, later: &Events<'_>) -> Option<Life>
    requires { place + 1 + length later.now < 2 ^ 64 }
    ensures { result ≡ life_of place (seen event.now) later.now }
{
    match event {
        Entry::Admit { txn, proc, .. } => Some(Life {
            txn: *txn,
            proc: *proc,
            begin: place,
            end: ending_of(*txn, place + 1, later),
        }),
        _ => None,
    }
}

// Whether it ends before a place.
fn is_over(from: usize, life: &Life) -> bool
    ensures { result ≡ is_over from life.now }
{
    match life.end {
        Some(ending) => ending.place < from,
        None => false,
    }
}

/// The transactions that these events, the oldest first, admit, but for those that end before a place.
pub fn lives_in(alloc: Global, events: &Events<'_>, from: usize) -> Result<Vec<Life>, AllocError>
    ensures { IfOk result (λ lives. lives.items ≡ lives_from from 0 events.now) }
{
    let mut lives = Vec::new(alloc);
    'events: for place in 0..events.len() {
        let later = events.behind(place + 1);
        match life_of(place, &events.entry(place), &later) {
            Some(life) if !is_over(from, &life) => lives.push(life)?,
            _ => {}
        }
    }
    Ok(lives)
}
