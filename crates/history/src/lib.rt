//! What a history of events says: which locks are held, which operations are in flight, and the
//! low-water mark; what was answered, and what of it is redone. Definitions are in `specs/`; there
//! is no code here but the laws, as functions that do nothing.
//!
//! ```text
//! -- in a proof file: the mark that is kept beside the open numbers is the log's
//! use Rattle.history.proofs.Laws.{mark_is_low_water, low_water_is}
//! ```
//!
//! (So `tc_core` proves the mark on a wire. The prover computes worked rows in `proofs/Rows.antt`.)
#![tactic(auto)]

ghost use Rattle.std.specs.Prelude.{◌≡◌, ◌↔◌, ℕ, List, ◌++◌, Some, reverse, slice_get};
ghost use Rattle.tc_log.specs.declared.event.Event.{Event};
ghost use Rattle.request_numbers.specs.Given.{holds};
ghost use Rattle.request_numbers.specs.LowWater.{IsLowWater as IsMark};
ghost use Rattle.history.specs.Flight.{given, is_open, open_numbers, low_water, IsLowWater};
ghost use Rattle.history.specs.Places.{StandsAt, Begins, StartsWith};

use access_slots::op::{Op, Said};

/// An operation and its transaction, its number, and what was said to it.
#[derive(Clone, Copy, Debug, PartialEq, Eq)]
pub struct Answered {
    pub txn: u64,
    pub number: u64,
    pub op: Op,
    pub said: Said,
}

/// The numbers that were given out and aren't answered are those with an operation in flight.
pub fn open_numbers_are_in_flight()
    ensures { (h : List Event) (n : ℕ) → holds n (open_numbers h) ≡ is_open h n }
{}

/// The mark that is kept beside the open numbers is the history's low-water mark.
pub fn kept_mark_is_low_water()
    ensures { (h : List Event) (n : ℕ) → IsMark (given h) (open_numbers h) n → IsLowWater h n }
{}

/// The mark that the definition computes is the low-water mark, and the only one.
pub fn computed_mark_is_low_water()
    ensures is { (h : List Event) → IsLowWater h (low_water h) }
    ensures only { (h : List Event) (n : ℕ) → IsLowWater h n → n ≡ low_water h }
{}

/// What stands at a place of the log, counted from the oldest event, stands so in the history.
pub fn place_in_the_log()
    ensures { (h : List Event) (place : ℕ) (e : Event) → slice_get (reverse h) place ≡ Some e → StandsAt h place e }
{}

/// And back.
pub fn place_in_the_history()
    ensures { (h : List Event) (place : ℕ) (e : Event) → StandsAt h place e → slice_get (reverse h) place ≡ Some e }
{}

/// What stands at a place stays there when the history grows.
pub fn places_stay()
    ensures { (first h : List Event) (place : ℕ) (e : Event) → Begins first h → StandsAt first place e → StandsAt h place e }
{}

/// A history begins with another exactly where its log, oldest event first, starts with the
/// other's.
pub fn beginning_in_the_log()
    ensures log { (first h : List Event) → Begins first h → StartsWith (reverse first) (reverse h) }
    ensures history { (first h : List Event) → StartsWith (reverse first) (reverse h) → Begins first h }
{}
