//! Some of a log's events.

ghost use Rattle.std.specs.Prelude.{◌≡◌, ◌+◌, ◌<◌, ◌≤◌, ◌^◌, ◌∷◌, drop, take, length, reverse, slice_get, Some};
ghost use Rattle.tc_log.specs.Entered.{seen, seen_if};

use crate::event::Entry;
use crate::log::Log;
use std::marker::Model;

/// Events of a log that follow one another, the oldest first, counted from 0. Contracts see a list.
#[derive(Drop)]
pub struct Events<'a> {
    log: &'a Log,
    first: usize,
    count: usize,
}

impl<'a> Model for Events<'a> {
    ghost use Rattle.std.specs.Prelude.{◌+◌, ◌<◌, ◌≤◌, ◌^◌, List, drop, take, length, reverse};
    ghost use Rattle.tc_log.specs.declared.event.Event.{Event};

    ghost Value = { List Event };

    ghost view = { λ e. take e.count (drop e.first (reverse e.log.now.events)) };

    ghost invariant = { λ e. (e.first + e.count ≤ length e.log.now.events) × (e.first + e.count ≤ 2 ^ 60) };
}

impl<'a> Events<'a> {
    ghost use Rattle.std.specs.Prelude.{◌≡◌, ◌+◌, ◌<◌, ◌≤◌, ◌^◌, ◌∷◌, drop, take, length, reverse, slice_get, Some};
    ghost use Rattle.tc_log.specs.Entered.{seen, seen_if};

    /// How many there are.
    #[tactic(auto, using(crate::proofs::Parts::part_count))]
    pub fn len(&self) -> usize
        ensures { result ≡ length self.now }
    {
        self.count
    }

    /// What the type keeps, told to a caller: no memory has room for more.
    #[tactic(auto, using(crate::proofs::Parts::part_count))]
    pub fn known(&self)
        ensures { length self.now ≤ 2 ^ 60 }
    {
        let _ = &self.count;
    }

    /// The event at this place, where there is one.
    #[inline(always)]
    pub fn entry(&self, place: usize) -> Entry<'a>
        requires { place < length self.now }
        ensures there { slice_get self.now place ≡ Some (seen result) }
        ensures first { drop place self.now ≡ seen result ∷ drop (place + 1) self.now }
    {
        self.log.entry(self.first + place)
    }

    /// The event at this place.
    #[tactic(auto, using(crate::proofs::Parts::none_at))]
    pub fn at(&self, place: usize) -> Option<Entry<'a>>
        ensures { seen_if result ≡ slice_get self.now place }
    {
        if place < self.len() {
            Some(self.entry(place))
        } else {
            None
        }
    }

    /// Those from this place on.
    pub fn behind(&self, place: usize) -> Events<'a>
        requires { place ≤ length self.now }
        ensures { result ≡ drop place self.now }
    {
        Events {
            log: self.log,
            first: self.first + place,
            count: self.count - place,
        }
    }

    /// The first so many of them.
    pub fn before(&self, count: usize) -> Events<'a>
        requires { count ≤ length self.now }
        ensures { result ≡ take count self.now }
    {
        Events {
            log: self.log,
            first: self.first,
            count,
        }
    }
}

impl Log {
    ghost use Rattle.std.specs.Prelude.{◌≡◌, reverse};

    /// The events, the oldest first.
    #[tactic(auto, using(crate::proofs::Parts::all_of))]
    pub fn events(&self) -> Events<'_>
        ensures { result ≡ reverse self.now.events }
    {
        self.known();
        Events {
            log: self,
            first: 0,
            count: self.len(),
        }
    }
}
