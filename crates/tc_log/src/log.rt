//! The log. Contracts see it with the newest event first, so that one event more is one step of a
//! recursion.

ghost use Rattle.std.specs.Prelude.{◌≡◌, ◌+◌, ◌<◌, ◌≤◌, ◌^◌, [], ◌∷◌, ◌==◌, length, reverse, drop, slice_get, Some, OnOk};
ghost use Rattle.tc_log.specs.Entered.{seen, seen_if};

use crate::event::{Entry, Event, Long};
use crate::heads::{Head, lay};
use std::alloc::{AllocError, Global};
use std::marker::Model;

// No memory has room for more.
const MOST: usize = 1 << 60;

/// Events in the order in which they happened, counted from 0.
#[derive(Drop)]
pub struct Log {
    heads: Vec<Head>,
    words: Vec<u64>,
    // Of calls with more than eight arguments.
    calls: Vec<Long>,
    // So many events have room: each has a head, and at most eight words, or arguments of its own. Memory that isn't
    // written costs nothing but addresses.
    most: usize,
}

impl Model for Log {
    ghost use Rattle.std.specs.Prelude.{◌-◌, ◌*◌, ◌^◌, ◌≤◌, length, reverse, vec_capacity};
    ghost use Rattle.tc_log.specs.History.{History};
    ghost use Rattle.tc_log.specs.Heads.{events_of, AllWithin};

    ghost Value = { History };

    ghost view = { λ l.
        record { events = reverse (events_of l.words.items l.calls.items l.heads.items); room = l.most - length l.heads.items } };

    ghost invariant = { λ l.
        AllWithin (length l.words.items) (length l.calls.items) l.heads.items
        × (length l.words.items ≤ 8 * length l.heads.items) × (length l.calls.items ≤ length l.heads.items)
        × (length l.heads.items ≤ l.most) × (l.most ≤ 2 ^ 60)
        × (l.most ≤ vec_capacity l.heads) × (8 * l.most ≤ vec_capacity l.words) × (l.most ≤ vec_capacity l.calls) };
}

impl Log {
    ghost use Rattle.std.specs.Prelude.{◌≡◌, ◌+◌, ◌<◌, ◌≤◌, ◌^◌, [], ◌∷◌, ◌==◌, length, reverse, drop, slice_get, Some, OnOk};
    ghost use Rattle.tc_log.specs.Entered.{seen, seen_if};

    /// No event yet. It takes no memory.
    pub fn new(alloc: Global) -> Log
        ensures { result.events ≡ [] }
    {
        Log {
            heads: Vec::new(alloc),
            words: Vec::new(alloc),
            calls: Vec::new(alloc),
            most: 0,
        }
    }

    /// How many events there are.
    #[inline(always)]
    pub fn len(&self) -> usize
        ensures { result ≡ length self.now.events }
    {
        self.heads.len()
    }

    /// Whether there is none.
    pub fn is_empty(&self) -> bool
        ensures { result ≡ (length self.now.events == 0) }
    {
        self.len() == 0
    }

    /// What the type keeps, told to a caller: no memory has room for more.
    #[inline(always)]
    pub fn known(&self)
        ensures { length self.now.events ≤ 2 ^ 60 }
    {
        let _ = &self.most;
    }

    /// The event at this place, the oldest at 0.
    #[tactic(auto, using(crate::proofs::Laying::none_there))]
    pub fn at(&self, place: usize) -> Option<Entry<'_>>
        ensures { seen_if result ≡ slice_get (reverse self.now.events) place }
    {
        if place < self.len() {
            Some(self.entry(place))
        } else {
            None
        }
    }

    /// The event at this place, where there is one.
    #[inline(always)]
    pub fn entry(&self, place: usize) -> Entry<'_>
        requires { place < length self.now.events }
        ensures there { slice_get (reverse self.now.events) place ≡ Some (seen result) }
        ensures first { drop place (reverse self.now.events) ≡ seen result ∷ drop (place + 1) (reverse self.now.events) }
    {
        let head = &self.heads[place];
        head.entry(self.words.as_slice(), self.calls.as_slice())
    }

    /// Makes room for so many more events.
    #[inline(always)]
    pub fn reserve(&mut self, more: usize) -> Result<(), AllocError>
        ensures events { self.new.events ≡ self.old.events }
        ensures ok { OnOk result (more ≤ self.new.room) }
        ensures fits { OnOk result (length self.new.events + more ≤ 2 ^ 62) }
        ensures room { self.old.room ≤ self.new.room }
    {
        if more <= self.most - self.heads.len() {
            return Ok(());
        }
        self.grow(more)
    }

    // The same where there is less.
    fn grow(&mut self, more: usize) -> Result<(), AllocError>
        ensures events { self.new.events ≡ self.old.events }
        ensures ok { OnOk result (more ≤ self.new.room) }
        ensures fits { OnOk result (length self.new.events + more ≤ 2 ^ 62) }
        ensures room { self.old.room ≤ self.new.room }
    {
        let len = self.heads.len();
        if more > MOST - len {
            return Err(AllocError);
        }
        self.heads.reserve(more)?;
        self.words.reserve(8 * (len + more) - self.words.len())?;
        self.calls.reserve(len + more - self.calls.len())?;
        self.most = MOST
            .min(self.heads.capacity())
            .min(self.words.capacity() / 8)
            .min(self.calls.capacity());
        Ok(())
    }

    /// This event alone in place of all that there are. The memory stays, for further ones.
    pub fn begin_anew(&mut self, event: Event)
        requires { 0 < self.old.room + length self.old.events }
        ensures events { self.new.events ≡ event ∷ [] }
        ensures room { self.new.room + 1 ≡ self.old.room + length self.old.events }
    {
        self.clear();
        self.push(event)
    }

    // No event any more.
    fn clear(&mut self)
        ensures events { self.new.events ≡ [] }
        ensures room { self.new.room ≡ self.old.room + length self.old.events }
    {
        self.heads.clear();
        self.words.clear();
        self.calls.clear();
    }

    /// One event more. It takes no memory: there has to be room.
    #[inline(always)]
    pub fn push(&mut self, event: Event)
        requires { 0 < self.old.room }
        ensures events { self.new.events ≡ event ∷ self.old.events }
        ensures room { self.new.room + 1 ≡ self.old.room }
    {
        let head = lay(&mut self.words, &mut self.calls, event);
        self.heads.push_reserved(head)
    }
}
