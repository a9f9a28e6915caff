//! The last number, and those that are open.

ghost use Rattle.std.specs.Prelude.{ℕ, ◌≡◌, ◌↔◌, ◌+◌, ◌*◌, ◌<◌, ◌≤◌, ◌^◌, [], ◌∷◌, ◌++◌, true, IsErr, IfErr, IfOk, IfSome, OnErr, OnOk, length, slice_get, vec_capacity};
ghost use Rattle.std.specs.List.{filter};
ghost use Rattle.request_numbers.specs.Given.{Rising, holds, others, low_water_of};
ghost use Rattle.request_numbers.specs.LowWater.{IsLowWater};
ghost use Rattle.request_numbers.specs.Places.{numbers_of, open_of, first_open, place_of};

use std::alloc::{AllocError, Global};
use std::marker::Model;

/// The numbers are spent: 2^62 of them were given out (N1).
#[derive(Clone, Copy, Debug, PartialEq, Eq)]
pub struct Spent;

const MOST: u64 = 1 << 62;

// A number that was given out, and whether it is still open.
#[derive(Clone, Copy)]
struct Place {
    number: u64,
    is_open: bool,
}

/// Numbers of requests: given out from 1 on, rising by one, and open until they are answered
/// (unique request IDs and the low-water mark of Lomet, Fekete, Weikum, Zwilling, CIDR 2009).
/// What a number costs doesn't grow with how many are open, but for a search by halves.
// An answered number leaves its place closed; once most places are, they are closed up. `first` is
// the place of the least open number, `pending` how many are.
#[derive(Drop)]
pub struct Numbers {
    last: u64,
    places: Vec<Place>,
    first: usize,
    pending: usize,
}

impl Model for Numbers {
    ghost use Rattle.std.specs.Prelude.{◌-◌, ◌/◌, ◌≤◌, ◌^◌, vec_capacity};
    ghost use Rattle.request_numbers.specs.Given.{Given};
    ghost use Rattle.request_numbers.specs.Places.{open_of, AreKept};

    ghost Value = { Given };

    ghost view = { λ n. record { last = n.last; pending = open_of n.places.items; room = vec_capacity n.places / 2 - n.pending } };

    ghost invariant = { λ n. (n.last ≤ 2 ^ 62) × AreKept n.last n.places.items n.first n.pending (vec_capacity n.places) };
}

fn twice_and(more: usize, pending: usize) -> Option<usize>
    ensures { IfSome result (λ n. n ≡ more * 2 + pending) }
{
    more.checked_mul(2)?.checked_add(pending)
}

// Where the number is, or would be.
#[inline(always)]
fn place_of(places: &[Place], number: u64) -> usize
    requires { (last : ℕ) × Rising 0 last (numbers_of places.now) }
    ensures { result ≡ place_of number places.now }
{
    places.partition_point(|place| place.number < number)
}

#[inline(always)]
fn place_at(places: &[Place], at: usize) -> Option<Place>
    ensures { result ≡ slice_get places.now at }
{
    places.get(at).copied()
}

// The place of the first open number, which isn't before this one.
#[inline(always)]
fn first_open(places: &[Place], from: usize) -> usize
    requires { from ≤ first_open places.now }
    ensures { result ≡ first_open places.now }
{
    let mut first = from;
    while first < places.len() && !places[first].is_open {
        first += 1;
    }
    first
}

// Closes the place of a number, which is open.
#[inline(always)]
fn close(places: &mut Vec<Place>, number: u64)
    requires rising { (last : ℕ) × Rising 0 last (numbers_of places.old.items) }
    requires open { holds number (open_of places.old.items) ≡ true }
    ensures open { open_of places.new.items ≡ others number (open_of places.old.items) }
    ensures numbers { numbers_of places.new.items ≡ numbers_of places.old.items }
    ensures first { first_open places.old.items ≤ first_open places.new.items }
    ensures capacity { vec_capacity places.new ≡ vec_capacity places.old }
{
    let at = place_of(places.as_slice(), number);
    places[at].is_open = false;
}

// Leaves the open places alone.
fn leave_open(places: &mut Vec<Place>)
    ensures items { places.new.items ≡ filter (λ p. p.is_open) places.old.items }
    ensures capacity { vec_capacity places.new ≡ vec_capacity places.old }
{
    places.retain(|place| place.is_open);
}

// Where the first open place is, which isn't before this one, once the closed places are left out if
// they are most.
#[inline(always)]
fn settled(places: &mut Vec<Place>, from: usize, pending: usize) -> usize
    requires from { from ≤ first_open places.old.items }
    requires pending { pending ≡ length (open_of places.old.items) }
    ensures open { open_of places.new.items ≡ open_of places.old.items }
    ensures rising { (last : ℕ) → Rising 0 last (numbers_of places.old.items) → Rising 0 last (numbers_of places.new.items) }
    ensures first { result ≡ first_open places.new.items }
    ensures half { length places.new.items ≤ pending + pending }
    ensures capacity { vec_capacity places.new ≡ vec_capacity places.old }
{
    if pending == 0 {
        places.clear();
        return 0;
    }
    let closed = places.len() - pending;
    if closed > pending {
        leave_open(places);
        return 0;
    }
    first_open(places.as_slice(), from)
}

impl Numbers {
    /// None is given out yet. It takes no memory.
    pub fn new(alloc: Global) -> Numbers
        ensures last { result.last ≡ 0 }
        ensures pending { result.pending ≡ [] }
    {
        Numbers {
            last: 0,
            places: Vec::new(alloc),
            first: 0,
            pending: 0,
        }
    }

    /// Goes on behind this number, where none is open: all up to it count as given out and answered.
    pub fn begin_behind(&mut self, last: u64)
        requires few { last ≤ 2 ^ 62 }
        requires none { self.old.pending ≡ [] }
        ensures last { self.new.last ≡ last }
        ensures pending { self.new.pending ≡ [] }
        ensures room { self.new.room ≡ self.old.room }
    {
        self.last = last;
    }

    /// The last number given out, 0 before the first.
    pub fn last(&self) -> u64
        ensures value { result ≡ self.now.last }
        ensures few { self.now.last ≤ 2 ^ 62 }
    {
        self.last
    }

    /// Makes room for so many more open numbers.
    #[inline(always)]
    pub fn reserve(&mut self, more: usize) -> Result<(), AllocError>
        ensures last { self.new.last ≡ self.old.last }
        ensures pending { self.new.pending ≡ self.old.pending }
        ensures ok { OnOk result (more ≤ self.new.room) }
        ensures room { self.old.room ≤ self.new.room }
    {
        match twice_and(more, self.pending) {
            Some(least) => self.places.reserve(least),
            None => Err(AllocError),
        }
    }

    /// Gives out the next number, which is open from now on; refused where 2^62 were given out.
    /// It takes no memory: there has to be room.
    #[inline(always)]
    pub fn next(&mut self) -> Result<u64, Spent>
        requires { 0 < self.old.room }
        ensures spent { IsErr result ↔ (self.old.last ≡ 2 ^ 62) }
        ensures err { OnErr result (self.new ≡ self.old) }
        ensures number { IfOk result (λ n. n ≡ self.old.last + 1) }
        ensures last { IfOk result (λ n. self.new.last ≡ n) }
        ensures pending { IfOk result (λ n. self.new.pending ≡ self.old.pending ++ n ∷ []) }
        ensures room { OnOk result (self.new.room + 1 ≡ self.old.room) }
    {
        if self.last >= MOST {
            return Err(Spent);
        }
        self.last += 1;
        self.places.push_reserved(Place {
            number: self.last,
            is_open: true,
        });
        self.pending += 1;
        Ok(self.last)
    }

    /// Gives out the next number, which is answered already: none more is open.
    #[inline(always)]
    pub fn pass(&mut self)
        requires { self.old.last < 2 ^ 62 }
        ensures last { self.new.last ≡ self.old.last + 1 }
        ensures pending { self.new.pending ≡ self.old.pending }
        ensures room { self.new.room ≡ self.old.room }
    {
        let number = self.last + 1;
        self.last = number;
    }

    /// Whether the number was given out and isn't answered.
    pub fn is_open(&self, number: u64) -> bool
        ensures { result ≡ holds number self.now.pending }
    {
        let at = place_of(self.places.as_slice(), number);
        match place_at(self.places.as_slice(), at) {
            Some(place) => place.number == number && place.is_open,
            None => false,
        }
    }

    /// The open number is answered, and its place is free again.
    #[inline(always)]
    pub fn answered(&mut self, number: u64)
        requires { holds number self.old.pending ≡ true }
        ensures last { self.new.last ≡ self.old.last }
        ensures pending { self.new.pending ≡ others number self.old.pending }
        ensures room { self.new.room ≡ self.old.room + 1 }
    {
        close(&mut self.places, number);
        self.pending -= 1;
        self.first = settled(&mut self.places, self.first, self.pending);
    }

    /// The low-water mark: the greatest number up to which all were given out and answered, 0 at
    /// first.
    #[inline(always)]
    pub fn low_water(&self) -> u64
        ensures value { result ≡ low_water_of self.now.last self.now.pending }
        ensures greatest { IsLowWater self.now.last self.now.pending result }
    {
        match place_at(self.places.as_slice(), self.first) {
            Some(place) => place.number.saturating_sub(1),
            None => self.last,
        }
    }
}
