//! A procedure's declaration: how many arguments it takes, and its access slots.

ghost use Rattle.std.specs.Prelude.{◌≡◌, ◌<◌, ◌≤◌, Some, None, MatchResult, IfSome, length, slice_get};
ghost use Rattle.access_slots.specs.Access.{record_of};
ghost use Rattle.access_slots.specs.Declaration.{decl_fault, names_argument, first_bad};
ghost use Rattle.access_slots.specs.Locks.{AreLocksOf, Rising};

use crate::lock::LockSet;
use crate::slot::{Key, Mode, Record, Slot};
use std::marker::Model;

/// Why a declaration is refused.
#[derive(Clone, Copy, Debug, PartialEq, Eq)]
pub enum DeclFault {
    /// More than 8 arguments.
    TooManyArgs,
    /// More than 16 slots.
    TooManySlots,
    /// This slot's key is an argument that there isn't.
    NoSuchArg(usize),
}

const UNUSED: Slot = Slot {
    mode: Mode::Read,
    dc: 0,
    table: 0,
    key: Key::Fixed(0),
};

/// A declaration of at most 8 arguments and 16 slots, whose keys name its arguments alone.
#[derive(Drop)]
pub struct Decl {
    args: u8,
    used: usize,
    slots: [Slot; 16],
}

impl Model for Decl {
    ghost use Rattle.access_slots.specs.Declaration.{Declaration, decl_fault};
    ghost use Rattle.std.specs.Prelude.{◌≡◌, ◌≤◌, None, take};

    ghost Value = { Declaration };

    ghost view = { λ d. record { args = d.args; slots = take d.used d.slots } };

    ghost invariant = { λ d. (d.used ≤ 16) × (decl_fault d.args (take d.used d.slots) ≡ None) };
}

// Whether the slot's key is fixed or an argument that there is.
fn names_argument(args: u8, slot: &Slot) -> bool
    ensures { result ≡ names_argument args slot.now.key }
{
    match slot.key {
        Key::Arg(argument) => argument < args,
        Key::Fixed(_) => true,
    }
}

// The first slot whose key is an argument that there isn't.
fn first_bad(args: u8, slots: &[Slot]) -> Option<DeclFault>
    ensures { result ≡ first_bad args 0 slots.now }
{
    for (place, slot) in slots.iter().enumerate() {
        if !names_argument(args, slot) {
            return Some(DeclFault::NoSuchArg(place));
        }
    }
    None
}

impl Decl {
    /// The declaration of this many arguments and these slots. Refused in this order:
    /// [`DeclFault::TooManyArgs`], [`DeclFault::TooManySlots`], [`DeclFault::NoSuchArg`] with
    /// the first such slot.
    pub fn new(args: u8, slots: &[Slot]) -> Result<Decl, DeclFault>
        ensures { MatchResult result
            (λ d. (d ≡ record { args = args; slots = slots.now }) × (decl_fault args slots.now ≡ None))
            (λ e. decl_fault args slots.now ≡ Some e) }
    {
        if args > 8 {
            return Err(DeclFault::TooManyArgs);
        }
        if slots.len() > 16 {
            return Err(DeclFault::TooManySlots);
        }
        if let Some(fault) = first_bad(args, slots) {
            return Err(fault);
        }
        let mut kept = [UNUSED; 16];
        kept[..slots.len()].copy_from_slice(slots);
        Ok(Decl {
            args,
            used: slots.len(),
            slots: kept,
        })
    }

    /// How many arguments a call takes, 0 to 8.
    pub fn args(&self) -> usize
        ensures value { result ≡ self.now.args }
        ensures few { result ≤ 8 }
        ensures declared { decl_fault self.now.args self.now.slots ≡ None }
    {
        usize::from(self.args)
    }

    /// The declared slots, at most 16.
    pub fn slots(&self) -> &[Slot]
        ensures value { result.now ≡ self.now.slots }
        ensures few { length result.now ≤ 16 }
        ensures declared { decl_fault self.now.args self.now.slots ≡ None }
    {
        &self.slots[..self.used]
    }

    /// The record that a declared slot names in a call with these arguments, as many as declared.
    pub fn record(&self, slot: usize, args: &[u64]) -> Record
        requires within { slot < length self.now.slots }
        requires count { length args.now ≡ self.now.args }
        ensures { IfSome (slice_get self.now.slots slot) (λ s. result ≡ record_of args.now s) }
    {
        self.slots()[slot].record(args)
    }

    /// The locks of a call with these arguments, as many as declared: each record that a slot
    /// names, in the greatest mode of the slots that name it. It takes no memory.
    pub fn resolve(&self, args: &[u64]) -> LockSet
        requires { length args.now ≡ self.now.args }
        ensures value { AreLocksOf args.now self.now.slots result }
        ensures rising { Rising result }
        ensures few { length result ≤ 16 }
    {
        let mut locks = LockSet::new();
        'slots: for slot in self.slots() {
            locks.add(slot.record(args), slot.mode);
        }
        locks
    }
}
