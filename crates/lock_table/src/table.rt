//! The table of locks.

ghost use Rattle.std.specs.Prelude.{ℕ, ◌≡◌, ◌==◌, false, ◌↔◌, Some, None, true, IfSome, IfNone, OnErr, IfErr, OnOk, IsTrue, IsFalse};
ghost use Rattle.access_slots.specs.declared.slot.Record.{Record};
ghost use Rattle.access_slots.specs.declared.slot.Mode.{Mode as ModeValue};
ghost use Rattle.access_slots.specs.Locks.{mode_in, Rising};
ghost use Rattle.access_slots.specs.Held.{Compatible, IsFirstInTheWay};
ghost use Rattle.lock_table.specs.Alone.{seen, IsAlone};
ghost use Rattle.lock_table.specs.Clashes.{clashes, keeps_out};
ghost use Rattle.lock_table.specs.Facts.{held_by, nobody, granted, released, AreHeld, HoldsNothing};
ghost use Rattle.lock_table.specs.Rows.{IsLeast, IsNext};

use crate::maps::LockMaps;
use access_slots::lock::{Lock, LockSet};
use access_slots::slot::Record;
use std::alloc::{AllocError, Global};
use std::marker::Model;

/// What stands in the way of a set of locks: the least record in the way, and the least
/// transaction that holds it.
#[derive(Clone, Copy, Debug, PartialEq, Eq)]
pub struct Busy {
    pub name: Record,
    pub holder: u64,
}

/// The locks that transactions hold, by their serial numbers (Lomet, Fekete, Weikum, Zwilling,
/// CIDR 2009: the transaction component locks records). Contracts see who holds which record in
/// which mode, and the set that is ready to be granted.
// A transaction that is alone holds the set that is ready, as it lies there: the maps know of it once
// another one comes.
#[derive(Drop)]
pub struct LockTable {
    alone: Option<u64>,
    maps: LockMaps,
}

impl Model for LockTable {
    ghost use Rattle.lock_table.specs.Alone.{seen, IsAlone};
    ghost use Rattle.lock_table.specs.Facts.{Table};

    ghost Value = { Table };

    ghost view = { λ t. seen t.alone t.maps };

    ghost invariant = { λ t. IsAlone t.alone t.maps };
}

// The maps know of the transaction that is alone as of any other.
#[inline(always)]
fn enter_alone(alone: &mut Option<u64>, maps: &mut LockMaps)
    requires { IsAlone alone.old maps.old }
    ensures alone { alone.new ≡ None }
    ensures held { AreHeld maps.new (held_by (seen alone.old maps.old)) }
    ensures reserved { maps.new.reserved ≡ (seen alone.old maps.old).reserved }
{
    if let Some(txn) = alone.take() {
        maps.claim(txn);
    }
}

impl LockTable {
    /// Nobody holds a lock. It takes no memory.
    pub fn new(alloc: Global) -> LockTable
        ensures held { AreHeld result nobody }
        ensures reserved { result.reserved ≡ None }
    {
        LockTable {
            alone: None,
            maps: LockMaps::new(alloc),
        }
    }

    // Whether nobody holds a lock, as two compares tell.
    #[inline(always)]
    fn is_free(&self) -> bool
        ensures { IsTrue result → AreHeld self.now nobody }
    {
        self.alone.is_none() && self.maps.is_free()
    }

    /// What stands in the way of these locks, ready or not: nothing exactly where each record is
    /// free or held for reading alone and wanted for reading.
    #[inline(always)]
    pub fn busy(&self, set: &LockSet) -> Option<Busy>
        ensures none { IfNone result (Compatible (held_by self.now) (mode_in set.now)) }
        ensures some { IfSome result (λ b. IsFirstInTheWay (held_by self.now) (mode_in set.now) b.name b.holder) }
    {
        if self.is_free() {
            return None;
        }
        first_busy(self, set.locks())
    }

    /// Whether anybody holds the record: one look, however many transactions there are.
    pub fn is_held(&self, name: &Record) -> bool
        ensures free { IsFalse result → (t : ℕ) → held_by self.now t name.now ≡ None }
        ensures held { IsTrue result → (t : ℕ) × (m : ModeValue) × (held_by self.now t name.now ≡ Some m) }
    {
        match self.alone {
            Some(_) => self.maps.ready_mode(name).is_some(),
            None => self.maps.is_held(name),
        }
    }

    /// Whether a lock that the transaction holds keeps one of these out: it is on the same record, and one
    /// of the two is for writing.
    pub fn excludes(&self, txn: u64, set: &LockSet) -> bool
        ensures { result ≡ clashes set.now (held_by self.now txn) }
    {
        match self.alone {
            Some(alone) => alone == txn && self.maps.ready_excludes(set),
            None => self.maps.excludes(txn, set),
        }
    }

    /// The least transaction with a lock that keeps this one out: one look, however many there are.
    #[inline(always)]
    pub fn least_in_the_way(&self, lock: &Lock) -> Option<u64>
        ensures { IsLeast (keeps_out (held_by self.now) lock.now) result }
    {
        let Some(alone) = self.alone else {
            return self.maps.least_in_the_way(lock);
        };
        let held = self.maps.ready_mode(&lock.record)?;
        if lock.mode.excludes(held) {
            Some(alone)
        } else {
            None
        }
    }

    /// The next one above this transaction, where that has such a lock too: one look again.
    pub fn next_in_the_way(&self, lock: &Lock, txn: u64) -> Option<u64>
        ensures { keeps_out (held_by self.now) lock.now txn ≡ true → IsNext (keeps_out (held_by self.now) lock.now) txn result }
    {
        match self.alone {
            Some(_) => None,
            None => self.maps.next_in_the_way(lock, txn),
        }
    }

    /// Makes the set ready until the next grant or release. No lock is changed; a refusal leaves
    /// the table as it was.
    #[inline(always)]
    pub fn reserve(&mut self, set: &LockSet) -> Result<(), AllocError>
        ensures held { AreHeld self.new (held_by self.old) }
        ensures ok { OnOk result (self.new.reserved ≡ Some set.now) }
        ensures err { OnErr result (self.new.reserved ≡ self.old.reserved) }
    {
        enter_alone(&mut self.alone, &mut self.maps);
        self.maps.reserve(set)
    }

    /// Whether this set is ready to be granted.
    pub fn ready(&self, set: &LockSet) -> bool
        ensures { (result ≡ true) ↔ (self.now.reserved ≡ Some set.now) }
    {
        match self.alone {
            Some(_) => false,
            None => self.maps.ready(set),
        }
    }

    /// Gives the transaction, which holds nothing, these locks, all or none; refused exactly where
    /// something stands in their way, and then nothing is changed. It takes no memory: the set has
    /// to be ready.
    #[inline(always)]
    pub fn grant(&mut self, txn: u64, set: &LockSet) -> Result<(), Busy>
        requires ready { self.old.reserved ≡ Some set.now }
        requires nothing { HoldsNothing (held_by self.old) txn }
        ensures compatible { OnOk result (Compatible (held_by self.old) (mode_in set.now)) }
        ensures held { OnOk result (AreHeld self.new (granted (held_by self.old) txn (mode_in set.now))) }
        ensures others { (t : ℕ) (r : Record) → (t == txn) ≡ false → held_by self.new t r ≡ held_by self.old t r }
        ensures spent { OnOk result (self.new.reserved ≡ None) }
        ensures err { OnErr result (self.new ≡ self.old) }
        ensures busy { IfErr result (λ b. IsFirstInTheWay (held_by self.old) (mode_in set.now) b.name b.holder) }
    {
        if let Some(busy) = self.busy(set) {
            return Err(busy);
        }
        self.claim(txn, set);
        Ok(())
    }

    /// Gives the transaction, which holds nothing, these locks, for a caller that has looked that
    /// nothing stands in their way. It takes no memory: the set has to be ready.
    #[inline(always)]
    pub fn claim(&mut self, txn: u64, set: &LockSet)
        requires ready { self.old.reserved ≡ Some set.now }
        requires nothing { HoldsNothing (held_by self.old) txn }
        requires free { Compatible (held_by self.old) (mode_in set.now) }
        ensures held { AreHeld self.new (granted (held_by self.old) txn (mode_in set.now)) }
        ensures others { (t : ℕ) (r : Record) → (t == txn) ≡ false → held_by self.new t r ≡ held_by self.old t r }
        ensures spent { self.new.reserved ≡ None }
    {
        if self.maps.is_free() {
            self.alone = Some(txn);
        } else {
            self.maps.claim(txn);
        }
    }

    /// Takes away the transaction's locks alone. It takes no memory.
    #[inline(always)]
    pub fn release(&mut self, txn: u64)
        ensures held { AreHeld self.new (released (held_by self.old) txn) }
        ensures spent { self.new.reserved ≡ None }
    {
        match self.alone {
            None => self.maps.release(txn),
            Some(alone) => {
                if alone == txn {
                    self.alone = None;
                    self.maps.put_by();
                }
            }
        }
    }
}

// The first of these locks that is barred, and its least holder.
#[inline(always)]
fn first_busy(table: &LockTable, locks: &[Lock]) -> Option<Busy>
    requires rising { Rising locks.now }
    ensures none { IfNone result (Compatible (held_by table.now) (mode_in locks.now)) }
    ensures some { IfSome result (λ b. IsFirstInTheWay (held_by table.now) (mode_in locks.now) b.name b.holder) }
{
    for lock in locks {
        if let Some(holder) = table.least_in_the_way(lock) {
            return Some(Busy {
                name: lock.record,
                holder,
            });
        }
    }
    None
}
