//! The locks of one transaction, as the table keeps them.

ghost use Rattle.std.specs.Prelude.{◌≡◌, ◌↔◌, [], Some, true, IfOk};
ghost use Rattle.access_slots.specs.Locks.{mode_in, Rising};
ghost use Rattle.access_slots.specs.Held.{excludes};

use access_slots::lock::{Lock, LockSet};
use access_slots::slot::{Mode, Record};
use std::alloc::{AllocError, Global};
use std::marker::Model;

// No call has more locks.
const MOST_LOCKS: usize = 16;

/// Locks by rising record, in memory that the next ones are put into.
#[derive(Drop)]
pub(crate) struct HeldLocks {
    locks: Vec<Lock>,
}

impl Model for HeldLocks {
    ghost use Rattle.std.specs.Prelude.{List};
    ghost use Rattle.access_slots.specs.Locks.{Rising};
    ghost use Rattle.access_slots.specs.declared.lock.Lock.{Lock};

    ghost Value = { List Lock };

    ghost view = { λ h. h.locks.items };

    ghost invariant = { λ h. Rising h.locks.items };
}

impl HeldLocks {
    /// No lock, with room for those of any call.
    pub(crate) fn new(alloc: Global) -> Result<HeldLocks, AllocError>
        ensures { IfOk result (λ held. held ≡ []) }
    {
        Ok(HeldLocks {
            locks: Vec::with_capacity(alloc, MOST_LOCKS)?,
        })
    }

    /// The locks of this set in place of its own, in the same memory.
    #[inline(always)]
    pub(crate) fn refilled(mut self, set: &LockSet) -> Result<HeldLocks, AllocError>
        ensures { IfOk result (λ held. held ≡ set.now) }
    {
        self.locks.clear();
        self.locks.extend_from_slice(set.locks())?;
        Ok(self)
    }

    /// The locks, by rising record.
    #[inline(always)]
    pub(crate) fn locks(&self) -> &[Lock]
        ensures value { result.now ≡ self.now }
        ensures rising { Rising self.now }
    {
        self.locks.as_slice()
    }

    /// Whether these are the very locks of the set.
    pub(crate) fn is_same(&self, set: &LockSet) -> bool
        ensures { (result ≡ true) ↔ (self.now ≡ set.now) }
    {
        self.locks.as_slice() == set.locks()
    }

    /// The mode in which the record is locked, where it is.
    #[inline(always)]
    pub(crate) fn mode_of(&self, name: &Record) -> Option<Mode>
        ensures { result ≡ mode_in self.now name.now }
    {
        mode_in(self.locks.as_slice(), name)
    }

    /// Whether one of these locks keeps that one out: it is on the same record, and one of the two is
    /// for writing.
    pub(crate) fn excludes(&self, lock: &Lock) -> bool
        ensures { result ≡ excludes (Some lock.now.mode) (mode_in self.now lock.now.«record») }
    {
        match self.mode_of(&lock.record) {
            Some(held) => lock.mode.excludes(held),
            None => false,
        }
    }
}

// The mode in which a record is locked.
fn mode_in(locks: &[Lock], name: &Record) -> Option<Mode>
    ensures { result ≡ mode_in locks.now name.now }
{
    for lock in locks {
        if lock.record == *name {
            return Some(lock.mode);
        }
    }
    None
}
