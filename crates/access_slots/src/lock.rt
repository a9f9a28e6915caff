//! The locks of a call.

ghost use Rattle.std.specs.Prelude.{◌≡◌, ◌<◌, ◌≤◌, length, slice_get};
ghost use Rattle.std.specs.List.{prefix_len};
ghost use Rattle.access_slots.specs.Joining.Adding.{added, locked_at, raised};
ghost use Rattle.access_slots.specs.Locks.{record_eq, record_less, greater, mode_in, covered};

use crate::op::Op;
use crate::slot::{Mode, Record};
use arrayvec::ArrayVec;
use std::marker::Model;

/// A lock on one record.
#[derive(Clone, Copy, Debug, Default, PartialEq, Eq)]
pub struct Lock {
    pub record: Record,
    pub mode: Mode,
}

/// The locks of a call: at most 16 distinct records, ascending, each with its greatest mode.
#[derive(Drop)]
pub struct LockSet {
    locks: ArrayVec<Lock, 16>,
}

impl Model for LockSet {
    ghost use Rattle.std.specs.Prelude.{List};
    ghost use Rattle.access_slots.specs.Locks.{Rising};
    ghost use Rattle.access_slots.specs.declared.lock.Lock.{Lock};

    ghost Value = { List Lock };

    ghost view = { λ s. s.locks.items };

    ghost invariant = { λ s. Rising s.locks.items };
}

fn greater(a: Mode, b: Mode) -> Mode
    ensures { result ≡ greater a b }
{
    match a {
        Mode::Read => b,
        Mode::Write => Mode::Write,
    }
}

// How many of the locks come before the record.
fn count_before(locks: &[Lock], record: &Record) -> usize
    ensures { result ≡ prefix_len (λ l. record_less l.«record» record.now) locks.now }
{
    locks
        .iter()
        .take_while(|lock| lock.record < *record)
        .count()
}

// Whether the record is locked at this place.
fn is_locked_at(locks: &[Lock], place: usize, record: &Record) -> bool
    ensures { result ≡ locked_at (slice_get locks.now place) record.now }
{
    match locks.get(place) {
        Some(lock) => lock.record == *record,
        None => false,
    }
}

// A lock that is there gets the greater mode.
fn raise(locks: &mut ArrayVec<Lock, 16>, place: usize, mode: Mode)
    requires { place < length locks.old.items }
    ensures { locks.new.items ≡ raised locks.old.items place mode }
{
    if let Some(lock) = locks.get_mut(place) {
        lock.mode = greater(lock.mode, mode);
    }
}

// One lock more; a record that is locked gets the greater mode.
fn add_to(locks: &mut ArrayVec<Lock, 16>, record: Record, mode: Mode)
    requires { length locks.old.items < 16 }
    ensures { locks.new.items ≡ added «record» mode locks.old.items }
{
    let place = count_before(locks.as_slice(), &record);
    if is_locked_at(locks.as_slice(), place, &record) {
        raise(locks, place, mode);
    } else {
        locks.insert(place, Lock { record, mode });
    }
}

fn copy_of(locks: &[Lock]) -> ArrayVec<Lock, 16>
    requires { length locks.now ≤ 16 }
    ensures { result.items ≡ locks.now }
{
    let mut copy = ArrayVec::new();
    'locks: for lock in locks {
        copy.push(*lock);
    }
    copy
}

impl LockSet {
    ghost use Rattle.std.specs.Prelude.{◌≡◌, ◌↔◌, ◌<◌, ◌≤◌, Some, true, [], length};
    ghost use Rattle.access_slots.specs.Held.{excludes};
    ghost use Rattle.access_slots.specs.Joining.Adding.{added};
    ghost use Rattle.access_slots.specs.Locks.{covered, mode_in, Rising};

    /// No lock.
    pub(crate) fn new() -> LockSet
        ensures { result ≡ [] }
    {
        LockSet {
            locks: ArrayVec::new(),
        }
    }

    /// One lock more, or the greater mode.
    pub(crate) fn add(&mut self, record: Record, mode: Mode)
        requires { length self.old < 16 }
        ensures { self.new ≡ added «record» mode self.old }
    {
        add_to(&mut self.locks, record, mode);
    }

    /// The locks, by rising record.
    pub fn locks(&self) -> &[Lock]
        ensures value { result.now ≡ self.now }
        ensures rising { Rising self.now }
        ensures few { length self.now ≤ 16 }
    {
        self.locks.as_slice()
    }

    /// These locks once more. It takes no memory.
    pub fn copied(&self) -> LockSet
        ensures { result ≡ self.now }
    {
        LockSet {
            locks: copy_of(self.locks.as_slice()),
        }
    }

    /// Whether these are the very locks of the other set.
    pub fn is_same(&self, other: &LockSet) -> bool
        ensures { (result ≡ true) ↔ (self.now ≡ other.now) }
    {
        self.locks.as_slice() == other.locks.as_slice()
    }

    /// The mode in which the record is locked, where it is.
    pub fn mode_of(&self, record: &Record) -> Option<Mode>
        ensures { result ≡ mode_in self.now record.now }
    {
        mode_in(self.locks.as_slice(), record)
    }

    /// Whether the operation's record is locked, and in Write unless it reads.
    pub fn covers(&self, op: &Op) -> bool
        ensures { result ≡ covered self.now op.now }
    {
        covers_op(self.locks.as_slice(), op)
    }

    /// Whether one of these locks, where they are held, keeps that one out: it is on the same record, and
    /// one of the two is for writing.
    pub fn excludes(&self, lock: &Lock) -> bool
        ensures { result ≡ excludes (Some lock.now.mode) (mode_in self.now lock.now.«record») }
    {
        match self.mode_of(&lock.record) {
            Some(held) => lock.mode.excludes(held),
            None => false,
        }
    }
}

// The mode in which a record is locked.
fn mode_in(locks: &[Lock], record: &Record) -> Option<Mode>
    ensures { result ≡ mode_in locks.now record.now }
{
    for lock in locks {
        if lock.record == *record {
            return Some(lock.mode);
        }
    }
    None
}

fn covers_op(locks: &[Lock], op: &Op) -> bool
    ensures { result ≡ covered locks.now op.now }
{
    match mode_in(locks, op.record()) {
        None => false,
        Some(Mode::Read) => op.is_read(),
        Some(Mode::Write) => true,
    }
}
