//! The locks of several transactions at a time, in maps.

ghost use Rattle.std.specs.Prelude.{ℕ, Bool, ◌≡◌, ◌≢◌, nat_eq, false, ◌↔◌, ◌+◌, ◌*◌, ◌≤◌, ◌<◌, []};
ghost use Rattle.std.specs.Prelude.{Option, Some, None, true, length, vec_len, vec_capacity, ◌++◌};
ghost use Rattle.std.specs.Prelude.{option_to_list, IfOk, OnErr, OnOk, IsTrue, IsFalse, is_some};
ghost use Rattle.indexmap.specs.IndexMap.{get, spare, insert_entry, Updates, IsUnique};
ghost use Rattle.access_slots.specs.declared.slot.Record.{Record};
ghost use Rattle.access_slots.specs.declared.slot.Mode.{Mode as ModeValue};
ghost use Rattle.access_slots.specs.Locks.{record_eq, mode_in, Rising};
ghost use Rattle.access_slots.specs.Held.{Held, Compatible};
ghost use Rattle.lock_table.specs.Clashes.{clashes, keeps_out};
ghost use Rattle.lock_table.specs.Facts.{held_by, held_in, mode_among, granted, released, AreHeld, HoldsNothing};
ghost use Rattle.lock_table.specs.Rows.{IsLeast, IsNext, IsRowOf, with_txn, before_at, behind_at};
ghost use Rattle.lock_table.specs.Holds.{IsHeld, IsHeldAs, AreHeldAs, IsFreeFor, with_mode, IsLeastInTheWay};

use crate::held::HeldLocks;
use crate::row::{Ends, Links, beside, enter, leave};
use access_slots::lock::{Lock, LockSet};
use access_slots::slot::{Mode, Record};
use indexmap::IndexMap;
use std::alloc::{AllocError, Global};
use std::marker::Model;

// How a record is held, by the transactions of a row with these ends.
#[derive(Clone, Copy)]
struct Holding {
    mode: Mode,
    ends: Ends,
}

/// The locks that transactions hold, by their serial numbers, and the set that is ready to be held.
// `idle` has what earlier transactions had their locks in: the next ones need no memory of their own.
#[derive(Drop)]
pub(crate) struct LockMaps {
    alloc: Global,
    records: IndexMap<Record, Holding>,
    links: Links,
    sets: IndexMap<u64, HeldLocks>,
    reserved: Option<HeldLocks>,
    idle: Vec<HeldLocks>,
}

impl Model for LockMaps {
    ghost use Rattle.std.specs.Prelude.{IfSome};
    ghost use Rattle.lock_table.specs.Facts.{Table};
    ghost use Rattle.lock_table.specs.Holds.{IsKept, HasRoom};

    ghost Value = { Table };

    ghost view = { λ t. record { sets = t.sets.entries; reserved = t.reserved } };

    ghost invariant = { λ t. IsKept t.sets t.records t.links × IfSome t.reserved (HasRoom t.sets t.records t.links) };
}

impl LockMaps {
    /// Nobody holds a lock. It takes no memory.
    pub(crate) fn new(alloc: Global) -> LockMaps
        ensures sets { result.sets ≡ [] }
        ensures reserved { result.reserved ≡ None }
    {
        LockMaps {
            alloc,
            records: IndexMap::new(alloc),
            links: IndexMap::new(alloc),
            sets: IndexMap::new(alloc),
            reserved: None,
            idle: Vec::new(alloc),
        }
    }

    /// Whether no transaction has a set.
    #[inline(always)]
    pub(crate) fn is_free(&self) -> bool
        ensures { IsTrue result → self.now.sets ≡ [] }
    {
        self.sets.is_empty()
    }

    /// Whether anybody holds the record: one look, however many transactions there are.
    pub(crate) fn is_held(&self, name: &Record) -> bool
        ensures free { IsFalse result → (t : ℕ) → held_by self.now t name.now ≡ None }
        ensures held { IsTrue result → (t : ℕ) × (m : ModeValue) × (held_by self.now t name.now ≡ Some m) }
    {
        is_in(&self.records, name)
    }

    /// Whether a lock that the transaction holds keeps one of these out.
    pub(crate) fn excludes(&self, txn: u64, set: &LockSet) -> bool
        ensures { result ≡ clashes set.now (held_by self.now txn) }
    {
        excludes_in(&self.sets, txn, set)
    }

    /// The least transaction with a lock that keeps this one out: one look, however many there are.
    #[inline(always)]
    pub(crate) fn least_in_the_way(&self, lock: &Lock) -> Option<u64>
        ensures { IsLeast (keeps_out (held_by self.now) lock.now) result }
    {
        least_in_the_way(&self.records, lock)
    }

    /// The next one above this transaction, where that has such a lock too: one look again.
    pub(crate) fn next_in_the_way(&self, lock: &Lock, txn: u64) -> Option<u64>
        ensures { keeps_out (held_by self.now) lock.now txn ≡ true → IsNext (keeps_out (held_by self.now) lock.now) txn result }
    {
        beside(&self.links, &lock.record, txn).behind
    }

    /// Makes the set ready. No lock is changed; a refusal leaves the maps as they were.
    #[inline(always)]
    pub(crate) fn reserve(&mut self, set: &LockSet) -> Result<(), AllocError>
        ensures held { AreHeld self.new (held_by self.old) }
        ensures ok { OnOk result (self.new.reserved ≡ Some set.now) }
        ensures err { OnErr result (self.new.reserved ≡ self.old.reserved) }
    {
        self.records.reserve(set.locks().len())?;
        self.links.reserve(3 * set.locks().len())?;
        self.sets.reserve(1)?;
        let most = self.sets.len() + 2;
        let copy = copied(self.alloc, &mut self.idle, most, set)?;
        put_back(&mut self.idle, self.reserved.replace(copy));
        Ok(())
    }

    /// Whether this set is ready.
    pub(crate) fn ready(&self, set: &LockSet) -> bool
        ensures { (result ≡ true) ↔ (self.now.reserved ≡ Some set.now) }
    {
        match &self.reserved {
            Some(reserved) => reserved.is_same(set),
            None => false,
        }
    }

    /// The mode in which the set that is ready has the record.
    #[inline(always)]
    pub(crate) fn ready_mode(&self, name: &Record) -> Option<Mode>
        ensures { result ≡ mode_among self.now.reserved name.now }
    {
        match &self.reserved {
            Some(reserved) => reserved.mode_of(name),
            None => None,
        }
    }

    /// Whether a lock of the set that is ready keeps one of these out.
    pub(crate) fn ready_excludes(&self, set: &LockSet) -> bool
        ensures { result ≡ clashes set.now (mode_among self.now.reserved) }
    {
        match &self.reserved {
            Some(reserved) => clash(set, reserved),
            None => false,
        }
    }

    /// Gives the transaction, which holds nothing, the set that is ready, for a caller that has looked
    /// that nothing stands in its way. It takes no memory.
    #[inline(always)]
    pub(crate) fn claim(&mut self, txn: u64)
        requires ready { is_some self.old.reserved ≡ true }
        requires nothing { HoldsNothing (held_by self.old) txn }
        requires free { Compatible (held_by self.old) (mode_among self.old.reserved) }
        ensures held { AreHeld self.new (granted (held_by self.old) txn (mode_among self.old.reserved)) }
        ensures spent { self.new.reserved ≡ None }
    {
        match self.reserved.take() {
            Some(set) => {
                add_holders(&mut self.records, &mut self.links, txn, set.locks());
                put_set(&mut self.sets, txn, set);
            }
            None => unreachable!(),
        }
    }

    /// No set is ready. What it was in is kept for the next one.
    #[inline(always)]
    pub(crate) fn put_by(&mut self)
        ensures sets { self.new.sets ≡ self.old.sets }
        ensures spent { self.new.reserved ≡ None }
    {
        put_back(&mut self.idle, self.reserved.take());
    }

    /// Takes away the transaction's locks alone. It takes no memory.
    #[inline(always)]
    pub(crate) fn release(&mut self, txn: u64)
        ensures held { AreHeld self.new (released (held_by self.old) txn) }
        ensures spent { self.new.reserved ≡ None }
    {
        self.put_by();
        if let Some(set) = self.sets.swap_remove(&txn) {
            take_holders(&mut self.records, &mut self.links, txn, set.locks());
            put_back(&mut self.idle, Some(set));
        }
    }
}

// These locks once more, where those of an earlier transaction were. Where nothing is idle, room is made
// for so many to come back to: those of the open transactions, of the set that was ready, and these.
#[inline(always)]
fn copied(
    alloc: Global,
    idle: &mut Vec<HeldLocks>,
    most: usize,
    set: &LockSet,
) -> Result<HeldLocks, AllocError>
    ensures { IfOk result (λ held. held ≡ set.now) }
{
    let held = match idle.pop() {
        Some(held) => held,
        None => {
            idle.reserve(most)?;
            HeldLocks::new(alloc)?
        }
    };
    held.refilled(set)
}

// What is no longer held is kept for the next locks, where there is room for it.
#[inline(always)]
fn put_back(idle: &mut Vec<HeldLocks>, held: Option<HeldLocks>)
    ensures { vec_len idle.old < vec_capacity idle.old → idle.new.items ≡ idle.old.items ++ option_to_list held }
{
    if let Some(held) = held {
        if idle.len() < idle.capacity() {
            idle.push_reserved(held);
        }
    }
}

fn clash(wanted: &LockSet, held: &HeldLocks) -> bool
    ensures { result ≡ clashes wanted.now (mode_in held.now) }
{
    wanted.locks().iter().any(|lock| held.excludes(lock))
}

// Whether the transaction has a lock that keeps one of these out.
fn excludes_in(sets: &IndexMap<u64, HeldLocks>, txn: u64, wanted: &LockSet) -> bool
    ensures { result ≡ clashes wanted.now (held_in sets.now.entries txn) }
{
    match sets.get(&txn) {
        Some(held) => clash(wanted, held),
        None => false,
    }
}

// The transaction has this set. There has to be room.
#[inline(always)]
fn put_set(sets: &mut IndexMap<u64, HeldLocks>, txn: u64, set: HeldLocks)
    requires { 0 < spare sets.old }
    ensures updates { Updates nat_eq sets.old sets.new txn (Some set) }
    ensures entries { sets.new.entries ≡ insert_entry nat_eq sets.old.entries txn set }
    ensures unique { IsUnique nat_eq sets.new }
{
    match sets.insert(txn, set) {
        Ok(_before) => {}
        Err(_) => unreachable!(),
    }
}

// A record that was free is held by the transaction alone; in the row of another it stands from now on.
#[inline(always)]
fn join(held: &mut Holding, links: &mut Links, name: &Record, txn: u64)
    requires row { held.old.ends.first ≢ txn → (p : ℕ → Bool) ×
        IsRowOf p held.old.ends.first held.old.ends.last links.old name.now × (p txn ≡ false) }
    requires room { 3 ≤ spare links.old }
    ensures mode { held.new.mode ≡ held.old.mode }
    ensures alone { held.old.ends.first ≡ txn → (held.new.ends ≡ held.old.ends) × (links.new ≡ links.old) }
    ensures row { held.old.ends.first ≢ txn → (p : ℕ → Bool) → IsRowOf p held.old.ends.first held.old.ends.last links.old name.now →
        p txn ≡ false → IsRowOf (with_txn p txn) held.new.ends.first held.new.ends.last links.new name.now }
    ensures before { (r : Record) → record_eq name.now r ≡ false → before_at links.new r ≡ before_at links.old r }
    ensures behind { (r : Record) → record_eq name.now r ≡ false → behind_at links.new r ≡ behind_at links.old r }
    ensures room { spare links.old ≤ spare links.new + 3 }
{
    if held.ends.first != txn {
        held.ends = enter(links, name, held.ends, txn);
    }
}

// The transaction holds this lock too, which nobody keeps out. There has to be room.
#[inline(always)]
fn add_holder(records: &mut IndexMap<Record, Holding>, links: &mut Links, txn: u64, lock: &Lock)
    requires room { (0 < spare records.old) × (3 ≤ spare links.old) }
    requires held { (h : ℕ → Option ModeValue) × IsHeldAs h records.old links.old lock.now.«record» × (h txn ≡ None) }
    ensures held { (h : ℕ → Option ModeValue) → IsHeldAs h records.old links.old lock.now.«record» → h txn ≡ None →
        IsFreeFor h lock.now.mode → IsHeldAs (with_mode h txn (Some lock.now.mode)) records.new links.new lock.now.«record» }
    ensures others { (h : ℕ → Option ModeValue) (r : Record) → record_eq lock.now.«record» r ≡ false →
        IsHeldAs h records.old links.old r → IsHeldAs h records.new links.new r }
    ensures room { (spare records.old ≤ spare records.new + 1) × (spare links.old ≤ spare links.new + 3) }
{
    let alone = Holding {
        mode: lock.mode,
        ends: Ends {
            first: txn,
            last: txn,
        },
    };
    match records.entry(lock.record) {
        Ok(entry) => join(entry.or_insert(alone), links, &lock.record, txn),
        Err(_) => unreachable!(),
    }
}

// The transaction, which holds nothing, holds these locks, which nobody keeps out. There has to be room.
#[inline(always)]
fn add_holders(records: &mut IndexMap<Record, Holding>, links: &mut Links, txn: u64, locks: &[Lock])
    requires room { (length locks.now ≤ spare records.old) × (3 * length locks.now ≤ spare links.old) }
    requires rising { Rising locks.now }
    requires held { (held : Held) × AreHeldAs held records.old links.old × HoldsNothing held txn × Compatible held (mode_in locks.now) }
    ensures { (held : Held) → AreHeldAs held records.old links.old → HoldsNothing held txn → Compatible held (mode_in locks.now) →
        AreHeldAs (granted held txn (mode_in locks.now)) records.new links.new }
{
    for lock in locks {
        add_holder(records, links, txn, lock);
    }
}

// The transaction, which holds this lock, holds it no longer.
#[inline(always)]
fn take_holder(records: &mut IndexMap<Record, Holding>, links: &mut Links, txn: u64, lock: &Lock)
    requires held { (h : ℕ → Option ModeValue) × IsHeldAs h records.old links.old lock.now.«record» × (is_some (h txn) ≡ true) }
    ensures held { (h : ℕ → Option ModeValue) → IsHeldAs h records.old links.old lock.now.«record» → is_some (h txn) ≡ true →
        IsHeldAs (with_mode h txn None) records.new links.new lock.now.«record» }
    ensures others { (h : ℕ → Option ModeValue) (r : Record) → record_eq lock.now.«record» r ≡ false →
        IsHeldAs h records.old links.old r → IsHeldAs h records.new links.new r }
{
    let Some(index) = records.get_index_of(&lock.record) else {
        return;
    };
    let ends = records[index].ends;
    if ends.first == ends.last {
        records.swap_remove_index(index);
        return;
    }
    let held = &mut records[index];
    held.ends = leave(links, &lock.record, ends, txn);
}

// The transaction, which holds these locks and no others, holds none.
#[inline(always)]
fn take_holders(
    records: &mut IndexMap<Record, Holding>,
    links: &mut Links,
    txn: u64,
    locks: &[Lock],
)
    requires rising { Rising locks.now }
    requires held { (held : Held) × AreHeldAs held records.old links.old × ((r : Record) → held txn r ≡ mode_in locks.now r) }
    ensures { (held : Held) → AreHeldAs held records.old links.old → ((r : Record) → held txn r ≡ mode_in locks.now r) →
        AreHeldAs (released held txn) records.new links.new }
{
    for lock in locks {
        take_holder(records, links, txn, lock);
    }
}

// Whether the record is held.
fn is_in(records: &IndexMap<Record, Holding>, name: &Record) -> bool
    ensures { result ≡ is_some (get record_eq records.now name.now) }
{
    match records.get(name) {
        Some(_) => true,
        None => false,
    }
}

// The least holder of the lock's record, where one keeps the lock out.
#[inline(always)]
fn least_in_the_way(records: &IndexMap<Record, Holding>, lock: &Lock) -> Option<u64>
    ensures { (h : ℕ → Option ModeValue) (before behind : ℕ → Option ℕ) →
        IsHeld h (get record_eq records.now lock.now.«record») before behind → IsLeastInTheWay h lock.now.mode result }
{
    let Some(held) = records.get(&lock.record) else {
        return None;
    };
    if !lock.mode.excludes(held.mode) {
        return None;
    }
    Some(held.ends.first)
}
