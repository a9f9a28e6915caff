//! Locks beside many that are held.

ghost use Rattle.std.specs.Prelude.{ℕ, ◌≡◌, ◌==◌, ◌≤◌, false};
ghost use Rattle.access_slots.specs.declared.slot.Record.{Record};
ghost use Rattle.lock_table.specs.Facts.{held_by, HoldsNothing};

use access_slots::decl::Decl;
use access_slots::lock::LockSet;
use access_slots::slot::{Key, Mode, Slot};
use lock_table::table::LockTable;
use std::alloc::Global;

// The lock on one record.
fn one_lock(mode: Mode, key: u64) -> Option<LockSet> {
    let slot = Slot {
        mode,
        dc: 0,
        table: 0,
        key: Key::Arg(0),
    };
    let Ok(decl) = Decl::new(1, &[slot]) else {
        return None;
    };
    Some(decl.resolve(&[key]))
}

// Whether the transaction has got the locks.
fn take(table: &mut LockTable, txn: u64, set: &LockSet) -> bool
    requires { HoldsNothing (held_by table.old) txn }
    ensures others { (t : ℕ) (r : Record) → (t == txn) ≡ false → held_by table.new t r ≡ held_by table.old t r }
{
    match table.reserve(set) {
        Ok(()) => table.grant(txn, set).is_ok(),
        Err(_) => false,
    }
}

// So many transactions hold a lock each, for writing on a record of its own, for reading on the first. How
// many were granted.
fn hold_all(table: &mut LockTable, mode: Mode, held: u64) -> Option<u64>
    requires { (t : ℕ) → HoldsNothing (held_by table.old) t }
    ensures { (t : ℕ) → held ≤ t → HoldsNothing (held_by table.new) t }
{
    let mut granted: u64 = 0;
    'held: for txn in 0..held {
        let key = match mode {
            Mode::Write => txn,
            Mode::Read => 0,
        };
        let set = one_lock(mode, key)?;
        granted = granted.wrapping_add(u64::from(take(table, txn, &set)));
    }
    Some(granted)
}

// One more transaction takes this lock and gives it back so many times, beside so many that hold theirs.
fn take_and_release(table: &mut LockTable, held: u64, set: &LockSet, times: u64) -> u64
    requires { (t : ℕ) → held ≤ t → HoldsNothing (held_by table.old) t }
{
    let mut granted: u64 = 0;
    'times: for _ in 0..times {
        granted = granted.wrapping_add(u64::from(take(table, held, set)));
        table.release(held);
    }
    granted
}

// The same beside so many that take theirs first.
fn take_beside(table: &mut LockTable, mode: Mode, held: u64, key: u64, times: u64) -> Option<u64>
    requires { (t : ℕ) → HoldsNothing (held_by table.old) t }
{
    let granted = hold_all(table, mode, held)?;
    let set = one_lock(mode, key)?;
    Some(granted.wrapping_add(take_and_release(table, held, &set, times)))
}

/// So many transactions hold a lock each; one more takes its lock and gives it back so many times.
/// How many locks were granted.
pub fn repeat(alloc: Global, held: u64, times: u64) -> Option<u64> {
    let mut table = LockTable::new(alloc);
    let granted = take_beside(&mut table, Mode::Write, held, held, times);
    drop(table);
    granted
}

/// The same where all of them read one record.
pub fn repeat_reads(alloc: Global, held: u64, times: u64) -> Option<u64> {
    let mut table = LockTable::new(alloc);
    let granted = take_beside(&mut table, Mode::Read, held, 0, times);
    drop(table);
    granted
}

// The lock is refused so many times. The sum of the holders that were named.
fn refuse(table: &LockTable, set: &LockSet, times: u64) -> Option<u64> {
    let mut holders: u64 = 0;
    for _ in 0..times {
        holders = holders.wrapping_add(table.busy(set)?.holder);
    }
    Some(holders)
}

// A lock for writing is refused beside so many that take theirs first.
fn refuse_beside(table: &mut LockTable, mode: Mode, held: u64, key: u64, times: u64) -> Option<u64>
    requires { (t : ℕ) → HoldsNothing (held_by table.old) t }
{
    hold_all(table, mode, held)?;
    refuse(table, &one_lock(Mode::Write, key)?, times)
}

/// So many transactions hold a lock each; the lock of one in their midst is refused so many times.
/// The sum of the holders that were named.
pub fn repeat_busy(alloc: Global, held: u64, times: u64) -> Option<u64> {
    let mut table = LockTable::new(alloc);
    let holders = refuse_beside(&mut table, Mode::Write, held, held / 2, times);
    drop(table);
    holders
}

/// So many transactions read a record; a lock on it for writing is refused so many times. The sum of
/// the holders that were named.
pub fn repeat_read(alloc: Global, held: u64, times: u64) -> Option<u64> {
    let mut table = LockTable::new(alloc);
    let holders = refuse_beside(&mut table, Mode::Read, held, 0, times);
    drop(table);
    holders
}
