ghost use Rattle.std.specs.Prelude.{ℕ, ◌≡◌, ◌==◌, ◌<◌, false};
ghost use Rattle.access_slots.specs.declared.slot.Record.{Record};
ghost use Rattle.lock_table.specs.Facts.{held_by, HoldsNothing};

use crate::checks::is_same;
use crate::plain_table::PlainTable;
use access_slots::decl::Decl;
use access_slots::lock::LockSet;
use access_slots::slot::{Key, Mode, Record, Slot};
use lock_table::table::{Busy, LockTable};
use std::alloc::Global;
use std::process::Abort;

fn slot(mode: Mode, key: u64) -> Slot {
    Slot {
        mode,
        dc: 0,
        table: 0,
        key: Key::Fixed(key),
    }
}

fn set(rt: &impl Abort, slots: &[Slot]) -> LockSet {
    let decl = Decl::new(0, slots).expect(rt, "not declared");
    decl.resolve(&[])
}

fn busy(key: u64, holder: u64) -> Busy {
    Busy {
        name: Record {
            dc: 0,
            table: 0,
            key,
        },
        holder,
    }
}

// Two readers, a writer of another record, and a set that waits for all of them.
fn waits_for_all(
    rt: &impl Abort,
    table: &mut LockTable,
    reader: &LockSet,
    writer: &LockSet,
    both: &LockSet,
)
    requires { (t : ℕ) → HoldsNothing (held_by table.old) t }
{
    table.reserve(reader).expect(rt, "not reserved");
    is_same(
        rt,
        (table.ready(reader), table.ready(writer)),
        (true, false),
    );
    is_same(rt, table.grant(1, reader), Ok(()));
    is_same(rt, table.ready(reader), false);
    table.reserve(reader).expect(rt, "not reserved");
    is_same(rt, table.grant(2, reader), Ok(()));
    table.reserve(both).expect(rt, "not reserved");
    is_same(rt, table.grant(3, both), Err(busy(5, 1)));
    is_same(rt, table.ready(both), true);
    table.reserve(writer).expect(rt, "not reserved");
    is_same(rt, table.grant(4, writer), Ok(()));
    table.release(1);
    is_same(rt, table.busy(both), Some(busy(4, 4)));
    table.release(4);
    is_same(rt, table.busy(both), Some(busy(5, 2)));
    table.release(7);
    table.release(2);
    is_same(rt, table.busy(both), None);
}

#[test]
fn the_least_record_and_its_least_holder(rt: HostRuntime) {
    let reader = set(&rt, &[slot(Mode::Read, 5)]);
    let writer = set(&rt, &[slot(Mode::Write, 4)]);
    let both = set(&rt, &[slot(Mode::Write, 4), slot(Mode::Write, 5)]);
    let mut table = LockTable::new(rt.alloc());
    waits_for_all(&rt, &mut table, &reader, &writer, &both);
    drop(table);
}

// ---- the map beside a row of claims

// A small generator (Knuth's, of MMIX).
#[derive(Drop)]
struct Dice {
    state: u64,
}

impl Dice {
    fn below(&mut self, count: u64) -> u64
        requires { 0 < count }
    {
        self.state = self
            .state
            .wrapping_mul(6_364_136_223_846_793_005)
            .wrapping_add(1_442_695_040_888_963_407);
        (self.state >> 33) % count
    }

    // One of 12 records, a third of them for writing.
    fn slot(&mut self) -> Slot {
        let mode = if self.below(3) == 0 {
            Mode::Write
        } else {
            Mode::Read
        };
        slot(mode, self.below(12))
    }

    fn set(&mut self, rt: &impl Abort) -> LockSet {
        set(rt, &[self.slot(), self.slot(), self.slot()])
    }
}

// Three records that go neither up nor down with the transactions.
fn scattered_set(rt: &impl Abort, txn: u64) -> LockSet {
    let mode = if txn % 4 == 0 {
        Mode::Write
    } else {
        Mode::Read
    };
    let first = txn.wrapping_mul(37) % 101;
    set(
        rt,
        &[
            slot(Mode::Read, 100 - first),
            slot(mode, first),
            slot(Mode::Read, first / 2),
        ],
    )
}

// Whether both grant the set, or name the same in its way.
fn grant(
    rt: &impl Abort,
    map: &mut LockTable,
    plain: &mut PlainTable,
    txn: u64,
    set: &LockSet,
) -> bool
    requires { HoldsNothing (held_by map.old) txn }
    ensures others { (t : ℕ) (r : Record) → (t == txn) ≡ false → held_by map.new t r ≡ held_by map.old t r }
{
    map.reserve(set).expect(rt, "not reserved");
    let granted = map.grant(txn, set);
    plain.grant(txn, set).expect(rt, "no room") == granted
}

// Takes the transaction's locks away. Whether both then name the same in the wanted locks' way.
fn release(map: &mut LockTable, plain: &mut PlainTable, txn: u64, wanted: &LockSet) -> bool
    ensures { (t : ℕ) → HoldsNothing (held_by map.old) t → HoldsNothing (held_by map.new) t }
{
    map.release(txn);
    plain.release(txn);
    map.busy(wanted) == plain.busy(wanted)
}

// Transactions go in another order than they came. How often both answered the same.
fn scattered(rt: &impl Abort, alloc: Global, txns: u64) -> u64 {
    let mut map = LockTable::new(alloc);
    let mut plain = PlainTable::new(alloc);
    let mut same: u64 = 0;
    'txns: for txn in 0..txns {
        let set = scattered_set(rt, txn);
        same = same.wrapping_add(u64::from(grant(rt, &mut map, &mut plain, txn, &set)));
        let gone = txn.wrapping_sub(64) ^ 21;
        same = same.wrapping_add(u64::from(release(&mut map, &mut plain, gone, &set)));
    }
    drop(map);
    drop(plain);
    same
}

// Sets and releases by dice. How often both answered the same.
fn by_dice(rt: &impl Abort, alloc: Global, txns: u64) -> u64 {
    let mut map = LockTable::new(alloc);
    let mut plain = PlainTable::new(alloc);
    let mut dice = Dice { state: 1 };
    let mut same: u64 = 0;
    'txns: for txn in 0..txns {
        let set = dice.set(rt);
        same = same.wrapping_add(u64::from(grant(rt, &mut map, &mut plain, txn, &set)));
        let gone = txn.wrapping_sub(dice.below(8));
        same = same.wrapping_add(u64::from(release(&mut map, &mut plain, gone, &set)));
        let oldest = txn.wrapping_sub(8);
        same = same.wrapping_add(u64::from(release(&mut map, &mut plain, oldest, &set)));
    }
    drop(map);
    drop(plain);
    same
}

#[test]
fn locks_taken_and_released_in_scattered_order(rt: HostRuntime) {
    is_same(&rt, scattered(&rt, rt.alloc(), 1_000), 2_000);
}

#[test]
fn locks_taken_and_released_by_dice(rt: HostRuntime) {
    is_same(&rt, by_dice(&rt, rt.alloc(), 100_000), 300_000);
}
