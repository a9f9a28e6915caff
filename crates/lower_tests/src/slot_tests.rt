use crate::checks::is_same;
use access_slots::decl::{Decl, DeclFault};
use access_slots::lock::{Lock, LockSet};
use access_slots::op::{Op, conflicts};
use access_slots::slot::{Key, Mode, Record, Slot};
use std::process::Abort;

const fn record(table: u16, key: u64) -> Record {
    Record { dc: 0, table, key }
}

const fn slot(mode: Mode, table: u16, key: Key) -> Slot {
    Slot {
        mode,
        dc: 0,
        table,
        key,
    }
}

// What these slots lock for a call with this argument.
fn locks_of(rt: &impl Abort, slots: &[Slot], argument: u64) -> LockSet {
    let decl = Decl::new(1, slots).expect(rt, "not declared");
    decl.resolve(&[argument])
}

#[test]
fn one_record_in_two_modes(rt: HostRuntime) {
    let slots = [
        slot(Mode::Read, 0, Key::Arg(0)),
        slot(Mode::Write, 0, Key::Arg(0)),
    ];
    let locks = locks_of(&rt, &slots, 5);
    let want = [Lock {
        record: record(0, 5),
        mode: Mode::Write,
    }];
    is_same(&rt, locks.locks(), want.as_slice());
    is_same(&rt, locks.covers(&Op::Delete(record(0, 5))), true);
    is_same(&rt, locks.covers(&Op::Read(record(0, 6))), false);
}

#[test]
fn records_in_order(rt: HostRuntime) {
    let slots = [
        slot(Mode::Read, 1, Key::Fixed(3)),
        slot(Mode::Write, 0, Key::Fixed(9)),
        slot(Mode::Read, 0, Key::Arg(0)),
        slot(Mode::Read, 0, Key::Fixed(9)),
    ];
    let locks = locks_of(&rt, &slots, 2);
    let want = [
        Lock {
            record: record(0, 2),
            mode: Mode::Read,
        },
        Lock {
            record: record(0, 9),
            mode: Mode::Write,
        },
        Lock {
            record: record(1, 3),
            mode: Mode::Read,
        },
    ];
    is_same(&rt, locks.locks(), want.as_slice());
    is_same(&rt, locks.covers(&Op::Read(record(1, 3))), true);
    is_same(&rt, locks.covers(&Op::Delete(record(1, 3))), false);
}

#[test]
fn conflicts_of_operations(rt: HostRuntime) {
    let read = Op::Read(record(0, 1));
    let delete = Op::Delete(record(0, 1));
    is_same(&rt, conflicts(&read, &read), false);
    is_same(&rt, conflicts(&read, &delete), true);
    is_same(&rt, conflicts(&delete, &delete), true);
    is_same(&rt, conflicts(&delete, &Op::Delete(record(0, 2))), false);
}

// Why these slots aren't declared; none where they are.
fn fault_of(args: u8, slots: &[Slot]) -> Option<DeclFault> {
    Decl::new(args, slots).err()
}

#[test]
fn faults_of_declarations(rt: HostRuntime) {
    let bad = slot(Mode::Read, 0, Key::Arg(8));
    let good = slot(Mode::Read, 0, Key::Arg(7));
    is_same(&rt, fault_of(9, &[bad; 17]), Some(DeclFault::TooManyArgs));
    is_same(&rt, fault_of(8, &[bad; 17]), Some(DeclFault::TooManySlots));
    is_same(
        &rt,
        fault_of(8, &[good, bad]),
        Some(DeclFault::NoSuchArg(1)),
    );
    is_same(&rt, fault_of(8, &[good; 16]), None);
}
