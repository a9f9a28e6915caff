use crate::checks::is_same;
use access_slots::decl::DeclFault;
use access_slots::slot::{Key, Mode, Slot};
use object_file::{ObjectFault, Procedure, ReadError, read};
use std::alloc::Global;
use std::process::Abort;

// What clang 14 makes with -target bpf -O2 -mcpu=v2 of `seven`, which takes no arguments and has no slots, and
// `put`, which takes two and has two slots. Sections 3 and 4 have their code, 5 and 6 their accesses.
const OBJECT: [u8; 1064] = [
    127, 69, 76, 70, 2, 1, 1, 0, 0, 0, 0, 0, 0, 0, 0, 0, 1, 0, 247, 0, 1, 0, 0, 0, 0, 0, 0, 0, 0,
    0, 0, 0, 0, 0, 0, 0, 0, 0, 0, 0, 232, 1, 0, 0, 0, 0, 0, 0, 0, 0, 0, 0, 64, 0, 0, 0, 0, 0, 64,
    0, 9, 0, 1, 0, 183, 0, 0, 0, 7, 0, 0, 0, 149, 0, 0, 0, 0, 0, 0, 0, 191, 22, 0, 0, 0, 0, 0, 0,
    183, 1, 0, 0, 0, 0, 0, 0, 133, 0, 0, 0, 5, 0, 0, 0, 121, 97, 0, 0, 0, 0, 0, 0, 123, 16, 0, 0,
    0, 0, 0, 0, 183, 1, 0, 0, 0, 0, 0, 0, 133, 0, 0, 0, 3, 0, 0, 0, 149, 0, 0, 0, 0, 0, 0, 0, 0, 0,
    0, 0, 4, 0, 0, 0, 0, 0, 0, 0, 0, 0, 0, 0, 0, 0, 0, 0, 4, 0, 0, 0, 2, 0, 0, 0, 0, 0, 0, 0, 0, 0,
    3, 0, 3, 0, 0, 0, 1, 0, 0, 0, 0, 0, 0, 0, 1, 0, 0, 0, 0, 0, 0, 0, 5, 0, 0, 0, 0, 0, 0, 0, 0, 0,
    0, 0, 0, 0, 0, 0, 0, 0, 0, 0, 0, 0, 0, 0, 0, 0, 0, 0, 0, 0, 0, 0, 107, 0, 0, 0, 4, 0, 241, 255,
    0, 0, 0, 0, 0, 0, 0, 0, 0, 0, 0, 0, 0, 0, 0, 0, 47, 0, 0, 0, 1, 0, 5, 0, 0, 0, 0, 0, 0, 0, 0,
    0, 16, 0, 0, 0, 0, 0, 0, 0, 7, 0, 0, 0, 1, 0, 6, 0, 0, 0, 0, 0, 0, 0, 0, 0, 48, 0, 0, 0, 0, 0,
    0, 0, 87, 0, 0, 0, 18, 0, 3, 0, 0, 0, 0, 0, 0, 0, 0, 0, 16, 0, 0, 0, 0, 0, 0, 0, 43, 0, 0, 0,
    18, 0, 4, 0, 0, 0, 0, 0, 0, 0, 0, 0, 64, 0, 0, 0, 0, 0, 0, 0, 2, 3, 0, 46, 116, 101, 120, 116,
    0, 97, 99, 99, 101, 115, 115, 101, 115, 95, 112, 117, 116, 0, 97, 99, 99, 101, 115, 115, 101,
    115, 47, 112, 117, 116, 0, 112, 114, 111, 99, 101, 100, 117, 114, 101, 47, 112, 117, 116, 0,
    97, 99, 99, 101, 115, 115, 101, 115, 95, 115, 101, 118, 101, 110, 0, 97, 99, 99, 101, 115, 115,
    101, 115, 47, 115, 101, 118, 101, 110, 0, 112, 114, 111, 99, 101, 100, 117, 114, 101, 47, 115,
    101, 118, 101, 110, 0, 46, 108, 108, 118, 109, 95, 97, 100, 100, 114, 115, 105, 103, 0, 116,
    119, 111, 46, 99, 0, 46, 115, 116, 114, 116, 97, 98, 0, 46, 115, 121, 109, 116, 97, 98, 0, 0,
    0, 0, 0, 0, 0, 0, 0, 0, 0, 0, 0, 0, 0, 0, 0, 0, 0, 0, 0, 0, 0, 0, 0, 0, 0, 0, 0, 0, 0, 0, 0, 0,
    0, 0, 0, 0, 0, 0, 0, 0, 0, 0, 0, 0, 0, 0, 0, 0, 0, 0, 0, 0, 0, 0, 0, 0, 0, 0, 0, 0, 0, 0, 0, 0,
    0, 0, 0, 0, 113, 0, 0, 0, 3, 0, 0, 0, 0, 0, 0, 0, 0, 0, 0, 0, 0, 0, 0, 0, 0, 0, 0, 0, 98, 1, 0,
    0, 0, 0, 0, 0, 129, 0, 0, 0, 0, 0, 0, 0, 0, 0, 0, 0, 0, 0, 0, 0, 1, 0, 0, 0, 0, 0, 0, 0, 0, 0,
    0, 0, 0, 0, 0, 0, 1, 0, 0, 0, 1, 0, 0, 0, 6, 0, 0, 0, 0, 0, 0, 0, 0, 0, 0, 0, 0, 0, 0, 0, 64,
    0, 0, 0, 0, 0, 0, 0, 0, 0, 0, 0, 0, 0, 0, 0, 0, 0, 0, 0, 0, 0, 0, 0, 4, 0, 0, 0, 0, 0, 0, 0, 0,
    0, 0, 0, 0, 0, 0, 0, 77, 0, 0, 0, 1, 0, 0, 0, 6, 0, 0, 0, 0, 0, 0, 0, 0, 0, 0, 0, 0, 0, 0, 0,
    64, 0, 0, 0, 0, 0, 0, 0, 16, 0, 0, 0, 0, 0, 0, 0, 0, 0, 0, 0, 0, 0, 0, 0, 8, 0, 0, 0, 0, 0, 0,
    0, 0, 0, 0, 0, 0, 0, 0, 0, 33, 0, 0, 0, 1, 0, 0, 0, 6, 0, 0, 0, 0, 0, 0, 0, 0, 0, 0, 0, 0, 0,
    0, 0, 80, 0, 0, 0, 0, 0, 0, 0, 64, 0, 0, 0, 0, 0, 0, 0, 0, 0, 0, 0, 0, 0, 0, 0, 8, 0, 0, 0, 0,
    0, 0, 0, 0, 0, 0, 0, 0, 0, 0, 0, 62, 0, 0, 0, 1, 0, 0, 0, 2, 0, 0, 0, 0, 0, 0, 0, 0, 0, 0, 0,
    0, 0, 0, 0, 144, 0, 0, 0, 0, 0, 0, 0, 16, 0, 0, 0, 0, 0, 0, 0, 0, 0, 0, 0, 0, 0, 0, 0, 8, 0, 0,
    0, 0, 0, 0, 0, 0, 0, 0, 0, 0, 0, 0, 0, 20, 0, 0, 0, 1, 0, 0, 0, 2, 0, 0, 0, 0, 0, 0, 0, 0, 0,
    0, 0, 0, 0, 0, 0, 160, 0, 0, 0, 0, 0, 0, 0, 48, 0, 0, 0, 0, 0, 0, 0, 0, 0, 0, 0, 0, 0, 0, 0, 8,
    0, 0, 0, 0, 0, 0, 0, 0, 0, 0, 0, 0, 0, 0, 0, 93, 0, 0, 0, 3, 76, 255, 111, 0, 0, 0, 128, 0, 0,
    0, 0, 0, 0, 0, 0, 0, 0, 0, 0, 96, 1, 0, 0, 0, 0, 0, 0, 2, 0, 0, 0, 0, 0, 0, 0, 8, 0, 0, 0, 0,
    0, 0, 0, 1, 0, 0, 0, 0, 0, 0, 0, 0, 0, 0, 0, 0, 0, 0, 0, 121, 0, 0, 0, 2, 0, 0, 0, 0, 0, 0, 0,
    0, 0, 0, 0, 0, 0, 0, 0, 0, 0, 0, 0, 208, 0, 0, 0, 0, 0, 0, 0, 144, 0, 0, 0, 0, 0, 0, 0, 1, 0,
    0, 0, 4, 0, 0, 0, 8, 0, 0, 0, 0, 0, 0, 0, 24, 0, 0, 0, 0, 0, 0, 0,
];

// The code of `seven`: mov r0, 7, and exit.
const SEVEN: [u8; 16] = [0xb7, 0, 0, 0, 7, 0, 0, 0, 0x95, 0, 0, 0, 0, 0, 0, 0];

// What a byte at a place makes of the file.
const FAULTS: [(usize, u8, ObjectFault); 25] = [
    (3, b'f', ObjectFault::NotElf),
    (4, 1, ObjectFault::NotLittle64),
    (5, 2, ObjectFault::NotLittle64),
    (16, 2, ObjectFault::NotRelocatable(2)),
    (18, 62, ObjectFault::NotBpf(62)),
    (19, 1, ObjectFault::NotBpf(503)),
    (58, 56, ObjectFault::EntrySize(56)),
    (61, 0x11, ObjectFault::TooManySections(4361)),
    (40, 233, ObjectFault::NoTable),
    (47, 255, ObjectFault::NoTable),
    (62, 9, ObjectFault::NoNames),
    (62, 2, ObjectFault::NoNames),
    (579, 255, ObjectFault::NoNames),
    (682, 1, ObjectFault::NoName(3)),
    (711, 255, ObjectFault::Outside(3)),
    (719, 128, ObjectFault::Outside(3)),
    (1004, 9, ObjectFault::Relocated(4)),
    (1004, 4, ObjectFault::Relocated(4)),
    (744, 77, ObjectFault::Twice(4)),
    (808, 1, ObjectFault::NoAccesses(3)),
    (840, 8, ObjectFault::AccessesSize(5)),
    (840, 0, ObjectFault::AccessesSize(5)),
    (148, 3, ObjectFault::NoArguments(5)),
    (196, 4, ObjectFault::NoSlot(6, 1)),
    (168, 1, ObjectFault::Declared(6, DeclFault::NoSuchArg(0))),
];

// The file with this byte at a place.
fn changed(place: usize, byte: u8) -> [u8; 1064] {
    let mut bytes = OBJECT;
    if let Some(there) = bytes.get_mut(place) {
        *there = byte;
    }
    bytes
}

// Why these bytes aren't read.
fn fault_of(alloc: Global, bytes: &[u8]) -> Option<ReadError> {
    read(alloc, bytes).err()
}

fn is_seven(rt: &impl Abort, procedure: &Procedure) {
    is_same(rt, procedure.name, b"seven".as_slice());
    is_same(rt, procedure.section, 3);
    is_same(rt, procedure.code, SEVEN.as_slice());
    is_same(rt, procedure.decl.args(), 0);
    is_same(rt, procedure.decl.slots().len(), 0);
}

fn is_put(rt: &impl Abort, procedure: &Procedure) {
    is_same(rt, procedure.name, b"put".as_slice());
    is_same(rt, procedure.section, 4);
    is_same(rt, procedure.code, &OBJECT[0x50..0x90]);
    is_same(rt, procedure.decl.args(), 2);
    let slots = [
        Slot {
            mode: Mode::Write,
            dc: 0,
            table: 3,
            key: Key::Arg(1),
        },
        Slot {
            mode: Mode::Read,
            dc: 1,
            table: 0,
            key: Key::Fixed(5),
        },
    ];
    is_same(rt, procedure.decl.slots(), slots.as_slice());
}

#[test]
fn procedures_of_a_file(rt: HostRuntime) {
    let procedures = read(rt.alloc(), &OBJECT).expect(&rt, "not read");
    if let [seven, put] = procedures.as_slice() {
        is_seven(&rt, seven);
        is_put(&rt, put);
    } else {
        is_same(&rt, procedures.len(), 2);
    }
}

#[test]
fn each_fault(rt: HostRuntime) {
    for (place, byte, fault) in FAULTS {
        let bytes = changed(place, byte);
        is_same(
            &rt,
            fault_of(rt.alloc(), &bytes),
            Some(ReadError::Fault(fault)),
        );
    }
}

// Whatever a byte is, reading ends; and so it does where the file is cut short.
#[test]
fn each_byte_and_each_truncation(rt: HostRuntime) {
    for place in 0..OBJECT.len() {
        for byte in [0, 1, 4, 9, 0x7f, 0x80, 0xff] {
            let _ = fault_of(rt.alloc(), &changed(place, byte));
        }
        let front = OBJECT.get(..place).unwrap_or_default();
        is_same(&rt, fault_of(rt.alloc(), front).is_some(), true);
    }
}
