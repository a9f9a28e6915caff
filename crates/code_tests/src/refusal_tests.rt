//! What both passes refuse, at which slot and why; and what lies right beside it and is accepted.

use crate::verdict_tests::{accepted, copy, decl, declared, load, refused_of};
use bpf_encoding::insn::Condition::Equal;
use bpf_encoding::insn::Operation::Mov;
use bpf_encoding::insn::Register::{R0, R1, R2, R3, R5, R6, R10};
use bpf_encoding::insn::Size::Double;
use bpf_encoding::insn::Source::{Imm, Reg};
use bpf_encoding::insn::Width::{Bits32, Bits64};
use bpf_encoding::insn::{
    AtomicOperation, ByteOrder, Condition, Extension, Insn, Operation, OrderWidth, SignedSize, Size,
};
use register_kinds::kind::Violation;
use std::alloc::Global;
use std::process::Abort;

// Register 0 is 0.
const ZERO: Insn = Insn::Alu(Bits64, Mov, R0, Imm(0));

// Register 1 is the number of the first slot.
const SLOT: Insn = Insn::Alu(Bits64, Mov, R1, Imm(0));

// It is that of the second slot, which is declared for reading.
const SECOND_SLOT: Insn = Insn::Alu(Bits64, Mov, R1, Imm(1));

// Over the next slot where register 0 is null.
const AT_NULL: Insn = Insn::JumpIf(Bits64, Equal, R0, Imm(0), 1);

// Two slots.
const WIDE: Insn = Insn::LoadWide(R0, 0);

// Both passes refuse the code at this slot, where one argument and two slots are declared.
fn refused(rt: &impl Abort, alloc: Global, insns: &[Insn], slot: usize, violation: Violation) {
    refused_of(rt, alloc, insns, decl(rt, 1), (slot, violation));
}

// The same of each code at its slot.
fn each_refused(rt: &impl Abort, alloc: Global, codes: &[(&[Insn], usize)], violation: Violation) {
    for &(insns, slot) in codes {
        refused(rt, alloc, insns, slot, violation);
    }
}

const BACKWARD: [(&[Insn], usize); 6] = [
    (&[Insn::Jump(-1)], 0),
    (&[Insn::JumpLong(i32::MIN)], 0),
    (&[ZERO, Insn::Jump(-3)], 1),
    (
        &[
            ZERO,
            Insn::JumpIf(Bits64, Equal, R0, Imm(0), -1),
            Insn::Exit,
        ],
        1,
    ),
    (&[ZERO, Insn::JumpIf(Bits64, Equal, R0, Imm(0), -2)], 1),
    (&[ZERO, Insn::Exit, Insn::Jump(-1)], 2),
];

const PAST_THE_CODE: [(&[Insn], usize); 5] = [
    (&[Insn::Jump(0)], 0),
    (&[Insn::Jump(i16::MAX), Insn::Exit], 0),
    (&[Insn::JumpLong(i32::MAX), Insn::Exit], 0),
    (&[ZERO, AT_NULL, Insn::Exit], 1),
    (&[ZERO, Insn::JumpIf(Bits64, Equal, R0, Imm(0), 0)], 1),
];

const INTO_WIDE: [(&[Insn], usize); 4] = [
    (&[Insn::Jump(1), WIDE, Insn::Exit], 0),
    (&[Insn::JumpLong(1), WIDE, Insn::Exit], 0),
    (&[ZERO, AT_NULL, WIDE, Insn::Exit], 1),
    (&[WIDE, Insn::Jump(1), WIDE, Insn::Exit], 2),
];

const OFF_THE_END: [(&[Insn], usize); 6] = [
    (&[ZERO], 0),
    (&[WIDE], 0),
    (&[WIDE, WIDE], 2),
    (&[Insn::Store(Double, R10, R1, -8)], 0),
    (&[Insn::Call(6)], 0),
    (&[ZERO, Insn::Exit, ZERO], 2),
];

const UNKNOWN_HELPERS: [(&[Insn], usize); 6] = [
    (&[Insn::Call(0), Insn::Exit], 0),
    (&[Insn::Call(6), Insn::Exit], 0),
    (&[Insn::Call(-1), Insn::Exit], 0),
    (&[Insn::Call(6), Insn::Jump(-1)], 0),
    (
        &[
            Insn::Alu(Bits64, Mov, R0, Reg(R2)),
            Insn::Call(6),
            Insn::Exit,
        ],
        1,
    ),
    (&[ZERO, Insn::Exit, Insn::Call(6), Insn::Exit], 2),
];

// The instruction behind the others, and an end behind it.
fn behind(rt: &impl Abort, alloc: Global, before: &[Insn], insn: Insn) -> Vec<Insn> {
    let mut code = before.to_vec(alloc).expect(rt, "no code");
    code.extend_from_slice(&[insn, ZERO, Insn::Exit])
        .expect(rt, "no end");
    code
}

// Both passes refuse each of these right behind the others, which take one slot each.
fn none_behind(
    rt: &impl Abort,
    alloc: Global,
    before: &[Insn],
    insns: &[Insn],
    violation: Violation,
) {
    for &insn in insns {
        let code = behind(rt, alloc, before, insn);
        refused(rt, alloc, code.as_slice(), before.len(), violation);
    }
}

const WRITES_R10: [Insn; 12] = [
    Insn::Alu(Bits64, Mov, R10, Imm(0)),
    Insn::Alu(Bits64, Mov, R10, Reg(R1)),
    Insn::Alu(Bits64, Operation::Add, R10, Imm(8)),
    Insn::Negate(Bits64, R10),
    Insn::MoveSigned(Extension::Word64, R10, R1),
    Insn::Order(ByteOrder::Swap, OrderWidth::Order64, R10),
    Insn::LoadWide(R10, 0),
    Insn::Load(Double, R10, R1, 0),
    Insn::Load(Double, R10, R10, 0),
    Insn::LoadSigned(SignedSize::SignedByte, R10, R1, 0),
    Insn::Atomic(Bits64, AtomicOperation::FetchAdd, R10, R10, -8),
    Insn::Atomic(Bits64, AtomicOperation::Exchange, R10, R10, 0),
];

// What the first pass finds, and writes of register 10, which always has an address.
#[test]
fn refused_at_once(rt: HostRuntime) {
    let alloc = rt.alloc();
    each_refused(&rt, alloc, &BACKWARD, Violation::Backward);
    each_refused(&rt, alloc, &PAST_THE_CODE, Violation::OutOfCode);
    each_refused(&rt, alloc, &INTO_WIDE, Violation::IntoWide);
    each_refused(&rt, alloc, &OFF_THE_END, Violation::FallsOff);
    each_refused(&rt, alloc, &UNKNOWN_HELPERS, Violation::UnknownHelper);
    none_behind(&rt, alloc, &[], &WRITES_R10, Violation::WritesR10);
}

// At first register 1 has the arguments' address, and register 10 that of the stack's end.
const EMPTY_AT_FIRST: &[Insn] = &[
    Insn::Alu(Bits64, Mov, R0, Reg(R2)),
    Insn::Alu(Bits64, Mov, R10, Reg(R2)),
    Insn::Alu(Bits64, Operation::Add, R0, Imm(1)),
    Insn::Alu(Bits64, Operation::Add, R1, Reg(R2)),
    Insn::Negate(Bits64, R0),
    Insn::MoveSigned(Extension::Byte32, R0, R2),
    Insn::Order(ByteOrder::Little, OrderWidth::Order16, R0),
    Insn::Load(Double, R0, R2, 0),
    Insn::LoadSigned(SignedSize::SignedHalf, R0, R2, 0),
    Insn::Store(Double, R10, R2, -8),
    Insn::Store(Double, R2, R1, 0),
    Insn::StoreImm(Double, R2, 0, 7),
    Insn::JumpIf(Bits64, Equal, R0, Imm(0), 0),
    Insn::JumpIf(Bits64, Condition::Less, R1, Reg(R2), 0),
    Insn::Atomic(Bits64, AtomicOperation::Add, R10, R2, -8),
    Insn::Atomic(Bits64, AtomicOperation::Add, R2, R1, 0),
    Insn::Atomic(Bits64, AtomicOperation::CompareExchange, R10, R1, -8),
    Insn::Exit,
];

// Behind a call, and where a register is written on one way.
const EMPTY_LATER: [(&[Insn], usize); 4] = [
    (
        &[
            SLOT,
            Insn::Call(5),
            Insn::Alu(Bits64, Mov, R0, Reg(R1)),
            Insn::Exit,
        ],
        2,
    ),
    (
        &[
            SLOT,
            Insn::Call(5),
            Insn::Alu(Bits64, Mov, R0, Reg(R5)),
            Insn::Exit,
        ],
        2,
    ),
    (&[SLOT, Insn::Call(5), Insn::Call(5), Insn::Exit], 2),
    (
        &[
            Insn::Alu(Bits64, Mov, R0, Imm(1)),
            AT_NULL,
            Insn::Alu(Bits64, Mov, R2, Imm(1)),
            Insn::Alu(Bits64, Mov, R0, Reg(R2)),
            Insn::Exit,
        ],
        3,
    ),
];

// What leaves no address in a register that had one.
const NO_ADDRESS: [Insn; 13] = [
    Insn::Alu(Bits64, Mov, R2, Imm(65_536)),
    Insn::Load(Double, R2, R10, -8),
    Insn::Alu(Bits64, Operation::Add, R2, Imm(65_025)),
    Insn::Alu(Bits64, Operation::Sub, R2, Imm(66_049)),
    Insn::Alu(Bits64, Operation::Add, R2, Reg(R10)),
    Insn::Alu(Bits64, Operation::Sub, R2, Reg(R10)),
    Insn::Alu(Bits64, Operation::Or, R2, Imm(0)),
    Insn::Alu(Bits32, Operation::Add, R2, Imm(0)),
    Insn::Alu(Bits32, Mov, R2, Reg(R10)),
    Insn::Negate(Bits64, R2),
    Insn::MoveSigned(Extension::Word64, R2, R10),
    Insn::Order(ByteOrder::Little, OrderWidth::Order64, R2),
    Insn::Atomic(Bits64, AtomicOperation::Exchange, R10, R2, -8),
];

fn no_address(rt: &impl Abort, alloc: Global) {
    for insn in NO_ADDRESS {
        let code = [copy(R2, R10), insn, load(R0, R2, -8), Insn::Exit];
        refused(rt, alloc, &code, 2, Violation::NotAPointer);
    }
}

const BY_A_CONSTANT: &[Insn] = &[
    Insn::Load(Size::Byte, R2, R1, 0),
    Insn::LoadSigned(SignedSize::SignedWord, R2, R1, 0),
    Insn::StoreImm(Size::Byte, R1, 0, 7),
    Insn::Store(Double, R1, R10, 0),
    Insn::Atomic(Bits64, AtomicOperation::Add, R1, R10, 0),
];

// Either of two addresses, one where it is null, and one that was moved before the test.
const ADDRESSES_ON_ONE_WAY: [(&[Insn], usize); 3] = [
    (
        &[
            Insn::Alu(Bits64, Mov, R2, Reg(R10)),
            Insn::JumpIf(Bits64, Equal, R1, Imm(0), 1),
            Insn::Alu(Bits64, Operation::Add, R2, Imm(-8)),
            Insn::Load(Double, R0, R2, -8),
            Insn::Exit,
        ],
        3,
    ),
    (
        &[
            SLOT,
            Insn::Call(1),
            Insn::JumpIf(Bits64, Condition::NotEqual, R0, Imm(0), 1),
            Insn::Load(Double, R0, R0, 0),
            ZERO,
            Insn::Exit,
        ],
        3,
    ),
    (
        &[
            SLOT,
            Insn::Call(1),
            Insn::Alu(Bits64, Operation::Add, R0, Imm(8)),
            Insn::Load(Double, R0, R0, 0),
            Insn::Exit,
        ],
        3,
    ),
];

// The stack has 512 bytes, and the one argument 8.
const OUTSIDE_STACK_AND_ARGUMENTS: &[Insn] = &[
    Insn::Store(Double, R10, R1, -513),
    Insn::Store(Double, R10, R1, -4),
    Insn::Load(Double, R2, R10, -7),
    Insn::Load(Size::Byte, R2, R10, 0),
    Insn::Load(Size::Byte, R2, R10, -513),
    Insn::StoreImm(Size::Half, R10, -1, 7),
    Insn::Atomic(Bits64, AtomicOperation::Add, R10, R1, -7),
    Insn::Atomic(Bits32, AtomicOperation::Or, R10, R1, -3),
    Insn::Load(Double, R2, R1, 1),
    Insn::Load(Double, R2, R1, 8),
    Insn::Load(Double, R2, R1, -1),
    Insn::LoadSigned(SignedSize::SignedWord, R2, R1, 5),
];

// A buffer has 64 bytes.
const OUTSIDE_BUFFERS: &[Insn] = &[
    Insn::Load(Double, R2, R0, 57),
    Insn::Load(Double, R2, R0, -1),
    Insn::Load(Size::Byte, R2, R0, 64),
    Insn::StoreImm(Size::Word, R0, 61, 7),
    Insn::Store(Double, R0, R10, 57),
    Insn::Atomic(Bits64, AtomicOperation::Xor, R0, R10, 57),
];

const INTO_ARGUMENTS: &[Insn] = &[
    Insn::StoreImm(Double, R1, 0, 7),
    Insn::StoreImm(Size::Byte, R1, 8, 7),
    Insn::Store(Double, R1, R1, 0),
    Insn::Atomic(Bits64, AtomicOperation::Add, R1, R1, 0),
    Insn::Atomic(Bits64, AtomicOperation::FetchAdd, R1, R1, 0),
];

const BY_MAYBE_NULL: &[Insn] = &[
    Insn::Load(Double, R2, R0, 0),
    Insn::Load(Double, R2, R0, 64),
    Insn::LoadSigned(SignedSize::SignedByte, R2, R0, 0),
    Insn::StoreImm(Double, R0, 0, 7),
    Insn::Store(Double, R0, R10, 0),
    Insn::Atomic(Bits64, AtomicOperation::And, R0, R10, 0),
];

const ADDRESSES_RETURNED: [(&[Insn], usize); 5] = [
    (&[Insn::Alu(Bits64, Mov, R0, Reg(R10)), Insn::Exit], 1),
    (&[Insn::Alu(Bits64, Mov, R0, Reg(R1)), Insn::Exit], 1),
    (&[SLOT, Insn::Call(1), Insn::Exit], 2),
    (&[SLOT, Insn::Call(5), Insn::Exit], 2),
    (&[SLOT, Insn::Call(1), AT_NULL, Insn::Exit, Insn::Exit], 3),
];

// Register 0 is loaded from there.
const LOADS_BY_R0: &[Insn] = &[Insn::Load(Double, R2, R0, 0)];

// They take the number of a slot.
const ASKS: &[Insn] = &[Insn::Call(1), Insn::Call(3), Insn::Call(5)];

// What stands before them, instructions that both passes refuse right behind it, and why; two slots are declared.
const BEHIND: [(&[Insn], &[Insn], Violation); 23] = [
    (&[], EMPTY_AT_FIRST, Violation::EmptyRegister),
    (
        &[Insn::Alu(Bits64, Mov, R1, Imm(8))],
        BY_A_CONSTANT,
        Violation::NotAPointer,
    ),
    (&[], OUTSIDE_STACK_AND_ARGUMENTS, Violation::OutOfBounds),
    (
        &[SECOND_SLOT, Insn::Call(1), AT_NULL],
        OUTSIDE_BUFFERS,
        Violation::OutOfBounds,
    ),
    (
        &[SECOND_SLOT, Insn::Call(5)],
        OUTSIDE_BUFFERS,
        Violation::OutOfBounds,
    ),
    // An address may lie 65536 bytes from its region's first byte, on either side.
    (
        &[
            Insn::Alu(Bits64, Mov, R2, Reg(R10)),
            Insn::Alu(Bits64, Operation::Add, R2, Imm(65_024)),
        ],
        &[Insn::Load(Double, R2, R2, -8)],
        Violation::OutOfBounds,
    ),
    (
        &[
            Insn::Alu(Bits64, Mov, R2, Reg(R10)),
            Insn::Alu(Bits64, Operation::Add, R2, Imm(-66_048)),
        ],
        &[Insn::Load(Double, R2, R2, -8)],
        Violation::OutOfBounds,
    ),
    (&[], INTO_ARGUMENTS, Violation::ReadOnly),
    (&[SLOT, Insn::Call(1)], BY_MAYBE_NULL, Violation::MaybeNull),
    // The test is of a copy.
    (
        &[
            SLOT,
            Insn::Call(1),
            Insn::Alu(Bits64, Mov, R6, Reg(R0)),
            AT_NULL,
        ],
        &[Insn::Load(Double, R2, R6, 0)],
        Violation::MaybeNull,
    ),
    // Of these conditions none is the null test.
    (
        &[
            Insn::Alu(Bits64, Mov, R6, Imm(0)),
            SLOT,
            Insn::Call(1),
            Insn::JumpIf(Bits32, Equal, R0, Imm(0), 1),
        ],
        LOADS_BY_R0,
        Violation::MaybeNull,
    ),
    (
        &[
            Insn::Alu(Bits64, Mov, R6, Imm(0)),
            SLOT,
            Insn::Call(1),
            Insn::JumpIf(Bits64, Equal, R0, Imm(1), 1),
        ],
        LOADS_BY_R0,
        Violation::MaybeNull,
    ),
    (
        &[
            Insn::Alu(Bits64, Mov, R6, Imm(0)),
            SLOT,
            Insn::Call(1),
            Insn::JumpIf(Bits64, Equal, R0, Reg(R6), 1),
        ],
        LOADS_BY_R0,
        Violation::MaybeNull,
    ),
    (
        &[
            Insn::Alu(Bits64, Mov, R6, Imm(0)),
            SLOT,
            Insn::Call(1),
            Insn::JumpIf(Bits64, Condition::LessOrEqual, R0, Imm(0), 1),
        ],
        LOADS_BY_R0,
        Violation::MaybeNull,
    ),
    (
        &[
            Insn::Alu(Bits64, Mov, R6, Imm(0)),
            SLOT,
            Insn::Call(1),
            Insn::JumpIf(Bits64, Condition::AnyBit, R0, Imm(-1), 1),
        ],
        LOADS_BY_R0,
        Violation::MaybeNull,
    ),
    (&[], ASKS, Violation::SlotUnknown),
    (
        &[Insn::Load(Double, R1, R1, 0)],
        ASKS,
        Violation::SlotUnknown,
    ),
    (
        &[Insn::Alu(Bits64, Mov, R1, Imm(2))],
        ASKS,
        Violation::SlotUnknown,
    ),
    (
        &[Insn::Alu(Bits64, Mov, R1, Imm(-1))],
        ASKS,
        Violation::SlotUnknown,
    ),
    (
        &[Insn::Alu(Bits64, Mov, R1, Reg(R10))],
        ASKS,
        Violation::SlotUnknown,
    ),
    (
        &[Insn::Alu(Bits32, Operation::Add, R1, Imm(0))],
        ASKS,
        Violation::SlotUnknown,
    ),
    // either slot
    (
        &[Insn::Load(Double, R0, R1, 0), SLOT, AT_NULL, SECOND_SLOT],
        ASKS,
        Violation::SlotUnknown,
    ),
    (
        &[SECOND_SLOT],
        &[Insn::Call(2), Insn::Call(3), Insn::Call(4)],
        Violation::ModeTooWeak,
    ),
];

const WIDE_SLOT: [Insn; 3] = [Insn::LoadWide(R1, 1 << 32), Insn::Call(1), Insn::Exit];

#[test]
fn refused_by_kinds(rt: HostRuntime) {
    let alloc = rt.alloc();
    for &(before, insns, violation) in &BEHIND {
        none_behind(&rt, alloc, before, insns, violation);
    }
    each_refused(&rt, alloc, &EMPTY_LATER, Violation::EmptyRegister);
    no_address(&rt, alloc);
    each_refused(&rt, alloc, &ADDRESSES_ON_ONE_WAY, Violation::NotAPointer);
    refused(&rt, alloc, &WIDE_SLOT, 2, Violation::SlotUnknown);
    each_refused(&rt, alloc, &ADDRESSES_RETURNED, Violation::PointerReturned);
}

const FIRST_ARGUMENT: [Insn; 2] = [Insn::Load(Double, R0, R1, 0), Insn::Exit];

const SECOND_ARGUMENT: [Insn; 2] = [Insn::Load(Double, R0, R1, 8), Insn::Exit];

// Neither an argument is there beyond those that are declared, nor a slot.
#[test]
fn refused_by_other_declarations(rt: HostRuntime) {
    let alloc = rt.alloc();
    let outside = (0, Violation::OutOfBounds);
    refused_of(&rt, alloc, &FIRST_ARGUMENT, decl(&rt, 0), outside);
    refused_of(&rt, alloc, &SECOND_ARGUMENT, decl(&rt, 1), outside);
    accepted(&rt, alloc, &SECOND_ARGUMENT, decl(&rt, 2));
    let asks = [SLOT, Insn::Call(5), Insn::Exit];
    let no_slots = declared(&rt, 1, &[]);
    refused_of(&rt, alloc, &asks, no_slots, (1, Violation::SlotUnknown));
}

// Both passes accept each code, where one argument and two slots are declared.
fn each_accepted(rt: &impl Abort, alloc: Global, codes: &[&[Insn]]) {
    for &insns in codes {
        accepted(rt, alloc, insns, decl(rt, 1));
    }
}

const WAYS_THAT_ARE_RIGHT: [&[Insn]; 5] = [
    // unreached
    &[
        ZERO,
        Insn::Exit,
        Insn::Alu(Bits64, Mov, R0, Reg(R5)),
        Insn::Exit,
    ],
    &[Insn::Jump(0), WIDE, Insn::Exit],
    // one address
    &[
        Insn::Alu(Bits64, Mov, R2, Reg(R10)),
        Insn::JumpIf(Bits64, Equal, R1, Imm(0), 1),
        Insn::Alu(Bits64, Mov, R3, Imm(0)),
        Insn::Load(Double, R0, R2, -8),
        Insn::Exit,
    ],
    // no address
    &[
        Insn::Alu(Bits64, Mov, R0, Reg(R10)),
        Insn::Alu(Bits64, Operation::Xor, R0, Imm(0)),
        Insn::Exit,
    ],
    // kept over a call
    &[
        Insn::Alu(Bits64, Mov, R6, Imm(0)),
        SLOT,
        Insn::Call(5),
        Insn::Alu(Bits64, Mov, R0, Reg(R6)),
        Insn::Exit,
    ],
];

const ACCESSES_THAT_ARE_RIGHT: [&[Insn]; 4] = [
    &[Insn::Store(Double, R10, R1, -512), ZERO, Insn::Exit],
    // the last byte
    &[Insn::Load(Size::Byte, R0, R10, -1), Insn::Exit],
    // there and back
    &[
        Insn::Alu(Bits64, Mov, R2, Reg(R10)),
        Insn::Alu(Bits64, Operation::Add, R2, Imm(65_024)),
        Insn::Alu(Bits64, Operation::Add, R2, Imm(-65_024)),
        Insn::Load(Double, R0, R2, -8),
        Insn::Exit,
    ],
    // Register 0 gets the number that was in memory, and register 10 isn't written.
    &[
        ZERO,
        Insn::Atomic(Bits64, AtomicOperation::CompareExchange, R10, R10, -8),
        Insn::Exit,
    ],
];

const CALLS_THAT_ARE_RIGHT: [&[Insn]; 5] = [
    &[SLOT, Insn::Call(2), Insn::Exit],
    &[SLOT, Insn::Call(3), Insn::Exit],
    &[SLOT, Insn::Call(4), Insn::Exit],
    &[SECOND_SLOT, Insn::Call(1), ZERO, Insn::Exit],
    &[SECOND_SLOT, Insn::Call(5), ZERO, Insn::Exit],
];

// The buffer's last bytes, where either null test says that it is there.
const TESTS_THAT_ARE_RIGHT: [&[Insn]; 2] = [
    &[
        SECOND_SLOT,
        Insn::Call(1),
        AT_NULL,
        Insn::Load(Double, R1, R0, 56),
        ZERO,
        Insn::Exit,
    ],
    &[
        SECOND_SLOT,
        Insn::Call(1),
        Insn::JumpIf(Bits64, Condition::NotEqual, R0, Imm(0), 1),
        Insn::Exit,
        Insn::Load(Double, R0, R0, 56),
        Insn::Exit,
    ],
];

#[test]
fn accepted_beside_them(rt: HostRuntime) {
    each_accepted(&rt, rt.alloc(), &WAYS_THAT_ARE_RIGHT);
    each_accepted(&rt, rt.alloc(), &ACCESSES_THAT_ARE_RIGHT);
    each_accepted(&rt, rt.alloc(), &CALLS_THAT_ARE_RIGHT);
    each_accepted(&rt, rt.alloc(), &TESTS_THAT_ARE_RIGHT);
}
