use crate::checks::is_same;
use bpf_encoding::code::Code;
use bpf_encoding::decode::{DecodeFault, decode};
use bpf_encoding::encode::encode;
use bpf_encoding::insn::{
    AtomicOperation, Condition, Insn, Operation, Place, Register, Size, Source, Width,
};
use std::alloc::Global;
use std::process::Abort;

const ADD: Insn = Insn::Alu(
    Width::Bits64,
    Operation::Add,
    Register::R1,
    Source::Imm(287454020),
);

const WIDE: Insn = Insn::LoadWide(Register::R1, 0x1122_3344_5566_7788);

// Instructions, and their bytes as clang's assembler for BPF writes them.
const SPELLED: [(Insn, &[u8]); 8] = [
    // r1 += 287454020
    (ADD, &[0x07, 0x01, 0, 0, 0x44, 0x33, 0x22, 0x11]),
    // r1 = 1234605616436508552 ll
    (
        WIDE,
        &[
            0x18, 0x01, 0, 0, 0x88, 0x77, 0x66, 0x55, 0, 0, 0, 0, 0x44, 0x33, 0x22, 0x11,
        ],
    ),
    // w2 = -w2
    (
        Insn::Negate(Width::Bits32, Register::R2),
        &[0x84, 0x02, 0, 0, 0, 0, 0, 0],
    ),
    // if r3 s>= r4 goto +2
    (
        Insn::JumpIf(
            Width::Bits64,
            Condition::SignedGreaterOrEqual,
            Register::R3,
            Source::Reg(Register::R4),
            2,
        ),
        &[0x7d, 0x43, 2, 0, 0, 0, 0, 0],
    ),
    // r5 = *(u16 *)(r10 - 8)
    (
        Insn::Load(Size::Half, Register::R5, Register::R10, -8),
        &[0x69, 0xa5, 0xf8, 0xff, 0, 0, 0, 0],
    ),
    // *(u64 *)(r6 + 16) = r7
    (
        Insn::Store(Size::Double, Register::R6, Register::R7, 16),
        &[0x7b, 0x76, 0x10, 0, 0, 0, 0, 0],
    ),
    // call 2
    (Insn::Call(2), &[0x85, 0, 0, 0, 2, 0, 0, 0]),
    // exit
    (Insn::Exit, &[0x95, 0, 0, 0, 0, 0, 0, 0]),
];

const fn on_four_bytes(operation: AtomicOperation) -> Insn {
    Insn::Atomic(Width::Bits32, operation, Register::R1, Register::R2, 4)
}

const fn on_eight_bytes(operation: AtomicOperation) -> Insn {
    Insn::Atomic(Width::Bits64, operation, Register::R10, Register::R1, -8)
}

// Atomic operations, and the imm of each as LLVM's assembler for BPF writes it.
const ATOMIC: [(AtomicOperation, u8); 10] = [
    // lock *(u64 *)(r10 - 8) += r1
    (AtomicOperation::Add, 0x00),
    (AtomicOperation::Or, 0x40),
    (AtomicOperation::And, 0x50),
    (AtomicOperation::Xor, 0xa0),
    // r1 = atomic_fetch_add((u64 *)(r10 - 8), r1)
    (AtomicOperation::FetchAdd, 0x01),
    (AtomicOperation::FetchOr, 0x41),
    (AtomicOperation::FetchAnd, 0x51),
    (AtomicOperation::FetchXor, 0xa1),
    // r1 = xchg_64(r10 - 8, r1)
    (AtomicOperation::Exchange, 0xe1),
    // r0 = cmpxchg_64(r10 - 8, r0, r1)
    (AtomicOperation::CompareExchange, 0xf1),
];

// The bytes of these instructions.
fn bytes_of(rt: &impl Abort, alloc: Global, insns: &[Insn]) -> Vec<u8> {
    let code = Code::from_insns(alloc, insns).expect(rt, "no code");
    encode(alloc, &code).expect(rt, "not encoded")
}

// The code is one instruction, which has these bytes.
fn is_spelled(rt: &impl Abort, alloc: Global, code: &Code, bytes: &[u8]) {
    let Some(Place::Insn(insn)) = code.at(0) else {
        panic!(rt; "no instruction of {bytes:?}")
    };
    is_same(rt, bytes_of(rt, alloc, &[insn]).as_slice(), bytes);
    is_same(rt, 8 * code.len(), bytes.len());
}

// The instruction has these bytes.
fn has_bytes(rt: &impl Abort, alloc: Global, insn: Insn, bytes: &[u8]) {
    let code = Code::from_insns(alloc, &[insn]).expect(rt, "no code");
    is_spelled(rt, alloc, &code, bytes);
    is_same(rt, bytes_of(rt, alloc, &[insn]).as_slice(), bytes);
    let decoded = decode(alloc, bytes).expect(rt, "not decoded");
    is_spelled(rt, alloc, &decoded, bytes);
}

#[test]
fn instructions_and_their_bytes(rt: HostRuntime) {
    for (insn, bytes) in &SPELLED {
        has_bytes(&rt, rt.alloc(), *insn, bytes);
    }
}

#[test]
fn atomic_operations_and_their_bytes(rt: HostRuntime) {
    for (operation, imm) in &ATOMIC {
        let words = [0xc3, 0x21, 0x04, 0, *imm, 0, 0, 0];
        has_bytes(&rt, rt.alloc(), on_four_bytes(*operation), &words);
        let double_words = [0xdb, 0x1a, 0xf8, 0xff, *imm, 0, 0, 0];
        has_bytes(&rt, rt.alloc(), on_eight_bytes(*operation), &double_words);
    }
}

// How many slots the code of these instructions has.
fn slots(alloc: Global, insns: &[Insn]) -> Result<usize, DecodeFault> {
    Ok(Code::from_insns(alloc, insns)?.len())
}

fn wide_has_two_slots(rt: &impl Abort, alloc: Global) {
    let code = Code::from_insns(alloc, &[WIDE, Insn::Exit]).expect(rt, "no code");
    is_same(rt, code.len(), 3);
    assert!(rt; matches!((code.at(1), code.at(3)), (Some(Place::Second), None)));
}

// No instruction, and one slot more than there may be.
fn are_no_code(rt: &impl Abort, alloc: Global) {
    assert!(rt; matches!(slots(alloc, &[]), Err(DecodeFault::NoCode)));
    assert!(rt; matches!(slots(alloc, &[WIDE; 2049]), Err(DecodeFault::TooLong)));
}

#[test]
fn rows_of_instructions(rt: HostRuntime) {
    wide_has_two_slots(&rt, rt.alloc());
    let most = slots(rt.alloc(), &[WIDE; 2048]);
    is_same(&rt, most.expect(&rt, "no code"), 4096);
    are_no_code(&rt, rt.alloc());
}
