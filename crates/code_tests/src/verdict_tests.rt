//! `verify` beside the pass with a row of kinds for every slot.

use crate::checks::is_same;
use crate::plain_verify::plain_verify;
use access_slots::decl::Decl;
use access_slots::slot::{Key, Mode, Slot};
use bpf_encoding::code::Code;
use bpf_encoding::encode::encode;
use bpf_encoding::insn::Register::{R0, R1, R2, R6, R7, R8};
use bpf_encoding::insn::{
    AtomicOperation, ByteOrder, Condition, Extension, Insn, Operation, OrderWidth, Register,
    SignedSize, Size, Source, Width,
};
use register_kinds::kind::Violation;
use std::alloc::Global;
use std::process::Abort;
use verifier::verify::{VerifyFault, verify};

fn slot(mode: Mode, key: Key) -> Slot {
    Slot {
        mode,
        dc: 0,
        table: 0,
        key,
    }
}

/// A declaration of so many arguments and of these slots.
pub(crate) fn declared(rt: &impl Abort, args: u8, slots: &[Slot]) -> Decl {
    Decl::new(args, slots).expect(rt, "not declared")
}

// A declaration of so many arguments and of two slots, the second for reading alone.
pub(crate) fn decl(rt: &impl Abort, args: u8) -> Decl {
    declared(
        rt,
        args,
        &[
            slot(Mode::Write, Key::Fixed(1)),
            slot(Mode::Read, Key::Fixed(2)),
        ],
    )
}

// The first violation, and at which slot; or none.
type Found = Option<(usize, Violation)>;

// What `verify` finds first.
fn found_by_verify(rt: &impl Abort, alloc: Global, code: Code, decl: Decl) -> Found {
    match verify(alloc, code, decl) {
        Ok(verified) => {
            drop(verified);
            None
        }
        Err(VerifyFault::At(slot, violation)) => Some((slot, violation)),
        Err(fault) => panic!(rt; "{fault:?}"),
    }
}

// What each of both passes finds first.
fn found_by_both(rt: &impl Abort, alloc: Global, insns: &[Insn], decl: Decl) -> (Found, Found) {
    let code = Code::from_insns(alloc, insns).expect(rt, "no code");
    let plain = plain_verify(alloc, code.places(), &decl).expect(rt, "no plain verdict");
    (plain, found_by_verify(rt, alloc, code, decl))
}

// Both passes find the same in the code with this number, where so many arguments and two slots are declared.
fn agree(rt: &impl Abort, alloc: Global, insns: &[Insn], args: u8, number: u32) {
    let (plain, found) = found_by_both(rt, alloc, insns, decl(rt, args));
    is_same(rt, (number, found), (number, plain));
}

// This is what both passes find.
fn both_find(rt: &impl Abort, alloc: Global, insns: &[Insn], decl: Decl, wanted: Found) {
    let found = found_by_both(rt, alloc, insns, decl);
    let code = Code::from_insns(alloc, insns).expect(rt, "no code");
    let bytes = encode(alloc, &code).expect(rt, "no bytes");
    is_same(
        rt,
        (bytes.as_slice(), found),
        (bytes.as_slice(), (wanted, wanted)),
    );
}

// Five instructions, of which codes of four slots are made.
fn small_insn(number: u32) -> Insn {
    match number % 5 {
        0 => Insn::Alu(Width::Bits64, Operation::Mov, Register::R0, Source::Imm(0)),
        1 => Insn::Alu(
            Width::Bits64,
            Operation::Mov,
            Register::R0,
            Source::Reg(Register::R1),
        ),
        2 => Insn::JumpIf(
            Width::Bits64,
            Condition::Equal,
            Register::R0,
            Source::Imm(0),
            1,
        ),
        3 => Insn::Jump(1),
        _ => Insn::Exit,
    }
}

#[test]
fn codes_of_four_slots(rt: HostRuntime) {
    for n in 0..625u32 {
        let code = [
            small_insn(n),
            small_insn(n / 5),
            small_insn(n / 25),
            small_insn(n / 125),
        ];
        agree(&rt, rt.alloc(), &code, 0, n);
    }
}

// Numbers at random (Marsaglia's xorshift, 2003).
#[derive(Drop)]
struct Draw {
    state: u64,
}

impl Draw {
    ghost use Rattle.std.specs.Prelude.{◌<◌, length};

    fn below(&mut self, end: u64) -> u64
        requires { 0 < end }
        ensures { result < end }
    {
        self.state ^= self.state << 13;
        self.state ^= self.state >> 7;
        self.state ^= self.state << 17;
        (self.state >> 16) % end
    }

    fn one<T: Copy>(&mut self, of: &[T]) -> T
        requires { 0 < length of.now }
    {
        of[self.below(of.len() as u64) as usize]
    }

    // Low registers more often, so that more of them are known.
    fn register(&mut self) -> Register {
        self.one(&[
            Register::R0,
            Register::R0,
            Register::R1,
            Register::R1,
            Register::R2,
            Register::R2,
            Register::R3,
            Register::R4,
            Register::R5,
            Register::R6,
            Register::R7,
            Register::R8,
            Register::R9,
            Register::R10,
            Register::R10,
        ])
    }

    fn width(&mut self) -> Width {
        self.one(&[Width::Bits32, Width::Bits64, Width::Bits64])
    }

    fn imm(&mut self) -> i32 {
        self.one(&[0, 0, 0, 1, 1, 2, 8, 64, -8, -64, -512, 0x7fff_ffff])
    }

    fn source(&mut self) -> Source {
        match self.below(2) {
            0 => Source::Imm(self.imm()),
            _ => Source::Reg(self.register()),
        }
    }

    // The offset of a load or store.
    fn offset(&mut self) -> i16 {
        self.one(&[0, 0, 0, 8, 16, 56, 60, 64, -1, -8, -64, -512, -520])
    }

    // The offset of a jump: mostly on, not far.
    fn ahead(&mut self) -> i16 {
        self.one(&[0, 0, 1, 1, 1, 2, 2, 3, 4, 5, 7, 9, 14, 30, -1])
    }

    fn size(&mut self) -> Size {
        self.one(&[Size::Word, Size::Half, Size::Byte, Size::Double])
    }

    fn operation(&mut self) -> Operation {
        self.one(&[
            Operation::Add,
            Operation::Add,
            Operation::Sub,
            Operation::Mul,
            Operation::Div,
            Operation::SignedDiv,
            Operation::Or,
            Operation::And,
            Operation::LeftShift,
            Operation::RightShift,
            Operation::Mod,
            Operation::SignedMod,
            Operation::Xor,
            Operation::Mov,
            Operation::Mov,
            Operation::Mov,
            Operation::SignedRightShift,
        ])
    }

    fn condition(&mut self) -> Condition {
        self.one(&[
            Condition::Equal,
            Condition::Equal,
            Condition::Greater,
            Condition::GreaterOrEqual,
            Condition::AnyBit,
            Condition::NotEqual,
            Condition::NotEqual,
            Condition::SignedGreater,
            Condition::SignedGreaterOrEqual,
            Condition::Less,
            Condition::LessOrEqual,
            Condition::SignedLess,
            Condition::SignedLessOrEqual,
        ])
    }

    fn atomic(&mut self) -> AtomicOperation {
        self.one(&[
            AtomicOperation::Add,
            AtomicOperation::Or,
            AtomicOperation::And,
            AtomicOperation::Xor,
            AtomicOperation::FetchAdd,
            AtomicOperation::FetchOr,
            AtomicOperation::FetchAnd,
            AtomicOperation::FetchXor,
            AtomicOperation::Exchange,
            AtomicOperation::CompareExchange,
        ])
    }

    fn conversion(&mut self) -> Insn {
        let dst = self.register();
        match self.below(3) {
            0 => Insn::Negate(self.width(), dst),
            1 => {
                let extension = self.one(&[
                    Extension::Byte64,
                    Extension::Half64,
                    Extension::Word64,
                    Extension::Byte32,
                    Extension::Half32,
                ]);
                Insn::MoveSigned(extension, dst, self.register())
            }
            _ => {
                let order = self.one(&[ByteOrder::Little, ByteOrder::Big, ByteOrder::Swap]);
                let width = self.one(&[
                    OrderWidth::Order16,
                    OrderWidth::Order32,
                    OrderWidth::Order64,
                ]);
                Insn::Order(order, width, dst)
            }
        }
    }

    fn access(&mut self) -> Insn {
        let base = self.register();
        let offset = self.offset();
        match self.below(5) {
            0 => Insn::Load(self.size(), self.register(), base, offset),
            1 => {
                let size = self.one(&[
                    SignedSize::SignedWord,
                    SignedSize::SignedHalf,
                    SignedSize::SignedByte,
                ]);
                Insn::LoadSigned(size, self.register(), base, offset)
            }
            2 => Insn::StoreImm(self.size(), base, offset, self.imm()),
            3 => Insn::Store(self.size(), base, self.register(), offset),
            _ => Insn::Atomic(self.width(), self.atomic(), base, self.register(), offset),
        }
    }

    fn jump(&mut self) -> Insn {
        match self.below(6) {
            0 => Insn::Jump(self.ahead()),
            1 => Insn::JumpLong(i32::from(self.ahead())),
            _ => Insn::JumpIf(
                self.width(),
                self.condition(),
                self.register(),
                self.source(),
                self.ahead(),
            ),
        }
    }

    fn insn(&mut self) -> Insn {
        match self.below(16) {
            0..=6 => Insn::Alu(
                self.width(),
                self.operation(),
                self.register(),
                self.source(),
            ),
            7 => self.conversion(),
            8 => Insn::LoadWide(self.register(), self.below(1 << 40)),
            9..=11 => self.jump(),
            12 | 13 => self.access(),
            14 => Insn::Call(self.one(&[1, 1, 2, 3, 4, 5, 5, 6])),
            _ => self.one(&[Insn::Exit, Insn::Call(1), Insn::Call(5)]),
        }
    }
}

fn push(rt: &impl Abort, code: &mut Vec<Insn>, insn: Insn) {
    code.push(insn).expect(rt, "no room");
}

// Code of 2 to 64 slots and some more behind them: registers are written, anything follows, and
// the end is an exit.
fn drawn_code(rt: &impl Abort, alloc: Global, draw: &mut Draw) -> Vec<Insn> {
    let mut code = Vec::new(alloc);
    for register in [Register::R0, Register::R1, Register::R2, Register::R6] {
        if draw.below(4) != 0 {
            let source = draw.source();
            let insn = Insn::Alu(Width::Bits64, Operation::Mov, register, source);
            push(rt, &mut code, insn);
        }
    }
    for _ in 0..1 + draw.below(58) {
        push(rt, &mut code, draw.insn());
    }
    push(rt, &mut code, Insn::Exit);
    code
}

#[test]
fn codes_at_random(rt: HostRuntime) {
    let mut draw = Draw {
        state: 0x9e37_79b9_7f4a_7c15,
    };
    for n in 0..20_000u32 {
        let code = drawn_code(&rt, rt.alloc(), &mut draw);
        agree(&rt, rt.alloc(), code.as_slice(), 2, n);
    }
}

fn constant(register: Register, imm: i32) -> Insn {
    Insn::Alu(Width::Bits64, Operation::Mov, register, Source::Imm(imm))
}

fn jump_at_null(offset: i16) -> Insn {
    Insn::JumpIf(
        Width::Bits64,
        Condition::Equal,
        Register::R0,
        Source::Imm(0),
        offset,
    )
}

pub(crate) fn copy(dst: Register, src: Register) -> Insn {
    Insn::Alu(Width::Bits64, Operation::Mov, dst, Source::Reg(src))
}

// Loads 8 bytes.
pub(crate) fn load(dst: Register, base: Register, offset: i16) -> Insn {
    Insn::Load(Size::Double, dst, base, offset)
}

// Stores 8 bytes.
fn store(base: Register, offset: i16, src: Register) -> Insn {
    Insn::Store(Size::Double, base, src, offset)
}

// A slot whose key is an argument.
fn keyed(mode: Mode, argument: u8) -> Slot {
    slot(mode, Key::Arg(argument))
}

// Inserts a record with a number.
fn put() -> [Insn; 7] {
    [
        load(R6, R1, 8),
        constant(R1, 0),
        Insn::Call(5),
        store(R0, 0, R6),
        constant(R1, 0),
        Insn::Call(2),
        Insn::Exit,
    ]
}

// Reads a record; ends with 1 where there is none.
fn get() -> [Insn; 7] {
    [
        constant(R1, 0),
        Insn::Call(1),
        jump_at_null(2),
        constant(R0, 0),
        Insn::Exit,
        constant(R0, 1),
        Insn::Exit,
    ]
}

// Updates a record, and ends with 5, so that it is undone.
fn bad() -> [Insn; 10] {
    [
        constant(R1, 0),
        Insn::Call(1),
        jump_at_null(5),
        Insn::StoreImm(Size::Double, R0, 0, 7),
        constant(R1, 0),
        Insn::Call(3),
        constant(R0, 5),
        Insn::Exit,
        constant(R0, 1),
        Insn::Exit,
    ]
}

// Moves an amount, the third argument, from one record to another.
fn move_amount() -> [Insn; 22] {
    [
        load(R6, R1, 16),
        constant(R1, 0),
        Insn::Call(1),
        jump_at_null(16),
        copy(R7, R0),
        constant(R1, 1),
        Insn::Call(1),
        jump_at_null(12),
        copy(R8, R0),
        load(R2, R7, 0),
        Insn::Alu(Width::Bits64, Operation::Sub, R2, Source::Reg(R6)),
        store(R7, 0, R2),
        load(R2, R8, 0),
        Insn::Alu(Width::Bits64, Operation::Add, R2, Source::Reg(R6)),
        store(R8, 0, R2),
        constant(R1, 0),
        Insn::Call(3),
        constant(R1, 1),
        Insn::Call(3),
        Insn::Exit,
        constant(R0, 1),
        Insn::Exit,
    ]
}

/// Both passes accept the code.
pub(crate) fn accepted(rt: &impl Abort, alloc: Global, insns: &[Insn], decl: Decl) {
    both_find(rt, alloc, insns, decl, None);
}

// The same where so many arguments and these slots are declared.
fn accepted_with(rt: &impl Abort, alloc: Global, insns: &[Insn], args: u8, slots: &[Slot]) {
    accepted(rt, alloc, insns, declared(rt, args, slots));
}

#[test]
fn procedures(rt: HostRuntime) {
    let (read, write) = ([keyed(Mode::Read, 0)], [keyed(Mode::Write, 0)]);
    accepted_with(&rt, rt.alloc(), &put(), 2, &write);
    accepted_with(&rt, rt.alloc(), &get(), 1, &read);
    accepted_with(&rt, rt.alloc(), &bad(), 1, &write);
    let two = [keyed(Mode::Write, 0), keyed(Mode::Write, 1)];
    accepted_with(&rt, rt.alloc(), &move_amount(), 3, &two);
}

/// Both passes refuse the code at this slot, with this violation.
pub(crate) fn refused_of(
    rt: &impl Abort,
    alloc: Global,
    insns: &[Insn],
    decl: Decl,
    found: (usize, Violation),
) {
    both_find(rt, alloc, insns, decl, Some(found));
}

// The same where so many arguments and these slots are declared.
fn refused_with(
    rt: &impl Abort,
    alloc: Global,
    insns: &[Insn],
    (args, slots): (u8, &[Slot]),
    found: (usize, Violation),
) {
    refused_of(rt, alloc, insns, declared(rt, args, slots), found);
}

// Each of the four goes wrong where its declaration is turned in one place.
#[test]
fn procedures_of_other_declarations(rt: HostRuntime) {
    let alloc = rt.alloc();
    let write = [keyed(Mode::Write, 0)];
    refused_with(&rt, alloc, &put(), (1, &write), (0, Violation::OutOfBounds));
    refused_with(&rt, alloc, &get(), (1, &[]), (1, Violation::SlotUnknown));
    let read = [keyed(Mode::Read, 0)];
    refused_with(&rt, alloc, &bad(), (1, &read), (5, Violation::ModeTooWeak));
    let one_read = [keyed(Mode::Write, 0), keyed(Mode::Read, 1)];
    let found = (18, Violation::ModeTooWeak);
    refused_with(&rt, alloc, &move_amount(), (3, &one_read), found);
}
