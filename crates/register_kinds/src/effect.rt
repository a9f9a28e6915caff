//! What an instruction does to the kinds, in short.

ghost use Rattle.std.specs.Prelude.{◌≡◌, IfOk, ◌%◌, ◌^◌, ◌+ℤ◌, Ok, Some, None, slice_get};
ghost use Rattle.bpf_encoding.specs.Spelling.{number_of};
ghost use Rattle.std.specs.Int.{byte_len};
ghost use Rattle.bpf_encoding.specs.Reading.{is_64};
ghost use Rattle.semantics.specs.Arithmetic.{width_of};
ghost use Rattle.semantics.specs.Instruction.{size_width, signed_size_width, receiver};
ghost use Rattle.register_kinds.specs.Kinds.{kind_at, check, refuse, is_present};
ghost use Rattle.register_kinds.specs.Effects.{result_by, ways_by};
ghost use Rattle.register_kinds.specs.Computed.{source_kind, alu_kind};
ghost use Rattle.register_kinds.specs.Access.{is_within, bounds, access};
ghost use Rattle.register_kinds.specs.Calls.{is_helper, writes_by, suffices, answer_kind, called_at, called_slot};
ghost use Rattle.register_kinds.specs.Transfer.{is_left_present, is_writable, written_kinds, alu_ways, converted_ways, filled_kinds, loaded_kinds, stored_kinds, stored_register_kinds};
ghost use Rattle.register_kinds.specs.Transfer.{null_test, branch_ways, compared_ways, is_expected_present, received_ways, exchanged_ways, atomic_ways, called_ways, exit_ways, transfer_of};

use crate::kind::{Kind, Violation};
use crate::kinds::Kinds;
use access_slots::decl::Decl;
use access_slots::slot::Mode;
use bpf_encoding::insn::{
    AtomicOperation, Condition, Insn, Operation, Register, SignedSize, Size, Source, Width,
};

/// What an instruction does to the kinds, and where it goes on.
#[derive(Clone, Copy)]
pub enum Effect {
    /// On to the next slot.
    Falls,
    /// The same, with this kind in the register.
    Writes(Register, Kind),
    /// The same, behind a call with this kind of answer.
    Returns(Kind),
    /// To the jump's target alone.
    Jumps,
    /// Either way.
    Branches,
    /// Either way; the register has the first kind at the next slot, and the second at the target.
    Splits(Register, Kind, Kind),
    /// Nowhere.
    Ends,
}

fn require(holds: bool, violation: Violation) -> Result<(), Violation>
    ensures { result ≡ check holds violation (Ok tt) }
{
    if holds { Ok(()) } else { Err(violation) }
}

// The register is read.
fn read(kinds: &Kinds, register: Register) -> Result<(), Violation>
    ensures { result ≡ check (is_present (kind_at kinds.now (number_of register))) Violation.EmptyRegister (Ok tt) }
{
    require(kinds.at(register).is_present(), Violation::EmptyRegister)
}

// The kind of the second operand; a number in the slot counts as its constant.
fn source_kind(kinds: &Kinds, source: Source) -> Kind
    ensures { result ≡ source_kind kinds.now source }
{
    match source {
        Source::Imm(imm) => Kind::Const(i64::from(imm).cast_unsigned()),
        Source::Reg(register) => kinds.at(register),
    }
}

fn read_source(kinds: &Kinds, source: Source) -> Result<(), Violation>
    ensures { result ≡ check (is_present (source_kind kinds.now source)) Violation.EmptyRegister (Ok tt) }
{
    require(
        source_kind(kinds, source).is_present(),
        Violation::EmptyRegister,
    )
}

// The first operand; a move reads none.
fn read_left(kinds: &Kinds, operation: Operation, dst: Register) -> Result<(), Violation>
    ensures { result ≡ check (is_left_present kinds.now operation dst) Violation.EmptyRegister (Ok tt) }
{
    if operation == Operation::Mov {
        return Ok(());
    }
    read(kinds, dst)
}

// What an operation gives.
fn computed(width: Width, operation: Operation, left: Kind, right: Kind) -> Kind
    ensures { result ≡ alu_kind width operation left right }
{
    match (width, operation) {
        (_, Operation::Mov) => right.copied(width),
        (Width::Bits64, Operation::Add) => left.sum(right),
        (Width::Bits64, Operation::Sub) => left.difference(right),
        _ => Kind::Number,
    }
}

// The register isn't register 10.
fn writable(dst: Register) -> Result<(), Violation>
    ensures { result ≡ check (is_writable dst) Violation.WritesR10 (Ok tt) }
{
    require(dst != Register::R10, Violation::WritesR10)
}

// There is nothing wrong.
fn permit(violation: Option<Violation>) -> Result<(), Violation>
    ensures { result ≡ refuse violation (Ok tt) }
{
    match violation {
        None => Ok(()),
        Some(violation) => Err(violation),
    }
}

// An operation.
fn alu(
    kinds: &Kinds,
    width: Width,
    operation: Operation,
    dst: Register,
    source: Source,
) -> Result<Effect, Violation>
    ensures { result_by kinds.now result ≡ alu_ways kinds.now width operation dst source }
{
    read_left(kinds, operation, dst)?;
    read_source(kinds, source)?;
    let kind = computed(width, operation, kinds.at(dst), source_kind(kinds, source));
    writable(dst)?;
    Ok(Effect::Writes(dst, kind))
}

// A number is computed from one register into another.
fn converted(kinds: &Kinds, src: Register, dst: Register) -> Result<Effect, Violation>
    ensures { result_by kinds.now result ≡ converted_ways kinds.now src dst }
{
    read(kinds, src)?;
    writable(dst)?;
    Ok(Effect::Writes(dst, Kind::Number))
}

// Whether so many bytes from there on lie within a region of this length.
fn is_within(length: u16, at: i64, bytes: u8) -> bool
    ensures { result ≡ is_within length at bytes }
{
    at >= 0 && at <= i64::from(length) - i64::from(bytes)
}

fn bounds(length: u16, from: i32, offset: i16, bytes: u8) -> Option<Violation>
    ensures { result ≡ bounds length (from +ℤ offset) bytes }
{
    let at = i64::from(from) + i64::from(offset);
    if is_within(length, at, bytes) {
        None
    } else {
        Some(Violation::OutOfBounds)
    }
}

// What is wrong with a load of so many bytes from there, or a store there.
fn access(decl: &Decl, stores: bool, base: Kind, offset: i16, bytes: u8) -> Option<Violation>
    ensures { result ≡ access decl.now stores base offset bytes }
{
    match base {
        Kind::Empty | Kind::Number | Kind::Const(_) => Some(Violation::NotAPointer),
        Kind::MaybeBuffer(_) => Some(Violation::MaybeNull),
        Kind::Stack(from) => bounds(512, from, offset, bytes),
        Kind::Args(_) if stores => Some(Violation::ReadOnly),
        Kind::Args(from) => bounds(8 * decl.args() as u16, from, offset, bytes),
        Kind::Buffer(_, from) => bounds(64, from, offset, bytes),
    }
}

/// How many bytes a load or store moves, 1, 2, 4 or 8.
pub fn bytes_of(size: Size) -> u8
    ensures { result ≡ byte_len (size_width size) }
{
    match size {
        Size::Word => 4,
        Size::Half => 2,
        Size::Byte => 1,
        Size::Double => 8,
    }
}

fn signed_bytes_of(size: SignedSize) -> u8
    ensures { result ≡ byte_len (signed_size_width size) }
{
    match size {
        SignedSize::SignedWord => 4,
        SignedSize::SignedHalf => 2,
        SignedSize::SignedByte => 1,
    }
}

// A number from memory is written into the register, unless something is wrong with the access.
fn filled(kinds: &Kinds, dst: Register, violation: Option<Violation>) -> Result<Effect, Violation>
    ensures { result_by kinds.now result ≡ filled_kinds kinds.now dst violation }
{
    writable(dst)?;
    permit(violation)?;
    Ok(Effect::Writes(dst, Kind::Number))
}

// A number of so many bytes is loaded.
fn loaded(
    decl: &Decl,
    kinds: &Kinds,
    dst: Register,
    base: Register,
    offset: i16,
    bytes: u8,
) -> Result<Effect, Violation>
    ensures { result_by kinds.now result ≡ loaded_kinds decl.now kinds.now dst base offset bytes }
{
    read(kinds, base)?;
    let violation = access(decl, false, kinds.at(base), offset, bytes);
    filled(kinds, dst, violation)
}

// A number of so many bytes is stored.
fn stored(
    decl: &Decl,
    kinds: &Kinds,
    base: Register,
    offset: i16,
    bytes: u8,
) -> Result<Effect, Violation>
    ensures { result_by kinds.now result ≡ stored_kinds decl.now kinds.now base offset bytes }
{
    read(kinds, base)?;
    let violation = access(decl, true, kinds.at(base), offset, bytes);
    permit(violation)?;
    Ok(Effect::Falls)
}

// A register's low bytes are stored.
fn stored_register(
    decl: &Decl,
    kinds: &Kinds,
    base: Register,
    src: Register,
    offset: i16,
    bytes: u8,
) -> Result<Effect, Violation>
    ensures { result_by kinds.now result ≡ stored_register_kinds decl.now kinds.now base src offset bytes }
{
    read(kinds, src)?;
    stored(decl, kinds, base, offset, bytes)
}

// How many bytes an atomic operation works on.
fn atomic_bytes(width: Width) -> u8
    ensures { result ≡ byte_len (width_of (is_64 width)) }
{
    match width {
        Width::Bits32 => 4,
        Width::Bits64 => 8,
    }
}

/// The register that an atomic operation puts the old number into, if there is one; `src` is its
/// register.
#[inline(always)]
pub fn receiver(operation: AtomicOperation, src: Register) -> Option<Register>
    ensures { result ≡ receiver operation src }
{
    match operation {
        AtomicOperation::Add | AtomicOperation::Or | AtomicOperation::And | AtomicOperation::Xor =>
            None,
        AtomicOperation::FetchAdd
        | AtomicOperation::FetchOr
        | AtomicOperation::FetchAnd
        | AtomicOperation::FetchXor
        | AtomicOperation::Exchange => Some(src),
        AtomicOperation::CompareExchange => Some(Register::R0),
    }
}

// The number in register 0 is read where it is compared with.
fn read_expected(kinds: &Kinds, operation: AtomicOperation) -> Result<(), Violation>
    ensures { result ≡ check (is_expected_present kinds.now operation) Violation.EmptyRegister (Ok tt) }
{
    if operation != AtomicOperation::CompareExchange {
        return Ok(());
    }
    read(kinds, Register::R0)
}

// The old number is put into a register, if there is one, unless something is wrong with the
// access.
fn received(
    kinds: &Kinds,
    receiver: Option<Register>,
    violation: Option<Violation>,
) -> Result<Effect, Violation>
    ensures { result_by kinds.now result ≡ received_ways kinds.now receiver violation }
{
    let Some(register) = receiver else {
        permit(violation)?;
        return Ok(Effect::Falls);
    };
    filled(kinds, register, violation)
}

// A number of so many bytes is read and written.
fn exchanged(
    decl: &Decl,
    kinds: &Kinds,
    receiver: Option<Register>,
    base: Register,
    offset: i16,
    bytes: u8,
) -> Result<Effect, Violation>
    ensures { result_by kinds.now result ≡ exchanged_ways decl.now kinds.now receiver base offset bytes }
{
    read(kinds, base)?;
    let violation = access(decl, true, kinds.at(base), offset, bytes);
    received(kinds, receiver, violation)
}

// An atomic operation on so many bytes.
fn atomic(
    decl: &Decl,
    kinds: &Kinds,
    operation: AtomicOperation,
    base: Register,
    src: Register,
    offset: i16,
    bytes: u8,
) -> Result<Effect, Violation>
    ensures { result_by kinds.now result ≡ atomic_ways decl.now kinds.now operation base src offset bytes }
{
    read(kinds, src)?;
    read_expected(kinds, operation)?;
    let receiver = receiver(operation, src);
    exchanged(decl, kinds, receiver, base, offset, bytes)
}

/// Whether there is a helper of this number: read 1, insert 2, update 3, delete 4, buffer 5.
pub fn is_helper(helper: i32) -> bool
    ensures { result ≡ is_helper helper }
{
    (1..=5).contains(&helper)
}

// Whether the helper writes: insert, update, delete.
fn writes_by(helper: i32) -> bool
    ensures { result ≡ writes_by helper }
{
    (2..=4).contains(&helper)
}

// Whether the helper may be called at a slot of this mode.
fn suffices(mode: Mode, helper: i32) -> bool
    ensures { result ≡ suffices mode helper }
{
    mode == Mode::Write || !writes_by(helper)
}

// What the helper answers at this slot.
fn answer_kind(helper: i32, slot: u8) -> Kind
    ensures { result ≡ answer_kind helper slot }
{
    match helper {
        1 => Kind::MaybeBuffer(slot),
        5 => Kind::Buffer(slot, 0),
        _ => Kind::Number,
    }
}

// A call at the slot of this number and mode.
fn called_at(kinds: &Kinds, helper: i32, slot: u8, mode: Mode) -> Result<Effect, Violation>
    ensures { result_by kinds.now result ≡ called_at kinds.now helper slot mode }
{
    require(suffices(mode, helper), Violation::ModeTooWeak)?;
    Ok(Effect::Returns(answer_kind(helper, slot)))
}

// The same where the slot is declared.
fn called_slot(decl: &Decl, kinds: &Kinds, helper: i32, slot: u64) -> Result<Effect, Violation>
    ensures { result_by kinds.now result ≡ called_slot kinds.now helper slot (slice_get decl.now.slots slot) }
{
    match decl.slots().get(slot as usize) {
        None => Err(Violation::SlotUnknown),
        Some(declared) => called_at(kinds, helper, slot as u8, declared.mode),
    }
}

// A call, with the slot that register 1 has.
fn called(decl: &Decl, kinds: &Kinds, helper: i32) -> Result<Effect, Violation>
    ensures { result_by kinds.now result ≡ called_ways decl.now kinds.now helper }
{
    read(kinds, Register::R1)?;
    require(is_helper(helper), Violation::UnknownHelper)?;
    match kinds.at(Register::R1) {
        Kind::Const(slot) => called_slot(decl, kinds, helper, slot),
        _ => Err(Violation::SlotUnknown),
    }
}

// The end, with the value of register 0.
fn left(kinds: &Kinds) -> Result<Effect, Violation>
    ensures { result_by kinds.now result ≡ exit_ways kinds.now }
{
    read(kinds, Register::R0)?;
    let is_plain = kinds.at(Register::R0).is_plain();
    require(is_plain, Violation::PointerReturned)?;
    Ok(Effect::Ends)
}

// Whether it tests a whole register against 0; and if so, whether it jumps where it is 0.
fn null_test(width: Width, condition: Condition, source: Source) -> Option<bool>
    ensures { result ≡ null_test width condition source }
{
    match (width, condition, source) {
        (Width::Bits64, Condition::Equal, Source::Imm(0)) => Some(true),
        (Width::Bits64, Condition::NotEqual, Source::Imm(0)) => Some(false),
        _ => None,
    }
}

// Both ways of a condition; a buffer's address that may be 0 is told apart by the test.
fn branches(kinds: &Kinds, dst: Register, test: Option<bool>) -> Result<Effect, Violation>
    ensures { result_by kinds.now result ≡ Ok (branch_ways test (kind_at kinds.now (number_of dst)) (number_of dst) kinds.now) }
{
    let (Some(jumps_at_null), Kind::MaybeBuffer(slot)) = (test, kinds.at(dst)) else {
        return Ok(Effect::Branches);
    };
    let null = Kind::Const(0);
    let buffer = Kind::Buffer(slot, 0);
    Ok(if jumps_at_null {
        Effect::Splits(dst, buffer, null)
    } else {
        Effect::Splits(dst, null, buffer)
    })
}

// A condition on two operands.
fn compared(
    kinds: &Kinds,
    width: Width,
    condition: Condition,
    dst: Register,
    source: Source,
) -> Result<Effect, Violation>
    ensures { result_by kinds.now result ≡ compared_ways kinds.now width condition dst source }
{
    read(kinds, dst)?;
    read_source(kinds, source)?;
    branches(kinds, dst, null_test(width, condition, source))
}

// The number of a wide instruction.
fn constant(value: u64) -> Kind
    ensures { result ≡ Kind.Const (value % 2 ^ 64) }
{
    Kind::Const(value)
}

/// What the instruction does to the kinds, or what it may not do.
pub fn effect_of(insn: &Insn, kinds: &Kinds, decl: &Decl) -> Result<Effect, Violation>
    ensures { result_by kinds.now result ≡ transfer_of decl.now insn.now kinds.now }
{
    match *insn {
        Insn::Alu(width, operation, dst, source) => alu(kinds, width, operation, dst, source),
        Insn::MoveSigned(_, dst, src) => converted(kinds, src, dst),
        Insn::Negate(_, dst) | Insn::Order(_, _, dst) => converted(kinds, dst, dst),
        Insn::LoadWide(dst, value) => {
            writable(dst)?;
            Ok(Effect::Writes(dst, constant(value)))
        }
        Insn::Jump(..) | Insn::JumpLong(..) => Ok(Effect::Jumps),
        Insn::JumpIf(width, condition, dst, source, _) => {
            compared(kinds, width, condition, dst, source)
        }
        Insn::Load(size, dst, base, offset) => {
            loaded(decl, kinds, dst, base, offset, bytes_of(size))
        }
        Insn::LoadSigned(size, dst, base, offset) => {
            loaded(decl, kinds, dst, base, offset, signed_bytes_of(size))
        }
        Insn::StoreImm(size, base, offset, _) => stored(decl, kinds, base, offset, bytes_of(size)),
        Insn::Store(size, base, src, offset) => {
            stored_register(decl, kinds, base, src, offset, bytes_of(size))
        }
        Insn::Atomic(width, operation, base, src, offset) => {
            let bytes = atomic_bytes(width);
            atomic(decl, kinds, operation, base, src, offset, bytes)
        }
        Insn::Call(helper) => called(decl, kinds, helper),
        Insn::Exit => left(kinds),
    }
}
