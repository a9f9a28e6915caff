//! From code to bytes.

ghost use Rattle.std.specs.Prelude.{◌≡◌, ◌<◌, ◌≤◌, ◌+◌, ◌*◌, pos, length, IfOk};
ghost use Rattle.bpf_encoding.specs.Spelling.{number_of, fields, alu_class, jump_class, operation_code, operation_offset, extension_opcode, extension_bits, order_opcode, order_bits, condition_code};
ghost use Rattle.bpf_encoding.specs.Spelling.{size_code, signed_size_code, atomic_opcode, atomic_imm, source_bit, source_register, source_imm, fields_of, place_fields, high_behind, fields_of_code};
ghost use Rattle.bpf_encoding.specs.Fields.{fields_of_bytes, slots_of};
ghost use Rattle.bpf_encoding.specs.Joining.Viewed.{viewed};
ghost use Rattle.bpf_encoding.specs.Spells.{Spells};

use crate::code::Code;
use crate::insn::{
    AtomicOperation, ByteOrder, Condition, Extension, Insn, Operation, OrderWidth, Place, Register,
    SignedSize, Size, Source, Width,
};
use crate::slot::Fields;
use std::alloc::{AllocError, Global};

fn alu_class(width: Width) -> u8
    ensures { result ≡ alu_class width }
{
    match width {
        Width::Bits32 => 4,
        Width::Bits64 => 7,
    }
}

fn jump_class(width: Width) -> u8
    ensures { result ≡ jump_class width }
{
    match width {
        Width::Bits32 => 6,
        Width::Bits64 => 5,
    }
}

fn operation_code(operation: Operation) -> u8
    ensures { result ≡ operation_code operation }
{
    match operation {
        Operation::Add => 0,
        Operation::Sub => 1,
        Operation::Mul => 2,
        Operation::Div | Operation::SignedDiv => 3,
        Operation::Or => 4,
        Operation::And => 5,
        Operation::LeftShift => 6,
        Operation::RightShift => 7,
        Operation::Mod | Operation::SignedMod => 9,
        Operation::Xor => 10,
        Operation::Mov => 11,
        Operation::SignedRightShift => 12,
    }
}

fn operation_offset(operation: Operation) -> i16
    ensures { result ≡ operation_offset operation }
{
    match operation {
        Operation::SignedDiv | Operation::SignedMod => 1,
        _ => 0,
    }
}

fn extension_opcode(extension: Extension) -> u8
    ensures { result ≡ extension_opcode extension }
{
    match extension {
        Extension::Byte64 | Extension::Half64 | Extension::Word64 => 0xbf,
        Extension::Byte32 | Extension::Half32 => 0xbc,
    }
}

fn extension_bits(extension: Extension) -> i16
    ensures { result ≡ pos (extension_bits extension) }
{
    match extension {
        Extension::Byte64 | Extension::Byte32 => 8,
        Extension::Half64 | Extension::Half32 => 16,
        Extension::Word64 => 32,
    }
}

fn order_opcode(order: ByteOrder) -> u8
    ensures { result ≡ order_opcode order }
{
    match order {
        ByteOrder::Little => 0xd4,
        ByteOrder::Big => 0xdc,
        ByteOrder::Swap => 0xd7,
    }
}

fn order_bits(width: OrderWidth) -> i32
    ensures { result ≡ pos (order_bits width) }
{
    match width {
        OrderWidth::Order16 => 16,
        OrderWidth::Order32 => 32,
        OrderWidth::Order64 => 64,
    }
}

fn condition_code(condition: Condition) -> u8
    ensures { result ≡ condition_code condition }
{
    match condition {
        Condition::Equal => 1,
        Condition::Greater => 2,
        Condition::GreaterOrEqual => 3,
        Condition::AnyBit => 4,
        Condition::NotEqual => 5,
        Condition::SignedGreater => 6,
        Condition::SignedGreaterOrEqual => 7,
        Condition::Less => 10,
        Condition::LessOrEqual => 11,
        Condition::SignedLess => 12,
        Condition::SignedLessOrEqual => 13,
    }
}

fn size_code(size: Size) -> u8
    ensures { result ≡ size_code size }
{
    match size {
        Size::Word => 0,
        Size::Half => 1,
        Size::Byte => 2,
        Size::Double => 3,
    }
}

fn signed_size_code(size: SignedSize) -> u8
    ensures { result ≡ signed_size_code size }
{
    match size {
        SignedSize::SignedWord => 0,
        SignedSize::SignedHalf => 1,
        SignedSize::SignedByte => 2,
    }
}

fn load_opcode(size: Size) -> u8
    ensures { result ≡ 0x61 + 8 * size_code size }
{
    0x61 + 8 * size_code(size)
}

fn signed_opcode(size: SignedSize) -> u8
    ensures { result ≡ 0x81 + 8 * signed_size_code size }
{
    0x81 + 8 * signed_size_code(size)
}

fn imm_opcode(size: Size) -> u8
    ensures { result ≡ 0x62 + 8 * size_code size }
{
    0x62 + 8 * size_code(size)
}

fn store_opcode(size: Size) -> u8
    ensures { result ≡ 0x63 + 8 * size_code size }
{
    0x63 + 8 * size_code(size)
}

fn atomic_opcode(width: Width) -> u8
    ensures { result ≡ atomic_opcode width }
{
    match width {
        Width::Bits32 => 0xc3,
        Width::Bits64 => 0xdb,
    }
}

fn atomic_imm(operation: AtomicOperation) -> i32
    ensures { result ≡ pos (atomic_imm operation) }
{
    match operation {
        AtomicOperation::Add => 0x00,
        AtomicOperation::Or => 0x40,
        AtomicOperation::And => 0x50,
        AtomicOperation::Xor => 0xa0,
        AtomicOperation::FetchAdd => 0x01,
        AtomicOperation::FetchOr => 0x41,
        AtomicOperation::FetchAnd => 0x51,
        AtomicOperation::FetchXor => 0xa1,
        AtomicOperation::Exchange => 0xe1,
        AtomicOperation::CompareExchange => 0xf1,
    }
}

// A slot with these fields, all others 0.
fn slot(opcode: u8, dst: u8, src: u8, offset: i16, imm: i32) -> Fields
    ensures { result ≡ record { opcode = opcode; dst = dst; src = src; offset = offset; imm = imm } }
{
    Fields {
        opcode,
        dst,
        src,
        offset,
        imm,
    }
}

fn number(register: Register) -> u8
    ensures { (result ≡ number_of register) × (result < 16) }
{
    register.index() as u8
}

// The slot of two registers and an offset.
fn pair(opcode: u8, dst: Register, src: Register, offset: i16) -> Fields
    ensures fields { viewed result ≡ fields opcode (number_of dst) (number_of src) offset (pos 0) }
    ensures registers { (result.dst < 16) × (result.src < 16) }
{
    slot(opcode, number(dst), number(src), offset, 0)
}

// The slot of an operation or a jump with two operands.
fn two_operands(row: u8, dst: Register, source: Source, offset: i16) -> Fields
    requires { row < 240 }
    ensures fields { viewed result
        ≡ fields (row + 8 * source_bit source) (number_of dst) (source_register source) offset (source_imm source) }
    ensures registers { (result.dst < 16) × (result.src < 16) }
{
    match source {
        Source::Imm(imm) => slot(row, number(dst), 0, offset, imm),
        Source::Reg(src) => pair(row + 8, dst, src, offset),
    }
}

// The slot of an instruction, of a wide one its first.
fn slot_of(insn: &Insn) -> Fields
    ensures fields { viewed result ≡ fields_of insn.now }
    ensures registers { (result.dst < 16) × (result.src < 16) }
{
    match *insn {
        Insn::Alu(width, operation, dst, source) => {
            let row = 16 * operation_code(operation) + alu_class(width);
            two_operands(row, dst, source, operation_offset(operation))
        }
        Insn::Negate(width, dst) => slot(0x80 + alu_class(width), number(dst), 0, 0, 0),
        Insn::MoveSigned(extension, dst, src) => {
            let bits = extension_bits(extension);
            pair(extension_opcode(extension), dst, src, bits)
        }
        Insn::Order(order, width, dst) => {
            slot(order_opcode(order), number(dst), 0, 0, order_bits(width))
        }
        Insn::LoadWide(dst, value) => {
            let low = (value % 0x1_0000_0000) as u32;
            slot(0x18, number(dst), 0, 0, low.cast_signed())
        }
        Insn::Jump(offset) => slot(0x05, 0, 0, offset, 0),
        Insn::JumpLong(offset) => slot(0x06, 0, 0, 0, offset),
        Insn::JumpIf(width, condition, dst, source, offset) => {
            let row = 16 * condition_code(condition) + jump_class(width);
            two_operands(row, dst, source, offset)
        }
        Insn::Load(size, dst, base, offset) => pair(load_opcode(size), dst, base, offset),
        Insn::LoadSigned(size, dst, base, offset) => pair(signed_opcode(size), dst, base, offset),
        Insn::StoreImm(size, base, offset, imm) => {
            slot(imm_opcode(size), number(base), 0, offset, imm)
        }
        Insn::Store(size, base, src, offset) => pair(store_opcode(size), base, src, offset),
        Insn::Atomic(width, operation, base, src, offset) => {
            let imm = atomic_imm(operation);
            slot(atomic_opcode(width), number(base), number(src), offset, imm)
        }
        Insn::Call(helper) => slot(0x85, 0, 0, 0, helper),
        Insn::Exit => slot(0x95, 0, 0, 0, 0),
    }
}

// The slot of a place; high is the half that a second slot here has.
fn slot_at(place: &Place, high: u32) -> Fields
    ensures fields { viewed result ≡ place_fields high place.now }
    ensures registers { (result.dst < 16) × (result.src < 16) }
{
    match place {
        Place::Insn(insn) => slot_of(insn),
        Place::Second => slot(0, 0, 0, 0, high.cast_signed()),
    }
}

// The half that a second slot behind this place has.
fn high_behind(place: &Place) -> u32
    ensures { result ≡ high_behind place.now }
{
    match place {
        Place::Insn(Insn::LoadWide(_, value)) => (*value / 0x1_0000_0000) as u32,
        _ => 0,
    }
}

/// The bytes that spell the code, eight for each slot (RFC 9669, section 3).
pub fn encode(alloc: Global, code: &Code) -> Result<Vec<u8>, AllocError>
    ensures { IfOk result (λ bytes. Spells bytes.items code.now) }
{
    let places = code.places();
    let mut bytes = Vec::with_capacity(alloc, 8 * places.len())?;
    let mut high = 0;
    for place in places {
        bytes.extend_from_slice(&slot_at(place, high).to_bytes())?;
        high = high_behind(place);
    }
    Ok(bytes)
}
