//! From a slot's fields to its instruction: the tables of RFC 9669, sections 3 to 5.

ghost use Rattle.std.specs.Prelude.{◌≡◌, ◌<◌, ◌≤◌, ◌+◌, ◌*◌, Some, pos, not, false, true, IfOk, IfErr, IfSome, IfNone};
ghost use Rattle.bpf_encoding.specs.Fields.{class_of, code_of, takes_register};
ghost use Rattle.bpf_encoding.specs.Spelling.{number_of, fields_of, operation_code, operation_offset, condition_code};
ghost use Rattle.bpf_encoding.specs.Spelling.{alu_class, jump_class, size_code, signed_size_code, atomic_opcode};
ghost use Rattle.bpf_encoding.specs.Spelling.{atomic_imm, extension_opcode, extension_bits, order_opcode, order_bits};
ghost use Rattle.bpf_encoding.specs.Faults.{outside_of, uses, uses_of, fault_of, fault_by, alu_uses, order_uses, jump_uses, jump32_uses, load_uses, store_imm_uses, store_uses, atomic_uses, wide_uses};
ghost use Rattle.bpf_encoding.specs.Joining.Viewed.{viewed};
ghost use Rattle.bpf_encoding.specs.Reading.{is_64, selects_offset, jump_uses_of};

use crate::insn::{
    AtomicOperation, ByteOrder, Condition, Extension, Insn, Operation, OrderWidth, Register,
    SignedSize, Size, Source, Width,
};
use crate::slot::{Fields, Outside, SlotFault};

fn register(n: u8) -> Option<Register>
    ensures some { IfSome result (λ r. (number_of r ≡ n) × (n ≤ 10)) }
    ensures none { IfNone result (10 < n) }
{
    match n {
        0 => Some(Register::R0),
        1 => Some(Register::R1),
        2 => Some(Register::R2),
        3 => Some(Register::R3),
        4 => Some(Register::R4),
        5 => Some(Register::R5),
        6 => Some(Register::R6),
        7 => Some(Register::R7),
        8 => Some(Register::R8),
        9 => Some(Register::R9),
        10 => Some(Register::R10),
        _ => None,
    }
}

// A register that the slot uses.
fn used(n: u8) -> Result<Register, SlotFault>
    ensures ok { IfOk result (λ r. (number_of r ≡ n) × (n ≤ 10)) }
    ensures err { IfErr result (λ e. (10 < n) × (e ≡ SlotFault.Undefined)) }
{
    register(n).ok_or(SlotFault::Undefined)
}

// What of the standard is left out here.
fn outside(slot: &Fields) -> Option<Outside>
    ensures { result ≡ outside_of (viewed slot.now) }
{
    let mode = slot.opcode / 32;
    if slot.opcode % 8 == 0 && (mode == 1 || mode == 2) {
        return Some(Outside::Packet);
    }
    match (slot.opcode, slot.src) {
        (0x18, 1..=6) => Some(Outside::WideSubtype),
        (0x85, 1) => Some(Outside::LocalCall),
        (0x85, 2) => Some(Outside::BtfCall),
        _ => None,
    }
}

// A slot is blank but for the fields that its form uses.
fn blank(is_blank: bool) -> Result<(), SlotFault>
    ensures ok { IfOk result (λ _. is_blank ≡ true) }
    ensures err { IfErr result (λ e. (is_blank ≡ false) × (e ≡ SlotFault.UnusedField)) }
{
    if is_blank {
        Ok(())
    } else {
        Err(SlotFault::UnusedField)
    }
}

// A binary operation.
fn binary(width: Width, operation: Operation, slot: &Fields) -> Result<Insn, SlotFault>
    requires class { class_of slot.now.opcode ≡ alu_class width }
    requires code { code_of slot.now.opcode ≡ operation_code operation }
    requires offset { selects_offset operation ≡ true → slot.now.offset ≡ operation_offset operation }
    ensures ok { IfOk result (λ i. fields_of i ≡ viewed slot.now) }
    ensures err { IfErr result (λ e.
        fault_by (uses true (takes_register slot.now.opcode) (selects_offset operation) (not (takes_register slot.now.opcode)))
        (viewed slot.now) ≡ Some e) }
{
    let dst = used(slot.dst)?;
    let is_signed = matches!(operation, Operation::SignedDiv | Operation::SignedMod);
    if slot.opcode / 8 % 2 == 1 {
        let register = used(slot.src)?;
        blank(is_signed || slot.offset == 0)?;
        blank(slot.imm == 0)?;
        return Ok(Insn::Alu(width, operation, dst, Source::Reg(register)));
    }
    blank(slot.src == 0)?;
    blank(is_signed || slot.offset == 0)?;
    Ok(Insn::Alu(width, operation, dst, Source::Imm(slot.imm)))
}

// NEG, with no second operand.
fn negate(width: Width, slot: &Fields) -> Result<Insn, SlotFault>
    requires class { class_of slot.now.opcode ≡ alu_class width }
    requires code { code_of slot.now.opcode ≡ 8 }
    ensures ok { IfOk result (λ i. fields_of i ≡ viewed slot.now) }
    ensures err { IfErr result (λ e.
        fault_by (alu_uses (is_64 width) (code_of slot.now.opcode) (takes_register slot.now.opcode) (viewed slot.now))
        (viewed slot.now) ≡ Some e) }
{
    if slot.opcode / 8 % 2 == 1 {
        return Err(SlotFault::Undefined);
    }
    let dst = used(slot.dst)?;
    blank(slot.src == 0)?;
    blank(slot.offset == 0)?;
    blank(slot.imm == 0)?;
    Ok(Insn::Negate(width, dst))
}

// MOVSX of this form.
fn move_signed(extension: Extension, slot: &Fields) -> Result<Insn, SlotFault>
    requires opcode { slot.now.opcode ≡ extension_opcode extension }
    requires offset { slot.now.offset ≡ pos (extension_bits extension) }
    ensures ok { IfOk result (λ i. fields_of i ≡ viewed slot.now) }
    ensures err { IfErr result (λ e. fault_by (uses true true true false) (viewed slot.now) ≡ Some e) }
{
    let dst = used(slot.dst)?;
    let src = used(slot.src)?;
    blank(slot.imm == 0)?;
    Ok(Insn::MoveSigned(extension, dst, src))
}

// MOVSX: the offset says how many bits are extended.
fn extended_move(width: Width, slot: &Fields) -> Result<Insn, SlotFault>
    requires class { class_of slot.now.opcode ≡ alu_class width }
    requires code { code_of slot.now.opcode ≡ 11 }
    requires register { takes_register slot.now.opcode ≡ true }
    requires offset { (slot.now.offset ≡ pos 0) → ⊥ }
    ensures ok { IfOk result (λ i. fields_of i ≡ viewed slot.now) }
    ensures err { IfErr result (λ e.
        fault_by (alu_uses (is_64 width) (code_of slot.now.opcode) (takes_register slot.now.opcode) (viewed slot.now))
        (viewed slot.now) ≡ Some e) }
{
    match (width, slot.offset) {
        (Width::Bits64, 8) => move_signed(Extension::Byte64, slot),
        (Width::Bits64, 16) => move_signed(Extension::Half64, slot),
        (Width::Bits64, 32) => move_signed(Extension::Word64, slot),
        (Width::Bits32, 8) => move_signed(Extension::Byte32, slot),
        (Width::Bits32, 16) => move_signed(Extension::Half32, slot),
        _ => Err(SlotFault::Undefined),
    }
}

// END of this form.
fn order(order: ByteOrder, width: OrderWidth, slot: &Fields) -> Result<Insn, SlotFault>
    requires opcode { slot.now.opcode ≡ order_opcode order }
    requires imm { slot.now.imm ≡ pos (order_bits width) }
    ensures ok { IfOk result (λ i. fields_of i ≡ viewed slot.now) }
    ensures err { IfErr result (λ e. fault_by (uses true false false true) (viewed slot.now) ≡ Some e) }
{
    let dst = used(slot.dst)?;
    blank(slot.src == 0)?;
    blank(slot.offset == 0)?;
    Ok(Insn::Order(order, width, dst))
}

// END: the imm says how many bits are kept.
fn ordered(kind: ByteOrder, slot: &Fields) -> Result<Insn, SlotFault>
    requires { slot.now.opcode ≡ order_opcode kind }
    ensures ok { IfOk result (λ i. fields_of i ≡ viewed slot.now) }
    ensures err { IfErr result (λ e. fault_by (order_uses (viewed slot.now)) (viewed slot.now) ≡ Some e) }
{
    match slot.imm {
        16 => order(kind, OrderWidth::Order16, slot),
        32 => order(kind, OrderWidth::Order32, slot),
        64 => order(kind, OrderWidth::Order64, slot),
        _ => Err(SlotFault::Undefined),
    }
}

// END: class and source say which order.
fn byte_order(width: Width, slot: &Fields) -> Result<Insn, SlotFault>
    requires class { class_of slot.now.opcode ≡ alu_class width }
    requires code { code_of slot.now.opcode ≡ 13 }
    ensures ok { IfOk result (λ i. fields_of i ≡ viewed slot.now) }
    ensures err { IfErr result (λ e.
        fault_by (alu_uses (is_64 width) (code_of slot.now.opcode) (takes_register slot.now.opcode) (viewed slot.now))
        (viewed slot.now) ≡ Some e) }
{
    match (width, slot.opcode / 8 % 2) {
        (Width::Bits32, 0) => ordered(ByteOrder::Little, slot),
        (Width::Bits32, _) => ordered(ByteOrder::Big, slot),
        (Width::Bits64, 0) => ordered(ByteOrder::Swap, slot),
        (Width::Bits64, _) => Err(SlotFault::Undefined),
    }
}

// The classes ALU and ALU64.
fn alu(width: Width, slot: &Fields) -> Result<Insn, SlotFault>
    requires class { class_of slot.now.opcode ≡ alu_class width }
    ensures ok { IfOk result (λ i. fields_of i ≡ viewed slot.now) }
    ensures err { IfErr result (λ e.
        fault_by (alu_uses (is_64 width) (code_of slot.now.opcode) (takes_register slot.now.opcode) (viewed slot.now))
        (viewed slot.now) ≡ Some e) }
{
    match (slot.opcode / 16, slot.offset) {
        (0, _) => binary(width, Operation::Add, slot),
        (1, _) => binary(width, Operation::Sub, slot),
        (2, _) => binary(width, Operation::Mul, slot),
        (3, 0) => binary(width, Operation::Div, slot),
        (3, 1) => binary(width, Operation::SignedDiv, slot),
        (4, _) => binary(width, Operation::Or, slot),
        (5, _) => binary(width, Operation::And, slot),
        (6, _) => binary(width, Operation::LeftShift, slot),
        (7, _) => binary(width, Operation::RightShift, slot),
        (8, _) => negate(width, slot),
        (9, 0) => binary(width, Operation::Mod, slot),
        (9, 1) => binary(width, Operation::SignedMod, slot),
        (10, _) => binary(width, Operation::Xor, slot),
        (11, 0) => binary(width, Operation::Mov, slot),
        (11, _) if slot.opcode / 8 % 2 == 1 => extended_move(width, slot),
        (12, _) => binary(width, Operation::SignedRightShift, slot),
        (13, _) => byte_order(width, slot),
        _ => Err(SlotFault::Undefined),
    }
}

// A conditional jump.
fn jump_if(width: Width, condition: Condition, slot: &Fields) -> Result<Insn, SlotFault>
    requires class { class_of slot.now.opcode ≡ jump_class width }
    requires code { code_of slot.now.opcode ≡ condition_code condition }
    ensures ok { IfOk result (λ i. fields_of i ≡ viewed slot.now) }
    ensures err { IfErr result (λ e.
        fault_by (uses true (takes_register slot.now.opcode) true (not (takes_register slot.now.opcode)))
        (viewed slot.now) ≡ Some e) }
{
    let dst = used(slot.dst)?;
    let source = if slot.opcode / 8 % 2 == 1 {
        let register = used(slot.src)?;
        blank(slot.imm == 0)?;
        Source::Reg(register)
    } else {
        blank(slot.src == 0)?;
        Source::Imm(slot.imm)
    };
    Ok(Insn::JumpIf(width, condition, dst, source, slot.offset))
}

// JA: the offset of JMP, the imm of JMP32.
fn jump_always(width: Width, slot: &Fields) -> Result<Insn, SlotFault>
    requires class { class_of slot.now.opcode ≡ jump_class width }
    requires code { code_of slot.now.opcode ≡ 0 }
    ensures ok { IfOk result (λ i. fields_of i ≡ viewed slot.now) }
    ensures err { IfErr result (λ e.
        fault_by (jump_uses_of width (code_of slot.now.opcode) (takes_register slot.now.opcode) (viewed slot.now))
        (viewed slot.now) ≡ Some e) }
{
    if slot.opcode / 8 % 2 == 1 {
        return Err(SlotFault::Undefined);
    }
    blank(slot.dst == 0)?;
    blank(slot.src == 0)?;
    match width {
        Width::Bits64 => {
            blank(slot.imm == 0)?;
            Ok(Insn::Jump(slot.offset))
        }
        Width::Bits32 => {
            blank(slot.offset == 0)?;
            Ok(Insn::JumpLong(slot.imm))
        }
    }
}

fn call(slot: &Fields) -> Result<Insn, SlotFault>
    requires { slot.now.opcode ≡ 0x85 }
    ensures ok { IfOk result (λ i. fields_of i ≡ viewed slot.now) }
    ensures err { IfErr result (λ e. fault_by (uses_of (viewed slot.now)) (viewed slot.now) ≡ Some e) }
{
    if slot.src != 0 {
        return Err(SlotFault::Undefined);
    }
    blank(slot.dst == 0)?;
    blank(slot.offset == 0)?;
    Ok(Insn::Call(slot.imm))
}

fn exit(slot: &Fields) -> Result<Insn, SlotFault>
    requires { slot.now.opcode ≡ 0x95 }
    ensures ok { IfOk result (λ i. fields_of i ≡ viewed slot.now) }
    ensures err { IfErr result (λ e. fault_by (uses_of (viewed slot.now)) (viewed slot.now) ≡ Some e) }
{
    blank(slot.dst == 0)?;
    blank(slot.src == 0)?;
    blank(slot.offset == 0)?;
    blank(slot.imm == 0)?;
    Ok(Insn::Exit)
}

// The classes JMP and JMP32.
fn jump(width: Width, slot: &Fields) -> Result<Insn, SlotFault>
    requires class { class_of slot.now.opcode ≡ jump_class width }
    ensures ok { IfOk result (λ i. fields_of i ≡ viewed slot.now) }
    ensures err { IfErr result (λ e.
        fault_by (jump_uses_of width (code_of slot.now.opcode) (takes_register slot.now.opcode) (viewed slot.now))
        (viewed slot.now) ≡ Some e) }
{
    match (width, slot.opcode / 16) {
        (_, 0) => jump_always(width, slot),
        (_, 1) => jump_if(width, Condition::Equal, slot),
        (_, 2) => jump_if(width, Condition::Greater, slot),
        (_, 3) => jump_if(width, Condition::GreaterOrEqual, slot),
        (_, 4) => jump_if(width, Condition::AnyBit, slot),
        (_, 5) => jump_if(width, Condition::NotEqual, slot),
        (_, 6) => jump_if(width, Condition::SignedGreater, slot),
        (_, 7) => jump_if(width, Condition::SignedGreaterOrEqual, slot),
        (Width::Bits64, 8) if slot.opcode == 0x85 => call(slot),
        (Width::Bits64, 9) if slot.opcode == 0x95 => exit(slot),
        (_, 10) => jump_if(width, Condition::Less, slot),
        (_, 11) => jump_if(width, Condition::LessOrEqual, slot),
        (_, 12) => jump_if(width, Condition::SignedLess, slot),
        (_, 13) => jump_if(width, Condition::SignedLessOrEqual, slot),
        _ => Err(SlotFault::Undefined),
    }
}

fn load(size: Size, slot: &Fields) -> Result<Insn, SlotFault>
    requires { slot.now.opcode ≡ 0x61 + 8 * size_code size }
    ensures ok { IfOk result (λ i. fields_of i ≡ viewed slot.now) }
    ensures err { IfErr result (λ e. fault_by (uses true true true false) (viewed slot.now) ≡ Some e) }
{
    let dst = used(slot.dst)?;
    let base = used(slot.src)?;
    blank(slot.imm == 0)?;
    Ok(Insn::Load(size, dst, base, slot.offset))
}

fn load_signed(size: SignedSize, slot: &Fields) -> Result<Insn, SlotFault>
    requires { slot.now.opcode ≡ 0x81 + 8 * signed_size_code size }
    ensures ok { IfOk result (λ i. fields_of i ≡ viewed slot.now) }
    ensures err { IfErr result (λ e. fault_by (uses true true true false) (viewed slot.now) ≡ Some e) }
{
    let dst = used(slot.dst)?;
    let base = used(slot.src)?;
    blank(slot.imm == 0)?;
    Ok(Insn::LoadSigned(size, dst, base, slot.offset))
}

fn store_imm(size: Size, slot: &Fields) -> Result<Insn, SlotFault>
    requires { slot.now.opcode ≡ 0x62 + 8 * size_code size }
    ensures ok { IfOk result (λ i. fields_of i ≡ viewed slot.now) }
    ensures err { IfErr result (λ e. fault_by (uses true false true true) (viewed slot.now) ≡ Some e) }
{
    let base = used(slot.dst)?;
    blank(slot.src == 0)?;
    Ok(Insn::StoreImm(size, base, slot.offset, slot.imm))
}

fn store(size: Size, slot: &Fields) -> Result<Insn, SlotFault>
    requires { slot.now.opcode ≡ 0x63 + 8 * size_code size }
    ensures ok { IfOk result (λ i. fields_of i ≡ viewed slot.now) }
    ensures err { IfErr result (λ e. fault_by (uses true true true false) (viewed slot.now) ≡ Some e) }
{
    let base = used(slot.dst)?;
    let src = used(slot.src)?;
    blank(slot.imm == 0)?;
    Ok(Insn::Store(size, base, src, slot.offset))
}

// An atomic operation of this form.
fn atomic(width: Width, operation: AtomicOperation, slot: &Fields) -> Result<Insn, SlotFault>
    requires opcode { slot.now.opcode ≡ atomic_opcode width }
    requires imm { slot.now.imm ≡ pos (atomic_imm operation) }
    ensures ok { IfOk result (λ i. fields_of i ≡ viewed slot.now) }
    ensures err { IfErr result (λ e. fault_by (uses true true true true) (viewed slot.now) ≡ Some e) }
{
    let base = used(slot.dst)?;
    let src = used(slot.src)?;
    Ok(Insn::Atomic(width, operation, base, src, slot.offset))
}

// An atomic operation: the imm says which.
fn exchange(width: Width, slot: &Fields) -> Result<Insn, SlotFault>
    requires { slot.now.opcode ≡ atomic_opcode width }
    ensures ok { IfOk result (λ i. fields_of i ≡ viewed slot.now) }
    ensures err { IfErr result (λ e. fault_by (atomic_uses (viewed slot.now)) (viewed slot.now) ≡ Some e) }
{
    match slot.imm {
        0x00 => atomic(width, AtomicOperation::Add, slot),
        0x40 => atomic(width, AtomicOperation::Or, slot),
        0x50 => atomic(width, AtomicOperation::And, slot),
        0xa0 => atomic(width, AtomicOperation::Xor, slot),
        0x01 => atomic(width, AtomicOperation::FetchAdd, slot),
        0x41 => atomic(width, AtomicOperation::FetchOr, slot),
        0x51 => atomic(width, AtomicOperation::FetchAnd, slot),
        0xa1 => atomic(width, AtomicOperation::FetchXor, slot),
        0xe1 => atomic(width, AtomicOperation::Exchange, slot),
        0xf1 => atomic(width, AtomicOperation::CompareExchange, slot),
        _ => Err(SlotFault::Undefined),
    }
}

// The classes LDX, ST and STX.
fn memory(slot: &Fields) -> Result<Insn, SlotFault>
    requires { (0 < class_of slot.now.opcode) × (class_of slot.now.opcode < 4) }
    ensures ok { IfOk result (λ i. fields_of i ≡ viewed slot.now) }
    ensures err { IfErr result (λ e. fault_by (uses_of (viewed slot.now)) (viewed slot.now) ≡ Some e) }
{
    match slot.opcode {
        0x61 => load(Size::Word, slot),
        0x69 => load(Size::Half, slot),
        0x71 => load(Size::Byte, slot),
        0x79 => load(Size::Double, slot),
        0x81 => load_signed(SignedSize::SignedWord, slot),
        0x89 => load_signed(SignedSize::SignedHalf, slot),
        0x91 => load_signed(SignedSize::SignedByte, slot),
        0x62 => store_imm(Size::Word, slot),
        0x6a => store_imm(Size::Half, slot),
        0x72 => store_imm(Size::Byte, slot),
        0x7a => store_imm(Size::Double, slot),
        0x63 => store(Size::Word, slot),
        0x6b => store(Size::Half, slot),
        0x73 => store(Size::Byte, slot),
        0x7b => store(Size::Double, slot),
        0xc3 => exchange(Width::Bits32, slot),
        0xdb => exchange(Width::Bits64, slot),
        _ => Err(SlotFault::Undefined),
    }
}

// The first slot of a wide instruction: its value has the low half alone.
fn wide(slot: &Fields) -> Result<Insn, SlotFault>
    requires { class_of slot.now.opcode ≡ 0 }
    ensures ok { IfOk result (λ i. fields_of i ≡ viewed slot.now) }
    ensures err { IfErr result (λ e. fault_by (wide_uses (viewed slot.now)) (viewed slot.now) ≡ Some e) }
{
    if slot.opcode != 0x18 || slot.src != 0 {
        return Err(SlotFault::Undefined);
    }
    let dst = used(slot.dst)?;
    blank(slot.offset == 0)?;
    Ok(Insn::LoadWide(dst, u64::from(slot.imm.cast_unsigned())))
}

/// The instruction of a slot, or its first fault. Of a wide instruction this is the first slot,
/// and the value has the low half alone.
pub(crate) fn insn_of(slot: &Fields) -> Result<Insn, SlotFault>
    ensures ok { IfOk result (λ i. fields_of i ≡ viewed slot.now) }
    ensures err { IfErr result (λ e. fault_of (viewed slot.now) ≡ Some e) }
{
    if let Some(which) = outside(slot) {
        return Err(SlotFault::OutsideProfile(which));
    }
    match slot.opcode % 8 {
        0 => wide(slot),
        4 => alu(Width::Bits32, slot),
        5 => jump(Width::Bits64, slot),
        6 => jump(Width::Bits32, slot),
        7 => alu(Width::Bits64, slot),
        _ => memory(slot),
    }
}
