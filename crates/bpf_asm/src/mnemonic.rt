//! The mnemonics of the text: each names an instruction but for its operands.

ghost use Rattle.std.specs.Prelude.{◌≡◌, ◌++◌, codes};
ghost use Rattle.std.specs.Str.{bytes_eq};
ghost use Rattle.bpf_asm.specs.declared.line.LineFault.TheVariants.{UnknownWord};
ghost use Rattle.bpf_asm.specs.Mnemonics.{named, mnemonics, mnemonic_name, mnemonic_said, operand_count};
ghost use Rattle.bpf_asm.specs.Mnemonics.{operation_name, condition_name, width_suffix, extension_name, order_name};
ghost use Rattle.bpf_asm.specs.Mnemonics.{order_suffix, size_suffix, signed_size_suffix, atomic_name, atomic_suffix};

use crate::line::LineFault;
use bpf_encoding::insn::{
    AtomicOperation, ByteOrder, Condition, Extension, Operation, OrderWidth, SignedSize, Size,
    Width,
};

/// An instruction but for its operands.
#[derive(Clone, Copy)]
pub enum Mnemonic {
    Alu(Width, Operation),
    Negate(Width),
    MoveSigned(Extension),
    Order(ByteOrder, OrderWidth),
    LoadWide,
    Jump,
    JumpLong,
    JumpIf(Width, Condition),
    Load(Size),
    LoadSigned(SignedSize),
    StoreImm(Size),
    Store(Size),
    Atomic(Width, AtomicOperation),
    Call,
    Exit,
}

const MNEMONICS: [Mnemonic; 106] = [
    Mnemonic::Alu(Width::Bits64, Operation::Add),
    Mnemonic::Alu(Width::Bits64, Operation::Sub),
    Mnemonic::Alu(Width::Bits64, Operation::Mul),
    Mnemonic::Alu(Width::Bits64, Operation::Div),
    Mnemonic::Alu(Width::Bits64, Operation::SignedDiv),
    Mnemonic::Alu(Width::Bits64, Operation::Or),
    Mnemonic::Alu(Width::Bits64, Operation::And),
    Mnemonic::Alu(Width::Bits64, Operation::LeftShift),
    Mnemonic::Alu(Width::Bits64, Operation::RightShift),
    Mnemonic::Alu(Width::Bits64, Operation::Mod),
    Mnemonic::Alu(Width::Bits64, Operation::SignedMod),
    Mnemonic::Alu(Width::Bits64, Operation::Xor),
    Mnemonic::Alu(Width::Bits64, Operation::Mov),
    Mnemonic::Alu(Width::Bits64, Operation::SignedRightShift),
    Mnemonic::Alu(Width::Bits32, Operation::Add),
    Mnemonic::Alu(Width::Bits32, Operation::Sub),
    Mnemonic::Alu(Width::Bits32, Operation::Mul),
    Mnemonic::Alu(Width::Bits32, Operation::Div),
    Mnemonic::Alu(Width::Bits32, Operation::SignedDiv),
    Mnemonic::Alu(Width::Bits32, Operation::Or),
    Mnemonic::Alu(Width::Bits32, Operation::And),
    Mnemonic::Alu(Width::Bits32, Operation::LeftShift),
    Mnemonic::Alu(Width::Bits32, Operation::RightShift),
    Mnemonic::Alu(Width::Bits32, Operation::Mod),
    Mnemonic::Alu(Width::Bits32, Operation::SignedMod),
    Mnemonic::Alu(Width::Bits32, Operation::Xor),
    Mnemonic::Alu(Width::Bits32, Operation::Mov),
    Mnemonic::Alu(Width::Bits32, Operation::SignedRightShift),
    Mnemonic::Negate(Width::Bits64),
    Mnemonic::Negate(Width::Bits32),
    Mnemonic::MoveSigned(Extension::Byte64),
    Mnemonic::MoveSigned(Extension::Half64),
    Mnemonic::MoveSigned(Extension::Word64),
    Mnemonic::MoveSigned(Extension::Byte32),
    Mnemonic::MoveSigned(Extension::Half32),
    Mnemonic::Order(ByteOrder::Little, OrderWidth::Order16),
    Mnemonic::Order(ByteOrder::Little, OrderWidth::Order32),
    Mnemonic::Order(ByteOrder::Little, OrderWidth::Order64),
    Mnemonic::Order(ByteOrder::Big, OrderWidth::Order16),
    Mnemonic::Order(ByteOrder::Big, OrderWidth::Order32),
    Mnemonic::Order(ByteOrder::Big, OrderWidth::Order64),
    Mnemonic::Order(ByteOrder::Swap, OrderWidth::Order16),
    Mnemonic::Order(ByteOrder::Swap, OrderWidth::Order32),
    Mnemonic::Order(ByteOrder::Swap, OrderWidth::Order64),
    Mnemonic::LoadWide,
    Mnemonic::Jump,
    Mnemonic::JumpLong,
    Mnemonic::JumpIf(Width::Bits64, Condition::Equal),
    Mnemonic::JumpIf(Width::Bits64, Condition::Greater),
    Mnemonic::JumpIf(Width::Bits64, Condition::GreaterOrEqual),
    Mnemonic::JumpIf(Width::Bits64, Condition::AnyBit),
    Mnemonic::JumpIf(Width::Bits64, Condition::NotEqual),
    Mnemonic::JumpIf(Width::Bits64, Condition::SignedGreater),
    Mnemonic::JumpIf(Width::Bits64, Condition::SignedGreaterOrEqual),
    Mnemonic::JumpIf(Width::Bits64, Condition::Less),
    Mnemonic::JumpIf(Width::Bits64, Condition::LessOrEqual),
    Mnemonic::JumpIf(Width::Bits64, Condition::SignedLess),
    Mnemonic::JumpIf(Width::Bits64, Condition::SignedLessOrEqual),
    Mnemonic::JumpIf(Width::Bits32, Condition::Equal),
    Mnemonic::JumpIf(Width::Bits32, Condition::Greater),
    Mnemonic::JumpIf(Width::Bits32, Condition::GreaterOrEqual),
    Mnemonic::JumpIf(Width::Bits32, Condition::AnyBit),
    Mnemonic::JumpIf(Width::Bits32, Condition::NotEqual),
    Mnemonic::JumpIf(Width::Bits32, Condition::SignedGreater),
    Mnemonic::JumpIf(Width::Bits32, Condition::SignedGreaterOrEqual),
    Mnemonic::JumpIf(Width::Bits32, Condition::Less),
    Mnemonic::JumpIf(Width::Bits32, Condition::LessOrEqual),
    Mnemonic::JumpIf(Width::Bits32, Condition::SignedLess),
    Mnemonic::JumpIf(Width::Bits32, Condition::SignedLessOrEqual),
    Mnemonic::Load(Size::Byte),
    Mnemonic::Load(Size::Half),
    Mnemonic::Load(Size::Word),
    Mnemonic::Load(Size::Double),
    Mnemonic::LoadSigned(SignedSize::SignedByte),
    Mnemonic::LoadSigned(SignedSize::SignedHalf),
    Mnemonic::LoadSigned(SignedSize::SignedWord),
    Mnemonic::StoreImm(Size::Byte),
    Mnemonic::StoreImm(Size::Half),
    Mnemonic::StoreImm(Size::Word),
    Mnemonic::StoreImm(Size::Double),
    Mnemonic::Store(Size::Byte),
    Mnemonic::Store(Size::Half),
    Mnemonic::Store(Size::Word),
    Mnemonic::Store(Size::Double),
    Mnemonic::Atomic(Width::Bits32, AtomicOperation::Add),
    Mnemonic::Atomic(Width::Bits32, AtomicOperation::Or),
    Mnemonic::Atomic(Width::Bits32, AtomicOperation::And),
    Mnemonic::Atomic(Width::Bits32, AtomicOperation::Xor),
    Mnemonic::Atomic(Width::Bits32, AtomicOperation::FetchAdd),
    Mnemonic::Atomic(Width::Bits32, AtomicOperation::FetchOr),
    Mnemonic::Atomic(Width::Bits32, AtomicOperation::FetchAnd),
    Mnemonic::Atomic(Width::Bits32, AtomicOperation::FetchXor),
    Mnemonic::Atomic(Width::Bits32, AtomicOperation::Exchange),
    Mnemonic::Atomic(Width::Bits32, AtomicOperation::CompareExchange),
    Mnemonic::Atomic(Width::Bits64, AtomicOperation::Add),
    Mnemonic::Atomic(Width::Bits64, AtomicOperation::Or),
    Mnemonic::Atomic(Width::Bits64, AtomicOperation::And),
    Mnemonic::Atomic(Width::Bits64, AtomicOperation::Xor),
    Mnemonic::Atomic(Width::Bits64, AtomicOperation::FetchAdd),
    Mnemonic::Atomic(Width::Bits64, AtomicOperation::FetchOr),
    Mnemonic::Atomic(Width::Bits64, AtomicOperation::FetchAnd),
    Mnemonic::Atomic(Width::Bits64, AtomicOperation::FetchXor),
    Mnemonic::Atomic(Width::Bits64, AtomicOperation::Exchange),
    Mnemonic::Atomic(Width::Bits64, AtomicOperation::CompareExchange),
    Mnemonic::Call,
    Mnemonic::Exit,
];

fn operation_name(operation: Operation) -> &'static str
    ensures { result.now ≡ operation_name operation }
{
    match operation {
        Operation::Add => "add",
        Operation::Sub => "sub",
        Operation::Mul => "mul",
        Operation::Div => "div",
        Operation::SignedDiv => "sdiv",
        Operation::Or => "or",
        Operation::And => "and",
        Operation::LeftShift => "lsh",
        Operation::RightShift => "rsh",
        Operation::Mod => "mod",
        Operation::SignedMod => "smod",
        Operation::Xor => "xor",
        Operation::Mov => "mov",
        Operation::SignedRightShift => "arsh",
    }
}

fn condition_name(condition: Condition) -> &'static str
    ensures { result.now ≡ condition_name condition }
{
    match condition {
        Condition::Equal => "jeq",
        Condition::Greater => "jgt",
        Condition::GreaterOrEqual => "jge",
        Condition::AnyBit => "jset",
        Condition::NotEqual => "jne",
        Condition::SignedGreater => "jsgt",
        Condition::SignedGreaterOrEqual => "jsge",
        Condition::Less => "jlt",
        Condition::LessOrEqual => "jle",
        Condition::SignedLess => "jslt",
        Condition::SignedLessOrEqual => "jsle",
    }
}

fn width_suffix(width: Width) -> &'static str
    ensures { result.now ≡ width_suffix width }
{
    match width {
        Width::Bits64 => "",
        Width::Bits32 => "32",
    }
}

fn extension_name(extension: Extension) -> &'static str
    ensures { result.now ≡ extension_name extension }
{
    match extension {
        Extension::Byte64 => "movs8",
        Extension::Half64 => "movs16",
        Extension::Word64 => "movs32",
        Extension::Byte32 => "movs8_32",
        Extension::Half32 => "movs16_32",
    }
}

fn order_name(order: ByteOrder) -> &'static str
    ensures { result.now ≡ order_name order }
{
    match order {
        ByteOrder::Little => "le",
        ByteOrder::Big => "be",
        ByteOrder::Swap => "swap",
    }
}

fn order_suffix(width: OrderWidth) -> &'static str
    ensures { result.now ≡ order_suffix width }
{
    match width {
        OrderWidth::Order16 => "16",
        OrderWidth::Order32 => "32",
        OrderWidth::Order64 => "64",
    }
}

fn size_suffix(size: Size) -> &'static str
    ensures { result.now ≡ size_suffix size }
{
    match size {
        Size::Byte => "b",
        Size::Half => "h",
        Size::Word => "w",
        Size::Double => "dw",
    }
}

fn signed_size_suffix(size: SignedSize) -> &'static str
    ensures { result.now ≡ signed_size_suffix size }
{
    match size {
        SignedSize::SignedByte => "b",
        SignedSize::SignedHalf => "h",
        SignedSize::SignedWord => "w",
    }
}

fn atomic_name(operation: AtomicOperation) -> &'static str
    ensures { result.now ≡ atomic_name operation }
{
    match operation {
        AtomicOperation::Add => "atomic_add",
        AtomicOperation::Or => "atomic_or",
        AtomicOperation::And => "atomic_and",
        AtomicOperation::Xor => "atomic_xor",
        AtomicOperation::FetchAdd => "atomic_fetch_add",
        AtomicOperation::FetchOr => "atomic_fetch_or",
        AtomicOperation::FetchAnd => "atomic_fetch_and",
        AtomicOperation::FetchXor => "atomic_fetch_xor",
        AtomicOperation::Exchange => "atomic_xchg",
        AtomicOperation::CompareExchange => "atomic_cmpxchg",
    }
}

fn atomic_suffix(width: Width) -> &'static str
    ensures { result.now ≡ atomic_suffix width }
{
    match width {
        Width::Bits32 => "_w",
        Width::Bits64 => "_dw",
    }
}

impl Mnemonic {
    ghost use Rattle.std.specs.Prelude.{◌≡◌, ◌++◌};
    ghost use Rattle.bpf_asm.specs.Mnemonics.{mnemonic_name, operand_count};

    /// Its text, in two parts.
    pub fn name(self) -> (&'static str, &'static str)
        ensures { result.0.now ++ result.1.now ≡ mnemonic_name self }
    {
        match self {
            Mnemonic::Alu(width, operation) => (operation_name(operation), width_suffix(width)),
            Mnemonic::Negate(width) => ("neg", width_suffix(width)),
            Mnemonic::MoveSigned(extension) => (extension_name(extension), ""),
            Mnemonic::Order(order, width) => (order_name(order), order_suffix(width)),
            Mnemonic::LoadWide => ("lddw", ""),
            Mnemonic::Jump => ("ja", ""),
            Mnemonic::JumpLong => ("ja", "32"),
            Mnemonic::JumpIf(width, condition) => (condition_name(condition), width_suffix(width)),
            Mnemonic::Load(size) => ("ldx", size_suffix(size)),
            Mnemonic::LoadSigned(size) => ("ldxs", signed_size_suffix(size)),
            Mnemonic::StoreImm(size) => ("st", size_suffix(size)),
            Mnemonic::Store(size) => ("stx", size_suffix(size)),
            Mnemonic::Atomic(width, operation) => (atomic_name(operation), atomic_suffix(width)),
            Mnemonic::Call => ("call", ""),
            Mnemonic::Exit => ("exit", ""),
        }
    }

    /// How many operands it takes, 0 to 3.
    pub fn operand_count(self) -> usize
        ensures { result ≡ operand_count self }
    {
        match self {
            Mnemonic::Exit => 0,
            Mnemonic::Negate(_)
            | Mnemonic::Order(..)
            | Mnemonic::Jump
            | Mnemonic::JumpLong
            | Mnemonic::Call => 1,
            Mnemonic::JumpIf(..) => 3,
            _ => 2,
        }
    }
}

// Whether the text is the mnemonic's.
fn is_named(mnemonic: Mnemonic, text: &[u8]) -> bool
    ensures { result ≡ bytes_eq text.now (mnemonic_name mnemonic) }
{
    let (stem, suffix) = mnemonic.name();
    text.strip_prefix(stem.as_bytes()) == Some(suffix.as_bytes())
}

// The first of these that has this text.
fn first_named(mnemonics: &[Mnemonic], text: &[u8]) -> Result<Mnemonic, LineFault>
    ensures { result ≡ named mnemonic_name UnknownWord mnemonics.now text.now }
{
    'names: for mnemonic in mnemonics {
        if is_named(*mnemonic, text) {
            return Ok(*mnemonic);
        }
    }
    Err(LineFault::UnknownWord)
}

/// The mnemonic of this text.
pub fn mnemonic_said(text: &[u8]) -> Result<Mnemonic, LineFault>
    ensures { result ≡ mnemonic_said text.now }
{
    first_named(&MNEMONICS, text)
}
