//! The instructions of the profile: base32, base64, divmul32, divmul64, atomic32 and atomic64
//! (RFC 9669, section 2.4).

/// One of the eleven registers (RFC 9669, section 3.1).
#[derive(Clone, Copy, Debug, PartialEq, Eq)]
pub enum Register {
    R0,
    R1,
    R2,
    R3,
    R4,
    R5,
    R6,
    R7,
    R8,
    R9,
    R10,
}

/// How many low bits of its operands an operation works on.
#[derive(Clone, Copy, Debug, PartialEq, Eq)]
pub enum Width {
    /// Classes ALU and JMP32, and atomic operations on 4 bytes.
    Bits32,
    /// Classes ALU64 and JMP, and atomic operations on 8 bytes.
    Bits64,
}

/// The bytes that a load or a store moves: 4, 2, 1 or 8.
#[derive(Clone, Copy, Debug, PartialEq, Eq)]
pub enum Size {
    Word,
    Half,
    Byte,
    Double,
}

/// The bytes that a load with sign extension reads: 4, 2 or 1.
#[derive(Clone, Copy, Debug, PartialEq, Eq)]
pub enum SignedSize {
    SignedWord,
    SignedHalf,
    SignedByte,
}

/// The second operand: a number in the slot, or a register.
#[derive(Clone, Copy)]
pub enum Source {
    Imm(i32),
    Reg(Register),
}

/// A binary operation of ALU and ALU64 (RFC 9669, section 4.1).
#[derive(Clone, Copy, Debug, PartialEq, Eq)]
pub enum Operation {
    Add,
    Sub,
    Mul,
    Div,
    SignedDiv,
    Or,
    And,
    LeftShift,
    RightShift,
    Mod,
    SignedMod,
    Xor,
    Mov,
    SignedRightShift,
}

/// A move with sign extension: of the low 8, 16 or 32 bits to 64 bits, or of the low 8 or 16
/// to 32 bits.
#[derive(Clone, Copy, Debug, PartialEq, Eq)]
pub enum Extension {
    Byte64,
    Half64,
    Word64,
    Byte32,
    Half32,
}

/// A byte order conversion (RFC 9669, section 4.2). The host is little-endian.
#[derive(Clone, Copy, Debug, PartialEq, Eq)]
pub enum ByteOrder {
    Little,
    Big,
    Swap,
}

/// The low bits that a byte order conversion keeps: 16, 32 or 64.
#[derive(Clone, Copy, Debug, PartialEq, Eq)]
pub enum OrderWidth {
    Order16,
    Order32,
    Order64,
}

/// The condition of a jump (RFC 9669, section 4.3).
#[derive(Clone, Copy, Debug, PartialEq, Eq)]
pub enum Condition {
    Equal,
    Greater,
    GreaterOrEqual,
    /// Some bit is set in both operands.
    AnyBit,
    NotEqual,
    SignedGreater,
    SignedGreaterOrEqual,
    Less,
    LessOrEqual,
    SignedLess,
    SignedLessOrEqual,
}

/// An atomic operation on a number in memory (RFC 9669, section 5.3).
#[derive(Clone, Copy, Debug, PartialEq, Eq)]
pub enum AtomicOperation {
    Add,
    Or,
    And,
    Xor,
    /// These four with FETCH: src gets the number that was in memory before.
    FetchAdd,
    FetchOr,
    FetchAnd,
    FetchXor,
    /// XCHG: src is stored, and gets the number that was in memory before.
    Exchange,
    /// CMPXCHG: src is stored where memory has the number in register 0, which gets the number
    /// that was in memory before.
    CompareExchange,
}

/// One instruction. Each value has a spelling: its variants and enums carry just what the
/// tables of RFC 9669, sections 3 to 5, allow in this profile. Operands stand in the order in
/// which each variant names them; an offset of a jump counts slots from the slot behind it, one
/// of a load or store counts bytes from the address in `base`.
#[derive(Clone, Copy)]
pub enum Insn {
    /// `dst = dst operation source`: width, operation, dst, source.
    Alu(Width, Operation, Register, Source),
    /// `dst = -dst`: width, dst.
    Negate(Width, Register),
    /// `dst = src`, its low bits with their sign: extension, dst, src.
    MoveSigned(Extension, Register, Register),
    /// `dst` in another byte order: order, width, dst.
    Order(ByteOrder, OrderWidth, Register),
    /// `dst = value`, in two slots: dst, value.
    LoadWide(Register, u64),
    /// On at the offset.
    Jump(i16),
    /// The same with 32 bits of offset.
    JumpLong(i32),
    /// On at the offset if `dst condition source`: width, condition, dst, source, offset.
    JumpIf(Width, Condition, Register, Source, i16),
    /// `dst = *(base + offset)`: size, dst, base, offset.
    Load(Size, Register, Register, i16),
    /// The same with the sign of what is read: size, dst, base, offset.
    LoadSigned(SignedSize, Register, Register, i16),
    /// `*(base + offset) = imm`: size, base, offset, imm.
    StoreImm(Size, Register, i16, i32),
    /// `*(base + offset) = src`: size, base, src, offset.
    Store(Size, Register, Register, i16),
    /// `*(base + offset) = *(base + offset) operation src`: width, operation, base, src, offset.
    Atomic(Width, AtomicOperation, Register, Register, i16),
    /// Calls a helper by its number.
    Call(i32),
    /// The end, with the value of register 0.
    Exit,
}

/// What stands at a slot of code.
#[derive(Clone, Copy)]
pub enum Place {
    Insn(Insn),
    /// The second slot of the wide instruction before it.
    Second,
}

impl Register {
    ghost use Rattle.std.specs.Prelude.{◌≡◌, ◌<◌};
    ghost use Rattle.bpf_encoding.specs.Spelling.{number_of};

    /// Its number, 0 to 10.
    #[inline]
    pub fn index(self) -> usize
        ensures number { result ≡ number_of self }
        ensures below { result < 11 }
    {
        self as usize
    }
}

impl Insn {
    ghost use Rattle.std.specs.Prelude.{◌≡◌, ◌≤◌, [], ◌∷◌, length};
    ghost use Rattle.bpf_encoding.specs.Spelling.{is_wide, places_of};

    /// Whether it takes two slots.
    pub fn is_wide(&self) -> bool
        ensures { result ≡ is_wide self.now }
    {
        matches!(self, Insn::LoadWide(..))
    }

    /// How many slots it takes, 1 or 2.
    pub fn slots(&self) -> usize
        ensures value { result ≡ length (places_of (self.now ∷ [])) }
        ensures most { result ≤ 2 }
    {
        if self.is_wide() { 2 } else { 1 }
    }
}
