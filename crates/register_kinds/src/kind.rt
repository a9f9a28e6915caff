//! Kinds of registers.

ghost use Rattle.std.specs.Prelude.{◌≡◌};
ghost use Rattle.register_kinds.specs.Kinds.{join_of, is_present, is_plain};
ghost use Rattle.register_kinds.specs.Computed.{IsStep, near, moved_by, sum_kind, difference_kind, copied_kind};

use bpf_encoding::insn::Width;

/// What is known of a register.
#[derive(Clone, Copy, Debug, PartialEq, Eq)]
pub enum Kind {
    /// Nothing has been written there.
    Empty,
    /// Some number of 64 bits.
    Number,
    /// This number.
    Const(u64),
    /// An address, counted in bytes from the stack's first one; -65536 to 65536.
    Stack(i32),
    /// An address, counted from the arguments' first byte.
    Args(i32),
    /// An address, counted from the first byte of the buffer of a declared slot: slot, offset.
    Buffer(u8, i32),
    /// The address of the first byte of this slot's buffer, or 0.
    MaybeBuffer(u8),
}

/// What code may not do.
#[derive(Clone, Copy, Debug, PartialEq, Eq)]
pub enum Violation {
    /// A jump leads to its own slot or back.
    Backward,
    /// A jump leads past the code.
    OutOfCode,
    /// A jump leads to the second slot of a wide instruction.
    IntoWide,
    /// The last instruction is neither an exit nor a jump always taken.
    FallsOff,
    /// A register is read that may be empty.
    EmptyRegister,
    /// Register 10 is written.
    WritesR10,
    /// A load or store by a register that has no address.
    NotAPointer,
    /// A load or store outside its region.
    OutOfBounds,
    /// A store into the arguments.
    ReadOnly,
    /// A load or store by an address that may be 0.
    MaybeNull,
    /// A call of a helper that there isn't.
    UnknownHelper,
    /// A call with a slot that isn't known or isn't declared.
    SlotUnknown,
    /// A write through a slot declared for reading.
    ModeTooWeak,
    /// An exit with an address.
    PointerReturned,
}

// An offset so many bytes on, where it isn't too far from its region's first byte.
fn near(from: i32, by: i128) -> Option<i32>
    requires { IsStep by }
    ensures { result ≡ near from by }
{
    let offset = i128::from(from) + by;
    if offset < -65536 || offset > 65536 {
        return None;
    }
    Some(offset as i32)
}

impl Kind {
    /// What is known where two ways meet: equal kinds stay, Empty with anything is Empty, all
    /// else is Number.
    pub fn join(self, other: Kind) -> Kind
        ensures { result ≡ join_of self other }
    {
        match (self, other) {
            (Kind::Empty, _) | (_, Kind::Empty) => Kind::Empty,
            _ if self == other => self,
            _ => Kind::Number,
        }
    }

    /// Whether the register has a value on every way.
    pub fn is_present(self) -> bool
        ensures { result ≡ is_present self }
    {
        !matches!(self, Kind::Empty)
    }

    /// Whether it is a number and no address.
    pub fn is_plain(self) -> bool
        ensures { result ≡ is_plain self }
    {
        matches!(self, Kind::Number | Kind::Const(_))
    }

    // What an address is so many bytes on.
    fn moved(self, by: i128) -> Kind
        requires { IsStep by }
        ensures { result ≡ moved_by self by }
    {
        match self {
            Kind::Stack(from) => near(from, by).map_or(Kind::Number, Kind::Stack),
            Kind::Args(from) => near(from, by).map_or(Kind::Number, Kind::Args),
            Kind::Buffer(slot, from) => match near(from, by) {
                Some(offset) => Kind::Buffer(slot, offset),
                None => Kind::Number,
            },
            _ => Kind::Number,
        }
    }

    /// What a sum of 64 bits is.
    pub(crate) fn sum(self, other: Kind) -> Kind
        ensures { result ≡ sum_kind self other }
    {
        match (self, other) {
            (Kind::Const(a), Kind::Const(b)) => Kind::Const(a.wrapping_add(b)),
            (address, Kind::Const(by)) | (Kind::Const(by), address) => {
                address.moved(i128::from(by.cast_signed()))
            }
            _ => Kind::Number,
        }
    }

    /// What a difference of 64 bits is.
    pub(crate) fn difference(self, other: Kind) -> Kind
        ensures { result ≡ difference_kind self other }
    {
        match (self, other) {
            (Kind::Const(a), Kind::Const(b)) => Kind::Const(a.wrapping_sub(b)),
            (address, Kind::Const(by)) => address.moved(-i128::from(by.cast_signed())),
            _ => Kind::Number,
        }
    }

    /// What a copy is, of 64 bits or of the low 32.
    pub(crate) fn copied(self, width: Width) -> Kind
        ensures { result ≡ copied_kind width self }
    {
        match (width, self) {
            (Width::Bits64, kind) => kind,
            (Width::Bits32, Kind::Const(value)) => Kind::Const(value % 0x1_0000_0000),
            (Width::Bits32, _) => Kind::Number,
        }
    }
}
