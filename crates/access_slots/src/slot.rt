//! Records, and the slots by which a procedure declares its accesses.

ghost use Rattle.std.specs.Prelude.{◌≡◌, true, length};
ghost use Rattle.access_slots.specs.Access.{record_of};
ghost use Rattle.access_slots.specs.Declaration.{names_argument};

/// A record's value: 64 bytes.
pub type Value = [u8; 64];

/// A record's name, ordered by its fields in this order.
#[derive(Clone, Copy, Debug, Default, PartialEq, Eq, PartialOrd, Ord, Hash)]
pub struct Record {
    /// The data component that keeps it.
    pub dc: u16,
    pub table: u16,
    pub key: u64,
}

/// How a record is accessed; Read is the lesser.
#[derive(Clone, Copy, Debug, Default, PartialEq, Eq, PartialOrd, Ord)]
pub enum Mode {
    #[default]
    Read,
    Write,
}

impl Mode {
    ghost use Rattle.std.specs.Prelude.{◌≡◌, Some};
    ghost use Rattle.access_slots.specs.Held.{excludes};

    /// Whether a lock in this mode can't be granted beside one on the same record that is held in the
    /// other: unless both are for reading.
    pub fn excludes(self, held: Mode) -> bool
        ensures { result ≡ excludes (Some self) (Some held) }
    {
        self == Mode::Write || held == Mode::Write
    }
}

/// A record's key: an argument of the call, or fixed.
#[derive(Clone, Copy, Debug, PartialEq, Eq)]
pub enum Key {
    /// The argument of this number, from 0.
    Arg(u8),
    Fixed(u64),
}

/// A declared access: the record that a call names with its arguments.
#[derive(Clone, Copy, Debug, PartialEq, Eq)]
pub struct Slot {
    pub mode: Mode,
    pub dc: u16,
    pub table: u16,
    pub key: Key,
}

impl Slot {
    /// The record that it names in a call with these arguments.
    pub fn record(&self, args: &[u64]) -> Record
        requires { names_argument (length args.now) self.now.key ≡ true }
        ensures { result ≡ record_of args.now self.now }
    {
        let key = match self.key {
            Key::Arg(argument) => args[usize::from(argument)],
            Key::Fixed(key) => key,
        };
        Record {
            dc: self.dc,
            table: self.table,
            key,
        }
    }
}
