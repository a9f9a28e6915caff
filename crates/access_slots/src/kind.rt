//! Operations and answers without their records and values.

use crate::op::{Op, Said};
use crate::slot::{Record, Value};

/// What an operation does to its record.
#[derive(Clone, Copy, Debug, PartialEq, Eq)]
pub enum OpKind {
    Read,
    Insert,
    Update,
    Delete,
}

/// What is said to an operation, without the value that goes with it.
#[derive(Clone, Copy, Debug, PartialEq, Eq)]
pub enum SaidKind {
    /// The record has a value, to a read.
    Value,
    /// There is no such record, to a read.
    Absent,
    /// The write was performed, and there was no former value.
    Done,
    /// The write was performed, and there was a former value.
    DoneWithFormer,
    /// The record is there already, to an insert.
    Duplicate,
    /// There is no such record, to an update or a delete.
    Missing,
    /// No further record has room, to an insert.
    NoRoom,
    /// The number was answered long ago.
    Old,
}

impl OpKind {
    ghost use Rattle.std.specs.Prelude.{◌≡◌};
    ghost use Rattle.access_slots.specs.Kinds.{op_of, has_value};

    /// Whether operations of this kind have a value.
    #[inline(always)]
    pub fn has_value(self) -> bool
        ensures { result ≡ has_value self }
    {
        matches!(self, OpKind::Insert | OpKind::Update)
    }

    /// The operation of this kind on the record. The value is its value, if it has one.
    #[inline(always)]
    pub fn with(self, record: Record, value: &Value) -> Op
        ensures { result ≡ op_of self «record» value.now }
    {
        match self {
            OpKind::Read => Op::Read(record),
            OpKind::Insert => Op::Insert(record, *value),
            OpKind::Update => Op::Update(record, *value),
            OpKind::Delete => Op::Delete(record),
        }
    }
}

impl SaidKind {
    ghost use Rattle.std.specs.Prelude.{◌≡◌};
    ghost use Rattle.access_slots.specs.Kinds.{said_of, is_said_with_value};

    /// Whether a value goes with what is said.
    #[inline(always)]
    pub fn has_value(self) -> bool
        ensures { result ≡ is_said_with_value self }
    {
        matches!(self, SaidKind::Value | SaidKind::DoneWithFormer)
    }

    /// What is said, of this kind. The value is its value, if it has one.
    #[inline(always)]
    pub fn with(self, value: &Value) -> Said
        ensures { result ≡ said_of self value.now }
    {
        match self {
            SaidKind::Value => Said::Value(*value),
            SaidKind::Absent => Said::Absent,
            SaidKind::Done => Said::Done(None),
            SaidKind::DoneWithFormer => Said::Done(Some(*value)),
            SaidKind::Duplicate => Said::Duplicate,
            SaidKind::Missing => Said::Missing,
            SaidKind::NoRoom => Said::NoRoom,
            SaidKind::Old => Said::Old,
        }
    }
}
