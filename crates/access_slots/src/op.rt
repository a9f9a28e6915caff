//! Operations on records, and what is said to them.

ghost use Rattle.std.specs.Prelude.{◌≡◌};
ghost use Rattle.access_slots.specs.Access.{fits};
ghost use Rattle.access_slots.specs.Locks.{target, is_read, conflict};

use crate::kind::{OpKind, SaidKind};
use crate::slot::{Record, Value};

/// An operation on one record, as a transaction component sends it (Lomet, Fekete, Weikum,
/// Zwilling, CIDR 2009).
#[derive(Clone, Copy, Debug, PartialEq, Eq)]
pub enum Op {
    Read(Record),
    Insert(Record, Value),
    Update(Record, Value),
    Delete(Record),
}

/// What is said to an operation.
#[derive(Clone, Copy, Debug, PartialEq, Eq)]
pub enum Said {
    /// The record's value, to a read.
    Value(Value),
    /// There is no such record, to a read.
    Absent,
    /// The write was performed; with the former value, if there was one.
    Done(Option<Value>),
    /// The record is there already, to an insert.
    Duplicate,
    /// There is no such record, to an update or a delete.
    Missing,
    /// No further record has room, to an insert.
    NoRoom,
    /// The number was answered long ago.
    Old,
}

/// An operation on its way to a data component, under its number, and the low-water mark: all
/// numbers up to it were answered (Lomet, Fekete, Weikum, Zwilling, CIDR 2009). It is for one
/// incarnation of the data component; another is silent to it.
#[derive(Clone, Copy, Debug, PartialEq, Eq)]
pub struct Wire {
    pub number: u64,
    pub low_water: u64,
    pub incarnation: u64,
    /// Whether it redoes an operation that was answered before and may be lost.
    pub redo: bool,
    pub op: Op,
}

/// What a data component says to a number, and which of its incarnations says it.
#[derive(Clone, Copy, Debug, PartialEq, Eq)]
pub struct Reply {
    pub number: u64,
    pub incarnation: u64,
    pub said: Said,
}

/// What a data component tells of its restart: its new incarnation, and the low-water mark that its
/// last checkpoint kept. What it performed above that mark may be lost.
#[derive(Clone, Copy, Debug, PartialEq, Eq)]
pub struct News {
    pub incarnation: u64,
    pub mark: u64,
}

/// Whether the answer can be one to the operation. Old is none to any.
#[inline(always)]
pub fn fits(op: &Op, said: &Said) -> bool
    ensures { result ≡ fits op.now said.now }
{
    match op {
        Op::Read(_) => matches!(said, Said::Value(_) | Said::Absent),
        Op::Insert(..) => matches!(said, Said::Done(None) | Said::Duplicate | Said::NoRoom),
        Op::Update(..) | Op::Delete(_) => matches!(said, Said::Done(Some(_)) | Said::Missing),
    }
}

impl Op {
    ghost use Rattle.std.specs.Prelude.{◌≡◌, option_copied};
    ghost use Rattle.access_slots.specs.Locks.{target, is_read};
    ghost use Rattle.access_slots.specs.Kinds.{op_kind, op_value, IsOpAgain};

    /// The record that it is for.
    #[inline(always)]
    pub fn record(&self) -> &Record
        ensures { result.now ≡ target self.now }
    {
        match self {
            Op::Read(record) | Op::Delete(record) => record,
            Op::Insert(record, _) | Op::Update(record, _) => record,
        }
    }

    /// Whether it changes nothing.
    #[inline(always)]
    pub fn is_read(&self) -> bool
        ensures { result ≡ is_read self.now }
    {
        matches!(self, Op::Read(_))
    }

    /// What it does.
    #[inline(always)]
    #[tactic(auto, using(crate::proofs::KindLemmas::op_again))]
    pub fn kind(&self) -> OpKind
        ensures kind { result ≡ op_kind self.now }
        ensures again { IsOpAgain self.now result }
    {
        match self {
            Op::Read(_) => OpKind::Read,
            Op::Insert(..) => OpKind::Insert,
            Op::Update(..) => OpKind::Update,
            Op::Delete(_) => OpKind::Delete,
        }
    }

    /// The value that it writes, if it does.
    #[inline(always)]
    pub fn value(&self) -> Option<&Value>
        ensures { option_copied result ≡ op_value self.now }
    {
        match self {
            Op::Read(_) | Op::Delete(_) => None,
            Op::Insert(_, value) | Op::Update(_, value) => Some(value),
        }
    }
}

impl Said {
    ghost use Rattle.std.specs.Prelude.{◌≡◌, option_copied};
    ghost use Rattle.access_slots.specs.Kinds.{said_kind, said_value, IsSaidAgain};

    /// What is said, without the value.
    #[inline(always)]
    #[tactic(auto, using(crate::proofs::KindLemmas::said_again))]
    pub fn kind(&self) -> SaidKind
        ensures kind { result ≡ said_kind self.now }
        ensures again { IsSaidAgain self.now result }
    {
        match self {
            Said::Value(_) => SaidKind::Value,
            Said::Absent => SaidKind::Absent,
            Said::Done(None) => SaidKind::Done,
            Said::Done(Some(_)) => SaidKind::DoneWithFormer,
            Said::Duplicate => SaidKind::Duplicate,
            Said::Missing => SaidKind::Missing,
            Said::NoRoom => SaidKind::NoRoom,
            Said::Old => SaidKind::Old,
        }
    }

    /// The value that goes with it, if one does.
    #[inline(always)]
    pub fn value(&self) -> Option<&Value>
        ensures { option_copied result ≡ said_value self.now }
    {
        match self {
            Said::Value(value) | Said::Done(Some(value)) => Some(value),
            _ => None,
        }
    }
}

/// Whether two operations are for one record, and at least one of them isn't Read.
pub fn conflicts(a: &Op, b: &Op) -> bool
    ensures { result ≡ conflict a.now b.now }
{
    a.record() == b.record() && !(a.is_read() && b.is_read())
}
