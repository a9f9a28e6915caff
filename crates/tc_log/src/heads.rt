//! Events as heads, and apart from them the words of their values and calls. Of a value's eight words only those up
//! to the last that isn't zero are kept. A call's words are its arguments, up to eight; more lie elsewhere.

ghost use Rattle.std.specs.Prelude.{◌≡◌, ◌+◌, ◌-◌, ◌*◌, ◌≤◌, ◌<◌, ◌++◌, drop, replicate, length, option_copied, Some, vec_capacity};
ghost use Rattle.tc_log.specs.Heads.{event_of, record_of, head_with, value_at, IsWithin, IsKept, IsEnd, IsLaid};
ghost use Rattle.tc_log.specs.Entered.{seen};
ghost use Rattle.tc_log.specs.declared.event.Event.TheVariants.{End};

use crate::event::{Entry, Event, Long, Numbers, Outcome};
use crate::read::long;
use access_slots::kind::{OpKind, SaidKind};
use access_slots::op::{Op, Said};
use access_slots::slot::{Record, Value};

#[derive(Clone, Copy)]
pub(crate) enum Kind {
    Admits,
    AdmitsMany,
    Asks(OpKind),
    Answers(SaidKind),
    Undoes(OpKind),
    Commits,
    Aborts,
    LacksRoom,
    Begins,
}

// An event without its value and its arguments. Its words are `count` from `place` on; the key of a call with more
// than eight arguments is their place.
#[derive(Clone, Copy)]
pub(crate) struct Head {
    txn: u64,
    number: u64,
    key: u64,
    place: usize,
    dc: u16,
    table: u16,
    kind: Kind,
    count: u8,
}

pub(crate) const NO_RECORD: Record = Record {
    dc: 0,
    table: 0,
    key: 0,
};

const NO_VALUE: Value = [0; 64];

// How many words there are up to the last that isn't zero.
#[inline(always)]
fn count_of(value: &Value) -> usize
    ensures few { result ≤ 8 }
    ensures zeros { drop (8 * result) value.now ≡ replicate (64 - 8 * result) 0 }
{
    let mut count = 8;
    'words: while count > 0 && long(&value[8 * (count - 1)..8 * count]) == 0 {
        count -= 1;
    }
    count
}

// Keeps a value, and says in how many words.
#[inline(always)]
fn keep(words: &mut Vec<u64>, value: &Value) -> u8
    requires room { length words.old.items + 8 ≤ vec_capacity words.old }
    ensures kept { IsKept words.old.items words.new.items (Some value.now) result }
    ensures capacity { vec_capacity words.new ≡ vec_capacity words.old }
{
    let count = count_of(value);
    'words: for place in 0..count {
        words.push_reserved(long(&value[8 * place..8 * place + 8]));
    }
    count as u8
}

// Keeps arguments, and says how many.
#[inline(always)]
fn keep_all(words: &mut Vec<u64>, args: &[u64]) -> u8
    requires few { length args.now ≤ 8 }
    requires room { length words.old.items + 8 ≤ vec_capacity words.old }
    ensures items { words.new.items ≡ words.old.items ++ args.now }
    ensures count { result ≡ length args.now }
    ensures capacity { vec_capacity words.new ≡ vec_capacity words.old }
{
    'numbers: for place in 0..args.len() {
        words.push_reserved(args[place]);
    }
    args.len() as u8
}

// The value whose words these are.
#[inline(always)]
fn value_at(words: &[u64], place: usize, count: usize) -> Value
    requires named { place + count ≤ length words.now }
    requires few { count ≤ 8 }
    ensures { result ≡ value_at words.now place count }
{
    let mut value = [0; 64];
    'words: for at in 0..count {
        value[8 * at..8 * at + 8].copy_from_slice(&words[place + at].to_le_bytes());
    }
    value
}

// Keeps a value, if there is one, and says in how many words.
#[inline(always)]
#[tactic(auto, using(crate::proofs::Laying::none_kept))]
fn keep_any(words: &mut Vec<u64>, value: Option<&Value>) -> u8
    requires room { length words.old.items + 8 ≤ vec_capacity words.old }
    ensures kept { IsKept words.old.items words.new.items (option_copied value.entry) result }
    ensures capacity { vec_capacity words.new ≡ vec_capacity words.old }
{
    match value {
        Some(value) => keep(words, value),
        None => 0,
    }
}

// What stands in a head for where a call's arguments are.
#[inline(always)]
const fn keyed(key: u64) -> Record
    ensures { result ≡ record { dc = 0; table = 0; key = key } }
{
    Record {
        dc: 0,
        table: 0,
        key,
    }
}

// Keeps what an event's head leaves out.
#[inline(always)]
pub(crate) fn lay(words: &mut Vec<u64>, calls: &mut Vec<Long>, event: Event) -> Head
    requires words { length words.old.items + 8 ≤ vec_capacity words.old }
    requires calls { length calls.old.items < vec_capacity calls.old }
    ensures laid { IsLaid words.old.items words.new.items calls.old.items calls.new.items event result }
    ensures capacity { vec_capacity words.new ≡ vec_capacity words.old }
    ensures call_capacity { vec_capacity calls.new ≡ vec_capacity calls.old }
{
    let place = words.len();
    match event {
        Event::Admit { txn, proc, args } => match args.numbers() {
            Numbers::Few(few) => {
                let count = keep_all(words, few.as_slice());
                head_of(Kind::Admits, txn, proc as u64, &NO_RECORD, place, count)
            }
            Numbers::Many(many) => {
                let key = calls.len() as u64;
                calls.push_reserved(many);
                let kind = Kind::AdmitsMany;
                head_of(kind, txn, proc as u64, &keyed(key), place, 0)
            }
        },
        Event::Ask { txn, number, op } => {
            let count = keep_any(words, op.value());
            let kind = Kind::Asks(op.kind());
            head_of(kind, txn, number, op.record(), place, count)
        }
        Event::Answer { txn, number, said } => {
            let count = keep_any(words, said.value());
            let kind = Kind::Answers(said.kind());
            head_of(kind, txn, number, &NO_RECORD, place, count)
        }
        Event::Undo { txn, number, op } => {
            let count = keep_any(words, op.value());
            let kind = Kind::Undoes(op.kind());
            head_of(kind, txn, number, op.record(), place, count)
        }
        Event::End { txn, outcome } => {
            let (kind, number) = end(outcome);
            head_of(kind, txn, number, &NO_RECORD, place, 0)
        }
        Event::Checkpoint { admitted, given } => {
            head_of(Kind::Begins, admitted, given, &NO_RECORD, place, 0)
        }
    }
}

#[inline(always)]
fn end(outcome: Outcome) -> (Kind, u64)
    ensures { IsEnd outcome result.0 result.1 }
{
    match outcome {
        Outcome::Committed => (Kind::Commits, 0),
        Outcome::Aborted(value) => (Kind::Aborts, value),
        Outcome::NoRoom => (Kind::LacksRoom, 0),
    }
}

#[inline(always)]
fn head_of(kind: Kind, txn: u64, number: u64, record: &Record, place: usize, count: u8) -> Head
    ensures parts { result ≡ head_with kind txn number «record».now place count }
{
    Head {
        txn,
        number,
        key: record.key,
        place,
        dc: record.dc,
        table: record.table,
        kind,
        count,
    }
}

impl Head {
    ghost use Rattle.std.specs.Prelude.{◌≡◌, ◌+◌, ◌≤◌, length};
    ghost use Rattle.access_slots.specs.Kinds.{op_of, said_of};
    ghost use Rattle.tc_log.specs.Heads.{event_of, record_of, value_at, IsWithin};
    ghost use Rattle.tc_log.specs.Entered.{seen};

    #[inline(always)]
    fn record(&self) -> Record
        ensures { result ≡ record_of self.now }
    {
        Record {
            dc: self.dc,
            table: self.table,
            key: self.key,
        }
    }

    #[inline(always)]
    fn value(&self, words: &[u64]) -> Value
        requires named { self.now.place + self.now.count ≤ length words.now }
        requires few { self.now.count ≤ 8 }
        ensures { result ≡ value_at words.now self.now.place self.now.count }
    {
        value_at(words, self.place, usize::from(self.count))
    }

    // The operation, with the value that it writes.
    #[inline(always)]
    #[tactic(auto, using(access_slots::proofs::KindLemmas::any_value))]
    fn op(&self, kind: OpKind, words: &[u64]) -> Op
        requires named { self.now.place + self.now.count ≤ length words.now }
        requires few { self.now.count ≤ 8 }
        ensures { result ≡ op_of kind (record_of self.now) (value_at words.now self.now.place self.now.count) }
    {
        if kind.has_value() {
            kind.with(self.record(), &self.value(words))
        } else {
            kind.with(self.record(), &NO_VALUE)
        }
    }

    // What was said, with its value.
    #[inline(always)]
    #[tactic(auto, using(access_slots::proofs::KindLemmas::any_value_said))]
    fn said(&self, kind: SaidKind, words: &[u64]) -> Said
        requires named { self.now.place + self.now.count ≤ length words.now }
        requires few { self.now.count ≤ 8 }
        ensures { result ≡ said_of kind (value_at words.now self.now.place self.now.count) }
    {
        if kind.has_value() {
            kind.with(&self.value(words))
        } else {
            kind.with(&NO_VALUE)
        }
    }

    // The event, with what it names.
    #[inline(always)]
    pub(crate) fn entry<'a>(&self, words: &'a [u64], calls: &'a [Long]) -> Entry<'a>
        requires { IsWithin (length words.now) (length calls.now) self.now }
        ensures { seen result ≡ event_of words.now calls.now self.now }
    {
        let (txn, number) = (self.txn, self.number);
        match self.kind {
            Kind::Admits => Entry::Admit {
                txn,
                proc: number as usize,
                args: &words[self.place..self.place + usize::from(self.count)],
            },
            Kind::AdmitsMany => Entry::Admit {
                txn,
                proc: number as usize,
                args: calls[self.key as usize].as_slice(),
            },
            Kind::Asks(kind) => Entry::Ask {
                txn,
                number,
                op: self.op(kind, words),
            },
            Kind::Answers(kind) => Entry::Answer {
                txn,
                number,
                said: self.said(kind, words),
            },
            Kind::Undoes(kind) => Entry::Undo {
                txn,
                number,
                op: self.op(kind, words),
            },
            Kind::Commits => ended(txn, Outcome::Committed),
            Kind::Aborts => ended(txn, Outcome::Aborted(number)),
            Kind::LacksRoom => ended(txn, Outcome::NoRoom),
            Kind::Begins => Entry::Checkpoint {
                admitted: txn,
                given: number,
            },
        }
    }
}

#[inline(always)]
fn ended<'a>(txn: u64, outcome: Outcome) -> Entry<'a>
    ensures { seen result ≡ End txn outcome }
{
    Entry::End { txn, outcome }
}
