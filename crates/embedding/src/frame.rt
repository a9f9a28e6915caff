//! What a caller writes before a call, and reads behind it.

ghost use Rattle.std.specs.Prelude.{◌≡◌, ◌≢◌, ◌<◌, ◌≤◌, length, take, true, false, IfOk, IfErr, IfSome, IfNone};
ghost use Rattle.access_slots.specs.declared.op.Op.{Op as Operation};
ghost use Rattle.embedding.specs.Frames.{IsOf, Names, Says, SaysNothing, Carries, CarriesNothing, Brings, bit, news_in};
ghost use Rattle.embedding.specs.Frames.{HasArgs, args_in, HasBytes, text_in, HasName, IsNoName};

use crate::codes::{BAD_FRAME, NOT_TEXT};
use access_slots::op::{News, Op, Reply, Said, Wire};
use access_slots::slot::{Record, Value};
use std::str::from_utf8;

/// Plain numbers and bytes: whatever lies in its memory is a frame.
#[repr(C)]
#[derive(Drop)]
pub struct Frame {
    /// In: the number of the call.
    pub what: u32,
    /// Which answer, state, outcome or mode.
    pub kind: u32,
    /// Which operation: 1 read, 2 insert, 3 update, 4 delete.
    pub op: u32,
    /// How many arguments or bytes, or 1 where an open transaction is in doubt or stuck.
    pub count: u32,
    /// The data component of a record, or that the call is about.
    pub dc: u16,
    /// The table of a record.
    pub table: u16,
    /// 1 where a wire redoes what was answered before, else 0.
    pub redo: u32,
    /// A transaction's serial number.
    pub txn: u64,
    /// A request's number.
    pub number: u64,
    /// A wire's low-water mark, or the mark that a data component kept.
    pub low_water: u64,
    /// The incarnation of a wire, a reply or a data component.
    pub incarnation: u64,
    /// The key of a record.
    pub key: u64,
    /// A further number: the call's row in `mazzulpe.h` says which.
    pub word: u64,
    /// A place in the log, in a list or in code.
    pub place: u64,
    /// Up to eight arguments of a call.
    pub args: [u64; 8],
    /// A record's value.
    pub value: [u8; 64],
    /// A piece of code, of a name or of other bytes.
    pub bytes: [u8; 256],
}

/// A bit as a number.
pub fn bit_of(flag: bool) -> u32
    ensures { result ≡ bit flag }
{
    if flag { 1 } else { 0 }
}

// A number as a bit, if it is one.
fn flag_of(number: u32) -> Option<bool>
    ensures some { IfSome result (λ flag. number ≡ bit flag) }
    ensures none { IfNone result ((number ≢ bit false) × (number ≢ bit true)) }
{
    match number {
        0 => Some(false),
        1 => Some(true),
        _ => None,
    }
}

impl Frame {
    /// With zeros everywhere.
    pub fn zeros() -> Frame {
        Frame {
            what: 0,
            kind: 0,
            op: 0,
            count: 0,
            dc: 0,
            table: 0,
            redo: 0,
            txn: 0,
            number: 0,
            low_water: 0,
            incarnation: 0,
            key: 0,
            word: 0,
            place: 0,
            args: [0; 8],
            value: [0; 64],
            bytes: [0; 256],
        }
    }

    /// The record that it names.
    pub fn named(&self) -> Record
        ensures { IsOf self.now result }
    {
        Record {
            dc: self.dc,
            table: self.table,
            key: self.key,
        }
    }

    /// The operation that it names.
    pub fn operation(&self) -> Option<Op>
        ensures some { IfSome result (Names self.now) }
        ensures none { IfNone result ((o : Operation) → ¬ (Names self.now o)) }
    {
        let named = self.named();
        match self.op {
            1 => Some(Op::Read(named)),
            2 => Some(Op::Insert(named, self.value)),
            3 => Some(Op::Update(named, self.value)),
            4 => Some(Op::Delete(named)),
            _ => None,
        }
    }

    /// What it says to an operation.
    pub fn said(&self) -> Option<Said>
        ensures some { IfSome result (Says self.now) }
        ensures none { IfNone result (SaysNothing self.now) }
    {
        match self.kind {
            1 => Some(Said::Value(self.value)),
            2 => Some(Said::Absent),
            3 => Some(Said::Done(None)),
            4 => Some(Said::Done(Some(self.value))),
            5 => Some(Said::Duplicate),
            6 => Some(Said::Missing),
            7 => Some(Said::NoRoom),
            8 => Some(Said::Old),
            _ => None,
        }
    }

    /// The wire that it carries.
    pub fn wire(&self) -> Option<Wire>
        ensures some { IfSome result (Carries self.now) }
        ensures none { IfNone result (CarriesNothing self.now) }
    {
        let Some(op) = self.operation() else {
            return None;
        };
        let Some(redo) = flag_of(self.redo) else {
            return None;
        };
        Some(Wire {
            number: self.number,
            low_water: self.low_water,
            incarnation: self.incarnation,
            redo,
            op,
        })
    }

    /// The reply that it brings.
    pub fn reply(&self) -> Option<Reply>
        ensures some { IfSome result (Brings self.now) }
        ensures none { IfNone result (SaysNothing self.now) }
    {
        let Some(said) = self.said() else {
            return None;
        };
        Some(Reply {
            number: self.number,
            incarnation: self.incarnation,
            said,
        })
    }

    /// The news of a restart that it brings.
    pub fn news(&self) -> News
        ensures { result ≡ news_in self.now }
    {
        News {
            incarnation: self.incarnation,
            mark: self.low_water,
        }
    }

    /// The arguments that it has, unless there are more than 8.
    pub fn arguments(&self) -> Option<&[u64]>
        ensures some { IfSome result (λ args. args.now ≡ args_in self.now) }
        ensures few { IfSome result (λ _. HasArgs self.now) }
        ensures none { IfNone result (8 < self.now.count) }
    {
        let count = self.count as usize;
        if count > 8 {
            return None;
        }
        Some(&self.args[..count])
    }

    /// The bytes that it has, unless there are more than 256.
    pub fn text(&self) -> Option<&[u8]>
        ensures some { IfSome result (λ text. text.now ≡ text_in self.now) }
        ensures short { IfSome result (λ _. HasBytes self.now) }
        ensures none { IfNone result (256 < self.now.count) }
    {
        let count = self.count as usize;
        if count > 256 {
            return None;
        }
        Some(&self.bytes[..count])
    }

    /// The name that it has: its bytes, where they are UTF-8. Else W2 or W3.
    pub fn name(&self) -> Result<&str, u32>
        ensures ok { IfOk result (λ name. name.now ≡ text_in self.now) }
        ensures name { IfOk result (λ _. HasName self.now) }
        ensures none { IfErr result (IsNoName self.now) }
        ensures refused { IfErr result (λ code. code ≢ 0) }
    {
        let Some(text) = self.text() else {
            return Err(BAD_FRAME);
        };
        match from_utf8(text) {
            Ok(name) => Ok(name),
            Err(_) => Err(NOT_TEXT),
        }
    }

    /// Names a record.
    pub fn put_record(&mut self, record: &Record)
        ensures { self.new ≡ record self.old { dc = «record».now.dc; table = «record».now.table; key = «record».now.key } }
    {
        self.dc = record.dc;
        self.table = record.table;
        self.key = record.key;
    }

    fn put_write(&mut self, op: u32, record: &Record, value: &Value)
        ensures { self.new ≡ record self.old {
          op = op;
          dc = «record».now.dc;
          table = «record».now.table;
          key = «record».now.key;
          value = value.now;
        } }
    {
        self.op = op;
        self.put_record(record);
        self.value = *value;
    }

    fn put_plain(&mut self, op: u32, record: &Record)
        ensures op { (self.new.op ≡ op) × IsOf self.new «record».now }
        ensures rest { self.new ≡ record self.old {
          op = self.new.op;
          dc = self.new.dc;
          table = self.new.table;
          key = self.new.key;
          value = self.new.value;
        } }
    {
        self.op = op;
        self.put_record(record);
        self.value = [0; 64];
    }

    /// Names an operation.
    pub fn put_operation(&mut self, op: &Op)
        ensures names { Names self.new op.now }
        ensures rest { self.new ≡ record self.old {
          op = self.new.op;
          dc = self.new.dc;
          table = self.new.table;
          key = self.new.key;
          value = self.new.value;
        } }
    {
        match op {
            Op::Read(record) => self.put_plain(1, record),
            Op::Insert(record, value) => self.put_write(2, record, value),
            Op::Update(record, value) => self.put_write(3, record, value),
            Op::Delete(record) => self.put_plain(4, record),
        }
    }

    /// Carries a wire.
    pub fn put_wire(&mut self, wire: &Wire)
        ensures carries { Carries self.new wire.now }
        ensures kind { self.new.kind ≡ self.old.kind }
    {
        self.put_operation(&wire.op);
        self.number = wire.number;
        self.low_water = wire.low_water;
        self.incarnation = wire.incarnation;
        self.redo = bit_of(wire.redo);
    }

    /// Says something to an operation.
    pub fn put_said(&mut self, said: &Said)
        ensures says { Says self.new said.now }
        ensures rest { self.new ≡ record self.old { kind = self.new.kind; value = self.new.value } }
    {
        self.value = [0; 64];
        match said {
            Said::Value(value) => {
                self.kind = 1;
                self.value = *value;
            }
            Said::Absent => self.kind = 2,
            Said::Done(None) => self.kind = 3,
            Said::Done(Some(value)) => {
                self.kind = 4;
                self.value = *value;
            }
            Said::Duplicate => self.kind = 5,
            Said::Missing => self.kind = 6,
            Said::NoRoom => self.kind = 7,
            Said::Old => self.kind = 8,
        }
    }

    /// Brings a reply.
    pub fn put_reply(&mut self, reply: &Reply)
        ensures { Brings self.new reply.now }
    {
        self.put_said(&reply.said);
        self.number = reply.number;
        self.incarnation = reply.incarnation;
    }

    /// Brings news of a restart.
    pub fn put_news(&mut self, news: &News)
        ensures { news_in self.new ≡ news.now }
    {
        self.incarnation = news.incarnation;
        self.low_water = news.mark;
    }
}
