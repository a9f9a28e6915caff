//! The log as bytes: 96 an event. Numbers are little-endian, and what an event doesn't have is zero.
//!
//! ```text
//!  0      1     2           4       6   8             16     24    32                      96
//!  +------+-----+-----------+-------+---+-------------+------+-----+-----------------------+
//!  | kind | sub | component | table | 0 | transaction | word | key | value, or arguments   |
//!  +------+-----+-----------+-------+---+-------------+------+-----+-----------------------+
//! ```

ghost use Rattle.std.specs.Prelude.{◌≡◌, true, ◌+◌, ◌-◌, ◌*◌, ◌≤◌, ◌++◌, drop, length, reverse, IfOk, IfSome, OnOk};
ghost use Rattle.std.specs.List.{flat_map};
ghost use Rattle.std.specs.Int.{w16, w64, to_le_bytes};
ghost use Rattle.tc_log.specs.Printed.{op_cells, said_cells, outcome_cells, args_bytes, zeros, cells_of, cells_bytes, head_bytes, number_bytes, printed};
ghost use Rattle.tc_log.specs.Entered.{seen};
ghost use Rattle.tc_log.specs.Joining.Laid.{laid, laid_if, laid_parts, admit_cells, body_bytes, is_printable};

use crate::event::{Entry, Outcome};
use crate::heads::NO_RECORD;
use crate::log::Log;
use access_slots::op::{Op, Said};
use access_slots::slot::{Record, Value};
use byteorder::{ByteOrder, LittleEndian};
use std::alloc::{AllocError, Global};

// The last 64 bytes.
#[derive(Clone, Copy)]
enum Body<'a> {
    Zeros,
    Value(&'a Value),
    Args(&'a [u64]),
}

// What stands in the bytes of an event.
#[derive(Clone, Copy)]
struct Cells<'a> {
    kind: u8,
    sub: u8,
    dc: u16,
    table: u16,
    txn: u64,
    word: u64,
    key: u64,
    body: Body<'a>,
}

fn cells_at<'a>(
    kind: u8,
    sub: u8,
    txn: u64,
    word: u64,
    record: &Record,
    body: Body<'a>,
) -> Cells<'a>
    ensures cells { laid result ≡ laid_parts kind sub txn word «record».now (body_bytes body.entry) }
    ensures body { is_printable result.body ≡ is_printable body.entry }
{
    Cells {
        kind,
        sub,
        dc: record.dc,
        table: record.table,
        txn,
        word,
        key: record.key,
        body,
    }
}

fn op_cells(kind: u8, txn: u64, number: u64, op: &Op) -> Cells<'_>
    ensures cells { laid result ≡ op_cells kind txn number op.now }
    ensures printable { is_printable result.body ≡ true }
{
    match op {
        Op::Read(record) => cells_at(kind, 1, txn, number, record, Body::Zeros),
        Op::Insert(record, value) => cells_at(kind, 2, txn, number, record, Body::Value(value)),
        Op::Update(record, value) => cells_at(kind, 3, txn, number, record, Body::Value(value)),
        Op::Delete(record) => cells_at(kind, 4, txn, number, record, Body::Zeros),
    }
}

fn said_cells(txn: u64, number: u64, said: &Said) -> Option<Cells<'_>>
    ensures cells { laid_if result ≡ said_cells txn number said.now }
    ensures printable { IfSome result (λ c. is_printable c.body ≡ true) }
{
    let (sub, body) = match said {
        Said::Value(value) => (1, Body::Value(value)),
        Said::Absent => (2, Body::Zeros),
        Said::Done(None) => (3, Body::Zeros),
        Said::Done(Some(value)) => (4, Body::Value(value)),
        Said::Duplicate => (5, Body::Zeros),
        Said::Missing => (6, Body::Zeros),
        Said::NoRoom => (7, Body::Zeros),
        Said::Old => return None,
    };
    Some(cells_at(3, sub, txn, number, &NO_RECORD, body))
}

fn outcome_cells(txn: u64, outcome: Outcome) -> Option<Cells<'static>>
    ensures cells { laid_if result ≡ outcome_cells txn outcome }
    ensures printable { IfSome result (λ c. is_printable c.body ≡ true) }
{
    let (sub, word) = match outcome {
        Outcome::Committed => (1, 0),
        Outcome::Aborted(0) => return None,
        Outcome::Aborted(value) => (2, value),
        Outcome::NoRoom => (3, 0),
    };
    Some(cells_at(5, sub, txn, word, &NO_RECORD, Body::Zeros))
}

fn admit_cells(txn: u64, proc: usize, args: &[u64]) -> Option<Cells<'_>>
    ensures cells { laid_if result ≡ admit_cells txn proc args.now }
    ensures printable { IfSome result (λ c. is_printable c.body ≡ true) }
{
    if args.len() > 8 {
        return None;
    }
    let body = Body::Args(args);
    Some(cells_at(1, args.len() as u8, txn, proc as u64, &NO_RECORD, body))
}

fn cells_of<'a>(event: &'a Entry<'a>) -> Option<Cells<'a>>
    ensures cells { laid_if result ≡ cells_of (seen event.now) }
    ensures printable { IfSome result (λ c. is_printable c.body ≡ true) }
{
    match event {
        Entry::Admit { txn, proc, args } => admit_cells(*txn, *proc, args),
        Entry::Ask { txn, number, op } => Some(op_cells(2, *txn, *number, op)),
        Entry::Answer { txn, number, said } => said_cells(*txn, *number, said),
        Entry::Undo { txn, number, op } => Some(op_cells(4, *txn, *number, op)),
        Entry::End { txn, outcome } => outcome_cells(*txn, *outcome),
        Entry::Checkpoint { admitted, given } => Some(cells_at(
            6,
            0,
            *admitted,
            *given,
            &NO_RECORD,
            Body::Zeros,
        )),
    }
}

#[tactic(auto, using(crate::proofs::Again::first_zeros))]
fn write_zeros(out: &mut Vec<u8>, count: usize) -> Result<(), AllocError>
    requires { count ≤ 96 }
    ensures { OnOk result (out.new.items ≡ out.old.items ++ zeros count) }
{
    out.extend_from_slice(&[0; 96][..count])
}

// A number of two bytes.
fn write_short(out: &mut Vec<u8>, number: u16) -> Result<(), AllocError>
    ensures { OnOk result (out.new.items ≡ out.old.items ++ to_le_bytes w16 number) }
{
    let mut bytes = [0; 2];
    LittleEndian::write_u16(&mut bytes, number);
    out.extend_from_slice(&bytes)
}

// A number of eight bytes.
fn write_long(out: &mut Vec<u8>, number: u64) -> Result<(), AllocError>
    ensures { OnOk result (out.new.items ≡ out.old.items ++ to_le_bytes w64 number) }
{
    let mut bytes = [0; 8];
    LittleEndian::write_u64(&mut bytes, number);
    out.extend_from_slice(&bytes)
}

// Eight bytes for each argument, and zeros behind them.
fn write_args(out: &mut Vec<u8>, args: &[u64]) -> Result<(), AllocError>
    requires { length args.now ≤ 8 }
    ensures bytes { OnOk result (out.new.items ≡ out.old.items ++ args_bytes args.now) }
    ensures long { OnOk result (length out.new.items ≡ length out.old.items + 64) }
{
    'numbers: for arg in args {
        write_long(out, *arg)?;
    }
    write_zeros(out, 64 - 8 * args.len())
}

fn write_body(out: &mut Vec<u8>, body: &Body) -> Result<(), AllocError>
    requires { is_printable body.now ≡ true }
    ensures bytes { OnOk result (out.new.items ≡ out.old.items ++ body_bytes body.now) }
    ensures long { OnOk result (length out.new.items ≡ length out.old.items + 64) }
{
    match *body {
        Body::Zeros => out.extend_from_slice(&[0; 64]),
        Body::Value(value) => out.extend_from_slice(value),
        Body::Args(args) => write_args(out, args),
    }
}

// The first eight bytes.
#[tactic(auto, unfolding(crate::specs::Printed::head_bytes))]
fn write_head(out: &mut Vec<u8>, cells: &Cells) -> Result<(), AllocError>
    ensures bytes { OnOk result (out.new.items ≡ out.old.items ++ head_bytes cells.now.kind cells.now.sub cells.now.dc cells.now.table) }
    ensures long { OnOk result (length out.new.items ≡ length out.old.items + 8) }
{
    out.extend_from_slice(&[cells.kind, cells.sub])?;
    write_short(out, cells.dc)?;
    write_short(out, cells.table)?;
    out.extend_from_slice(&[0; 2])
}

// The three numbers behind them.
#[tactic(auto, unfolding(crate::specs::Printed::number_bytes))]
fn write_numbers(out: &mut Vec<u8>, cells: &Cells) -> Result<(), AllocError>
    ensures bytes { OnOk result (out.new.items ≡ out.old.items ++ number_bytes cells.now.txn cells.now.word cells.now.key) }
    ensures long { OnOk result (length out.new.items ≡ length out.old.items + 24) }
{
    write_long(out, cells.txn)?;
    write_long(out, cells.word)?;
    write_long(out, cells.key)
}

// The cells as bytes.
fn write_cells(out: &mut Vec<u8>, cells: &Cells) -> Result<(), AllocError>
    requires { is_printable cells.now.body ≡ true }
    ensures bytes { OnOk result (out.new.items ≡ out.old.items ++ cells_bytes (laid cells.now)) }
    ensures long { OnOk result (length out.new.items ≡ length out.old.items + 96) }
{
    write_head(out, cells)?;
    write_numbers(out, cells)?;
    write_body(out, &cells.body)
}

// One event's 96 bytes.
pub(crate) fn write_event(out: &mut Vec<u8>, event: &Entry<'_>) -> Result<(), AllocError>
    ensures bytes { OnOk result (out.new.items ≡ out.old.items ++ printed (seen event.now)) }
    ensures long { OnOk result (length out.new.items ≡ length out.old.items + 96) }
{
    match cells_of(event) {
        Some(cells) => write_cells(out, &cells),
        None => write_zeros(out, 96),
    }
}

impl Log {
    ghost use Rattle.std.specs.Prelude.{◌≡◌, ◌-◌, ◌*◌, drop, length, reverse, IfOk};
    ghost use Rattle.std.specs.List.{flat_map};
    ghost use Rattle.tc_log.specs.Printed.{printed};

    /// The events in order, 96 bytes each. An answer Old, an abort with 0 and a call with more
    /// than 8 arguments are 96 zeros, which no event is.
    pub fn print(&self, alloc: Global) -> Result<Vec<u8>, AllocError>
        ensures bytes { IfOk result (λ bytes. bytes.items ≡ flat_map printed (reverse self.now.events)) }
        ensures rows { IfOk result (λ bytes. length bytes.items ≡ 96 * length self.now.events) }
    {
        self.print_from(alloc, 0)
    }

    /// The same of the events from this place on, the oldest at 0: nothing where there are no more.
    pub fn print_from(&self, alloc: Global, place: usize) -> Result<Vec<u8>, AllocError>
        ensures bytes { IfOk result (λ bytes. bytes.items ≡ flat_map printed (drop place (reverse self.now.events))) }
        ensures rows { IfOk result (λ bytes. length bytes.items ≡ 96 * (length self.now.events - place)) }
    {
        if place < self.len() {
            print_events(alloc, self, place)
        } else {
            Ok(Vec::new(alloc))
        }
    }
}

// The events from this place on.
fn print_events(alloc: Global, log: &Log, place: usize) -> Result<Vec<u8>, AllocError>
    requires { place ≤ length log.now.events }
    ensures bytes { IfOk result (λ bytes. bytes.items ≡ flat_map printed (drop place (reverse log.now.events))) }
    ensures rows { IfOk result (λ bytes. length bytes.items ≡ 96 * (length log.now.events - place)) }
{
    let count = log.len() - place;
    let mut out = Vec::with_capacity(alloc, count.saturating_mul(96))?;
    'events: for number in 0..count {
        write_event(&mut out, &log.entry(place + number))?;
    }
    Ok(out)
}
