//! The texts of what a picture shows. They are made of letters, digits, blanks, slashes, colons and commas alone, which
//! stand in SVG as they are.

ghost use Rattle.std.specs.Prelude.{◌≡◌, IfOk, string_bytes};
ghost use Rattle.log_picture.specs.Texts.{record_text, arguments_text, arguments_at, op_word, said_word, behind_class};
ghost use Rattle.log_picture.specs.Texts.{class_of, life_title, way_class, way_title, mode_class, use_title, span_text};

use crate::life::{Ending, Life};
use crate::way::{Answering, Way};
use access_slots::op::{Op, Said};
use access_slots::slot::{Mode, Record};
use std::alloc::{AllocError, Global};
use tc_log::event::{Entry, Outcome};
use tc_log::events::Events;

/// A record: data component, table and key.
pub(crate) fn record_text(alloc: Global, record: &Record) -> Result<String, AllocError>
    ensures { IfOk result (λ s. string_bytes s ≡ record_text «record».now) }
{
    let dc = record.dc;
    let table = record.table;
    let key = record.key;
    format!(in alloc; "{dc}/{table}/{key}")
}

/// Each argument behind a space.
pub fn arguments_text(alloc: Global, args: &[u64]) -> Result<String, AllocError>
    ensures { IfOk result (λ s. string_bytes s ≡ arguments_text args.now) }
{
    let mut text = String::new(alloc);
    'pieces: for arg in args {
        let piece = format!(in alloc; " {arg}")?;
        text.push_str(piece.as_str())?;
    }
    Ok(text)
}

// The arguments of the call that the event at this place admits.
fn arguments_at(alloc: Global, events: &Events<'_>, place: usize) -> Result<String, AllocError>
    ensures { IfOk result (λ s. string_bytes s ≡ arguments_at events.now place) }
{
    match events.at(place) {
        Some(Entry::Admit { args, .. }) => arguments_text(alloc, args),
        _ => Ok(String::new(alloc)),
    }
}

// What an operation does.
fn op_word(op: &Op) -> &'static str
    ensures { result.now ≡ op_word op.now }
{
    match op {
        Op::Read(_) => "read",
        Op::Insert(..) => "insert",
        Op::Update(..) => "update",
        Op::Delete(_) => "delete",
    }
}

// What was answered.
fn said_word(end: Option<Answering>) -> &'static str
    ensures { result.now ≡ said_word end }
{
    match end {
        None => "on its way",
        Some(answering) => match answering.said {
            Said::Value(_) => "value",
            Said::Absent => "absent",
            Said::Done(_) => "done",
            Said::Duplicate => "duplicate",
            Said::Missing => "missing",
            Said::NoRoom => "noroom",
            Said::Old => "old",
        },
    }
}

/// From which event to which something is.
fn span_text(alloc: Global, begin: usize, end: Option<usize>) -> Result<String, AllocError>
    ensures { IfOk result (λ s. string_bytes s ≡ span_text begin end) }
{
    match end {
        Some(end) => format!(in alloc; "events {begin} to {end}"),
        None => format!(in alloc; "from event {begin} on"),
    }
}

/// The name of a transaction's outcome.
pub(crate) fn class_of(end: Option<Ending>) -> &'static str
    ensures { result.now ≡ class_of end }
{
    match end {
        None => "open",
        Some(ending) => match ending.outcome {
            Outcome::Committed => "committed",
            Outcome::Aborted(_) => "aborted",
            Outcome::NoRoom => "noroom",
        },
    }
}

// With what it aborted.
fn behind_class(alloc: Global, end: Option<Ending>) -> Result<String, AllocError>
    ensures { IfOk result (λ s. string_bytes s ≡ behind_class end) }
{
    match end {
        Some(ending) => match ending.outcome {
            Outcome::Aborted(value) => format!(in alloc; " {value}"),
            _ => Ok(String::new(alloc)),
        },
        None => Ok(String::new(alloc)),
    }
}

/// What is said of a transaction.
#[tactic(auto, unfolding(crate::specs::Texts::life_title))]
pub(crate) fn life_title(
    alloc: Global,
    events: &Events<'_>,
    life: &Life,
) -> Result<String, AllocError>
    ensures { IfOk result (λ s. string_bytes s ≡ life_title events.now life.now) }
{
    let args = arguments_at(alloc, events, life.begin)?;
    let span = span_text(alloc, life.begin, life.end_place())?;
    let class = class_of(life.end);
    let value = behind_class(alloc, life.end)?;
    let txn = life.txn;
    let proc = life.proc;
    format!(in alloc; "transaction {txn}, procedure {proc}{args}: {span}, {class}{value}")
}

/// Whether a number is an undo's.
pub(crate) fn way_class(way: &Way) -> &'static str
    ensures { result.now ≡ way_class way.now.undo }
{
    if way.undo { "undo" } else { "ask" }
}

/// What is said of a number.
#[tactic(auto, unfolding(crate::specs::Texts::way_title))]
pub(crate) fn way_title(alloc: Global, way: &Way) -> Result<String, AllocError>
    ensures { IfOk result (λ s. string_bytes s ≡ way_title way.now) }
{
    let class = way_class(way);
    let number = way.number;
    let span = span_text(alloc, way.begin, way.end_place())?;
    let word = op_word(&way.op);
    let record = record_text(alloc, way.op.record())?;
    let said = said_word(way.end);
    format!(in alloc; "{class}, number {number}: {span}, {word} {record}, {said}")
}

/// The name of a mode.
pub(crate) fn mode_class(mode: Mode) -> &'static str
    ensures { result.now ≡ mode_class mode }
{
    match mode {
        Mode::Read => "read",
        Mode::Write => "write",
    }
}

/// What is said of a transaction that uses a record.
#[tactic(auto, unfolding(crate::specs::Texts::use_title))]
pub(crate) fn use_title(
    alloc: Global,
    name: &str,
    mode: Mode,
    life: &Life,
) -> Result<String, AllocError>
    ensures { IfOk result (λ s. string_bytes s ≡ use_title name.now mode life.now) }
{
    let class = mode_class(mode);
    let txn = life.txn;
    let span = span_text(alloc, life.begin, life.end_place())?;
    format!(in alloc; "{name}: {class} by transaction {txn}, {span}")
}
