// The spans of a trace in Chrome's trace event format.

ghost use Rattle.std.specs.Prelude.{◌≡◌, IfOk, string_bytes};
ghost use Rattle.run_metrics.specs.Spans.{between, micros_text, named_text, placed_text, timed_text, call_end, call_text, phase_text};

use crate::outcome::Outcome;
use std::alloc::{AllocError, Global};

/// When something began, behind the run's beginning, and how long it took, in nanoseconds.
#[derive(Clone, Copy, Debug)]
pub struct Span {
    pub begun: u64,
    pub took: u64,
}

impl Span {
    /// From one time to another; none behind it where that is earlier.
    pub fn between(from: u64, to: u64) -> Span
        ensures { result ≡ between from to }
    {
        Span {
            begun: from,
            took: to.saturating_sub(from),
        }
    }
}

/// A call, by its place, and how it came out.
#[derive(Clone, Copy, Debug)]
pub struct Call {
    pub place: usize,
    pub outcome: Outcome,
}

// Nanoseconds as microseconds with three places.
fn micros_text(alloc: Global, nanos: u64) -> Result<String, AllocError>
    ensures { IfOk result (λ s. string_bytes s ≡ micros_text nanos) }
{
    let micros = nanos / 1_000;
    let (hundreds, tens, ones) = (nanos / 100 % 10, nanos / 10 % 10, nanos % 10);
    format!(in alloc; "{micros}.{hundreds}{tens}{ones}")
}

// The beginning of an event of this name and category, up to its time.
fn named_text(alloc: Global, name: &str, category: &str) -> Result<String, AllocError>
    ensures { IfOk result (λ s. string_bytes s ≡ named_text name.now category.now) }
{
    format!(in alloc; ",\n{{\"name\":\"{name}\",\"cat\":\"{category}\",\"ph\":\"X\",\"ts\":")
}

// The lane of an event, behind its times.
fn placed_text(alloc: Global, lane: usize) -> Result<String, AllocError>
    ensures { IfOk result (λ s. string_bytes s ≡ placed_text lane) }
{
    format!(in alloc; ",\"pid\":1,\"tid\":{lane}")
}

// An event of this name and category in a lane, up to what else is said of it.
fn timed_text(
    alloc: Global,
    name: &str,
    category: &str,
    span: Span,
    lane: usize,
) -> Result<String, AllocError>
    ensures { IfOk result (λ s. string_bytes s ≡ timed_text name.now category.now span lane) }
{
    let mut text = named_text(alloc, name, category)?;
    let begun = micros_text(alloc, span.begun)?;
    text.push_str(begun.as_str())?;
    text.push_str(",\"dur\":")?;
    let took = micros_text(alloc, span.took)?;
    text.push_str(took.as_str())?;
    let placed = placed_text(alloc, lane)?;
    text.push_str(placed.as_str())?;
    Ok(text)
}

// What else is said of a call.
fn call_end(alloc: Global, place: usize, outcome: &str) -> Result<String, AllocError>
    ensures { IfOk result (λ s. string_bytes s ≡ call_end place outcome.now) }
{
    format!(in alloc; ",\"args\":{{\"call\":{place},\"outcome\":\"{outcome}\"}}}}")
}

/// The event of a procedure's call in a lane. A procedure's name has letters, digits and `_` alone, none of which JSON writes
/// otherwise.
pub fn call_text(
    alloc: Global,
    procedure: &str,
    call: Call,
    span: Span,
    lane: usize,
) -> Result<String, AllocError>
    ensures { IfOk result (λ s. string_bytes s ≡ call_text procedure.now call span lane) }
{
    let mut text = timed_text(alloc, procedure, "call", span, lane)?;
    let end = call_end(alloc, call.place, call.outcome.name())?;
    text.push_str(end.as_str())?;
    Ok(text)
}

/// The event of a phase of a call in the call's lane.
pub fn phase_text(alloc: Global, phase: &str, span: Span, lane: usize) -> Result<String, AllocError>
    ensures { IfOk result (λ s. string_bytes s ≡ phase_text phase.now span lane) }
{
    let mut text = timed_text(alloc, phase, "phase", span, lane)?;
    text.push_str("}")?;
    Ok(text)
}
