//! `log --picture`: a picture of a log's events, in SVG.

ghost use Rattle.std.specs.Prelude.{◌≡◌, ◌≤◌, ◌+◌, length, IfOk, option_map, string_bytes};
ghost use Rattle.log_command.specs.PictureReport.{picture_line, IsDrawing, IsPicturing, IsDrawnOf};
ghost use Rattle.log_command.specs.Joining.Showing.{IsRange};

use crate::refusing::{refused, write_unfinished};
use log_file::{Stored, read_file};
use log_part::Part;
use log_picture::drawing::{MOST_EVENTS, drawing};
use log_picture::pictured;
use report_texts::output::Output;
use std::alloc::{AllocError, Global};
use tc_log::events::Events;

/// A picture of a log's file, and what is said of it.
#[derive(Drop)]
pub struct Pictured {
    /// In SVG; none of a file that isn't read.
    pub svg: Option<String>,
    pub report: Output,
}

// From which event on and up to which a part is shown, of a log of so many.
fn range_of(part: Part, count: usize) -> (usize, usize)
    ensures { IsRange part count result.0 result.1 }
{
    let from = part.at_most(MOST_EVENTS as u64).first(count);
    (from, from + (count - from).min(MOST_EVENTS))
}

// The picture of these events, the oldest first, from a place up to another.
fn drawn(alloc: Global, events: &Events<'_>, from: usize, to: usize) -> Result<String, AllocError>
    requires ordered { from ≤ to }
    requires few { to ≤ from + 1000 }
    requires within { to ≤ length events.now }
    ensures { IfOk result (λ svg. IsDrawing from to events.now (string_bytes svg)) }
{
    let shown = events.before(to);
    let picture = pictured(alloc, &shown, from)?;
    drawing(alloc, &shown, from, to, events.len(), &picture)
}

// What is said of a picture of so many bytes.
#[tactic(auto, unfolding(crate::specs::PictureReport::picture_line))]
fn picture_line(
    alloc: Global,
    from: usize,
    to: usize,
    count: usize,
    bytes: usize,
) -> Result<String, AllocError>
    requires { from ≤ to }
    ensures { IfOk result (λ line. string_bytes line ≡ picture_line from to count bytes) }
{
    let shown = to - from;
    format!(in alloc; "picture {shown} of {count} events from place {from}, {bytes} bytes\n")
}

// The picture of a part of a log that was read, and what is said of it and of the end that isn't whole.
fn pictured_log(alloc: Global, stored: &Stored, part: Part) -> Result<Pictured, AllocError>
    ensures { IfOk result (λ p. IsDrawnOf part stored.now (option_map string_bytes p.svg) p.report.status (string_bytes p.report.lines)) }
{
    let events = stored.log.events();
    let (from, to) = range_of(part, events.len());
    let svg = drawn(alloc, &events, from, to)?;
    let mut lines = picture_line(alloc, from, to, events.len(), svg.len())?;
    write_unfinished(alloc, stored.unfinished, &mut lines)?;
    Ok(Pictured {
        svg: Some(svg),
        report: Output {
            status: 0,
            lines,
            notes: None,
        },
    })
}

/// A picture of a part of a log's file, whoever wrote it: of its first [`MOST_EVENTS`] events where it begins at a place,
/// else of its last ones.
pub fn picturing(alloc: Global, file: &[u8], part: Part) -> Result<Pictured, AllocError>
    ensures { IfOk result (λ p. IsPicturing part file.now (option_map string_bytes p.svg) p.report.status (string_bytes p.report.lines)) }
{
    match read_file(alloc, file) {
        Ok(stored) => pictured_log(alloc, &stored, part),
        Err(fault) => Ok(Pictured {
            svg: None,
            report: refused(alloc, fault)?,
        }),
    }
}
