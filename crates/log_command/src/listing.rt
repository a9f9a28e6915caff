//! `log`: the events of a log's file.

ghost use Rattle.std.specs.Prelude.{◌≡◌, ◌++◌, IfOk, OnOk, string_bytes};
ghost use Rattle.log_file.specs.Found.{base_in};
ghost use Rattle.log_command.specs.LogReport.{base_lines, part_lines, stored_lines, IsListing};

use crate::event_lines::write_events;
use crate::refusing::{refused, write_unfinished};
use log_file::{Stored, read_file};
use log_part::Part;
use report_texts::output::Output;
use state_lines::row_lines::write_rows;
use std::alloc::{AllocError, Global};
use tc_log::events::Events;

// A line for each row with which the log begins, where they are wanted.
fn write_base(
    alloc: Global,
    stored: &Stored,
    wanted: bool,
    lines: &mut String,
) -> Result<(), AllocError>
    ensures { OnOk result (string_bytes lines.new ≡ string_bytes lines.old ++ base_lines wanted (base_in stored.now.base)) }
{
    match &stored.base {
        Some(rows) if wanted => write_rows(alloc, rows, lines),
        _ => Ok(()),
    }
}

// Adds a line for each event of a part.
fn write_part(
    alloc: Global,
    events: &Events<'_>,
    part: Part,
    lines: &mut String,
) -> Result<(), AllocError>
    ensures { OnOk result (string_bytes lines.new ≡ string_bytes lines.old ++ part_lines part events.now) }
{
    let first = part.first(events.len());
    write_events(alloc, first, &events.behind(first), lines)
}

// The events of a part, the rows with which the log begins, where they are wanted, and the end that isn't whole.
fn listed(alloc: Global, stored: &Stored, part: Part, rows: bool) -> Result<Output, AllocError>
    ensures lines { IfOk result (λ r. string_bytes r.lines ≡ stored_lines part rows stored.now) }
    ensures status { IfOk result (λ r. r.status ≡ 0) }
{
    let mut lines = String::new(alloc);
    write_part(alloc, &stored.log.events(), part, &mut lines)?;
    write_base(alloc, stored, rows, &mut lines)?;
    write_unfinished(alloc, stored.unfinished, &mut lines)?;
    Ok(Output {
        status: 0,
        lines,
        notes: None,
    })
}

/// A line for each event of a part of a log's file, the oldest first, whoever wrote it; with `rows` then one for each
/// record with which data components begin, where the log was cut.
pub fn listing(alloc: Global, file: &[u8], part: Part, rows: bool) -> Result<Output, AllocError>
    ensures { IfOk result (λ r. IsListing part rows file.now r.status (string_bytes r.lines)) }
{
    match read_file(alloc, file) {
        Ok(stored) => listed(alloc, &stored, part, rows),
        Err(fault) => refused(alloc, fault),
    }
}
