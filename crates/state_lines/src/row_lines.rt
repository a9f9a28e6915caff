//! What data components keep, a line for each record.

ghost use Rattle.std.specs.Prelude.{◌≡◌, ◌++◌, IfOk, OnOk, string_bytes};
ghost use Rattle.state_lines.specs.RowLines.{row_line, row_lines, AddsRowLines};

use crate::record_texts::{record_text, value_text};
use access_slots::slot::{Record, Value};
use data_component::dc::Dc;
use std::alloc::{AllocError, Global};

// The line of a record and its value.
fn row_line(alloc: Global, row: &(Record, Value)) -> Result<String, AllocError>
    ensures { IfOk result (λ s. string_bytes s ≡ row_line row.now) }
{
    let name = record_text(alloc, &row.0)?;
    let value = value_text(alloc, &row.1)?;
    format!(in alloc; "row {name} {value}\n")
}

/// Adds a line for each of these rows, in their order.
pub fn write_rows(
    alloc: Global,
    rows: &[(Record, Value)],
    lines: &mut String,
) -> Result<(), AllocError>
    ensures { OnOk result (string_bytes lines.new ≡ string_bytes lines.old ++ row_lines rows.now) }
{
    for row in rows {
        let line = row_line(alloc, row)?;
        lines.push_str(line.as_str())?;
    }
    Ok(())
}

/// Adds a line for each record that the data components keep, in their order and rising.
pub fn write_all_rows(alloc: Global, dcs: &[Dc], lines: &mut String) -> Result<(), AllocError>
    ensures { OnOk result (AddsRowLines dcs.now (string_bytes lines.old) (string_bytes lines.new)) }
{
    for dc in dcs {
        write_rows(alloc, dc.rows(), lines)?;
    }
    Ok(())
}
