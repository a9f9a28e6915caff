//! Where a log and the lists of data components begin.

ghost use Rattle.std.specs.Prelude.{◌≡◌, OnOk, IfOk, IfSome, IfNone, if◌then◌else◌};
ghost use Rattle.tc_log.specs.Entered.{seen};
ghost use Rattle.indexmap.specs.IndexMap.{get};
ghost use Rattle.access_slots.specs.declared.slot.Record.{Record as RecordValue};
ghost use Rattle.access_slots.specs.Locks.{record_eq};
ghost use Rattle.history.specs.Anew.{begun};
ghost use Rattle.serial.specs.Audit.{base_of};
ghost use Rattle.audit.specs.Auditing.{AllBegun, IsFirstApart};
ghost use Rattle.audit.specs.Joining.Based.{begun_by, or_value, row_here, rows_here};

use crate::given::event_at;
use crate::values::put;
use access_slots::slot::{Record, Value};
use data_component::dc::Dc;
use indexmap::IndexMap;
use std::alloc::{AllocError, Global};
use tc_log::event::Entry;
use tc_log::log::Log;

/// A record and its value.
pub type Row = (Record, Value);

// Behind which number the log begins, once this event is looked at.
fn begun_with(begun: u64, event: &Entry<'_>) -> u64
    ensures { result ≡ begun_by (seen event.now) begun }
{
    match event {
        Entry::Checkpoint { given, .. } => *given,
        _ => begun,
    }
}

/// Behind which number a log begins.
pub(crate) fn begun_in(log: &Log) -> u64
    ensures { result ≡ begun log.now.events }
{
    let mut found = 0;
    for place in 0..log.len() {
        found = begun_with(found, &event_at(log, place));
    }
    found
}

/// The first data component whose list doesn't begin behind this number.
pub(crate) fn first_apart(begun: u64, dcs: &[Dc]) -> Option<usize>
    ensures none { IfNone result (AllBegun begun dcs.now) }
    ensures some { IfSome result (IsFirstApart begun dcs.now) }
{
    for (number, dc) in dcs.iter().enumerate() {
        if dc.base_mark() != begun {
            return Some(number);
        }
    }
    None
}

// A row is put among the values, where its record is of this data component and isn't there.
fn put_row(values: &mut IndexMap<Record, Value>, dc: usize, row: &Row) -> Result<(), AllocError>
    ensures { OnOk result ((r : RecordValue) → get record_eq values.new r ≡ or_value (get record_eq values.old r) (row_here dc row.now r)) }
{
    if usize::from(row.0.dc) != dc {
        return Ok(());
    }
    match values.get(&row.0) {
        Some(_) => Ok(()),
        None => put(values, row.0, row.1),
    }
}

// Rows are put among the values, where their records are of this data component and aren't there.
fn put_rows(values: &mut IndexMap<Record, Value>, dc: usize, rows: &[Row]) -> Result<(), AllocError>
    ensures { OnOk result ((r : RecordValue) → get record_eq values.new r ≡ or_value (get record_eq values.old r) (rows_here dc rows.now r)) }
{
    for row in rows {
        put_row(values, dc, row)?;
    }
    Ok(())
}

/// The rows with which data components begin.
pub(crate) fn base_values(alloc: Global, dcs: &[Dc]) -> Result<IndexMap<Record, Value>, AllocError>
    ensures { IfOk result (λ values. (r : RecordValue) → get record_eq values r ≡ base_of dcs.now r) }
{
    let mut values = IndexMap::new(alloc);
    for (number, dc) in dcs.iter().enumerate() {
        put_rows(&mut values, number, dc.base())?;
    }
    Ok(values)
}
