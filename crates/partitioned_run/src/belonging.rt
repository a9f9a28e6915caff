//! Which partition a log's file belongs to.

ghost use Rattle.std.specs.Prelude.{◌≡◌, ◌≢◌, ◌++◌, IfNone, IfOk, IfSome, Some, codes, decimal, reverse, slice_get, string_bytes};
ghost use Rattle.tc_log.specs.Entered.{seen};
ghost use Rattle.log_file.specs.Found.{base_in};
ghost use Rattle.partitioned_run.specs.Belonging.{other_line, partition_of_event, AreEventsOf, AreRowsOf, IsBaseOf, IsBaseOfOther};
ghost use Rattle.partitioned_run.specs.Belonging.{IsEventOf, IsEventOfOther, IsLogOfPartition, IsLogOfOther, IsRowOfOther};

use crate::dividing::partition_of_procedure;
use log_file::BaseRow;
use partitions::Partitions;
use run_log::recovering::OpenLog;
use std::alloc::{AllocError, Global};
use tc_core::Procs;
use tc_log::event::Entry;
use tc_log::log::Log;

// The partition of the first of these records that isn't of the one with this number.
fn other_of_rows(partitions: &Partitions, rows: &[BaseRow], number: usize) -> Option<usize>
    ensures other { IfSome result (IsRowOfOther partitions.now number rows.now) }
    ensures own { IfNone result (AreRowsOf partitions.now number rows.now) }
{
    'rows: for row in rows {
        let partition = partitions.number(usize::from(row.0.dc));
        if partition != number {
            return Some(partition);
        }
    }
    None
}

// That of the first record before a log that isn't.
fn other_of_base(
    partitions: &Partitions,
    base: &Option<Vec<BaseRow>>,
    number: usize,
) -> Option<usize>
    ensures other { IfSome result (IsBaseOfOther partitions.now number (base_in base.now)) }
    ensures own { IfNone result (IsBaseOf partitions.now number (base_in base.now)) }
{
    match base {
        Some(rows) => other_of_rows(partitions, rows.as_slice(), number),
        None => None,
    }
}

// The partition of an event: that of a call's procedure, or of the data component on which an operation is.
fn partition_of_event(partitions: &Partitions, procs: &Procs, event: Entry) -> Option<usize>
    ensures { result ≡ partition_of_event partitions.now procs.now.codes (seen event.entry) }
{
    match event {
        Entry::Admit { proc, .. } => Some(partition_of_procedure(partitions, procs, proc)),
        Entry::Ask { op, .. } | Entry::Undo { op, .. } => {
            Some(partitions.number(usize::from(op.record().dc)))
        }
        _ => None,
    }
}

// That of an event that isn't of the one with this number.
fn other_of_event(
    partitions: &Partitions,
    procs: &Procs,
    event: Entry,
    number: usize,
) -> Option<usize>
    ensures other { IfSome result (λ p. (partition_of_event partitions.now procs.now.codes (seen event.entry) ≡ Some p) × (p ≢ number)) }
    ensures own { IfNone result (IsEventOf partitions.now procs.now.codes number (seen event.entry)) }
{
    match partition_of_event(partitions, procs, event) {
        Some(partition) => {
            if partition == number {
                None
            } else {
                Some(partition)
            }
        }
        None => None,
    }
}

// That of the first such event.
fn other_of_log(partitions: &Partitions, procs: &Procs, log: &Log, number: usize) -> Option<usize>
    ensures other { IfSome result (IsEventOfOther partitions.now procs.now.codes number (reverse log.now.events)) }
    ensures own { IfNone result (AreEventsOf partitions.now procs.now.codes number (reverse log.now.events)) }
{
    'events: for place in 0..log.len() {
        let event = log.entry(place);
        if let Some(other) = other_of_event(partitions, procs, event, number) {
            return Some(other);
        }
    }
    None
}

/// The partition of the first record with which a log begins, or else of its first call or operation, that isn't of the
/// partition with this number.
pub fn other_of(
    partitions: &Partitions,
    procs: &Procs,
    opened: &OpenLog,
    number: usize,
) -> Option<usize>
    ensures other { IfSome result (IsLogOfOther partitions.now procs.now.codes number (base_in opened.now.base) opened.now.log.events) }
    ensures own { IfNone result (IsLogOfPartition partitions.now procs.now.codes number (base_in opened.now.base) opened.now.log.events) }
{
    match other_of_base(partitions, &opened.base, number) {
        Some(other) => Some(other),
        None => other_of_log(partitions, procs, &opened.log, number),
    }
}

/// The line that refuses the file of a partition whose log is of this one.
pub fn other_line(alloc: Global, partition: usize) -> Result<String, AllocError>
    ensures { IfOk result (λ line. string_bytes line ≡ other_line partition) }
{
    format!(in alloc; "refused log Other partition {partition}\n")
}
