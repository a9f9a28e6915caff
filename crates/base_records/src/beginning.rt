//! Data components that begin with the records with which a log begins that was cut.

ghost use Rattle.std.specs.Prelude.{◌≡◌, ◌==◌, ◌≤◌, count_by, length, reverse, IfOk, IfSome, IfNone, string_bytes};
ghost use Rattle.log_file.specs.Found.{base_in};
ghost use Rattle.base_records.specs.Lines.{base_fault_line};
ghost use Rattle.base_records.specs.Beginning.{own_count, first_given, HaveBegun, IsUnbegun, IsFirstOfNone, IsFirstCrowded, IsBaseFault};

use data_component::{Dc, begin_all};
use log_file::BaseRow;
use std::alloc::{AllocError, Global};
use tc_log::event::Entry;
use tc_log::log::Log;

/// Why data components don't begin with the records with which a log begins.
#[derive(Clone, Copy, Debug, PartialEq, Eq)]
pub enum BaseFault {
    /// There are records of this data component, and there is none such.
    NoDc(u16),
    /// There are more records of this data component than it has room for.
    NoRoom(usize),
}

// How many of the records are of this data component.
fn own_count(base: &[BaseRow], dc: usize) -> usize
    ensures count { result ≡ own_count dc base.now }
    ensures few { result ≤ length base.now }
{
    let mut count = 0;
    'rows: for row in base {
        if usize::from(row.0.dc) == dc {
            count += 1;
        }
    }
    count
}

// The first data component that records are of and that isn't there: there are so many.
fn first_of_none(base: &[BaseRow], dcs: usize) -> Option<u16>
    ensures { IfSome result (IsFirstOfNone base.now dcs) }
{
    'rows: for row in base {
        if dcs <= usize::from(row.0.dc) {
            return Some(row.0.dc);
        }
    }
    None
}

// The first data component with more records than it has room for.
fn first_crowded(base: &[BaseRow], dcs: &[Dc]) -> Option<usize>
    ensures { IfSome result (IsFirstCrowded base.now dcs.now) }
{
    'dcs: for (number, dc) in dcs.iter().enumerate() {
        if dc.row_limit() < own_count(base, number) {
            return Some(number);
        }
    }
    None
}

/// Why these data components don't begin with the records, if there is a reason.
pub fn base_fault(base: &[BaseRow], dcs: &[Dc]) -> Option<BaseFault>
    ensures { IfSome result (IsBaseFault base.now dcs.now) }
{
    match first_of_none(base, dcs.len()) {
        Some(dc) => Some(BaseFault::NoDc(dc)),
        None => first_crowded(base, dcs).map(BaseFault::NoRoom),
    }
}

// How many numbers were given out before a log that begins with a checkpoint.
fn first_given(log: &Log) -> u64
    ensures { result ≡ first_given (reverse log.now.events) }
{
    match log.at(0) {
        Some(Entry::Checkpoint { given, .. }) => given,
        _ => 0,
    }
}

/// The data components, of which nothing was performed, begin with what the log begins with; where that is
/// nothing they stay as they are. Where one can't, the first reason is named.
pub fn begin(
    dcs: &mut [Dc],
    base: &Option<Vec<BaseRow>>,
    log: &Log,
) -> Result<Option<BaseFault>, AllocError>
    ensures begun { IfOk result (λ fault. IfNone fault (HaveBegun (base_in base.now) (reverse log.now.events) dcs.old dcs.new)) }
    ensures fault { IfOk result (λ fault. IfSome fault (IsUnbegun (base_in base.now) dcs.old)) }
{
    let Some(base) = base else {
        return Ok(None);
    };
    if let Some(fault) = base_fault(base, dcs) {
        return Ok(Some(fault));
    }
    match begin_all(dcs, base, first_given(log)) {
        Ok(()) => Ok(None),
        // Not so of rows that rise and have room, and of data components to which nothing has happened.
        Err(_) => Err(AllocError),
    }
}

/// The line of why they don't.
pub fn base_fault_line(alloc: Global, fault: BaseFault) -> Result<String, AllocError>
    ensures { IfOk result (λ line. string_bytes line ≡ base_fault_line fault) }
{
    match fault {
        BaseFault::NoDc(dc) => format!(in alloc; "refused log NoDc dc {dc}\n"),
        BaseFault::NoRoom(dc) => format!(in alloc; "refused log NoRoom dc {dc}\n"),
    }
}
