//! The records that the most transactions use.

ghost use Rattle.std.specs.Prelude.{◌≡◌, ◌<◌, ◌++◌, false, map, length, IfOk, OnOk, IsTrue};
ghost use Rattle.log_picture.specs.Busiest.{target_of, targets_of, users_of, IsNew, AreBusiest};
ghost use Rattle.log_picture.specs.Picture.{ways_in};
ghost use Rattle.log_picture.specs.Joining.Choosing.{users_in, IsBetter, IsBest};

use crate::picture::Track;
use crate::way::{Way, uses};
use access_slots::slot::Record;
use std::alloc::{AllocError, Global};

/// How many records have a row at most.
pub const MOST_ROWS: usize = 16;

/// A record, and how many of the transactions use it.
#[derive(Clone, Copy, Debug, PartialEq, Eq)]
pub struct RecordRow {
    pub record: Record,
    pub users: usize,
}

// How many transactions use the record.
fn users_of(record: &Record, tracks: &[Track]) -> usize
    ensures { result ≡ users_of record.now (map ways_in tracks.now) }
{
    tracks
        .iter()
        .filter(|track| uses(track.ways.as_slice(), record))
        .count()
}

// Whether the record stands in none of the rows.
fn is_new(rows: &[RecordRow], record: &Record) -> bool
    ensures new { IsTrue result → IsNew rows.now record.now }
    ensures there { result ≡ false → ¬ IsNew rows.now record.now }
{
    'rows: for row in rows {
        if row.record == *record {
            return false;
        }
    }
    true
}

// How many use the row's record.
fn users_in(row: Option<RecordRow>) -> usize
    ensures { result ≡ users_in row }
{
    match row {
        Some(row) => row.users,
        None => 0,
    }
}

// The row of this record, where it has none and more transactions use it than the best one's; else the best.
fn better(
    tracks: &[Track],
    rows: &[RecordRow],
    best: Option<RecordRow>,
    record: &Record,
) -> Option<RecordRow>
    ensures { IsBetter (map ways_in tracks.now) rows.now best record.now result }
{
    let users = users_of(record, tracks);
    if users > users_in(best) && is_new(rows, record) {
        return Some(RecordRow {
            record: *record,
            users,
        });
    }
    best
}

// The record that the most transactions use of those that stand in no row.
fn next_row(tracks: &[Track], records: &[Record], rows: &[RecordRow]) -> Option<RecordRow>
    ensures { IsBest (map ways_in tracks.now) records.now rows.now (length records.now) result }
{
    let mut best = None;
    'records: for record in records {
        best = better(tracks, rows, best, record);
    }
    best
}

// Adds the record of each operation.
fn add_targets(records: &mut Vec<Record>, ways: &[Way]) -> Result<(), AllocError>
    ensures { OnOk result (records.new.items ≡ records.old.items ++ map target_of ways.now) }
{
    'ways: for way in ways {
        records.push(*way.op.record())?;
    }
    Ok(())
}

// The record of each operation of each transaction.
fn targets_of(alloc: Global, tracks: &[Track]) -> Result<Vec<Record>, AllocError>
    ensures { IfOk result (λ records. records.items ≡ targets_of (map ways_in tracks.now)) }
{
    let mut records = Vec::new(alloc);
    'tracks: for track in tracks {
        add_targets(&mut records, track.ways.as_slice())?;
    }
    Ok(records)
}

/// The records that the most transactions use, at most [`MOST_ROWS`], each with how many do; the most used first.
pub fn busiest_of(alloc: Global, tracks: &[Track]) -> Result<Vec<RecordRow>, AllocError>
    ensures { IfOk result (λ rows. AreBusiest (map ways_in tracks.now) rows.items 16) }
{
    let records = targets_of(alloc, tracks)?;
    let mut rows: Vec<RecordRow> = Vec::new(alloc);
    'rows: while rows.len() < MOST_ROWS {
        match next_row(tracks, records.as_slice(), rows.as_slice()) {
            Some(row) => rows.push(row)?,
            None => return Ok(rows),
        }
    }
    Ok(rows)
}
