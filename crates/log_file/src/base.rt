// What a log begins with that begins behind an earlier one.

ghost use Rattle.std.specs.Prelude.{◌≡◌, ◌↔◌, ◌≤◌, ◌<◌, ◌+◌, ◌*◌, ◌++◌, ◌∷◌, [], length, take, drop, map, true, IsTrue, IsFalse, IfOk, IfErr, IfSome, IfNone, OnOk};
ghost use Rattle.frame_file.specs.Reading.{payloads_in};
ghost use Rattle.access_slots.specs.Locks.{record_less};
ghost use Rattle.log_file.specs.Bytes.{row_bytes, part_bytes, parts_of};
ghost use Rattle.log_file.specs.Reading.{IsRow, AreRows, Rise, RiseFrom, IsBase};
ghost use Rattle.log_file.specs.Joining.Fields.{row_in, rows_in, IsPart, IsAdded, NoneAdded, IsBaseFault};

use crate::batch::is_same;
use crate::reading::OpenFault;
use access_slots::slot::{Record, Value};
use frame_file::{long, write_long};
use std::alloc::{AllocError, Global};

/// A record with which a data component begins, and its value.
pub type BaseRow = (Record, Value);

/// So many of them a frame has, but for the last one.
const PART: usize = 4096;

#[tactic(auto, unfolding(crate::specs::Bytes::row_bytes))]
fn write_row(out: &mut Vec<u8>, row: &BaseRow) -> Result<(), AllocError>
    ensures { OnOk result (out.new.items ≡ out.old.items ++ row_bytes row.now) }
{
    let (record, value) = row;
    write_long(out, u64::from(record.dc) + 65536 * u64::from(record.table))?;
    write_long(out, record.key)?;
    out.extend_from_slice(value)
}

/// The first part of these records, and those behind it.
#[tactic(auto, using(std::proofs::lemmas::List::take_min, std::proofs::lemmas::List::drop_min))]
pub(crate) fn split_part(rows: &[BaseRow]) -> (&[BaseRow], &[BaseRow])
    ensures part { result.0.now ≡ take 4096 rows.now }
    ensures rest { result.1.now ≡ drop 4096 rows.now }
{
    rows.split_at(PART.min(rows.len()))
}

/// The bytes of one part.
pub(crate) fn part_bytes(alloc: Global, rows: &[BaseRow]) -> Result<Vec<u8>, AllocError>
    ensures { IfOk result (λ bytes. bytes.items ≡ part_bytes rows.now) }
{
    let mut out = Vec::new(alloc);
    'rows: for row in rows {
        write_row(&mut out, row)?;
    }
    Ok(out)
}

// The record and the value that these 80 bytes may be, by their fields.
fn row_in(bytes: &[u8]) -> BaseRow
    requires { length bytes.now ≡ 80 }
    ensures value { result ≡ row_in bytes.now }
    ensures numbers { IsRow result }
{
    let word = long(&bytes[..8]);
    let record = Record {
        dc: (word % 65536) as u16,
        table: (word / 65536 % 65536) as u16,
        key: long(&bytes[8..16]),
    };
    let mut value = [0; 64];
    value.copy_from_slice(&bytes[16..]);
    (record, value)
}

// So many that these bytes may begin with.
fn rows_in(alloc: Global, count: usize, bytes: &[u8]) -> Result<Vec<BaseRow>, AllocError>
    requires { 80 * count ≤ length bytes.now }
    ensures value { IfOk result (λ rows. rows.items ≡ rows_in count bytes.now) }
    ensures numbers { IfOk result (λ rows. AreRows rows.items) }
{
    let mut rows = Vec::with_capacity(alloc, count)?;
    let mut rest = bytes;
    'rows: for _ in 0..count {
        let (front, after) = rest.split_at(80);
        rows.push(row_in(front))?;
        rest = after;
    }
    Ok(rows)
}

// The records of a payload that is a part of so many: what its fields say is written again, and compared
// with it.
fn read_part(
    alloc: Global,
    count: usize,
    payload: &[u8],
) -> Result<Option<Vec<BaseRow>>, AllocError>
    requires { count ≤ 4096 }
    ensures rows { IfOk result (λ o. IfSome o (λ rows. AreRows rows.items)) }
    ensures size { IfOk result (λ o. IfSome o (λ rows. length rows.items ≡ count)) }
    ensures is { IfOk result (λ o. IfSome o (λ rows. payload.now ≡ part_bytes rows.items)) }
    ensures none { IfOk result (λ o. IfNone o (IsPart count payload.now → ⊥)) }
{
    if payload.len() != 80 * count {
        return Ok(None);
    }
    let rows = rows_in(alloc, count, payload)?;
    let again = part_bytes(alloc, &rows)?;
    if is_same(&again, payload) {
        Ok(Some(rows))
    } else {
        Ok(None)
    }
}

// Whether the record stands above these, which rise.
fn is_above(rows: &[BaseRow], row: &BaseRow) -> bool
    requires { Rise rows.now }
    ensures { IsTrue result ↔ Rise (rows.now ++ row.now ∷ []) }
{
    match rows.last() {
        Some(last) => last.0 < row.0,
        None => true,
    }
}

// Whether its fields are of their widths, which their types say as well.
fn is_row(row: &BaseRow) -> bool
    ensures { IsTrue result ↔ IsRow row.now }
{
    let (record, value) = row;
    u32::from(record.dc) < 1 << 16
        && u32::from(record.table) < 1 << 16
        && u128::from(record.key) < 1 << 64
        && value.len() == 64
}

// Whether the record stands below the other.
fn is_below(row: &BaseRow, other: &BaseRow) -> bool
    ensures { IsTrue result ↔ (record_less row.now.0 other.now.0 ≡ true) }
{
    row.0 < other.0
}

// Whether each of these records is above the one before it, and the first above this one.
fn rise_from(first: &BaseRow, rows: &[BaseRow]) -> bool
    ensures { IsTrue result ↔ (RiseFrom first.now.0 rows.now × AreRows rows.now) }
{
    let mut last = first;
    let mut rest = rows;
    'rows: while let Some((row, behind)) = rest.split_first() {
        if !is_row(row) || !is_below(last, row) {
            return false;
        }
        last = row;
        rest = behind;
    }
    true
}

/// Whether a log can begin with these records: each is above the one before it.
pub fn is_base(rows: &[BaseRow]) -> bool
    ensures { IsTrue result ↔ IsBase rows.now }
{
    match rows.split_first() {
        Some((first, behind)) => is_row(first) && rise_from(first, behind),
        None => true,
    }
}

// Adds records as long as they rise, and says whether all do.
fn add_rising(base: &mut Vec<BaseRow>, rows: &[BaseRow]) -> Result<bool, AllocError>
    requires { Rise base.old.items }
    ensures yes { IfOk result (λ all. IsTrue all → (base.new.items ≡ base.old.items ++ rows.now) × Rise base.new.items) }
    ensures no { IfOk result (λ all. IsFalse all → Rise (base.old.items ++ rows.now) → ⊥) }
{
    'rows: for row in rows {
        if !is_above(base, row) {
            return Ok(false);
        }
        base.push(*row)?;
    }
    Ok(true)
}

// Adds the records of a payload that is a part of so many, if they go on rising, and says whether it did.
fn add_part(
    alloc: Global,
    base: &mut Vec<BaseRow>,
    count: usize,
    payload: &[u8],
) -> Result<bool, AllocError>
    requires few { count ≤ 4096 }
    requires rise { Rise base.old.items }
    ensures yes { IfOk result (λ added. IsTrue added → IsAdded count payload.now base.old.items base.new.items) }
    ensures no { IfOk result (λ added. IsFalse added → NoneAdded count payload.now base.old.items) }
{
    let Some(part) = read_part(alloc, count, payload)? else {
        return Ok(false);
    };
    add_rising(base, &part)
}

/// The base of so many records that payloads begin with, and the payloads behind it.
pub(crate) fn read_base(
    alloc: Global,
    count: u64,
    payloads: &[Vec<u8>],
) -> Result<(Vec<BaseRow>, &[Vec<u8>]), OpenFault>
    ensures base { IfOk result (λ r. IsBase r.0.items) }
    ensures count { IfOk result (λ r. length r.0.items ≡ count) }
    ensures is { IfOk result (λ r. payloads_in payloads.now ≡ map part_bytes (parts_of r.0.items) ++ payloads_in r.1.now) }
    ensures fault { IfErr result (IsBaseFault count (payloads_in payloads.now)) }
{
    let mut base = Vec::new(alloc);
    let mut rest = payloads;
    'parts: while (base.len() as u64) < count {
        let number = payloads.len() - rest.len() + 1;
        let Some((payload, after)) = rest.split_first() else {
            return Err(OpenFault::NoBase(number));
        };
        let size = (count - base.len() as u64).min(PART as u64) as usize;
        if !add_part(alloc, &mut base, size, payload)? {
            return Err(OpenFault::NoBase(number));
        }
        rest = after;
    }
    Ok((base, rest))
}
