//! Rows, sorted by record.

ghost use Rattle.std.specs.Prelude.{Bool, ◌≡◌, ◌↔◌, ◌+◌, ◌*◌, ◌^◌, ◌<◌, ◌≤◌, true, length, option_copied, IsTrue, IfErr, IfOk, vec_capacity};
ghost use Rattle.std.specs.List.{insert};
ghost use Rattle.access_slots.specs.Locks.{record_less};
ghost use Rattle.access_slots.specs.declared.op.Op.TheVariants.{Read, Insert, Update, Delete};
ghost use Rattle.data_component.specs.Joining.Performing.{Performs};
ghost use Rattle.data_component.specs.Sorted.{row_of, row_place, AllAbove, SortedRows, IsFoundAt, IsMissingAt};

use access_slots::op::{Op, Said};
use access_slots::slot::{Record, Value};

/// A record and its value.
pub(crate) type Row = (Record, Value);

// The record as one number, which rises as records do.
#[inline(always)]
fn rank(record: &Record) -> u128
    ensures value { result ≡ («record».now.dc * 2 ^ 16 + «record».now.table) * 2 ^ 64 + «record».now.key }
    ensures table { «record».now.table < 2 ^ 16 }
    ensures key { «record».now.key < 2 ^ 64 }
{
    let table = u128::from(record.dc) * (1 << 16) + u128::from(record.table);
    table * (1 << 64) + u128::from(record.key)
}

// Whether a record is the lesser one, by a single comparison: a look among many rows makes some ten.
#[inline(always)]
fn is_less(a: &Record, b: &Record) -> bool
    ensures { result ≡ record_less a.now b.now }
{
    rank(a) < rank(b)
}

// Whether the row's record is less than the first one's, if there is one.
fn is_below(row: &Row, rows: &[Row]) -> bool
    ensures { SortedRows rows.now → IsTrue result ↔ AllAbove record_less row.now.0 rows.now }
{
    match rows.first() {
        Some(next) => is_less(&row.0, &next.0),
        None => true,
    }
}

/// Whether each row is of a greater record than the one before it.
pub(crate) fn rise(rows: &[Row]) -> bool
    ensures { IsTrue result ↔ SortedRows rows.now }
{
    let mut rest = rows;
    'rows: while let Some((row, behind)) = rest.split_first() {
        if !is_below(row, behind) {
            return false;
        }
        rest = behind;
    }
    true
}

// How many rows are of lesser records.
fn count_before(rows: &[Row], record: &Record) -> usize
    requires { SortedRows rows.now }
    ensures value { result ≡ row_place rows.now «record».now }
    ensures few { result ≤ length rows.now }
{
    rows.partition_point(|row| is_less(&row.0, record))
}

// The place of the record's row, or the one that it would have, by halves.
#[tactic(auto, using(crate::proofs::Changing::found_there, crate::proofs::Changing::missing_there, crate::proofs::Changing::none_there))]
fn search(rows: &[Row], record: &Record) -> Result<usize, usize>
    requires { SortedRows rows.now }
    ensures ok { IfOk result (IsFoundAt rows.now «record».now) }
    ensures err { IfErr result (IsMissingAt rows.now «record».now) }
{
    let place = count_before(rows, record);
    if place >= rows.len() {
        return Err(place);
    }
    if rows[place].0 == *record {
        Ok(place)
    } else {
        Err(place)
    }
}

// Whether the record's row stands at this place.
#[inline(always)]
#[tactic(auto, using(crate::proofs::Changing::hinted_there))]
fn stands_at(rows: &[Row], record: &Record, place: usize) -> bool
    requires { SortedRows rows.now }
    ensures { result ≡ true → IsFoundAt rows.now «record».now place }
{
    match rows.get(place) {
        Some(row) => row.0 == *record,
        None => false,
    }
}

/// So many hints there are at most.
pub(crate) const HINTS: usize = 4096;

/// Where rows stood that were looked for last, each under its key's rest. A hint may be of another record, or
/// of a place where the row stands no more, so each is tested where it is used.
pub(crate) type Hints = Vec<usize>;

/// Where a record's hint stands among hints.
#[inline(always)]
pub(crate) fn hint_of(record: &Record) -> usize
    ensures { result < 4096 }
{
    record.key as usize % HINTS
}

// The place of the record's row, or the one that it would have: the hint's where the row stands there, else
// by halves, which is the next hint.
#[inline(always)]
fn find(rows: &[Row], hints: &mut Hints, record: &Record) -> Result<usize, usize>
    requires { SortedRows rows.now }
    ensures ok { IfOk result (IsFoundAt rows.now «record».now) }
    ensures err { IfErr result (IsMissingAt rows.now «record».now) }
{
    let Some(hint) = hints.get_mut(hint_of(record)) else {
        return search(rows, record);
    };
    if stands_at(rows, record, *hint) {
        return Ok(*hint);
    }
    let found = search(rows, record);
    if let Ok(place) = found {
        *hint = place;
    }
    found
}

/// The record's value, if it is present.
pub(crate) fn value_of<'a>(rows: &'a [Row], record: &Record) -> Option<&'a Value>
    requires { SortedRows rows.now }
    ensures { option_copied result ≡ row_of rows.now «record».now }
{
    match search(rows, record) {
        Ok(place) => Some(&rows[place].1),
        Err(_) => None,
    }
}

#[inline(always)]
#[tactic(auto, using(crate::proofs::Changing::read_at, crate::proofs::Changing::read_missing))]
fn read(rows: &[Row], hints: &mut Hints, record: &Record) -> Said
    requires { SortedRows rows.now }
    ensures { (has_room : Bool) → Performs has_room rows.now rows.now (Read «record».now) result }
{
    match find(rows, hints, record) {
        Ok(place) => Said::Value(rows[place].1),
        Err(_) => Said::Absent,
    }
}

// One row more, where there is room for it.
fn put_in(rows: &mut Vec<Row>, place: usize, row: Row)
    requires place { place ≤ length rows.old.items }
    requires room { length rows.old.items < vec_capacity rows.old }
    ensures items { rows.new.items ≡ insert rows.old.items place row }
    ensures capacity { vec_capacity rows.new ≡ vec_capacity rows.old }
{
    match rows.insert(place, row) {
        Ok(()) => {}
        Err(_) => unreachable!(),
    }
}

#[tactic(auto, using(crate::proofs::Changing::insert_duplicate, crate::proofs::Changing::insert_no_room, crate::proofs::Changing::insert_done))]
fn insert(
    rows: &mut Vec<Row>,
    hints: &mut Hints,
    has_room: bool,
    record: &Record,
    value: &Value,
) -> Said
    requires sorted { SortedRows rows.old.items }
    requires room { length rows.old.items < vec_capacity rows.old }
    ensures performs { Performs has_room rows.old.items rows.new.items (Insert «record».now value.now) result }
    ensures capacity { vec_capacity rows.new ≡ vec_capacity rows.old }
{
    match find(rows.as_slice(), hints, record) {
        Ok(_) => Said::Duplicate,
        Err(_) if !has_room => Said::NoRoom,
        Err(place) => {
            put_in(rows, place, (*record, *value));
            Said::Done(None)
        }
    }
}

#[inline(always)]
#[tactic(auto, using(crate::proofs::Changing::update_missing, crate::proofs::Changing::update_put))]
fn update(rows: &mut Vec<Row>, hints: &mut Hints, record: &Record, value: &Value) -> Said
    requires { SortedRows rows.old.items }
    ensures performs { (has_room : Bool) → Performs has_room rows.old.items rows.new.items (Update «record».now value.now) result }
    ensures capacity { vec_capacity rows.new ≡ vec_capacity rows.old }
{
    let Ok(place) = find(rows.as_slice(), hints, record) else {
        return Said::Missing;
    };
    let kept = &mut rows[place].1;
    let former = *kept;
    *kept = *value;
    Said::Done(Some(former))
}

#[tactic(auto, using(crate::proofs::Changing::delete_missing, crate::proofs::Changing::delete_done))]
fn delete(rows: &mut Vec<Row>, hints: &mut Hints, record: &Record) -> Said
    requires { SortedRows rows.old.items }
    ensures performs { (has_room : Bool) → Performs has_room rows.old.items rows.new.items (Delete «record».now) result }
    ensures capacity { vec_capacity rows.new ≡ vec_capacity rows.old }
{
    match find(rows.as_slice(), hints, record) {
        Ok(place) => Said::Done(Some(rows.remove(place).1)),
        Err(_) => Said::Missing,
    }
}

/// Performs the operation, where a further record has room or not. The vector has room for one.
#[inline(always)]
pub(crate) fn perform(rows: &mut Vec<Row>, hints: &mut Hints, has_room: bool, op: &Op) -> Said
    requires sorted { SortedRows rows.old.items }
    requires room { length rows.old.items < vec_capacity rows.old }
    ensures performs { Performs has_room rows.old.items rows.new.items op.now result }
    ensures capacity { vec_capacity rows.new ≡ vec_capacity rows.old }
{
    match op {
        Op::Read(record) => read(rows.as_slice(), hints, record),
        Op::Insert(record, value) => insert(rows, hints, has_room, record, value),
        Op::Update(record, value) => update(rows, hints, record, value),
        Op::Delete(record) => delete(rows, hints, record),
    }
}
