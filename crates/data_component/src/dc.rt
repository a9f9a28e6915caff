//! The data component.

ghost use Rattle.std.specs.Prelude.{◌≡◌, ◌==◌, ◌↔◌, ◌+◌, ◌<◌, ◌≤◌, [], ◌∷◌, ◌++◌, Some, None, true, false, length, reverse, take, IsErr, IfOk, OnOk, OnErr, not, vec_capacity};
ghost use Rattle.access_slots.specs.Access.{is_no_room};
ghost use Rattle.data_component.specs.Performed.{value_in, said_under, IsRight};
ghost use Rattle.data_component.specs.Sorted.{SortedRows};
ghost use Rattle.data_component.specs.Store.{is_overfull, empty, marked, fate, fate_of_new, reply_by, store_by, replied, performed};
ghost use Rattle.data_component.specs.Store.{checkpointed, IsSpent, restarted, news_of, heard, may_forget, HasForgotten, begun_with, MayBeginWith};
ghost use Rattle.data_component.specs.Keeping.{AreRowsOf, AreKept};

use crate::entries::Entries;
pub use crate::entries::Performed;
use crate::kept::{Kept, keep, leave_out_old, place_of};
use crate::rows::{self, HINTS, Hints, Row, hint_of};
use access_slots::op::{News, Op, Reply, Said, Wire};
use access_slots::slot::{Record, Value};
use std::alloc::{AllocError, Global};
use std::marker::Model;

/// 2^62 incarnations are over (K1).
#[derive(Clone, Copy, Debug, PartialEq, Eq)]
pub struct IncarnationsSpent;

const MOST_INCARNATIONS: u64 = 1 << 62;

/// A store of records that performs each numbered operation once (Lomet, Fekete, Weikum, Zwilling,
/// CIDR 2009: idempotence by unique request IDs). A checkpoint keeps its list of what was performed
/// and its low-water mark; a restart cuts both back to the last checkpoint, and begins a new
/// incarnation. The rows, and the places of the numbers above the mark, are rebuilt from the list, and
/// from the rows with which it begins: those that it left when it was forgotten last.
#[derive(Drop)]
pub struct Dc {
    // The rows, and the mark, with which the list begins.
    base: Vec<Row>,
    base_mark: u64,
    rows: Vec<Row>,
    // Where a record's row stood that was looked for last.
    hints: Hints,
    performed: Entries,
    // The numbers of the values that records had last, as hints of where they stand in the list.
    numbers: Hints,
    // The place in the list of each number above the mark that was performed.
    kept: Vec<Kept>,
    // The highest low-water mark that came: numbers up to it are answered, and never sent again.
    mark: u64,
    // The last checkpoint: how many of the operations performed it has, and its low-water mark.
    saved: usize,
    saved_mark: u64,
    // How often it has restarted.
    incarnation: u64,
    // How many rows, and how many operations in its list, it has room for.
    row_limit: usize,
    op_limit: usize,
}

impl Model for Dc {
    ghost use Rattle.std.specs.Prelude.{◌+◌, ◌≤◌, length, reverse, take, vec_capacity};
    ghost use Rattle.data_component.specs.Store.{Store};
    ghost use Rattle.data_component.specs.Keeping.{Keeps};

    ghost Value = { Store };

    ghost view = { λ d. record {
      base = d.base.items;
      base_mark = d.base_mark;
      list = reverse d.performed.items;
      mark = d.mark;
      saved = reverse (take d.saved d.performed.items);
      saved_mark = d.saved_mark;
      incarnation = d.incarnation;
      rows = d.row_limit;
      ops = d.op_limit;
    } };

    ghost invariant = { λ d.
        Keeps d.rows.items d.base.items d.performed.items d.kept.items d.mark d.row_limit d.op_limit
        × (d.row_limit + d.op_limit ≤ vec_capacity d.rows) × (d.op_limit ≤ d.performed.most) × (d.op_limit ≤ vec_capacity d.kept)
        × (d.saved ≤ length d.performed.items) × (d.row_limit ≤ vec_capacity d.base)
        × (d.base_mark ≤ d.saved_mark) × (d.saved_mark ≤ d.mark) };
}

impl Dc {
    /// An empty store for so many records, beside those that are redone, and so many operations. All
    /// its memory is taken here.
    pub fn new(alloc: Global, rows: usize, ops: usize) -> Result<Dc, AllocError>
        ensures { IfOk result (λ d. d ≡ empty rows ops) }
    {
        let Some(most) = rows.checked_add(ops) else {
            return Err(AllocError);
        };
        Ok(Dc {
            base: Vec::with_capacity(alloc, rows)?,
            base_mark: 0,
            rows: Vec::with_capacity(alloc, most)?,
            hints: vec![in alloc; 0; rows.min(HINTS)]?,
            performed: Entries::with_room(alloc, ops)?,
            numbers: vec![in alloc; 0; rows.min(HINTS)]?,
            kept: Vec::with_capacity(alloc, ops)?,
            mark: 0,
            saved: 0,
            saved_mark: 0,
            incarnation: 0,
            row_limit: rows,
            op_limit: ops,
        })
    }

    /// Performs a wire, in this order:
    ///
    /// 1. To a wire for another incarnation there is no reply, and nothing changes.
    /// 2. The mark rises to the wire's low-water mark, if that is greater.
    /// 3. A number at or under the mark is answered [`Said::Old`].
    /// 4. A number that was performed before gets its first answer again.
    /// 5. Where there is no room for a further operation, there is no reply.
    /// 6. Else the operation is performed, and kept under its number with its answer. An insert that
    ///    is redone finds room for its record.
    ///
    /// It takes no memory.
    #[inline(always)]
    pub fn perform(&mut self, wire: &Wire) -> Option<Reply>
        ensures reply { result ≡ replied self.old wire.now }
        ensures store { self.new ≡ performed self.old wire.now }
    {
        if wire.incarnation != self.incarnation {
            return None;
        }
        self.raise(wire.low_water);
        self.perform_marked(wire.number, wire.redo, &wire.op)
    }

    /// Hears a low-water mark that comes with no wire; one that is told to another incarnation changes
    /// nothing. So a checkpoint behind it can keep a mark at or above all that was performed.
    pub fn hear_mark(&mut self, incarnation: u64, low_water: u64)
        ensures { self.new ≡ heard self.old incarnation low_water }
    {
        if self.incarnation == incarnation {
            self.raise(low_water);
        }
    }

    // The mark rises, or stays.
    #[inline(always)]
    fn raise(&mut self, low_water: u64)
        ensures { self.new ≡ marked self.old low_water }
    {
        self.mark = self.mark.max(low_water);
        leave_out_old(&mut self.kept, self.mark);
    }

    // Performs an operation where the mark is raised.
    #[inline(always)]
    fn perform_marked(&mut self, number: u64, redo: bool, op: &Op) -> Option<Reply>
        ensures reply { result ≡ reply_by self.old number (fate self.old number redo op.now) }
        ensures store { self.new ≡ store_by self.old number op.now (fate self.old number redo op.now) }
    {
        if number <= self.mark {
            return Some(self.reply(number, Said::Old));
        }
        match self.said_under(number) {
            Some(said) => Some(self.reply(number, said)),
            None => self.perform_new(number, redo, op),
        }
    }

    // What this incarnation says to a number.
    #[inline(always)]
    fn reply(&self, number: u64, said: Said) -> Reply
        ensures { result ≡ record { number = number; incarnation = self.now.incarnation; said = said } }
    {
        Reply {
            number,
            incarnation: self.incarnation,
            said,
        }
    }

    // What was said to a number above the mark, if it was performed.
    fn said_under(&self, number: u64) -> Option<Said>
        requires { self.now.mark < number }
        ensures { result ≡ said_under self.now.list number }
    {
        match place_of(self.kept.as_slice(), number) {
            Some(place) => Some(self.performed.said_at(place)),
            None => None,
        }
    }

    // Performs an operation under a number above the mark that wasn't performed.
    #[inline(always)]
    fn perform_new(&mut self, number: u64, redo: bool, op: &Op) -> Option<Reply>
        requires above { self.old.mark < number }
        requires fresh { said_under self.old.list number ≡ None }
        ensures reply { result ≡ reply_by self.old number (fate_of_new self.old redo op.now) }
        ensures store { self.new ≡ store_by self.old number op.now (fate_of_new self.old redo op.now) }
    {
        if self.performed.len() >= self.op_limit {
            return None;
        }
        let has_room = redo || self.rows.len() < self.row_limit;
        let said = rows::perform(&mut self.rows, &mut self.hints, has_room, op);
        keep(&mut self.kept, number, self.performed.len());
        note(&mut self.performed, &mut self.numbers, number, op, &said);
        Some(self.reply(number, said))
    }

    /// Keeps the list and the mark, and says the mark. It takes no memory.
    pub fn checkpoint(&mut self) -> u64
        ensures mark { result ≡ self.old.mark }
        ensures store { self.new ≡ checkpointed self.old }
    {
        self.saved = self.performed.len();
        self.saved_mark = self.mark;
        self.mark
    }

    /// Forgets what it has performed: the rows stay, and are those with which the list begins from now
    /// on. It does so where the last checkpoint has all that was performed and each number is at or
    /// under the mark that it kept, and where no more records are present than there may be (an insert
    /// that is redone finds room for one more). Else it says no, and nothing changes. It takes no memory.
    pub fn forget(&mut self) -> bool
        ensures told { result ≡ may_forget self.old }
        ensures forgotten { result ≡ true → HasForgotten self.old self.new }
        ensures stays { result ≡ false → self.new ≡ self.old }
    {
        if self.saved != self.performed.len() {
            return false;
        }
        if self.rows.len() > self.row_limit {
            return false;
        }
        if !self.performed.are_at_most(self.saved_mark) {
            return false;
        }
        put_all(&mut self.base, self.rows.as_slice());
        self.base_mark = self.saved_mark;
        self.performed.truncate(0);
        self.kept.clear();
        self.saved = 0;
        true
    }

    /// Begins with these rows, behind a mark up to which all was performed before: for a store in which nothing
    /// was performed, where the rows rise, as those that [`Dc::rows`] gives, and are no more than there may be, and
    /// no higher mark was told. Else it says no, and nothing changes. It takes no memory.
    pub fn begin_with(&mut self, rows: &[Row], mark: u64) -> bool
        ensures begun { result ≡ true → MayBeginWith rows.now mark self.old × (self.new ≡ begun_with rows.now mark self.old) }
        ensures refused { result ≡ false → (MayBeginWith rows.now mark self.old → ⊥) }
        ensures stays { result ≡ false → self.new ≡ self.old }
    {
        if self.performed.len() > 0 || mark < self.mark {
            return false;
        }
        if self.row_limit < rows.len() || !rows::rise(rows) {
            return false;
        }
        put_all(&mut self.base, rows);
        put_all(&mut self.rows, rows);
        self.kept.clear();
        self.base_mark = mark;
        self.mark = mark;
        self.saved_mark = mark;
        true
    }

    /// Which incarnation it is: 0 at first, and one more at each restart.
    pub fn incarnation(&self) -> u64
        ensures { result ≡ self.now.incarnation }
    {
        self.incarnation
    }

    /// Cuts the list and the mark back to the last checkpoint, loses the rows and the places of
    /// numbers and rebuilds both, as after a crash of the component, and begins the next incarnation;
    /// refused, with nothing changed, where 2^62 of them are over. It takes no memory.
    pub fn restart(&mut self) -> Result<News, IncarnationsSpent>
        ensures spent { IsErr result ↔ IsSpent self.old }
        ensures ok { OnOk result (self.new ≡ restarted self.old) }
        ensures news { IfOk result (λ n. n ≡ news_of self.new) }
        ensures err { OnErr result (self.new ≡ self.old) }
    {
        if self.incarnation >= MOST_INCARNATIONS {
            return Err(IncarnationsSpent);
        }
        self.performed.truncate(self.saved);
        self.mark = self.saved_mark;
        self.incarnation += 1;
        self.kept.clear();
        rebuild(
            &mut self.rows,
            &mut self.hints,
            &mut self.kept,
            self.base.as_slice(),
            &self.performed,
            self.mark,
            self.row_limit,
        );
        Ok(News {
            incarnation: self.incarnation,
            mark: self.mark,
        })
    }

    /// The record's value, if it is present.
    pub fn get(&self, record: &Record) -> Option<Value>
        ensures { result ≡ value_in self.now.base self.now.list «record».now }
    {
        rows::value_of(self.rows.as_slice(), record).copied()
    }

    /// The records that are present, rising, with their values.
    pub fn rows(&self) -> &[Row]
        ensures rows { AreRowsOf result.now self.now.base self.now.list }
        ensures few { length result.now ≤ length self.now.base + length self.now.list }
    {
        self.rows.as_slice()
    }

    /// The records that were present where the list begins, rising, with their values.
    pub fn base(&self) -> &[Row]
        ensures rows { result.now ≡ self.now.base }
        ensures sorted { SortedRows result.now }
        ensures few { length result.now ≤ self.now.rows }
    {
        self.base.as_slice()
    }

    /// The mark behind which the list begins: what was performed under a number at or under it has been
    /// forgotten.
    pub fn base_mark(&self) -> u64
        ensures mark { result ≡ self.now.base_mark }
        ensures low { self.now.base_mark ≤ self.now.saved_mark }
        ensures saved { self.now.saved_mark ≤ self.now.mark }
    {
        self.base_mark
    }

    /// What was performed, the oldest first. No number stands twice, and each answer is what the
    /// operations before it give, to an operation or to one that is redone.
    pub fn performed(&self) -> &Entries
        ensures list { result.now.items ≡ reverse self.now.list }
        ensures right { IsRight self.now.rows self.now.base self.now.list }
        ensures few { length self.now.list ≤ self.now.ops }
    {
        &self.performed
    }

    /// Whether there is no room for a further operation. To one under a new number there is no reply then.
    pub fn is_full(&self) -> bool
        ensures { result ≡ (length self.now.list == self.now.ops) }
    {
        self.performed.len() == self.op_limit
    }

    /// Whether more records are present than there is room for: an insert that is redone finds room for its own.
    pub fn is_overfull(&self) -> bool
        ensures { result ≡ is_overfull self.now }
    {
        self.row_limit < self.rows.len()
    }

    /// So many records there may be, beside those of inserts that are redone.
    pub fn row_limit(&self) -> usize
        ensures { result ≡ self.now.rows }
    {
        self.row_limit
    }

    /// So many operations may be kept at once: each that is performed under a new number, until the mark is at or above it.
    pub fn operation_limit(&self) -> usize
        ensures { result ≡ self.now.ops }
    {
        self.op_limit
    }

    /// The low-water mark: numbers at or under it are answered [`Said::Old`].
    pub fn mark(&self) -> u64
        ensures { result ≡ self.now.mark }
    {
        self.mark
    }

    /// So many operations, the oldest, the last checkpoint kept of what was performed; none before the first.
    pub fn saved(&self) -> usize
        ensures saved { take result (reverse self.now.list) ≡ reverse self.now.saved }
        ensures few { result ≤ length self.now.list }
    {
        self.saved
    }

    /// The mark that the last checkpoint kept; 0 before the first.
    pub fn saved_mark(&self) -> u64
        ensures { result ≡ self.now.saved_mark }
    {
        self.saved_mark
    }
}

// Whether the answer isn't want of room.
fn found_room(said: &Said) -> bool
    ensures { result ≡ not (is_no_room said.now) }
{
    !matches!(said, Said::NoRoom)
}

// One entry more. What was said is mostly the value that its record had last.
#[inline(always)]
fn note(performed: &mut Entries, numbers: &mut Hints, number: u64, op: &Op, said: &Said)
    requires { length performed.old.items < performed.old.most }
    ensures items { performed.new.items ≡ performed.old.items ++ (number, op.now, said.now) ∷ [] }
    ensures most { performed.new.most ≡ performed.old.most }
{
    match numbers.get_mut(hint_of(op.record())) {
        Some(hint) => *hint = performed.push(number, op, said, *hint),
        None => {
            let _ = performed.push(number, op, said, 0);
        }
    }
}

// These rows in place of those that there are, where there is room for them.
fn put_all(rows: &mut Vec<Row>, all: &[Row])
    requires { length all.now ≤ vec_capacity rows.old }
    ensures items { rows.new.items ≡ all.now }
    ensures capacity { vec_capacity rows.old ≤ vec_capacity rows.new }
{
    rows.clear();
    match rows.extend_from_slice(all) {
        Ok(()) => {}
        Err(_) => unreachable!(),
    }
}

// Rows, and the places of the numbers above the mark, from the list of what was performed and the rows
// with which it begins.
fn rebuild(
    rows: &mut Vec<Row>,
    hints: &mut Hints,
    kept: &mut Vec<Kept>,
    base: &[Row],
    performed: &Entries,
    mark: u64,
    row_limit: usize,
)
    requires right { IsRight row_limit base.now (reverse performed.now.items) }
    requires sorted { SortedRows base.now }
    requires none_kept { kept.old.items ≡ [] }
    requires room { length base.now + length performed.now.items ≤ vec_capacity rows.old }
    requires places { length performed.now.items ≤ vec_capacity kept.old }
    ensures rows { AreRowsOf rows.new.items base.now (reverse performed.now.items) }
    ensures kept { AreKept kept.new.items mark performed.now.items }
    ensures capacity { (vec_capacity rows.old ≤ vec_capacity rows.new) × (vec_capacity kept.new ≡ vec_capacity kept.old) }
{
    // Contracts alone speak of the limit.
    let _ = row_limit;
    put_all(rows, base);
    'performed: for place in 0..performed.len() {
        let (number, op, said) = performed.at(place);
        let _ = rows::perform(rows, hints, found_room(&said), &op);
        if number > mark {
            keep(kept, number, place);
        }
    }
}
