//! What was performed, the oldest first. An entry's operation and answer name their values by number, and a
//! value that was written or said before mostly isn't kept again.

ghost use Rattle.std.specs.Prelude.{◌≡◌, ◌+◌, ◌<◌, ◌≤◌, [], ◌∷◌, ◌++◌, length, take, slice_get, option_copied, Some, true};
ghost use Rattle.std.specs.Prelude.{IfOk, vec_capacity};
ghost use Rattle.data_component.specs.Performed.{all_at_most};
ghost use Rattle.data_component.specs.Listed.{numbered, entry_of, record_of, IsNumbered, heads_at_most};

use access_slots::kind::{OpKind, SaidKind};
use access_slots::op::{Op, Said};
use access_slots::slot::{Record, Value};
use std::alloc::{AllocError, Global};
use std::marker::Model;

/// A number, its operation and what was said to it.
pub type Performed = (u64, Op, Said);

// An entry without its values, which it names by number, from 1; 0 where it has none.
#[derive(Clone, Copy)]
pub(crate) struct Head {
    number: u64,
    key: u64,
    dc: u16,
    table: u16,
    kind: OpKind,
    told: SaidKind,
    written: usize,
    said: usize,
}

/// Entries, of which each is a number, its operation and what was said to it.
#[derive(Drop)]
pub struct Entries {
    heads: Vec<Head>,
    values: Vec<Value>,
    most: usize,
}

impl Model for Entries {
    ghost use Rattle.std.specs.Prelude.{◌+◌, ◌*◌, ◌≤◌, length, vec_capacity};
    ghost use Rattle.data_component.specs.Listed.{Listed, entries_of, AllWithin};

    ghost Value = { Listed };

    ghost view = { λ l. record { items = entries_of l.values.items l.heads.items; most = l.most } };

    ghost invariant = { λ l.
        AllWithin (length l.values.items) 0 l.heads.items × (length l.values.items ≤ 2 * length l.heads.items)
        × (l.most ≤ vec_capacity l.heads) × (2 * l.most ≤ vec_capacity l.values) };
}

const NO_VALUE: Value = [0; 64];

// No value's number.
const NO_HINT: usize = 0;

// The value of this number.
#[inline(always)]
fn numbered(values: &[Value], number: usize) -> &Value
    ensures { result.now ≡ numbered values.now number }
{
    match number.checked_sub(1) {
        Some(place) => match values.get(place) {
            Some(value) => value,
            None => &NO_VALUE,
        },
        None => &NO_VALUE,
    }
}

// One value more, and its number.
#[inline(always)]
#[tactic(auto, using(crate::proofs::Entering::one_more))]
fn keep(values: &mut Vec<Value>, value: &Value) -> usize
    requires room { length values.old.items < vec_capacity values.old }
    ensures numbered { IsNumbered values.old.items values.new.items (Some value.now) result }
    ensures capacity { vec_capacity values.new ≡ vec_capacity values.old }
{
    values.push_reserved(*value);
    values.len()
}

// The value's number: this one where it is the value's, else that of one value more.
#[inline(always)]
fn share(values: &mut Vec<Value>, value: &Value, hint: usize) -> usize
    requires room { length values.old.items < vec_capacity values.old }
    ensures numbered { IsNumbered values.old.items values.new.items (Some value.now) result }
    ensures capacity { vec_capacity values.new ≡ vec_capacity values.old }
{
    if is_numbered(values.as_slice(), value, hint) {
        return hint;
    }
    keep(values, value)
}

// Whether the value has this number.
#[inline(always)]
#[tactic(auto, using(crate::proofs::Entering::none_more))]
fn is_numbered(values: &[Value], value: &Value, number: usize) -> bool
    ensures { result ≡ true → IsNumbered values.now values.now (Some value.now) number }
{
    let Some(place) = number.checked_sub(1) else {
        return false;
    };
    match values.get(place) {
        Some(kept) => *kept == *value,
        None => false,
    }
}

// The value's number, if there is one: this one where it is the value's, else that of one value more.
#[inline(always)]
#[tactic(auto, using(crate::proofs::Entering::no_value_more))]
fn share_any(values: &mut Vec<Value>, value: Option<&Value>, hint: usize) -> usize
    requires room { length values.old.items < vec_capacity values.old }
    ensures numbered { IsNumbered values.old.items values.new.items (option_copied value.entry) result }
    ensures capacity { vec_capacity values.new ≡ vec_capacity values.old }
{
    match value {
        Some(value) => share(values, value, hint),
        None => 0,
    }
}

// Whether each number is at most this one.
fn are_at_most(heads: &[Head], mark: u64) -> bool
    ensures { result ≡ heads_at_most mark heads.now }
{
    heads.iter().all(|head| head.number <= mark)
}

impl Head {
    ghost use Rattle.std.specs.Prelude.{◌≡◌};
    ghost use Rattle.access_slots.specs.Kinds.{op_of, said_of};
    ghost use Rattle.data_component.specs.Listed.{record_of, numbered};

    #[inline(always)]
    fn record(&self) -> Record
        ensures { result ≡ record_of self.now }
    {
        Record {
            dc: self.dc,
            table: self.table,
            key: self.key,
        }
    }

    // The operation, with its value among these.
    fn op(&self, values: &[Value]) -> Op
        ensures { result ≡ op_of self.now.kind (record_of self.now) (numbered values.now self.now.written) }
    {
        self.kind
            .with(self.record(), numbered(values, self.written))
    }

    // What was said, with its value among these.
    fn said(&self, values: &[Value]) -> Said
        ensures { result ≡ said_of self.now.told (numbered values.now self.now.said) }
    {
        self.told.with(numbered(values, self.said))
    }
}

impl Entries {
    ghost use Rattle.std.specs.Prelude.{◌≡◌, ◌<◌, ◌≤◌, [], ◌∷◌, ◌++◌, length, take, slice_get, Some, IfOk};
    ghost use Rattle.data_component.specs.Keeping.{said_in};
    ghost use Rattle.data_component.specs.Performed.{all_at_most};

    // No entry yet, and room for so many.
    pub(crate) fn with_room(alloc: Global, most: usize) -> Result<Entries, AllocError>
        ensures items { IfOk result (λ l. l.items ≡ []) }
        ensures most { IfOk result (λ l. l.most ≡ most) }
    {
        let Some(values) = most.checked_mul(2) else {
            return Err(AllocError);
        };
        Ok(Entries {
            heads: Vec::with_capacity(alloc, most)?,
            values: Vec::with_capacity(alloc, values)?,
            most,
        })
    }

    /// How many entries there are.
    #[inline(always)]
    pub fn len(&self) -> usize
        ensures { result ≡ length self.now.items }
    {
        self.heads.len()
    }

    /// The entry at this place, the oldest at 0.
    pub fn at(&self, place: usize) -> Performed
        requires { place < length self.now.items }
        ensures { slice_get self.now.items place ≡ Some result }
    {
        let head = &self.heads[place];
        let values = self.values.as_slice();
        (head.number, head.op(values), head.said(values))
    }

    // One entry more. A value that was said may have this number. The result is the number of the value that
    // its record has now, if it has one.
    #[inline(always)]
    pub(crate) fn push(&mut self, number: u64, op: &Op, said: &Said, hint: usize) -> usize
        requires { length self.old.items < self.old.most }
        ensures items { self.new.items ≡ self.old.items ++ (number, op.now, said.now) ∷ [] }
        ensures most { self.new.most ≡ self.old.most }
    {
        let told = said.kind();
        let said = share_any(&mut self.values, said.value(), hint);
        let written = share_any(&mut self.values, op.value(), NO_HINT);
        let record = op.record();
        self.heads.push_reserved(Head {
            number,
            key: record.key,
            dc: record.dc,
            table: record.table,
            kind: op.kind(),
            told,
            written,
            said,
        });
        if written > 0 { written } else { said }
    }

    // So many entries are left, the oldest.
    pub(crate) fn truncate(&mut self, count: usize)
        requires { count ≤ length self.old.items }
        ensures items { self.new.items ≡ take count self.old.items }
        ensures most { self.new.most ≡ self.old.most }
    {
        self.heads.truncate(count);
        self.values.truncate(count * 2);
    }

    // What was said by the entry at this place.
    pub(crate) fn said_at(&self, place: usize) -> Said
        requires { place < length self.now.items }
        ensures { said_in self.now.items (Some place) ≡ Some result }
    {
        self.heads[place].said(self.values.as_slice())
    }

    /// Whether each number is at most this one.
    #[tactic(auto, using(crate::proofs::Entering::all_numbers))]
    pub fn are_at_most(&self, mark: u64) -> bool
        ensures { result ≡ all_at_most mark self.now.items }
    {
        are_at_most(self.heads.as_slice(), mark)
    }

    /// Whether each number of so many entries, the oldest, is at most this one.
    #[tactic(auto, using(crate::proofs::Entering::first_numbers))]
    pub fn are_first_at_most(&self, count: usize, mark: u64) -> bool
        requires { count ≤ length self.now.items }
        ensures { result ≡ all_at_most mark (take count self.now.items) }
    {
        are_at_most(&self.heads[..count], mark)
    }
}
