//! The holders of each record in a row, by rising number: each knows the one before it and the one behind.

ghost use Rattle.std.specs.Prelude.{◌≡◌, ◌≢◌, ℕ, Bool, true, false, ◌+◌, ◌<◌, ◌≤◌, Option, Some, None, if◌then◌else◌};
ghost use Rattle.indexmap.specs.IndexMap.{get, spare, Updates};
ghost use Rattle.access_slots.specs.declared.slot.Record.{Record};
ghost use Rattle.access_slots.specs.Locks.{record_eq};
ghost use Rattle.lock_table.specs.Rows.{holder, holder_eq, before_at, behind_at, is_at, with_txn, without_txn, end_left, IsPrevious, IsNext, IsRow, IsRowOf};

use access_slots::slot::Record;
use indexmap::IndexMap;

/// A transaction that holds a record.
#[derive(Clone, Copy, PartialEq, Eq, Hash)]
pub(crate) struct Holder {
    name: Record,
    txn: u64,
}

/// The holders of its record that stand next to one, where there are any.
#[derive(Clone, Copy)]
pub(crate) struct Neighbours {
    pub before: Option<u64>,
    pub behind: Option<u64>,
}

/// The least and the greatest holder of a record.
#[derive(Clone, Copy)]
pub(crate) struct Ends {
    pub first: u64,
    pub last: u64,
}

/// Where holders stand in their rows: those that have neighbours.
pub(crate) type Links = IndexMap<Holder, Neighbours>;

/// The holders that stand next to this one.
#[inline(always)]
pub(crate) fn beside(links: &Links, name: &Record, txn: u64) -> Neighbours
    ensures before { result.before ≡ before_at links.now name.now txn }
    ensures behind { result.behind ≡ behind_at links.now name.now txn }
{
    match links.get(&Holder { name: *name, txn }) {
        Some(neighbours) => *neighbours,
        None => Neighbours {
            before: None,
            behind: None,
        },
    }
}

// The holder has no neighbours.
fn part(links: &mut Links, name: &Record, txn: u64)
    ensures before { (r : Record) (t : ℕ) → before_at links.new r t ≡ (if holder_eq (holder name.now txn) (holder r t) then
        None else before_at links.old r t) }
    ensures behind { (r : Record) (t : ℕ) → behind_at links.new r t ≡ (if holder_eq (holder name.now txn) (holder r t) then
        None else behind_at links.old r t) }
    ensures room { spare links.old ≤ spare links.new }
{
    links.swap_remove(&Holder { name: *name, txn });
}

// The holder stands between these. One that stands alone takes no room.
fn stand(links: &mut Links, name: &Record, txn: u64, between: Neighbours)
    requires room { get holder_eq links.old (holder name.now txn) ≡ None → 0 < spare links.old }
    ensures before { (r : Record) (t : ℕ) → before_at links.new r t ≡ (if holder_eq (holder name.now txn) (holder r t) then
        between.before else before_at links.old r t) }
    ensures behind { (r : Record) (t : ℕ) → behind_at links.new r t ≡ (if holder_eq (holder name.now txn) (holder r t) then
        between.behind else behind_at links.old r t) }
    ensures room { spare links.old ≤ spare links.new + 1 }
{
    if between.before.is_none() && between.behind.is_none() {
        part(links, name, txn);
        return;
    }
    match links.insert(Holder { name: *name, txn }, between) {
        Ok(_before) => {}
        Err(_) => unreachable!(),
    }
}

// Behind the one holder, where there is one, stands the other.
fn follow(links: &mut Links, name: &Record, at: Option<u64>, behind: Option<u64>)
    requires room { (t : ℕ) → at ≡ Some t → get holder_eq links.old (holder name.now t) ≡ None → 0 < spare links.old }
    ensures before { (r : Record) (t : ℕ) → before_at links.new r t ≡ before_at links.old r t }
    ensures behind { (r : Record) (t : ℕ) → behind_at links.new r t ≡ (if is_at at name.now r t then behind else behind_at links.old r t) }
    ensures room { spare links.old ≤ spare links.new + 1 }
{
    if let Some(txn) = at {
        let before = beside(links, name, txn).before;
        stand(links, name, txn, Neighbours { before, behind });
    }
}

// Before the one holder, where there is one, stands the other.
fn precede(links: &mut Links, name: &Record, at: Option<u64>, before: Option<u64>)
    requires room { (t : ℕ) → at ≡ Some t → get holder_eq links.old (holder name.now t) ≡ None → 0 < spare links.old }
    ensures before { (r : Record) (t : ℕ) → before_at links.new r t ≡ (if is_at at name.now r t then before else before_at links.old r t) }
    ensures behind { (r : Record) (t : ℕ) → behind_at links.new r t ≡ behind_at links.old r t }
    ensures room { spare links.old ≤ spare links.new + 1 }
{
    if let Some(txn) = at {
        let behind = beside(links, name, txn).behind;
        stand(links, name, txn, Neighbours { before, behind });
    }
}

// The greatest holder below this number. As numbers rise it is the last one.
fn last_below(links: &Links, name: &Record, ends: Ends, txn: u64) -> Option<u64>
    requires row { (p : ℕ → Bool) × IsRowOf p ends.first ends.last links.now name.now }
    ensures { (p : ℕ → Bool) → IsRowOf p ends.first ends.last links.now name.now → p txn ≡ false → IsPrevious p txn result }
{
    let mut holder = ends.last;
    'holders: while holder >= txn {
        match beside(links, name, holder).before {
            Some(before) => holder = before,
            None => return None,
        }
    }
    Some(holder)
}

// The holder behind this one; behind none stands the first.
fn first_behind(links: &Links, name: &Record, ends: Ends, before: Option<u64>) -> Option<u64>
    ensures { (p : ℕ → Bool) (t : ℕ) → IsRowOf p ends.first ends.last links.now name.now → p t ≡ false → IsPrevious p t before → IsNext p t result }
{
    match before {
        Some(holder) => beside(links, name, holder).behind,
        None => Some(ends.first),
    }
}

/// A transaction that holds the record from now on stands in its row.
#[inline(always)]
pub(crate) fn enter(links: &mut Links, name: &Record, ends: Ends, txn: u64) -> Ends
    requires row { (p : ℕ → Bool) × IsRowOf p ends.first ends.last links.old name.now × (p txn ≡ false) }
    requires room { 3 ≤ spare links.old }
    ensures row { (p : ℕ → Bool) → IsRowOf p ends.first ends.last links.old name.now → p txn ≡ false →
        IsRowOf (with_txn p txn) result.first result.last links.new name.now }
    ensures before { (r : Record) → record_eq name.now r ≡ false → before_at links.new r ≡ before_at links.old r }
    ensures behind { (r : Record) → record_eq name.now r ≡ false → behind_at links.new r ≡ behind_at links.old r }
    ensures room { spare links.old ≤ spare links.new + 3 }
{
    let before = last_below(links, name, ends, txn);
    let behind = first_behind(links, name, ends, before);
    follow(links, name, before, Some(txn));
    precede(links, name, behind, Some(txn));
    stand(links, name, txn, Neighbours { before, behind });
    Ends {
        first: txn.min(ends.first),
        last: txn.max(ends.last),
    }
}

// The end of a row that a holder leaves: the next one inwards, where none stood further out than that.
fn end_left(end: u64, outwards: Option<u64>, inwards: Option<u64>) -> u64
    ensures { result ≡ end_left end outwards inwards }
{
    match (outwards, inwards) {
        (None, Some(next)) => next,
        _ => end,
    }
}

/// A transaction that is one of several holders of the record stands in its row no longer.
#[inline(always)]
pub(crate) fn leave(links: &mut Links, name: &Record, ends: Ends, txn: u64) -> Ends
    requires row { (p : ℕ → Bool) × IsRowOf p ends.first ends.last links.old name.now × (p txn ≡ true) }
    requires several { ends.first ≢ ends.last }
    ensures row { (p : ℕ → Bool) → IsRowOf p ends.first ends.last links.old name.now → p txn ≡ true →
        IsRowOf (without_txn p txn) result.first result.last links.new name.now }
    ensures before { (r : Record) → record_eq name.now r ≡ false → before_at links.new r ≡ before_at links.old r }
    ensures behind { (r : Record) → record_eq name.now r ≡ false → behind_at links.new r ≡ behind_at links.old r }
{
    let Neighbours { before, behind } = beside(links, name, txn);
    follow(links, name, before, behind);
    precede(links, name, behind, before);
    part(links, name, txn);
    Ends {
        first: end_left(ends.first, before, behind),
        last: end_left(ends.last, behind, before),
    }
}
