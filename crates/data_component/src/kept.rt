//! Where the numbers above the mark stand in the list of what was performed, sorted by number.

ghost use Rattle.std.specs.Prelude.{◌≡◌, ◌<◌, ◌≤◌, List, true, None, length, vec_capacity};
ghost use Rattle.std.specs.List.{insert};
ghost use Rattle.data_component.specs.Keeping.{AreKept};
ghost use Rattle.data_component.specs.Performed.{Performed};
ghost use Rattle.data_component.specs.Sorted.{place_of, kept_place, SortedKept};

/// A number and its place in the list.
pub(crate) type Kept = (u64, usize);

// Whether all entries are of lesser numbers.
fn is_greatest(kept: &[Kept], number: u64) -> bool
    requires { SortedKept kept.now }
    ensures { result ≡ true → kept_place kept.now number ≡ length kept.now }
{
    match kept.last() {
        Some(last) => last.0 < number,
        None => true,
    }
}

// How many entries are of lesser numbers. Numbers mostly come as they rise, so the last entry is looked at
// first.
fn count_before(kept: &[Kept], number: u64) -> usize
    requires { SortedKept kept.now }
    ensures value { result ≡ kept_place kept.now number }
    ensures few { result ≤ length kept.now }
{
    if is_greatest(kept, number) {
        return kept.len();
    }
    kept.partition_point(|entry| entry.0 < number)
}

/// The number's place, if it is kept.
#[tactic(auto, using(crate::proofs::Remembering::found_there, crate::proofs::Remembering::missing_there, crate::proofs::Remembering::none_there))]
pub(crate) fn place_of(kept: &[Kept], number: u64) -> Option<usize>
    requires { SortedKept kept.now }
    ensures { result ≡ place_of kept.now number }
{
    let at = count_before(kept, number);
    if at >= kept.len() {
        return None;
    }
    if kept[at].0 == number {
        Some(kept[at].1)
    } else {
        None
    }
}

/// One number more, where there is room for it.
pub(crate) fn keep(kept: &mut Vec<Kept>, number: u64, place: usize)
    requires sorted { SortedKept kept.old.items }
    requires room { length kept.old.items < vec_capacity kept.old }
    ensures items { kept.new.items ≡ insert kept.old.items (kept_place kept.old.items number) (number, place) }
    ensures capacity { vec_capacity kept.new ≡ vec_capacity kept.old }
{
    let at = count_before(kept.as_slice(), number);
    if at == kept.len() {
        kept.push_reserved((number, place));
        return;
    }
    match kept.insert(at, (number, place)) {
        Ok(()) => {}
        Err(_) => unreachable!(),
    }
}

// So few entries aren't worth a look for old ones.
const FEW: usize = 128;

/// Leaves out the entries at or under the mark, which nobody looks up, where they are half of all or more and
/// all are many.
pub(crate) fn leave_out_old(kept: &mut Vec<Kept>, mark: u64)
    ensures kept { (performed : List Performed) → AreKept kept.old.items mark performed → AreKept kept.new.items mark performed }
    ensures capacity { vec_capacity kept.new ≡ vec_capacity kept.old }
{
    let half = kept.len() / 2;
    if half < FEW || kept[half].0 > mark {
        return;
    }
    kept.retain(|entry| entry.0 > mark);
}
