// Data components that keep what they have, and forget it, where the log begins anew.

ghost use Rattle.std.specs.Prelude.{◌≡◌, ℕ, ◌<◌, ◌≤◌, length, true, Some, slice_get, IfOk, IfErr, OnOk, OnErr, IfSome, IfNone};
ghost use Rattle.data_component.specs.Store.{Store, HasForgotten};
ghost use Rattle.history.specs.Flight.{low_water};
ghost use Rattle.transactions.specs.InFlight.{site_at};
ghost use Rattle.tc_world.specs.Joining.Forgetting.{IsForgottenIn};
ghost use Rattle.tc_world.specs.Cutting.{kept_by, marks_from, can_forget, IsUnforgettable, AreForgotten, IsCut, IsUncut};

use crate::step::Illegal;
use data_component::dc::Dc;
use std::alloc::{AllocError, Global};
use tc_core::beginning::CheckpointFault;
use tc_core::state::TcState;

// Whether it has no more records than there may be, and has performed no number above this one.
fn can_forget(dc: &Dc, low_water: u64) -> bool
    ensures { result ≡ can_forget low_water dc.now }
{
    dc.rows().len() <= dc.row_limit() && dc.performed().are_at_most(low_water)
}

// The first data component that can't forget what it has performed.
fn first_unforgettable(dcs: &[Dc], low_water: u64) -> Option<usize>
    ensures found { IfSome result (IsUnforgettable low_water dcs.now) }
    ensures none { IfNone result ((d : ℕ) (s : Store) → slice_get dcs.now d ≡ Some s → can_forget low_water s ≡ true) }
{
    for (d, dc) in dcs.iter().enumerate() {
        if !can_forget(dc, low_water) {
            return Some(d);
        }
    }
    None
}

// The mark that a data component keeps, once it has heard this one.
fn kept_mark(dc: &Dc, incarnation: u64, low_water: u64) -> u64
    ensures { result ≡ (kept_by low_water incarnation dc.now).saved_mark }
{
    if dc.incarnation() == incarnation {
        dc.mark().max(low_water)
    } else {
        dc.mark()
    }
}

// The marks that data components keep, once they have heard the low-water mark.
fn kept_marks(alloc: Global, state: &TcState, dcs: &[Dc]) -> Result<Vec<u64>, AllocError>
    ensures { IfOk result (λ marks. marks.items ≡ marks_from (low_water state.now.events) state.now.sites 0 dcs.now) }
{
    let low_water = state.low_water();
    let mut marks = Vec::with_capacity(alloc, dcs.len())?;
    for d in 0..dcs.len() {
        marks.push(kept_mark(&dcs[d], state.site(d).incarnation, low_water))?;
    }
    Ok(marks)
}

// It hears the mark, keeps what it has, and forgets it.
fn forget(dc: &mut Dc, incarnation: u64, low_water: u64)
    requires fits { can_forget low_water dc.old ≡ true }
    requires kept { low_water ≤ (kept_by low_water incarnation dc.old).saved_mark }
    ensures { HasForgotten (kept_by low_water incarnation dc.old) dc.new }
{
    dc.hear_mark(incarnation, low_water);
    let _mark = dc.checkpoint();
    if !dc.forget() {
        unreachable!()
    }
}

// The one at this place does.
fn forget_at(dcs: &mut Vec<Dc>, d: usize, incarnation: u64, low_water: u64)
    requires there { d < length dcs.old.items }
    requires fits { (s : Store) → slice_get dcs.old.items d ≡ Some s → can_forget low_water s ≡ true }
    requires kept { (s : Store) → slice_get dcs.old.items d ≡ Some s → low_water ≤ (kept_by low_water incarnation s).saved_mark }
    ensures { (s : Store) → slice_get dcs.old.items d ≡ Some s
        → IsForgottenIn (kept_by low_water incarnation s) d dcs.old.items dcs.new.items }
{
    forget(&mut dcs[d], incarnation, low_water)
}

// Each data component hears the low-water mark that there was before the log began anew, keeps what it
// has, and forgets it.
fn forget_all(dcs: &mut Vec<Dc>, state: &TcState, low_water: u64)
    requires fits { (d : ℕ) (s : Store) → slice_get dcs.old.items d ≡ Some s → can_forget low_water s ≡ true }
    requires kept { (d : ℕ) (s : Store) → slice_get dcs.old.items d ≡ Some s
        → low_water ≤ (kept_by low_water (site_at state.now.sites d).incarnation s).saved_mark }
    ensures { AreForgotten low_water state.now.sites dcs.old.items dcs.new.items }
{
    for d in 0..dcs.len() {
        forget_at(dcs, d, state.site(d).incarnation, low_water);
    }
}

/// The log begins anew, where no transaction is open and each data component can forget what it has performed:
/// each keeps what it has, and forgets it but for its rows. Else the first reason is said, and nothing changes.
pub fn cut(alloc: Global, state: &mut TcState, dcs: &mut Vec<Dc>) -> Result<(), Illegal>
    ensures cut { OnOk result (IsCut state.old dcs.old.items state.new dcs.new.items) }
    ensures state { OnErr result (state.new ≡ state.old) }
    ensures dcs { OnErr result (dcs.new.items ≡ dcs.old.items) }
    ensures why { IfErr result (IsUncut state.old dcs.old.items) }
{
    let open = state.open_count();
    if open > 0 {
        return Err(Illegal::NotCut(CheckpointFault::Open(open)));
    }
    let low_water = state.low_water();
    if let Some(dc) = first_unforgettable(dcs.as_slice(), low_water) {
        return Err(Illegal::Unforgettable(dc));
    }
    let marks = kept_marks(alloc, state, dcs.as_slice())?;
    match state.checkpoint(marks.as_slice()) {
        Ok(()) => {}
        Err(fault) => return Err(Illegal::NotCut(fault)),
    }
    forget_all(dcs, state, low_water);
    Ok(())
}
