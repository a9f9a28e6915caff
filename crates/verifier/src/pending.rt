//! Kinds that wait for the slots that jumps lead to.

ghost use Rattle.std.specs.Prelude.{◌≡◌, ◌==◌, ◌<◌, ℕ, Some, None, if◌then◌else◌, length, IfOk, IfSome, OnOk, slice_get};
ghost use Rattle.register_kinds.specs.Arriving.{along};
ghost use Rattle.verifier.specs.Joining.Table.{kept};
ghost use Rattle.verifier.specs.Joining.Pending.{mended};

use register_kinds::kinds::Kinds;
use std::alloc::{AllocError, Global};
use std::marker::Model;

// The kinds that came along jumps to this slot.
#[derive(Clone, Copy)]
pub(crate) struct Target {
    slot: usize,
    kinds: Kinds,
}

/// The kinds at slots that are jumped to and aren't reached yet. Contracts see what waits at each
/// slot of the code.
#[derive(Drop)]
pub(crate) struct Pending {
    // For each slot, the place of its target.
    places: Vec<Option<usize>>,
    targets: Vec<Target>,
}

impl Model for Pending {
    ghost use Rattle.verifier.specs.Joining.Table.{Table};
    ghost use Rattle.verifier.specs.Joining.Pending.{table_of, AreTied};

    ghost Value = { Table };

    ghost view = { λ p. table_of p.places.items p.targets.items };

    ghost invariant = { λ p. AreTied p.places.items p.targets.items };
}

impl Pending {
    /// Nothing waits at any of so many slots.
    pub(crate) fn new(alloc: Global, slots: usize) -> Result<Pending, AllocError>
        ensures long { IfOk result (λ p. length p ≡ slots) }
        ensures blank { IfOk result (λ p. (at : ℕ) → kept p at ≡ None) }
    {
        let places = vec![in alloc; None; slots]?;
        Ok(Pending {
            places,
            targets: Vec::new(alloc),
        })
    }

    /// These kinds come along a way to there.
    pub(crate) fn arrive(&mut self, to: Option<usize>, kinds: &Kinds) -> Result<(), AllocError>
        ensures long { length self.new ≡ length self.old }
        ensures ok { OnOk result ((at : ℕ) → at < length self.old → kept self.new at ≡ along to (Some kinds.now) at (kept self.old at)) }
    {
        let Some(slot) = to else {
            return Ok(());
        };
        if slot >= self.places.len() {
            return Ok(());
        }
        match self.places[slot] {
            Some(place) => self.targets[place].kinds.join(kinds),
            None => {
                let place = self.targets.len();
                self.targets.push(Target {
                    slot,
                    kinds: *kinds,
                })?;
                self.places[slot] = Some(place);
            }
        }
        Ok(())
    }

    /// The kinds that wait at the slot, which wait there no more.
    pub(crate) fn take(&mut self, slot: usize) -> Option<Kinds>
        requires { slot < length self.old }
        ensures long { length self.new ≡ length self.old }
        ensures taken { result ≡ kept self.old slot }
        ensures left { (at : ℕ) → kept self.new at ≡ (if at == slot then None else kept self.old at) }
    {
        let place = self.places[slot]?;
        self.places[slot] = None;
        let target = self.targets.swap_remove(place);
        mend(&mut self.places, &self.targets, place);
        Some(target.kinds)
    }
}

// The last target was moved to this place, if it wasn't the one that was taken.
fn mend(places: &mut [Option<usize>], targets: &[Target], place: usize)
    requires { IfSome (slice_get targets.now place) (λ moved. moved.slot < length places.old) }
    ensures { places.new ≡ mended places.old (slice_get targets.now place) place }
{
    if let Some(moved) = targets.get(place) {
        places[moved.slot] = Some(place);
    }
}
