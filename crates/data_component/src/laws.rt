//! What a component that has forgotten operations still says, as functions that do nothing: each is a
//! law, told by its contract.

ghost use Rattle.std.specs.Prelude.{◌≡◌, ◌<◌, ℕ, true, length};
ghost use Rattle.access_slots.specs.declared.op.Wire.{Wire};
ghost use Rattle.data_component.specs.Store.{Store, replied, performed, checkpointed, restarted, heard, may_forget, HasForgotten};
ghost use Rattle.data_component.specs.Shortened.{IsShortOf};

/// A component that forgets is the same one without its oldest operations.
#[tactic(auto, using(crate::proofs::Shortening::forgotten_short))]
pub fn forgetting_shortens()
    ensures { (s t : Store) → may_forget s ≡ true → HasForgotten s t → IsShortOf s t }
{}

/// To each wire the short one replies what the long one replies, where that has room for a further
/// operation; and so they go on.
#[tactic(auto, using(crate::proofs::Shortening::replies_same, crate::proofs::Shortening::performed_short))]
pub fn forgetting_changes_no_reply()
    ensures replies { (long short : Store) → IsShortOf long short → length long.list < long.ops → (w : Wire) → replied short w ≡ replied long w }
    ensures goes_on { (long short : Store) → IsShortOf long short → length long.list < long.ops → (w : Wire)
        → IsShortOf (performed long w) (performed short w) }
{}

/// They also go on alike over checkpoints, restarts and low-water marks.
#[tactic(auto, using(crate::proofs::Shortening::checkpointed_short, crate::proofs::Shortening::restarted_short, crate::proofs::Shortening::heard_short))]
pub fn forgetting_changes_no_restart()
    ensures checkpoint { (long short : Store) → IsShortOf long short → IsShortOf (checkpointed long) (checkpointed short) }
    ensures restart { (long short : Store) → IsShortOf long short → IsShortOf (restarted long) (restarted short) }
    ensures mark { (long short : Store) → IsShortOf long short → (incarnation low_water : ℕ)
        → IsShortOf (heard long incarnation low_water) (heard short incarnation low_water) }
{}
