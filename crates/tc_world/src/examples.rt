//! Proved examples of definitions of which only premises speak: what each holds of, and what it doesn't. There is no code here.

ghost use Rattle.std.specs.Prelude.{◌≡◌, ◌≢◌, ℕ, ◌<◌, true, false, List, [], ◌∷◌, map, Some};
ghost use Rattle.access_slots.specs.declared.op.Op.{Op as OpValue};
ghost use Rattle.access_slots.specs.declared.op.Op.TheVariants as op;
ghost use Rattle.access_slots.specs.declared.op.Said.{Said as SaidValue};
ghost use Rattle.access_slots.specs.declared.op.Said.TheVariants as said;
ghost use Rattle.access_slots.specs.declared.op.Wire.{Wire as WireValue};
ghost use Rattle.access_slots.specs.declared.op.Reply.{Reply as ReplyValue};
ghost use Rattle.tc_log.specs.declared.event.Event.{Event as EventValue};
ghost use Rattle.tc_log.specs.declared.event.Event.TheVariants as event;
ghost use Rattle.tc_log.specs.declared.event.Outcome.{Outcome as EndingValue};
ghost use Rattle.history.specs.Flight.{Flight, given, low_water, is_open};
ghost use Rattle.data_component.specs.Performed.{RecordValue};
ghost use Rattle.transactions.specs.InFlight.{InFlight, site_at};
ghost use Rattle.tc_core.specs.Recovery.{site_noted};
ghost use Rattle.tc_core.specs.declared.recovery.SiteNote.{SiteNote};
ghost use Rattle.tc_core.specs.declared.recovery.SiteNote.TheVariants.{Restarted};
ghost use Rattle.tc_world.specs.Whole.{Whole};
ghost use Rattle.tc_world.specs.Marks.{IsFresh};
ghost use Rattle.tc_world.specs.OneAtATime.{is_forge, EachIsKnown};
ghost use Rattle.tc_world.specs.Recovery.{IsWrittenFor, IsNoted, IsWritten, MayCrash};
ghost use Rattle.tc_world.specs.Lives.{HasLived};
ghost use Rattle.tc_world.specs.Examples.{empty_world, down_site, upped_world};
ghost use Rattle.tc_world.specs.declared.step.Step.TheVariants as step;

/// A world to which nothing has happened is fresh, has lived, and each data component is known in it. One in which a wire was sent, a
/// call was admitted or a data component is down isn't fresh, and none has lived whose log isn't legal.
pub fn worlds_that_live()
    ensures fresh { (n rows ops : ℕ) → IsFresh (empty_world n rows ops) }
    ensures lived { (n rows ops : ℕ) → HasLived (empty_world n rows ops) }
    ensures known { (n rows ops : ℕ) → EachIsKnown (empty_world n rows ops) }
    ensures sent { (w : Whole) (x : WireValue) (xs : List WireValue) → w.copies ≡ x ∷ xs → IsFresh w → ⊥ }
    ensures admitted { (w : Whole) → w.core.events ≡ event.Admit 1 0 [] ∷ [] → IsFresh w → ⊥ }
    ensures down { (w : Whole) → w.core.sites ≡ down_site ∷ [] → IsFresh w → ⊥ }
    ensures unlived { (w : Whole) (o : EndingValue) → w.core.events ≡ event.End 1 o ∷ [] → HasLived w → ⊥ }
{}

/// An operation is in flight once it was asked, under its own number alone, until it is answered; while its data component is down it
/// isn't, but one that was done is while it is redone.
pub fn flights()
    ensures asked { (o : OpValue) → InFlight (event.Ask 1 1 o ∷ []) [] 1 (record { txn = 1; op = o }) }
    ensures other { (o : OpValue) (f : Flight) → InFlight (event.Ask 1 1 o ∷ []) [] 2 f → ⊥ }
    ensures answered { (o : OpValue) (s : SaidValue) (f : Flight) → InFlight (event.Answer 1 1 s ∷ event.Ask 1 1 o ∷ []) [] 1 f → ⊥ }
    ensures down { (table key : ℕ) (f : Flight) → let o = op.Delete (record { dc = 0; table = table; key = key }) in
        InFlight (event.Ask 1 1 o ∷ []) (down_site ∷ []) 1 f → ⊥ }
    ensures redone { (table key : ℕ) (former : RecordValue) → let o = op.Delete (record { dc = 0; table = table; key = key }) in
        InFlight (event.Answer 1 1 (said.Done former) ∷ event.Ask 1 1 o ∷ []) (down_site ∷ []) 1 (record { txn = 1; op = o }) }
{}

/// A world to which nothing has happened may crash, from no event. None may where the written events lack a number that a wire, a reply
/// or a data component has, or an answer that a mark or a redo rests on; nor where another incarnation was noted than is known. That
/// a redo is over needn't be noted before anything but the redo was sent.
pub fn crashes()
    ensures may { (n rows ops : ℕ) → MayCrash 0 (empty_world n rows ops) }
    ensures number { (first : List EventValue) (x : WireValue) → given first < x.number → IsWrittenFor first x → ⊥ }
    ensures mark { (first : List EventValue) (x : WireValue) → low_water first < x.low_water → IsWrittenFor first x → ⊥ }
    ensures open { (first : List EventValue) (x : WireValue) → x.redo ≡ true → is_open first x.number ≡ true → IsWrittenFor first x → ⊥ }
    ensures wire { (first : List EventValue) (notes : List SiteNote) (w : Whole) (x : WireValue) (xs : List WireValue) → w.copies ≡ x ∷ xs
        → (IsWrittenFor first x → ⊥) → IsWritten first notes w → ⊥ }
    ensures reply { (first : List EventValue) (notes : List SiteNote) (w : Whole) (x : ReplyValue) (xs : List ReplyValue)
        → w.replies ≡ x ∷ xs → given first < x.number → IsWritten first notes w → ⊥ }
    ensures noted { (first : List EventValue) (notes : List SiteNote) (w : Whole) (d : ℕ)
        → (site_at (map site_noted notes) d).incarnation ≢ (site_at w.core.sites d).incarnation → IsWritten first notes w → ⊥ }
    ensures not_yet { (rows ops : ℕ) → IsWritten [] (Restarted (record { incarnation = 1; mark = 0 }) ∷ []) (upped_world rows ops) }
{}

/// A forged reply is a forgery, and nothing else is.
pub fn forgeries()
    ensures forged { (x : ReplyValue) → is_forge (step.Forge x) ≡ true }
    ensures restart { (d : ℕ) → is_forge (step.Restart d) ≡ false }
    ensures crash { (events : ℕ) → is_forge (step.Crash events) ≡ false }
    ensures cut { is_forge step.Cut ≡ false }
    ensures perform { (i : ℕ) → is_forge (step.Perform i) ≡ false }
    ensures take { (i : ℕ) → is_forge (step.Take i) ≡ false }
    ensures tell { (i : ℕ) → is_forge (step.Tell i) ≡ false }
    ensures redo { (d : ℕ) → is_forge (step.Redo d) ≡ false }
{}
