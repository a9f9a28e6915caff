// Proved examples of definitions of which only premises speak: what each holds of, and what it doesn't.

ghost use Rattle.std.specs.Prelude.{◌<◌, [], ◌∷◌, ◌++◌, ℕ, List};
ghost use Rattle.access_slots.specs.declared.op.Wire.{Wire as WireValue};
ghost use Rattle.history.specs.Flight.{given, low_water};
ghost use Rattle.tc_world.specs.Whole.{Whole};
ghost use Rattle.tc_world.specs.Recovery.{come_back, notes_of};
ghost use Rattle.tc_world.specs.Lives.{HasLived};
ghost use Rattle.tc_world.specs.Ahead.{Written, all_written};
ghost use Rattle.tc_world.specs.declared.step.Step.{Step as StepValue};
ghost use Rattle.tc_world.specs.declared.step.Step.TheVariants as step;
ghost use Rattle.succession.specs.More.{with_more};
ghost use Rattle.succession.specs.Side.{Happening, TakesOver as IsOver, Arrives, Happens};
ghost use Rattle.tc_world.specs.Examples.{empty_world};
ghost use Rattle.tc_world.specs.Ahead.{Tells, Killed};
ghost use Rattle.succession.specs.Reigns.{GoesOn, Rules, TakesOver, Reigns};

/// Another may take over at any time, from one that does nothing more, and then a further one. One that was
/// superseded carries no wire whose number, or whose mark, isn't in what was written; and what a data component does
/// is no step of it.
pub fn former_ones()
    ensures at_once { (p : Written) (w : Whole) → Reigns (TakesOver [] [] ∷ []) p w p (come_back p.events p.notes w) }
    ensures twice { (p : Written) (w : Whole)
        → Reigns (Rules (Killed ∷ []) ∷ TakesOver [] [] ∷ TakesOver [] [] ∷ []) p w p
        (come_back p.events p.notes (come_back p.events p.notes (come_back p.events p.notes w))) }
    ensures begun { (n rows ops : ℕ) → Tells (all_written (empty_world n rows ops)) (empty_world n rows ops) }
    ensures unwritten { (p : Written) (w v : Whole) (x : StepValue) (late : WireValue) (xs : List WireValue)
        → GoesOn ((x, late ∷ xs) ∷ []) p w v → given p.events < late.number → ⊥ }
    ensures unanswered { (p : Written) (w v : Whole) (x : StepValue) (late : WireValue) (xs : List WireValue)
        → GoesOn ((x, late ∷ xs) ∷ []) p w v → low_water p.events < late.low_water → ⊥ }
    ensures performed { (p : Written) (w v : Whole) (place : ℕ) (xs : List WireValue)
        → GoesOn ((step.Perform place, xs) ∷ []) p w v → ⊥ }
    // Another may take over in each world that has lived; then all wires of the former one come once more, and a
    // third takes over.
    ensures beside { (w : Whole) → HasLived w
        → Happens (IsOver (all_written w) [] ∷ Arrives w.copies ∷ []) [] w (w.copies ++ [])
        (with_more w.copies (come_back w.core.events (notes_of w) w)) }
    ensures beside_twice { (w : Whole) → HasLived w
        → let v = with_more w.copies (come_back w.core.events (notes_of w) w) in
        Happens (IsOver (all_written w) [] ∷ Arrives w.copies ∷ IsOver (all_written w) [] ∷ []) [] w
        (v.copies ++ (w.copies ++ [])) (come_back w.core.events (notes_of w) v) }
    // None comes that no former one may carry.
    ensures strange { (w v : Whole) (x : WireValue) (xs late : List WireValue) (more : List Happening)
        → Happens (Arrives (x ∷ xs) ∷ more) [] w late v → ⊥ }
{}
