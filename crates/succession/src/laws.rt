// Laws of transaction components in succession.

ghost use Rattle.std.specs.Prelude.{◌≡◌, ◌≢◌, [], ◌∷◌, ℕ, List, true, false};
ghost use Rattle.std.specs.List.{All};
ghost use Rattle.access_slots.specs.Locks.{allows, target, is_read, conflict};
ghost use Rattle.access_slots.specs.declared.op.Wire.{Wire as WireValue};
ghost use Rattle.history.specs.Calls.{held_for, call_of};
ghost use Rattle.history.specs.Flight.{Flight};
ghost use Rattle.history.specs.Places.{Begins};
ghost use Rattle.transactions.specs.InFlight.{InFlight};
ghost use Rattle.transactions.specs.Legal.{Legal};
ghost use Rattle.transactions.specs.Reached.{decls};
ghost use Rattle.tc_world.specs.Whole.{Whole};
ghost use Rattle.serial.specs.Audit.{IsAgreed};
ghost use Rattle.tc_world.specs.Marks.{AreMarksLow};
ghost use Rattle.tc_world.specs.OneAtATime.{EachIsKnown, IsOneAtATime};
ghost use Rattle.succession.specs.Side.{Happening, Happens};
ghost use Rattle.tc_world.specs.Recovery.{IsWrittenFor, come_back};
ghost use Rattle.tc_world.specs.Lives.{left_with, HasLived};
ghost use Rattle.tc_world.specs.Ahead.{Written, Tells};
ghost use Rattle.tc_world.specs.declared.step.Step.{Step as StepValue};
ghost use Rattle.engine_recovery.specs.Engine.{TakesInMemory};
ghost use Rattle.tc_world.specs.Steps.{Steps};
ghost use Rattle.tc_world.specs.declared.step.Step.TheVariants as step;
ghost use Rattle.tc_world.specs.declared.step.Outcome.{Outcome as OutcomeValue};
ghost use Rattle.succession.specs.More.{StepsWith};
ghost use Rattle.succession.specs.Reigns.{GoesOn, Reign, Reigns, NoneCut};
ghost use Rattle.succession.specs.Effect.{TakesEffect};

/// However often another takes over, and whatever those before it still do: the log of the one of now is
/// legal, its calls run one at a time, what was written tells of all that was carried, and so the next
/// one can take over from that.
pub fn successors_go_on()
    ensures lived { (reigns : List Reign) (p q : Written) (w v : Whole) → HasLived w → Tells p w
        → Reigns reigns p w q v → HasLived v }
    ensures told { (reigns : List Reign) (p q : Written) (w v : Whole) → HasLived w → Tells p w
        → Reigns reigns p w q v → Tells q v }
    ensures legal { (reigns : List Reign) (p q : Written) (w v : Whole) → HasLived w → Tells p w → Reigns reigns p w q v
        → Legal v.core.procs v.core.events }
    ensures one_at_a_time { (reigns : List Reign) (p q : Written) (w v : Whole) → HasLived w → Tells p w
        → Reigns reigns p w q v
        → IsOneAtATime v }
    // What was written stays until the log is cut, so all of which anybody was told after it was written. Who takes
    // over has just that log.
    ensures kept { (reigns : List Reign) (p q : Written) (w v : Whole) → NoneCut reigns → Reigns reigns p w q v
        → Begins p.events q.events }
    ensures log { (p : Written) (w : Whole) → (come_back p.events p.notes w).core.events ≡ p.events }
    // A former one leaves data components, replies and news as they were: there are more wires on their way, that is
    // all, and what was written tells of each.
    ensures late { (turns : List (StepValue × List WireValue)) (steps : List StepValue) (p : Written)
        (w late last : Whole) → HasLived w → Tells p w
        → GoesOn turns p w late → TakesInMemory steps late last
        → (come_back p.events p.notes last ≡ left_with late.copies w.replies w.news (come_back p.events p.notes w))
        × All (IsWrittenFor p.events) late.copies }
{}

/// What takes effect at a data component, whoever sent it, is in flight in the log of the one of now, and covered
/// by its transaction's locks there; so no two such operations conflict.
pub fn what_takes_effect_is_in_flight()
    ensures flies { (w : Whole) (x : WireValue) → HasLived w → TakesEffect w x
        → (f : Flight) × (f.op ≡ x.op) × InFlight w.core.events w.core.sites x.number f }
    ensures covered { (w : Whole) (x : WireValue) → HasLived w → TakesEffect w x
        → (f : Flight) × InFlight w.core.events w.core.sites x.number f
        × (allows (held_for (decls w.core.procs) (call_of w.core.events f.txn) (target x.op)) (is_read x.op) ≡ true) }
    ensures none_conflict { (w : Whole) (x y : WireValue) → HasLived w → TakesEffect w x → TakesEffect w y
        → x.number ≢ y.number
        → conflict x.op y.op ≡ false }
{}

/// Further wires on their way change no step: each but a crash is possible with them too, and leaves the same state,
/// data components, replies and news. So it is the same whether a wire of a former one counts as carried from the
/// take-over on, or from later.
pub fn further_wires_change_no_step()
    ensures { (xs : List WireValue) (w v : Whole) (x : StepValue) (o : OutcomeValue)
        → ((events : ℕ) → x ≢ step.Crash events)
        → Steps w x o v → StepsWith xs w v x }
{}

/// Whatever happens, in any order: the one of now takes steps, messages are lost, former ones carry what they may at
/// any time from when they were superseded, go on with a redo on replies that come by then, and again another takes
/// over. The log of the one of now is legal, its marks are low, and its calls run one at a time.
pub fn former_ones_do_no_harm()
    ensures legal { (all : List Happening) (late : List WireValue) (w v : Whole) → HasLived w → Happens all [] w late v
        → Legal v.core.procs v.core.events }
    ensures marks { (all : List Happening) (late : List WireValue) (w v : Whole) → HasLived w
        → Happens all [] w late v → AreMarksLow v }
    ensures one_at_a_time { (all : List Happening) (late : List WireValue) (w v : Whole) → HasLived w
        → Happens all [] w late v
        → IsOneAtATime v }
    ensures agreed { (all : List Happening) (late : List WireValue) (w v : Whole) → HasLived w → Happens all [] w late v
        → EachIsKnown v → IsAgreed v.core.procs v.core.events v.dcs }
    ensures flies { (all : List Happening) (late : List WireValue) (w v : Whole) (x : WireValue) → HasLived w
        → Happens all [] w late v
        → TakesEffect v x → (f : Flight) × (f.op ≡ x.op) × InFlight v.core.events v.core.sites x.number f }
    ensures none_conflict { (all : List Happening) (late : List WireValue) (w v : Whole) (x y : WireValue) → HasLived w
        → Happens all [] w late v → TakesEffect v x → TakesEffect v y → x.number ≢ y.number
        → conflict x.op y.op ≡ false }
{}
