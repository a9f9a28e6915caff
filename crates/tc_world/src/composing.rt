//! A log that was truncated, and the whole one. There is no code here but the laws, as functions that do
//! nothing.
//!
//! ```text
//! -- in a proof file: the records with which a world begins behind a cut
//! use Rattle.tc_world.proofs.ComposedLemmas.{cut_leaves}
//! ```

ghost use Rattle.std.specs.Prelude.{◌≡◌, ◌++◌, List};
ghost use Rattle.access_slots.specs.declared.slot.Record.{Record as RecordValue};
ghost use Rattle.tc_log.specs.declared.event.Event.{Event as EventValue};
ghost use Rattle.serial.specs.Serial.{serial_from, EndsAsSerialFrom};
ghost use Rattle.serial.specs.Audit.{base_of};
ghost use Rattle.tc_world.specs.Whole.{Whole};
ghost use Rattle.tc_world.specs.Steps.{Steps};
ghost use Rattle.tc_world.specs.Lives.{HasLived};
ghost use Rattle.tc_world.specs.declared.step.Step.TheVariants as step;
ghost use Rattle.tc_world.specs.declared.step.Outcome.{Outcome as OutcomeValue};

/// In a world that has lived, a cut leaves just what its calls left, run one after another: these are the
/// records with which data components begin. So whatever is logged behind the cut, the calls of the whole
/// log ended as they do one after another where those of the short log did, and leave the same.
pub fn cuts_compose()
    ensures leaves { (w v : Whole) (o : OutcomeValue) → HasLived w → Steps w step.Cut o v → (r : RecordValue)
        → base_of v.dcs r ≡ serial_from w.core.procs (base_of w.dcs) w.core.events r }
    ensures ends { (w v : Whole) (o : OutcomeValue) → HasLived w → Steps w step.Cut o v → (later : List EventValue)
        → EndsAsSerialFrom v.core.procs (base_of v.dcs) (later ++ v.core.events)
        → EndsAsSerialFrom w.core.procs (base_of w.dcs) (later ++ w.core.events) }
    ensures values { (w v : Whole) (o : OutcomeValue) → HasLived w → Steps w step.Cut o v → (later : List EventValue) (r : RecordValue)
        → serial_from v.core.procs (base_of v.dcs) (later ++ v.core.events) r ≡ serial_from w.core.procs (base_of w.dcs) (later ++ w.core.events) r }
{}
