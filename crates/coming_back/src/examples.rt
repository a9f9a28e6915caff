//! Proved examples of which logs are of which rows, and of which worlds. There is no code here.

ghost use Rattle.std.specs.Prelude.{◌≢◌, ℕ, List, [], ◌∷◌, None};
ghost use Rattle.access_slots.specs.declared.slot.Record.{Record as RecordValue};
ghost use Rattle.access_slots.specs.declared.op.Op.TheVariants as op;
ghost use Rattle.access_slots.specs.declared.op.Said.TheVariants as said;
ghost use Rattle.tc_log.specs.declared.event.Event.{Event as EventValue};
ghost use Rattle.tc_log.specs.declared.event.Event.TheVariants as event;
ghost use Rattle.data_component.specs.Store.{Store, empty};
ghost use Rattle.tc_core.specs.Core.{Core};
ghost use Rattle.serial.specs.Audit.{base_of};
ghost use Rattle.tc_world.specs.Whole.{Whole};
ghost use Rattle.tc_world.specs.Examples.{empty_world};
ghost use Rattle.coming_back.specs.Coming.{IsOfRows, ComesFrom};

/// A log in which a record was inserted, and that was Done, is one of an empty data component; one in which there was such a record
/// already isn't, nor is it one of no data component.
pub fn logs_of_rows()
    ensures nothing { (rows ops : ℕ) → IsOfRows [] (empty rows ops ∷ []) }
    ensures inserted { (table key rows ops : ℕ) (v : List ℕ) → let o = op.Insert (record { dc = 0; table = table; key = key }) v in
        IsOfRows (event.Answer 1 1 (said.Done None) ∷ event.Ask 1 1 o ∷ []) (empty rows ops ∷ []) }
    ensures there_already { (table key rows ops : ℕ) (v : List ℕ)
        → let o = op.Insert (record { dc = 0; table = table; key = key }) v in
        IsOfRows (event.Answer 1 1 said.Duplicate ∷ event.Ask 1 1 o ∷ []) (empty rows ops ∷ []) → ⊥ }
    ensures nowhere { (table key : ℕ) (v : List ℕ) → let o = op.Insert (record { dc = 0; table = table; key = key }) v in
        IsOfRows (event.Answer 1 1 (said.Done None) ∷ event.Ask 1 1 o ∷ []) [] → ⊥ }
{}

/// The empty log comes from a world in which nothing has happened, and that world's data components stand for themselves. None comes from a
/// world whose data components began with other records.
pub fn logs_of_worlds()
    ensures nothing { (rows ops : ℕ) → let w = empty_world 1 rows ops in ComesFrom w [] w.core w.dcs }
    ensures others { (w : Whole) (h : List EventValue) (c : Core) (dcs : List Store) (r : RecordValue) → base_of dcs r ≢ base_of w.dcs r
        → ComesFrom w h c dcs → ⊥ }
{}
