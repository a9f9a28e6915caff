// What is carried is in flight, and so doesn't conflict with anything else that is.

ghost use Rattle.std.specs.Prelude.{◌≡◌, ℕ};
ghost use Rattle.access_slots.specs.Locks.{target};
ghost use Rattle.access_slots.specs.declared.op.Wire.{Wire as WireValue};
ghost use Rattle.transactions.specs.Legal.{Legal};
ghost use Rattle.tc_core.specs.Core.{Core, Asking};
ghost use Rattle.tc_core.specs.Redo.{redo_reply};
ghost use Rattle.tc_core.specs.declared.state.Redo.{Redo};
ghost use Rattle.worker_pool.specs.Wires.{IsItsOwn, IsInFlight};

/// What a state makes of an open request is in flight in this state; so is what the state gives as what is to be redone
/// next at a data component, and it is that component's.
pub fn carried_is_in_flight()
    ensures own { (c : Core) (r : Asking) (w : WireValue) → Legal c.procs c.events → IsItsOwn c r w → IsInFlight c w }
    ensures redo { (c : Core) (d : ℕ) (w : WireValue) → Legal c.procs c.events → redo_reply c d ≡ Redo.Send w
        → IsInFlight c w × ((target w.op).dc ≡ d) }
{}
