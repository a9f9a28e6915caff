// How proofs name one run.

use std::marker::Brand;

/// The state that is handed to a run, its calls, whether it has a journal, what that had kept before and what
/// it has kept at any time since, and the book of what is handed over to it. Each run picks them.
pub trait RunSpec {
    ghost use Rattle.std.specs.Prelude.{ℕ, Bool, List};
    ghost use Rattle.logbook.specs.Pages.{Book};
    ghost use Rattle.tc_log.specs.declared.event.Event.{Event};
    ghost use Rattle.tc_core.specs.Core.{Core};
    ghost use Rattle.tc_core.specs.declared.state.Call.{Call};

    ghost start: { Core };

    ghost calls: { List Call };

    ghost keeps: { Bool };

    ghost before: { List Event → Type 0 };

    ghost kept: { List Event → Type 0 };

    ghost since: { ℕ };

    ghost past: { ℕ → List ℕ → Type 0 };

    ghost leaves: { List Event → List Event → List ℕ → Type 0 };

    ghost book: { Book };
}

impl RunSpec for Brand {
    ghost use Rattle.std.specs.Prelude.{[], false};

    ghost start = { record { procs = []; names = []; dcs = 0; events = []; given_up = []; sites = [] } };

    ghost calls = { [] };

    ghost keeps = { false };

    ghost before = { λ events. ⊥ };

    ghost kept = { λ events. ⊥ };

    ghost since = { 0 };

    ghost past = { λ t left. ⊥ };

    ghost leaves = { λ before more left. ⊥ };

    ghost book = { record { number = 0; log_name = 0; cells_name = 0 } };
}
