// Open transactions that nobody answers any more.

ghost use Rattle.std.specs.Prelude.{◌≡◌, Some};
ghost use Rattle.transactions.specs.Legal.{first_undo};
ghost use Rattle.transactions.specs.Next.{next_by};
ghost use Rattle.tc_core.specs.Running.{as_reached, as_next};
ghost use Rattle.tc_core.specs.Joining.Holders.{stuck_by, stands_still};

use crate::transaction::{NextStep, Tx};

fn is_stuck(next: NextStep<'_>) -> bool
    ensures { result ≡ stuck_by (Some (as_next next.entry)) }
{
    matches!(next, NextStep::Stuck(_))
}

impl Tx {
    /// Whether it is in doubt or stuck.
    pub fn is_stranded(&self) -> bool
        ensures { result ≡ stands_still self.now }
    {
        self.in_doubt || is_stuck(self.next())
    }
}
