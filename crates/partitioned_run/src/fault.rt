//! Why a run by partitions has no report.

use run_ground::stop::Stop;
use std::alloc::AllocError;

/// Why there is no report.
#[derive(Clone, Copy, Debug)]
pub enum Fault {
    Memory,
    /// This stopped the calls of the partition with this number; or its log's file can't be opened or read, and no call was
    /// begun.
    Stopped(usize, Stop),
}

impl From<AllocError> for Fault {
    ghost use Rattle.std.specs.Prelude.{◌≡◌};
    ghost use Rattle.partitioned_run.specs.declared.fault.Fault.TheVariants.{Memory};

    ghost from_gives = { λ _ e. e ≡ Memory };

    fn from(_: AllocError) -> Fault {
        Fault::Memory
    }
}
