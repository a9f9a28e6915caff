//! What stops a run.

ghost use Rattle.std.specs.Prelude.{◌≡◌};
ghost use Rattle.run_ground.specs.Stops.{unkept_of};

use disk_file::FileFault;
use journals::NotKept;
use std::alloc::AllocError;

/// What stops a run, and so why it has no answers, or no report. Tries are looked at before workers.
#[derive(Clone, Copy, Debug)]
pub enum Stop {
    /// G2: the number of tries isn't 1 to 1,000.
    Tries,
    /// G1: the number of workers isn't 1 to 64. No call of the second list was begun, nor one of the first where
    /// `of_manner` was asked.
    Workers,
    /// G4: a worker or a data component has no thread. No call was begun, or none of the second list.
    NoThread,
    Memory,
    /// The log's file can't be opened or read, and why. No call was begun.
    Unread(FileFault),
    /// The log's file can't be written or synced, or what would be cut off from it can't be kept, or its name
    /// isn't its own when the run ends; and why, where the file says it. What it had stands in it, and nothing was
    /// told since.
    NotKept(Option<FileFault>),
}

impl From<AllocError> for Stop {
    ghost use Rattle.std.specs.Prelude.{◌≡◌};
    ghost use Rattle.run_ground.specs.declared.stop.Stop.TheVariants.{Memory};

    ghost from_gives = { λ _ e. e ≡ Memory };

    fn from(_: AllocError) -> Stop {
        Stop::Memory
    }
}

impl Stop {
    /// By a journal that didn't keep what was logged, whose file says this of it.
    pub fn unkept(why: NotKept, failure: Option<FileFault>) -> Stop
        ensures { result ≡ unkept_of why failure }
    {
        match why {
            NotKept::Failed => Stop::NotKept(failure),
            NotKept::Memory => Stop::Memory,
        }
    }
}
