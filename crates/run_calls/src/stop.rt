//! What stops a run, by how it is run and by what a list of calls came to, and its report then.

ghost use Rattle.std.specs.Prelude.{◌≡◌, Bool, IfOk, IfSome, None, Some, string_bytes};
ghost use Rattle.worker_pool.specs.Faults.{InRange};
ghost use Rattle.run_calls.specs.Stops.{Stops, IsOutOfRange};
ghost use Rattle.run_calls.specs.AnswerLines.{fault_line};
ghost use Rattle.run_calls.specs.Joining.Stopping.{stop_of};

use crate::answer_lines::fault_line;
use crate::answering::Manner;
use disk_file::FileFault;
use report_texts::output::Output;
use run_ground::stop::Stop;
use std::alloc::{AllocError, Global};
use worker_pool::{MOST_TRIES, MOST_WORKERS, RunFault};

/// Why calls that are to be run in this manner aren't begun, if that is so by its numbers.
pub fn of_manner(manner: Manner) -> Option<Stop>
    ensures unfit { (keeps : Bool) → IfSome result (Stops keeps manner.workers manner.tries) }
    ensures which { IfSome result (IsOutOfRange manner.workers manner.tries) }
    ensures fit { result ≡ None → InRange manner.workers manner.tries }
{
    if !(1..=MOST_TRIES).contains(&manner.tries) {
        Some(Stop::Tries)
    } else if !(1..=MOST_WORKERS as u64).contains(&manner.workers) {
        Some(Stop::Workers)
    } else {
        None
    }
}

/// What stopped the run of a list of calls, whose journal's file says this of it; the state that it hands back
/// goes.
pub(crate) fn stop_of(fault: RunFault, failure: Option<FileFault>) -> Stop
    ensures { result ≡ stop_of fault failure }
{
    let stop = match &fault {
        RunFault::Workers(_) => Stop::Workers,
        RunFault::Tries(_) => Stop::Tries,
        RunFault::Memory(_) => Stop::Memory,
        RunFault::NoThread(_) => Stop::NoThread,
        RunFault::NotKept(why, _) => Stop::unkept(*why, failure),
    };
    drop(fault.into_state());
    stop
}

/// The report of calls none of which was begun.
pub fn stopped(alloc: Global, stop: Stop) -> Result<Output, AllocError>
    ensures lines { IfOk result (λ r. fault_line stop ≡ Some (string_bytes r.lines)) }
    ensures status { IfOk result (λ r. r.status ≡ 1) }
{
    let line = fault_line(stop).ok_or(AllocError)?;
    Ok(Output {
        status: 1,
        lines: String::from_str(alloc, line)?,
        notes: None,
    })
}
