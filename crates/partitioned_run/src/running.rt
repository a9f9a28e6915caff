//! `run --partitions`: the calls of a script by workers, those of each partition apart.

ghost use Rattle.std.specs.Prelude.{◌≡◌, [], length, max, IfOk, IfSome, None, false, is_some, option_map, string_bytes};
ghost use Rattle.scripts.specs.Reading.{contents_of};
ghost use Rattle.scripts.specs.declared.keyword.Command.TheVariants as command;
ghost use Rattle.script_loading.specs.Loading.{beginning_of, first_unverified, begun, empty_stores};
ghost use Rattle.worker_pool.specs.Faults.{InRange};
ghost use Rattle.run_calls.specs.Stops.{Stops};
ghost use Rattle.partitioned_run.specs.Logged.{AreStarts, IsContentsRun, IsPartitionedRun};
ghost use Rattle.partitioned_run.specs.Partitioned.{kept_dcs};
ghost use Rattle.run_calls.specs.Figures.{AreNotes};
ghost use Rattle.partitioned_run.specs.Joining.Dividing.{AreDivided, IsDivided};
ghost use Rattle.partitioned_run.specs.Joining.Reporting.{HaveRun, IsRunSo, MayBeRun};

use crate::answering::answer_partitions;
use crate::dividing::Division;
use crate::fault::Fault;
use crate::grounds::{Start, Task};
pub use crate::recovering::file_of;
use crate::recovering::{front_lines, starts_of};
use crate::reporting::{
    Outcomes, answered_lines, check_names, full_kept, lack_memory, outcomes_of, write_audits,
    write_kept,
};
use data_component::dc::Dc;
use partitions::merged;
use report_texts::output::Output;
use run_calls::answering::{Manner, run_status};
use run_calls::figures::notes_of;
use run_calls::stop::{of_manner, stopped};
use run_calls::watching::{Listeners, Waits};
use run_ground::stop::Stop;
use run_log::recovering::Recovery;
use script_loading::loading::{Acceptance, Accepted, Source, accept_source, empty_dcs};
use scripts::keyword::Command;
use std::alloc::{AllocError, Global};
use std::fs::File;
use std::rt::Files;
use std::sync::Wait;
use std::thread::Threads;
use std::time::Clock;

// The report of calls that were run, behind these lines, and of data components that were empty.
fn reported(
    alloc: Global,
    task: Task,
    front: String,
    empty: &[Dc],
    all: &Outcomes,
) -> Result<Output, AllocError>
    requires divided { AreDivided (contents_of task.script.now) task.division.now }
    requires empty { empty.now ≡ empty_stores (contents_of task.script.now) }
    requires run { HaveRun (is_some task.log) (contents_of task.script.now) task.division.now (string_bytes front) all.now }
    ensures so { IfOk result (λ r. IsRunSo (is_some task.entry.log) (contents_of task.entry.script.now) task.entry.manner.audit task.entry.manner.strict
        r.status (string_bytes r.lines)) }
    ensures full { IfOk result (λ r. AreNotes [] (kept_dcs task.entry.division.now.partitions all.now.grounds.items empty.now) r.notes) }
{
    let division = task.division;
    let first = merged(alloc, division.first.as_slice(), all.first.as_slice())?;
    let calls = merged(alloc, division.calls.as_slice(), all.calls.as_slice())?;
    if lack_memory(first.as_slice(), calls.as_slice()) {
        return Err(AllocError);
    }
    let mut lines = answered_lines(alloc, front, first.as_slice(), calls.as_slice())?;
    let grounds = all.grounds.as_slice();
    write_kept(alloc, &division.partitions, grounds, empty, &mut lines)?;
    let sound = write_audits(alloc, task.manner.audit, grounds, &mut lines)?;
    let full = full_kept(alloc, &division.partitions, grounds, empty)?;
    Ok(Output {
        status: run_status(task.manner.strict, calls.as_slice(), sound),
        lines,
        notes: notes_of(alloc, full, &[])?,
    })
}

// The same, where each file that keeps a log still has its name.
fn reported_if_named<F: Files<File = File>>(
    rt: &F,
    alloc: Global,
    task: Task,
    front: String,
    all: &Outcomes,
) -> Result<Output, Fault>
    requires divided { AreDivided (contents_of task.script.now) task.division.now }
    requires run { HaveRun (is_some task.log) (contents_of task.script.now) task.division.now (string_bytes front) all.now }
    ensures { IfOk result (λ r. IsRunSo (is_some task.entry.log) (contents_of task.entry.script.now) task.entry.manner.audit task.entry.manner.strict
        r.status (string_bytes r.lines)) }
{
    if let Some(log) = task.log {
        check_names(rt, alloc, log, all.grounds.as_slice())?;
    }
    let empty = empty_dcs(alloc, task.script.dcs.as_slice())?;
    Ok(reported(alloc, task, front, empty.as_slice(), all)?)
}

// Runs the calls of a script, which are so divided, by what each partition goes on from.
fn run_started<R: Files<File = File> + Clock + Threads + Wait + Sync>(
    rt: &R,
    alloc: Global,
    task: Task,
    starts: Vec<Start>,
) -> Result<Output, Fault>
    requires divided { IsDivided (option_map (λ file. file.now) task.object) task.script.now task.division.now }
    requires each { length starts.items ≡ max (length task.script.now.dcs.items) 1 }
    requires starts { AreStarts (is_some task.log) (begun (contents_of task.script.now)) (empty_stores (contents_of task.script.now))
        task.division.now.partitions starts.items }
    ensures { InRange task.entry.manner.workers task.entry.manner.tries → IfOk result (λ r. IsContentsRun (is_some task.entry.log)
        (contents_of task.entry.script.now) task.entry.manner.workers task.entry.manner.tries task.entry.manner.audit task.entry.manner.strict
        r.status (string_bytes r.lines)) }
{
    let front = match front_lines(alloc, starts.as_slice()) {
        Ok(front) => front,
        Err(error) => {
            drop(starts);
            return Err(Fault::from(error));
        }
    };
    let ran = answer_partitions(rt, alloc, task, starts)?;
    match outcomes_of(alloc, ran) {
        Ok(all) => {
            let report = reported_if_named(rt, alloc, task, front, &all);
            drop(all);
            report
        }
        Err(Fault::Stopped(_, Stop::NoThread)) => Ok(stopped(alloc, Stop::NoThread)?),
        // The numbers of workers and of tries are looked at before.
        Err(fault) => Err(fault),
    }
}

// How many partitions so many data components have at most, and one where there is none.
fn count_of(dcs: usize) -> usize
    ensures { result ≡ max dcs 1 }
{
    dcs.max(1)
}

// Runs the calls of a script, which are so divided, unless the log of a partition is refused.
fn run_divided<R: Files<File = File> + Clock + Threads + Wait + Sync>(
    rt: &R,
    alloc: Global,
    task: Task,
) -> Result<Output, Fault>
    requires { IsDivided (option_map (λ file. file.now) task.object) task.script.now task.division.now }
    ensures { InRange task.entry.manner.workers task.entry.manner.tries → IfOk result (λ r. IsContentsRun (is_some task.entry.log)
        (contents_of task.entry.script.now) task.entry.manner.workers task.entry.manner.tries task.entry.manner.audit task.entry.manner.strict
        r.status (string_bytes r.lines)) }
{
    match starts_of(rt, alloc, task, count_of(task.script.dcs.len()))? {
        Recovery::Ready(starts) => run_started(rt, alloc, task, starts),
        Recovery::Refused(report) => Ok(report),
    }
}

// Divides the calls of a script that is accepted, and runs them.
#[tactic(auto, using(crate::proofs::DividingLemmas::divided_by))]
fn run_accepted<R: Files<File = File> + Clock + Threads + Wait + Sync>(
    rt: &R,
    alloc: Global,
    object: Option<&[u8]>,
    accepted: Accepted,
    log: Option<&str>,
    manner: Manner,
    listeners: Listeners,
) -> Result<Output, Fault>
    requires verified { first_unverified (option_map (λ file. file.now) object) accepted.script.procedures.items ≡ None }
    requires state { accepted.state ≡ begun (contents_of accepted.script) }
    ensures { InRange manner.workers manner.tries
        → IfOk result (λ r. IsContentsRun (is_some log.entry) (contents_of accepted.entry.script)
        manner.workers manner.tries manner.audit manner.strict r.status (string_bytes r.lines)) }
{
    let Accepted { script, state } = accepted;
    let script = &script;
    let calls = script.calls.as_slice();
    let division = Division::new(alloc, state.procs(), script.first.as_slice(), calls);
    drop(state);
    let division = &division?;
    let waits = &Waits::new(rt, alloc, calls.len(), false, listeners, None)?;
    let task = Task {
        object,
        script,
        division,
        log,
        manner,
        waits,
    };
    let report = run_divided(rt, alloc, task);
    waits.end();
    report
}

// Runs the calls of a script that is accepted, where they may be begun.
fn run_fit<R: Files<File = File> + Clock + Threads + Wait + Sync>(
    rt: &R,
    alloc: Global,
    object: Option<&[u8]>,
    accepted: Accepted,
    log: Option<&str>,
    manner: Manner,
    listeners: Listeners,
) -> Result<Output, Fault>
    requires verified { first_unverified (option_map (λ file. file.now) object) accepted.script.procedures.items ≡ None }
    requires state { accepted.state ≡ begun (contents_of accepted.script) }
    ensures { IfOk result (λ r. IsContentsRun (is_some log.entry) (contents_of accepted.entry.script)
        manner.workers manner.tries manner.audit manner.strict r.status (string_bytes r.lines)) }
{
    match of_manner(manner) {
        Some(stop) => {
            drop(accepted);
            Ok(stopped(alloc, stop)?)
        }
        None => run_accepted(rt, alloc, object, accepted, log, manner, listeners),
    }
}

// Accepts a script.
fn accept<'a>(alloc: Global, source: Source<'a>) -> Result<Acceptance<'a>, AllocError>
    ensures { IfOk result (MayBeRun (option_map (λ file. file.now) source.entry.object) (beginning_of command.Run source.entry)) }
{
    accept_source(alloc, Command::Run, source)
}

/// Runs the calls of a script: those of each partition of its data components on a state, a log and data components of their
/// own, with a part of the workers, at the same time. Prints what `running` prints: what each call was answered, what is
/// kept, and then, where it is wanted, what an audit finds of each partition with calls.
///
/// With `log` each partition keeps its log in the file of this path, with the partition's number behind a dot, and comes back
/// from there before any call is begun, as `running_logged` does; a file with another partition's log is refused. Then each
/// has a line of what an audit finds. No answer is told before what it names is on the disk, in a file that has a name.
pub fn running_partitioned<R: Files<File = File> + Clock + Threads + Wait + Sync>(
    rt: &R,
    alloc: Global,
    source: Source,
    log: Option<&str>,
    manner: Manner,
    listeners: Listeners,
) -> Result<Output, Fault>
    ensures { IfOk result (λ r. IsPartitionedRun (is_some log.entry) manner.workers manner.tries manner.audit manner.strict (beginning_of command.Run source.entry)
        r.status (string_bytes r.lines)) }
{
    let acceptance = accept(alloc, source)?;
    match acceptance {
        Acceptance::Accepted(accepted) => {
            run_fit(rt, alloc, source.object, accepted, log, manner, listeners)
        }
        Acceptance::Refused(report) => Ok(report),
    }
}
