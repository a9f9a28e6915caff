//! `run --log`: the calls of a script, behind what a log's file has.

ghost use Rattle.std.specs.Prelude.{◌≡◌, ◌++◌, Some, is_some, IfOk, OnOk, string_bytes};
ghost use Rattle.std.specs.List.{All};
ghost use Rattle.script_loading.specs.Loading.{beginning_of};
ghost use Rattle.scripts.specs.declared.keyword.Command.TheVariants as command;
ghost use Rattle.coming_back.specs.Coming.{HasOnlyRows};
ghost use Rattle.run_ground.specs.Kept.{KeepsLog};
ghost use Rattle.run_command.specs.Logged.{IsRunOn, IsLoggedRun, IsLogged};
ghost use Rattle.run_command.specs.Joining.Renewing.{IsRenewedFirst};

use crate::fitting::over_before;
use crate::running::{RunOptions, RunReport, run_from};
use report_texts::output::Output;
use run_calls::answering::RunInput;
use run_calls::stop::{of_manner, stopped};
use run_ground::ground::Ground;
use run_ground::stop::Stop;
use run_log::anew::{renew, write_renewal};
use run_log::recovering::{RecoveredRun, Recovery, begin};
use script_loading::loading::{Loaded, Loading, Source, load_source};
use scripts::keyword::Command;
use std::alloc::Global;
use std::fs::File;
use std::rt::Files;
use std::sync::Wait;
use std::thread::Threads;
use std::time::Clock;

// Puts these lines before those of a report.
fn put_before(alloc: Global, lines: &str, report: &mut Output) -> Result<(), Stop>
    ensures { OnOk result ((report.new.status ≡ report.old.status)
        × (string_bytes report.new.lines ≡ lines.now ++ string_bytes report.old.lines)) }
{
    let mut all = String::from_str(alloc, lines)?;
    all.push_str(report.lines.as_str())?;
    report.lines = all;
    Ok(())
}

// Whether the log's file of this run still has its name.
fn check_name<F: Files<File = File>>(rt: &F, path: &str, ran: &RunReport) -> Result<(), Stop> {
    let Some(journal) = &ran.journal else {
        return Ok(());
    };
    match journal.device().check_name(rt, path) {
        Ok(()) => Ok(()),
        Err(fault) => Err(Stop::NotKept(Some(fault))),
    }
}

// Begins the log of what came back anew where its file has more bytes than this, and adds the line of that.
fn renew_first<F: Files<File = File>>(
    rt: &F,
    alloc: Global,
    path: &str,
    over: Option<u64>,
    ground: &mut Ground,
    lines: &mut String,
) -> Result<(), Stop>
    ensures renewed { OnOk result (IsRenewedFirst ground.old lines.old over ground.new lines.new) }
    ensures kept { KeepsLog ground.old.journal ground.old.state.events
        → OnOk result (KeepsLog ground.new.journal ground.new.state.events) }
    ensures same { is_some ground.new.journal ≡ is_some ground.old.journal }
{
    match renew(rt, alloc, path, over, ground) {
        Ok(renewal) => Ok(write_renewal(alloc, renewal, &ground.state, lines)?),
        Err(stop) => Err(stop),
    }
}

// The report behind these lines, where the log's file of this run still has its name.
fn behind<F: Files<File = File>>(
    rt: &F,
    alloc: Global,
    path: &str,
    lines: &str,
    ran: RunReport,
) -> Result<RunReport, Stop>
    ensures { IfOk result (λ r. (r.journal ≡ ran.journal) × (r.report.status ≡ ran.report.status)
        × (string_bytes r.report.lines ≡ lines.now ++ string_bytes ran.report.lines)) }
{
    let mut ran = ran;
    let put = match check_name(rt, path, &ran) {
        Ok(()) => put_before(alloc, lines, &mut ran.report),
        Err(why) => Err(why),
    };
    match put {
        Ok(()) => Ok(ran),
        Err(why) => {
            drop(ran);
            Err(why)
        }
    }
}

// Runs the calls of a script that is loaded on what came back, behind a log that may begin anew first, and puts the lines
// of that before theirs.
fn run_on<R: Files<File = File> + Clock + Threads + Wait + Sync>(
    rt: &R,
    alloc: Global,
    path: &str,
    loaded: Loaded,
    back: RecoveredRun,
    options: RunOptions,
) -> Result<RunReport, Stop>
    ensures { KeepsLog (Some back.journal) loaded.state.events → IfOk result (λ r.
        IsRunOn r.journal options.entry.checkpoints loaded.state loaded.dcs.items loaded.first.items loaded.calls.items
        options.entry.manner.workers options.entry.manner.tries options.entry.manner.audit options.entry.manner.strict options.entry.manner.results
        r.report.status (string_bytes back.lines) (string_bytes r.report.lines)) }
{
    let RecoveredRun { journal, mut lines } = back;
    let Loaded {
        state,
        dcs,
        steps: _,
        first,
        calls,
    } = loaded;
    let mut ground = Ground {
        state,
        dcs,
        journal: Some(journal),
    };
    let input = RunInput {
        first: first.as_slice(),
        calls: calls.as_slice(),
        place: 0,
        manner: options.manner,
        checkpoints: options.checkpoints,
    };
    let over = over_before(&ground, options.checkpoints.over, input.first, input.calls);
    match renew_first(rt, alloc, path, over, &mut ground, &mut lines) {
        Ok(()) => match run_from(rt, alloc, path, ground, input, options.listeners) {
            Ok(ran) => behind(rt, alloc, path, lines.as_str(), ran),
            Err(stop) => Err(stop),
        },
        Err(why) => {
            drop(ground);
            Err(why)
        }
    }
}

// Runs the calls of a script that is loaded behind what the log's file has, which isn't opened where no call may be begun.
fn run_behind<R: Files<File = File> + Clock + Threads + Wait + Sync>(
    rt: &R,
    alloc: Global,
    path: &str,
    loaded: Loaded,
    options: RunOptions,
) -> Result<RunReport, Stop>
    requires { All HasOnlyRows loaded.dcs.items }
    ensures { IfOk result (λ r. IsLoggedRun r.journal options.entry.checkpoints loaded.state loaded.dcs.items
        loaded.first.items loaded.calls.items
        options.entry.manner.workers options.entry.manner.tries options.entry.manner.audit options.entry.manner.strict options.entry.manner.results
        r.report.status (string_bytes r.report.lines)) }
{
    let mut loaded = loaded;
    if let Some(stop) = of_manner(options.manner) {
        drop(loaded);
        return Ok(RunReport {
            report: stopped(alloc, stop)?,
            journal: None,
        });
    }
    match begin(
        rt,
        alloc,
        path,
        &mut loaded.state,
        loaded.dcs.as_mut_slice(),
    ) {
        Ok(Recovery::Ready(back)) => run_on(rt, alloc, path, loaded, back, options),
        Ok(Recovery::Refused(report)) => {
            drop(loaded);
            Ok(RunReport {
                report,
                journal: None,
            })
        }
        Err(fault) => {
            drop(loaded);
            Err(fault)
        }
    }
}

/// Runs the calls of a script as [`running`](crate::running::running) does, and keeps the log in the file
/// with this path, which is begun where it is missing or empty. Where it has a log, that is gone on from: the
/// data components begin with its records, if it was cut, and are redone, transactions that were open are run to
/// their ends, and each is told by a line before those of the calls, which are new ones. No answer is told before
/// what it names is on the disk, in a file that has a name. Where checkpoints are wanted, the log begins anew in a
/// file that takes this one's place: the name has the one or the other, whatever the moment of a crash. With
/// checkpoints above a size it does so too before a data component may have no room for a call. There is no report where
/// this path isn't the file's own behind the last call.
pub fn running_logged<R: Files<File = File> + Clock + Threads + Wait + Sync>(
    rt: &R,
    alloc: Global,
    path: &str,
    source: Source,
    options: RunOptions,
) -> Result<RunReport, Stop>
    ensures { IfOk result (λ r. IsLogged r.journal options.entry.checkpoints options.entry.manner.workers options.entry.manner.tries
        options.entry.manner.audit options.entry.manner.strict options.entry.manner.results (beginning_of command.Run source.entry) r.report.status (string_bytes r.report.lines)) }
{
    match load_source(alloc, Command::Run, source)? {
        Loading::Ready(loaded) => run_behind(rt, alloc, path, loaded, options),
        Loading::Refused(report) => Ok(RunReport {
            report,
            journal: None,
        }),
    }
}
