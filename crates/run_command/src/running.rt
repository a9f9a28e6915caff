//! `run`: the calls of a script by workers, a line for each, and then what the data components keep.

ghost use Rattle.std.specs.Prelude.{◌≡◌, ℕ, [], Bool, false, Ok, IfOk, IfErr, Some, is_some, string_bytes};
ghost use Rattle.script_loading.specs.Loading.{beginning_of};
ghost use Rattle.scripts.specs.declared.keyword.Command.TheVariants as command;
ghost use Rattle.run_calls.specs.AnswerLines.{fault_line};
ghost use Rattle.run_calls.specs.Figures.{AreNotesIf};
ghost use Rattle.run_ground.specs.Kept.{KeepsLog};
ghost use Rattle.run_command.specs.Parts.{IsKeptSo};
ghost use Rattle.run_ground.specs.Stops.{IsUnkept};
ghost use Rattle.run_calls.specs.Stops.{Stops};
ghost use Rattle.run_ground.specs.declared.stop.Stop.TheVariants as Stop;
ghost use Rattle.run_command.specs.Running.{AreLinesOf, IsCallsRun, IsRun};

use crate::parts::{RunOutcome, answer_parts};
use report_texts::output::Output;
use run_calls::answering::{Answers, Manner, RunInput, has_want_of_memory, run_status};
use run_calls::figures::{
    Watched, delay_lines, figures, latency_lines, log_figures, notes_of, procedure_lines, rate,
};
use run_calls::stop::{of_manner, stopped};
use run_calls::watching::{Listeners, Waits};
use run_ground::ground::{Checkpoints, FileJournal, Ground};
use run_ground::stop::Stop;
use run_log::anew::{Renewal, write_renewal};
use script_loading::loading::{Loaded, Loading, Source, load_source};
use scripts::keyword::Command;
use scripts::script;
use state_lines::audit_lines::write_audit_if;
use state_lines::row_lines::write_all_rows;
use std::alloc::{AllocError, Global};
use std::fs::File;
use std::rt::Files;
use std::sync::Wait;
use std::thread::Threads;
use std::time::Clock;

// What is told of how long calls of the second list took.
fn time_lines(alloc: Global, answers: &Answers, watched: Watched) -> Result<String, AllocError> {
    let Some(elapsed) = answers.elapsed else {
        return Ok(String::new(alloc));
    };
    let mut lines = rate(alloc, answers.calls.len(), elapsed)?;
    if let Some(latencies) = watched.latencies {
        let latencies = latency_lines(alloc, latencies)?;
        lines.push_str(latencies.as_str())?;
    }
    Ok(lines)
}

// The figures of the second list and of the log's file, where they are wanted.
fn figures_if(
    alloc: Global,
    ground: &Ground,
    input: RunInput<script::Call>,
    answers: &Answers,
    watched: Watched,
) -> Result<String, AllocError>
    ensures { IfOk result (λ figures. input.entry.manner.stats ≡ false → string_bytes figures ≡ []) }
{
    if !input.manner.stats {
        return Ok(String::new(alloc));
    }
    let answered = answers.calls.as_slice();
    let mut text = figures(alloc, answered)?;
    let procedures = procedure_lines(alloc, ground.state.procs(), input.calls, answered)?;
    text.push_str(procedures.as_str())?;
    let times = time_lines(alloc, answers, watched)?;
    text.push_str(times.as_str())?;
    let delays = delay_lines(alloc, watched.delays)?;
    text.push_str(delays.as_str())?;
    if let Some(journal) = &ground.journal {
        let device = journal.device();
        let log = log_figures(alloc, device.syncs(), device.len())?;
        text.push_str(log.as_str())?;
    }
    Ok(text)
}

// The report of calls that were run, whose lines these are. Whatever is wanted, it has a note of each data component that
// is full.
fn reported(
    alloc: Global,
    ground: &Ground,
    input: RunInput<script::Call>,
    answers: &Answers,
    lines: String,
    renewal: Renewal,
    watched: Watched,
) -> Result<Output, AllocError>
    ensures lines { IfOk result (λ r. AreLinesOf ground.now.state ground.now.dcs.items input.entry.manner.audit input.entry.manner.strict
        answers.now.first.items answers.now.calls.items (string_bytes lines) renewal r.status (string_bytes r.lines)) }
    ensures full { IfOk result (λ r. AreNotesIf input.entry.manner.stats ground.now.dcs.items r.notes) }
{
    let first = answers.first.as_slice();
    let calls = answers.calls.as_slice();
    if has_want_of_memory(first) || has_want_of_memory(calls) {
        return Err(AllocError);
    }
    let dcs = ground.dcs.as_slice();
    let mut lines = lines;
    write_renewal(alloc, renewal, &ground.state, &mut lines)?;
    write_all_rows(alloc, dcs, &mut lines)?;
    let sound = write_audit_if(alloc, input.manner.audit, &ground.state, dcs, &mut lines)?;
    let figures = figures_if(alloc, ground, input, answers, watched)?;
    Ok(Output {
        status: run_status(input.manner.strict, calls, sound),
        lines,
        notes: notes_of(alloc, figures, dcs)?,
    })
}

/// The report of calls, and the journal that has kept the log behind them, if there is one.
#[derive(Drop)]
pub struct RunReport {
    pub report: Output,
    pub journal: Option<FileJournal>,
}

// The journal that has kept the log, if there is one; all else goes.
fn journal_of(ground: Ground) -> Option<FileJournal>
    ensures { result ≡ ground.journal }
{
    let Ground {
        state,
        dcs,
        journal,
    } = ground;
    drop(state);
    drop(dcs);
    journal
}

// The report with the journal, which goes where memory ran out.
fn with_journal(
    report: Result<Output, AllocError>,
    journal: Option<FileJournal>,
) -> Result<RunReport, Stop>
    ensures ok { IfOk result (λ r. (report ≡ Ok r.report) × (r.journal ≡ journal)) }
    ensures err { IfErr result (λ e. e ≡ Stop.Memory) }
{
    match report {
        Ok(report) => Ok(RunReport { report, journal }),
        Err(AllocError) => {
            drop(journal);
            Err(Stop::Memory)
        }
    }
}

// Ends what is told of calls while they last: with the metrics and the trace.
fn tell_end(waits: &Waits, input: RunInput<script::Call>, outcome: &RunOutcome) {
    waits.end();
    let journal = outcome.ground.journal.as_ref();
    waits.write_metrics(journal.map(|journal| journal.device().syncs()));
    waits.write_trace(
        outcome.ground.state.procs(),
        input.calls,
        outcome.answers.calls.as_slice(),
    );
}

// The report of calls that were stopped, or why there is none.
fn stopped_at(alloc: Global, waits: Waits, stop: Stop) -> Result<RunReport, Stop>
    ensures ok { IfOk result (λ r. (r.report.status ≡ 1) × (fault_line stop ≡ Some (string_bytes r.report.lines))) }
    ensures fault { (keeps : Bool) (workers tries : ℕ) → Stops keeps workers tries stop → IfErr result (IsUnkept keeps) }
{
    waits.write_metrics(None);
    waits.end();
    drop(waits);
    match stop {
        Stop::NotKept(_) => Err(stop),
        _ => with_journal(stopped(alloc, stop), None),
    }
}

/// How the calls of a script are run, when its log begins anew, and who is told of the calls meanwhile.
#[derive(Clone, Copy)]
pub struct RunOptions<'a> {
    pub manner: Manner,
    pub checkpoints: Checkpoints,
    pub listeners: Listeners<'a>,
}

// The report of calls that were answered, behind what is told of them in the end.
fn ended(
    alloc: Global,
    waits: Waits,
    input: RunInput<script::Call>,
    outcome: RunOutcome,
) -> Result<RunReport, Stop>
    ensures ok { IfOk result (λ r. (r.journal ≡ outcome.ground.journal)
        × AreLinesOf outcome.ground.state outcome.ground.dcs.items input.entry.manner.audit input.entry.manner.strict
        outcome.answers.first.items outcome.answers.calls.items (string_bytes outcome.lines) outcome.renewal
        r.report.status (string_bytes r.report.lines)) }
    ensures err { IfErr result (λ e. e ≡ Stop.Memory) }
{
    tell_end(&waits, input, &outcome);
    let RunOutcome {
        ground,
        answers,
        lines,
        renewal,
    } = outcome;
    let watched = waits.watched();
    let report = reported(alloc, &ground, input, &answers, lines, renewal, watched);
    drop(waits);
    drop(answers);
    with_journal(report, journal_of(ground))
}

/// Runs the calls on this ground, and keeps the log where there is a journal, in the file of this path. The listeners are
/// told of the second list's calls meanwhile.
pub fn run_from<R: Files<File = File> + Clock + Threads + Wait + Sync>(
    rt: &R,
    alloc: Global,
    path: &str,
    ground: Ground,
    input: RunInput<script::Call>,
    listeners: Listeners,
) -> Result<RunReport, Stop>
    ensures run { KeepsLog ground.journal ground.state.events → IfOk result (λ r. IsCallsRun
        (IsKeptSo (is_some ground.journal) r.journal input.entry.checkpoints) input.entry.checkpoints ground.state ground.dcs.items input.entry.first.now input.entry.calls.now
        input.entry.manner.workers input.entry.manner.tries input.entry.manner.audit input.entry.manner.strict input.entry.manner.results
        r.report.status (string_bytes r.report.lines)) }
    ensures fault { IfErr result (IsUnkept (is_some ground.journal)) }
{
    let RunInput { calls, manner, .. } = input;
    let log = ground.journal.is_some().then_some(path);
    match Waits::new(rt, alloc, calls.len(), manner.stats, listeners, log) {
        Ok(waits) => {
            waits.begin();
            match answer_parts(rt, alloc, path, ground, input, &waits) {
                Ok(outcome) => ended(alloc, waits, input, outcome),
                Err(stop) => stopped_at(alloc, waits, stop),
            }
        }
        Err(AllocError) => {
            drop(ground);
            Err(Stop::Memory)
        }
    }
}

/// Runs the calls of a script: the first list by one worker, and then the other in this manner.
/// Prints what each call was answered, then what is kept, and then, where it is wanted, what an audit
/// finds. The listeners are told of the second list's calls meanwhile.
pub fn running<R: Files<File = File> + Clock + Threads + Wait + Sync>(
    rt: &R,
    alloc: Global,
    source: Source,
    manner: Manner,
    listeners: Listeners,
) -> Result<Output, AllocError>
    ensures { IfOk result (λ r. IsRun manner.workers manner.tries manner.audit manner.strict manner.results (beginning_of command.Run source.entry)
        r.status (string_bytes r.lines)) }
{
    let loaded = match load_source(alloc, Command::Run, source)? {
        Loading::Ready(loaded) => loaded,
        Loading::Refused(report) => return Ok(report),
    };
    if let Some(stop) = of_manner(manner) {
        drop(loaded);
        return Ok(stopped(alloc, stop)?);
    }
    let Loaded {
        state,
        dcs,
        steps: _,
        first,
        calls,
    } = loaded;
    let ground = Ground {
        state,
        dcs,
        journal: None,
    };
    let input = RunInput {
        first: first.as_slice(),
        calls: calls.as_slice(),
        place: 0,
        manner,
        checkpoints: Checkpoints::NONE,
    };
    match run_from(rt, alloc, "", ground, input, listeners) {
        Ok(RunReport { report, journal: _ }) => Ok(report),
        Err(Stop::NotKept(_)) => unreachable!(),
        Err(_) => Err(AllocError),
    }
}
