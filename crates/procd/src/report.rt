//! What a command says of the text that was read.

ghost use Rattle.std.specs.Prelude.{◌≡◌, ℕ, List, Option, true, Some, None, not, is_none, is_some, option_map, IfOk, IfErr, codes, string_bytes};
ghost use Rattle.object_file.specs.Elf.{is_elf};
ghost use Rattle.text_commands.specs.ObjectVerification.{IsVerification};
ghost use Rattle.script_loading.specs.Loading.{beginning_of};
ghost use Rattle.scripts.specs.declared.keyword.Command.TheVariants as command;
ghost use Rattle.procd.specs.Report.{IsReport, IsKeptRun, IsRunOf, IsPartitionedOf, IsWorldOf, IsLogReport, IsAuditBeside};
ghost use Rattle.procd.specs.Joining.Further.{IsScriptFault, IsLogFault, IsTaskFault, IsNoTextOf, IsOfText, IsOfFile, wants_text};
ghost use Rattle.procd.specs.Joining.Further.{IsApartFault, IsBesideFault, IsRunFault};
ghost use Rattle.procd.specs.Joining.Further.{IsPictureFault, IsSourceOf};
ghost use Rattle.command_line.specs.Task.{Log, Audit, Picture, log_wish, wish_of};

use crate::streams::Meanwhile;
use command_line::words::{LogTask, PartitionedTask, RunTask, Task};
use log_command::auditing::auditing;
use log_command::listing::listing;
use log_command::picturing::{Pictured, picturing};
use log_part::Part;
use object_file::is_elf;
use partitioned_run::fault::Fault;
use partitioned_run::running::running_partitioned;
use program_files::reading::{ReadFault, Reason, TextFault, read_file, script_of, text_of};
use program_files::writing::tell;
use report_texts::output::Output;
use run_calls::answering::Manner;
use run_calls::watching::Listeners;
use run_command::logged::running_logged;
use run_command::running::{RunOptions, running};
use run_ground::ground::Checkpoints;
use run_ground::stop::Stop;
use script_loading::loading::Source;
use std::alloc::{AllocError, Global};
use std::fs::{self, File};
use std::rt::Files;
use std::sync::Wait;
use std::thread::Threads;
use std::time::Clock;
use text_commands::assembly::{assembly, disassembly};
use text_commands::lines::execution;
use text_commands::object_verification::object_verification;
use text_commands::verification::verification;
use world_command::world::{Behind, world};

/// Why there is no report.
#[derive(Clone, Copy, Debug)]
pub enum ReportFault<'a> {
    /// What was read is no text.
    NotText(TextFault),
    /// The further file with this path can't be read, and why: a run's log, or what stands beside a log or an object file.
    Unread(&'a str, Option<Reason>),
    /// The file with this path, which is to keep a run's log or a picture, can't be written, and why.
    Unwritten(&'a str, Option<Reason>),
    /// This stopped the partition with this number, whose file has this path, but for the number behind it.
    Partition(&'a str, usize, Stop),
    Memory,
}

impl From<TextFault> for ReportFault<'_> {
    ghost use Rattle.std.specs.Prelude.{◌≡◌};
    ghost use Rattle.procd.specs.declared.report.ReportFault.TheVariants.{NotText};

    ghost from_gives = { λ fault e. e ≡ NotText fault };

    fn from(fault: TextFault) -> Self {
        ReportFault::NotText(fault)
    }
}

impl From<AllocError> for ReportFault<'_> {
    ghost use Rattle.std.specs.Prelude.{◌≡◌};
    ghost use Rattle.procd.specs.declared.report.ReportFault.TheVariants.{Memory};

    ghost from_gives = { λ _ e. e ≡ Memory };

    fn from(_e: AllocError) -> Self {
        ReportFault::Memory
    }
}

/// Standard input, as a file.
const STANDARD_INPUT: &str = "/dev/stdin";

// All that the file of a script or of an object file has, or standard input, where its path is `-`.
fn read_script<'a, R: Files>(
    rt: &R,
    alloc: Global,
    path: &'a str,
) -> Result<Vec<u8>, ReportFault<'a>>
    ensures { IfErr result (IsScriptFault path.entry.now) }
{
    let file = if path == "-" { STANDARD_INPUT } else { path };
    match read_file(rt, alloc, file, None) {
        Ok(text) => Ok(text),
        Err(ReadFault::Memory) => Err(ReportFault::Memory),
        Err(ReadFault::Unread(reason)) => Err(ReportFault::Unread(path, Some(reason))),
    }
}

// What is read beside FILE: the script that this path names, if there is one.
fn read_beside<'a, R: Files>(
    rt: &R,
    alloc: Global,
    path: Option<&'a str>,
) -> Result<Vec<u8>, ReportFault<'a>>
    ensures text { IfErr result IsOfText }
    ensures script { IfErr result (IsBesideFault (option_map (λ path. path.now) path.entry)) }
{
    match path {
        Some(path) => read_script(rt, alloc, path),
        None => Ok(Vec::new(alloc)),
    }
}

// FILE as a script; or as an object file, with the script of this path, which has what was read beside it.
fn source_of<'t, 'a>(
    file: &'t [u8],
    path: Option<&'a str>,
    beside: &'t [u8],
) -> Result<Source<'t>, ReportFault<'a>>
    ensures ok { IfOk result (IsSourceOf (option_map (λ path. path.now) path.entry) file.entry.now) }
    ensures not_text { IfErr result (IsNoTextOf (is_none path.entry) file.entry.now) }
    ensures script { IfErr result (IsBesideFault (option_map (λ path. path.now) path.entry)) }
{
    let Some(path) = path else {
        let text = script_of(file)?;
        return Ok(Source { object: None, text });
    };
    match text_of(beside) {
        Ok(text) => Ok(Source {
            object: Some(file),
            text,
        }),
        Err(fault) => Err(ReportFault::Unread(path, Some(Reason::Text(fault)))),
    }
}

// What the verifier says of an object file's procedures, or of a script's.
fn verify_report<'a>(alloc: Global, file: &[u8]) -> Result<Output, ReportFault<'a>>
    ensures ok { IfOk result (λ r. IsVerification (is_elf file.now) file.now r.status (string_bytes r.lines)) }
    ensures not_text { IfErr result (IsNoTextOf (not (is_elf file.now)) file.now) }
    ensures further { IfErr result IsOfFile }
{
    if is_elf(file) {
        return Ok(object_verification(alloc, file)?);
    }
    Ok(verification(alloc, text_of(file)?)?)
}

// The report of a run whose log is kept.
fn logged<'a, R: Files<File = File> + Clock + Threads + Wait + Sync>(
    rt: &R,
    alloc: Global,
    path: &'a str,
    source: Source,
    options: RunOptions,
) -> Result<Output, ReportFault<'a>>
    ensures ok { IfOk result (λ r. IsKeptRun options.entry.checkpoints options.entry.manner.workers options.entry.manner.tries
        options.entry.manner.audit options.entry.manner.strict options.entry.manner.results (beginning_of command.Run source.entry) r.status
        (string_bytes r.lines)) }
    ensures fault { IfErr result (IsLogFault (Some path.entry.now)) }
    ensures text { IfErr result IsOfText }
    ensures named { IfOk result (λ _. ¬ (path.entry.now ≡ codes "-")) }
{
    if path == "-" {
        return Err(ReportFault::Unwritten(path, Some(Reason::Dash)));
    }
    match running_logged(rt, alloc, path, source, options) {
        Ok(ran) => Ok(ran.report),
        Err(Stop::Unread(fault)) => Err(ReportFault::Unread(path, Some(Reason::File(fault)))),
        Err(Stop::NotKept(fault)) => Err(ReportFault::Unwritten(path, fault.map(Reason::File))),
        // All others but this have a line.
        Err(_) => Err(ReportFault::Memory),
    }
}

// The report of a run of a script, or of one with the procedures of an object file, whose log is kept where there is a path
// for it.
fn run_of<'a, R: Files<File = File> + Clock + Threads + Wait + Sync>(
    rt: &R,
    alloc: Global,
    file: &[u8],
    script: Option<&'a str>,
    options: RunOptions,
    log: Option<&'a str>,
) -> Result<Output, ReportFault<'a>>
    ensures ok { IfOk result (λ r. IsRunOf options.entry.checkpoints options.entry.manner.workers options.entry.manner.tries
        options.entry.manner.audit options.entry.manner.strict options.entry.manner.results (option_map (λ path. path.now) log.entry)
        (option_map (λ path. path.now) script.entry) file.now r.status (string_bytes r.lines)) }
    ensures not_text { IfErr result (IsNoTextOf (is_none script.entry) file.now) }
    ensures further { IfErr result (IsRunFault (option_map (λ path. path.now) log.entry) (option_map (λ path. path.now) script.entry)) }
{
    let beside = read_beside(rt, alloc, script)?;
    let source = source_of(file, script, beside.as_slice())?;
    match log {
        Some(path) => logged(rt, alloc, path, source, options),
        None => match running(rt, alloc, source, options.manner, options.listeners) {
            Ok(report) => Ok(report),
            Err(AllocError) => Err(ReportFault::Memory),
        },
    }
}

// Why there is no report of a run by partitions, whose logs are kept in files of this path.
fn apart_fault<'a>(log: Option<&'a str>, fault: Fault) -> ReportFault<'a>
    ensures further { (script : Option (List ℕ)) → IsApartFault (option_map (λ path. path.now) log.entry) script result }
    ensures text { IsOfText result }
{
    match (log, fault) {
        (Some(path), Fault::Stopped(number, stop)) => ReportFault::Partition(path, number, stop),
        _ => ReportFault::Memory,
    }
}

// The report of a run by partitions of either.
fn partitioned_of<'a, R: Files<File = File> + Clock + Threads + Wait + Sync>(
    rt: &R,
    alloc: Global,
    file: &[u8],
    script: Option<&'a str>,
    log: Option<&'a str>,
    manner: Manner,
    listeners: Listeners,
) -> Result<Output, ReportFault<'a>>
    ensures ok { IfOk result (λ r. IsPartitionedOf (is_some (option_map (λ path. path.now) log.entry)) manner.workers manner.tries manner.audit manner.strict
        (option_map (λ path. path.now) script.entry) file.now r.status (string_bytes r.lines)) }
    ensures not_text { IfErr result (IsNoTextOf (is_none script.entry) file.now) }
    ensures further { IfErr result (IsApartFault (option_map (λ path. path.now) log.entry) (option_map (λ path. path.now) script.entry)) }
{
    let beside = read_beside(rt, alloc, script)?;
    let source = source_of(file, script, beside.as_slice())?;
    match running_partitioned(rt, alloc, source, log, manner, listeners) {
        Ok(report) => Ok(report),
        Err(fault) => Err(apart_fault(log, fault)),
    }
}

// The report of the steps of either.
fn world_of<'a, R: Files>(
    rt: &R,
    alloc: Global,
    file: &[u8],
    script: Option<&'a str>,
    behind: Behind,
) -> Result<Output, ReportFault<'a>>
    ensures ok { IfOk result (λ r. IsWorldOf behind (option_map (λ path. path.now) script.entry) file.now r.status (string_bytes r.lines)) }
    ensures not_text { IfErr result (IsNoTextOf (is_none script.entry) file.now) }
    ensures further { IfErr result (IsBesideFault (option_map (λ path. path.now) script.entry)) }
{
    let beside = read_beside(rt, alloc, script)?;
    let source = source_of(file, script, beside.as_slice())?;
    Ok(world(alloc, behind, source)?)
}

// The text of a script, which stands beside an object file, if there is one.
fn text_beside<'t>(object: Option<&[u8]>, script: &'t [u8]) -> Result<&'t str, TextFault>
    ensures { IfOk result (λ text. text.now ≡ script.now) }
{
    match object {
        Some(_) => text_of(script),
        None => script_of(script),
    }
}

// What an audit finds of a log's file beside the script of this path, and an object file, if there is one.
fn audit_beside<'a, R: Files>(
    rt: &R,
    alloc: Global,
    file: &[u8],
    object: Option<&[u8]>,
    path: &'a str,
) -> Result<Output, ReportFault<'a>>
    ensures ok { IfOk result (λ r. IsAuditBeside (option_map (λ object. object.now) object.entry) file.now r.status (string_bytes r.lines)) }
    ensures text { IfErr result IsOfText }
    ensures script { IfErr result (IsScriptFault path.entry.now) }
{
    let script = read_script(rt, alloc, path)?;
    match text_beside(object, script.as_slice()) {
        Ok(text) => Ok(auditing(alloc, file, Source { object, text })?),
        Err(fault) => Err(ReportFault::Unread(path, Some(Reason::Text(fault)))),
    }
}

// The same of a script, or of an object file and the script of a second path.
fn audit_report<'a, R: Files>(
    rt: &R,
    alloc: Global,
    file: &[u8],
    source: &'a str,
    script: Option<&'a str>,
) -> Result<Output, ReportFault<'a>>
    ensures ok { IfOk result (λ r. IsLogReport (Audit source.entry.now (option_map (λ path. path.now) script.entry)) file.now r.status (string_bytes r.lines)) }
    ensures text { IfErr result IsOfText }
    ensures script { IfErr result (IsTaskFault (Log (Audit source.entry.now (option_map (λ path. path.now) script.entry)))) }
{
    let Some(script) = script else {
        return audit_beside(rt, alloc, file, None, source);
    };
    let object = read_script(rt, alloc, source)?;
    audit_beside(rt, alloc, file, Some(object.as_slice()), script)
}

// Writes a new file; what is begun of one that isn't written whole is taken away.
fn write_new<'a, R: Files>(rt: &R, path: &'a str, text: &str) -> Result<(), ReportFault<'a>>
    ensures fault { IfErr result (IsPictureFault path.entry.now) }
    ensures named { IfOk result (λ _. ¬ (path.entry.now ≡ codes "-")) }
{
    if path == "-" {
        return Err(ReportFault::Unwritten(path, Some(Reason::Dash)));
    }
    let mut file = match File::create_new(rt, path) {
        Ok(file) => file,
        Err(error) => return Err(ReportFault::Unwritten(path, Some(Reason::System(error)))),
    };
    match tell(&mut file, text) {
        Ok(()) => Ok(()),
        Err(error) => {
            let _ = fs::remove_file(rt, path);
            Err(ReportFault::Unwritten(path, Some(Reason::System(error))))
        }
    }
}

// Draws a part of a log's file into a new file of this path.
fn picture_report<'a, R: Files>(
    rt: &R,
    alloc: Global,
    file: &[u8],
    path: &'a str,
    part: Part,
) -> Result<Output, ReportFault<'a>>
    ensures ok { IfOk result (λ r. IsLogReport (Picture path.entry.now part) file.now r.status (string_bytes r.lines)) }
    ensures text { IfErr result IsOfText }
    ensures picture { IfErr result (IsPictureFault path.entry.now) }
{
    let Pictured { svg, report } = picturing(alloc, file, part)?;
    if let Some(svg) = svg {
        write_new(rt, path, svg.as_str())?;
    }
    Ok(report)
}

// What is printed of a log's file.
fn log_report<'a, R: Files>(
    rt: &R,
    alloc: Global,
    file: &[u8],
    wanted: LogTask<'a>,
) -> Result<Output, ReportFault<'a>>
    ensures ok { IfOk result (λ r. IsLogReport (log_wish wanted.entry) file.now r.status (string_bytes r.lines)) }
    ensures text { IfErr result IsOfText }
    ensures script { IfErr result (IsTaskFault (Log (log_wish wanted.entry))) }
{
    match wanted {
        // What is read here has an end: standard input.
        LogTask::Events(part) | LogTask::Follow(part) => Ok(listing(alloc, file, part, false)?),
        LogTask::EventsAndRows => Ok(listing(alloc, file, Part::Whole, true)?),
        LogTask::Audit { source, script } => audit_report(rt, alloc, file, source, script),
        LogTask::Picture(path, part) => picture_report(rt, alloc, file, path, part),
    }
}

// How the calls of a run are run, when its log begins anew, and who is told of the calls meanwhile.
fn options_of<'a>(wanted: &RunTask<'a>, progress: Meanwhile) -> RunOptions<'a>
    ensures manner { (result.manner.workers ≡ wanted.now.workers) × (result.manner.tries ≡ wanted.now.tries)
        × (result.manner.audit ≡ wanted.now.audit) × (result.manner.strict ≡ wanted.now.strict)
        × (result.manner.results ≡ wanted.now.results) }
    ensures checkpoints { result.checkpoints ≡ record { at_end = wanted.now.checkpoint; over = wanted.now.over } }
{
    RunOptions {
        manner: Manner {
            workers: wanted.workers,
            tries: wanted.tries,
            stats: wanted.stats,
            audit: wanted.audit,
            strict: wanted.strict,
            results: wanted.results,
        },
        checkpoints: Checkpoints {
            at_end: wanted.checkpoint,
            over: wanted.over,
        },
        listeners: Listeners {
            each: wanted.tell.then_some(progress.error),
            metrics: wanted.metrics,
            trace: wanted.trace,
            ..progress.listeners()
        },
    }
}

// How the calls of a run by partitions are run.
fn manner_apart(wanted: &PartitionedTask) -> Manner
    ensures { (result.workers ≡ wanted.now.workers) × (result.tries ≡ wanted.now.tries) × (result.audit ≡ wanted.now.audit)
        × (result.strict ≡ wanted.now.strict) }
{
    Manner {
        workers: wanted.workers,
        tries: wanted.tries,
        stats: false,
        audit: wanted.audit,
        strict: wanted.strict,
        results: false,
    }
}

/// What the task makes of the text.
pub fn report_on<'a, R: Files<File = File> + Clock + Threads + Wait + Sync>(
    rt: &R,
    alloc: Global,
    task: &Task<'a>,
    text: &[u8],
    progress: Meanwhile,
) -> Result<Output, ReportFault<'a>>
    ensures ok { IfOk result (λ r. IsReport (wish_of task.now) text.now r.status (string_bytes r.lines)) }
    // Only assembly text and scripts have to be UTF-8, and without a byte order mark; an object file is no script.
    ensures not_text { IfErr result (IsNoTextOf (wants_text (wish_of task.now) text.now) text.now) }
    // A further file that can't be read or written is the one that is wanted.
    ensures further { IfErr result (IsTaskFault (wish_of task.now)) }
{
    match task {
        Task::Exec { raw, numbers } => Ok(execution(alloc, *raw, text, numbers.as_slice())?),
        Task::Asm => Ok(assembly(alloc, text_of(text)?)?),
        Task::Verify => verify_report(alloc, text),
        Task::World { log, audit, script } => {
            let behind = Behind {
                audit: *audit,
                log: *log,
            };
            world_of(rt, alloc, text, *script, behind)
        }
        Task::Run(wanted) => {
            let options = options_of(wanted, progress);
            run_of(rt, alloc, text, wanted.script, options, wanted.log)
        }
        Task::Partitioned(wanted) => {
            let (manner, listeners) = (manner_apart(wanted), progress.listeners());
            partitioned_of(
                rt,
                alloc,
                text,
                wanted.script,
                wanted.log,
                manner,
                listeners,
            )
        }
        Task::Dis { raw } => Ok(disassembly(alloc, *raw, text)?),
        Task::Log(wanted) => log_report(rt, alloc, text, *wanted),
    }
}
