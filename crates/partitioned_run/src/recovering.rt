//! What comes back from the log's file of each partition.

ghost use Rattle.std.specs.Prelude.{◌≡◌, ◌++◌, is_some, option_map, codes, decimal, IfOk, OnOk, string_bytes};
ghost use Rattle.std.specs.List.{All};
ghost use Rattle.coming_back.specs.Coming.{HasOnlyRows};
ghost use Rattle.run_log.specs.Recovering.{IsOpened};
ghost use Rattle.scripts.specs.Reading.{contents_of};
ghost use Rattle.partitioned_run.specs.Logged.{front_lines, front_of};
ghost use Rattle.partitioned_run.specs.Partitioned.{partition_line};
ghost use Rattle.partitioned_run.specs.Joining.Dividing.{IsDivided};
ghost use Rattle.partitioned_run.specs.Joining.Recovering.{AreRecovered, IsRecovered, IsRecoveredFrom};

use crate::belonging::{other_line, other_of};
use crate::fault::Fault;
use crate::grounds::{Start, Task, own_ground};
use partitions::Partitions;
use report_texts::output::Output;
use run_ground::ground::Ground;
use run_log::recovering::{OpenLog, RecoveredRun, Recovery, go_back, open_log};
use std::alloc::{AllocError, Global};
use std::fs::File;
use std::rt::Files;

/// The path of the file that keeps the log of the partition with this number.
pub fn file_of(alloc: Global, log: &str, number: usize) -> Result<String, AllocError>
    ensures { IfOk result (λ path. string_bytes path ≡ log.now ++ (codes "." ++ decimal number)) }
{
    format!(in alloc; "{log}.{number}")
}

/// The line that names a partition.
pub fn partition_line(alloc: Global, number: usize) -> Result<String, AllocError>
    ensures { IfOk result (λ line. string_bytes line ≡ partition_line number) }
{
    format!(in alloc; "partition {number}\n")
}

// The report of a run that is refused by these lines of a partition.
fn refused(alloc: Global, number: usize, lines: &str) -> Result<Output, AllocError>
    ensures { IfOk result (λ r. (r.status ≡ 1) × (string_bytes r.lines ≡ partition_line number ++ lines.now)) }
{
    let mut all = partition_line(alloc, number)?;
    all.push_str(lines)?;
    Ok(Output {
        status: 1,
        lines: all,
        notes: None,
    })
}

// Goes on from the log of a partition's file, unless it is another partition's.
fn go_on(
    alloc: Global,
    partitions: &Partitions,
    path: &str,
    number: usize,
    ground: Ground,
    opened: OpenLog,
) -> Result<Recovery<Start>, Fault>
    requires { All HasOnlyRows ground.dcs.items }
    ensures { IsOpened ground.state opened → IfOk result (IsRecoveredFrom ground.state ground.dcs.items partitions.now number) }
{
    if let Some(other) = other_of(partitions, ground.state.procs(), &opened, number) {
        drop(opened);
        drop(ground);
        let line = other_line(alloc, other)?;
        return Ok(Recovery::Refused(refused(alloc, number, line.as_str())?));
    }
    let mut ground = ground;
    let dcs = ground.dcs.as_mut_slice();
    match go_back(alloc, &mut ground.state, dcs, opened, path) {
        Ok(Recovery::Ready(RecoveredRun { journal, lines })) => {
            ground.journal = Some(journal);
            Ok(Recovery::Ready(Start {
                number,
                ground: Some(ground),
                lines,
            }))
        }
        Ok(Recovery::Refused(report)) => {
            drop(ground);
            Ok(Recovery::Refused(refused(alloc, number, report.lines.as_str())?))
        }
        Err(stop) => {
            drop(ground);
            Err(Fault::Stopped(number, stop))
        }
    }
}

// Comes back from a partition's file, on a state and data components to which nothing has happened.
fn recover<F: Files<File = File>>(
    rt: &F,
    alloc: Global,
    partitions: &Partitions,
    path: &str,
    number: usize,
    ground: Ground,
) -> Result<Recovery<Start>, Fault>
    requires { All HasOnlyRows ground.dcs.items }
    ensures { IfOk result (IsRecoveredFrom ground.state ground.dcs.items partitions.now number) }
{
    match open_log(rt, alloc, path, &ground.state) {
        Ok(Recovery::Ready(opened)) => go_on(alloc, partitions, path, number, ground, opened),
        Ok(Recovery::Refused(report)) => {
            drop(ground);
            Ok(Recovery::Refused(refused(alloc, number, report.lines.as_str())?))
        }
        Err(stop) => {
            drop(ground);
            Err(Fault::Stopped(number, stop))
        }
    }
}

// What the calls of the partition with this number go on from: where logs are kept, each partition has a file.
fn start_of<F: Files<File = File>>(
    rt: &F,
    alloc: Global,
    task: Task,
    number: usize,
) -> Result<Recovery<Start>, Fault>
    requires { IsDivided (option_map (λ file. file.now) task.object) task.script.now task.division.now }
    ensures { IfOk result (IsRecovered (contents_of task.entry.script.now) (is_some task.entry.log) task.entry.division.now.partitions number) }
{
    match task.log {
        Some(log) if task.division.partitions.number(number) == number => {
            let path = file_of(alloc, log, number)?;
            let ground = own_ground(alloc, task.object, task.script)?;
            let partitions = &task.division.partitions;
            recover(rt, alloc, partitions, path.as_str(), number, ground)
        }
        _ => Ok(Recovery::Ready(Start {
            number,
            ground: None,
            lines: String::new(alloc),
        })),
    }
}

/// What the calls of each partition go on from, of so many, unless the log of one is refused.
pub fn starts_of<F: Files<File = File>>(
    rt: &F,
    alloc: Global,
    task: Task,
    count: usize,
) -> Result<Recovery<Vec<Start>>, Fault>
    requires { IsDivided (option_map (λ file. file.now) task.object) task.script.now task.division.now }
    ensures { IfOk result (AreRecovered (contents_of task.entry.script.now) (is_some task.entry.log) task.entry.division.now.partitions count) }
{
    let mut starts = Vec::with_capacity(alloc, count)?;
    'partitions: for number in 0..count {
        match start_of(rt, alloc, task, number) {
            Ok(Recovery::Ready(start)) => {
                if let Err(failed) = starts.push(start) {
                    drop(failed);
                    drop(starts);
                    return Err(Fault::Memory);
                }
            }
            Ok(Recovery::Refused(report)) => {
                drop(starts);
                return Ok(Recovery::Refused(report));
            }
            Err(fault) => {
                drop(starts);
                return Err(fault);
            }
        }
    }
    Ok(Recovery::Ready(starts))
}

// Adds the lines of what came back of a partition, if there are any, behind the one that names it.
fn write_front(alloc: Global, start: &Start, lines: &mut String) -> Result<(), AllocError>
    ensures { OnOk result (string_bytes lines.new ≡ string_bytes lines.old ++ front_of start.now) }
{
    if start.lines.is_empty() {
        return Ok(());
    }
    let line = partition_line(alloc, start.number)?;
    lines.push_str(line.as_str())?;
    lines.push_str(start.lines.as_str())
}

/// The lines of what came back of all partitions.
pub fn front_lines(alloc: Global, starts: &[Start]) -> Result<String, AllocError>
    ensures { IfOk result (λ lines. string_bytes lines ≡ front_lines starts.now) }
{
    let mut lines = String::new(alloc);
    for start in starts {
        write_front(alloc, start, &mut lines)?;
    }
    Ok(lines)
}
