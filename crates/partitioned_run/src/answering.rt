//! The calls of one partition, answered on a state, a log and data components of their own; and those of all, at the same
//! time.

ghost use Rattle.std.specs.Prelude.{◌≡◌, ◌++◌, length, map, option_map, All, Some, IfOk, IsOkAnd, OnOk};
ghost use Rattle.scripts.specs.Reading.{contents_of};
ghost use Rattle.tc_core.specs.Admission.{call_of};
ghost use Rattle.partitions.specs.Picking.{own_item, picked};
ghost use Rattle.run_calls.specs.Answered.{AreCallsOf, said_call};
ghost use Rattle.partitioned_run.specs.Logged.{IsKeptBy};
ghost use Rattle.partitioned_run.specs.Joining.Dividing.{AreRun, IsDivided, IsGroundRun, IsKeptIf, IsPartitionRun, IsRunOf, IsStartRun};
ghost use Rattle.partitioned_run.specs.declared.grounds.Start.{Start as StartValue};

use crate::grounds::{Start, Task, own_ground};
use run_calls::answering::{Answers, Manner, Rings, RunInput, answer_on};
use run_calls::calls::call_of;
use run_ground::ground::{Checkpoints, Ground};
use run_ground::stop::Stop;
use scripts::script;
use std::alloc::{AllocError, Global};
use std::sync::Wait;
use std::thread;
use std::thread::Threads;
use std::time::Clock;
use tc_core::state::Call;

/// What the calls of a partition came to: what they were run on, behind the last, if there are any, and what they were
/// answered.
#[derive(Drop)]
pub struct PartitionOutcome {
    pub ground: Option<Ground>,
    pub answers: Answers,
}

// Adds the call that a line says behind the others, where it is wanted.
fn add_if(
    alloc: Global,
    own: &mut Vec<Call>,
    is_wanted: bool,
    said: &script::Call,
) -> Result<(), AllocError>
    ensures { OnOk result (map call_of own.new.items ≡ map call_of own.old.items ++ map said_call (own_item is_wanted said.now)) }
{
    if is_wanted {
        own.push(call_of(alloc, said)?)?;
    }
    Ok(())
}

// The calls of one partition that these lines say, whose partitions have these numbers.
fn own_calls(
    alloc: Global,
    numbers: &[usize],
    said: &[script::Call],
    number: usize,
) -> Result<Vec<Call>, AllocError>
    requires { length numbers.now ≡ length said.now }
    ensures { IfOk result (λ own. AreCallsOf (picked number numbers.now said.now) own.items) }
{
    let mut own = Vec::new(alloc);
    for (place, line) in said.iter().enumerate() {
        add_if(alloc, &mut own, numbers[place] == number, line)?;
    }
    Ok(own)
}

// What the calls of one partition are answered with: those of both lists, and rings for so many workers.
fn prepare(
    alloc: Global,
    task: Task,
    number: usize,
    workers: u64,
) -> Result<(Vec<Call>, Vec<Call>, Rings), AllocError>
    requires first { length task.division.now.first.items ≡ length task.script.now.first.items }
    requires calls { length task.division.now.calls.items ≡ length task.script.now.calls.items }
    ensures first { IfOk result (λ r.
        AreCallsOf (picked number task.entry.division.now.first.items task.entry.script.now.first.items) r.0.items) }
    ensures calls { IfOk result (λ r.
        AreCallsOf (picked number task.entry.division.now.calls.items task.entry.script.now.calls.items) r.1.items) }
{
    let script = task.script;
    let numbers = task.division.first.as_slice();
    let first = own_calls(alloc, numbers, script.first.as_slice(), number)?;
    let numbers = task.division.calls.as_slice();
    let calls = own_calls(alloc, numbers, script.calls.as_slice(), number)?;
    let rings = Rings::new(alloc, script.dcs.len(), workers)?;
    Ok((first, calls, rings))
}

// What calls came to that were answered.
fn ran_of(answered: Result<(Ground, Answers), Stop>) -> Result<PartitionOutcome, Stop>
    ensures { IfOk result (λ ran. IsOkAnd answered (λ a. (ran.ground ≡ Some a.0) × (ran.answers ≡ a.1))) }
{
    match answered {
        Ok((ground, answers)) => Ok(PartitionOutcome {
            ground: Some(ground),
            answers,
        }),
        Err(stop) => Err(stop),
    }
}

// Answers the calls of the partition with this number on this ground, which has some of the workers of so many partitions.
fn answer_own<R: Clock + Threads + Wait + Sync>(
    rt: &R,
    alloc: Global,
    task: Task,
    ground: Ground,
    number: usize,
    count: usize,
) -> Result<PartitionOutcome, Stop>
    requires { IsDivided (option_map (λ file. file.now) task.object) task.script.now task.division.now }
    ensures run { IfOk result (IsGroundRun (contents_of task.entry.script.now) task.entry.division.now number ground) }
    ensures kept { IsKeptBy ground → IfOk result (λ ran. IsKeptIf ran.ground) }
{
    let workers = task.division.workers_of(task.manner.workers, number, count);
    match prepare(alloc, task, number, workers) {
        Ok((first, calls, rings)) => {
            let input = RunInput {
                first: first.as_slice(),
                calls: calls.as_slice(),
                place: 0,
                manner: Manner {
                    workers,
                    ..task.manner
                },
                checkpoints: Checkpoints::NONE,
            };
            let answered = answer_on(rt, alloc, ground, input, task.waits, rings);
            drop(first);
            drop(calls);
            ran_of(answered)
        }
        Err(error) => {
            drop(ground);
            Err(Stop::from(error))
        }
    }
}

// Answers the calls of the partition with this number, where there are any, on a ground that is new.
fn answer_anew<R: Clock + Threads + Wait + Sync>(
    rt: &R,
    alloc: Global,
    task: Task,
    number: usize,
    count: usize,
) -> Result<PartitionOutcome, Stop>
    requires { IsDivided (option_map (λ file. file.now) task.object) task.script.now task.division.now }
    ensures { IfOk result (IsPartitionRun (contents_of task.entry.script.now) task.entry.division.now number) }
{
    if task.division.is_called(number) {
        let ground = own_ground(alloc, task.object, task.script)?;
        return answer_own(rt, alloc, task, ground, number, count);
    }
    Ok(PartitionOutcome {
        ground: None,
        answers: Answers::new(alloc),
    })
}

// Answers the calls of the partition with this number, where there are any, on what came back from its file.
fn answer_behind<R: Clock + Threads + Wait + Sync>(
    rt: &R,
    alloc: Global,
    task: Task,
    ground: Ground,
    number: usize,
    count: usize,
) -> Result<PartitionOutcome, Stop>
    requires divided { IsDivided (option_map (λ file. file.now) task.object) task.script.now task.division.now }
    requires kept { IsKeptBy ground }
    ensures { IfOk result (IsRunOf (contents_of task.entry.script.now) task.entry.division.now number (Some ground)) }
{
    if task.division.is_called(number) {
        return answer_own(rt, alloc, task, ground, number, count);
    }
    Ok(PartitionOutcome {
        ground: Some(ground),
        answers: Answers::new(alloc),
    })
}

// Answers the calls of one partition, of so many, by what it goes on from.
fn answer_partition<R: Clock + Threads + Wait + Sync>(
    rt: &R,
    alloc: Global,
    task: Task,
    start: Start,
    count: usize,
) -> Result<PartitionOutcome, Stop>
    requires divided { IsDivided (option_map (λ file. file.now) task.object) task.script.now task.division.now }
    requires kept { IsKeptIf start.ground }
    ensures { IfOk result (IsStartRun (contents_of task.entry.script.now) task.entry.division.now start) }
{
    let Start {
        number,
        ground,
        lines,
    } = start;
    drop(lines);
    match ground {
        Some(ground) => answer_behind(rt, alloc, task, ground, number, count),
        None => answer_anew(rt, alloc, task, number, count),
    }
}

/// Answers the calls of all partitions at the same time, by what each goes on from.
pub fn answer_partitions<R: Clock + Threads + Wait + Sync>(
    rt: &R,
    alloc: Global,
    task: Task,
    starts: Vec<Start>,
) -> Result<Vec<Result<PartitionOutcome, Stop>>, AllocError>
    requires divided { IsDivided (option_map (λ file. file.now) task.object) task.script.now task.division.now }
    requires kept { All (λ (s : StartValue). IsKeptIf s.ground) starts.items }
    ensures { IfOk result (λ all. AreRun (contents_of task.entry.script.now) task.entry.division.now starts.items all.items) }
{
    let count = starts.len();
    thread::map_vec(
        rt,
        starts,
        &|start| -> Result<PartitionOutcome, Stop>
            requires { IsDivided (option_map (λ file. file.now) task.object) task.script.now task.division.now × IsKeptIf start.ground }
            ensures { IfOk result (IsStartRun (contents_of task.entry.script.now) task.entry.division.now start) }
        { answer_partition(rt, alloc, task, start, count) },
    )
}
