//! What is printed of the calls of all partitions.

ghost use Rattle.std.specs.Prelude.{◌≡◌, ◌++◌, ◌&&◌, [], ◌∷◌, List, Result, false, IfOk, OnOk, codes, string_bytes};
ghost use Rattle.std.specs.List.{list_any};
ghost use Rattle.run_ground.specs.declared.stop.Stop.{Stop as StopValue};
ghost use Rattle.run_calls.specs.AnswerLines.{answer_lines};
ghost use Rattle.run_calls.specs.Figures.{full_lines};
ghost use Rattle.state_lines.specs.RowLines.{AddsRowLines};
ghost use Rattle.run_calls.specs.Answered.{is_want_of_memory};
ghost use Rattle.partitioned_run.specs.Partitioned.{AddsAuditOf, AddsAudits, dc_behind, kept_dc, kept_dcs};
ghost use Rattle.partitioned_run.specs.Joining.Reporting.{AreAllOf};
ghost use Rattle.partitioned_run.specs.declared.answering.PartitionOutcome.{PartitionOutcome as OutcomeValue};

use crate::answering::PartitionOutcome;
use crate::fault::Fault;
use crate::recovering::{file_of, partition_line};
use data_component::dc::Dc;
use partitions::Partitions;
use run_calls::answer_lines::write_answers;
use run_calls::answering::has_want_of_memory;
use run_calls::figures::full_line;
use run_ground::ground::Ground;
use run_ground::stop::Stop;
use state_lines::audit_lines::write_audit_if;
use state_lines::row_lines::write_rows;
use std::alloc::{AllocError, Global};
use std::fs::File;
use std::rt::Files;
use worker_pool::Answer;

/// What the calls of each partition came to, in the order of their numbers: what they were run on, behind the last, if
/// there are any, and what those of both lists were answered.
#[derive(Drop)]
pub struct Outcomes {
    pub grounds: Vec<Option<Ground>>,
    pub first: Vec<Vec<Answer>>,
    pub calls: Vec<Vec<Answer>>,
}

impl Outcomes {
    // Of so many partitions none yet.
    fn with_capacity(alloc: Global, count: usize) -> Result<Outcomes, AllocError>
        ensures { IfOk result (λ all. (all.grounds.items ≡ []) × (all.first.items ≡ []) × (all.calls.items ≡ [])) }
    {
        let first = Vec::with_capacity(alloc, count)?;
        let calls = Vec::with_capacity(alloc, count)?;
        Ok(Outcomes {
            grounds: Vec::with_capacity(alloc, count)?,
            first,
            calls,
        })
    }

    // Adds what the calls of the next one came to.
    fn add(&mut self, ran: PartitionOutcome) -> Result<(), AllocError>
        ensures grounds { OnOk result (self.new.grounds.items ≡ self.old.grounds.items ++ ran.ground ∷ []) }
        ensures first { OnOk result (self.new.first.items ≡ self.old.first.items ++ ran.answers.first ∷ []) }
        ensures calls { OnOk result (self.new.calls.items ≡ self.old.calls.items ++ ran.answers.calls ∷ []) }
    {
        let PartitionOutcome { ground, answers } = ran;
        self.grounds.push(ground)?;
        self.first.push(answers.first)?;
        self.calls.push(answers.calls)?;
        Ok(())
    }
}

// Adds what the calls of the next one came to, unless something stopped them.
#[tactic(auto, using(crate::proofs::ReportingLemmas::one_run_more))]
fn add_next(all: &mut Outcomes, next: Result<PartitionOutcome, Stop>) -> Result<(), Fault>
    ensures { OnOk result ((before : List (Result OutcomeValue StopValue)) → AreAllOf before all.old → AreAllOf (before ++ next ∷ []) all.new) }
{
    match next {
        Ok(ran) => match all.add(ran) {
            Ok(()) => Ok(()),
            Err(error) => Err(Fault::from(error)),
        },
        Err(stop) => Err(Fault::Stopped(all.grounds.len(), stop)),
    }
}

/// What the calls of all partitions came to, unless something stopped those of one.
pub fn outcomes_of(
    alloc: Global,
    ran: Vec<Result<PartitionOutcome, Stop>>,
) -> Result<Outcomes, Fault>
    ensures { IfOk result (AreAllOf ran.items) }
{
    let mut all = match Outcomes::with_capacity(alloc, ran.len()) {
        Ok(none) => none,
        Err(error) => {
            drop(ran);
            return Err(Fault::from(error));
        }
    };
    'runs: for next in ran {
        if let Err(fault) = add_next(&mut all, next) {
            drop(all);
            return Err(fault);
        }
    }
    Ok(all)
}

/// The lines of what calls of both lists were answered, behind those in front.
pub fn answered_lines(
    alloc: Global,
    front: String,
    first: &[Answer],
    calls: &[Answer],
) -> Result<String, AllocError>
    ensures { IfOk result (λ lines. string_bytes lines
        ≡ string_bytes front ++ (answer_lines (codes "first") first.now ++ answer_lines (codes "call") calls.now)) }
{
    let mut lines = front;
    write_answers(alloc, "first", first, &mut lines)?;
    write_answers(alloc, "call", calls, &mut lines)?;
    Ok(lines)
}

// The data component with this number behind a partition's calls: as it began where there are none.
fn dc_behind<'a>(ground: &'a Option<Ground>, number: usize, empty: &'a Dc) -> &'a Dc
    ensures { result.now ≡ dc_behind ground.entry.now number empty.entry.now }
{
    match ground {
        Some(ground) => ground.dcs.get(number).unwrap_or(empty),
        None => empty,
    }
}

// The same behind the calls of its own partition.
fn kept_dc<'a>(
    partitions: &Partitions,
    grounds: &'a [Option<Ground>],
    number: usize,
    empty: &'a Dc,
) -> &'a Dc
    ensures { result.now ≡ kept_dc partitions.now grounds.now number empty.entry.now }
{
    match grounds.get(partitions.number(number)) {
        Some(ground) => dc_behind(ground, number, empty),
        None => empty,
    }
}

/// Adds a line for each record that the data components keep, each behind the calls of its partition.
pub fn write_kept(
    alloc: Global,
    partitions: &Partitions,
    grounds: &[Option<Ground>],
    empty: &[Dc],
    lines: &mut String,
) -> Result<(), AllocError>
    ensures { OnOk result (AddsRowLines (kept_dcs partitions.now grounds.now empty.now) (string_bytes lines.old) (string_bytes lines.new)) }
{
    for (number, dc) in empty.iter().enumerate() {
        let kept = kept_dc(partitions, grounds, number, dc);
        write_rows(alloc, kept.rows(), lines)?;
    }
    Ok(())
}

/// A line for each data component that is full behind the calls of its partition.
pub fn full_kept(
    alloc: Global,
    partitions: &Partitions,
    grounds: &[Option<Ground>],
    empty: &[Dc],
) -> Result<String, AllocError>
    ensures { IfOk result (λ text. string_bytes text ≡ full_lines (kept_dcs partitions.now grounds.now empty.now)) }
{
    let mut text = String::new(alloc);
    for (number, dc) in empty.iter().enumerate() {
        let kept = kept_dc(partitions, grounds, number, dc);
        let line = full_line(alloc, number, kept)?;
        text.push_str(line.as_str())?;
    }
    Ok(text)
}

// Adds what an audit finds of the partition with this number, behind the line that names it, where it has calls and that is
// wanted, and answers whether nothing is wrong.
fn write_audit_of(
    alloc: Global,
    audit: bool,
    number: usize,
    ground: &Option<Ground>,
    lines: &mut String,
) -> Result<bool, AllocError>
    ensures { IfOk result (AddsAuditOf audit number ground.now (string_bytes lines.old) (string_bytes lines.new)) }
{
    match ground {
        Some(ground) if audit => {
            lines.push_str(partition_line(alloc, number)?.as_str())?;
            write_audit_if(alloc, true, &ground.state, ground.dcs.as_slice(), lines)
        }
        _ => Ok(true),
    }
}

// Whether both are so.
fn are_both(one: bool, other: bool) -> bool
    ensures { result ≡ (one && other) }
{
    one && other
}

/// Adds what an audit finds of each partition with calls, where that is wanted, and answers whether nothing is wrong.
pub fn write_audits(
    alloc: Global,
    audit: bool,
    grounds: &[Option<Ground>],
    lines: &mut String,
) -> Result<bool, AllocError>
    ensures { IfOk result (AddsAudits audit grounds.now (string_bytes lines.old) (string_bytes lines.new)) }
{
    let mut sound = true;
    for (number, ground) in grounds.iter().enumerate() {
        let found = write_audit_of(alloc, audit, number, ground, lines)?;
        sound = are_both(sound, found);
    }
    Ok(sound)
}

/// Whether a call of either list was refused for want of memory.
pub fn lack_memory(first: &[Answer], calls: &[Answer]) -> bool
    ensures { result ≡ false → (list_any is_want_of_memory first.now ≡ false) × (list_any is_want_of_memory calls.now ≡ false) }
{
    has_want_of_memory(first) || has_want_of_memory(calls)
}

// Whether the file of the partition with this number still has its name, if it has one.
fn check_name<F: Files<File = File>>(
    rt: &F,
    alloc: Global,
    log: &str,
    number: usize,
    ground: &Option<Ground>,
) -> Result<(), Fault> {
    let Some(
        Ground {
            journal: Some(journal),
            ..
        },
    ) = ground
    else {
        return Ok(());
    };
    let path = file_of(alloc, log, number)?;
    match journal.device().check_name(rt, path.as_str()) {
        Ok(()) => Ok(()),
        Err(fault) => Err(Fault::Stopped(number, Stop::NotKept(Some(fault)))),
    }
}

/// Whether the file of each partition still has its name.
pub fn check_names<F: Files<File = File>>(
    rt: &F,
    alloc: Global,
    log: &str,
    grounds: &[Option<Ground>],
) -> Result<(), Fault> {
    for (number, ground) in grounds.iter().enumerate() {
        check_name(rt, alloc, log, number, ground)?;
    }
    Ok(())
}
