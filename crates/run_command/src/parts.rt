//! The calls of a script, answered in parts, between which the log may begin anew.

ghost use Rattle.std.specs.Prelude.{◌≡◌, ◌++◌, ◌+◌, ◌<◌, ◌≤◌, ℕ, Bool, List, [], length, drop, None, false, IsTrue};
ghost use Rattle.std.specs.Prelude.{is_some, IfOk, IfErr, IsOkAnd, OnOk, codes, string_bytes};
ghost use Rattle.worker_pool.specs.Faults.{InRange};
ghost use Rattle.run_calls.specs.AnswerLines.{answer_line, lines_from, call_lines};
ghost use Rattle.run_calls.specs.Answered.{AreCallsOf};
ghost use Rattle.run_ground.specs.Kept.{KeepsLog};
ghost use Rattle.run_log.specs.declared.anew.Renewal.TheVariants.{Unwanted};
ghost use Rattle.run_log.specs.Anew.{IsHeeded, IsRenewal};
ghost use Rattle.run_ground.specs.Stops.{IsUnkept};
ghost use Rattle.run_calls.specs.Stops.{Stops};
ghost use Rattle.run_command.specs.Fitting.{IsMeasured, IsMeasuredIf};
ghost use Rattle.run_command.specs.Joining.Parts.{IsStep, HasEnded};

use crate::fitting::{over_before, part_length};
use run_calls::answer_lines::{answer_line, write_calls};
use run_calls::answering::{Answers, Rings, RunInput, answer_on};
use run_calls::calls::calls_of;
use run_calls::watching::Waits;
use run_ground::ground::Ground;
use run_ground::stop::Stop;
use run_log::anew::{Renewal, renew};
use scripts::script;
use std::alloc::{AllocError, Global};
use std::fs::File;
use std::rt::Files;
use std::sync::Wait;
use std::thread::Threads;
use std::time::Clock;
use tc_core::state::Call;
use worker_pool::Answer;

/// What calls came to: what they were run on, behind the last, what they were answered, the lines of that, and what came
/// of the log behind the last.
#[derive(Drop)]
pub struct RunOutcome {
    pub ground: Ground,
    pub answers: Answers,
    pub lines: String,
    pub renewal: Renewal,
}

// What a part is answered with: the calls of both lists, and rings to so many data components.
fn prepare(
    alloc: Global,
    part: RunInput<script::Call>,
    dcs: usize,
) -> Result<(Vec<Call>, Vec<Call>, Rings), AllocError>
    ensures first { IfOk result (λ r. AreCallsOf part.entry.first.now r.0.items) }
    ensures calls { IfOk result (λ r. AreCallsOf part.entry.calls.now r.1.items) }
{
    let first = calls_of(alloc, part.first)?;
    let calls = calls_of(alloc, part.calls)?;
    let rings = Rings::new(alloc, dcs, part.manner.workers)?;
    Ok((first, calls, rings))
}

// Adds the lines of the first list's calls behind so many of these answers.
fn write_first(
    alloc: Global,
    answers: &[Answer],
    before: usize,
    lines: &mut String,
) -> Result<(), AllocError>
    requires { before ≤ length answers.now }
    ensures { OnOk result (string_bytes lines.new ≡ string_bytes lines.old
        ++ lines_from (answer_line (codes "first")) before (drop before answers.now)) }
{
    let (_, new) = answers.split_at(before);
    for (index, answer) in new.iter().enumerate() {
        let line = answer_line(alloc, "first", before + index, answer)?;
        lines.push_str(line.as_str())?;
    }
    Ok(())
}

impl RunOutcome {
    // Of no call yet.
    fn new(alloc: Global, ground: Ground) -> RunOutcome
        ensures { (result.ground ≡ ground) × (result.answers.first.items ≡ []) × (result.answers.calls.items ≡ [])
            × (string_bytes result.lines ≡ []) }
    {
        RunOutcome {
            ground,
            answers: Answers::new(alloc),
            lines: String::new(alloc),
            renewal: Renewal::Unwanted,
        }
    }

    // Adds what more calls were answered, and their lines, by the state behind them.
    fn add(&mut self, alloc: Global, results: bool, more: Answers) -> Result<(), AllocError>
        ensures ground { OnOk result (self.new.ground ≡ self.old.ground) }
        ensures first { OnOk result (self.new.answers.first.items ≡ self.old.answers.first.items ++ more.first.items) }
        ensures calls { OnOk result (self.new.answers.calls.items ≡ self.old.answers.calls.items ++ more.calls.items) }
        ensures lines { OnOk result (string_bytes self.new.lines ≡ string_bytes self.old.lines
            ++ (lines_from (answer_line (codes "first")) (length self.old.answers.first.items) more.first.items
            ++ call_lines results self.old.ground.state.procs self.old.ground.state.events
            (length self.old.answers.calls.items) more.calls.items)) }
    {
        let first_before = self.answers.first.len();
        let before = self.answers.calls.len();
        self.answers.add(more)?;
        let first = self.answers.first.as_slice();
        write_first(alloc, first, first_before, &mut self.lines)?;
        write_calls(
            alloc,
            results,
            &self.ground.state,
            self.answers.calls.as_slice(),
            before,
            &mut self.lines,
        )
    }
}

// Adds what calls were answered behind what others were.
fn add_answered(
    alloc: Global,
    results: bool,
    answered: Result<(Ground, Answers), Stop>,
    answers: Answers,
    lines: String,
) -> Result<RunOutcome, Stop>
    ensures ok { IfOk result (λ o. IsOkAnd answered (λ a. (o.ground ≡ a.0)
        × (o.answers.first.items ≡ answers.first.items ++ a.1.first.items)
        × (o.answers.calls.items ≡ answers.calls.items ++ a.1.calls.items)
        × (string_bytes o.lines ≡ string_bytes lines ++ (lines_from (answer_line (codes "first")) (length answers.first.items) a.1.first.items
        ++ call_lines results a.0.state.procs a.0.state.events (length answers.calls.items) a.1.calls.items)))) }
    ensures fault { (keeps : Bool) (workers tries : ℕ) → IfErr answered (Stops keeps workers tries)
        → IfErr result (Stops keeps workers tries) }
{
    match answered {
        Ok((ground, more)) => {
            let mut outcome = RunOutcome {
                ground,
                answers,
                lines,
                renewal: Renewal::Unwanted,
            };
            match outcome.add(alloc, results, more) {
                Ok(()) => Ok(outcome),
                Err(error) => {
                    drop(outcome);
                    Err(Stop::from(error))
                }
            }
        }
        Err(stop) => {
            drop(answers);
            drop(lines);
            Err(stop)
        }
    }
}

// Answers one part more.
fn answer_part<R: Clock + Threads + Wait + Sync>(
    rt: &R,
    alloc: Global,
    so_far: RunOutcome,
    part: RunInput<script::Call>,
    waits: &Waits,
) -> Result<RunOutcome, Stop>
    ensures step { IfOk result (IsStep part.entry.manner.results so_far part.entry.first.now part.entry.calls.now) }
    ensures kept { KeepsLog so_far.ground.journal so_far.ground.state.events
        → IfOk result (λ o. KeepsLog o.ground.journal o.ground.state.events) }
    ensures same { IfOk result (λ o. is_some o.ground.journal ≡ is_some so_far.ground.journal) }
    ensures range { IfOk result (λ _. InRange part.entry.manner.workers part.entry.manner.tries) }
    ensures fault { IfErr result (Stops (is_some so_far.ground.journal) part.entry.manner.workers part.entry.manner.tries) }
{
    match prepare(alloc, part, so_far.ground.dcs.len()) {
        Ok((first, calls, rings)) => {
            let RunOutcome {
                ground,
                answers,
                lines,
                renewal: _,
            } = so_far;
            let input = RunInput {
                first: first.as_slice(),
                calls: calls.as_slice(),
                place: part.place,
                manner: part.manner,
                checkpoints: part.checkpoints,
            };
            let answered = answer_on(rt, alloc, ground, input, waits, rings);
            drop(first);
            drop(calls);
            add_answered(alloc, part.manner.results, answered, answers, lines)
        }
        Err(error) => {
            drop(so_far);
            Err(Stop::from(error))
        }
    }
}

// The calls of a list that a part has, and the others.
fn split<'a>(
    ground: &Ground,
    renewal: Renewal,
    calls: &'a [script::Call],
) -> (&'a [script::Call], &'a [script::Call])
    ensures whole { calls.now ≡ result.0.now ++ result.1.now }
    ensures fewer { 0 < length calls.now → length result.1.now < length calls.now }
    ensures measured { IsMeasured ground.now.state.procs ground.now.dcs.items renewal result.0.now }
{
    let dcs = ground.dcs.as_slice();
    calls.split_at(part_length(ground.state.procs(), dcs, renewal, calls))
}

// The next part of the calls that are left, when this came of the log before them, and what is left after it. Where the
// log may begin anew between two parts, a part has calls of one list.
fn next_part<'a>(
    ground: &Ground,
    renewal: Renewal,
    rest: RunInput<'a, script::Call>,
) -> (RunInput<'a, script::Call>, RunInput<'a, script::Call>)
    ensures first { rest.entry.first.now ≡ result.0.first.now ++ result.1.first.now }
    ensures calls { rest.entry.calls.now ≡ result.0.calls.now ++ result.1.calls.now }
    ensures fewer { 0 < length rest.entry.first.now + length rest.entry.calls.now
        → length result.1.first.now + length result.1.calls.now < length rest.entry.first.now + length rest.entry.calls.now }
    ensures measured { IsMeasuredIf rest.entry.checkpoints.over ground.now.state.procs ground.now.dcs.items renewal
        (result.0.first.now ++ result.0.calls.now) }
    ensures none { rest.entry.checkpoints.over ≡ None → (result.1.first.now ≡ []) × (result.1.calls.now ≡ []) }
    ensures manner { (result.0.manner ≡ rest.entry.manner) × (result.0.checkpoints ≡ rest.entry.checkpoints) }
    ensures others { (result.1.manner ≡ rest.entry.manner) × (result.1.checkpoints ≡ rest.entry.checkpoints) }
{
    if rest.checkpoints.over.is_none() {
        let none = RunInput {
            first: &[],
            calls: &[],
            ..rest
        };
        return (rest, none);
    }
    if rest.first.is_empty() {
        let (calls, left) = split(ground, renewal, rest.calls);
        return (
            RunInput { calls, ..rest },
            RunInput {
                calls: left,
                ..rest
            },
        );
    }
    let (first, left) = split(ground, renewal, rest.first);
    let part = RunInput {
        first,
        calls: &[],
        ..rest
    };
    (
        part,
        RunInput {
            first: left,
            ..rest
        },
    )
}

// Whether no call is left.
fn is_over(rest: &RunInput<script::Call>) -> bool
    ensures over { IsTrue result → (length rest.now.first.now ≡ 0) × (length rest.now.calls.now ≡ 0) }
    ensures more { result ≡ false → 0 < length rest.now.first.now + length rest.now.calls.now }
{
    if rest.first.is_empty() {
        rest.calls.is_empty()
    } else {
        false
    }
}

// Begins the log anew behind the calls so far, where its file has more bytes than this.
fn renew_behind<F: Files<File = File>>(
    rt: &F,
    alloc: Global,
    path: &str,
    over: Option<u64>,
    outcome: RunOutcome,
) -> Result<RunOutcome, Stop>
    ensures renewed { IfOk result (λ o. IsRenewal outcome.ground.state outcome.ground.dcs.items
        o.ground.state o.ground.dcs.items o.renewal) }
    ensures answers { IfOk result (λ o. (o.answers ≡ outcome.answers) × (o.lines ≡ outcome.lines)) }
    ensures unwanted { IfOk result (λ o. over ≡ None → o.renewal ≡ Unwanted) }
    ensures heeded { IfOk result (λ o. IsHeeded o.ground.journal over o.renewal) }
    ensures same { IfOk result (λ o. is_some o.ground.journal ≡ is_some outcome.ground.journal) }
    ensures kept { KeepsLog outcome.ground.journal outcome.ground.state.events
        → IfOk result (λ o. KeepsLog o.ground.journal o.ground.state.events) }
    ensures fault { IfErr result (IsUnkept (is_some outcome.ground.journal)) }
{
    let mut outcome = outcome;
    match renew(rt, alloc, path, over, &mut outcome.ground) {
        Ok(renewal) => {
            outcome.renewal = renewal;
            Ok(outcome)
        }
        Err(stop) => {
            drop(outcome);
            Err(stop)
        }
    }
}

/// Answers all calls, in parts between which the log begins anew where its file has grown or a data component may have no
/// room for the next call, and once more behind the last.
pub fn answer_parts<R: Files<File = File> + Clock + Threads + Wait + Sync>(
    rt: &R,
    alloc: Global,
    path: &str,
    ground: Ground,
    input: RunInput<script::Call>,
    waits: &Waits,
) -> Result<RunOutcome, Stop>
    ensures ended { IfOk result (HasEnded input.entry.manner.results ground.state ground.dcs.items
        input.entry.first.now input.entry.calls.now input.entry.checkpoints) }
    ensures kept { KeepsLog ground.journal ground.state.events → IfOk result (λ o. KeepsLog o.ground.journal o.ground.state.events) }
    ensures same { IfOk result (λ o. is_some o.ground.journal ≡ is_some ground.journal) }
    ensures range { IfOk result (λ _. InRange input.entry.manner.workers input.entry.manner.tries) }
    ensures fault { IfErr result (Stops (is_some ground.journal) input.entry.manner.workers input.entry.manner.tries) }
{
    let (part, mut rest) = next_part(&ground, Renewal::Unwanted, input);
    let mut outcome = answer_part(rt, alloc, RunOutcome::new(alloc, ground), part, waits)?;
    'parts: while !is_over(&rest) {
        let over = over_before(
            &outcome.ground,
            rest.checkpoints.over,
            rest.first,
            rest.calls,
        );
        let renewed = renew_behind(rt, alloc, path, over, outcome)?;
        let place = input.calls.len() - rest.calls.len();
        let left = RunInput { place, ..rest };
        let (part, behind) = next_part(&renewed.ground, renewed.renewal, left);
        outcome = answer_part(rt, alloc, renewed, part, waits)?;
        rest = behind;
    }
    let over = input.checkpoints.over_at_end();
    renew_behind(rt, alloc, path, over, outcome)
}
