//! The figures of a run: how many calls were answered how, how many a second, and which data components are full.

ghost use Rattle.std.specs.Prelude.{◌≡◌, ◌<◌, ◌++◌, IfOk, OnOk, count_by, string_bytes};
ghost use Rattle.std.specs.Duration.{as_nanos};
ghost use Rattle.run_calls.specs.Figures.{is_committed, is_aborted, is_in_doubt, is_blocked};
ghost use Rattle.run_calls.specs.Figures.{answers_of, done_text, undone_text, procedure_line, name_at, procedure_lines};
ghost use Rattle.run_calls.specs.Figures.{log_figures, figure_line, figure_lines, rate_line, all_but, latencies_of};
ghost use Rattle.run_calls.specs.Figures.{lines_of, delay_lines, full_line, full_lines, AreNotes};

use data_component::dc::Dc;
use run_metrics::Delays;
use scripts::script::Call;
use std::alloc::{AllocError, Global};
use std::time::Duration;
use tc_core::Procs;
use worker_pool::Answer;

fn committed(answers: &[Answer]) -> usize
    ensures { result ≡ count_by is_committed answers.now }
{
    answers
        .iter()
        .filter(|answer| matches!(answer, Answer::Committed(_)))
        .count()
}

// Those whose writes were undone.
fn aborted(answers: &[Answer]) -> usize
    ensures { result ≡ count_by is_aborted answers.now }
{
    answers
        .iter()
        .filter(|answer| matches!(answer, Answer::Aborted(..) | Answer::NoRoom(_)))
        .count()
}

fn in_doubt(answers: &[Answer]) -> usize
    ensures { result ≡ count_by is_in_doubt answers.now }
{
    answers
        .iter()
        .filter(|answer| matches!(answer, Answer::InDoubt(_)))
        .count()
}

fn blocked(answers: &[Answer]) -> usize
    ensures { result ≡ count_by is_blocked answers.now }
{
    answers
        .iter()
        .filter(|answer| matches!(answer, Answer::Blocked(_)))
        .count()
}

// Adds a figure's name and number.
fn write_figure(
    alloc: Global,
    name: &str,
    count: usize,
    text: &mut String,
) -> Result<(), AllocError>
    ensures { OnOk result (string_bytes text.new ≡ string_bytes text.old ++ figure_line name.now count) }
{
    let line = format!(in alloc; "{name} {count}\n")?;
    text.push_str(line.as_str())
}

/// A line for each figure: all calls, and how many committed, were aborted (their writes were
/// undone), are in doubt and were blocked.
pub fn figures(alloc: Global, answers: &[Answer]) -> Result<String, AllocError>
    ensures { IfOk result (λ s. string_bytes s ≡ figure_lines answers.now) }
{
    let mut text = String::new(alloc);
    write_figure(alloc, "calls", answers.len(), &mut text)?;
    write_figure(alloc, "committed", committed(answers), &mut text)?;
    write_figure(alloc, "aborted", aborted(answers), &mut text)?;
    write_figure(alloc, "in doubt", in_doubt(answers), &mut text)?;
    write_figure(alloc, "blocked", blocked(answers), &mut text)?;
    Ok(text)
}

// What the calls of the procedure with this number were answered.
fn answers_of(
    alloc: Global,
    number: usize,
    calls: &[Call],
    answers: &[Answer],
) -> Result<Vec<Answer>, AllocError>
    ensures { IfOk result (λ own. own.items ≡ answers_of number calls.now answers.now) }
{
    calls
        .iter()
        .zip(answers)
        .filter(|(call, _)| call.procedure == number)
        .map(|(_, answer)| *answer)
        .collect(alloc)
}

// How many calls the procedure of this name had, and how many of them committed and were aborted.
fn done_text(alloc: Global, name: &str, answers: &[Answer]) -> Result<String, AllocError>
    ensures { IfOk result (λ s. string_bytes s ≡ done_text name.now answers.now) }
{
    let calls = answers.len();
    let committed = committed(answers);
    let aborted = aborted(answers);
    format!(in alloc; "procedure {name} {calls} committed {committed} aborted {aborted}")
}

// How many of them stay in doubt and were blocked.
fn undone_text(alloc: Global, answers: &[Answer]) -> Result<String, AllocError>
    ensures { IfOk result (λ s. string_bytes s ≡ undone_text answers.now) }
{
    let in_doubt = in_doubt(answers);
    let blocked = blocked(answers);
    format!(in alloc; " in doubt {in_doubt} blocked {blocked}\n")
}

// The line of the procedure of this name, whose calls have these answers; nothing of one that wasn't called.
fn procedure_line(alloc: Global, name: &str, answers: &[Answer]) -> Result<String, AllocError>
    ensures { IfOk result (λ s. string_bytes s ≡ procedure_line name.now answers.now) }
{
    if answers.is_empty() {
        return Ok(String::new(alloc));
    }
    let mut line = done_text(alloc, name, answers)?;
    let undone = undone_text(alloc, answers)?;
    line.push_str(undone.as_str())?;
    Ok(line)
}

/// The name of the procedure with this number; none of one that there isn't.
pub fn name_at(procs: &Procs, number: usize) -> &str
    ensures { result.now ≡ name_at procs.now.names number }
{
    procs.name(number).unwrap_or("")
}

/// A line for each procedure that was called, in the order of their numbers: its name, how many calls it had, and how many
/// of these were answered how.
pub fn procedure_lines(
    alloc: Global,
    procs: &Procs,
    calls: &[Call],
    answers: &[Answer],
) -> Result<String, AllocError>
    ensures { IfOk result (λ s. string_bytes s ≡ procedure_lines procs.now calls.now answers.now) }
{
    let mut text = String::new(alloc);
    for number in 0..procs.len() {
        let own = answers_of(alloc, number, calls, answers)?;
        let line = procedure_line(alloc, name_at(procs, number), own.as_slice())?;
        text.push_str(line.as_str())?;
    }
    Ok(text)
}

/// The lines of the file that keeps the log: how often it was synced, and how many bytes it has.
pub fn log_figures(alloc: Global, syncs: u64, bytes: u64) -> Result<String, AllocError>
    ensures { IfOk result (λ s. string_bytes s ≡ log_figures syncs bytes) }
{
    format!(in alloc; "syncs {syncs}\nlog bytes {bytes}\n")
}

/// The line of how many calls were answered in a second, when so many took so long.
pub fn rate(alloc: Global, calls: usize, elapsed: Duration) -> Result<String, AllocError>
    ensures { IfOk result (λ s. string_bytes s ≡ rate_line calls (as_nanos elapsed)) }
{
    let micros = elapsed.as_micros().max(1);
    let rate = (calls as u128) * 1_000_000 / micros;
    format!(in alloc; "calls a second {rate}\n")
}

/// How many nanoseconds calls took from their beginning to their answer: half of them no more, 99 in a hundred no
/// more, and the one that took longest; 0 of none.
#[derive(Clone, Copy, Debug)]
pub struct Latencies {
    pub half: u64,
    pub most: u64,
    pub longest: u64,
}

/// What was seen of calls by who watched them: how long they took, where there was memory to sort that, and what delayed them.
#[derive(Clone, Copy, Debug)]
pub struct Watched {
    pub latencies: Option<Latencies>,
    pub delays: Delays,
}

// The least of rising numbers that all but one in so many aren't above (a percentile of nearest rank); 0 of none.
fn all_but(one_in: usize, rising: &[u64]) -> u64
    requires { 0 < one_in }
    ensures { result ≡ all_but one_in rising.now }
{
    let rank = rising.len() - rising.len() / one_in;
    match rising.get(rank.saturating_sub(1)) {
        Some(number) => *number,
        None => 0,
    }
}

impl Latencies {
    /// Those of calls that took so many nanoseconds, in rising order.
    pub fn of(rising: &[u64]) -> Latencies
        ensures { result ≡ latencies_of rising.now }
    {
        Latencies {
            half: all_but(2, rising),
            most: all_but(100, rising),
            longest: all_but(usize::MAX, rising),
        }
    }
}

/// A line for each latency, in microseconds.
pub fn latency_lines(alloc: Global, latencies: Latencies) -> Result<String, AllocError>
    ensures { IfOk result (λ s. string_bytes s ≡ lines_of latencies) }
{
    let Latencies {
        half,
        most,
        longest,
    } = latencies;
    let (half, most, longest) = (half / 1_000, most / 1_000, longest / 1_000);
    format!(in alloc; "p50 {half} us\np99 {most} us\nlongest wait {longest} us\n")
}

/// The lines of what delayed calls: how many had to wait for a lock, and how many wires were sent again.
pub fn delay_lines(alloc: Global, delays: Delays) -> Result<String, AllocError>
    ensures { IfOk result (λ s. string_bytes s ≡ delay_lines delays) }
{
    let Delays {
        lock_waits,
        resends,
    } = delays;
    format!(in alloc; "waits for locks {lock_waits}\nresends {resends}\n")
}

/// The line of a data component that is full; nothing of one that has room.
pub fn full_line(alloc: Global, number: usize, dc: &Dc) -> Result<String, AllocError>
    ensures { IfOk result (λ s. string_bytes s ≡ full_line number dc.now) }
{
    if !dc.is_full() {
        return Ok(String::new(alloc));
    }
    let operations = dc.performed().len();
    format!(in alloc; "full dc {number} {operations} operations\n")
}

// A line for each data component that has no room for a further operation: its number, and how many it has
// performed.
fn full_dcs(alloc: Global, dcs: &[Dc]) -> Result<String, AllocError>
    ensures { IfOk result (λ s. string_bytes s ≡ full_lines dcs.now) }
{
    let mut text = String::new(alloc);
    for (number, dc) in dcs.iter().enumerate() {
        let line = full_line(alloc, number, dc)?;
        text.push_str(line.as_str())?;
    }
    Ok(text)
}

/// These figures, with a line behind them for each data component that is full; nothing where there is none of both.
pub fn notes_of(alloc: Global, figures: String, dcs: &[Dc]) -> Result<Option<String>, AllocError>
    ensures { IfOk result (AreNotes (string_bytes figures) dcs.now) }
{
    let full = full_dcs(alloc, dcs)?;
    let mut notes = figures;
    notes.push_str(full.as_str())?;
    if notes.is_empty() {
        return Ok(None);
    }
    Ok(Some(notes))
}
