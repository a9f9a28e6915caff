//! How long the calls of a run wait for their answers, and what is told of them meanwhile.

ghost use Rattle.std.specs.Prelude.{◌≡◌};
ghost use Rattle.run_calls.specs.Outcomes.{outcome_of, phase_of};

use crate::answer_lines::answer_line;
use crate::figures::{Latencies, Watched, name_at};
use run_metrics::{Delays, Kind, Metrics, Outcome, OutputFile, Phase, Trace};
use scripts::script;
use std::alloc::{AllocError, Global};
use std::io::{Stderr, Write};
use std::sync::atomic::{AtomicU64, Ordering};
use std::time::{Clock, Instant};
use tc_core::Procs;
use worker_pool::{Acknowledgement, Answer, Gate, RunSpec, Stage};

// A line of progress a second, in nanoseconds.
const TOLD_EACH: u64 = 1_000_000_000;

/// Takes away what stands in a terminal's line.
const CLEARED: &str = "\r\x1b[K";

/// Who is told of calls while a run lasts, and behind it.
#[derive(Clone, Copy)]
pub struct Listeners<'a> {
    /// A terminal is told once a second how many are answered.
    pub terminal: Option<Stderr>,
    /// It is told of each answer as soon as it stands, by a line with the call's place and its answer.
    pub each: Option<Stderr>,
    /// The file of this path has the run's metrics, anew each second.
    pub metrics: Option<&'a str>,
    /// The file of this path has the spans of its calls and of their phases, behind the last.
    pub trace: Option<&'a str>,
    /// The system that writes these files, whichever thread they are written by.
    pub system: HostRuntime,
}

/// What is known of a run's calls while it lasts: how long each takes from its beginning to its
/// answer, where that is asked for, and how many are answered.
#[derive(Drop)]
pub struct Waits {
    alloc: Global,
    // How many calls there are.
    total: usize,
    // When they were begun, where somebody asks for what is known and the clock can be read.
    start: Option<Instant>,
    // Of each call, in nanoseconds: 0, then when it began, and at last how long it took.
    calls: Vec<AtomicU64>,
    terminal: Option<Stderr>,
    each: Option<Stderr>,
    // It writes the files of both.
    system: HostRuntime,
    metrics: Option<Metrics>,
    trace: Option<Trace>,
    answered: AtomicU64,
    told: AtomicU64,
    lock_waits: AtomicU64,
    resends: AtomicU64,
}

// So many zeros.
fn zeros(alloc: Global, count: usize) -> Result<Vec<AtomicU64>, AllocError> {
    let mut zeros = Vec::with_capacity(alloc, count)?;
    for _ in 0..count {
        zeros.push(AtomicU64::new(0))?;
    }
    Ok(zeros)
}

// The metrics of so many calls, if a file is to have them.
fn metrics_of(
    alloc: Global,
    listeners: Listeners,
    total: usize,
    log: Option<&str>,
) -> Result<Option<Metrics>, AllocError> {
    let Some(path) = listeners.metrics else {
        return Ok(None);
    };
    let file = OutputFile::new(alloc, path, Kind::Metrics, listeners.system.stderr())?;
    Ok(Some(Metrics::new(alloc, file, total, log)?))
}

// The trace of so many calls, if a file is to have it.
fn trace_of(
    alloc: Global,
    listeners: Listeners,
    total: usize,
) -> Result<Option<Trace>, AllocError> {
    let Some(path) = listeners.trace else {
        return Ok(None);
    };
    let file = OutputFile::new(alloc, path, Kind::Trace, listeners.system.stderr())?;
    Ok(Some(Trace::new(alloc, file, total)?))
}

/// How a call with this answer came out.
pub fn outcome_of(answer: &Answer) -> Outcome
    ensures { result ≡ outcome_of answer.now }
{
    match answer {
        Answer::Committed(_) => Outcome::Committed,
        Answer::Aborted(..) | Answer::NoRoom(_) => Outcome::Aborted,
        Answer::InDoubt(_) => Outcome::InDoubt,
        Answer::Blocked(_) => Outcome::Blocked,
        Answer::Refused(_) => Outcome::Refused,
    }
}

// What a call does from a stage on.
fn phase_of(stage: Stage) -> Phase
    ensures { result ≡ phase_of stage }
{
    match stage {
        Stage::Waiting => Phase::Waiting,
        Stage::Carried | Stage::CarriedAgain => Phase::Carrying,
        Stage::Back => Phase::Asking,
        Stage::Answered => Phase::Keeping,
    }
}

impl Waits {
    /// So many calls, of which none has begun, with room for the times of them where these are asked for. The log is kept
    /// in the file of the other path, if it is.
    pub fn new<R: Clock>(
        rt: &R,
        alloc: Global,
        total: usize,
        is_timed: bool,
        listeners: Listeners,
        log: Option<&str>,
    ) -> Result<Waits, AllocError> {
        let metrics = metrics_of(alloc, listeners, total, log)?;
        let trace = trace_of(alloc, listeners, total)?;
        let is_timed = is_timed || metrics.is_some() || trace.is_some();
        let is_idle = !is_timed && listeners.terminal.is_none();
        Ok(Waits {
            alloc,
            total,
            start: if is_idle { None } else { Instant::now(rt).ok() },
            calls: zeros(alloc, if is_timed { total } else { 0 })?,
            terminal: listeners.terminal,
            each: listeners.each,
            system: listeners.system,
            metrics,
            trace,
            answered: AtomicU64::new(0),
            told: AtomicU64::new(0),
            lock_waits: AtomicU64::new(0),
            resends: AtomicU64::new(0),
        })
    }

    /// Writes the metrics, and says whether the trace can be written, before the first call.
    pub fn begin(&self) {
        self.write_metrics(None);
        if let Some(trace) = &self.trace {
            trace.check(&self.system, self.alloc);
        }
    }

    /// Writes the metrics anew, with how often the log's file was synced where that is known.
    pub fn write_metrics(&self, syncs: Option<u64>) {
        if let Some(metrics) = &self.metrics {
            metrics.write(&self.system, self.alloc, self.delays(), syncs);
        }
    }

    /// What delayed calls so far.
    pub fn delays(&self) -> Delays {
        Delays {
            lock_waits: self.lock_waits.load(Ordering::SeqCst),
            resends: self.resends.load(Ordering::SeqCst),
        }
    }

    /// Writes the trace of these calls, which have these answers.
    pub fn write_trace(&self, procs: &Procs, calls: &[script::Call], answers: &[Answer]) {
        let Some(trace) = &self.trace else {
            return;
        };
        let (Some(traced), Some(mut draft)) = (
            trace.calls(self.alloc),
            trace.open(&self.system, self.alloc),
        ) else {
            return;
        };
        for number in 0..traced.count() {
            let moments = traced.moments_of(number);
            let Some(first) = moments.first() else {
                continue;
            };
            if let (Some(call), Some(answer)) = (calls.get(first.call), answers.get(first.call)) {
                let name = name_at(procs, call.procedure);
                draft.call(self.alloc, name, outcome_of(answer), moments);
            }
        }
        trace.close(&self.system, self.alloc, draft);
    }

    // The call at this place comes to a phase.
    fn note(&self, place: usize, phase: Phase, now: u64) {
        if let Some(trace) = &self.trace {
            trace.note(place, phase, now);
        }
    }

    // Counts what delays calls.
    fn count_delay(&self, stage: Stage) {
        let delays = match stage {
            Stage::Waiting => &self.lock_waits,
            Stage::CarriedAgain => &self.resends,
            Stage::Carried | Stage::Back | Stage::Answered => return,
        };
        delays.fetch_add(1, Ordering::SeqCst);
    }

    // The call at this place begins now.
    fn begin_call(&self, place: usize, now: u64) {
        if let Some(call) = self.calls.get(place) {
            call.store(now.max(1), Ordering::SeqCst);
        }
        self.note(place, Phase::Asking, now);
    }

    // How long the call at this place took, which is answered now, if it began and that is asked for.
    fn end_call(&self, place: usize, now: u64) -> Option<u64> {
        let call = self.calls.get(place)?;
        let begun = call.load(Ordering::SeqCst);
        if begun == 0 {
            return None;
        }
        let took = now.saturating_sub(begun);
        call.store(took, Ordering::SeqCst);
        Some(took)
    }

    // Counts a call with this answer, which took so long if it began.
    fn count(&self, answer: &Answer, took: Option<u64>, now: u64) {
        if let Some(metrics) = &self.metrics {
            metrics.count(outcome_of(answer), took);
            if metrics.is_due(now) {
                metrics.write(&self.system, self.alloc, self.delays(), None);
            }
        }
    }

    // Writes a line with the call's place and its answer, at once.
    fn tell_each(&self, call: usize, answer: &Answer) {
        let Some(mut each) = self.each else {
            return;
        };
        let cleared = if self.shows_progress() { CLEARED } else { "" };
        if let Ok(line) = answer_line(self.alloc, "told", call, answer)
            && let Ok(line) = format!(in self.alloc; "{cleared}{line}")
        {
            let _ = each.write_all(line.as_bytes());
        }
    }

    // Writes how many calls are answered, of how many, and how many a second so far, over the line of before, where
    // that is a second old.
    fn tell(&self, mut terminal: Stderr, now: u64) {
        let answered = self.answered.fetch_add(1, Ordering::SeqCst).wrapping_add(1);
        let last = self.told.load(Ordering::SeqCst);
        if now.saturating_sub(last) >= TOLD_EACH
            && self
                .told
                .compare_exchange(last, now, Ordering::SeqCst, Ordering::SeqCst)
                .is_ok()
        {
            let total = self.total;
            let rate = u128::from(answered) * 1_000_000_000 / u128::from(now.max(1));
            // What passes the terminal's width is not wrapped: the next one would clear the last row of it alone.
            let _ = write!(
                terminal,
                "{CLEARED}\x1b[?7l{answered} of {total} calls answered, {rate} a second\x1b[?7h"
            );
        }
    }

    // Whether a line of progress stands on the terminal.
    fn shows_progress(&self) -> bool {
        self.terminal.is_some() && self.told.load(Ordering::SeqCst) > 0
    }

    /// Takes the line of progress away, if there is one.
    pub fn end(&self) {
        if let (Some(mut terminal), true) = (self.terminal, self.shows_progress()) {
            let _ = terminal.write_all(CLEARED.as_bytes());
        }
    }

    /// What was seen of the calls, once all are answered.
    pub fn watched(&self) -> Watched {
        Watched {
            latencies: self.latencies(),
            delays: self.delays(),
        }
    }

    // How long the calls that began took to their answer. None where there is no memory to sort them.
    fn latencies(&self) -> Option<Latencies> {
        let mut took = Vec::with_capacity(self.alloc, self.calls.len()).ok()?;
        for call in &self.calls {
            let nanos = call.load(Ordering::SeqCst);
            if nanos != 0 {
                took.push(nanos).ok()?;
            }
        }
        took.sort_unstable();
        Some(Latencies::of(took.as_slice()))
    }
}

/// Who watches a part of a run's calls by a clock.
#[derive(Drop)]
pub struct Watch<'a, R> {
    clock: &'a R,
    waits: &'a Waits,
    // The place of its first call among all.
    place: usize,
}

impl<'a, R: Clock> Watch<'a, R> {
    /// Watches the calls from this place on.
    pub fn new(clock: &'a R, waits: &'a Waits, place: usize) -> Watch<'a, R> {
        Watch {
            clock,
            waits,
            place,
        }
    }

    // The nanoseconds since the start.
    fn now(&self) -> Option<u64> {
        let elapsed = self.waits.start?.elapsed(self.clock).ok()?;
        u64::try_from(elapsed.as_nanos()).ok()
    }

    // The place among all calls of one of this part.
    fn place_of(&self, call: usize) -> usize {
        self.place.saturating_add(call)
    }
}

impl<R: Clock> Gate for Watch<'_, R> {
    fn begun(&self, call: usize) {
        if let Some(now) = self.now() {
            self.waits.begin_call(self.place_of(call), now);
        }
    }

    fn reaches(&self, call: usize, stage: Stage) {
        self.waits.count_delay(stage);
        if self.waits.trace.is_none() {
            return;
        }
        if let Some(now) = self.now() {
            self.waits.note(self.place_of(call), phase_of(stage), now);
        }
    }

    fn answered<J: RunSpec>(&self, acknowledgement: &Acknowledgement<J>) {
        let call = self.place_of(acknowledgement.call());
        let answer = acknowledgement.answer();
        self.waits.tell_each(call, &answer);
        let Some(now) = self.now() else {
            return;
        };
        self.waits.note(call, Phase::Told, now);
        let took = self.waits.end_call(call, now);
        self.waits.count(&answer, took, now);
        if let Some(terminal) = self.waits.terminal {
            self.waits.tell(terminal, now);
        }
    }

    // Times are noted, and what delays calls is counted.
    fn only_notes(&self) -> bool {
        true
    }

    // What is written for answers that one sync has kept is written together: to write each before the next call begins
    // would take a sync for each.
    fn is_prompt(&self) -> bool {
        true
    }
}
