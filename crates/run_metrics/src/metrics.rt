// The metrics of a run in a file.

use crate::counters::Counters;
use crate::exposition::{Delays, Figures, LogFigures, exposition};
use crate::outcome::Outcome;
use crate::output_file::OutputFile;
use std::alloc::{AllocError, Global};
use std::fs::{self, File};
use std::io::{self, ErrorKind};
use std::rt::Files;
use std::sync::atomic::{AtomicU64, Ordering};

// It is written anew each second, in nanoseconds.
const WRITTEN_EACH: u64 = 1_000_000_000;

/// What is counted of a run's calls, and the file that says it while the run lasts.
#[derive(Drop)]
pub struct Metrics {
    file: OutputFile,
    counters: Counters,
    wanted: u64,
    log: Option<String>,
    written: AtomicU64,
}

impl Metrics {
    /// Of a run that is to make so many calls, whose log the file of the other path keeps, if one does.
    pub fn new(
        alloc: Global,
        file: OutputFile,
        wanted: usize,
        log: Option<&str>,
    ) -> Result<Metrics, AllocError> {
        let log = match log {
            Some(path) => Some(String::from_str(alloc, path)?),
            None => None,
        };
        Ok(Metrics {
            file,
            counters: Counters::new(alloc)?,
            wanted: wanted as u64,
            log,
            written: AtomicU64::new(0),
        })
    }

    /// One call more, which took so many nanoseconds if it began.
    pub fn count(&self, outcome: Outcome, took: Option<u64>) {
        self.counters.count(outcome, took);
    }

    /// Whether the file is a second old, so many nanoseconds behind the run's beginning. One of those who ask then is told so.
    pub fn is_due(&self, now: u64) -> bool {
        let last = self.written.load(Ordering::SeqCst);
        now.saturating_sub(last) >= WRITTEN_EACH
            && self
                .written
                .compare_exchange(last, now, Ordering::SeqCst, Ordering::SeqCst)
                .is_ok()
    }

    // The file that keeps the log, if there is one and it can be looked at.
    fn log_figures<F: Files<File = File>>(&self, rt: &F, syncs: Option<u64>) -> Option<LogFigures> {
        let path = self.log.as_ref()?.as_str();
        let bytes = fs::metadata(rt, path).ok()?.len();
        Some(LogFigures { bytes, syncs })
    }

    fn text<F: Files<File = File>>(
        &self,
        rt: &F,
        alloc: Global,
        delays: Delays,
        syncs: Option<u64>,
    ) -> Result<String, AllocError> {
        let figures = Figures {
            wanted: self.wanted,
            outcomes: self.counters.outcomes(),
            durations: self.counters.durations(alloc)?,
            delays,
            log: self.log_figures(rt, syncs),
        };
        exposition(alloc, &figures)
    }

    /// Writes the file anew, with what delayed calls so far, and how often the log's file was synced where that is known.
    pub fn write<F: Files<File = File>>(
        &self,
        rt: &F,
        alloc: Global,
        delays: Delays,
        syncs: Option<u64>,
    ) {
        let Some(mut draft) = self.file.begin(rt, alloc) else {
            return;
        };
        let written = match self.text(rt, alloc, delays, syncs) {
            Ok(text) => draft.write(text.as_str()),
            Err(AllocError) => Err(io::Error::from(ErrorKind::OutOfMemory)),
        };
        self.file.end(rt, draft, written);
    }
}
