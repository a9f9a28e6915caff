// A trace of a run's calls in a file.

use crate::lanes::take_lane;
use crate::moments::{Moment, Moments, TracedCalls};
use crate::outcome::Outcome;
use crate::output_file::{Draft, Kind, OutputFile};
use crate::phase::Phase;
use crate::span_text::{Call, Span, call_text, phase_text};
use std::alloc::{AllocError, Global};
use std::fs::File;
use std::io::{self, ErrorKind};
use std::rt::Files;

// So many bytes are written at a time.
const PIECE: usize = 65_536;

/// When a run's first calls came to each phase, and the file that is to have that.
#[derive(Drop)]
pub struct Trace {
    file: OutputFile,
    moments: Moments,
    total: usize,
}

/// A trace that is being written.
#[derive(Drop)]
pub struct TraceDraft {
    draft: Draft,
    piece: String,
    // Until when each lane is taken.
    until: Vec<u64>,
    written: io::Result<()>,
    calls: usize,
}

impl Trace {
    /// Of so many calls, or of the first 1,000,000 of them, and as far as 4,194,304 moments go.
    pub fn new(alloc: Global, file: OutputFile, calls: usize) -> Result<Trace, AllocError> {
        Ok(Trace {
            file,
            moments: Moments::new(alloc, calls)?,
            total: calls,
        })
    }

    /// Says whether the file can be written.
    pub fn check<F: Files<File = File>>(&self, rt: &F, alloc: Global) {
        self.file.check(rt, alloc);
    }

    /// A call comes to a phase, so many nanoseconds behind the run's beginning.
    pub fn note(&self, call: usize, phase: Phase, now: u64) {
        self.moments.note(Moment {
            call,
            phase,
            at: now,
        });
    }

    /// The calls that it has, in the order in which they began. None where memory runs out.
    pub fn calls(&self, alloc: Global) -> Option<TracedCalls> {
        match self.moments.calls(alloc) {
            Ok(calls) => Some(calls),
            Err(AllocError) => {
                self.file.tell_no_memory();
                None
            }
        }
    }

    /// Begins the file; none where it can't be written.
    pub fn open<F: Files<File = File>>(&self, rt: &F, alloc: Global) -> Option<TraceDraft> {
        let mut draft = self.file.begin(rt, alloc)?;
        let written = draft.write(Kind::Trace.beginning());
        Some(TraceDraft {
            draft,
            piece: String::new(alloc),
            until: Vec::new(alloc),
            written,
            calls: 0,
        })
    }

    /// Ends it, with how many calls it leaves out.
    pub fn close<F: Files<File = File>>(&self, rt: &F, alloc: Global, trace: TraceDraft) {
        let TraceDraft {
            mut draft,
            piece,
            until: _,
            written,
            calls,
        } = trace;
        let left_out = self.total.saturating_sub(calls);
        let end = format!(in alloc;
            "\n],\"displayTimeUnit\":\"ns\",\"otherData\":{{\"left_out\":{left_out}}}}}\n"
        );
        let written = written.and_then(|()| draft.write(piece.as_str()));
        let written = match end {
            Ok(end) => written.and_then(|()| draft.write(end.as_str())),
            Err(AllocError) => Err(io::Error::from(ErrorKind::OutOfMemory)),
        };
        self.file.end(rt, draft, written);
    }
}

impl TraceDraft {
    // Adds an event, and writes what has come together where that is a piece.
    fn add(&mut self, event: &str) -> io::Result<()> {
        self.piece.push_str(event)?;
        if self.piece.len() >= PIECE {
            self.draft.write(self.piece.as_str())?;
            self.piece.clear();
        }
        Ok(())
    }

    fn try_call(
        &mut self,
        alloc: Global,
        procedure: &str,
        outcome: Outcome,
        moments: &[Moment],
    ) -> io::Result<()> {
        let (Some(first), Some(last)) = (moments.first(), moments.last()) else {
            return Ok(());
        };
        let lane = take_lane(&mut self.until, first.at, last.at)?;
        let call = Call {
            place: first.call,
            outcome,
        };
        let event = call_text(
            alloc,
            procedure,
            call,
            Span::between(first.at, last.at),
            lane,
        )?;
        self.add(event.as_str())?;
        for (from, to) in moments.iter().zip(moments.iter().skip(1)) {
            let event = phase_text(
                alloc,
                from.phase.name(),
                Span::between(from.at, to.at),
                lane,
            )?;
            self.add(event.as_str())?;
        }
        self.calls = self.calls.saturating_add(1);
        Ok(())
    }

    /// Adds a call and its phases. No call begins later than the next. Behind a fault nothing is added.
    pub fn call(&mut self, alloc: Global, procedure: &str, outcome: Outcome, moments: &[Moment]) {
        if self.written.is_ok() {
            self.written = self.try_call(alloc, procedure, outcome, moments);
        }
    }
}
