// What is counted of calls while a run lasts.

use crate::exposition::{Bucket, Durations, Outcomes};
use crate::outcome::Outcome;
use std::alloc::{AllocError, Global};
use std::sync::atomic::{AtomicU64, Ordering};

// The bounds of the histogram, in microseconds.
const BOUNDS: [u64; 19] = [
    10, 25, 50, 100, 250, 500, 1_000, 2_500, 5_000, 10_000, 25_000, 50_000, 100_000, 250_000,
    500_000, 1_000_000, 2_500_000, 5_000_000, 10_000_000,
];

// The calls that took longer than one bound and no longer than the next.
#[derive(Drop)]
struct Between {
    micros: u64,
    calls: AtomicU64,
}

/// How many calls were answered how, and how long they took.
#[derive(Drop)]
pub struct Counters {
    committed: AtomicU64,
    aborted: AtomicU64,
    in_doubt: AtomicU64,
    blocked: AtomicU64,
    refused: AtomicU64,
    between: Vec<Between>,
    longer: AtomicU64,
    nanos: AtomicU64,
}

impl Counters {
    /// Of no calls.
    pub fn new(alloc: Global) -> Result<Counters, AllocError> {
        let mut between = Vec::with_capacity(alloc, BOUNDS.len())?;
        for micros in BOUNDS {
            between.push(Between {
                micros,
                calls: AtomicU64::new(0),
            })?;
        }
        Ok(Counters {
            committed: AtomicU64::new(0),
            aborted: AtomicU64::new(0),
            in_doubt: AtomicU64::new(0),
            blocked: AtomicU64::new(0),
            refused: AtomicU64::new(0),
            between,
            longer: AtomicU64::new(0),
            nanos: AtomicU64::new(0),
        })
    }

    fn of(&self, outcome: Outcome) -> &AtomicU64 {
        match outcome {
            Outcome::Committed => &self.committed,
            Outcome::Aborted => &self.aborted,
            Outcome::InDoubt => &self.in_doubt,
            Outcome::Blocked => &self.blocked,
            Outcome::Refused => &self.refused,
        }
    }

    /// One call more, which took so many nanoseconds if it began.
    pub fn count(&self, outcome: Outcome, took: Option<u64>) {
        self.of(outcome).fetch_add(1, Ordering::SeqCst);
        let Some(nanos) = took else {
            return;
        };
        let within = self
            .between
            .iter()
            .find(|between| nanos <= between.micros.saturating_mul(1_000));
        let calls = match within {
            Some(between) => &between.calls,
            None => &self.longer,
        };
        calls.fetch_add(1, Ordering::SeqCst);
        self.nanos.fetch_add(nanos, Ordering::SeqCst);
    }

    /// How many were answered how so far.
    pub fn outcomes(&self) -> Outcomes {
        Outcomes {
            committed: self.committed.load(Ordering::SeqCst),
            aborted: self.aborted.load(Ordering::SeqCst),
            in_doubt: self.in_doubt.load(Ordering::SeqCst),
            blocked: self.blocked.load(Ordering::SeqCst),
            refused: self.refused.load(Ordering::SeqCst),
        }
    }

    /// How long those took that began.
    pub fn durations(&self, alloc: Global) -> Result<Durations, AllocError> {
        let nanos = self.nanos.load(Ordering::SeqCst);
        let mut buckets = Vec::with_capacity(alloc, self.between.len())?;
        let mut calls = 0u64;
        for between in &self.between {
            calls = calls.saturating_add(between.calls.load(Ordering::SeqCst));
            buckets.push(Bucket {
                micros: between.micros,
                calls,
            })?;
        }
        Ok(Durations {
            buckets,
            calls: calls.saturating_add(self.longer.load(Ordering::SeqCst)),
            nanos,
        })
    }
}
