// When calls come from one phase to the next.

use crate::phase::Phase;
use std::alloc::{AllocError, Global};
use std::sync::atomic::{AtomicU64, Ordering};

// Calls are looked at up to this many, and as many moments of them in all.
const MOST_CALLS: usize = 1_000_000;

const MOST_MOMENTS: usize = 4_194_304;

// A call of four record operations has eleven moments.
const MOMENTS_OF_A_CALL: usize = 24;

/// A moment of a run: a call, by its place, comes to a phase so many nanoseconds behind the run's beginning.
#[derive(Clone, Copy, Debug)]
pub struct Moment {
    pub call: usize,
    pub phase: Phase,
    pub at: u64,
}

// A moment as threads note it.
#[derive(Drop)]
struct Noted {
    call: AtomicU64,
    phase: AtomicU64,
    at: AtomicU64,
}

impl Noted {
    fn new() -> Noted {
        Noted {
            call: AtomicU64::new(0),
            phase: AtomicU64::new(0),
            at: AtomicU64::new(0),
        }
    }

    fn moment(&self) -> Moment {
        Moment {
            call: self.call.load(Ordering::SeqCst) as usize,
            phase: Phase::of_code(self.phase.load(Ordering::SeqCst)),
            at: self.at.load(Ordering::SeqCst),
        }
    }
}

/// The moments of a run's first calls, as they are noted. Of one call nobody notes two at once.
#[derive(Drop)]
pub struct Moments {
    noted: Vec<Noted>,
    // How many there were, with those that found no room.
    count: AtomicU64,
    calls: usize,
}

impl Moments {
    /// With room for those of so many calls, or of the first ones.
    pub fn new(alloc: Global, calls: usize) -> Result<Moments, AllocError> {
        let calls = calls.min(MOST_CALLS);
        let room = calls.saturating_mul(MOMENTS_OF_A_CALL).min(MOST_MOMENTS);
        let mut noted = Vec::with_capacity(alloc, room)?;
        for _ in 0..room {
            noted.push(Noted::new())?;
        }
        Ok(Moments {
            noted,
            count: AtomicU64::new(0),
            calls,
        })
    }

    /// Notes one, where there is room.
    pub fn note(&self, moment: Moment) {
        if moment.call >= self.calls {
            return;
        }
        let place = self.count.fetch_add(1, Ordering::SeqCst);
        if let Some(noted) = self.noted.get(place as usize) {
            noted.call.store(moment.call as u64, Ordering::SeqCst);
            noted.phase.store(moment.phase.code(), Ordering::SeqCst);
            noted.at.store(moment.at, Ordering::SeqCst);
        }
    }

    // Those of each call together, in their order, and one call behind the other.
    fn by_call(&self, alloc: Global) -> Result<Vec<Moment>, AllocError> {
        let count = (self.count.load(Ordering::SeqCst) as usize).min(self.noted.len());
        let mut places = Vec::with_capacity(alloc, count)?;
        for place in 0..count {
            places.push(place)?;
        }
        // Of equal calls the one that was noted first comes first: a place is below 2^32.
        places.sort_unstable_by_key(|place| self.key(*place));
        let mut moments = Vec::with_capacity(alloc, count)?;
        for place in &places {
            if let Some(noted) = self.noted.get(*place) {
                moments.push(noted.moment())?;
            }
        }
        Ok(moments)
    }

    // By which a moment is put in order: its call, and then its place.
    fn key(&self, place: usize) -> u64 {
        let call = match self.noted.get(place) {
            Some(noted) => noted.call.load(Ordering::SeqCst),
            None => u64::MAX,
        };
        call.saturating_mul(MOST_MOMENTS as u64)
            .saturating_add(place as u64)
    }

    /// The calls that were told their answers, and all of whose moments found room, in the order in which they began.
    pub fn calls(&self, alloc: Global) -> Result<TracedCalls, AllocError> {
        let moments = self.by_call(alloc)?;
        let mut spans = Vec::new(alloc);
        let mut from = 0usize;
        for (place, moment) in moments.iter().enumerate() {
            let first = moments.get(from).map_or(*moment, |first| *first);
            if first.call != moment.call {
                from = place;
            }
            if moment.phase == Phase::Told {
                let begun = moments.get(from).map_or(moment.at, |first| first.at);
                spans.push(Traced {
                    begun,
                    from,
                    to: place,
                })?;
            }
        }
        spans.sort_unstable_by_key(|span| span.begun);
        Ok(TracedCalls { moments, spans })
    }
}

// Where the moments of a call stand.
#[derive(Clone, Copy)]
struct Traced {
    begun: u64,
    from: usize,
    to: usize,
}

/// Calls in the order in which they began, each with its moments.
#[derive(Drop)]
pub struct TracedCalls {
    moments: Vec<Moment>,
    spans: Vec<Traced>,
}

impl TracedCalls {
    /// How many calls there are.
    pub fn count(&self) -> usize {
        self.spans.len()
    }

    /// The moments of one of them, the last of which is when its answer was told; none of one that there isn't.
    pub fn moments_of(&self, number: usize) -> &[Moment] {
        match self.spans.get(number) {
            Some(span) => self
                .moments
                .get(span.from..span.to.saturating_add(1))
                .unwrap_or(&[]),
            None => &[],
        }
    }
}
