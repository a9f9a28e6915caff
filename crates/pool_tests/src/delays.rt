//! A link that leaves wires on their way, and brings what comes back later and in another order.

use crate::test_pool::locked_dc;
use access_slots::op::{News, Reply, Wire};
use dc_links::{Link, LockedDcs, Outstanding, lose_at};
use std::alloc::{AllocError, Global};
use std::sync::atomic::{AtomicU64, Ordering};
use std::sync::{Mutex, Wait};

/// What becomes of wires.
#[derive(Clone, Copy, PartialEq, Eq)]
pub(crate) enum Weather {
    /// For each comes its reply, once.
    Calm,
    /// Of sixteen two are lost before they are performed, one behind that, and the replies to two come twice.
    Storm,
    /// Each is lost.
    Loss,
}

// A wire that was handed over.
#[derive(Clone, Copy)]
struct Submission {
    worker: usize,
    place: usize,
    number: u64,
}

// What comes back for it, or nothing, and at which time.
#[derive(Clone, Copy, Drop)]
struct Arrival {
    worker: usize,
    place: usize,
    number: u64,
    reply: Option<Reply>,
    due: u64,
}

// The time, which passes by one at each exchange, and what is on its way.
#[derive(Drop)]
struct Sea {
    now: u64,
    seed: u64,
    arrivals: Vec<Arrival>,
    most: usize,
}

impl Sea {
    // The next number at random (Marsaglia's xorshift, 2003).
    fn draw(&mut self) -> u64 {
        self.seed ^= self.seed << 13;
        self.seed ^= self.seed >> 7;
        self.seed ^= self.seed << 17;
        self.seed
    }

    // Something comes for a wire after 100 to 199 exchanges, or as soon as it is waited for.
    fn add(&mut self, submission: &Submission, reply: Option<Reply>) -> Result<(), AllocError> {
        let delay = 100 + self.draw() % 100;
        self.arrivals.push(Arrival {
            worker: submission.worker,
            place: submission.place,
            number: submission.number,
            reply,
            due: self.now.saturating_add(delay),
        })?;
        self.most = self.most.max(self.arrivals.len());
        Ok(())
    }

    // The earliest time at which something comes for the worker; now, where nothing does.
    fn earliest(&self, worker: usize) -> u64 {
        let mut earliest = u64::MAX;
        for arrival in &self.arrivals {
            if arrival.worker == worker {
                earliest = earliest.min(arrival.due);
            }
        }
        if earliest == u64::MAX {
            self.now
        } else {
            earliest
        }
    }

    // Time passes: until something comes for the worker, where that is waited for.
    fn pass(&mut self, worker: usize, waits: bool) {
        self.now = self.now.saturating_add(1);
        if waits {
            self.now = self.now.max(self.earliest(worker));
        }
    }

    // Brings the worker what is due.
    fn bring<O: Outstanding>(&mut self, worker: usize, requests: &mut [O]) {
        let mut coming = self.arrivals.len();
        for _ in 0..self.arrivals.len() {
            coming = coming.saturating_sub(1);
            let Some(arrival) = self.arrivals.get(coming) else {
                return;
            };
            if arrival.worker == worker && arrival.due <= self.now {
                bring(requests, *arrival);
                let _ = self.arrivals.swap_remove(coming);
            }
        }
    }
}

// Brings what came back to its place, whatever is awaited there, or nothing.
fn bring<O: Outstanding>(requests: &mut [O], arrival: Arrival) {
    match arrival.reply {
        Some(reply) => {
            if let Some(request) = requests.get_mut(arrival.place) {
                request.bring(reply);
            }
        }
        None => lose_at(requests, arrival.place, arrival.number),
    }
}

/// Such a link, with so many wires of a worker on their way at most.
#[derive(Drop)]
pub(crate) struct Delays {
    weather: Weather,
    window: usize,
    dcs: LockedDcs,
    sea: Mutex<Sea>,
    submitted: AtomicU64,
}

impl Delays {
    /// To a component with room for so many rows.
    pub(crate) fn new(
        alloc: Global,
        weather: Weather,
        window: usize,
        rows: usize,
    ) -> Result<Delays, AllocError> {
        Ok(Delays {
            weather,
            window,
            dcs: locked_dc(alloc, rows)?,
            sea: Mutex::new(Sea {
                now: 0,
                seed: 0x9e37_79b9_7f4a_7c15,
                arrivals: Vec::new(alloc),
                most: 0,
            }),
            submitted: AtomicU64::new(0),
        })
    }

    /// How many wires were handed over.
    pub(crate) fn submitted(&self) -> u64 {
        self.submitted.load(Ordering::SeqCst)
    }

    /// The most that were on their way together, with the replies that come twice.
    pub(crate) fn most<R: Wait>(&self, rt: &R) -> usize {
        self.sea.lock(rt).most
    }

    /// The components, where no worker is at work.
    pub(crate) fn dcs(&mut self) -> &mut LockedDcs {
        &mut self.dcs
    }

    // Takes a wire, and settles what comes back for it.
    fn submit<R: Wait>(
        &self,
        rt: &R,
        sea: &mut Sea,
        submission: &Submission,
        wire: &Wire,
    ) -> Result<(), AllocError> {
        let drawn = match self.weather {
            Weather::Calm => 15,
            Weather::Storm => sea.draw() % 16,
            Weather::Loss => 0,
        };
        if drawn < 2 {
            return sea.add(submission, None);
        }
        let reply = self.dcs.carry(rt, submission.worker, wire);
        match drawn {
            2 => sea.add(submission, None),
            3 | 4 => {
                sea.add(submission, reply)?;
                sea.add(submission, reply)
            }
            _ => sea.add(submission, reply),
        }
    }
}

impl Link for Delays {
    fn carry<R: Wait>(&self, rt: &R, worker: usize, wire: &Wire) -> Option<Reply> {
        self.submitted.fetch_add(1, Ordering::SeqCst);
        match self.weather {
            Weather::Loss => None,
            Weather::Calm | Weather::Storm => self.dcs.carry(rt, worker, wire),
        }
    }

    fn news<R: Wait>(&self, _rt: &R, _worker: usize, _dc: u16) -> Option<News> {
        None
    }

    fn window(&self) -> usize {
        self.window
    }

    fn exchange<O: Outstanding, R: Wait>(
        &self,
        rt: &R,
        worker: usize,
        requests: &mut [O],
        waits: bool,
    ) {
        let mut guard = self.sea.lock(rt);
        let sea = &mut *guard;
        for (place, request) in requests.iter_mut().enumerate() {
            let Some(wire) = request.wire() else {
                continue;
            };
            let submission = Submission {
                worker,
                place,
                number: wire.number,
            };
            if self.submit(rt, sea, &submission, wire).is_ok() {
                self.submitted.fetch_add(1, Ordering::SeqCst);
                request.mark_submitted();
            }
        }
        sea.pass(worker, waits);
        sea.bring(worker, requests);
    }
}
