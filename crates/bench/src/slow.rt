//! Calls over a link that takes a millisecond a wire.

use crate::calls::{called_first, moved, puts, store};
use access_slots::op::{News, Reply, Wire};
use data_component::dc::Dc;
use dc_links::{Link, Outstanding, bring_to};
use std::alloc::{AllocError, Global};
use std::collections::VecDeque;
use std::sync::atomic::{AtomicU64, Ordering};
use std::sync::{Condvar, Mutex, Wait};
use std::thread::Threads;
use std::time::{Clock, Duration};
use std::{mem, thread};

// How long a reply takes, in microseconds.
const DELAY: u64 = 1_000;

// How long the link sleeps before it looks what is due, in microseconds.
const SLEEP: u64 = 50;

// A wire on its way, with the worker that sent it and its place there.
#[derive(Clone, Copy, Drop)]
struct Envelope {
    worker: usize,
    place: usize,
    wire: Wire,
}

// What came back, until its worker takes it.
#[derive(Drop)]
struct Inbox {
    replies: Mutex<Vec<(usize, Reply)>>,
    came: Condvar,
}

// The replies that are due at a time.
#[derive(Drop)]
struct Batch {
    due: Duration,
    replies: Vec<(usize, usize, Reply)>,
}

/// A link with so many wires of a worker on their way at most.
#[derive(Drop)]
pub struct SlowLink {
    alloc: Global,
    window: usize,
    sent: Mutex<Vec<Envelope>>,
    inboxes: Vec<Inbox>,
    closed: AtomicU64,
}

impl SlowLink {
    fn new(alloc: Global, workers: usize, window: usize) -> Result<SlowLink, AllocError> {
        let mut inboxes = Vec::with_capacity(alloc, workers)?;
        for _ in 0..workers {
            inboxes.push(Inbox {
                replies: Mutex::new(Vec::new(alloc)),
                came: Condvar::new(),
            })?;
        }
        Ok(SlowLink {
            alloc,
            window,
            sent: Mutex::new(Vec::new(alloc)),
            inboxes,
            closed: AtomicU64::new(0),
        })
    }

    // Sends the wires that are to be carried.
    fn send_all<O: Outstanding, R: Wait>(&self, rt: &R, worker: usize, requests: &mut [O]) {
        let mut sent = self.sent.lock(rt);
        for (place, request) in requests.iter_mut().enumerate() {
            let Some(wire) = request.wire() else {
                continue;
            };
            let envelope = Envelope {
                worker,
                place,
                wire: *wire,
            };
            if sent.push(envelope).is_ok() {
                request.mark_submitted();
            }
        }
    }

    // Takes all that was sent.
    fn taken<R: Wait>(&self, rt: &R) -> Vec<Envelope> {
        mem::replace(&mut *self.sent.lock(rt), Vec::new(self.alloc))
    }

    // Has the component perform what was sent.
    fn perform<R: Wait>(&self, rt: &R, dc: &mut Dc, replies: &mut Vec<(usize, usize, Reply)>) {
        for envelope in self.taken(rt) {
            if let Some(reply) = dc.perform(&envelope.wire) {
                let _ = replies.push((envelope.worker, envelope.place, reply));
            }
        }
    }

    // Gives the workers these replies.
    fn deliver<R: Wait>(&self, rt: &R, batch: Batch) {
        for (worker, place, reply) in batch.replies {
            if let Some(inbox) = self.inboxes.get(worker) {
                let _ = inbox.replies.lock(rt).push((place, reply));
            }
        }
        for inbox in &self.inboxes {
            inbox.came.notify_all();
        }
    }

    // Gives the workers the replies that are due at a time.
    fn deliver_due<R: Wait>(&self, rt: &R, batches: &mut VecDeque<Batch>, now: Duration) {
        for _ in 0..batches.len() {
            match batches.front() {
                Some(first) if first.due <= now => {}
                _ => return,
            }
            if let Some(batch) = batches.pop_front() {
                self.deliver(rt, batch);
            }
        }
    }

    // Performs what is sent, and delivers each reply a millisecond later, until the link is closed.
    fn serve<R: Wait + Clock>(&self, rt: &R, mut dc: Dc) -> Dc {
        let mut batches: VecDeque<Batch> = VecDeque::new(self.alloc);
        for _ in rt.forever() {
            if self.closed.load(Ordering::SeqCst) != 0 {
                return dc;
            }
            let now = rt.monotonic().unwrap_or(Duration::ZERO);
            let mut replies = Vec::new(self.alloc);
            self.perform(rt, &mut dc, &mut replies);
            let _ = batches.push_back(Batch {
                due: now.saturating_add(Duration::from_micros(DELAY)),
                replies,
            });
            self.deliver_due(rt, &mut batches, now);
            thread::sleep(rt, Duration::from_micros(SLEEP));
        }
        unreachable!()
    }

    fn close(&self) {
        self.closed.store(1, Ordering::SeqCst);
    }
}

impl Inbox {
    // What came back since it was taken last; where it is to be waited for, until something came.
    fn taken<R: Wait>(&self, rt: &R, alloc: Global, waits: bool) -> Vec<(usize, Reply)> {
        let mut replies = self.replies.lock(rt);
        if waits {
            replies = self.came.wait_while(rt, replies, |came| came.is_empty());
        }
        mem::replace(&mut *replies, Vec::new(alloc))
    }
}

impl Link for SlowLink {
    fn carry<R: Wait>(&self, rt: &R, worker: usize, wire: &Wire) -> Option<Reply> {
        let envelope = Envelope {
            worker,
            place: 0,
            wire: *wire,
        };
        self.sent.lock(rt).push(envelope).ok()?;
        let inbox = self.inboxes.get(worker)?;
        for _ in rt.forever() {
            for (_, reply) in inbox.taken(rt, self.alloc, true) {
                if reply.number == wire.number {
                    return Some(reply);
                }
            }
        }
        unreachable!()
    }

    fn news<R: Wait>(&self, _rt: &R, _worker: usize, _dc: u16) -> Option<News> {
        None
    }

    fn window(&self) -> usize {
        self.window
    }

    fn exchange<O: Outstanding, R: Wait>(
        &self,
        rt: &R,
        worker: usize,
        requests: &mut [O],
        waits: bool,
    ) {
        let Some(inbox) = self.inboxes.get(worker) else {
            return;
        };
        self.send_all(rt, worker, requests);
        for (place, reply) in inbox.taken(rt, self.alloc, waits) {
            bring_to(requests, place, reply);
        }
    }
}

// So many puts by so many workers over the link. How many transactions have ended.
fn put_all<R: Threads + Wait + Sync>(
    rt: &R,
    alloc: Global,
    workers: u64,
    calls: u64,
    link: &SlowLink,
) -> Option<u64> {
    let puts = puts(alloc, calls)?;
    let (ended, state) = called_first(rt, alloc, puts, workers as usize, link)?;
    drop(state);
    Some(ended)
}

/// What calls are made.
#[derive(Clone, Copy)]
pub enum Calls {
    /// One operation each, of a record of its own.
    Puts,
    /// Four operations each, of two of 1000 records.
    Moves,
}

// The calls, and then the end of the link.
fn called_and_closed<R: Threads + Wait + Sync>(
    rt: &R,
    alloc: Global,
    what: Calls,
    (workers, calls): (u64, u64),
    link: &SlowLink,
) -> Option<u64> {
    let ended = match what {
        Calls::Puts => put_all(rt, alloc, workers, calls, link),
        Calls::Moves => moved(rt, alloc, workers, calls, link),
    };
    link.close();
    ended
}

/// So many calls by 1 to 64 workers, each with so many on their way at most. How many transactions have ended.
pub fn repeat<R: Threads + Wait + Sync + Clock>(
    rt: &R,
    alloc: Global,
    what: Calls,
    (workers, calls): (u64, u64),
    window: u64,
) -> Option<u64> {
    let link = SlowLink::new(alloc, workers as usize, window as usize).ok()?;
    let ended = match store_of(alloc, what, calls) {
        Some(dc) => called_beside(rt, alloc, what, (workers, calls), &link, dc),
        None => None,
    };
    drop(link);
    ended
}

// A data component with room for the calls.
fn store_of(alloc: Global, what: Calls, calls: u64) -> Option<Dc> {
    match what {
        Calls::Puts => Dc::new(alloc, calls as usize, calls as usize).ok(),
        Calls::Moves => store(alloc, calls),
    }
}

fn called_beside<R: Threads + Wait + Sync + Clock>(
    rt: &R,
    alloc: Global,
    what: Calls,
    (workers, calls): (u64, u64),
    link: &SlowLink,
    dc: Dc,
) -> Option<u64> {
    let (dc, ended) = thread::join(
        rt,
        move || link.serve(rt, dc),
        move || called_and_closed(rt, alloc, what, (workers, calls), link),
    );
    drop(dc);
    ended
}
