// Bounded queues with an event count, through which threads hand one another messages.

ghost use Rattle.std.specs.Prelude.{◌≡◌, ◌<◌, ℕ, [], ◌∷◌, None, IfErr};
ghost use Rattle.crossbeam_queue.specs.Fifo.{Admits, Held, Learns, Pops};

use crossbeam_queue::RuledArrayQueue;
use crossbeam_queue::protocol::{Free, Lesson, Outcome, Protocol};
use std::alloc::{AllocError, Global};
use std::hint;
use std::sync::Wait;
use std::sync::atomic::{AtomicU64, Ordering};

// How often who waits looks at the queue before it sleeps.
const LOOKS: u32 = 2_000;

// What those who sleep at a queue listen to.
#[derive(Drop)]
struct EventCount {
    signals: AtomicU64,
    sleepers: AtomicU64,
}

impl EventCount {
    fn new() -> EventCount {
        EventCount {
            signals: AtomicU64::new(0),
            sleepers: AtomicU64::new(0),
        }
    }

    // How often it was signalled, as far as a sleep compares it.
    fn signalled(&self) -> u32 {
        (self.signals.load(Ordering::SeqCst) & 0xffff_ffff) as u32
    }

    // Whoever sleeps is to look again.
    fn signal(&self) {
        self.signals.fetch_add(1, Ordering::SeqCst);
        self.signals.wake_all();
    }

    // The same behind a message, and left out where nobody sleeps: who counts itself as a sleeper looks at the
    // queue once more before it sleeps.
    fn signal_sleepers(&self) {
        if self.sleepers.load(Ordering::SeqCst) != 0 {
            self.signal();
        }
    }
}

// How somebody waits at an event count: it looks, since most waits are shorter than it takes to sleep and to be
// woken, and then sleeps. To let others run between looks would have it wait for their turns where processors are
// busy; to sleep was measured to be faster there.
#[derive(Drop)]
struct Waiter<'a> {
    event_count: &'a EventCount,
    looks: u32,
    // Whether it counts as a sleeper.
    is_counted: bool,
}

impl Waiter<'_> {
    // Waits for a moment behind a look that found nothing, where it had been signalled so often before that
    // look.
    fn wait<R: Wait>(&mut self, rt: &R, signalled: u32) {
        if self.looks < LOOKS {
            self.looks += 1;
            hint::spin_loop();
        } else if !self.is_counted {
            self.is_counted = true;
            self.event_count.sleepers.fetch_add(1, Ordering::SeqCst);
        } else {
            self.event_count.signals.park(rt, signalled);
        }
    }

    // It waits no longer.
    fn leave(self) {
        if self.is_counted {
            self.event_count.sleepers.fetch_sub(1, Ordering::SeqCst);
        }
    }
}

/// A queue of messages, whose event count is signalled at each. A link's queues are `Free`. What is said here of a
/// queue that was found empty is said under any rule `P`: so it can't be had but by a look at the queue.
#[derive(Drop)]
pub struct Ring<T, V, P: Protocol<T, V>> {
    queue: RuledArrayQueue<T, V, P>,
    event_count: EventCount,
}

impl<T: Drop, V, P: Protocol<T, V>> Ring<T, V, P> {
    /// A ring of this capacity.
    pub fn new(alloc: Global, capacity: usize) -> Result<Ring<T, V, P>, AllocError>
        requires capacity { 0 < capacity }
        requires rule { P.holds [] (P.first ∷ []) }
    {
        let (queue, _) = RuledArrayQueue::ruled(alloc, capacity)?;
        Ok(Ring {
            queue,
            event_count: EventCount::new(),
        })
    }

    /// The oldest message. Waits for one until the rings are closed; nothing where they were closed
    /// before none was found.
    pub fn take<M: Outcome<T, V> + Lesson<T, V>, R: Wait>(
        &self,
        rt: &R,
        closed: &AtomicU64,
    ) -> Option<T>
        requires admits { Admits P.holds P.first }
        requires pops { (pass : ℕ) → Pops P.holds pass P.first (M.then P.first) }
        requires learns { (pass : ℕ) → Learns P.holds pass P.first (M.fact P.first) }
        ensures empty { result ≡ None → Held 0 (M.fact P.first) }
    {
        let mut waiter = Waiter {
            event_count: &self.event_count,
            looks: 0,
            is_counted: false,
        };
        for _ in rt.forever() {
            let signalled = self.event_count.signalled();
            let is_closed = closed.load(Ordering::SeqCst) != 0;
            let found = self.queue.pop_as::<M, R>(rt, &mut self.queue.pass());
            if found.is_some() || is_closed {
                waiter.leave();
                return found;
            }
            waiter.wait(rt, signalled);
        }
        unreachable!()
    }

    /// Whether somebody sleeps until a message comes.
    pub fn has_sleeper(&self) -> bool {
        self.event_count.sleepers.load(Ordering::SeqCst) != 0
    }

    /// Has whoever waits look again.
    pub fn wake(&self) {
        self.event_count.signal();
    }
}

impl<T: Drop> Ring<T, (), Free> {
    /// Puts a message behind the others; it comes back where there is no room.
    pub fn put<R: Wait>(&self, rt: &R, message: T) -> Result<(), T>
        ensures { IfErr result (λ back. back ≡ message) }
    {
        self.queue
            .push_as::<Free, R>(rt, &mut self.queue.pass(), message)?;
        self.event_count.signal_sleepers();
        Ok(())
    }
}
