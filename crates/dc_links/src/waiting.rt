// How a lock is waited for.

use std::sync::{Mutex, MutexGuard, Wait};
use std::{hint, thread};

// How often who waits looks at a time.
pub(crate) const LOOKS: u32 = 100;

// How often who waits lets others run before it sleeps.
const YIELDS: u32 = 200;

// Takes the lock where one of so many looks finds it free.
fn look<T>(lock: &Mutex<T>) -> Option<MutexGuard<'_, T>> {
    for _ in 0..LOOKS {
        if let Some(guard) = lock.try_lock() {
            return Some(guard);
        }
        hint::spin_loop();
    }
    None
}

/// Takes a lock that is held for a few microseconds at a time. Who waits for it looks, then lets others run
/// between its looks, and sleeps last: to sleep and to be woken takes longer than the lock is held, and
/// where who holds it has lost its processor, who waits lends its own.
pub fn acquire<'a, T, R: Wait>(rt: &R, lock: &'a Mutex<T>) -> MutexGuard<'a, T> {
    for _ in 0..YIELDS {
        if let Some(guard) = look(lock) {
            return guard;
        }
        thread::yield_now();
    }
    lock.lock(rt)
}
