//! Numbers of requests beside many that are open.

use request_numbers::numbers::Numbers;
use std::alloc::Global;

// The next number, with a place for it.
fn next(numbers: &mut Numbers) -> Option<u64> {
    let Ok(()) = numbers.reserve(1) else {
        return None;
    };
    numbers.next().ok()
}

/// So many numbers are open; one more is given out and answered so many times. The last number.
pub fn repeat(alloc: Global, open: u64, times: u64) -> Option<u64> {
    let mut numbers = Numbers::new(alloc);
    for _ in 0..open {
        next(&mut numbers)?;
    }
    for _ in 0..times {
        let number = next(&mut numbers)?;
        if numbers.is_open(number) {
            numbers.answered(number);
        }
    }
    Some(numbers.last())
}
