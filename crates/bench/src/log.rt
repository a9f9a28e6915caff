//! The log as bytes, and back.

use access_slots::op::Op;
use access_slots::slot::Record;
use std::alloc::Global;
use tc_log::event::Event;
use tc_log::log::Log;

/// A log of so many events: inserts that are asked for.
pub fn asks(alloc: Global, events: u64) -> Option<Log> {
    let mut log = Log::new(alloc);
    for number in 0..events {
        let Ok(()) = log.reserve(1) else {
            return None;
        };
        let record = Record {
            dc: 0,
            table: 0,
            key: number,
        };
        log.push(Event::Ask {
            txn: number,
            number,
            op: Op::Insert(record, [7; 64]),
        });
    }
    Some(log)
}

/// So many events, printed and read again so many times. How many events were read.
pub fn repeat(alloc: Global, events: u64, times: u64) -> Option<u64> {
    let log = asks(alloc, events)?;
    let mut read: u64 = 0;
    for _ in 0..times {
        let bytes = log.print(alloc).ok()?;
        let again = Log::read(alloc, bytes.as_slice()).ok()?;
        read = read.wrapping_add(again.len() as u64);
    }
    Some(read)
}
