// Bytes that are no log: a log cut short, and one with a wrong byte.

use crate::checks::is_same;
use samples::{PUT_AND_ABORT, log_bytes};
use std::alloc::Global;
use std::process::Abort;
use tc_log::log::Log;
use tc_log::read::LogFault;

const RECORD: usize = 96;

/// The log prints to these bytes.
pub(crate) fn prints_to(rt: &impl Abort, alloc: Global, log: &Log, bytes: &[u8]) {
    let printed = log.print(alloc).expect(rt, "not printed");
    is_same(rt, printed.as_slice(), bytes);
}

// How many events these bytes are, which print to them again; or the fault.
fn read(rt: &impl Abort, alloc: Global, bytes: &[u8]) -> Result<usize, LogFault> {
    let log = Log::read(alloc, bytes)?;
    let events = log.len();
    prints_to(rt, alloc, &log, bytes);
    drop(log);
    Ok(events)
}

// The first so many bytes of a log are a log where they are whole events.
fn is_prefix_read(rt: &impl Abort, alloc: Global, bytes: &[u8], length: usize) {
    let want = if length % RECORD == 0 {
        Ok(length / RECORD)
    } else {
        Err(LogFault::Length)
    };
    if let Some(prefix) = bytes.get(..length) {
        is_same(rt, (length, read(rt, alloc, prefix)), (length, want));
    }
}

#[test]
fn each_prefix_of_a_log(rt: HostRuntime) {
    let bytes = log_bytes(rt.alloc(), &PUT_AND_ABORT).expect(&rt, "no bytes");
    for length in 0..=bytes.len() {
        is_prefix_read(&rt, rt.alloc(), bytes.as_slice(), length);
    }
}

// Whether the body of such a record has a byte that may be any at this place.
fn is_body(kind: u8, sub: u8, place: usize) -> bool {
    match kind {
        1 => place < usize::from(sub) * 8,
        2 | 4 => sub == 2 || sub == 3,
        3 => sub == 1 || sub == 4,
        _ => false,
    }
}

// Whether such a record is one whatever the byte at this place.
fn is_free(kind: u8, sub: u8, place: usize) -> bool {
    let is_asked = kind == 2 || kind == 4;
    match place {
        2..=5 | 24..=31 => is_asked,
        8..=15 => true,
        16..=23 => kind != 5 || sub == 2,
        32..=95 => is_body(kind, sub, place - 32),
        _ => false,
    }
}

// How many events a log is with this byte set to 255; or the fault.
fn read_with_255(
    rt: &impl Abort,
    alloc: Global,
    bytes: &[u8],
    at: usize,
) -> Result<usize, LogFault> {
    let mut hostile = Vec::from_slice(alloc, bytes)?;
    if let Some(byte) = hostile.get_mut(at) {
        *byte = 255;
    }
    let events = read(rt, alloc, hostile.as_slice());
    drop(hostile);
    events
}

// It is one only where this byte may be any.
fn a_byte_set(rt: &impl Abort, alloc: Global, bytes: &[u8], at: usize, is_free: bool) {
    let want = if is_free {
        Ok(PUT_AND_ABORT.len())
    } else {
        Err(LogFault::Kind(at / RECORD))
    };
    is_same(rt, (at, read_with_255(rt, alloc, bytes, at)), (at, want));
}

#[test]
fn each_byte_of_a_log_set_to_255(rt: HostRuntime) {
    let bytes = log_bytes(rt.alloc(), &PUT_AND_ABORT).expect(&rt, "no bytes");
    for (index, (kind, sub, ..)) in PUT_AND_ABORT.iter().enumerate() {
        for place in 0..RECORD {
            let is_free = is_free(*kind, *sub, place);
            a_byte_set(
                &rt,
                rt.alloc(),
                bytes.as_slice(),
                index * RECORD + place,
                is_free,
            );
        }
    }
}
