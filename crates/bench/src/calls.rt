//! Calls by workers: an amount moved between two of many records.

use crate::procedures::{move_one, put, state};
use data_component::dc::Dc;
use dc_links::{Link, LockedDcs, RingLink};
use journals::NoJournal;
use std::alloc::Global;
use std::sync::Wait;
use std::thread;
use std::thread::Threads;
use tc_core::state::{Call, TcState};
use worker_pool::{OpenGate, Report, run};

/// How many records there are.
pub const RECORDS: u64 = 1000;

// The next number at random (Marsaglia's xorshift, 2003).
fn draw(seed: &mut u64) -> u64 {
    *seed ^= *seed << 13;
    *seed ^= *seed >> 7;
    *seed ^= *seed << 17;
    *seed % RECORDS
}

/// So many calls, each between two records at random.
pub fn moves(alloc: Global, calls: u64) -> Option<Vec<Call>> {
    let mut made = Vec::with_capacity(alloc, calls as usize).ok()?;
    let all = push_moves(alloc, calls, &mut made);
    made_if(all, made)
}

fn push_moves(alloc: Global, calls: u64, made: &mut Vec<Call>) -> Option<()> {
    let mut seed = 0x9e37_79b9_7f4a_7c15;
    for _ in 0..calls {
        let from = draw(&mut seed);
        let to = draw(&mut seed);
        made.push(move_one(alloc, from, to)?).ok()?;
    }
    Some(())
}

// The calls, if all were made.
fn made_if(all: Option<()>, made: Vec<Call>) -> Option<Vec<Call>> {
    match all {
        Some(()) => Some(made),
        None => {
            drop(made);
            None
        }
    }
}

/// A call for each of so many records.
pub fn puts(alloc: Global, records: u64) -> Option<Vec<Call>> {
    let mut made = Vec::with_capacity(alloc, records as usize).ok()?;
    let all = push_puts(alloc, records, &mut made);
    made_if(all, made)
}

fn push_puts(alloc: Global, records: u64, made: &mut Vec<Call>) -> Option<()> {
    for key in 0..records {
        made.push(put(alloc, key, 1_000_000)?).ok()?;
    }
    Some(())
}

/// A data component with room for the records and so many moves.
pub fn store(alloc: Global, calls: u64) -> Option<Dc> {
    let ops = calls.checked_mul(4)?.checked_add(RECORDS)?;
    Dc::new(alloc, RECORDS as usize, ops as usize).ok()
}

/// A link to a data component with room for the records and so many moves.
pub fn link(alloc: Global, calls: u64) -> Option<LockedDcs> {
    let mut dcs = Vec::new(alloc);
    match push_store(alloc, calls, &mut dcs) {
        Some(()) => LockedDcs::new(alloc, dcs).ok(),
        None => {
            drop(dcs);
            None
        }
    }
}

fn push_store(alloc: Global, calls: u64, dcs: &mut Vec<Dc>) -> Option<()> {
    dcs.push(store(alloc, calls)?).ok()
}

/// How many transactions have ended behind these calls by so many workers, each request sent three times at most, and the
/// state.
pub fn called<R: Threads + Wait + Sync, L: Link + Sync>(
    rt: &R,
    alloc: Global,
    state: TcState,
    calls: Vec<Call>,
    workers: usize,
    link: &L,
) -> Option<(u64, TcState)> {
    let (_, ran) = run(
        rt,
        alloc,
        state,
        calls.as_slice(),
        workers,
        3,
        link,
        &OpenGate,
        NoJournal,
    );
    drop(calls);
    let report = ran.ok()?;
    let ended = report.ends() as u64;
    let Report { state, answers } = report;
    drop(answers);
    Some((ended, state))
}

/// The same from no transaction on.
pub fn called_first<R: Threads + Wait + Sync, L: Link + Sync>(
    rt: &R,
    alloc: Global,
    calls: Vec<Call>,
    workers: usize,
    link: &L,
) -> Option<(u64, TcState)> {
    match state(alloc) {
        Some(state) => called(rt, alloc, state, calls, workers, link),
        None => {
            drop(calls);
            None
        }
    }
}

/// A thousand records are put over the link, and then so many calls move 1 between two of them, by so
/// many workers. How many transactions have ended.
pub fn moved<R: Threads + Wait + Sync, L: Link + Sync>(
    rt: &R,
    alloc: Global,
    workers: u64,
    calls: u64,
    link: &L,
) -> Option<u64> {
    let (first, state) = called_first(rt, alloc, puts(alloc, RECORDS)?, 1, link)?;
    let Some(moves) = moves(alloc, calls) else {
        drop(state);
        return None;
    };
    let (second, state) = called(rt, alloc, state, moves, workers as usize, link)?;
    drop(state);
    first.checked_add(second)
}

/// The puts and the moves over a data component that the workers call themselves.
pub fn repeat<R: Threads + Wait + Sync>(
    rt: &R,
    alloc: Global,
    workers: u64,
    calls: u64,
) -> Option<u64> {
    let link = link(alloc, calls)?;
    let ended = moved(rt, alloc, workers, calls, &link);
    drop(link);
    ended
}

// The puts and the moves, and then the end of the serving.
fn moved_and_closed<R: Threads + Wait + Sync>(
    rt: &R,
    alloc: Global,
    workers: u64,
    calls: u64,
    rings: &RingLink,
) -> Option<u64> {
    let ended = moved(rt, alloc, workers, calls, rings);
    rings.close();
    ended
}

/// The puts and the moves, by 1 to 64 workers, over a data component in a thread of its own.
pub fn repeat_served<R: Threads + Wait + Sync>(
    rt: &R,
    alloc: Global,
    workers: u64,
    calls: u64,
) -> Option<u64> {
    if !(1..=64).contains(&workers) {
        return None;
    }
    let rings = RingLink::new(alloc, 1, workers as usize).ok()?;
    let ended = match store(alloc, calls) {
        Some(dc) => moved_beside(rt, alloc, workers, calls, &rings, dc),
        None => None,
    };
    drop(rings);
    ended
}

fn moved_beside<R: Threads + Wait + Sync>(
    rt: &R,
    alloc: Global,
    workers: u64,
    calls: u64,
    rings: &RingLink,
    dc: Dc,
) -> Option<u64> {
    let (dc, ended) = thread::join(
        rt,
        move || rings.serve(rt, 0, dc),
        move || moved_and_closed(rt, alloc, workers, calls, rings),
    );
    drop(dc);
    ended
}
