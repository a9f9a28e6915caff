//! Calls over a storm in parts, between which the log begins anew where it may.

use crate::storm::Storm;
use crate::weather::{Behind, Ended, TRIES, events, left_by};
use data_component::dc::Dc;
use journals::NoJournal;
use std::alloc::Global;
use std::sync::Wait;
use std::thread::Threads;
use tc_core::state::{Call, TcState};
use worker_pool::{OpenGate, run};

// So many calls a part has.
const PART: usize = 100;

// The log begins anew, and the data component keeps what it has performed and forgets it, unless a transaction is
// open or the data component is down. None where it can't forget it.
fn begin_anew(state: &mut TcState, dc: &mut Dc) -> Option<bool> {
    if state.open_count() > 0 {
        return Some(false);
    }
    dc.hear_mark(state.site(0).incarnation, state.low_water());
    let kept = dc.checkpoint();
    if state.checkpoint(&[kept]).is_err() {
        return Some(false);
    }
    if dc.forget() { Some(true) } else { None }
}

// The log begins anew, if it may: its events are told.
fn cut(alloc: Global, behind: &mut Behind, dc: &mut Dc) -> Option<()> {
    let log = events(alloc, &behind.state)?;
    if begin_anew(&mut behind.state, dc)? {
        behind.earlier.push_str(log.as_str()).ok()?;
        behind.earlier.push('\n').ok()?;
    }
    Some(())
}

// Runs the calls of one part more.
fn run_part<R: Threads + Wait + Sync>(
    rt: &R,
    alloc: Global,
    behind: Behind,
    calls: &[Call],
    workers: usize,
    storm: &Storm,
) -> Option<Behind> {
    let Behind {
        state,
        ended,
        earlier,
    } = behind;
    let (_, ran) = run(
        rt, alloc, state, calls, workers, TRIES, storm, &OpenGate, NoJournal,
    );
    match ran.ok() {
        Some(report) => Some(left_by(report, ended, earlier)),
        None => {
            drop(earlier);
            None
        }
    }
}

/// Runs the calls over the storm in parts, between two of which the log begins anew where no transaction is open and
/// the data component is up.
pub fn run_parts<R: Threads + Wait + Sync>(
    rt: &R,
    alloc: Global,
    state: TcState,
    calls: &[Call],
    workers: usize,
    storm: &mut Storm,
) -> Option<Behind> {
    let mut behind = Behind {
        state,
        ended: Ended::default(),
        earlier: String::new(alloc),
    };
    for part in calls.chunks(PART) {
        if cut(alloc, &mut behind, storm.dc_mut()).is_none() {
            drop(behind);
            return None;
        }
        behind = run_part(rt, alloc, behind, part, workers, storm)?;
    }
    Some(behind)
}
