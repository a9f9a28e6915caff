// A state comes back from each beginning of a log, and goes on to the same log.

use crate::checks::is_same;
use crate::log_tests::prints_to;
use crate::state_tests::state;
use access_slots::op::{News, Op, Wire};
use data_component::dc::Dc;
use samples::{LogRecord, PUT_AND_ABORT, log_bytes, record, value};
use std::alloc::Global;
use std::process::Abort;
use tc_core::checking::CheckFault;
use tc_core::recovery::{RecoverFault, SiteNote};
use tc_core::state::{Asked, Redo, Request, Stranger, TcState, TxnId};
use tc_log::event::Entry;
use tc_log::log::Log;
use tc_log::read::LogFault;
use transactions::{Redoing, Site};

const RECORD: usize = 96;

// Performs what the log sent.
fn perform_sent(log: &Log, dc: &mut Dc) {
    for place in 0..log.len() {
        if let Some(Entry::Ask { number, op, .. } | Entry::Undo { number, op, .. }) = log.at(
            place,
        ) {
            let wire = Wire {
                number,
                low_water: 0,
                incarnation: 0,
                redo: false,
                op,
            };
            let _ = dc.perform(&wire);
        }
    }
}

// To the data component and back.
fn carried(tc: &mut TcState, dc: &mut Dc, request: Request) -> bool {
    let Ok(wire) = tc.wire(&request) else {
        let _ = tc.give_up(request);
        return false;
    };
    let Some(reply) = dc.perform(&wire) else {
        let _ = tc.give_up(request);
        return false;
    };
    match tc.answer(request, reply) {
        Ok(()) => true,
        Err(Stranger { request }) => {
            let _ = tc.give_up(request);
            false
        }
    }
}

// Goes on with what was asked, where it is a request.
fn sent(tc: &mut TcState, dc: &mut Dc, asked: Asked) -> bool {
    match asked {
        Asked::Request(request) => carried(tc, dc, request),
        Asked::Undoing => false,
        Asked::Over => false,
        Asked::Stuck(_) => false,
        Asked::Waits(_) => false,
        Asked::Running => false,
        Asked::Unknown => false,
    }
}

// One operation more: the one that it waits for, or the next.
fn moves(tc: &mut TcState, dc: &mut Dc, txn: TxnId) -> bool {
    if let Some(request) = tc.request(txn) {
        return carried(tc, dc, request);
    }
    let asked = tc.ask(txn);
    if sent(tc, dc, asked) {
        return true;
    }
    let asked = tc.undo_next(txn);
    sent(tc, dc, asked)
}

// An open transaction, to its end.
fn ends(tc: &mut TcState, dc: &mut Dc, serial: u64) {
    for _ in 0..20 {
        let Some(txn) = tc.find_txn(serial) else {
            return;
        };
        if tc.end(txn).is_ok() {
            return;
        }
        let _ = moves(tc, dc, txn);
    }
}

// Each open transaction, to its end.
fn all_end(tc: &mut TcState, dc: &mut Dc) {
    for serial in 1..=tc.admitted() {
        ends(tc, dc, serial);
    }
}

// What was done is redone at the data component, until that is up.
fn is_redone(tc: &mut TcState, dc: &mut Dc) {
    for _ in 0..20 {
        let Redo::Send(wire) = tc.redo_next(0) else {
            return;
        };
        if let Some(reply) = dc.perform(&wire) {
            let _ = tc.redone(0, &reply);
        }
    }
}

// What was written last of the data component, where it has restarted and lost all that it did, or not.
fn note_of(dc: &mut Dc, restarts: bool) -> SiteNote {
    if !restarts {
        return SiteNote::Untold;
    }
    match dc.restart() {
        Ok(news) => SiteNote::Restarted(news),
        Err(_) => SiteNote::Untold,
    }
}

// How many events there are once a state that came back from so many has ended all that was open.
const fn ended(events: usize) -> usize {
    match events {
        0 => 0,
        1..=4 => 4,
        _ => 12,
    }
}

// What is open ends, and the state doesn't come back once more where anything has happened.
fn all_is_over(rt: &impl Abort, log: &Log, note: SiteNote, tc: &mut TcState, dc: &mut Dc) {
    is_redone(tc, dc);
    all_end(tc, dc);
    if !log.is_empty() {
        is_same(rt, tc.recover(log, &[note]), Err(RecoverFault::Begun));
    }
}

// A state comes back from the log, beside a data component to which everything was sent that it says, and prints
// these bytes in the end.
fn comes_back(rt: &impl Abort, alloc: Global, log: &Log, restarts: bool, want: &[u8]) {
    let mut dc = Dc::new(alloc, 10, 10).expect(rt, "no data component");
    perform_sent(log, &mut dc);
    let note = note_of(&mut dc, restarts);
    let mut tc = state(rt, alloc);
    is_same(
        rt,
        (log.len(), tc.recover(log, &[note])),
        (log.len(), Ok(())),
    );
    all_is_over(rt, log, note, &mut tc, &mut dc);
    prints_to(rt, alloc, tc.log(), want);
    drop(tc);
    drop(dc);
}

// The first so many events.
fn first(bytes: &[u8], events: usize) -> &[u8] {
    bytes
        .get(..events.saturating_mul(RECORD))
        .unwrap_or_default()
}

fn goes_on(rt: &impl Abort, alloc: Global, bytes: &[u8], events: usize, restarts: bool) {
    let log = Log::read(alloc, first(bytes, events)).expect(rt, "no log");
    is_same(rt, log.len(), events);
    comes_back(rt, alloc, &log, restarts, first(bytes, ended(events)));
    drop(log);
}

fn each_beginning(rt: &impl Abort, alloc: Global, restarts: bool) {
    let bytes = log_bytes(alloc, &PUT_AND_ABORT).expect(rt, "no bytes");
    for events in 0..=PUT_AND_ABORT.len() {
        goes_on(rt, alloc, bytes.as_slice(), events, restarts);
    }
}

#[test]
fn each_beginning_goes_on(rt: HostRuntime) {
    each_beginning(&rt, rt.alloc(), false);
}

// The data component restarts while the transaction component is away, and loses all that it did.
#[test]
fn each_beginning_goes_on_behind_a_restart(rt: HostRuntime) {
    each_beginning(&rt, rt.alloc(), true);
}

fn read(alloc: Global, records: &[LogRecord]) -> Result<Log, LogFault> {
    let bytes = log_bytes(alloc, records)?;
    let log = Log::read(alloc, bytes.as_slice());
    drop(bytes);
    log
}

// An Admit that is followed by an End at once.
#[test]
fn an_illegal_log_is_refused(rt: HostRuntime) {
    let log = read(rt.alloc(), &[PUT_AND_ABORT[0], PUT_AND_ABORT[3]]).expect(&rt, "no log");
    let mut tc = state(&rt, rt.alloc());
    let why = RecoverFault::Unfit(CheckFault::LogIllegal(1));
    is_same(&rt, tc.recover(&log, &[SiteNote::Untold]), Err(why));
    drop(tc);
    drop(log);
}

// A state that comes back beside a note of its data component: what it knows of it, and what it redoes next.
fn is_known(rt: &impl Abort, alloc: Global, log: &Log, note: SiteNote, known: (Site, Redo)) {
    let mut tc = state(rt, alloc);
    is_same(rt, tc.recover(log, &[]), Err(RecoverFault::DcCount));
    is_same(rt, tc.recover(log, &[note]), Ok(()));
    is_same(rt, (tc.site(0), tc.redo_next(0)), known);
    drop(tc);
}

fn up_is_known(rt: &impl Abort, alloc: Global, log: &Log) {
    let up = Site {
        incarnation: 2,
        redo: None,
    };
    is_known(rt, alloc, log, SiteNote::Up(2), (up, Redo::NotDown));
}

fn restart_is_known(rt: &impl Abort, alloc: Global, log: &Log) {
    let news = News {
        incarnation: 2,
        mark: 3,
    };
    let down = Site {
        incarnation: 2,
        redo: Some(Redoing { mark: 3, redone: 3 }),
    };
    let next = Wire {
        number: 4,
        low_water: 3,
        incarnation: 2,
        redo: true,
        op: Op::Update(record(5), value(100)),
    };
    let known = (down, Redo::Send(next));
    is_known(rt, alloc, log, SiteNote::Restarted(news), known);
}

// What was noted of the data component is known of it again.
#[test]
fn what_was_noted_is_known(rt: HostRuntime) {
    let log = read(rt.alloc(), &PUT_AND_ABORT).expect(&rt, "no log");
    up_is_known(&rt, rt.alloc(), &log);
    restart_is_known(&rt, rt.alloc(), &log);
    drop(log);
}
