// Runs whose log is kept in a file, of which a crash at each moment leaves a beginning.

ghost use Rattle.std.specs.Prelude.{◌≡◌};
ghost use Rattle.frame_file.specs.Memory.{memory_bytes};

use crate::test_pool::{are_committed, is_same, locked_dc, state_of};
use crate::test_state::{puts, state};
use access_slots::slot::Record;
use frame_file::Memory;
use log_file::{BaseRow, Header, OpenFault, may_be_left};
use log_journal::{LogJournal, Restored};
use std::alloc::Global;
use std::process::Abort;
use std::sync::Wait;
use std::thread::Threads;
use tc_log::event::{Entry, Event};
use tc_log::log::Log;
use worker_pool::{OpenGate, Report, RunFault, run};

const HEADER: Header = Header {
    dcs: 2,
    procedures: 6,
    digest: [7; 32],
    session: None,
};

// A file in memory with these bytes.
fn memory(rt: &impl Abort, alloc: Global, bytes: &[u8]) -> Memory
    ensures { memory_bytes result ≡ bytes.now }
{
    Memory::new(alloc, Vec::from_slice(alloc, bytes).expect(rt, "no bytes"))
}

// A journal over a file in memory with these bytes, and the log that they say, which begins at the beginning.
fn opened(rt: &impl Abort, alloc: Global, bytes: &[u8]) -> (LogJournal<Memory>, Log) {
    match LogJournal::open(alloc, memory(rt, alloc, bytes), HEADER, bytes) {
        Ok((journal, Restored { base: None, log })) => (journal, log),
        Ok(_) => panic!(rt; "it begins behind another one"),
        Err(_) => panic!(rt; "not opened"),
    }
}

// A journal over a file in which nothing is.
fn new_journal(rt: &impl Abort, alloc: Global) -> LogJournal<Memory> {
    let (journal, log) = opened(rt, alloc, &[]);
    drop(log);
    journal
}

// The bytes of its file.
fn bytes_of(rt: &impl Abort, alloc: Global, journal: LogJournal<Memory>) -> Vec<u8> {
    let bytes = Vec::from_slice(alloc, journal.device().bytes()).expect(rt, "no bytes");
    drop(journal);
    bytes
}

// The log as it is printed, once so many calls are committed.
fn rows_of(rt: &impl Abort, alloc: Global, calls: usize, ran: Result<Report, RunFault>) -> Vec<u8> {
    match ran {
        Ok(report) => {
            are_committed(rt, report.answers.as_slice(), calls);
            let rows = report.state.log().print(alloc).expect(rt, "no rows");
            drop(state_of(report));
            rows
        }
        Err(fault) => {
            drop(fault.into_state());
            panic!(rt; "no report");
        }
    }
}

// The bytes of the file and the rows of the log, where so many workers made three calls.
fn kept<R: Threads + Wait + Sync + Abort>(
    rt: &R,
    alloc: Global,
    workers: usize,
) -> (Vec<u8>, Vec<u8>) {
    let link = locked_dc(alloc, 8).expect(rt, "no link");
    let calls = puts(alloc, 3, 1).expect(rt, "no calls");
    let (state, journal) = (state(rt, alloc), new_journal(rt, alloc));
    let (journal, ran) = run(
        rt,
        alloc,
        state,
        calls.as_slice(),
        workers,
        3,
        &link,
        &OpenGate,
        journal,
    );
    drop(calls);
    drop(link);
    let bytes = bytes_of(rt, alloc, journal);
    (bytes, rows_of(rt, alloc, 3, ran))
}

// How many bytes of the rows a file with so many of these bytes says, unless it says others.
fn said(rt: &impl Abort, alloc: Global, bytes: &[u8], rows: &[u8]) -> Option<usize> {
    let (journal, log) = opened(rt, alloc, bytes);
    drop(journal);
    let found = log.print(alloc).expect(rt, "no rows");
    drop(log);
    rows.starts_with(found.as_slice()).then_some(found.len())
}

// The same of its first so many bytes, which say no less than fewer did.
fn said_at_least(
    rt: &impl Abort,
    alloc: Global,
    (bytes, end): (&[u8], usize),
    rows: &[u8],
    most: usize,
) -> usize {
    let beginning = bytes.get(..end).unwrap_or_default();
    let found = said(rt, alloc, beginning, rows);
    assert!(rt; found.is_some_and(|found| found >= most), "{end}");
    found.unwrap_or(most)
}

// Each beginning of the file says a beginning of the log, no shorter than the one before, and the whole file
// the whole log.
fn puts_are_read<R: Threads + Wait + Sync + Abort>(rt: &R, alloc: Global, workers: usize) {
    let (bytes, rows) = kept(rt, alloc, workers);
    let mut most = 0;
    for end in 0..bytes.len() {
        most = said_at_least(rt, alloc, (bytes.as_slice(), end), rows.as_slice(), most);
    }
    let whole = said(rt, alloc, bytes.as_slice(), rows.as_slice());
    is_same(rt, whole, Some(rows.len()));
}

#[test]
fn what_is_kept_is_read_again(rt: HostRuntime) {
    puts_are_read(&rt, rt.alloc(), 1);
    puts_are_read(&rt, rt.alloc(), 8);
}

// A file of other procedures isn't gone on with.
#[test]
fn anothers_file(rt: HostRuntime) {
    let bytes = bytes_of(&rt, rt.alloc(), new_journal(&rt, rt.alloc()));
    let other = Header {
        digest: [8; 32],
        ..HEADER
    };
    let file = memory(&rt, rt.alloc(), &bytes);
    let refused = LogJournal::open(rt.alloc(), file, other, &bytes);
    assert!(&rt; matches!(refused, Err(OpenFault::Other)));
}

// The row of a record of table 0 with this key.
fn row(key: u64) -> BaseRow {
    let record = Record {
        dc: 0,
        table: 0,
        key,
    };
    (record, [5; 64])
}

// The bytes of a file in which the log begins anew with these records, if it does.
fn begun_anew(rt: &impl Abort, alloc: Global, base: &[BaseRow], log: &Log) -> Option<Vec<u8>> {
    let (journal, kept) = LogJournal::begin_anew(
        alloc,
        Memory::new(alloc, Vec::new(alloc)),
        HEADER,
        base,
        log,
    );
    let bytes = bytes_of(rt, alloc, journal);
    kept.is_ok().then_some(bytes)
}

// A log that is a checkpoint alone.
fn checkpoint(rt: &impl Abort, alloc: Global) -> Log {
    let mut log = Log::new(alloc);
    log.reserve(1).expect(rt, "no room");
    log.push(Event::Checkpoint {
        admitted: 3,
        given: 9,
    });
    log
}

// These bytes are read as a log that begins anew with these records and the checkpoint.
fn says(rt: &impl Abort, alloc: Global, bytes: &[u8], base: &[BaseRow]) {
    let opened = LogJournal::open(alloc, memory(rt, alloc, bytes), HEADER, bytes);
    let Ok((journal, Restored { base: found, log })) = opened else {
        panic!(rt; "not read");
    };
    drop(journal);
    let found = found.expect(rt, "no records");
    is_same(rt, found.as_slice(), base);
    drop(found);
    let is_checkpoint = matches!(
        log.at(0),
        Some(Entry::Checkpoint {
            admitted: 3,
            given: 9
        })
    );
    is_same(rt, (is_checkpoint, log.len()), (true, 1));
    drop(log);
}

// What a crash leaves of these bytes may be written over, and says no log; its first 8 bytes are those of any log's file.
fn is_left(rt: &impl Abort, alloc: Global, bytes: &[u8]) {
    for end in 0..bytes.len() {
        let torn = bytes.get(..end).unwrap_or_default();
        let file = memory(rt, alloc, torn);
        let refused = LogJournal::open(alloc, file, HEADER, torn).is_err();
        let left = may_be_left(alloc, &HEADER, torn);
        is_same(rt, (end, left, refused), (end, Ok(true), end > 8));
    }
}

#[test]
fn a_log_that_begins_anew_is_read_with_its_records(rt: HostRuntime) {
    let alloc = rt.alloc();
    let base = [row(4), row(7)];
    let log = checkpoint(&rt, alloc);
    let bytes = begun_anew(&rt, alloc, &base, &log).expect(&rt, "not begun");
    drop(log);
    says(&rt, alloc, bytes.as_slice(), &base);
    is_left(&rt, alloc, bytes.as_slice());
    let other = Header {
        procedures: 7,
        ..HEADER
    };
    let found = [
        may_be_left(alloc, &other, bytes.as_slice()),
        may_be_left(alloc, &HEADER, b"a text of somebody else"),
    ];
    drop(bytes);
    is_same(&rt, found, [Ok(false), Ok(false)]);
}

// Whether a log begins anew with these records.
fn begins(rt: &impl Abort, alloc: Global, base: &[BaseRow], log: Log) -> bool {
    let bytes = begun_anew(rt, alloc, base, &log);
    drop(log);
    let begins = bytes.is_some();
    drop(bytes);
    begins
}

#[test]
fn no_log_begins_anew_with_records_that_do_not_rise_or_without_a_checkpoint(rt: HostRuntime) {
    let alloc = rt.alloc();
    for base in [[row(7), row(4)], [row(4), row(4)]] {
        is_same(
            &rt,
            begins(&rt, alloc, &base, checkpoint(&rt, alloc)),
            false,
        );
    }
    is_same(&rt, begins(&rt, alloc, &[], Log::new(alloc)), false);
}
