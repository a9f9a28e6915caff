ghost use Rattle.std.specs.Prelude.{◌≡◌, [], IfOk};
ghost use Rattle.frame_file.specs.Memory.{memory_bytes};

use crate::checks::is_same;
use access_slots::op::{News, Op, Said};
use access_slots::slot::Record;
use frame_file::{FrameFault, FrameFile, Memory};
use log_file::{BaseRow, Header, LogFile, Note, OpenFault, Recovered, Stored, read_file};
use std::alloc::{AllocError, Global};
use std::process::Abort;
use tc_core::SiteNote;
use tc_log::event::{Args, Event, Outcome};
use tc_log::log::Log;

const HEADER: Header = Header {
    dcs: 2,
    procedures: 1,
    digest: [7; 32],
    session: None,
};

const DELETE: Op = Op::Delete(Record {
    dc: 1,
    table: 2,
    key: 3,
});

// Where the file's frames end: the header's, one with two events and a note, one with a note alone, and one
// with two events.
const ENDS: [usize; 4] = [88, 344, 408, 632];

fn over(alloc: Global, bytes: &[u8]) -> Result<LogFile<Memory>, AllocError>
    ensures { IfOk result (λ f. memory_bytes f.frames.device ≡ bytes.now) }
{
    Ok(LogFile::new(Memory::new(alloc, Vec::from_slice(alloc, bytes)?)))
}

// A call that deletes a record.
fn log(alloc: Global) -> Result<Log, AllocError> {
    let mut log = Log::new(alloc);
    log.reserve(4)?;
    log.push(Event::Admit {
        txn: 1,
        proc: 0,
        args: Args::copy_of(alloc, &[5])?,
    });
    log.push(Event::Ask {
        txn: 1,
        number: 1,
        op: DELETE,
    });
    log.push(Event::Answer {
        txn: 1,
        number: 1,
        said: Said::Done(None),
    });
    log.push(Event::End {
        txn: 1,
        outcome: Outcome::Committed,
    });
    Ok(log)
}

const RESTARTED: SiteNote = SiteNote::Restarted(News {
    incarnation: 3,
    mark: 4,
});

// A file that is empty is begun.
fn is_begun(rt: &impl Abort, alloc: Global, file: &mut LogFile<Memory>)
    requires { memory_bytes file.old.frames.device ≡ [] }
{
    let empty = matches!(file.open(alloc, &HEADER, &[]), Err(OpenFault::Empty));
    is_same(rt, (empty, file.create(alloc, &HEADER)), (true, Ok(())));
}

// How each of three syncs went.
fn three_syncs(
    alloc: Global,
    file: &mut LogFile<Memory>,
    log: &Log,
) -> Result<[Result<(), FrameFault>; 3], AllocError> {
    let restarted = Note {
        dc: 1,
        known: RESTARTED,
    };
    let up = Note {
        dc: 1,
        known: SiteNote::Up(3),
    };
    let rows = log.print(alloc)?;
    let rest = log.print_from(alloc, 2)?;
    let first = rows.get(..192).unwrap_or_default();
    Ok([
        file.append(alloc, &[restarted], first),
        file.append(alloc, &[up], &[]),
        file.append(alloc, &[], &rest),
    ])
}

// A file of three syncs.
fn written(rt: &impl Abort, alloc: Global) -> Vec<u8> {
    let mut file = over(alloc, &[]).expect(rt, "no file");
    is_begun(rt, alloc, &mut file);
    let log = log(alloc).expect(rt, "no log");
    let synced = three_syncs(alloc, &mut file, &log).expect(rt, "no rows");
    drop(log);
    let bytes = Vec::from_slice(alloc, file.device().bytes()).expect(rt, "no bytes");
    drop(file);
    is_same(rt, synced, [Ok(()), Ok(()), Ok(())]);
    is_same(rt, bytes.len(), ENDS[3]);
    bytes
}

// What these bytes are read as.
fn opened(alloc: Global, bytes: &[u8], header: &Header) -> Result<Recovered, OpenFault> {
    over(alloc, bytes)?.open(alloc, header, bytes)
}

// They are read as the log with so many bytes of rows, and with this note of the second data component.
fn says(rt: &impl Abort, alloc: Global, bytes: &[u8], len: usize, note: SiteNote) {
    let Ok(found) = opened(alloc, bytes, &HEADER) else {
        panic!(rt; "refused");
    };
    is_same(
        rt,
        found.notes.as_slice(),
        [SiteNote::Untold, note].as_slice(),
    );
    let again = found.log.print(alloc).expect(rt, "no rows");
    drop(found);
    let rows = rows(rt, alloc, 0);
    is_same(rt, again.as_slice(), rows.get(..len).unwrap_or_default());
}

// The rows of its log from this event on.
fn rows(rt: &impl Abort, alloc: Global, first: usize) -> Vec<u8> {
    let log = log(alloc).expect(rt, "no log");
    let rows = log.print_from(alloc, first).expect(rt, "no rows");
    drop(log);
    rows
}

#[test]
fn each_truncation_is_a_beginning(rt: HostRuntime) {
    let alloc = rt.alloc();
    let bytes = written(&rt, alloc);
    for len in 0..=bytes.len() {
        let front = bytes.get(..len).unwrap_or_default();
        match len {
            0..=87 => assert!(rt; matches!(opened(alloc, front, &HEADER), Err(OpenFault::Empty))),
            88..=343 => says(&rt, alloc, front, 0, SiteNote::Untold),
            344..=407 => says(&rt, alloc, front, 192, RESTARTED),
            408..=631 => says(&rt, alloc, front, 192, SiteNote::Up(3)),
            _ => says(&rt, alloc, front, 384, SiteNote::Up(3)),
        }
    }
}

// The bytes with another one in this place.
fn changed(rt: &impl Abort, alloc: Global, bytes: &[u8], place: usize) -> Vec<u8> {
    let mut changed = Vec::from_slice(alloc, bytes).expect(rt, "no bytes");
    if let Some(byte) = changed.get_mut(place) {
        *byte ^= 0x10;
    }
    changed
}

// A changed byte of the last frame leaves an end that isn't whole; before it, its frame is damaged.
#[test]
fn each_changed_byte_is_found(rt: HostRuntime) {
    let alloc = rt.alloc();
    let bytes = written(&rt, alloc);
    for place in 0..bytes.len() {
        let changed = changed(&rt, alloc, &bytes, place);
        let frame = match place {
            0..=87 => 0,
            88..=343 => 1,
            344..=407 => 2,
            // The number of a frame that is torn can't be another one.
            408..=415 => 3,
            _ => {
                says(&rt, alloc, &changed, 192, SiteNote::Up(3));
                continue;
            }
        };
        let found = opened(alloc, &changed, &HEADER).err();
        let damaged = OpenFault::Frames(FrameFault::Damaged(frame));
        is_same(&rt, (place, found), (place, Some(damaged)));
    }
}

// A file with these bytes is refused, and left as it was.
fn is_left(rt: &impl Abort, alloc: Global, bytes: &[u8], header: &Header, wanted: OpenFault) {
    let mut file = over(alloc, bytes).expect(rt, "no file");
    let fault = file.open(alloc, header, bytes).err();
    let is_as_it_was = file.device().bytes() == bytes && file.device().dropped().is_empty();
    drop(file);
    is_same(rt, (fault, is_as_it_was), (Some(wanted), true));
}

// What no run of this header wrote isn't begun, nor cut.
#[test]
fn other_files_are_left(rt: HostRuntime) {
    let alloc = rt.alloc();
    let bytes = written(&rt, alloc);
    let other = Header {
        procedures: HEADER.procedures + 1,
        ..HEADER
    };
    is_left(
        &rt,
        alloc,
        b"# A page\n".as_slice(),
        &HEADER,
        OpenFault::Other,
    );
    is_left(&rt, alloc, &[0; 40], &HEADER, OpenFault::Other);
    for len in 80..=bytes.len() {
        let front = bytes.get(..len).unwrap_or_default();
        is_left(&rt, alloc, front, &other, OpenFault::Other);
    }
    let header = bytes.get(..88).unwrap_or_default();
    for more in [header, b"more".as_slice()] {
        let longer = longer(&rt, alloc, &bytes, more);
        let damaged = OpenFault::Frames(FrameFault::Damaged(4));
        is_left(&rt, alloc, &longer, &HEADER, damaged);
    }
}

// More bytes behind these.
fn longer(rt: &impl Abort, alloc: Global, bytes: &[u8], more: &[u8]) -> Vec<u8> {
    let mut longer = Vec::from_slice(alloc, bytes).expect(rt, "no bytes");
    longer.extend_from_slice(more).expect(rt, "no room");
    longer
}

// What is appended to a file that was cut short stands behind what was read.
#[test]
fn it_goes_on(rt: HostRuntime) {
    let alloc = rt.alloc();
    let bytes = written(&rt, alloc);
    let front = bytes.get(..631).unwrap_or_default();
    let mut file = over(alloc, front).expect(&rt, "no file");
    let Ok(found) = file.open(alloc, &HEADER, front) else {
        panic!(rt; "refused");
    };
    let rest = rows(&rt, alloc, found.log.len());
    drop(found);
    is_same(&rt, file.append(alloc, &[], &rest), Ok(()));
    is_same(&rt, file.device().bytes(), bytes.as_slice());
    drop(file);
}

// The fault of a file with this batch behind the header.
fn fault(rt: &impl Abort, alloc: Global, notes: &[Note], rows: &[u8]) -> Option<OpenFault> {
    let mut file = over(alloc, &[]).expect(rt, "no file");
    let _empty = file.open(alloc, &HEADER, &[]);
    let _created = file.create(alloc, &HEADER);
    let _appended = file.append(alloc, notes, rows);
    let fault = opened(alloc, file.device().bytes(), &HEADER).err();
    drop(file);
    fault
}

// The file is another transaction component's than this header's.
fn is_another(rt: &impl Abort, alloc: Global, bytes: &[u8], header: &Header) {
    assert!(rt; matches!(opened(alloc, bytes, header), Err(OpenFault::Other)));
}

#[test]
fn what_is_another_log(rt: HostRuntime) {
    let bytes = written(&rt, rt.alloc());
    for other in [
        Header { dcs: 3, ..HEADER },
        Header {
            procedures: 2,
            ..HEADER
        },
        Header {
            digest: [8; 32],
            ..HEADER
        },
    ] {
        is_another(&rt, rt.alloc(), &bytes, &other);
    }
}

// A file with this batch behind the header has this fault.
fn has_fault(rt: &impl Abort, alloc: Global, notes: &[Note], rows: &[u8], want: Option<OpenFault>) {
    is_same(rt, fault(rt, alloc, notes, rows), want);
}

#[test]
fn what_is_no_log(rt: HostRuntime) {
    let alloc = rt.alloc();
    let there = Note {
        dc: 1,
        known: SiteNote::Untold,
    };
    let beyond = Note { dc: 2, ..there };
    let no_batch = Some(OpenFault::NoBatch(1));
    has_fault(&rt, alloc, &[there], &[], None);
    has_fault(&rt, alloc, &[there, beyond], &[], no_batch);
    has_fault(&rt, alloc, &[], &[5; 95], no_batch);
    let rows = longer(&rt, alloc, &rows(&rt, alloc, 0), &[0; 96]);
    has_fault(&rt, alloc, &[], &rows, Some(OpenFault::Row(4)));
}

// Whoever wrote it, and with an end that a crash left.
#[test]
fn it_is_read_by_itself(rt: HostRuntime) {
    let alloc = rt.alloc();
    let bytes = written(&rt, alloc);
    let Ok(found) = read_file(alloc, bytes.get(..631).unwrap_or_default()) else {
        panic!(rt; "refused");
    };
    let Stored {
        header,
        base,
        log,
        notes,
        frames: _,
        unfinished,
    } = found;
    is_same(
        &rt,
        (header, base.is_none(), log.len(), unfinished),
        (HEADER, true, 2, 223),
    );
    is_same(
        &rt,
        notes.as_slice(),
        [SiteNote::Untold, SiteNote::Up(3)].as_slice(),
    );
}

// The fault of a file with this payload alone.
fn fault_of(alloc: Global, payload: &[u8]) -> Option<OpenFault> {
    let mut file = FrameFile::new(Memory::new(alloc, Vec::new(alloc)));
    let _read = file.recover(alloc, &[]);
    let _appended = file.append(alloc, payload);
    read_file(alloc, file.device().bytes()).err()
}

#[test]
fn what_is_nobodys_log(rt: HostRuntime) {
    let alloc = rt.alloc();
    let bytes = written(&rt, alloc);
    let header = bytes.get(24..88).unwrap_or_default();
    let mut header = Vec::from_slice(alloc, header).expect(&rt, "no bytes");
    is_same(&rt, fault_of(alloc, &header), None);
    is_same(
        &rt,
        fault_of(alloc, header.get(..63).unwrap_or_default()),
        Some(OpenFault::Other),
    );
    if let Some(byte) = header.get_mut(8) {
        *byte = 2;
    }
    is_same(&rt, fault_of(alloc, &header), Some(OpenFault::Other));
    is_same(&rt, read_file(alloc, &[]).err(), Some(OpenFault::Empty));
    is_same(
        &rt,
        read_file(alloc, bytes.get(..87).unwrap_or_default()).err(),
        Some(OpenFault::Empty),
    );
    is_same(
        &rt,
        read_file(alloc, b"# A page\n".as_slice()).err(),
        Some(OpenFault::Other),
    );
}

const BASE: [BaseRow; 2] = [
    (
        Record {
            dc: 0,
            table: 1,
            key: 2,
        },
        [3; 64],
    ),
    (
        Record {
            dc: 1,
            table: 0,
            key: 0,
        },
        [4; 64],
    ),
];

// A file of a log that begins anew, behind this base.
fn begun_anew(rt: &impl Abort, alloc: Global, base: &[BaseRow]) -> Vec<u8> {
    let row = checkpoint_row(rt, alloc);
    let mut file = over(alloc, &[]).expect(rt, "no file");
    let _empty = file.open(alloc, &HEADER, &[]);
    let _begun = file.begin_anew(alloc, &HEADER, base, &row);
    let bytes = Vec::from_slice(alloc, file.device().bytes()).expect(rt, "no bytes");
    drop(file);
    bytes
}

fn checkpoint_row(rt: &impl Abort, alloc: Global) -> Vec<u8> {
    let mut log = Log::new(alloc);
    log.reserve(1).expect(rt, "no room");
    log.push(Event::Checkpoint {
        admitted: 5,
        given: 9,
    });
    let row = log.print(alloc).expect(rt, "no rows");
    drop(log);
    row
}

#[test]
fn a_log_begins_anew(rt: HostRuntime) {
    let alloc = rt.alloc();
    let bytes = begun_anew(&rt, alloc, &BASE);
    let Ok(
        Recovered {
            base,
            log: _log,
            notes: _notes,
        },
    ) = opened(alloc, &bytes, &HEADER)
    else {
        panic!(rt; "refused");
    };
    let Some(base) = base else {
        panic!(rt; "no base");
    };
    is_same(&rt, (bytes.len(), base.as_slice()), (408, BASE.as_slice()));
}

// Cut short, it says no log, but where it has fewer bytes than tell the two layouts apart.
#[test]
fn a_beginning_anew_is_whole(rt: HostRuntime) {
    let alloc = rt.alloc();
    let bytes = begun_anew(&rt, alloc, &BASE);
    for len in 0..bytes.len() {
        let front = bytes.get(..len).unwrap_or_default();
        let fault = match len {
            0..=8 => OpenFault::Empty,
            9..=95 => OpenFault::Other,
            96..=279 => OpenFault::NoBase(1),
            _ => OpenFault::NoBase(2),
        };
        is_same(
            &rt,
            (len, opened(alloc, front, &HEADER).err()),
            (len, Some(fault)),
        );
    }
}

#[test]
fn each_changed_byte_of_a_base_is_found(rt: HostRuntime) {
    let alloc = rt.alloc();
    let bytes = begun_anew(&rt, alloc, &BASE);
    for place in 0..bytes.len() {
        let changed = changed(&rt, alloc, &bytes, place);
        let fault = match place {
            0..=95 => OpenFault::Frames(FrameFault::Damaged(0)),
            96..=279 => OpenFault::Frames(FrameFault::Damaged(1)),
            280..=287 => OpenFault::Frames(FrameFault::Damaged(2)),
            _ => OpenFault::NoBase(2),
        };
        is_same(
            &rt,
            (place, opened(alloc, &changed, &HEADER).err()),
            (place, Some(fault)),
        );
    }
}

// Records that don't rise are no base.
#[test]
fn a_base_rises(rt: HostRuntime) {
    let alloc = rt.alloc();
    let [first, second] = BASE;
    for base in [[second, first], [first, first]] {
        let bytes = begun_anew(&rt, alloc, &base);
        is_same(
            &rt,
            opened(alloc, &bytes, &HEADER).err(),
            Some(OpenFault::NoBase(1)),
        );
    }
}
