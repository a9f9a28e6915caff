use crate::checks::is_same;
use crate::embedding_tests::{asked, found, loaded, made, told};
use access_slots::op::News;
use embedding::call;
use embedding::codes::{BEGUN, DONE, FILE_DAMAGED, FILE_FOREIGN, FILE_OTHERS, MEMORY};
use embedding::engine::{self, Engine};
use log_file::{Stored, read_file};
use std::alloc::{AllocError, Global};
use std::process::Abort;
use std::test::Fail;
use tc_core::SiteNote;

// Where the frames of the file end: the header's, two events, two more, and a note.
const ENDS: [usize; 4] = [88, 312, 536, 600];

// What is ahead of the log goes behind the file; answers how many bytes, or the code.
fn write_ahead(engine: &mut Engine, file: &mut Vec<u8>) -> Result<u64, u32> {
    let ahead = made(engine, call::FILE_AHEAD);
    if ahead != DONE {
        return Err(ahead);
    }
    let length = engine.frame.word;
    for _ in 0..length.div_ceil(256) {
        let piece = made(engine, call::FILE_BYTES);
        let bytes = engine.frame.bytes.get(..engine.frame.count as usize);
        if piece != DONE || file.extend_from_slice(bytes.unwrap_or_default()).is_err() {
            return Err(MEMORY);
        }
    }
    Ok(length)
}

// A file's bytes, as an engine hands them in that comes back.
fn handed_in(engine: &mut Engine, file: &[u8]) -> u32 {
    let mut code = made(engine, call::CLEAR);
    for piece in file.chunks(256) {
        if let Some(room) = engine.frame.bytes.get_mut(..piece.len()) {
            room.copy_from_slice(piece);
        }
        engine.frame.count = piece.len() as u32;
        code |= made(engine, call::BYTES);
    }
    code
}

// It comes back from these bytes: the code, how many of them are whole, and the place.
fn came_back(engine: &mut Engine, file: &[u8]) -> (u32, u64, u64) {
    engine.frame.place = 0;
    let handed = handed_in(engine, file);
    engine.frame.word = 0;
    let back = made(engine, call::FILE_BACK);
    (handed | back, engine.frame.word, engine.frame.place)
}

// How many events its log has.
fn events(engine: &mut Engine) -> u64 {
    match made(engine, call::LOG_LENGTH) {
        DONE => engine.frame.word,
        _ => u64::MAX,
    }
}

// The call is answered with nothing, and ends.
fn ended(engine: &mut Engine) -> bool {
    engine.frame.kind = 2;
    made(engine, call::ANSWER) == DONE && made(engine, call::END) == DONE
}

// Its data component restarts.
fn restarted(engine: &mut Engine) -> bool {
    told(engine)[0] == DONE
}

// What each of five preparations adds to the file, whose bytes they are; the fourth is of nothing.
fn written(engine: &mut Engine, file: &mut Vec<u8>) -> [Result<u64, u32>; 5] {
    let header = match loaded(engine) {
        true => write_ahead(engine, file),
        false => Err(0),
    };
    let asks = match admitted(engine) {
        true => write_ahead(engine, file),
        false => Err(0),
    };
    let ends = match ended(engine) {
        true => write_ahead(engine, file),
        false => Err(0),
    };
    let nothing = write_ahead(engine, file);
    let note = match restarted(engine) {
        true => write_ahead(engine, file),
        false => Err(0),
    };
    [header, asks, ends, nothing, note]
}

// A call for record 7 that has come to its question.
fn admitted(engine: &mut Engine) -> bool {
    engine.frame.word = 0;
    engine.frame.count = 1;
    engine.frame.args[0] = 7;
    made(engine, call::ADMIT) == DONE && made(engine, call::ASK) == DONE
}

const LENGTHS: [Result<u64, u32>; 5] = [Ok(88), Ok(224), Ok(224), Ok(0), Ok(64)];

// The file of an engine.
fn file(rt: &impl Abort, alloc: Global) -> Vec<u8> {
    let mut file = Vec::new(alloc);
    let mut engine = engine::made(alloc);
    let lengths = written(&mut engine, &mut file);
    engine::finish(engine);
    is_same(rt, (lengths, file.len()), (LENGTHS, ENDS[3]));
    file
}

// `procd log` reads it: its log, and the last note.
#[test]
fn a_file_is_read(rt: HostRuntime) -> Result<(), Fail> {
    let alloc = rt.alloc();
    let file = file(&rt, alloc);
    let Ok(
        Stored {
            header,
            base: None,
            log,
            notes,
            frames: _,
            unfinished,
        },
    ) = read_file(alloc, &file)
    else {
        panic!(rt; "refused");
    };
    let restarted = SiteNote::Restarted(News {
        incarnation: 1,
        mark: 0,
    });
    is_same(
        &rt,
        (header.dcs, header.procedures, log.len(), unfinished),
        (1, 1, 4, 0),
    );
    is_same(&rt, notes.as_slice(), [restarted].as_slice());
    drop(log);
    Ok(())
}

// How an engine comes back from these bytes, and how many events it has then.
fn back(alloc: Global, file: &[u8]) -> (bool, (u32, u64, u64), u64) {
    let mut engine = engine::made(alloc);
    let loaded = loaded(&mut engine);
    let back = came_back(&mut engine, file);
    let events = events(&mut engine);
    engine::finish(engine);
    (loaded, back, events)
}

// Torn anywhere, it is read up to the last frame that is whole.
#[test]
fn each_truncation_comes_back(rt: HostRuntime) {
    let alloc = rt.alloc();
    let file = file(&rt, alloc);
    for len in 0..=file.len() {
        let front = file.get(..len).unwrap_or_default();
        let (whole, events) = match len {
            0..=87 => (0, 0),
            88..=311 => (88, 0),
            312..=535 => (312, 2),
            536..=599 => (536, 4),
            _ => (600, 4),
        };
        is_same(
            &rt,
            (len, back(alloc, front)),
            (len, (true, (DONE, whole, 0), events)),
        );
    }
}

// A changed byte before the last frame is damage, with the frame's number; in the last frame it is read as an end that a
// crash left, unless the frame has another number.
#[test]
fn each_changed_byte_is_seen(rt: HostRuntime) -> Result<(), Fail> {
    let alloc = rt.alloc();
    let file = file(&rt, alloc);
    for place in 0..file.len() {
        let mut changed = Vec::from_slice(alloc, &file)?;
        if let Some(byte) = changed.get_mut(place) {
            *byte ^= 0x10;
        }
        let seen = match place {
            0..=87 => ((FILE_DAMAGED, 0, 0), 0),
            88..=311 => ((FILE_DAMAGED, 0, 1), 0),
            312..=535 => ((FILE_DAMAGED, 0, 2), 0),
            536..=543 => ((FILE_DAMAGED, 0, 3), 0),
            _ => ((DONE, 536, 0), 4),
        };
        is_same(
            &rt,
            (place, back(alloc, &changed)),
            (place, (true, seen.0, seen.1)),
        );
    }
    Ok(())
}

// The request of its open call is made again, and the call ends.
fn resumed(engine: &mut Engine) -> bool {
    found(engine).0 == DONE && made(engine, call::RETAKE) == DONE && ended(engine)
}

// What an engine writes that came back from a torn file, of which the whole frames are left.
fn goes_on(engine: &mut Engine, file: &mut Vec<u8>) -> [Result<u64, u32>; 2] {
    let loaded = loaded(engine);
    let (back, whole, _) = came_back(engine, file);
    file.truncate(whole as usize);
    let nothing = write_ahead(engine, file);
    match loaded && back == DONE && resumed(engine) {
        true => [nothing, write_ahead(engine, file)],
        false => [nothing, Err(back)],
    }
}

// It comes to the same file.
#[test]
fn a_torn_file_goes_on(rt: HostRuntime) -> Result<(), Fail> {
    let alloc = rt.alloc();
    let file = file(&rt, alloc);
    let mut torn = Vec::from_slice(alloc, file.get(..400).unwrap_or_default())?;
    let mut engine = engine::made(alloc);
    let went_on = goes_on(&mut engine, &mut torn);
    engine::finish(engine);
    is_same(&rt, went_on, [Ok(0), Ok(224)]);
    is_same(&rt, torn.as_slice(), file.get(..536).unwrap_or_default());
    Ok(())
}

// A log that begins anew behind one call, of which the end wasn't handed out, and goes on with another.
fn begun_anew(engine: &mut Engine, file: &mut Vec<u8>) -> [Result<u64, u32>; 2] {
    let called = loaded(engine) && admitted(engine) && ended(engine);
    let prepared = made(engine, call::FILE_AHEAD);
    engine.frame.low_water = 1;
    let anew = made(engine, call::LOG_ANEW);
    if !called || prepared | anew != DONE {
        return [Err(prepared), Err(anew)];
    }
    let begun = write_ahead(engine, file);
    match admitted(engine) {
        true => [begun, write_ahead(engine, file)],
        false => [begun, Err(0)],
    }
}

// The new file has no records, and begins with a checkpoint; an engine comes back from it.
#[test]
fn a_log_begins_anew(rt: HostRuntime) -> Result<(), Fail> {
    let alloc = rt.alloc();
    let mut file = Vec::new(alloc);
    let mut engine = engine::made(alloc);
    let anew = begun_anew(&mut engine, &mut file);
    engine::finish(engine);
    is_same(&rt, anew, [Ok(224), Ok(224)]);
    let Ok(stored) = read_file(alloc, &file) else {
        panic!(rt; "refused");
    };
    is_same(&rt, (stored.log.len(), stored.unfinished), (3, 0));
    assert!(rt; matches!(&stored.base, Some(base) if base.is_empty()));
    drop(stored);
    is_same(&rt, back(alloc, &file), (true, (DONE, 448, 0), 3));
    Ok(())
}

// How two engines take a file: one that has prepared one, and one with two data components.
fn others(alloc: Global, file: &[u8]) -> [(u32, u64, u64); 2] {
    let mut begun = engine::made(alloc);
    let mut wider = engine::made(alloc);
    let ahead = match asked(&mut begun) {
        true => made(&mut begun, call::FILE_AHEAD),
        false => MEMORY,
    };
    wider.frame.word = 2;
    let started = made(&mut wider, call::START_TC);
    let taken = [came_back(&mut begun, file), came_back(&mut wider, file)];
    engine::finish(begun);
    engine::finish(wider);
    match ahead | started {
        DONE => taken,
        code => [(code, 0, 0); 2],
    }
}

// A file that isn't its own is refused, and an engine that isn't new refuses each.
#[test]
fn other_files_are_refused(rt: HostRuntime) {
    let alloc = rt.alloc();
    let file = file(&rt, alloc);
    is_same(
        &rt,
        others(alloc, &file),
        [(BEGUN, 0, 0), (FILE_OTHERS, 0, 0)],
    );
    is_same(
        &rt,
        back(alloc, b"# A page\n".as_slice()),
        (true, (FILE_FOREIGN, 0, 0), 0),
    );
}

// A second procedure is loaded once the file is begun.
fn loaded_late(engine: &mut Engine) -> [u32; 3] {
    let ahead = match asked(engine) {
        true => made(engine, call::FILE_AHEAD),
        false => MEMORY,
    };
    engine.frame.word = 1;
    engine.frame.bytes[0] = b's';
    engine.frame.count = 1;
    let loaded = made(engine, call::LOAD);
    [ahead, loaded, made(engine, call::FILE_AHEAD)]
}

// Nothing more is prepared for a file that was begun for other procedures.
#[test]
fn a_late_procedure_has_no_file(rt: HostRuntime) {
    let mut engine = engine::made(rt.alloc());
    let late = loaded_late(&mut engine);
    let prepared = made(&mut engine, call::FILE_BYTES);
    let count = engine.frame.count;
    engine::finish(engine);
    is_same(
        &rt,
        (late, prepared, count),
        ([DONE, DONE, FILE_OTHERS], DONE, 256),
    );
}
