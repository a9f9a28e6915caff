ghost use Rattle.std.specs.Prelude.{◌≡◌};
ghost use Rattle.frame_file.specs.Memory.{memory_bytes};

use crate::checks::is_same;
use frame_file::{FrameFault, FrameFile, Memory, read_frames};
use std::alloc::Global;
use std::process::Abort;

// Where the frames end that hold "first", nothing and "third".
const ENDS: [usize; 3] = [29, 53, 82];

// The first of them: number 0, length 5, and the hash by another program.
const FIRST: [u8; 29] = [
    0, 0, 0, 0, 0, 0, 0, 0, 5, 0, 0, 0, 0, 0, 0, 0, 238, 31, 210, 224, 250, 225, 117, 247, 102,
    105, 114, 115, 116,
];

type File = FrameFile<Memory>;

// A file in memory of these bytes.
fn memory(rt: &impl Abort, alloc: Global, bytes: &[u8]) -> File
    ensures { memory_bytes result.device ≡ bytes.now }
{
    let copy = Vec::from_slice(alloc, bytes).expect(rt, "no bytes");
    FrameFile::new(Memory::new(alloc, copy))
}

// This frame is appended to a file that was recovered.
fn append(rt: &impl Abort, alloc: Global, file: &mut File, payload: &[u8]) {
    file.append(alloc, payload).expect(rt, "not appended");
}

// A file in memory of these bytes, which is gone on with behind the payloads that it has.
fn recovered(rt: &impl Abort, alloc: Global, bytes: &[u8]) -> (File, Vec<Vec<u8>>) {
    let mut file = memory(rt, alloc, bytes);
    let payloads = file.recover(alloc, bytes).expect(rt, "not recovered");
    (file, payloads)
}

// The bytes of a file of these three frames.
fn three(rt: &impl Abort, alloc: Global) -> Vec<u8> {
    let (mut file, payloads) = recovered(rt, alloc, &[]);
    drop(payloads);
    append(rt, alloc, &mut file, b"first".as_slice());
    append(rt, alloc, &mut file, &[]);
    append(rt, alloc, &mut file, b"third".as_slice());
    let bytes = Vec::from_slice(alloc, file.device().bytes()).expect(rt, "no bytes");
    drop(file);
    bytes
}

// How many frames these bytes have, or the fault.
fn count(alloc: Global, bytes: &[u8]) -> Result<usize, FrameFault> {
    Ok(read_frames(alloc, bytes)?.payloads.len())
}

fn three_are_read(rt: &impl Abort, payloads: &[Vec<u8>]) {
    is_same(rt, payloads.len(), 3);
    for (payload, want) in payloads
        .iter()
        .zip([b"first".as_slice(), &[], b"third".as_slice()])
    {
        is_same(rt, payload.as_slice(), want);
    }
}

fn four_are_there(rt: &impl Abort, alloc: Global, bytes: &[u8]) {
    let found = read_frames(alloc, bytes).expect(rt, "not read");
    is_same(rt, (found.payloads.len(), found.end), (4, 112));
}

#[test]
fn what_was_appended_is_read_again(rt: HostRuntime) {
    let alloc = rt.alloc();
    let (mut file, payloads) = recovered(&rt, alloc, &three(&rt, alloc));
    three_are_read(&rt, payloads.as_slice());
    drop(payloads);
    append(&rt, alloc, &mut file, b"fourth".as_slice());
    four_are_there(&rt, alloc, file.device().bytes());
    drop(file);
}

#[test]
fn bytes_of_a_frame(rt: HostRuntime) {
    let mut bytes = three(&rt, rt.alloc());
    is_same(&rt, bytes.len(), ENDS[2]);
    bytes.truncate(ENDS[0]);
    is_same(&rt, bytes.as_slice(), FIRST.as_slice());
}

// How many frames end at or before this place.
fn ended(place: usize) -> usize {
    match place {
        0..=28 => 0,
        29..=52 => 1,
        53..=81 => 2,
        _ => 3,
    }
}

// What is cut off is a frame that isn't whole.
#[test]
fn each_truncation_is_a_beginning(rt: HostRuntime) {
    let alloc = rt.alloc();
    let bytes = three(&rt, alloc);
    for len in 0..=bytes.len() {
        if let Some(front) = bytes.get(..len) {
            is_same(&rt, (len, count(alloc, front)), (len, Ok(ended(len))));
        }
    }
}

// These bytes, of which the one at this place is changed.
fn changed_at(rt: &impl Abort, alloc: Global, bytes: &[u8], place: usize) -> Vec<u8> {
    let mut changed = Vec::from_slice(alloc, bytes).expect(rt, "no bytes");
    if let Some(byte) = changed.get_mut(place) {
        *byte ^= 0x10;
    }
    changed
}

fn is_found(rt: &impl Abort, alloc: Global, bytes: &[u8], place: usize) {
    let want = match place {
        0..=28 => Err(FrameFault::Damaged(0)),
        29..=52 => Err(FrameFault::Damaged(1)),
        // The number of a frame that is torn can't be another one.
        53..=60 => Err(FrameFault::Damaged(2)),
        _ => Ok(2),
    };
    let changed = changed_at(rt, alloc, bytes, place);
    let found = count(alloc, changed.as_slice());
    drop(changed);
    is_same(rt, (place, found), (place, want));
}

// A changed byte of the last frame leaves an end that isn't whole, and one before it is damage.
#[test]
fn each_changed_byte_is_found(rt: HostRuntime) {
    let bytes = three(&rt, rt.alloc());
    for place in 0..bytes.len() {
        is_found(&rt, rt.alloc(), &bytes, place);
    }
}

// What a crash left of a frame is cut off, and the next one stands in its place.
#[test]
fn an_end_is_cut_off(rt: HostRuntime) {
    let alloc = rt.alloc();
    let bytes = three(&rt, alloc);
    let torn = bytes.get(..ENDS[2] - 1).unwrap_or_default();
    let (mut file, payloads) = recovered(&rt, alloc, torn);
    is_same(&rt, payloads.len(), 2);
    drop(payloads);
    is_same(&rt, file.device().bytes().len(), ENDS[1]);
    let cut = bytes.get(ENDS[1]..ENDS[2] - 1).unwrap_or_default();
    is_same(&rt, file.device().dropped(), cut);
    append(&rt, alloc, &mut file, b"third".as_slice());
    is_same(&rt, file.device().bytes(), bytes.as_slice());
    drop(file);
}

// Three frames, and these bytes behind them.
fn behind(rt: &impl Abort, alloc: Global, end: &[u8]) -> Vec<u8> {
    let mut bytes = three(rt, alloc);
    bytes.extend_from_slice(end).expect(rt, "no bytes");
    bytes
}

// What no crash leaves behind three frames is refused, and not cut off.
fn is_refused(rt: &impl Abort, alloc: Global, end: &[u8]) {
    let bytes = behind(rt, alloc, end);
    let mut file = memory(rt, alloc, &bytes);
    let refused = matches!(file.recover(alloc, &bytes), Err(FrameFault::Damaged(3)));
    is_same(rt, (end.len(), refused), (end.len(), true));
    is_same(rt, file.device().bytes(), bytes.as_slice());
    is_same(rt, file.device().dropped().len(), 0);
    drop(file);
}

#[test]
fn other_ends_are_damaged(rt: HostRuntime) {
    let alloc = rt.alloc();
    let bytes = three(&rt, alloc);
    is_refused(&rt, alloc, b"?".as_slice());
    is_refused(&rt, alloc, b"more than a word of text".as_slice());
    is_refused(&rt, alloc, FIRST.as_slice());
    is_refused(&rt, alloc, bytes.as_slice());
    is_refused(&rt, alloc, &[3, 0, 0, 0, 0, 0, 0, 1]);
    is_refused(
        &rt,
        alloc,
        &[
            3, 0, 0, 0, 0, 0, 0, 0, 1, 0, 0, 0, 0, 0, 0, 0, 0, 0, 0, 0, 0, 0, 0, 0, 0, 0,
        ],
    );
}

// The third frame with the word at this place of it in a hole.
fn hole(rt: &impl Abort, alloc: Global, place: usize) -> Result<usize, FrameFault> {
    let mut bytes = three(rt, alloc);
    let start = ENDS[1].saturating_add(place);
    for byte in bytes.iter_mut().skip(start).take(8) {
        *byte = 0;
    }
    count(alloc, bytes.as_slice())
}

// A torn frame with a hole is an end.
#[test]
fn holes_are_ends(rt: HostRuntime) {
    for place in [0, 8, 16, 24] {
        is_same(&rt, (place, hole(&rt, rt.alloc(), place)), (place, Ok(2)));
    }
}
