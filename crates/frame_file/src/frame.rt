// One frame: its 24 bytes of a head, and its payload.

ghost use Rattle.std.specs.Prelude.{◌≡◌, ◌↔◌, ◌++◌, ◌<◌, ◌≤◌, ◌^◌, drop, length, IsTrue, IfSome, IfNone, OnOk};
ghost use Rattle.std.specs.Int.{w64, to_le_bytes, from_le_bytes};
ghost use Rattle.frame_file.specs.Frame.{hash_step, hashed, measured, checksum, head_bytes, framed, IsPayload, NoFrame, MayBeTorn};
ghost use Rattle.frame_file.specs.Device.{IsLeft};

use byteorder::{ByteOrder, LittleEndian};
use std::alloc::AllocError;

/// The bytes of a head.
pub const HEAD: usize = 24;

// The hash of no bytes, and the factor of each step.
const BASIS: u64 = 0xcbf2_9ce4_8422_2325;

pub(crate) const PRIME: u64 = 0x0100_0000_01b3;

fn hash_step(hash: u64, byte: u8) -> u64
    ensures { result ≡ hash_step hash byte }
{
    (hash ^ u64::from(byte)).wrapping_mul(PRIME)
}

// FNV-1a: since each step turns different hashes into different ones, bytes that differ at one place alone
// have different hashes.
#[tactic(auto, unfolding(crate::specs::Frame::hashed))]
pub(crate) fn hashed(hash: u64, bytes: &[u8]) -> u64
    ensures { result ≡ hashed hash bytes.now }
{
    let mut hash = hash;
    for byte in bytes {
        hash = hash_step(hash, *byte);
    }
    hash
}

// A number's bytes.
fn long_bytes(number: u64) -> [u8; 8]
    ensures { result ≡ to_le_bytes w64 number }
{
    let mut bytes = [0; 8];
    LittleEndian::write_u64(&mut bytes, number);
    bytes
}

// What a checksum is before the payload is gone over.
pub(crate) fn measured(number: u64, size: u64) -> u64
    ensures { result ≡ measured number size }
{
    hashed(hashed(BASIS, &long_bytes(number)), &long_bytes(size))
}

fn checksum(number: u64, payload: &[u8]) -> u64
    ensures { result ≡ checksum number payload.now }
{
    hashed(measured(number, payload.len() as u64), payload)
}

/// A number from its 8 bytes, the lowest first.
#[tactic(auto, using(crate::proofs::Frames::long_is))]
pub fn long(bytes: &[u8]) -> u64
    requires { length bytes.now ≡ 8 }
    ensures { result ≡ from_le_bytes w64 bytes.now }
{
    LittleEndian::read_u64(bytes)
}

/// Writes a number as 8 bytes, the lowest first.
pub fn write_long(out: &mut Vec<u8>, number: u64) -> Result<(), AllocError>
    ensures { OnOk result (out.new.items ≡ out.old.items ++ to_le_bytes w64 number) }
{
    out.extend_from_slice(&long_bytes(number))
}

// The head of a frame.
#[tactic(auto, unfolding(crate::specs::Frame::head_bytes))]
fn write_head(out: &mut Vec<u8>, number: u64, payload: &[u8]) -> Result<(), AllocError>
    ensures { OnOk result (out.new.items ≡ out.old.items ++ head_bytes number payload.now) }
{
    write_long(out, number)?;
    write_long(out, payload.len() as u64)?;
    write_long(out, checksum(number, payload))
}

/// Writes the frame of this number.
pub fn write_frame(out: &mut Vec<u8>, number: u64, payload: &[u8]) -> Result<(), AllocError>
    ensures { OnOk result (out.new.items ≡ out.old.items ++ framed number payload.now) }
{
    write_head(out, number, payload)?;
    out.extend_from_slice(payload)
}

// Whether these 24 bytes are the head of a frame.
fn is_head(head: &[u8], number: u64, payload: &[u8]) -> bool
    requires { length head.now ≡ 24 }
    ensures { IsTrue result ↔ (head.now ≡ head_bytes number payload.now) }
{
    let is_numbered = &head[..8] == long_bytes(number).as_slice();
    let is_measured = &head[8..16] == long_bytes(payload.len() as u64).as_slice();
    if !is_numbered {
        return false;
    }
    if !is_measured {
        return false;
    }
    &head[16..] == long_bytes(checksum(number, payload)).as_slice()
}

/// The frame of this number that the bytes begin with: its payload, and the bytes behind it.
pub fn first_frame(number: u64, bytes: &[u8]) -> Option<(&[u8], &[u8])>
    ensures frame { IfSome result (λ r. bytes.now ≡ framed number r.0.now ++ r.1.now) }
    ensures fits { IfSome result (λ r. IsPayload r.0.now) }
    ensures none { IfNone result (NoFrame number bytes.now) }
{
    if bytes.len() < HEAD {
        return None;
    }
    let (head, rest) = bytes.split_at(HEAD);
    let length = long(&head[8..16]);
    if length > rest.len() as u64 {
        return None;
    }
    let (payload, after) = rest.split_at(length as usize);
    if is_head(head, number, payload) {
        Some((payload, after))
    } else {
        None
    }
}

// Whether these are the first bytes of a word, or zeros.
fn is_left(word: &[u8; 8], there: &[u8]) -> bool
    requires { length there.now ≤ 8 }
    ensures { IsTrue result ↔ IsLeft word.now there.now }
{
    let is_written = there == &word[..there.len()];
    let is_hole = there == &[0; 8][..there.len()];
    is_written || is_hole
}

/// Whether a crash can have left these bytes of the frame of this number.
pub fn may_be_torn(number: u64, tail: &[u8]) -> bool
    ensures { IsTrue result ↔ MayBeTorn number tail.now }
{
    let first = &tail[..tail.len().min(8)];
    if !is_left(&long_bytes(number), first) {
        return false;
    }
    if tail.len() < 16 {
        return true;
    }
    let length = long(&tail[8..16]);
    length == 0 || tail.len() as u64 <= length.saturating_add(HEAD as u64)
}
