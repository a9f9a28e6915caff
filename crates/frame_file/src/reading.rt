// The frames of a file.

ghost use Rattle.std.specs.Prelude.{◌≡◌, ◌↔◌, ◌≤◌, ℕ, length, drop, IsTrue, IsFalse, IfSome, IfNone, IfOk, IfErr};
ghost use Rattle.frame_file.specs.Frame.{NoneBegins, NoneStands, MayStand, IsFollowed, HasFrame, IsEnd};
ghost use Rattle.frame_file.specs.Reading.{IsClaim, IsFound, IsReadFault};
ghost use Rattle.frame_file.specs.Sums.{AreSums};
ghost use Rattle.frame_file.specs.declared.reading.FrameFault.TheVariants.{Device as DeviceFault};
ghost use Rattle.frame_file.specs.declared.device.DeviceError.TheVariants.{Memory};

use crate::device::DeviceError;
use crate::frame::{HEAD, first_frame, long, may_be_torn, measured};
use crate::sums::Sums;
use std::alloc::{AllocError, AllocFailed, Global};

/// Why a file of frames isn't read or written.
#[derive(Clone, Copy, Debug, PartialEq, Eq)]
pub enum FrameFault {
    /// The device failed, or memory ran out.
    Device(DeviceError),
    /// There are 2^64 - 1 frames.
    Full,
    /// The frame of this number, counted from 0, isn't whole, and what stands there is no end that a crash
    /// left.
    Damaged(u64),
}

impl From<DeviceError> for FrameFault {
    ghost from_gives = { λ d e. e ≡ DeviceFault d };

    fn from(error: DeviceError) -> Self {
        FrameFault::Device(error)
    }
}

impl From<AllocError> for FrameFault {
    ghost from_gives = { λ _ e. e ≡ DeviceFault Memory };

    fn from(_: AllocError) -> Self {
        FrameFault::Device(DeviceError::Memory)
    }
}

impl<T: Drop> From<AllocFailed<T>> for FrameFault {
    ghost from_gives = { λ _ e. e ≡ DeviceFault Memory };

    fn from(_: AllocFailed<T>) -> Self {
        FrameFault::Device(DeviceError::Memory)
    }
}

/// What a file's bytes are read as: the payloads of its frames, and the place where these end.
#[derive(Debug, Drop)]
pub struct Found {
    pub payloads: Vec<Vec<u8>>,
    pub end: usize,
}

// So many times a file's bytes are gone over one by one for heads that claim them.
const SPARE: usize = 16;

// How many numbers behind that of a frame that isn't whole are looked for whatever stands behind them.
const NEAR: u64 = 16;

// Whether the bytes begin with a frame of any number.
fn begins_frame(bytes: &[u8]) -> bool
    ensures frame { (n : ℕ) → IsTrue result → HasFrame n bytes.now }
    ensures none { IsFalse result → NoneBegins bytes.now }
{
    if bytes.len() < HEAD {
        return false;
    }
    let own = long(&bytes[..8]);
    match first_frame(own, bytes) {
        Some((_payload, _after)) => true,
        None => false,
    }
}

// Whether the number behind this one stands at the front of the bytes.
fn is_followed(number: u64, after: &[u8]) -> bool
    ensures { IsTrue result ↔ IsFollowed number after.now }
{
    if after.len() < 8 {
        return false;
    }
    let next = long(&after[..8]);
    next > number && next - number == 1
}

// Whether a frame of this number, behind which these bytes stand, may be where the first one would begin.
fn may_stand(first: u64, number: u64, after: &[u8]) -> bool
    ensures { IsTrue result ↔ MayStand first number after.now }
{
    if number < first {
        return false;
    }
    number - first <= NEAR || is_followed(number, after)
}

// What a head says: a frame's number, its payload's length, which is there, and the checksum.
#[derive(Clone, Copy)]
struct Claim {
    number: u64,
    size: usize,
    said: u64,
}

// The head at the front of the bytes, if its frame may be where the one of this number would begin.
fn claim_of(first: u64, bytes: &[u8]) -> Option<Claim>
    ensures some { IfSome result (IsClaim first bytes.now) }
    ensures none { IfNone result (NoneStands first bytes.now) }
{
    if bytes.len() < HEAD {
        return None;
    }
    let number = long(&bytes[..8]);
    if number < first {
        return None;
    }
    let size = long(&bytes[8..16]);
    if size > (bytes.len() - HEAD) as u64 {
        return None;
    }
    let size = size as usize;
    if !may_stand(first, number, &bytes[HEAD + size..]) {
        return None;
    }
    let said = long(&bytes[16..HEAD]);
    Some(Claim { number, size, said })
}

// Whether a frame stands whole at this place that may be where the one of this number would begin.
fn stands_at(first: u64, bytes: &[u8], place: usize, sums: &mut Sums) -> Result<bool, AllocError>
    requires of { AreSums bytes.now sums.old }
    requires inside { place ≤ length bytes.now }
    ensures of { AreSums bytes.now sums.new }
    ensures frame { IfOk result (λ is. IsTrue is → HasFrame first bytes.now) }
    ensures none { IfOk result (λ is. IsFalse is → NoneStands first (drop place bytes.now)) }
{
    let Some(claim) = claim_of(first, &bytes[place..]) else {
        return Ok(false);
    };
    let Claim { number, size, said } = claim;
    let begin = place + HEAD;
    let sum = sums.over(bytes, measured(number, size as u64), begin, begin + size)?;
    Ok(sum == said)
}

// Whether a whole frame stands anywhere that may be where the one of this number would begin.
fn has_frame(alloc: Global, number: u64, bytes: &[u8]) -> Result<bool, AllocError>
    ensures frame { IfOk result (λ has. IsTrue has → HasFrame number bytes.now) }
    ensures none { IfOk result (λ has. IsFalse has → HasFrame number bytes.now → ⊥) }
{
    if begins_frame(bytes) {
        return Ok(true);
    }
    let mut sums = Sums::new(alloc, bytes.len().saturating_mul(SPARE));
    'places: for place in 0..bytes.len() {
        if stands_at(number, bytes, place, &mut sums)? {
            return Ok(true);
        }
    }
    Ok(false)
}

// Whether these bytes may stand where the frame of this number would begin.
fn is_end(alloc: Global, number: u64, rest: &[u8]) -> Result<bool, AllocError>
    ensures end { IfOk result (λ is. IsTrue is → IsEnd number rest.now) }
    ensures none { IfOk result (λ is. IsFalse is → IsEnd number rest.now → ⊥) }
{
    if number > 0 && !may_be_torn(number, rest) {
        return Ok(false);
    }
    Ok(!has_frame(alloc, number, rest)?)
}

/// The frames of these bytes, up to the first that isn't whole; refused where what stands there is nothing
/// that a crash leaves: a whole frame is there, or behind the first frame what can't be of the next one.
pub fn read_frames(alloc: Global, bytes: &[u8]) -> Result<Found, FrameFault>
    ensures found { IfOk result (IsFound bytes.now) }
    ensures fault { IfErr result (IsReadFault bytes.now) }
{
    let mut payloads = Vec::new(alloc);
    let mut rest = bytes;
    'frames: while let Some((payload, after)) = first_frame(payloads.len() as u64, rest) {
        payloads.push(Vec::from_slice(alloc, payload)?)?;
        rest = after;
    }
    let number = payloads.len() as u64;
    let ends = is_end(alloc, number, rest)?;
    if !ends {
        return Err(FrameFault::Damaged(number));
    }
    let end = bytes.len() - rest.len();
    Ok(Found { payloads, end })
}
