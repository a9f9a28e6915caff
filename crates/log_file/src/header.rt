// The first payload.

ghost use Rattle.std.specs.Prelude.{◌≡◌, ◌⊎◌, ◌↔◌, ◌+◌, ◌≤◌, ◌<◌, ◌^◌, ◌++◌, ℕ, length, take, IsTrue, IfOk, IfSome, IfNone, OnOk};
ghost use Rattle.std.specs.Int.{w64, to_le_bytes};
ghost use Rattle.frame_file.specs.Frame.{framed};
ghost use Rattle.log_file.specs.Bytes.{plain_version, based_version, session_bytes, own_bytes, header_bytes, based_header_bytes};
ghost use Rattle.log_file.specs.Stored.{IsNoHeader, HasFront};
ghost use Rattle.log_file.specs.Joining.Fields.{has_session, session_in, header_in};

use crate::batch::is_same;
use frame_file::{long, write_frame, write_long};
use std::alloc::{AllocError, Global};

// "mazzulpe", the lowest byte first.
const MAGIC: u64 = 0x6570_6c75_7a7a_616d;

// The layouts' versions: of a log that begins at the beginning, and of one that begins behind an earlier one;
// without a session, and with one.
const PLAIN: u64 = 1;

const BASED: u64 = 2;

const PLAIN_OF_SESSION: u64 = 3;

const BASED_OF_SESSION: u64 = 4;

// The bytes of a header's frame, of layout 1 and of layout 3.
const FRAME: usize = 88;

const FRAME_OF_SESSION: usize = 96;

// The first 16 of them: its number and its length.
const FRONT: [u8; 16] = [0, 0, 0, 0, 0, 0, 0, 0, 64, 0, 0, 0, 0, 0, 0, 0];

const FRONT_OF_SESSION: [u8; 16] = [0, 0, 0, 0, 0, 0, 0, 0, 72, 0, 0, 0, 0, 0, 0, 0];

/// Whose log it is: one that was written for others isn't read.
#[derive(Clone, Copy, Debug, PartialEq, Eq)]
pub struct Header {
    /// How many data components there are.
    pub dcs: u16,
    /// How many procedures are loaded.
    pub procedures: u64,
    /// A digest of the procedures' declarations and code, in order, as the caller takes it.
    pub digest: [u8; 32],
    /// Which transaction component's numbers they are, of those over the same storage, where the log says it.
    pub session: Option<u64>,
}

fn plain_version(session: &Option<u64>) -> u64
    ensures { result ≡ plain_version session.now }
{
    match session {
        None => PLAIN,
        Some(_) => PLAIN_OF_SESSION,
    }
}

fn based_version(session: &Option<u64>) -> u64
    ensures { result ≡ based_version session.now }
{
    match session {
        None => BASED,
        Some(_) => BASED_OF_SESSION,
    }
}

fn write_session(out: &mut Vec<u8>, session: &Option<u64>) -> Result<(), AllocError>
    ensures { OnOk result (out.new.items ≡ out.old.items ++ session_bytes session.now) }
{
    match session {
        None => Ok(()),
        Some(session) => write_long(out, *session),
    }
}

// What each layout begins with.
#[tactic(auto, unfolding(crate::specs::Bytes::front_bytes, crate::specs::Bytes::own_bytes))]
fn laid_out(alloc: Global, version: u64, header: &Header) -> Result<Vec<u8>, AllocError>
    ensures { IfOk result (λ bytes. bytes.items ≡ own_bytes version header.now) }
{
    let mut out = Vec::with_capacity(alloc, 80)?;
    write_long(&mut out, MAGIC)?;
    write_long(&mut out, version)?;
    write_long(&mut out, u64::from(header.dcs))?;
    write_long(&mut out, header.procedures)?;
    out.extend_from_slice(&header.digest)?;
    write_session(&mut out, &header.session)?;
    Ok(out)
}

/// What its payload of layout 2 or 4 has before the count of the base records.
pub(crate) fn based_front_bytes(alloc: Global, header: &Header) -> Result<Vec<u8>, AllocError>
    ensures { IfOk result (λ bytes. bytes.items ≡ own_bytes (based_version header.now.session) header.now) }
{
    laid_out(alloc, based_version(&header.session), header)
}

// How many bytes a payload of layout 2 or 4 has.
fn based_size(session: &Option<u64>) -> u64
    ensures { result ≡ 72 + length (session_bytes session.now) }
{
    match session {
        None => 72,
        Some(_) => 80,
    }
}

/// The first bytes of a file that [`crate::LogFile::begin_anew`] writes: the number of its first frame, and the
/// length.
pub(crate) fn based_head_bytes(alloc: Global, header: &Header) -> Result<Vec<u8>, AllocError>
    ensures { IfOk result (λ bytes. bytes.items
        ≡ to_le_bytes w64 0 ++ to_le_bytes w64 (72 + length (session_bytes header.now.session))) }
{
    let mut out = Vec::with_capacity(alloc, 16)?;
    write_long(&mut out, 0)?;
    write_long(&mut out, based_size(&header.session))?;
    Ok(out)
}

/// The header's 64 bytes of layout 1, or 72 of layout 3.
#[tactic(auto, unfolding(crate::specs::Bytes::header_bytes))]
pub fn header_bytes(alloc: Global, header: &Header) -> Result<Vec<u8>, AllocError>
    ensures { IfOk result (λ bytes. bytes.items ≡ header_bytes header.now) }
{
    laid_out(alloc, plain_version(&header.session), header)
}

/// The header's 72 bytes of layout 2, or 80 of layout 4, with so many base records.
#[tactic(auto, unfolding(crate::specs::Bytes::based_header_bytes))]
pub fn based_header_bytes(alloc: Global, header: &Header, rows: u64) -> Result<Vec<u8>, AllocError>
    ensures { IfOk result (λ bytes. bytes.items ≡ based_header_bytes header.now rows) }
{
    let mut out = based_front_bytes(alloc, header)?;
    write_long(&mut out, rows)?;
    Ok(out)
}

/// Whether the payload is this header's, of layout 1 or 3.
pub(crate) fn is_header(alloc: Global, header: &Header, payload: &[u8]) -> Result<bool, AllocError>
    ensures { IfOk result (λ is. IsTrue is ↔ (payload.now ≡ header_bytes header.now)) }
{
    let wanted = header_bytes(alloc, header)?;
    Ok(is_same(payload, &wanted))
}

/// How many base records the payload says, if it is this header's of layout 2 or 4.
pub(crate) fn base_count(
    alloc: Global,
    header: &Header,
    payload: &[u8],
) -> Result<Option<u64>, AllocError>
    ensures some { IfOk result (λ o. IfSome o (λ rows. payload.now ≡ based_header_bytes header.now rows)) }
    ensures none { IfOk result (λ o. IfNone o ((rows : ℕ) → rows < 2 ^ 64 → payload.now ≡ based_header_bytes header.now rows → ⊥)) }
{
    if payload.len() < 8 {
        return Ok(None);
    }
    let rows = long(&payload[payload.len() - 8..]);
    let wanted = based_header_bytes(alloc, header, rows)?;
    if is_same(payload, &wanted) {
        Ok(Some(rows))
    } else {
        Ok(None)
    }
}

// Whether a header of this version has a session.
fn has_session(version: u64) -> bool
    ensures { result ≡ has_session version }
{
    version == PLAIN_OF_SESSION || version == BASED_OF_SESSION
}

// The session that these bytes may say, by their version: none where they are too few.
fn session_in(bytes: &[u8]) -> Option<Option<u64>>
    requires { 64 ≤ length bytes.now }
    ensures field { IfSome result (λ session. session ≡ session_in bytes.now) }
    ensures none { IfNone result (IsNoHeader bytes.now) }
{
    if !has_session(long(&bytes[8..16])) {
        return Some(None);
    }
    if bytes.len() < 72 {
        return None;
    }
    Some(Some(long(&bytes[64..72])))
}

/// The header that these bytes may be, by their fields: none where they are too few, or say more data components
/// than there can be.
pub(crate) fn header_in(bytes: &[u8]) -> Option<Header>
    ensures fields { IfSome result (λ h. h ≡ header_in bytes.now) }
    ensures none { IfNone result (IsNoHeader bytes.now) }
{
    if bytes.len() < 64 {
        return None;
    }
    let session = session_in(bytes)?;
    let Ok(dcs) = u16::try_from(long(&bytes[16..24])) else {
        return None;
    };
    let mut digest = [0; 32];
    digest.copy_from_slice(&bytes[32..64]);
    Some(Header {
        dcs,
        procedures: long(&bytes[24..32]),
        digest,
        session,
    })
}

// As many of the bytes, or all.
#[tactic(auto, using(std::proofs::lemmas::List::take_min))]
fn front_of(bytes: &[u8], len: usize) -> &[u8]
    ensures { result.now ≡ take len bytes.now }
{
    &bytes[..len.min(bytes.len())]
}

/// Whether the bytes are the beginning of this header's frame, or none.
pub(crate) fn is_begun(alloc: Global, header: &Header, bytes: &[u8]) -> Result<bool, AllocError>
    ensures { IfOk result (λ begun. IsTrue begun ↔ (bytes.now ≡ take (length bytes.now) (framed 0 (header_bytes header.now)))) }
{
    let payload = header_bytes(alloc, header)?;
    let mut frame = Vec::with_capacity(alloc, FRAME_OF_SESSION)?;
    write_frame(&mut frame, 0, &payload)?;
    Ok(is_same(bytes, front_of(&frame, bytes.len())))
}

// Whether these bytes, as far as they are there, are these 16.
fn begins_head(front: &[u8], head: &[u8; 16]) -> bool
    ensures { IsTrue result ↔ (front.now ≡ take (length front.now) head.now) }
{
    is_same(front, front_of(head, front.len()))
}

// Whether a file, shorter than a frame of so many bytes, has these first 16 as far as they are there.
fn has_front(bytes: &[u8], frame: usize, head: &[u8; 16]) -> bool
    ensures { IsTrue result ↔ ((length bytes.now < frame) × (take 16 bytes.now ≡ take (length (take 16 bytes.now)) head.now)) }
{
    let is_short = bytes.len() < frame;
    let is_head = begins_head(front_of(bytes, 16), head);
    if !is_short {
        return false;
    }
    is_head
}

/// Whether a file without a frame may be the beginning of a header's, of layout 1 or 3: as far as they are there,
/// its first bytes are the number 0 and the length.
pub(crate) fn may_begin(bytes: &[u8]) -> bool
    ensures { IsTrue result ↔ (HasFront 64 bytes.now ⊎ HasFront 72 bytes.now) }
{
    if has_front(bytes, FRAME, &FRONT) {
        return true;
    }
    has_front(bytes, FRAME_OF_SESSION, &FRONT_OF_SESSION)
}
