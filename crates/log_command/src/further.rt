//! What stands in a log's file behind the frames that were read of it.

ghost use Rattle.std.specs.Prelude.{◌≡◌, ◌↔◌, ◌++◌, IsTrue, IfOk, IfSome, IfNone};
ghost use Rattle.frame_file.specs.Frame.{head_bytes, framed, IsPayload, NoFrame};
ghost use Rattle.log_file.specs.Bytes.{header_bytes};
ghost use Rattle.log_command.specs.Joining.Further.{AreFurther};

use frame_file::{Memory, long, write_frame};
use log_file::{Header, LogFile};
use std::alloc::{AllocError, Global};

// The bytes of a frame in front of its payload.
const HEAD: usize = 24;

/// Frames behind those that were read.
#[derive(Drop)]
pub(crate) struct Further {
    /// A log's file of its own: a header's frame, and these frames behind it, numbered from 1 on.
    pub file: Vec<u8>,
    /// The number of the frame that isn't there yet.
    pub next: u64,
    /// How many bytes stand behind the last whole frame.
    pub unfinished: usize,
}

// Whether these 24 bytes stand in front of this payload in the frame of this number: it is written again.
fn is_head(alloc: Global, head: &[u8], number: u64, payload: &[u8]) -> Result<bool, AllocError>
    ensures { IfOk result (λ is. IsTrue is ↔ (head.now ≡ head_bytes number payload.now)) }
{
    let mut frame = Vec::with_capacity(alloc, HEAD)?;
    write_frame(&mut frame, number, payload)?;
    Ok(head == &frame[..HEAD])
}

// The frame of this number that the bytes begin with: its payload, and the bytes behind it.
fn next_frame(
    alloc: Global,
    number: u64,
    bytes: &[u8],
) -> Result<Option<(&[u8], &[u8])>, AllocError>
    ensures frame { IfOk result (λ o. IfSome o (λ r. bytes.now ≡ framed number r.0.now ++ r.1.now)) }
    ensures fits { IfOk result (λ o. IfSome o (λ r. IsPayload r.0.now)) }
    ensures none { IfOk result (λ o. IfNone o (NoFrame number bytes.now)) }
{
    if bytes.len() < HEAD {
        return Ok(None);
    }
    let (head, rest) = bytes.split_at(HEAD);
    let length = long(&head[8..16]);
    if length > rest.len() as u64 {
        return Ok(None);
    }
    let (payload, after) = rest.split_at(length as usize);
    if is_head(alloc, head, number, payload)? {
        Ok(Some((payload, after)))
    } else {
        Ok(None)
    }
}

// The file of a log of which nothing is written but this header.
fn begun_file(alloc: Global, header: &Header) -> Result<Vec<u8>, AllocError>
    ensures bytes { IfOk result (λ file. file.items ≡ framed 0 (header_bytes header.now)) }
    ensures fits { IfOk result (λ _. IsPayload (header_bytes header.now)) }
{
    let mut file = LogFile::new(Memory::new(alloc, Vec::new(alloc)));
    if file.create(alloc, header).is_err() {
        return Err(AllocError);
    }
    Vec::from_slice(alloc, file.device().bytes())
}

/// The frames from this number on with which the bytes begin, as those of a log with this header.
pub(crate) fn further_frames(
    alloc: Global,
    header: &Header,
    number: u64,
    bytes: &[u8],
) -> Result<Further, AllocError>
    ensures { IfOk result (AreFurther header.now number bytes.now) }
{
    let mut file = begun_file(alloc, header)?;
    let mut next = number;
    let mut count = 0;
    let mut rest = bytes;
    'frames: while let Some((payload, after)) = next_frame(alloc, next, rest)? {
        let Some(following) = next.checked_add(1) else {
            return Err(AllocError);
        };
        count += 1;
        write_frame(&mut file, count, payload)?;
        next = following;
        rest = after;
    }
    Ok(Further {
        file,
        next,
        unfinished: rest.len(),
    })
}
