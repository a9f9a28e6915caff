// What a crash leaves of a file that was being begun anew.

ghost use Rattle.std.specs.Prelude.{◌≡◌, drop, IfOk};
ghost use Rattle.log_file.specs.Replacement.{are_left, may_be_left};

use crate::header::{Header, based_front_bytes, based_head_bytes};
use std::alloc::{AllocError, Global};

// Whether each byte that is there is the one that was written, or a hole; of those behind them nothing is said.
fn are_left(written: &[u8], there: &[u8]) -> bool
    ensures { result ≡ are_left written.now there.now }
{
    let mut bytes = written;
    let mut rest = there;
    'bytes: while let Some((first, behind)) = rest.split_first() {
        match bytes.split_first() {
            Some((byte, others)) => {
                if first != byte && *first != 0 {
                    return false;
                }
                bytes = others;
            }
            None => return true,
        }
        rest = behind;
    }
    true
}

// The bytes behind so many, or none.
#[tactic(auto, using(std::proofs::lemmas::List::drop_min))]
fn behind(bytes: &[u8], len: usize) -> &[u8]
    ensures { result.now ≡ drop len bytes.now }
{
    bytes.split_at(len.min(bytes.len())).1
}

/// Whether a crash may have left these bytes, any or none, where [`crate::LogFile::begin_anew`] was writing
/// this header's log: as far as they are there, each of the first frame's number, its length and its header is
/// as it is written, or a hole. Of another file it isn't so, unless it is empty or begins with zeros.
pub fn may_be_left(alloc: Global, header: &Header, bytes: &[u8]) -> Result<bool, AllocError>
    ensures { IfOk result (λ left. left ≡ may_be_left header.now bytes.now) }
{
    let head = based_head_bytes(alloc, header)?;
    let front = based_front_bytes(alloc, header)?;
    let is_numbered = are_left(&head, bytes);
    // Between them stands the checksum, which isn't known.
    let is_headed = are_left(&front, behind(bytes, 24));
    Ok(is_numbered && is_headed)
}
