//! Which files can't be logs, by their first bytes.

ghost use Rattle.std.specs.Prelude.{IsFalse};
ghost use Rattle.log_command.specs.Front.{BeginsNone, IsHeaderSize};

use frame_file::long;

/// How many bytes of a file are looked at.
pub const FRONT: usize = 16;

// Whether a header has so many bytes in some layout.
fn is_header_size(size: u64) -> bool
    ensures { IsFalse result → IsHeaderSize size → ⊥ }
{
    size == 64 || size == 72 || size == 80
}

/// Whether a file that begins with these bytes may be a log's: as far as there, its first frame has the number 0 and the
/// length of a header.
pub fn may_begin(front: &[u8]) -> bool
    ensures { IsFalse result → BeginsNone front.now }
{
    if front.len() < FRONT {
        return true;
    }
    let (head, _) = front.split_at(FRONT);
    let (number, size) = head.split_at(8);
    if long(number) != 0 {
        return false;
    }
    is_header_size(long(size))
}
