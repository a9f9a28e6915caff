// Why a file is no longer read or written.

use std::io;

/// Why a file isn't read, written or synced, or isn't to be.
#[derive(Clone, Copy, Debug)]
pub enum FileFault {
    /// The system says so.
    Io(io::Error),
    /// The system says so of the file in which what is cut off is kept.
    Dropped(io::Error),
    /// No name of it is left, or the name that it had is another file's: it was removed, moved or replaced.
    Gone,
    /// It has another length than what was read and written: another program wrote to it, or cut it.
    Resized,
    /// It has more bytes than its length, or grew while it was read.
    Longer,
}

impl From<io::Error> for FileFault {
    fn from(error: io::Error) -> FileFault {
        FileFault::Io(error)
    }
}
