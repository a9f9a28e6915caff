//! A file of the operating system as a device of frames, locked for as long as it is open.
//!
//! ```text
//! let (file, bytes) = DiskFile::open(&rt, alloc, "calls.log")?;      // with what stands in it, which it doesn't keep
//! let payloads = FrameFile::new(file).recover(alloc, &bytes)?;
//! let (beside, bytes) = Beside::open(&rt, alloc, "calls.log")?;      // `calls.log.new`, with what stands in it
//! let next = beside.emptied(&rt, alloc, "calls.log", &old)?;         // written and synced, then
//! next.take_place(&rt, alloc, "calls.log", &old)?;                   // it is `calls.log`
//! ```
//!
//! (`frames_in_a_file` in `disk_tests` of `lower_tests`, which has its tests.)
#![tactic(auto)]

mod calls;
mod disk;
mod fault;
mod opening;
mod record;
mod replacing;

pub use disk::DiskFile;
pub use fault::FileFault;
pub use opening::{FileKind, OpenError};
pub use replacing::{Beside, BesideError, PlaceError};
