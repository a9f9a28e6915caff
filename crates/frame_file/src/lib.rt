//! A file of numbered frames, each on the disk before its call is answered, over a device that says what
//! a crash may leave.
//!
//! ```text
//! let mut file = FrameFile::new(device);
//! let payloads = file.recover(alloc, &bytes)?; // of these bytes: what was acknowledged, and perhaps the last one more
//! file.append(alloc, &payload)?;               // acknowledged: each crash from now on leaves it
//! ```
//!
//! A frame is its number, its length and a checksum, 8 bytes each, the lowest first, and its payload.
//! Frames are numbered from 0 on. A crash in the middle of [`FrameFile::append`] leaves a part of the new
//! frame behind those before, and holes in it: these frames are read again whatever it leaves, and no
//! other, unless the checksum of one that nobody wrote is right by chance. Where something else stands
//! behind them, the file isn't read, and not changed. (`frame_tests` of `lower_tests` has the tests.)
#![tactic(auto)]

mod device;
mod file;
mod frame;
mod memory;
mod reading;
mod sums;

pub use device::{Device, DeviceError};
pub use file::FrameFile;
pub use frame::{long, write_frame, write_long};
pub use memory::Memory;
pub use reading::{Found, FrameFault, read_frames};
