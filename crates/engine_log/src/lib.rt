//! The log of an engine that embeds a transaction component, in the format of `log_file`. Nothing is written or
//! read here: an [`EngineLog`] gives the bytes for the engine's file, and takes the file's bytes back.
//!
//! ```text
//! let Some(Back { log, whole, file }) = EngineLog::read(alloc, &tc, &bytes)? else { .. }; // an empty file
//! tc.recover(&log, file.notes())?;         // and then the engine's file is cut to so many whole bytes
//! file.ahead(&tc, &mut out)?;              // what changed: to be synced before a wire goes, or an end is told
//! tc.checkpoint(&kept)?;
//! file = EngineLog::new(alloc, session);   // further bytes are a new file's, to take the old one's place
//! ```
//!
//! Between a checkpoint and the moment when the new file stands in the old one's place, nothing is sent or told: the new file
//! has all that is known, so that what wasn't written into the old one isn't missed. (`engine_log_tests` of `upper_tests`
//! has the tests.)
#![tactic(auto)]

mod ahead;
mod back;
mod laws;
mod notes;

pub use ahead::{AheadFault, EngineLog};
pub use back::{Back, BackFault};
pub use laws::handed_out_is_read;
pub use notes::known_of;
