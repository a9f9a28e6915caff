//! An engine whose log is a file: what was appended and synced before a wire is carried, or anyone is told,
//! is what it comes back from, wherever it is killed.
//!
//! Its file has a header and batches (`log_file`), each with the rows of events and notes of data
//! components. It is killed between two turns or within one, also while it appends, behind steps that it has
//! taken in memory alone. A crash leaves the batches that were there, with the one that was being
//! appended or without it. In each case the crash is one that a world may have (`tc_world::recovery`),
//! and the engine comes back to a world that has lived.
//!
//! ```text
//! let found = file.open(alloc, &header, &bytes)?;    // `ComesBack`: what is read of what is left
//! state.recover(&found.log, &found.notes)?;
//! file.append(alloc, &notes, &rows)?;                // `Goes`: before the wires of the step are carried
//! ```
//!
//! The functions have no body: each is a law, told by its contract. The definitions are in `specs/`:
//! `Telling` says what a file tells, `Engine` what happens to an engine, and `Since` which batch tells of all
//! that is new. (`engine_tests` of `world_tests` has a test.)
#![tactic(auto)]

mod examples;
mod laws;

pub use examples::{
    appends_that_tear, engines_that_come_back, engines_that_do_not, files_that_tell,
};
pub use laws::{files_are_read, handed_out_tells, killed_anywhere, may_write_ahead};
