//! A transaction component's log in a file: a header, and for each sync what was noted of data components
//! and the events, 96 bytes each.
//!
//! ```text
//! let mut file = LogFile::new(device);
//! let found = file.open(alloc, &header, &bytes)?;  // its base, log and notes, for `TcState::recover`
//! file.create(alloc, &header)?;                    // instead, where `open` answered that it is empty
//! file.begin_anew(alloc, &header, &base, &row)?;   // or this, for a log that goes on behind an earlier one
//! let rows = log.print_from(alloc, written)?;      // the events that aren't in the file yet
//! file.append(alloc, &notes, &rows)?;              // acknowledged: each crash from now on leaves them
//!
//! let found = read_file(alloc, bytes)?;            // whoever's file it is, without a device
//! ```
//!
//! The functions without a body are laws: that what is read is what was written. (`log_file_tests` of
//! `upper_tests` has the tests.)
#![tactic(auto)]

mod base;
mod batch;
mod file;
mod gathering;
mod header;
mod laws;
mod note;
mod reading;
mod replacement;
mod stored;

pub use base::{BaseRow, is_base};
pub use batch::batch_bytes;
pub use file::LogFile;
pub use gathering::take_notes;
pub use header::{Header, based_header_bytes, header_bytes};
pub use laws::{
    acknowledged_are_read, crashes_are_read, crashes_may_be_left, headers_tell,
    legal_logs_are_read, read_as_written,
};
pub use note::Note;
pub use reading::{OpenFault, Recovered, begins_anew, read_own};
pub use replacement::may_be_left;
pub use stored::{Stored, read_file};
