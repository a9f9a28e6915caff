//! A journal of workers that keeps a transaction component's log in a file: what is kept is on the disk.
//!
//! ```text
//! let (journal, restored) = LogJournal::open(alloc, device, header, &bytes)?; // begun, if the file is empty
//! let (journal, ran) = run(&rt, alloc, state, calls, 4, 3, &link, &gate, journal);
//! ```
//!
//! (`log_journal_tests` of `pool_tests` has the tests.)
#![tactic(auto)]

mod journal;

pub use journal::{LogJournal, Restored};
