//! What keeps the events of a log.
//!
//! ```
//! let mut journal = MemoryJournal::new(alloc);
//! journal.keep(state.log())?;
//! ```
//!
//! A [`Journal`] keeps batches of events where they outlast a run, as a file does: what it has kept a crash doesn't
//! lose, and while it keeps more a crash leaves all that was kept. [`MemoryJournal`] outlasts no crash, and
//! [`NoJournal`] keeps nothing, and neither does a journal that
//! isn't there (`None`). Its tests are those of `pool_tests`.
#![tactic(auto)]

mod copying;
mod journal;
mod memory_journal;
mod optional;

pub use copying::copy_events;
pub use journal::{Journal, NoJournal, NotKept};
pub use memory_journal::MemoryJournal;
