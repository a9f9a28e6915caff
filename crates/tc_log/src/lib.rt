//! The logical log of a transaction component: what happened, in order.
//!
//! ```
//! let mut log = Log::new(alloc);
//! log.reserve(1)?;                                            // memory for one event
//! log.push(Event::Ask { txn: 1, number: 1, op });             // which takes none
//! let bytes = log.print(alloc)?;                              // 96 bytes an event
//! let again = Log::read(alloc, bytes.as_slice())?;            // the same events
//! ```
//!
//! (`an_insert` in `event_tests` of `lower_tests`, which has its tests; more are `log_tests` of `component_tests`.)
#![tactic(auto)]

pub mod event;
pub mod events;
mod heads;
pub mod log;
mod print;
pub mod read;

pub use event::{Args, Entry, Event, Outcome};
pub use events::Events;
pub use log::Log;
pub use read::LogFault;
