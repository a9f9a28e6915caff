//! What `procd log` makes of a log's file: lines of its events, also of those that come, a picture of them, or what an
//! audit finds of it beside a script.
//!
//! ```
//! let report = listing(alloc, bytes, Part::Whole, false)?;   // `7 end 3 committed`, a line each event
//! let pictured = picturing(alloc, bytes, Part::Last(100))?;  // an SVG, and `picture 78 of 78 events ..`
//! let report = auditing(alloc, bytes, source)?;              // `audit ok ended 3 open 0`
//! let lines = followed.read_on(alloc, bytes)?;               // of a log that is followed, those of events that came
//! ```
#![tactic(auto)]

pub mod auditing;
mod event_lines;
pub mod following;
pub mod front;
mod further;
pub mod listing;
pub mod picturing;
mod refusing;
