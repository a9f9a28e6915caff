//! What `procd` reads and writes: files to their end, the events of a log that grows, texts whole, and what a terminal is told
//! behind a report.
//!
//! ```
//! let text = read_given(&rt, alloc, "bank.txt", &mut input, Kind::Other)?; // all bytes, or why not: `no such file or directory`
//! tell(&mut out, "answer 12\n")?; // all of it, or why not
//! let end = follow(&rt, alloc, "bank.log", Part::Last(10), &mut out, &mut err); // the last ten events, then those that come
//! ```
#![tactic(auto)]

pub mod explaining;
pub mod following;
pub mod reading;
pub mod writing;
