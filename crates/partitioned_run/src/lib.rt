//! The command `run --partitions`: calls of each partition of a script's data components are run on a state, a log and data
//! components of their own, at the same time and sharing nothing with the others.
//!
//! ```
//! let manner = Manner { workers: 4, tries: 3, stats: false, audit: true, strict: false, results: false };
//! let text = "dc 8 64\ndc 8 64\nproc left 1\n..end\nproc right 1\n..end\ncall left 5\ncall right 5\n";
//! let report = running_partitioned(rt, alloc, Source { object: None, text }, None, manner, listeners)?;
//! // `call 0 committed`, `call 1 committed`, the rows, `audit ok ended 1 open 0` of each partition; status 0
//! ```
#![tactic(auto)]

mod answering;
mod belonging;
mod dividing;
pub mod fault;
mod grounds;
mod recovering;
mod reporting;
pub mod running;
