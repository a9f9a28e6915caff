//! The command `world`: it takes a script's steps one after another, and says what each did, what the data
//! components keep and, where they are wanted, what an audit finds and the log.
//!
//! ```
//! let behind = Behind { audit: false, log: false };
//! let text = "dc 8 64\nproc put 2\n..end\nadmit put 5 100\nask 1\n";
//! let report = world(alloc, behind, Source { object: None, text })?;
//! // `admitted 1`, `sent 0 number 1 insert 0/0/5 100 low 0`; status 1 where a step wasn't possible
//! ```
#![tactic(auto)]

mod outcome_lines;
mod stepping;
pub mod world;
