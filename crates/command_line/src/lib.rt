//! What the words of `procd`'s command line ask for.
//!
//! ```
//! let wanted = wanted_of(alloc, &["procd", "world", "--log", "-"])?;
//! // wanted.file is "-", wanted.task is Task::World { log: true, audit: false, script: None }
//! ```
#![tactic(auto)]

mod commands;
pub mod numbers;
pub mod words;
