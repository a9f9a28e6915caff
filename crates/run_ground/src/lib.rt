//! What the calls of a script are run on, and what stops a run.
//!
//! ```text
//! let ground = Ground { state, dcs, journal: None }; // no log's file is kept
//! Checkpoints::NONE.over_at_end()                    // `None`: the log never begins anew
//! ```
//!
//! Its tests are those of `run_command`, by what it prints.
#![tactic(auto)]

pub mod ground;
pub mod stop;
