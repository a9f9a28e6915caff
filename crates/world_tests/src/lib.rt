//! Tests of `tc_world`, `coming_back`, `engine_recovery` and `audit`, which would take as long again to prove with them:
//!
//! | Module | Tests |
//! |---|---|
//! | `step_tests` | `tc_world`: the steps of a world, one by one |
//! | `restart_tests` | `tc_world`: restarts that lose what came after the last checkpoint, and redo |
//! | `redo_tests` | `tc_world`: what a redo leaves out |
//! | `crash_tests` | `tc_world`: a transaction component that comes back from its log |
//! | `coming_back_tests` | `coming_back`: a state and new data components from each beginning of a log |
//! | `base_tests` | both: worlds that begin with rows, behind a Checkpoint |
//! | `engine_tests` | `engine_recovery`: an engine that is killed while it appends to its log's file |
//! | `cut_tests` | `tc_world`: a log that is truncated |
//! | `memory_tests` | `tc_world`: steps that are refused memory |
//! | `audit_tests` | `audit`: short logs and what it says of them |
//!
//! What they compare stands in `checks`.
//!
//! `rt test world_tests` proves and runs these; `tools/memory_requests.py` runs them with memory refused.
#![tactic(auto)]

#[cfg(test)]
mod audit_tests;
#[cfg(test)]
mod base_tests;
#[cfg(test)]
mod checks;
#[cfg(test)]
mod coming_back_tests;
#[cfg(test)]
mod crash_tests;
#[cfg(test)]
mod cut_tests;
#[cfg(test)]
mod engine_tests;
#[cfg(test)]
mod memory_tests;
#[cfg(test)]
mod redo_tests;
#[cfg(test)]
mod restart_tests;
#[cfg(test)]
mod step_tests;
