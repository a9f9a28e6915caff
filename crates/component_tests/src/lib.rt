//! Tests of the transaction component and of the crates below it that need more than one of them, or
//! cost less here than where a crate is proved a second time for its tests:
//!
//! | Module | Tests |
//! |---|---|
//! | `encoding_tests` | `bpf_encoding`: instructions and their bytes, as clang and LLVM write them |
//! | `log_tests` | `tc_log`: prefixes of a log, and each of its bytes set to 255 |
//! | `machine_tests` | `interpreter`: procedures from their first question to each end |
//! | `state_tests`, `undo_tests` | `tc_core`: worked runs without a world, refusals, undos that fail |
//! | `result_tests` | `call_results`: what slots hold where runs ended |
//! | `checkpoint_tests` | `tc_core`: a log that begins anew, and what bars it |
//! | `recovery_tests` | `tc_core`: a state that comes back from each beginning of a log |
//! | `memory_tests` | `bpf_encoding`, `verifier`, `tc_log`, `request_numbers`, `lock_table`, `data_component`: calls that are refused memory |
//! | `memory_state_tests` | `tc_core`: an admission that is refused memory |
//!
//! What they compare stands in `checks`.
//!
//! `lower_tests` has those that need neither `samples` nor the transaction component, `upper_tests` those of
//! `log_file` and `embedding`. `rt test component_tests` proves and runs these; `tools/memory_requests.py` runs them
//! with memory refused.
#![tactic(auto)]

#[cfg(test)]
mod checkpoint_tests;
#[cfg(test)]
mod checks;
#[cfg(test)]
mod encoding_tests;
#[cfg(test)]
mod log_tests;
#[cfg(test)]
mod machine_tests;
#[cfg(test)]
mod memory_state_tests;
#[cfg(test)]
mod memory_tests;
#[cfg(test)]
mod recovery_tests;
#[cfg(test)]
mod result_tests;
#[cfg(test)]
mod state_tests;
#[cfg(test)]
mod undo_tests;
