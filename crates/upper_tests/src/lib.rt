//! Tests of crates that stand on the transaction component and that no other crate of tests loads. They
//! call public functions alone, and cost less here than where each crate is proved a second time for its tests:
//!
//! | Module | Tests |
//! |---|---|
//! | `log_file_tests` | `log_file`: each truncation and each changed byte of a file, and what is no log |
//! | `procedure_digest_tests` | `procedure_digest`: digests that another program took |
//! | `embedding_tests` | `embedding`: a call, a restart and a program by the frame |
//! | `engine_log_tests` | `embedding` and `engine_log`: a file that is handed out by the frame, each truncation and each changed byte of it |
#![tactic(auto)]

#[cfg(test)]
mod checks;
#[cfg(test)]
mod embedding_tests;
#[cfg(test)]
mod engine_log_tests;
#[cfg(test)]
mod log_file_tests;
#[cfg(test)]
mod procedure_digest_tests;
