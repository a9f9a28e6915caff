//! Tests of `verifier`, which call public functions alone:
//!
//! | Module | Tests |
//! |---|---|
//! | `verdict_tests` | small and random code beside the plain passes, and procedures |
//! | `refusal_tests` | what is refused, at which slot and why, and what lies beside it |
//!
//! The plain passes, of `plain_verify`, keep a state of the registers for each slot.
#![tactic(auto)]

#[cfg(test)]
mod checks;
#[cfg(test)]
mod plain_verify;
#[cfg(test)]
mod refusal_tests;
#[cfg(test)]
mod verdict_tests;
