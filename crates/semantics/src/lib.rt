//! What BPF code means (RFC 9669), as definitions in `specs/`, and the laws that join the
//! meaning by a slot's fields to the meaning by its instruction. Of code there are only the
//! numbers of this profile.
//!
//! ```text
//! outcome_of bytes args ≡ Some (value, count)     -- a row, which the prover computes
//! ```
//!
//! (A thousand such rows with answers of other engines stand in `proofs/*Rows.antt`.)
#![tactic(auto)]

pub mod profile;
