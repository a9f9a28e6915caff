//! Procedures of object files, as scripts have them: under a name that a script's procedure can have, and decoded.
//!
//! ```
//! match find(alloc, bytes) {
//!     Ok(found) => show(found), // each with its name, its declaration, and its code or the code's first fault
//!     Err(FindError::Refused(why)) => print(refusal(alloc, bytes, why)?.lines), // refused object NotBpf 62
//!     Err(FindError::Memory) => give_up(),
//! }
//! ```
#![tactic(auto)]

pub mod finding;
pub mod given;
pub mod named_place;
pub mod refusal;
pub mod source_place;
