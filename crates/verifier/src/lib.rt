//! Accepts code that never goes wrong, whatever its arguments, the layout of memory and the
//! answers to its questions.
//!
//! ```
//! let verified = verify(alloc, code, decl)?;                  // else the first thing that is wrong, by slot
//! verified.flat();                                            // the form in which it is run
//! verified.calls();                                           // how often it asks at most
//! ```
//!
//! (`procedure` of `samples` does so with five procedures. Its tests are `verdict_tests` and `refusal_tests`
//! of `code_tests`, which hold `verify` beside passes that know no more than they need to.)
#![tactic(auto)]

mod first_pass;
pub mod flat;
mod pending;
mod second_pass;
pub mod verify;

pub use flat::FlatCode;
pub use verify::{Verified, VerifyFault};
