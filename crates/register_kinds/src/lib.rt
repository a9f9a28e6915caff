//! What is known of each register at each slot, before code is run.
//!
//! ```
//! let kinds = Kinds::entry(&decl);                            // register 1 the arguments, 10 the stack
//! let effect = effect_of(&insn, &kinds, &decl)?;              // what the instruction does to them, in short
//! let ways = transfer(&insn, &kinds, &decl)?;                 // the kinds behind it, on each of its ways
//! ```
//!
//! (`verifier` goes through code by `effect_of`, slot by slot, and `plain_verify` of `code_tests` by a row of kinds for each slot.)
#![tactic(auto)]

pub mod effect;
pub mod kind;
pub mod kinds;
pub mod transfer;

pub use effect::Effect;
pub use kind::{Kind, Violation};
pub use kinds::{Kinds, Ways};
