//! A transaction component comes back from its log alone, with new data components (Lomet, Fekete,
//! Weikum, Zwilling, CIDR 2009: its own restart, and the redo of data components that lost what they
//! did). The log is all that is left: data components that die with the transaction component are
//! made new, restart, and are redone from the log; then each transaction that was open is run to its
//! end. No thread is needed, and nothing else happens meanwhile.
//!
//! ```
//! let mut state = loaded(alloc, 1)?;                      // procedures, and nothing has happened
//! let mut dcs = vec![in alloc; Dc::new(alloc, 4, 100)?]?; // empty
//! let resumed = come_back(alloc, &mut state, dcs.as_mut_slice(), &log)?;
//! for one in &resumed { .. }                              // Resumed::Ended(receipt), or in doubt
//! ```
//!
//! Who only looks at a log stops before the open transactions (`bring_back`).
//!
//! Its tests are `coming_back_tests` of `world_tests`.
#![tactic(auto)]

pub mod coming;
pub mod examples;
mod performing;
mod redoing;
mod restarting;
pub mod resumed;
mod resuming;

pub use coming::{ComeBackFault, bring_back, come_back};
pub use resumed::Resumed;
