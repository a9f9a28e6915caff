//! A store that performs each numbered operation once, whatever is repeated, late or restarted.
//!
//! ```
//! let mut dc = Dc::new(alloc, rows, ops)?;                    // room for so many records and operations
//! dc.perform(&wire);                                          // a reply; to the same wire again the same one
//! dc.checkpoint();                                            // keeps what there is; the mark that it keeps
//! dc.restart()?;                                              // loses what came behind that, and says so
//! ```
//!
//! (`store_tests` of `lower_tests` has its tests.)
#![tactic(auto)]

mod beginning;
pub mod dc;
pub mod entries;
mod kept;
pub mod laws;
mod rows;

pub use beginning::begin_all;
pub use dc::{Dc, IncarnationsSpent};
