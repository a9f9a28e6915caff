//! Partitions: data components that a procedure joins are of one, so that calls of two partitions share nothing.
//!
//! ```
//! let mut partitions = Partitions::new(alloc, 4)?;          // 0, 1, 2 and 3 apart
//! partitions.add(&moves);                                   // its slots are of components 1 and 3
//! partitions.number(3);                                     // 1: that of its first component
//! partitions.of(&moves);                                    // 1
//! ```
//!
//! [`merged`] puts what each has made of its own items back in the order of all. Its tests are those of `lower_tests`.
#![tactic(auto)]

mod laws;
mod merging;
mod partitions;
mod spreading;

pub use laws::never_conflict;
pub use merging::merged;
pub use partitions::Partitions;
pub use spreading::workers_of;
