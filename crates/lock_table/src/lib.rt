//! Which transaction holds which locks, and whether a call's locks can be granted.
//!
//! ```
//! table.reserve(&reader)?;        // memory for a set of locks, here Read on the record under 5
//! table.grant(1, &reader);        // Ok: transaction 1 holds it
//! table.reserve(&reader)?;
//! table.grant(2, &reader);        // Ok: it is for reading alone
//! table.reserve(&both)?;          // Write on 4 and 5
//! table.grant(3, &both);          // Err: record 5 is held by transaction 1, the least that does
//! ```
//!
//! (`waits_for_all` in `lock_tests` of `lower_tests`, which has its tests, with releases behind it.)
#![tactic(auto)]

mod held;
mod maps;
mod row;
pub mod table;

pub use table::{Busy, LockTable};
