//! The numbers of a transaction component's requests: which were given out, which are open, and
//! up to which all are answered.
//!
//! ```
//! let mut numbers = Numbers::new(alloc);
//! numbers.reserve(2)?;            // memory for two open numbers
//! numbers.next();                 // Ok(1)
//! numbers.next();                 // Ok(2)
//! numbers.answered(2);            // 1 is open: low_water() is 0
//! numbers.answered(1);            // low_water() is 2
//! ```
//!
//! (`answers_in_another_order` in `number_tests` of `lower_tests`, which has its tests.)
#![tactic(auto)]

pub mod numbers;

pub use numbers::Numbers;
