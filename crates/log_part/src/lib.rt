//! Which of a log's events are wanted.
//!
//! ```
//! Part::From(70).first(78)               // 70: the place of the first of them in a log of 78 events
//! Part::Whole.at_most(1000).first(5000)  // 4000: of those that a picture of 1000 events shows
//! ```
#![tactic(auto)]

pub mod part;

pub use part::Part;
