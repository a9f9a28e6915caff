//! A picture of a log: its transactions in lanes, their numbers on their way, and the records that most of them use; a
//! plain model first, and its drawing in SVG.
//!
//! ```
//! let picture = pictured(alloc, &log.events(), 0)?;   // of a log of 78 events, from place 0 on
//! picture.tracks[0].life.end;                              // Some: the place of its End, and its outcome
//! let svg = drawing(alloc, &log.events(), 0, 78, 78, &picture)?;
//! ```
//!
//! (`picture_tests` of `lower_tests` has the tests.)
#![tactic(auto)]

pub mod busiest;
mod canvas;
pub mod drawing;
pub mod lanes;
pub mod life;
pub mod picture;
mod shapes;
pub mod texts;
pub mod way;

pub use busiest::{MOST_ROWS, RecordRow};
pub use life::{Ending, Life};
pub use picture::{Picture, Track, pictured};
pub use way::{Answering, Way};
