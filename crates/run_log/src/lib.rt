//! The log of a run, in a file: what comes back from it, and how it begins anew, in a file that takes its place.
//!
//! ```text
//! match begin(rt, alloc, path, &mut state, dcs)? { // a state in which nothing has happened, and new data components
//!     Recovery::Ready(back) => {}                  // what keeps the log, and the lines of what came back
//!     Recovery::Refused(report) => {}              // what isn't gone on from
//! }
//! ```
//!
//! Its tests are those of `run_command`, by what it prints.
#![tactic(auto)]

pub mod anew;
mod log_lines;
pub mod recovering;
pub mod upgrade;
