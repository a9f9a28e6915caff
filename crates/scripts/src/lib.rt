//! Scripts: the data components, procedures and further lines of a text, or its first fault.
//!
//! ```
//! let parsed = parse(alloc, Command::Verify, "dc 1 1\nproc seven 0\n  mov r0, 7\n  exit\nend\n")?;
//! // parsed.script.procedures has one, and parsed.fault is None: else the first fault, and its line
//! ```
#![tactic(auto)]

pub mod cause;
pub mod fault;
pub mod keyword;
pub mod line;
pub mod name;
pub mod number;
pub mod open;
pub mod reading;
pub mod script;
pub mod words;
