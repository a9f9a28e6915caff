//! The commands that need no transaction component: `exec`, `asm`, `dis` and `verify`. Each makes of
//! what was read the lines to print and the exit status.
//!
//! ```
//! let report = assembly(alloc, "mov r0, 7\nexit\n")?; // status 0, and eight bytes of hex a line
//! let code = b"b700000007000000 9500000000000000";
//! let report = disassembly(alloc, false, code)?; // `mov r0, 7` and `exit`
//! let report = execution(alloc, false, code, &[])?; // `answer 7` and `executed 2`
//! let report = verification(alloc, script)?; // a line for each procedure: `seven accepted 2`
//! let report = object_verification(alloc, file)?; // the same of an object file's
//! ```
#![tactic(auto)]

pub mod assembly;
mod cure;
pub mod execute;
pub mod lines;
pub mod object_verification;
pub mod refused;
pub mod verification;
