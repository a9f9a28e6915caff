//! What the tests of several crates and the benchmarks load, call and print: five procedures with a
//! state that has them, their calls, and the bytes of short logs.
//!
//! ```
//! let mut tc = loaded(alloc, 1)?;                  // put, get, bad, move and drop, over one data component
//! tc.admit(&call(alloc, MOVE, &[5, 6, 10])?)?;     // moves 10 from the number under 5 to the one under 6
//! ```
//!
//! A procedure and a state are none where memory ran out. Nothing of this is part of a program but of
//! `bench`.
#![tactic(auto)]

pub mod logs;
pub mod procedures;
pub mod states;

pub use logs::{LogRecord, PUT_AND_ABORT, log_bytes};
pub use procedures::{bad_procedure, drop_procedure, get_procedure, move_procedure, put_procedure};
pub use states::{BAD, DROP, GET, MOVE, PUT, call, load, loaded, record, value};
