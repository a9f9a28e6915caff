//! The header of a log's file: which procedures the transaction component has loaded whose log it is.
//!
//! ```text
//! let header = header_of(alloc, tc.procs())?;      // for `LogFile::open`, which refuses another's file
//! ```
//!
//! A header has no procedure but a SHA-256 digest of the bytes that say them all: their declarations and
//! their code, in order, and not their names. [`procedures_tell`] is the law that these bytes leave
//! nothing out.
#![tactic(auto)]

mod bytes;
mod difference;
mod header;
mod laws;

pub use difference::{is_same_but_digest, is_same_session, other_line};
pub use header::{header_of, header_of_session};
pub use laws::procedures_tell;
