//! Object files for BPF: the procedures of an ELF-64 file as clang writes it, each with its code and its
//! declaration.
//!
//! ```text
//! for procedure in read(alloc, bytes)? {      // in the order of their sections
//!     show(procedure.name, procedure.code, procedure.decl);
//! }
//! ```
//!
//! ([`read_contents`] gives the procedures beside those that are refused, [`line_sections`] what says of which lines of a
//! source the code is, [`first_reference`] what a refused section refers to.)
//!
//! A procedure NAME is the section `procedure/NAME` with its code, and `accesses/NAME` with its declaration.
//! (`object_tests` of `lower_tests` has the tests.)
#![tactic(auto)]

mod accesses;
mod elf;
mod fault;
mod lines;
mod procedures;
mod referring;

pub use elf::{MOST_NAME, MOST_SECTIONS, half_at, is_elf, long_at, word_at};
pub use fault::{ObjectFault, ReadError};
pub use lines::{LineSections, line_sections};
pub use procedures::{Contents, Procedure, read, read_contents};
pub use referring::{Reference, first_reference, section_name};
