//! The lines of the source that code of an object file comes from: `.debug_line`, of DWARF 4 and 5, as clang and
//! gcc write it into relocatable files for BPF.
//!
//! ```text
//! if let Some(table) = line_sections(alloc, file)? {  // of `object_file`
//!     let place = Place { section, address: 8 * slot };
//!     if let Some(SourceLine { file, line }) = line_at(&table, place) {
//!         show(file, line);                           // bank.c 12
//!     }
//! }
//! ```
//!
//! (`line_tests` of `lower_tests` has the tests.)
#![tactic(auto)]

mod files;
mod lines;
mod machine;
mod numbers;
mod rows;
mod unit;

pub use lines::{MOST_NAME, SourceLine, line_at};
pub use rows::Place;
