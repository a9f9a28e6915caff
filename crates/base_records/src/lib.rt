//! Data components that begin with the records with which a log begins that was cut.
//!
//! ```text
//! match begin(dcs, &restored.base, &restored.log)? {   // data components to which nothing has happened
//!     None => {}                                       // each has its records
//!     Some(fault) => {}                                // a record of none that is there, or more than there is room for
//! }
//! ```
//!
//! Its tests are those of `log_command` and `run_command`, by what they print.
#![tactic(auto)]

mod beginning;

pub use beginning::{BaseFault, base_fault, base_fault_line, begin};
