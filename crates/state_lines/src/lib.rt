//! The lines of what a transaction component and its data components are: records, values and rows,
//! operations and answers, why a call isn't admitted, and what an audit finds.
//!
//! ```
//! write_all_rows(alloc, dcs, &mut lines)?; // `row 0/0/5 100`
//! let sound = write_audit(alloc, procs, log, dcs, &mut lines)?; // `audit ok ended 1 open 0`
//! ```
#![tactic(auto)]

pub mod audit_lines;
pub mod operation_texts;
pub mod record_texts;
pub mod refusal_texts;
pub mod row_lines;
