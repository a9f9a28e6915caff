//! What a call read and wrote, told once its run has ended: what each of its declared slots holds.
//!
//! ```text
//! while let Asked::Request(request) = tc.ask(txn) { .. }          // its run has ended
//! let held = slot_result(&tc, txn, 0);                            // until `tc.end(txn)`
//! if let Some(SlotResult { value, is_there: true }) = held { .. } // slot 0 holds a record
//!
//! let held = logged_result(tc.procs(), tc.log(), place, 0);       // of a call whose End stands at a place
//! ```
//!
//! A result is the definition's: where the run of the call's procedure ended on the answers of the log, at
//! its end or at an insert that found no room, the bytes of the slot's buffer, and whether the slot holds a
//! record (`specs/Results`). Nothing of it is kept while calls run: the procedure is run again on the answers
//! that the log has. That takes no memory, and time by the events from the call's admission on.
//!
//! Its tests are `result_tests` of `component_tests`.
#![tactic(auto)]

mod rerun;
pub mod results;

pub use results::{SlotResult, logged_result, logged_slot_count, slot_count, slot_result};
