//! Calls run by workers: up to 64 at once over one transaction component.
//!
//! ```
//! let link = LockedDcs::new(alloc, dcs)?;
//! let (_, ran) = run(&rt, alloc, state, calls.as_slice(), 4, 3, &link, &OpenGate, NoJournal);
//! let report = match ran {
//!     Ok(report) => report,
//!     Err(fault) => return again_with(fault.into_state()),
//! };
//! for answer in &report.answers {
//!     if let Answer::Committed(place) = answer { .. }
//! }
//! ```
//!
//! Each call is run to its answer, one answer a call in the order of the calls. An answer says what
//! stands in the log of the state that is handed back: an end of this call's transaction and how it
//! ended, an operation that nothing more is known of, a transaction that holds a lock in the way, or
//! why the call wasn't admitted. `specs/Reports.antt` has what is proved of a report.
//!
//! A [`Link`] of your own carries wires to data components elsewhere. It may lose, repeat, delay and
//! change what it carries; the report stays true of the log. `dc_links` has those to data components of
//! this process. A [`Gate`] is told when a call is admitted, which [`Stage`] it reaches, and of its answer by an
//! [`Acknowledgement`]. Where it only notes all but the last, a link may perform wires at once, under the lock
//! (`Link::perform_at_once`).
//! A run keeps its log in a journal (`journals`), and tells no answer before the log that it is true of is
//! kept; with `NoJournal` it keeps nothing. Between two lists of calls the log of a report's state may begin anew:
//! `tc_world::cutting::cut` does it with data components of this process, `TcState::checkpoint` by the
//! marks that others have kept. Its tests are those of `pool_tests`.
#![tactic(auto)]

mod acknowledgement;
mod answer;
mod attempt;
mod batch;
mod group_commit;
mod handed;
mod laws;
mod outstanding_call;
mod outstanding_calls;
mod performing;
mod pool;
mod pool_state;
mod redo_budget;
mod report;
mod run_spec;
mod running;
mod stage;

pub use acknowledgement::Acknowledgement;
pub use answer::Answer;
pub use dc_links::Link;
pub use laws::carried_is_in_flight;
pub use pool::{Gate, OpenGate};
pub use report::Report;
pub use run_spec::RunSpec;
pub use running::{MOST_TRIES, MOST_WORKERS, RunFault, run};
pub use stage::Stage;
