//! The command `run`: it has workers run a script's calls while each data component is served in a thread
//! of its own, and says what each call was answered, what is kept and, where it is wanted, what an audit finds.
//!
//! ```
//! let manner = Manner { workers: 4, tries: 3, stats: false, audit: true, strict: false, results: false };
//! let text = "dc 8 64\nproc put 2\n..end\nproc get 1\n..end\nfirst put 5 100\ncall get 5\n";
//! let listeners = Listeners { terminal: None, each: None, metrics: None, trace: None, system: rt };
//! let report = running(rt, alloc, Source { object: None, text }, manner, listeners)?;
//! // `first 0 committed`, `call 0 committed`, `row 0/0/5 100`, `audit ok ended 2 open 0`; status 0
//! ```
#![tactic(auto)]

mod fitting;
pub mod logged;
mod parts;
pub mod running;
