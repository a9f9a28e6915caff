//! Calls of both lists of a script: workers run them while each data component is served in a thread of its own. What they
//! were answered, as values and lines; how long they took, as figures; and what is told of them meanwhile.
//!
//! ```text
//! let rings = Rings::new(alloc, ground.dcs.len(), manner.workers)?;
//! let waits = Waits::new(rt, alloc, calls.len(), manner.stats, listeners, None)?;
//! let (ground, answers) = answer_on(rt, alloc, ground, input, &waits, rings)?;
//! write_answers(alloc, "first", answers.first.as_slice(), &mut lines)?; // `first 0 committed`
//! ```
//!
//! Its tests are those of `run_command`, by what it prints.
#![tactic(auto)]

pub mod answer_lines;
pub mod answering;
pub mod calls;
pub mod figures;
pub mod stop;
pub mod watching;
