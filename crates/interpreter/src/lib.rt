//! Runs verified code: a machine that can't go wrong.
//!
//! ```
//! let mut machine = Machine::start(verified, args, Layout::plain());
//! let pause = machine.resume(verified, None);                 // to its first question, Ask(op), or its end
//! let pause = machine.resume(verified, Some(said));           // on with an answer that fits
//! machine.executed();                                         // so many instructions so far
//! ```
//!
//! (`call`, `hear` and `stands` in `machine_tests` of `component_tests`, which has its tests. `restart` starts
//! a machine over where it is: `tc_core` does so for each call.)
#![tactic(auto)]

mod cursor;
mod filled;
pub mod layout;
pub mod machine;
pub mod memory;
pub mod pause;
mod registers;
mod state;

pub use layout::Layout;
pub use machine::Machine;
pub use memory::Memory;
pub use pause::Pause;
