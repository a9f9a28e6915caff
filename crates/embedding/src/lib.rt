//! A transaction component, a data component or a program behind one value, for callers in other
//! languages.
//!
//! An [`engine::Engine`] begins with a [`frame::Frame`] of plain numbers and bytes. A caller writes
//! there what it wants, calls [`engine::serve`], and reads there what came of it. The static library
//! `mazzulpe` hands exactly this to C.
//!
//! ```
//! engine.frame.word = 0;                                      // the procedure of this number
//! engine.frame.count = 1;                                     // with one argument
//! engine.frame.args[0] = 7;
//! engine.frame.what = call::ADMIT;
//! engine::serve(engine);                                      // DONE, or why not
//! ```
//!
//! (`asked` in `embedding_tests` of `upper_tests`, which has its tests.)
#![tactic(auto)]

pub mod call;
mod code_part;
pub mod codes;
mod dc_part;
pub mod engine;
mod filed_part;
pub mod frame;
mod gathered;
mod opened;
mod prepared;
mod program;
mod tc_part;
mod telling;
