//! Transaction components in succession over one log: one takes over from what was written, whether the
//! one before it is dead, was only stopped, or is cut off. The log takes no append of a former one
//! (fencing), and each writes ahead; so what a former one still carries, at any later time, does no harm.
//!
//! The functions have no body: each is a law, told by its contract. The definitions are in `specs/`:
//! `Reigns` says what happens, and `Effect` which operations take effect.
#![tactic(auto)]

mod examples;
mod laws;

pub use examples::former_ones;
pub use laws::{
    former_ones_do_no_harm, further_wires_change_no_step, successors_go_on,
    what_takes_effect_is_in_flight,
};
