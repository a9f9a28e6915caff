//! What a machine stops at.

use access_slots::op::Op;

/// What a machine stopped at.
#[derive(Clone, Copy, Debug, PartialEq, Eq)]
pub enum Pause {
    /// An operation on a record, whose answer goes into the next `resume`.
    Ask(Op),
    /// The end, with the value of register 0.
    Exit(u64),
}
