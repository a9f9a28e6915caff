//! What came of the transactions that were open.

use tc_core::state::Receipt;

/// What came of a transaction that was open.
#[derive(Clone, Copy, Debug, PartialEq, Eq)]
pub enum Resumed {
    /// It went on to its end, which is in the log.
    Ended(Receipt),
    /// It is open, and its locks stay held: this number was given up, since its data component didn't
    /// answer it, or is the last of four under which a write wasn't undone.
    InDoubt { txn: u64, number: u64 },
}
