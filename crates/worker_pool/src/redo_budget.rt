// How often what is redone for a request may still be sent.

use access_slots::op::Wire;

/// What was redone for a request, and how often each number may still be sent. A restart begins the redo
/// anew, with the numbers that were sent before; of each number all that was sent counts, so that a
/// worker whose data component restarts again and again comes to an end.
#[derive(Clone, Copy)]
pub struct RedoBudget {
    // How often each number may be sent to this incarnation.
    each: u64,
    // How often the number that was sent last may still be sent.
    left: u64,
    // The least of what is left, over all numbers.
    least: u64,
    // Whether the number that was sent last was sent once too often.
    spent: bool,
    // The incarnation and the number that something was sent to last.
    last: Option<(u64, u64)>,
}

impl RedoBudget {
    /// Nothing was redone, and each number may be sent so often.
    #[inline(always)]
    pub(crate) fn new(tries: u64) -> RedoBudget {
        RedoBudget {
            each: tries,
            left: tries,
            least: tries,
            spent: false,
            last: None,
        }
    }

    /// The same behind one more sending.
    pub(crate) fn sent(&self, wire: &Wire) -> RedoBudget {
        let (each, left) = match self.last {
            Some((incarnation, _)) if incarnation != wire.incarnation => (self.least, self.least),
            Some((_, number)) if number == wire.number => (self.each, self.left),
            _ => (self.each, self.each),
        };
        let after = left.saturating_sub(1);
        RedoBudget {
            each,
            left: after,
            least: self.least.min(after),
            spent: left == 0,
            last: Some((wire.incarnation, wire.number)),
        }
    }

    /// Whether the number that was sent last was sent once too often.
    #[inline(always)]
    pub(crate) fn is_spent(&self) -> bool {
        self.spent
    }
}
