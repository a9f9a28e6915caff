// What is told of calls.

ghost use Rattle.std.specs.Prelude.{◌≡◌, ◌<◌, ◌≤◌, ℕ, [], length, vec_capacity};
ghost use Rattle.worker_pool.specs.Answers.{answer_of};
ghost use Rattle.worker_pool.specs.Joining.Seen.{IsAnswered, AreToldBy};

use lock_table::table::Busy;
use tc_core::state::{Receipt, Refusal, TxnId};
use tc_log::event::Outcome;

/// What became of a call.
#[derive(Clone, Copy, Debug, PartialEq, Eq)]
pub enum Answer {
    /// It committed. Its end stands at this place of the log, the oldest event at 0.
    Committed(usize),
    /// Its procedure answered this value, which isn't 0, and its writes were undone. Its end stands
    /// at this place.
    Aborted(u64, usize),
    /// An insert found no room, and its writes were undone. Its end stands at this place.
    NoRoom(usize),
    /// Nothing is known of the operation under this number, or it is the last undo that wasn't
    /// done. The transaction stays open, with its locks.
    InDoubt(u64),
    /// Only transactions in doubt or stuck stood in its way: the least record in the way, and its
    /// least holder.
    Blocked(Busy),
    /// It wasn't admitted. It is never refused because others stand in its way.
    Refused(Refusal),
}

/// How far a call has come.
#[derive(Clone, Copy, Debug, PartialEq, Eq)]
pub enum Progress {
    /// Nothing was done for it.
    Waiting,
    /// It was admitted as this transaction.
    Begun(TxnId),
    /// Its answer stands, with its transaction if it was admitted.
    Answered(Answer, Option<TxnId>),
}

// The answers of these calls, in order.
pub(crate) fn answers_of(progress: &[Progress], mut answers: Vec<Answer>) -> Vec<Answer>
    requires answered { (k : ℕ) → k < length progress.now → IsAnswered progress.now k }
    requires empty { answers.items ≡ [] }
    requires room { length progress.now ≤ vec_capacity answers }
    ensures { AreToldBy progress.now result.items }
{
    for p in progress {
        match *p {
            Progress::Answered(answer, _) => answers.push_reserved(answer),
            Progress::Waiting | Progress::Begun(_) => unreachable!(),
        }
    }
    answers
}

// The answer of a call whose transaction ended so.
#[inline(always)]
pub(crate) fn answer_for(receipt: Receipt) -> Answer
    ensures { result ≡ answer_of receipt.outcome receipt.place }
{
    match receipt.outcome {
        Outcome::Committed => Answer::Committed(receipt.place),
        Outcome::Aborted(value) => Answer::Aborted(value, receipt.place),
        Outcome::NoRoom => Answer::NoRoom(receipt.place),
    }
}
