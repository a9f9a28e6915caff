// What a run reports.

ghost use Rattle.std.specs.Prelude.{◌≡◌, count_by};
ghost use Rattle.worker_pool.specs.Answers.{has_place};

use crate::answer::Answer;
use tc_core::state::TcState;

/// What a run gives: the state that it left, and an answer for each call, in the order of the calls.
#[derive(Drop)]
pub struct Report {
    pub state: TcState,
    pub answers: Vec<Answer>,
}

impl Report {
    /// How many transactions ended.
    pub fn ends(&self) -> usize
        ensures { result ≡ count_by has_place self.now.answers.items }
    {
        self.answers.iter().filter(|answer| is_end(answer)).count()
    }
}

// Whether the answer is that of an end.
fn is_end(answer: &Answer) -> bool
    ensures { result ≡ has_place answer.now }
{
    matches!(
        answer,
        Answer::Committed(_) | Answer::Aborted(..) | Answer::NoRoom(_)
    )
}
