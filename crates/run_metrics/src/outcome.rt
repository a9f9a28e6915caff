// How a call came out.

ghost use Rattle.std.specs.Prelude.{◌≡◌};
ghost use Rattle.run_metrics.specs.Outcomes.{outcome_name};

/// How a call came out.
#[derive(Clone, Copy, Debug, PartialEq, Eq)]
pub enum Outcome {
    Committed,
    Aborted,
    InDoubt,
    Blocked,
    Refused,
}

impl Outcome {
    /// Its name in metrics and in traces.
    pub fn name(self) -> &'static str
        ensures { result.now ≡ outcome_name self }
    {
        match self {
            Outcome::Committed => "committed",
            Outcome::Aborted => "aborted",
            Outcome::InDoubt => "in_doubt",
            Outcome::Blocked => "blocked",
            Outcome::Refused => "refused",
        }
    }
}
