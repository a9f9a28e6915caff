// What a call does between its first step and its answer.

ghost use Rattle.std.specs.Prelude.{◌≡◌, Some};
ghost use Rattle.run_metrics.specs.Phases.{phase_name, phase_code};

/// What a call does from a moment on.
#[derive(Clone, Copy, Debug, PartialEq, Eq)]
pub enum Phase {
    /// It waits for a transaction that stands in its way.
    Waiting,
    /// Its procedure runs, up to what it asks next.
    Asking,
    /// A wire is on its way for it.
    Carrying,
    /// It is over, and its answer waits for the log.
    Keeping,
    /// Its answer was told.
    Told,
}

impl Phase {
    /// Its name in traces.
    pub fn name(self) -> &'static str
        ensures { result.now ≡ phase_name self }
    {
        match self {
            Phase::Waiting => "waiting",
            Phase::Asking => "asking",
            Phase::Carrying => "carrying",
            Phase::Keeping => "keeping",
            Phase::Told => "told",
        }
    }

    // Its number, by which an atomic holds it.
    pub(crate) fn code(self) -> u64
        ensures { result ≡ phase_code self }
    {
        match self {
            Phase::Waiting => 0,
            Phase::Asking => 1,
            Phase::Carrying => 2,
            Phase::Keeping => 3,
            Phase::Told => 4,
        }
    }

    // The phase with this number.
    pub(crate) fn of_code(code: u64) -> Phase
        ensures { (phase : Phase) → code ≡ phase_code phase → result ≡ phase }
    {
        match code {
            0 => Phase::Waiting,
            1 => Phase::Asking,
            2 => Phase::Carrying,
            3 => Phase::Keeping,
            _ => Phase::Told,
        }
    }
}
