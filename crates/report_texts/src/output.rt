//! What a command prints.

/// The lines for standard output, the exit status, and what goes to standard error, if anything does.
#[derive(Drop)]
pub struct Output {
    pub status: u8,
    pub lines: String,
    pub notes: Option<String>,
}

impl Output {
    ghost use Rattle.std.specs.Prelude.{◌≡◌};

    /// What a command prints that refuses what it was given: these lines, with status 1.
    pub fn refusal(lines: String) -> Output
        ensures { (result.status ≡ 1) × (result.lines ≡ lines) }
    {
        Output {
            status: 1,
            lines,
            notes: None,
        }
    }
}
