//! Which words of the command line are to be numbers, and why one is none.

ghost use Rattle.std.specs.Prelude.{◌≡◌, IfOk, IfSome, None, string_bytes};
ghost use Rattle.command_line.specs.Numbers.{SaysDigits, digits_of, no_number_line};

use std::alloc::{AllocError, Global};

/// An option that takes a number.
#[derive(Clone, Copy, Debug, PartialEq, Eq)]
pub enum NumberOption {
    Workers,
    Tries,
    /// `--checkpoint-over`.
    Bytes,
    From,
    Tail,
}

impl NumberOption {
    ghost use Rattle.std.specs.Prelude.{◌≡◌};
    ghost use Rattle.command_line.specs.Numbers.{id_of, shown_of, range_of};

    /// Its name among the matches.
    pub(crate) fn id(self) -> &'static str
        ensures { result.now ≡ id_of self }
    {
        match self {
            NumberOption::Workers => "workers",
            NumberOption::Tries => "tries",
            NumberOption::Bytes => "checkpoint-over",
            NumberOption::From => "from",
            NumberOption::Tail => "tail",
        }
    }

    /// As a usage shows it.
    pub fn shown(self) -> &'static str
        ensures { result.now ≡ shown_of self }
    {
        match self {
            NumberOption::Workers => "--workers <N>",
            NumberOption::Tries => "--tries <N>",
            NumberOption::Bytes => "--checkpoint-over <BYTES>",
            NumberOption::From => "--from <P>",
            NumberOption::Tail => "--tail <N>",
        }
    }

    /// Which numbers it takes.
    pub fn range(self) -> &'static str
        ensures { result.now ≡ range_of self }
    {
        match self {
            NumberOption::Workers => "from 1 to 64",
            NumberOption::Tries => "from 1 to 1000",
            NumberOption::Bytes | NumberOption::From | NumberOption::Tail => "of 64 bits",
        }
    }
}

/// A word that is to be a number, and is none.
#[derive(Clone, Copy, Debug)]
pub enum NoNumber<'a> {
    /// An ARG.
    Argument(&'a str),
    /// The value of this option.
    Value(NumberOption, &'a str),
}

impl NoNumber<'_> {
    ghost use Rattle.std.specs.Prelude.{◌≡◌, IfOk, string_bytes};
    ghost use Rattle.command_line.specs.Numbers.{no_number_text};

    /// Where it stands, what was given, and what is wanted.
    pub fn text(&self, alloc: Global) -> Result<String, AllocError>
        ensures { IfOk result (λ text. string_bytes text ≡ no_number_text self.now) }
    {
        match *self {
            NoNumber::Argument(given) => no_number_line(alloc, given, "[ARG]...", "of 64 bits"),
            NoNumber::Value(option, given) => {
                no_number_line(alloc, given, option.shown(), option.range())
            }
        }
    }
}

// What was given for what, and which numbers it takes.
fn no_number_line(
    alloc: Global,
    given: &str,
    shown: &str,
    range: &str,
) -> Result<String, AllocError>
    ensures { IfOk result (λ text. string_bytes text ≡ no_number_line given.now shown.now range.now) }
{
    format!(in alloc;
        "error: invalid value '{given}' for '{shown}': no number {range} in decimal digits"
    )
}

// The number of 64 bits that decimal digits write, which no sign stands before.
pub(crate) fn digits_of(text: &str) -> Option<u64>
    ensures some { IfSome result (λ n. SaysDigits text.now × (n ≡ digits_of text.now)) }
    ensures none { result ≡ None → ¬ SaysDigits text.now }
{
    match text.as_bytes() {
        [b'+', ..] => None,
        _ => text.parse::<u64>().ok(),
    }
}
