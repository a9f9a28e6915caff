//! Unsigned decimal numbers.

ghost use Rattle.std.specs.Prelude.{◌≡◌, ◌≤◌, ℕ, IfOk};
ghost use Rattle.scripts.specs.Numbers.{decimal_said, number_to, numbers_said, Gives};
ghost use Rattle.scripts.specs.Words.{words_of};

use crate::fault::{LineError, ScriptFault};
use crate::words::first_word;
use bpf_asm::number::numeral;
use std::alloc::Global;
use tc_log::event::Args;

/// A number of 64 bits in decimal digits alone.
pub fn decimal(word: &[u8]) -> Result<u64, ScriptFault>
    ensures { result ≡ decimal_said word.now }
{
    match numeral(word, 10) {
        Ok(number) => Ok(number),
        Err(_) => Err(ScriptFault::BadNumber),
    }
}

/// A number that is at most this one.
pub fn number_to(most: u64, word: &[u8]) -> Result<u64, ScriptFault>
    ensures value { result ≡ number_to most word.now }
    ensures small { IfOk result (λ n. n ≤ most) }
{
    let number = decimal(word)?;
    if number > most {
        return Err(ScriptFault::BadNumber);
    }
    Ok(number)
}

/// The numbers that all words of a text say.
pub fn numbers(alloc: Global, text: &[u8]) -> Result<Args, LineError>
    ensures { Gives (numbers_said (words_of text.now)) result }
{
    let mut numbers = Vec::new(alloc);
    let mut rest = text;
    'words: while let Some((word, after)) = first_word(rest) {
        numbers.push(decimal(word)?)?;
        rest = after;
    }
    Ok(Args::from_vec(numbers))
}
