//! Names of procedures.

ghost use Rattle.std.specs.Prelude.{◌≡◌};
ghost use Rattle.std.specs.List.{list_all};
ghost use Rattle.scripts.specs.Names.{is_name_byte, is_name, name_said};

use crate::fault::ScriptFault;
use std::marker::Model;

/// A procedure's name: 1 to 32 of a to z, 0 to 9 and `_`.
#[derive(Drop)]
pub struct Name<'a> {
    text: &'a str,
}

impl<'a> Model for Name<'a> {
    ghost use Rattle.std.specs.Prelude.{ℕ, List};

    ghost Value = { List ℕ };

    ghost view = { λ n. n.text.now };
}

fn is_name_byte(byte: u8) -> bool
    ensures { result ≡ is_name_byte byte }
{
    matches!(byte, b'a'..=b'z' | b'0'..=b'9' | b'_')
}

fn are_name_bytes(word: &[u8]) -> bool
    ensures { result ≡ list_all is_name_byte word.now }
{
    word.iter().all(|&b| is_name_byte(b))
}

// 1 to 32 of these bytes.
fn is_name(word: &[u8]) -> bool
    ensures { result ≡ is_name word.now }
{
    !word.is_empty() && word.len() <= 32 && are_name_bytes(word)
}

impl<'a> Name<'a> {
    /// The name that a word is.
    pub fn parse(word: &'a [u8]) -> Result<Name<'a>, ScriptFault>
        ensures { result ≡ name_said word.entry.now }
    {
        if !is_name(word) {
            return Err(ScriptFault::BadLine);
        }
        match str::from_utf8(word) {
            Ok(text) => Ok(Name { text }),
            Err(_) => Err(ScriptFault::BadLine),
        }
    }

    /// Its text.
    pub fn as_str(&self) -> &'a str
        ensures { result.now ≡ self.now }
    {
        self.text
    }
}
