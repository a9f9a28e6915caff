//! Writing a text whole.

ghost use Rattle.std.specs.Prelude.{◌≡◌, ◌≤◌, IfOk, OnOk, length, take};
ghost use Rattle.std.specs.Io.KnownBytes.{Appends};
ghost use Rattle.program_files.specs.Streams.{stream, written, Gets, Begins};

use std::io::{self, Write};

/// How often a text is written on at most: the end of a writer that is always interrupted.
const WRITES: u64 = 16_777_216;

// Writes some of these bytes, and answers how many.
fn write_some<W: Write>(to: &mut W, bytes: &[u8]) -> io::Result<usize>
    ensures bound { IfOk result (λ n. n ≤ length bytes.now) }
    ensures bytes { Appends (W.contents to.old) (W.contents to.new) (take (written result) bytes.now) }
{
    match to.write(bytes) {
        Ok(0) => Err(io::Error::new(io::ErrorKind::WriteZero, "failed to write whole buffer")),
        Ok(n) => Ok(n),
        Err(e) if e.kind() == io::ErrorKind::Interrupted => Ok(0),
        Err(e) => Err(e),
    }
}

/// Writes the text, or says why not all of it was written. What isn't is lost.
#[tactic(auto, using(crate::proofs::Streaming::begins_by))]
pub fn tell<W: Write>(to: &mut W, text: &str) -> io::Result<()>
    ensures whole { OnOk result (Gets (stream (W.contents to.old) (W.contents to.new)) text.now) }
    ensures part { Begins (stream (W.contents to.old) (W.contents to.new)) text.now }
{
    let mut rest = text.as_bytes();
    for _ in 0..WRITES {
        if rest.is_empty() {
            return Ok(());
        }
        match write_some(to, rest) {
            Ok(n) => rest = &rest[n..],
            Err(error) => return Err(error),
        }
    }
    Err(io::Error::from(io::ErrorKind::Interrupted))
}
