// The calls of a file, with the length that it has behind them.

ghost use Rattle.std.specs.Prelude.{◌≡◌, ◌∷◌, [], length};
ghost use Rattle.disk_file.specs.Events.{event_of, written_by};

use crate::record::Record;
use std::marker::Model;

/// The calls of a file that were noted, newest first, and how many bytes it has behind them.
#[derive(Drop)]
pub struct Calls {
    record: Record,
    len: u64,
}

impl Model for Calls {
    ghost use Rattle.std.specs.Prelude.{◌≡◌, List, length};
    ghost use Rattle.disk_file.specs.Events.{Event, written_by};

    ghost Value = { List Event };

    ghost view = { λ c. c.record.events };

    ghost invariant = { λ c. c.len ≡ length (written_by c.record.events) };
}

impl Calls {
    /// None yet.
    pub(crate) fn new() -> Calls
        ensures { result ≡ [] }
    {
        Calls {
            record: Record::new(),
            len: 0,
        }
    }

    /// How many bytes the file has.
    pub(crate) fn len(&self) -> u64
        ensures { result ≡ length (written_by self.now) }
    {
        self.len
    }

    /// One call more, as [`Record::note`] notes it, behind which the file has so many bytes.
    pub(crate) fn note(&mut self, numbers: &[u64], bytes: &[u8], len: u64)
        requires { len ≡ length (written_by (event_of numbers.now bytes.now ∷ self.old)) }
        ensures { self.new ≡ event_of numbers.now bytes.now ∷ self.old }
    {
        self.record.note(numbers, bytes);
        self.len = len;
    }
}
