//! A part of a log, up to its end.

/// Which of a log's events are wanted.
#[derive(Clone, Copy, Debug, PartialEq, Eq)]
pub enum Part {
    Whole,
    /// Those from this place on, from 0.
    From(u64),
    /// So many at its end.
    Last(u64),
}

impl Part {
    ghost use Rattle.std.specs.Prelude.{◌≡◌, ◌≤◌};
    ghost use Rattle.log_part.specs.Part.{first_of, begin_of, at_most};

    /// The place of the first of them in a log of so many events; that of its end, where there is none.
    pub fn first(self, count: usize) -> usize
        ensures place { result ≡ first_of self count }
        ensures within { result ≤ count }
    {
        match self {
            Part::Whole => 0,
            Part::From(place) => (count as u64).min(place) as usize,
            Part::Last(wanted) => (count as u64).saturating_sub(wanted) as usize,
        }
    }

    /// The place from which on they are wanted of a log that has so many events, and goes on: it may lie behind its end.
    pub fn begin(self, count: usize) -> usize
        ensures { result ≡ begin_of self count }
    {
        match self {
            Part::From(place) => place as usize,
            Part::Whole | Part::Last(_) => self.first(count),
        }
    }

    /// The part of those that are shown where no more than `most` are: the first ones from a place on, else the last.
    pub fn at_most(self, most: u64) -> Part
        ensures { result ≡ at_most self most }
    {
        match self {
            Part::Whole => Part::Last(most),
            Part::From(place) => Part::From(place),
            Part::Last(wanted) => Part::Last(wanted.min(most)),
        }
    }
}
