// What is noted of a data component.

ghost use Rattle.std.specs.Prelude.{◌≡◌, ◌++◌, length, OnOk};
ghost use Rattle.log_file.specs.Bytes.{kind_of, incarnation_of, mark_of, note_bytes};
ghost use Rattle.log_file.specs.Reading.{IsKnown, IsNote};
ghost use Rattle.log_file.specs.Joining.Fields.{known_in, note_in};

use access_slots::op::News;
use frame_file::{long, write_long};
use std::alloc::AllocError;
use tc_core::SiteNote;

/// What is known of a data component from now on.
#[derive(Clone, Copy, Debug, PartialEq, Eq)]
pub struct Note {
    /// Its number.
    pub dc: usize,
    pub known: SiteNote,
}

// What is known, in numbers.
#[derive(Clone, Copy)]
struct Words {
    kind: u64,
    incarnation: u64,
    mark: u64,
}

fn words_of(known: &SiteNote) -> Words
    ensures kind { result.kind ≡ kind_of known.now }
    ensures incarnation { result.incarnation ≡ incarnation_of known.now }
    ensures mark { result.mark ≡ mark_of known.now }
{
    match known {
        SiteNote::Untold => Words {
            kind: 0,
            incarnation: 0,
            mark: 0,
        },
        SiteNote::Restarted(news) => Words {
            kind: 1,
            incarnation: news.incarnation,
            mark: news.mark,
        },
        SiteNote::Up(incarnation) => Words {
            kind: 2,
            incarnation: *incarnation,
            mark: 0,
        },
    }
}

/// The note's 32 bytes.
#[tactic(auto, unfolding(crate::specs::Bytes::note_bytes))]
pub(crate) fn write_note(out: &mut Vec<u8>, note: &Note) -> Result<(), AllocError>
    ensures { OnOk result (out.new.items ≡ out.old.items ++ note_bytes note.now) }
{
    let words = words_of(&note.known);
    write_long(out, note.dc as u64)?;
    write_long(out, words.kind)?;
    write_long(out, words.incarnation)?;
    write_long(out, words.mark)
}

fn known_in(kind: u64, incarnation: u64, mark: u64) -> SiteNote
    ensures value { result ≡ known_in kind incarnation mark }
    ensures numbers { IsKnown result }
{
    match kind {
        0 => SiteNote::Untold,
        1 => SiteNote::Restarted(News { incarnation, mark }),
        _ => SiteNote::Up(incarnation),
    }
}

/// The note that these 32 bytes may be, by their fields.
pub(crate) fn note_in(bytes: &[u8]) -> Note
    requires { length bytes.now ≡ 32 }
    ensures value { result ≡ note_in bytes.now }
    ensures numbers { IsNote result }
{
    let kind = long(&bytes[8..16]);
    let incarnation = long(&bytes[16..24]);
    let mark = long(&bytes[24..32]);
    let dc = long(&bytes[..8]) as usize;
    Note {
        dc,
        known: known_in(kind, incarnation, mark),
    }
}
