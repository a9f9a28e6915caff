// What is noted of data components.

ghost use Rattle.std.specs.Prelude.{◌≡◌, ◌↔◌, ◌<◌, [], length, map, IsTrue, IfOk};
ghost use Rattle.std.specs.List.{All, fold};
ghost use Rattle.log_file.specs.declared.note.Note.{Note as NoteValue};
ghost use Rattle.log_file.specs.Reading.{IsKnown, AreNotes, with_note};
ghost use Rattle.engine_log.specs.Notes.{known_of};

use access_slots::op::News;
use log_file::Note;
use std::alloc::{AllocError, Global};
use tc_core::{SiteNote, TcState};
use transactions::Site;

/// What a state that comes back has to know of a data component: that it is up, or from which mark on it is redone.
pub fn known_of(site: Site) -> SiteNote
    ensures value { result ≡ known_of site }
    ensures numbers { IsKnown result }
{
    match site.redo {
        Some(redo) => SiteNote::Restarted(News {
            incarnation: site.incarnation,
            mark: redo.mark,
        }),
        None if site.incarnation == 0 => SiteNote::Untold,
        None => SiteNote::Up(site.incarnation),
    }
}

fn is_same(note: &SiteNote, known: &SiteNote) -> bool
    ensures { IsTrue result ↔ (note.now ≡ known.now) }
{
    note == known
}

/// A note of each data component of which something else is known than was noted.
pub(crate) fn changed(
    alloc: Global,
    noted: &[SiteNote],
    tc: &TcState,
) -> Result<Vec<Note>, AllocError>
    requires { length noted.now ≡ tc.now.dcs }
    ensures numbers { IfOk result (λ notes. AreNotes notes.items) }
    ensures there { IfOk result (λ notes. All (λ (n : NoteValue). n.dc < tc.now.dcs) notes.items) }
    ensures known { IfOk result (λ notes. fold with_note noted.now notes.items ≡ map known_of tc.now.sites) }
    ensures none { IfOk result (λ notes. noted.now ≡ map known_of tc.now.sites → notes.items ≡ []) }
{
    tc.known();
    let mut notes = Vec::new(alloc);
    'dcs: for dc in 0..usize::from(tc.dcs()) {
        let known = known_of(tc.site(dc));
        if is_same(&noted[dc], &known) {
            continue;
        }
        notes.push(Note { dc, known })?;
    }
    Ok(notes)
}
