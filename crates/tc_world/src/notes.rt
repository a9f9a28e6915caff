// What is noted of data components.

ghost use Rattle.std.specs.Prelude.{◌≡◌, IfOk, map};
ghost use Rattle.tc_world.specs.Recovery.{note_of};

use access_slots::op::News;
use std::alloc::{AllocError, Global};
use tc_core::recovery::SiteNote;
use tc_core::state::TcState;
use transactions::Site;

fn note_of(site: Site) -> SiteNote
    ensures { result ≡ note_of site }
{
    match site.redo {
        Some(redo) => SiteNote::Restarted(News {
            incarnation: site.incarnation,
            mark: redo.mark,
        }),
        None if site.incarnation == 0 => SiteNote::Untold,
        None => SiteNote::Up(site.incarnation),
    }
}

/// A note of all that the state knows of each data component.
pub fn notes_of(alloc: Global, state: &TcState) -> Result<Vec<SiteNote>, AllocError>
    ensures { IfOk result (λ notes. notes.items ≡ map note_of state.now.sites) }
{
    state.known();
    let dcs = usize::from(state.dcs());
    let mut notes = Vec::with_capacity(alloc, dcs)?;
    for dc in 0..dcs {
        notes.push(note_of(state.site(dc)))?;
    }
    Ok(notes)
}
