// New data components, which restart.

ghost use Rattle.std.specs.Prelude.{◌≡◌, map, IfOk};
ghost use Rattle.std.specs.List.{All};
ghost use Rattle.data_component.specs.Store.{Store, restarted, news_of};
ghost use Rattle.tc_core.specs.declared.recovery.SiteNote.TheVariants.{Restarted};
ghost use Rattle.coming_back.specs.Coming.{HasOnlyRows};

use access_slots::op::News;
use data_component::dc::Dc;
use std::alloc::{AllocError, Global};
use tc_core::recovery::SiteNote;

/// Each restarts.
pub fn restart_all(dcs: &mut [Dc])
    requires { All HasOnlyRows dcs.old }
    ensures { dcs.new ≡ map restarted dcs.old }
{
    for dc in dcs.iter_mut() {
        match dc.restart() {
            Ok(_) => {}
            Err(_) => unreachable!(),
        }
    }
}

// The news of its last restart.
fn note_of(dc: &Dc) -> SiteNote
    ensures { result ≡ Restarted (news_of dc.now) }
{
    SiteNote::Restarted(News {
        incarnation: dc.incarnation(),
        mark: dc.mark(),
    })
}

/// What is noted of each.
pub fn notes_of(alloc: Global, dcs: &[Dc]) -> Result<Vec<SiteNote>, AllocError>
    ensures { IfOk result (λ notes. notes.items ≡ map (λ (s : Store). Restarted (news_of s)) dcs.now) }
{
    let mut notes = Vec::with_capacity(alloc, dcs.len())?;
    for dc in dcs {
        notes.push(note_of(dc))?;
    }
    Ok(notes)
}
