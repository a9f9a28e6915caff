// The notes and the rows of all batches.

ghost use Rattle.std.specs.Prelude.{◌≡◌, ◌<◌, ◌+◌, ◌%◌, ◌^◌, length, IfOk, IfErr};
ghost use Rattle.std.specs.List.{All, fold};
ghost use Rattle.frame_file.specs.Reading.{payloads_in};
ghost use Rattle.log_file.specs.declared.note.Note.{Note as NoteValue};
ghost use Rattle.log_file.specs.Reading.{with_note};
ghost use Rattle.log_file.specs.Joining.Fields.{AreGathered, IsGatherFault};

use crate::batch::read_batch;
use crate::note::Note;
use crate::reading::OpenFault;
use std::alloc::Global;
use tc_core::SiteNote;

/// What the batches of a file come to.
#[derive(Drop)]
pub(crate) struct Gathered {
    /// Of each data component what its last note says.
    pub known: Vec<SiteNote>,
    /// The rows of all events, in order.
    pub rows: Vec<u8>,
}

/// Each note in turn says what is known of its data component from then on.
pub fn take_notes(known: &mut Vec<SiteNote>, notes: &[Note])
    requires { All (λ (n : NoteValue). n.dc < length known.old.items) notes.now }
    ensures known { known.new.items ≡ fold with_note known.old.items notes.now }
    ensures len { length known.new.items ≡ length known.old.items }
{
    'notes: for note in notes {
        known[note.dc] = note.known;
    }
}

/// The notes and the rows of batches for so many data components, with so many frames in front of them.
pub(crate) fn gather(
    alloc: Global,
    dcs: u16,
    front: usize,
    payloads: &[Vec<u8>],
) -> Result<Gathered, OpenFault>
    requires { front + length payloads.now < 2 ^ 64 }
    ensures gathered { IfOk result (λ g. AreGathered dcs (payloads_in payloads.now) g.known.items g.rows.items) }
    ensures whole { IfOk result (λ g. length g.rows.items % 96 ≡ 0) }
    ensures fault { IfErr result (IsGatherFault dcs front (payloads_in payloads.now)) }
{
    let mut known = vec![in alloc; SiteNote::Untold; usize::from(dcs)]?;
    let mut rows = Vec::new(alloc);
    'batches: for (place, payload) in payloads.iter().enumerate() {
        let Some((notes, more)) = read_batch(alloc, usize::from(dcs), payload)? else {
            return Err(OpenFault::NoBatch(front + place));
        };
        take_notes(&mut known, &notes);
        rows.extend_from_slice(more)?;
    }
    Ok(Gathered { known, rows })
}
