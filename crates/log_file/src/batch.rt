// One sync's payload.

ghost use Rattle.std.specs.Prelude.{◌≡◌, ◌↔◌, ◌<◌, ◌≤◌, ◌*◌, ◌++◌, length, IsTrue, IfOk, IfSome, IfNone, OnOk};
ghost use Rattle.std.specs.List.{flat_map, All};
ghost use Rattle.log_file.specs.declared.note.Note.{Note as NoteValue};
ghost use Rattle.log_file.specs.Bytes.{Batch, note_bytes, batch_bytes};
ghost use Rattle.log_file.specs.Reading.{AreNotes, IsBatch, IsSync};
ghost use Rattle.log_file.specs.Joining.Fields.{notes_in, batch_in, IsShort};

use crate::note::{Note, note_in, write_note};
use frame_file::{long, write_long};
use std::alloc::{AllocError, Global};

fn write_notes(out: &mut Vec<u8>, notes: &[Note]) -> Result<(), AllocError>
    ensures { OnOk result (out.new.items ≡ out.old.items ++ flat_map note_bytes notes.now) }
{
    'notes: for note in notes {
        write_note(out, note)?;
    }
    Ok(())
}

/// The bytes of these notes and rows.
#[tactic(auto, unfolding(crate::specs::Bytes::batch_bytes))]
pub fn batch_bytes(alloc: Global, notes: &[Note], rows: &[u8]) -> Result<Vec<u8>, AllocError>
    ensures { IfOk result (λ bytes. bytes.items ≡ batch_bytes (record { notes = notes.now; rows = rows.now })) }
{
    let mut out = Vec::new(alloc);
    write_long(&mut out, notes.len() as u64)?;
    write_notes(&mut out, notes)?;
    out.extend_from_slice(rows)?;
    Ok(out)
}

// So many notes that these bytes may begin with, by their fields.
fn notes_in(alloc: Global, count: usize, bytes: &[u8]) -> Result<Vec<Note>, AllocError>
    requires { 32 * count ≤ length bytes.now }
    ensures value { IfOk result (λ notes. notes.items ≡ notes_in count bytes.now) }
    ensures numbers { IfOk result (λ notes. AreNotes notes.items) }
{
    let mut notes = Vec::with_capacity(alloc, count)?;
    let mut rest = bytes;
    'notes: for _ in 0..count {
        let (front, after) = rest.split_at(32);
        notes.push(note_in(front))?;
        rest = after;
    }
    Ok(notes)
}

// The notes and the rows that the payload's fields say, unless it is too short for so many notes.
fn parts(alloc: Global, payload: &[u8]) -> Result<Option<(Vec<Note>, &[u8])>, AllocError>
    ensures notes { IfOk result (λ o. IfSome o (λ r. r.0.items ≡ (batch_in payload.now).notes)) }
    ensures rows { IfOk result (λ o. IfSome o (λ r. r.1.now ≡ (batch_in payload.now).rows)) }
    ensures numbers { IfOk result (λ o. IfSome o (λ r. AreNotes r.0.items)) }
    ensures short { IfOk result (λ o. IfNone o (IsShort payload.now)) }
{
    if payload.len() < 8 {
        return Ok(None);
    }
    let (head, rest) = payload.split_at(8);
    let count = long(head);
    if count > rest.len() as u64 / 32 {
        return Ok(None);
    }
    let count = count as usize;
    let notes = notes_in(alloc, count, rest)?;
    let (_notes, rows) = rest.split_at(32 * count);
    Ok(Some((notes, rows)))
}

/// The notes and the rows of a payload that is a batch for so many data components: what its fields say is
/// written again, and compared with it.
pub(crate) fn read_batch(
    alloc: Global,
    dcs: usize,
    payload: &[u8],
) -> Result<Option<(Vec<Note>, &[u8])>, AllocError>
    ensures notes { IfOk result (λ o. IfSome o (λ r. r.0.items ≡ (batch_in payload.now).notes)) }
    ensures rows { IfOk result (λ o. IfSome o (λ r. r.1.now ≡ (batch_in payload.now).rows)) }
    ensures fits { IfOk result (λ o. IfSome o (λ _. IsBatch dcs (batch_in payload.now))) }
    ensures is { IfOk result (λ o. IfSome o (λ _. payload.now ≡ batch_bytes (batch_in payload.now))) }
    ensures none { IfOk result (λ o. IfNone o (IsSync dcs payload.now → ⊥)) }
{
    let Some((notes, rows)) = parts(alloc, payload)? else {
        return Ok(None);
    };
    if rows.len() % 96 != 0 {
        return Ok(None);
    }
    if !are_there(&notes, dcs) {
        return Ok(None);
    }
    let again = batch_bytes(alloc, &notes, rows)?;
    if is_same(&again, payload) {
        Ok(Some((notes, rows)))
    } else {
        Ok(None)
    }
}

/// Whether they are the same bytes.
pub(crate) fn is_same(bytes: &[u8], others: &[u8]) -> bool
    ensures { IsTrue result ↔ (bytes.now ≡ others.now) }
{
    bytes == others
}

// Whether they are notes of so many data components.
fn are_there(notes: &[Note], dcs: usize) -> bool
    ensures { IsTrue result ↔ All (λ (n : NoteValue). n.dc < dcs) notes.now }
{
    notes.iter().all(|note| note.dc < dcs)
}
