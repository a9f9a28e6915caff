// Laws of what is written and read.

ghost use Rattle.std.specs.Prelude.{◌≡◌, ◌⊎◌, ◌++◌, [], ◌∷◌, ℕ, List, Option, Some, true, length, reverse};
ghost use Rattle.std.specs.List.{flat_map};
ghost use Rattle.frame_file.specs.Reading.{Reads, IsTold, IsBeforeOrAfter};
ghost use Rattle.tc_core.specs.declared.recovery.SiteNote.{SiteNote};
ghost use Rattle.tc_log.specs.declared.event.Event.{Event};
ghost use Rattle.tc_log.specs.Printed.{printed};
ghost use Rattle.tc_log.specs.Reading.{ArePrinted, AreEvents};
ghost use Rattle.verifier.specs.Checked.{Checked};
ghost use Rattle.transactions.specs.Legal.{Legal};
ghost use Rattle.transactions.specs.Rows.{AllTakeFew};
ghost use Rattle.log_file.specs.declared.header.Header.{Header as HeaderValue};
ghost use Rattle.log_file.specs.Bytes.{Rows, Batch, header_bytes, batch_bytes, payloads_of, notes_of, rows_of};
ghost use Rattle.log_file.specs.Reading.{IsHeader, IsStart, IsBatch, AreBatches, IsFront, Says, Continue, last_known};
ghost use Rattle.log_file.specs.Replacement.{may_be_left};

/// A header's bytes tell how many data components and procedures there are, and the procedures' digest.
pub fn headers_tell()
    ensures { (a b : HeaderValue) → IsHeader a → IsHeader b → header_bytes a ≡ header_bytes b → a ≡ b }
{}

/// What a file of a base and of batches says are this base, the events whose rows they have, and the last
/// notes.
pub fn read_as_written()
    ensures { (h : HeaderValue) (base found : Option Rows) (batches : List Batch) (known : List SiteNote) (events written : List Event) →
        IsStart base → AreBatches h.dcs batches → AreEvents written
        → ArePrinted written (rows_of batches) → Says h (payloads_of h base batches) found known events → (events ≡ written) ×
        (known ≡ last_known h.dcs (notes_of batches)) × (found ≡ base) }
{}

/// So a legal log whose rows were written is read again.
pub fn legal_logs_are_read()
    ensures { (h : HeaderValue) (ps : List Checked) (base found : Option Rows) (log : List Event) (batches : List Batch)
        (known : List SiteNote) (events : List Event) → AllTakeFew ps → Legal ps log → AreEvents (reverse log) → IsStart base
        → AreBatches h.dcs batches → rows_of batches ≡ flat_map printed (reverse log) →
        Says h (payloads_of h base batches) found known events → events ≡ reverse log }
{}

/// Whatever a crash left while something was being appended, the batches from before it are read.
pub fn acknowledged_are_read()
    ensures { (h : HeaderValue) (base other : Option Rows) (batches found : List Batch) (payload file : List ℕ) →
        IsStart base → IsStart other → AreBatches h.dcs batches → AreBatches h.dcs found → IsBeforeOrAfter (payloads_of h base batches) payload file →
        Reads file (payloads_of h other found) → (other ≡ base) × Continue batches found }
{}

/// And no other than the one that was being appended, but for a checksum that is right by chance.
pub fn crashes_are_read()
    ensures { (h : HeaderValue) (base other : Option Rows) (batches found : List Batch) (batch : Batch) (file : List ℕ) → IsStart base →
        IsStart other → AreBatches h.dcs batches → IsBatch h.dcs batch → AreBatches h.dcs found
        → IsBeforeOrAfter (payloads_of h base batches) (batch_bytes batch) file
        → IsTold (payloads_of h base batches) (batch_bytes batch) file → Reads file (payloads_of h other found)
        → (other ≡ base) × ((found ≡ batches) ⊎ (found ≡ batches ++ batch ∷ [])) }
{}

/// What a crash leaves of a file that was being begun anew, the whole file too, may be written over.
pub fn crashes_may_be_left()
    ensures { (h : HeaderValue) (base : Rows) (batches : List Batch) (file : List ℕ) → length h.digest ≡ 32 →
        IsFront (payloads_of h (Some base) batches) file → may_be_left h file ≡ true }
{}
