// Laws of an engine that writes its log's file ahead.

ghost use Rattle.std.specs.Prelude.{◌≡◌, ◌≢◌, ◌⊎◌, ◌<◌, ◌^◌, [], ◌∷◌, ℕ, List, Some, false, length, map, reverse};
ghost use Rattle.std.specs.List.{fold, flat_map};
ghost use Rattle.tc_log.specs.declared.event.Event.{Event as EventValue};
ghost use Rattle.tc_log.specs.declared.event.Event.TheVariants.{Checkpoint};
ghost use Rattle.tc_log.specs.Printed.{printed};
ghost use Rattle.tc_log.specs.Reading.{AreEvents};
ghost use Rattle.verifier.specs.Checked.{Checked};
ghost use Rattle.history.specs.Places.{Begins};
ghost use Rattle.transactions.specs.Legal.{Legal};
ghost use Rattle.transactions.specs.Reached.{AllGood};
ghost use Rattle.transactions.specs.Rows.{AllTakeFew};
ghost use Rattle.serial.specs.Audit.{IsAgreed};
ghost use Rattle.frame_file.specs.Reading.{Reads};
ghost use Rattle.tc_core.specs.declared.recovery.SiteNote.{SiteNote};
ghost use Rattle.log_file.specs.declared.header.Header.{Header};
ghost use Rattle.log_file.specs.Bytes.{Batch, of_session, notes_of as notes_in, rows_of};
ghost use Rattle.log_file.specs.Reading.{IsStart, IsBehind, IsBatch, AreBatches, with_note, last_known};
ghost use Rattle.tc_world.specs.Whole.{Whole};
ghost use Rattle.tc_world.specs.Steps.{Steps};
ghost use Rattle.tc_world.specs.OneAtATime.{is_forge, EachIsKnown, IsOneAtATime};
ghost use Rattle.tc_world.specs.Recovery.{come_back, notes_of, MayCrash};
ghost use Rattle.tc_world.specs.Lives.{HasLived};
ghost use Rattle.tc_world.specs.Ahead.{Written, all_written, Tells};
ghost use Rattle.tc_world.specs.declared.step.Step.{Step as StepValue};
ghost use Rattle.tc_world.specs.declared.step.Step.TheVariants as step;
ghost use Rattle.tc_world.specs.declared.step.Outcome.{Outcome as OutcomeValue};
ghost use Rattle.engine_log.specs.Notes.{known_of};
ghost use Rattle.engine_log.specs.Handing.{HasHandedOut};
ghost use Rattle.engine_log.specs.Back.{IsBack};
ghost use Rattle.engine_log.specs.declared.ahead.EngineLog.{EngineLog};
ghost use Rattle.engine_log.specs.declared.back.Back.{Back};
ghost use Rattle.engine_recovery.specs.Telling.{Contents, payloads_in, appended, FileTells, IsRead, IsFileOf, IsReadAs};
ghost use Rattle.engine_recovery.specs.Engine.{Engine, MayBeKilled, Writing, written_on, TakesInMemory};
ghost use Rattle.engine_recovery.specs.Engine.{IsBeingWritten, IsCutShort, Turn, Goes, Turns};
ghost use Rattle.engine_recovery.specs.Since.{TellsSince, noted_from};

/// An engine that writes its file ahead, turn by turn, and is killed anywhere, also while it appends, as often as may
/// be. Behind each turn its file tells of all that was carried: so a crash there is possible, what the log says is a
/// legal beginning of the engine's, and it comes back to a world that has lived. In that world calls run one at a
/// time.
pub fn killed_anywhere()
    ensures kept { (h : Header) (turns : List Turn) (e f : Engine) → MayBeKilled h e → Turns h turns e f
        → MayBeKilled h f }
    ensures may { (h : Header) (e : Engine) → MayBeKilled h e → MayCrash (length e.written.events) e.world }
    ensures back { (h : Header) (e : Engine) → MayBeKilled h e
        → HasLived (come_back e.written.events e.written.notes e.world) }
    ensures log { (h : Header) (e : Engine) → MayBeKilled h e
        → Begins e.written.events e.world.core.events × Legal e.world.core.procs e.written.events }
    ensures legal { (h : Header) (e : Engine) → MayBeKilled h e → Legal e.world.core.procs e.world.core.events }
    ensures one_at_a_time { (h : Header) (e : Engine) → MayBeKilled h e → IsOneAtATime e.world }
    ensures agreed { (h : Header) (e : Engine) → MayBeKilled h e → EachIsKnown e.world
        → IsAgreed e.world.core.procs e.world.core.events e.world.dcs }
    // Steps in memory, of which nothing was written, are as if they had not been taken: a restart that it was told too.
    ensures forgotten { (h : Header) (steps : List StepValue) (e : Engine) (w : Whole) → MayBeKilled h e
        → TakesInMemory steps e.world w
        → HasLived w
        × (come_back e.written.events e.written.notes w ≡ come_back e.written.events e.written.notes e.world) }
    // And what is being appended behind them tells of all that is carried, once it is written.
    ensures told { (h : Header) (steps : List StepValue) (b : Batch) (e : Engine) (next : Written) (w : Whole)
        → MayBeKilled h e
        → TakesInMemory steps e.world w → IsBeingWritten h b e next w → Tells next w }
{}

/// What is read of a file, where nothing was being written, is what it tells; and where a batch was being appended,
/// it is the file with the batch or without it.
pub fn files_are_read()
    ensures at_rest { (h : Header) (bytes : List ℕ) (f g : Contents) (p q : Written) → FileTells h f p
        → Reads bytes (payloads_in h f)
        → IsRead h bytes g q → (payloads_in h g ≡ payloads_in h f) × (q ≡ p) }
    ensures while_writing { (h : Header) (bytes : List ℕ) (f g : Contents) (b : Batch) (p next q : Written)
        → FileTells h f p
        → FileTells h (appended f (b ∷ [])) next → IsCutShort h f b bytes → IsRead h bytes g q
        → ((g ≡ f) × (q ≡ p)) ⊎ ((g ≡ appended f (b ∷ [])) × (q ≡ next)) }
{}

/// Which engines do so. Whatever step is taken but a crash, an engine writes ahead whose file tells of the whole log
/// and of all that it knows, before it carries what the step sent; and for that one batch suffices, of what is new.
pub fn may_write_ahead()
    // The file tells so where its batches have just the rows and notes of what was written.
    ensures tells { (h : Header) (f : Contents) (p : Written) (ps : List Checked) → AllTakeFew ps
        → Legal ps p.events → IsStart f.base
        → IsBehind f.base (reverse p.events) → AreBatches h.dcs f.batches → AreEvents (reverse p.events)
        → rows_of f.batches ≡ flat_map printed (reverse p.events) → last_known h.dcs (notes_in f.batches) ≡ p.notes
        → FileTells h f p }
    // Then a world that has lived may be killed, a fresh one too.
    ensures whole { (h : Header) (f : Contents) (w : Whole) → HasLived w → FileTells h f (all_written w)
        → MayBeKilled h (record { file = f; written = all_written w; world = w }) }
    ensures met { (h : Header) (f : Contents) (y : Writing) (w v : Whole) (x : StepValue) (o : OutcomeValue)
        → HasLived w → Steps w x o v
        → is_forge x ≡ false → ((events : ℕ) → x ≢ step.Crash events) → Legal v.core.procs v.core.events
        → AllGood v.core.procs
        → FileTells h (written_on y f) (all_written v) → Turns h (Goes x y v.copies v.replies v.news ∷ [])
        (record { file = f; written = all_written w; world = w })
        (record { file = written_on y f; written = all_written v; world = v }) }
    ensures batch { (h : Header) (f : Contents) (w v : Whole) (b : Batch) → FileTells h f (all_written w)
        → TellsSince h.dcs w v b
        → FileTells h (appended f (b ∷ [])) (all_written v) }
    // Behind a cut a new file suffices, of no base records and one batch with the Checkpoint's row and what is known.
    ensures anew { (h : Header) (v : Whole) (before numbers : ℕ) (b : Batch)
        → v.core.events ≡ Checkpoint before numbers ∷ []
        → before < 2 ^ 64 → numbers < 2 ^ 64 → IsBatch h.dcs b → b.rows ≡ printed (Checkpoint before numbers)
        → last_known h.dcs b.notes ≡ notes_of v
        → FileTells h (record { base = Some []; batches = b ∷ [] }) (all_written v) }
    // There are such notes: those of all data components.
    ensures notes { (known notes : List SiteNote) → length known ≡ length notes
        → fold with_note known (noted_from 0 notes) ≡ notes }
{}

/// An engine that writes what `engine_log` hands out has such a file: what was handed out of a legal log, put
/// together, is a file that tells of just this log and of what was noted last, which with the whole log is all that
/// is known; and what `EngineLog::read` takes of a file's bytes is what is read of them.
pub fn handed_out_tells()
    ensures told { (h : Header) (l : EngineLog) (ps : List Checked) (log : List EventValue) (bytes : List ℕ)
        → AllTakeFew ps → Legal ps log
        → AreEvents (reverse log) → HasHandedOut l bytes (reverse log) → l.header ≡ Some h
        → IsFileOf h bytes (record { events = log; notes = l.notes.items }) }
    ensures known { (w : Whole) → map known_of w.core.sites ≡ notes_of w }
    ensures read { (h : Header) (bytes : List ℕ) (b : Back) → IsBack h bytes b
        → IsReadAs (of_session h b.file.session) bytes (record { events = b.log.events; notes = b.file.notes.items }) }
{}
