// Proved examples of definitions of which only premises speak: what each holds of, and what it doesn't.

ghost use Rattle.std.specs.Prelude.{◌≡◌, ◌≢◌, ◌<◌, ◌≤◌, [], ◌∷◌, ◌++◌, ℕ, List, length};
ghost use Rattle.access_slots.specs.declared.op.Wire.{Wire as WireValue};
ghost use Rattle.history.specs.Flight.{given};
ghost use Rattle.frame_file.specs.Device.{Torn};
ghost use Rattle.frame_file.specs.Frame.{frames_from, ArePayloads};
ghost use Rattle.frame_file.specs.Reading.{Reads};
ghost use Rattle.log_file.specs.declared.header.Header.{Header};
ghost use Rattle.log_file.specs.Bytes.{Batch, notes_of as notes_in, rows_of};
ghost use Rattle.log_file.specs.Reading.{last_known};
ghost use Rattle.tc_world.specs.Whole.{Whole};
ghost use Rattle.tc_world.specs.Ahead.{Written};
ghost use Rattle.tc_world.specs.declared.step.Step.{Step as StepValue};
ghost use Rattle.tc_world.specs.declared.step.Step.TheVariants as step;
ghost use Rattle.engine_recovery.specs.Telling.{Contents, payloads_in, FileTells, IsRead};
ghost use Rattle.engine_recovery.specs.Engine.{Engine, MayBeKilled, Writing, Appends, TakesInMemory, IsBeingWritten};
ghost use Rattle.engine_recovery.specs.Engine.{GoesAhead, Turns, Killed, KilledWriting};
ghost use Rattle.engine_recovery.specs.Since.{TellsSince};
ghost use Rattle.engine_recovery.specs.Examples.{header_alone, nothing_written, begun, no_news};

/// A file with a header alone tells that nothing was written, and an engine with it, to which nothing has happened,
/// may be killed. None with rows does, nor one whose last notes are others.
pub fn files_that_tell()
    ensures begun { (h : Header) → FileTells h header_alone (nothing_written h) }
    ensures fresh { (h : Header) (rows ops : ℕ) → MayBeKilled h (begun h rows ops) }
    ensures rows { (h : Header) (f : Contents) (p : Written) (b : ℕ) (bytes : List ℕ)
        → rows_of f.batches ≡ b ∷ bytes → p.events ≡ []
        → FileTells h f p → ⊥ }
    ensures notes { (h : Header) (f : Contents) (p : Written) → last_known h.dcs (notes_in f.batches) ≢ p.notes
        → FileTells h f p → ⊥ }
    ensures other { (h : Header) (bytes : List ℕ) (f : Contents) (p : Written) (found : List (List ℕ))
        → Reads bytes found
        → found ≢ payloads_in h f → IsRead h bytes f p → ⊥ }
{}

/// An engine doesn't write ahead that carries a wire whose number isn't in its file, or takes back what the file has.
/// What a data component does isn't in memory, nor is a cut. What is being appended is no more than the log has.
pub fn engines_that_do_not()
    ensures unwritten { (h : Header) (x : StepValue) (y : Writing) (e f : Engine) (w : WireValue)
        (ws : List WireValue) → f.world.copies ≡ w ∷ ws
        → given f.written.events < w.number → GoesAhead h x y e f → ⊥ }
    ensures taken_back { (h : Header) (x : StepValue) (more : List Batch) (e f : Engine)
        → f.file.batches ≢ e.file.batches ++ more
        → GoesAhead h x (Appends more) e f → ⊥ }
    ensures performed { (place : ℕ) (w v : Whole) → TakesInMemory (step.Perform place ∷ []) w v → ⊥ }
    ensures cut { (w v : Whole) → TakesInMemory (step.Cut ∷ []) w v → ⊥ }
    ensures not_logged { (h : Header) (b : Batch) (e : Engine) (next : Written) (w : Whole) → w.core.events ≡ []
        → next.events ≢ []
        → IsBeingWritten h b e next w → ⊥ }
{}

/// Engines that come back: one that has just made its file, whose header fits in a frame, killed at rest, and while
/// it appends a batch, of which the crash leaves a hole of one byte. Of a world in which nothing has happened since,
/// a batch of nothing tells all.
pub fn engines_that_come_back()
    ensures at_rest { (h : Header) (rows ops : ℕ) → ArePayloads (payloads_in h header_alone)
        → (e : Engine)
        × Turns h (Killed [] (frames_from 0 (payloads_in h header_alone) ++ []) ∷ []) (begun h rows ops) e }
    ensures within { (h : Header) (rows ops : ℕ) → ArePayloads (payloads_in h header_alone)
        → (e : Engine)
        × Turns h (KilledWriting [] no_news [] (frames_from 0 (payloads_in h header_alone) ++ 0 ∷ []) ∷ [])
        (begun h rows ops) e }
    ensures since { (h : Header) (w : Whole) → TellsSince h.dcs w w no_news }
{}

/// Disks tear what is appended: a crash may leave its first bytes, or a hole.
pub fn appends_that_tear()
    ensures part { Torn (1 ∷ 2 ∷ []) [] (1 ∷ []) }
    ensures hole { (bytes old : List ℕ) → 1 ≤ length bytes → Torn bytes old (old ++ 0 ∷ []) }
{}
