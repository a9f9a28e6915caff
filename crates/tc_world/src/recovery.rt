//! A transaction component that crashes, and comes back from what was written of its log and of what
//! it knew of data components. There is no code here but the laws, as functions that do nothing.
//!
//! The rule is to write ahead. A wire is carried once all of the log behind which it was made is
//! written; that a data component has restarted, or that its redo is over, is written before anything
//! that rests on it is carried. Then every crash finds written all that was carried, and a
//! transaction component that comes back goes on as if it had never been away. Data components that
//! die with it ask for nothing of that: new ones that have restarted stand in their places.
//!
//! ```text
//! -- in a proof file: the marks of a world that came back
//! use Rattle.tc_world.proofs.ComingBack.{come_back_low}
//! ```

ghost use Rattle.std.specs.Prelude.{◌≡◌, ◌≢◌, ℕ, false, List, [], ◌∷◌, length};
ghost use Rattle.std.specs.List.{All};
ghost use Rattle.access_slots.specs.declared.op.Wire.{Wire as WireValue};
ghost use Rattle.access_slots.specs.declared.op.Reply.{Reply as ReplyValue};
ghost use Rattle.access_slots.specs.declared.op.News.{News as NewsValue};
ghost use Rattle.tc_log.specs.declared.event.Event.{Event as EventValue};
ghost use Rattle.verifier.specs.Checked.{Checked};
ghost use Rattle.history.specs.Flight.{low_water};
ghost use Rattle.history.specs.Places.{Begins};
ghost use Rattle.data_component.specs.Store.{Store};
ghost use Rattle.transactions.specs.Legal.{Legal};
ghost use Rattle.transactions.specs.Reached.{AllGood};
ghost use Rattle.serial.specs.Audit.{IsAgreed};
ghost use Rattle.tc_core.specs.declared.recovery.SiteNote.{SiteNote};
ghost use Rattle.tc_world.specs.Whole.{Whole};
ghost use Rattle.tc_world.specs.Steps.{Steps};
ghost use Rattle.tc_world.specs.Marks.{AreMarksLow, IsFresh};
ghost use Rattle.tc_world.specs.OneAtATime.{is_forge, EachIsKnown, IsOneAtATime};
ghost use Rattle.tc_world.specs.Recovery.{IsWrittenFor, AreNoted, IsWritten, come_back, MayCrash, IsNew, StandFor, start_over};
ghost use Rattle.tc_world.specs.Ahead.{Written, all_written, Tells, Grows, Turn, Goes, WritesAhead};
ghost use Rattle.tc_world.specs.Lives.{AreAmong, left_with, HasLived};
ghost use Rattle.tc_world.specs.declared.step.Step.{Step as StepValue};
ghost use Rattle.tc_world.specs.declared.step.Step.TheVariants as step;
ghost use Rattle.tc_world.specs.declared.step.Outcome.{Outcome as OutcomeValue};

/// Whatever happened to a world since it was fresh, and however often its transaction component crashed
/// and came back, as long as each crash found written all that was carried, or the data components died
/// too and new ones were restarted: its log is legal, its marks are low, calls run one at a time, and
/// where each data component is up and of the incarnation that is known, the log and the data
/// components agree in all that an audit compares.
pub fn crashes_are_survived()
    ensures legal { (w : Whole) → HasLived w → Legal w.core.procs w.core.events }
    ensures marks { (w : Whole) → HasLived w → AreMarksLow w }
    ensures one_at_a_time { (w : Whole) → HasLived w → IsOneAtATime w }
    ensures agreed { (w : Whole) → HasLived w → EachIsKnown w → IsAgreed w.core.procs w.core.events w.dcs }
{}

/// What a world lives through: it is fresh; it takes steps, no reply forged (`World::run`); messages are
/// lost; its transaction component crashes and comes back; its data components die too.
pub fn lives_on()
    ensures fresh { (w : Whole) → IsFresh w → AllGood w.core.procs → HasLived w }
    ensures lost { (w : Whole) (xs : List WireValue) (rs : List ReplyValue) (ns : List (ℕ × NewsValue)) → AreAmong xs w.copies
        → AreAmong rs w.replies → AreAmong ns w.news → HasLived w → HasLived (left_with xs rs ns w) }
    ensures back { (w : Whole) (first : List EventValue) (notes : List SiteNote) → IsWritten first notes w → HasLived w
        → HasLived (come_back first notes w) }
    ensures over { (w : Whole) (first : List EventValue) (dcs : List Store) → Begins first w.core.events → All (IsNew first) dcs
        → StandFor dcs w.dcs → HasLived w → HasLived (start_over first dcs w) }
{}

/// A beginning of a legal log is legal; a world whose transaction component comes back from what was
/// written has low marks, and may crash again at once.
pub fn comes_back()
    ensures legal { (ps : List Checked) (first h : List EventValue) → Legal ps h → Begins first h → Legal ps first }
    ensures marks { (w : Whole) (first : List EventValue) (notes : List SiteNote) → IsWritten first notes w
        → AreMarksLow (come_back first notes w) }
    ensures written { (w : Whole) (first : List EventValue) (notes : List SiteNote) → IsWritten first notes w
        → IsWritten first notes (come_back first notes w) }
{}

/// What the rule of writing ahead keeps, step by step. Whatever step is taken: where what was written is written on, up to somewhere in
/// the log behind the step, and then each wire is written for and what is known of data components is noted, all that was carried is
/// written; so it is behind a cut where the log that began anew is written in place of the other; and so it stays when more is written.
pub fn written_ahead()
    ensures fresh { (w : Whole) (notes : List SiteNote) → IsFresh w → AreNoted (low_water w.core.events) w notes
        → IsWritten w.core.events notes w }
    ensures step { (w v : Whole) (x : StepValue) (o : OutcomeValue) (first more : List EventValue) (notes noted : List SiteNote)
        → Legal w.core.procs w.core.events → Legal v.core.procs v.core.events → Steps w x o v → is_forge x ≡ false
        → Grows x first more v.core.events → IsWritten first notes w → All (IsWrittenFor more) v.copies
        → AreNoted (low_water more) v noted → IsWritten more noted v }
    ensures cut { (w v : Whole) (o : OutcomeValue) (first : List EventValue) (notes noted : List SiteNote) → Legal w.core.procs w.core.events
        → Steps w step.Cut o v → IsWritten first notes w → AreNoted (low_water v.core.events) v noted → IsWritten v.core.events noted v }
    ensures wire { (ps : List Checked) (first more : List EventValue) (x : WireValue) → Legal ps more → Begins first more
        → IsWrittenFor first x → IsWrittenFor more x }
    ensures more { (w : Whole) (first more : List EventValue) (notes : List SiteNote) → Legal w.core.procs w.core.events
        → Begins first more → Begins more w.core.events → IsWritten first notes w → IsWritten more notes w }
{}

/// An engine that writes ahead, turn by turn, and is killed anywhere. What it had written tells of all that was carried, so that a crash
/// that finds just this is possible, and the engine comes back from it to a world that has lived. Whatever step is taken but a crash, an
/// engine writes ahead that writes the whole log and all that it knows before it carries what the step sent.
pub fn killed_anywhere()
    // In each world that has lived, the whole log and notes of all that is known tell of all that was carried.
    ensures whole { (w : Whole) → HasLived w → Tells (all_written w) w }
    ensures told { (turns : List Turn) (p q : Written) (w v : Whole) → HasLived w → Tells p w → WritesAhead turns p w q v → Tells q v }
    ensures may { (turns : List Turn) (p q : Written) (w v : Whole) → HasLived w → Tells p w → WritesAhead turns p w q v
        → MayCrash (length q.events) v }
    ensures lived { (turns : List Turn) (p q : Written) (w v : Whole) → HasLived w → Tells p w → WritesAhead turns p w q v → HasLived v }
    ensures back { (turns : List Turn) (p q : Written) (w v : Whole) → HasLived w → Tells p w → WritesAhead turns p w q v
        → HasLived (come_back q.events q.notes v) }
    // So the premises can be met by each step, those that send among them.
    ensures met { (w v : Whole) (x : StepValue) (o : OutcomeValue) → HasLived w → Steps w x o v → is_forge x ≡ false
        → ((events : ℕ) → x ≢ step.Crash events) → Legal v.core.procs v.core.events → AllGood v.core.procs
        → WritesAhead (Goes x (all_written v) v.copies v.replies v.news ∷ []) (all_written w) w (all_written v) v }
    // And by one that is killed behind it, with nothing more written, and nothing carried that the step made.
    ensures unwritten { (w v : Whole) (x : StepValue) (o : OutcomeValue) (p : Written) → Tells p w → Steps w x o v → is_forge x ≡ false
        → ((events : ℕ) → x ≢ step.Crash events) → x ≢ step.Cut → Legal v.core.procs v.core.events → AllGood v.core.procs
        → AreNoted (low_water p.events) (left_with w.copies v.replies v.news v) p.notes
        → WritesAhead (Goes x p w.copies v.replies v.news ∷ []) p w p (left_with w.copies v.replies v.news v) }
{}
