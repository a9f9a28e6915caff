//! Which histories of a transaction component are legal, and what follows for all of them.
//!
//! ```text
//! -- in a proof file: who holds a legal log has that what is in flight is covered and without conflict
//! use Rattle.transactions.proofs.Restarts.{in_flight_covered, in_flight_apart}
//! ```
//!
//! (So `tc_world` proves `World::run`, in its `proofs/Running.antt`.)
//!
//! The definitions are in `specs/`. `Standing` says where a transaction stands, as one function of
//! the log; `Reached` where its procedure's run stands on its answers; `Next` what it does next, as
//! one function, and [`Next`] is that answer as code sees it; `Legal` which event may come, by a
//! record for each kind; `Room` what open transactions may still do; `Sending` what a log sends;
//! `Rows` for which procedures each event is printed with a row. The functions here do nothing: each
//! is a law, told by its contract. A caller calls it where its proof needs the law, or cites the lemma
//! that the attribute above it names.
#![tactic(auto)]

ghost use Rattle.std.specs.Prelude.{◌≡◌, ◌≢◌, ◌↔◌, ◌+◌, ◌*◌, ◌<◌, ◌≤◌, ◌^◌, ◌++◌, [], ◌∷◌, ℕ, List, Some, true, false, reverse};
ghost use Rattle.std.specs.List.{flat_map};
ghost use Rattle.access_slots.specs.declared.op.Op.{Op as Operation};
ghost use Rattle.access_slots.specs.declared.slot.Record.{Record as RecordValue};
ghost use Rattle.access_slots.specs.Locks.{allows, target, is_read, conflict};
ghost use Rattle.history.specs.Calls.{admitted, held, held_for, call_of};
ghost use Rattle.history.specs.Anew.{anew};
ghost use Rattle.history.specs.Flight.{Flight, given, open_op, AllAnswered, low_water};
ghost use Rattle.history.specs.Redo.{to_redo, IsToRedo};
ghost use Rattle.history.specs.Places.{StandsAt};
ghost use Rattle.tc_log.specs.Printed.{printed};
ghost use Rattle.tc_log.specs.Reading.{ArePrinted};
ghost use Rattle.tc_log.specs.declared.event.Event.{Event};
ghost use Rattle.tc_log.specs.declared.event.Event.TheVariants.{Admit};
ghost use Rattle.tc_log.specs.declared.event.Outcome.{Outcome as HowEnded};
ghost use Rattle.verifier.specs.Checked.{Checked};
ghost use Rattle.transactions.specs.Standing.{Standing, standing};
ghost use Rattle.transactions.specs.Reached.{calls, decls, AllGood};
ghost use Rattle.transactions.specs.Legal.{Legal, Allowed, CanAsk, CanUndo, CanEnd};
ghost use Rattle.transactions.specs.Next.{next_in};
ghost use Rattle.transactions.specs.Alike.{IsAtRest, AreAlike};
ghost use Rattle.transactions.specs.Room.{total};
ghost use Rattle.transactions.specs.Rows.{AllTakeFew};
ghost use Rattle.transactions.specs.Sending.{IsSentBehind};
ghost use Rattle.transactions.specs.InFlight.{InFlight};
ghost use Rattle.transactions.specs.declared.Site.{Site as SiteValue};
ghost use Rattle.transactions.specs.declared.Sent.{Sent as SentValue};
ghost use Rattle.transactions.specs.declared.Next.{Next as NextValue};

use access_slots::op::Op;
use tc_log::event::Outcome;

/// An operation that was sent under a number, and whether it undoes a write.
#[derive(Clone, Copy, Debug, PartialEq, Eq)]
pub struct Sent {
    pub number: u64,
    pub op: Op,
    pub undoing: bool,
}

/// How far the redo of a data component is: the mark above which it began, and the last number that
/// was redone since, the mark itself at first.
#[derive(Clone, Copy, Debug, PartialEq, Eq)]
pub struct Redoing {
    pub mark: u64,
    pub redone: u64,
}

/// What is known of a data component: its incarnation, and where it is down, from when its restart is
/// told until its redo ends, how far that is.
#[derive(Clone, Copy, Debug, PartialEq, Eq)]
pub struct Site {
    pub incarnation: u64,
    pub redo: Option<Redoing>,
}

/// What an open transaction does next.
#[derive(Clone, Copy, Debug, PartialEq, Eq)]
pub enum Next {
    /// It waits for this number's answer.
    Waits(u64),
    /// It asks for this operation.
    Asks(Op),
    /// It is to be undone, and this undoes its last write that stands.
    Undoes(Op),
    /// This write was sent four times, the last under this number, and wasn't done.
    Stuck(u64),
    /// It ends so.
    Over(Outcome),
}

/// Behind every legal history, an open transaction was given at most five numbers for each call
/// slot of its procedure: one to ask, and four to undo.
#[tactic(auto, using(crate::proofs::Laws::numbers_suffice))]
pub fn numbers_suffice()
    ensures { (ps : List Checked) (h : List Event) → AllGood ps → Legal ps h → (t : ℕ) (s : Standing) → standing h t ≡ Some s
        → s.used ≤ 5 * calls ps s.call.proc }
{}

/// Behind every legal history, each operation in flight is covered by its transaction's locks.
#[tactic(auto, using(crate::proofs::Headline::flight_covered))]
pub fn all_covered()
    ensures { (ps : List Checked) (h : List Event) → AllGood ps → Legal ps h → (n : ℕ) (f : Flight) → open_op h n ≡ Some f
        → allows (held (decls ps) h f.txn (target f.op)) (is_read f.op) ≡ true }
{}

/// And no two of them conflict.
#[tactic(auto, using(crate::proofs::Headline::flights_apart))]
pub fn none_conflict()
    ensures { (ps : List Checked) (h : List Event) → AllGood ps → Legal ps h → (m n : ℕ) (f g : Flight) → open_op h m ≡ Some f
        → open_op h n ≡ Some g → m ≢ n → conflict f.op g.op ≡ false }
{}

/// A legal history stays legal when one more procedure is loaded.
#[tactic(auto, using(crate::proofs::Grows::legal_grows))]
pub fn loading_keeps_legal()
    ensures { (ps : List Checked) (q : Checked) (h : List Event) → AllGood ps → Legal ps h → Legal (ps ++ q ∷ []) h }
{}

/// What a transaction waits for was sent behind its admission: where it was admitted at a place of
/// the log, an Ask or an Undo of it with this number and operation stands at a later one.
pub fn waiting_is_sent_behind()
    ensures { (h : List Event) (k t p : ℕ) (xs : List ℕ) (s : Standing) (r : SentValue) → StandsAt h k (Admit t p xs)
        → standing h t ≡ Some s → s.sent ≡ Some r → IsSentBehind h k t r.number r.op }
{}

/// A transaction asks for an operation next exactly where the rule of the log allows the Ask.
#[tactic(auto, using(crate::proofs::Allowing::asks_allowed))]
pub fn asks_where_allowed()
    ensures { (ps : List Checked) (h : List Event) (t : ℕ) (o : Operation) → (next_in ps (standing h t) ≡ Some (NextValue.Asks o))
        ↔ CanAsk ps h t (given h + 1) o }
{}

/// It undoes a write next exactly where the rule of the log allows the Undo.
#[tactic(auto, using(crate::proofs::Allowing::undoes_allowed))]
pub fn undoes_where_allowed()
    ensures { (ps : List Checked) (h : List Event) (t : ℕ) (o : Operation) → (next_in ps (standing h t) ≡ Some (NextValue.Undoes o))
        ↔ CanUndo ps h t (given h + 1) o }
{}

/// It is over, with this outcome, exactly where the rule of the log allows the End.
#[tactic(auto, using(crate::proofs::Allowing::ends_allowed))]
pub fn ends_where_allowed()
    ensures { (ps : List Checked) (h : List Event) (t : ℕ) (o : HowEnded) → (next_in ps (standing h t) ≡ Some (NextValue.Over o))
        ↔ CanEnd ps h t o }
{}

/// Numbers that were all answered stay so, whatever event is allowed next.
#[tactic(auto, using(crate::proofs::LowWater::answered_stay))]
pub fn answered_numbers_stay()
    ensures { (ps : List Checked) (h : List Event) (e : Event) (n : ℕ) → Allowed ps h e → AllAnswered h n → AllAnswered (e ∷ h) n }
{}

/// So the low-water mark never falls.
#[tactic(auto, using(crate::proofs::LowWater::mark_rises))]
pub fn low_water_never_falls()
    ensures { (ps : List Checked) (h : List Event) (e : Event) → Allowed ps h e → low_water h ≤ low_water (e ∷ h) }
{}

/// Behind every legal history, each operation in flight has a number above the low-water mark.
#[tactic(auto, using(crate::proofs::LowWater::flight_above))]
pub fn in_flight_above_low_water()
    ensures { (ps : List Checked) (h : List Event) → Legal ps h → (n : ℕ) (f : Flight) → open_op h n ≡ Some f → low_water h < n }
{}

/// What is to be redone at a data component, if anything is, was done there under the least number
/// above the last one redone.
#[tactic(auto, using(crate::proofs::Restarts::to_redo_is))]
pub fn redone_in_order()
    ensures { (ps : List Checked) (h : List Event) → Legal ps h → (d redone : ℕ) → IsToRedo h d redone (to_redo h d redone) }
{}

/// Behind every legal history, and whatever is known of data components, each operation in flight is
/// covered by the locks of its transaction's call.
pub fn all_in_flight_covered()
    ensures { (ps : List Checked) (h : List Event) (sites : List SiteValue) → AllGood ps → Legal ps h → (n : ℕ) (f : Flight)
        → InFlight h sites n f
        → allows (held_for (decls ps) (call_of h f.txn) (target f.op)) (is_read f.op) ≡ true }
{}

/// And no two of them conflict.
#[tactic(auto, using(crate::proofs::Restarts::in_flight_apart))]
pub fn none_in_flight_conflict()
    ensures { (ps : List Checked) (h : List Event) (sites : List SiteValue) → AllGood ps → Legal ps h → (m n : ℕ) (f g : Flight)
        → InFlight h sites m f → InFlight h sites n g
        → m ≢ n → conflict f.op g.op ≡ false }
{}

/// Each event of a legal log, of procedures that take at most 8 arguments, has a row of 96 bytes: no
/// answer in it is Old, and no abort has the value 0.
#[tactic(auto, using(crate::proofs::Rows::legal_prints))]
pub fn legal_logs_are_printed()
    ensures { (ps : List Checked) (h : List Event) → AllTakeFew ps → Legal ps h → ArePrinted (reverse h) (flat_map printed (reverse h)) }
{}

/// Where no transaction is open, a log may begin anew: behind the one event that it becomes the same is
/// said, whatever follows, as behind the long log.
#[tactic(auto, using(crate::proofs::Alike::anew_alike))]
pub fn beginning_anew_is_alike()
    ensures { (ps : List Checked) (later h : List Event) → Legal ps h → IsAtRest h → AreAlike (given h) (later ++ h) (later ++ anew h) }
{}

/// And the same may follow.
#[tactic(auto, using(crate::proofs::Alike::legal_anew, crate::proofs::Alike::legal_back))]
pub fn beginning_anew_is_legal()
    ensures short { (ps : List Checked) (later h : List Event) → Legal ps h → IsAtRest h → admitted h ≤ 2 ^ 62 → given h ≤ 2 ^ 62
        → Legal ps (later ++ h) → Legal ps (later ++ anew h) }
    ensures long { (ps : List Checked) (later h : List Event) → Legal ps h → IsAtRest h → Legal ps (later ++ anew h) → Legal ps (later ++ h) }
{}

/// Of logs that are alike, the same locks are held, the low-water mark is the same, so is what open
/// transactions may still do, and above the number what is to be redone.
#[tactic(auto, using(crate::proofs::Alike::held_alike, crate::proofs::Alike::low_water_alike, crate::proofs::Alike::total_alike, crate::proofs::Alike::redo_alike))]
pub fn alike_logs_say_the_same()
    ensures locks { (ps : List Checked) (from : ℕ) (h k : List Event) → AreAlike from h k → (t : ℕ) (r : RecordValue)
        → held (decls ps) h t r ≡ held (decls ps) k t r }
    ensures mark { (from : ℕ) (h k : List Event) → AreAlike from h k → low_water h ≡ low_water k }
    ensures totals { (w : Standing → ℕ) (from : ℕ) (h k : List Event) → AreAlike from h k → total w h ≡ total w k }
    ensures redo { (from : ℕ) (h k : List Event) → AreAlike from h k → (d redone : ℕ) → from ≤ redone → to_redo h d redone ≡ to_redo k d redone }
{}
