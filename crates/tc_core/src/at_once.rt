// A transaction whose questions are answered at once.

ghost use Rattle.std.specs.Prelude.{◌≡◌, ◌+◌, ℕ, List, ◌∷◌, true, false, None, Some, Ok, IfSome};
ghost use Rattle.access_slots.specs.Access.{fits};
ghost use Rattle.access_slots.specs.declared.op.Wire.{Wire as WireValue};
ghost use Rattle.verifier.specs.Checked.{Checked};
ghost use Rattle.slab.specs.Slab.{get, ContainsKey};
ghost use Rattle.tc_log.specs.declared.event.Event.TheVariants.{Ask, Answer};
ghost use Rattle.transactions.specs.declared.Next.TheVariants as Next;
ghost use Rattle.transactions.specs.InFlight.{site_of};
ghost use Rattle.transactions.specs.Legal.{Legal};
ghost use Rattle.tc_core.specs.AtOnce.{HasRunAtOnce, IsAllSent};
ghost use Rattle.tc_core.specs.Core.{Asking};
ghost use Rattle.tc_core.specs.Kept.{IsBook, core_of};
ghost use Rattle.tc_core.specs.Lent.{wire_of};
ghost use Rattle.tc_core.specs.Loaded.{Loaded};
ghost use Rattle.tc_core.specs.Replies.{ask_reply, after_ask};
ghost use Rattle.tc_core.specs.Running.{does};
ghost use Rattle.tc_core.specs.Joining.Answering.{MayHearAtOnce, IsAnsweredAtOnce};
ghost use Rattle.tc_core.specs.declared.state.Asked.TheVariants.{Request as Requests};
ghost use Rattle.tc_core.specs.declared.transaction.Tx.{Tx as TxValue};

use crate::book::Book;
use crate::sites::site_of;
use crate::state::{Asked, TcState, TxnId};
use crate::transaction::NextStep;
use access_slots::op::{Reply, Said, Wire, fits};
use tc_log::event::Event;
use verifier::verify::Verified;

// A run has no loop, and at most so many slots of code: it asks no more questions.
const MOST_QUESTIONS: usize = 4096;

/// Who performs an operation there and then, or doesn't.
pub trait Performer {
    ghost use Rattle.access_slots.specs.declared.op.Wire.{Wire};

    /// What is known of each wire that is to be performed.
    ghost sent: { Wire → Type 0 };

    /// What came back for the wire, if anything did.
    fn perform(&self, wire: &Wire) -> Option<Reply>
        requires { sent wire.now };
}

// Whether the reply is one to the wire, and fits its operation.
#[inline(always)]
fn is_answered(wire: &Wire, reply: &Reply) -> bool
    ensures number { result ≡ true → reply.now.number ≡ wire.now.number }
    ensures incarnation { result ≡ true → wire.now.incarnation ≡ reply.now.incarnation }
    ensures fit { result ≡ true → fits wire.now.op reply.now.said ≡ true }
{
    reply.number == wire.number
        && reply.incarnation == wire.incarnation
        && fits(&wire.op, &reply.said)
}

impl Book {
    // What would be sent for what the transaction at a key asks next, under the next number, where it asks and its
    // data component is up.
    #[inline(always)]
    fn next_wire(&self, key: usize) -> Option<Wire>
        requires book { (ps : List Checked) × IsBook ps self.now }
        requires key { ContainsKey self.now.txns key }
        ensures asks { IfSome result (λ w. (tx : TxValue) → get self.now.txns key ≡ Some tx → does tx ≡ Some (Next.Asks w.op)) }
        ensures number { IfSome result (λ w. w.number ≡ self.now.numbers.last + 1) }
        ensures up { IfSome result (λ w. (site_of self.now.sites.items w.op).redo ≡ None) }
        ensures incarnation { IfSome result (λ w. (site_of self.now.sites.items w.op).incarnation ≡ w.incarnation) }
        ensures sent { IfSome result (λ w. (p : Loaded) (t : ℕ) →
            wire_of (core_of p self.now) (record { txn = t; number = w.number; op = w.op }) ≡ Ok w) }
    {
        let NextStep::Asks(op) = self.txns.at(key).next() else {
            return None;
        };
        let site = site_of(self.sites.as_slice(), op);
        match site.redo {
            Some(_) => None,
            None => Some(Wire {
                number: self.numbers.last() + 1,
                low_water: self.numbers.low_water(),
                incarnation: site.incarnation,
                redo: false,
                op: *op,
            }),
        }
    }

    // The transaction at a key asks, under the wire's number, and takes in what was said to that: two events.
    #[inline(always)]
    fn answered_at_once(&mut self, key: usize, code: &Verified, wire: &Wire, said: &Said)
        requires { (ps : List Checked) × MayHearAtOnce ps self.old key code.now wire.now said.now }
        ensures kept { (ps : List Checked) → MayHearAtOnce ps self.old key code.now wire.now said.now → IsBook ps self.new }
        ensures events { (tx : TxValue) → get self.old.txns key ≡ Some tx → self.new.log.events ≡
            Answer tx.serial wire.now.number said.now ∷ Ask tx.serial wire.now.number wire.now.op ∷ self.old.log.events }
        ensures given_up { self.new.given_up ≡ self.old.given_up }
        ensures sites { self.new.sites ≡ self.old.sites }
    {
        let txn = self.txns.at(key).serial;
        let number = wire.number;
        self.numbers.pass();
        self.txns.hear_at_once(key, code, number, &wire.op, said);
        self.log.push(Event::Ask {
            txn,
            number,
            op: wire.op,
        });
        self.log.push(Event::Answer {
            txn,
            number,
            said: *said,
        });
        self.owed -= 2;
        self.promised -= 1;
    }
}

impl TcState {
    // Has what the transaction asks next performed, and takes in what came back, where that answers it. Nothing
    // else changes: no request is made.
    #[inline(always)]
    fn ask_at_once<P: Performer>(&mut self, txn: TxnId, performer: &P) -> bool
        requires { (r : Asking) (w : WireValue) → ask_reply self.old txn.serial ≡ Requests r
            → Legal self.old.procs (after_ask self.old (Requests r)).events → wire_of (after_ask self.old (Requests r)) r ≡ Ok w → P.sent w }
        ensures answered { result ≡ true → IsAnsweredAtOnce txn.serial self.old self.new }
        ensures same { result ≡ false → self.new ≡ self.old }
    {
        let Some(key) = self.book.txns.find(txn.serial) else {
            return false;
        };
        let Some(wire) = self.book.next_wire(key) else {
            return false;
        };
        let Some(reply) = performer.perform(&wire) else {
            return false;
        };
        if !is_answered(&wire, &reply) {
            return false;
        }
        let code = self.procs.at(self.book.txns.at(key).proc);
        self.book.answered_at_once(key, code, &wire, &reply.said);
        true
    }

    /// Runs the transaction for as long as its questions are answered at once: what [`TcState::ask`],
    /// [`TcState::wire`], who performs, and [`TcState::answer`] give, one after the other. Answers what `ask` does
    /// then: a request that isn't answered at once is open, and handed back.
    pub fn run_at_once<P: Performer>(&mut self, txn: TxnId, performer: &P) -> Asked
        requires { IsAllSent P.sent txn.serial self.old }
        ensures { HasRunAtOnce txn.serial self.old self.new result }
    {
        'questions: for _ in 0..MOST_QUESTIONS {
            if !self.ask_at_once(txn, performer) {
                break;
            }
        }
        self.ask(txn)
    }
}
