// An open transaction, as it is kept.

ghost use Rattle.std.specs.Prelude.{◌≡◌, ◌↔◌, ◌+◌, ◌-◌, ◌*◌, ◌<◌, ◌≤◌, ◌||◌, ℕ, true, false, IfOk, IsTrue};
ghost use Rattle.std.specs.Prelude.{List, [], ◌∷◌, ◌++◌, length, Option, Some, None};
ghost use Rattle.access_slots.specs.declared.op.Op.{Op};
ghost use Rattle.access_slots.specs.declared.op.Said.{Said};
ghost use Rattle.access_slots.specs.Access as Access;
ghost use Rattle.access_slots.specs.Access.{is_no_room};
ghost use Rattle.transactions.specs.Standing.{Standing, rest_of, told_to, found_full, undo_done, tries_done, answered};
ghost use Rattle.transactions.specs.Reached.{calls_in};
ghost use Rattle.tc_core.specs.GivingUp.{Awaits};
ghost use Rattle.tc_core.specs.Joining.Hearing.{MayHear, Accepts};
ghost use Rattle.tc_core.specs.Joining.Sends.{asking_under, undoing_under};
ghost use Rattle.tc_core.specs.Kept.{Keeps};
ghost use Rattle.semantics.specs.Reach.{AreArguments};
ghost use Rattle.transactions.specs.Legal.{first_undo};
ghost use Rattle.transactions.specs.Next.{next_by, ends_or_undoes};
ghost use Rattle.tc_core.specs.Running.{Runs, MayResume, as_reached, as_next, does};
ghost use Rattle.tc_core.specs.Replies.{over_in};

use crate::undos::Undos;
use access_slots::op::{Op, Reply, Said, fits};
use interpreter::layout::Layout;
use interpreter::machine::Machine;
use interpreter::pause::Pause;
use std::alloc::{AllocError, Global};
use tc_log::event::Outcome;
use transactions::Sent;
use verifier::verify::Verified;

/// An open transaction: its procedure's machine, and where that stands. It is large, so it stays in one
/// place from its begin on, and the next one begins there.
#[derive(Drop)]
pub struct Tx {
    pub serial: u64,
    // The place of its procedure among those that are loaded.
    pub proc: usize,
    pub machine: Machine,
    // Where its run stands: at a question, or at its end.
    pub pause: Pause,
    // What it waits for an answer to.
    pub sent: Option<Sent>,
    // Whether a data component had no room for a write: all its writes are then undone.
    pub full: bool,
    // What undoes its writes that stand, the last one first.
    pub undo: Undos,
    // How many numbers the undo at hand was sent under.
    pub tries: u64,
    // The number that it was given last; 0 before the first.
    pub last: u64,
    // How many numbers it may still be given.
    pub left: u64,
    // Whether the number that it waits for was given up.
    pub in_doubt: bool,
}

/// How many call slots the code has, at most as many as slots.
#[inline(always)]
pub fn calls_of(code: &Verified) -> usize
    ensures calls { result ≡ calls_in code.now }
    ensures few { result ≤ 4096 }
{
    let _code = code.code();
    code.calls()
}

impl Tx {
    /// A place for a transaction to begin in: none yet. It takes no memory.
    pub fn blank(alloc: Global) -> Tx
        ensures { (result.serial ≡ 0) × (result.sent ≡ None) }
    {
        Tx {
            serial: 0,
            proc: 0,
            machine: Machine::blank(),
            pause: Pause::Exit(0),
            sent: None,
            full: false,
            undo: Undos::new(alloc),
            tries: 0,
            last: 0,
            left: 0,
            in_doubt: false,
        }
    }

    /// It begins, whatever it was before, and has run to its first question or its end.
    #[inline(always)]
    pub fn begin(&mut self, code: &Verified, serial: u64, proc: usize, args: &[u64], undo: Undos)
        requires { length args.now ≡ code.now.decl.args }
        ensures runs { Runs code.now self.new args.now [] }
        ensures takes { AreArguments code.now.decl args.now }
        ensures names { (self.new.serial ≡ serial) × (self.new.proc ≡ proc) }
        ensures fresh { (self.new.sent ≡ None) × (self.new.full ≡ false) × (self.new.tries ≡ 0) × (self.new.last ≡ 0) }
        ensures room { (self.new.undo ≡ undo) × (self.new.left ≡ 5 * calls_in code.now) }
        ensures certain { self.new.in_doubt ≡ false }
    {
        self.machine.restart(code, args, Layout::plain());
        self.pause = self.machine.resume(code, None);
        self.serial = serial;
        self.proc = proc;
        self.sent = None;
        self.full = false;
        self.undo = undo;
        self.tries = 0;
        self.last = 0;
        self.left = 5 * calls_of(code) as u64;
        self.in_doubt = false;
    }

    /// Its run goes on with what was said to its question.
    #[inline(always)]
    pub fn resume(&mut self, code: &Verified, said: &Said)
        requires room { is_no_room said.now ≡ false }
        requires asked { (args : List ℕ) × (answers : List Said) × (o : Op) × MayResume code.now self.old args answers o said.now }
        ensures runs { (args : List ℕ) (answers : List Said) (o : Op) → MayResume code.now self.old args answers o said.now →
            Runs code.now self.new args (answers ++ said.now ∷ []) }
        ensures rest { self.new ≡ record self.old { machine = self.new.machine; pause = self.new.pause } }
    {
        self.pause = self.machine.resume(code, Some(*said));
    }
}

/// What a transaction does next, as [`transactions::Next`] says it, with the operation where it stands.
#[derive(Clone, Copy)]
pub enum NextStep<'a> {
    /// It waits for the answer to the request with this number.
    Waits(u64),
    /// It asks for this operation.
    Asks(&'a Op),
    /// It is to be undone, first by this operation.
    Undoes(&'a Op),
    /// A write couldn't be undone under four numbers, of which this is the last.
    Stuck(u64),
    /// Nothing is left to do: it ends so.
    Over(Outcome),
}

impl Tx {
    // The next write to be undone, four times at most, or the end.
    fn undoes_or_ends(&self, outcome: Outcome) -> NextStep<'_>
        ensures { as_next result ≡ ends_or_undoes (first_undo self.now.undo.ops) self.now.tries self.now.last outcome }
    {
        match self.undo.first() {
            None => NextStep::Over(outcome),
            Some(op) => {
                if self.tries < 4 {
                    NextStep::Undoes(op)
                } else {
                    NextStep::Stuck(self.last)
                }
            }
        }
    }

    /// What it does next.
    #[inline(always)]
    pub fn next(&self) -> NextStep<'_>
        ensures { next_by self.now.sent self.now.full (first_undo self.now.undo.ops) self.now.tries self.now.last
            (as_reached self.now.pause) ≡ Some (as_next result) }
    {
        if let Some(sent) = &self.sent {
            return NextStep::Waits(sent.number);
        }
        if self.full {
            return self.undoes_or_ends(Outcome::NoRoom);
        }
        match &self.pause {
            Pause::Ask(op) => NextStep::Asks(op),
            Pause::Exit(value) => {
                if *value == 0 {
                    NextStep::Over(Outcome::Committed)
                } else {
                    self.undoes_or_ends(Outcome::Aborted(*value))
                }
            }
        }
    }

    /// It waits for the answer to its question.
    #[inline(always)]
    pub fn send(&mut self, number: u64, op: &Op)
        requires { 1 ≤ self.old.left }
        ensures { self.new ≡ asking_under number op.now self.old }
    {
        self.sent = Some(Sent {
            number,
            op: *op,
            undoing: false,
        });
        self.last = number;
        self.left -= 1;
        self.in_doubt = false;
    }
}

fn is_no_room(said: &Said) -> bool
    ensures { result ≡ Access.is_no_room said.now }
{
    matches!(said, Said::NoRoom)
}

// What undoes a write that was done is the first to be undone.
#[inline(always)]
fn wrote(undo: &mut Undos, op: &Op, said: &Said)
    requires { 0 < undo.old.room }
    ensures ops { undo.new.ops ≡ undo_done false op.now said.now undo.old.ops }
    ensures room { length undo.new.ops + undo.new.room ≡ length undo.old.ops + undo.old.room }
{
    let Said::Done(former) = said else {
        return;
    };
    match op {
        Op::Read(_) => {}
        Op::Insert(record, _) => undo.push(Op::Delete(*record)),
        Op::Update(record, _) => {
            if let Some(value) = former {
                undo.push(Op::Update(*record, *value));
            }
        }
        Op::Delete(record) => {
            if let Some(value) = former {
                undo.push(Op::Insert(*record, *value));
            }
        }
    }
}

impl Tx {
    // A write was undone, or is to be tried again.
    fn undo_heard(&mut self, said: &Said)
        ensures ops { (o : Op) → self.new.undo.ops ≡ undo_done true o said.now self.old.undo.ops }
        ensures tries { self.new.tries ≡ tries_done true said.now self.old.tries }
        ensures room { length self.new.undo.ops + self.new.undo.room ≡ length self.old.undo.ops + self.old.undo.room }
        ensures rest { self.new ≡ record self.old { undo = self.new.undo; tries = self.new.tries } }
    {
        if let Said::Done(_) = said {
            self.undo.pop();
            self.tries = 0;
        }
    }

    // The run goes on with what was said to its question, unless an insert found no room.
    #[inline(always)]
    fn told(&mut self, code: &Verified, said: &Said)
        requires { (args : List ℕ) × (answers : List Said) × (o : Op) × MayResume code.now self.old args answers o said.now }
        ensures runs { (args : List ℕ) (answers : List Said) (o : Op) → MayResume code.now self.old args answers o said.now →
            Runs code.now self.new args (told_to false said.now answers) }
        ensures full { self.new.full ≡ (self.old.full || found_full false said.now) }
        ensures rest { self.new ≡ record self.old { machine = self.new.machine; pause = self.new.pause; full = self.new.full } }
    {
        if is_no_room(said) {
            self.full = true;
            return;
        }
        self.resume(code, said);
    }

    /// Takes in what was said to the operation that it waits for.
    #[inline(always)]
    pub fn hear(&mut self, code: &Verified, said: &Said)
        requires { (s : Standing) × MayHear code.now self.old s said.now }
        ensures keeps { (s : Standing) → MayHear code.now self.old s said.now → Keeps code.now self.new (answered said.now s) }
        ensures serial { self.new.serial ≡ self.old.serial }
        ensures certain { self.new.in_doubt ≡ false }
    {
        self.in_doubt = false;
        let Some(sent) = &self.sent else {
            return;
        };
        if sent.undoing {
            self.undo_heard(said);
        } else {
            wrote(&mut self.undo, &sent.op, said);
            self.told(code, said);
        }
        self.sent = None;
    }
}

impl Tx {
    /// It asks this under this number, and takes in at once what was said to it: as it is behind [`Tx::send`]
    /// and [`Tx::hear`].
    #[inline(always)]
    pub fn hear_at_once(&mut self, code: &Verified, number: u64, op: &Op, said: &Said)
        requires idle { self.old.sent ≡ None }
        requires left { 1 ≤ self.old.left }
        requires hears { (s : Standing) × MayHear code.now (asking_under number op.now self.old) s said.now }
        ensures keeps { (s : Standing) → MayHear code.now (asking_under number op.now self.old) s said.now
            → Keeps code.now self.new (answered said.now s) }
        ensures serial { self.new.serial ≡ self.old.serial }
        ensures certain { self.new.in_doubt ≡ false }
    {
        self.last = number;
        self.left -= 1;
        self.in_doubt = false;
        wrote(&mut self.undo, op, said);
        self.told(code, said);
    }
}

// How it ends that has nothing else to do.
#[inline(always)]
fn over(next: NextStep<'_>) -> Option<Outcome>
    ensures { result ≡ over_in (Some (as_next next.entry)) }
{
    match next {
        NextStep::Waits(_) => None,
        NextStep::Asks(_) => None,
        NextStep::Undoes(_) => None,
        NextStep::Stuck(_) => None,
        NextStep::Over(outcome) => Some(outcome),
    }
}

impl Tx {
    /// How it ends, if it may end.
    #[inline(always)]
    pub fn ending(&self) -> Option<Outcome>
        ensures { result ≡ over_in (does self.now) }
    {
        over(self.next())
    }

    /// Whether it waits for this number and operation.
    pub fn awaits(&self, number: u64, op: &Op) -> bool
        ensures { IsTrue result ↔ Awaits self.now number op.now }
    {
        let Some(sent) = &self.sent else {
            return false;
        };
        sent.number == number && sent.op == *op
    }

    /// Whether it waits for this request, and the reply is one to it.
    #[inline(always)]
    pub fn accepts(&self, number: u64, op: &Op, reply: &Reply) -> bool
        ensures { IsTrue result ↔ Accepts self.now number op.now reply.now.number reply.now.said }
    {
        let Some(sent) = &self.sent else {
            return false;
        };
        sent.number == number && sent.op == *op && reply.number == number && fits(op, &reply.said)
    }

    /// It waits for the answer to an undo.
    pub fn send_undo(&mut self, number: u64, op: &Op)
        requires left { 1 ≤ self.old.left }
        requires tries { self.old.tries < 4 }
        ensures { self.new ≡ undoing_under number op.now self.old }
    {
        self.sent = Some(Sent {
            number,
            op: *op,
            undoing: true,
        });
        self.tries += 1;
        self.last = number;
        self.left -= 1;
        self.in_doubt = false;
    }
}
