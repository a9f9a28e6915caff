// A transaction's run, run again on the answers of its log.

ghost use Rattle.std.specs.Prelude.{◌≡◌, ◌==◌, if◌then◌else◌, ℕ, [], ◌∷◌, ◌++◌, List, Some, IsSome, true, false, length, slice_get};
ghost use Rattle.access_slots.specs.Access as Access;
ghost use Rattle.access_slots.specs.declared.op.Said.{Said as SaidValue};
ghost use Rattle.tc_log.specs.declared.event.Event.{Event as EventValue};
ghost use Rattle.tc_log.specs.Entered.{seen};
ghost use Rattle.semantics.specs.Step.{register};
ghost use Rattle.verifier.specs.Checked.{Checked};
ghost use Rattle.history.specs.Calls as Calls;
ghost use Rattle.transactions.specs.Standing.{Standing, standing, answered};
ghost use Rattle.call_results.specs.Results as Results;
ghost use Rattle.call_results.specs.Joining.Along.{Runs, MayHear, IsAlong, MayAnswer, Follows, MayFollow};

use access_slots::op::{Op, Said};
use interpreter::layout::Layout;
use interpreter::machine::Machine;
use interpreter::pause::Pause;
use tc_core::procs::Procs;
use tc_log::event::Entry;

/// The run of a transaction's procedure as far as the events of a log lead it, and whether one of its
/// slots holds a record.
#[derive(Drop)]
pub(crate) struct Rerun {
    pub(crate) slot: usize,
    pub(crate) is_open: bool,
    pub(crate) proc: usize,
    pub(crate) machine: Machine,
    pub(crate) pause: Pause,
    // Whether what it waits for undoes a write.
    pub(crate) is_undoing: bool,
    // Whether an insert found no room.
    pub(crate) is_full: bool,
    pub(crate) is_there: bool,
}

// The transaction that an event is of; 0 where it is of none.
fn txn_of(event: &Entry<'_>) -> u64
    ensures { result ≡ Calls.txn_of (seen event.now) }
{
    match event {
        Entry::Admit { txn, .. }
        | Entry::Ask { txn, .. }
        | Entry::Answer { txn, .. }
        | Entry::Undo { txn, .. }
        | Entry::End { txn, .. } => *txn,
        Entry::Checkpoint { .. } => 0,
    }
}

// Whether a record is there behind the answer to an operation on it.
fn there_after(op: &Op, said: &Said, was: bool) -> bool
    ensures { result ≡ Results.there_after op.now said.now was }
{
    match (op, said) {
        (Op::Read(_), Said::Value(_)) => true,
        (Op::Read(_), Said::Absent) => false,
        (Op::Insert(..) | Op::Update(..), Said::Done(_)) => true,
        (Op::Delete(_), Said::Done(_)) => false,
        _ => was,
    }
}

fn is_no_room(said: &Said) -> bool
    ensures { result ≡ Access.is_no_room said.now }
{
    matches!(said, Said::NoRoom)
}

impl Rerun {
    /// No transaction is open yet.
    pub(crate) fn new(slot: usize) -> Rerun
        ensures slot { result.slot ≡ slot }
        ensures open { result.is_open ≡ false }
    {
        Rerun {
            slot,
            is_open: false,
            proc: 0,
            machine: Machine::blank(),
            pause: Pause::Exit(0),
            is_undoing: false,
            is_full: false,
            is_there: false,
        }
    }

    // A call of the procedure begins, and has run to its first question or its end.
    fn begin(&mut self, procs: &Procs, proc: usize, args: &[u64])
        requires { (q : Checked) × (slice_get procs.now.codes proc ≡ Some q) × (length args.now ≡ q.decl.args) }
        ensures runs { (q : Checked) → slice_get procs.now.codes proc ≡ Some q → Runs q self.new args.now [] }
        ensures names { (self.new.slot ≡ self.old.slot) × (self.new.proc ≡ proc) }
        ensures fresh { (self.new.is_open ≡ true) × (self.new.is_full ≡ false) }
    {
        let Some(code) = procs.get(proc) else {
            unreachable!()
        };
        self.machine.restart(code, args, Layout::plain());
        self.pause = self.machine.resume(code, None);
        self.is_open = true;
        self.proc = proc;
        self.is_undoing = false;
        self.is_full = false;
        self.is_there = false;
    }

    // Whether the slot holds a record behind what was said to the question.
    fn note(&mut self, op: &Op, said: &Said)
        requires { IsSome (register self.old.machine.config 1) }
        ensures there { (k : ℕ) → register self.old.machine.config 1 ≡ Some k → self.new.is_there
            ≡ (if k == self.old.slot then Results.there_after op.now said.now self.old.is_there else self.old.is_there) }
        ensures rest { self.new ≡ record self.old { is_there = self.new.is_there } }
    {
        if self.machine.slot() == self.slot {
            self.is_there = there_after(op, said, self.is_there);
        }
    }

    // The run goes on with what was said to its question.
    fn resume(&mut self, procs: &Procs, op: Op, said: &Said)
        requires room { Access.is_no_room said.now ≡ false }
        requires asked { (q : Checked) × (args : List ℕ) × (answers : List SaidValue)
            × (slice_get procs.now.codes self.old.proc ≡ Some q) × MayHear q self.old args answers op said.now }
        ensures runs { (q : Checked) (args : List ℕ) (answers : List SaidValue) → slice_get procs.now.codes self.old.proc ≡ Some q
            → MayHear q self.old args answers op said.now → Runs q self.new args (answers ++ said.now ∷ []) }
        ensures rest { self.new ≡ record self.old { machine = self.new.machine; pause = self.new.pause; is_there = self.new.is_there } }
    {
        let Some(code) = procs.get(self.proc) else {
            unreachable!()
        };
        self.note(&op, said);
        self.pause = self.machine.resume(code, Some(*said));
    }

    // What was said to the operation that it waits for comes in.
    fn hear(&mut self, procs: &Procs, said: &Said)
        requires { (s : Standing) × MayAnswer procs.now.codes self.old s said.now }
        ensures along { (s : Standing) → MayAnswer procs.now.codes self.old s said.now → IsAlong procs.now.codes self.new (answered said.now s) }
        ensures slot { self.new.slot ≡ self.old.slot }
    {
        if self.is_undoing {
            return;
        }
        if is_no_room(said) {
            self.is_full = true;
            return;
        }
        if let Pause::Ask(op) = self.pause {
            self.resume(procs, op, said);
        }
    }

    /// Takes the next event of the log in, which moves it where it is one of its transaction.
    pub(crate) fn follow(&mut self, procs: &Procs, txn: u64, event: &Entry<'_>)
        requires { (h : List EventValue) × MayFollow procs.now.codes self.old h (seen event.now) txn }
        ensures follows { (h : List EventValue) → MayFollow procs.now.codes self.old h (seen event.now) txn →
            Follows procs.now.codes self.new (standing (seen event.now ∷ h) txn) }
        ensures slot { self.new.slot ≡ self.old.slot }
    {
        if txn_of(event) != txn {
            return;
        }
        match event {
            Entry::Admit { proc, args, .. } => self.begin(procs, *proc, args),
            Entry::Ask { .. } => self.is_undoing = false,
            Entry::Undo { .. } => self.is_undoing = true,
            Entry::Answer { said, .. } => self.hear(procs, said),
            Entry::End { .. } => self.is_open = false,
            Entry::Checkpoint { .. } => {}
        }
    }
}
