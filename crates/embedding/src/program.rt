//! Verified code that is run outside of transactions, whose questions its caller answers.

ghost use Rattle.std.specs.Prelude.{◌≡◌, ◌++◌, ℕ, [], ◌∷◌, List, length, None, IfNone, IfSome, is_some};
ghost use Rattle.access_slots.specs.Access as Access;
ghost use Rattle.access_slots.specs.declared.op.Op.{Op as Operation};
ghost use Rattle.access_slots.specs.declared.op.Said.{Said as Answer};
ghost use Rattle.embedding.specs.Running.{run_by, StopsAt, Takes, WaitsBehind};

use access_slots::op::{Op, Said, fits};
use interpreter::layout::Layout;
use interpreter::machine::Machine;
use interpreter::pause::Pause;
use std::marker::Model;
use std::mem;
use verifier::verify::Verified;

/// A run that waits for an answer to this operation.
#[derive(Drop)]
pub struct Run {
    machine: Machine,
    op: Op,
}

/// Verified code, and its last run where that waits for an answer.
#[derive(Drop)]
pub struct Program {
    verified: Verified,
    run: Option<Run>,
}

impl Model for Program {
    ghost use Rattle.embedding.specs.Running.{Held, IsFine};

    ghost Value = { Held };

    ghost view = { λ p. record { code = p.verified; run = p.run } };

    ghost invariant = { λ p. IsFine p.verified p.run };
}

fn is_no_room(said: &Said) -> bool
    ensures { result ≡ Access.is_no_room said.now }
{
    matches!(said, Said::NoRoom)
}

// What is kept of a machine that stopped so.
fn waiting(machine: Machine, pause: Pause) -> Option<Run>
    ensures { result ≡ run_by pause machine }
{
    match pause {
        Pause::Ask(op) => Some(Run { machine, op }),
        Pause::Exit(_) => None,
    }
}

impl Program {
    /// It isn't running.
    pub fn new(verified: Verified) -> Program
        ensures { result ≡ record { code = verified; run = None } }
    {
        Program {
            verified,
            run: None,
        }
    }

    /// How many arguments it takes.
    pub fn args(&self) -> usize
        ensures { result ≡ self.now.code.decl.args }
    {
        self.verified.decl().args()
    }

    /// Whether a run waits for an answer.
    pub fn waits(&self) -> bool
        ensures { result ≡ is_some self.now.run }
    {
        self.run.is_some()
    }

    /// Runs it from its beginning to its first question or its end, and says how many instructions were
    /// executed. A run that waits is forgotten.
    pub fn start(&mut self, args: &[u64]) -> (Pause, u32)
        requires { length args.now ≡ self.old.code.decl.args }
        ensures code { self.new.code ≡ self.old.code }
        ensures stops { StopsAt self.new.code args.now [] result.0 result.1 self.new.run }
    {
        let mut machine = Machine::start(&self.verified, args, Layout::plain());
        let pause = machine.resume(&self.verified, None);
        let executed = machine.executed();
        self.run = waiting(machine, pause);
        (pause, executed)
    }

    /// Goes on from the question with what is said to it. `None`, with nothing changed: it waits for
    /// nothing, this can't be an answer, or it is NoRoom, with which no run goes on.
    pub fn resume(&mut self, said: Said) -> Option<(Pause, u32)>
        ensures code { self.new.code ≡ self.old.code }
        ensures refused { IfNone result (self.new ≡ self.old) }
        ensures why { IfNone result (¬ (Takes self.old.run said)) }
        ensures takes { IfSome result (λ _. Takes self.old.run said) }
        ensures goes_on { IfSome result (λ stop. (args : List ℕ) (answers : List Answer) (o : Operation)
            → WaitsBehind self.old.code args answers o self.old.run
            → StopsAt self.new.code args (answers ++ said ∷ []) stop.0 stop.1 self.new.run) }
    {
        let Some(run) = mem::replace(&mut self.run, None) else {
            return None;
        };
        if !fits(&run.op, &said) || is_no_room(&said) {
            self.run = Some(run);
            return None;
        }
        let mut machine = run.machine;
        let pause = machine.resume(&self.verified, Some(said));
        let executed = machine.executed();
        self.run = waiting(machine, pause);
        Some((pause, executed))
    }
}
