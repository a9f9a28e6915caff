//! What is told of an answer, and when.

ghost use Rattle.std.specs.Prelude.{◌≡◌, true, false};
ghost use Rattle.worker_pool.specs.Acknowledged.{WasAnswered, IsKept};

use crate::answer::Answer;
use crate::pool::Gate;
use crate::run_spec::RunSpec;
use crate::stage::Stage;
use std::marker::{Model, PhantomData};

/// An answer that stands and isn't told yet. The pool's state alone can make it: it is true of a state of the run.
pub struct ReadyAnswer<J: RunSpec> {
    pub call: usize,
    pub answer: Answer,
    /// How many events the log had then.
    pub logged: usize,
    /// Whether the call was admitted, and the gate isn't told of that yet.
    pub is_begun: bool,
    pub of: PhantomData<J>,
}

impl<J: RunSpec> Model for ReadyAnswer<J> {
    ghost use Rattle.worker_pool.specs.Acknowledged.{Acknowledged, WasAnswered};

    ghost Value = { Acknowledged };

    ghost view = { λ d. record { call = d.call; answer = d.answer; logged = d.logged } };

    ghost invariant = { λ d. WasAnswered J.start J.calls d.call d.answer d.logged };
}

impl<J: RunSpec> ReadyAnswer<J> {
    // What holding it says.
    fn known(&self)
        ensures { WasAnswered J.start J.calls self.now.call self.now.answer self.now.logged }
    {
        let _ = &self.call;
    }

    /// Nobody is told of it.
    pub fn forget(self) {
        let ReadyAnswer {
            call: _,
            answer: _,
            logged: _,
            is_begun: _,
            of: _,
        } = self;
    }

    /// Tells the gate that the call has come so far.
    pub fn tell_stage<G: Gate>(&self, gate: &G) {
        if self.is_begun {
            gate.begun(self.call);
        }
        gate.reaches(self.call, Stage::Answered);
    }
}

/// The acknowledgement of a call: its place in the list, and its answer, which stands. In a run with a journal
/// all that the log had when the call was answered is kept. Runs alone make it, each of one call of its list.
pub struct Acknowledgement<J: RunSpec> {
    ready: ReadyAnswer<J>,
}

impl<J: RunSpec> Model for Acknowledgement<J> {
    ghost use Rattle.std.specs.Prelude.{◌≡◌, true};
    ghost use Rattle.worker_pool.specs.Acknowledged.{Acknowledged, IsKept};

    ghost Value = { Acknowledged };

    ghost view = { λ a. a.ready };

    ghost invariant = { λ a. J.keeps ≡ true → IsKept J.kept J.before J.start.events a.ready.logged };
}

impl<J: RunSpec> Acknowledgement<J> {
    // In a run without a journal.
    pub(crate) fn free(ready: ReadyAnswer<J>) -> Acknowledgement<J>
        requires { J.keeps ≡ false }
        ensures { result ≡ ready }
    {
        Acknowledgement { ready }
    }

    // Where the journal has kept as many events as the log had then.
    pub(crate) fn kept(ready: ReadyAnswer<J>) -> Acknowledgement<J>
        requires { IsKept J.kept J.before J.start.events ready.logged }
        ensures { result ≡ ready }
    {
        Acknowledgement { ready }
    }

    /// The call's place in the list.
    pub fn call(&self) -> usize
        ensures { result ≡ self.now.call }
    {
        self.ready.call
    }

    /// The call's answer.
    pub fn answer(&self) -> Answer
        ensures { result ≡ self.now.answer }
    {
        self.ready.answer
    }

    /// What holding it says: the answer was true of the run when its log had so many events, and where the run
    /// keeps its log, the journal has kept all of these.
    pub fn known(&self)
        ensures answered { WasAnswered J.start J.calls self.now.call self.now.answer self.now.logged }
        ensures kept { J.keeps ≡ true → IsKept J.kept J.before J.start.events self.now.logged }
    {
        self.ready.known();
    }

    // Tells the gate.
    pub(crate) fn tell<G: Gate>(self, gate: &G) {
        gate.answered(&self);
        let Acknowledgement { ready } = self;
        ready.forget();
    }
}
