//! The world, and its steps.

ghost use Rattle.std.specs.Prelude.{◌≡◌, ◌≢◌, ◌↔◌, ℕ, ◌||◌, [], Some, true, false, slice_get};
ghost use Rattle.std.specs.Prelude.{IsTrue, IfOk, OnOk, IfErr, OnErr};
ghost use Rattle.access_slots.specs.Locks.{allows, target, is_read, conflict};
ghost use Rattle.history.specs.Calls.{held, held_for, call_of};
ghost use Rattle.transactions.specs.InFlight.{InFlight};
ghost use Rattle.history.specs.Flight.{Flight, open_op, is_open};
ghost use Rattle.request_numbers.specs.Given.{holds};
ghost use Rattle.transactions.specs.Legal.{Legal};
ghost use Rattle.transactions.specs.Reached.{decls};
ghost use Rattle.transactions.specs.Room.{each_one, total};
ghost use Rattle.std.specs.List.{All};
ghost use Rattle.history.specs.Anew.{begun};
ghost use Rattle.tc_world.specs.Marks.{HasJustBegun, HasRowsAlone, IsUp, AreMarksLow, IsFresh, IsOpenAboveMarks};
ghost use Rattle.serial.specs.Audit.{IsAgreed};
ghost use Rattle.tc_world.specs.OneAtATime.{is_forge, NoForge, EachIsKnown, IsOneAtATime};
ghost use Rattle.tc_world.specs.Lives.{HasLived};
ghost use Rattle.tc_world.specs.Recovery.{MayCrash};
ghost use Rattle.tc_world.specs.Joining.Listed.{IsListed};
ghost use Rattle.tc_world.specs.Steps.{Goes, Stops, Steps, IsIllegal, Runs, StopsAt};
ghost use Rattle.tc_world.specs.Steps as Steps;
ghost use Rattle.tc_core.specs.Redo.{IsRedone};
ghost use Rattle.tc_world.specs.declared.step.Illegal.TheVariants as illegal;
ghost use Rattle.tc_world.specs.declared.step.Step.TheVariants as step;

use crate::beginning::admitted_since;
use crate::components::{at, checkpoint_at, is_spent_at, perform_at, restart_at};
use crate::cutting::cut;
use crate::deliver::{hears, redone_somewhere};
use crate::notes::notes_of;
use crate::open_requests::{find_number, find_txn};
use crate::resumed_requests::make_again;
use crate::send::{make_room, tell};
use crate::step::{Illegal, Outcome, Step};
use crate::written::are_written;
use access_slots::op::{News, Reply, Wire};
use data_component::dc::Dc;
use std::alloc::{AllocError, Global};
use std::marker::Model;
use tc_core::state::{Call, NewsFault, Redo, Request, TcState};

/// A transaction component, its data components, and every wire and reply that was ever sent.
pub struct World {
    alloc: Global,
    state: TcState,
    dcs: Vec<Dc>,
    copies: Vec<Wire>,
    replies: Vec<Reply>,
    news: Vec<(u16, News)>,
    requests: Vec<Request>,
}

impl Model for World {
    ghost use Rattle.tc_world.specs.Whole.{Whole};
    ghost use Rattle.tc_world.specs.Waiting.{AreWaiting};

    ghost Value = { Whole };

    ghost view = { λ w. record {
      core = w.state;
      dcs = w.dcs.items;
      copies = w.copies.items;
      replies = w.replies.items;
      news = w.news.items;
    } };

    ghost invariant = { λ w. AreWaiting w.requests.items w.state.events };
}

impl World {
    /// A world in which nothing was sent. No transaction may be open. Where nothing has happened since the
    /// log began, as in a state and data components that are empty, it is fresh. It takes no memory.
    pub fn new(alloc: Global, state: TcState, dcs: Vec<Dc>) -> World
        requires { total each_one state.events ≡ 0 }
        ensures whole { result ≡ record { core = state; dcs = dcs.items; copies = []; replies = []; news = [] } }
        ensures fresh { HasJustBegun state.events → All IsUp state.sites → All (HasRowsAlone (begun state.events)) dcs.items
            → IsFresh result }
        ensures lived { IsFresh result → HasLived result }
    {
        state.known();
        World {
            alloc,
            state,
            dcs,
            copies: Vec::new(alloc),
            replies: Vec::new(alloc),
            news: Vec::new(alloc),
            requests: Vec::new(alloc),
        }
    }

    /// A world of a state that came back, whose transactions may be open: what they wait for is made
    /// again. Nothing that was sent before is left.
    pub fn resumed(alloc: Global, state: TcState, dcs: Vec<Dc>) -> Result<World, AllocError>
        ensures { IfOk result (λ w. w ≡ record { core = state; dcs = dcs.items; copies = []; replies = []; news = [] }) }
    {
        state.known();
        let Ok(mut requests) = Vec::with_capacity(alloc, admitted_since(&state) as usize) else {
            drop(state);
            drop(dcs);
            return Err(AllocError);
        };
        make_again(&state, &mut requests);
        Ok(World {
            alloc,
            state,
            dcs,
            copies: Vec::new(alloc),
            replies: Vec::new(alloc),
            news: Vec::new(alloc),
            requests,
        })
    }

    /// The transaction component.
    pub fn state(&self) -> &TcState
        ensures { result.now ≡ self.now.core }
    {
        &self.state
    }

    /// The data components.
    pub fn dcs(&self) -> &[Dc]
        ensures { result.now ≡ self.now.dcs }
    {
        self.dcs.as_slice()
    }

    /// Ends the world: hands back its parts, with the open requests given up.
    pub fn close(self) -> (TcState, Vec<Dc>)
        ensures kept { result.0 ≡ record self.core { given_up = result.0.given_up } }
        ensures given_up { (n : ℕ) → holds n result.0.given_up ≡ (holds n self.core.given_up || is_open self.core.events n) }
        ensures dcs { result.1.items ≡ self.dcs }
    {
        self.state.known();
        let World {
            alloc: _,
            mut state,
            dcs,
            copies: _,
            replies: _,
            news: _,
            mut requests,
        } = self;
        while let Some(request) = requests.pop() {
            let _number = state.give_up(request);
        }
        requests.destroy_empty();
        (state, dcs)
    }

    fn ask(&mut self, serial: u64) -> Result<Outcome, Illegal>
        ensures ok { IfOk result (λ o. Steps.asks self.old serial ≡ Goes o self.new) }
        ensures err { OnErr result (self.new ≡ self.old) }
        ensures why { IfErr result (λ i. IsIllegal self.old (step.Ask serial) i) }
    {
        self.state.known();
        let Some(txn) = self.state.find_txn(serial) else {
            return Err(Illegal::NoTxn);
        };
        make_room(&mut self.copies, &mut self.requests)?;
        let asked = self.state.ask(txn);
        tell(
            serial,
            asked,
            &self.state,
            &mut self.copies,
            &mut self.requests,
        )
    }

    fn undo(&mut self, serial: u64) -> Result<Outcome, Illegal>
        ensures ok { IfOk result (λ o. Steps.undoes self.old serial ≡ Goes o self.new) }
        ensures err { OnErr result (self.new ≡ self.old) }
        ensures why { IfErr result (λ i. IsIllegal self.old (step.Undo serial) i) }
    {
        self.state.known();
        let Some(txn) = self.state.find_txn(serial) else {
            return Err(Illegal::NoTxn);
        };
        make_room(&mut self.copies, &mut self.requests)?;
        let asked = self.state.undo_next(txn);
        tell(
            serial,
            asked,
            &self.state,
            &mut self.copies,
            &mut self.requests,
        )
    }

    fn end(&mut self, serial: u64) -> Result<Outcome, Illegal>
        ensures ok { IfOk result (λ o. Steps.ends self.old serial ≡ Goes o self.new) }
        ensures err { OnErr result (self.new ≡ self.old) }
        ensures why { IfErr result (λ i. Steps.ends self.old serial ≡ Stops i) }
    {
        let Some(txn) = self.state.find_txn(serial) else {
            return Err(Illegal::NoTxn);
        };
        match self.state.end(txn) {
            Ok(receipt) => Ok(Outcome::Ended(receipt)),
            Err(_) => Err(Illegal::NotOver),
        }
    }

    fn resend(&mut self, serial: u64) -> Result<Outcome, Illegal>
        ensures ok { IfOk result (λ o. Steps.resends self.old serial ≡ Goes o self.new) }
        ensures err { OnErr result (self.new ≡ self.old) }
        ensures why { IfErr result (λ i. IsIllegal self.old (step.Resend serial) i) }
    {
        self.state.known();
        let Some(_) = self.state.find_txn(serial) else {
            return Err(Illegal::NoTxn);
        };
        let Some(at) = find_txn(self.requests.as_slice(), serial) else {
            return Err(Illegal::NothingOpen);
        };
        let wire = match self.state.wire(&self.requests[at]) {
            Ok(wire) => wire,
            Err(_) => return Err(Illegal::Down(self.requests[at].op().record().dc)),
        };
        self.copies.reserve(1)?;
        let place = self.copies.len();
        self.copies.push_reserved(wire);
        Ok(Outcome::Sent(place, wire))
    }

    fn perform(&mut self, copy: usize) -> Result<Outcome, Illegal>
        ensures ok { IfOk result (λ o. Steps.performs self.old copy ≡ Goes o self.new) }
        ensures err { OnErr result (self.new ≡ self.old) }
        ensures why { IfErr result (λ i. IsIllegal self.old (step.Perform copy) i) }
    {
        let Some(wire) = at(self.copies.as_slice(), copy) else {
            return Err(Illegal::NoCopy);
        };
        let dc = wire.op.record().dc as usize;
        if dc >= self.dcs.len() {
            return Err(Illegal::NoDc);
        }
        self.replies.reserve(1)?;
        match perform_at(&mut self.dcs, dc, &wire) {
            Some(reply) => {
                let place = self.replies.len();
                self.replies.push_reserved(reply);
                Ok(Outcome::Replied(place, reply))
            }
            None => Ok(Outcome::Silent),
        }
    }

    // A reply to no open request is tried as one to the operation under redo of each data component.
    fn take_redo(&mut self, reply: &Reply) -> Result<Outcome, Illegal>
        ensures ok { IfOk result (λ o. Steps.TakesRedo self.old reply.now o self.new) }
        ensures err { OnErr result (self.new ≡ self.old) }
        ensures why { IfErr result (λ i. (i ≡ illegal.Stranger) × ((d : ℕ) → IsRedone self.old.core d reply.now → ⊥)) }
    {
        let Some(_) = redone_somewhere(&mut self.state, reply) else {
            return Err(Illegal::Stranger);
        };
        Ok(Outcome::Redone(reply.number))
    }

    fn take(&mut self, reply: usize) -> Result<Outcome, Illegal>
        ensures ok { IfOk result (λ o. Steps.Takes self.old reply o self.new) }
        ensures err { OnErr result (self.new ≡ self.old) }
        ensures why { IfErr result (λ i. Steps.IsNotTaken self.old (slice_get self.old.replies reply) i) }
    {
        self.state.known();
        let Some(reply) = at(self.replies.as_slice(), reply) else {
            return Err(Illegal::NoReply);
        };
        let Some(at) = find_number(self.requests.as_slice(), reply.number) else {
            return self.take_redo(&reply);
        };
        if !hears(&self.state, &self.requests[at], &reply) {
            return Err(Illegal::Stranger);
        }
        let request = self.requests.remove(at);
        match self.state.answer(request, reply) {
            Ok(()) => {}
            Err(_) => unreachable!(),
        }
        Ok(Outcome::Took(reply.number))
    }

    fn restart(&mut self, dc: u16) -> Result<Outcome, Illegal>
        ensures ok { IfOk result (λ o. Steps.restarts self.old dc ≡ Goes o self.new) }
        ensures err { OnErr result (self.new ≡ self.old) }
        ensures why { IfErr result (λ i. IsIllegal self.old (step.Restart dc) i) }
    {
        if dc as usize >= self.dcs.len() {
            return Err(Illegal::NoDc);
        }
        if is_spent_at(self.dcs.as_slice(), dc as usize) {
            return Err(Illegal::IncarnationsSpent);
        }
        self.news.reserve(1)?;
        let news = restart_at(&mut self.dcs, dc as usize);
        self.news.push_reserved((dc, news));
        Ok(Outcome::Restarted(dc))
    }

    fn checkpoint(&mut self, dc: u16) -> Result<Outcome, Illegal>
        ensures ok { IfOk result (λ o. Steps.checkpoints self.old dc ≡ Goes o self.new) }
        ensures err { OnErr result (self.new ≡ self.old) }
        ensures why { IfErr result (λ i. Steps.checkpoints self.old dc ≡ Stops i) }
    {
        if dc as usize >= self.dcs.len() {
            return Err(Illegal::NoDc);
        }
        let mark = checkpoint_at(&mut self.dcs, dc as usize);
        Ok(Outcome::Checkpointed(dc, mark))
    }

    fn tell(&mut self, news: usize) -> Result<Outcome, Illegal>
        ensures ok { IfOk result (λ o. Steps.tells self.old news ≡ Goes o self.new) }
        ensures err { OnErr result (self.new ≡ self.old) }
        ensures why { IfErr result (λ i. Steps.tells self.old news ≡ Stops i) }
    {
        let Some((dc, news)) = at(self.news.as_slice(), news) else {
            return Err(Illegal::NoNews);
        };
        match self.state.told(dc, news) {
            Ok(()) => Ok(Outcome::Told(dc, news)),
            Err(NewsFault::NoDc) => Err(Illegal::NoDc),
            Err(NewsFault::OldNews) => Err(Illegal::OldNews),
            Err(NewsFault::Forgotten) => Err(Illegal::Forgotten),
        }
    }

    fn redo(&mut self, dc: u16) -> Result<Outcome, Illegal>
        ensures ok { IfOk result (λ o. Steps.redoes self.old dc ≡ Goes o self.new) }
        ensures err { OnErr result (self.new ≡ self.old) }
        ensures why { IfErr result (λ i. IsIllegal self.old (step.Redo dc) i) }
    {
        match self.state.redo_next(dc) {
            Redo::Send(wire) => {
                self.copies.reserve(1)?;
                let place = self.copies.len();
                self.copies.push_reserved(wire);
                Ok(Outcome::Redoing(place, wire))
            }
            Redo::Finished => Ok(Outcome::Up(dc)),
            Redo::NotDown => Err(Illegal::NotDown),
            Redo::NoDc => Err(Illegal::NoDc),
        }
    }

    fn forge(&mut self, reply: Reply) -> Result<Outcome, Illegal>
        ensures ok { IfOk result (λ o. Steps.forges self.old reply ≡ Goes o self.new) }
        ensures err { OnErr result (self.new ≡ self.old) }
        ensures why { IfErr result (λ i. IsIllegal self.old (step.Forge reply) i) }
    {
        let place = self.replies.len();
        self.replies.push(reply)?;
        Ok(Outcome::Forged(place))
    }

    fn admit(&mut self, call: &Call) -> Result<Outcome, Illegal>
        ensures ok { IfOk result (λ o. Steps.Admits self.old call.now o self.new) }
        ensures err { OnErr result (self.new ≡ self.old) }
        ensures why { IfErr result (λ i. Steps.IsNotAdmitted self.old call.now i) }
    {
        let txn = match self.state.admit(call) {
            Ok(txn) => txn,
            Err(refusal) => return Err(Illegal::Refused(refusal)),
        };
        Ok(Outcome::Admitted(txn.serial()))
    }

    // Whether so many events were written, and tell of all that was carried.
    fn is_written(&self, events: usize) -> bool
        ensures { IsTrue result ↔ MayCrash events self.now }
    {
        are_written(
            &self.state,
            self.requests.as_slice(),
            self.dcs.as_slice(),
            self.copies.as_slice(),
            self.replies.as_slice(),
            self.news.as_slice(),
            events,
        )
    }

    fn crash(&mut self, events: usize) -> Result<Outcome, Illegal>
        ensures ok { IfOk result (λ o. Steps.Crashes self.old events o self.new) }
        ensures err { OnErr result (self.new ≡ self.old) }
        ensures why { IfErr result (Steps.IsNotCrashed self.old events) }
    {
        if !self.is_written(events) {
            return Err(Illegal::NotWritten);
        }
        self.state.known();
        let notes = notes_of(self.alloc, &self.state)?;
        self.requests.reserve(admitted_since(&self.state) as usize)?;
        self.state
            .crash(events, notes.as_slice(), &mut self.requests)?;
        make_again(&self.state, &mut self.requests);
        Ok(Outcome::Crashed(events, self.state.open_count()))
    }

    // The log begins anew, where nothing is open and each data component can forget what it has performed.
    fn cut(&mut self) -> Result<Outcome, Illegal>
        ensures ok { IfOk result (λ o. Steps.Cuts self.old o self.new) }
        ensures err { OnErr result (self.new ≡ self.old) }
        ensures why { IfErr result (Steps.IsNotCut self.old) }
    {
        self.state.known();
        match cut(self.alloc, &mut self.state, &mut self.dcs) {
            Ok(()) => Ok(Outcome::Cut(self.state.admitted(), self.state.begun())),
            Err(illegal) => Err(illegal),
        }
    }

    fn try_step(&mut self, step: &Step) -> Result<Outcome, Illegal>
        ensures ok { IfOk result (λ o. Steps self.old step.now o self.new) }
        ensures err { OnErr result (self.new ≡ self.old) }
        ensures why { IfErr result (λ i. IsIllegal self.old step.now i) }
    {
        match step {
            Step::Admit(call) => self.admit(call),
            Step::Ask(serial) => self.ask(*serial),
            Step::Undo(serial) => self.undo(*serial),
            Step::End(serial) => self.end(*serial),
            Step::Resend(serial) => self.resend(*serial),
            Step::Perform(copy) => self.perform(*copy),
            Step::Take(reply) => self.take(*reply),
            Step::Restart(dc) => self.restart(*dc),
            Step::Forge(reply) => self.forge(*reply),
            Step::Checkpoint(dc) => self.checkpoint(*dc),
            Step::Tell(news) => self.tell(*news),
            Step::Redo(dc) => self.redo(*dc),
            Step::Crash(events) => self.crash(*events),
            Step::Cut => self.cut(),
        }
    }

    // A step, and what every world keeps by it.
    fn keep_step(&mut self, step: &Step) -> Result<Outcome, Illegal>
        ensures ok { IfOk result (λ o. Steps self.old step.now o self.new) }
        ensures err { OnErr result (self.new ≡ self.old) }
        ensures why { IfErr result (λ i. IsIllegal self.old step.now i) }
        ensures marks { AreMarksLow self.old → AreMarksLow self.new }
        ensures listed { is_forge step.now ≡ false → IsListed self.old → IsListed self.new }
        ensures lived { is_forge step.now ≡ false → HasLived self.old → HasLived self.new }
    {
        self.state.known();
        let outcome = self.try_step(step)?;
        self.state.known();
        Ok(outcome)
    }

    /// Takes one step. An illegal one changes nothing. Behind it holds what [`World::run`] says of a world
    /// behind a list of steps.
    pub fn step(&mut self, step: &Step) -> Result<Outcome, Illegal>
        ensures ok { IfOk result (λ o. Steps self.old step.now o self.new) }
        ensures err { OnErr result (self.new ≡ self.old) }
        ensures why { IfErr result (λ i. IsIllegal self.old step.now i) }
        ensures legal { Legal self.new.core.procs self.new.core.events }
        ensures covered { (n : ℕ) (f : Flight) → InFlight self.new.core.events self.new.core.sites n f
            → allows (held_for (decls self.new.core.procs) (call_of self.new.core.events f.txn) (target f.op)) (is_read f.op) ≡ true }
        ensures held { (n : ℕ) (f : Flight) → open_op self.new.core.events n ≡ Some f
            → allows (held (decls self.new.core.procs) self.new.core.events f.txn (target f.op)) (is_read f.op) ≡ true }
        ensures apart { (m n : ℕ) (f g : Flight) → InFlight self.new.core.events self.new.core.sites m f
            → InFlight self.new.core.events self.new.core.sites n g
            → m ≢ n → conflict f.op g.op ≡ false }
        ensures marks { AreMarksLow self.old → AreMarksLow self.new }
        ensures open_above { AreMarksLow self.old → IsOpenAboveMarks self.new }
        ensures one_at_a_time { is_forge step.now ≡ false → HasLived self.old → IsOneAtATime self.new }
        ensures agreed { is_forge step.now ≡ false → HasLived self.old → EachIsKnown self.new
            → IsAgreed self.new.core.procs self.new.core.events self.new.dcs }
        ensures lived { is_forge step.now ≡ false → HasLived self.old → HasLived self.new }
    {
        let told = self.keep_step(step);
        self.state.known();
        told
    }

    /// Takes steps up to the first illegal one, and says its place. Whatever the steps were, the
    /// history is legal, each operation in flight is covered by its transaction's locks, which are held
    /// where its number is open, and no two conflict. From a fresh world, with no reply forged, the calls
    /// that ended are as if they were run one after another, in the order of their ends, however often
    /// data components restarted; and where each data component is up, and of the incarnation that is
    /// known, the log and the data components agree in all that an audit compares. A world that has lived
    /// through steps, losses and crashes has lived through these steps too.
    pub fn run(&mut self, steps: &[Step]) -> Result<(), (usize, Illegal)>
        ensures ok { OnOk result (Runs self.old steps.now self.new) }
        ensures err { IfErr result (λ e. StopsAt self.old steps.now e.0 e.1 self.new) }
        ensures legal { Legal self.new.core.procs self.new.core.events }
        ensures covered { (n : ℕ) (f : Flight) → InFlight self.new.core.events self.new.core.sites n f
            → allows (held_for (decls self.new.core.procs) (call_of self.new.core.events f.txn) (target f.op)) (is_read f.op) ≡ true }
        ensures held { (n : ℕ) (f : Flight) → open_op self.new.core.events n ≡ Some f
            → allows (held (decls self.new.core.procs) self.new.core.events f.txn (target f.op)) (is_read f.op) ≡ true }
        ensures apart { (m n : ℕ) (f g : Flight) → InFlight self.new.core.events self.new.core.sites m f
            → InFlight self.new.core.events self.new.core.sites n g
            → m ≢ n → conflict f.op g.op ≡ false }
        ensures marks { AreMarksLow self.old → AreMarksLow self.new }
        ensures open_above { IsFresh self.old → IsOpenAboveMarks self.new }
        ensures one_at_a_time { IsFresh self.old → NoForge steps.now → IsOneAtATime self.new }
        ensures agreed { IsFresh self.old → NoForge steps.now → EachIsKnown self.new
            → IsAgreed self.new.core.procs self.new.core.events self.new.dcs }
        ensures lived { NoForge steps.now → HasLived self.old → HasLived self.new }
    {
        for (k, step) in steps.iter().enumerate() {
            match self.keep_step(step) {
                Ok(_) => {}
                Err(illegal) => {
                    self.state.known();
                    return Err((k, illegal));
                }
            }
        }
        self.state.known();
        Ok(())
    }
}
