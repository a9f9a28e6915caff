//! Whether a log, whoever made it, is one of a transaction component.

ghost use Rattle.std.specs.Prelude.{◌≡◌, ◌↔◌, ◌<◌, ◌≤◌, [], ◌∷◌, length, IsTrue, IsFalse, IsOk, IfOk, OnOk, IfErr};
ghost use Rattle.lock_table.specs.Facts.{AreHeld};
ghost use Rattle.tc_log.specs.declared.event.Event.TheVariants.{Admit, Ask, Answer, Undo, End, Checkpoint};
ghost use Rattle.tc_log.specs.Entered.{seen};
ghost use Rattle.history.specs.Calls.{held};
ghost use Rattle.history.specs.Places.{StandsAt};
ghost use Rattle.transactions.specs.Standing.{standing};
ghost use Rattle.transactions.specs.Legal.{Legal, CanAsk, CanAnswer, CanUndo, CanEnd};
ghost use Rattle.transactions.specs.Reached.{decls};
ghost use Rattle.transactions.specs.Room.{each_one, total};
ghost use Rattle.tc_core.specs.Checking.{IsFault};
ghost use Rattle.tc_core.specs.Kept.{IsBook};
ghost use Rattle.tc_core.specs.Recovery.{first_events};
ghost use Rattle.tc_core.specs.Joining.Follows.{AreUntold, IsAsked, IsFurther, IsRequest, IsUnlike, awaited_by, awaited_in};

use crate::book::Book;
use crate::procs::Procs;
use crate::state::{Asked, Call, Refusal, Request, Stranger, TcState, TxnId};
use access_slots::op::{Op, Reply, Said};
use lock_table::table::LockTable;
use std::alloc::Global;
use tc_log::event::{Entry, Outcome};
use tc_log::log::Log;
use transactions::Sent;

/// Why a log isn't found to be legal.
#[derive(Clone, Copy, Debug, PartialEq, Eq)]
pub enum CheckFault {
    /// U1: the event at this place, counted from 0, is the first that isn't allowed behind the ones
    /// before it.
    LogIllegal(usize),
    /// U5: memory ran out.
    Memory,
}

/// What stands behind a legal log: the locks that are held, and how many transactions are open.
#[derive(Drop)]
pub struct Checked {
    pub locks: LockTable,
    pub open: usize,
}

// No log begins behind more.
const MOST: u64 = 1 << 62;

// Why an event isn't taken into a book.
#[derive(Clone, Copy)]
enum Unlike {
    Illegal,
    Memory,
}

// Whether a request is one under this number with this operation. It is spent.
fn is_request(request: Request, number: u64, op: &Op) -> bool
    ensures { IsTrue result ↔ IsRequest request number op.now }
{
    let Request {
        txn: _,
        number: given,
        op: asked,
    } = request;
    given == number && asked == *op
}

// Whether a book's answer is a request under this number with this operation.
fn is_asked(asked: Asked, number: u64, op: &Op) -> bool
    ensures { IsTrue result ↔ IsAsked asked number op.now }
{
    match asked {
        Asked::Request(request) => is_request(request, number, op),
        Asked::Undoing => false,
        Asked::Over => false,
        Asked::Stuck(_) => false,
        Asked::Waits(_) => false,
        Asked::Running => false,
        Asked::Unknown => false,
    }
}

// The operation of what is awaited, where it is awaited under this number.
fn awaited_by(sent: Option<Sent>, number: u64) -> Option<Op>
    ensures { result ≡ awaited_by sent number }
{
    match sent {
        None => None,
        Some(sent) => {
            if sent.number == number {
                Some(sent.op)
            } else {
                None
            }
        }
    }
}

// Whether a request was answered. One that wasn't is spent.
fn is_answered(answered: Result<(), Stranger>) -> bool
    ensures { IsTrue result ↔ IsOk answered }
{
    match answered {
        Ok(()) => true,
        Err(stranger) => {
            let Stranger { request } = stranger;
            let Request {
                txn: _,
                number: _,
                op: _,
            } = request;
            false
        }
    }
}

impl TcState {
    // The operation that the transaction awaits under this number.
    fn awaited(&self, txn: u64, number: u64) -> Option<Op>
        ensures { result ≡ awaited_in (standing self.now.events txn) number }
    {
        let key = self.book.txns.find(txn)?;
        awaited_by(self.book.txns.at(key).sent, number)
    }

    // Takes an Ask in, where it may come next.
    fn follow_ask(&mut self, txn: u64, number: u64, op: &Op) -> bool
        ensures rest { IsFurther self.old self.new }
        ensures follows { IsTrue result → self.new.events ≡ Ask txn number op.now ∷ self.old.events }
        ensures illegal { IsFalse result → CanAsk self.old.procs self.old.events txn number op.now → ⊥ }
    {
        let asked = self.ask(TxnId { serial: txn });
        is_asked(asked, number, op)
    }

    // Takes an Undo in, where it may come next.
    fn follow_undo(&mut self, txn: u64, number: u64, op: &Op) -> bool
        ensures rest { IsFurther self.old self.new }
        ensures follows { IsTrue result → self.new.events ≡ Undo txn number op.now ∷ self.old.events }
        ensures illegal { IsFalse result → CanUndo self.old.procs self.old.events txn number op.now → ⊥ }
    {
        let asked = self.undo_next(TxnId { serial: txn });
        is_asked(asked, number, op)
    }

    // Takes an Answer in, where it may come next.
    fn follow_answer(&mut self, txn: u64, number: u64, said: Said) -> bool
        requires untold { AreUntold self.old.sites }
        requires given_up { self.old.given_up ≡ [] }
        ensures rest { IsFurther self.old self.new }
        ensures follows { IsTrue result → self.new.events ≡ Answer txn number said ∷ self.old.events }
        ensures illegal { IsFalse result → CanAnswer self.old.procs self.old.events txn number said → ⊥ }
    {
        let Some(op) = self.awaited(txn, number) else {
            return false;
        };
        let request = Request { txn, number, op };
        let reply = Reply {
            number,
            incarnation: 0,
            said,
        };
        is_answered(self.answer(request, reply))
    }

    // Takes an End in, where it may come next.
    fn follow_end(&mut self, txn: u64, outcome: Outcome) -> bool
        ensures rest { IsFurther self.old self.new }
        ensures follows { IsTrue result → self.new.events ≡ End txn outcome ∷ self.old.events }
        ensures illegal { IsFalse result → CanEnd self.old.procs self.old.events txn outcome → ⊥ }
    {
        match self.end(TxnId { serial: txn }) {
            Ok(receipt) => receipt.outcome == outcome,
            Err(_) => false,
        }
    }

    // Takes an Admit in, where it may come next.
    fn follow_admit(&mut self, txn: u64, proc: usize, args: &[u64]) -> Result<(), Unlike>
        ensures rest { IsFurther self.old self.new }
        ensures follows { OnOk result (self.new.events ≡ Admit txn proc args.now ∷ self.old.events) }
        ensures why { IfErr result (IsUnlike self.old.procs self.old.events (Admit txn proc args.now)) }
    {
        if self.admitted().checked_add(1) != Some(txn) {
            return Err(Unlike::Illegal);
        }
        let Ok(args) = Vec::from_slice(self.alloc, args) else {
            return Err(Unlike::Memory);
        };
        let call = Call { proc, args };
        match self.admit(&call) {
            Ok(_) => Ok(()),
            Err(Refusal::NoProcedure) => Err(Unlike::Illegal),
            Err(Refusal::ArgumentCount) => Err(Unlike::Illegal),
            Err(Refusal::Busy(_)) => Err(Unlike::Illegal),
            Err(Refusal::NumbersSpent) => Err(Unlike::Memory),
            Err(Refusal::Memory) => Err(Unlike::Memory),
        }
    }

    // Takes a Checkpoint in, where the log may begin with it.
    fn follow_checkpoint(&mut self, admitted: u64, given: u64) -> Result<(), Unlike>
        requires { self.old.given_up ≡ [] }
        ensures rest { IsFurther self.old self.new }
        ensures follows { OnOk result (self.new.events ≡ Checkpoint admitted given ∷ self.old.events) }
        ensures why { IfErr result (IsUnlike self.old.procs self.old.events (Checkpoint admitted given)) }
    {
        if !self.book.log.is_empty() {
            return Err(Unlike::Illegal);
        }
        if admitted > MOST || given > MOST {
            return Err(Unlike::Illegal);
        }
        if self.book.log.reserve(1).is_err() {
            return Err(Unlike::Memory);
        }
        self.book.begin_behind(admitted, given);
        Ok(())
    }

    // Takes an event in, where it may come next.
    fn follow(&mut self, event: &Entry<'_>) -> Result<(), Unlike>
        requires untold { AreUntold self.old.sites }
        requires given_up { self.old.given_up ≡ [] }
        ensures rest { IsFurther self.old self.new }
        ensures follows { OnOk result (self.new.events ≡ seen event.now ∷ self.old.events) }
        ensures why { IfErr result (IsUnlike self.old.procs self.old.events (seen event.now)) }
    {
        let follows = match event {
            Entry::Admit { txn, proc, args } => {
                return self.follow_admit(*txn, *proc, args);
            }
            Entry::Ask { txn, number, op } => self.follow_ask(*txn, *number, op),
            Entry::Answer { txn, number, said } => self.follow_answer(*txn, *number, *said),
            Entry::Undo { txn, number, op } => self.follow_undo(*txn, *number, op),
            Entry::End { txn, outcome } => self.follow_end(*txn, *outcome),
            Entry::Checkpoint { admitted, given } => {
                return self.follow_checkpoint(*admitted, *given);
            }
        };
        if follows {
            Ok(())
        } else {
            Err(Unlike::Illegal)
        }
    }
}

/// The event at a place that the log has.
pub fn event_at(log: &Log, place: usize) -> Entry<'_>
    requires { place < length log.now.events }
    ensures { StandsAt log.now.events place (seen result) }
{
    log.entry(place)
}

// The state behind a log's first so many events, where each is allowed. Nothing is told of data
// components.
fn replayed(alloc: Global, procs: &Procs, log: &Log, events: usize) -> Result<TcState, CheckFault>
    requires { events ≤ length log.now.events }
    ensures procs { IfOk result (λ s. s.procs ≡ procs.now.codes) }
    ensures given_up { IfOk result (λ s. s.given_up ≡ []) }
    ensures log { IfOk result (λ s. s.events ≡ first_events events log.now.events) }
    ensures fault { IfErr result (IsFault procs.now.codes log.now.events) }
{
    let Ok(shared) = procs.shared() else {
        return Err(CheckFault::Memory);
    };
    let Ok(mut state) = TcState::over(alloc, shared) else {
        return Err(CheckFault::Memory);
    };
    for place in 0..events {
        state.known();
        match state.follow(&event_at(log, place)) {
            Ok(()) => {}
            Err(Unlike::Illegal) => {
                drop(state);
                return Err(CheckFault::LogIllegal(place));
            }
            Err(Unlike::Memory) => {
                drop(state);
                return Err(CheckFault::Memory);
            }
        }
    }
    Ok(state)
}

// A book of a log's first so many events, where each is allowed.
pub(crate) fn first_book(
    alloc: Global,
    procs: &Procs,
    log: &Log,
    events: usize,
) -> Result<Book, CheckFault>
    requires { events ≤ length log.now.events }
    ensures kept { IfOk result (IsBook procs.now.codes) }
    ensures given_up { IfOk result (λ book. book.given_up.numbers ≡ []) }
    ensures log { IfOk result (λ book. book.log.events ≡ first_events events log.now.events) }
    ensures fault { IfErr result (IsFault procs.now.codes log.now.events) }
{
    let TcState {
        alloc: _,
        procs,
        book,
    } = replayed(alloc, procs, log, events)?;
    drop(procs);
    Ok(book)
}

// A book of all of a log's events, where each is allowed.
fn book_of(alloc: Global, procs: &Procs, log: &Log) -> Result<Book, CheckFault>
    ensures kept { IfOk result (IsBook procs.now.codes) }
    ensures log { IfOk result (λ book. book.log.events ≡ log.now.events) }
    ensures fault { IfErr result (IsFault procs.now.codes log.now.events) }
{
    first_book(alloc, procs, log, log.len())
}

/// What stands behind a log, where it is legal.
pub fn stands_behind(alloc: Global, procs: &Procs, log: &Log) -> Result<Checked, CheckFault>
    ensures legal { OnOk result (Legal procs.now.codes log.now.events) }
    ensures locks { IfOk result (λ b. AreHeld b.locks (held (decls procs.now.codes) log.now.events)) }
    ensures open { IfOk result (λ b. b.open ≡ total each_one log.now.events) }
    ensures fault { IfErr result (IsFault procs.now.codes log.now.events) }
{
    let book = book_of(alloc, procs, log)?;
    let open = book.txns.len();
    let Book {
        txns,
        locks,
        numbers,
        log,
        given_up,
        serials: _,
        owed: _,
        promised: _,
        sites,
        starts,
    } = book;
    drop(txns);
    drop(numbers);
    drop(log);
    drop(given_up);
    drop(sites);
    drop(starts);
    Ok(Checked { locks, open })
}

/// Whether a log is legal: each event was allowed behind the ones before it.
pub fn check_log(alloc: Global, procs: &Procs, log: &Log) -> Result<(), CheckFault>
    ensures legal { OnOk result (Legal procs.now.codes log.now.events) }
    ensures fault { IfErr result (IsFault procs.now.codes log.now.events) }
{
    let book = book_of(alloc, procs, log)?;
    drop(book);
    Ok(())
}
