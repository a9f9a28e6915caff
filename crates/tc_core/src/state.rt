//! The state, and the calls on it.

ghost use Rattle.std.specs.Prelude.{◌≡◌, [], ◌∷◌, ◌++◌, length, replicate, None};
ghost use Rattle.std.specs.Prelude.{IfOk, OnOk, IfErr, OnErr, IfSome, IfNone, IsSome};
ghost use Rattle.history.specs.Calls.{admitted};
ghost use Rattle.transactions.specs.Standing.{standing};
ghost use Rattle.transactions.specs.Legal.{Legal};
ghost use Rattle.transactions.specs.Room.{each_one, total};
ghost use Rattle.transactions.specs.Reached.{AllGood};
ghost use Rattle.transactions.specs.InFlight.{untold, site_at};
ghost use Rattle.tc_core.specs.Loaded.{number_of, AllReach};
ghost use Rattle.tc_core.specs.Loading.{load_refusal, IsFirstRefusal};
ghost use Rattle.tc_core.specs.Core.{loaded_in};

use crate::book::Book;
use crate::procs::{LoadFault, Procs};
use crate::sites::site_at;
use access_slots::op::{Op, Wire};
use lock_table::table::Busy;
use std::alloc::{AllocError, Global};
use std::marker::Model;
use tc_log::event::Outcome;
use tc_log::log::Log;
use transactions::Site;
use verifier::verify::Verified;

/// The name of a transaction.
#[derive(Clone, Copy, Debug, PartialEq, Eq)]
pub struct TxnId {
    pub(crate) serial: u64,
}

impl TxnId {
    /// Its serial number: 1 for the first admission, then rising by one.
    pub fn serial(self) -> u64
        ensures { result ≡ self.serial }
    {
        self.serial
    }
}

/// A procedure's number and its arguments.
#[derive(Debug, Drop)]
pub struct Call {
    pub proc: usize,
    pub args: Vec<u64>,
}

/// Why a call isn't admitted, in the order in which it is looked for.
#[derive(Clone, Copy, Debug, PartialEq, Eq)]
pub enum Refusal {
    /// B4: there is no procedure with this number.
    NoProcedure,
    /// B5: the procedure takes another number of arguments.
    ArgumentCount,
    /// B1: another transaction holds a lock that stands in the way.
    Busy(Busy),
    /// B2: too few request numbers are left, of 2^62.
    NumbersSpent,
    /// B3: memory ran out.
    Memory,
}

/// An operation to be sent. It can't be made outside, but by [`TcState::request`] again for a state that
/// came back, and must be spent: by [`TcState::answer`] or [`TcState::give_up`].
#[derive(Debug)]
pub struct Request {
    pub(crate) txn: u64,
    pub(crate) number: u64,
    pub(crate) op: Op,
}

impl Model for Request {
    ghost use Rattle.tc_core.specs.Core.{Asking};

    ghost Value = { Asking };

    ghost view = { λ r. record { txn = r.txn; number = r.number; op = r.op } };
}

impl Request {
    /// The serial number of its transaction.
    pub fn txn(&self) -> u64
        ensures { result ≡ self.now.txn }
    {
        self.txn
    }

    /// Its number.
    pub fn number(&self) -> u64
        ensures { result ≡ self.now.number }
    {
        self.number
    }

    /// Its operation.
    pub fn op(&self) -> Op
        ensures { result ≡ self.now.op }
    {
        self.op
    }
}

/// What a transaction does next.
#[derive(Debug)]
pub enum Asked {
    /// An operation under a new number, which is logged.
    Request(Request),
    /// It is to be undone: [`TcState::undo_next`] gives what undoes its writes.
    Undoing,
    /// Nothing is left to do but [`TcState::end`].
    Over,
    /// A write couldn't be undone under four numbers, of which this is the last. The locks stay
    /// held.
    Stuck(u64),
    /// The request with this number is open.
    Waits(u64),
    /// It isn't to be undone.
    Running,
    /// No such transaction is open.
    Unknown,
}

/// Where in the log a transaction ended, counted from 0, and how.
#[derive(Clone, Copy, Debug, PartialEq, Eq)]
pub struct Receipt {
    pub place: usize,
    pub txn: u64,
    pub outcome: Outcome,
}

/// The transaction can't end now.
#[derive(Clone, Copy, Debug, PartialEq, Eq)]
pub struct NotOver;

/// A reply that isn't one to the request, which is handed back.
#[derive(Debug)]
pub struct Stranger {
    pub request: Request,
}

/// The data component is down.
#[derive(Clone, Copy, Debug, PartialEq, Eq)]
pub struct Down;

/// Why news of a restart aren't taken.
#[derive(Clone, Copy, Debug, PartialEq, Eq)]
pub enum NewsFault {
    /// Q1: there is no such data component.
    NoDc,
    /// Q2: their incarnation isn't above the known one.
    OldNews,
    /// Q3: their mark is below the numbers behind which the log begins: what the data component lost
    /// can't be redone from here.
    Forgotten,
}

/// How the redo of a data component goes on.
#[derive(Clone, Copy, Debug, PartialEq, Eq)]
pub enum Redo {
    /// This is to be sent: the operation under redo. It is the same until [`TcState::redone`].
    Send(Wire),
    /// Nothing is left to be redone, and the data component is up.
    Finished,
    /// The data component isn't down.
    NotDown,
    /// There is no such data component.
    NoDc,
}

/// A reply that isn't one to the operation under redo.
#[derive(Clone, Copy, Debug, PartialEq, Eq)]
pub struct RedoMismatch;

/// The state of a transaction component.
#[derive(Drop)]
pub struct TcState {
    pub(crate) alloc: Global,
    pub(crate) procs: Procs,
    pub(crate) book: Book,
}

impl Model for TcState {
    ghost use Rattle.std.specs.Prelude.{◌≡◌, length};
    ghost use Rattle.tc_core.specs.Core.{Core};
    ghost use Rattle.tc_core.specs.Kept.{core_of, IsBook};

    ghost Value = { Core };

    ghost view = { λ s. core_of s.procs s.book };

    ghost invariant = { λ s. IsBook s.procs.codes s.book × (length s.book.sites.items ≡ s.procs.dcs) };
}

impl TcState {
    /// For data components numbered below `dcs`: no procedure is loaded, and nothing has happened.
    pub fn new(alloc: Global, dcs: u16) -> Result<TcState, AllocError>
        ensures dcs { IfOk result (λ s. s.dcs ≡ dcs) }
        ensures procs { IfOk result (λ s. (s.procs ≡ []) × (s.names ≡ [])) }
        ensures events { IfOk result (λ s. s.events ≡ []) }
        ensures given_up { IfOk result (λ s. s.given_up ≡ []) }
        ensures sites { IfOk result (λ s. s.sites ≡ replicate dcs untold) }
    {
        TcState::over(alloc, Procs::new(alloc, dcs))
    }

    /// For these procedures, and nothing has happened.
    pub(crate) fn over(alloc: Global, procs: Procs) -> Result<TcState, AllocError>
        ensures procs { IfOk result (λ s. loaded_in s ≡ procs) }
        ensures events { IfOk result (λ s. s.events ≡ []) }
        ensures given_up { IfOk result (λ s. s.given_up ≡ []) }
        ensures sites { IfOk result (λ s. s.sites ≡ replicate procs.dcs untold) }
    {
        procs.known();
        match Book::new(alloc, procs.dcs()) {
            Ok(book) => Ok(TcState { alloc, procs, book }),
            Err(error) => {
                drop(procs);
                Err(error)
            }
        }
    }

    /// What the type keeps, told to a caller.
    #[inline(always)]
    pub fn known(&self)
        ensures legal { Legal self.now.procs self.now.events }
        ensures good { AllGood self.now.procs }
        ensures reach { AllReach self.now.dcs self.now.procs }
        ensures sites { length self.now.sites ≡ self.now.dcs }
    {
        self.procs.known();
    }

    /// Loads a procedure under a name that no other has; each of its slots names a data component
    /// that is there. Its number is how many were loaded before.
    pub fn load(&mut self, name: &str, code: Verified) -> Result<usize, LoadFault>
        ensures allowed { OnOk result (load_refusal self.old.dcs self.old.names name.now code.decl.slots ≡ None) }
        ensures number { IfOk result (λ n. n ≡ length self.old.procs) }
        ensures ok { OnOk result
            (self.new ≡ record self.old { procs = self.old.procs ++ code ∷ []; names = self.old.names ++ name.now ∷ [] }) }
        ensures refused { IfErr result
            (λ fault. IsFirstRefusal (load_refusal self.old.dcs self.old.names name.now code.decl.slots) fault.why) }
        ensures err { OnErr result (self.new ≡ self.old) }
        ensures back { IfErr result (λ fault. fault.code ≡ code) }
    {
        self.procs.load(name, code)
    }

    /// The number of the procedure with this name.
    pub fn find(&self, name: &str) -> Option<usize>
        ensures { result ≡ number_of name.now self.now.names }
    {
        self.procs.find(name)
    }

    /// The loaded procedures.
    pub fn procs(&self) -> &Procs
        ensures { result.now ≡ loaded_in self.now }
    {
        &self.procs
    }

    /// How many data components it has: 0, 1, .. below this number.
    pub fn dcs(&self) -> u16
        ensures { result ≡ self.now.dcs }
    {
        self.procs.dcs()
    }

    /// The open transaction with this serial number.
    pub fn find_txn(&self, serial: u64) -> Option<TxnId>
        ensures found { IfSome result (λ id. (id.serial ≡ serial) × IsSome (standing self.now.events serial)) }
        ensures absent { IfNone result (standing self.now.events serial ≡ None) }
    {
        match self.book.txns.find(serial) {
            Some(_) => Some(TxnId { serial }),
            None => None,
        }
    }

    /// How many transactions are open.
    pub fn open_count(&self) -> usize
        ensures { result ≡ total each_one self.now.events }
    {
        self.book.txns.len()
    }

    /// The serial number of the last admission, or 0: open transactions have those up to it.
    pub fn admitted(&self) -> u64
        ensures { result ≡ admitted self.now.events }
    {
        self.book.serials
    }

    /// What happened.
    pub fn log(&self) -> &Log
        ensures { result.now.events ≡ self.now.events }
    {
        &self.book.log
    }

    /// What is known of a data component: its incarnation, and whether it is down; of one that isn't
    /// there, as if nothing was told of it.
    pub fn site(&self, dc: usize) -> Site
        ensures { result ≡ site_at self.now.sites dc }
    {
        site_at(self.book.sites.as_slice(), dc)
    }
}
