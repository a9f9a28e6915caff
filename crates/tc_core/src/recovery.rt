//! A state that comes back from what was written: its log, and what was known of data components.

ghost use Rattle.std.specs.Prelude.{◌≡◌, ◌≤◌, [], length, map, vec_capacity, IfOk, OnOk, IfErr, OnErr, IfSome, IfNone};
ghost use Rattle.history.specs.Anew.{begun};
ghost use Rattle.transactions.specs.Legal.{Legal};
ghost use Rattle.transactions.specs.Standing.{standing};
ghost use Rattle.tc_core.specs.Checking.{IsFault};
ghost use Rattle.tc_core.specs.GivingUp.{IsOpenHere};
ghost use Rattle.tc_core.specs.Kept.{IsBook};
ghost use Rattle.tc_core.specs.Recovery.{asking_by, first_events, open_request, recovered, sent_in, site_noted, AllReach, IsForgotten, IsRecoverFault, reaches};

use crate::book::Book;
use crate::checking::{CheckFault, first_book};
use crate::sites::{UNTOLD, starts};
use crate::state::{Request, TcState, TxnId};
use access_slots::op::News;
use std::alloc::{AllocError, Global};
use std::mem;
use tc_log::log::Log;
use transactions::{Redoing, Sent, Site};

/// What was last written of a data component that outlives the transaction component. Each is to be
/// written before a wire that rests on it is carried: a restart before the first wire of its redo, its
/// end before the first wire behind the redo. A state that came back without them would take replies
/// of earlier incarnations, or redo from a mark that the data component has passed since.
#[derive(Clone, Copy, Debug, PartialEq, Eq)]
pub enum SiteNote {
    /// Nothing: it is up, in incarnation 0.
    Untold,
    /// That these news of a restart were taken: it is down, and is redone anew, above their mark.
    Restarted(News),
    /// That its redo was over: it is up, in this incarnation.
    Up(u64),
}

/// Why a state doesn't come back.
#[derive(Clone, Copy, Debug, PartialEq, Eq)]
pub enum RecoverFault {
    /// Something has happened here already.
    Begun,
    /// What was written isn't one note for each data component.
    DcCount,
    /// The log isn't legal, or memory ran out.
    Unfit(CheckFault),
    /// The log begins behind the mark of this data component's restart: what it lost can't be redone from
    /// here.
    Forgotten(usize),
}

// What is known of a data component of which this was written last.
fn site_noted(note: &SiteNote) -> Site
    ensures { result ≡ site_noted note.now }
{
    match note {
        SiteNote::Untold => UNTOLD,
        SiteNote::Restarted(news) => Site {
            incarnation: news.incarnation,
            redo: Some(Redoing {
                mark: news.mark,
                redone: news.mark,
            }),
        },
        SiteNote::Up(incarnation) => Site {
            incarnation: *incarnation,
            redo: None,
        },
    }
}

fn sites_noted(alloc: Global, notes: &[SiteNote]) -> Result<Vec<Site>, AllocError>
    ensures { IfOk result (λ sites. sites.items ≡ map site_noted notes.now) }
{
    let mut sites = Vec::with_capacity(alloc, notes.len())?;
    for note in notes {
        sites.push(site_noted(note))?;
    }
    Ok(sites)
}

// Whether what the data component lost can be redone from a log that begins behind this number.
fn reaches(from: u64, note: &SiteNote) -> bool
    ensures { result ≡ reaches from note.now }
{
    match note {
        SiteNote::Restarted(news) => from <= news.mark,
        SiteNote::Untold | SiteNote::Up(_) => true,
    }
}

// The first data component that lost what a log has no more which begins behind this number.
fn first_forgotten(from: u64, notes: &[SiteNote]) -> Option<usize>
    ensures none { IfNone result (AllReach from notes.now) }
    ensures some { IfSome result (IsForgotten from notes.now) }
{
    for (place, note) in notes.iter().enumerate() {
        if !reaches(from, note) {
            return Some(place);
        }
    }
    None
}

// The request of what is awaited.
fn asking_by(txn: u64, sent: Option<Sent>) -> Option<Request>
    ensures { result ≡ asking_by txn sent }
{
    match sent {
        None => None,
        Some(sent) => Some(Request {
            txn,
            number: sent.number,
            op: sent.op,
        }),
    }
}

// Requests that are void: they are spent.
fn spend(requests: &mut Vec<Request>)
    ensures items { requests.new.items ≡ [] }
    ensures capacity { vec_capacity requests.new ≡ vec_capacity requests.old }
{
    while let Some(request) = requests.pop() {
        let Request {
            txn: _,
            number: _,
            op: _,
        } = request;
    }
}

impl TcState {
    // A book of a log's first so many events, with what was noted of each data component.
    fn recovered(&self, log: &Log, events: usize, notes: &[SiteNote]) -> Result<Book, CheckFault>
        requires events { events ≤ length log.now.events }
        requires notes { length notes.now ≡ self.now.dcs }
        ensures kept { IfOk result (IsBook self.now.procs) }
        ensures events { IfOk result (λ book. book.log.events ≡ first_events events log.now.events) }
        ensures given_up { IfOk result (λ book. book.given_up.numbers ≡ []) }
        ensures sites { IfOk result (λ book. book.sites.items ≡ map site_noted notes.now) }
        ensures fault { IfErr result (IsFault self.now.procs log.now.events) }
    {
        let Ok(sites) = sites_noted(self.alloc, notes) else {
            return Err(CheckFault::Memory);
        };
        let Ok(starts) = starts(self.alloc, self.procs.dcs()) else {
            return Err(CheckFault::Memory);
        };
        let mut book = first_book(self.alloc, &self.procs, log, events)?;
        book.sites = sites;
        book.starts = starts;
        Ok(book)
    }

    /// Comes back from a log, if it is legal for the procedures loaded here, there is a note for each
    /// data component, nothing has happened here yet, and what data components lost can be redone from
    /// where the log begins: what happened is the log, nothing is given up, and of data components is
    /// known what was noted. Nobody holds a request: [`TcState::request`] makes those that are open again.
    pub fn recover(&mut self, log: &Log, notes: &[SiteNote]) -> Result<(), RecoverFault>
        ensures begun { OnOk result (self.old.events ≡ []) }
        ensures legal { OnOk result (Legal self.old.procs log.now.events) }
        ensures count { OnOk result (length notes.now ≡ self.old.dcs) }
        ensures ok { OnOk result (self.new ≡ recovered self.old log.now.events notes.now) }
        ensures err { OnErr result (self.new ≡ self.old) }
        ensures reaches { OnOk result (AllReach (begun log.now.events) notes.now) }
        ensures fault { IfErr result (IsRecoverFault self.old log.now.events notes.now) }
    {
        if !self.book.log.is_empty() {
            return Err(RecoverFault::Begun);
        }
        if notes.len() != usize::from(self.procs.dcs()) {
            return Err(RecoverFault::DcCount);
        }
        let book = match self.recovered(log, log.len(), notes) {
            Ok(book) => book,
            Err(fault) => return Err(RecoverFault::Unfit(fault)),
        };
        let begun = book.given_up.from();
        match first_forgotten(begun, notes) {
            None => {
                drop(mem::replace(&mut self.book, book));
                Ok(())
            }
            Some(dc) => {
                drop(book);
                Err(RecoverFault::Forgotten(dc))
            }
        }
    }

    /// Crashes, and comes back from so many of the first events of its own log and from a note for each
    /// data component, as [`TcState::recover`] does on a new state: what came later is forgotten, and
    /// nothing is given up. The requests that were held are void, and are spent:
    /// [`TcState::request`] makes those that are open again. Want of memory changes nothing.
    pub fn crash(
        &mut self,
        events: usize,
        notes: &[SiteNote],
        requests: &mut Vec<Request>,
    ) -> Result<(), AllocError>
        requires events { events ≤ length self.old.events }
        requires notes { length notes.now ≡ self.old.dcs }
        ensures ok { OnOk result (self.new ≡ recovered self.old (first_events events self.old.events) notes.now) }
        ensures spent { OnOk result (requests.new.items ≡ []) }
        ensures err { OnErr result (self.new ≡ self.old) }
        ensures held { OnErr result (requests.new.items ≡ requests.old.items) }
        ensures room { vec_capacity requests.new ≡ vec_capacity requests.old }
    {
        match self.recovered(&self.book.log, events, notes) {
            Ok(book) => drop(mem::replace(&mut self.book, book)),
            Err(CheckFault::Memory) => return Err(AllocError),
            Err(CheckFault::LogIllegal(_)) => unreachable!(),
        }
        spend(requests);
        Ok(())
    }

    /// The operation that an open transaction waits for, and its number.
    pub fn waits_for(&self, txn: TxnId) -> Option<Sent>
        ensures { result ≡ sent_in (standing self.now.events txn.serial) }
    {
        let key = self.book.txns.find(txn.serial)?;
        self.book.txns.at(key).sent
    }

    /// The request of the operation that an open transaction waits for, made again: for a state that
    /// came back, whose requests nobody holds. Where one is held, either can be answered, and the other
    /// is then a [`Stranger`]'s.
    pub fn request(&self, txn: TxnId) -> Option<Request>
        ensures request { result ≡ open_request self.now txn.serial }
        ensures open_here { IfSome result (IsOpenHere self.now) }
    {
        let key = self.book.txns.find(txn.serial)?;
        asking_by(txn.serial, self.book.txns.at(key).sent)
    }
}
