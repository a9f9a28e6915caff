// Restarts of data components, and what is to be redone then, as the log has it.

ghost use Rattle.std.specs.Prelude.{◌≡◌, ◌↔◌, ◌+◌, ◌^◌, ◌<◌, ◌≤◌, length, drop, reverse, Some, None, IfSome, IfNone};
ghost use Rattle.std.specs.Prelude.{IsTrue, IsOk, OnOk, IfErr, OnErr};
ghost use Rattle.history.specs.Redo.{is_done};
ghost use Rattle.tc_core.specs.Redo.{news_fault, after_told, redo_wire, redo_reply, redo_behind, after_redo, IsRedone, after_redone};
ghost use Rattle.tc_core.specs.Joining.Scanning.{said_in, first_in, scan};

use crate::sites::known;
use crate::state::{NewsFault, Redo, RedoMismatch, TcState};
use access_slots::op::{News, Reply, Said, Wire};
use history::Answered;
use tc_log::event::Entry;
use tc_log::log::Log;
use transactions::{Redoing, Site};

// The first answer to a number, from a place on.
fn said_in(log: &Log, from: usize, number: u64) -> Option<Said>
    ensures { result ≡ said_in (drop from (reverse log.now.events)) number }
{
    for place in from..log.len() {
        if let Entry::Answer {
            number: answered,
            said,
            ..
        } = log.entry(place)
        {
            if answered == number {
                return Some(said);
            }
        }
    }
    None
}

fn is_done(said: &Said) -> bool
    ensures { result ≡ is_done said.now }
{
    matches!(said, Said::Done(_))
}

// What is to be redone of the event at a place.
fn at(log: &Log, place: usize, dc: u16, after: u64) -> Option<Answered>
    requires { place < length log.now.events }
    ensures { result ≡ first_in dc after (drop place (reverse log.now.events)) }
{
    let (txn, number, op) = match log.entry(place) {
        Entry::Ask { txn, number, op } => (txn, number, op),
        Entry::Undo { txn, number, op } => (txn, number, op),
        _ => return None,
    };
    if number <= after || op.record().dc != dc {
        return None;
    }
    match said_in(log, place, number) {
        Some(said) if is_done(&said) => Some(Answered {
            txn,
            number,
            op,
            said,
        }),
        _ => None,
    }
}

// The first operation of the data component above the number that was done, looked for from a place
// of the log on; and where it was sent.
fn find_done(log: &Log, from: usize, dc: u16, after: u64) -> Option<(usize, Answered)>
    ensures inside { IfSome result (λ x. x.0 < length (reverse log.now.events)) }
    ensures fits { IfSome result (λ x. x.0 + 1 < 2 ^ 64) }
    ensures there { IfSome result (λ x. first_in dc after (drop x.0 (reverse log.now.events)) ≡ Some x.1) }
    ensures found { IfSome result (λ x. scan dc after (drop from (reverse log.now.events)) ≡ Some x.1) }
    ensures none { IfNone result (scan dc after (drop from (reverse log.now.events)) ≡ None) }
{
    for place in from..log.len() {
        if let Some(answered) = at(log, place, dc, after) {
            return Some((place, answered));
        }
    }
    None
}

// What is sent to redo an operation.
#[inline(always)]
fn wire_of(answered: &Answered, incarnation: u64, mark: u64) -> Wire
    ensures { result ≡ redo_wire incarnation mark answered.now }
{
    Wire {
        number: answered.number,
        low_water: mark,
        incarnation,
        redo: true,
        op: answered.op,
    }
}

// Whether the reply is what was said to the operation, of this incarnation.
#[inline(always)]
fn is_said(answered: &Answered, incarnation: u64, reply: &Reply) -> bool
    ensures { IsTrue result ↔
        ((reply.now.number ≡ answered.now.number) × (reply.now.incarnation ≡ incarnation) × (reply.now.said ≡ answered.now.said)) }
{
    reply.number == answered.number
        && reply.incarnation == incarnation
        && reply.said == answered.said
}

impl TcState {
    /// A data component has restarted: it is down, also where it was down already, and what was done
    /// there above the mark is to be redone.
    pub fn told(&mut self, dc: u16, news: News) -> Result<(), NewsFault>
        ensures taken { OnOk result (news_fault self.old dc news ≡ None) }
        ensures ok { OnOk result (self.new ≡ after_told self.old dc news) }
        ensures fault { IfErr result (λ f. news_fault self.old dc news ≡ Some f) }
        ensures err { OnErr result (self.new ≡ self.old) }
    {
        let at = usize::from(dc);
        if at >= self.book.sites.len() {
            return Err(NewsFault::NoDc);
        }
        if news.incarnation <= self.book.sites[at].incarnation {
            return Err(NewsFault::OldNews);
        }
        if news.mark < self.book.given_up.from() {
            return Err(NewsFault::Forgotten);
        }
        self.book.sites[at] = Site {
            incarnation: news.incarnation,
            redo: Some(Redoing {
                mark: news.mark,
                redone: news.mark,
            }),
        };
        self.book.starts[at] = 0;
        Ok(())
    }

    /// What is sent to redo the next operation of a data component that is down, the same until it is
    /// redone; where none is left the data component is up, and open requests are sent again.
    #[inline(always)]
    pub fn redo_next(&mut self, dc: u16) -> Redo
        ensures reply { result ≡ redo_reply self.old dc }
        ensures state { self.new ≡ after_redo self.old dc result }
    {
        let Some((site, start)) = known(self.book.sites.as_slice(), self.book.starts.as_slice(), dc)
        else {
            return Redo::NoDc;
        };
        let Some(redo) = site.redo else {
            return Redo::NotDown;
        };
        match find_done(&self.book.log, start, dc, redo.redone) {
            Some((_, answered)) => Redo::Send(wire_of(&answered, site.incarnation, redo.mark)),
            None => {
                let at = usize::from(dc);
                self.book.sites[at] = Site {
                    incarnation: site.incarnation,
                    redo: None,
                };
                Redo::Finished
            }
        }
    }

    /// What will be sent to redo the next operation once all up to this number is redone, where the data
    /// component stays down so long: for several at once. It changes nothing.
    pub fn redo_behind(&self, dc: u16, number: u64) -> Redo
        ensures { result ≡ redo_behind self.now dc number }
    {
        let Some((site, start)) = known(self.book.sites.as_slice(), self.book.starts.as_slice(), dc)
        else {
            return Redo::NoDc;
        };
        let Some(redo) = site.redo else {
            return Redo::NotDown;
        };
        let after = redo.redone.max(number);
        match find_done(&self.book.log, start, dc, after) {
            Some((_, answered)) => Redo::Send(wire_of(&answered, site.incarnation, redo.mark)),
            None => Redo::Finished,
        }
    }

    /// Takes a reply in that says of the operation under redo what was said to it before. Another
    /// changes nothing.
    pub fn redone(&mut self, dc: u16, reply: &Reply) -> Result<(), RedoMismatch>
        ensures accepted { IsOk result ↔ IsRedone self.old dc reply.now }
        ensures ok { OnOk result (self.new ≡ after_redone self.old dc reply.now.number) }
        ensures err { OnErr result (self.new ≡ self.old) }
    {
        let Some((site, start)) = known(self.book.sites.as_slice(), self.book.starts.as_slice(), dc)
        else {
            return Err(RedoMismatch);
        };
        let Some(redo) = site.redo else {
            return Err(RedoMismatch);
        };
        let Some((place, answered)) = find_done(&self.book.log, start, dc, redo.redone) else {
            return Err(RedoMismatch);
        };
        if !is_said(&answered, site.incarnation, reply) {
            return Err(RedoMismatch);
        }
        let at = usize::from(dc);
        self.book.sites[at] = Site {
            incarnation: site.incarnation,
            redo: Some(Redoing {
                mark: redo.mark,
                redone: answered.number,
            }),
        };
        self.book.starts[at] = place + 1;
        Ok(())
    }
}
