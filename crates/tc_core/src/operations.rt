// The operations of an open transaction, from its question to its end.

ghost use Rattle.std.specs.Prelude.{◌≡◌, ◌↔◌, ◌+◌, ◌<◌, ◌^◌, [], ◌∷◌, ◌++◌, IsOk, OnOk, OnErr, IfErr};
ghost use Rattle.tc_core.specs.Replies.{ask_reply, after_ask, IsAnswer, after_answer, end_of, end_reply, after_end, undo_reply, after_undo};
ghost use Rattle.tc_core.specs.Replies as Replies;
ghost use Rattle.tc_core.specs.Lent.{wire_of};
ghost use Rattle.tc_core.specs.GivingUp.{IsOpenHere, with_given_up};

use crate::sites::{is_heard, site_of};
use crate::state::{Asked, Down, NotOver, Receipt, Request, Stranger, TcState, TxnId};
use crate::transaction::NextStep;
use access_slots::op::{Reply, Wire};
use request_numbers::numbers::Numbers;
use tc_log::event::{Event, Outcome};

// The next number, of which there are some.
#[inline(always)]
fn next_number(numbers: &mut Numbers) -> u64
    requires room { 0 < numbers.old.room }
    requires few { numbers.old.last < 2 ^ 62 }
    ensures number { result ≡ numbers.old.last + 1 }
    ensures last { numbers.new.last ≡ result }
    ensures pending { numbers.new.pending ≡ numbers.old.pending ++ result ∷ [] }
    ensures room { numbers.new.room + 1 ≡ numbers.old.room }
{
    match numbers.next() {
        Ok(number) => number,
        Err(_) => unreachable!(),
    }
}

// One that has committed isn't to be undone.
fn undone(outcome: Outcome) -> Asked
    ensures { result ≡ Replies.undone outcome }
{
    match outcome {
        Outcome::Committed => Asked::Running,
        Outcome::Aborted(_) | Outcome::NoRoom => Asked::Over,
    }
}

impl TcState {
    /// Runs the transaction to its next operation or its end.
    #[inline(always)]
    pub fn ask(&mut self, txn: TxnId) -> Asked
        ensures reply { result ≡ ask_reply self.old txn.serial }
        ensures state { self.new ≡ after_ask self.old result }
    {
        let Some(key) = self.book.txns.find(txn.serial) else {
            return Asked::Unknown;
        };
        match self.book.txns.at(key).next() {
            NextStep::Waits(number) => Asked::Waits(number),
            NextStep::Undoes(_) => Asked::Undoing,
            NextStep::Stuck(number) => Asked::Stuck(number),
            NextStep::Over(_) => Asked::Over,
            NextStep::Asks(op) => {
                let number = next_number(&mut self.book.numbers);
                let request = Request {
                    txn: txn.serial,
                    number,
                    op: *op,
                };
                self.book.log.push(Event::Ask {
                    txn: txn.serial,
                    number,
                    op: request.op,
                });
                self.book.txns.send(key, number, &request.op);
                self.book.owed -= 1;
                self.book.promised -= 1;
                Asked::Request(request)
            }
        }
    }

    /// Gives what undoes the last write that stands, of a transaction that is to be undone.
    #[inline(always)]
    pub fn undo_next(&mut self, txn: TxnId) -> Asked
        ensures reply { result ≡ undo_reply self.old txn.serial }
        ensures state { self.new ≡ after_undo self.old result }
    {
        let Some(key) = self.book.txns.find(txn.serial) else {
            return Asked::Unknown;
        };
        match self.book.txns.at(key).next() {
            NextStep::Waits(number) => Asked::Waits(number),
            NextStep::Asks(_) => Asked::Running,
            NextStep::Stuck(number) => Asked::Stuck(number),
            NextStep::Over(outcome) => undone(outcome),
            NextStep::Undoes(op) => {
                let number = next_number(&mut self.book.numbers);
                let request = Request {
                    txn: txn.serial,
                    number,
                    op: *op,
                };
                self.book.log.push(Event::Undo {
                    txn: txn.serial,
                    number,
                    op: request.op,
                });
                self.book.txns.send_undo(key, number, &request.op);
                self.book.owed -= 1;
                self.book.promised -= 1;
                Asked::Request(request)
            }
        }
    }

    /// What is sent for a request now: its number and operation, the low-water mark of now and the
    /// known incarnation of its data component. A resend makes it again. Nothing is sent while the
    /// data component is down.
    // Inlined it would read into the request where that stands in locals, and split each copy of it.
    #[inline(never)]
    pub fn wire(&self, request: &Request) -> Result<Wire, Down>
        ensures { result ≡ wire_of self.now request.now }
    {
        let site = site_of(self.book.sites.as_slice(), &request.op);
        match site.redo {
            Some(_) => Err(Down),
            None => Ok(Wire {
                number: request.number,
                low_water: self.book.numbers.low_water(),
                incarnation: site.incarnation,
                redo: false,
                op: request.op,
            }),
        }
    }

    /// Takes a reply in. One that isn't to the request, or isn't of the known incarnation, or comes
    /// while the data component is down, changes nothing. A number that is answered isn't given up any
    /// more.
    #[inline(always)]
    pub fn answer(&mut self, request: Request, reply: Reply) -> Result<(), Stranger>
        ensures accepted { IsOk result ↔ IsAnswer self.old request reply }
        ensures ok { OnOk result (self.new ≡ after_answer self.old request reply.said) }
        ensures err { OnErr result (self.new ≡ self.old) }
        ensures back { IfErr result (λ stranger. stranger.request ≡ request) }
    {
        if !is_heard(&site_of(self.book.sites.as_slice(), &request.op), &reply) {
            return Err(Stranger { request });
        }
        let Some(key) = self.book.txns.find(request.txn) else {
            return Err(Stranger { request });
        };
        let tx = self.book.txns.at(key);
        if !tx.accepts(request.number, &request.op, &reply) {
            return Err(Stranger { request });
        }
        let code = self.procs.at(tx.proc);
        let was_given_up = tx.in_doubt;
        let Request { txn, number, op: _ } = request;
        self.book.txns.hear(key, code, &reply.said);
        self.book.numbers.answered(number);
        self.book.given_up.remove(number, was_given_up);
        self.book.log.push(Event::Answer {
            txn,
            number,
            said: reply.said,
        });
        self.book.owed -= 1;
        Ok(())
    }

    /// Gives a request up, and says its number. The operation stays open and the locks stay held. If
    /// the request is open here, its transaction is in doubt from now on.
    pub fn give_up(&mut self, request: Request) -> u64
        ensures number { result ≡ request.number }
        ensures events { self.new.events ≡ self.old.events }
        ensures procs { self.new.procs ≡ self.old.procs }
        ensures rest { self.new ≡ record self.old { given_up = self.new.given_up } }
        ensures open_here { IsOpenHere self.old request → self.new ≡ with_given_up self.old request.number }
        ensures elsewhere { (IsOpenHere self.old request → ⊥) → self.new ≡ self.old }
    {
        let Request { txn, number, op } = request;
        let Some(key) = self.book.txns.find(txn) else {
            return number;
        };
        let tx = self.book.txns.at(key);
        if !tx.awaits(number, &op) {
            return number;
        }
        if tx.in_doubt {
            return number;
        }
        self.book.given_up.add(number);
        self.book.txns.doubt(key);
        number
    }

    /// Ends a transaction that is over, and releases its locks.
    // As `wire`, it stands apart from its caller's step: a move takes fewer machine instructions so (docs/DESIGN.md).
    #[inline(never)]
    pub fn end(&mut self, txn: TxnId) -> Result<Receipt, NotOver>
        ensures reply { result ≡ end_reply self.old txn.serial (end_of self.old txn.serial) }
        ensures state { self.new ≡ after_end self.old txn.serial (end_of self.old txn.serial) }
    {
        let Some(key) = self.book.txns.find(txn.serial) else {
            return Err(NotOver);
        };
        let tx = self.book.txns.at(key);
        let Some(outcome) = tx.ending() else {
            return Err(NotOver);
        };
        let left = tx.left;
        let place = self.book.log.len();
        let owed = self.book.owed;
        self.book.log.push(Event::End {
            txn: txn.serial,
            outcome,
        });
        self.book.locks.release(txn.serial);
        self.book.txns.remove(key);
        self.book.owed = owed - (2 * left as usize + 1);
        self.book.promised -= left;
        Ok(Receipt {
            place,
            txn: txn.serial,
            outcome,
        })
    }
}
