// How a call is admitted.

ghost use Rattle.std.specs.Prelude.{◌≡◌, ◌↔◌, ◌+◌, ◌*◌, ◌≤◌, ◌^◌, List, ◌∷◌, nat_lt, [], length, IsTrue, IfOk, OnOk, IfErr, OnErr};
ghost use Rattle.access_slots.specs.declared.slot.Record.{Record};
ghost use Rattle.access_slots.specs.Locks.{mode_in, mode_named, Rising};
ghost use Rattle.tc_log.specs.declared.event.Event.TheVariants.{Admit};
ghost use Rattle.history.specs.Calls.{admitted};
ghost use Rattle.verifier.specs.Checked.{Checked};
ghost use Rattle.tc_core.specs.Kept.{IsBook};
ghost use Rattle.tc_core.specs.Replies.{with_event};
ghost use Rattle.tc_core.specs.Admission.{call_of, IsCalled, IsUncallable, IsAdmissible, IsRefused};
ghost use Rattle.tc_core.specs.Joining.Rooms.{OnlyRoom, HasRoom, MayEnter};
ghost use Rattle.tc_core.specs.Blocked.{is_stranded, IsBlocked};

use crate::book::Book;
use crate::procs::Procs;
use crate::state::{Call, Refusal, TcState, TxnId};
use crate::transaction::calls_of;
use crate::undos::Undos;
use access_slots::lock::LockSet;
use std::alloc::{AllocError, Global};
use tc_log::event::{Args, Event};
use verifier::verify::Verified;

// The procedure of a call that has as many arguments as it takes.
#[inline(always)]
fn procedure_of<'a>(procs: &'a Procs, call: &Call) -> Result<&'a Verified, Refusal>
    ensures ok { IfOk result (λ code. IsCalled procs.now.codes (call_of call.now) code.now) }
    ensures err { IfErr result (IsUncallable procs.now.codes (call_of call.now)) }
{
    let Some(code) = procs.get(call.proc) else {
        return Err(Refusal::NoProcedure);
    };
    if call.args.len() != code.decl().args() {
        return Err(Refusal::ArgumentCount);
    }
    Ok(code)
}

// Whether too few numbers are left for a call.
#[inline(always)]
fn is_spent(last: u64, promised: u64, calls: usize) -> bool
    requires sum { last + promised ≤ 2 ^ 62 }
    requires few { calls ≤ 4096 }
    ensures { result ≡ nat_lt (2 ^ 62) (last + 5 * calls + promised) }
{
    5 * calls as u64 > (1 << 62) - (last + promised)
}

impl Book {
    /// Makes room for a call, and answers that for what undoes its writes. What is there stays.
    #[inline(always)]
    fn make_room(&mut self, calls: usize, set: &LockSet) -> Result<Undos, AllocError>
        requires { calls ≤ 4096 }
        ensures kept { OnlyRoom self.old self.new }
        ensures room { OnOk result (HasRoom self.new calls set.now) }
        ensures undone { IfOk result (λ u. u.ops ≡ []) }
        ensures undo { IfOk result (λ u. calls ≤ u.room) }
    {
        let Some(events) = self.owed.checked_add(10 * calls + 2) else {
            return Err(AllocError);
        };
        self.txns.reserve()?;
        let most = self.txns.capacity();
        self.numbers.reserve(most)?;
        self.log.reserve(events)?;
        self.given_up.reserve(most)?;
        self.locks.reserve(set)?;
        self.txns.undo_room(calls)
    }

    // A call that may be admitted, and has its room, is admitted.
    #[inline(always)]
    pub(crate) fn enter(
        &mut self,
        code: &Verified,
        proc: usize,
        args: Args,
        undo: Undos,
        set: &LockSet,
    ) -> TxnId
        requires { (ps : List Checked) × MayEnter ps self.old code.now proc args undo set.now }
        ensures kept { (ps : List Checked) → MayEnter ps self.old code.now proc args undo set.now → IsBook ps self.new }
        ensures serial { result.serial ≡ admitted self.old.log.events + 1 }
        ensures events { self.new.log.events ≡ Admit result.serial proc args ∷ self.old.log.events }
        ensures given_up { self.new.given_up ≡ self.old.given_up }
        ensures sites { self.new.sites ≡ self.old.sites }
    {
        let serial = self.serials + 1;
        let calls = calls_of(code);
        self.locks.claim(serial, set);
        self.txns.enter(code, serial, proc, args.as_slice(), undo);
        self.log.push(Event::Admit {
            txn: serial,
            proc,
            args,
        });
        self.serials = serial;
        self.owed += 10 * calls + 1;
        self.promised += 5 * calls as u64;
        TxnId { serial }
    }
}

impl TcState {
    /// Admits a call: it holds its locks, and has room for all that it may log, from now on.
    #[inline(always)]
    pub fn admit(&mut self, call: &Call) -> Result<TxnId, Refusal>
        ensures ok { IfOk result (λ id. id.serial ≡ admitted self.old.events + 1) }
        ensures state { IfOk result (λ id. self.new ≡ with_event self.old (Admit id.serial call.now.proc call.now.args.items)) }
        ensures admitted { OnOk result (IsAdmissible self.old (call_of call.now)) }
        ensures err { OnErr result (self.new ≡ self.old) }
        ensures refused { IfErr result (IsRefused self.old (call_of call.now)) }
    {
        let code = procedure_of(&self.procs, call)?;
        let set = code.decl().resolve(call.args.as_slice());
        if let Some(busy) = self.book.locks.busy(&set) {
            return Err(Refusal::Busy(busy));
        }
        let calls = calls_of(code);
        if is_spent(self.book.numbers.last(), self.book.promised, calls) {
            return Err(Refusal::NumbersSpent);
        }
        let Ok(args) = Args::copy_of(self.alloc, call.args.as_slice()) else {
            return Err(Refusal::Memory);
        };
        let Ok(undo) = self.book.make_room(calls, &set) else {
            return Err(Refusal::Memory);
        };
        Ok(self.book.enter(code, call.proc, args, undo, &set))
    }

    /// Whether other transactions stand in the way of a call, and all of them are in doubt or stuck.
    /// No for a call whose procedure isn't there or takes another number of arguments.
    pub fn blocked(&self, call: &Call) -> bool
        ensures { IsTrue result ↔ IsBlocked self.now (call_of call.now) }
    {
        let Ok(code) = procedure_of(&self.procs, call) else {
            return false;
        };
        let set = code.decl().resolve(call.args.as_slice());
        let Some(_busy) = self.book.locks.busy(&set) else {
            return false;
        };
        self.book.txns.all_stranded(&self.book.locks, &set)
    }

    /// Whether a transaction is in doubt or stuck: it waits for a number that was given up, or a write of
    /// it can't be undone. No for one that isn't open.
    pub fn is_stranded(&self, txn: TxnId) -> bool
        ensures { result ≡ is_stranded self.now txn.serial }
    {
        match self.book.txns.find(txn.serial) {
            Some(key) => self.book.txns.at(key).is_stranded(),
            None => false,
        }
    }
}
