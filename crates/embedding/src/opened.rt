// Open transactions, found in the log.

ghost use Rattle.std.specs.Prelude.{◌≡◌, ◌≤◌, ◌<◌, ℕ, length, IfSome, IfNone};
ghost use Rattle.transactions.specs.declared.Sent.{Sent as SentValue};
ghost use Rattle.embedding.specs.Serving.{IsOpenAt, NoneIsOpen, WaitsAt, NoneWaits, AreItsLocks};

use access_slots::lock::LockSet;
use tc_core::state::{TcState, TxnId};
use tc_log::event::Entry;
use tc_log::log::Log;
use transactions::Sent;

/// How many transactions a legal log leaves open.
pub fn open_in(log: &Log) -> usize {
    let mut open: usize = 0;
    for place in 0..log.len() {
        match log.entry(place) {
            Entry::Admit { .. } => open = open.saturating_add(1),
            Entry::End { .. } => open = open.saturating_sub(1),
            _ => {}
        }
    }
    open
}

/// An open transaction, where in the log it was admitted, and its procedure.
#[derive(Clone, Copy)]
pub struct Opened {
    pub place: usize,
    pub txn: TxnId,
    pub proc: usize,
}

// The transaction that was admitted at this place, where it is open.
fn opened_at(state: &TcState, place: usize) -> Option<Opened>
    ensures place { IfSome result (λ o. o.place ≡ place) }
    ensures some { IfSome result (λ o. IsOpenAt state.now place o.txn.serial o.proc) }
    ensures none { IfNone result ((txn proc : ℕ) → IsOpenAt state.now place txn proc → ⊥) }
{
    let Some(Entry::Admit { txn, proc, .. }) = state.log().at(place) else {
        return None;
    };
    match state.find_txn(txn) {
        Some(txn) => Some(Opened { place, txn, proc }),
        None => None,
    }
}

/// The first that was admitted at this place of the log or behind it.
pub fn first_open(state: &TcState, from: usize) -> Option<Opened>
    ensures behind { IfSome result (λ o. from ≤ o.place) }
    ensures open { IfSome result (λ o. IsOpenAt state.now o.place o.txn.serial o.proc) }
    ensures first { IfSome result (λ o. NoneIsOpen state.now from o.place) }
    ensures none { IfNone result (NoneIsOpen state.now from (length state.now.events)) }
{
    for place in from..state.log().len() {
        if let Some(opened) = opened_at(state, place) {
            return Some(opened);
        }
    }
    None
}

// What the transaction that was admitted at this place waits for, where that is of this data component.
fn waiting_at(state: &TcState, place: usize, dc: u16) -> Option<(Opened, Sent)>
    ensures place { IfSome result (λ x. x.0.place ≡ place) }
    ensures some { IfSome result (λ x. WaitsAt state.now dc place x.0.txn.serial x.0.proc x.1) }
    ensures none { IfNone result ((txn proc : ℕ) (sent : SentValue) → WaitsAt state.now dc place txn proc sent → ⊥) }
{
    let Some(opened) = opened_at(state, place) else {
        return None;
    };
    let Some(sent) = state.waits_for(opened.txn) else {
        return None;
    };
    if sent.op.record().dc != dc {
        return None;
    }
    Some((opened, sent))
}

/// The first that was admitted at this place of the log or behind it, and waits for this data component.
pub fn first_waiting(state: &TcState, from: usize, dc: u16) -> Option<(Opened, Sent)>
    ensures behind { IfSome result (λ x. from ≤ x.0.place) }
    ensures waits { IfSome result (λ x. WaitsAt state.now dc x.0.place x.0.txn.serial x.0.proc x.1) }
    ensures first { IfSome result (λ x. NoneWaits state.now dc from x.0.place) }
    ensures none { IfNone result (NoneWaits state.now dc from (length state.now.events)) }
{
    for at in from..state.log().len() {
        if let Some(waiting) = waiting_at(state, at, dc) {
            return Some(waiting);
        }
    }
    None
}

/// The locks of the open transaction that was admitted at this place.
pub fn locks_at(state: &TcState, place: usize) -> Option<(Opened, LockSet)>
    ensures some { IfSome result (λ x. IsOpenAt state.now place x.0.txn.serial x.0.proc) }
    ensures its { IfSome result (λ x. AreItsLocks state.now x.0.txn.serial x.1) }
    ensures none { IfNone result ((txn proc : ℕ) → IsOpenAt state.now place txn proc → ⊥) }
{
    state.known();
    let Some(Entry::Admit { txn, proc, args }) = state.log().at(place) else {
        return None;
    };
    let Some(txn) = state.find_txn(txn) else {
        return None;
    };
    let Some(code) = state.procs().get(proc) else {
        return None;
    };
    let opened = Opened { place, txn, proc };
    Some((opened, code.decl().resolve(args)))
}
