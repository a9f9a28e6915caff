//! Results.

ghost use Rattle.std.specs.Prelude.{◌≡◌, ◌↔◌, ◌≤◌, List, Option, None, IsTrue, length};
ghost use Rattle.tc_log.specs.Entered.{seen};
ghost use Rattle.verifier.specs.Checked.{Checked};
ghost use Rattle.transactions.specs.Legal.{Legal};
ghost use Rattle.transactions.specs.Standing.{Standing, standing};
ghost use Rattle.tc_core.specs.Recovery.{first_events};
ghost use Rattle.call_results.specs.Results.{result_in, result_at_end, slots_in, slots_at_end};
ghost use Rattle.call_results.specs.Joining.Along.{Follows, IsAdmission};

use crate::rerun::Rerun;
use access_slots::slot::Value;
use interpreter::pause::Pause;
use tc_core::checking::event_at;
use tc_core::procs::Procs;
use tc_core::state::{TcState, TxnId};
use tc_log::event::Entry;
use tc_log::log::Log;

/// What a slot of a call holds where the call's run ended.
#[derive(Clone, Copy, Debug, PartialEq, Eq)]
pub struct SlotResult {
    /// The bytes of its buffer.
    pub value: Value,
    /// Whether it holds a record: the last operation by it that did anything found or wrote one. Undoing
    /// leaves that as it is.
    pub is_there: bool,
}

// Whether an event admits this transaction.
fn admits(event: &Entry<'_>, txn: u64) -> bool
    ensures { IsTrue result ↔ IsAdmission (seen event.now) txn }
{
    match event {
        Entry::Admit { txn: admitted, .. } => *admitted == txn,
        _ => false,
    }
}

// A place of the log up to which a transaction wasn't open: where it was admitted last before `end`.
fn place_before(log: &Log, end: usize, txn: u64) -> usize
    requires { end ≤ length log.now.events }
    ensures inside { result ≤ end }
    ensures before { (ps : List Checked) → Legal ps log.now.events → standing (first_events result log.now.events) txn ≡ None }
{
    for place in (0..end).rev() {
        if admits(&event_at(log, place), txn) {
            return place;
        }
    }
    0
}

// A transaction's run, run again on what the first so many events of a log say.
fn rerun(procs: &Procs, log: &Log, end: usize, txn: u64, slot: usize) -> Rerun
    requires end { end ≤ length log.now.events }
    requires legal { Legal procs.now.codes log.now.events }
    ensures follows { Follows procs.now.codes result (standing (first_events end log.now.events) txn) }
    ensures slot { result.slot ≡ slot }
{
    procs.known();
    let mut run = Rerun::new(slot);
    for place in place_before(log, end, txn)..end {
        run.follow(procs, txn, &event_at(log, place));
    }
    run
}

// What the slot holds where the run ended.
fn held(procs: &Procs, run: &Rerun) -> Option<SlotResult>
    requires { (at : Option Standing) × Follows procs.now.codes run.now at }
    ensures { (at : Option Standing) → Follows procs.now.codes run.now at → result ≡ result_in procs.now.codes at run.now.slot }
{
    if !run.is_open {
        return None;
    }
    if !run.is_full && matches!(run.pause, Pause::Ask(_)) {
        return None;
    }
    let code = procs.get(run.proc)?;
    if run.slot >= code.decl().slots().len() {
        return None;
    }
    Some(SlotResult {
        value: *run.machine.buffer(run.slot),
        is_there: run.is_there,
    })
}

// How many slots the procedure of the run's call declares.
fn declared(procs: &Procs, run: &Rerun) -> usize
    requires { (at : Option Standing) × Follows procs.now.codes run.now at }
    ensures { (at : Option Standing) → Follows procs.now.codes run.now at → result ≡ slots_in procs.now.codes at }
{
    if !run.is_open {
        return 0;
    }
    match procs.get(run.proc) {
        Some(code) => code.decl().slots().len(),
        None => 0,
    }
}

/// How many slots the procedure of an open transaction declares; 0 of one that isn't open.
pub fn slot_count(state: &TcState, txn: TxnId) -> usize
    ensures { result ≡ slots_in state.now.procs (standing state.now.events txn.serial) }
{
    state.known();
    let log = state.log();
    let run = rerun(state.procs(), log, log.len(), txn.serial(), 0);
    declared(state.procs(), &run)
}

/// What a slot of an open transaction holds where its run ended: at its end, or at an insert that found no
/// room. None for one that isn't open or whose run goes on, and for a slot that isn't declared.
pub fn slot_result(state: &TcState, txn: TxnId, slot: usize) -> Option<SlotResult>
    ensures { result ≡ result_in state.now.procs (standing state.now.events txn.serial) slot }
{
    state.known();
    let txn = state.find_txn(txn.serial())?;
    let log = state.log();
    let run = rerun(state.procs(), log, log.len(), txn.serial(), slot);
    held(state.procs(), &run)
}

/// The same of a transaction that has ended, by the place of its end in a legal log: a receipt has it, and
/// an answer of a pool of workers. None where no end stands there.
pub fn logged_result(procs: &Procs, log: &Log, place: usize, slot: usize) -> Option<SlotResult>
    requires { Legal procs.now.codes log.now.events }
    ensures { result ≡ result_at_end procs.now.codes log.now.events place slot }
{
    let txn = match log.at(place)? {
        Entry::End { txn, .. } => txn,
        _ => return None,
    };
    held(procs, &rerun(procs, log, place, txn, slot))
}

/// How many slots the procedure of such a transaction declares; 0 where no end stands there.
pub fn logged_slot_count(procs: &Procs, log: &Log, place: usize) -> usize
    requires { Legal procs.now.codes log.now.events }
    ensures { result ≡ slots_at_end procs.now.codes log.now.events place }
{
    match log.at(place) {
        Some(Entry::End { txn, .. }) => declared(procs, &rerun(procs, log, place, txn, 0)),
        _ => 0,
    }
}
