// Transactions that were open, run to their ends.

ghost use Rattle.std.specs.Prelude.{◌≡◌, ℕ, ◌<◌, ◌≤◌, None, List, [], ◌++◌, ◌∷◌, length, map, option_to_list};
ghost use Rattle.std.specs.Prelude.{OnOk, IfErr, IfSome, IfNone, IsSome, vec_len, vec_capacity};
ghost use Rattle.std.specs.List.{All};
ghost use Rattle.data_component.specs.Store.{Store};
ghost use Rattle.transactions.specs.Room.{each_one, total};
ghost use Rattle.tc_core.specs.GivingUp.{IsOpenHere};
ghost use Rattle.tc_core.specs.Replies.{ask_reply};
ghost use Rattle.coming_back.specs.Coming.{serial_of, open_txns, in_doubt, IsLeft, IsResumed};
ghost use Rattle.coming_back.specs.Joining.Moving.{Goes, Moves, left_of, IsOpen, IsNextOf, CameOf};

use crate::performing::send;
use crate::resumed::Resumed;
use data_component::dc::Dc;
use tc_core::state::{Asked, NotOver, Receipt, Request, Stranger, TcState, TxnId};
use tc_world::beginning::admitted_before;

/// What is next for an open transaction.
pub enum Next {
    /// The operation that it waits for is to be sent.
    Send(Request),
    /// It has ended.
    Ended(Receipt),
    /// A write wasn't undone under four numbers, of which this is the last.
    Stuck(u64),
}

// What undoes the last write that stands, of a transaction that is to be undone.
fn undo(state: &mut TcState, txn: TxnId) -> Next
    requires { ask_reply state.old txn.serial ≡ Asked.Undoing }
    ensures moves { (dcs : List Store) → Moves txn.serial state.old dcs state.new dcs }
    ensures next { IsNextOf state.old.events state.new txn.serial result }
    ensures nearer { left_of state.new txn.serial ≤ left_of state.old txn.serial }
{
    state.known();
    let asked = state.undo_next(txn);
    state.known();
    match asked {
        Asked::Request(request) => Next::Send(request),
        Asked::Undoing | Asked::Over | Asked::Running | Asked::Unknown => unreachable!(),
        Asked::Stuck(_) | Asked::Waits(_) => unreachable!(),
    }
}

// Ends a transaction that is over.
fn end(state: &mut TcState, txn: TxnId) -> Next
    requires { ask_reply state.old txn.serial ≡ Asked.Over }
    ensures moves { (dcs : List Store) → Moves txn.serial state.old dcs state.new dcs }
    ensures next { IsNextOf state.old.events state.new txn.serial result }
    ensures nearer { left_of state.new txn.serial ≤ left_of state.old txn.serial }
{
    state.known();
    let ended = state.end(txn);
    state.known();
    match ended {
        Ok(receipt) => Next::Ended(receipt),
        Err(NotOver) => unreachable!(),
    }
}

// The request that a transaction waits for, made again.
fn again(state: &TcState, txn: TxnId, number: u64) -> Request
    requires { ask_reply state.now txn.serial ≡ Asked.Waits number }
    ensures own { result.txn ≡ txn.serial }
    ensures open { IsOpenHere state.now result }
{
    // Contracts alone speak of the number.
    let _ = number;
    match state.request(txn) {
        Some(request) => request,
        None => unreachable!(),
    }
}

// What is next for an open transaction.
fn next_of(state: &mut TcState, txn: TxnId) -> Next
    requires { IsOpen state.old txn.serial }
    ensures moves { (dcs : List Store) → Moves txn.serial state.old dcs state.new dcs }
    ensures next { IsNextOf state.old.events state.new txn.serial result }
    ensures nearer { left_of state.new txn.serial ≤ left_of state.old txn.serial }
{
    state.known();
    let asked = state.ask(txn);
    state.known();
    match asked {
        Asked::Request(request) => Next::Send(request),
        Asked::Undoing => undo(state, txn),
        Asked::Over => end(state, txn),
        Asked::Stuck(number) => Next::Stuck(number),
        Asked::Waits(number) => Next::Send(again(state, txn, number)),
        Asked::Running | Asked::Unknown => unreachable!(),
    }
}

// Sends a request and takes the reply in. Where it isn't answered, it is given up, and its number is
// handed back.
fn carry(state: &mut TcState, dcs: &mut [Dc], request: Request) -> Result<(), u64>
    requires { IsOpenHere state.old request }
    ensures moves { Moves request.txn state.old dcs.old state.new dcs.new }
    ensures nearer { OnOk result (left_of state.new request.txn < left_of state.old request.txn) }
    ensures still { OnOk result (IsOpen state.new request.txn) }
    ensures left { IfErr result (IsLeft state.new request.txn) }
{
    state.known();
    let Some(reply) = send(state, dcs, &request) else {
        return Err(state.give_up(request));
    };
    let answered = state.answer(request, reply);
    state.known();
    match answered {
        Ok(()) => Ok(()),
        Err(Stranger { request }) => Err(state.give_up(request)),
    }
}

// One operation of an open transaction more, or what came of it.
fn go_on(state: &mut TcState, dcs: &mut [Dc], txn: TxnId) -> Option<Resumed>
    requires { IsOpen state.old txn.serial }
    ensures moves { Moves txn.serial state.old dcs.old state.new dcs.new }
    ensures came { IfSome result (λ one. CameOf state.old state.new txn.serial (one ∷ [])) }
    ensures still { IfNone result (IsOpen state.new txn.serial) }
    ensures nearer { IfNone result (left_of state.new txn.serial < left_of state.old txn.serial) }
{
    let serial = txn.serial();
    match next_of(state, txn) {
        Next::Send(request) => match carry(state, dcs, request) {
            Ok(()) => None,
            Err(number) => Some(Resumed::InDoubt {
                txn: serial,
                number,
            }),
        },
        Next::Ended(receipt) => Some(Resumed::Ended(receipt)),
        Next::Stuck(number) => Some(Resumed::InDoubt {
            txn: serial,
            number,
        }),
    }
}

// Runs an open transaction to its end.
fn run(state: &mut TcState, dcs: &mut [Dc], txn: TxnId) -> Resumed
    requires { IsOpen state.old txn.serial }
    ensures moves { Moves txn.serial state.old dcs.old state.new dcs.new }
    ensures came { CameOf state.old state.new txn.serial (result ∷ []) }
{
    loop {
        match go_on(state, dcs, txn) {
            Some(resumed) => return resumed,
            None => {}
        }
    }
}

// The same for the transaction with this serial number, if it is open.
fn resume(state: &mut TcState, dcs: &mut [Dc], serial: u64) -> Option<Resumed>
    ensures moves { Moves serial state.old dcs.old state.new dcs.new }
    ensures came { CameOf state.old state.new serial (option_to_list result) }
{
    match state.find_txn(serial) {
        Some(txn) => Some(run(state, dcs, txn)),
        None => None,
    }
}

// One more, if there is one.
fn push(resumed: &mut Vec<Resumed>, one: Option<Resumed>)
    requires { IsSome one → vec_len resumed.old < vec_capacity resumed.old }
    ensures items { resumed.new.items ≡ resumed.old.items ++ option_to_list one }
    ensures capacity { vec_capacity resumed.new ≡ vec_capacity resumed.old }
{
    if let Some(one) = one {
        resumed.push_reserved(one);
    }
}

/// Runs each open transaction to its end, in the order of their serial numbers. The list is handed in
/// empty, with room.
pub fn resume_all(state: &mut TcState, dcs: &mut [Dc], resumed: &mut Vec<Resumed>)
    requires none { resumed.old.items ≡ [] }
    requires room { total each_one state.old.events ≤ vec_capacity resumed.old }
    ensures goes { Goes state.old dcs.old state.new dcs.new }
    ensures serials { map serial_of resumed.new.items ≡ open_txns state.old.events }
    ensures doubts { in_doubt resumed.new.items ≡ open_txns state.new.events }
    ensures each { All (IsResumed state.old.events state.new) resumed.new.items }
{
    state.known();
    for done in admitted_before(state)..state.admitted() {
        push(resumed, resume(state, dcs, done + 1));
    }
}
