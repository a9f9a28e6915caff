// What a world does with an answer of `ask` or `undo_next`.

ghost use Rattle.std.specs.Prelude.{◌≡◌, ◌<◌, ◌++◌, length, vec_len, vec_capacity, OnOk};
ghost use Rattle.tc_core.specs.Lent.{wire_of};
ghost use Rattle.tc_world.specs.Joining.Telling.{requests_of, wires_by, wires_of, sent_or_held, told_as};

use crate::step::{Illegal, Outcome};
use access_slots::op::Wire;
use std::alloc::AllocError;
use tc_core::state::{Asked, Request, TcState};

/// Makes room for one more wire and its request.
pub fn make_room(copies: &mut Vec<Wire>, requests: &mut Vec<Request>) -> Result<(), AllocError>
    ensures copies { copies.new.items ≡ copies.old.items }
    ensures requests { requests.new.items ≡ requests.old.items }
    ensures copies_room { OnOk result (vec_len copies.new < vec_capacity copies.new) }
    ensures requests_room { OnOk result (vec_len requests.new < vec_capacity requests.new) }
{
    copies.reserve(1)?;
    requests.reserve(1)?;
    Ok(())
}

// A new request is sent, or held back while its data component is down.
fn send_or_hold(request: &Request, state: &TcState, copies: &mut Vec<Wire>) -> Outcome
    requires { vec_len copies.old < vec_capacity copies.old }
    ensures outcome { result ≡ sent_or_held (length copies.old.items) request.now (wire_of state.now request.now) }
    ensures copies { copies.new.items ≡ copies.old.items ++ wires_by (wire_of state.now request.now) }
{
    match state.wire(request) {
        Ok(wire) => {
            let place = copies.len();
            copies.push_reserved(wire);
            Outcome::Sent(place, wire)
        }
        Err(_) => Outcome::Held(request.number(), request.op()),
    }
}

/// Tells what a transaction was answered. A request is sent, or held back while its data component is
/// down, and kept until its answer comes.
pub fn tell(
    txn: u64,
    asked: Asked,
    state: &TcState,
    copies: &mut Vec<Wire>,
    requests: &mut Vec<Request>,
) -> Result<Outcome, Illegal>
    requires copies_room { vec_len copies.old < vec_capacity copies.old }
    requires requests_room { vec_len requests.old < vec_capacity requests.old }
    ensures told { result ≡ told_as txn (length copies.old.items) state.now asked }
    ensures copies { copies.new.items ≡ copies.old.items ++ wires_of state.now asked }
    ensures requests { requests.new.items ≡ requests.old.items ++ requests_of asked }
{
    match asked {
        Asked::Request(request) => {
            let outcome = send_or_hold(&request, state, copies);
            requests.push_reserved(request);
            Ok(outcome)
        }
        Asked::Undoing => Ok(Outcome::Undoing(txn)),
        Asked::Over => Ok(Outcome::Over(txn)),
        Asked::Stuck(number) => Ok(Outcome::Stuck(txn, number)),
        Asked::Waits(number) => Err(Illegal::Waits(number)),
        Asked::Running => Err(Illegal::Running),
        Asked::Unknown => Err(Illegal::NoTxn),
    }
}
