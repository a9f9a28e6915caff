// The requests of a state that came back, made again.

ghost use Rattle.std.specs.Prelude.{◌≡◌, ◌+◌, ◌<◌, ◌≤◌, ◌++◌, [], option_to_list, vec_len, vec_capacity};
ghost use Rattle.history.specs.Calls.{admitted};
ghost use Rattle.tc_core.specs.Recovery.{open_request};
ghost use Rattle.tc_world.specs.Beginning.{admitted_before};
ghost use Rattle.tc_world.specs.Waiting.{AreWaiting};

use crate::beginning::admitted_before;
use tc_core::state::{Request, TcState};

// What this transaction waits for.
fn request_of(state: &TcState, serial: u64) -> Option<Request>
    ensures { result ≡ open_request state.now serial }
{
    let Some(txn) = state.find_txn(serial) else {
        return None;
    };
    state.request(txn)
}

// One request more, if there is one.
fn push(requests: &mut Vec<Request>, request: Option<Request>)
    requires { vec_len requests.old < vec_capacity requests.old }
    ensures items { requests.new.items ≡ requests.old.items ++ option_to_list request }
    ensures capacity { vec_capacity requests.new ≡ vec_capacity requests.old }
{
    if let Some(request) = request {
        requests.push_reserved(request);
    }
}

/// Makes each open request, where there is room for one of each transaction that was admitted since the
/// log began.
pub fn make_again(state: &TcState, requests: &mut Vec<Request>)
    requires none { requests.old.items ≡ [] }
    requires room { admitted state.now.events ≤ admitted_before state.now.events + vec_capacity requests.old }
    ensures { AreWaiting requests.new.items state.now.events }
{
    state.known();
    for done in admitted_before(state)..state.admitted() {
        push(requests, request_of(state, done + 1));
    }
}
