// A loading and an admission that are refused memory once, and are then made again: the state that they
// were refused on is as before. tools/memory_requests.py refuses each request in turn.

use crate::checks::is_same;
use samples::{PUT, call, put_procedure};
use std::alloc::{AllocError, Global};
use std::process::Abort;
use tc_core::procs::{LoadFault, LoadRefusal};
use tc_core::state::{Call, Refusal, TcState, TxnId};
use verifier::verify::Verified;

// A call of `put`.
fn put_call(alloc: Global) -> Result<Call, AllocError> {
    match call(alloc, PUT, &[5, 100]) {
        Ok(put) => Ok(put),
        Err(_) => call(alloc, PUT, &[5, 100]),
    }
}

// The code of `put`.
fn put_code(alloc: Global) -> Option<Verified> {
    match put_procedure(alloc, 0) {
        Some(code) => Some(code),
        None => put_procedure(alloc, 0),
    }
}

// Nothing was loaded, for want of memory.
fn nothing_is_loaded(rt: &impl Abort, tc: &TcState, why: LoadRefusal) {
    let found = (why, tc.find("put"), tc.procs().is_empty());
    is_same(rt, found, (LoadRefusal::Memory, None, true));
}

// The code comes back, and is loaded then.
fn loaded_again(rt: &impl Abort, tc: &mut TcState, fault: LoadFault) -> Result<usize, LoadRefusal> {
    let LoadFault { why, code } = fault;
    nothing_is_loaded(rt, tc, why);
    match tc.load("put", code) {
        Ok(number) => Ok(number),
        Err(LoadFault { why, code }) => {
            drop(code);
            Err(why)
        }
    }
}

fn loaded(rt: &impl Abort, tc: &mut TcState, code: Verified) -> Result<usize, LoadRefusal> {
    match tc.load("put", code) {
        Ok(number) => Ok(number),
        Err(fault) => loaded_again(rt, tc, fault),
    }
}

fn empty_state(alloc: Global) -> Result<TcState, AllocError> {
    match TcState::new(alloc, 1) {
        Ok(tc) => Ok(tc),
        Err(_) => TcState::new(alloc, 1),
    }
}

// A state in which `put` is loaded.
fn state(rt: &impl Abort, alloc: Global) -> TcState {
    let mut tc = empty_state(alloc).expect(rt, "no state");
    let code = put_code(alloc).expect(rt, "no put");
    is_same(rt, loaded(rt, &mut tc, code), Ok(PUT));
    tc
}

// No event, no lock, no number and no place is taken.
fn nothing_is_admitted(rt: &impl Abort, tc: &TcState, call: &Call) {
    is_same(rt, (tc.log().len(), tc.open_count()), (0, 0));
    is_same(rt, (tc.find_txn(1), tc.blocked(call)), (None, false));
}

fn admitted(rt: &impl Abort, tc: &mut TcState, call: &Call) -> Result<TxnId, Refusal> {
    match tc.admit(call) {
        Err(Refusal::Memory) => {
            nothing_is_admitted(rt, tc, call);
            tc.admit(call)
        }
        admitted => admitted,
    }
}

fn put_admitted(rt: &impl Abort, tc: &mut TcState, put: &Call) {
    let txn = admitted(rt, tc, put).expect(rt, "not admitted");
    is_same(rt, txn.serial(), 1);
    is_same(rt, (tc.log().len(), tc.open_count()), (1, 1));
}

#[test]
fn an_admission(rt: HostRuntime) {
    let mut tc = state(&rt, rt.alloc());
    let put = put_call(rt.alloc()).expect(&rt, "no call");
    put_admitted(&rt, &mut tc, &put);
    drop(put);
    drop(tc);
}
