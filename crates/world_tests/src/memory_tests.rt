// Steps of a world that are refused memory once, and are then taken again: what they were refused on is
// as before. tools/memory_requests.py refuses each request in turn.

use crate::checks::is_same;
use crate::step_tests::{closed, opened};
use access_slots::op::{Reply, Said};
use data_component::dc::Dc;
use samples::{PUT, call, loaded, record, value};
use std::alloc::{AllocError, Global};
use std::process::Abort;
use tc_core::state::{Call, Receipt, Refusal, TcState};
use tc_log::event::Outcome as Ending;
use tc_world::{Illegal, Outcome, Step, World};

// A call of `put`.
fn put_call(alloc: Global) -> Result<Call, AllocError> {
    match call(alloc, PUT, &[5, 100]) {
        Ok(put) => Ok(put),
        Err(_) => call(alloc, PUT, &[5, 100]),
    }
}

// A state in which `put` is loaded.
fn state(alloc: Global) -> Option<TcState> {
    match loaded(alloc, 1) {
        Some(tc) => Some(tc),
        None => loaded(alloc, 1),
    }
}

// A data component of room for four records.
fn dc(alloc: Global) -> Result<Dc, AllocError> {
    match Dc::new(alloc, 4, 100) {
        Ok(dc) => Ok(dc),
        Err(_) => Dc::new(alloc, 4, 100),
    }
}

// Room for one.
fn room(alloc: Global) -> Result<Vec<Dc>, AllocError> {
    match Vec::with_capacity(alloc, 1) {
        Ok(dcs) => Ok(dcs),
        Err(_) => Vec::with_capacity(alloc, 1),
    }
}

// One data component.
fn dcs(rt: &impl Abort, alloc: Global) -> Vec<Dc> {
    let mut dcs = room(alloc).expect(rt, "no room");
    let dc = dc(alloc).expect(rt, "no data component");
    dcs.push(dc).expect(rt, "no room");
    dcs
}

fn world(rt: &impl Abort, alloc: Global) -> World {
    let state = state(alloc).expect(rt, "not loaded");
    opened(rt, alloc, state, dcs(rt, alloc))
}

// Whether a step was refused memory.
fn lacks_memory(stepped: Result<Outcome, Illegal>) -> bool {
    matches!(
        stepped,
        Err(Illegal::Memory | Illegal::Refused(Refusal::Memory))
    )
}

// What comes of a step, which is taken again where it is refused memory; no event of it is logged then.
fn stepped(rt: &impl Abort, world: &mut World, step: Step) -> Result<Outcome, Illegal> {
    let events = world.state().log().len();
    let mut stepped = world.step(&step);
    if lacks_memory(stepped) {
        is_same(rt, world.state().log().len(), events);
        stepped = world.step(&step);
    }
    drop(step);
    stepped
}

// What a step did, as a word.
fn word(stepped: Result<Outcome, Illegal>) -> &'static str {
    match stepped {
        Ok(Outcome::Admitted(1)) => "admitted",
        Ok(Outcome::Sent(0, _)) => "sent",
        Ok(Outcome::Sent(1, _)) => "sent again",
        Ok(Outcome::Replied(0, _)) => "reply",
        Ok(Outcome::Replied(1, _)) => "reply again",
        Ok(Outcome::Forged(2)) => "forged",
        Ok(Outcome::Took(1)) => "took",
        Ok(Outcome::Over(1)) => "over",
        Ok(Outcome::Crashed(3, 1)) => "crashed",
        _ => "another",
    }
}

// The step goes so, and so many events are logged.
fn goes(rt: &impl Abort, world: &mut World, step: Step, outcome: &str, events: usize) {
    let word = word(stepped(rt, world, step));
    is_same(rt, (word, world.state().log().len()), (outcome, events));
}

// A put up to its end.
fn all_go(rt: &impl Abort, world: &mut World, admit: Step) {
    goes(rt, world, admit, "admitted", 1);
    goes(rt, world, Step::Ask(1), "sent", 2);
    goes(rt, world, Step::Resend(1), "sent again", 2);
    goes(rt, world, Step::Perform(1), "reply", 2);
    goes(rt, world, Step::Perform(0), "reply again", 2);
    let reply = Reply {
        number: 1,
        incarnation: 0,
        said: Said::Absent,
    };
    goes(rt, world, Step::Forge(reply), "forged", 2);
    goes(rt, world, Step::Take(1), "took", 3);
    goes(rt, world, Step::Crash(3), "crashed", 3);
    goes(rt, world, Step::Ask(1), "over", 3);
}

fn ends(rt: &impl Abort, world: &mut World) {
    let receipt = Receipt {
        place: 3,
        txn: 1,
        outcome: Ending::Committed,
    };
    let end = stepped(rt, world, Step::End(1));
    is_same(rt, end, Ok(Outcome::Ended(receipt)));
}

// The record stands at each data component.
fn is_put(rt: &impl Abort, world: &World) {
    for dc in world.dcs() {
        is_same(rt, dc.get(&record(5)), Some(value(100)));
    }
}

#[test]
fn steps_of_a_world(rt: HostRuntime) {
    let mut world = world(&rt, rt.alloc());
    let put = put_call(rt.alloc()).expect(&rt, "no call");
    all_go(&rt, &mut world, Step::Admit(put));
    ends(&rt, &mut world);
    is_put(&rt, &world);
    closed(world);
}
