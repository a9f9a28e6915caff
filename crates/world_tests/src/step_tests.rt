// Each call once, where it succeeds.

ghost use Rattle.std.specs.List.{All};
ghost use Rattle.coming_back.specs.Coming.{HasOnlyRows};

use crate::checks::is_same;
use access_slots::op::{Reply, Said};
use data_component::dc::Dc;
use samples::{PUT, call, loaded};
use std::alloc::Global;
use std::process::Abort;
use tc_core::state::{Receipt, TcState};
use tc_log::event::Outcome as Ending;
use tc_world::{Illegal, Outcome, Step, World};

/// One data component for so many operations, to which nothing has happened.
pub(crate) fn new_dcs(rt: &impl Abort, alloc: Global, ops: usize) -> Vec<Dc>
    ensures { All HasOnlyRows result.items }
{
    let mut dcs = Vec::with_capacity(alloc, 1).expect(rt, "no room");
    dcs.push_reserved(Dc::new(alloc, 4, ops).expect(rt, "no data component"));
    dcs
}

/// A world of a state in which nothing is open, and of these data components. The assertion stands here, since what it
/// says is what `World::new` requires.
pub(crate) fn opened(rt: &impl Abort, alloc: Global, state: TcState, dcs: Vec<Dc>) -> World {
    assert_eq!(rt; state.open_count(), 0);
    World::new(alloc, state, dcs)
}

/// One data component, and a transaction component that has the procedures.
pub(crate) fn world(rt: &impl Abort, alloc: Global) -> World {
    let state = loaded(alloc, 1).expect(rt, "not loaded");
    opened(rt, alloc, state, new_dcs(rt, alloc, 100))
}

/// Closes a world, and lets its parts go.
pub(crate) fn closed(world: World) {
    let (state, dcs) = world.close();
    drop(state);
    drop(dcs);
}

/// Each of some steps was taken.
pub(crate) fn all_went(rt: &impl Abort, ran: Result<(), (usize, Illegal)>) {
    is_same(rt, ran, Ok(()));
}

/// What comes of a step, which is let go in this one place.
pub(crate) fn stepped(world: &mut World, step: Step) -> Result<Outcome, Illegal> {
    let stepped = world.step(&step);
    drop(step);
    stepped
}

/// The step does this.
pub(crate) fn goes(rt: &impl Abort, world: &mut World, step: Step, outcome: Outcome) {
    is_same(rt, stepped(world, step), Ok(outcome));
}

/// The step isn't possible.
pub(crate) fn stops(rt: &impl Abort, world: &mut World, step: Step, why: Illegal) {
    is_same(rt, stepped(world, step), Err(why));
}

/// The place of the wire that a step sends.
pub(crate) fn sent(world: &mut World, step: Step) -> Option<usize> {
    match stepped(world, step) {
        Ok(Outcome::Sent(place, _)) => Some(place),
        _ => None,
    }
}

/// The place of the reply to the wire at this place, which comes to its data component.
pub(crate) fn replied(world: &mut World, place: usize) -> Option<usize> {
    match stepped(world, Step::Perform(place)) {
        Ok(Outcome::Replied(reply, _)) => Some(reply),
        _ => None,
    }
}

/// The wire at this place comes to its data component, and the reply back.
pub(crate) fn is_carried(world: &mut World, place: usize) -> bool {
    match replied(world, place) {
        Some(reply) => stepped(world, Step::Take(reply)).is_ok(),
        None => false,
    }
}

/// The step that admits a call of the procedure with this number.
pub(crate) fn admit(rt: &impl Abort, alloc: Global, (proc, args): (usize, &[u64])) -> Step {
    Step::Admit(call(alloc, proc, args).expect(rt, "no call"))
}

/// The steps of a call of one operation, with its transaction, and the place of its wire and of its reply.
pub(crate) fn is_called(
    rt: &impl Abort,
    alloc: Global,
    world: &mut World,
    (txn, place): (u64, usize),
    call: (usize, &[u64]),
) {
    let steps = [
        admit(rt, alloc, call),
        Step::Ask(txn),
        Step::Perform(place),
        Step::Take(place),
        Step::End(txn),
    ];
    all_went(rt, world.run(&steps));
    drop(steps);
}

// The first transaction, which puts 100 under 5, asks.
fn is_asked(rt: &impl Abort, alloc: Global, world: &mut World) {
    let admit = admit(rt, alloc, (PUT, &[5, 100]));
    goes(rt, world, admit, Outcome::Admitted(1));
    is_same(rt, sent(world, Step::Ask(1)), Some(0));
}

// The request of the first transaction is sent again, under the same number, performed, kept and answered; a
// transaction that runs isn't undone.
#[test]
fn steps_of_a_transaction(rt: HostRuntime) {
    let mut world = world(&rt, rt.alloc());
    is_asked(&rt, rt.alloc(), &mut world);
    stops(&rt, &mut world, Step::Ask(1), Illegal::Waits(1));
    is_same(&rt, sent(&mut world, Step::Resend(1)), Some(1));
    is_same(&rt, replied(&mut world, 1), Some(0));
    let kept = Outcome::Checkpointed(0, 0);
    goes(&rt, &mut world, Step::Checkpoint(0), kept);
    goes(&rt, &mut world, Step::Take(0), Outcome::Took(1));
    goes(&rt, &mut world, Step::Ask(1), Outcome::Over(1));
    stops(&rt, &mut world, Step::Undo(1), Illegal::Running);
    let receipt = Receipt {
        place: 3,
        txn: 1,
        outcome: Ending::Committed,
    };
    goes(&rt, &mut world, Step::End(1), Outcome::Ended(receipt));
    closed(world);
}

// The steps leave one row.
fn one_row(rt: &impl Abort, world: &World) {
    for dc in world.dcs() {
        is_same(rt, dc.rows().len(), 1);
    }
}

// The second of two steps is illegal.
fn second_stops(rt: &impl Abort, world: &mut World) {
    let reply = Reply {
        number: 1,
        incarnation: 0,
        said: Said::Absent,
    };
    let steps = [Step::Forge(reply), Step::Ask(1)];
    is_same(rt, world.run(&steps), Err((1, Illegal::NoTxn)));
    drop(steps);
}

// The steps of a put leave no open transaction.
#[test]
fn all_steps_at_once(rt: HostRuntime) {
    let mut world = world(&rt, rt.alloc());
    is_called(&rt, rt.alloc(), &mut world, (1, 0), (PUT, &[5, 100]));
    is_same(&rt, world.state().open_count(), 0);
    one_row(&rt, &world);
    second_stops(&rt, &mut world);
    closed(world);
}

// The request of an open transaction doesn't stand in the way of a call until it is given up.
#[test]
fn open_requests_are_given_up(rt: HostRuntime) {
    let other = call(rt.alloc(), PUT, &[5, 100]).expect(&rt, "no call");
    let mut world = world(&rt, rt.alloc());
    is_asked(&rt, rt.alloc(), &mut world);
    is_same(&rt, world.state().blocked(&other), false);
    let (state, dcs) = world.close();
    is_same(&rt, (dcs.len(), state.blocked(&other)), (1, true));
    drop(state);
    drop(dcs);
    drop(other);
}
