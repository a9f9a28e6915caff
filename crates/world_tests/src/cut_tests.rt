// A log that is truncated: the world goes on from the rows, and what was sent before says nothing more.

use crate::checks::is_same;
use crate::coming_back_tests::{both_end, put_ends};
use crate::step_tests::{admit, closed, goes, is_carried, stepped, stops, world};
use access_slots::op::Said;
use audit::auditing::audit;
use samples::{BAD, MOVE, record, value};
use std::alloc::Global;
use std::process::Abort;
use tc_core::beginning::CheckpointFault;
use tc_world::{Illegal, Outcome, Step, World};

// Two rows, and a log that begins behind what put them.
fn cut_world(rt: &impl Abort, alloc: Global) -> World {
    let mut world = world(rt, alloc);
    put_ends(rt, alloc, &mut world, 1, &[5, 100]);
    put_ends(rt, alloc, &mut world, 2, &[6, 50]);
    goes(rt, &mut world, Step::Cut, Outcome::Cut(2, 2));
    world
}

fn rows_are(rt: &impl Abort, alloc: Global, world: &World, (five, six): (u64, u64)) {
    for dc in world.dcs() {
        is_same(rt, dc.get(&record(5)), Some(value(five)));
        is_same(rt, dc.get(&record(6)), Some(value(six)));
    }
    let audited = audit(
        alloc,
        world.state().procs(),
        world.state().log(),
        world.dcs(),
    );
    is_same(rt, audited.is_ok(), true);
}

#[test]
fn a_cut_keeps_rows_alone(rt: HostRuntime) {
    let mut world = cut_world(&rt, rt.alloc());
    is_same(&rt, world.state().log().len(), 1);
    for dc in world.dcs() {
        is_same(&rt, (dc.performed().len(), dc.base().len()), (0, 2));
        is_same(&rt, (dc.mark(), dc.base_mark()), (2, 2));
    }
    rows_are(&rt, rt.alloc(), &world, (100, 50));
    goes(&rt, &mut world, Step::Cut, Outcome::Cut(2, 2));
    closed(world);
}

// A wire from before the cut is old, and its reply a stranger.
#[test]
fn what_was_sent_before_says_nothing(rt: HostRuntime) {
    let mut world = cut_world(&rt, rt.alloc());
    let replies = match stepped(&mut world, Step::Perform(0)) {
        Ok(Outcome::Replied(place, reply)) => {
            is_same(&rt, reply.said, Said::Old);
            place
        }
        _ => 0,
    };
    stops(&rt, &mut world, Step::Take(replies), Illegal::Stranger);
    rows_are(&rt, rt.alloc(), &world, (100, 50));
    closed(world);
}

#[test]
fn calls_go_on_behind_it(rt: HostRuntime) {
    let mut world = cut_world(&rt, rt.alloc());
    goes(
        &rt,
        &mut world,
        admit(&rt, rt.alloc(), (MOVE, &[5, 6, 10])),
        Outcome::Admitted(3),
    );
    goes(
        &rt,
        &mut world,
        admit(&rt, rt.alloc(), (BAD, &[7])),
        Outcome::Admitted(4),
    );
    both_end(&mut world, 3, 4);
    rows_are(&rt, rt.alloc(), &world, (90, 60));
    goes(&rt, &mut world, Step::Restart(0), Outcome::Restarted(0));
    for dc in world.dcs() {
        is_same(&rt, dc.get(&record(5)), Some(value(100)));
    }
    closed(world);
}

#[test]
fn nothing_is_cut_while_a_transaction_is_open(rt: HostRuntime) {
    let mut world = world(&rt, rt.alloc());
    stops(
        &rt,
        &mut world,
        Step::Cut,
        Illegal::NotCut(CheckpointFault::Nothing),
    );
    goes(
        &rt,
        &mut world,
        admit(&rt, rt.alloc(), (BAD, &[7])),
        Outcome::Admitted(1),
    );
    stops(
        &rt,
        &mut world,
        Step::Cut,
        Illegal::NotCut(CheckpointFault::Open(1)),
    );
    closed(world);
}

// A restart that isn't told leaves it behind, and one that is told leaves it down until it is redone.
#[test]
fn each_component_has_to_be_up_and_not_behind(rt: HostRuntime) {
    let mut world = world(&rt, rt.alloc());
    put_ends(&rt, rt.alloc(), &mut world, 1, &[5, 100]);
    goes(&rt, &mut world, Step::Restart(0), Outcome::Restarted(0));
    stops(
        &rt,
        &mut world,
        Step::Cut,
        Illegal::NotCut(CheckpointFault::Behind),
    );
    is_same(&rt, stepped(&mut world, Step::Tell(0)).is_ok(), true);
    stops(
        &rt,
        &mut world,
        Step::Cut,
        Illegal::NotCut(CheckpointFault::Down),
    );
    for _ in 0..20 {
        let Ok(Outcome::Redoing(place, _)) = stepped(&mut world, Step::Redo(0)) else {
            break;
        };
        is_same(&rt, is_carried(&mut world, place), true);
    }
    goes(&rt, &mut world, Step::Cut, Outcome::Cut(1, 1));
    goes(&rt, &mut world, Step::Crash(1), Outcome::Crashed(1, 0));
    stops(&rt, &mut world, Step::Crash(0), Illegal::NotWritten);
    closed(world);
}
