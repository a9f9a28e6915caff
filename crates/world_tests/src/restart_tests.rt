// Restarts that lose what came after the last checkpoint, and redo.

use crate::checks::is_same;
use crate::step_tests::{admit, closed, goes, is_called, stops, world};
use access_slots::op::{News, Op, Reply, Said, Wire};
use samples::{PUT, record, value};
use std::alloc::Global;
use std::process::Abort;
use tc_world::{Illegal, Outcome, Step, World};

// The steps of a call that puts 100.
fn is_put(rt: &impl Abort, alloc: Global, world: &mut World, at: (u64, usize), key: u64) {
    is_called(rt, alloc, world, at, (PUT, &[key, 100]));
}

// The row that was put stands, or doesn't.
fn five_stands(rt: &impl Abort, world: &World, stands: bool) {
    for dc in world.dcs() {
        is_same(rt, dc.get(&record(5)), stands.then_some(value(100)));
    }
}

// What redoes the put in the first incarnation behind a restart.
fn redo_of_put() -> Wire {
    Wire {
        number: 1,
        low_water: 0,
        incarnation: 1,
        redo: true,
        op: Op::Insert(record(5), value(100)),
    }
}

fn first_news() -> News {
    News {
        incarnation: 1,
        mark: 0,
    }
}

// The component restarts, and the row is lost; a late copy of the request changes nothing. The transaction component
// hears of it, once, and has something to redo.
fn row_is_lost(rt: &impl Abort, world: &mut World) {
    goes(rt, world, Step::Restart(0), Outcome::Restarted(0));
    five_stands(rt, world, false);
    goes(rt, world, Step::Perform(0), Outcome::Silent);
    five_stands(rt, world, false);
    stops(rt, world, Step::Redo(0), Illegal::NotDown);
    stops(rt, world, Step::Tell(1), Illegal::NoNews);
    goes(rt, world, Step::Tell(0), Outcome::Told(0, first_news()));
    stops(rt, world, Step::Tell(0), Illegal::OldNews);
}

// The put is redone, and the component is up. The reply has this place.
fn is_redone(rt: &impl Abort, world: &mut World, place: usize) {
    goes(rt, world, Step::Redo(0), Outcome::Redoing(1, redo_of_put()));
    let reply = done(1, 1);
    goes(rt, world, Step::Perform(1), Outcome::Replied(place, reply));
    five_stands(rt, world, true);
    stops(rt, world, Step::Take(0), Illegal::Stranger);
    goes(rt, world, Step::Take(place), Outcome::Redone(1));
    goes(rt, world, Step::Redo(0), Outcome::Up(0));
}

#[test]
fn a_row_lost_and_redone(rt: HostRuntime) {
    let mut world = world(&rt, rt.alloc());
    is_put(&rt, rt.alloc(), &mut world, (1, 0), 5);
    row_is_lost(&rt, &mut world);
    is_redone(&rt, &mut world, 1);
    closed(world);
}

// A reply that nobody gave is a stranger to the redo.
fn is_stranger(rt: &impl Abort, world: &mut World, place: usize, reply: Reply) {
    goes(rt, world, Step::Forge(reply), Outcome::Forged(place));
    stops(rt, world, Step::Take(place), Illegal::Stranger);
}

// An insert that was done.
fn done(number: u64, incarnation: u64) -> Reply {
    Reply {
        number,
        incarnation,
        said: Said::Done(None),
    }
}

// A put is redone by its logged answer, under its number, of the incarnation that was told, and by no other.
fn others_redo_nothing(rt: &impl Abort, world: &mut World) {
    let redo = Outcome::Redoing(1, redo_of_put());
    goes(rt, world, Step::Redo(0), redo);
    let duplicate = Reply {
        number: 1,
        incarnation: 1,
        said: Said::Duplicate,
    };
    is_stranger(rt, world, 1, duplicate);
    is_stranger(rt, world, 2, done(2, 1));
    is_stranger(rt, world, 3, done(1, 0));
    let reply = done(1, 1);
    goes(rt, world, Step::Perform(1), Outcome::Replied(4, reply));
    goes(rt, world, Step::Take(4), Outcome::Redone(1));
}

#[test]
fn redone_by_its_own_answer_alone(rt: HostRuntime) {
    let mut world = world(&rt, rt.alloc());
    is_put(&rt, rt.alloc(), &mut world, (1, 0), 5);
    row_is_lost(&rt, &mut world);
    others_redo_nothing(&rt, &mut world);
    closed(world);
}

// The row is kept by a checkpoint, whose mark lies below the number that was answered last.
fn row_is_kept(rt: &impl Abort, world: &mut World) {
    goes(rt, world, Step::Checkpoint(0), Outcome::Checkpointed(0, 0));
    goes(rt, world, Step::Restart(0), Outcome::Restarted(0));
    five_stands(rt, world, true);
    goes(rt, world, Step::Tell(0), Outcome::Told(0, first_news()));
}

// A request while its component is down is held back, and sent once that is up. Nothing answers it while that is
// down, and nothing of the incarnation before.
fn is_held(rt: &impl Abort, world: &mut World, admit: Step) {
    goes(rt, world, admit, Outcome::Admitted(2));
    let insert = Op::Insert(record(6), value(1));
    goes(rt, world, Step::Ask(2), Outcome::Held(2, insert));
    stops(rt, world, Step::Resend(2), Illegal::Down(0));
    is_stranger(rt, world, 1, done(2, 1));
    is_redone(rt, world, 2);
    is_stranger(rt, world, 3, done(2, 0));
    let wire = Wire {
        number: 2,
        low_water: 1,
        incarnation: 1,
        redo: false,
        op: insert,
    };
    goes(rt, world, Step::Resend(2), Outcome::Sent(2, wire));
}

#[test]
fn a_request_held_while_its_component_is_down(rt: HostRuntime) {
    let mut world = world(&rt, rt.alloc());
    is_put(&rt, rt.alloc(), &mut world, (1, 0), 5);
    row_is_kept(&rt, &mut world);
    is_held(&rt, &mut world, admit(&rt, rt.alloc(), (PUT, &[6, 1])));
    closed(world);
}

#[test]
fn a_component_that_is_not_there(rt: HostRuntime) {
    let mut world = world(&rt, rt.alloc());
    stops(&rt, &mut world, Step::Checkpoint(1), Illegal::NoDc);
    stops(&rt, &mut world, Step::Restart(1), Illegal::NoDc);
    stops(&rt, &mut world, Step::Redo(1), Illegal::NoDc);
    closed(world);
}

// News of the second restart are taken where those of the first were lost. What was done above the mark that the
// checkpoint kept is redone under that mark, though one of it was kept too and the transaction component's own mark
// is higher.
fn second_restart_is_told(rt: &impl Abort, world: &mut World) {
    goes(rt, world, Step::Restart(0), Outcome::Restarted(0));
    goes(rt, world, Step::Restart(0), Outcome::Restarted(0));
    let news = News {
        incarnation: 2,
        mark: 1,
    };
    goes(rt, world, Step::Tell(1), Outcome::Told(0, news));
    stops(rt, world, Step::Tell(0), Illegal::OldNews);
}

// What redoes the put of that number in the second incarnation, under the mark of the checkpoint.
fn second_redo(number: u64, key: u64) -> Wire {
    Wire {
        number,
        low_water: 1,
        incarnation: 2,
        redo: true,
        op: Op::Insert(record(key), value(100)),
    }
}

// The put of that number is redone by the wire at this place, whose reply has the same place.
fn second_is_redone(rt: &impl Abort, world: &mut World, place: usize, number: u64, key: u64) {
    let redo = Outcome::Redoing(place, second_redo(number, key));
    goes(rt, world, Step::Redo(0), redo);
    let reply = Outcome::Replied(place, done(number, 2));
    goes(rt, world, Step::Perform(place), reply);
    goes(rt, world, Step::Take(place), Outcome::Redone(number));
}

// Both numbers above the mark are redone, one after the other.
#[test]
fn a_restart_that_nobody_was_told_of(rt: HostRuntime) {
    let mut world = world(&rt, rt.alloc());
    is_put(&rt, rt.alloc(), &mut world, (1, 0), 5);
    is_put(&rt, rt.alloc(), &mut world, (2, 1), 6);
    let kept = Outcome::Checkpointed(0, 1);
    goes(&rt, &mut world, Step::Checkpoint(0), kept);
    is_put(&rt, rt.alloc(), &mut world, (3, 2), 7);
    second_restart_is_told(&rt, &mut world);
    second_is_redone(&rt, &mut world, 3, 2, 6);
    second_is_redone(&rt, &mut world, 4, 3, 7);
    goes(&rt, &mut world, Step::Redo(0), Outcome::Up(0));
    closed(world);
}
