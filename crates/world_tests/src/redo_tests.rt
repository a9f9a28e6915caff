// What a redo leaves out: what was asked of another component, and what wasn't done.

use crate::checks::is_same;
use crate::step_tests::{closed, goes, is_called, opened};
use access_slots::op::{News, Op, Reply, Said, Wire};
use data_component::dc::Dc;
use samples::{DROP, PUT, load, loaded, put_procedure, record, value};
use std::alloc::Global;
use std::process::Abort;
use tc_world::{Outcome, Step, World};

// The number of a `put` into the second component.
const PUT_BESIDE: usize = DROP + 1;

fn two_dcs(rt: &impl Abort, alloc: Global) -> Vec<Dc> {
    let mut dcs = Vec::new(alloc);
    for _ in 0..2 {
        let dc = Dc::new(alloc, 4, 100).expect(rt, "no data component");
        dcs.push(dc).expect(rt, "no room");
    }
    dcs
}

// A world of two components, in the second of which one procedure more puts.
fn world(rt: &impl Abort, alloc: Global) -> World {
    let mut state = loaded(alloc, 2).expect(rt, "not loaded");
    let code = put_procedure(alloc, 1).expect(rt, "no procedure");
    is_same(rt, load(&mut state, "put beside", code), Some(PUT_BESIDE));
    opened(rt, alloc, state, two_dcs(rt, alloc))
}

// The first number is redone, and neither the second, whose insert found the record there, nor the
// third, which is of the other component.
fn the_first_is_redone(rt: &impl Abort, world: &mut World) {
    goes(rt, world, Step::Restart(0), Outcome::Restarted(0));
    let news = News {
        incarnation: 1,
        mark: 0,
    };
    goes(rt, world, Step::Tell(0), Outcome::Told(0, news));
    let redo = Wire {
        number: 1,
        low_water: 0,
        incarnation: 1,
        redo: true,
        op: Op::Insert(record(5), value(100)),
    };
    goes(rt, world, Step::Redo(0), Outcome::Redoing(3, redo));
    let reply = Reply {
        number: 1,
        incarnation: 1,
        said: Said::Done(None),
    };
    goes(rt, world, Step::Perform(3), Outcome::Replied(3, reply));
    goes(rt, world, Step::Take(3), Outcome::Redone(1));
    goes(rt, world, Step::Redo(0), Outcome::Up(0));
}

#[test]
fn one_of_three_is_redone(rt: HostRuntime) {
    let mut world = world(&rt, rt.alloc());
    is_called(&rt, rt.alloc(), &mut world, (1, 0), (PUT, &[5, 100]));
    is_called(&rt, rt.alloc(), &mut world, (2, 1), (PUT, &[5, 100]));
    is_called(&rt, rt.alloc(), &mut world, (3, 2), (PUT_BESIDE, &[5, 100]));
    the_first_is_redone(&rt, &mut world);
    closed(world);
}
