// The transaction component crashes behind each of some steps, comes back from its log and from what was
// noted of its data component, and goes on to the same log: in a world resumed, where no message is left,
// and by a step of the world itself, where all are.

use crate::checks::is_same;
use crate::step_tests::{admit, all_went, closed, goes, is_carried, sent, stepped, stops, world};
use access_slots::op::News;
use samples::{BAD, PUT, PUT_AND_ABORT, loaded, log_bytes};
use std::alloc::Global;
use std::process::Abort;
use tc_core::recovery::SiteNote;
use tc_log::log::Log;
use tc_world::{Illegal, Outcome, Step, World};
use transactions::Site;

const RECORD: usize = 96;

/// What is noted of a data component: a redo begins anew, above its mark.
pub(crate) fn note_of(site: Site) -> SiteNote {
    match site.redo {
        None => SiteNote::Up(site.incarnation),
        Some(redo) => SiteNote::Restarted(News {
            incarnation: site.incarnation,
            mark: redo.mark,
        }),
    }
}

// Nothing but the log, the note and the data components is left; a state comes back from them.
fn crashed(rt: &impl Abort, alloc: Global, former: World) -> World {
    let note = note_of(former.state().site(0));
    let (state, dcs) = former.close();
    let mut fresh = loaded(alloc, 1).expect(rt, "not loaded");
    is_same(rt, fresh.recover(state.log(), &[note]), Ok(()));
    drop(state);
    World::resumed(alloc, fresh, dcs).expect(rt, "not resumed")
}

// The place of what is sent next: what is open, what comes next, or what undoes.
fn next_sent(world: &mut World, txn: u64) -> Option<usize> {
    if let Some(place) = sent(world, Step::Resend(txn)) {
        return Some(place);
    }
    if let Some(place) = sent(world, Step::Ask(txn)) {
        return Some(place);
    }
    sent(world, Step::Undo(txn))
}

// One operation more.
fn moves(world: &mut World, txn: u64) -> bool {
    match next_sent(world, txn) {
        Some(place) => is_carried(world, place),
        None => false,
    }
}

fn ends(world: &mut World, txn: u64) {
    for _ in 0..20 {
        if stepped(world, Step::End(txn)).is_ok() || !moves(world, txn) {
            return;
        }
    }
}

// What was done is redone, until the data component is up.
fn is_up(world: &mut World) {
    for _ in 0..20 {
        let Ok(Outcome::Redoing(place, _)) = stepped(world, Step::Redo(0)) else {
            return;
        };
        let _ = is_carried(world, place);
    }
}

/// What was open ends, once the data component is up.
pub(crate) fn all_end(world: &mut World) {
    is_up(world);
    for txn in 1..=world.state().admitted() {
        ends(world, txn);
    }
}

// How many events there are once all that was open behind so many has ended.
const fn ended(events: usize) -> usize {
    match events {
        0 => 0,
        1..=4 => 4,
        _ => 12,
    }
}

// A put, and a write that is undone, of one data component.
fn steps(rt: &impl Abort, alloc: Global) -> [Step; 16] {
    [
        admit(rt, alloc, (PUT, &[5, 100])),
        Step::Ask(1),
        Step::Perform(0),
        Step::Take(0),
        Step::End(1),
        admit(rt, alloc, (BAD, &[5])),
        Step::Ask(2),
        Step::Perform(1),
        Step::Take(1),
        Step::Ask(2),
        Step::Perform(2),
        Step::Take(2),
        Step::Undo(2),
        Step::Perform(3),
        Step::Take(3),
        Step::End(2),
    ]
}

// The log is that of so many events, behind so many of which the crash came.
fn is_log(rt: &impl Abort, alloc: Global, log: &Log, count: usize, events: usize) {
    let printed = log.print(alloc).expect(rt, "not printed");
    let whole = log_bytes(alloc, &PUT_AND_ABORT).expect(rt, "no bytes");
    let want = whole.get(..count.saturating_mul(RECORD));
    is_same(rt, (events, Some(printed.as_slice())), (events, want));
}

// The steps are taken, and these; then the transaction component crashes, comes back, and goes on.
fn goes_on(rt: &impl Abort, alloc: Global, steps: &[Step], then: &[Step]) {
    let mut former = world(rt, alloc);
    all_went(rt, former.run(steps));
    all_went(rt, former.run(then));
    let events = former.state().log().len();
    let mut standing = crashed(rt, alloc, former);
    all_end(&mut standing);
    is_log(rt, alloc, standing.state().log(), ended(events), events);
    closed(standing);
}

// Behind each step.
fn each_goes_on(rt: &impl Abort, alloc: Global, then: &[Step]) {
    let steps = steps(rt, alloc);
    for count in 0..=steps.len() {
        if let Some(first) = steps.get(..count) {
            goes_on(rt, alloc, first, then);
        }
    }
    drop(steps);
}

#[test]
fn a_crash_behind_each_step(rt: HostRuntime) {
    each_goes_on(&rt, rt.alloc(), &[]);
}

// The data component restarts, and loses all that it did; the crash comes before it is redone.
#[test]
fn a_crash_behind_a_restart(rt: HostRuntime) {
    let then = [Step::Restart(0), Step::Tell(0)];
    each_goes_on(&rt, rt.alloc(), &then);
    drop(then);
}

// It crashes by a step between these, which finds the whole log written: they go on as if it hadn't.
fn nothing_changes(rt: &impl Abort, alloc: Global, first: &[Step], rest: &[Step]) {
    let mut world = world(rt, alloc);
    all_went(rt, world.run(first));
    let events = world.state().log().len();
    let crashed = Outcome::Crashed(events, world.state().open_count());
    goes(rt, &mut world, Step::Crash(events), crashed);
    let beyond = Step::Crash(events.saturating_add(1));
    stops(rt, &mut world, beyond, Illegal::NotWritten);
    all_went(rt, world.run(rest));
    is_log(rt, alloc, world.state().log(), PUT_AND_ABORT.len(), events);
    closed(world);
}

// Behind each step, before the others.
#[test]
fn a_crash_between_the_steps(rt: HostRuntime) {
    let steps = steps(&rt, rt.alloc());
    for count in 0..=steps.len() {
        if let Some((first, rest)) = steps.split_at_checked(count) {
            nothing_changes(&rt, rt.alloc(), first, rest);
        }
    }
    drop(steps);
}

// The last two of the events behind the steps may be missing, and not the last four.
fn too_little_is_found(rt: &impl Abort, world: &mut World) {
    let events = world.state().log().len();
    let kept = events.saturating_sub(2);
    goes(rt, world, Step::Crash(kept), Outcome::Crashed(kept, 1));
    let fewer = Step::Crash(events.saturating_sub(4));
    stops(rt, world, fewer, Illegal::NotWritten);
}

// What was carried tells of a number that wasn't written, or of a mark.
#[test]
fn a_crash_that_finds_too_little(rt: HostRuntime) {
    let mut world = world(&rt, rt.alloc());
    let steps = steps(&rt, rt.alloc());
    all_went(&rt, world.run(&steps));
    drop(steps);
    too_little_is_found(&rt, &mut world);
    closed(world);
}
