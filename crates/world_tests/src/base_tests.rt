// Worlds that begin with rows, behind a log that begins with a Checkpoint: a first life puts three rows, its operations are
// forgotten, and its log begins anew; a second one moves from one row to another, and undoes a write of the third.

ghost use Rattle.std.specs.List.{All};
ghost use Rattle.coming_back.specs.Coming.{HasOnlyRows};

use crate::checks::is_same;
use crate::coming_back_tests::{both_end, put_ends};
use crate::step_tests::{admit, closed, goes, is_carried, new_dcs, opened, stepped, stops, world};
use audit::auditing::{AuditFault, audit};
use coming_back::{ComeBackFault, Resumed, come_back};
use data_component::dc::Dc;
use samples::{BAD, MOVE, loaded, log_bytes, record, value};
use std::alloc::Global;
use std::process::Abort;
use tc_core::recovery::RecoverFault;
use tc_core::state::TcState;
use tc_log::log::Log;
use tc_world::{Illegal, Outcome, Step, World};

const RECORD: usize = 96;

// So many transactions and numbers came before the second log.
const BEFORE: u64 = 3;

// The data component hears that all up to this number is answered, keeps that, and forgets it: only rows are left. Answers
// the mark that it kept. The assertions stand here, since what they say is what `come_back` requires.
fn forgets(rt: &impl Abort, dc: &mut Dc, low_water: u64) -> u64
    ensures { HasOnlyRows dc.new }
{
    dc.hear_mark(0, low_water);
    let kept = dc.checkpoint();
    let forgot = dc.forget();
    assert_eq!(rt; forgot, true);
    assert_eq!(rt; dc.incarnation(), 0);
    kept
}

// One data component with the rows, and the state, whose log begins anew.
fn begun(rt: &impl Abort, alloc: Global) -> (TcState, Vec<Dc>)
    ensures { All HasOnlyRows result.1.items }
{
    let mut first = world(rt, alloc);
    put_ends(rt, alloc, &mut first, 1, &[5, 100]);
    put_ends(rt, alloc, &mut first, 2, &[6, 50]);
    put_ends(rt, alloc, &mut first, 3, &[7, 1]);
    let (mut state, mut olds) = first.close();
    let mut dc = olds.pop().expect(rt, "no data component");
    drop(olds);
    let kept = forgets(rt, &mut dc, state.low_water());
    is_same(rt, state.checkpoint(&[kept]), Ok(()));
    let mut dcs = Vec::with_capacity(alloc, 1).expect(rt, "no room");
    dcs.push_reserved(dc);
    (state, dcs)
}

// The second world, in which nothing has happened since.
fn begins(rt: &impl Abort, alloc: Global) -> World {
    let (state, dcs) = begun(rt, alloc);
    is_same(rt, (state.log().len(), state.begun()), (1, BEFORE));
    opened(rt, alloc, state, dcs)
}

fn row_is(rt: &impl Abort, dcs: &[Dc], key: u64, wanted: u64) {
    for dc in dcs {
        is_same(rt, (key, dc.get(&record(key))), (key, Some(value(wanted))));
    }
}

// The rows once the move has ended, or before it.
fn rows_are(rt: &impl Abort, dcs: &[Dc], moved: bool) {
    let (five, six) = if moved { (90, 60) } else { (100, 50) };
    row_is(rt, dcs, 5, five);
    row_is(rt, dcs, 6, six);
    row_is(rt, dcs, 7, 1);
}

// An audit of a log and data components has nothing to say.
fn is_audited(rt: &impl Abort, alloc: Global, state: &TcState, dcs: &[Dc]) {
    let audited = audit(alloc, state.procs(), state.log(), dcs);
    is_same(rt, audited.is_ok(), true);
}

// The move and the write that is undone, at once.
fn live(rt: &impl Abort, alloc: Global, world: &mut World) {
    goes(
        rt,
        world,
        admit(rt, alloc, (MOVE, &[5, 6, 10])),
        Outcome::Admitted(BEFORE + 1),
    );
    goes(
        rt,
        world,
        admit(rt, alloc, (BAD, &[7])),
        Outcome::Admitted(BEFORE + 2),
    );
    both_end(world, BEFORE + 1, BEFORE + 2);
    is_same(rt, world.state().open_count(), 0);
}

// A restart leaves the rows with which it began, and what was done since is redone.
fn restarts(rt: &impl Abort, world: &mut World, moved: bool) {
    goes(rt, world, Step::Restart(0), Outcome::Restarted(0));
    rows_are(rt, world.dcs(), false);
    is_same(rt, stepped(world, Step::Tell(0)).is_ok(), true);
    for _ in 0..20 {
        let Ok(Outcome::Redoing(place, _)) = stepped(world, Step::Redo(0)) else {
            break;
        };
        is_same(rt, is_carried(world, place), true);
    }
    rows_are(rt, world.dcs(), moved);
}

#[test]
fn a_world_goes_on_from_rows(rt: HostRuntime) {
    let mut world = begins(&rt, rt.alloc());
    live(&rt, rt.alloc(), &mut world);
    rows_are(&rt, world.dcs(), true);
    is_audited(&rt, rt.alloc(), world.state(), world.dcs());
    restarts(&rt, &mut world, true);
    is_audited(&rt, rt.alloc(), world.state(), world.dcs());
    closed(world);
}

// Before anything is done, nothing is redone.
#[test]
fn rows_alone_outlive_a_restart(rt: HostRuntime) {
    let mut world = begins(&rt, rt.alloc());
    restarts(&rt, &mut world, false);
    is_audited(&rt, rt.alloc(), world.state(), world.dcs());
    closed(world);
}

// The rows tell of what the Checkpoint stands for: without it a crash doesn't come back.
#[test]
fn a_crash_keeps_the_checkpoint(rt: HostRuntime) {
    let mut world = begins(&rt, rt.alloc());
    stops(&rt, &mut world, Step::Crash(0), Illegal::NotWritten);
    goes(&rt, &mut world, Step::Crash(1), Outcome::Crashed(1, 0));
    live(&rt, rt.alloc(), &mut world);
    let events = world.state().log().len();
    stops(&rt, &mut world, Step::Crash(0), Illegal::NotWritten);
    goes(
        &rt,
        &mut world,
        Step::Crash(events),
        Outcome::Crashed(events, 0),
    );
    rows_are(&rt, world.dcs(), true);
    is_audited(&rt, rt.alloc(), world.state(), world.dcs());
    closed(world);
}

// What is open when it crashes goes on.
#[test]
fn a_crash_in_the_midst_goes_on(rt: HostRuntime) {
    let mut world = begins(&rt, rt.alloc());
    let admits = admit(&rt, rt.alloc(), (MOVE, &[5, 6, 10]));
    goes(&rt, &mut world, admits, Outcome::Admitted(BEFORE + 1));
    is_same(
        &rt,
        stepped(&mut world, Step::Ask(BEFORE + 1)).is_ok(),
        true,
    );
    goes(&rt, &mut world, Step::Crash(3), Outcome::Crashed(3, 1));
    is_same(&rt, is_carried(&mut world, 0), true);
    both_end(&mut world, BEFORE + 1, BEFORE + 1);
    rows_are(&rt, world.dcs(), true);
    is_audited(&rt, rt.alloc(), world.state(), world.dcs());
    closed(world);
}

// The bytes of the second log.
fn written(rt: &impl Abort, alloc: Global) -> Vec<u8> {
    let mut world = begins(rt, alloc);
    live(rt, alloc, &mut world);
    let bytes = world.state().log().print(alloc).expect(rt, "not printed");
    closed(world);
    bytes
}

// A new state and data components with the rows alone come back from so many of the events, and all that was open ends.
fn comes_back(rt: &impl Abort, alloc: Global, bytes: &[u8], events: usize) {
    let first = bytes
        .get(..events.saturating_mul(RECORD))
        .expect(rt, "too few events");
    let log = Log::read(alloc, first).expect(rt, "not read");
    let (former, mut dcs) = begun(rt, alloc);
    drop(former);
    let mut state = loaded(alloc, 1).expect(rt, "not loaded");
    let resumed = come_back(alloc, &mut state, dcs.as_mut_slice(), &log);
    is_same(
        rt,
        (events, resumed.is_ok(), state.open_count()),
        (events, true, 0),
    );
    rows_are(rt, &dcs, events > 1);
    is_audited(rt, alloc, &state, &dcs);
    drop(resumed);
    drop(state);
    drop(dcs);
    drop(log);
}

#[test]
fn each_beginning_comes_back_to_rows(rt: HostRuntime) {
    let bytes = written(&rt, rt.alloc());
    for events in 1..=bytes.len() / RECORD {
        comes_back(&rt, rt.alloc(), bytes.as_slice(), events);
    }
    drop(bytes);
}

// Data components without the rows that stand for what came before the log.
#[test]
fn lost_rows_are_missed(rt: HostRuntime) {
    let bytes = written(&rt, rt.alloc());
    let log = Log::read(rt.alloc(), bytes.as_slice()).expect(&rt, "not read");
    let mut state = loaded(rt.alloc(), 1).expect(&rt, "not loaded");
    let mut dcs = new_dcs(&rt, rt.alloc(), 100);
    let resumed = come_back(rt.alloc(), &mut state, dcs.as_mut_slice(), &log);
    let missed = ComeBackFault::Recover(RecoverFault::Forgotten(0));
    is_same(&rt, resumed.as_ref().err(), Some(&missed));
    is_same(&rt, state.log().is_empty(), true);
    drop(resumed);
    drop(state);
    drop(dcs);
    drop(log);
    drop(bytes);
}

// A log behind a thousand million admissions, of which none is open but one: the others aren't gone through.
#[test]
fn admissions_before_the_log_cost_nothing(rt: HostRuntime) {
    let before = 1_000_000_000;
    let records = [
        (6, 0, before, 0, 0, [0, 0]),
        (1, 2, before + 1, 0, 0, [5, 100]),
    ];
    let bytes = log_bytes(rt.alloc(), &records).expect(&rt, "no bytes");
    let log = Log::read(rt.alloc(), bytes.as_slice()).expect(&rt, "not read");
    let mut state = loaded(rt.alloc(), 1).expect(&rt, "not loaded");
    let mut dcs = new_dcs(&rt, rt.alloc(), 4);
    let resumed = come_back(rt.alloc(), &mut state, dcs.as_mut_slice(), &log).expect(
        &rt, "not back",
    );
    let ended = match resumed.as_slice() {
        [Resumed::Ended(receipt)] => receipt.txn,
        _ => 0,
    };
    is_same(&rt, ended, before + 1);
    drop(resumed);
    let world = World::resumed(rt.alloc(), state, dcs).expect(&rt, "not resumed");
    closed(world);
    drop(log);
    drop(bytes);
}

// Rows beside a log that doesn't begin where they do say nothing of each other.
#[test]
fn rows_and_log_begin_together(rt: HostRuntime) {
    let (state, dcs) = begun(&rt, rt.alloc());
    let other = loaded(rt.alloc(), 1).expect(&rt, "not loaded");
    let audited = audit(rt.alloc(), other.procs(), other.log(), &dcs);
    is_same(&rt, audited.err(), Some(AuditFault::Begun(0)));
    drop(other);
    drop(state);
    drop(dcs);
}
