// An engine appends what is new to its log's file before it carries anything, and is killed behind each step of a
// move of 10: at each length of the append.

use crate::checks::is_same;
use crate::coming_back_tests::put_ends;
use crate::crash_tests::{all_end, note_of};
use crate::step_tests::{admit, closed, new_dcs, opened, stepped};
use access_slots::slot::Value;
use audit::auditing::audit;
use data_component::dc::Dc;
use frame_file::Memory;
use log_file::{Header, LogFile, Note, OpenFault, read_file};
use samples::{MOVE, loaded, record, value};
use std::alloc::Global;
use std::process::Abort;
use tc_core::state::TcState;
use tc_world::{Step, World};

const HEADER: Header = Header {
    dcs: 1,
    procedures: 5,
    digest: [7; 32],
    session: None,
};

// A world, the file that it is written to, and how many events that has.
struct Engine {
    world: World,
    file: LogFile<Memory>,
    events: usize,
}

// An empty file, begun.
fn begun(rt: &impl Abort, alloc: Global) -> LogFile<Memory> {
    let mut file = LogFile::new(Memory::new(alloc, Vec::new(alloc)));
    let empty = matches!(file.open(alloc, &HEADER, &[]), Err(OpenFault::Empty));
    is_same(rt, (empty, file.create(alloc, &HEADER)), (true, Ok(())));
    file
}

// One batch: the rows of all events since the last, and what is known.
fn write(rt: &impl Abort, alloc: Global, engine: &mut Engine) {
    let state = engine.world.state();
    let rows = state
        .log()
        .print_from(alloc, engine.events)
        .expect(rt, "not printed");
    let note = Note {
        dc: 0,
        known: note_of(state.site(0)),
    };
    engine.events = state.log().len();
    is_same(rt, engine.file.append(alloc, &[note], &rows), Ok(()));
}

// Two rows, and what was logged for them.
fn started(rt: &impl Abort, alloc: Global) -> Engine {
    let state = loaded(alloc, 1).expect(rt, "not loaded");
    let mut world = opened(rt, alloc, state, new_dcs(rt, alloc, 100));
    put_ends(rt, alloc, &mut world, 1, &[5, 100]);
    put_ends(rt, alloc, &mut world, 2, &[6, 50]);
    let mut engine = Engine {
        world,
        file: begun(rt, alloc),
        events: 0,
    };
    write(rt, alloc, &mut engine);
    engine
}

// A move, within which the component restarts and is told to redo.
fn steps(rt: &impl Abort, alloc: Global) -> [Step; 14] {
    [
        admit(rt, alloc, (MOVE, &[5, 6, 10])),
        Step::Ask(3),
        Step::Perform(2),
        Step::Take(2),
        Step::Ask(3),
        Step::Perform(3),
        Step::Take(3),
        Step::Ask(3),
        Step::Perform(4),
        Step::Take(4),
        Step::Restart(0),
        Step::Tell(0),
        Step::Redo(0),
        Step::Perform(5),
    ]
}

// So many steps are taken, each written before the next.
fn ran(rt: &impl Abort, alloc: Global, steps: &[Step]) -> Engine {
    let mut engine = started(rt, alloc);
    for step in steps {
        is_same(rt, engine.world.step(step).is_ok(), true);
        write(rt, alloc, &mut engine);
    }
    engine
}

fn row(dcs: &[Dc], key: u64) -> Option<Value> {
    dcs.first()?.get(&record(key))
}

// Nothing was moved, or 10 from one to the other, and an audit has nothing to say.
fn is_whole(rt: &impl Abort, alloc: Global, world: &World) {
    let rows = (row(world.dcs(), 5), row(world.dcs(), 6));
    let before = (Some(value(100)), Some(value(50)));
    let behind = (Some(value(90)), Some(value(60)));
    is_same(rt, rows == before || rows == behind, true);
    let state = world.state();
    let audited = audit(alloc, state.procs(), state.log(), world.dcs());
    is_same(rt, (state.open_count(), audited.is_ok()), (0, true));
}

// A component whose restart isn't known restarts, and tells so.
fn is_known(world: &mut World) {
    let known = world.state().site(0).incarnation;
    if world.dcs().first().map(Dc::incarnation) != Some(known) {
        let _ = stepped(world, Step::Restart(0));
        let _ = stepped(world, Step::Tell(0));
    }
}

// What is left of an engine without its file.
fn ended(engine: Engine) -> (TcState, Vec<Dc>) {
    let Engine {
        world,
        file,
        events: _,
    } = engine;
    drop(file);
    world.close()
}

// The engine is killed, and comes back from these bytes of its file to what is left of its components.
fn comes_back(rt: &impl Abort, alloc: Global, engine: Engine, left: &[u8]) {
    let (state, dcs) = ended(engine);
    let stored = read_file(alloc, left).expect(rt, "not read");
    let mut fresh = loaded(alloc, 1).expect(rt, "not loaded");
    is_same(rt, fresh.recover(&stored.log, &stored.notes), Ok(()));
    let mut world = World::resumed(alloc, fresh, dcs).expect(rt, "not resumed");
    is_known(&mut world);
    all_end(&mut world);
    is_whole(rt, alloc, &world);
    closed(world);
    drop(state);
    drop(stored);
}

// What is read of each length of the last append has the events from before it, or all.
fn each_is_read(rt: &impl Abort, alloc: Global, bytes: &[u8], from: usize, events: (usize, usize)) {
    for length in from..=bytes.len() {
        let left = bytes.get(..length).expect(rt, "too long");
        let stored = read_file(alloc, left).expect(rt, "not read");
        let wanted = if length < bytes.len() {
            events.0
        } else {
            events.1
        };
        is_same(rt, (length, stored.log.len()), (length, wanted));
        drop(stored);
    }
}

fn bytes_of(rt: &impl Abort, alloc: Global, engine: &Engine) -> Vec<u8> {
    Vec::from_slice(alloc, engine.file.device().bytes()).expect(rt, "no bytes")
}

// The last of these steps is taken, and the engine is killed while it writes what is new.
fn killed_behind(rt: &impl Abort, alloc: Global, before: &[Step], steps: &[Step]) {
    let short = ran(rt, alloc, before);
    let was = (short.events, bytes_of(rt, alloc, &short));
    drop(ended(short));
    let engine = ran(rt, alloc, steps);
    let bytes = bytes_of(rt, alloc, &engine);
    each_is_read(rt, alloc, &bytes, was.1.len(), (was.0, engine.events));
    comes_back(rt, alloc, engine, &was.1);
    comes_back(rt, alloc, ran(rt, alloc, steps), &bytes);
}

#[test]
fn an_engine_killed_at_each_length_of_an_append(rt: HostRuntime) {
    let steps = steps(&rt, rt.alloc());
    for count in 0..steps.len() {
        if let (Some(before), Some(first)) = (steps.get(..count), steps.get(..=count)) {
            killed_behind(&rt, rt.alloc(), before, first);
        }
    }
    drop(steps);
}
