use crate::checks::is_same;
use embedding::call;
use embedding::codes::{
    BEGUN, DONE, DOWN, NO_PLACE, NO_SUCH_CALL, NO_TXN, NOT_OVER, NOTHING_OPEN, STRANGER,
};
use embedding::engine::{self, Engine};
use std::test::Fail;

// Reads the record of slot 0, and answers 0: mov r1, 0; call 1; mov r0, 0; exit.
const READS: [u8; 32] = [
    0xb7, 1, 0, 0, 0, 0, 0, 0, 0x85, 0, 0, 0, 1, 0, 0, 0, 0xb7, 0, 0, 0, 0, 0, 0, 0, 0x95, 0, 0, 0,
    0, 0, 0, 0,
];

// Makes this call.
pub(crate) fn made(engine: &mut Engine, what: u32) -> u32 {
    engine.frame.what = what;
    engine::serve(engine)
}

// Hands in the code, with the record of its argument as slot 0.
fn hand_in(engine: &mut Engine) -> bool {
    engine.frame.bytes[..32].copy_from_slice(&READS);
    engine.frame.count = 32;
    engine.frame.kind = 0;
    engine.frame.op = 1;
    engine.frame.key = 0;
    made(engine, call::BYTES) == DONE && made(engine, call::SLOT) == DONE
}

// A transaction component with one data component and this procedure as `r`.
pub(crate) fn loaded(engine: &mut Engine) -> bool {
    engine.frame.word = 1;
    let begun = made(engine, call::START_TC) == DONE && hand_in(engine);
    engine.frame.word = 1;
    engine.frame.bytes[0] = b'r';
    engine.frame.count = 1;
    begun && made(engine, call::LOAD) == DONE
}

// The same, whose call for record 7 has come to its question.
pub(crate) fn asked(engine: &mut Engine) -> bool {
    let loaded = loaded(engine);
    engine.frame.word = 0;
    engine.frame.count = 1;
    engine.frame.args[0] = 7;
    loaded && made(engine, call::ADMIT) == DONE && made(engine, call::ASK) == DONE
}

// A value that is no answer to a read, an answer, and the answer again.
pub(crate) fn answered(engine: &mut Engine) -> [u32; 3] {
    engine.frame.kind = 3;
    let unfit = made(engine, call::ANSWER);
    engine.frame.kind = 2;
    [
        unfit,
        made(engine, call::ANSWER),
        made(engine, call::ANSWER),
    ]
}

// What is told of a call that is over, and of its end.
fn ended(engine: &mut Engine) -> [(u32, u32); 2] {
    let over = made(engine, call::ASK);
    let kind = engine.frame.kind;
    let ended = made(engine, call::END);
    [(over, kind), (ended, engine.frame.kind)]
}

// The second event: how many bytes it has, and some of them.
fn shown(engine: &mut Engine) -> (u32, u32, [u8; 3]) {
    engine.frame.place = 1;
    let shown = made(engine, call::LOG_BYTES);
    let bytes = &engine.frame.bytes;
    (shown, engine.frame.count, [bytes[0], bytes[1], bytes[24]])
}

// What a call tells of its way from the admission to the end, and the bytes of an event.
#[test]
fn a_call_is_asked_and_answered(rt: HostRuntime) -> Result<(), Fail> {
    let mut engine = engine::made(rt.alloc());
    let asked = asked(&mut engine);
    let question = (engine.frame.kind, engine.frame.number, engine.frame.key);
    let answered = answered(&mut engine);
    let ended = ended(&mut engine);
    let shown = shown(&mut engine);
    engine::finish(engine);
    is_same(&rt, (asked, question), (true, (1, 1, 7)));
    is_same(&rt, answered, [STRANGER, DONE, NOTHING_OPEN]);
    is_same(&rt, ended, [(DONE, 3), (DONE, 1)]);
    is_same(&rt, shown, (DONE, 96, [2, 1, 7]));
    Ok(())
}

// The record that was read: a 5.
fn answered_with_5(engine: &mut Engine) -> u32 {
    engine.frame.kind = 1;
    engine.frame.value = [0; 64];
    engine.frame.value[0] = 5;
    made(engine, call::ANSWER)
}

// What this slot holds: whether a record is there, and its first byte.
fn result(engine: &mut Engine, slot: u64) -> (u32, u64, u8) {
    engine.frame.place = slot;
    engine.frame.value[0] = 0;
    let told = made(engine, call::RESULT);
    (told, engine.frame.word, engine.frame.value[0])
}

// What a call read is told from its run's end to its own.
#[test]
fn a_result_is_told(rt: HostRuntime) -> Result<(), Fail> {
    let mut engine = engine::made(rt.alloc());
    let asked = asked(&mut engine);
    let (early, _, _) = result(&mut engine, 0);
    let answered = answered_with_5(&mut engine);
    let held = result(&mut engine, 0);
    let (further, _, _) = result(&mut engine, 1);
    let ended = ended(&mut engine);
    let (late, _, _) = result(&mut engine, 0);
    engine::finish(engine);
    is_same(&rt, (asked, early, answered), (true, NOT_OVER, DONE));
    is_same(&rt, (held, further), ((DONE, 1, 5), NO_PLACE));
    is_same(&rt, (ended, late), ([(DONE, 3), (DONE, 1)], NO_TXN));
    Ok(())
}

// The data component restarts: what its news and the request behind them are answered.
pub(crate) fn told(engine: &mut Engine) -> [u32; 2] {
    engine.frame.incarnation = 1;
    engine.frame.low_water = 0;
    [made(engine, call::TOLD), made(engine, call::WIRE)]
}

// Nothing is redone behind any number, it is up, and the request is sent.
fn sent(engine: &mut Engine) -> ([u32; 5], u64) {
    engine.frame.number = 0;
    let behind = made(engine, call::REDO_BEHIND);
    let none = engine.frame.kind;
    let redone = made(engine, call::REDO_NEXT);
    let up = engine.frame.kind;
    let sent = made(engine, call::WIRE);
    ([behind, none, redone, up, sent], engine.frame.incarnation)
}

// A request is held back while its data component is down, and sent again once that is up.
#[test]
fn a_restart_is_told(rt: HostRuntime) -> Result<(), Fail> {
    let mut engine = engine::made(rt.alloc());
    let asked = asked(&mut engine);
    let told = told(&mut engine);
    let sent = sent(&mut engine);
    engine::finish(engine);
    is_same(&rt, (asked, told), (true, [DONE, DOWN]));
    is_same(&rt, sent, ([DONE, 2, DONE, 2, DONE], 1));
    Ok(())
}

// The row at this place of one log is handed in elsewhere.
fn handed_over(from: &mut Engine, place: u64, to: &mut Engine) -> bool {
    from.frame.place = place;
    let shown = made(from, call::LOG_BYTES);
    to.frame.bytes = from.frame.bytes;
    to.frame.count = from.frame.count;
    shown == DONE && made(to, call::BYTES) == DONE
}

// Both rows, and a note that the data component is up.
fn has_all(from: &mut Engine, to: &mut Engine) -> bool {
    let cleared = made(to, call::CLEAR) == DONE;
    let rows = handed_over(from, 0, to) && handed_over(from, 1, to);
    to.frame.kind = 1;
    to.frame.incarnation = 0;
    cleared && rows && made(to, call::NOTE) == DONE
}

// Once more is refused, and what was handed in is gone.
fn recovered(engine: &mut Engine) -> [u32; 2] {
    [made(engine, call::RECOVER), made(engine, call::RECOVER)]
}

// The open transaction: its kind, number and key.
pub(crate) fn found(engine: &mut Engine) -> (u32, u32, u64, u64) {
    engine.frame.place = 0;
    let found = made(engine, call::OPEN_FROM);
    (
        found,
        engine.frame.kind,
        engine.frame.number,
        engine.frame.key,
    )
}

// Its request is made again and told as kept, and there is no further one.
fn retaken(engine: &mut Engine) -> ([u32; 3], u64) {
    let none = made(engine, call::WIRE);
    let retaken = made(engine, call::RETAKE);
    let number = engine.frame.number;
    engine.frame.place = 1;
    ([none, retaken, made(engine, call::OPEN_FROM)], number)
}

// Another comes back from the rows of a log, and has the same request open.
#[test]
fn a_log_is_recovered(rt: HostRuntime) -> Result<(), Fail> {
    let mut engine = engine::made(rt.alloc());
    let mut other = engine::made(rt.alloc());
    let asked = asked(&mut engine) && loaded(&mut other) && has_all(&mut engine, &mut other);
    let recovered = recovered(&mut other);
    let found = found(&mut other);
    let retaken = retaken(&mut other);
    let ended = answered(&mut other);
    engine::finish(engine);
    engine::finish(other);
    is_same(&rt, (asked, recovered), (true, [DONE, BEGUN]));
    is_same(&rt, found, (DONE, 2, 1, 7));
    is_same(&rt, retaken, ([NOTHING_OPEN, DONE, NO_PLACE], 1));
    is_same(&rt, ended, [STRANGER, DONE, NOTHING_OPEN]);
    Ok(())
}

// The lock of this number: its mode and key.
fn lock_at(engine: &mut Engine, number: u64) -> (u32, u32, u64) {
    engine.frame.place = 0;
    engine.frame.word = number;
    let told = made(engine, call::LOCK_AT);
    (told, engine.frame.kind, engine.frame.key)
}

// Who waits for this data component: its kind, transaction and number.
fn waiting_for(engine: &mut Engine, dc: u16) -> (u32, u32, u64, u64) {
    engine.frame.place = 0;
    engine.frame.dc = dc;
    let told = made(engine, call::WAITING_FROM);
    (
        told,
        engine.frame.kind,
        engine.frame.txn,
        engine.frame.number,
    )
}

// What is seen of an open transaction from outside.
#[test]
fn locks_and_waits_are_seen(rt: HostRuntime) -> Result<(), Fail> {
    let mut engine = engine::made(rt.alloc());
    let asked = asked(&mut engine);
    let lock = lock_at(&mut engine, 0);
    let (further, _, _) = lock_at(&mut engine, 1);
    let waiting = waiting_for(&mut engine, 0);
    let (elsewhere, _, _, _) = waiting_for(&mut engine, 1);
    engine::finish(engine);
    is_same(&rt, (asked, lock, further), (true, (DONE, 1, 7), NO_PLACE));
    is_same(&rt, (waiting, elsewhere), ((DONE, 1, 1, 1), NO_PLACE));
    Ok(())
}

// A program that is verified and run to its first question.
fn verified(engine: &mut Engine) -> bool {
    let begun = made(engine, call::START_CODE) == DONE && hand_in(engine);
    engine.frame.word = 1;
    begun && made(engine, call::VERIFY) == DONE
}

fn run(engine: &mut Engine) -> (u32, u32, u64) {
    engine.frame.count = 1;
    engine.frame.args[0] = 7;
    let run = made(engine, call::RUN);
    (run, engine.frame.op, engine.frame.key)
}

// A value that doesn't fit, an answer, and the answer again.
fn resumed(engine: &mut Engine) -> ([u32; 3], (u32, u64, u64)) {
    engine.frame.kind = 3;
    let unfit = made(engine, call::RESUME);
    engine.frame.kind = 2;
    let resumed = made(engine, call::RESUME);
    let end = (engine.frame.op, engine.frame.word, engine.frame.place);
    ([unfit, resumed, made(engine, call::RESUME)], end)
}

// A program waits at its question, takes no answer that doesn't fit, and goes on to its end.
#[test]
fn a_program_is_resumed(rt: HostRuntime) -> Result<(), Fail> {
    let mut engine = engine::made(rt.alloc());
    let verified = verified(&mut engine);
    let run = run(&mut engine);
    let resumed = resumed(&mut engine);
    let none = made(&mut engine, call::ADMIT);
    engine::finish(engine);
    is_same(&rt, (verified, run), (true, (DONE, 1, 7)));
    is_same(&rt, resumed, ([STRANGER, DONE, NOTHING_OPEN], (0, 0, 4)));
    is_same(&rt, none, NO_SUCH_CALL);
    Ok(())
}
