use crate::checks::is_same;
use access_slots::op::{Op, Said};
use access_slots::slot::{Record, Value};
use log_picture::drawing::drawing;
use log_picture::{Ending, Life, Picture, pictured};
use std::alloc::{AllocError, Global};
use std::process::Abort;
use tc_log::event::{Args, Event, Outcome};
use tc_log::log::Log;

const ZERO: Value = [0; 64];

fn key(key: u64) -> Record {
    Record {
        dc: 0,
        table: 0,
        key,
    }
}

// Transaction 1 writes 5 and commits; 2 reads 5 and writes 6 meanwhile, undoes that, and aborts with 7; 3 stays open.
fn three(alloc: Global) -> Result<Log, AllocError> {
    let mut log = Log::new(alloc);
    log.reserve(11)?;
    log.push(Event::Admit {
        txn: 1,
        proc: 0,
        args: Args::copy_of(alloc, &[5])?,
    });
    log.push(Event::Ask {
        txn: 1,
        number: 1,
        op: Op::Insert(key(5), ZERO),
    });
    log.push(Event::Admit {
        txn: 2,
        proc: 1,
        args: Args::copy_of(alloc, &[])?,
    });
    log.push(Event::Ask {
        txn: 2,
        number: 2,
        op: Op::Insert(key(6), ZERO),
    });
    log.push(Event::Answer {
        txn: 1,
        number: 1,
        said: Said::Done(None),
    });
    log.push(Event::End {
        txn: 1,
        outcome: Outcome::Committed,
    });
    log.push(Event::Answer {
        txn: 2,
        number: 2,
        said: Said::Done(None),
    });
    log.push(Event::Undo {
        txn: 2,
        number: 3,
        op: Op::Delete(key(6)),
    });
    log.push(Event::Admit {
        txn: 3,
        proc: 0,
        args: Args::copy_of(alloc, &[6])?,
    });
    log.push(Event::Answer {
        txn: 2,
        number: 3,
        said: Said::Done(Some(ZERO)),
    });
    log.push(Event::End {
        txn: 2,
        outcome: Outcome::Aborted(7),
    });
    Ok(log)
}

fn ending(place: usize, outcome: Outcome) -> Option<Ending> {
    Some(Ending { place, outcome })
}

fn life_is(rt: &impl Abort, picture: &Picture, index: usize, lane: usize, want: Life) {
    let track = picture.tracks.get(index).expect(rt, "no such transaction");
    is_same(rt, (index, track.lane), (index, lane));
    is_same(rt, track.life, want);
}

#[test]
fn three_transactions(rt: HostRuntime) {
    let alloc = rt.alloc();
    let log = three(alloc).expect(&rt, "no memory");
    let picture = pictured(alloc, &log.events(), 0).expect(&rt, "no memory");
    let first = Life {
        txn: 1,
        proc: 0,
        begin: 0,
        end: ending(5, Outcome::Committed),
    };
    let second = Life {
        txn: 2,
        proc: 1,
        begin: 2,
        end: ending(10, Outcome::Aborted(7)),
    };
    life_is(&rt, &picture, 0, 0, first);
    life_is(&rt, &picture, 1, 1, second);
    life_is(
        &rt,
        &picture,
        2,
        0,
        Life {
            txn: 3,
            proc: 0,
            begin: 8,
            end: None,
        },
    );
    is_same(&rt, (picture.tracks.len(), picture.lanes), (3, 2));
    drop((log, picture));
}

// From place 6 on, the first is over, and so is the number 2.
#[test]
fn a_part(rt: HostRuntime) {
    let alloc = rt.alloc();
    let log = three(alloc).expect(&rt, "no memory");
    let picture = pictured(alloc, &log.events(), 7).expect(&rt, "no memory");
    let track = picture.tracks.get(0).expect(&rt, "no transaction");
    is_same(&rt, track.life.txn, 2);
    is_same(&rt, track.ways.len(), 1);
    let way = track.ways.get(0).expect(&rt, "no number");
    is_same(
        &rt,
        (way.number, way.undo, way.begin, way.end_place()),
        (3, true, 7, Some(9)),
    );
    let row = picture.rows.get(0).expect(&rt, "no record");
    is_same(&rt, (row.record, row.users), (key(6), 1));
    drop((log, picture));
}

// The drawing begins and ends as SVG does, and has the titles.
#[test]
fn its_drawing(rt: HostRuntime) {
    let alloc = rt.alloc();
    let log = three(alloc).expect(&rt, "no memory");
    let picture = pictured(alloc, &log.events(), 0).expect(&rt, "no memory");
    let svg = drawing(alloc, &log.events(), 0, 11, 11, &picture).expect(&rt, "no memory");
    let text = svg.as_str();
    for part in [
        "<svg xmlns='http://www.w3.org/2000/svg' width='960' height='200'>",
        "<text x='4' y='14'>11 of 11 events, from place 0 on: 3 transactions in 2 lanes</text>",
        "<rect class='committed' x='130' y='64' width='239' height='18'><title>transaction 1, procedure 0 5: events 0 to 5, committed</title></rect>",
        "<rect class='aborted' x='210' y='86' width='359' height='18'><title>transaction 2, procedure 1: events 2 to 10, aborted 7</title></rect>",
        "<rect class='undo' x='410' y='97' width='119' height='5'><title>undo, number 3: events 7 to 9, delete 0/0/6, done</title></rect>",
        "<text x='4' y='142'>0/0/5 (1)</text>",
        "<title>0/0/6: write by transaction 2, events 2 to 10</title>",
    ] {
        is_same(&rt, (part, text.contains(part)), (part, true));
    }
    is_same(&rt, text.ends_with("</text>\n</svg>\n"), true);
    drop((log, picture, svg));
}
