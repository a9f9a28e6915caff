//! `bench`: runs each hot path as often as it is told to. It prints counts alone, the same every time; how
//! long it takes is measured from outside. Without words it says which it takes.
//!
//! ```
//! $ bench numbers 100 1000
//! count 1100
//! ```
//!
//! `code` prints `slots N instructions N refused N wrong N`: `wrong` are runs with another answer or count.
//! A workload is a line of words apart by tabs: a name, the code as hex text, how many arguments there are,
//! the arguments, the answer, a number that isn't read, and how many instructions are executed.
//!
//! `damaged` prints `truncations N changes N beginnings N refused N wrong N`: `beginnings` are read as the
//! events in front of the fault, `refused` with the damaged frame, `wrong` are all others.
#![tactic(auto)]

mod audits;
mod calls;
mod checks;
mod code;
mod cuts;
mod damaged;
mod doubts;
mod locks;
mod log;
mod numbers;
mod procedures;
mod redo;
mod slow;
mod steps;
mod store;
mod storm;
mod weather;

use code::{Done, read_workload};
use slow::Calls;
use std::alloc::Global;
use std::env;
use std::io::{Read, Write};
use std::process::ExitCode;
use std::sync::Wait;
use std::thread::Threads;
use std::time::Clock;
use weather::{Weather, Weathered};

const USAGE: &str = "usage:
  bench code LOADS RUNS < WORKLOADS    decodes and verifies each workload LOADS times, runs it RUNS times
  bench starts SLOTS TIMES             starts a machine for code of two instructions and SLOTS slots, and runs it, TIMES
  bench locks HELD TIMES               HELD transactions hold a lock; one more takes and gives back TIMES
  bench busy HELD TIMES                HELD transactions hold a lock; the lock of one in their midst is refused TIMES
  bench reads HELD TIMES               HELD transactions read a record; one more reads it and lets it go TIMES
  bench read HELD TIMES                HELD transactions read a record; a lock for writing it is refused TIMES
  bench doubts OPEN TIMES              OPEN transactions are in doubt; whether the call of one in their midst is blocked
                                       is asked TIMES
  bench give-ups OPEN TIMES            OPEN transactions are admitted, asked and given up, in a new component, TIMES
  bench numbers OPEN TIMES             OPEN numbers are open; one more is given out and answered TIMES
  bench log EVENTS TIMES               prints and reads a log of EVENTS events TIMES
  bench store ROWS UPDATES RESTARTS    inserts ROWS records, UPDATES them in turn, keeps a checkpoint, and RESTARTS
  bench steps ENDED OPEN TIMES         ENDED transactions have ended, OPEN are open; one more is run to its end TIMES
  bench checkpoints ROWS OPS TIMES     ROWS records are inserted, and OPS times updated; the mark rises and a checkpoint is
                                       kept TIMES
  bench redo ENDED OPEN TIMES          OPEN numbers are open, ENDED transactions have ended; a restart that lost all is
                                       told, and everything is redone, TIMES
  bench check ENDED TIMES              ENDED transactions have ended; their log is checked TIMES
  bench audits ENDED ROWS TIMES        ROWS records were put, ENDED calls moved an amount from one to the next; the log
                                       is audited beside their data component TIMES
  bench calls WORKERS CALLS            CALLS move an amount between two of 1000 records, by WORKERS at once
  bench rings WORKERS CALLS            the same over a data component in a thread of its own
  bench slow WORKERS CALLS WINDOW      CALLS put a record each, over a link that takes a millisecond, by WORKERS with WINDOW
                                       calls on their way each
  bench slow-moves WORKERS CALLS WINDOW  the same of CALLS that move an amount between two of 1000 records
  bench storm SEED WORKERS CALLS       the same over a link that loses, repeats, delays, forges and answers late, to a
                                       data component that keeps checkpoints and restarts, and an audit of it
  bench trace SEED WORKERS CALLS       the same, and the events of its log, 192 hex digits each
  bench cuts SEED WORKERS CALLS        the same as trace in parts of 100 calls, between which the log begins anew where
                                       it may: the events of each log are a line of their own
  bench restarts SEED WORKERS CALLS    the same as trace over a link that loses nothing, to a data component that keeps
                                       a checkpoint at every fifth wire and restarts at every seventh
  bench damaged EVENTS                 writes a log of EVENTS events in frames of 40, and reads the file cut at each
                                       length, and with each byte changed: as a beginning of it, or refused
  bench audit 0 0 < TEXT               audits a log and data components: a script of `world`, a line `log`, the log in
                                       hex, and lines `restart DC` and `list DC EVENTS`
";

// The number that a word is.
fn number(words: &[String], place: usize) -> Option<u64> {
    words.get(place)?.as_str().parse().ok()
}

// Every workload of the text.
fn run_all(alloc: Global, text: &str, loads: u64, runs: u64) -> Option<Done> {
    let mut done = Done::default();
    for line in text.lines() {
        read_workload(alloc, line)?.repeat(alloc, loads, runs, &mut done)?;
    }
    Some(done)
}

fn report(alloc: Global, done: &Done) -> Option<String> {
    format!(in alloc;
        "slots {} instructions {} refused {} wrong {}\n",
        done.slots, done.instructions, done.refused, done.wrong
    )
    .ok()
}

fn weathered(alloc: Global, weathered: &Weathered) -> Option<String> {
    let ended = &weathered.ended;
    let restarts = weathered.restarts;
    format!(in alloc;
        "committed {} in doubt {} blocked {} other {} restarts {restarts}\n{}{}",
        ended.committed, ended.in_doubt, ended.blocked, ended.other, weathered.audit, weathered.log
    )
    .ok()
}

// The count of a command that takes two numbers.
fn count_of_two<R: Threads + Wait + Sync>(
    rt: &R,
    alloc: Global,
    command: &str,
    first: u64,
    second: u64,
) -> Option<u64> {
    match command {
        "starts" => code::repeat_starts(alloc, first, second),
        "locks" => locks::repeat(alloc, first, second),
        "busy" => locks::repeat_busy(alloc, first, second),
        "reads" => locks::repeat_reads(alloc, first, second),
        "read" => locks::repeat_read(alloc, first, second),
        "give-ups" => doubts::repeat_give_ups(alloc, first, second),
        "doubts" => doubts::repeat(alloc, first, second),
        "numbers" => numbers::repeat(alloc, first, second),
        "log" => log::repeat(alloc, first, second),
        "check" => checks::repeat(alloc, first, second),
        "calls" => calls::repeat(rt, alloc, first, second),
        "rings" => calls::repeat_served(rt, alloc, first, second),
        _ => None,
    }
}

// The count of a command that takes three.
fn count_of_three<R: Threads + Wait + Sync + Clock>(
    rt: &R,
    alloc: Global,
    command: &str,
    (first, second): (u64, u64),
    third: u64,
) -> Option<u64> {
    match command {
        "store" => store::repeat(alloc, first, second, third),
        "steps" => steps::repeat(alloc, first, second, third),
        "checkpoints" => store::repeat_checkpoints(alloc, first, second, third),
        "redo" => redo::repeat(alloc, first, second, third),
        "audits" => checks::repeat_audits(alloc, first, second, third),
        "slow" => slow::repeat(rt, alloc, Calls::Puts, (first, second), third),
        "slow-moves" => slow::repeat(rt, alloc, Calls::Moves, (first, second), third),
        _ => None,
    }
}

// What a command did that counts.
fn count_line<R: Threads + Wait + Sync + Clock>(
    rt: &R,
    alloc: Global,
    command: &str,
    numbers: (u64, u64),
    third: Option<u64>,
) -> Option<String> {
    let count = match third {
        Some(third) => count_of_three(rt, alloc, command, numbers, third),
        None => count_of_two(rt, alloc, command, numbers.0, numbers.1),
    };
    format!(in alloc; "count {}\n", count?).ok()
}

// What one command did.
fn line_of<R: Threads + Wait + Sync + Clock>(
    rt: &R,
    alloc: Global,
    words: &[String],
    text: &str,
) -> Option<String> {
    let (command, first) = (words.get(1)?.as_str(), number(words, 2)?);
    if command == "damaged" {
        return damaged::repeat(alloc, first);
    }
    let second = number(words, 3)?;
    match (command, Weather::of_word(command)) {
        ("code", _) => report(alloc, &run_all(alloc, text, first, second)?),
        ("audit", _) => audits::repeat(alloc, text),
        (_, Some(weather)) => {
            let calls = number(words, 4)?;
            let ended = weather::repeat(rt, alloc, weather, first, second, calls)?;
            weathered(alloc, &ended)
        }
        _ => count_line(rt, alloc, command, (first, second), number(words, 4)),
    }
}

fn main(rt: HostRuntime) -> ExitCode {
    let alloc = rt.alloc();
    let Ok(args) = env::args(&rt) else {
        return ExitCode::from(4);
    };
    let Ok(words) = args.collect::<Vec<String>>(alloc) else {
        return ExitCode::from(4);
    };
    let mut text = String::new(alloc);
    if rt.stdin().read_to_string(&mut text).is_err() {
        return ExitCode::from(3);
    }
    let Some(line) = line_of(&rt, alloc, words.as_slice(), text.as_str()) else {
        let _ = rt.stderr().write_all(USAGE.as_bytes());
        return ExitCode::from(2);
    };
    match rt.stdout().write_all(line.as_bytes()) {
        Ok(()) => ExitCode::from(0),
        Err(_) => ExitCode::from(3),
    }
}
