// The audit of short logs, and the least record that is off.

use crate::checks::is_same;
use access_slots::op::{Op, Said, Wire};
use access_slots::slot::{Record, Value};
use audit::auditing::{AuditFault, Audited, audit};
use audit::off::least_off;
use data_component::dc::Dc;
use indexmap::IndexMap;
use lock_table::table::LockTable;
use samples::{LogRecord, loaded, log_bytes, record, value};
use std::alloc::Global;
use std::process::Abort;
use tc_core::state::TcState;
use tc_log::log::Log;

// A transaction that puts 100 under 5.
const PUT: [LogRecord; 4] = [
    (1, 2, 1, 0, 0, [5, 100]),
    (2, 2, 1, 1, 5, [100, 0]),
    (3, 3, 1, 1, 0, [0, 0]),
    (5, 1, 1, 0, 0, [0, 0]),
];

// The same without its insert.
const NO_INSERT: [LogRecord; 2] = [(1, 2, 1, 0, 0, [5, 100]), (5, 1, 1, 0, 0, [0, 0])];

// Behind it a second one that finds the record there, and aborts.
const AGAIN: [LogRecord; 8] = [
    (1, 2, 1, 0, 0, [5, 100]),
    (2, 2, 1, 1, 5, [100, 0]),
    (3, 3, 1, 1, 0, [0, 0]),
    (5, 1, 1, 0, 0, [0, 0]),
    (1, 2, 2, 0, 0, [5, 100]),
    (2, 2, 2, 2, 5, [100, 0]),
    (3, 5, 2, 2, 0, [0, 0]),
    (5, 2, 2, 1, 0, [0, 0]),
];

// The log that these records are.
fn log_of(rt: &impl Abort, alloc: Global, records: &[LogRecord]) -> Log {
    let bytes = log_bytes(alloc, records).expect(rt, "no bytes");
    Log::read(alloc, bytes.as_slice()).expect(rt, "not read")
}

// Performs an insert under 5 as number 1.
fn insert(rt: &impl Abort, dc: &mut Dc, number: u64) {
    let wire = Wire {
        low_water: 0,
        number: 1,
        incarnation: 0,
        redo: false,
        op: Op::Insert(record(5), value(number)),
    };
    let reply = dc.perform(&wire).expect(rt, "no reply");
    is_same(rt, reply.said, Said::Done(None));
}

// A data component, in which this number is inserted, where one is.
fn dc_with(rt: &impl Abort, alloc: Global, number: Option<u64>) -> Dc {
    let mut dc = Dc::new(alloc, 4, 4).expect(rt, "no data component");
    if let Some(number) = number {
        insert(rt, &mut dc, number);
    }
    dc
}

// An audit says this of the log that these records are and a data component, which goes.
fn says_beside(
    rt: &impl Abort,
    alloc: Global,
    tc: &TcState,
    records: &[LogRecord],
    dc: Dc,
    wanted: Result<Audited, AuditFault>,
) {
    let log = log_of(rt, alloc, records);
    let dcs = [dc];
    let said = audit(alloc, tc.procs(), &log, &dcs);
    drop(log);
    drop(dcs);
    is_same(rt, said, wanted);
}

// The same of a data component in which this number is inserted, where one is.
fn says(
    rt: &impl Abort,
    alloc: Global,
    tc: &TcState,
    records: &[LogRecord],
    number: Option<u64>,
    wanted: Result<Audited, AuditFault>,
) {
    let dc = dc_with(rt, alloc, number);
    says_beside(rt, alloc, tc, records, dc, wanted);
}

// What it says of `put 5 100` ended, cut short, without its insert, and beside other data components.
#[test]
fn short_logs(rt: HostRuntime) {
    let alloc = rt.alloc();
    let tc = loaded(alloc, 1).expect(&rt, "not loaded");
    let ended = Audited { ended: 1, left: 0 };
    let open = Audited { ended: 0, left: 1 };
    says(&rt, alloc, &tc, &PUT, Some(100), Ok(ended));
    says(&rt, alloc, &tc, &PUT[..3], Some(100), Ok(open));
    // the list has it, the log doesn't
    let not_asked = AuditFault::NotAsked(0, 0);
    says(&rt, alloc, &tc, &PUT[..1], Some(100), Err(not_asked));
    // it may have been performed before it is answered
    says(&rt, alloc, &tc, &PUT[..2], Some(100), Ok(open));
    says(&rt, alloc, &tc, &PUT, None, Err(AuditFault::Mismatch(1)));
    says(&rt, alloc, &tc, &PUT, Some(99), Err(not_asked));
    let illegal = AuditFault::LogIllegal(1);
    says(&rt, alloc, &tc, &NO_INSERT, None, Err(illegal));
    drop(tc);
}

// It says this of two puts of one record and a data component with the record that has restarted, and kept it if it
// had a checkpoint.
fn says_behind(
    rt: &impl Abort,
    alloc: Global,
    tc: &TcState,
    keeps: bool,
    wanted: Result<Audited, AuditFault>,
) {
    let mut dc = dc_with(rt, alloc, Some(100));
    if keeps {
        dc.checkpoint();
    }
    is_same(rt, dc.restart().is_ok(), true);
    says_beside(rt, alloc, tc, &AGAIN, dc, wanted);
}

// Behind a restart an insert that found the record there may be missing, and one that was done may
// not; without a restart neither may.
#[test]
fn restarted(rt: HostRuntime) {
    let alloc = rt.alloc();
    let tc = loaded(alloc, 1).expect(&rt, "not loaded");
    let ended = Audited { ended: 2, left: 0 };
    says_behind(&rt, alloc, &tc, true, Ok(ended));
    says_behind(&rt, alloc, &tc, false, Err(AuditFault::Mismatch(1)));
    let missing = AuditFault::Mismatch(2);
    says(&rt, alloc, &tc, &AGAIN, Some(100), Err(missing));
    drop(tc);
}

type Values = IndexMap<Record, Value>;

// Values under 7 and 6.
fn two_values(rt: &impl Abort, alloc: Global) -> Values {
    let mut values: Values = IndexMap::new(alloc);
    for key in [7, 6] {
        is_same(rt, values.insert(record(key), value(1)).is_ok(), true);
    }
    values
}

// What least_off says of the two, with nothing locked.
fn least_beside(rt: &impl Abort, alloc: Global, dcs: &[Dc]) -> Option<Record> {
    let values = two_values(rt, alloc);
    let table = LockTable::new(alloc);
    let least = least_off(&values, &table, dcs);
    drop(table);
    drop(values);
    least
}

// The same beside a data component with a row under 5, or none.
fn least(rt: &impl Abort, alloc: Global, is_there: bool) -> Option<Record> {
    let dcs = [dc_with(rt, alloc, Some(100))];
    let seen = if is_there { &dcs[..] } else { &dcs[..0] };
    let least = least_beside(rt, alloc, seen);
    drop(dcs);
    least
}

// Of records that aren't as they should be, the least: one that is present and shouldn't be, or one
// that isn't and should.
#[test]
fn least_record(rt: HostRuntime) {
    is_same(&rt, least(&rt, rt.alloc(), true), Some(record(5)));
    is_same(&rt, least(&rt, rt.alloc(), false), Some(record(6)));
}
