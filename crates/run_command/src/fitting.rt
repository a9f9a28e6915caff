//! How many calls a part has, where the log may begin anew between two parts: as many as data components have room for.

ghost use Rattle.std.specs.Prelude.{◌≡◌, ◌≤◌, ◌<◌, length, take, true, None};
ghost use Rattle.run_command.specs.Fitting.{most_operations, has_room, have_room, next_list, next_fits, over_before};
ghost use Rattle.run_command.specs.Fitting.{IsFitting, IsMeasured};

use data_component::dc::Dc;
use run_ground::ground::Ground;
use run_log::anew::Renewal;
use scripts::script::Call;
use tc_core::procs::Procs;

// A part has at most so many calls: what lies between two checkpoints is in memory.
const PART: usize = 65_536;

// How many operations a call may make at a data component, at most: one to ask for each call slot of its procedure, and
// four to undo it.
fn most_operations(procs: &Procs, call: &Call) -> usize
    ensures most { result ≡ most_operations procs.now.codes call.now }
    ensures few { result ≤ 20_480 }
{
    match procs.get(call.procedure) {
        Some(code) => {
            let _code = code.code();
            5 * code.calls()
        }
        None => 0,
    }
}

// Whether a data component has room for so many operations more.
fn has_room(dc: &Dc, operations: usize) -> bool
    ensures { result ≡ has_room operations dc.now }
{
    operations <= dc.operation_limit() - dc.performed().len()
}

// Whether each has.
fn have_room(dcs: &[Dc], operations: usize) -> bool
    ensures { result ≡ have_room dcs.now operations }
{
    dcs.iter().all(|dc| has_room(dc, operations))
}

// How many of these calls fit.
fn fitting(procs: &Procs, dcs: &[Dc], calls: &[Call]) -> usize
    requires { length calls.now ≤ 65_536 }
    ensures fitting { IsFitting procs.now.codes dcs.now calls.now result }
    ensures within { result ≤ length calls.now }
{
    let mut operations = 0;
    'calls: for (count, call) in calls.iter().enumerate() {
        operations += most_operations(procs, call);
        if !have_room(dcs, operations) {
            return count;
        }
    }
    calls.len()
}

/// How many of the calls the next part has, when this came of the log before them: as many as fit. Where the first doesn't
/// fit it is alone, or, behind a log that can't begin anew, room is no bound.
pub fn part_length(procs: &Procs, dcs: &[Dc], renewal: Renewal, calls: &[Call]) -> usize
    ensures within { result ≤ length calls.now }
    ensures some { 0 < length calls.now → 0 < result }
    ensures measured { IsMeasured procs.now.codes dcs.now renewal (take result calls.now) }
{
    let (next, _) = calls.split_at(PART.min(calls.len()));
    match (fitting(procs, dcs, next), renewal) {
        (0, Renewal::Barred(_)) => next.len(),
        (0, _) => next.len().min(1),
        (count, _) => count,
    }
}

// Whether the next call fits, if there is one.
fn next_fits(procs: &Procs, dcs: &[Dc], calls: &[Call]) -> bool
    ensures { result ≡ next_fits procs.now.codes dcs.now calls.now }
{
    match calls.first() {
        Some(call) => have_room(dcs, most_operations(procs, call)),
        None => true,
    }
}

// The list that has the next call.
fn next_list<'a>(first: &'a [Call], calls: &'a [Call]) -> &'a [Call]
    ensures { result.now ≡ next_list first.now calls.now }
{
    if first.is_empty() { calls } else { first }
}

/// The size of the log's file, in bytes, above which it begins anew before these calls, if that is wanted: whatever it is,
/// where the next call doesn't fit.
pub fn over_before(
    ground: &Ground,
    over: Option<u64>,
    first: &[Call],
    calls: &[Call],
) -> Option<u64>
    ensures over { result ≡ over_before ground.now.state.procs ground.now.dcs.items over (next_list first.now calls.now) }
    ensures none { over ≡ None → result ≡ None }
{
    let bytes = over?;
    let dcs = ground.dcs.as_slice();
    if next_fits(ground.state.procs(), dcs, next_list(first, calls)) {
        Some(bytes)
    } else {
        Some(0)
    }
}
