//! What a log begins behind.

ghost use Rattle.std.specs.Prelude.{◌≡◌, ◌-◌};
ghost use Rattle.tc_log.specs.Entered.{seen};
ghost use Rattle.history.specs.Calls.{admitted};
ghost use Rattle.tc_world.specs.Beginning.{stands_for, admitted_before};

use tc_core::state::TcState;
use tc_log::event::Entry;

// For how many admissions the event stands.
fn stands_for(event: &Entry<'_>) -> u64
    ensures { result ≡ stands_for (seen event.now) }
{
    match event {
        Entry::Checkpoint { admitted, given: _ } => *admitted,
        _ => 0,
    }
}

/// How many transactions were admitted before the log's oldest event. None of them is open.
pub fn admitted_before(state: &TcState) -> u64
    ensures { result ≡ admitted_before state.now.events }
{
    state.known();
    match state.log().at(0) {
        Some(event) => stands_for(&event),
        None => 0,
    }
}

/// How many were admitted since. No more are open.
pub fn admitted_since(state: &TcState) -> u64
    ensures { result ≡ admitted state.now.events - admitted_before state.now.events }
{
    state.admitted().saturating_sub(admitted_before(state))
}
