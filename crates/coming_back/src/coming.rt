//! The way back.

ghost use Rattle.std.specs.Prelude.{◌≡◌, length, map, OnOk, IfOk, IfErr};
ghost use Rattle.std.specs.List.{All};
ghost use Rattle.history.specs.Places.{Begins};
ghost use Rattle.transactions.specs.Legal.{Legal};
ghost use Rattle.data_component.specs.Store.{restarted};
ghost use Rattle.tc_core.specs.Core.{loaded_in};
ghost use Rattle.tc_core.specs.Recovery.{recovered};
ghost use Rattle.tc_world.specs.Whole.{Whole};
ghost use Rattle.tc_world.specs.OneAtATime.{EachIsKnown, IsOneAtATime};
ghost use Rattle.serial.specs.Audit.{IsBegunTogether, IsAgreed};
ghost use Rattle.tc_world.specs.Lives.{Becomes, HasLived};
ghost use Rattle.coming_back.specs.Serving.{AreServed, AreRedone};
ghost use Rattle.coming_back.specs.Coming.{HasOnlyRows, serial_of, open_txns, in_doubt, IsResumed, AreFullWhereGivenUp};
ghost use Rattle.coming_back.specs.Coming.{at_rest, ComesFrom, begins_again, IsOfRows};
ghost use Rattle.coming_back.specs.Done.{EachHasWhatWasDone};
ghost use Rattle.coming_back.specs.Faults.{restart_notes, HasLog, IsFaultOf};

use crate::redoing::{RedoFault, redo_all};
use crate::restarting::{notes_of, restart_all};
use crate::resumed::Resumed;
use crate::resuming::resume_all;
use data_component::dc::Dc;
use std::alloc::Global;
use tc_core::recovery::RecoverFault;
use tc_core::state::TcState;
use tc_log::log::Log;

/// Why a transaction component doesn't come back.
#[derive(Clone, Copy, Debug, PartialEq, Eq)]
pub enum ComeBackFault {
    /// The log isn't one of these procedures, there is another number of data components, something has
    /// happened here already, the log begins behind what a data component lost, or memory ran out. The
    /// state is as it was.
    Recover(RecoverFault),
    /// This data component is full before all that was done is redone: it is for fewer operations than
    /// before.
    NoRoom(u16),
    /// This data component answered an operation otherwise than the log says that it did: the log isn't
    /// one of data components.
    Otherwise(u16),
    /// Memory ran out.
    Memory,
}

// Each data component restarts, and the state comes back from the log, with their news as what is known of
// them.
fn begin_again(
    alloc: Global,
    state: &mut TcState,
    dcs: &mut [Dc],
    log: &Log,
) -> Result<(), ComeBackFault>
    requires { All HasOnlyRows dcs.old }
    ensures dcs { dcs.new ≡ map restarted dcs.old }
    ensures legal { OnOk result (Legal state.old.procs log.now.events) }
    ensures ok { OnOk result
        (state.new ≡ recovered state.old log.now.events (restart_notes dcs.new)) }
    ensures fault { IfErr result (IsFaultOf state.old log.now.events (length dcs.old) state.new dcs.new) }
{
    restart_all(dcs);
    let notes = match notes_of(alloc, dcs) {
        Ok(notes) => notes,
        Err(_) => return Err(ComeBackFault::Memory),
    };
    match state.recover(log, notes.as_slice()) {
        Ok(()) => Ok(()),
        Err(fault) => Err(ComeBackFault::Recover(fault)),
    }
}

/// Brings data components to which nothing has happened since the rows with which they begin, and a
/// state in which procedures are loaded and nothing has happened, to where a log left them: each
/// restarts, and what the log says that it did is redone, until it is up. Nothing else is sent, and
/// transactions that were open stay so.
///
/// Each data component begins behind the number behind which the log begins
/// (`Dc::base_mark`, `TcState::begun`): where there are no rows and no Checkpoint, both are 0.
///
/// Memory is taken for the state. Where the log isn't refused, but a data component isn't redone, the
/// state has come back from the log with data components that are down, and is of no use but to be
/// looked at.
pub fn bring_back(
    alloc: Global,
    state: &mut TcState,
    dcs: &mut [Dc],
    log: &Log,
) -> Result<(), ComeBackFault>
    requires { All HasOnlyRows dcs.old }
    // The log was legal; the state has it, with procedures, names and the number of data components as before.
    ensures legal { OnOk result (Legal state.old.procs log.now.events) }
    ensures log { OnOk result (HasLog state.old log.now.events state.new) }

    // Each data component is up, and performed wires of its redo alone since it restarted.
    ensures known { OnOk result (EachIsKnown (at_rest state.new dcs.new)) }
    ensures redone { OnOk result (AreRedone (map restarted dcs.old) dcs.new) }
    // Its list is what the log says was done there, by number.
    ensures done { OnOk result (EachHasWhatWasDone log.now.events dcs.new) }

    // By steps of a world alone, what began again has become what came back. So calls run one at a time, and the log and the data
    // components agree in all that an audit compares, where the log is one of these rows.
    ensures becomes { OnOk result (Becomes (begins_again state.old log.now.events dcs.old) (at_rest state.new dcs.new)) }
    ensures serial { IsOfRows log.now.events dcs.old → OnOk result (IsOneAtATime (at_rest state.new dcs.new)) }
    ensures audited { IsOfRows log.now.events dcs.old → OnOk result (IsAgreed state.new.procs state.new.events dcs.new) }

    ensures fault { IfErr result (IsFaultOf state.old log.now.events (length dcs.old) state.new dcs.new) }

    // Where the log is a beginning of that of a world that has lived, and the data components stand for that world's, what came back has
    // lived too; so the log and the data components agree in all that an audit compares.
    ensures lived { (w : Whole) → ComesFrom w log.now.events state.old dcs.old
        → OnOk result (HasLived (at_rest state.new dcs.new)) }
    ensures agreed { (w : Whole) → ComesFrom w log.now.events state.old dcs.old
        → OnOk result (IsAgreed state.new.procs state.new.events dcs.new) }
{
    state.known();
    begin_again(alloc, state, dcs, log)?;
    match redo_all(state, dcs) {
        Ok(()) => Ok(()),
        Err((dc, RedoFault::Silent)) => Err(ComeBackFault::NoRoom(dc)),
        Err((dc, RedoFault::Otherwise)) => Err(ComeBackFault::Otherwise(dc)),
    }
}

/// Comes back from a log, to a state in which procedures are loaded and nothing has happened, and to
/// data components of which only the rows are left with which they begin: they are brought to where
/// the log left them
/// ([`bring_back`]); then each transaction that was open is run to its end, in the order of their
/// serial numbers, and is told of. What a data component doesn't answer is given up, and its
/// transaction is in doubt.
///
/// Memory is taken for the state, and for the list once. Where it ran out for the list, the state has
/// come back from the log, and no transaction has gone on.
pub fn come_back(
    alloc: Global,
    state: &mut TcState,
    dcs: &mut [Dc],
    log: &Log,
) -> Result<Vec<Resumed>, ComeBackFault>
    requires { All HasOnlyRows dcs.old }
    // The log goes on, and was legal; procedures, names and the number of data components are as before.
    ensures legal { OnOk result (Legal state.old.procs log.now.events) }
    ensures begins { OnOk result (Begins log.now.events state.new.events) }
    ensures same { OnOk result (loaded_in state.new ≡ loaded_in state.old) }

    // Each data component is up, and performed wires for itself alone since it restarted.
    ensures known { OnOk result (EachIsKnown (at_rest state.new dcs.new)) }
    ensures served { OnOk result (AreServed (map restarted dcs.old) dcs.new) }

    // By steps of a world alone, what began again has become what came back. So calls run one at a time, and the log and the data
    // components agree in all that an audit compares, where the log is one of these rows.
    ensures becomes { OnOk result (Becomes (begins_again state.old log.now.events dcs.old) (at_rest state.new dcs.new)) }
    ensures serial { IsOfRows log.now.events dcs.old → OnOk result (IsOneAtATime (at_rest state.new dcs.new)) }
    ensures audited { IsOfRows log.now.events dcs.old → OnOk result (IsAgreed state.new.procs state.new.events dcs.new) }

    // Each transaction that was open is told of, once, and those that are open are those in doubt.
    ensures resumed { IfOk result (λ them. map serial_of them.items ≡ open_txns log.now.events) }
    ensures doubts { IfOk result (λ them. in_doubt them.items ≡ open_txns state.new.events) }
    ensures each { IfOk result (λ them. All (IsResumed log.now.events state.new) them.items) }
    // Log and rows begin together: then no number was given up but where its data component is full.
    ensures full { IsBegunTogether log.now.events dcs.old → OnOk result (AreFullWhereGivenUp state.new dcs.new) }

    ensures fault { IfErr result (IsFaultOf state.old log.now.events (length dcs.old) state.new dcs.new) }

    // Where the log is a beginning of that of a world that has lived, what came back has lived too; so each call that ended did so as
    // when calls are run one after another, and the log and the data components agree in all that an audit compares.
    ensures lived { (w : Whole) → ComesFrom w log.now.events state.old dcs.old
        → OnOk result (HasLived (at_rest state.new dcs.new)) }
    ensures one_at_a_time { (w : Whole) → ComesFrom w log.now.events state.old dcs.old
        → OnOk result (IsOneAtATime (at_rest state.new dcs.new)) }
    ensures agreed { (w : Whole) → ComesFrom w log.now.events state.old dcs.old
        → OnOk result (IsAgreed state.new.procs state.new.events dcs.new) }
{
    state.known();
    bring_back(alloc, state, dcs, log)?;
    let mut resumed = match Vec::with_capacity(alloc, state.open_count()) {
        Ok(resumed) => resumed,
        Err(_) => return Err(ComeBackFault::Memory),
    };
    resume_all(state, dcs, &mut resumed);
    Ok(resumed)
}
