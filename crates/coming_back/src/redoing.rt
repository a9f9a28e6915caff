// Data components that are redone from the log.

ghost use Rattle.std.specs.Prelude.{◌≡◌, ◌≢◌, ℕ, ◌<◌, None, true, false, length, OnOk, OnErr, IfOk, IfErr};
ghost use Rattle.transactions.specs.InFlight.{site_at};
ghost use Rattle.coming_back.specs.Joining.Redoing.{Redoes, RedoesAt, IsMatched, IsRedoneTo, left_to_redo};
ghost use Rattle.coming_back.specs.Faults.{IsFull};

use crate::performing::perform;
use data_component::dc::Dc;
use tc_core::state::{Redo, TcState};

/// Why a data component isn't redone.
pub enum RedoFault {
    /// It doesn't answer.
    Silent,
    /// It answers otherwise than the log says that it did.
    Otherwise,
}

// One operation is redone, or the data component is up: then it answers true.
fn redo_one(state: &mut TcState, dcs: &mut [Dc], dc: u16) -> Result<bool, RedoFault>
    requires { dc < length state.old.sites }
    ensures redoes { RedoesAt dc state.old dcs.old state.new dcs.new }
    ensures up { IfOk result (λ done. done ≡ true → (site_at state.new.sites dc).redo ≡ None) }
    ensures down { OnErr result ((site_at state.new.sites dc).redo ≢ None) }
    ensures full { IfErr result (λ fault. fault ≡ RedoFault.Silent → IsMatched state.old dcs.old dc → IsFull dcs.new dc) }
    ensures done { OnOk result (IsRedoneTo state.old dcs.old dc → IsRedoneTo state.new dcs.new dc) }
    ensures nearer { IfOk result (λ done. done ≡ false → left_to_redo state.new dc < left_to_redo state.old dc) }
{
    state.known();
    let wire = match state.redo_next(dc) {
        Redo::Send(wire) => wire,
        Redo::Finished | Redo::NotDown => return Ok(true),
        Redo::NoDc => unreachable!(),
    };
    let reply = match perform(dcs, &wire) {
        Some(reply) => reply,
        None => return Err(RedoFault::Silent),
    };
    match state.redone(dc, &reply) {
        Ok(()) => Ok(false),
        Err(_) => Err(RedoFault::Otherwise),
    }
}

/// What a data component did is redone, until it is up.
pub fn redo(state: &mut TcState, dcs: &mut [Dc], dc: u16) -> Result<(), RedoFault>
    requires { dc < length state.old.sites }
    ensures redoes { RedoesAt dc state.old dcs.old state.new dcs.new }
    ensures up { OnOk result ((site_at state.new.sites dc).redo ≡ None) }
    ensures done { OnOk result (IsRedoneTo state.old dcs.old dc → IsRedoneTo state.new dcs.new dc) }
    ensures down { OnErr result ((site_at state.new.sites dc).redo ≢ None) }
    ensures full { IfErr result (λ fault. fault ≡ RedoFault.Silent → IsMatched state.old dcs.old dc → IsFull dcs.new dc) }
{
    loop {
        match redo_one(state, dcs, dc) {
            Ok(true) => return Ok(()),
            Ok(false) => {}
            Err(fault) => return Err(fault),
        }
    }
}

/// The same for each, in order. Where one isn't redone, it is named.
pub fn redo_all(state: &mut TcState, dcs: &mut [Dc]) -> Result<(), (u16, RedoFault)>
    ensures redoes { Redoes state.old dcs.old state.new dcs.new }
    ensures up { OnOk result ((d : ℕ) → d < length state.new.sites → (site_at state.new.sites d).redo ≡ None) }
    ensures done { OnOk result ((d : ℕ) → IsRedoneTo state.old dcs.old d → IsRedoneTo state.new dcs.new d) }
    ensures full { IfErr result
        (λ fault. fault.1 ≡ RedoFault.Silent → IsMatched state.old dcs.old fault.0 → IsFull dcs.new fault.0) }
    ensures down { IfErr result (λ fault. (site_at state.new.sites fault.0).redo ≢ None) }
{
    state.known();
    for dc in 0..state.dcs() {
        match redo(state, dcs, dc) {
            Ok(()) => {}
            Err(fault) => return Err((dc, fault)),
        }
    }
    Ok(())
}
