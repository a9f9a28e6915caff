// Replies that are taken.

ghost use Rattle.std.specs.Prelude.{ℕ, ◌≡◌, ◌<◌, ◌&&◌, IfSome, IfNone};
ghost use Rattle.access_slots.specs.Access.{fits};
ghost use Rattle.transactions.specs.InFlight.{site_of};
ghost use Rattle.tc_core.specs.Replies.{is_heard};
ghost use Rattle.tc_core.specs.Redo.{IsRedone, after_redone};

use access_slots::op::{Reply, fits};
use tc_core::state::{Request, TcState};

/// Whether the reply is of the known incarnation of the request's data component, which is up, and its
/// answer fits.
pub fn hears(state: &TcState, request: &Request, reply: &Reply) -> bool
    ensures { result ≡ (is_heard (site_of state.now.sites request.now.op) reply.now && fits request.now.op reply.now.said) }
{
    match state.wire(request) {
        Ok(wire) => wire.incarnation == reply.incarnation && fits(&request.op(), &reply.said),
        Err(_) => false,
    }
}

/// Tries the reply as one to the operation under redo of each data component; says of which it was.
pub fn redone_somewhere(state: &mut TcState, reply: &Reply) -> Option<u16>
    ensures redone { IfSome result (λ d. IsRedone state.old d reply.now × (state.new ≡ after_redone state.old d reply.now.number)) }
    ensures none { IfNone result ((d : ℕ) → IsRedone state.old d reply.now → ⊥) }
    ensures same { IfNone result (state.new ≡ state.old) }
{
    state.known();
    for dc in 0..state.dcs() {
        match state.redone(dc, reply) {
            Ok(()) => return Some(dc),
            Err(_) => {}
        }
    }
    None
}
