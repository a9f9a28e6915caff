// Wires that data components perform.

ghost use Rattle.coming_back.specs.Joining.Performing.{Performs, Sends};

use access_slots::op::{Reply, Wire};
use data_component::dc::Dc;
use tc_core::state::{Request, TcState};

/// The wire's data component performs it, if it is there.
pub fn perform(dcs: &mut [Dc], wire: &Wire) -> Option<Reply>
    ensures { Performs dcs.old wire.now result dcs.new }
{
    let dc = usize::from(wire.op.record().dc);
    if dc >= dcs.len() {
        return None;
    }
    dcs[dc].perform(wire)
}

/// The request's data component performs it, if it is up.
pub fn send(state: &TcState, dcs: &mut [Dc], request: &Request) -> Option<Reply>
    ensures { Sends state.now request.now dcs.old result dcs.new }
{
    match state.wire(request) {
        Ok(wire) => perform(dcs, &wire),
        Err(_) => None,
    }
}
