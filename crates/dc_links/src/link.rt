// What carries wires to data components.

ghost use Rattle.std.specs.Prelude.{◌≡◌, ◌≢◌, ℕ, IfSome, slice_get};
ghost use Rattle.access_slots.specs.Locks.{target};

use access_slots::op::{News, Reply, Wire};
use std::sync::Wait;

/// How many wires of a worker are on their way at a time over a prompt link, at most.
pub const WIRES_OF_A_WORKER: usize = 8;

/// An outstanding request, as links see it: a wire that is to be carried, then is on its way, until something came
/// back for it or is lost.
pub trait Outstanding {
    ghost use Rattle.access_slots.specs.declared.op.Wire.{Wire};

    /// What is known of each wire that is to be carried.
    ghost sent: { Wire → Type 0 };

    /// The wire, where it is to be carried: it isn't on its way, and nothing came back for it.
    fn wire(&self) -> Option<&Wire>
        ensures sent { IfSome result (λ wire. sent wire.now) };

    /// The number of the wire that is on its way, if one is.
    fn awaits(&self) -> Option<u64>;

    /// The wire is on its way: what comes back for it is brought later.
    fn mark_submitted(&mut self);

    /// Takes what came back for the wire.
    fn bring(&mut self, reply: Reply);

    /// Nothing comes back for the wire any more.
    fn mark_lost(&mut self);
}

// The wire, where it is to be carried to the component with this number.
#[inline(always)]
pub(crate) fn wire_for<O: Outstanding>(outstanding: &O, number: usize) -> Option<&Wire>
    ensures { IfSome result (λ wire. (target wire.now.op).dc ≡ number) }
{
    let wire = outstanding.wire()?;
    if usize::from(wire.op.record().dc) == number {
        Some(wire)
    } else {
        None
    }
}

/// What carries a wire to its data component, and the reply back.
pub trait Link {
    /// What came back, if anything did. It is called without the lock, by several workers at once.
    fn carry<R: Wait>(&self, rt: &R, worker: usize, wire: &Wire) -> Option<Reply>;

    /// What the data component told of its last restart, if it is known of one. It is asked for after
    /// each carry that brought no answer, without the lock, by several workers at once. It may give the
    /// same news again.
    fn news<R: Wait>(&self, rt: &R, worker: usize, dc: u16) -> Option<News>;

    /// Whether the link never keeps a call waiting for long: then each of several workers has more than one
    /// call on their way at a time, whose wires are carried together.
    fn is_prompt(&self) -> bool {
        false
    }

    /// How many wires of a worker may be on their way at a time. Over a link that isn't prompt that is 1, so that no
    /// call waits for another's wire, unless the link leaves wires on their way where they are exchanged.
    fn window(&self) -> usize {
        if self.is_prompt() {
            WIRES_OF_A_WORKER
        } else {
            1
        }
    }

    /// What came back for the wire, where its component performs it there and then, and nobody is kept waiting for
    /// long. It is called under the lock, by one worker at a time. Where nothing came back the wire is carried.
    fn perform_at_once<R: Wait>(&self, _rt: &R, _wire: &Wire) -> Option<Reply> {
        None
    }

    /// Carries the wires of several calls, at most [`WIRES_OF_A_WORKER`], and brings what came back for each: one
    /// after the other, where the link knows no better.
    fn carry_all<O: Outstanding, R: Wait>(&self, rt: &R, worker: usize, requests: &mut [O]) {
        for request in requests {
            if let Some(wire) = request.wire() {
                if let Some(reply) = self.carry(rt, worker, wire) {
                    request.bring(reply);
                }
            }
        }
    }

    /// Takes the wires that are to be carried, and brings what came back for these and for those that were on their
    /// way, or marks that as lost. It may leave wires on their way: a request stays in its place in the list until
    /// something came back for it or is lost. Where `waits`, it returns once that is so of one request at least; else
    /// at once. A wire that it neither takes nor answers is offered again. Without a method of its own a link
    /// carries all, and leaves none on its way.
    fn exchange<O: Outstanding, R: Wait>(
        &self,
        rt: &R,
        worker: usize,
        requests: &mut [O],
        _waits: bool,
    ) {
        self.carry_all(rt, worker, requests);
        for request in requests {
            if request.wire().is_some() {
                request.mark_lost();
            }
        }
    }
}

/// Brings a reply to the request in this place, where that awaits its number.
#[tactic(auto, using(crate::proofs::Elsewhere::set_other))]
pub fn bring_to<O: Outstanding>(requests: &mut [O], place: usize, reply: Reply)
    ensures { (i : ℕ) → i ≢ place → slice_get requests.new i ≡ slice_get requests.old i }
{
    if place < requests.len() && requests[place].awaits() == Some(reply.number) {
        requests[place].bring(reply);
    }
}

/// Marks the wire of this number as lost, where the request in this place awaits it.
#[tactic(auto, using(crate::proofs::Elsewhere::set_other))]
pub fn lose_at<O: Outstanding>(requests: &mut [O], place: usize, number: u64)
    ensures { (i : ℕ) → i ≢ place → slice_get requests.new i ≡ slice_get requests.old i }
{
    if place < requests.len() && requests[place].awaits() == Some(number) {
        requests[place].mark_lost();
    }
}
