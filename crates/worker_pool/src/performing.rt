// A link as who performs wires at once, and a gate as who notes under the lock what calls come to.

use crate::pool::Gate;
use crate::run_spec::RunSpec;
use crate::stage::Stage;
use access_slots::op::{Reply, Wire};
use dc_links::Link;
use std::marker::PhantomData;
use std::sync::Wait;
use tc_core::Performer;

/// Who performs at once whatever was in flight in a state of the run, and notes what its calls come to.
pub trait RunPerformer<J: RunSpec> {
    ghost use Rattle.worker_pool.specs.Wires.{WasInFlight};

    /// The call was admitted. Whether that is noted here: else the gate is to be told of it.
    fn notes_begun(&self, call: usize) -> bool;

    /// The call's answer is there.
    fn note_answered(&self, call: usize);

    /// What came back for the call's wire, if anything did.
    fn perform(&self, call: usize, wire: &Wire) -> Option<Reply>
        requires { WasInFlight J.start wire.now };
}

/// A link, which performs what it can at once, where the gate only notes.
#[derive(Drop)]
pub struct AtOnce<'a, R, L, G> {
    rt: &'a R,
    link: &'a L,
    gate: &'a G,
    is_wanted: bool,
}

impl<'a, R: Wait, L: Link, G: Gate> AtOnce<'a, R, L, G> {
    /// Over this link, before this gate.
    pub fn new(rt: &'a R, link: &'a L, gate: &'a G) -> AtOnce<'a, R, L, G> {
        AtOnce {
            rt,
            link,
            gate,
            is_wanted: gate.only_notes(),
        }
    }

    /// Performs nothing, and notes nothing.
    pub fn unwanted(rt: &'a R, link: &'a L, gate: &'a G) -> AtOnce<'a, R, L, G> {
        AtOnce {
            rt,
            link,
            gate,
            is_wanted: false,
        }
    }
}

impl<J: RunSpec, R: Wait, L: Link, G: Gate> RunPerformer<J> for AtOnce<'_, R, L, G> {
    #[inline(always)]
    fn notes_begun(&self, call: usize) -> bool {
        if self.is_wanted {
            self.gate.begun(call);
        }
        self.is_wanted
    }

    #[inline(always)]
    fn note_answered(&self, call: usize) {
        if self.is_wanted {
            self.gate.reaches(call, Stage::Answered);
        }
    }

    #[inline(always)]
    fn perform(&self, call: usize, wire: &Wire) -> Option<Reply> {
        if !self.is_wanted {
            return None;
        }
        self.gate.reaches(call, Stage::Carried);
        let reply = self.link.perform_at_once(self.rt, wire);
        self.gate.reaches(call, Stage::Back);
        reply
    }
}

/// Who performs the wires of one call.
#[derive(Drop)]
pub struct CallPerformer<'a, J: RunSpec, P> {
    performer: &'a P,
    call: usize,
    of: PhantomData<J>,
}

impl<'a, J: RunSpec, P: RunPerformer<J>> CallPerformer<'a, J, P> {
    /// Of the call with this place.
    #[inline(always)]
    pub fn new(performer: &'a P, call: usize) -> CallPerformer<'a, J, P> {
        CallPerformer {
            performer,
            call,
            of: PhantomData,
        }
    }
}

impl<J: RunSpec, P: RunPerformer<J>> Performer for CallPerformer<'_, J, P> {
    ghost use Rattle.worker_pool.specs.Wires.{WasInFlight};

    ghost sent = { WasInFlight J.start };

    #[inline(always)]
    fn perform(&self, wire: &Wire) -> Option<Reply> {
        self.performer.perform(self.call, wire)
    }
}
