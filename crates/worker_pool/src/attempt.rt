// A request for which something is on its way.

ghost use Rattle.std.specs.Prelude.{◌≡◌, ◌↔◌, Some, None, IfSome, IsSome, IsTrue};
ghost use Rattle.access_slots.specs.Locks.{target};
ghost use Rattle.worker_pool.specs.Wires.{IsCarriedFor, WasInFlight};

use crate::redo_budget::RedoBudget;
use crate::run_spec::RunSpec;
use access_slots::op::{Op, Wire};
use access_slots::slot::Record;
use std::marker::{Model, PhantomData};
use std::mem;
use tc_core::state::Request;
use transactions::Sent;

/// What is on its way for a call: a request, what is carried for it, how many more times its own operation
/// may be sent, and what was redone for it. It is large, so it is written in place, and what is carried
/// stays there when nothing is on its way. What is, a state of the run has carried.
pub struct Attempt<J: RunSpec> {
    request: Option<Request>,
    wire: Wire,
    left: u64,
    redo_budget: RedoBudget,
    of: PhantomData<J>,
}

impl<J: RunSpec> Model for Attempt<J> {
    ghost use Rattle.std.specs.Prelude.{IfSome};
    ghost use Rattle.worker_pool.specs.Wires.{OnItsWay, IsCarriedFor};

    ghost Value = { OnItsWay };

    ghost view = { λ s. record { request = s.request; wire = s.wire } };

    ghost invariant = { λ s. IfSome s.request (λ r. IsCarriedFor J.start r s.wire) };
}

// What stands where nothing was carried yet.
const NO_WIRE: Wire = Wire {
    number: 0,
    low_water: 0,
    incarnation: 0,
    redo: false,
    op: Op::Read(Record {
        dc: 0,
        table: 0,
        key: 0,
    }),
};

impl<J: RunSpec> Attempt<J> {
    /// Nothing is on its way.
    #[inline(always)]
    pub(crate) fn none() -> Attempt<J>
        ensures { result.request ≡ None }
    {
        Attempt {
            request: None,
            wire: NO_WIRE,
            left: 0,
            redo_budget: RedoBudget::new(0),
            of: PhantomData,
        }
    }

    /// A request's own operation may be sent so often, and nothing was redone for it.
    #[inline(always)]
    pub(crate) fn begin(&mut self, tries: u64)
        ensures { self.new ≡ self.old }
    {
        self.left = tries;
        self.redo_budget = RedoBudget::new(tries);
    }

    /// A request's own operation is carried, once less often from now on.
    #[inline(always)]
    pub(crate) fn own(&mut self, request: Request, wire: Wire)
        requires none { self.old.request ≡ None }
        requires own { IsCarriedFor J.start request wire }
        ensures { self.new ≡ record { request = Some request; wire = wire } }
    {
        self.left = self.left.saturating_sub(1);
        self.wire = wire;
        hold(&mut self.request, request);
    }

    /// What is to be redone before the request is carried.
    pub(crate) fn redo(&mut self, request: Request, wire: Wire)
        requires none { self.old.request ≡ None }
        requires redo { IsCarriedFor J.start request wire }
        ensures { self.new ≡ record { request = Some request; wire = wire } }
    {
        self.redo_budget = self.redo_budget.sent(&wire);
        self.wire = wire;
        hold(&mut self.request, request);
    }

    /// The request, for which nothing is on its way any more.
    #[inline(always)]
    pub(crate) fn take(&mut self) -> Option<Request>
        ensures request { result ≡ self.old.request }
        ensures none { self.new ≡ record self.old { request = None } }
        ensures fits { IfSome result (λ r. IsCarriedFor J.start r self.new.wire) }
    {
        self.request.take()
    }

    /// The request is on its way still.
    pub(crate) fn put_back(&mut self, request: Request)
        requires none { self.old.request ≡ None }
        requires fits { IsCarriedFor J.start request self.old.wire }
        ensures { self.new ≡ record self.old { request = Some request } }
    {
        hold(&mut self.request, request);
    }

    // The request, if there is one.
    #[inline(always)]
    pub(crate) fn into_request(self) -> Option<Request>
        ensures { result ≡ self.request }
    {
        let Attempt {
            request,
            wire: _,
            left: _,
            redo_budget: _,
            of: _,
        } = self;
        request
    }

    // Whether something is on its way.
    pub(crate) fn is_held(&self) -> bool
        ensures { IsTrue result ↔ IsSome self.now.request }
    {
        self.request.is_some()
    }

    /// What is on its way, if anything is: in a state of the run it was in flight.
    #[inline(always)]
    #[tactic(auto, using(crate::proofs::Carrying::flew))]
    pub fn in_flight(&self) -> Option<&Wire>
        ensures wire { IfSome result (λ wire. wire.now ≡ self.now.wire) }
        ensures flight { IfSome result (λ wire. WasInFlight J.start wire.now) }
    {
        match self.request {
            Some(_) => Some(&self.wire),
            None => None,
        }
    }

    /// What is sent.
    #[inline(always)]
    pub fn wire(&self) -> &Wire
        ensures { result.now ≡ self.now.wire }
    {
        &self.wire
    }

    /// The data component that it is sent to.
    #[inline(always)]
    pub fn dc(&self) -> u16
        ensures { result ≡ (target self.now.wire.op).dc }
    {
        self.wire.op.record().dc
    }

    // Whether the request's own operation was sent as often as it may be.
    pub(crate) fn is_last(&self) -> bool {
        self.left == 0 && !self.wire.redo
    }

    // Whether what is redone was sent as often as it may be.
    #[inline(always)]
    pub(crate) fn is_spent(&self) -> bool {
        self.redo_budget.is_spent()
    }
}

// Whether this is the request's number and operation.
pub(crate) fn is_sent_for(sent: &Sent, request: &Request) -> bool
    ensures { IsTrue result ↔ ((sent.now.number ≡ request.now.number) × (sent.now.op ≡ request.now.op)) }
{
    sent.number == request.number() && sent.op == request.op()
}

// One request where there is none.
#[inline(always)]
fn hold(place: &mut Option<Request>, request: Request)
    requires { place.old ≡ None }
    ensures { place.new ≡ Some request }
{
    match mem::replace(place, Some(request)) {
        None => {}
        Some(_) => unreachable!(),
    }
}
