//! A wire on its way, as links see it.

ghost use Rattle.std.specs.Prelude.{◌≡◌, true, Some, None, IfSome, IsSome};
ghost use Rattle.worker_pool.specs.Wires.{WasInFlight};

use crate::attempt::Attempt;
use crate::run_spec::RunSpec;
use crate::stage::Stage;
use access_slots::op::{News, Reply, Wire};
use dc_links::Outstanding;

/// A call's wire on its way to a data component, and what came back for it. It stays in its place from the
/// call's first question to its answer.
pub struct OutstandingCall<J: RunSpec> {
    pub(crate) call: usize,
    // Whether the call was admitted, and the gate isn't told of it yet.
    pub(crate) is_begun: bool,
    // Whether its wire is carried since nothing came back that answers the one before.
    pub(crate) is_again: bool,
    // Whether the call is over, and another may have its place.
    pub(crate) is_free: bool,
    // Whether its wire was handed over to the link.
    pub(crate) is_submitted: bool,
    // Whether nothing comes back for the wire any more that answers it.
    pub(crate) is_unanswered: bool,
    // Whether the link is to be asked for news, since no answer came.
    pub(crate) is_news_due: bool,
    pub(crate) reply: Option<Reply>,
    pub(crate) attempt: Attempt<J>,
    // What the link told where no answer came.
    pub(crate) news: Option<News>,
}

impl<J: RunSpec> OutstandingCall<J> {
    // A place where nothing is on its way.
    #[inline(always)]
    pub(crate) fn new() -> OutstandingCall<J>
        ensures none { result.attempt.request ≡ None }
    {
        OutstandingCall {
            call: 0,
            is_begun: false,
            is_again: false,
            is_free: true,
            is_submitted: false,
            is_unanswered: false,
            is_news_due: false,
            reply: None,
            attempt: Attempt::none(),
            news: None,
        }
    }

    // The place is this call's from now on.
    #[inline(always)]
    pub(crate) fn restart(&mut self, call: usize)
        ensures call { self.new.call ≡ call }
        ensures same { self.new.attempt ≡ self.old.attempt }
    {
        self.call = call;
        self.is_begun = false;
        self.is_again = false;
        self.is_free = false;
        self.ready();
    }

    // A wire is to be carried.
    #[inline(always)]
    pub(crate) fn ready(&mut self)
        ensures { (self.new.call ≡ self.old.call) × (self.new.attempt ≡ self.old.attempt) }
    {
        self.is_submitted = false;
        self.is_unanswered = false;
        self.is_news_due = false;
        self.reply = None;
    }

    // Nothing comes back for the wire any more that answers it.
    pub(crate) fn unanswered(&mut self)
        ensures { (self.new.call ≡ self.old.call) × (self.new.attempt ≡ self.old.attempt) }
    {
        self.reply = None;
        self.mark_lost();
    }

    // The stage of a call whose wire is carried.
    pub(crate) fn stage(&self) -> Stage {
        if self.is_again {
            Stage::CarriedAgain
        } else {
            Stage::Carried
        }
    }

    // Whether something came back for the wire, or nothing will.
    #[inline(always)]
    pub(crate) fn is_back(&self) -> bool
        ensures brought { IsSome self.now.reply → result ≡ true }
        ensures unanswered { self.now.is_unanswered ≡ true → result ≡ true }
    {
        self.reply.is_some() || self.is_unanswered
    }
}

impl<J: RunSpec> Outstanding for OutstandingCall<J> {
    ghost sent = { WasInFlight J.start };

    /// The wire, where it is to be carried: it isn't on its way, and nothing came back for it. In a state of the run it
    /// was in flight.
    #[inline(always)]
    fn wire(&self) -> Option<&Wire>
        ensures sent { IfSome result (λ wire. WasInFlight J.start wire.now) }
        ensures wire { IfSome result (λ wire. wire.now ≡ self.now.attempt.wire) }
        ensures brought { IsSome self.now.reply → result ≡ None }
        ensures submitted { self.now.is_submitted ≡ true → result ≡ None }
        ensures unanswered { self.now.is_unanswered ≡ true → result ≡ None }
    {
        if self.is_submitted || self.is_back() {
            return None;
        }
        self.attempt.in_flight()
    }

    /// The number of the wire that is on its way.
    #[inline(always)]
    fn awaits(&self) -> Option<u64>
        ensures number { IfSome result (λ number. number ≡ self.now.attempt.wire.number) }
        ensures submitted { IsSome result → self.now.is_submitted ≡ true }
        ensures brought { IsSome self.now.reply → result ≡ None }
    {
        if !self.is_submitted || self.is_back() {
            return None;
        }
        Some(self.attempt.in_flight()?.number)
    }

    /// The wire is on its way, and isn't to be carried again until something came back for it.
    #[inline(always)]
    fn mark_submitted(&mut self)
        ensures { self.new ≡ record self.old { is_submitted = true } }
    {
        self.is_submitted = true;
    }

    /// Takes what came back for the wire.
    #[inline(always)]
    fn bring(&mut self, reply: Reply)
        ensures { self.new ≡ record self.old { reply = Some reply } }
    {
        self.reply = Some(reply);
    }

    /// Nothing comes back for the wire any more: the link is asked for news, and the wire counts as one that wasn't
    /// answered.
    #[inline(always)]
    fn mark_lost(&mut self)
        ensures { self.new ≡ record self.old { is_unanswered = true; is_news_due = true } }
    {
        self.is_unanswered = true;
        self.is_news_due = true;
    }
}
