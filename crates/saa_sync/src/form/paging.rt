//! What a form of a core offers to pagers, which have its tickets as registrations.

ghost use Rattle.std.specs.Prelude.{◌≡◌, ◌||◌, ℕ, true, false, Option, None, Some, Result, Ok, Err, IfOk};
ghost use Rattle.saa_core_spec.specs.declared.polling.Error.{Error};
ghost use Rattle.saa_core.specs.Tickets.{IsNeverTooMuch, is_busy, is_yes};
ghost use Rattle.saa_core.specs.Beginning.{mode_of};
ghost use Rattle.saa_core_spec.specs.Errors.{error_of};

use super::Form;
use crate::pager::{Error, How, Pager, SyncResult, Ticket};
use crate::timed::{Deadline, Timed};
use futures::task::{Context, Poll};
use saa_core::primitive::Primitive;
use saa_core::ticket::Full;
use saa_core_waits::{Pends, Waitable, WaitableUntil};
use std::sync::Wait;
use std::time::{Clock, Duration};

/// A core as the pagers of its form see it: what the numbers of its answers read as, and which readings are an error of the poll.
pub trait PagerCore: Primitive {
    // Which values may be read, which are answers, and which readings are an error of the poll.
    ghost is_value: { ℕ → Type 0 };

    ghost is_answer: { ℕ → Type 0 };

    ghost fault: { Self.Value → Option Error };

    // What a poll is told, by the number that the core answered, or by why there is none.
    ghost reading: { Result ℕ Error → Self.Value };

    /// What a poll is told, by the number that the core answered, or by why there is none.
    fn read(polled: Result<u8, Error>) -> Self::Value
        ensures reads { result ≡ reading polled }
        ensures fault { fault result ≡ error_of polled };

    // No answer means an error of a poll.
    ghost answers: { (value : ℕ) → Self.is_answer value → Self.fault (Self.Primitive.value (Ok value)) ≡ None };
}

impl<R: Wait + Drop, P: PagerCore> Form<R, P>
where
    P::Value: Eq,
{
    // Registers a pager for what is asked, to be polled as sync or as async; the `register_pager` of each primitive.
    //
    // `Ok(false)`: the pager is registered already, here or elsewhere, or asks for more than there ever is.
    pub(crate) fn page<'s>(
        &'s self,
        pager: &mut Pager<'s, Self>,
        ask: P::Ask,
        is_sync: bool,
    ) -> Result<bool, Full>
        ensures registered { is_busy pager.new ≡ (is_busy pager.old || is_yes result) }
        ensures busy { is_busy pager.old ≡ true → result ≡ Ok false }
        ensures unchanged { is_yes result ≡ false → pager.new ≡ pager.old }
        ensures mode { is_yes result ≡ true → mode_of pager.new ≡ Some is_sync }
        ensures idle { is_busy pager.old ≡ false → IsNeverTooMuch P.object_invariant (P.request ask)
            → IfOk result (λ is_registered. is_registered ≡ true) }
    {
        if pager.is_registered() {
            return Ok(false);
        }
        let mut ticket = Ticket::new();
        let is_registered = self.register(&mut ticket, ask, is_sync)?;
        pager.hold(ticket, self);
        Ok(is_registered)
    }
}

impl<R: Wait + Drop, P: PagerCore> SyncResult<Ticket> for Form<R, P>
where
    P::Value: Eq,
{
    ghost use Rattle.std.proofs.Common.{refl};
    ghost use Rattle.saa_core.specs.declared.ticket.Registration.TheVariants.{Unregistered};
    ghost use Rattle.saa_core.specs.Tickets.{is_busy, is_wrong_mode};
    ghost use Rattle.saa_sync.specs.Forms.{answer_of, source_of};
    ghost use Rattle.saa_sync.specs.PagerLaws.{at_once, free_is_idle};

    type Result = P::Value;

    ghost is_value = { P.is_value };

    ghost is_answer = { P.is_answer };

    ghost answer = { answer_of P.value P.reading };

    ghost fault = { P.fault };

    ghost reading = { P.reading };

    ghost errors = { λ value error. refl };

    ghost admits = { λ form ticket. Unit {0} };

    ghost source = { source_of };

    ghost idle = { Unregistered };

    ghost is_busy = { is_busy };

    ghost is_wrong_mode = { is_wrong_mode };

    ghost at_once = { at_once };

    ghost admits_idle = { λ form. tt };

    ghost idle_is_free = { refl };

    ghost free_is_idle = { free_is_idle };

    ghost idle_is_unanswered = { refl };

    /// What the value means to the core, as its `value_of` says; and an error in its place, as its `read` does.
    fn to_result(value: u8, pager_error: Option<Error>) -> P::Value {
        match pager_error {
            Some(error) => P::read(Err(error)),
            None => P::value_of(Ok(value)),
        }
    }

    fn read(polled: Result<u8, Error>) -> P::Value {
        P::read(polled)
    }

    fn unregistered() -> Ticket {
        Ticket::new()
    }

    fn is_registered_as(ticket: &Ticket) -> bool {
        ticket.is_registered()
    }

    fn take(&self, ticket: &mut Ticket, how: How) -> P::Value {
        P::read(self.poll(ticket, how))
    }

    fn poll_task(&self, ticket: &mut Ticket, cx: &mut Context<'_>) -> Poll<P::Value> {
        match self.poll_async(ticket, cx) {
            Poll::Ready(answer) => Poll::Ready(P::read(answer)),
            Poll::Pending => Poll::Pending,
        }
    }

    /// Drops what a ticket is registered for here, and wakes each waiter that this answers; the ticket is idle afterwards.
    ///
    /// May wait for the lock. Where its slot isn't held here, it only becomes idle.
    fn cancel(&self, ticket: &mut Ticket) {
        self.cancel_registration(ticket);
    }
}

impl<R: Wait + Clock + Drop, P: PagerCore> Timed<Ticket> for Form<R, P>
where
    P::Value: Eq,
{
    fn after(&self, duration: Duration) -> Deadline {
        Deadline::after(&self.rt, duration)
    }

    fn take_until(&self, ticket: &mut Ticket, deadline: Deadline) -> Option<P::Value> {
        match self.poll_until(ticket, deadline) {
            Err(Error::NotReady) => None,
            answer => Some(P::read(answer)),
        }
    }
}
