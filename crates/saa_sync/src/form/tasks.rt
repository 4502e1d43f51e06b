//! What a form of a core offers to futures: the wakers of tasks are kept under the mutex, beside the core.
//!
//! What a poll does to the core is `PendingRegistration`'s, with no mutex and no waker.

ghost use Rattle.std.specs.Prelude.{◌≡◌, false, Some};
ghost use Rattle.saa_core.specs.declared.ticket.Registration.TheVariants.{Unregistered};

use super::Form;
use futures::task::{Context, Poll};
use saa_core::future::{PendingRegistration, Progress};
use saa_core::primitive::Primitive;
use saa_core::ticket::{Error, Full, How, Ticket};
use saa_core_waits::Pends;
use saa_core_waits::future::{Acquiring, AcquiringWith, AnswerReader};
use std::sync::Wait;

impl<R: Wait + Drop, P: Primitive> Pends for Form<R, P> {
    ghost use Rattle.saa_core.specs.Tickets.{is_busy};
    ghost use Rattle.saa_sync.specs.Forms.{source_of};

    type Pending = PendingRegistration<P>;

    ghost admits_pending = { λ form pending. Unit {0} };

    ghost source = { source_of };

    ghost asked = { λ pending. pending.request };

    ghost is_registered = { λ pending. is_busy pending.ticket };

    ghost has_ended = { λ pending. pending.has_ended };

    fn has_ended(pending: &PendingRegistration<P>) -> bool {
        pending.has_ended()
    }

    fn vacant(pending: &PendingRegistration<P>) -> PendingRegistration<P> {
        PendingRegistration::new(pending.ask())
    }

    /// Polls what is pending at the core, and wakes each waiter that a first poll answered.
    fn advance(
        &self,
        pending: &mut PendingRegistration<P>,
        cx: &mut Context<'_>,
    ) -> (Poll<Result<Option<u8>, Full>>, bool) {
        let slot = pending.slot();
        let mut locked = self.lock();
        let progress = pending.poll_on(&mut locked.core);
        let now = pending.slot();
        let mut _unused = None;
        let polled = match progress {
            Progress::Done(answer) => {
                _unused = locked.wakers.take_of(slot);
                Poll::Ready(Ok(answer))
            }
            Progress::Refused(full) => Poll::Ready(Err(full)),
            _ => locked.wakers.keep(now, &self.source, cx),
        };
        let has_joined = matches!(progress, Progress::Joined);
        if has_joined {
            self.reset_parker(now);
        }
        self.unlock(locked);
        (polled, has_joined)
    }

    /// Polls a ticket at the core as async: where the answer isn't there yet, the task's waker is kept in the slot's place.
    ///
    /// A waker of another task that polled for the same slot before gives way to this one, and wakes that task for nothing.
    fn poll_async(&self, ticket: &mut Ticket, cx: &mut Context<'_>) -> Poll<Result<u8, Error>> {
        let slot = ticket.slot();
        let mut locked = self.lock();
        let answer = locked.core.poll_number(ticket, How::Async);
        if matches!(answer, Err(Error::NotReady)) {
            return locked.wakers.keep(slot, &self.source, cx);
        }
        let _unused = locked.wakers.take_of(slot);
        drop(locked);
        Poll::Ready(answer)
    }

    /// Drops what is pending at the core, and wakes each waiter that this answered; at a gate it disturbs nobody. Takes no mutex
    /// where it isn't registered.
    fn give_up(&self, pending: &mut PendingRegistration<P>) {
        let slot = pending.slot();
        if slot.is_none() {
            return;
        }
        let mut locked = self.lock();
        pending.leave_on(&mut locked.core);
        let _unused = locked.wakers.take_of(slot);
        self.unlock(locked);
    }
}

impl<R: Wait + Drop, P: Primitive> Form<R, P> {
    // The future of what is asked, as the calls of each primitive hand it out. Nothing is asked before its first poll.
    #[inline(always)]
    pub(crate) fn future<Q: AnswerReader>(&self, ask: P::Ask) -> Acquiring<'_, Self, Q>
        ensures form { result.form ≡ self.now }
        ensures request { result.asking.request ≡ P.request ask }
        ensures idle { result.asking.ticket ≡ Unregistered }
        ensures fresh { result.asking.has_ended ≡ false }
    {
        Acquiring::new(self, PendingRegistration::new(ask))
    }

    // The same future, which calls `begin_wait` where it joins the queue.
    #[inline(always)]
    pub(crate) fn future_with<Q: AnswerReader, F: FnOnce() + Drop>(
        &self,
        ask: P::Ask,
        begin_wait: F,
    ) -> AcquiringWith<'_, Self, Q, F>
        ensures form { result.acquiring.form ≡ self.now }
        ensures request { result.acquiring.asking.request ≡ P.request ask }
        ensures idle { result.acquiring.asking.ticket ≡ Unregistered }
        ensures fresh { result.acquiring.asking.has_ended ≡ false }
        ensures callback { result.begin_wait ≡ Some begin_wait }
    {
        AcquiringWith::new(self.future(ask), begin_wait)
    }
}
