//! What a form of a core offers to waits: registrations, polls, waits and cancels, each at the core under the mutex.
//!
//! A waiter spins at its parker, then yields, and only then parks there.

ghost use Rattle.std.specs.Prelude.{◌≡◌, Some, IfSome, IsNone, false};
ghost use Rattle.saa_core_spec.specs.declared.polling.How.TheVariants.{Sync};
ghost use Rattle.saa_core.specs.declared.ticket.Registration.TheVariants.{Unregistered};
ghost use Rattle.saa_core_spec.specs.Errors.{error_of, is_not_ready};
ghost use Rattle.saa_core_waits.specs.Waits.{HasEnded};
ghost use Rattle.saa_sync.specs.UnderMutex.{IsPolled};

use super::Form;
use crate::locked::Locked;
use crate::rest::Spent;
use futures::task::{Context, Poll};
use saa_core::primitive::Primitive;
use saa_core::ticket::{Error, Full, How, Ticket};
use saa_core_waits::{CallStart, Deadline, Waitable, WaitableUntil};
use std::sync::{MutexGuard, Wait};
use std::thread::yield_now;
use std::time::Clock;

impl<R: Wait + Drop, P: Primitive> Waitable for Form<R, P> {
    ghost use Rattle.std.specs.Prelude.{◌≡◌};
    ghost use Rattle.saa_core.specs.declared.ticket.Registration.TheVariants.{Unregistered};
    ghost use Rattle.saa_sync.specs.UnderMutex.{IsPolled, IsRegistered};

    type Ask = P::Ask;

    type Registration = Ticket;

    ghost admits = { λ form ticket. Unit {0} };

    ghost registers = { λ ask is_sync. IsRegistered P.object_invariant (P.request ask) is_sync };

    ghost polls = { IsPolled };

    ghost cancels = { λ old new. new ≡ Unregistered };

    /// Registers a ticket, and wakes each waiter that this answered. An idle one that asks for no more than there ever is is
    /// registered, or the room is full.
    fn register(&self, ticket: &mut Ticket, ask: P::Ask, is_sync: bool) -> Result<bool, Full> {
        let mut locked = self.lock();
        let answer = locked.register(ticket, ask, is_sync);
        self.reset_parker(ticket.slot());
        self.unlock(locked);
        answer
    }

    /// Registers a ticket as sync and polls it once, under one lock, and wakes each waiter that this answered.
    #[inline(always)]
    fn start(&self, ticket: &mut Ticket, ask: P::Ask) -> Result<CallStart, Full> {
        if ticket.is_registered() {
            return Ok(CallStart::Refused);
        }
        let mut locked = self.lock();
        let start = locked.start(ticket, ask);
        self.reset_parker(ticket.slot());
        self.unlock(locked);
        start
    }

    /// Polls a ticket: as sync it waits for the answer, else it answers `NotReady` where that isn't there yet.
    fn poll(&self, ticket: &mut Ticket, how: How) -> Result<u8, Error> {
        let answer = self.lock().core.poll_number(ticket, how);
        if matches!(how, How::Sync) && matches!(answer, Err(Error::NotReady)) {
            return self.wait(ticket);
        }
        answer
    }

    /// Waits for the answer of a ticket that joined the queue as sync, and consumes it. It is idle then, also where the core doesn't know it.
    #[inline(never)]
    fn finish(&self, ticket: &mut Ticket) -> Result<u8, Error> {
        let answer = self.wait(ticket);
        if answer.is_err() {
            self.cancel_registration(ticket);
        }
        answer
    }

    /// Drops what a ticket is registered for, and wakes each waiter that this answered.
    fn cancel_registration(&self, ticket: &mut Ticket) {
        let slot = ticket.slot();
        let mut locked = self.lock();
        locked.core.cancel(ticket);
        let _unused = locked.wakers.take_of(slot);
        self.unlock(locked);
    }
}

impl<R: Wait + Clock + Drop, P: Primitive> WaitableUntil for Form<R, P> {
    /// Polls a ticket as sync, and waits for its answer until the deadline.
    fn poll_until(&self, ticket: &mut Ticket, deadline: Deadline) -> Result<u8, Error> {
        let (mut locked, reply) = self.wait_until(ticket, deadline);
        match reply {
            Some(answer) => answer,
            None => locked.core.poll_number(ticket, How::Sync),
        }
    }

    /// Waits for the answer of a ticket that joined the queue as sync, and consumes it, until the deadline.
    ///
    /// A wait whose time is up looks once more, under the mutex, and where the answer isn't there it drops what it is registered for
    /// under the same mutex. So an answer that comes before the drop is returned, and none can come after it: no grant is lost, and
    /// none is told twice.
    fn finish_until(&self, ticket: &mut Ticket, deadline: Deadline) -> Result<u8, Error> {
        let (mut locked, reply) = self.wait_until(ticket, deadline);
        let answer = match reply {
            Some(answer) => answer,
            None => locked.poll_or_leave(ticket),
        };
        if answer.is_err() {
            // The core doesn't know the ticket.
            locked.core.cancel(ticket);
        }
        self.unlock(locked);
        answer
    }
}

impl<R: Wait + Drop, P: Primitive> Form<R, P> {
    // Waits for the answer of a ticket: until a poll as sync says anything else than that it isn't there yet.
    //
    // A ticket without a slot has its answer, or is refused, so it waits for nothing.
    fn wait(&self, ticket: &mut Ticket) -> Result<u8, Error>
        ensures polled { IsPolled Sync ticket.old ticket.new result }
        ensures waited { is_not_ready (error_of result) ≡ false }
    {
        let parker = self.parker_of(ticket);
        let mut spent = Spent::new();
        if let Some(parker) = parker {
            parker.spin(self.waiting, &mut spent);
        }
        let mut locked = self.lock();
        locked.count_spins(&spent);
        for _ in self.rt.forever() {
            match locked.core.poll_number(ticket, How::Sync) {
                Err(Error::NotReady) => {}
                answer => return answer,
            }
            locked = match parker {
                Some(parker) => parker.park(&self.rt, locked),
                None => self.step_aside(locked),
            };
        }
        unreachable!()
    }

    // Lets others have the mutex for a while.
    fn step_aside(&self, locked: MutexGuard<'_, Locked<P>>) -> MutexGuard<'_, Locked<P>> {
        drop(locked);
        yield_now();
        self.lock()
    }

    // Waits for the answer of a ticket: until a poll as sync says anything else than that it isn't there yet, or the time is up;
    // then it isn't polled any more. The mutex is still held, so the last look and the drop after it find the same.
    //
    // A ticket without a slot has its answer, or is refused, so it waits for nothing.
    fn wait_until<'s>(
        &'s self,
        ticket: &mut Ticket,
        deadline: Deadline,
    ) -> (MutexGuard<'s, Locked<P>>, Option<Result<u8, Error>>)
    where
        R: Clock,
        ensures polled { IfSome result.1 (λ answer. IsPolled Sync ticket.old ticket.new answer) }
        ensures waited { IfSome result.1 (λ answer. is_not_ready (error_of answer) ≡ false) }
        ensures unanswered { IsNone result.1 → ticket.new ≡ ticket.old }
    {
        let parker = self.parker_of(ticket);
        let mut spent = Spent::new();
        if let Some(parker) = parker
            && deadline.left(&self.rt).is_some()
        {
            parker.spin_until(self.waiting, &self.rt, deadline, &mut spent);
        }
        let mut locked = self.lock();
        locked.count_spins(&spent);
        for _ in self.rt.forever() {
            let Some(left) = deadline.left(&self.rt) else {
                return (locked, None);
            };
            match locked.core.poll_number(ticket, How::Sync) {
                Err(Error::NotReady) => {}
                answer => return (locked, Some(answer)),
            }
            locked = match parker {
                Some(parker) => parker.park_for(&self.rt, locked, left),
                None => self.step_aside(locked),
            };
        }
        unreachable!()
    }
}
