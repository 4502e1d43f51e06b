//! What is under a form's mutex: the core, the wakers of tasks, and the steps of the core that are two calls of it.

ghost use Rattle.std.specs.Prelude.{◌≡◌, ◌⊎◌, true, Some, IfErr, slice_get};
ghost use Rattle.saa_core_spec.specs.declared.polling.Error.TheVariants.{NotReady, NotRegistered};
ghost use Rattle.saa_core_spec.specs.declared.polling.How.TheVariants.{Sync};
ghost use Rattle.saa_core.specs.declared.ticket.Registration.TheVariants.{Unregistered};
ghost use Rattle.saa_core_spec.specs.Asking.{registered};
ghost use Rattle.saa_core.specs.Tickets.{StepsWithTicket, is_busy};
ghost use Rattle.saa_core.specs.Slots.{WakesAnswered, wake_taken};
ghost use Rattle.saa_core.specs.Beginning.{BeginWakes, alone, mode_of};
ghost use Rattle.saa_core_waits.specs.Waits.{HasStarted};
ghost use Rattle.saa_sync.specs.UnderMutex.{IsPolled, IsPolledOrLeft, IsRegistered, begun, concluded, has_joined, registration_of, slot_woken};

use crate::rest::Spent;
use crate::wakers::Wakers;
use futures::task::Waker;
use saa_core::primitive::Primitive;
use saa_core::ticket::{Error, Full, How, Ticket};
use saa_core_waits::CallStart;

/// A wake that was taken out of the core: the waiter of this slot has an answer.
#[derive(Drop)]
pub(crate) struct Wake {
    /// The slot, whose parker is to be unparked for a thread.
    pub slot: u16,
    /// The waker of a task, which wakes it when it is dropped.
    pub waker: Option<Waker>,
}

/// Wakes that were taken out of the core under one lock.
#[derive(Drop)]
pub(crate) struct Wakes {
    /// The oldest.
    pub first: Wake,
    /// The next, if there is one; then more may be pending.
    pub second: Option<Wake>,
}

/// What is under the mutex.
#[derive(Drop)]
pub(crate) struct Locked<P: Primitive> {
    // How often calls locked the mutex, which tests read. It wraps around. The counts come first: they are written in each turn, and so
    // are on the mutex's cache line.
    pub(crate) turns: u64,
    // What tests read too: what calls spent that found the mutex taken and had it at a later try, and what waiters spent before they parked.
    pub(crate) contended: Spent,
    pub(crate) spun: Spent,
    /// The core, to be lent to one step at a time.
    pub(crate) core: P,
    /// The wakers of the tasks that poll for an answer.
    pub(crate) wakers: Wakers,
}

impl<P: Primitive> Locked<P> {
    // A core, with the wakers of its tasks, and nothing counted yet.
    pub(crate) fn new(core: P, wakers: Wakers) -> Self {
        Locked {
            core,
            wakers,
            turns: 0,
            contended: Spent::new(),
            spun: Spent::new(),
        }
    }

    // Counts a turn at the mutex.
    #[inline(always)]
    pub(crate) fn count(&mut self)
        ensures { self.new.core ≡ self.old.core }
    {
        self.turns = self.turns.wrapping_add(1);
    }

    // Counts what a call spent that found the mutex taken at first.
    pub(crate) fn count_tries(&mut self, spent: &Spent)
        ensures { self.new.core ≡ self.old.core }
    {
        self.contended.add(spent);
    }

    // Counts what a waiter spent before it parked, or was answered.
    pub(crate) fn count_spins(&mut self, spent: &Spent)
        ensures { self.new.core ≡ self.old.core }
    {
        self.spun.add(spent);
    }

    /// The wake of a slot that was taken out, and the next pending one, taken out too; both with the waker of the task that
    /// waits there, if one does.
    #[inline(never)]
    pub(crate) fn wakes_from(&mut self, slot: u16) -> Wakes
        ensures first { result.first.slot ≡ slot }
        ensures second { slice_get (P.core self.old.core).slots.pending_wakes 0 ≡ slot_woken result.second }
        ensures taken { P.core self.new.core ≡ record (P.core self.old.core) { slots = wake_taken (P.core self.old.core).slots } }
    {
        let first = self.wake_at(slot);
        let second = match self.core.next_answered() {
            Some(next) => Some(self.wake_at(next)),
            None => None,
        };
        Wakes { first, second }
    }

    // The wake of a slot, with the waker that is kept there.
    fn wake_at(&mut self, slot: u16) -> Wake
        ensures slot { result.slot ≡ slot }
        ensures core { self.new.core ≡ self.old.core }
    {
        let waker = self.wakers.take(slot);
        Wake { slot, waker }
    }

    // Registers an idle ticket as sync, and consumes the answer if that is there at once.
    #[inline(always)]
    pub(crate) fn start(&mut self, ticket: &mut Ticket, ask: P::Ask) -> Result<CallStart, Full>
        requires { ticket.old ≡ Unregistered }
        ensures acts { StepsWithTicket (P.core self.old.core) (P.core self.new.core) ticket.old ticket.new
            (λ s name. begun s name (P.request ask)) result }
        ensures registration { registration_of result ≡ (registered (alone (P.core self.old.core)) 0 (P.request ask) true).reply }
        ensures ticket { is_busy ticket.new ≡ has_joined result }
        ensures mode { has_joined result ≡ true → mode_of ticket.new ≡ Some true }
        ensures wakes { BeginWakes (P.core self.old.core) (P.core self.new.core) ticket.old (P.request ask) true (registration_of result) }
        ensures started { HasStarted (IsRegistered P.object_invariant (P.request ask) true) (IsPolled Sync) ticket.old ticket.new result }
    {
        if !self.register(ticket, ask, true)? {
            return Ok(CallStart::Refused);
        }
        match self.core.poll_number(ticket, How::Sync) {
            Ok(value) => Ok(CallStart::Answered(value)),
            Err(_not_ready) => Ok(CallStart::Joined),
        }
    }

    // Registers a ticket. The proof learns what always holds of the core: so what it never has too few of isn't refused.
    #[inline(always)]
    pub(crate) fn register(
        &mut self,
        ticket: &mut Ticket,
        ask: P::Ask,
        is_sync: bool,
    ) -> Result<bool, Full>
        ensures acts { StepsWithTicket (P.core self.old.core) (P.core self.new.core) ticket.old ticket.new
            (λ s name. registered s name (P.request ask) is_sync) result }
        ensures wakes { WakesAnswered (P.core self.old.core).slots (P.core self.new.core).slots }
        ensures registered { IsRegistered P.object_invariant (P.request ask) is_sync ticket.old ticket.new result }
    {
        self.core.object_invariant();
        self.core.register(ticket, ask, is_sync)
    }

    // Ends the wait of a ticket that was registered as sync: takes the answer if it is there, and else drops what the ticket is
    // registered for, and says `NotReady`. Nobody is told that it left: at a gate all others wait on.
    pub(crate) fn poll_or_leave(&mut self, ticket: &mut Ticket) -> Result<u8, Error>
        ensures acts { StepsWithTicket (P.core self.old.core) (P.core self.new.core) ticket.old ticket.new concluded result }
        ensures ended { IsPolledOrLeft ticket.old ticket.new result }
        ensures lost { mode_of ticket.old ≡ Some true → IfErr result (λ error. (error ≡ NotReady) ⊎ (error ≡ NotRegistered)) }
    {
        let answer = self.core.poll_number(ticket, How::Sync);
        let is_unanswered = matches!(answer, Err(Error::NotReady));
        if is_unanswered {
            self.core.leave(ticket);
        }
        answer
    }
}
