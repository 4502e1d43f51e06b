//! Named futures polled on a core that is lent: with no mutex, no waker, and no callback.

ghost use Rattle.std.specs.Prelude.{◌≡◌, ◌&&◌, ℕ, not, true, false, Option};
ghost use Rattle.saa_core_spec.specs.Asking.{registered};
ghost use Rattle.saa_core.specs.declared.ticket.Registration.TheVariants.{Unregistered};
ghost use Rattle.saa_core.specs.Beginning.{BeginWakes, alone};
ghost use Rattle.saa_core.specs.Futures.{PendingState, asked, has_joined, is_end, is_waiting, progress_as, waited};
ghost use Rattle.saa_core.specs.Slots.{WakesAnswered};
ghost use Rattle.saa_core.specs.Tickets.{StepsWithTicket, dropping, leaving, is_busy};

use crate::form::Form;
use saa_core::future::Progress;
use saa_core::primitive::Primitive;
use saa_core_waits::future::{Acquiring, AcquiringWith, AnswerReader};
use std::sync::Wait;

/// A future of a core's form, which can be polled on a core that the caller lends: this is what its poll and its drop do under the mutex.
pub trait PollOn {
    /// The core.
    type Core: Primitive;

    /// What an answer reads as.
    type Output;

    // What is pending of the future, the future with this pending, and how an answer reads.
    ghost pending: { Self → PendingState };

    ghost with_pending: { Self → PendingState → Self };

    ghost read: { Option ℕ → Self.Output };

    /// Polls it on a core; never waits.
    ///
    /// The first poll registers it as async, and answers `Done` where the answer is there at once or the registration is
    /// false, `Joined` where it joined the queue, and `Refused` where the room is full. Later ones answer `Waits`, or
    /// `Done` with the answer. `Done` and `Refused` end it.
    fn poll_on(&mut self, core: &mut Self::Core) -> Progress<Self::Output>
        requires { (pending self.old).has_ended ≡ false }
        ensures first { is_busy (pending self.old).ticket ≡ false
            → StepsWithTicket (Self.Core.core core.old) (Self.Core.core core.new) (pending self.old).ticket (pending self.new).ticket
            (λ s name. progress_as read (asked s name (pending self.old).request)) result }
        ensures later { is_busy (pending self.old).ticket ≡ true
            → StepsWithTicket (Self.Core.core core.old) (Self.Core.core core.new) (pending self.old).ticket (pending self.new).ticket
            (λ s name. progress_as read (waited s name)) result }
        ensures ended { (pending self.new).has_ended ≡ is_end result }
        ensures ticket { is_busy (pending self.new).ticket ≡ not (is_end result) }
        ensures joined { has_joined result ≡ (not (is_busy (pending self.old).ticket) && is_busy (pending self.new).ticket) }
        ensures waits { is_waiting result ≡ true → (pending self.new).ticket ≡ (pending self.old).ticket }
        ensures begins { is_busy (pending self.old).ticket ≡ false
            → BeginWakes (Self.Core.core core.old) (Self.Core.core core.new) (pending self.old).ticket (pending self.old).request false
            (registered (alone (Self.Core.core core.old)) 0 (pending self.old).request false).reply }
        ensures pending_wakes { is_busy (pending self.old).ticket ≡ true
            → (Self.Core.core core.new).slots.pending_wakes ≡ (Self.Core.core core.old).slots.pending_wakes }
        ensures asking { (pending self.new).request ≡ (pending self.old).request }
        ensures rest { self.new ≡ with_pending self.old (pending self.new) };

    /// Ends it, and drops what it is registered for in a core.
    fn cancel_on(&mut self, core: &mut Self::Core)
        ensures acts { StepsWithTicket (Self.Core.core core.old) (Self.Core.core core.new) (pending self.old).ticket (pending self.new).ticket dropping result }
        ensures idle { (pending self.new).ticket ≡ Unregistered }
        ensures ended { (pending self.new).has_ended ≡ true }
        ensures unregistered { is_busy (pending self.old).ticket ≡ false → core.new ≡ core.old }
        ensures wakes { is_busy (pending self.old).ticket ≡ true
            → WakesAnswered (Self.Core.core core.old).slots (Self.Core.core core.new).slots }
        ensures asking { (pending self.new).request ≡ (pending self.old).request }
        ensures rest { self.new ≡ with_pending self.old (pending self.new) };

    /// Ends it as the drop of it does: it drops what it is registered for in a core, and disturbs nobody there.
    fn leave_on(&mut self, core: &mut Self::Core)
        ensures acts { StepsWithTicket (Self.Core.core core.old) (Self.Core.core core.new) (pending self.old).ticket (pending self.new).ticket leaving result }
        ensures idle { (pending self.new).ticket ≡ Unregistered }
        ensures ended { (pending self.new).has_ended ≡ true }
        ensures unregistered { is_busy (pending self.old).ticket ≡ false → core.new ≡ core.old }
        ensures wakes { is_busy (pending self.old).ticket ≡ true
            → WakesAnswered (Self.Core.core core.old).slots (Self.Core.core core.new).slots }
        ensures asking { (pending self.new).request ≡ (pending self.old).request }
        ensures rest { self.new ≡ with_pending self.old (pending self.new) };
}

impl<'s, R: Wait + Drop, P: Primitive, Q: AnswerReader> PollOn for Acquiring<'s, Form<R, P>, Q> {
    ghost use Rattle.saa_core_waits.specs.FutureStates.{with_pending};

    type Core = P;

    type Output = Result<Q::Output, Q::Error>;

    ghost pending = { λ future. future.asking };

    ghost with_pending = { with_pending };

    ghost read = { Q.read };

    fn poll_on(&mut self, core: &mut P) -> Progress<Result<Q::Output, Q::Error>> {
        let mut pending = self.take_pending();
        let progress = pending.poll_on(core);
        self.put_pending(pending);
        progress.map(|answer| Q::read(answer))
    }

    fn cancel_on(&mut self, core: &mut P) {
        let mut pending = self.take_pending();
        pending.cancel_on(core);
        self.put_pending(pending);
    }

    fn leave_on(&mut self, core: &mut P) {
        let mut leaving = self.take_pending();
        leaving.leave_on(core);
        self.put_pending(leaving);
    }
}

impl<'s, R: Wait + Drop, P: Primitive, Q: AnswerReader, F: FnOnce() + Drop> PollOn
    for AcquiringWith<'s, Form<R, P>, Q, F> {
    ghost use Rattle.saa_sync.specs.Forms.{with_pending_before};

    type Core = P;

    type Output = Result<Q::Output, Q::Error>;

    ghost pending = { λ future. future.acquiring.asking };

    ghost with_pending = { with_pending_before };

    ghost read = { Q.read };

    fn poll_on(&mut self, core: &mut P) -> Progress<Result<Q::Output, Q::Error>> {
        let mut taken = self.take_pending();
        let progress = taken.poll_on(core);
        self.put_pending(taken);
        progress.map(|answer| Q::read(answer))
    }

    fn cancel_on(&mut self, core: &mut P) {
        let mut taken = self.take_pending();
        taken.cancel_on(core);
        self.put_pending(taken);
    }

    fn leave_on(&mut self, core: &mut P) {
        let mut left = self.take_pending();
        left.leave_on(core);
        self.put_pending(left);
    }
}
