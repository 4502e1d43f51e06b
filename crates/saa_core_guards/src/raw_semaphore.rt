//! What a semaphore offers to permits that are values: it grants them, by calls that try, wait, and wait in time, and takes them back.
//!
//! `granted` and `took_back` are what a semaphore says of its calls; one whose calls no clause can follow has nothing to say. What permits do is
//! proved for any semaphore, so it rests on these calls and on nothing else.

use crate::owed::Owed;
use futures::task::{Context, Poll};
use saa_core_waits::deadline::Deadline;
use saa_core_waits::waitable::Pends;
use std::time::Duration;

/// A semaphore that grants permits, and takes them back.
pub trait RawSemaphore: Sized {
    ghost use Rattle.std.specs.Prelude.{◌≡◌, ℕ, ◌≤◌, ◌↔◌, true, IfOk, IsTrue};

    /// Why a call that may wait took nothing: there is no room for one more waiter, or what else its semaphore says.
    type Error;

    // How many permits it has, that so many were granted by a call, and that so many were given back by one.
    ghost bound: { ℕ };

    ghost granted: { Self → ℕ → Type 0 };

    ghost took_back: { Self → ℕ → Type 0 };

    /// Takes `count` permits if there is no waiter and they are available; never waits for them.
    fn try_take(&self, count: usize) -> bool
        ensures { result ≡ true → granted self.now count };

    /// Takes one permit, and waits for it where it must. An error changes nothing.
    fn take_one(&self) -> Result<(), Self::Error>
        ensures { IfOk result (λ done. granted self.now 1) };

    /// Takes `count` permits, and waits for them where it must. `Ok(false)` comes at once, exactly where there never are so many. An error changes
    /// nothing.
    fn take(&self, count: usize) -> Result<bool, Self::Error>
        ensures granted { IfOk result (λ is_granted. is_granted ≡ true → granted self.now count) }
        ensures answer { IfOk result (λ is_granted. IsTrue is_granted ↔ (count ≤ bound)) };

    /// Takes permits back, and grants the oldest waiters while they fit.
    fn take_back(&self, owed: Owed)
        ensures { took_back self.now owed };
}

/// A semaphore at which calls wait until a deadline.
pub trait RawSemaphoreUntil: RawSemaphore {
    ghost use Rattle.std.specs.Prelude.{◌≡◌, ◌≤◌, ◌↔◌, true, IfOk, IfSome, IsTrue};

    /// The deadline after this time from now, by the semaphore's clock.
    fn after(&self, duration: Duration) -> Deadline;

    /// As [`RawSemaphore::take_one`], at most until the deadline; it joins at once, without a look before it. `Ok(None)`: time is up.
    fn take_one_until(&self, deadline: Deadline) -> Result<Option<()>, Self::Error>
        ensures { IfOk result (λ reply. IfSome reply (λ done. Self.granted self.now 1)) };

    /// As [`RawSemaphore::take`], at most until the deadline; it joins at once, without a look before it. `Ok(None)`: time is up.
    fn take_until(&self, count: usize, deadline: Deadline) -> Result<Option<bool>, Self::Error>
        ensures granted { IfOk result (λ reply. IfSome reply (λ is_granted. is_granted ≡ true → Self.granted self.now count)) }
        ensures answer { IfOk result (λ reply. IfSome reply (λ is_granted. IsTrue is_granted ↔ (count ≤ Self.bound))) };
}

/// A semaphore at which tasks wait for permits by futures.
pub trait RawSemaphoreAsync: RawSemaphore + Pends {
    ghost use Rattle.std.specs.Prelude.{◌≡◌, IfOk, false, true};
    ghost use Rattle.futures.specs.Poll.{IfReady, OnPending};
    ghost use Rattle.futures.specs.Task.{Hears, IsArmed, Keeps};
    ghost use Rattle.saa_core_spec.specs.declared.request.Request.TheVariants.{Permits};

    // Nothing is registered for what is pending.
    ghost is_idle: { Self.Pending → Type 0 };

    /// What is pending for so many permits, which asks for nothing yet.
    fn pending(count: usize) -> Self::Pending
        ensures admitted { (semaphore : Self) → Self.admits_pending semaphore result }
        ensures request { Self.asked result ≡ Permits count }
        ensures idle { is_idle result }
        ensures fresh { Self.has_ended result ≡ false };

    /// Polls for the permits that are pending, for a task, which is woken once they are there. `Ok(false)`: there never are so many.
    fn poll_permits(
        &self,
        pending: &mut Self::Pending,
        count: usize,
        cx: &mut Context<'_>,
    ) -> Poll<Result<bool, Self::Error>>
        requires admitted { Self.admits_pending self.now pending.old }
        requires asked { Self.asked pending.old ≡ Permits count }
        ensures granted { IfReady result (λ answer. IfOk answer (λ is_granted. is_granted ≡ true → Self.granted self.now count)) }
        ensures armed { OnPending result (IsArmed cx.new) }
        ensures heard { OnPending result (Hears cx.new (Self.source self.now)) }
        ensures kept { Keeps cx.old cx.new }
        ensures asks { Self.asked pending.new ≡ Self.asked pending.old }
        ensures admitted { Self.admits_pending self.now pending.new };
}
