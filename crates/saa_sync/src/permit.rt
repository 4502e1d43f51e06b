//! Permits of the threaded semaphore as values: those of `saa_core_guards`, granted by this semaphore's calls and given back by its release.
//!
//! That a grant here comes of the core, and is given back to it, is shown by tests: no clause can follow the calls of a semaphore with a mutex, so it
//! says nothing of what was granted.

ghost use Rattle.std.specs.Prelude.{◌≡◌, ◌≤◌, ◌↔◌, false, IfOk, IfSome, IsSome};
ghost use Rattle.saa_core_spec.specs.declared.request.Request.TheVariants.{Permits};

use crate::form::Form;
use crate::future::semaphore::ManyPermits;
use crate::semaphore::SemaphoreOf;
use crate::timed::Deadline;
use futures::ready;
use futures::task::{Context, Poll};
use saa_core::future::PendingRegistration;
use saa_core::semaphore::SemaphoreCoreOf;
use saa_core::ticket::Full;
use saa_core_guards::Owed;
pub use saa_core_guards::permit::{Holder, InTime, PermitFrom};
pub use saa_core_guards::permit_future::PermitsFuture;
pub use saa_core_guards::raw_semaphore::{RawSemaphore, RawSemaphoreAsync, RawSemaphoreUntil};
use saa_core_waits::{AcquireError, AnswerReader, Pends};
use std::sync::{Arc, Wait};
use std::time::{Clock, Duration};

/// Permits of a [`SemaphoreOf`], which live no longer than it does.
pub type PermitOf<'s, R, const MAX: usize> = PermitFrom<&'s SemaphoreOf<R, MAX>>;

/// Permits of a `Semaphore`.
pub type Permit<'s, R> = PermitOf<'s, R, 63>;

/// Permits of a [`SemaphoreOf`] that own it with others, by an `Arc`: they are kept in a struct, and carried by a job.
pub type OwnedPermitOf<R, const MAX: usize> = PermitFrom<Arc<SemaphoreOf<R, MAX>>>;

/// Permits of a `Semaphore` that own it with others.
pub type OwnedPermit<R> = OwnedPermitOf<R, 63>;

/// The future of permits of a [`SemaphoreOf`].
pub type AcquirePermitsOf<'s, R, const MAX: usize> = PermitsFuture<'s, SemaphoreOf<R, MAX>>;

/// The future of permits of a `Semaphore`.
pub type AcquirePermits<'s, R> = AcquirePermitsOf<'s, R, 63>;

impl<R: Wait + Drop, const MAX: usize> RawSemaphore for Form<R, SemaphoreCoreOf<MAX>> {
    type Error = AcquireError;

    ghost bound = { MAX };

    ghost granted = { λ semaphore count. Unit {0} };

    ghost took_back = { λ semaphore count. Unit {0} };

    fn try_take(&self, count: usize) -> bool {
        self.try_acquire_many(count)
    }

    fn take_one(&self) -> Result<(), AcquireError> {
        self.acquire_sync()
    }

    fn take(&self, count: usize) -> Result<bool, AcquireError> {
        self.acquire_many_sync(count)
    }

    /// As its `release_many`. The answer isn't looked at: it is `false` only where releases by other tasks have given back what was out.
    fn take_back(&self, owed: Owed) {
        self.release_many(owed.end());
    }
}

impl<R: Wait + Clock + Drop, const MAX: usize> RawSemaphoreUntil for Form<R, SemaphoreCoreOf<MAX>> {
    fn after(&self, duration: Duration) -> Deadline {
        Deadline::after(self.rt(), duration)
    }

    fn take_one_until(&self, deadline: Deadline) -> Result<Option<()>, AcquireError> {
        self.acquire_by(deadline)
    }

    fn take_until(&self, count: usize, deadline: Deadline) -> Result<Option<bool>, AcquireError> {
        self.acquire_many_by(count, deadline)
    }
}

impl<R: Wait + Drop, const MAX: usize> RawSemaphoreAsync for Form<R, SemaphoreCoreOf<MAX>> {
    ghost use Rattle.std.specs.Prelude.{◌≡◌};
    ghost use Rattle.saa_core.specs.declared.ticket.Registration.TheVariants.{Unregistered};

    ghost is_idle = { λ pending. pending.ticket ≡ Unregistered };

    fn pending(count: usize) -> PendingRegistration<SemaphoreCoreOf<MAX>> {
        PendingRegistration::new(count)
    }

    /// Polls for the permits. A registration is false where there never are so many.
    fn poll_permits(
        &self,
        pending: &mut PendingRegistration<SemaphoreCoreOf<MAX>>,
        _count: usize,
        cx: &mut Context<'_>,
    ) -> Poll<Result<bool, AcquireError>> {
        if pending.has_ended() {
            return cx.yield_now();
        }
        let (polled, _has_joined) = self.advance(pending, cx);
        match ready!(polled) {
            Ok(answer) => Poll::Ready(ManyPermits::read(answer)),
            Err(Full) => Poll::Ready(Err(AcquireError::Full)),
        }
    }
}

impl<R: Wait + Drop, const MAX: usize> Form<R, SemaphoreCoreOf<MAX>> {
    /// Takes one permit as [`Self::acquire_sync`] does, and gives it back when what is returned goes.
    ///
    /// `Closed`: the semaphore is shut, or was while this waited. `Full`: its spins are over, it would have to wait, and as many slots are
    /// held as there is room. Neither changes anything.
    pub fn acquire_permit(&self) -> Result<PermitOf<'_, R, MAX>, AcquireError>
        ensures semaphore { IfOk result (λ permit. permit.holder.now ≡ self.now) }
        ensures count { IfOk result (λ permit. permit.count ≡ 1) }
    {
        PermitFrom::acquire_one(self)
    }

    /// Takes `count` permits as [`Self::acquire_many_sync`] does, and gives them back when what is returned goes.
    ///
    /// `Ok(None)` comes at once, exactly where the count is above [`Self::MAX_PERMITS`]. `Closed` and `Full` come as there. All three change
    /// nothing.
    pub fn acquire_permits(
        &self,
        count: usize,
    ) -> Result<Option<PermitOf<'_, R, MAX>>, AcquireError>
        ensures semaphore { IfOk result (λ reply. IfSome reply (λ permits. permits.holder.now ≡ self.now)) }
        ensures count { IfOk result (λ reply. IfSome reply (λ permits. permits.count ≡ count)) }
        ensures answer { IfOk result (λ reply. IsSome reply ↔ (count ≤ MAX)) }
    {
        PermitFrom::acquire(self, count)
    }

    /// Takes one permit as [`Self::try_acquire`] does, and gives it back when what is returned goes; never waits for it.
    ///
    /// `None`: no permit is available, there is a waiter, or the semaphore is shut; nothing is changed.
    pub fn try_acquire_permit(&self) -> Option<PermitOf<'_, R, MAX>>
        ensures semaphore { IfSome result (λ permit. permit.holder.now ≡ self.now) }
        ensures count { IfSome result (λ permit. permit.count ≡ 1) }
    {
        PermitFrom::try_acquire(self, 1)
    }

    /// Takes `count` permits as [`Self::try_acquire_many`] does, and gives them back when what is returned goes; never waits for them.
    ///
    /// `None`: they aren't available, there is a waiter, the count is above [`Self::MAX_PERMITS`], or the semaphore is shut; nothing is
    /// changed.
    pub fn try_acquire_permits(&self, count: usize) -> Option<PermitOf<'_, R, MAX>>
        ensures semaphore { IfSome result (λ permits. permits.holder.now ≡ self.now) }
        ensures count { IfSome result (λ permits. permits.count ≡ count) }
    {
        PermitFrom::try_acquire(self, count)
    }

    /// The future of `count` permits, all at once: its output is that of [`Self::acquire_permits`].
    ///
    /// Nothing is asked before its first poll.
    pub fn acquire_permits_async(&self, count: usize) -> AcquirePermitsOf<'_, R, MAX>
        ensures semaphore { result.semaphore ≡ self.now }
        ensures count { result.count ≡ count }
        ensures request { result.pending.request ≡ Permits count }
        ensures fresh { result.pending.has_ended ≡ false }
    {
        PermitsFuture::new(self, count)
    }
}
