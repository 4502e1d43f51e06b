//! Permits of the lock-free semaphore as values: those of `saa_core_guards`, granted by this semaphore's calls and given back by its release.
//!
//! What such a grant and a release are in the word's one history is in `specs/SemaphoreCalls.antt`.

ghost use Rattle.std.specs.Prelude.{◌≡◌, ◌≤◌, ◌↔◌, false, None, IfOk, IfSome, IsSome, OnOk, OnSome};
ghost use Rattle.saa_word_lock_free.specs.SemaphoreCalls.{WasGranted};

use crate::form::Form;
use crate::semaphore::SemaphoreOf;
use crate::tasks::Pending;
use crate::waiting::CLOSED;
use futures::task::{Context, Poll};
use saa_core_guards::Owed;
pub use saa_core_guards::permit::{Holder, InTime, PermitFrom};
pub use saa_core_guards::permit_future::PermitsFuture;
pub use saa_core_guards::raw_semaphore::{RawSemaphore, RawSemaphoreAsync, RawSemaphoreUntil};
use saa_core_spec::request::Full;
use saa_core_waits::{AcquireError, Deadline, Pends};
use saa_word_threads::semaphore::SemaphoreOf as Word;
use std::sync::{Arc, Wait};
use std::time::{Clock, Duration};

/// Permits of a [`SemaphoreOf`], which live no longer than it does.
pub type PermitOf<'s, R, const MAX: usize> = PermitFrom<&'s SemaphoreOf<R, MAX>>;

/// Permits of a `Semaphore`.
pub type Permit<'s, R> = PermitOf<'s, R, 63>;

/// Permits of a [`SemaphoreOf`] that own it with others, by an `Arc`: they are kept in a struct, and carried by a job.
pub type OwnedPermitOf<R, const MAX: usize> = PermitFrom<Arc<SemaphoreOf<R, MAX>>>;

/// Permits of a `Semaphore` that own it with others.
pub type OwnedPermit<R> = OwnedPermitOf<R, 63>;

/// The future of permits of a [`SemaphoreOf`].
pub type AcquirePermitsOf<'s, R, const MAX: usize> = PermitsFuture<'s, SemaphoreOf<R, MAX>>;

/// The future of permits of a `Semaphore`.
pub type AcquirePermits<'s, R> = AcquirePermitsOf<'s, R, 63>;

impl<R: Wait + Drop, const MAX: usize> RawSemaphore for Form<R, Word<MAX>> {
    ghost use Rattle.saa_word_lock_free.specs.SemaphoreCalls.{TookBack, WasGranted};

    type Error = AcquireError;

    ghost bound = { MAX };

    ghost granted = { λ semaphore. WasGranted semaphore.word };

    ghost took_back = { λ semaphore. TookBack semaphore.word };

    fn try_take(&self, count: usize) -> bool {
        self.try_acquire_many(count)
    }

    fn take_one(&self) -> Result<(), AcquireError> {
        self.acquire_sync()
    }

    fn take(&self, count: usize) -> Result<bool, AcquireError> {
        self.acquire_many_sync(count)
    }

    /// As its `release_many`. The answer isn't looked at: it is `false` only where releases by other tasks have given back what was out.
    fn take_back(&self, owed: Owed) {
        self.release_many(owed.end());
    }
}

impl<R: Wait + Clock + Drop, const MAX: usize> RawSemaphoreUntil for Form<R, Word<MAX>> {
    fn after(&self, duration: Duration) -> Deadline {
        Deadline::after(self.rt(), duration)
    }

    fn take_one_until(&self, deadline: Deadline) -> Result<Option<()>, AcquireError> {
        // A semaphore has one permit at least, which its type says.
        let _bounded = self.word();
        match self.acquire_by(1, deadline) {
            Ok(Ok(value)) => {
                if value == CLOSED {
                    return Err(AcquireError::Closed);
                }
                Ok(Some(()))
            }
            Ok(Err(_late)) => Ok(None),
            Err(Full) => Err(self.why_full()),
        }
    }

    fn take_until(&self, count: usize, deadline: Deadline) -> Result<Option<bool>, AcquireError> {
        if count > MAX {
            return Ok(Some(false));
        }
        match self.acquire_by(count, deadline) {
            Ok(Ok(value)) => {
                if value == CLOSED {
                    return Err(AcquireError::Closed);
                }
                Ok(Some(true))
            }
            Ok(Err(_late)) => Ok(None),
            Err(Full) => Err(self.why_full()),
        }
    }
}

impl<R: Wait + Drop, const MAX: usize> RawSemaphoreAsync for Form<R, Word<MAX>> {
    ghost use Rattle.std.specs.Prelude.{◌≡◌, None};

    ghost is_idle = { λ pending. pending.borrowed ≡ None };

    fn pending(count: usize) -> Pending<Word<MAX>> {
        Pending::new(count)
    }

    fn poll_permits(
        &self,
        pending: &mut Pending<Word<MAX>>,
        _count: usize,
        cx: &mut Context<'_>,
    ) -> Poll<Result<bool, AcquireError>> {
        if pending.has_ended {
            return cx.yield_now();
        }
        let (reply, _has_joined) = self.advance(pending, cx);
        match reply {
            Poll::Ready(Ok(Some(value))) => {
                if value == CLOSED {
                    return Poll::Ready(Err(AcquireError::Closed));
                }
                Poll::Ready(Ok(true))
            }
            Poll::Ready(Ok(None)) => Poll::Ready(Ok(false)),
            Poll::Ready(Err(Full)) => Poll::Ready(Err(self.why_full())),
            Poll::Pending => Poll::Pending,
        }
    }
}

impl<R: Wait + Drop, const MAX: usize> Form<R, Word<MAX>> {
    /// Takes one permit as [`Self::acquire_sync`] does, and gives it back when what is returned goes.
    ///
    /// `Closed`: the semaphore is shut, or was while this waited. `Full`: it would have to wait, and no place is in. Both change nothing.
    pub fn acquire_permit(&self) -> Result<PermitOf<'_, R, MAX>, AcquireError>
        ensures semaphore { IfOk result (λ permit. permit.holder.now ≡ self.now) }
        ensures count { IfOk result (λ permit. permit.count ≡ 1) }
        ensures granted { OnOk result (WasGranted self.now.word 1) }
    {
        PermitFrom::acquire_one(self)
    }

    /// Takes `count` permits as [`Self::acquire_many_sync`] does, and gives them back when what is returned goes.
    ///
    /// `Ok(None)` comes at once, exactly where the count is above [`Self::MAX_PERMITS`]. `Closed`: the semaphore is shut, or was while this waited. `Full`:
    /// it would have to wait, and no place is in. All three change nothing.
    pub fn acquire_permits(
        &self,
        count: usize,
    ) -> Result<Option<PermitOf<'_, R, MAX>>, AcquireError>
        ensures semaphore { IfOk result (λ reply. IfSome reply (λ permits. permits.holder.now ≡ self.now)) }
        ensures count { IfOk result (λ reply. IfSome reply (λ permits. permits.count ≡ count)) }
        ensures granted { IfOk result (λ reply. OnSome reply (WasGranted self.now.word count)) }
        ensures answer { IfOk result (λ reply. IsSome reply ↔ (count ≤ MAX)) }
    {
        PermitFrom::acquire(self, count)
    }

    /// Takes one permit as [`Self::try_acquire`] does, and gives it back when what is returned goes; never waits for it.
    ///
    /// `None`: no permit is available, or there is a waiter, or the semaphore is shut; nothing is changed.
    pub fn try_acquire_permit(&self) -> Option<PermitOf<'_, R, MAX>>
        ensures semaphore { IfSome result (λ permit. permit.holder.now ≡ self.now) }
        ensures count { IfSome result (λ permit. permit.count ≡ 1) }
        ensures granted { OnSome result (WasGranted self.now.word 1) }
    {
        PermitFrom::try_acquire(self, 1)
    }

    /// Takes `count` permits as [`Self::try_acquire_many`] does, and gives them back when what is returned goes; never waits for them.
    ///
    /// `None`: they aren't available, or there is a waiter, or the semaphore is shut, or the count is above [`Self::MAX_PERMITS`]; nothing is changed.
    pub fn try_acquire_permits(&self, count: usize) -> Option<PermitOf<'_, R, MAX>>
        ensures semaphore { IfSome result (λ permits. permits.holder.now ≡ self.now) }
        ensures count { IfSome result (λ permits. permits.count ≡ count) }
        ensures granted { OnSome result (WasGranted self.now.word count) }
    {
        PermitFrom::try_acquire(self, count)
    }

    /// The future of `count` permits, all at once: its output is that of [`Self::acquire_permits`].
    ///
    /// Nothing is asked before its first poll, which joins the queue without a look where it must wait.
    pub fn acquire_permits_async(&self, count: usize) -> AcquirePermitsOf<'_, R, MAX>
        ensures semaphore { result.semaphore ≡ self.now }
        ensures count { result.count ≡ count }
        ensures ask { result.pending.ask ≡ count }
        ensures idle { result.pending.borrowed ≡ None }
        ensures fresh { result.pending.has_ended ≡ false }
    {
        PermitsFuture::new(self, count)
    }
}
