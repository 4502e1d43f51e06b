//! The named futures of both primitives, and how answers read in them.

ghost use Rattle.std.specs.Prelude.{◌≡◌};

use crate::lock::Lock;
pub use crate::lock_api::{MutexFuture, ReadFuture, WriteFuture};
use crate::semaphore::SemaphoreOf;
use crate::waiting::{CLOSED, GRANTED};
use saa_core_spec::request::Full;
use saa_core_waits::AcquireError;
pub use saa_core_waits::{Acquiring, AcquiringWith, AnswerReader, PollPager};

/// How the answers for one permit read.
#[derive(Drop)]
pub struct OnePermit;

/// How the answers for so many permits read.
#[derive(Drop)]
pub struct ManyPermits;

/// How the answers of a lock read.
#[derive(Drop)]
pub struct Turn;

/// The future of `SemaphoreOf::acquire_async`: `Ok(())` once one permit is granted, `Closed` where the semaphore is or was shut.
pub type AcquireOf<'s, R, const MAX: usize> = Acquiring<'s, SemaphoreOf<R, MAX>, OnePermit>;

/// The future of `SemaphoreOf::acquire_async_with`.
pub type AcquireWithOf<'s, R, F, const MAX: usize> = AcquiringWith<
    's,
    SemaphoreOf<R, MAX>,
    OnePermit,
    F,
>;

/// The future of `SemaphoreOf::acquire_many_async`: `Ok(true)` once the permits are granted, `Ok(false)` at once for more
/// than there are.
pub type AcquireManyOf<'s, R, const MAX: usize> = Acquiring<'s, SemaphoreOf<R, MAX>, ManyPermits>;

/// The future of `SemaphoreOf::acquire_many_async_with`.
pub type AcquireManyWithOf<'s, R, F, const MAX: usize> = AcquiringWith<
    's,
    SemaphoreOf<R, MAX>,
    ManyPermits,
    F,
>;

/// The same futures for a [`Semaphore`](crate::semaphore::Semaphore), whose bound is 63.
pub type Acquire<'s, R> = AcquireOf<'s, R, 63>;

/// As [`AcquireWithOf`].
pub type AcquireWith<'s, R, F> = AcquireWithOf<'s, R, F, 63>;

/// As [`AcquireManyOf`].
pub type AcquireMany<'s, R> = AcquireManyOf<'s, R, 63>;

/// As [`AcquireManyWithOf`].
pub type AcquireManyWith<'s, R, F> = AcquireManyWithOf<'s, R, F, 63>;

/// The future of `Lock::lock_async`, and of `Lock::share_async`: `Ok(true)` once it is granted, `Ok(false)` where the lock is or was poisoned.
pub type LockFuture<'s, R> = Acquiring<'s, Lock<R>, Turn>;

/// The future of `Lock::lock_async_with`, and of `Lock::share_async_with`.
pub type LockFutureWith<'s, R, F> = AcquiringWith<'s, Lock<R>, Turn, F>;

/// The future of `Lock::share_async`.
pub type ShareFuture<'s, R> = LockFuture<'s, R>;

/// The future of `Lock::share_async_with`.
pub type ShareFutureWith<'s, R, F> = LockFutureWith<'s, R, F>;

impl AnswerReader for OnePermit {
    ghost use Rattle.saa_core_waits.specs.declared.acquire_error.AcquireError.TheVariants as Why;
    ghost use Rattle.saa_word_lock_free.specs.Answers.{one_permit};

    type Output = ();

    type Error = AcquireError;

    ghost read = { one_permit };

    ghost full = { Why.Full };

    /// Nothing but that the semaphore was shut: no registration for one permit is false.
    fn read(answer: Option<u8>) -> Result<(), AcquireError> {
        match answer {
            Some(value) if value == CLOSED => Err(AcquireError::Closed),
            _ => Ok(()),
        }
    }

    fn full() -> AcquireError {
        AcquireError::Full
    }
}

impl AnswerReader for ManyPermits {
    ghost use Rattle.saa_core_waits.specs.declared.acquire_error.AcquireError.TheVariants as Why;
    ghost use Rattle.saa_word_lock_free.specs.Answers.{many_permits};

    type Output = bool;

    type Error = AcquireError;

    ghost read = { many_permits };

    ghost full = { Why.Full };

    /// Whether they are granted: each answer is a grant, or that the semaphore was shut.
    fn read(answer: Option<u8>) -> Result<bool, AcquireError> {
        match answer {
            Some(value) if value == CLOSED => Err(AcquireError::Closed),
            Some(_value) => Ok(true),
            None => Ok(false),
        }
    }

    fn full() -> AcquireError {
        AcquireError::Full
    }
}

impl AnswerReader for Turn {
    ghost use Rattle.std.specs.Prelude.{Ok};
    ghost use Rattle.saa_word_lock_free.specs.Answers.{turn};

    type Output = bool;

    type Error = Full;

    ghost read = { λ answer. Ok (turn answer) };

    ghost full = { record {} };

    /// Whether it is granted: the other answer is that the lock is or was poisoned.
    fn read(answer: Option<u8>) -> Result<bool, Full> {
        match answer {
            Some(value) => Ok(value == GRANTED),
            None => Ok(false),
        }
    }

    fn full() -> Full {
        Full
    }
}
