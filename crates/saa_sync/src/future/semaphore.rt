//! The named futures of the semaphore, and how its answers read in them.

ghost use Rattle.std.specs.Prelude.{◌≡◌};

pub use crate::future::{Acquiring, AcquiringWith, AnswerReader, PollOn, Progress};
use crate::semaphore::{SemaphoreOf, read_grant};
use saa_core_waits::AcquireError;

/// How the answers for one permit read.
#[derive(Drop)]
pub struct OnePermit;

/// How the answers for so many permits read.
#[derive(Drop)]
pub struct ManyPermits;

/// The future of `SemaphoreOf::acquire_async`: `Ok(())` once one permit is granted, and
/// `AcquireError::Closed` where the semaphore is shut before.
pub type AcquireOf<'s, R, const MAX: usize> = Acquiring<'s, SemaphoreOf<R, MAX>, OnePermit>;

/// The future of `SemaphoreOf::acquire_async_with`.
pub type AcquireWithOf<'s, R, F, const MAX: usize> = AcquiringWith<
    's,
    SemaphoreOf<R, MAX>,
    OnePermit,
    F,
>;

/// The future of `SemaphoreOf::acquire_many_async`: `Ok(true)` once the permits are granted, `Ok(false)` at once for more
/// than there are, and `AcquireError::Closed` where the semaphore is shut before.
pub type AcquireManyOf<'s, R, const MAX: usize> = Acquiring<'s, SemaphoreOf<R, MAX>, ManyPermits>;

/// The future of `SemaphoreOf::acquire_many_async_with`.
pub type AcquireManyWithOf<'s, R, F, const MAX: usize> = AcquiringWith<
    's,
    SemaphoreOf<R, MAX>,
    ManyPermits,
    F,
>;

/// The future of `Semaphore::acquire_async`.
pub type Acquire<'s, R> = AcquireOf<'s, R, 63>;

/// The future of `Semaphore::acquire_async_with`.
pub type AcquireWith<'s, R, F> = AcquireWithOf<'s, R, F, 63>;

/// The future of `Semaphore::acquire_many_async`.
pub type AcquireMany<'s, R> = AcquireManyOf<'s, R, 63>;

/// The future of `Semaphore::acquire_many_async_with`.
pub type AcquireManyWith<'s, R, F> = AcquireManyWithOf<'s, R, F, 63>;

impl AnswerReader for OnePermit {
    ghost use Rattle.saa_sync.specs.SemaphoreAnswers.{one_permit};
    ghost use Rattle.saa_core_waits.specs.declared.acquire_error.AcquireError.TheVariants as Why;

    type Output = ();

    type Error = AcquireError;

    ghost read = { one_permit };

    ghost full = { Why.Full };

    /// Nothing, or that the semaphore was shut; no registration for one permit is false (`false_registrations` of `saa_core_laws`).
    fn read(answer: Option<u8>) -> Result<(), AcquireError> {
        match answer {
            Some(value) => read_grant(value),
            None => Ok(()),
        }
    }

    fn full() -> AcquireError {
        AcquireError::Full
    }
}

impl AnswerReader for ManyPermits {
    ghost use Rattle.saa_sync.specs.SemaphoreAnswers.{many_permits};
    ghost use Rattle.saa_core_waits.specs.declared.acquire_error.AcquireError.TheVariants as Why;

    type Output = bool;

    type Error = AcquireError;

    ghost read = { many_permits };

    ghost full = { Why.Full };

    /// Whether they are granted, or that the semaphore was shut; more than there ever are have no answer.
    fn read(answer: Option<u8>) -> Result<bool, AcquireError> {
        match answer {
            Some(value) => match read_grant(value) {
                Ok(()) => Ok(true),
                Err(error) => Err(error),
            },
            None => Ok(false),
        }
    }

    fn full() -> AcquireError {
        AcquireError::Full
    }
}
