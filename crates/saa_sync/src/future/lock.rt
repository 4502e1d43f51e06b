//! The named futures of the lock, and how its answers read in them.

ghost use Rattle.std.specs.Prelude.{◌≡◌};

pub use crate::future::{Acquiring, AcquiringWith, AnswerReader, PollOn, Progress};
use crate::lock::{Lock, is_granted};
use saa_core::ticket::Full;

/// How the answers of a lock read, for one owner alone or for a share of it.
#[derive(Drop)]
pub struct Turn;

/// The future of `Lock::lock_async`: `Ok(true)` once the lock is granted, `Ok(false)` where it is poisoned.
pub type LockFuture<'s, R> = Acquiring<'s, Lock<R>, Turn>;

/// The future of `Lock::lock_async_with`.
pub type LockFutureWith<'s, R, F> = AcquiringWith<'s, Lock<R>, Turn, F>;

/// The future of `Lock::share_async`: `Ok(true)` once a share is granted, `Ok(false)` where the lock is poisoned.
pub type ShareFuture<'s, R> = Acquiring<'s, Lock<R>, Turn>;

/// The future of `Lock::share_async_with`.
pub type ShareFutureWith<'s, R, F> = AcquiringWith<'s, Lock<R>, Turn, F>;

impl AnswerReader for Turn {
    ghost use Rattle.std.specs.Prelude.{Ok};
    ghost use Rattle.saa_sync.specs.LockAnswers.{turn};

    type Output = bool;

    type Error = Full;

    ghost read = { λ answer. Ok (turn answer) };

    ghost full = { record {} };

    /// Whether it is granted: each other answer says that the lock is poisoned.
    fn read(answer: Option<u8>) -> Result<bool, Full> {
        match answer {
            Some(value) => Ok(is_granted(value)),
            None => Ok(false),
        }
    }

    fn full() -> Full {
        Full
    }
}
