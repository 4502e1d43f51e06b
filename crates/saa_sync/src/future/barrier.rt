//! The named futures of the barrier, and how its answers read in them.

ghost use Rattle.std.specs.Prelude.{◌≡◌};

use crate::barrier::{Barrier, is_leader};
pub use crate::future::{Acquiring, AcquiringWith, AnswerReader, PollOn, Progress};
use saa_core::ticket::Full;

/// How the answers of a barrier read: whether a task is the leader of its round.
#[derive(Drop)]
pub struct Arrival;

/// The future of `Barrier::wait_async`: `Ok(true)` for the last arrival of the round, `Ok(false)` for the others.
pub type ArriveFuture<'s, R> = Acquiring<'s, Barrier<R>, Arrival>;

/// The future of `Barrier::wait_async_with`.
pub type ArriveFutureWith<'s, R, F> = AcquiringWith<'s, Barrier<R>, Arrival, F>;

impl AnswerReader for Arrival {
    ghost use Rattle.std.specs.Prelude.{Ok};
    ghost use Rattle.saa_sync.specs.BarrierAnswers.{arrival};

    type Output = bool;

    type Error = Full;

    ghost read = { λ answer. Ok (arrival answer) };

    ghost full = { record {} };

    /// Whether it is the leader of its round.
    fn read(answer: Option<u8>) -> Result<bool, Full> {
        match answer {
            Some(value) => Ok(is_leader(value)),
            None => Ok(false),
        }
    }

    fn full() -> Full {
        Full
    }
}
