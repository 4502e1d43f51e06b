//! The named futures of the gate, and how its answers read in them.

ghost use Rattle.std.specs.Prelude.{◌≡◌};

pub use crate::future::{Acquiring, AcquiringWith, AnswerReader, PollOn, Progress};
use crate::gate::Gate;
use saa_core::gate::{Error, GateCore, State};
use saa_core::primitive::Primitive;
use saa_core::ticket::Full;

/// How the answers of a gate read.
#[derive(Drop)]
pub struct Passing;

/// The future of `Gate::enter_async`: whether the task passed.
pub type Enter<'s, R> = Acquiring<'s, Gate<R>, Passing>;

/// The future of `Gate::enter_async_with`.
pub type EnterWith<'s, R, F> = AcquiringWith<'s, Gate<R>, Passing, F>;

impl AnswerReader for Passing {
    ghost use Rattle.std.specs.Prelude.{Ok};
    ghost use Rattle.saa_sync.specs.GateAnswers.{passing};

    type Output = Result<State, Error>;

    type Error = Full;

    ghost read = { λ answer. Ok (passing answer) };

    ghost full = { record {} };

    /// What the gate answered. No registration at a gate is false; one that were would say that somebody gave up.
    fn read(answer: Option<u8>) -> Result<Result<State, Error>, Full> {
        match answer {
            Some(value) => Ok(GateCore::value_of(Ok(value))),
            None => Ok(Err(Error::SpuriousFailure)),
        }
    }

    fn full() -> Full {
        Full
    }
}
