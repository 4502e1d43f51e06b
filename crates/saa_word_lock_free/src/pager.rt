//! What a form offers to pagers, which have its registrations.

ghost use Rattle.std.specs.Prelude.{◌≡◌, ℕ, Option, None, Some, Result, Err};
ghost use Rattle.saa_core_spec.specs.declared.polling.Error.{Error};
ghost use Rattle.saa_core_spec.specs.Errors.{error_of};

use crate::form::Form;
use crate::registration::Registration;
use crate::word_form::WordForm;
use futures::task::{Context, Poll};
pub use saa_core_spec::polling::{Error, How};
pub use saa_core_waits::SyncResult;
use saa_core_waits::{Deadline, Pends, Timed, Waitable, WaitableUntil};
use std::sync::Wait;
use std::time::{Clock, Duration};

/// A pager at a form: `Pager<'_, Lock<R>>`, say.
pub type Pager<'s, S> = saa_core_waits::Pager<'s, S, <S as Waitable>::Registration>;

/// A word form as the pagers of a form see it: what the numbers of its answers read as, and which readings are an error of the poll.
pub trait PagerForm: WordForm {
    /// What a poll answers.
    type Value: Copy + Eq;

    // Which values may be read, which are answers, what an answer reads as, and which readings are an error of the poll.
    ghost is_value: { ℕ → Type 0 };

    ghost is_answer: { ℕ → Type 0 };

    ghost answer: { ℕ → Option Error → Self.Value };

    ghost fault: { Self.Value → Option Error };

    // What a poll is told, by the number that the form answered, or by why there is none; an error reads as in `answer`.
    ghost reading: { Result ℕ Error → Self.Value };

    ghost errors: { (value : ℕ) (error : Error) → answer value (Some error) ≡ reading (Err error) };

    // No answer reads as an error of a poll.
    ghost answers: { (value : ℕ) → is_answer value → fault (answer value None) ≡ None };

    /// What an answer means, by its value.
    fn value(value: u8) -> Self::Value
        requires { is_value value }
        ensures { result ≡ answer value None };

    /// What a poll is told, by the number that the form answered, or by why there is none.
    fn read(polled: Result<u8, Error>) -> Self::Value
        ensures reads { result ≡ reading polled }
        ensures fault { fault result ≡ error_of polled };
}

impl<R: Wait + Drop, W: PagerForm> SyncResult<Registration<W>> for Form<R, W> {
    ghost use Rattle.std.proofs.Common.{refl};
    ghost use Rattle.saa_word_lock_free.specs.Forms.{TakesAt, source_of};
    ghost use Rattle.saa_word_lock_free.specs.Registered.{HasAnswered, IsWithdrawnFrom, is_busy, is_wrong_mode, number_of, unregistered};
    ghost use Rattle.saa_word_lock_free.specs.PagerLaws.{free_is_idle};

    type Result = W::Value;

    ghost is_value = { W.is_value };

    ghost is_answer = { W.is_answer };

    ghost answer = { W.answer };

    ghost fault = { W.fault };

    ghost reading = { W.reading };

    ghost errors = { W.errors };

    ghost admits = { TakesAt W.calls };

    ghost source = { source_of W.source };

    ghost idle = { unregistered };

    ghost is_busy = { is_busy };

    ghost is_wrong_mode = { is_wrong_mode };

    ghost at_once = { number_of };

    ghost answers = { HasAnswered W.calls };

    ghost withdraws = { IsWithdrawnFrom W.calls };

    ghost admits_idle = { λ form. tt };

    ghost idle_is_free = { refl };

    ghost free_is_idle = { free_is_idle };

    ghost idle_is_unanswered = { refl };

    fn to_result(value: u8, pager_error: Option<Error>) -> W::Value {
        match pager_error {
            Some(error) => W::read(Err(error)),
            None => W::value(value),
        }
    }

    fn read(polled: Result<u8, Error>) -> W::Value {
        W::read(polled)
    }

    fn unregistered() -> Registration<W> {
        Registration::new()
    }

    fn is_registered_as(registration: &Registration<W>) -> bool {
        registration.is_registered()
    }

    fn take(&self, registration: &mut Registration<W>, how: How) -> W::Value {
        W::read(self.poll(registration, how))
    }

    fn poll_task(
        &self,
        registration: &mut Registration<W>,
        cx: &mut Context<'_>,
    ) -> Poll<W::Value> {
        match self.poll_async(registration, cx) {
            Poll::Ready(answer) => Poll::Ready(W::read(answer)),
            Poll::Pending => Poll::Pending,
        }
    }

    fn cancel(&self, registration: &mut Registration<W>) {
        self.cancel_registration(registration);
    }
}

impl<R: Wait + Clock + Drop, W: PagerForm> Timed<Registration<W>> for Form<R, W> {
    fn after(&self, duration: Duration) -> Deadline {
        Deadline::after(self.rt(), duration)
    }

    fn take_until(
        &self,
        registration: &mut Registration<W>,
        deadline: Deadline,
    ) -> Option<W::Value> {
        match self.poll_until(registration, deadline) {
            Err(Error::NotReady) => None,
            answer => Some(W::read(answer)),
        }
    }
}
