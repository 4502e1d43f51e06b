//! The word's semaphore, as a word form whose asks are counts of permits.

ghost use Rattle.std.specs.Prelude.{◌≡◌};
ghost use Rattle.saa_word_lock_free.specs.OfSemaphore.{number_of, try_result_of};

use crate::waiting::{CLOSED, GRANTED};
use crate::word_form::WordForm;
use futures::task::{Context, Poll};
use saa_core_waits::{Deadline, SpinPolicy};
use saa_word_threads::laws::registrations;
use saa_word_threads::lock::{Error, TryLockError};
use saa_word_threads::receipt::Receipt;
use saa_word_threads::semaphore::{Place, SemaphoreOf};
use saa_word_threads::visitor::Visitor;
use std::sync::Wait;
use std::time::Clock;

impl<const MAX: usize> WordForm for SemaphoreOf<MAX> {
    ghost use Rattle.std.specs.Prelude.{◌≤◌};
    ghost use Rattle.saa_core_spec.specs.declared.request.Request.TheVariants.{Permits};
    ghost use Rattle.saa_word_threads.specs.Semaphores.{source_of, table_of};
    ghost use Rattle.saa_word_lock_free.specs.OfSemaphore.{Rests, calls_of, home_of};

    type Ask = usize;

    type Place = Place;

    ghost request = { Permits };

    ghost fits = { λ count. count ≤ MAX };

    ghost table = { table_of };

    ghost source = { source_of };

    ghost home = { home_of };

    ghost rests = { Rests };

    ghost calls = { calls_of };

    ghost rests_here = { λ semaphore place home rests. (home, rests) };

    fn may_succeed(count: usize) -> bool {
        count <= MAX
    }

    #[inline(always)]
    fn try_once<R: Wait>(&self, rt: &R, count: usize) -> (Result<(), TryLockError>, Visitor) {
        let (is_granted, visitor) = self.try_acquire_many_once(rt, count);
        (try_result(is_granted), visitor)
    }

    fn give_back<R: Wait>(&self, rt: &R, count: usize) -> Visitor {
        let (_given, visitor) = self.release_many_once(rt, count);
        visitor
    }

    fn register<R: Wait>(
        &self,
        rt: &R,
        place: &mut Place,
        count: usize,
        spin_policy: SpinPolicy,
    ) -> bool {
        registrations();
        self.register_spinning(rt, place, count, spin_policy)
    }

    fn has_joined(place: &Place) -> bool {
        place.has_joined()
    }

    fn poll<R: Wait>(&self, rt: &R, place: &mut Place) -> Result<u8, Error> {
        registrations();
        number(SemaphoreOf::poll(self, rt, place))
    }

    fn try_poll(&self, place: &mut Place) -> Result<u8, Error> {
        registrations();
        number(SemaphoreOf::try_poll(self, place))
    }

    fn poll_until<R: Wait + Clock>(
        &self,
        rt: &R,
        place: &mut Place,
        deadline: Deadline,
    ) -> Result<u8, Error> {
        registrations();
        match deadline {
            Deadline::At(end) => number(SemaphoreOf::poll_until(self, rt, place, end)),
            Deadline::Never => number(SemaphoreOf::poll(self, rt, place)),
            Deadline::Passed => number(SemaphoreOf::try_poll(self, place)),
        }
    }

    fn poll_task(&self, place: &mut Place, cx: &mut Context<'_>) -> Poll<Result<u8, Error>> {
        registrations();
        match SemaphoreOf::poll_task(self, place, cx) {
            Poll::Ready(answer) => Poll::Ready(number(answer)),
            Poll::Pending => Poll::Pending,
        }
    }

    fn cancel<R: Wait>(&self, rt: &R, place: &mut Place) {
        registrations();
        SemaphoreOf::cancel(self, rt, place);
    }

    fn receipt_by(&self, visitor: &mut Visitor) -> Receipt {
        SemaphoreOf::receipt_by(self, visitor)
    }

    fn receipt(&self, place: &mut Place) -> Receipt {
        SemaphoreOf::receipt(self, place)
    }
}

// What a try tells.
#[inline(always)]
fn try_result(is_granted: bool) -> Result<(), TryLockError>
    ensures { result ≡ try_result_of is_granted }
{
    if is_granted {
        Ok(())
    } else {
        Err(TryLockError::WouldBlock)
    }
}

// The number of what a poll tells.
fn number(polled: Result<(), Error>) -> Result<u8, Error>
    ensures { result ≡ number_of polled }
{
    match polled {
        Ok(()) => Ok(GRANTED),
        Err(Error::Closed) => Ok(CLOSED),
        Err(error) => Err(error),
    }
}
