//! The word's lock, as a word form whose asks are modes.

ghost use Rattle.std.specs.Prelude.{◌≡◌};
ghost use Rattle.saa_word_lock_free.specs.OfLock.{number_of};

use crate::waiting::{GRANTED, POISONED};
use crate::word_form::WordForm;
use futures::task::{Context, Poll};
use saa_core_waits::{Deadline, SpinPolicy};
use saa_word_threads::laws::registrations;
use saa_word_threads::lock::{Error, Lock, Mode, Place, TryLockError};
use saa_word_threads::receipt::Receipt;
use saa_word_threads::visitor::Visitor;
use std::sync::Wait;
use std::time::Clock;

impl WordForm for Lock {
    ghost use Rattle.saa_core_spec.specs.Lock.{mode_request};
    ghost use Rattle.saa_word_threads.specs.Locks.{source_of, table_of};
    ghost use Rattle.saa_word_lock_free.specs.OfLock.{Rests, calls_of, home_of};

    type Ask = Mode;

    type Place = Place;

    ghost request = { mode_request };

    ghost fits = { λ mode. Unit {0} };

    ghost table = { table_of };

    ghost source = { source_of };

    ghost home = { home_of };

    ghost rests = { Rests };

    ghost calls = { calls_of };

    ghost rests_here = { λ lock place home rests. (home, rests) };

    fn may_succeed(_mode: Mode) -> bool {
        true
    }

    #[inline(always)]
    fn try_once<R: Wait>(&self, rt: &R, mode: Mode) -> (Result<(), TryLockError>, Visitor) {
        match mode {
            Mode::Exclusive => self.try_lock_once(rt),
            Mode::Shared => self.try_share_once(rt),
            Mode::WaitExclusive | Mode::WaitShared => {
                (Err(TryLockError::WouldBlock), self.visit())
            }
        }
    }

    fn give_back<R: Wait>(&self, rt: &R, mode: Mode) -> Visitor {
        match mode {
            Mode::Exclusive => {
                let (_done, visitor) = self.release_lock_once(rt);
                visitor
            }
            Mode::Shared => {
                let (_done, visitor) = self.release_share_once(rt);
                visitor
            }
            Mode::WaitExclusive | Mode::WaitShared => self.visit(),
        }
    }

    fn register<R: Wait>(
        &self,
        rt: &R,
        place: &mut Place,
        mode: Mode,
        spin_policy: SpinPolicy,
    ) -> bool {
        registrations();
        self.register_spinning(rt, place, mode, spin_policy)
    }

    fn has_joined(place: &Place) -> bool {
        place.has_joined()
    }

    fn poll<R: Wait>(&self, rt: &R, place: &mut Place) -> Result<u8, Error> {
        registrations();
        number(Lock::poll(self, rt, place))
    }

    fn try_poll(&self, place: &mut Place) -> Result<u8, Error> {
        registrations();
        number(Lock::try_poll(self, place))
    }

    fn poll_until<R: Wait + Clock>(
        &self,
        rt: &R,
        place: &mut Place,
        deadline: Deadline,
    ) -> Result<u8, Error> {
        registrations();
        match deadline {
            Deadline::At(end) => number(Lock::poll_until(self, rt, place, end)),
            Deadline::Never => number(Lock::poll(self, rt, place)),
            Deadline::Passed => number(Lock::try_poll(self, place)),
        }
    }

    fn poll_task(&self, place: &mut Place, cx: &mut Context<'_>) -> Poll<Result<u8, Error>> {
        registrations();
        match Lock::poll_task(self, place, cx) {
            Poll::Ready(answer) => Poll::Ready(number(answer)),
            Poll::Pending => Poll::Pending,
        }
    }

    fn cancel<R: Wait>(&self, rt: &R, place: &mut Place) {
        registrations();
        Lock::cancel(self, rt, place);
    }

    fn receipt_by(&self, visitor: &mut Visitor) -> Receipt {
        Lock::receipt_by(self, visitor)
    }

    fn receipt(&self, place: &mut Place) -> Receipt {
        Lock::receipt(self, place)
    }
}

// The number of what a poll tells.
fn number(polled: Result<bool, Error>) -> Result<u8, Error>
    ensures { result ≡ number_of polled }
{
    match polled {
        Ok(true) => Ok(GRANTED),
        Ok(false) => Ok(POISONED),
        Err(error) => Err(error),
    }
}
