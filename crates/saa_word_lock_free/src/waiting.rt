//! What a form offers to waits: registrations, polls, waits and cancels. A registration is answered at once, or has a place of the pool.

ghost use Rattle.std.specs.Prelude.{◌≡◌, false, true, IfErr, IfOk};
ghost use Rattle.saa_word_lock_free.specs.Registered.{IsRegistered, is_busy};

use crate::form::Form;
use crate::registration::{Kept, Registration};
use crate::word_form::WordForm;
use saa_core_spec::polling::{Error, How};
use saa_core_spec::request::Full;
use saa_core_waits::spin_policy::NONE;
use saa_core_waits::{CallStart, Deadline, Waitable, WaitableUntil};
use std::sync::Wait;
use std::time::Clock;

// The numbers of a grant, of poison, and of a semaphore that was shut.
pub(crate) const GRANTED: u8 = 0;

pub(crate) const POISONED: u8 = 2;

pub(crate) const CLOSED: u8 = 2;

impl<R: Wait + Drop, W: WordForm> Waitable for Form<R, W> {
    ghost use Rattle.saa_word_lock_free.specs.Forms.{TakesAt};
    ghost use Rattle.saa_word_lock_free.specs.Registered.{IsCancelled, IsPolled, IsRegistered};

    type Ask = W::Ask;

    type Registration = Registration<W>;

    ghost admits = { TakesAt W.calls };

    ghost registers = { IsRegistered };

    ghost polls = { IsPolled W.calls };

    ghost cancels = { IsCancelled W.calls };

    fn register(
        &self,
        registration: &mut Registration<W>,
        ask: W::Ask,
        is_sync: bool,
    ) -> Result<bool, Full> {
        self.register_at(registration, ask, is_sync)
    }

    fn start(&self, registration: &mut Registration<W>, ask: W::Ask) -> Result<CallStart, Full> {
        if !self.register(registration, ask, true)? {
            return Ok(CallStart::Refused);
        }
        match self.poll(registration, How::Try) {
            Ok(value) => Ok(CallStart::Answered(value)),
            Err(_not_there) => Ok(CallStart::Joined),
        }
    }

    fn poll(&self, registration: &mut Registration<W>, how: How) -> Result<u8, Error> {
        if !registration.is_registered() {
            return Err(Error::NotRegistered);
        }
        if registration.is_wrong_mode(how) {
            return Err(Error::WrongMode);
        }
        let (kept, is_sync) = self.take_kept(registration);
        match kept {
            Kept::Nothing => unreachable!(),
            Kept::AtOnce(value, _ask, _visitor) => Ok(value),
            Kept::AtPlace(mut borrowed, ask) => {
                let answer = self.poll_kept(&mut borrowed.value, ask, how);
                self.settle(registration, borrowed, ask, is_sync, answer);
                answer
            }
        }
    }

    fn finish(&self, registration: &mut Registration<W>) -> Result<u8, Error> {
        let answer = self.poll(registration, How::Sync);
        if answer.is_err() {
            self.cancel_registration(registration);
        }
        answer
    }

    fn cancel_registration(&self, registration: &mut Registration<W>) {
        let (kept, _is_sync) = self.take_kept(registration);
        match kept {
            Kept::Nothing => {}
            Kept::AtOnce(value, ask, _visitor) => {
                if value == GRANTED {
                    let _giver = self.word().give_back(self.rt(), ask);
                }
            }
            Kept::AtPlace(mut borrowed, _ask) => {
                self.word().cancel(self.rt(), &mut borrowed.value);
                self.give(borrowed);
            }
        }
    }
}

impl<R: Wait + Clock + Drop, W: WordForm> WaitableUntil for Form<R, W> {
    fn poll_until(
        &self,
        registration: &mut Registration<W>,
        deadline: Deadline,
    ) -> Result<u8, Error> {
        if !registration.is_registered() {
            return Err(Error::NotRegistered);
        }
        if registration.is_wrong_mode(How::Sync) {
            return Err(Error::WrongMode);
        }
        let (kept, is_sync) = self.take_kept(registration);
        match kept {
            Kept::Nothing => unreachable!(),
            Kept::AtOnce(value, _ask, _visitor) => Ok(value),
            Kept::AtPlace(mut borrowed, ask) => {
                let answer = self.poll_kept_until(&mut borrowed.value, ask, deadline);
                self.settle(registration, borrowed, ask, is_sync, answer);
                answer
            }
        }
    }

    fn finish_until(
        &self,
        registration: &mut Registration<W>,
        deadline: Deadline,
    ) -> Result<u8, Error> {
        let answer = self.poll_until(registration, deadline);
        if answer.is_err() {
            self.cancel_registration(registration);
        }
        answer
    }
}

impl<R: Wait + Drop, W: WordForm> Form<R, W> {
    ghost use Rattle.saa_word_lock_free.specs.Forms.{TakesAt, WasFull};

    // Registers for what is asked: a visitor asks at once, and where that would have to wait a place joins the queue.
    pub(crate) fn register_at(
        &self,
        registration: &mut Registration<W>,
        ask: W::Ask,
        is_sync: bool,
    ) -> Result<bool, Full>
        requires { TakesAt W.calls self.now registration.old }
        ensures registered { IsRegistered ask is_sync registration.old registration.new result }
        ensures sure { is_busy registration.old ≡ false → W.fits ask → IfOk result (λ is_registered. is_registered ≡ true) }
        ensures full { IfErr result (λ full. WasFull W.Place self.now) }
        ensures admitted { TakesAt W.calls self.now registration.new }
    {
        if registration.is_registered() || !W::may_succeed(ask) {
            return Ok(false);
        }
        let (reply, visitor) = self.ask_at_once(ask);
        if let Some(value) = reply {
            *registration = Registration::at_once(value, ask, visitor, is_sync);
            return Ok(true);
        }
        match self.borrow() {
            Ok(borrowed) => {
                let borrowed = self.join(borrowed, ask, NONE);
                *registration = self.keep(borrowed, ask, is_sync);
                Ok(true)
            }
            Err(_no_place) => Err(Full),
        }
    }
}
