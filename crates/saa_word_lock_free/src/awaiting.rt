//! A place that awaits its answer: it is kept in a registration, and polled there.

ghost use Rattle.std.specs.Prelude.{◌≡◌, false, true};
ghost use Rattle.futures.specs.Poll.{IfReady, OnPending};
ghost use Rattle.futures.specs.Task.{Hears, IsArmed, Keeps};
ghost use Rattle.saa_core_spec.specs.declared.polling.How.TheVariants.{Sync};
ghost use Rattle.saa_core_spec.specs.Errors.{error_of, is_not_ready, says_not_registered, says_wrong_mode};
ghost use Rattle.saa_word_lock_free.specs.Calls.{IsAsked};
ghost use Rattle.saa_word_lock_free.specs.Forms.{IsOut, TakesAt};
ghost use Rattle.saa_word_lock_free.specs.KeptAs.{Awaits, IsKeptAt, IsPolledAt, registered_as};
ghost use Rattle.saa_word_lock_free.specs.Registered.{at_place, unregistered};

use crate::form::{BorrowedPlace, Form};
use crate::registration::{Kept, Registration};
use crate::word_form::WordForm;
use futures::task::{Context, Poll};
use saa_core_spec::polling::{Error, How};
use saa_core_waits::Deadline;
use std::sync::Wait;
use std::time::Clock;

impl<R: Wait + Drop, W: WordForm> Form<R, W> {
    // What is kept of a registration of this form, and its mode; it is registered for nothing then.
    pub(crate) fn take_kept(
        &self,
        registration: &mut Registration<W>,
    ) -> (Kept<W::Ask, W::Place, W>, bool)
        requires { TakesAt W.calls self.now registration.old }
        ensures taken { registration.old ≡ registered_as result.1 result.0 }
        ensures kept { IsKeptAt (λ ask. IsAsked ((W.calls self.now.word).tries ask)) (IsOut W.table W.home self.now) (Awaits W.calls W.table W.home W.rests self.now.word) result.0 }
        ensures left { registration.new ≡ unregistered }
    {
        registration.take()
    }

    // The registration of a place that awaits its answer.
    pub(crate) fn keep(
        &self,
        borrowed: BorrowedPlace<W::Place, W>,
        ask: W::Ask,
        is_sync: bool,
    ) -> Registration<W>
        requires out { IsOut W.table W.home self.now borrowed }
        requires awaits { Awaits W.calls W.table W.home W.rests self.now.word ask borrowed.value }
        ensures { result ≡ at_place self.now.word self.now.pool ask is_sync }
    {
        Registration::at_place(borrowed, ask, is_sync)
    }

    // Puts a place back where it was kept, if its answer isn't there yet, and else into the pool.
    pub(crate) fn settle(
        &self,
        registration: &mut Registration<W>,
        borrowed: BorrowedPlace<W::Place, W>,
        ask: W::Ask,
        is_sync: bool,
        answer: Result<u8, Error>,
    )
        requires out { IsOut W.table W.home self.now borrowed }
        requires idle { registration.old ≡ unregistered }
        requires rests { is_not_ready (error_of answer) ≡ false → W.rests borrowed.value }
        requires awaits { is_not_ready (error_of answer) ≡ true → Awaits W.calls W.table W.home W.rests self.now.word ask borrowed.value }
        ensures kept { is_not_ready (error_of answer) ≡ true → registration.new ≡ at_place self.now.word self.now.pool ask is_sync }
        ensures given { is_not_ready (error_of answer) ≡ false → registration.new ≡ unregistered }
    {
        if matches!(answer, Err(Error::NotReady)) {
            *registration = self.keep(borrowed, ask, is_sync);
        } else {
            self.give(borrowed);
        }
    }

    // Polls a place that awaits its answer: as sync it waits for that.
    pub(crate) fn poll_kept(&self, place: &mut W::Place, ask: W::Ask, how: How) -> Result<u8, Error>
        requires { Awaits W.calls W.table W.home W.rests self.now.word ask place.old }
        ensures polled { IsPolledAt W.calls (Awaits W.calls W.table W.home W.rests self.now.word) W.rests self.now.word ask result place.new }
        ensures waited { how ≡ Sync → is_not_ready (error_of result) ≡ false }
        ensures known { says_not_registered (error_of result) ≡ false }
        ensures right { says_wrong_mode (error_of result) ≡ false }
        ensures home { W.home place.new ≡ W.home place.old }
    {
        match how {
            How::Sync => self.word().poll(self.rt(), place),
            How::Async | How::Try => self.word().try_poll(place),
        }
    }

    // Polls one for a task, which is woken once the answer is there.
    pub(crate) fn poll_kept_task(
        &self,
        place: &mut W::Place,
        ask: W::Ask,
        cx: &mut Context<'_>,
    ) -> Poll<Result<u8, Error>>
        requires { Awaits W.calls W.table W.home W.rests self.now.word ask place.old }
        ensures ready { IfReady result (λ answer. IsPolledAt W.calls (Awaits W.calls W.table W.home W.rests self.now.word) W.rests self.now.word ask answer place.new) }
        ensures waited { IfReady result (λ answer. is_not_ready (error_of answer) ≡ false) }
        ensures known { IfReady result (λ answer. says_not_registered (error_of answer) ≡ false) }
        ensures right { IfReady result (λ answer. says_wrong_mode (error_of answer) ≡ false) }
        ensures pending { OnPending result (Awaits W.calls W.table W.home W.rests self.now.word ask place.new) }
        ensures home { W.home place.new ≡ W.home place.old }
        ensures armed { OnPending result (IsArmed cx.new) }
        ensures heard { OnPending result (Hears cx.new (W.source self.now.word)) }
        ensures kept { Keeps cx.old cx.new }
    {
        self.word().poll_task(place, cx)
    }
}

impl<R: Wait + Clock + Drop, W: WordForm> Form<R, W> {
    // Polls one, and waits for its answer until the deadline.
    pub(crate) fn poll_kept_until(
        &self,
        place: &mut W::Place,
        ask: W::Ask,
        deadline: Deadline,
    ) -> Result<u8, Error>
        requires { Awaits W.calls W.table W.home W.rests self.now.word ask place.old }
        ensures polled { IsPolledAt W.calls (Awaits W.calls W.table W.home W.rests self.now.word) W.rests self.now.word ask result place.new }
        ensures known { says_not_registered (error_of result) ≡ false }
        ensures right { says_wrong_mode (error_of result) ≡ false }
        ensures home { W.home place.new ≡ W.home place.old }
    {
        self.word().poll_until(self.rt(), place, deadline)
    }
}
