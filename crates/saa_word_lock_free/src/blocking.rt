//! Calls that block, and timed ones: a visitor asks at once, and where that would have to wait a place of the pool does.
//!
//! What such a call answers has a receipt: a witness of the history that its visitor or its place had seen. Nothing stays registered, and the place is
//! back in the pool, whatever they answer.

ghost use Rattle.std.specs.Prelude.{◌≡◌, false, true, IfErr, IfOk, Ok};
ghost use Rattle.saa_word_lock_free.specs.Calls.{HasEndedAt, IsAcquired, IsAnswered, IsAsked, AcquiresAndPolls, number_at_once};
ghost use Rattle.saa_word_lock_free.specs.Forms.{IsOut, IsRefusedBy, WasFull};
ghost use Rattle.saa_word_lock_free.specs.Places.{table_of};

use crate::form::{BorrowedPlace, Form, NoPlace};
use crate::waiting::{GRANTED, POISONED};
use crate::word_form::WordForm;
use saa_core_spec::polling::Error;
use saa_core_spec::request::Full;
use saa_core_waits::Deadline;
use saa_core_waits::spin_policy::{NONE, SpinPolicy};
use saa_word_threads::lock::TryLockError;
use saa_word_threads::receipt::Receipt;
use saa_word_threads::visitor::Visitor;
use std::sync::Wait;
use std::time::Clock;

impl<R: Wait + Drop, W: WordForm> Form<R, W> {
    // Asks once by a visitor: the number of its answer, or nothing where it would have to wait.
    #[inline(always)]
    pub(crate) fn ask_at_once(&self, ask: W::Ask) -> (Option<u8>, Visitor)
        ensures asked { IsAsked ((W.calls self.now.word).tries ask) result.0 result.1 }
        ensures ours { table_of result.1 ≡ W.table self.now.word }
    {
        let (reply, visitor) = self.word().try_once(self.rt(), ask);
        (at_once(reply), visitor)
    }

    // Asks, waits for the answer where it isn't there at once, and takes it.
    #[inline(always)]
    pub(crate) fn acquire(&self, ask: W::Ask) -> Result<u8, Full>
        requires { W.fits ask }
        ensures answered { IfOk result (λ value. IsAnswered (W.calls self.now.word) ask (Ok value)) }
        ensures full { IfErr result (λ full. WasFull W.Place self.now) }
    {
        let (reply, _visitor) = self.ask_at_once(ask);
        if let Some(value) = reply {
            return Ok(value);
        }
        match self.wait_at_place(ask) {
            Ok((value, _receipt)) => Ok(value),
            Err(_no_place) => Err(Full),
        }
    }

    // As `acquire`, with a receipt.
    pub(crate) fn acquire_witnessed(
        &self,
        ask: W::Ask,
    ) -> Result<(u8, Receipt), NoPlace<W::Place, W>>
        requires { W.fits ask }
        ensures acquired { IfOk result (λ reply. IsAcquired (W.calls self.now.word) ask (Ok reply.0) reply.1) }
        ensures refused { IfErr result (λ no_place. IsRefusedBy self.now no_place) }
    {
        let (reply, mut visitor) = self.ask_at_once(ask);
        if let Some(value) = reply {
            let receipt = self.word().receipt_by(&mut visitor);
            return Ok((value, receipt));
        }
        self.wait_at_place(ask)
    }

    // As `acquire`, and calls `begin_wait` once its place has joined the queue.
    pub(crate) fn acquire_with<F: FnOnce() + Drop>(
        &self,
        ask: W::Ask,
        begin_wait: F,
    ) -> Result<u8, Full>
        requires fits { W.fits ask }
        requires callable { F.pre begin_wait }
        ensures answered { IfOk result (λ value. IsAnswered (W.calls self.now.word) ask (Ok value)) }
        ensures full { IfErr result (λ full. WasFull W.Place self.now) }
    {
        let (reply, _visitor) = self.ask_at_once(ask);
        if let Some(value) = reply {
            return Ok(value);
        }
        let borrowed = match self.borrow() {
            Ok(borrowed) => borrowed,
            Err(_no_place) => return Err(Full),
        };
        let borrowed = self.join(borrowed, ask, self.spin_policy());
        if W::has_joined(&borrowed.value) {
            begin_wait();
        }
        let (value, _receipt) = self.await_answer(borrowed);
        Ok(value)
    }

    // Registers a place of the pool, which looks first, waits for the answer and takes it.
    #[inline(never)]
    fn wait_at_place(&self, ask: W::Ask) -> Result<(u8, Receipt), NoPlace<W::Place, W>>
        requires { W.fits ask }
        ensures waited { IfOk result (λ reply. AcquiresAndPolls (W.calls self.now.word) ask (Ok reply.0) reply.1) }
        ensures refused { IfErr result (λ no_place. IsRefusedBy self.now no_place) }
    {
        let borrowed = self.borrow()?;
        let borrowed = self.join(borrowed, ask, self.spin_policy());
        Ok(self.await_answer(borrowed))
    }

    // Registers a place that is out of the pool, which looks first as often as the spin policy says.
    pub(crate) fn join(
        &self,
        borrowed: BorrowedPlace<W::Place, W>,
        ask: W::Ask,
        spin_policy: SpinPolicy,
    ) -> BorrowedPlace<W::Place, W>
        requires out { IsOut W.table W.home self.now borrowed }
        requires rests { W.rests borrowed.value }
        requires fits { W.fits ask }
        ensures out { IsOut W.table W.home self.now result }
        ensures waits { W.rests result.value → ⊥ }
        ensures registered { (W.calls self.now.word).registers ask borrowed.value true result.value }
    {
        let mut borrowed = borrowed;
        self.word()
            .register(self.rt(), &mut borrowed.value, ask, spin_policy);
        borrowed
    }

    // Waits for the answer of a place that is registered, takes it, and gives the place back to the pool.
    fn await_answer(&self, borrowed: BorrowedPlace<W::Place, W>) -> (u8, Receipt)
        requires out { IsOut W.table W.home self.now borrowed }
        requires waits { W.rests borrowed.value → ⊥ }
        ensures { (after : W.Place) × (W.calls self.now.word).polls borrowed.value (Ok result.0) after × (W.calls self.now.word).receives after result.1 }
    {
        let mut borrowed = borrowed;
        let answer = self.word().poll(self.rt(), &mut borrowed.value);
        let receipt = self.word().receipt(&mut borrowed.value);
        self.give(borrowed);
        match answer {
            Ok(value) => (value, receipt),
            Err(_) => unreachable!(),
        }
    }
}

impl<R: Wait + Clock + Drop, W: WordForm> Form<R, W> {
    // As `acquire_witnessed`, and waits until the deadline; its place joins the queue without a look. `NotReady`: time is up.
    pub(crate) fn acquire_until(
        &self,
        ask: W::Ask,
        deadline: Deadline,
    ) -> Result<(Result<u8, Error>, Receipt), NoPlace<W::Place, W>>
        requires { W.fits ask }
        ensures acquired { IfOk result (λ reply. IsAcquired (W.calls self.now.word) ask reply.0 reply.1) }
        ensures refused { IfErr result (λ no_place. IsRefusedBy self.now no_place) }
    {
        let (reply, mut visitor) = self.ask_at_once(ask);
        if let Some(value) = reply {
            let receipt = self.word().receipt_by(&mut visitor);
            return Ok((Ok(value), receipt));
        }
        let borrowed = self.borrow()?;
        let borrowed = self.join(borrowed, ask, NONE);
        Ok(self.await_until(borrowed, deadline))
    }

    // As `acquire_until`, with no receipt.
    pub(crate) fn acquire_by(
        &self,
        ask: W::Ask,
        deadline: Deadline,
    ) -> Result<Result<u8, Error>, Full>
        requires { W.fits ask }
        ensures answered { IfOk result (λ answer. IsAnswered (W.calls self.now.word) ask answer) }
        ensures full { IfErr result (λ full. WasFull W.Place self.now) }
    {
        match self.acquire_until(ask, deadline) {
            Ok((answer, _receipt)) => Ok(answer),
            Err(_no_place) => Err(Full),
        }
    }

    // Waits until the deadline for the answer of a place that is registered, takes it or cancels, and gives the place back to the pool.
    fn await_until(
        &self,
        borrowed: BorrowedPlace<W::Place, W>,
        deadline: Deadline,
    ) -> (Result<u8, Error>, Receipt)
        requires { IsOut W.table W.home self.now borrowed }
        ensures { HasEndedAt (W.calls self.now.word) borrowed.value result.0 result.1 }
    {
        let mut borrowed = borrowed;
        let answer = self
            .word()
            .poll_until(self.rt(), &mut borrowed.value, deadline);
        if answer.is_err() {
            self.word().cancel(self.rt(), &mut borrowed.value);
        }
        let receipt = self.word().receipt(&mut borrowed.value);
        self.give(borrowed);
        (answer, receipt)
    }
}

// The number of what a try told; nothing where it would have to wait.
#[inline(always)]
fn at_once(reply: Result<(), TryLockError>) -> Option<u8>
    ensures { result ≡ number_at_once reply }
{
    match reply {
        Ok(()) => Some(GRANTED),
        Err(TryLockError::Poisoned) => Some(POISONED),
        Err(TryLockError::WouldBlock) => None,
    }
}
