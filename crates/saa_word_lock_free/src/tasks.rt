//! What a form offers to futures: a first poll asks as a visitor, and where it would have to wait registers a place, beside which the task's waker is kept.
//!
//! A future's answer has a receipt: a witness of the history that its visitor or its place had seen.

ghost use Rattle.std.specs.Prelude.{◌≡◌, ◌&&◌, false, true, IfErr, IfOk, IfSome, IsNone, None, is_some, not};
ghost use Rattle.futures.specs.Poll.{IfReady, OnPending};
ghost use Rattle.futures.specs.Task.{Hears, IsArmed, Keeps};
ghost use Rattle.saa_word_lock_free.specs.Forms.{IsOut, WasFull};
ghost use Rattle.saa_word_lock_free.specs.Pendings.{IsAnsweredLater, IsAwaited, MayAwait};

use crate::form::{BorrowedPlace, Form};
use crate::registration::{Kept, Registration};
use crate::word_form::WordForm;
use futures::task::{Context, Poll};
use saa_core_spec::polling::{Error, How};
use saa_core_spec::request::Full;
use saa_core_waits::spin_policy::NONE;
use saa_core_waits::{Pends, Waitable};
use saa_word_threads::receipt::Receipt;
use std::sync::Wait;

/// What is pending for a future: what it asks, its place once it has joined, and whether it has ended.
#[derive(Drop)]
pub struct Pending<W: WordForm> {
    pub(crate) ask: W::Ask,
    // Its place, until its answer is taken.
    pub(crate) borrowed: Option<BorrowedPlace<W::Place, W>>,
    pub(crate) has_ended: bool,
}

impl<W: WordForm> Pending<W> {
    /// What is pending for a future that wasn't polled yet.
    pub(crate) fn new(ask: W::Ask) -> Self
        ensures ask { result.ask ≡ ask }
        ensures idle { result.borrowed ≡ None }
        ensures fresh { result.has_ended ≡ false }
    {
        Pending {
            ask,
            borrowed: None,
            has_ended: false,
        }
    }
}

/// What a poll of a future tells: its answer with a receipt, `None` where its registration is false, and `Full` where no place is in.
pub(crate) type Polled = Poll<Result<Option<(u8, Receipt)>, Full>>;

impl<R: Wait + Drop, W: WordForm> Form<R, W> {
    // Polls what is pending for a task. Says too whether it joined the queue by that.
    pub(crate) fn advance_witnessed(
        &self,
        pending: &mut Pending<W>,
        cx: &mut Context<'_>,
    ) -> (Polled, bool)
        requires admitted { MayAwait (IsOut W.table W.home self.now) W.rests (IsAwaited (W.calls self.now.word) pending.old.ask) pending.old.borrowed }
        requires unended { pending.old.has_ended ≡ false }
        ensures answered { IfReady result.0 (λ answer. IfOk answer (λ reply. IfSome reply (λ with_receipt. IsAnsweredLater (W.calls self.now.word) pending.old.ask with_receipt.0 with_receipt.1))) }
        ensures refused { IfReady result.0 (λ answer. IfOk answer (λ reply. IsNone reply → W.fits pending.old.ask → ⊥)) }
        ensures full { IfReady result.0 (λ answer. IfErr answer (λ full. WasFull W.Place self.now)) }
        ensures armed { OnPending result.0 (IsArmed cx.new) }
        ensures heard { OnPending result.0 (Hears cx.new (W.source self.now.word)) }
        ensures kept { Keeps cx.old cx.new }
        ensures ended { IfReady result.0 (λ answer. pending.new.has_ended ≡ true) }
        ensures pending { OnPending result.0 (pending.new.has_ended ≡ false) }
        ensures joined { result.1 ≡ (not (is_some pending.old.borrowed) && is_some pending.new.borrowed) }
        ensures asked { pending.new.ask ≡ pending.old.ask }
        ensures admitted { MayAwait (IsOut W.table W.home self.now) W.rests (IsAwaited (W.calls self.now.word) pending.new.ask) pending.new.borrowed }
    {
        match pending.borrowed.take() {
            Some(borrowed) => (self.poll_place(pending, borrowed, cx), false),
            None => self.begin(pending, cx),
        }
    }

    // The first poll: asks by a visitor, and where that would have to wait registers a place, and polls it.
    fn begin(&self, pending: &mut Pending<W>, cx: &mut Context<'_>) -> (Polled, bool)
        requires idle { pending.old.borrowed ≡ None }
        requires unended { pending.old.has_ended ≡ false }
        ensures answered { IfReady result.0 (λ answer. IfOk answer (λ reply. IfSome reply (λ with_receipt. IsAnsweredLater (W.calls self.now.word) pending.old.ask with_receipt.0 with_receipt.1))) }
        ensures refused { IfReady result.0 (λ answer. IfOk answer (λ reply. IsNone reply → W.fits pending.old.ask → ⊥)) }
        ensures full { IfReady result.0 (λ answer. IfErr answer (λ full. WasFull W.Place self.now)) }
        ensures armed { OnPending result.0 (IsArmed cx.new) }
        ensures heard { OnPending result.0 (Hears cx.new (W.source self.now.word)) }
        ensures kept { Keeps cx.old cx.new }
        ensures ended { IfReady result.0 (λ answer. pending.new.has_ended ≡ true) }
        ensures pending { OnPending result.0 (pending.new.has_ended ≡ false) }
        ensures joined { result.1 ≡ is_some pending.new.borrowed }
        ensures asked { pending.new.ask ≡ pending.old.ask }
        ensures admitted { MayAwait (IsOut W.table W.home self.now) W.rests (IsAwaited (W.calls self.now.word) pending.new.ask) pending.new.borrowed }
    {
        let ask = pending.ask;
        if !W::may_succeed(ask) {
            pending.has_ended = true;
            return (Poll::Ready(Ok(None)), false);
        }
        let (reply, mut visitor) = self.ask_at_once(ask);
        if let Some(value) = reply {
            let receipt = self.word().receipt_by(&mut visitor);
            pending.has_ended = true;
            return (Poll::Ready(Ok(Some((value, receipt)))), false);
        }
        let borrowed = match self.borrow() {
            Ok(borrowed) => borrowed,
            Err(_no_place) => {
                pending.has_ended = true;
                return (Poll::Ready(Err(Full)), false);
            }
        };
        let borrowed = self.join(borrowed, ask, NONE);
        let polled = self.poll_place(pending, borrowed, cx);
        let has_joined = polled.is_pending();
        (polled, has_joined)
    }

    // Polls a place that awaits its answer: keeps it where that isn't there yet, and else gives it back to the pool.
    fn poll_place(
        &self,
        pending: &mut Pending<W>,
        borrowed: BorrowedPlace<W::Place, W>,
        cx: &mut Context<'_>,
    ) -> Polled
        requires idle { pending.old.borrowed ≡ None }
        requires unended { pending.old.has_ended ≡ false }
        requires out { IsOut W.table W.home self.now borrowed }
        requires waits { W.rests borrowed.value → ⊥ }
        requires awaited { IsAwaited (W.calls self.now.word) pending.old.ask borrowed.value }
        ensures answered { IfReady result (λ answer. IfOk answer (λ reply. IfSome reply (λ with_receipt. IsAnsweredLater (W.calls self.now.word) pending.old.ask with_receipt.0 with_receipt.1))) }
        ensures refused { IfReady result (λ answer. IfOk answer (λ reply. IsNone reply → W.fits pending.old.ask → ⊥)) }
        ensures full { IfReady result (λ answer. IfErr answer (λ full. WasFull W.Place self.now)) }
        ensures armed { OnPending result (IsArmed cx.new) }
        ensures heard { OnPending result (Hears cx.new (W.source self.now.word)) }
        ensures kept { Keeps cx.old cx.new }
        ensures ended { IfReady result (λ answer. (pending.new.has_ended ≡ true) × (pending.new.borrowed ≡ None)) }
        ensures pending { OnPending result ((pending.new.has_ended ≡ false) × (is_some pending.new.borrowed ≡ true)) }
        ensures asked { pending.new.ask ≡ pending.old.ask }
        ensures admitted { MayAwait (IsOut W.table W.home self.now) W.rests (IsAwaited (W.calls self.now.word) pending.new.ask) pending.new.borrowed }
    {
        let mut borrowed = borrowed;
        match self.word().poll_task(&mut borrowed.value, cx) {
            Poll::Ready(answer) => {
                let receipt = self.word().receipt(&mut borrowed.value);
                self.give(borrowed);
                pending.has_ended = true;
                match answer {
                    Ok(value) => Poll::Ready(Ok(Some((value, receipt)))),
                    Err(_) => unreachable!(),
                }
            }
            Poll::Pending => {
                pending.borrowed = Some(borrowed);
                Poll::Pending
            }
        }
    }
}

impl<R: Wait + Drop, W: WordForm> Pends for Form<R, W> {
    ghost use Rattle.std.specs.Prelude.{is_some};
    ghost use Rattle.saa_word_lock_free.specs.Forms.{IsOut, WasFull, source_of};
    ghost use Rattle.saa_word_lock_free.specs.Pendings.{IsAwaited, FutureAnswers, IsWithdrawn, MayAwait};

    type Pending = Pending<W>;

    ghost admits_pending = { λ form pending. MayAwait (IsOut W.table W.home form) W.rests (IsAwaited (W.calls form.word) pending.ask) pending.borrowed };

    ghost source = { source_of W.source };

    ghost asked = { λ pending. W.request pending.ask };

    ghost is_registered = { λ pending. is_some pending.borrowed };

    ghost has_ended = { λ pending. pending.has_ended };

    ghost answers = { λ form pending. FutureAnswers W.fits (W.calls form.word) pending.ask };

    ghost withdraws = { λ form pending. IsWithdrawn (W.calls form.word) pending.borrowed };

    ghost refuses = { WasFull W.Place };

    fn has_ended(pending: &Pending<W>) -> bool {
        pending.has_ended
    }

    fn vacant(pending: &Pending<W>) -> Pending<W> {
        Pending::new(pending.ask)
    }

    fn advance(
        &self,
        pending: &mut Pending<W>,
        cx: &mut Context<'_>,
    ) -> (Poll<Result<Option<u8>, Full>>, bool) {
        let (reply, has_joined) = self.advance_witnessed(pending, cx);
        let polled = match reply {
            Poll::Ready(Ok(Some((value, _receipt)))) => Poll::Ready(Ok(Some(value))),
            Poll::Ready(Ok(None)) => Poll::Ready(Ok(None)),
            Poll::Ready(Err(full)) => Poll::Ready(Err(full)),
            Poll::Pending => Poll::Pending,
        };
        (polled, has_joined)
    }

    fn poll_async(
        &self,
        registration: &mut Registration<W>,
        cx: &mut Context<'_>,
    ) -> Poll<Result<u8, Error>> {
        if !registration.is_registered() {
            return Poll::Ready(Err(Error::NotRegistered));
        }
        if registration.is_wrong_mode(How::Async) {
            return Poll::Ready(Err(Error::WrongMode));
        }
        let (kept, is_sync) = self.take_kept(registration);
        match kept {
            Kept::Nothing => unreachable!(),
            Kept::AtOnce(value, _ask, _visitor) => Poll::Ready(Ok(value)),
            Kept::AtPlace(mut borrowed, ask) => {
                match self.poll_kept_task(&mut borrowed.value, ask, cx) {
                    Poll::Ready(answer) => {
                        self.give(borrowed);
                        Poll::Ready(answer)
                    }
                    Poll::Pending => {
                        *registration = self.keep(borrowed, ask, is_sync);
                        Poll::Pending
                    }
                }
            }
        }
    }

    fn give_up(&self, pending: &mut Pending<W>) {
        if let Some(borrowed) = pending.borrowed.take() {
            let mut borrowed = borrowed;
            self.word().cancel(self.rt(), &mut borrowed.value);
            self.give(borrowed);
        }
    }
}
