//! Futures of any form: a registration of a task, made by its first poll, and polled until it is answered.
//!
//! What a poll and a drop do to the form is the form's (`Pends`). Here the callback and the drop are added, once for every form: a form says
//! how an answer reads, by an `AnswerReader`.

ghost use Rattle.std.specs.Prelude.{◌≡◌, ◌&&◌, ℕ, not, true, false, Option, Some, IfSome, Result};
ghost use Rattle.std.specs.Borrow.{follows, sem};
ghost use Rattle.futures.specs.Poll.{IfReady, OnPending};
ghost use Rattle.futures.specs.Task.{Hears, IsArmed, Keeps};
ghost use Rattle.saa_core_waits.specs.FutureStates.{IsOutput};

use crate::waitable::Pends;
use futures::Future;
use futures::task::{Context, Poll};
use saa_core_spec::request::Full;
use std::marker::{Model, PhantomData};
use std::mem;

/// How the answers of a form read in the output of a future.
pub trait AnswerReader {
    /// What an answer reads as.
    type Output;

    /// Why a future has no such output: the form has no slot for it, or its answer says so.
    type Error;

    // What an answer reads as, or the end of a future whose registration was false; and the error where there is no slot.
    ghost read: { Option ℕ → Result Self.Output Self.Error };

    ghost full: { Self.Error };

    /// What the number of an answer reads as; `None` is the end of a future whose registration was false.
    fn read(answer: Option<u8>) -> Result<Self::Output, Self::Error>
        ensures { result ≡ read answer };

    /// The error where it would have to wait, and there is no slot for one more waiter.
    fn full() -> Self::Error
        ensures { result ≡ full };
}

/// A future of a form: it registers as async at its first poll, and is polled until it is answered.
///
/// Its output is what its answer reads as, or `Full` where it would have to wait and there is no slot for one more waiter. While the answer isn't there
/// it stays pending, and its task is woken once it is; of several tasks that polled it the last is woken. A poll after
/// the end asks to be polled again, and changes nothing. Dropping it drops what it is registered for: a waiter leaves the queue, and
/// disturbs nobody by it, and what was granted and not told yet is given back. Contracts see the form, what is pending there, and the source that its task
/// waits for; its output is one that the form says of that (`gives`).
pub struct Acquiring<'s, S: Pends, Q> {
    form: &'s S,
    pending: S::Pending,
    reader: PhantomData<Q>,
}

impl<'s, S: Pends, Q> Model for Acquiring<'s, S, Q> {
    ghost use Rattle.saa_core_waits.specs.FutureStates.{FutureState};

    ghost Value = { FutureState S S.Pending };

    ghost view = { λ future. record { form = future.form.now; asking = future.pending; source = S.source future.form.now } };

    ghost invariant = { λ future. S.admits_pending future.form.now future.pending };
}

impl<'s, S: Pends, Q: AnswerReader> Acquiring<'s, S, Q> {
    ghost use Rattle.saa_core_waits.specs.FutureStates.{with_pending};

    /// The future of what is pending at a form; for the calls of the form.
    pub fn new(form: &'s S, pending: S::Pending) -> Self
        requires { S.admits_pending form.now pending }
        ensures form { result.form ≡ form.now }
        ensures source { result.source ≡ S.source form.now }
        ensures asking { result.asking ≡ pending }
    {
        Acquiring {
            form,
            pending,
            reader: PhantomData,
        }
    }

    /// Whether it has ended: by an answer, by `Full`, or by a cancel. Then nothing of it is registered.
    pub fn has_ended(&self) -> bool
        ensures { result ≡ S.has_ended self.now.asking }
    {
        S::has_ended(&self.pending)
    }

    /// Lends what is pending, for a form whose futures can be polled without its lock; [`Self::put_pending`] gives it back.
    pub fn take_pending(&mut self) -> S::Pending
        ensures pending { result ≡ self.old.asking }
        ensures rest { self.new ≡ with_pending self.old self.new.asking }
    {
        let vacant = S::vacant(&self.pending);
        mem::replace(&mut self.pending, vacant)
    }

    /// Gives back what was pending, at a form that takes any.
    pub fn put_pending(&mut self, pending: S::Pending)
        requires { (form : S) → S.admits_pending form pending }
        ensures { self.new ≡ with_pending self.old pending }
    {
        self.pending = pending;
    }

    // One poll for a task, and whether it joined the queue by that.
    fn advance(&mut self, cx: &mut Context<'_>) -> (Poll<Result<Q::Output, Q::Error>>, bool)
        ensures output { IfReady result.0 (IsOutput Q.read Q.full (S.answers self.old.form self.old.asking) (S.refuses self.old.form)) }
        ensures same { OnPending result.0 ((answer : Option ℕ) → S.answers self.new.form self.new.asking answer → S.answers self.old.form self.old.asking answer) }
        ensures armed { OnPending result.0 (IsArmed cx.new) }
        ensures heard { OnPending result.0 (Hears cx.new self.old.source) }
        ensures kept { Keeps cx.old cx.new }
        ensures form { self.new.form ≡ self.old.form }
        ensures source { self.new.source ≡ self.old.source }
        ensures ended { IfReady result.0 (λ answer. S.has_ended self.new.asking ≡ true) }
        ensures after_the_end { S.has_ended self.old.asking ≡ true → self.new.asking ≡ self.old.asking }
        ensures pending { OnPending result.0 (S.has_ended self.new.asking ≡ S.has_ended self.old.asking) }
        ensures joined { result.1 ≡ true → (not (S.is_registered self.old.asking) && S.is_registered self.new.asking) ≡ true }
    {
        if S::has_ended(&self.pending) {
            return (cx.yield_now(), false);
        }
        match self.form.advance(&mut self.pending, cx) {
            (Poll::Ready(Ok(answer)), has_joined) => (Poll::Ready(Q::read(answer)), has_joined),
            (Poll::Ready(Err(Full)), has_joined) => (Poll::Ready(Err(Q::full())), has_joined),
            (Poll::Pending, has_joined) => (Poll::Pending, has_joined),
        }
    }
}

impl<S: Pends, Q> Drop for Acquiring<'_, S, Q> {
    fn drop(self) {
        let Acquiring {
            form,
            mut pending,
            reader: _reader,
        } = self;
        form.give_up(&mut pending);
    }
}

impl<S: Pends, Q: AnswerReader> Future for Acquiring<'_, S, Q> {
    type Output = Result<Q::Output, Q::Error>;

    ghost needs = { λ future source. source ≡ future.source };

    ghost gives = { λ future. IsOutput Q.read Q.full (S.answers future.form future.asking) (S.refuses future.form) };

    fn poll(&mut self, cx: &mut Context<'_>) -> Poll<Result<Q::Output, Q::Error>> {
        let (polled, _has_joined) = self.advance(cx);
        polled
    }
}

/// A future as [`Acquiring`], with a callback that runs once where it joins the queue, and never otherwise.
///
/// The callback runs after the join, in the poll that joined, and may use the form.
pub struct AcquiringWith<'s, S: Pends, Q, F: FnOnce() + Drop> {
    acquiring: Acquiring<'s, S, Q>,
    // Until it ran.
    begin_wait: Option<F>,
}

impl<'s, S: Pends, Q, F: FnOnce() + Drop> Model for AcquiringWith<'s, S, Q, F> {
    ghost use Rattle.saa_core_waits.specs.FutureStates.{FutureWithState};

    ghost Value = { FutureWithState S S.Pending F };

    ghost view = { λ future. record { acquiring = future.acquiring; begin_wait = future.begin_wait } };
}

impl<'s, S: Pends, Q: AnswerReader, F: FnOnce() + Drop> AcquiringWith<'s, S, Q, F> {
    ghost use Rattle.saa_core_waits.specs.FutureStates.{with_pending};

    /// A future that calls this where it joins the queue.
    pub fn new(acquiring: Acquiring<'s, S, Q>, begin_wait: F) -> Self
        ensures acquiring { result.acquiring ≡ acquiring.entry }
        ensures callback { result.begin_wait ≡ Some begin_wait }
    {
        AcquiringWith {
            acquiring,
            begin_wait: Some(begin_wait),
        }
    }

    /// Whether it has ended: by an answer, by `Full`, or by a cancel. Then nothing of it is registered.
    pub fn has_ended(&self) -> bool
        ensures { result ≡ S.has_ended self.now.acquiring.asking }
    {
        self.acquiring.has_ended()
    }

    /// As [`Acquiring::take_pending`].
    pub fn take_pending(&mut self) -> S::Pending
        ensures pending { result ≡ self.old.acquiring.asking }
        ensures rest { self.new.acquiring ≡ with_pending self.old.acquiring self.new.acquiring.asking }
        ensures callback { self.new.begin_wait ≡ self.old.begin_wait }
    {
        self.acquiring.take_pending()
    }

    /// As [`Acquiring::put_pending`]; the callback isn't called by this.
    pub fn put_pending(&mut self, pending: S::Pending)
        requires { (form : S) → S.admits_pending form pending }
        ensures pending { self.new.acquiring ≡ with_pending self.old.acquiring pending }
        ensures callback { self.new.begin_wait ≡ self.old.begin_wait }
    {
        self.acquiring.put_pending(pending);
    }
}

impl<S: Pends, Q, F: FnOnce() + Drop> Drop for AcquiringWith<'_, S, Q, F> {
    fn drop(self) {
        let AcquiringWith {
            acquiring,
            begin_wait,
        } = self;
        drop(acquiring);
        drop(begin_wait);
    }
}

impl<S: Pends, Q: AnswerReader, F: FnOnce() + Drop> Future for AcquiringWith<'_, S, Q, F> {
    type Output = Result<Q::Output, Q::Error>;

    ghost can_poll = { λ future. IfSome future.begin_wait (λ begin_wait. F.pre begin_wait) };

    ghost needs = { λ future source. source ≡ future.acquiring.source };

    ghost gives = { λ future. IsOutput Q.read Q.full (S.answers future.acquiring.form future.acquiring.asking) (S.refuses future.acquiring.form) };

    fn poll(&mut self, cx: &mut Context<'_>) -> Poll<Result<Q::Output, Q::Error>> {
        let (polled, has_joined) = self.acquiring.advance(cx);
        if has_joined {
            if let Some(begin_wait) = self.begin_wait.take() {
                begin_wait();
            }
        }
        polled
    }
}
