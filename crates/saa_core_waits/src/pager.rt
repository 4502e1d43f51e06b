//! Pagers: waits that are kept outside a call.
//!
//! A pager has a registration and the primitive that it was made at, and is the way to poll it as sync, as async, or at once. How the numbers of
//! answers read is the primitive's.

ghost use Rattle.std.specs.Prelude.{◌≡◌, true, false, Some, IfSome, IsNone, is_some};
ghost use Rattle.futures.specs.Poll.{IfReady, OnPending};
ghost use Rattle.futures.specs.Task.{IsArmed, Keeps};
ghost use Rattle.saa_core_spec.specs.declared.polling.How.TheVariants.{Async, Sync, Try};
ghost use Rattle.saa_core_spec.specs.Errors.{is_not_ready};
ghost use Rattle.saa_core_waits.specs.Waits.{HasPolled, ReadsAs};

use crate::deadline::Deadline;
use crate::sync_result::{SyncResult, Timed};
use futures::Future;
use futures::task::{Context, Poll};
use saa_core_spec::polling::{Error, How};
use std::marker::Model;
use std::time::{Duration, Instant};

/// A place in a primitive's queue that outlives the call that took it: registered by the primitive's `register_pager`,
/// then polled.
///
/// It borrows the primitive. It can't be copied, and dropping it drops what it is registered for, as
/// [`Pager::cancel`] does: a waiter leaves the queue, and what was granted and not consumed is given back. Contracts
/// see it as its registration.
pub struct Pager<'s, S: SyncResult<T>, T: Drop> {
    registration: T,
    // The primitive, while it is registered.
    at: Option<&'s S>,
}

impl<'s, S: SyncResult<T>, T: Drop> Model for Pager<'s, S, T> {
    ghost use Rattle.std.specs.Prelude.{◌≡◌, is_some, IfSome};

    ghost Value = { T };

    ghost view = { λ pager. pager.registration };

    ghost invariant = { λ pager. (is_some pager.at ≡ S.is_busy pager.registration) × IfSome pager.at (λ at. S.admits at.now pager.registration) };
}

impl<'s, S: SyncResult<T>, T: Drop> Pager<'s, S, T> {
    /// A pager that isn't registered. Takes no lock and no memory, and never blocks.
    pub fn new() -> Pager<'s, S, T>
        ensures { result ≡ S.idle }
    {
        Pager {
            registration: S::unregistered(),
            at: None,
        }
    }

    /// Whether it is registered: it waits, or its answer isn't consumed yet. Takes no lock and no memory, and waits
    /// for nobody.
    pub fn is_registered(&mut self) -> bool
        ensures answer { result ≡ S.is_busy self.old }
        ensures unchanged { self.new ≡ self.old }
    {
        S::is_registered_as(&self.registration)
    }

    /// Takes the answer if it is there, whichever way the pager was registered; never sleeps for it.
    ///
    /// The primitive's `NotRegistered` where the pager isn't registered, and its `NotReady` where the answer isn't
    /// there yet; these leave the pager as it was. Any other answer leaves it unregistered. It is never in the wrong
    /// mode. May wait for the lock.
    pub fn try_poll(&mut self) -> S::Result
        ensures polled { HasPolled S.is_busy S.is_wrong_mode S.at_once Try self.old self.new (S.fault result) }
        ensures answer { ReadsAs (S.at_once self.old) (S.answers self.old) S.reading S.fault result }
    {
        self.poll(How::Try)
    }

    /// Waits for the answer of a pager that was registered as sync.
    ///
    /// The primitive's `NotRegistered` where the pager isn't registered, and its `WrongMode` where it was registered as
    /// async, even with an answer there; these come at once, and leave the pager as it was. Any other answer leaves it
    /// unregistered. A pager that was registered as sync is waited for to the end: its wait is never ended by
    /// `WrongMode`, nor by `NotReady`.
    pub fn poll_sync(&mut self) -> S::Result
        ensures polled { HasPolled S.is_busy S.is_wrong_mode S.at_once Sync self.old self.new (S.fault result) }
        ensures answer { ReadsAs (S.at_once self.old) (S.answers self.old) S.reading S.fault result }
        ensures waited { is_not_ready (S.fault result) ≡ false }
    {
        self.poll(How::Sync)
    }

    /// The future of the answer of a pager that was registered as async; see [`PollPager`].
    ///
    /// It borrows the pager, which stays as it is until the future is polled.
    pub fn poll_async(&mut self) -> PollPager<'_, 's, S, T>
        ensures pager { result.pager ≡ self.entry }
        ensures fresh { result.has_ended ≡ false }
    {
        PollPager {
            pager: self,
            has_ended: false,
        }
    }

    /// Drops what it is registered for, and wakes each waiter that this answers; it is unregistered afterwards and can be used again.
    ///
    /// Does nothing where it isn't registered. May wait for the lock. A waiter's drop costs
    /// O(how many wait) at a gate and a barrier.
    pub fn cancel(&mut self)
        ensures cancelled { self.new ≡ S.idle }
        ensures withdrawn { S.is_busy self.old ≡ true → S.withdraws self.old }
    {
        if let Some(primitive) = self.at {
            primitive.cancel(&mut self.registration);
            self.at = None;
        }
    }

    /// Its registration.
    pub fn registration(&self) -> &T
        ensures { result.now ≡ self.now }
    {
        &self.registration
    }

    /// Takes over a registration that was made at this primitive, or an idle one; for the `register_pager` of a form.
    pub fn hold(&mut self, registration: T, primitive: &'s S)
        requires free { S.is_busy self.old ≡ false }
        requires admitted { S.admits primitive.now registration }
        ensures { self.new ≡ registration }
    {
        self.at = if S::is_registered_as(&registration) {
            Some(primitive)
        } else {
            None
        };
        self.registration = registration;
    }

    /// One poll, in this way; an unregistered pager is answered without its primitive. Its other calls choose the way by their names.
    pub fn poll(&mut self, how: How) -> S::Result
        ensures polled { HasPolled S.is_busy S.is_wrong_mode S.at_once how self.old self.new (S.fault result) }
        ensures answer { ReadsAs (S.at_once self.old) (S.answers self.old) S.reading S.fault result }
        ensures waited { how ≡ Sync → is_not_ready (S.fault result) ≡ false }
    {
        let Some(primitive) = self.at else {
            return S::read(Err(Error::NotRegistered));
        };
        let answer = primitive.take(&mut self.registration, how);
        if !S::is_registered_as(&self.registration) {
            self.at = None;
        }
        answer
    }

    // One poll for a task; an unregistered pager is answered without its primitive.
    fn poll_task(&mut self, cx: &mut Context<'_>) -> Poll<S::Result>
        ensures ready { IfReady result (λ answer. HasPolled S.is_busy S.is_wrong_mode S.at_once Async self.old self.new (S.fault answer)) }
        ensures answer { IfReady result (λ answer. ReadsAs (S.at_once self.old) (S.answers self.old) S.reading S.fault answer) }
        ensures waited { IfReady result (λ answer. is_not_ready (S.fault answer) ≡ false) }
        ensures pending { OnPending result (self.new ≡ self.old) }
        ensures armed { OnPending result (IsArmed cx.new) }
        ensures kept { Keeps cx.old cx.new }
    {
        let Some(primitive) = self.at else {
            return Poll::Ready(S::read(Err(Error::NotRegistered)));
        };
        let polled = primitive.poll_task(&mut self.registration, cx);
        if !S::is_registered_as(&self.registration) {
            self.at = None;
        }
        polled
    }
}

impl<S: Timed<T>, T: Drop> Pager<'_, S, T> {
    /// Waits for the answer as [`Self::poll_sync`] does, at most so long.
    ///
    /// `None`: time is up; the pager stays registered, and may be polled again.
    pub fn poll_sync_for(&mut self, duration: Duration) -> Option<S::Result>
        ensures polled { IfSome result (λ answer. HasPolled S.is_busy S.is_wrong_mode S.at_once Sync self.old self.new (S.fault answer)) }
        ensures answer { IfSome result (λ answer. ReadsAs (S.at_once self.old) (S.answers self.old) S.reading S.fault answer) }
        ensures waited { IfSome result (λ answer. is_not_ready (S.fault answer) ≡ false) }
        ensures late { IsNone result → self.new ≡ self.old }
    {
        let Some(primitive) = self.at else {
            return Some(S::read(Err(Error::NotRegistered)));
        };
        self.poll_by(primitive.after(duration))
    }

    /// Waits for the answer as [`Self::poll_sync_for`] does, until this instant.
    pub fn poll_sync_until(&mut self, deadline: Instant) -> Option<S::Result>
        ensures polled { IfSome result (λ answer. HasPolled S.is_busy S.is_wrong_mode S.at_once Sync self.old self.new (S.fault answer)) }
        ensures answer { IfSome result (λ answer. ReadsAs (S.at_once self.old) (S.answers self.old) S.reading S.fault answer) }
        ensures waited { IfSome result (λ answer. is_not_ready (S.fault answer) ≡ false) }
        ensures late { IsNone result → self.new ≡ self.old }
    {
        self.poll_by(Deadline::At(deadline))
    }

    // A poll as sync, which ends in time; an unregistered pager is answered without its primitive.
    fn poll_by(&mut self, deadline: Deadline) -> Option<S::Result>
        ensures polled { IfSome result (λ answer. HasPolled S.is_busy S.is_wrong_mode S.at_once Sync self.old self.new (S.fault answer)) }
        ensures answer { IfSome result (λ answer. ReadsAs (S.at_once self.old) (S.answers self.old) S.reading S.fault answer) }
        ensures waited { IfSome result (λ answer. is_not_ready (S.fault answer) ≡ false) }
        ensures late { IsNone result → self.new ≡ self.old }
    {
        let Some(primitive) = self.at else {
            return Some(S::read(Err(Error::NotRegistered)));
        };
        let answer = primitive.take_until(&mut self.registration, deadline);
        if !S::is_registered_as(&self.registration) {
            self.at = None;
        }
        answer
    }
}

impl<S: SyncResult<T>, T: Drop> Drop for Pager<'_, S, T> {
    fn drop(self) {
        let Pager {
            mut registration,
            at,
        } = self;
        if let Some(primitive) = at {
            primitive.cancel(&mut registration);
        }
    }
}

/// The future of a pager's answer: it polls as async for the task that polls it, and ends with the first answer.
///
/// `NotRegistered` where the pager isn't registered and `WrongMode` where it was registered as sync come at once, and
/// leave the pager as it was. While the answer isn't there the future stays pending, and its task is woken once it is; of
/// several tasks that polled it the last is woken. A poll after the end asks to be polled again, and changes nothing.
/// Dropping it leaves the pager registered.
#[derive(Drop)]
pub struct PollPager<'p, 's, S: SyncResult<T>, T: Drop> {
    pager: &'p mut Pager<'s, S, T>,
    has_ended: bool,
}

impl<'p, 's, S: SyncResult<T>, T: Drop> Future for PollPager<'p, 's, S, T> {
    type Output = S::Result;

    // What a poll as async is told, which isn't `NotReady`.
    ghost gives = { λ future answer. ReadsAs (S.at_once future.pager.now) (S.answers future.pager.now) S.reading S.fault answer
        × (is_not_ready (S.fault answer) ≡ false) × ((left : T) × HasPolled S.is_busy S.is_wrong_mode S.at_once Async future.pager.now left (S.fault answer)) };

    fn poll(&mut self, cx: &mut Context<'_>) -> Poll<S::Result> {
        if self.has_ended {
            return cx.yield_now();
        }
        let polled = self.pager.poll_task(cx);
        self.has_ended = matches!(polled, Poll::Ready(_));
        polled
    }
}
