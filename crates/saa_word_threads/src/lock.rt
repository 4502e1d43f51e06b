//! A lock-free lock: its owners, and poison, in one atomic word, for a fixed set of places that may wait, and callers with no place (`lock_visits`).
//!
//! Every call is one call of a place of the form (`call`), and is held to `specs/Locks.antt`, which says the same of a lock's places as
//! `specs/Public.antt` of a semaphore's. Which owners may be there together is said by the steps (`saa_word_steps`), and nowhere here.

ghost use Rattle.std.specs.Prelude.{◌≡◌, ◌≢◌, All, Err, IfOk, [], ◌∷◌, map, vec_len};
ghost use Rattle.saa_core_spec.specs.declared.lock.Mode.TheVariants.{Exclusive, Shared};
ghost use Rattle.saa_core_spec.specs.declared.polling.Error.TheVariants.{NotReady};
ghost use Rattle.saa_word_steps.specs.declared.call.Answer.{Answer};
ghost use Rattle.saa_word_steps.specs.declared.call.Answer.TheVariants.{Taken};
ghost use Rattle.saa_word_steps.specs.declared.call.WordCall.TheVariants.{TryLock, TryShare, RegisterMode, ReleaseLock, ReleaseShare, Downgrade, PoisonLock, ClearPoison, IsFree, IsLocked, IsShared, IsPoisoned, TryPoll, Poll, Cancel};
ghost use Rattle.saa_word_steps.specs.declared.rules.Rules.TheVariants.{Modes};
ghost use Rattle.saa_word_steps.specs.Readings.{mode_number};
ghost use Rattle.saa_word_threads.specs.Dealt.{AreLedTo, IsLedTo, numbers};
ghost use Rattle.saa_word_threads.specs.Kept.{departed};
ghost use Rattle.saa_word_threads.specs.Receipts.{IsReceiptAt, said};
ghost use Rattle.saa_word_threads.specs.SpinPolicies.{none, waiting};
ghost use Rattle.saa_word_proofs.specs.Registering.{is_slot};
ghost use Rattle.saa_word_threads.specs.Public.{is_yes, polled_lock, registered, tried};
ghost use Rattle.futures.specs.Task.{Hears, IsArmed, Keeps};
ghost use Rattle.futures.specs.Poll.{IfReady, OnPending};

use crate::answers::yes;
use crate::form::Form;
use crate::limit::{Limit, Until};
use crate::place::{Left as FormLeft, Place as FormPlace};
use crate::receipt::Receipt;
use crate::watch::{Unwatched, Watch};
pub use crate::words::Words;
use futures::task::{self, Context};
use saa_core_waits::Deadline;
use saa_core_waits::spin_policy::{DEFAULT, NONE, SpinPolicy};
pub use saa_word_steps::call::{Error, Mode, TryLockError};
use saa_word_steps::call::{Answer, WordCall};
use saa_word_steps::place::Ask;
use saa_word_steps::rules::Rules;
use std::alloc::{AllocError, Global};
use std::sync::Wait;
use std::time::{Clock, Duration, Instant};

// The numbers of what the tries and the releases ask and give back.
pub(crate) const EXCLUSIVE: u16 = 0;

pub(crate) const SHARED: u16 = 1;

/// A lock in one atomic word: one owner alone, or up to 62 that share it; and poison.
///
/// Waiters are granted in FIFO order of joining: no later request passes a waiter. [`Self::lock`] and [`Self::share`] look and yield a bounded
/// number of times before their place joins the waiters, and until then nothing orders them; [`Self::register`] joins at once. Each task that may
/// wait has a [`Place`] of its own, which `new` deals; a place makes one call at a time. All other calls need none ([`Self::try_lock_once`]). A
/// waiter spins, yields and then parks. No call takes another lock, or memory but `new`. The lock doesn't know its owners: any caller may release.
#[derive(Drop)]
pub struct Lock {
    pub(crate) form: Form,
    ghost modes: { form.rules ≡ Modes },
    ghost free: { form.table.shared.key.withheld ≡ 0 },
}

/// A place of the lock that dealt it, between its calls.
///
/// One task has it at a time, and makes one call after another with it. `leave` spends it. A place that is dropped instead stays as it is: one
/// that waits is still served in its turn, and what it is granted stays taken until another place gives it back.
#[derive(Drop)]
pub struct Place {
    pub(crate) inner: FormPlace,
}

/// A place that has left the lock that dealt it.
#[derive(Drop)]
pub struct Left {
    pub(crate) inner: FormLeft,
}

impl Place {
    ghost use Rattle.saa_word_threads.specs.Locks.{inners};

    /// Whether it waits in the queue, or has an answer there that it hasn't taken. Costs no step.
    pub fn has_joined(&self) -> bool
        ensures { result ≡ is_slot (registered self.now.inner) }
    {
        self.inner.has_joined()
    }

    // The places of a lock, of those that its form dealt.
    fn of_all(alloc: Global, dealt: Vec<FormPlace>) -> Result<Vec<Place>, AllocError>
        ensures wrapped { IfOk result (λ places. inners places.items ≡ dealt.items) }
        ensures count { IfOk result (λ places. vec_len places ≡ vec_len dealt) }
    {
        let mut places = Vec::with_capacity(alloc, dealt.len())?;
        for inner in dealt {
            places.push_reserved(Place { inner });
        }
        Ok(places)
    }
}

impl Left {
    /// The number of the place that left. Costs O(1).
    pub fn place(&self) -> u16
        ensures { result ≡ self.now.inner.number }
    {
        self.inner.place()
    }
}

impl Lock {
    ghost use Rattle.saa_word_threads.specs.Locks.{AreNew, HasLeft, IsDealtBy, IsLeftOf, IsMade, AcquiresAndPolls, about_of, spin_policy_of, source_of, table_of, view_left};

    /// The most owners that share a lock.
    pub const MAX_SHARED_OWNERS: usize = 62;

    /// A free lock, and its places, in the order of their numbers.
    ///
    /// Costs O(`places`). The error comes only where memory was refused. With 0 places only calls with no place can be made at it.
    pub fn new(alloc: Global, places: u16) -> Result<(Self, Vec<Place>), AllocError>
        ensures made { IfOk result (λ made. about_of made.0 ≡ record { rules = Modes; withheld = 0; places = places }) }
        ensures dealt { IfOk result (λ made. (vec_len made.1 ≡ places) × AreNew (table_of made.0) 0 made.1.items) }
        ensures ours { IfOk result (λ made. All (IsDealtBy made.0) made.1.items) }
    {
        let (form, dealt) = Form::open(alloc, Rules::Modes, 0, places)?;
        let places = Place::of_all(alloc, dealt)?;
        Ok((Lock { form }, places))
    }

    /// Takes the lock for one owner alone if there is no waiter and it is free; never waits for an owner.
    ///
    /// `Poisoned`: the lock is poisoned. `WouldBlock`: it is owned, or there is a waiter. Both change nothing. Costs two steps on the word, and
    /// one more for each other task that changed it meanwhile.
    pub fn try_lock<R: Wait>(&self, rt: &R, place: &mut Place) -> Result<(), TryLockError>
        requires { IsDealtBy self.now place.old }
        ensures called { (answer : Answer) × (result ≡ tried answer) × IsMade TryLock place.old answer place.new }
        ensures spin_policy { spin_policy_of place.new ≡ none }
    {
        let ask = Ask {
            request: EXCLUSIVE,
            joins: false,
        };
        tried(
            self.form.ask(
                rt,
                &Unwatched,
                &mut place.inner,
                WordCall::TryLock,
                ask,
                NONE,
            ),
        )
    }

    /// Takes a share of the lock if there is no waiter and one is left; never waits for an owner.
    ///
    /// `Poisoned`: the lock is poisoned. `WouldBlock`: one owner has it alone, or 62 share it, or there is a waiter. Both change nothing. Costs as
    /// [`Self::try_lock`].
    pub fn try_share<R: Wait>(&self, rt: &R, place: &mut Place) -> Result<(), TryLockError>
        requires { IsDealtBy self.now place.old }
        ensures called { (answer : Answer) × (result ≡ tried answer) × IsMade TryShare place.old answer place.new }
        ensures spin_policy { spin_policy_of place.new ≡ none }
    {
        let ask = Ask {
            request: SHARED,
            joins: false,
        };
        tried(
            self.form.ask(
                rt,
                &Unwatched,
                &mut place.inner,
                WordCall::TryShare,
                ask,
                NONE,
            ),
        )
    }

    /// Takes the lock for one owner alone, and waits for it where it must.
    ///
    /// It looks at the word, and yields, a bounded number of times first, and takes the lock where it is free and there is no waiter; then the
    /// place joins the waiters. To join at once, `register` and then `poll`. `false`: the place found the lock poisoned, or it was poisoned
    /// while the place was in the queue (of poison that is set and cleared again between two of its looks it is never told); or the place is registered
    /// already, which changes nothing. Costs two steps on the word where it is granted at once, and else some
    /// more, and the wait.
    pub fn lock<R: Wait>(&self, rt: &R, place: &mut Place) -> bool
        requires { IsDealtBy self.now place.old }
        ensures waited { AcquiresAndPolls Exclusive place.old result place.new }
        ensures spin_policy { spin_policy_of place.new ≡ waiting }
    {
        self.wait_with_policy(rt, &Unwatched, place, Mode::Exclusive, DEFAULT)
    }

    /// Takes a share of the lock, and waits for it where it must.
    ///
    /// Looks, waits, answers `false` and costs as [`Self::lock`].
    pub fn share<R: Wait>(&self, rt: &R, place: &mut Place) -> bool
        requires { IsDealtBy self.now place.old }
        ensures waited { AcquiresAndPolls Shared place.old result place.new }
        ensures spin_policy { spin_policy_of place.new ≡ waiting }
    {
        self.wait_with_policy(rt, &Unwatched, place, Mode::Shared, DEFAULT)
    }

    // Waits as `lock` and `share` do, in this mode, and joins the waiters once its spins are over.
    #[inline(always)]
    pub(crate) fn wait_with_policy<R: Wait, W: Watch>(
        &self,
        rt: &R,
        watch: &W,
        place: &mut Place,
        mode: Mode,
        spin_policy: SpinPolicy,
    ) -> bool
        requires { IsDealtBy self.now place.old }
        ensures waited { AcquiresAndPolls mode place.old result place.new }
        ensures spin_policy { spin_policy_of place.new ≡ spin_policy }
    {
        if !self.register_with_policy(rt, watch, place, mode, spin_policy) {
            return false;
        }
        self.form.await_grant(rt, watch, &mut place.inner)
    }

    /// Gives the lock of one owner back, and grants the oldest waiters while they fit.
    ///
    /// `false`, and nothing changes, where the lock isn't one owner's alone. Any place may give back what another one took. Costs two steps
    /// where there is no waiter, and else O(waiters).
    pub fn release_lock<R: Wait>(&self, rt: &R, place: &mut Place) -> bool
        requires { IsDealtBy self.now place.old }
        ensures called { (answer : Answer) × (result ≡ is_yes answer) × IsMade ReleaseLock place.old answer place.new }
    {
        let call = WordCall::ReleaseLock;
        self.form
            .give(rt, &Unwatched, &mut place.inner, call, EXCLUSIVE)
    }

    /// Gives one share back, and grants the oldest waiters while they fit.
    ///
    /// `false`, and nothing changes, where the lock isn't shared. Any place may give back what another one took. Costs as
    /// [`Self::release_lock`].
    pub fn release_share<R: Wait>(&self, rt: &R, place: &mut Place) -> bool
        requires { IsDealtBy self.now place.old }
        ensures called { (answer : Answer) × (result ≡ is_yes answer) × IsMade ReleaseShare place.old answer place.new }
    {
        let call = WordCall::ReleaseShare;
        self.form
            .give(rt, &Unwatched, &mut place.inner, call, SHARED)
    }

    /// Makes the one owner a sharer, and grants the oldest waiters while they fit beside it.
    ///
    /// No other owner has the lock alone in between. `false`, and nothing changes, where the lock isn't one owner's alone. Costs as
    /// [`Self::release_lock`].
    pub fn downgrade<R: Wait>(&self, rt: &R, place: &mut Place) -> bool
        requires { IsDealtBy self.now place.old }
        ensures called { (answer : Answer) × (result ≡ is_yes answer) × IsMade Downgrade place.old answer place.new }
    {
        yes(
            self.form
                .call(rt, &Unwatched, &mut place.inner, WordCall::Downgrade),
        )
    }

    /// Poisons the lock that one owner has, and answers all waiters that it is poisoned.
    ///
    /// `false`, and nothing changes, where the lock isn't one owner's alone. It yields while another call works on the queue. Costs O(waiters).
    pub fn poison_lock<R: Wait>(&self, rt: &R, place: &mut Place) -> bool
        requires { IsDealtBy self.now place.old }
        ensures called { (answer : Answer) × (result ≡ is_yes answer) × IsMade PoisonLock place.old answer place.new }
    {
        yes(
            self.form
                .call(rt, &Unwatched, &mut place.inner, WordCall::PoisonLock),
        )
    }

    /// Makes a poisoned lock free. `false`, and nothing changes, where it isn't poisoned. Costs one step.
    pub fn clear_poison<R: Wait>(&self, rt: &R, place: &mut Place) -> bool
        requires { IsDealtBy self.now place.old }
        ensures called { (answer : Answer) × (result ≡ is_yes answer) × IsMade ClearPoison place.old answer place.new }
    {
        yes(
            self.form
                .call(rt, &Unwatched, &mut place.inner, WordCall::ClearPoison),
        )
    }

    /// Asks for the lock in a mode: it is granted at once, or the place joins the waiters.
    ///
    /// `false`, and nothing changes, at a place that is registered. A poisoned lock answers the registration at once that it is poisoned. The
    /// answer is taken by [`Self::poll`] or [`Self::try_poll`]; the wait modes are answered once the lock could be had, or is poisoned, and take nothing. Costs as
    /// [`Self::try_lock`], and one step more to join.
    #[inline(always)]
    pub fn register<R: Wait>(&self, rt: &R, place: &mut Place, mode: Mode) -> bool
        requires { IsDealtBy self.now place.old }
        ensures called { (answer : Answer) × (result ≡ is_yes answer) × IsMade (RegisterMode mode) place.old answer place.new }
        ensures spin_policy { spin_policy_of place.new ≡ none }
    {
        self.register_with_policy(rt, &Unwatched, place, mode, NONE)
    }

    /// Asks as [`Self::register`] does, but looks and yields first, as often as a spin policy says, and joins the waiters once that is over.
    pub fn register_spinning<R: Wait>(
        &self,
        rt: &R,
        place: &mut Place,
        mode: Mode,
        spin_policy: SpinPolicy,
    ) -> bool
        requires { IsDealtBy self.now place.old }
        ensures called { (answer : Answer) × (result ≡ is_yes answer) × IsMade (RegisterMode mode) place.old answer place.new }
        ensures spin_policy { spin_policy_of place.new ≡ spin_policy }
    {
        self.register_with_policy(rt, &Unwatched, place, mode, spin_policy)
    }

    // Registers as `register` does, and joins the waiters once its spins are over.
    #[inline(always)]
    pub(crate) fn register_with_policy<R: Wait, W: Watch>(
        &self,
        rt: &R,
        watch: &W,
        place: &mut Place,
        mode: Mode,
        spin_policy: SpinPolicy,
    ) -> bool
        requires { IsDealtBy self.now place.old }
        ensures called { (answer : Answer) × (result ≡ is_yes answer) × IsMade (RegisterMode mode) place.old answer place.new }
        ensures spin_policy { spin_policy_of place.new ≡ spin_policy }
    {
        let call = WordCall::RegisterMode(mode);
        if !place.inner.is_idle() {
            return yes(
                self.form
                    .refuse(rt, watch, &mut place.inner, call, spin_policy),
            );
        }
        let ask = Ask {
            request: number(mode),
            joins: true,
        };
        yes(
            self.form
                .ask(rt, watch, &mut place.inner, call, ask, spin_policy),
        )
    }

    /// Takes the answer of a registration where it is there; never blocks.
    ///
    /// `true`: what it asked is granted; `false`: the lock was poisoned. `NotReady` while the place waits, `NotRegistered` where it is registered
    /// as nothing. Costs one step at most.
    pub fn try_poll(&self, place: &mut Place) -> Result<bool, Error>
        requires { IsDealtBy self.now place.old }
        ensures called { (answer : Answer) × (result ≡ polled_lock answer) × IsMade TryPoll place.old answer place.new }
    {
        polled(self.form.try_poll(&mut place.inner))
    }

    /// Takes the answer of a registration, and waits for it where it must.
    ///
    /// `true`: what it asked is granted; `false`: the lock was poisoned. `NotRegistered` where the place is registered as nothing; no other error
    /// comes. Costs no step where it was answered at once, and else one for each look, and the wait.
    pub fn poll<R: Wait>(&self, rt: &R, place: &mut Place) -> Result<bool, Error>
        requires { IsDealtBy self.now place.old }
        ensures called { (answer : Answer) × (result ≡ polled_lock answer) × IsMade Poll place.old answer place.new }
    {
        polled(self.form.poll(rt, &Unwatched, &mut place.inner))
    }

    /// Takes the answer of a registration, and waits for it where it must, for so long at most.
    ///
    /// `NotReady` where the time is up: the place waits on, and is polled again or cancelled. Else it answers as [`Self::poll`]. Where the answer
    /// isn't there and the clock can't be read, `NotReady` comes at once. It spins before it reads the clock again, so it may return some microseconds late.
    pub fn poll_for<R: Wait + Clock>(
        &self,
        rt: &R,
        place: &mut Place,
        duration: Duration,
    ) -> Result<bool, Error>
        requires { IsDealtBy self.now place.old }
        ensures called { (answer : Answer) × (result ≡ polled_lock answer) × IsMade TryPoll place.old answer place.new }
    {
        let deadline = Deadline::after(rt, duration);
        self.poll_within(rt, &Unwatched, place, &Until::of(rt, deadline))
    }

    /// Takes the answer of a registration, and waits for it where it must, until this instant at the latest; else as [`Self::poll_for`].
    pub fn poll_until<R: Wait + Clock>(
        &self,
        rt: &R,
        place: &mut Place,
        end: Instant,
    ) -> Result<bool, Error>
        requires { IsDealtBy self.now place.old }
        ensures called { (answer : Answer) × (result ≡ polled_lock answer) × IsMade TryPoll place.old answer place.new }
    {
        self.poll_within(rt, &Unwatched, place, &Until::of(rt, Deadline::At(end)))
    }

    // Waits for the answer while the limit lets it, and then takes it if it is there.
    pub(crate) fn poll_within<R: Wait, W: Watch, L: Limit>(
        &self,
        rt: &R,
        watch: &W,
        place: &mut Place,
        limit: &L,
    ) -> Result<bool, Error>
        requires { IsDealtBy self.now place.old }
        ensures called { (answer : Answer) × (result ≡ polled_lock answer) × IsMade TryPoll place.old answer place.new }
    {
        polled(self.form.poll_until(rt, watch, &mut place.inner, limit))
    }

    /// Takes the answer of a registration for a task, where it is there; never blocks.
    ///
    /// Where it isn't there yet the poll is pending, the place waits on, and the call that writes the answer wakes the task, behind that. Of several tasks
    /// that polled the last is woken so, and the one that it replaces is woken for nothing. Where no waker can be kept (memory was refused, or a late wake
    /// is about to take one out), the task is woken at once. `NotRegistered` where the place is registered as nothing. The waker goes as the answer is
    /// taken, in whichever way, or the registration cancelled. A task may be woken for nothing. Costs one step at most, and a waker.
    pub fn poll_task(
        &self,
        place: &mut Place,
        cx: &mut Context<'_>,
    ) -> task::Poll<Result<bool, Error>>
        requires { IsDealtBy self.now place.old }
        ensures ready { IfReady result (λ reply. (answer : Answer) × (reply ≡ polled_lock answer) × IsMade TryPoll place.old answer place.new) }
        ensures waited { IfReady result (λ reply. reply ≢ Err NotReady) }
        ensures pending { OnPending result (IsMade TryPoll place.old (Taken (Err NotReady)) place.new) }
        ensures dealt { IsDealtBy self.now place.new }
        ensures armed { OnPending result (IsArmed cx.new) }
        ensures heard { OnPending result (Hears cx.new (source_of self.now)) }
        ensures kept { Keeps cx.old cx.new }
    {
        self.poll_task_beside(&Unwatched, place, cx)
    }

    // Polls so beside a watch.
    pub(crate) fn poll_task_beside<W: Watch>(
        &self,
        watch: &W,
        place: &mut Place,
        cx: &mut Context<'_>,
    ) -> task::Poll<Result<bool, Error>>
        requires { IsDealtBy self.now place.old }
        ensures ready { IfReady result (λ reply. (answer : Answer) × (reply ≡ polled_lock answer) × IsMade TryPoll place.old answer place.new) }
        ensures waited { IfReady result (λ reply. reply ≢ Err NotReady) }
        ensures pending { OnPending result (IsMade TryPoll place.old (Taken (Err NotReady)) place.new) }
        ensures dealt { IsDealtBy self.now place.new }
        ensures armed { OnPending result (IsArmed cx.new) }
        ensures heard { OnPending result (Hears cx.new (source_of self.now)) }
        ensures kept { Keeps cx.old cx.new }
    {
        match self.form.poll_task(watch, &mut place.inner, cx) {
            task::Poll::Ready(answer) => task::Poll::Ready(polled(answer)),
            task::Poll::Pending => task::Poll::Pending,
        }
    }

    /// Cancels a registration: the place leaves the waiters, or gives back what it was granted. Nothing, where it is registered as nothing.
    ///
    /// It yields while another call works on the queue. Costs O(waiters).
    pub fn cancel<R: Wait>(&self, rt: &R, place: &mut Place)
        requires { IsDealtBy self.now place.old }
        ensures called { (answer : Answer) × IsMade Cancel place.old answer place.new }
    {
        self.form.cancel(rt, &Unwatched, &mut place.inner);
    }

    /// Whether the lock has no owner and isn't poisoned; never blocks. Costs one step.
    pub fn is_free(&self, place: &mut Place) -> bool
        requires { IsDealtBy self.now place.old }
        ensures { (answer : Answer) × (result ≡ is_yes answer) × IsMade IsFree place.old answer place.new }
    {
        yes(self.form.call_at_once(&mut place.inner, WordCall::IsFree))
    }

    /// Whether one owner has the lock alone; never blocks. Costs one step.
    pub fn is_locked(&self, place: &mut Place) -> bool
        requires { IsDealtBy self.now place.old }
        ensures { (answer : Answer) × (result ≡ is_yes answer) × IsMade IsLocked place.old answer place.new }
    {
        yes(self.form.call_at_once(&mut place.inner, WordCall::IsLocked))
    }

    /// Whether the lock is shared; never blocks. Costs one step.
    pub fn is_shared(&self, place: &mut Place) -> bool
        requires { IsDealtBy self.now place.old }
        ensures { (answer : Answer) × (result ≡ is_yes answer) × IsMade IsShared place.old answer place.new }
    {
        yes(self.form.call_at_once(&mut place.inner, WordCall::IsShared))
    }

    /// Whether the lock is poisoned; never blocks. Costs one step.
    pub fn is_poisoned(&self, place: &mut Place) -> bool
        requires { IsDealtBy self.now place.old }
        ensures { (answer : Answer) × (result ≡ is_yes answer) × IsMade IsPoisoned place.old answer place.new }
    {
        yes(
            self.form
                .call_at_once(&mut place.inner, WordCall::IsPoisoned),
        )
    }

    /// A receipt of what a place has seen of the one history: a witness for whoever asks what the place's calls were. Costs one load, and takes no bytes.
    pub fn receipt(&self, place: &mut Place) -> Receipt
        requires { IsDealtBy self.now place.old }
        ensures same { place.new ≡ place.old }
        ensures table { IsReceiptAt (table_of self.now) result }
        ensures seen { said result ≡ departed place.old.inner.seat.me.0 ∷ [] }
    {
        self.form.receipt_at(&mut place.inner)
    }

    /// The place leaves; it cancels first, and costs as that.
    pub fn leave<R: Wait>(&self, rt: &R, place: Place) -> Left
        requires { IsDealtBy self.now place }
        ensures { HasLeft place result }
    {
        let Place { inner } = place;
        Left {
            inner: self.form.leave(rt, &Unwatched, inner),
        }
    }

    /// The words at the end, with the place of `left` as the witness of what led there; never blocks. Costs O(1).
    pub fn close(self, left: Left) -> Words
        requires { IsLeftOf self left }
        ensures places { result.places ≡ (about_of self).places }
        ensures led { IsLedTo (about_of self) (numbers result) (view_left left) }
    {
        let Lock { form } = self;
        let Left { inner } = left;
        form.close(inner)
    }

    /// The words at the end, with all these places as the witnesses of the one history that led there; never blocks. Costs O(`lefts`).
    pub fn close_all(self, lefts: Vec<Left>) -> Words
        requires { All (IsLeftOf self) lefts.items }
        ensures places { result.places ≡ (about_of self).places }
        ensures led { AreLedTo (about_of self) (numbers result) (map view_left lefts.items) }
    {
        let Lock { form } = self;
        let mut witness = None;
        for left in lefts {
            let Left { inner } = left;
            witness = Some(form.gather(witness, inner));
        }
        form.close_over(witness)
    }
}

// The number of a mode.
fn number(mode: Mode) -> u16
    ensures { result ≡ mode_number mode }
{
    match mode {
        Mode::Exclusive => EXCLUSIVE,
        Mode::Shared => SHARED,
        Mode::WaitExclusive => 2,
        Mode::WaitShared => 3,
    }
}

// What a try answers.
pub(crate) fn tried(answer: Answer) -> Result<(), TryLockError>
    ensures { result ≡ tried answer }
{
    match answer {
        Answer::Tried(tried) => tried,
        _ => Err(TryLockError::WouldBlock),
    }
}

// What a poll answers.
fn polled(answer: Answer) -> Result<bool, Error>
    ensures { result ≡ polled_lock answer }
{
    match answer {
        Answer::Taken(taken) => taken,
        _ => Ok(false),
    }
}
