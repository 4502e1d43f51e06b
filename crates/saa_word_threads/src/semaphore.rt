//! A lock-free semaphore: permits in one atomic word, for a fixed set of places that may wait, and callers with no place (`semaphore_visits`).
//!
//! Every call is one call of a place of the form (`call`), and is held to `specs/Public.antt`. The history of all calls is one: it leads to
//! the words, begins with what each place has seen, and has of each place just its own events.

ghost use Rattle.std.specs.Prelude.{◌≡◌, ◌≢◌, ◌<◌, All, Err, IfOk, [], ◌∷◌, map, min, vec_len};
ghost use Rattle.saa_core_spec.specs.declared.polling.Error.{Error};
ghost use Rattle.saa_core_spec.specs.declared.polling.Error.TheVariants.{NotReady};
ghost use Rattle.saa_word_steps.specs.declared.call.Answer.{Answer};
ghost use Rattle.saa_word_steps.specs.declared.call.Answer.TheVariants.{Number, Taken};
ghost use Rattle.saa_word_steps.specs.declared.call.WordCall.TheVariants.{Try, Register, Release, Available, Shut, IsShut, TryPoll, Poll, Cancel};
ghost use Rattle.saa_word_steps.specs.declared.rules.Rules.TheVariants.{Permits};
ghost use Rattle.saa_word_threads.specs.Dealt.{AreLedTo, AreNew, IsLedTo, numbers};
ghost use Rattle.saa_word_threads.specs.Kept.{departed};
ghost use Rattle.saa_word_threads.specs.Receipts.{IsReceiptAt, said};
ghost use Rattle.saa_word_threads.specs.SpinPolicies.{none};
ghost use Rattle.saa_word_threads.specs.Public.{is_yes, spin_policy_of, polled, view_left};
ghost use Rattle.futures.specs.Task.{Hears, IsArmed, Keeps};
ghost use Rattle.futures.specs.Poll.{IfReady, OnPending};

use crate::answers::yes;
use crate::form::Form;
use crate::limit::{Limit, Until};
pub use crate::place::{Left, Place};
use crate::receipt::Receipt;
use crate::watch::{Unwatched, Watch};
pub use crate::words::Words;
use futures::task::{self, Context};
use saa_core_waits::Deadline;
use saa_core_waits::spin_policy::{NONE, SpinPolicy};
pub use saa_word_steps::call::Error;
use saa_word_steps::call::{Answer, WordCall};
use saa_word_steps::place::Ask;
use saa_word_steps::rules::Rules;
use std::alloc::{AllocError, Global};
use std::sync::Wait;
use std::time::{Clock, Duration, Instant};

/// Up to `MAX` permits, 1 to 65,535, in one atomic word.
///
/// Waiters are granted in FIFO order of joining: no later request passes a waiter. [`Self::acquire_many`] looks and yields a bounded number of
/// times before its place joins the waiters, and until then nothing orders it; [`Self::register`] joins at once. Each task that may wait has
/// a [`Place`] of its own, which `new` deals; a place makes one call at a time. Tries, releases and readings need none
/// ([`Self::try_acquire_many_once`]). A waiter spins, yields and then parks. No call takes a lock or memory but
/// `new`: while one thread is stopped in the middle of a call, the others still give back permits, and take them where there is no waiter.
#[derive(Drop)]
pub struct SemaphoreOf<const MAX: usize> {
    pub(crate) form: Form,
    ghost permits: { form.rules ≡ Permits MAX },
    ghost bound: { 0 < MAX },
    ghost narrow: { MAX < 65536 },
}

/// Up to 63 permits; see [`SemaphoreOf`].
pub type Semaphore = SemaphoreOf<63>;

impl<const MAX: usize> SemaphoreOf<MAX> {
    ghost use Rattle.saa_word_threads.specs.Semaphores.{HasLeft, IsDealtBy, IsLeftOf, IsMade, AcquiresAndPolls, about_of, source_of, table_of};

    /// The most permits of a semaphore.
    pub const MAX_PERMITS: usize = MAX;

    /// A semaphore of which so many permits are withheld (all, where it is more), and its places, in the order of their numbers.
    ///
    /// Withheld permits count as taken, and may be released. Costs O(`places`). The error comes only where memory was refused. With 0 places
    /// only calls with no place can be made at it.
    pub fn new(
        alloc: Global,
        withheld: usize,
        places: u16,
    ) -> Result<(Self, Vec<Place>), AllocError>
        requires bound { 0 < MAX }
        requires narrow { MAX < 65536 }
        ensures made { IfOk result (λ made. about_of made.0 ≡ record { rules = Permits MAX; withheld = min withheld MAX; places = places }) }
        ensures dealt { IfOk result (λ made. (vec_len made.1 ≡ places) × AreNew (table_of made.0) 0 made.1.items) }
        ensures ours { IfOk result (λ made. All (IsDealtBy made.0) made.1.items) }
    {
        let withheld = withheld.min(MAX) as u16;
        let (form, dealt) = Form::open(alloc, Rules::Permits(MAX as u16), withheld, places)?;
        Ok((SemaphoreOf { form }, dealt))
    }

    /// Takes `count` permits if there is no waiter and they are available; never waits for a permit.
    ///
    /// Counts above [`Self::MAX_PERMITS`] are never granted, and nothing is once the semaphore is shut. A `false` takes nothing. Costs two steps on the word, and one more for each
    /// other task that changed it meanwhile.
    pub fn try_acquire_many<R: Wait>(&self, rt: &R, place: &mut Place, count: usize) -> bool
        requires { IsDealtBy self.now place.old }
        ensures called { (answer : Answer) × (result ≡ is_yes answer) × IsMade self.now (Try count) place.old answer place.new }
        ensures spin_policy { spin_policy_of place.new ≡ none }
    {
        let call = WordCall::Try(count);
        if count > MAX {
            return yes(self.form.refuse(rt, &Unwatched, place, call, NONE));
        }
        let ask = Ask {
            request: count as u16,
            joins: false,
        };
        yes(self.form.ask(rt, &Unwatched, place, call, ask, NONE))
    }

    /// Takes `count` permits, and waits for them where it must.
    ///
    /// Where they aren't available, or there is a waiter, the place joins the waiters at once. `false`, without waiting, for a count above
    /// [`Self::MAX_PERMITS`] and at a place that is registered; and `false` where the semaphore is shut, or was while this waited
    /// ([`Self::is_shut`]).
    pub fn acquire_many<R: Wait>(&self, rt: &R, place: &mut Place, count: usize) -> bool
        requires { IsDealtBy self.now place.old }
        ensures waited { AcquiresAndPolls self.now count place.old result place.new }
        ensures spin_policy { spin_policy_of place.new ≡ none }
    {
        self.wait_with_policy(rt, &Unwatched, place, count, NONE)
    }

    // Waits, and joins the waiters once its spins are over.
    #[inline(always)]
    pub(crate) fn wait_with_policy<R: Wait, W: Watch>(
        &self,
        rt: &R,
        watch: &W,
        place: &mut Place,
        count: usize,
        spin_policy: SpinPolicy,
    ) -> bool
        requires { IsDealtBy self.now place.old }
        ensures waited { AcquiresAndPolls self.now count place.old result place.new }
        ensures spin_policy { spin_policy_of place.new ≡ spin_policy }
    {
        if !self.register_with_policy(rt, watch, place, count, spin_policy) {
            return false;
        }
        self.form.await_grant(rt, watch, place)
    }

    /// Gives `count` permits back, and grants the oldest waiters while they fit.
    ///
    /// `false`, and nothing changes, where fewer are taken. Any place may give back what another one took. A shut semaphore takes permits back as
    /// ever.
    pub fn release_many<R: Wait>(&self, rt: &R, place: &mut Place, count: usize) -> bool
        requires { IsDealtBy self.now place.old }
        ensures called { (answer : Answer) × (result ≡ is_yes answer) × IsMade self.now (Release count) place.old answer place.new }
    {
        let call = WordCall::Release(count);
        if count == 0 || count > MAX {
            return yes(self.form.call(rt, &Unwatched, place, call));
        }
        self.form.give(rt, &Unwatched, place, call, count as u16)
    }

    /// Asks for `count` permits: they are granted at once, or the place joins the waiters.
    ///
    /// `false`, and nothing changes, for a count above [`Self::MAX_PERMITS`] and at a place that is registered. A shut semaphore answers the
    /// registration at once, `Closed`. The answer is taken by [`Self::poll`] or [`Self::try_poll`].
    pub fn register<R: Wait>(&self, rt: &R, place: &mut Place, count: usize) -> bool
        requires { IsDealtBy self.now place.old }
        ensures called { (answer : Answer) × (result ≡ is_yes answer) × IsMade self.now (Register count) place.old answer place.new }
        ensures spin_policy { spin_policy_of place.new ≡ none }
    {
        self.register_with_policy(rt, &Unwatched, place, count, NONE)
    }

    /// Asks as [`Self::register`] does, but looks and yields first, as often as a spin policy says, and joins the waiters once that is over.
    pub fn register_spinning<R: Wait>(
        &self,
        rt: &R,
        place: &mut Place,
        count: usize,
        spin_policy: SpinPolicy,
    ) -> bool
        requires { IsDealtBy self.now place.old }
        ensures called { (answer : Answer) × (result ≡ is_yes answer) × IsMade self.now (Register count) place.old answer place.new }
        ensures spin_policy { spin_policy_of place.new ≡ spin_policy }
    {
        self.register_with_policy(rt, &Unwatched, place, count, spin_policy)
    }

    // Registers as `register` does, and joins the waiters once its spins are over.
    #[inline(always)]
    pub(crate) fn register_with_policy<R: Wait, W: Watch>(
        &self,
        rt: &R,
        watch: &W,
        place: &mut Place,
        count: usize,
        spin_policy: SpinPolicy,
    ) -> bool
        requires { IsDealtBy self.now place.old }
        ensures called { (answer : Answer) × (result ≡ is_yes answer) × IsMade self.now (Register count) place.old answer place.new }
        ensures spin_policy { spin_policy_of place.new ≡ spin_policy }
    {
        let call = WordCall::Register(count);
        if count > MAX || !place.is_idle() {
            return yes(self.form.refuse(rt, watch, place, call, spin_policy));
        }
        let ask = Ask {
            request: count as u16,
            joins: true,
        };
        yes(self.form.ask(rt, watch, place, call, ask, spin_policy))
    }

    /// Takes the answer of a registration where it is there; never blocks.
    ///
    /// `Closed`: the semaphore was shut, and nothing was granted. `NotReady` while the place waits, `NotRegistered` where it is registered as
    /// nothing. Costs one step at most.
    pub fn try_poll(&self, place: &mut Place) -> Result<(), Error>
        requires { IsDealtBy self.now place.old }
        ensures called { (answer : Answer) × (result ≡ polled answer) × IsMade self.now TryPoll place.old answer place.new }
    {
        taken(self.form.try_poll(place))
    }

    /// Takes the answer of a registration, and waits for it where it must.
    ///
    /// `Closed`: the semaphore was shut, and nothing was granted. `NotRegistered` where the place is registered as nothing; no other error comes.
    pub fn poll<R: Wait>(&self, rt: &R, place: &mut Place) -> Result<(), Error>
        requires { IsDealtBy self.now place.old }
        ensures called { (answer : Answer) × (result ≡ polled answer) × IsMade self.now Poll place.old answer place.new }
    {
        taken(self.form.poll(rt, &Unwatched, place))
    }

    /// Takes the answer of a registration, and waits for it where it must, for so long at most.
    ///
    /// `NotReady` where the time is up: the place waits on, and is polled again or cancelled. `NotRegistered` where it is registered as nothing. Where
    /// the answer isn't there and the clock can't be read, `NotReady` comes at once. It spins before it reads the clock again, so it may return some
    /// microseconds late.
    pub fn poll_for<R: Wait + Clock>(
        &self,
        rt: &R,
        place: &mut Place,
        duration: Duration,
    ) -> Result<(), Error>
        requires { IsDealtBy self.now place.old }
        ensures called { (answer : Answer) × (result ≡ polled answer) × IsMade self.now TryPoll place.old answer place.new }
    {
        let deadline = Deadline::after(rt, duration);
        self.poll_within(rt, &Unwatched, place, &Until::of(rt, deadline))
    }

    /// Takes the answer of a registration, and waits for it where it must, until this instant at the latest; else as [`Self::poll_for`].
    pub fn poll_until<R: Wait + Clock>(
        &self,
        rt: &R,
        place: &mut Place,
        end: Instant,
    ) -> Result<(), Error>
        requires { IsDealtBy self.now place.old }
        ensures called { (answer : Answer) × (result ≡ polled answer) × IsMade self.now TryPoll place.old answer place.new }
    {
        self.poll_within(rt, &Unwatched, place, &Until::of(rt, Deadline::At(end)))
    }

    // Waits for the answer while the limit lets it, and then takes it if it is there.
    pub(crate) fn poll_within<R: Wait, W: Watch, L: Limit>(
        &self,
        rt: &R,
        watch: &W,
        place: &mut Place,
        limit: &L,
    ) -> Result<(), Error>
        requires { IsDealtBy self.now place.old }
        ensures called { (answer : Answer) × (result ≡ polled answer) × IsMade self.now TryPoll place.old answer place.new }
    {
        taken(self.form.poll_until(rt, watch, place, limit))
    }

    /// Takes the answer of a registration for a task, where it is there; never blocks.
    ///
    /// Where it isn't there yet the poll is pending, the place waits on, and the call that writes the answer wakes the task, behind that. Of several tasks
    /// that polled the last is woken so, and the one that it replaces is woken for nothing. Where no waker can be kept (memory was refused, or a late wake
    /// is about to take one out), the task is woken at once. `NotRegistered` where the place is registered as nothing. The waker goes as the answer is
    /// taken, in whichever way, or the registration cancelled. A task may be woken for nothing. Costs one step at most, and a waker.
    pub fn poll_task(
        &self,
        place: &mut Place,
        cx: &mut Context<'_>,
    ) -> task::Poll<Result<(), Error>>
        requires { IsDealtBy self.now place.old }
        ensures ready { IfReady result (λ reply. (answer : Answer) × (reply ≡ polled answer) × IsMade self.now TryPoll place.old answer place.new) }
        ensures waited { IfReady result (λ reply. reply ≢ Err NotReady) }
        ensures pending { OnPending result (IsMade self.now TryPoll place.old (Taken (Err NotReady)) place.new) }
        ensures dealt { IsDealtBy self.now place.new }
        ensures armed { OnPending result (IsArmed cx.new) }
        ensures heard { OnPending result (Hears cx.new (source_of self.now)) }
        ensures kept { Keeps cx.old cx.new }
    {
        self.poll_task_beside(&Unwatched, place, cx)
    }

    // Polls so beside a watch.
    pub(crate) fn poll_task_beside<W: Watch>(
        &self,
        watch: &W,
        place: &mut Place,
        cx: &mut Context<'_>,
    ) -> task::Poll<Result<(), Error>>
        requires { IsDealtBy self.now place.old }
        ensures ready { IfReady result (λ reply. (answer : Answer) × (reply ≡ polled answer) × IsMade self.now TryPoll place.old answer place.new) }
        ensures waited { IfReady result (λ reply. reply ≢ Err NotReady) }
        ensures pending { OnPending result (IsMade self.now TryPoll place.old (Taken (Err NotReady)) place.new) }
        ensures dealt { IsDealtBy self.now place.new }
        ensures armed { OnPending result (IsArmed cx.new) }
        ensures heard { OnPending result (Hears cx.new (source_of self.now)) }
        ensures kept { Keeps cx.old cx.new }
    {
        match self.form.poll_task(watch, place, cx) {
            task::Poll::Ready(answer) => task::Poll::Ready(taken(answer)),
            task::Poll::Pending => task::Poll::Pending,
        }
    }

    /// Cancels a registration: the place leaves the waiters, or gives back what it was granted. Nothing, where it is registered as nothing.
    ///
    /// It yields while another call works on the queue.
    pub fn cancel<R: Wait>(&self, rt: &R, place: &mut Place)
        requires { IsDealtBy self.now place.old }
        ensures called { (answer : Answer) × IsMade self.now Cancel place.old answer place.new }
    {
        self.form.cancel(rt, &Unwatched, place);
    }

    /// How many permits are available; never blocks. Costs one step.
    pub fn available_permits(&self, place: &mut Place) -> u16
        requires { IsDealtBy self.now place.old }
        ensures { IsMade self.now Available place.old (Number result) place.new }
    {
        match self.form.call_at_once(place, WordCall::Available) {
            Answer::Number(number) => number,
            _ => unreachable!(),
        }
    }

    /// Shuts the semaphore for good: every waiter is answered `Closed`, and so is every registration from then on; every try is refused.
    ///
    /// What is out comes back, and is told as available, as ever. `false`, and nothing changes, where it was shut already. It yields while another
    /// call works on the queue. Costs O(waiters).
    pub fn shut<R: Wait>(&self, rt: &R, place: &mut Place) -> bool
        requires { IsDealtBy self.now place.old }
        ensures called { (answer : Answer) × (result ≡ is_yes answer) × IsMade self.now Shut place.old answer place.new }
    {
        yes(self.form.call(rt, &Unwatched, place, WordCall::Shut))
    }

    /// Whether the semaphore was shut; never blocks. Costs one step.
    pub fn is_shut(&self, place: &mut Place) -> bool
        requires { IsDealtBy self.now place.old }
        ensures { (answer : Answer) × (result ≡ is_yes answer) × IsMade self.now IsShut place.old answer place.new }
    {
        yes(self.form.call_at_once(place, WordCall::IsShut))
    }

    /// A receipt of what a place has seen of the one history: a witness for whoever asks what the place's calls were. Costs one load, and takes no bytes.
    pub fn receipt(&self, place: &mut Place) -> Receipt
        requires { IsDealtBy self.now place.old }
        ensures same { place.new ≡ place.old }
        ensures table { IsReceiptAt (table_of self.now) result }
        ensures seen { said result ≡ departed place.old.seat.me.0 ∷ [] }
    {
        self.form.receipt_at(place)
    }

    /// The place leaves; it cancels first.
    pub fn leave<R: Wait>(&self, rt: &R, place: Place) -> Left
        requires { IsDealtBy self.now place }
        ensures { HasLeft self.now place result }
    {
        self.form.leave(rt, &Unwatched, place)
    }

    /// The words at the end, with the place of `left` as the witness of what led there; never blocks. Costs O(1).
    pub fn close(self, left: Left) -> Words
        requires { IsLeftOf self left }
        ensures places { result.places ≡ (about_of self.entry).places }
        ensures led { IsLedTo (about_of self.entry) (numbers result) (view_left left) }
    {
        let SemaphoreOf { form } = self;
        form.close(left)
    }

    /// The words at the end, with all these places as the witnesses of the one history that led there; never blocks. Costs O(`lefts`).
    pub fn close_all(self, lefts: Vec<Left>) -> Words
        requires { All (IsLeftOf self) lefts.items }
        ensures places { result.places ≡ (about_of self.entry).places }
        ensures led { AreLedTo (about_of self.entry) (numbers result) (map view_left lefts.items) }
    {
        let SemaphoreOf { form } = self;
        let mut witness = None;
        for left in lefts {
            witness = Some(form.gather(witness, left));
        }
        form.close_over(witness)
    }
}

// What a poll answers.
fn taken(answer: Answer) -> Result<(), Error>
    ensures { result ≡ polled answer }
{
    match answer {
        Answer::Taken(Err(error)) => Err(error),
        Answer::Taken(Ok(false)) => Err(Error::Closed),
        _ => Ok(()),
    }
}
