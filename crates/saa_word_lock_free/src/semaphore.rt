//! The lock-free semaphore that any task uses by `&self`.
//!
//! Each call is a call of the word's semaphore (`saa_word_threads::semaphore`), by a visitor or at a place of the pool. Calls that end in `_witnessed` hand
//! out a receipt of the one history with their answer; the others make the same calls, and keep none.

ghost use Rattle.std.specs.Prelude.{◌≡◌, ◌++◌, ◌↔◌, ◌≤◌, ◌<◌, ◌||◌, ◌⊎◌, ◌-◌, ℕ, true, false, IfErr, IfOk, IsTrue, Ok, Some};
ghost use Rattle.saa_core_spec.specs.declared.request.Request.TheVariants.{Permits};
ghost use Rattle.saa_word_lock_free.specs.Forms.{IsRefusedBy, TakesAt, WasFull};
ghost use Rattle.saa_word_steps.specs.declared.call.Answer.{Answer};
ghost use Rattle.saa_word_steps.specs.declared.call.Answer.TheVariants.{Number};
ghost use Rattle.saa_word_steps.specs.declared.call.WordCall.TheVariants.{Available, IsShut, Release, Shut, Try};
ghost use Rattle.saa_word_threads.specs.Dealt.{numbers};
ghost use Rattle.saa_word_threads.specs.Public.{is_yes};
ghost use Rattle.saa_word_threads.specs.Receipts.{IsLedOn, IsReceiptAt, said};
ghost use Rattle.saa_word_threads.specs.Semaphores.{IsVisitedOnce, about_of, table_of};
ghost use Rattle.saa_word_lock_free.specs.Calls.{IsReceivedBy};
ghost use Rattle.saa_word_lock_free.specs.OfSemaphore.{calls_of};
ghost use Rattle.saa_word_lock_free.specs.Registered.{ask_of, is_busy, is_yes as was_made, mode_of, unregistered};
ghost use Rattle.saa_word_lock_free.specs.SemaphoreCalls.{IsAcquired, IsAnswered, IsDone, IsDoneWith, IsGranted, IsRead, IsReadWith, WasRefused, opened};

use crate::form::{Form, NoPlace};
use crate::future::{
    AcquireManyOf, AcquireManyWithOf, AcquireOf, AcquireWithOf, Acquiring, AcquiringWith,
};
use crate::pager::{Pager, PagerForm};
use crate::registration::Registration;
use crate::tasks::Pending;
use crate::waiting::CLOSED;
use crate::word_form::WordForm;
use saa_core_spec::request::Full;
pub use saa_core_waits::AcquireError;
use saa_core_waits::spin_policy::{NONE, SpinPolicy};
use saa_word_threads::receipt::Receipt;
use saa_word_threads::semaphore::{Error, Place, SemaphoreOf as Word, Words};
use std::alloc::{AllocError, Global};
use std::fmt;
use std::sync::Wait;
use std::sync::atomic::Ordering;

/// Up to `MAX` permits that any number of tasks share, 1 to 65,535, in one atomic word.
///
/// Waiters are granted in FIFO order of joining the queue: no later request passes a waiter, a request for 0 permits included. A call that needn't wait
/// takes no place, no lock and no memory. A call that has to wait takes one of the places that the semaphore was made with, and is refused where
/// none is in. No call but making takes memory; a task that polls brings its own waker.
///
/// Each registration and pager is used with the semaphore that it was registered in.
pub type SemaphoreOf<R, const MAX: usize> = Form<R, Word<MAX>>;

/// Up to 63 permits; see [`SemaphoreOf`].
pub type Semaphore<R> = SemaphoreOf<R, 63>;

/// A word of permits, whose type says how many there are at most.
pub trait PermitWord: WordForm {
    /// The most permits.
    const MAX_PERMITS: usize;
}

impl<const MAX: usize> PermitWord for Word<MAX> {
    const MAX_PERMITS: usize = MAX;
}

impl<R: Wait + Drop, W: PermitWord> Form<R, W> {
    /// The most permits of a semaphore.
    pub const MAX_PERMITS: usize = W::MAX_PERMITS;
}

impl<R: Wait + Drop, const MAX: usize> Form<R, Word<MAX>> {
    /// A semaphore with all its permits available, and room for so many waiters. Costs O(`room`).
    ///
    /// Reserves all the memory that it will ever need; the error comes only where that was refused.
    pub fn new(rt: R, alloc: Global, room: u16) -> Result<Self, AllocError>
        requires bound { 0 < MAX }
        requires narrow { MAX < 65536 }
        ensures made { IfOk result (λ semaphore. about_of semaphore.word ≡ opened MAX MAX room) }
        ensures spin_policy { IfOk result (λ semaphore. semaphore.spin_policy ≡ NONE) }
    {
        Self::with_permits(rt, alloc, MAX, room)
    }

    /// A semaphore with at most so many permits available; the others count as out, and may be released.
    /// A number above `MAX` is cut to it. Costs O(`room`).
    ///
    /// Reserves all the memory that it will ever need; the error comes only where that was refused.
    pub fn with_permits(rt: R, alloc: Global, permits: usize, room: u16) -> Result<Self, AllocError>
        requires bound { 0 < MAX }
        requires narrow { MAX < 65536 }
        ensures made { IfOk result (λ semaphore. about_of semaphore.word ≡ opened MAX permits room) }
        ensures spin_policy { IfOk result (λ semaphore. semaphore.spin_policy ≡ NONE) }
    {
        Self::with_spin_policy(rt, alloc, permits, room, NONE)
    }

    /// As [`Self::with_permits`], with a spin policy of its own: how often a call that may block, and isn't timed, looks and yields at its place before that
    /// joins the queue. With [`DEFAULT`](saa_core_waits::spin_policy::DEFAULT) short turns under contention cost less, and a call that finds no permit again and
    /// again waits longer.
    pub fn with_spin_policy(
        rt: R,
        alloc: Global,
        permits: usize,
        room: u16,
        spin_policy: SpinPolicy,
    ) -> Result<Self, AllocError>
        requires bound { 0 < MAX }
        requires narrow { MAX < 65536 }
        ensures made { IfOk result (λ semaphore. about_of semaphore.word ≡ opened MAX permits room) }
        ensures spin_policy { IfOk result (λ semaphore. semaphore.spin_policy ≡ spin_policy) }
    {
        let (word, places) = Word::new(alloc, MAX.saturating_sub(permits), room)?;
        Self::of_word(rt, alloc, word, places, spin_policy)
    }

    /// Whether a permit is available. Every ordering acts as the sequentially consistent one; none panics.
    pub fn is_open(&self, mo: Ordering) -> bool {
        self.available_permits(mo) > 0
    }

    /// Whether no permit is available. Every ordering acts as the sequentially consistent one; none panics.
    pub fn is_closed(&self, mo: Ordering) -> bool {
        !self.is_open(mo)
    }

    /// How many permits are available, 0 to `MAX`. Every ordering acts as the sequentially consistent one; none panics.
    pub fn available_permits(&self, _mo: Ordering) -> usize
        ensures { IsRead self.now.word Available (Number result) }
    {
        usize::from(self.available())
    }

    // How many permits are available.
    fn available(&self) -> u16
        ensures { IsRead self.now.word Available (Number result) }
    {
        let (available, _visitor) = self.word().available_permits_once();
        available
    }

    /// As [`Self::available_permits`], with a receipt.
    pub fn available_permits_witnessed(&self) -> (u16, Receipt)
        ensures { IsReadWith self.now.word Available (Number result.0) result.1 }
    {
        let word = self.word();
        let (available, mut visitor) = word.available_permits_once();
        let receipt = word.receipt_by(&mut visitor);
        (available, receipt)
    }

    /// Whether it was shut: no permit is taken from it any more, however many are available. Costs two loads.
    pub fn is_shut(&self) -> bool
        ensures { IsDone self.now.word IsShut result }
    {
        let (is_shut, _visitor) = self.word().is_shut_once();
        is_shut
    }

    /// As [`Self::is_shut`], with a receipt.
    pub fn is_shut_witnessed(&self) -> (bool, Receipt)
        ensures { IsDoneWith self.now.word IsShut result.0 result.1 }
    {
        let word = self.word();
        let (is_shut, mut visitor) = word.is_shut_once();
        let receipt = word.receipt_by(&mut visitor);
        (is_shut, receipt)
    }

    /// Shuts the semaphore for good: every waiter is answered `Closed`, and so is every call that would take a permit from then on.
    ///
    /// `false` comes where it was shut before, and changes nothing. Tries are refused. Permits that are out, and grants that weren't
    /// told yet, stay as they are, and come back by [`Self::release_many`] as ever. It isn't the other side of [`Self::is_closed`], which says that
    /// no permit is available. It yields while another call works on the queue. Costs O(waiters).
    pub fn shut(&self) -> bool
        ensures { IsDone self.now.word Shut result }
    {
        let (is_done, _visitor) = self.word().shut_once(self.rt());
        is_done
    }

    /// As [`Self::shut`], with a receipt.
    pub fn shut_witnessed(&self) -> (bool, Receipt)
        ensures { IsDoneWith self.now.word Shut result.0 result.1 }
    {
        let word = self.word();
        let (is_done, mut visitor) = word.shut_once(self.rt());
        let receipt = word.receipt_by(&mut visitor);
        (is_done, receipt)
    }

    // What a call for so many permits tells: a grant, or why there is none.
    pub(crate) fn read_grant(
        &self,
        count: usize,
        acquired: Result<u8, Full>,
    ) -> Result<(), AcquireError>
        requires answered { IfOk acquired (λ value. IsAnswered self.now.word count (Ok value)) }
        requires full { IfErr acquired (λ full. WasFull Place self.now) }
        ensures granted { IfOk result (λ done. IsGranted self.now.word count) }
        ensures refused { IfErr result (WasRefused self.now count) }
    {
        let value = match acquired {
            Ok(value) => value,
            Err(Full) => return Err(self.why_full()),
        };
        if value == CLOSED {
            return Err(AcquireError::Closed);
        }
        Ok(())
    }

    // Why a call has no permit that got no place: the semaphore is shut, or it would have to wait.
    pub(crate) fn why_full(&self) -> AcquireError
        requires { WasFull Place self.now }
        ensures { (count : ℕ) → WasRefused self.now count result }
    {
        if self.is_shut() {
            AcquireError::Closed
        } else {
            AcquireError::Full
        }
    }

    /// Takes one permit if there is no waiter and one is available; see [`Self::try_acquire_many`].
    #[inline(always)]
    pub fn try_acquire(&self) -> bool
        ensures { IsDone self.now.word (Try 1) result }
    {
        self.try_acquire_many(1)
    }

    /// Takes `count` permits if there is no waiter and they are available; never waits for them. Wakes no waiter.
    ///
    /// A count above [`Self::MAX_PERMITS`] is never granted. 0 permits are refused too while there is a waiter, and where it was shut.
    /// A `false` changes nothing.
    #[inline(always)]
    pub fn try_acquire_many(&self, count: usize) -> bool
        ensures { IsDone self.now.word (Try count) result }
    {
        let (is_granted, _visitor) = self.word().try_acquire_many_once(self.rt(), count);
        is_granted
    }

    /// As [`Self::try_acquire_many`], with a receipt.
    pub fn try_acquire_many_witnessed(&self, count: usize) -> (bool, Receipt)
        ensures { IsDoneWith self.now.word (Try count) result.0 result.1 }
    {
        let word = self.word();
        let (is_granted, mut visitor) = word.try_acquire_many_once(self.rt(), count);
        let receipt = word.receipt_by(&mut visitor);
        (is_granted, receipt)
    }

    /// Gives one permit back; see [`Self::release_many`].
    #[inline(always)]
    pub fn release(&self) -> bool
        ensures { IsDone self.now.word (Release 1) result }
    {
        self.release_many(1)
    }

    /// Gives `count` permits back, grants the oldest waiters while they fit, and wakes exactly those.
    ///
    /// `false` comes exactly where fewer permits are out, and changes nothing. 0 permits are given back always, and
    /// change nothing. Costs three steps where there is no waiter, and else O(waiters).
    #[inline(always)]
    pub fn release_many(&self, count: usize) -> bool
        ensures { IsDone self.now.word (Release count) result }
    {
        let (is_given, _visitor) = self.word().release_many_once(self.rt(), count);
        is_given
    }

    /// As [`Self::release_many`], with a receipt.
    pub fn release_many_witnessed(&self, count: usize) -> (bool, Receipt)
        ensures { IsDoneWith self.now.word (Release count) result.0 result.1 }
    {
        let word = self.word();
        let (is_given, mut visitor) = word.release_many_once(self.rt(), count);
        let receipt = word.receipt_by(&mut visitor);
        (is_given, receipt)
    }

    /// Takes one permit. Where it must wait it takes a place, looks there as its spin policy says, and then waits in the queue.
    ///
    /// `Closed`: the semaphore is shut, or was while this waited. `Full`: it would have to wait, and no place is in. Neither error changes anything,
    /// and nothing stays registered in any case.
    #[inline(always)]
    pub fn acquire_sync(&self) -> Result<(), AcquireError>
        ensures granted { IfOk result (λ done. IsGranted self.now.word 1) }
        ensures refused { IfErr result (WasRefused self.now 1) }
    {
        // A semaphore has one permit at least, which its type says.
        let _bounded = self.word();
        let acquired = self.acquire(1);
        self.read_grant(1, acquired)
    }

    /// Takes `count` permits, all at once. Where it must wait it takes a place, looks there as its spin policy says, and then waits in the queue.
    ///
    /// `Ok(true)`: they are granted. `Ok(false)` comes at once, exactly where the count is above [`Self::MAX_PERMITS`]. `Closed`: the semaphore is shut, or
    /// was while this waited. `Full`: it would have to wait, and no place is in. The last three change nothing. Nothing stays registered in any case.
    #[inline(always)]
    pub fn acquire_many_sync(&self, count: usize) -> Result<bool, AcquireError>
        ensures granted { IfOk result (λ is_granted. is_granted ≡ true → IsGranted self.now.word count) }
        ensures refused { IfErr result (WasRefused self.now count) }
        ensures answer { IfOk result (λ is_granted. IsTrue is_granted ↔ (count ≤ MAX)) }
        ensures too_many { MAX < count → result ≡ Ok false }
    {
        if count > MAX {
            return Ok(false);
        }
        let acquired = self.acquire(count);
        match self.read_grant(count, acquired) {
            Ok(()) => Ok(true),
            Err(why) => Err(why),
        }
    }

    /// As [`Self::acquire_many_sync`], with a receipt of what the call's visitor or its place has seen.
    ///
    /// The number is 0 for a grant, and 2 where the semaphore is or was shut. An error is the witness that all places were out of the pool as it looked.
    pub fn acquire_many_witnessed(
        &self,
        count: usize,
    ) -> Result<(u8, Receipt), NoPlace<Place, Word<MAX>>>
        requires { count ≤ MAX }
        ensures acquired { IfOk result (λ reply. IsAcquired self.now.word count (Ok reply.0) reply.1) }
        ensures refused { IfErr result (λ no_place. IsRefusedBy self.now no_place) }
    {
        self.acquire_witnessed(count)
    }

    /// Takes one permit as [`Self::acquire_sync`] does, and calls `begin_wait` where it joins the queue.
    ///
    /// The callback runs once, after the join and before the wait; it may use this semaphore. It doesn't run where the call is answered before it joins, nor
    /// where no place is in.
    pub fn acquire_sync_with<F: FnOnce() + Drop>(&self, begin_wait: F) -> Result<(), AcquireError>
        requires { F.pre begin_wait }
        ensures granted { IfOk result (λ done. IsGranted self.now.word 1) }
        ensures refused { IfErr result (WasRefused self.now 1) }
    {
        // A semaphore has one permit at least, which its type says.
        let _bounded = self.word();
        let acquired = self.acquire_with(1, begin_wait);
        self.read_grant(1, acquired)
    }

    /// Takes `count` permits as [`Self::acquire_many_sync`] does, and calls `begin_wait` where it joins the queue, as [`Self::acquire_sync_with`] does.
    pub fn acquire_many_sync_with<F: FnOnce() + Drop>(
        &self,
        count: usize,
        begin_wait: F,
    ) -> Result<bool, AcquireError>
        requires { F.pre begin_wait }
        ensures granted { IfOk result (λ is_granted. is_granted ≡ true → IsGranted self.now.word count) }
        ensures refused { IfErr result (WasRefused self.now count) }
        ensures answer { IfOk result (λ is_granted. IsTrue is_granted ↔ (count ≤ MAX)) }
        ensures too_many { MAX < count → result ≡ Ok false }
    {
        if count > MAX {
            return Ok(false);
        }
        let acquired = self.acquire_with(count, begin_wait);
        match self.read_grant(count, acquired) {
            Ok(()) => Ok(true),
            Err(why) => Err(why),
        }
    }

    /// The future of one permit: its output is that of [`Self::acquire_sync`].
    ///
    /// Nothing is asked before its first poll, which joins the queue without a look where it must wait. See [`Acquiring`].
    pub fn acquire_async(&self) -> AcquireOf<'_, R, MAX>
        ensures form { result.form ≡ self.now }
        ensures request { result.asking.ask ≡ 1 }
        ensures idle { result.asking.borrowed ≡ None }
        ensures fresh { result.asking.has_ended ≡ false }
    {
        Acquiring::new(self, Pending::new(1))
    }

    /// The future of [`Self::acquire_async`], which calls `begin_wait` where it joins the queue.
    ///
    /// The callback runs once, in the poll that joined, after the join; it may use this semaphore. It doesn't run where the answer is there at once, nor
    /// where no place is in.
    pub fn acquire_async_with<F: FnOnce() + Drop>(
        &self,
        begin_wait: F,
    ) -> AcquireWithOf<'_, R, F, MAX>
        ensures form { result.acquiring.form ≡ self.now }
        ensures request { result.acquiring.asking.ask ≡ 1 }
        ensures idle { result.acquiring.asking.borrowed ≡ None }
        ensures fresh { result.acquiring.asking.has_ended ≡ false }
        ensures callback { result.begin_wait ≡ Some begin_wait }
    {
        AcquiringWith::new(self.acquire_async(), begin_wait)
    }

    /// The future of `count` permits, all at once: its output is that of [`Self::acquire_many_sync`].
    ///
    /// Nothing is asked before its first poll, which joins the queue without a look where it must wait. See [`Acquiring`].
    pub fn acquire_many_async(&self, count: usize) -> AcquireManyOf<'_, R, MAX>
        ensures form { result.form ≡ self.now }
        ensures request { result.asking.ask ≡ count }
        ensures idle { result.asking.borrowed ≡ None }
        ensures fresh { result.asking.has_ended ≡ false }
    {
        Acquiring::new(self, Pending::new(count))
    }

    /// The future of [`Self::acquire_many_async`], which calls `begin_wait` where it joins the queue, as that of [`Self::acquire_async_with`].
    pub fn acquire_many_async_with<F: FnOnce() + Drop>(
        &self,
        count: usize,
        begin_wait: F,
    ) -> AcquireManyWithOf<'_, R, F, MAX>
        ensures form { result.acquiring.form ≡ self.now }
        ensures request { result.acquiring.asking.ask ≡ count }
        ensures idle { result.acquiring.asking.borrowed ≡ None }
        ensures fresh { result.acquiring.asking.has_ended ≡ false }
        ensures callback { result.begin_wait ≡ Some begin_wait }
    {
        AcquiringWith::new(self.acquire_many_async(count), begin_wait)
    }

    /// Registers a pager for `count` permits, to be polled as sync or as async.
    ///
    /// `Ok(true)`: it was answered at once, granted or `Closed`, or waits, last in the queue. `Ok(false)`: the pager is registered already, here or elsewhere, or the count is above
    /// [`Self::MAX_PERMITS`]. `Full`: it would have to wait, and no place is in. All but `Ok(true)` change nothing.
    ///
    /// Where the pager is cancelled, a waiter leaves the queue, and those behind it are granted while they fit; what was granted and not
    /// consumed is given back, as by `release_many`.
    pub fn register_pager<'s>(
        &'s self,
        pager: &mut Pager<'s, Self>,
        count: usize,
        is_sync: bool,
    ) -> Result<bool, Full>
        ensures registered { is_busy pager.new ≡ (is_busy pager.old || was_made result) }
        ensures busy { is_busy pager.old ≡ true → result ≡ Ok false }
        ensures too_many { MAX < count → result ≡ Ok false }
        ensures unchanged { was_made result ≡ false → pager.new ≡ pager.old }
        ensures mode { was_made result ≡ true → mode_of pager.new ≡ Some is_sync }
        ensures asked { was_made result ≡ true → ask_of pager.new ≡ Some count }
        ensures taken { was_made result ≡ true → TakesAt calls_of self.now pager.new }
        ensures full { IfErr result (λ full. WasFull Place self.now) }
        ensures idle { is_busy pager.old ≡ false → count ≤ MAX → IfOk result (λ is_registered. is_registered ≡ true) }
    {
        if count > MAX {
            return Ok(false);
        }
        if pager.is_registered() {
            return Ok(false);
        }
        let mut registration = Registration::new();
        let was_made = self.register_at(&mut registration, count, is_sync)?;
        pager.hold(registration, self);
        Ok(was_made)
    }

    /// A receipt says from now on what another one says, too. Costs one load.
    pub fn join_receipt(&self, receipt: &mut Receipt, other: Receipt)
        requires { IsReceiptAt (table_of self.now.word) receipt.old × IsReceiptAt (table_of self.now.word) other }
        ensures table { IsReceiptAt (table_of self.now.word) receipt.new }
        ensures joined { said receipt.new ≡ said receipt.old ++ said other }
    {
        self.word().join_receipt(receipt, other);
    }

    /// The words at the end, with a receipt as the witness of what led there; never blocks. Costs O(room).
    pub fn close(self, receipt: Receipt) -> Words
        requires { IsReceiptAt (table_of self.word) receipt }
        ensures places { result.places ≡ (about_of self.word).places }
        ensures led { IsLedOn (about_of self.word) (numbers result) (said receipt) }
    {
        let Form {
            rt: _,
            word,
            places: _,
            spin_policy: _,
        } = self;
        word.close_on(receipt)
    }
}

impl<R: Wait + Drop, const MAX: usize> fmt::Debug for Form<R, Word<MAX>> {
    /// Shows how many permits are available, by one load, and the room.
    fn fmt<W: fmt::Write>(&self, f: &mut fmt::Formatter<W>) -> fmt::Result {
        let available = self.available();
        let room = self.room();
        write!(
            f,
            "Semaphore {{ available_permits: {available}, room: {room} }}"
        )
    }
}

impl<const MAX: usize> PagerForm for Word<MAX> {
    ghost use Rattle.std.proofs.Common.{refl};
    ghost use Rattle.saa_core_spec.specs.Values.{semaphore_value};
    ghost use Rattle.saa_word_lock_free.specs.Answers.{answer_of, fault_of, is_no_fault};
    ghost use Rattle.std.specs.Prelude.{◌==◌};

    type Value = Result<(), Error>;

    ghost is_value = { λ value. Unit {0} };

    ghost is_answer = { λ value. Unit {0} };

    ghost answer = { answer_of semaphore_value };

    ghost fault = { fault_of };

    ghost reading = { semaphore_value };

    ghost errors = { λ value error. refl };

    ghost answers = { λ value is. is_no_fault (value == 2) };

    /// 2 says that the semaphore was shut; every other value is a grant.
    fn value(value: u8) -> Result<(), Error> {
        if value == CLOSED {
            return Err(Error::Closed);
        }
        Ok(())
    }

    fn read(polled: Result<u8, Error>) -> Result<(), Error> {
        match polled {
            Ok(value) => Self::value(value),
            Err(error) => Err(error),
        }
    }
}
