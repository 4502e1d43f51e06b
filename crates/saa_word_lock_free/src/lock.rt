//! The lock-free lock that any task uses by `&self`: one owner alone or up to 62 that share it, and poison.
//!
//! Each call is a call of the word's lock (`saa_word_threads::lock`), by a visitor or at a place of the pool. Calls that end in `_witnessed` hand out a
//! receipt of the one history with their answer; the others make the same calls, and keep none.

ghost use Rattle.std.specs.Prelude.{◌≡◌, ◌++◌, ◌||◌, true, false, IfErr, IfOk, Ok, Some};
ghost use Rattle.saa_core_spec.specs.declared.lock.Mode.TheVariants.{Exclusive, Shared};
ghost use Rattle.saa_word_lock_free.specs.Forms.{IsRefusedBy, TakesAt, WasFull};
ghost use Rattle.saa_word_steps.specs.declared.call.WordCall.TheVariants.{ClearPoison, Downgrade, IsFree, IsLocked, IsPoisoned, IsShared, PoisonLock, ReleaseLock, ReleaseShare};
ghost use Rattle.saa_word_steps.specs.declared.rules.Rules.TheVariants.{Modes};
ghost use Rattle.saa_word_threads.specs.Dealt.{numbers};
ghost use Rattle.saa_word_threads.specs.Locks.{about_of, table_of};
ghost use Rattle.saa_word_threads.specs.Receipts.{IsLedOn, IsReceiptAt, said};
ghost use Rattle.saa_word_lock_free.specs.LockCalls.{IsAcquired, IsDone, IsDoneWith, SaysGranted, IsTriedIn, IsTriedWith};
ghost use Rattle.saa_word_lock_free.specs.OfLock.{calls_of};
ghost use Rattle.saa_word_lock_free.specs.Registered.{ask_of, is_busy, is_yes as was_made, mode_of, unregistered};

use crate::form::{Form, NoPlace};
use crate::future::{Acquiring, AcquiringWith, LockFuture, LockFutureWith};
use crate::pager::{Pager, PagerForm};
use crate::registration::Registration;
use crate::tasks::Pending;
use crate::waiting::GRANTED;
use crate::word_form::WordForm;
use saa_core_spec::request::Full;
use saa_core_waits::spin_policy::{DEFAULT, SpinPolicy};
use saa_word_threads::lock::{Lock as Word, Place, Words};
pub use saa_word_threads::lock::{Error, Mode, TryLockError};
use saa_word_threads::receipt::Receipt;
use std::alloc::{AllocError, Global};
use std::fmt;
use std::sync::Wait;
use std::sync::atomic::Ordering;

/// A lock that any number of tasks share, in one atomic word.
///
/// Waiters are granted in FIFO order of joining the queue: no later request passes a waiter. A call that needn't wait takes no place, no other lock and no
/// memory (a wait mode takes a place in any case). A call that has to wait takes one of the places that the lock was made with, and is refused where none is in. The lock doesn't know its
/// owners: any task may release.
///
/// Each registration and pager is used with the lock that it was registered in.
pub type Lock<R> = Form<R, Word>;

/// A word that owners share, whose type says how many may do so at most.
pub trait SharedWord: WordForm {
    /// The most owners that share it.
    const MAX_SHARED_OWNERS: usize;
}

impl SharedWord for Word {
    const MAX_SHARED_OWNERS: usize = Word::MAX_SHARED_OWNERS;
}

impl<R: Wait + Drop, W: SharedWord> Form<R, W> {
    /// The most owners that share a lock.
    pub const MAX_SHARED_OWNERS: usize = W::MAX_SHARED_OWNERS;
}

impl<R: Wait + Drop> Form<R, Word> {
    /// A free lock with room for so many waiters. Costs O(`room`).
    ///
    /// Reserves all the memory that it will ever need; the error comes only where that was refused.
    pub fn new(rt: R, alloc: Global, room: u16) -> Result<Self, AllocError>
        ensures made { IfOk result (λ lock. about_of lock.word ≡ record { rules = Modes; withheld = 0; places = room }) }
        ensures spin_policy { IfOk result (λ lock. lock.spin_policy ≡ DEFAULT) }
    {
        Self::with_spin_policy(rt, alloc, room, DEFAULT)
    }

    /// As [`Self::new`], with a spin policy of its own: how often a call that may block, and isn't timed, looks and yields at its place before that joins the
    /// queue. With [`NONE`](saa_core_waits::spin_policy::NONE) it joins at once.
    pub fn with_spin_policy(
        rt: R,
        alloc: Global,
        room: u16,
        spin_policy: SpinPolicy,
    ) -> Result<Self, AllocError>
        ensures made { IfOk result (λ lock. about_of lock.word ≡ record { rules = Modes; withheld = 0; places = room }) }
        ensures spin_policy { IfOk result (λ lock. lock.spin_policy ≡ spin_policy) }
    {
        let (word, places) = Word::new(alloc, room)?;
        Self::of_word(rt, alloc, word, places, spin_policy)
    }

    /// Whether nobody has the lock, and it isn't poisoned. Every ordering acts as the sequentially consistent one; none panics.
    pub fn is_free(&self, _mo: Ordering) -> bool
        ensures { IsDone self.now.word IsFree result }
    {
        let (is_free, _visitor) = self.word().is_free_once();
        is_free
    }

    /// Whether one owner has the lock alone. Every ordering acts as the sequentially consistent one; none panics.
    pub fn is_locked(&self, _mo: Ordering) -> bool
        ensures { IsDone self.now.word IsLocked result }
    {
        let (is_locked, _visitor) = self.word().is_locked_once();
        is_locked
    }

    /// Whether the lock is shared. Every ordering acts as the sequentially consistent one; none panics.
    pub fn is_shared(&self, _mo: Ordering) -> bool
        ensures { IsDone self.now.word IsShared result }
    {
        let (is_shared, _visitor) = self.word().is_shared_once();
        is_shared
    }

    /// Whether the lock is poisoned. Every ordering acts as the sequentially consistent one; none panics.
    pub fn is_poisoned(&self, _mo: Ordering) -> bool
        ensures { IsDone self.now.word IsPoisoned result }
    {
        let (is_poisoned, _visitor) = self.word().is_poisoned_once();
        is_poisoned
    }

    /// Takes the lock for one owner alone if there is no waiter and it is free; never waits for it. Wakes no waiter.
    ///
    /// `Poisoned`: the lock is poisoned. `WouldBlock`: it has an owner, or there is a waiter. Both change nothing.
    #[inline(always)]
    pub fn try_lock(&self) -> Result<(), TryLockError>
        ensures { IsTriedIn self.now.word Exclusive result }
    {
        let (reply, _visitor) = self.word().try_lock_once(self.rt());
        reply
    }

    /// Takes a share of the lock if there is no waiter and one is left; never waits for it. Wakes no waiter.
    ///
    /// `Poisoned`: the lock is poisoned. `WouldBlock`: one owner has it alone, or 62 share it, or there is a waiter. Both change nothing.
    #[inline(always)]
    pub fn try_share(&self) -> Result<(), TryLockError>
        ensures { IsTriedIn self.now.word Shared result }
    {
        let (reply, _visitor) = self.word().try_share_once(self.rt());
        reply
    }

    /// As [`Self::try_lock`] or, in mode `Shared`, [`Self::try_share`], with a receipt; in a wait mode it is `WouldBlock`, and no call is made.
    pub fn try_witnessed(&self, mode: Mode) -> (Result<(), TryLockError>, Receipt)
        ensures { IsTriedWith self.now.word mode result.0 result.1 }
    {
        let word = self.word();
        let (reply, mut visitor) = word.try_once(self.rt(), mode);
        let receipt = word.receipt_by(&mut visitor);
        (reply, receipt)
    }

    /// Gives the lock of one owner back, grants the oldest waiters while they fit, and wakes exactly those.
    ///
    /// `false` comes exactly where the lock has no exclusive owner, and changes nothing. The caller needn't be that owner.
    #[inline(always)]
    pub fn release_lock(&self) -> bool
        ensures { IsDone self.now.word ReleaseLock result }
    {
        let (is_given, _visitor) = self.word().release_lock_once(self.rt());
        is_given
    }

    /// As [`Self::release_lock`], with a receipt.
    pub fn release_lock_witnessed(&self) -> (bool, Receipt)
        ensures { IsDoneWith self.now.word ReleaseLock result.0 result.1 }
    {
        let word = self.word();
        let (is_given, mut visitor) = word.release_lock_once(self.rt());
        let receipt = word.receipt_by(&mut visitor);
        (is_given, receipt)
    }

    /// Gives one share back, grants the oldest waiters while they fit, and wakes exactly those.
    ///
    /// `false` comes exactly where the lock isn't shared, and changes nothing. The caller needn't be a sharer.
    #[inline(always)]
    pub fn release_share(&self) -> bool
        ensures { IsDone self.now.word ReleaseShare result }
    {
        let (is_given, _visitor) = self.word().release_share_once(self.rt());
        is_given
    }

    /// As [`Self::release_share`], with a receipt.
    pub fn release_share_witnessed(&self) -> (bool, Receipt)
        ensures { IsDoneWith self.now.word ReleaseShare result.0 result.1 }
    {
        let word = self.word();
        let (is_given, mut visitor) = word.release_share_once(self.rt());
        let receipt = word.receipt_by(&mut visitor);
        (is_given, receipt)
    }

    /// Makes the one owner a sharer, grants the oldest waiters while they fit beside it, and wakes exactly those.
    ///
    /// The lock has no other owner in between. `false` comes exactly where it has no exclusive owner, and changes
    /// nothing. The caller needn't be that owner.
    pub fn downgrade(&self) -> bool
        ensures { IsDone self.now.word Downgrade result }
    {
        let (is_lowered, _visitor) = self.word().downgrade_once(self.rt());
        is_lowered
    }

    /// As [`Self::downgrade`], with a receipt.
    pub fn downgrade_witnessed(&self) -> (bool, Receipt)
        ensures { IsDoneWith self.now.word Downgrade result.0 result.1 }
    {
        let word = self.word();
        let (is_lowered, mut visitor) = word.downgrade_once(self.rt());
        let receipt = word.receipt_by(&mut visitor);
        (is_lowered, receipt)
    }

    /// Poisons the lock that one owner has alone: all waiters are answered that it is poisoned, and woken. A call that hasn't joined the
    /// queue is no waiter: it is told only if it tries or joins while the lock is poisoned.
    ///
    /// `false` comes exactly where the lock isn't one owner's alone, and changes nothing. Answers that were there before
    /// stay as they are.
    pub fn poison_lock(&self) -> bool
        ensures { IsDone self.now.word PoisonLock result }
    {
        let (is_poisoned, _visitor) = self.word().poison_lock_once(self.rt());
        is_poisoned
    }

    /// As [`Self::poison_lock`], with a receipt.
    pub fn poison_lock_witnessed(&self) -> (bool, Receipt)
        ensures { IsDoneWith self.now.word PoisonLock result.0 result.1 }
    {
        let word = self.word();
        let (is_poisoned, mut visitor) = word.poison_lock_once(self.rt());
        let receipt = word.receipt_by(&mut visitor);
        (is_poisoned, receipt)
    }

    /// Makes a poisoned lock free; it has no waiters. Wakes no waiter.
    ///
    /// `false` comes exactly where the lock isn't poisoned, and changes nothing.
    pub fn clear_poison(&self) -> bool
        ensures { IsDone self.now.word ClearPoison result }
    {
        let (is_cleared, _visitor) = self.word().clear_poison_once(self.rt());
        is_cleared
    }

    /// Takes the lock for one owner alone. Where it must wait it takes a place, looks there as its spin policy says, and then waits in the queue.
    ///
    /// `Ok(true)`: it is granted. `Ok(false)`: it found the lock poisoned, or the lock was poisoned while it was in the queue; of poison
    /// that is set and cleared again between two of its looks it is never told. `Full`: it would have to wait, and no place is in; nothing is changed.
    /// Nothing stays registered in any case.
    #[inline(always)]
    pub fn lock_sync(&self) -> Result<bool, Full>
        ensures answered { IfOk result (SaysGranted self.now.word Exclusive) }
        ensures full { IfErr result (λ full. WasFull Place self.now) }
    {
        self.take(Mode::Exclusive)
    }

    /// Takes a share of the lock; waits and answers as [`Self::lock_sync`] does.
    #[inline(always)]
    pub fn share_sync(&self) -> Result<bool, Full>
        ensures answered { IfOk result (SaysGranted self.now.word Shared) }
        ensures full { IfErr result (λ full. WasFull Place self.now) }
    {
        self.take(Mode::Shared)
    }

    // Takes the lock in a mode.
    #[inline(always)]
    fn take(&self, mode: Mode) -> Result<bool, Full>
        ensures answered { IfOk result (SaysGranted self.now.word mode) }
        ensures full { IfErr result (λ full. WasFull Place self.now) }
    {
        match self.acquire(mode) {
            Ok(value) => Ok(value == GRANTED),
            Err(full) => Err(full),
        }
    }

    /// As [`Self::lock_sync`] or, in mode `Shared`, [`Self::share_sync`], with a receipt of what the call's visitor or its place has seen: the number 0 is a
    /// grant, and 2 says that the lock was poisoned. In a wait mode it takes a place in any case, waits until the lock could be had so, or is poisoned, and
    /// takes nothing of the lock.
    ///
    /// An error is the witness that all places were out of the pool as it looked.
    pub fn take_witnessed(&self, mode: Mode) -> Result<(u8, Receipt), NoPlace<Place, Word>>
        ensures acquired { IfOk result (λ reply. IsAcquired self.now.word mode (Ok reply.0) reply.1) }
        ensures refused { IfErr result (λ no_place. IsRefusedBy self.now no_place) }
    {
        self.acquire_witnessed(mode)
    }

    /// Takes the lock as [`Self::lock_sync`] does, and calls `begin_wait` where it joins the queue.
    ///
    /// The callback runs once, after the join and before the wait; it may use this lock. It doesn't run where the call is answered before it joins, nor where
    /// no place is in.
    pub fn lock_sync_with<F: FnOnce() + Drop>(&self, begin_wait: F) -> Result<bool, Full>
        requires { F.pre begin_wait }
        ensures answered { IfOk result (SaysGranted self.now.word Exclusive) }
        ensures full { IfErr result (λ full. WasFull Place self.now) }
    {
        self.take_with(Mode::Exclusive, begin_wait)
    }

    /// Takes a share as [`Self::share_sync`] does, and calls `begin_wait` where it joins the queue, as [`Self::lock_sync_with`] does.
    pub fn share_sync_with<F: FnOnce() + Drop>(&self, begin_wait: F) -> Result<bool, Full>
        requires { F.pre begin_wait }
        ensures answered { IfOk result (SaysGranted self.now.word Shared) }
        ensures full { IfErr result (λ full. WasFull Place self.now) }
    {
        self.take_with(Mode::Shared, begin_wait)
    }

    // Takes the lock in a mode, with a callback.
    fn take_with<F: FnOnce() + Drop>(&self, mode: Mode, begin_wait: F) -> Result<bool, Full>
        requires { F.pre begin_wait }
        ensures answered { IfOk result (SaysGranted self.now.word mode) }
        ensures full { IfErr result (λ full. WasFull Place self.now) }
    {
        match self.acquire_with(mode, begin_wait) {
            Ok(value) => Ok(value == GRANTED),
            Err(full) => Err(full),
        }
    }

    /// The future of the lock for one owner alone: its output is that of [`Self::lock_sync`].
    ///
    /// Nothing is asked before its first poll, which joins the queue without a look where it must wait. See [`Acquiring`].
    pub fn lock_async(&self) -> LockFuture<'_, R>
        ensures form { result.form ≡ self.now }
        ensures request { result.asking.ask ≡ Exclusive }
        ensures idle { result.asking.borrowed ≡ None }
        ensures fresh { result.asking.has_ended ≡ false }
    {
        Acquiring::new(self, Pending::new(Mode::Exclusive))
    }

    /// The future of [`Self::lock_async`], which calls `begin_wait` where it joins the queue.
    ///
    /// The callback runs once, in the poll that joined, after the join; it may use this lock. It doesn't run where the answer is there at once, nor where no
    /// place is in.
    pub fn lock_async_with<F: FnOnce() + Drop>(&self, begin_wait: F) -> LockFutureWith<'_, R, F>
        ensures form { result.acquiring.form ≡ self.now }
        ensures request { result.acquiring.asking.ask ≡ Exclusive }
        ensures idle { result.acquiring.asking.borrowed ≡ None }
        ensures fresh { result.acquiring.asking.has_ended ≡ false }
        ensures callback { result.begin_wait ≡ Some begin_wait }
    {
        AcquiringWith::new(self.lock_async(), begin_wait)
    }

    /// The future of a share of the lock: its output is that of [`Self::share_sync`], and else it is as that of [`Self::lock_async`].
    pub fn share_async(&self) -> LockFuture<'_, R>
        ensures form { result.form ≡ self.now }
        ensures request { result.asking.ask ≡ Shared }
        ensures idle { result.asking.borrowed ≡ None }
        ensures fresh { result.asking.has_ended ≡ false }
    {
        Acquiring::new(self, Pending::new(Mode::Shared))
    }

    /// The future of [`Self::share_async`], which calls `begin_wait` where it joins the queue, as that of [`Self::lock_async_with`].
    pub fn share_async_with<F: FnOnce() + Drop>(&self, begin_wait: F) -> LockFutureWith<'_, R, F>
        ensures form { result.acquiring.form ≡ self.now }
        ensures request { result.acquiring.asking.ask ≡ Shared }
        ensures idle { result.acquiring.asking.borrowed ≡ None }
        ensures fresh { result.acquiring.asking.has_ended ≡ false }
        ensures callback { result.begin_wait ≡ Some begin_wait }
    {
        AcquiringWith::new(self.share_async(), begin_wait)
    }

    /// Registers a pager in a mode, to be polled as sync or as async.
    ///
    /// `Ok(true)`: it was answered at once, granted or poisoned, or waits, last in the queue. `Ok(false)`: the pager is
    /// registered already, here or elsewhere. `Full`: it would have to wait, and no place is in; a wait mode takes a place in any case.
    /// All but `Ok(true)` change nothing.
    ///
    /// Where the pager is cancelled, a waiter leaves the queue, and those behind it are granted while they fit; what was granted and not
    /// consumed is given back as by the release of its mode. A granted wait mode and a poisoned answer give nothing back.
    pub fn register_pager<'s>(
        &'s self,
        pager: &mut Pager<'s, Self>,
        mode: Mode,
        is_sync: bool,
    ) -> Result<bool, Full>
        ensures registered { is_busy pager.new ≡ (is_busy pager.old || was_made result) }
        ensures busy { is_busy pager.old ≡ true → result ≡ Ok false }
        ensures unchanged { was_made result ≡ false → pager.new ≡ pager.old }
        ensures mode { was_made result ≡ true → mode_of pager.new ≡ Some is_sync }
        ensures asked { was_made result ≡ true → ask_of pager.new ≡ Some mode }
        ensures taken { was_made result ≡ true → TakesAt calls_of self.now pager.new }
        ensures full { IfErr result (λ full. WasFull Place self.now) }
        ensures idle { is_busy pager.old ≡ false → IfOk result (λ is_registered. is_registered ≡ true) }
    {
        if pager.is_registered() {
            return Ok(false);
        }
        let mut registration = Registration::new();
        let was_made = self.register_at(&mut registration, mode, is_sync)?;
        pager.hold(registration, self);
        Ok(was_made)
    }

    /// A receipt says from now on what another one says, too. Costs one load.
    pub fn join_receipt(&self, receipt: &mut Receipt, other: Receipt)
        requires { IsReceiptAt (table_of self.now.word) receipt.old × IsReceiptAt (table_of self.now.word) other }
        ensures table { IsReceiptAt (table_of self.now.word) receipt.new }
        ensures joined { said receipt.new ≡ said receipt.old ++ said other }
    {
        self.word().join_receipt(receipt, other);
    }

    /// The words at the end, with a receipt as the witness of what led there; never blocks. Costs O(room).
    pub fn close(self, receipt: Receipt) -> Words
        requires { IsReceiptAt (table_of self.word) receipt }
        ensures places { result.places ≡ (about_of self.word).places }
        ensures led { IsLedOn (about_of self.word) (numbers result) (said receipt) }
    {
        let Form {
            rt: _,
            word,
            places: _,
            spin_policy: _,
        } = self;
        word.close_on(receipt)
    }
}

impl<R: Wait + Drop> fmt::Debug for Form<R, Word> {
    /// Shows whether it is locked, shared and poisoned, by a load each, which may be of different moments; and the room.
    fn fmt<W: fmt::Write>(&self, f: &mut fmt::Formatter<W>) -> fmt::Result {
        let is_locked = self.is_locked(Ordering::SeqCst);
        let is_shared = self.is_shared(Ordering::SeqCst);
        let is_poisoned = self.is_poisoned(Ordering::SeqCst);
        let room = self.room();
        write!(
            f,
            "Lock {{ locked: {is_locked}, shared: {is_shared}, poisoned: {is_poisoned}, room: {room} }}"
        )
    }
}

impl PagerForm for Word {
    ghost use Rattle.std.specs.Prelude.{◌⊎◌};
    ghost use Rattle.std.proofs.Common.{refl};
    ghost use Rattle.saa_core_spec.specs.Values.{lock_value};
    ghost use Rattle.saa_word_lock_free.specs.Answers.{answer_of, fault_of};

    type Value = Result<bool, Error>;

    ghost is_value = { λ value. (value ≡ 0) ⊎ (value ≡ 2) };

    ghost is_answer = { λ value. Unit {0} };

    ghost answer = { answer_of lock_value };

    ghost fault = { fault_of };

    ghost reading = { lock_value };

    ghost errors = { λ value error. refl };

    ghost answers = { λ value is. refl };

    /// 0 is a grant, and 2 says that the lock was poisoned.
    fn value(value: u8) -> Result<bool, Error> {
        Ok(value == GRANTED)
    }

    fn read(polled: Result<u8, Error>) -> Result<bool, Error> {
        match polled {
            Ok(value) => Ok(value == GRANTED),
            Err(error) => Err(error),
        }
    }
}
