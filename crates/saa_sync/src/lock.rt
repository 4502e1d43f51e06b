//! The lock that threads share: a `LockCore` in a form.
//!
//! Each call locks the mutex around the core once, makes one step of it, and wakes what is pending. What the step does is the contract
//! of the core's method, held to `specs/Lock.antt` of `saa_core_spec`.

ghost use Rattle.std.specs.Prelude.{◌≡◌, ◌||◌, ◌==◌, true, false, IfOk, IsOk, Ok, Some};
ghost use Rattle.saa_core_spec.specs.declared.request.Request.TheVariants.{Exclusive as AskExclusive, Shared as AskShared};
ghost use Rattle.saa_core.specs.declared.ticket.Registration.TheVariants.{Unregistered};
ghost use Rattle.saa_core.specs.Tickets.{is_busy, is_yes};
ghost use Rattle.saa_core.specs.Beginning.{mode_of};
ghost use Rattle.saa_sync.specs.Forms.{room_of, spin_policy_of, waiter_policy_of};

use crate::form::{Form, PagerCore};
use crate::future::lock::{LockFuture, LockFutureWith, ShareFuture, ShareFutureWith};
use crate::pager::Pager;
use crate::parker::WAITER;
use crate::spin_policy::{DEFAULT, SpinPolicy};
pub use saa_core::lock::{LockAnswer, LockCall, LockCore, Mode, TryLockError};
use saa_core::primitive::Primitive;
use saa_core::ticket::{Error, Full};
use std::alloc::{AllocError, Global};
use std::sync::Wait;
use std::sync::atomic::Ordering;

/// A lock that threads share, of one owner alone or of up to 62 that share it.
///
/// Waiters are granted in FIFO order of joining the queue: no later request passes a waiter, a reader beside readers included. A call
/// that may block, and isn't timed, first tries and spins for a bounded number of times ([`SpinPolicy`]); until it joins it is no
/// waiter, and nothing orders it. The lock doesn't know its owners: any caller may release, so keep the call with the owner. `R` is
/// the permission to block, as a reference to the runtime. Every call may wait for the mutex around the core, which is held for one
/// short step at a time. No call but making takes memory.
///
/// Each ticket and pager is used with the lock that it was registered in.
pub type Lock<R> = Form<R, LockCore>;

/// A core of a lock, whose type says how many owners share it at most.
pub trait SharedCore: Primitive {
    /// The most owners that share a lock.
    const MAX_SHARED_OWNERS: usize;
}

impl SharedCore for LockCore {
    const MAX_SHARED_OWNERS: usize = LockCore::MAX_SHARED_OWNERS;
}

impl<R: Wait + Drop, C: SharedCore> Form<R, C> {
    /// The most owners that share a lock.
    pub const MAX_SHARED_OWNERS: usize = C::MAX_SHARED_OWNERS;
}

impl<R: Wait + Drop> Form<R, LockCore> {
    /// A free lock, and room for so many waiters. Costs O(`room`).
    ///
    /// Reserves all the memory that it will ever need; the error comes only where that was refused, and so never for
    /// room 0, which takes none.
    pub fn new(rt: R, alloc: Global, room: u16) -> Result<Self, AllocError>
        ensures no_room { room ≡ 0 → IsOk result }
        ensures spin_policy { IfOk result (λ lock. spin_policy_of lock ≡ DEFAULT) }
        ensures waiter { IfOk result (λ lock. waiter_policy_of lock ≡ WAITER) }
        ensures room { IfOk result (λ lock. room_of lock ≡ room) }
    {
        Self::with_spin_policy(rt, alloc, room, DEFAULT)
    }

    /// As [`Self::new`], with a spin policy of its own for calls that aren't registered yet; [`NONE`](crate::spin_policy::NONE) has each
    /// call register at its first turn at the mutex, so that grants come in the order of these turns.
    pub fn with_spin_policy(
        rt: R,
        alloc: Global,
        room: u16,
        spin_policy: SpinPolicy,
    ) -> Result<Self, AllocError>
        ensures no_room { room ≡ 0 → IsOk result }
        ensures spin_policy { IfOk result (λ lock. spin_policy_of lock ≡ spin_policy) }
        ensures waiter { IfOk result (λ lock. waiter_policy_of lock ≡ WAITER) }
        ensures room { IfOk result (λ lock. room_of lock ≡ room) }
    {
        let core = LockCore::new(alloc, room)?;
        Self::of_core(rt, alloc, core, room, spin_policy, WAITER)
    }

    /// Whether nobody has the lock and it isn't poisoned. Every ordering acts as the sequentially consistent one; none
    /// panics.
    pub fn is_free(&self, _mo: Ordering) -> bool {
        self.lock().core.is_free()
    }

    /// Whether one owner has the lock alone. Every ordering acts as the sequentially consistent one; none panics.
    pub fn is_locked(&self, _mo: Ordering) -> bool {
        self.lock().core.is_locked()
    }

    /// Whether the lock is shared. Every ordering acts as the sequentially consistent one; none panics.
    pub fn is_shared(&self, _mo: Ordering) -> bool {
        self.lock().core.is_shared()
    }

    /// Whether the lock is poisoned. Every ordering acts as the sequentially consistent one; none panics.
    pub fn is_poisoned(&self, _mo: Ordering) -> bool {
        self.lock().core.is_poisoned()
    }

    /// Takes the lock for one owner alone if there is no waiter and it is free; never waits for it. Wakes no waiter.
    ///
    /// `Poisoned`: the lock is poisoned. `WouldBlock`: somebody has it, or there is a waiter. Both change nothing.
    pub fn try_lock(&self) -> Result<(), TryLockError> {
        self.lock().core.try_lock()
    }

    /// Takes a share of the lock if there is no waiter and one is left; never waits for it. Wakes no waiter.
    ///
    /// `Poisoned`: the lock is poisoned. `WouldBlock`: one owner has it alone, or 62 share it, or there is a waiter. Both
    /// change nothing.
    pub fn try_share(&self) -> Result<(), TryLockError> {
        self.lock().core.try_share()
    }

    /// Gives the lock of one owner back, grants the oldest waiters while they fit, and wakes exactly those.
    ///
    /// `false` comes exactly where the lock has no exclusive owner, and changes nothing. The caller needn't be that owner.
    /// Each waiter that is granted costs an unpark of its seat, and each second one of them the mutex once more.
    #[inline(always)]
    pub fn release_lock(&self) -> bool {
        self.step(LockCore::release_lock)
    }

    /// Gives one share back, grants the oldest waiters while they fit, and wakes exactly those.
    ///
    /// `false` comes exactly where the lock isn't shared, and changes nothing. The caller needn't be a sharer.
    #[inline(always)]
    pub fn release_share(&self) -> bool {
        self.step(LockCore::release_share)
    }

    /// Makes the one owner a sharer, grants the oldest waiters while they fit beside it, and wakes exactly those.
    ///
    /// The lock has no other owner in between. `false` comes exactly where it has no exclusive owner, and changes
    /// nothing. The caller needn't be that owner.
    pub fn downgrade(&self) -> bool {
        self.step(LockCore::downgrade)
    }

    /// Poisons the lock that one owner has alone: all waiters are answered that it is poisoned, and woken. A call that hasn't joined the
    /// queue is no waiter: it is told only if it tries or joins while the lock is poisoned.
    ///
    /// `false` comes exactly where the lock isn't one owner's alone, and changes nothing. Answers that were there before
    /// stay as they are.
    pub fn poison_lock(&self) -> bool {
        self.step(LockCore::poison_lock)
    }

    /// Makes a poisoned lock free; it has no waiters. Wakes no waiter.
    ///
    /// `false` comes exactly where the lock isn't poisoned, and changes nothing.
    pub fn clear_poison(&self) -> bool {
        self.step(LockCore::clear_poison)
    }

    /// Takes the lock for one owner alone. It spins first, as its spin policy says, and then waits in the queue where it must.
    ///
    /// `Ok(true)`: it is granted. `Ok(false)`: it found the lock poisoned, or the lock was poisoned while it was in the queue; of poison
    /// that is set and cleared again between two of its tries it is never told. `Full`: its spins are over, it would have to wait, and as
    /// many slots are held as there is room; nothing is changed. Nothing stays registered in any case.
    #[inline(always)]
    pub fn lock_sync(&self) -> Result<bool, Full> {
        let value = self.acquire(Mode::Exclusive)?;
        Ok(is_granted(value))
    }

    /// Takes a share of the lock; waits and answers as [`Self::lock_sync`] does.
    #[inline(always)]
    pub fn share_sync(&self) -> Result<bool, Full> {
        let value = self.acquire(Mode::Shared)?;
        Ok(is_granted(value))
    }

    /// Takes the lock as [`Self::lock_sync`] does, and calls `begin_wait` where it joins the queue.
    ///
    /// The callback runs once, after the join and before the wait, with the mutex free; it may use this
    /// lock. It doesn't run where the call is answered before it joins, nor where the room is full.
    pub fn lock_sync_with<F: FnOnce() + Drop>(&self, begin_wait: F) -> Result<bool, Full>
        requires { F.pre begin_wait }
    {
        let value = self.acquire_with(Mode::Exclusive, begin_wait)?;
        Ok(is_granted(value))
    }

    /// Takes a share as [`Self::share_sync`] does, and calls `begin_wait` where it joins the queue, as
    /// [`Self::lock_sync_with`] does.
    pub fn share_sync_with<F: FnOnce() + Drop>(&self, begin_wait: F) -> Result<bool, Full>
        requires { F.pre begin_wait }
    {
        let value = self.acquire_with(Mode::Shared, begin_wait)?;
        Ok(is_granted(value))
    }

    /// The future of the lock for one owner alone: its output is that of [`Self::lock_sync`].
    ///
    /// Nothing is asked before its first poll. See [`Acquiring`](crate::future::Acquiring).
    pub fn lock_async(&self) -> LockFuture<'_, R>
        ensures form { result.form ≡ self.now }
        ensures request { result.asking.request ≡ AskExclusive }
        ensures idle { result.asking.ticket ≡ Unregistered }
        ensures fresh { result.asking.has_ended ≡ false }
    {
        self.future(Mode::Exclusive)
    }

    /// The future of [`Self::lock_async`], which calls `begin_wait` where it joins the queue.
    ///
    /// The callback runs once, in the poll that joined, after the join and with the mutex free; it may use
    /// this lock. It doesn't run where the answer is there at once, nor where the room is full.
    pub fn lock_async_with<F: FnOnce() + Drop>(&self, begin_wait: F) -> LockFutureWith<'_, R, F>
        ensures form { result.acquiring.form ≡ self.now }
        ensures request { result.acquiring.asking.request ≡ AskExclusive }
        ensures idle { result.acquiring.asking.ticket ≡ Unregistered }
        ensures fresh { result.acquiring.asking.has_ended ≡ false }
        ensures callback { result.begin_wait ≡ Some begin_wait }
    {
        self.future_with(Mode::Exclusive, begin_wait)
    }

    /// The future of a share of the lock: its output is that of [`Self::share_sync`].
    ///
    /// Nothing is asked before its first poll. See [`Acquiring`](crate::future::Acquiring).
    pub fn share_async(&self) -> ShareFuture<'_, R>
        ensures form { result.form ≡ self.now }
        ensures request { result.asking.request ≡ AskShared }
        ensures idle { result.asking.ticket ≡ Unregistered }
        ensures fresh { result.asking.has_ended ≡ false }
    {
        self.future(Mode::Shared)
    }

    /// The future of [`Self::share_async`], which calls `begin_wait` where it joins the queue.
    ///
    /// The callback runs once, in the poll that joined, after the join and with the mutex free; it may use
    /// this lock. It doesn't run where the answer is there at once, nor where the room is full.
    pub fn share_async_with<F: FnOnce() + Drop>(&self, begin_wait: F) -> ShareFutureWith<'_, R, F>
        ensures form { result.acquiring.form ≡ self.now }
        ensures request { result.acquiring.asking.request ≡ AskShared }
        ensures idle { result.acquiring.asking.ticket ≡ Unregistered }
        ensures fresh { result.acquiring.asking.has_ended ≡ false }
        ensures callback { result.begin_wait ≡ Some begin_wait }
    {
        self.future_with(Mode::Shared, begin_wait)
    }

    /// Registers a pager in a mode, to be polled as sync or as async.
    ///
    /// `Ok(true)`: it was answered at once, granted or poisoned, or waits, last in the queue. `Ok(false)`: the pager is
    /// registered already, here or elsewhere. `Full`: it would have to wait, and as many slots are held as there is room.
    /// All but `Ok(true)` change nothing.
    ///
    /// Where the pager is cancelled, a waiter leaves the queue, and those behind it are granted while they fit; what was granted and not
    /// consumed is given back as by the release of its mode, and nothing where the lock is poisoned by then. A granted wait mode and a
    /// Poisoned answer give nothing back. Costs O(1) at any position, and a wake for each that is granted.
    pub fn register_pager<'s>(
        &'s self,
        pager: &mut Pager<'s, Self>,
        mode: Mode,
        is_sync: bool,
    ) -> Result<bool, Full>
        ensures registered { is_busy pager.new ≡ (is_busy pager.old || is_yes result) }
        ensures busy { is_busy pager.old ≡ true → result ≡ Ok false }
        ensures unchanged { is_yes result ≡ false → pager.new ≡ pager.old }
        ensures mode { is_yes result ≡ true → mode_of pager.new ≡ Some is_sync }
        ensures idle { is_busy pager.old ≡ false → IfOk result (λ is_registered. is_registered ≡ true) }
    {
        self.page(pager, mode, is_sync)
    }
}

impl PagerCore for LockCore {
    ghost use Rattle.std.specs.Prelude.{◌≡◌, ◌⊎◌};
    ghost use Rattle.saa_core.specs.Tickets.{fault_of};
    ghost use Rattle.std.proofs.Common.{refl};
    ghost use Rattle.saa_core_spec.specs.Values.{lock_value};

    ghost is_value = { λ value. (value ≡ 0) ⊎ (value ≡ 2) };

    ghost is_answer = { λ value. Unit {0} };

    ghost fault = { λ result. fault_of result };

    ghost reading = { lock_value };

    /// 0, granted, is `Ok(true)`, and 2, poisoned, `Ok(false)`; an error is itself.
    fn read(polled: Result<u8, Error>) -> Result<bool, Error> {
        LockCore::value_of(polled)
    }

    ghost answers = { λ value is. refl };
}

// Whether a value is that of a grant.
pub(crate) fn is_granted(value: u8) -> bool
    ensures { result ≡ (value == 0) }
{
    value == 0
}
