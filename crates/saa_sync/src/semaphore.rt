//! The semaphore that threads share: a `SemaphoreCore` in a form.
//!
//! Each call locks the mutex around the core once, makes one step of it, and wakes what is pending. What the step does is the contract
//! of the core's method, held to `specs/Semaphore.antt` of `saa_core_spec`.

ghost use Rattle.std.specs.Prelude.{◌≡◌, ◌↔◌, ◌≤◌, ◌<◌, ◌||◌, true, false, IfOk, IsOk, IsTrue, Ok, Some};
ghost use Rattle.saa_core_spec.specs.declared.request.Request.TheVariants.{Permits};
ghost use Rattle.saa_core.specs.declared.ticket.Registration.TheVariants.{Unregistered};
ghost use Rattle.saa_core.specs.Tickets.{is_busy, is_yes};
ghost use Rattle.saa_core.specs.Beginning.{mode_of};
ghost use Rattle.saa_sync.specs.Forms.{room_of, spin_policy_of, waiter_policy_of};
ghost use Rattle.saa_sync.specs.SemaphoreAnswers.{granted};

use crate::form::{Form, PagerCore};
use crate::future::semaphore::{AcquireManyOf, AcquireManyWithOf, AcquireOf, AcquireWithOf};
use crate::pager::Pager;
use crate::parker::WAITER;
pub use crate::permit::{
    AcquirePermits, AcquirePermitsOf, Holder, InTime, OwnedPermit, OwnedPermitOf, Permit,
    PermitFrom, PermitOf, PermitsFuture, RawSemaphore,
};
use crate::spin_policy::{NONE, SpinPolicy};
use saa_core::primitive::Primitive;
pub use saa_core::semaphore::{SemaphoreAnswer, SemaphoreCall, SemaphoreCore, SemaphoreCoreOf};
use saa_core::ticket::{Error, Full};
pub use saa_core_waits::AcquireError;
use std::alloc::{AllocError, Global};
use std::sync::Wait;
use std::sync::atomic::Ordering;

/// Up to `MAX` permits that threads share, 1 to 65,535.
///
/// Waiters are granted in FIFO order of joining the queue: no later request passes a waiter, a request for 0 permits included. A call
/// that can't be granted joins at its first turn at the mutex, unless the semaphore has a spin policy ([`SpinPolicy`]): then a call that may block, and
/// isn't timed, first tries and spins so often; until it joins it is no waiter, and nothing orders it. `R` is the permission to block, as a reference to the runtime. Every call may wait for the mutex,
/// which is held for one short step of the core at a time. No call but making takes memory.
///
/// Each ticket and pager is used with the semaphore that it was registered in.
pub type SemaphoreOf<R, const MAX: usize> = Form<R, SemaphoreCoreOf<MAX>>;

/// Up to 63 permits that threads share; see [`SemaphoreOf`].
pub type Semaphore<R> = SemaphoreOf<R, 63>;

/// A core of permits, whose type says how many there are at most.
pub trait PermitCore: Primitive {
    /// The most permits.
    const MAX_PERMITS: usize;
}

impl<const MAX: usize> PermitCore for SemaphoreCoreOf<MAX> {
    const MAX_PERMITS: usize = MAX;
}

impl<R: Wait + Drop, C: PermitCore> Form<R, C> {
    /// The most permits of a semaphore.
    pub const MAX_PERMITS: usize = C::MAX_PERMITS;
}

impl<R: Wait + Drop, const MAX: usize> Form<R, SemaphoreCoreOf<MAX>> {
    /// A semaphore with all its permits available, and room for so many waiters. Costs O(`room`).
    ///
    /// Reserves all the memory that it will ever need; the error comes only where that was refused, and so never for
    /// room 0, which takes none.
    pub fn new(rt: R, alloc: Global, room: u16) -> Result<Self, AllocError>
        requires bound { 0 < MAX }
        requires narrow { MAX < 65536 }
        ensures no_room { room ≡ 0 → IsOk result }
        ensures spin_policy { IfOk result (λ semaphore. spin_policy_of semaphore ≡ NONE) }
        ensures waiter { IfOk result (λ semaphore. waiter_policy_of semaphore ≡ WAITER) }
        ensures room { IfOk result (λ semaphore. room_of semaphore ≡ room) }
    {
        Self::with_permits(rt, alloc, MAX, room)
    }

    /// A semaphore with at most so many permits available; the others count as out, and may be released.
    /// A number above [`Self::MAX_PERMITS`] is cut to it. Costs O(`room`).
    ///
    /// Reserves all the memory that it will ever need; the error comes only where that was refused, and so never for
    /// room 0, which takes none.
    pub fn with_permits(rt: R, alloc: Global, permits: usize, room: u16) -> Result<Self, AllocError>
        requires bound { 0 < MAX }
        requires narrow { MAX < 65536 }
        ensures no_room { room ≡ 0 → IsOk result }
        ensures spin_policy { IfOk result (λ semaphore. spin_policy_of semaphore ≡ NONE) }
        ensures waiter { IfOk result (λ semaphore. waiter_policy_of semaphore ≡ WAITER) }
        ensures room { IfOk result (λ semaphore. room_of semaphore ≡ room) }
    {
        Self::with_spin_policy(rt, alloc, permits, room, NONE)
    }

    /// As [`Self::with_permits`], with a spin policy for calls that aren't registered yet: with [`DEFAULT`](crate::spin_policy::DEFAULT) short turns under
    /// contention cost less, and a call that finds no permit again and again waits longer.
    pub fn with_spin_policy(
        rt: R,
        alloc: Global,
        permits: usize,
        room: u16,
        spin_policy: SpinPolicy,
    ) -> Result<Self, AllocError>
        requires bound { 0 < MAX }
        requires narrow { MAX < 65536 }
        ensures no_room { room ≡ 0 → IsOk result }
        ensures spin_policy { IfOk result (λ semaphore. spin_policy_of semaphore ≡ spin_policy) }
        ensures waiter { IfOk result (λ semaphore. waiter_policy_of semaphore ≡ WAITER) }
        ensures room { IfOk result (λ semaphore. room_of semaphore ≡ room) }
    {
        let core = SemaphoreCoreOf::with_permits(alloc, permits, room)?;
        Self::of_core(rt, alloc, core, room, spin_policy, WAITER)
    }

    /// Whether a permit is available. Every ordering acts as the sequentially consistent one; none panics.
    pub fn is_open(&self, _mo: Ordering) -> bool {
        self.lock().core.is_open()
    }

    /// Whether no permit is available. Every ordering acts as the sequentially consistent one; none panics.
    pub fn is_closed(&self, _mo: Ordering) -> bool {
        self.lock().core.is_closed()
    }

    /// How many permits are available, 0 to `MAX`. Every ordering acts as the sequentially consistent one; none panics.
    pub fn available_permits(&self, _mo: Ordering) -> usize
        ensures { result ≤ MAX }
    {
        self.lock().core.available_permits()
    }

    /// Whether it was shut: no permit is taken from it any more, however many are available.
    pub fn is_shut(&self) -> bool {
        self.lock().core.is_shut()
    }

    /// Shuts the semaphore for good: every waiter is answered `Closed`, and so is every call that would take a permit from then on.
    ///
    /// `false` comes where it was shut before, and changes nothing. Tries are refused. Permits that are out, and grants that weren't
    /// told yet, stay as they are, and come back by [`Self::release_many`] as ever. Wakes exactly those that it answers, as
    /// `release_many` does. It isn't the other side of [`Self::is_closed`], which says that no permit is available.
    pub fn shut(&self) -> bool {
        self.step(|core| core.shut())
    }

    /// Takes one permit if there is no waiter and one is available; see [`Self::try_acquire_many`].
    pub fn try_acquire(&self) -> bool {
        self.try_acquire_many(1)
    }

    /// Takes `count` permits if there is no waiter and they are available; never waits for them. Wakes no waiter.
    ///
    /// A count above [`Self::MAX_PERMITS`] is never granted. 0 permits are refused too while there is a waiter, and where it was shut.
    /// A `false` changes nothing.
    pub fn try_acquire_many(&self, count: usize) -> bool
        ensures too_many { MAX < count → result ≡ false }
    {
        self.lock().core.try_acquire_many(count)
    }

    /// Gives one permit back; see [`Self::release_many`].
    pub fn release(&self) -> bool {
        self.release_many(1)
    }

    /// Gives `count` permits back, grants the oldest waiters while they fit, and wakes exactly those.
    ///
    /// `false` comes exactly where fewer permits are out, and changes nothing. 0 permits are given back always, and
    /// change nothing. Each waiter that is granted costs an unpark of its seat, which is a system call only where it is
    /// parked, and each second one of them the mutex once more; without a grant nothing is added.
    #[inline(always)]
    pub fn release_many(&self, count: usize) -> bool
        ensures none { count ≡ 0 → result ≡ true }
        ensures too_many { MAX < count → result ≡ false }
    {
        self.step(
            |core| -> bool
                ensures none { count ≡ 0 → result ≡ true }
                ensures too_many { MAX < count → result ≡ false }
            { core.release_many(count) },
        )
    }

    /// Takes one permit. It spins first, as its spin policy says, and then waits in the queue where it must.
    ///
    /// `Ok`: the core answered that it is granted. `Closed`: the semaphore is shut, or was while this waited. `Full`: its spins are
    /// over, it would have to wait, and as many slots are held as there is room. Neither error changes anything, and nothing stays
    /// registered in any case. No core refuses to register one permit, or forgets a ticket that waits; one that did would be asked again.
    pub fn acquire_sync(&self) -> Result<(), AcquireError> {
        read_grant(self.acquire(1)?)
    }

    /// Takes `count` permits, all at once. It spins first, as its spin policy says, and then waits in the queue where it must.
    ///
    /// `Ok(true)`: the core answered that they are granted. `Ok(false)` comes at once, exactly where the count is above
    /// [`Self::MAX_PERMITS`]. `Closed`: the semaphore is shut, or was while this waited. `Full`: its spins are over, it would have to
    /// wait, and as many slots are held as there is room. The last three change nothing. Nothing stays registered in any case.
    #[inline(always)]
    pub fn acquire_many_sync(&self, count: usize) -> Result<bool, AcquireError>
        ensures answer { IfOk result (λ is_granted. IsTrue is_granted ↔ (count ≤ MAX)) }
        ensures too_many { MAX < count → result ≡ Ok false }
    {
        if is_too_many::<MAX>(count) {
            return Ok(false);
        }
        read_grant(self.acquire(count)?)?;
        Ok(true)
    }

    /// Takes one permit as [`Self::acquire_sync`] does, and calls `begin_wait` where it joins the queue.
    ///
    /// The callback runs once, after the join and before the wait, with the mutex free; it may use this semaphore. It
    /// doesn't run where the call is answered before it joins, nor where the room is full.
    pub fn acquire_sync_with<F: FnOnce() + Drop>(&self, begin_wait: F) -> Result<(), AcquireError>
        requires { F.pre begin_wait }
    {
        read_grant(self.acquire_with(1, begin_wait)?)
    }

    /// Takes `count` permits as [`Self::acquire_many_sync`] does, and calls `begin_wait` where it joins the queue.
    ///
    /// The callback runs once, after the join and before the wait, with the mutex free; it may use this semaphore. It
    /// doesn't run where the call is answered before it joins, `Ok(false)` among them, nor where the room is full.
    pub fn acquire_many_sync_with<F: FnOnce() + Drop>(
        &self,
        count: usize,
        begin_wait: F,
    ) -> Result<bool, AcquireError>
        requires { F.pre begin_wait }
        ensures answer { IfOk result (λ is_granted. IsTrue is_granted ↔ (count ≤ MAX)) }
        ensures too_many { MAX < count → result ≡ Ok false }
    {
        if is_too_many::<MAX>(count) {
            return Ok(false);
        }
        read_grant(self.acquire_with(count, begin_wait)?)?;
        Ok(true)
    }

    /// The future of one permit: its output is that of [`Self::acquire_sync`].
    ///
    /// Nothing is asked before its first poll. See [`Acquiring`](crate::future::Acquiring).
    pub fn acquire_async(&self) -> AcquireOf<'_, R, MAX>
        ensures form { result.form ≡ self.now }
        ensures request { result.asking.request ≡ Permits 1 }
        ensures idle { result.asking.ticket ≡ Unregistered }
        ensures fresh { result.asking.has_ended ≡ false }
    {
        self.future(1)
    }

    /// The future of [`Self::acquire_async`], which calls `begin_wait` where it joins the queue.
    ///
    /// The callback runs once, in the poll that joined, after the join and with the mutex free; it may use
    /// this semaphore. It doesn't run where the answer is there at once, nor where the room is full.
    pub fn acquire_async_with<F: FnOnce() + Drop>(
        &self,
        begin_wait: F,
    ) -> AcquireWithOf<'_, R, F, MAX>
        ensures form { result.acquiring.form ≡ self.now }
        ensures request { result.acquiring.asking.request ≡ Permits 1 }
        ensures idle { result.acquiring.asking.ticket ≡ Unregistered }
        ensures fresh { result.acquiring.asking.has_ended ≡ false }
        ensures callback { result.begin_wait ≡ Some begin_wait }
    {
        self.future_with(1, begin_wait)
    }

    /// The future of `count` permits, all at once: its output is that of [`Self::acquire_many_sync`].
    ///
    /// Nothing is asked before its first poll. See [`Acquiring`](crate::future::Acquiring).
    pub fn acquire_many_async(&self, count: usize) -> AcquireManyOf<'_, R, MAX>
        ensures form { result.form ≡ self.now }
        ensures request { result.asking.request ≡ Permits count }
        ensures idle { result.asking.ticket ≡ Unregistered }
        ensures fresh { result.asking.has_ended ≡ false }
    {
        self.future(count)
    }

    /// The future of [`Self::acquire_many_async`], which calls `begin_wait` where it joins the queue.
    ///
    /// The callback runs once, in the poll that joined, after the join and with the mutex free; it may use
    /// this semaphore. It doesn't run where the answer is there at once, nor where the room is full.
    pub fn acquire_many_async_with<F: FnOnce() + Drop>(
        &self,
        count: usize,
        begin_wait: F,
    ) -> AcquireManyWithOf<'_, R, F, MAX>
        ensures form { result.acquiring.form ≡ self.now }
        ensures request { result.acquiring.asking.request ≡ Permits count }
        ensures idle { result.acquiring.asking.ticket ≡ Unregistered }
        ensures fresh { result.acquiring.asking.has_ended ≡ false }
        ensures callback { result.begin_wait ≡ Some begin_wait }
    {
        self.future_with(count, begin_wait)
    }

    /// Registers a pager for `count` permits, to be polled as sync or as async.
    ///
    /// `Ok(true)`: it was answered at once, granted or `Closed`, or waits, last in the queue. `Ok(false)`: the pager is registered already,
    /// here or elsewhere, or the count is above [`Self::MAX_PERMITS`]. `Full`: it would have to wait, and as many
    /// slots are held as there is room. All but `Ok(true)` change nothing.
    ///
    /// Where the pager is cancelled, a waiter leaves the queue, and those behind it are granted while they fit; what was granted and not
    /// consumed is given back, as by `release_many`. Costs O(1) at any position, and a wake for each that is granted.
    pub fn register_pager<'s>(
        &'s self,
        pager: &mut Pager<'s, Self>,
        count: usize,
        is_sync: bool,
    ) -> Result<bool, Full>
        ensures registered { is_busy pager.new ≡ (is_busy pager.old || is_yes result) }
        ensures busy { is_busy pager.old ≡ true → result ≡ Ok false }
        ensures too_many { MAX < count → result ≡ Ok false }
        ensures unchanged { is_yes result ≡ false → pager.new ≡ pager.old }
        ensures mode { is_yes result ≡ true → mode_of pager.new ≡ Some is_sync }
        ensures idle { is_busy pager.old ≡ false → count ≤ MAX → IfOk result (λ is_registered. is_registered ≡ true) }
    {
        if is_too_many::<MAX>(count) {
            return Ok(false);
        }
        self.page(pager, count, is_sync)
    }
}

impl<const MAX: usize> PagerCore for SemaphoreCoreOf<MAX> {
    ghost use Rattle.saa_core.specs.Tickets.{fault_of};
    ghost use Rattle.std.proofs.Common.{refl};
    ghost use Rattle.saa_core_spec.specs.Values.{semaphore_value};
    ghost use Rattle.saa_sync.specs.SemaphoreAnswers.{is_no_fault};
    ghost use Rattle.std.specs.Prelude.{◌==◌};

    ghost is_value = { λ value. Unit {0} };

    ghost is_answer = { λ value. Unit {0} };

    ghost fault = { λ result. fault_of result };

    ghost reading = { semaphore_value };

    /// 2 says that the semaphore was shut, `Closed`; every other value is a grant, `Ok(())`. An error is itself.
    fn read(polled: Result<u8, Error>) -> Result<(), Error> {
        SemaphoreCoreOf::<MAX>::value_of(polled)
    }

    ghost answers = { λ value is. is_no_fault (value == 2) };
}

// Whether a count is above the bound, so that it can never be granted.
pub(crate) fn is_too_many<const MAX: usize>(count: usize) -> bool
    ensures { IsTrue result ↔ (MAX < count) }
{
    count > MAX
}

// What the number of an answer says: that the semaphore was shut, and every other is a grant.
pub(crate) fn read_grant(value: u8) -> Result<(), AcquireError>
    ensures { result ≡ granted tt value }
{
    match SemaphoreCore::value_of(Ok(value)) {
        Ok(()) => Ok(()),
        Err(_shut) => Err(AcquireError::Closed),
    }
}
