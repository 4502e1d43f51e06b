//! The barrier that threads share: a `BarrierCore` in a form.
//!
//! Each call locks the mutex around the core once, makes one step of it, and wakes what is pending. What the step does is the contract
//! of the core's method, held to `specs/Barrier.antt` and, for an arrival, `specs/Asking.antt` of `saa_core_spec`.

ghost use Rattle.std.specs.Prelude.{◌≡◌, ◌-◌, ◌≤◌, ◌||◌, ◌==◌, true, false, IfOk, IsOk, Ok, Some};
ghost use Rattle.saa_core_spec.specs.Held.{max_tasks};
ghost use Rattle.saa_core_spec.specs.declared.request.Request.TheVariants.{Arrive as AskArrive};
ghost use Rattle.saa_core.specs.declared.ticket.Registration.TheVariants.{Unregistered};
ghost use Rattle.saa_core.specs.Tickets.{is_busy, is_yes};
ghost use Rattle.saa_core.specs.Beginning.{mode_of};
ghost use Rattle.saa_sync.specs.Forms.{room_of, spin_policy_of, waiter_policy_of};

use crate::form::{Form, PagerCore};
use crate::future::barrier::{ArriveFuture, ArriveFutureWith};
use crate::pager::Pager;
use crate::parker::WAITER;
use crate::spin_policy::NONE;
pub use saa_core::barrier::{BarrierAnswer, BarrierCall, BarrierCore};
use saa_core::primitive::Primitive;
use saa_core::ticket::{Error, Full};
use std::alloc::{AllocError, Global};
use std::sync::Wait;
use std::sync::atomic::Ordering;

// The answer of the last arrival of a round.
const LEADER: u8 = 1;

/// A barrier that threads share, at which at most 63 tasks wait for one another and pass together, round after round.
///
/// A call that waits and is the last arrival of its round is the leader: it never waits, and wakes all others of the round. Tasks
/// may also arrive without waiting, join, and leave; a round that one of these completes has no leader. At a barrier of size 0 every
/// arrival waits, and none is answered before a task joins. `R` is the permission to block, as a reference to the runtime. Every call may wait
/// for the mutex around the core, which is held for one short step at a time. No call but making takes memory.
///
/// Each ticket and pager is used with the barrier that it was registered in.
pub type Barrier<R> = Form<R, BarrierCore>;

/// A core of a barrier, whose type says how many tasks it is for at most.
pub trait TaskCore: Primitive {
    /// The most tasks that a barrier is for.
    const MAX_TASKS: usize;
}

impl TaskCore for BarrierCore {
    const MAX_TASKS: usize = BarrierCore::MAX_TASKS;
}

impl<R: Wait + Drop, C: TaskCore> Form<R, C> {
    /// The most tasks that a barrier is for.
    pub const MAX_TASKS: usize = C::MAX_TASKS;
}

impl<R: Wait + Drop> Form<R, BarrierCore> {
    /// A barrier for so many tasks, and room for so many waiters. A number above [`Self::MAX_TASKS`] is
    /// cut to it. Costs O(`room`).
    ///
    /// A round of `count` tasks needs room for one fewer, and where its tasks go on to the next round at once, for as many
    /// as there are tasks: a slot is held until its task has its answer. Reserves all the memory that it will ever need;
    /// the error comes only where that was refused, and so never for room 0, which takes none.
    pub fn with_count(rt: R, alloc: Global, count: usize, room: u16) -> Result<Self, AllocError>
        ensures no_room { room ≡ 0 → IsOk result }
        ensures spin_policy { IfOk result (λ barrier. spin_policy_of barrier ≡ NONE) }
        ensures waiter { IfOk result (λ barrier. waiter_policy_of barrier ≡ WAITER) }
        ensures room { IfOk result (λ barrier. room_of barrier ≡ room) }
    {
        let core = BarrierCore::with_count(alloc, count, room)?;
        Self::of_core(rt, alloc, core, room, NONE, WAITER)
    }

    /// How many arrivals the round still waits for: the size less the arrivals, and 0 at a barrier of size 0. Every
    /// ordering acts as the sequentially consistent one; none panics.
    pub fn count(&self, _mo: Ordering) -> usize
        ensures { result ≤ max_tasks }
    {
        self.lock().core.count()
    }

    /// How many rounds are complete, up to `u64::MAX`, where the number stays: the number of the round that is under way, the first
    /// being 0. Every ordering acts as the sequentially consistent one; none panics.
    pub fn round(&self, _mo: Ordering) -> u64 {
        self.lock().core.round()
    }

    /// Arrives without waiting, as at a latch; says whether this completes the round.
    ///
    /// `true`: all waiters are answered `Ok(false)`, and woken, and the next round begins. `false`: the round waits for one arrival
    /// less; at a barrier of size 0 nothing changes. Each waiter that is woken costs an unpark, and each second one of them a short
    /// lock more.
    pub fn arrive(&self) -> bool {
        self.step(BarrierCore::count_arrival)
    }

    /// Makes the barrier one task larger, from this round on; says whether it did.
    ///
    /// `false` exactly at the greatest size, [`Self::MAX_TASKS`]: nothing changes. Waiters of a barrier of size 0 are answered
    /// `Ok(false)`, and woken, as its round is complete at size 1. The room stays: it should have a slot for each task that may wait.
    pub fn join(&self) -> bool {
        self.step(BarrierCore::join)
    }

    /// Makes the barrier one task smaller, from this round on; says whether this completes the round.
    ///
    /// `true`: all other tasks have arrived, and there are some. All waiters are answered `Ok(false)`, and woken, and the next round
    /// begins. `false`: the round waits for one arrival less; at a barrier of size 0 nothing changes. A task calls this in place of
    /// arriving, once it takes part no more. Costs what [`Self::arrive`] does.
    pub fn leave(&self) -> bool {
        self.step(BarrierCore::leave)
    }

    /// Arrives, and waits in the line until the round is complete.
    ///
    /// `Ok(true)`: this was the last arrival of the round, which never waits; all others of the round are answered
    /// `Ok(false)` by it, and woken, and nobody else is. `Ok(false)`: another call completed the round. `Full`: it would have to
    /// wait, and as many slots are held as there is room; nothing is changed. Nothing stays registered in any case. At a barrier of
    /// size 0 this waits until a task joins, and at one of size 1 never.
    pub fn wait_sync(&self) -> Result<bool, Full> {
        let value = self.acquire(())?;
        Ok(is_leader(value))
    }

    /// Arrives as [`Self::wait_sync`] does, and calls `begin_wait` where it joins the queue.
    ///
    /// The callback runs once, after the join and before the wait, with the mutex free; it may use this
    /// barrier. It doesn't run for the last arrival of a round, nor where the room is full.
    pub fn wait_sync_with<F: FnOnce() + Drop>(&self, begin_wait: F) -> Result<bool, Full>
        requires { F.pre begin_wait }
    {
        let value = self.acquire_with((), begin_wait)?;
        Ok(is_leader(value))
    }

    /// The future of an arrival: its output is that of [`Self::wait_sync`].
    ///
    /// Nothing is asked before its first poll. See [`Acquiring`](crate::future::Acquiring).
    pub fn wait_async(&self) -> ArriveFuture<'_, R>
        ensures form { result.form ≡ self.now }
        ensures request { result.asking.request ≡ AskArrive }
        ensures idle { result.asking.ticket ≡ Unregistered }
        ensures fresh { result.asking.has_ended ≡ false }
    {
        self.future(())
    }

    /// The future of [`Self::wait_async`], which calls `begin_wait` where it joins the queue.
    ///
    /// The callback runs once, in the poll that joined, after the join and with the mutex free; it may use
    /// this barrier. It doesn't run where the answer is there at once, nor where the room is full.
    pub fn wait_async_with<F: FnOnce() + Drop>(&self, begin_wait: F) -> ArriveFutureWith<'_, R, F>
        ensures form { result.acquiring.form ≡ self.now }
        ensures request { result.acquiring.asking.request ≡ AskArrive }
        ensures idle { result.acquiring.asking.ticket ≡ Unregistered }
        ensures fresh { result.acquiring.asking.has_ended ≡ false }
        ensures callback { result.begin_wait ≡ Some begin_wait }
    {
        self.future_with((), begin_wait)
    }

    /// Registers a pager as an arrival, to be polled as sync or as async.
    ///
    /// `Ok(true)`: it was the last arrival of its round, and all others of the round are answered and woken; or it waits,
    /// last in the queue. `Ok(false)`: the pager is registered already, here or elsewhere. `Full`: it would have to wait,
    /// and as many slots are held as there is room. All but `Ok(true)` change nothing.
    ///
    /// Where the pager is cancelled, a waiter's arrival is taken back, so the round waits for one more, and no waiter is answered. An
    /// answer that wasn't consumed is only consumed. Costs O(waiters) for a waiter.
    pub fn register_pager<'s>(
        &'s self,
        pager: &mut Pager<'s, Self>,
        is_sync: bool,
    ) -> Result<bool, Full>
        ensures registered { is_busy pager.new ≡ (is_busy pager.old || is_yes result) }
        ensures busy { is_busy pager.old ≡ true → result ≡ Ok false }
        ensures unchanged { is_yes result ≡ false → pager.new ≡ pager.old }
        ensures mode { is_yes result ≡ true → mode_of pager.new ≡ Some is_sync }
        ensures idle { is_busy pager.old ≡ false → IfOk result (λ is_registered. is_registered ≡ true) }
    {
        self.page(pager, (), is_sync)
    }
}

impl PagerCore for BarrierCore {
    ghost use Rattle.saa_core.specs.Tickets.{fault_of};
    ghost use Rattle.std.proofs.Common.{refl};
    ghost use Rattle.saa_core_spec.specs.Values.{barrier_value};

    ghost is_value = { λ value. Unit {0} };

    ghost is_answer = { λ value. Unit {0} };

    ghost fault = { λ result. fault_of result };

    ghost reading = { barrier_value };

    /// 1, the last arrival of its round, is `Ok(true)`, and every other value `Ok(false)`; an error is itself.
    fn read(polled: Result<u8, Error>) -> Result<bool, Error> {
        BarrierCore::value_of(polled)
    }

    ghost answers = { λ value is. refl };
}

// Whether a value is that of the leader.
pub(crate) fn is_leader(value: u8) -> bool
    ensures { result ≡ (value == 1) }
{
    value == LEADER
}
