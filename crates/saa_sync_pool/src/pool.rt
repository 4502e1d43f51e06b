//! The pool: its values are behind a mutex (`shelf`), and a semaphore has a permit for each of them that is in, so it decides which task gets one.
//!
//! Each value is in before its permit is, and a permit is taken before its value. So a task with a permit finds a value, unless the pool was
//! closed meanwhile.

ghost use Rattle.std.specs.Prelude.{◌≡◌, ◌+◌, ◌<◌, ◌≤◌, IfErr};

use crate::checkout::Checkout;
use crate::counts::Counts;
use crate::future::CheckingOut;
use crate::refused::Refused;
use crate::shelf::{Away, Shelf};
use circular_buffer::{HeapCircularBuffer, IntoIter};
use saa_sync::{AcquireError, PermitOf, SemaphoreOf};
use std::alloc::{AllocError, Global};
use std::sync::{Mutex, Wait};
use std::time::{Clock, Duration, Instant};

/// Up to `MAX` values, 1 to 65,535, that tasks in threads check out, use and give back.
///
/// Waiters are let in for a value in FIFO order, and the value that has been in for longest goes out first. `rt` is the permission to block, which is
/// borrowed for as long as the pool lives. Every call may wait for the pool's mutexes, which are held for one short step at a time. No call but making and
/// [`Pool::drain`] takes memory.
#[derive(Drop)]
pub struct Pool<'r, R: Wait, T: Drop, const MAX: usize> {
    rt: &'r R,
    permits: SemaphoreOf<&'r R, MAX>,
    shelf: Mutex<Shelf<T, MAX>>,
}

impl<'r, R: Wait, T: Drop, const MAX: usize> Pool<'r, R, T, MAX> {
    /// A pool with no value yet, for whose values at most `tasks` wait at a time. Costs O(`MAX` + `tasks`).
    ///
    /// Reserves all the memory that it needs until it is drained; the error comes only where that was refused. [`Pool::add`] puts values in.
    pub fn new(rt: &'r R, alloc: Global, tasks: u16) -> Result<Self, AllocError>
        requires bound { 0 < MAX }
        requires narrow { MAX < 65536 }
    {
        Ok(Pool {
            rt,
            permits: SemaphoreOf::with_permits(rt, alloc, 0, tasks)?,
            shelf: Mutex::new(Shelf::new(alloc)?),
        })
    }
}

impl<'r, R: Wait, T: Drop, const MAX: usize> Pool<'r, R, T, MAX> {
    /// Puts one value more in, behind those that are in, and lets the oldest waiter in for it. Costs O(1).
    ///
    /// The `Err` has the value, and comes exactly where there are `MAX` values in and out, or the pool is closed; then nothing is changed.
    pub fn add(&self, value: T) -> Result<(), T>
        ensures back { IfErr result (λ back. back ≡ value) }
    {
        let added = self.shelf.lock(self.rt).add(value);
        self.admit(added)
    }

    /// Puts a value in for one that was kept ([`Checkout::keep`]), and lets the oldest waiter in for it. Costs O(1).
    ///
    /// The `Err` has the value, and comes exactly where no value is kept; then nothing is changed. Which of the kept values it is, or whether it is
    /// another in its place, is the caller's matter. A closed pool takes it too, for [`Pool::drain`].
    pub fn give_back(&self, value: T) -> Result<(), T>
        ensures back { IfErr result (λ back. back ≡ value) }
    {
        let given = self.shelf.lock(self.rt).give_back(value);
        self.admit(given)
    }

    /// Checks a value out, and waits for one in the queue where it must.
    ///
    /// `Closed`: the pool is closed, or was while this waited. `Full`: it would have to wait, and as many tasks wait as the pool was made for. Both
    /// change nothing. A pool with no value at all lets nobody in until one is added.
    pub fn check_out(&self) -> Result<Checkout<'_, 'r, R, T, MAX>, Refused> {
        match self.permits.acquire_permit() {
            Ok(permit) => self.take(permit),
            Err(error) => Err(Refused::from(error)),
        }
    }

    /// Checks a value out if one is in and nobody waits; never waits for one.
    ///
    /// `Closed`: the pool is closed. `WouldWait`: no value is in, or those that are in are for tasks that asked before. Both change nothing.
    pub fn try_check_out(&self) -> Result<Checkout<'_, 'r, R, T, MAX>, Refused> {
        match self.permits.try_acquire_permit() {
            Some(permit) => self.take(permit),
            None if self.permits.is_shut() => Err(Refused::Closed),
            None => Err(Refused::WouldWait),
        }
    }

    /// The future of a check-out: its output is that of [`Pool::check_out`].
    ///
    /// Nothing is asked before its first poll. Dropping it leaves the queue, or lets the next waiter in for the value that it was let in for.
    pub fn check_out_async(&self) -> CheckingOut<'_, 'r, R, T, MAX> {
        CheckingOut::new(self, self.permits.acquire_permits_async(1))
    }

    /// Closes the pool for good: every waiter is refused, and so is each check-out and each [`Pool::add`] from then on. `false` comes where it was
    /// closed before, and changes nothing.
    ///
    /// Once this has returned, no value goes out any more. Those that are out come back as their guards go, or by [`Pool::give_back`].
    /// Costs a wake for each waiter.
    pub fn close(&self) -> bool {
        // The shelf before the semaphore: who was let in before this finds the pool closed there.
        let was_closed = self.shelf.lock(self.rt).close();
        let _ = self.permits.shut();
        !was_closed
    }

    /// Whether the pool was closed.
    pub fn is_closed(&self) -> bool {
        self.shelf.lock(self.rt).is_closed()
    }

    /// Takes all values that are in, the oldest first, if the pool is closed; of an open one it takes none, and changes nothing.
    ///
    /// Those that are out then can be drained once they are back. It takes memory for `MAX` values; the error comes only where that was refused, and
    /// changes nothing. The mutex is held for O(1).
    pub fn drain(&self, alloc: Global) -> Result<IntoIter<T>, AllocError> {
        let empty = HeapCircularBuffer::with_capacity(alloc, MAX)?;
        let drained = self.shelf.lock(self.rt).drain(empty);
        Ok(drained.into_iter())
    }

    /// How many values are out, in guards or kept; never more than `MAX`. Others may come and go as this is read.
    pub fn out(&self) -> usize
        ensures { result ≤ MAX }
    {
        self.shelf.lock(self.rt).out()
    }

    /// All counts at once, but that of waiters, which is read after the others. Those that are in and out are of one moment, and never more than `MAX`.
    pub fn counts(&self) -> Counts
        ensures { result.inside + result.out ≤ MAX }
    {
        let counts = self.shelf.lock(self.rt).counts();
        Counts {
            waiting: self.permits.waiting(),
            ..counts
        }
    }

    // Takes a value by a permit, which goes with it: one is in, but where the pool was closed meanwhile.
    pub(crate) fn take<'p>(
        &'p self,
        permit: PermitOf<'p, &'r R, MAX>,
    ) -> Result<Checkout<'p, 'r, R, T, MAX>, Refused> {
        let taken = self.shelf.lock(self.rt).take();
        match taken {
            Some((value, away)) => Ok(Checkout::new(self, value, away, permit)),
            None => Err(Refused::Closed),
        }
    }

    // Lets the oldest waiter in for a value that was put in; the value is in before its permit.
    fn admit(&self, put: Result<(), T>) -> Result<(), T>
        ensures { result ≡ put }
    {
        if put.is_ok() {
            let _ = self.permits.release();
        }
        put
    }

    // Puts back the value of a guard. It comes back only where nothing is out.
    pub(crate) fn put(&self, value: T, away: Away) -> Result<(), T> {
        self.shelf.lock(self.rt).put(value, away)
    }

    // Keeps the value of a guard out.
    pub(crate) fn keep(&self, away: Away) {
        self.shelf.lock(self.rt).keep(away);
    }

    // Counts the value of a guard no more: how many there still are.
    pub(crate) fn remove(&self, away: Away) -> usize
        ensures { result ≤ MAX }
    {
        self.shelf.lock(self.rt).remove(away)
    }
}

impl<'r, R: Wait + Clock, T: Drop, const MAX: usize> Pool<'r, R, T, MAX> {
    /// Checks a value out, and waits for one in the queue at most so long.
    ///
    /// `TooLate`: time is up, and nothing is registered or taken. `Closed` and `Full` come as of [`Pool::check_out`].
    pub fn check_out_for(
        &self,
        duration: Duration,
    ) -> Result<Checkout<'_, 'r, R, T, MAX>, Refused> {
        self.take_in_time(self.permits.acquire_permit_for(duration))
    }

    /// Checks a value out as [`Pool::check_out_for`] does, and waits for one until this instant.
    pub fn check_out_until(
        &self,
        deadline: Instant,
    ) -> Result<Checkout<'_, 'r, R, T, MAX>, Refused> {
        self.take_in_time(self.permits.acquire_permit_until(deadline))
    }

    // Takes a value by a permit that was granted in time.
    fn take_in_time<'p>(
        &'p self,
        reply: Result<Option<PermitOf<'p, &'r R, MAX>>, AcquireError>,
    ) -> Result<Checkout<'p, 'r, R, T, MAX>, Refused> {
        match reply {
            Ok(Some(permit)) => self.take(permit),
            Ok(None) => {
                self.shelf.lock(self.rt).note_timed_out();
                Err(Refused::TooLate)
            }
            Err(error) => Err(Refused::from(error)),
        }
    }
}
