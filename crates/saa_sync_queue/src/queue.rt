//! The queue: its items are behind a mutex (`items`); one semaphore has a permit for each free place, and another for each item, so they decide which
//! task is let in at either end.
//!
//! Each item is in before its permit is, and a permit is taken before its item. So a task with a consumer's permit finds an item. A closed queue lets
//! consumers in for what is left as ever, in turn. The consumer that takes the last item shuts the consumers' semaphore, so the waiting ones are told.

ghost use Rattle.std.specs.Prelude.{◌≡◌, ◌<◌, ◌≤◌, IfErr};
ghost use Rattle.saa_sync_queue.specs.HandedBack.{item_of};

use crate::future::{Popping, Pushing};
use crate::items::Items;
use crate::pop_error::PopError;
use crate::push_error::PushError;
use saa_sync::{AcquireError, PermitOf, SemaphoreOf};
use std::alloc::{AllocError, Global};
use std::sync::{Mutex, Wait};
use std::time::{Clock, Duration, Instant};

/// A queue for at most `MAX` items, 1 to 65,535, which tasks in threads push and pop.
///
/// Items leave it in the order in which they came, and waiters at each end are let in in FIFO order. `R` is the permission to block, as a reference to
/// the runtime. Every call may wait for the queue's mutexes, which are held for one short step at a time. No call but making takes memory.
#[derive(Drop)]
pub struct Queue<R: Wait + Drop, T: Drop, const MAX: usize> {
    rt: R,
    free: SemaphoreOf<R, MAX>,
    filled: SemaphoreOf<R, MAX>,
    items: Mutex<Items<T, MAX>>,
}

impl<R: Wait + Drop + Copy, T: Drop, const MAX: usize> Queue<R, T, MAX> {
    /// An empty queue, at each end of which at most `tasks` wait at a time. Costs O(`MAX` + `tasks`).
    ///
    /// Reserves all the memory that it will ever need; the error comes only where that was refused.
    pub fn new(rt: R, alloc: Global, tasks: u16) -> Result<Self, AllocError>
        requires bound { 0 < MAX }
        requires narrow { MAX < 65536 }
    {
        Ok(Queue {
            rt,
            free: SemaphoreOf::new(rt, alloc, tasks)?,
            filled: SemaphoreOf::with_permits(rt, alloc, 0, tasks)?,
            items: Mutex::new(Items::new(alloc)?),
        })
    }
}

impl<R: Wait + Drop, T: Drop, const MAX: usize> Queue<R, T, MAX> {
    /// Puts an item behind the others, and waits for a place in the queue of producers where it must. Costs O(1), and lets the oldest consumer in.
    ///
    /// Each error has the item, and changes nothing. `Closed`: the queue is closed, or was while this waited. `Full`: it would have to wait, and as many
    /// producers wait as the queue was made for.
    pub fn push(&self, item: T) -> Result<(), PushError<T>>
        ensures back { IfErr result (λ refused. item_of refused ≡ item) }
    {
        match self.free.acquire_permit() {
            Ok(place) => self.put(place, item),
            Err(error) => Err(PushError::of(error, item)),
        }
    }

    /// Puts an item behind the others if there is a place and no producer waits; never waits for one.
    ///
    /// Each error has the item, and changes nothing. `Closed`: the queue is closed. `WouldWait`: it is full, or its places are for those that asked before.
    pub fn try_push(&self, item: T) -> Result<(), PushError<T>>
        ensures back { IfErr result (λ refused. item_of refused ≡ item) }
    {
        match self.free.try_acquire_permit() {
            Some(place) => self.put(place, item),
            None if self.free.is_shut() => Err(PushError::Closed(item)),
            None => Err(PushError::WouldWait(item)),
        }
    }

    /// The future of a push: its output is that of [`Queue::push`].
    ///
    /// Nothing is asked before its first poll. The item is in the future until then: dropping it drops the item too, and [`PushingTo::into_item`](crate::PushingTo::into_item) hands it back.
    pub fn push_async(&self, item: T) -> Pushing<'_, R, T, MAX> {
        Pushing::new(self, self.free.acquire_permits_async(1), item)
    }

    /// Takes the oldest item, and waits for one in the queue of consumers where it must. Costs O(1), and lets the oldest producer in.
    ///
    /// `Closed`: the queue is closed and all items were taken, or were while this waited. `Full`: it would have to wait, and as many consumers wait as
    /// the queue was made for. Both change nothing.
    pub fn pop(&self) -> Result<T, PopError> {
        match self.filled.acquire_permit() {
            Ok(filled) => self.take(filled),
            Err(error) => Err(PopError::from(error)),
        }
    }

    /// Takes the oldest item if there is one and no consumer waits; never waits for one.
    ///
    /// `Closed`: the queue is closed and all items were taken. `WouldWait`: it is empty, or its items are for those that asked before. Both change nothing.
    pub fn try_pop(&self) -> Result<T, PopError> {
        match self.filled.try_acquire_permit() {
            Some(filled) => self.take(filled),
            None if self.filled.is_shut() => Err(PopError::Closed),
            None => Err(PopError::WouldWait),
        }
    }

    /// The future of the oldest item: its output is that of [`Queue::pop`].
    ///
    /// Nothing is asked before its first poll. Dropping it leaves the queue of consumers, or lets the next one in for the item that it was let in for.
    pub fn pop_async(&self) -> Popping<'_, R, T, MAX> {
        Popping::new(self, self.filled.acquire_permits_async(1))
    }

    /// Closes the queue for good: every push is refused from now on, those that wait among them, and pops take what is left, in turn.
    /// `false` comes where it was closed before, and changes nothing.
    ///
    /// Once this has returned, no item comes in any more. Consumers that wait are told as soon as the last item is taken, at once where there is none.
    /// Costs a wake for each waiter that is told.
    pub fn close(&self) -> bool {
        // The items before the semaphores: a producer that was let in before this finds the queue closed there, and puts nothing behind its end.
        let seen = self.items.lock(&self.rt).close();
        let _ = self.free.shut();
        if seen.is_empty {
            let _ = self.filled.shut();
        }
        !seen.was_closed
    }

    /// Whether the queue was closed; items may be left.
    pub fn is_closed(&self) -> bool {
        self.items.lock(&self.rt).is_closed()
    }

    /// How many items there are; never more than `MAX`. Others may come and go as this is read.
    pub fn len(&self) -> usize
        ensures { result ≤ MAX }
    {
        self.items.lock(&self.rt).len()
    }

    /// Whether there is no item. Others may come and go as this is read.
    pub fn is_empty(&self) -> bool {
        self.len() == 0
    }

    /// How many producers wait for a place.
    pub fn waiting_producers(&self) -> usize {
        self.free.waiting()
    }

    /// How many consumers wait for an item.
    pub fn waiting_consumers(&self) -> usize {
        self.filled.waiting()
    }

    // Puts an item into a place that the caller has. A place that stays free goes back as its permit is dropped.
    pub(crate) fn put(&self, place: PermitOf<'_, R, MAX>, item: T) -> Result<(), PushError<T>>
        ensures back { IfErr result (λ refused. item_of refused ≡ item) }
    {
        let put = self.items.lock(&self.rt).put(item);
        if put.is_ok() {
            // Who takes the item gives the place back.
            place.forget();
            let _ = self.filled.release();
        }
        put
    }

    // Takes an item that the caller was let in for. The last of a closed queue ends the waits of all consumers.
    pub(crate) fn take(&self, filled: PermitOf<'_, R, MAX>) -> Result<T, PopError> {
        let taken = self.items.lock(&self.rt).take();
        match taken {
            Some((item, is_last)) => {
                filled.forget();
                let _ = self.free.release();
                if is_last {
                    let _ = self.filled.shut();
                }
                Ok(item)
            }
            // Never: an item is in before its permit is.
            None => Err(PopError::WouldWait),
        }
    }
}

impl<R: Wait + Clock + Drop, T: Drop, const MAX: usize> Queue<R, T, MAX> {
    /// Puts an item behind the others as [`Queue::push`] does, and waits for a place at most so long.
    ///
    /// `TooLate` has the item too: time is up, and nothing is registered or taken.
    pub fn push_for(&self, item: T, duration: Duration) -> Result<(), PushError<T>>
        ensures back { IfErr result (λ refused. item_of refused ≡ item) }
    {
        self.put_in_time(self.free.acquire_permit_for(duration), item)
    }

    /// Puts an item behind the others as [`Queue::push_for`] does, and waits for a place until this instant.
    pub fn push_until(&self, item: T, deadline: Instant) -> Result<(), PushError<T>>
        ensures back { IfErr result (λ refused. item_of refused ≡ item) }
    {
        self.put_in_time(self.free.acquire_permit_until(deadline), item)
    }

    /// Takes the oldest item as [`Queue::pop`] does, and waits for one at most so long.
    ///
    /// `TooLate`: time is up, and nothing is registered or taken.
    pub fn pop_for(&self, duration: Duration) -> Result<T, PopError> {
        self.take_in_time(self.filled.acquire_permit_for(duration))
    }

    /// Takes the oldest item as [`Queue::pop_for`] does, and waits for one until this instant.
    pub fn pop_until(&self, deadline: Instant) -> Result<T, PopError> {
        self.take_in_time(self.filled.acquire_permit_until(deadline))
    }

    // Puts an item into a place that was granted in time.
    fn put_in_time(
        &self,
        reply: Result<Option<PermitOf<'_, R, MAX>>, AcquireError>,
        item: T,
    ) -> Result<(), PushError<T>>
        ensures back { IfErr result (λ refused. item_of refused ≡ item) }
    {
        match reply {
            Ok(Some(place)) => self.put(place, item),
            Ok(None) => Err(PushError::TooLate(item)),
            Err(error) => Err(PushError::of(error, item)),
        }
    }

    // Takes an item that was granted in time.
    fn take_in_time(
        &self,
        reply: Result<Option<PermitOf<'_, R, MAX>>, AcquireError>,
    ) -> Result<T, PopError> {
        match reply {
            Ok(Some(filled)) => self.take(filled),
            Ok(None) => Err(PopError::TooLate),
            Err(error) => Err(PopError::from(error)),
        }
    }
}
