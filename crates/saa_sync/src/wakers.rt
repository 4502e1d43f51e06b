//! Wakers: for each slot that of the task which polls for its answer, where a task does.
//!
//! They stand under the lock, in places that are reserved at making. A waker wakes its task when it is dropped, so it is taken out under
//! the lock and dropped with the lock free; but one that another task's poll replaces is dropped under the lock.

ghost use Rattle.std.specs.Prelude.{◌≡◌, IsOk};
ghost use Rattle.futures.specs.Task.{Hears, IsArmed, Keeps};
ghost use Rattle.futures.specs.declared.task.Poll.TheVariants.{Pending};

use futures::task::{Context, Poll, Source, Waker};
use std::alloc::{AllocError, Global};

/// A place for each slot of a room.
#[derive(Drop)]
pub(crate) struct Wakers {
    places: Vec<Option<Waker>>,
}

impl Wakers {
    /// A place for each of so many slots, with no waker in it. Only this takes memory.
    pub(crate) fn with_room(alloc: Global, room: u16) -> Result<Self, AllocError>
        ensures no_room { room ≡ 0 → IsOk result }
    {
        let mut places = Vec::with_capacity(alloc, usize::from(room))?;
        for _slot in 0..room {
            places.push_reserved(None);
        }
        Ok(Wakers { places })
    }

    /// Keeps the waker of the task that is polled at a slot, in place of one that is there; the poll is pending.
    ///
    /// Where no waker can be made, or there is no such slot, the task is woken at once.
    pub(crate) fn keep<T>(
        &mut self,
        slot: Option<u16>,
        source: &Source,
        cx: &mut Context<'_>,
    ) -> Poll<T>
        ensures pending { result ≡ Pending }
        ensures armed { IsArmed cx.new }
        ensures heard { Hears cx.new source.now.id }
        ensures kept { Keeps cx.old cx.new }
    {
        let Some(slot) = slot else {
            return cx.yield_now();
        };
        match self.places.get_mut(usize::from(slot)) {
            Some(place) => cx.register(source, place),
            None => cx.yield_now(),
        }
    }

    /// Takes out the waker of a slot, if there is one. Where none is it only reads, so that threads which wait share the places' cache lines.
    #[inline(always)]
    pub(crate) fn take(&mut self, slot: u16) -> Option<Waker> {
        let place = self.places.get_mut(usize::from(slot))?;
        if place.is_none() {
            return None;
        }
        place.take()
    }

    /// Takes out the waker of a slot, if there is a slot and a waker.
    pub(crate) fn take_of(&mut self, slot: Option<u16>) -> Option<Waker> {
        self.take(slot?)
    }
}
