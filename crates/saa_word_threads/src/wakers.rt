//! Wakers: of each place that of the task which polled there last, if one did.
//!
//! The place's own task puts a waker in, and the call that answers the place takes it out, or the place itself once it has its answer. Each of them tries a
//! slot's lock once, and nobody waits for it: it is held to put one in or to take one out. Where the call that answers finds it held, the place is
//! putting a waker in, and looks for its answer afterwards, which is written by then. Where the place finds it held, its task is woken at once.

ghost use Rattle.std.specs.Prelude.{◌≡◌};
ghost use Rattle.futures.specs.Task.{Hears, IsArmed, Keeps};
ghost use Rattle.futures.specs.declared.task.Poll.TheVariants.{Pending};

use futures::task::{Context, Poll, Source, Waker};
use std::alloc::{AllocError, Global};
use std::sync::Mutex;

/// A slot for each place, and what tasks wait for.
#[derive(Drop)]
pub struct Wakers {
    slots: Vec<Mutex<Option<Waker>>>,
    source: Source,
}

impl Wakers {
    // A slot for each of so many places, with no waker in it.
    pub(crate) fn with_room(alloc: Global, places: u16) -> Result<Wakers, AllocError> {
        let mut slots = Vec::with_capacity(alloc, usize::from(places))?;
        for _place in 0..places {
            slots.push_reserved(Mutex::new(None));
        }
        let source = Source::new();
        Ok(Wakers { slots, source })
    }

    // Keeps the waker of the task that polls at a place, in place of one that is there. Where it can't, the task is woken at once.
    pub(crate) fn keep<T>(&self, place: usize, cx: &mut Context<'_>) -> Poll<T>
        ensures pending { result ≡ Pending }
        ensures armed { IsArmed cx.new }
        ensures heard { Hears cx.new self.now.source.id }
        ensures kept { Keeps cx.old cx.new }
    {
        let Some(slot) = self.slots.get(place) else {
            return cx.yield_now();
        };
        match slot.try_lock() {
            Some(mut waker) => cx.register(&self.source, &mut waker),
            None => cx.yield_now(),
        }
    }

    // Takes the waker of a place out, which wakes its task as it is dropped. `None` where there is none, or somebody else is at the slot.
    pub(crate) fn take(&self, place: usize) -> Option<Waker> {
        let mut waker = self.slots.get(place)?.try_lock()?;
        waker.take()
    }
}
