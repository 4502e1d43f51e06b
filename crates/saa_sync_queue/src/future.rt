//! The futures of a push and of a pop: each waits for a permit as the semaphore's own future does, and then puts or takes its item.
//!
//! They ask at the first poll. While there is no place or item they stay pending, and their task is woken once there is one. A poll after the end asks
//! to be polled again, and changes nothing. Dropping one leaves its queue, or lets the next waiter in in its place.

ghost use Rattle.std.specs.Prelude.{◌≡◌};

use crate::pop_error::PopError;
use crate::push_error::PushError;
use crate::queue::Queue;
use futures::task::{Context, Poll};
use futures::{Future, ready};
use saa_sync::semaphore::AcquirePermitsOf;
use std::sync::Wait;

/// The future of a push: its output is that of [`Queue::push`].
pub type Pushing<'q, R, T, const MAX: usize> = PushingTo<
    &'q Queue<R, T, MAX>,
    AcquirePermitsOf<'q, R, MAX>,
    T,
>;

/// The future of a pop: its output is that of [`Queue::pop`].
pub type Popping<'q, R, T, const MAX: usize> = PoppingFrom<
    &'q Queue<R, T, MAX>,
    AcquirePermitsOf<'q, R, MAX>,
>;

/// A task that waits for a place in this queue, and has its item; see [`Pushing`].
///
/// The queue is a parameter as it is shared, so that the checker knows that all in it lives as long.
#[derive(Drop)]
pub struct PushingTo<Q, W, T> {
    queue: Q,
    place: W,
    item: Option<T>,
}

/// A task that waits for an item of this queue; see [`Popping`].
#[derive(Drop)]
pub struct PoppingFrom<Q, W> {
    queue: Q,
    filled: W,
}

impl<Q: Drop, W: Drop, T> PushingTo<Q, W, T> {
    /// Ends the wait, and hands the item back; none where the push has ended.
    pub fn into_item(self) -> Option<T> {
        let PushingTo {
            queue: _queue,
            place: _place,
            item,
        } = self;
        item
    }
}

impl<'q, R: Wait + Drop, T: Drop, const MAX: usize> Pushing<'q, R, T, MAX> {
    // What waits for a place in this queue by a permit of it.
    pub(crate) fn new(
        queue: &'q Queue<R, T, MAX>,
        place: AcquirePermitsOf<'q, R, MAX>,
        item: T,
    ) -> Self {
        PushingTo {
            queue,
            place,
            item: Some(item),
        }
    }
}

impl<'q, R: Wait + Drop, T: Drop, const MAX: usize> Popping<'q, R, T, MAX> {
    // What waits for an item of this queue by a permit of it.
    pub(crate) fn new(queue: &'q Queue<R, T, MAX>, filled: AcquirePermitsOf<'q, R, MAX>) -> Self {
        PoppingFrom { queue, filled }
    }
}

impl<'q, R: Wait + Drop, T: Drop, const MAX: usize> Future
    for PushingTo<&'q Queue<R, T, MAX>, AcquirePermitsOf<'q, R, MAX>, T> {
    ghost use Rattle.saa_sync.specs.Forms.{source_of};

    type Output = Result<(), PushError<T>>;

    ghost needs = { λ future source. source ≡ source_of future.place.semaphore };

    fn poll(&mut self, cx: &mut Context<'_>) -> Poll<Result<(), PushError<T>>> {
        let reply = ready!(self.place.poll(cx));
        let Some(item) = self.item.take() else {
            // Never: the item goes with the end, and an ended wait isn't ready again.
            return cx.yield_now();
        };
        match reply {
            Ok(Some(place)) => Poll::Ready(self.queue.put(place, item)),
            // Never: one permit is no more than `MAX`.
            Ok(None) => Poll::Ready(Err(PushError::WouldWait(item))),
            Err(error) => Poll::Ready(Err(PushError::of(error, item))),
        }
    }
}

impl<'q, R: Wait + Drop, T: Drop, const MAX: usize> Future
    for PoppingFrom<&'q Queue<R, T, MAX>, AcquirePermitsOf<'q, R, MAX>> {
    ghost use Rattle.saa_sync.specs.Forms.{source_of};

    type Output = Result<T, PopError>;

    ghost needs = { λ future source. source ≡ source_of future.filled.semaphore };

    fn poll(&mut self, cx: &mut Context<'_>) -> Poll<Result<T, PopError>> {
        match ready!(self.filled.poll(cx)) {
            Ok(Some(filled)) => Poll::Ready(self.queue.take(filled)),
            // Never: one permit is no more than `MAX`.
            Ok(None) => Poll::Ready(Err(PopError::WouldWait)),
            Err(error) => Poll::Ready(Err(PopError::from(error))),
        }
    }
}
