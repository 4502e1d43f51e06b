//! The future that waits for a value: it waits for a permit as the semaphore's own future does, and then takes the value.
//!
//! It asks at its first poll. While no value is there for it, it stays pending, and its task is woken once one is. A poll after the end asks to be
//! polled again, and changes nothing. Dropping it leaves the queue, or lets the next waiter in for the value that it was let in for.

ghost use Rattle.std.specs.Prelude.{◌≡◌};

use crate::checkout::Checkout;
use crate::pool::Pool;
use crate::refused::Refused;
use futures::task::{Context, Poll};
use futures::{Future, ready};
use saa_sync::semaphore::AcquirePermitsOf;
use std::sync::Wait;

/// The future of a [`Checkout`]: its output is that of [`Pool::check_out`].
pub type CheckingOut<'p, 'r, R, T, const MAX: usize> = Entering<
    &'p Pool<'r, R, T, MAX>,
    AcquirePermitsOf<'p, &'r R, MAX>,
>;

/// A task that waits to be let in for a value of this pool, by its wait for a permit; see [`CheckingOut`].
///
/// The pool is a parameter as it is shared, so that the checker knows that all in it lives as long.
#[derive(Drop)]
pub struct Entering<P, W> {
    pool: P,
    permit: W,
}

impl<'p, 'r, R: Wait, T: Drop, const MAX: usize> CheckingOut<'p, 'r, R, T, MAX> {
    // What waits for a value of this pool by a permit of it.
    pub(crate) fn new(
        pool: &'p Pool<'r, R, T, MAX>,
        permit: AcquirePermitsOf<'p, &'r R, MAX>,
    ) -> Self {
        Entering { pool, permit }
    }
}

impl<'p, 'r, R: Wait, T: Drop, const MAX: usize> Future
    for Entering<&'p Pool<'r, R, T, MAX>, AcquirePermitsOf<'p, &'r R, MAX>> {
    ghost use Rattle.saa_sync.specs.Forms.{source_of};

    type Output = Result<Checkout<'p, 'r, R, T, MAX>, Refused>;

    ghost needs = { λ future source. source ≡ source_of future.permit.semaphore };

    fn poll(&mut self, cx: &mut Context<'_>) -> Poll<Result<Checkout<'p, 'r, R, T, MAX>, Refused>> {
        match ready!(self.permit.poll(cx)) {
            Ok(Some(permit)) => Poll::Ready(self.pool.take(permit)),
            // Never: one permit is no more than `MAX`.
            Ok(None) => Poll::Ready(Err(Refused::WouldWait)),
            Err(error) => Poll::Ready(Err(Refused::from(error))),
        }
    }
}
