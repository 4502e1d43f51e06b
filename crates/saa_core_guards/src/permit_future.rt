//! The future that waits for permits: it waits as the semaphore's own future does, and gives them as a value.
//!
//! It asks at its first poll. While they aren't there it stays pending, and its task is woken once they are. A poll after the end asks to be polled
//! again, and changes nothing. Dropping it drops what it is registered for: it leaves the queue, or gives back what it was granted and not told of yet.

ghost use Rattle.std.specs.Prelude.{◌≡◌, false};
ghost use Rattle.saa_core_spec.specs.declared.request.Request.TheVariants.{Permits};

use crate::permit::PermitFrom;
use crate::raw_semaphore::RawSemaphoreAsync;
use futures::task::{Context, Poll};
use futures::{Future, ready};
use std::marker::Model;

/// The future of permits. Contracts see the semaphore, what is pending there, and how many permits it asks for.
///
/// Its output is that of [`PermitFrom::acquire`].
pub struct PermitsFuture<'s, S: RawSemaphoreAsync> {
    semaphore: &'s S,
    pending: S::Pending,
    count: usize,
}

impl<'s, S: RawSemaphoreAsync> Model for PermitsFuture<'s, S> {
    ghost use Rattle.std.specs.Prelude.{◌≡◌};
    ghost use Rattle.saa_core_guards.specs.Permits.{PermitsFutureState};
    ghost use Rattle.saa_core_spec.specs.declared.request.Request.TheVariants.{Permits};

    ghost Value = { PermitsFutureState S S.Pending };

    ghost view = { λ future. record { semaphore = future.semaphore.now; pending = future.pending; count = future.count } };

    ghost invariant = { λ future. S.admits_pending future.semaphore.now future.pending × (S.asked future.pending ≡ Permits future.count) };
}

impl<'s, S: RawSemaphoreAsync> PermitsFuture<'s, S> {
    /// The future of so many permits. Nothing is asked before its first poll.
    pub fn new(semaphore: &'s S, count: usize) -> Self
        ensures semaphore { result.semaphore ≡ semaphore.now }
        ensures count { result.count ≡ count }
        ensures request { S.asked result.pending ≡ Permits count }
        ensures idle { S.is_idle result.pending }
        ensures fresh { S.has_ended result.pending ≡ false }
    {
        PermitsFuture {
            semaphore,
            pending: S::pending(count),
            count,
        }
    }
}

impl<'s, S: RawSemaphoreAsync> Future for PermitsFuture<'s, S> {
    ghost use Rattle.std.specs.Prelude.{◌≡◌, IfOk, IfSome};

    type Output = Result<Option<PermitFrom<&'s S>>, S::Error>;

    ghost needs = { λ future source. source ≡ S.source future.semaphore };

    ghost gives = { λ future answer. IfOk answer (λ reply. IfSome reply (λ permits. (permits.holder.now ≡ future.semaphore) × (permits.count ≡ future.count) × S.granted future.semaphore future.count)) };

    fn poll(&mut self, cx: &mut Context<'_>) -> Poll<Result<Option<PermitFrom<&'s S>>, S::Error>> {
        match ready!(
            self.semaphore
                .poll_permits(&mut self.pending, self.count, cx)
        ) {
            Ok(true) => Poll::Ready(Ok(Some(PermitFrom::of(self.semaphore, self.count)))),
            Ok(false) => Poll::Ready(Ok(None)),
            Err(error) => Poll::Ready(Err(error)),
        }
    }
}

impl<S: RawSemaphoreAsync> Drop for PermitsFuture<'_, S> {
    fn drop(self) {
        let PermitsFuture {
            semaphore,
            mut pending,
            count: _count,
        } = self;
        semaphore.give_up(&mut pending);
    }
}
