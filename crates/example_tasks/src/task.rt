//! A task of the workshop: it waits at the gate, then for a desk, and then for the book.

ghost use Rattle.std.specs.Prelude.{◌≡◌, ◌⊎◌, ⊤, IfSome, IsSomeAnd};

use crate::steps::Steps;
use crate::workshop::{Book, DESKS, Workshop};
use futures::future::{Either, Select, select};
use futures::task::{Context, Poll};
use futures::{Future, ready};
use saa_sync::future::{AcquireOf, Enter};
use saa_sync::gate::Gate;
use saa_word_lock_free::lock_api::MutexFuture;
use saa_word_lock_free::lock_async;
use std::sync::Wait;

/// A task of the workshop. All tasks of an executor are of one type, which has a name: it has no closure.
pub type Task<'a, R> = Steps<Start<'a, R>, Steps<Seat<'a, R>, Entry<'a, R>>>;

/// The task of this number, which gives up its wait for a desk once the bell has rung.
///
/// Contracts see that it may be polled.
pub fn task<'a, R: Wait + Drop>(
    shop: &'a Workshop<R>,
    number: u64,
    bell: &'a Gate<R>,
) -> Task<'a, R>
    ensures start { IfSome result.first (λ start. ⊤) }
    ensures seat { IfSome result.second.first (λ seat. IsSomeAnd seat.asked.inner (λ both. ⊤)) }
{
    Steps::new(
        Start {
            asked: shop.start.enter_async(),
        },
        Steps::new(
            Seat {
                shop,
                asked: select(shop.desks.acquire_async(), bell.enter_async()),
            },
            Entry {
                shop,
                number,
                asked: lock_async(&shop.book),
            },
        ),
    )
}

/// Waits at the gate that opens all at once.
#[derive(Drop)]
pub struct Start<'a, R: Wait + Drop> {
    asked: Enter<'a, R>,
}

impl<R: Wait + Drop> Future for Start<'_, R> {
    type Output = bool;

    ghost needs = { λ task source. source ≡ task.asked.source };

    fn poll(&mut self, cx: &mut Context<'_>) -> Poll<bool> {
        let told = ready!(self.asked.poll(cx));
        Poll::Ready(matches!(told, Ok(Ok(_open))))
    }
}

/// Waits for a desk or for the bell, whichever is first.
#[derive(Drop)]
pub struct Seat<'a, R: Wait + Drop> {
    shop: &'a Workshop<R>,
    asked: Select<AcquireOf<'a, R, DESKS>, Enter<'a, R>>,
}

impl<R: Wait + Drop> Future for Seat<'_, R> {
    type Output = bool;

    ghost can_poll = { λ task. IsSomeAnd task.asked.inner (λ both. ⊤) };

    ghost needs = { λ task source. IsSomeAnd task.asked.inner (λ (desk, bell). (source ≡ desk.source) ⊎ (source ≡ bell.source)) };

    fn poll(&mut self, cx: &mut Context<'_>) -> Poll<bool> {
        match ready!(self.asked.poll(cx)) {
            Either::Left((told, _bell)) => Poll::Ready(told == Ok(())),
            Either::Right((_rung, desk)) => {
                // The wait is given up by this drop: the task leaves the queue, and disturbs nobody in it.
                drop(desk);
                self.shop.gave_up.release();
                Poll::Ready(false)
            }
        }
    }
}

/// Waits for the book, writes its number there, and leaves the desk.
#[derive(Drop)]
pub struct Entry<'a, R: Wait + Drop> {
    shop: &'a Workshop<R>,
    number: u64,
    asked: MutexFuture<'a, R, Book>,
}

impl<R: Wait + Drop> Future for Entry<'_, R> {
    ghost use Rattle.saa_word_lock_free.specs.Forms.{source_of};
    ghost use Rattle.saa_word_threads.specs.Locks.{source_of as word_source_of};

    type Output = ();

    ghost needs = { λ task source. source ≡ source_of word_source_of task.asked.lock };

    fn poll(&mut self, cx: &mut Context<'_>) -> Poll<()> {
        if let Ok(mut book) = ready!(self.asked.poll(cx)) {
            book.enter(self.number);
        }
        self.shop.desks.release();
        Poll::Ready(())
    }
}
