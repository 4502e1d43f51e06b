//! A future whose polls are counted, so that another thread knows when its task sleeps; and that is polled once more while it waits.

use futures::Future;
use futures::executor::block_on;
use futures::task::{Context, Poll};
use std::alloc::AllocGlobal;
use std::random::RandomSource;
use std::sync::Wait;
use std::sync::atomic::{AtomicU64, Ordering};
use std::thread::yield_now;

// How often a future that waits is polled before its task sleeps: the first poll wakes its task, as one does that gets no waker.
const WAITING: u64 = 2;

// How often another thread yields once the task is about to sleep, so that it sleeps.
const RESTS: u32 = 20;

/// What is seen of one wait.
#[derive(Drop)]
pub struct Watch {
    // How often the future's poll has returned.
    polls: AtomicU64,
    // How many other threads have what is awaited.
    holders: AtomicU64,
}

// A future whose polls are counted. The first poll that stays pending wakes its task at once.
#[derive(Drop)]
struct Counted<'c, F> {
    inner: F,
    polls: &'c AtomicU64,
}

impl<F: Future> Future for Counted<'_, F> {
    type Output = F::Output;

    ghost can_poll = { λ counted. F.can_poll counted.inner };

    ghost needs = { λ counted. F.needs counted.inner };

    fn poll(&mut self, cx: &mut Context<'_>) -> Poll<F::Output> {
        let polled = self.inner.poll(cx);
        let is_first = self.polls.fetch_add(1, Ordering::SeqCst) == 0;
        match polled {
            Poll::Pending if is_first => cx.yield_now(),
            _ => polled,
        }
    }
}

impl Watch {
    /// Nothing has been seen.
    pub fn new() -> Watch {
        Watch {
            polls: AtomicU64::new(0),
            holders: AtomicU64::new(0),
        }
    }

    /// Another thread has what is awaited.
    pub fn hold(&self) {
        self.holders.store(1, Ordering::SeqCst);
    }

    /// Waits until another thread has what is to be awaited.
    pub fn await_held<R: Wait>(&self, rt: &R) {
        await_count(rt, &self.holders, 1);
    }

    /// Awaits a future; nothing if `block_on` was refused.
    pub fn awaited<R, F>(&self, rt: &R, inner: F) -> Option<F::Output>
    where
        R: RandomSource + AllocGlobal + Wait,
        F: Future,
        requires { F.can_poll inner }
    {
        let polls = &self.polls;
        block_on(rt, Counted { inner, polls }).ok()
    }

    /// Waits until the future has been polled for the last time before its task sleeps, and then for a while.
    pub fn await_asleep<R: Wait>(&self, rt: &R) {
        await_count(rt, &self.polls, WAITING);
        for _rest in 0..RESTS {
            yield_now();
        }
    }
}

// Waits until a count is at least this.
fn await_count<R: Wait>(rt: &R, count: &AtomicU64, least: u64) {
    for _ in rt.forever() {
        if count.load(Ordering::SeqCst) >= least {
            return;
        }
        yield_now();
    }
}
