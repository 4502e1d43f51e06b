//! What is behind mutexes that a task waits for.

ghost use Rattle.std.specs.Prelude.{◌≡◌};

use futures::executor::block_on;
use futures::future::{Future, FutureExt, join};
use futures::task::{Context, Poll};
use saa_sync::future::MutexFuture;
use saa_sync::{Full, Mutex, MutexGuard, lock_async};
use std::alloc::AllocGlobal;
use std::io;
use std::random::RandomSource;
use std::sync::Wait;

/// What is behind a mutex.
pub fn shown<R: Wait + AllocGlobal + RandomSource>(
    rt: &R,
    mutex: &Mutex<&R, u64>,
) -> io::Result<u64> {
    block_on(rt, lock_async(mutex).map(read))
}

/// What is behind the two, each looked at as soon as it is taken.
pub fn both<R: Wait + AllocGlobal + RandomSource>(
    rt: &R,
    one: &Mutex<&R, u64>,
    other: &Mutex<&R, u64>,
) -> io::Result<(u64, u64)> {
    block_on(rt, join(Look::at(one), Look::at(other)))
}

/// A future that looks at what is behind a mutex, and lets go of the guard at once.
#[derive(Drop)]
pub struct Look<'a, R: Wait + Drop> {
    asked: MutexFuture<'a, R, u64>,
}

impl<'a, R: Wait + Drop> Look<'a, R> {
    /// A look that wasn't polled yet.
    pub fn at(mutex: &'a Mutex<R, u64>) -> Self {
        Look {
            asked: lock_async(mutex),
        }
    }
}

impl<'a, R: Wait + Drop> Future for Look<'a, R> {
    ghost use Rattle.saa_sync.specs.Forms.{source_of};

    type Output = u64;

    ghost needs = { λ look source. source ≡ source_of look.asked.lock };

    fn poll(&mut self, cx: &mut Context<'_>) -> Poll<u64> {
        match self.asked.poll(cx) {
            Poll::Ready(told) => Poll::Ready(read(told)),
            Poll::Pending => Poll::Pending,
        }
    }
}

// What a guard shows, and 0 where there was no room to wait.
fn read<R: Wait + Drop>(told: Result<MutexGuard<'_, R, u64>, Full>) -> u64 {
    match told {
        Ok(guard) => *guard,
        Err(_full) => 0,
    }
}
