//! As many polled tasks as a parameter says, on one thread, beside a thread that blocks: all wait for the same two permits.
#![tactic(auto)]

ghost use Rattle.std.specs.Prelude.{◌≡◌};

use futures::executor::LocalPool;
use futures::task::{Context, Poll};
use futures::{Future, ready};
use saa_sync::SemaphoreOf;
use saa_sync::future::AcquireOf;
use std::alloc::AllocGlobal;
use std::random::RandomSource;
use std::sync::Wait;
use std::sync::atomic::{AtomicU64, Ordering};
use std::{io, thread};

#[test]
fn main(rt: HostRuntime) -> io::Result<()> {
    // Two permits, and room for five tasks and a thread.
    let permits = SemaphoreOf::<_, 2>::new(rt, rt.alloc(), 6)?;
    let turns = AtomicU64::new(0);
    let (polled, blocked) = thread::join(
        &rt,
        || poll_all(&rt, &permits, &turns, 5),
        || block(&permits),
    );
    polled?;
    println!(rt;
        "{} turns by tasks, {blocked} by the thread",
        turns.load(Ordering::SeqCst)
    )
}

// A turn of a task: it takes a permit, counts the turn, and gives the permit back.
#[derive(Drop)]
struct Turn<'a, R: Wait + Drop> {
    permits: &'a SemaphoreOf<R, 2>,
    asked: AcquireOf<'a, R, 2>,
    turns: &'a AtomicU64,
}

impl<R: Wait + Drop> Future for Turn<'_, R> {
    type Output = ();

    ghost needs = { λ turn source. source ≡ turn.asked.source };

    fn poll(&mut self, cx: &mut Context<'_>) -> Poll<()> {
        let told = ready!(self.asked.poll(cx));
        if told == Ok(()) && self.permits.release() {
            self.turns.fetch_add(1, Ordering::SeqCst);
        }
        Poll::Ready(())
    }
}

// Runs so many tasks on this thread, each of which takes a turn.
fn poll_all<R: Wait + AllocGlobal + RandomSource + Drop + 'static>(
    rt: &R,
    permits: &SemaphoreOf<R, 2>,
    turns: &AtomicU64,
    tasks: u16,
) -> io::Result<()> {
    let mut pool = LocalPool::new(rt)?;
    let spawner = pool.spawner()?;
    for _task in 0..tasks {
        let asked = permits.acquire_async();
        let turn = Turn {
            permits,
            asked,
            turns,
        };
        if spawner.spawn(turn).is_err() {
            break;
        }
    }
    pool.run(rt);
    Ok(())
}

// Takes ten turns as a thread.
fn block<R: Wait + Drop>(permits: &SemaphoreOf<R, 2>) -> u64 {
    let mut turns = 0u64;
    for _turn in 0..10 {
        if permits.acquire_sync() == Ok(()) {
            turns = turns.saturating_add(1);
            permits.release();
        }
    }
    turns
}
