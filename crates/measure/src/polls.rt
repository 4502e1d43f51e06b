//! How often tasks that contend are polled for nothing.

use crate::times::Case;
use crate::turns::{PERMITS, TAKEN};
use futures::Future;
use futures::executor::block_on;
use futures::task::{Context, Poll};
use saa_sync::semaphore::Semaphore;
use std::alloc::{AllocGlobal, Global};
use std::random::RandomSource;
use std::sync::Wait;
use std::sync::atomic::{AtomicU64, Ordering};
use std::thread::{self, Threads};

// The room of the semaphore at which tasks contend.
const ROOM: u16 = 32;

// A future whose polls are counted.
#[derive(Drop)]
struct Counted<'c, F> {
    inner: F,
    polls: &'c AtomicU64,
}

impl<F: Future> Future for Counted<'_, F> {
    type Output = F::Output;

    ghost can_poll = { λ counted. F.can_poll counted.inner };

    ghost needs = { λ counted. F.needs counted.inner };

    fn poll(&mut self, cx: &mut Context<'_>) -> Poll<F::Output> {
        self.polls.fetch_add(1, Ordering::SeqCst);
        self.inner.poll(cx)
    }
}

// How often tasks were polled, and how often they joined the line or were answered.
#[derive(Drop)]
struct Counts {
    polls: AtomicU64,
    events: AtomicU64,
}

/// How often tasks in so many threads are polled though they neither join the line nor are answered; `None` where memory was refused.
pub fn idle_polls<R: RandomSource + AllocGlobal + Threads + Wait + Sync>(
    rt: &R,
    alloc: Global,
    case: Case,
) -> Option<u64> {
    let semaphore = Semaphore::with_permits(rt, alloc, PERMITS, ROOM).ok()?;
    let counts = Counts {
        polls: AtomicU64::new(0),
        events: AtomicU64::new(0),
    };
    contend_together(rt, &semaphore, case, &counts);
    let needed = counts.events.load(Ordering::SeqCst);
    Some(counts.polls.load(Ordering::SeqCst).saturating_sub(needed))
}

// Takes turns as tasks in so many threads.
fn contend_together<R: RandomSource + AllocGlobal + Threads + Wait + Sync, S: Wait + Drop + Sync>(
    rt: &R,
    semaphore: &Semaphore<S>,
    case: Case,
    counts: &Counts,
) {
    let turns = case.times.checked_div(case.count).unwrap_or(0);
    thread::scope(thread::scope_env(), rt, |scope| {
        for _ in 0..case.count {
            if scope
                .spawn(move || contend(rt, semaphore, turns, counts))
                .is_err()
            {
                contend(rt, semaphore, turns, counts);
            }
        }
    });
}

// Takes so many turns as a task, and counts its polls, and how often it joins the line or is answered.
fn contend<R: RandomSource + AllocGlobal + Wait, S: Wait + Drop>(
    rt: &R,
    semaphore: &Semaphore<S>,
    turns: u64,
    counts: &Counts,
) {
    for _turn in 0..turns {
        let inner = semaphore.acquire_many_async_with(TAKEN, || {
            counts.events.fetch_add(1, Ordering::SeqCst);
        });
        let polls = &counts.polls;
        if matches!(block_on(rt, Counted { inner, polls }), Ok(Ok(true))) {
            semaphore.release_many(TAKEN);
        }
        counts.events.fetch_add(1, Ordering::SeqCst);
    }
}
