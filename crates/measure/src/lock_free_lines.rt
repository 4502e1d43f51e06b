//! What is done in the line of a lock-free semaphore, as `lines` does it in that of the form that threads share.
//!
//! It stands by itself: the prover covers no call of a function that is generic in both, since their futures borrow them.

use crate::lines::Action;
use crate::times::{Case, nanos_since};
use futures::Future;
use futures::task::Context;
use futures::test::MockTask;
use saa_word_lock_free::future::Acquire;
use saa_word_lock_free::semaphore::Semaphore;
use std::alloc::{AllocGlobal, Global};
use std::random::RandomSource;
use std::sync::Wait;
use std::time::{Clock, Instant};

/// How long an action takes so often by futures of one task that wait in the line of a lock-free semaphore, in nanoseconds; `None` where
/// memory or the clock was refused.
pub fn lock_free_task_nanos<R: Clock + RandomSource + AllocGlobal + Wait>(
    rt: &R,
    alloc: Global,
    action: Action,
    case: Case,
) -> Option<u64> {
    let room = u16::try_from(case.count).ok()?;
    let semaphore = Semaphore::with_permits(rt, alloc, 0, room).ok()?;
    let task = MockTask::new(rt).ok()?;
    task.enter(|cx| line_nanos(rt, alloc, cx, &semaphore, action, case))
}

// How long an action takes so often in the line, in a task, in nanoseconds.
fn line_nanos<R: Clock, S: Wait + Drop>(
    rt: &R,
    alloc: Global,
    cx: &mut Context<'_>,
    semaphore: &Semaphore<S>,
    action: Action,
    case: Case,
) -> Option<u64> {
    let mut line = Vec::with_capacity(alloc, case.count as usize).ok()?;
    join(cx, semaphore, &mut line, case.count)?;
    let start = Instant::now(rt).ok()?;
    act_often(cx, semaphore, &mut line, action, case.times);
    nanos_since(rt, start)
}

// Has so many futures join the line; `None` where memory was refused.
fn join<'s, S: Wait + Drop>(
    cx: &mut Context<'_>,
    semaphore: &'s Semaphore<S>,
    line: &mut Vec<Acquire<'s, S>>,
    waiting: u64,
) -> Option<()> {
    for _place in 0..waiting {
        let mut one = semaphore.acquire_async();
        let _joined = one.poll(cx);
        line.push(one).ok()?;
    }
    Some(())
}

// Does it so often. A waiter that is replaced is cancelled by its drop, unless it took its answer.
fn act_often<'s, S: Wait + Drop>(
    cx: &mut Context<'_>,
    semaphore: &'s Semaphore<S>,
    line: &mut [Acquire<'s, S>],
    action: Action,
    times: u64,
) {
    let waiting = line.len() as u64;
    for turn in 0..times {
        if let Some(one) = line.get_mut(action.place(turn, waiting)) {
            if matches!(action, Action::Grant) {
                semaphore.release();
                let _granted = one.poll(cx);
            }
            *one = semaphore.acquire_async();
            let _joined = one.poll(cx);
        }
    }
}
