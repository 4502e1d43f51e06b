//! Lines in which many wait: what it costs to drop the oldest, one in the middle, or the newest, and to grant the oldest, with its release and
//! its poll, at the core and at the form that threads share. And what a turn as a future costs that is granted at once.

use crate::times::{Case, nanos_since};
use crate::turns::PERMITS;
use futures::Future;
use futures::task::Context;
use futures::test::MockTask;
use saa_core::Primitive;
use saa_core::semaphore::SemaphoreCore;
use saa_core::ticket::{How, Ticket};
use saa_sync::future::Acquire;
use saa_sync::semaphore::Semaphore;
use std::alloc::{AllocGlobal, Global};
use std::random::RandomSource;
use std::sync::Wait;
use std::time::{Clock, Instant};

/// What happens in a line.
#[derive(Clone, Copy)]
pub enum Action {
    /// The oldest gives up, and joins as the newest.
    DropOldest,
    /// One in the middle gives up, and joins as the newest.
    DropMiddle,
    /// The newest gives up, and joins anew.
    DropNewest,
    /// The oldest is granted, takes its answer, and joins as the newest.
    Grant,
}

impl Action {
    // The place in the queue of the waiter that a turn is about.
    pub(crate) fn place(self, turn: u64, waiting: u64) -> usize {
        let half = waiting / 2;
        let place = match self {
            // The first half stays, so that the next of the second half stands in the middle.
            Action::DropMiddle => half.saturating_add(turn.checked_rem(half).unwrap_or(0)),
            Action::DropNewest => waiting.saturating_sub(1),
            Action::DropOldest | Action::Grant => turn.checked_rem(waiting).unwrap_or(0),
        };
        place as usize
    }
}

/// How long an action takes so often in a line at a core, in nanoseconds; `None` where memory or the clock was refused.
pub fn core_line_nanos<R: Clock>(rt: &R, alloc: Global, action: Action, case: Case) -> Option<u64> {
    let room = u16::try_from(case.count).ok()?;
    let mut core = SemaphoreCore::with_permits(alloc, 0, room).ok()?;
    let mut line = Vec::with_capacity(alloc, usize::from(room)).ok()?;
    join_core(&mut core, &mut line, room)?;
    let start = Instant::now(rt).ok()?;
    act_at_core(&mut core, &mut line, action, case.times);
    nanos_since(rt, start)
}

// Has so many tickets join the line; `None` where memory was refused.
fn join_core(core: &mut SemaphoreCore, line: &mut Vec<Ticket>, waiting: u16) -> Option<()> {
    for _place in 0..waiting {
        let mut ticket = Ticket::new();
        let _joined = core.register(&mut ticket, 1, true);
        line.push(ticket).ok()?;
    }
    Some(())
}

// Does it so often.
fn act_at_core(core: &mut SemaphoreCore, line: &mut [Ticket], action: Action, times: u64) {
    let waiting = line.len() as u64;
    for turn in 0..times {
        if let Some(ticket) = line.get_mut(action.place(turn, waiting)) {
            act(core, ticket, action);
        }
    }
}

// One turn of an action at a core.
#[inline(always)]
fn act(core: &mut SemaphoreCore, ticket: &mut Ticket, action: Action) {
    match action {
        Action::DropOldest | Action::DropMiddle | Action::DropNewest => core.cancel(ticket),
        Action::Grant => {
            core.release();
            let _told = core.next_answered();
            let _granted = core.poll(ticket, How::Sync);
        }
    }
    let _joined = core.register(ticket, 1, true);
}

/// How long an action takes so often by futures of one task that wait in a line, in nanoseconds; or, with no action, so many turns of a
/// future that is granted at once, and its release. `None` where memory or the clock was refused.
pub fn task_nanos<R: Clock + RandomSource + AllocGlobal + Wait>(
    rt: &R,
    alloc: Global,
    action: Option<Action>,
    case: Case,
) -> Option<u64> {
    let permits = if action.is_none() { PERMITS } else { 0 };
    let room = u16::try_from(case.count).ok()?;
    let semaphore = Semaphore::with_permits(rt, alloc, permits, room).ok()?;
    let task = MockTask::new(rt).ok()?;
    task.enter(|cx| match action {
        Some(action) => line_nanos(rt, alloc, cx, &semaphore, action, case),
        None => future_nanos(rt, cx, &semaphore, case.times),
    })
}

// How long an action takes so often in the line of a semaphore, in a task, in nanoseconds.
fn line_nanos<R: Clock, S: Wait + Drop>(
    rt: &R,
    alloc: Global,
    cx: &mut Context<'_>,
    semaphore: &Semaphore<S>,
    action: Action,
    case: Case,
) -> Option<u64> {
    let mut line = Vec::with_capacity(alloc, case.count as usize).ok()?;
    join(cx, semaphore, &mut line, case.count)?;
    let start = Instant::now(rt).ok()?;
    act_often(cx, semaphore, &mut line, action, case.times);
    nanos_since(rt, start)
}

// Has so many futures join the line; `None` where memory was refused.
fn join<'s, S: Wait + Drop>(
    cx: &mut Context<'_>,
    semaphore: &'s Semaphore<S>,
    line: &mut Vec<Acquire<'s, S>>,
    waiting: u64,
) -> Option<()> {
    for _place in 0..waiting {
        let mut one = semaphore.acquire_async();
        let _joined = one.poll(cx);
        line.push(one).ok()?;
    }
    Some(())
}

// Does it so often. A waiter that is replaced is cancelled by its drop, unless it took its answer.
fn act_often<'s, S: Wait + Drop>(
    cx: &mut Context<'_>,
    semaphore: &'s Semaphore<S>,
    line: &mut [Acquire<'s, S>],
    action: Action,
    times: u64,
) {
    let waiting = line.len() as u64;
    for turn in 0..times {
        if let Some(one) = line.get_mut(action.place(turn, waiting)) {
            if matches!(action, Action::Grant) {
                semaphore.release();
                let _granted = one.poll(cx);
            }
            *one = semaphore.acquire_async();
            let _joined = one.poll(cx);
        }
    }
}

// How long so many turns of a future take that is granted at once, in nanoseconds.
fn future_nanos<R: Clock, S: Wait + Drop>(
    rt: &R,
    cx: &mut Context<'_>,
    semaphore: &Semaphore<S>,
    turns: u64,
) -> Option<u64> {
    let start = Instant::now(rt).ok()?;
    take_turns(cx, semaphore, turns);
    nanos_since(rt, start)
}

// Polls so many futures in turn, each of which is granted at once, and gives back what each took.
fn take_turns<S: Wait + Drop>(cx: &mut Context<'_>, semaphore: &Semaphore<S>, turns: u64) {
    for _turn in 0..turns {
        let mut one = semaphore.acquire_async();
        let _granted = one.poll(cx);
        drop(one);
        semaphore.release();
    }
}
