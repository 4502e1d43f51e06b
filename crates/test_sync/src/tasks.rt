//! Futures that tasks poll by hand, where no story tells it: on a core that the test owns, behind an answer, and of permits as values.

use futures::Future;
use futures::task::Poll;
use futures::test::MockTask;
use saa_core::semaphore::SemaphoreCore;
use saa_sync::future::{PollOn, Progress};
use saa_sync::gate::{Gate, State};
use saa_sync::pager::Pager;
use saa_sync::semaphore::{AcquireError, Semaphore};
use std::alloc::AllocGlobal;
use std::io;
use std::random::RandomSource;
use std::sync::Wait;
use test_asserts::same;

// What one poll by a task gave, if it was ready. For any future: a poll of a known one is dear to prove.
pub(crate) fn polled<F: Future>(task: &MockTask, future: &mut F) -> Option<F::Output>
where
    requires { F.can_poll future.old }
{
    match task.poll(future) {
        Poll::Ready(value) => Some(value),
        Poll::Pending => None,
    }
}

// A worked row: a future of three permits waits at a core, and is granted them once they are released.
fn waits_at_a_core<R: Wait + Drop>(semaphore: &Semaphore<R>, core: &mut SemaphoreCore) -> bool {
    let mut many = semaphore.acquire_many_async(3);
    let first = many.poll_on(core);
    if many.has_ended() {
        return false;
    }
    let second = many.poll_on(core);
    let is_released = core.release_many(3);
    if many.has_ended() {
        return false;
    }
    let third = many.poll_on(core);
    many.cancel_on(core);
    [first, second, third] == [Progress::Joined, Progress::Waits, Progress::Done(Ok(true))]
        && is_released
        && core.available_permits() == 0
}

fn on_a_core<H: Wait + AllocGlobal>(rt: &H) -> io::Result<bool> {
    let mut core = SemaphoreCore::with_permits(rt.alloc(), 0, 1)?;
    let semaphore = Semaphore::new(rt, rt.alloc(), 0)?;
    Ok(waits_at_a_core(&semaphore, &mut core))
}

#[test]
fn a_future_can_be_polled_on_a_core(rt: HostRuntime) {
    same!(rt; on_a_core(&rt).ok(), Some(true));
}

// A future of a pager waits until its answer, which wakes its task, and is pending behind it, and wakes its task too; whether all is so.
fn polled_past_its_answer<'s, R: Wait + Drop>(
    gate: &'s Gate<R>,
    task: &MockTask,
    pager: &mut Pager<'s, Gate<R>>,
) -> bool {
    let has_joined = gate.register_pager(pager, false) == Ok(true);
    let mut poll = pager.poll_async();
    let early = polled(task, &mut poll);
    let are_let_in = gate.permit() == Ok(1);
    let is_woken = task.is_woken();
    let late = polled(task, &mut poll);
    let is_calm = !task.is_woken();
    let past = polled(task, &mut poll);
    let is_so = [has_joined, are_let_in, is_woken, is_calm, task.is_woken()];
    is_so == [true; 5] && [early, late, past] == [None, Some(Ok(State::Controlled)), None]
}

fn past_its_answer<H: Wait + RandomSource + AllocGlobal>(rt: &H) -> io::Result<bool> {
    let task = MockTask::new(rt)?;
    let gate = Gate::new(rt, rt.alloc(), 1)?;
    let mut pager = Pager::new();
    Ok(polled_past_its_answer(&gate, &task, &mut pager) && !pager.is_registered())
}

#[test]
fn a_pagers_future_is_pending_past_its_answer(rt: HostRuntime) {
    same!(rt; past_its_answer(&rt).ok(), Some(true));
}

// Whether a future of two permits as values waits until the shut, and is answered that it is closed then.
fn is_closed_by_a_shut<H: Wait + RandomSource + AllocGlobal>(rt: &H) -> io::Result<bool> {
    let task = MockTask::new(rt)?;
    let semaphore = Semaphore::with_permits(rt, rt.alloc(), 1, 1)?;
    let mut waiting = semaphore.acquire_permits_async(2);
    let is_pending = task.poll(&mut waiting).is_pending();
    let is_shut = semaphore.shut();
    let answer = task.poll(&mut waiting);
    Ok(is_pending && is_shut && matches!(answer, Poll::Ready(Err(AcquireError::Closed))))
}

#[test]
fn a_future_of_permits_is_closed_by_a_shut(rt: HostRuntime) {
    same!(rt; is_closed_by_a_shut(&rt).ok(), Some(true));
}
