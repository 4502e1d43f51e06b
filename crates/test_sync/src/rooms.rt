//! Rooms are filled to their last slot and one more: each slot has a place for a task's waker and a parker of its own, and the next
//! call is answered that the room is full. At a semaphore, since places and parkers are those of every form; small rooms of the others
//! are filled by their stories.

use crate::tasks::polled;
use futures::test::MockTask;
use saa_core::ticket::Full;
use saa_sync::future::AcquireMany;
use saa_sync::pager::Pager;
use saa_sync::semaphore::Semaphore;
use saa_sync::testing::Counted;
use std::alloc::AllocGlobal;
use std::io;
use std::random::RandomSource;
use std::sync::Wait;
use test_asserts::same;

// A future, and the task that polls it.
#[derive(Drop)]
struct Asker<'s, R: Wait + Drop> {
    future: AcquireMany<'s, R>,
    task: MockTask,
}

// As many futures as there is room. The first wants one permit, the last one more, and all others none.
fn askers<'s, H: RandomSource + AllocGlobal, R: Wait + Drop>(
    rt: &H,
    semaphore: &'s Semaphore<R>,
    room: usize,
) -> io::Result<Vec<Asker<'s, R>>> {
    let mut askers = Vec::with_capacity(rt.alloc(), room)?;
    for number in 0..room {
        let is_last = number == room.saturating_sub(1);
        let count = usize::from(number == 0).saturating_add(usize::from(is_last));
        askers.push(Asker {
            future: semaphore.acquire_many_async(count),
            task: MockTask::new(rt)?,
        })?;
    }
    Ok(askers)
}

// Polls each by its task; how many are granted.
fn granted<R: Wait + Drop>(askers: &mut [Asker<'_, R>]) -> usize {
    let mut granted = 0usize;
    for asker in askers {
        let is_granted = matches!(polled(&asker.task, &mut asker.future), Some(Ok(true)));
        granted = granted.saturating_add(usize::from(is_granted));
    }
    granted
}

// How many tasks are woken, and how many parkers notified.
fn woken<R: Wait + Drop>(semaphore: &Semaphore<R>, askers: &[Asker<'_, R>]) -> [usize; 2] {
    let woken = askers.iter().filter(|asker| asker.task.is_woken()).count();
    [woken, semaphore.counts().notified()]
}

// As many wait as there is room, none of their tasks is woken, and one more is refused. A permit is released, and each but the last is
// woken by that, and its parker notified; another one does that at the last, and then each is granted.
fn is_filled<R: Wait + Drop>(
    semaphore: &Semaphore<R>,
    askers: &mut [Asker<'_, R>],
    room: usize,
) -> bool {
    let early = [granted(askers), woken(semaphore, askers)[0]];
    let mut late = Pager::new();
    let is_full = semaphore.register_pager(&mut late, 0, false) == Err(Full);
    let are_released = semaphore.release();
    let most = woken(semaphore, askers);
    let is_released = semaphore.release();
    let all = woken(semaphore, askers);
    early == [0, 0]
        && is_full
        && are_released
        && most == [room.saturating_sub(1); 2]
        && is_released
        && all == [room; 2]
        && granted(askers) == room
}

fn is_filled_by_tasks<H: Wait + RandomSource + AllocGlobal>(rt: &H, room: u16) -> io::Result<bool> {
    let semaphore = Semaphore::with_permits(rt, rt.alloc(), 0, room)?;
    let room = usize::from(room);
    let mut askers = askers(rt, &semaphore, room)?;
    Ok(is_filled(&semaphore, &mut askers, room))
}

#[test]
fn every_room_is_filled(rt: HostRuntime) {
    for room in [1, 20, 32, 300, u16::MAX] {
        same!(rt; (room, is_filled_by_tasks(&rt, room).ok()), (room, Some(true)));
    }
}
