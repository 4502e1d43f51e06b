//! A barrier at which threads and tasks come and go: each of four members brings in a newcomer in a round of its own, and all leave after some rounds. Early
//! arrivals of a round meet some that haven't left the last one.

use futures::executor::block_on;
use saa_sync::barrier::Barrier;
use saa_sync::semaphore::Semaphore;
use std::alloc::{AllocError, AllocGlobal};
use std::random::RandomSource;
use std::sync::Wait;
use std::sync::atomic::{AtomicU64, Ordering};
use std::thread::{Threads, map_indices};
use test_asserts::same;

// How many members there are, and in how many rounds a newcomer takes part.
const MEMBERS: usize = 4;

const ROUNDS: usize = 3;

// Threads that meet at a barrier, and what they are answered.
#[derive(Drop)]
struct Meetings<R: Wait + Drop> {
    barrier: Barrier<R>,
    // A permit for each newcomer that may start.
    starts: Semaphore<R>,
    joined: AtomicU64,
    passed: AtomicU64,
    // Calls that completed a round, as its leader or by leaving.
    complete: AtomicU64,
}

impl<R: Wait + Drop> Meetings<R> {
    // Takes part in so many rounds, by calls or as a task.
    fn meet<H: Wait + RandomSource + AllocGlobal>(&self, rt: &H, is_task: bool, rounds: usize) {
        for _round in 0..rounds {
            let answer = if is_task {
                block_on(rt, self.barrier.wait_async()).ok()
            } else {
                Some(self.barrier.wait_sync())
            };
            let Some(Ok(is_leader)) = answer else {
                return;
            };
            add(&self.passed, true);
            add(&self.complete, is_leader);
        }
    }

    // Member n brings in a newcomer in round n, which can't be complete before the member arrives, and leaves after that round. Each second one is a task.
    fn take_part<H: Wait + RandomSource + AllocGlobal>(&self, rt: &H, number: usize) {
        let is_task = number % 2 == 1;
        if number < MEMBERS {
            self.meet(rt, is_task, number);
            add(&self.joined, self.barrier.join());
            let _is_released = self.starts.release();
            self.meet(rt, is_task, 1);
        } else if self.starts.acquire_sync() == Ok(()) {
            self.meet(rt, is_task, ROUNDS);
        }
        add(&self.complete, self.barrier.leave());
    }
}

// Adds one to a count, if there is one more.
fn add(count: &AtomicU64, is_more: bool) {
    count.fetch_add(u64::from(is_more), Ordering::SeqCst);
}

// How many joined, how often one passed, and how often a call completed a round; how many rounds there were, and how many arrivals are missing.
fn outcome<H>(rt: &H) -> Result<[u64; 5], AllocError>
where
    H: Wait + Threads + Sync + RandomSource + AllocGlobal,
{
    let mo = Ordering::SeqCst;
    let meetings = Meetings {
        barrier: Barrier::with_count(rt, rt.alloc(), MEMBERS, 8)?,
        starts: Semaphore::with_permits(rt, rt.alloc(), 0, 4)?,
        joined: AtomicU64::new(0),
        passed: AtomicU64::new(0),
        complete: AtomicU64::new(0),
    };
    let _done = map_indices(
        rt,
        rt.alloc(),
        2 * MEMBERS,
        &|number| meetings.take_part(rt, number),
    )?;
    Ok([
        meetings.joined.load(mo),
        meetings.passed.load(mo),
        meetings.complete.load(mo),
        meetings.barrier.round(mo),
        meetings.barrier.count(mo) as u64,
    ])
}

// The members meet 1 to 4 times, the newcomers 3 times each, and the last of these from the fourth round on. Each round has one leader, or is complete as one leaves.
#[test]
fn a_round_waits_for_those_that_take_part_in_it(rt: HostRuntime) {
    same!(rt; outcome(&rt), Ok([4, 22, 6, 6, 0]));
}
