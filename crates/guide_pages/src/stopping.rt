//! Two workers that take jobs until a gate opens: each waits for a job or for the stop, whichever comes first.
#![tactic(auto)]

use futures::Future;
use futures::executor::block_on;
use futures::future::{Either, select};
use saa_sync::Semaphore;
use saa_sync::gate::Gate;
use std::alloc::AllocGlobal;
use std::random::RandomSource;
use std::sync::Wait;
use std::{io, thread};

#[test]
fn main(rt: HostRuntime) -> io::Result<()> {
    // A gate that opens when the workers are to stop, and jobs, none at first; two workers wait at both.
    let stop = Gate::new(&rt, rt.alloc(), 2)?;
    let jobs = Semaphore::with_permits(&rt, rt.alloc(), 0, 2)?;
    let (workers, _waited) = thread::join(
        &rt,
        || thread::join(&rt, || work(&rt, &stop, &jobs), || work(&rt, &stop, &jobs)),
        || order(&stop, &jobs),
    );
    let (one, other) = workers;
    let done = one?.saturating_add(other?).saturating_add(rest(&jobs));
    println!(rt; "{done} jobs were done or left, and both workers stopped")
}

// Orders twenty jobs, and then stops the workers. Answers how many were waiting at the gate.
fn order<R: Wait + Drop>(stop: &Gate<R>, jobs: &Semaphore<R>) -> usize {
    for _job in 0..20 {
        let _ordered = jobs.release();
    }
    let (_before, waited) = stop.open();
    waited
}

// Does jobs until the gate opens.
fn work<R: Wait + AllocGlobal + RandomSource>(
    rt: &R,
    stop: &Gate<&R>,
    jobs: &Semaphore<&R>,
) -> io::Result<u64> {
    let mut done = 0u64;
    for _turn in rt.forever() {
        if !has_job(rt, stop, jobs)? {
            break;
        }
        done = done.saturating_add(1);
    }
    Ok(done)
}

// Waits for a job or for the stop; whether it got a job. Its wait at the gate is dropped then, which doesn't disturb the other worker there.
fn has_job<R: Wait + AllocGlobal + RandomSource>(
    rt: &R,
    stop: &Gate<&R>,
    jobs: &Semaphore<&R>,
) -> io::Result<bool> {
    let job = second_if_first(rt, stop.enter_async(), jobs.acquire_async())?;
    Ok(job == Some(Ok(())))
}

// What the second of two futures tells, if it is ready before the first. The other one is dropped.
fn second_if_first<R, A, B>(rt: &R, first: A, second: B) -> io::Result<Option<B::Output>>
where
    R: Wait + AllocGlobal + RandomSource,
    A: Future,
    B: Future,
    A::Output: Drop,
    B::Output: Drop,
    requires first { A.can_poll first }
    requires second { B.can_poll second }
{
    match block_on(rt, select(first, second))? {
        Either::Left(_first) => Ok(None),
        Either::Right((told, _first)) => Ok(Some(told)),
    }
}

// How many jobs were ordered and not begun.
fn rest<R: Wait + Drop>(jobs: &Semaphore<R>) -> u64 {
    let mut left = 0u64;
    for _job in 0..20 {
        if jobs.try_acquire() {
            left = left.saturating_add(1);
        }
    }
    left
}
