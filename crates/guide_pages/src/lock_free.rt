//! Four threads that work at two desks in one atomic word: a place is taken only to wait.
#![tactic(auto)]

use saa_word_lock_free::SemaphoreOf;
use std::sync::Wait;
use std::{io, thread};

#[test]
fn main(rt: HostRuntime) -> io::Result<()> {
    // Two permits, and places for four waiters.
    let desks = SemaphoreOf::<_, 2>::new(&rt, rt.alloc(), 4)?;
    let done = thread::map_indices(&rt, rt.alloc(), 4, &|_worker| work(&desks))?;
    let mut jobs = 0u64;
    for of_one in done {
        jobs = jobs.saturating_add(of_one);
    }
    println!(rt; "{jobs} jobs were done, at two desks")?;
    // With no place a call that needn't wait is made, and one that would have to is refused.
    let desks = SemaphoreOf::<_, 2>::new(&rt, rt.alloc(), 0)?;
    let first = desks.acquire_many_sync(2).is_ok();
    let second = desks.acquire_sync().is_ok();
    println!(rt; "with no place: {first}, {second}")
}

// Does fifty jobs, and counts them.
fn work<R: Wait + Drop>(desks: &SemaphoreOf<R, 2>) -> u64 {
    let mut jobs = 0u64;
    for _job in 0..50 {
        // Waits in line while both desks are taken; the permit gives itself back as it goes.
        if let Ok(_desk) = desks.acquire_permit() {
            jobs = jobs.saturating_add(1);
        }
    }
    jobs
}
