//! Four threads that work at two desks, two at a time.
#![tactic(auto)]

use saa_sync::SemaphoreOf;
use std::sync::Wait;
use std::sync::atomic::{AtomicU64, Ordering};
use std::{io, thread};

#[test]
fn main(rt: HostRuntime) -> io::Result<()> {
    // Two permits, and room for four waiters.
    let desks = SemaphoreOf::<_, 2>::new(&rt, rt.alloc(), 4)?;
    let busy = AtomicU64::new(0);
    let done = thread::map_indices(&rt, rt.alloc(), 4, &|_worker| work(&desks, &busy))?;
    let mut jobs = 0u64;
    for of_one in done {
        jobs = jobs.saturating_add(of_one);
    }
    println!(rt; "{jobs} jobs were done, at two desks")
}

// Does fifty jobs, and counts those at which no more than two were at work.
fn work<R: Wait + Drop>(desks: &SemaphoreOf<R, 2>, busy: &AtomicU64) -> u64 {
    let mut jobs = 0u64;
    for _job in 0..50 {
        // Waits in line while both desks are taken; the permit gives itself back as it goes.
        if let Ok(_desk) = desks.acquire_permit() {
            let others = busy.fetch_add(1, Ordering::SeqCst);
            jobs = jobs.saturating_add(u64::from(others < 2));
            let _ = busy.fetch_sub(1, Ordering::SeqCst);
        }
    }
    jobs
}
