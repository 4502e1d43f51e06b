//! Jobs that carry a permit to the thread that does them, so that no more than two are under way.
#![tactic(auto)]

use saa_sync::SemaphoreOf;
use saa_sync::permit::{OwnedPermitOf, PermitFrom};
use std::sync::atomic::Ordering;
use std::sync::{Arc, Wait};
use std::{io, thread};

#[test]
fn main(rt: HostRuntime) -> io::Result<()> {
    // The semaphore takes the permission to block by value, so it borrows nothing. One waiter: this thread.
    let slots = Arc::new(rt.alloc(), SemaphoreOf::<_, 2>::new(rt, rt.alloc(), 1)?)?;
    let mut jobs = Vec::new(rt.alloc());
    for number in 1..=6u64 {
        // Waits until fewer than two are under way. The permit owns the semaphore with others, and goes with the job.
        let slot = PermitFrom::acquire_one(Arc::try_clone(&slots)?)?;
        jobs.push(thread::spawn(&rt, move || square(number, slot))?)?;
    }
    let mut sum = 0u64;
    for job in jobs {
        sum = sum.saturating_add(job.join(&rt));
    }
    let free = slots.available_permits(Ordering::SeqCst);
    println!(rt; "the squares make {sum}, and {free} slots are free")
}

// Does a job; its slot is free again as its permit goes.
fn square<R: Wait + Drop>(number: u64, _slot: OwnedPermitOf<R, 2>) -> u64 {
    number.saturating_mul(number)
}
