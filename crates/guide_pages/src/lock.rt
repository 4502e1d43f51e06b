//! Two threads that take turns at a lock, and what a poisoned lock answers.
#![tactic(auto)]

use saa_sync::Lock;
use std::sync::Wait;
use std::sync::atomic::{AtomicU64, Ordering};
use std::{io, thread};

#[test]
fn main(rt: HostRuntime) -> io::Result<()> {
    // A free lock, and room for two waiters.
    let lock = Lock::new(&rt, rt.alloc(), 2)?;
    let total = AtomicU64::new(0);
    thread::join(&rt, || add(&lock, &total), || add(&lock, &total));
    println!(rt; "{} turns were taken", total.load(Ordering::SeqCst))?;
    // The owner of the lock can poison it: all waiters and all later calls are told.
    let is_poisoned = lock.lock_sync() == Ok(true) && lock.poison_lock();
    let is_shared = lock.share_sync() == Ok(true);
    println!(rt; "poisoned: {is_poisoned}, shared: {is_shared}")
}

// Adds 1 a hundred times, in two steps that nobody else comes between.
fn add<R: Wait + Drop>(lock: &Lock<R>, total: &AtomicU64) {
    for _turn in 0..100 {
        // Waits in line while the other has it.
        if lock.lock_sync() == Ok(true) {
            let before = total.load(Ordering::SeqCst);
            total.store(before.wrapping_add(1), Ordering::SeqCst);
            lock.release_lock();
        }
    }
}
