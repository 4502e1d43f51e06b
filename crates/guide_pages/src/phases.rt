//! Two threads that work through phases together. One has less to do: it leaves, and the other goes on.
#![tactic(auto)]

use saa_sync::Barrier;
use std::sync::Wait;
use std::sync::atomic::Ordering;
use std::{io, thread};

#[test]
fn main(rt: HostRuntime) -> io::Result<()> {
    let barrier = Barrier::with_count(&rt, rt.alloc(), 2, 2)?;
    thread::join(&rt, || work(&barrier, 2), || work(&barrier, 4));
    println!(rt; "{} phases", barrier.round(Ordering::SeqCst))
}

// Takes part in so many phases, and in no more.
fn work<R: Wait + Drop>(barrier: &Barrier<R>, phases: u32) {
    for _phase in 0..phases {
        let _ = barrier.wait_sync();
    }
    barrier.leave();
}
