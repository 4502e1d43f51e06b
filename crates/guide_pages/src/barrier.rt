//! Two threads that go on to the next round only when both have come, with one leader in each.
#![tactic(auto)]

use saa_sync::Barrier;
use std::sync::Wait;
use std::sync::atomic::{AtomicU64, Ordering};
use std::{io, thread};

#[test]
fn main(rt: HostRuntime) -> io::Result<()> {
    // For two tasks that go on at once, so with room for both.
    let barrier = Barrier::with_count(&rt, rt.alloc(), 2, 2)?;
    let arrived = AtomicU64::new(0);
    let ((led, early), (led_too, early_too)) = thread::join(
        &rt,
        || rounds(&barrier, &arrived),
        || rounds(&barrier, &arrived),
    );
    println!(rt; "{} leaders in four rounds", led.saturating_add(led_too))?;
    println!(rt; "{} went on too early", early.saturating_add(early_too))
}

// Meets the other four times; how often this one came last, and how often it went on too early.
fn rounds<R: Wait + Drop>(barrier: &Barrier<R>, arrived: &AtomicU64) -> (u64, u64) {
    let (mut led, mut early) = (0u64, 0u64);
    for round in 1..=4u64 {
        let _ = arrived.fetch_add(1, Ordering::SeqCst);
        let is_leader = barrier.wait_sync() == Ok(true);
        led = led.saturating_add(u64::from(is_leader));
        let is_early = arrived.load(Ordering::SeqCst) < round.saturating_mul(2);
        early = early.saturating_add(u64::from(is_early));
    }
    (led, early)
}
