//! A task that is polled and a thread that sleeps, in one line for one permit.
#![tactic(auto)]

use futures::executor::block_on;
use saa_sync::SemaphoreOf;
use std::alloc::AllocGlobal;
use std::random::RandomSource;
use std::sync::Wait;
use std::{io, thread};

#[test]
fn main(rt: HostRuntime) -> io::Result<()> {
    // One permit, and room for two waiters.
    let permits = SemaphoreOf::<_, 1>::new(&rt, rt.alloc(), 2)?;
    let (polled, slept) = thread::join(&rt, || poll(&rt, &permits), || sleep(&permits));
    println!(rt; "{} turns by polling, {slept} by sleeping", polled?)
}

// Takes fifty turns as a task: the executor sleeps while the future is pending.
fn poll<R: Wait + AllocGlobal + RandomSource>(
    rt: &R,
    permits: &SemaphoreOf<&R, 1>,
) -> io::Result<u64> {
    let mut turns = 0u64;
    for _turn in 0..50 {
        if block_on(rt, permits.acquire_async())? == Ok(()) {
            turns = turns.saturating_add(1);
            permits.release();
        }
    }
    Ok(turns)
}

// Takes fifty turns as a thread.
fn sleep<R: Wait + Drop>(permits: &SemaphoreOf<R, 1>) -> u64 {
    let mut turns = 0u64;
    for _turn in 0..50 {
        if permits.acquire_sync() == Ok(()) {
            turns = turns.saturating_add(1);
            permits.release();
        }
    }
    turns
}
