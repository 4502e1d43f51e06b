//! As many workers as a parameter says, each at a place of its own, at one number behind an atomic word.
#![tactic(auto)]

ghost use Rattle.saa_word_forms.specs.WordLocks.{IsDealtBy};

use saa_word_forms::{Mutex, MutexWorker};
use std::alloc::{AllocError, Global};
use std::io;
use std::sync::Wait;
use std::thread::{self, Threads};

#[test]
fn main(rt: HostRuntime) -> io::Result<()> {
    println!(rt; "{} turns were taken", share(&rt, rt.alloc(), 6)?)
}

// Lets so many workers take turns, each in a thread of its own; how many they took.
fn share<R: Threads + Wait + Sync>(rt: &R, alloc: Global, workers: u16) -> Result<u64, AllocError> {
    // As many places as there are workers.
    let (turns, places) = Mutex::new(alloc, 0u64, workers)?;
    // Each place moves into a thread. That all of them are this mutex's is known here, and the closure asks for it.
    let _done = thread::map_vec(
        rt,
        places,
        &|place|
            requires { IsDealtBy turns place }
        { work(rt, turns.worker(place)) },
    )?;
    Ok(turns.into_inner())
}

// Takes a hundred turns.
fn work<R: Wait>(rt: &R, mut worker: MutexWorker<'_, u64>) {
    for _turn in 0..100 {
        let mut turns = worker.lock(rt);
        *turns = turns.saturating_add(1);
    }
}
