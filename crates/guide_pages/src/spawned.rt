//! Spawned threads that share a mutex in an `Arc`, and take turns until a hundred are taken.
#![tactic(auto)]

use saa_sync::Mutex;
use std::sync::{Arc, Wait};
use std::{io, thread};

// How many threads there are.
const WORKERS: u16 = 4;

#[test]
fn main(rt: HostRuntime) -> io::Result<()> {
    // The mutex takes the permission to block by value, so it borrows nothing: it is a `Mutex<HostRuntime, u64>`.
    let turns = Arc::new(rt.alloc(), Mutex::new(rt, rt.alloc(), 0u64, WORKERS)?)?;
    let mut workers = Vec::new(rt.alloc());
    for _worker in 0..WORKERS {
        let theirs = Arc::try_clone(&turns)?;
        workers.push(thread::spawn(&rt, move || work(&rt, &theirs))?)?;
    }
    let mut taken = 0u64;
    for worker in workers {
        taken = taken.saturating_add(worker.join(&rt));
    }
    println!(rt; "{taken} turns were taken")
}

// Takes turns until a hundred are taken; how many of them were its own.
fn work<R: Wait + Drop>(rt: &impl Wait, turns: &Mutex<R, u64>) -> u64 {
    let mut own = 0u64;
    // Nobody knows how many turns the others leave, so this is no `loop` that the checker can see end.
    for _turn in rt.forever() {
        let Ok(mut taken) = turns.lock() else {
            break;
        };
        if *taken >= 100 {
            break;
        }
        *taken = taken.saturating_add(1);
        own = own.saturating_add(1);
    }
    own
}
