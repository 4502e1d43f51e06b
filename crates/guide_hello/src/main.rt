//! Two threads that add to one number behind a fair mutex.
#![tactic(auto)]

use saa_sync::Mutex;
use std::sync::Wait;
use std::{io, thread};

fn main(rt: HostRuntime) -> io::Result<()> {
    // Up to eight tasks can wait for it at once.
    let turns = Mutex::new(&rt, rt.alloc(), 0u64, 8)?;
    thread::join(&rt, || work(&turns), || work(&turns));
    println!(rt; "{} turns were taken", turns.into_inner())?;
    Ok(())
}

fn work<R: Wait + Drop>(turns: &Mutex<R, u64>) {
    for _turn in 0..100 {
        // Waits in line while the other has it; the guard's drop lets the next one in.
        if let Ok(mut taken) = turns.lock() {
            *taken = taken.saturating_add(1);
        }
    }
}
