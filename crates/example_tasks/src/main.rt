//! Hundreds of tasks that a few threads poll: `example_tasks N`, N from 1 to 16.
//!
//! Each waits at a gate, at a semaphore and at a lock-free mutex in turn. Some give up their wait at the semaphore, and disturb nobody by that.
#![tactic(auto)]

mod crew;
mod steps;
mod task;
mod workshop;

use crate::workshop::{DESKS, TASKS, Told, work};
use std::{env, io};

fn main(rt: HostRuntime) -> io::Result<()> {
    let mut wanted = None;
    for word in env::args(&rt)?.skip(1) {
        wanted = word.as_str().parse::<u16>().ok();
    }
    match wanted {
        Some(threads @ 1..=16) => {
            let told = work(rt, threads)?;
            println!(rt; "{TASKS} tasks on {threads} threads")?;
            println!(rt;
                "{} added their numbers, of the sum {}",
                told.book.entries, told.book.sum
            )?;
            println!(rt;
                "{} gave up, and {} of {DESKS} desks are free",
                told.gave_up, told.free_desks
            )?;
            println!(rt; "all is as it must be: {}", told == Told::expected())
        }
        _ => println!(rt; "usage: example_tasks N, with N from 1 to 16"),
    }
}
