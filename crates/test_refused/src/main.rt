//! Everything that takes memory, done once; if memory is refused it is done again, and the outcome is printed.
//!
//! With a number as its argument the program first takes and gives back memory that many times. So a run in which one allocation of a fixed number
//! is refused meets another one by each argument: `scripts/refuse_everything` runs it by all of them, and compares what is printed.
#![tactic(auto)]

mod awaited;
mod journalled;
mod made;
mod outcome;
mod watch;

use std::alloc::Global;
use std::{env, io};

fn main(rt: HostRuntime) -> io::Result<()> {
    let wasted = match wanted(&rt, rt.alloc()) {
        Some(count) => waste(rt.alloc(), count),
        None => None,
    };
    match wasted {
        Some(count) => println!(rt; "wasted {count}")?,
        None => println!(rt; "refused before the first row")?,
    }
    made::rows(&rt, rt.alloc())?;
    journalled::rows(&rt, rt.alloc())?;
    awaited::rows(&rt, rt.alloc())
}

// How often memory is to be taken first; none if memory for the arguments was refused.
fn wanted<E: env::Env>(environment: &E, alloc: Global) -> Option<u32> {
    let mut count = 0;
    for word in env::args(&(environment, alloc)).ok()?.skip(1) {
        count = word.as_str().parse::<u32>().unwrap_or(0);
    }
    Some(count)
}

// Takes memory and gives it back, as often as this; none if it was refused.
fn waste(alloc: Global, count: u32) -> Option<u32> {
    for _turn in 0..count {
        let mut bytes = Vec::new(alloc);
        if bytes.push(0u8).is_err() {
            return None;
        }
    }
    Some(count)
}
