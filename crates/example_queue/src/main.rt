//! Producers and consumers that share a bounded queue with back pressure: `example_queue N`, N from 1 to 16.
//!
//! N threads push 100 numbers each into a queue for four, and N others pop them.
#![tactic(auto)]

mod exchange;

use crate::exchange::{ends_in_time, exchange};
use std::time::Duration;
use std::{env, io};

fn main(rt: HostRuntime) -> io::Result<()> {
    let mut wanted = None;
    for word in env::args(&rt)?.skip(1) {
        wanted = word.as_str().parse::<u16>().ok();
    }
    match wanted {
        Some(pairs @ 1..=16) => {
            let tally = exchange(&rt, rt.alloc(), pairs)?;
            println!(rt; "{} items, of the sum {}", tally.items, tally.sum)?;
            println!(rt; "{} out of order", tally.out_of_order)?;
            let is_told = ends_in_time(&rt, rt.alloc(), Duration::from_millis(5))?;
            println!(rt; "a call whose time was up was told so: {is_told}")
        }
        _ => println!(rt; "usage: example_queue N, with N from 1 to 16"),
    }
}
