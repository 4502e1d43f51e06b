//! Workers that share three buffers without a lock: `example_buffers N`, N from 1 to 16 workers.
#![tactic(auto)]

mod buffers;
mod work;

use crate::work::share;
use std::{env, io};

fn main(rt: HostRuntime) -> io::Result<()> {
    let mut wanted = None;
    for word in env::args(&rt)?.skip(1) {
        wanted = word.as_str().parse::<u16>().ok();
    }
    match wanted {
        Some(workers @ 1..=16) => {
            let seen = share::<_, 3>(&rt, rt.alloc(), workers)?;
            println!(rt;
                "{} turns were taken, and in {} of them a buffer was changed by another worker",
                seen.turns, seen.changed
            )?;
            println!(rt; "{} of 3 buffers are free", seen.free)
        }
        _ => println!(rt; "usage: example_buffers N, with N from 1 to 16"),
    }
}
