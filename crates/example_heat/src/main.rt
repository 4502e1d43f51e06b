//! Heat that spreads round a ring of cells, computed by threads in phases: `example_heat N`, N from 1 to 16 threads.
//!
//! Each step every thread computes its own cells; then all meet at a barrier, and the last to come swaps the buffers.
#![tactic(auto)]

mod ring;
mod spread;

use crate::spread::compare;
use std::{env, io};

fn main(rt: HostRuntime) -> io::Result<()> {
    let mut wanted = None;
    for word in env::args(&rt)?.skip(1) {
        wanted = word.as_str().parse::<u16>().ok();
    }
    match wanted {
        Some(threads @ 1..=16) => {
            let seen = compare(&rt, rt.alloc(), threads)?;
            println!(rt; "the hottest cell has {}", seen.hottest)?;
            println!(rt;
                "{} cells differ from what one thread computes",
                seen.different
            )
        }
        _ => println!(rt; "usage: example_heat N, with N from 1 to 16"),
    }
}
