//! Workers that write and read one table, each at a place of its own: `example_table N`, N from 1 to 16 workers.
#![tactic(auto)]

mod table;
mod work;

use crate::work::share;
use std::{env, io};

fn main(rt: HostRuntime) -> io::Result<()> {
    let mut wanted = None;
    for word in env::args(&rt)?.skip(1) {
        wanted = word.as_str().parse::<u16>().ok();
    }
    match wanted {
        Some(workers @ 1..=16) => {
            let seen = share(&rt, rt.alloc(), workers)?;
            println!(rt;
                "{} readings were written, and behind {} of them the table had lost one",
                seen.written, seen.lost
            )?;
            println!(rt; "the widest span is {}", seen.widest)
        }
        _ => println!(rt; "usage: example_table N, with N from 1 to 16"),
    }
}
