//! Workers that share three connections to SQLite databases: `example_pool N`, N from 1 to 16 workers.
#![tactic(auto)]

mod connections;
mod counts;
mod folder;
mod ledger;
mod pooled;
mod share;

use crate::connections::Database;
use crate::folder::Folder;
use crate::share::{CONNECTIONS, Seen, share};
use std::sync::Wait;
use std::thread::Threads;
use std::{env, io};

fn main(rt: HostRuntime) -> io::Result<()> {
    let mut wanted = None;
    for word in env::args(&rt)?.skip(1) {
        wanted = word.as_str().parse::<u16>().ok();
    }
    match wanted {
        Some(workers @ 1..=16) => match seen(&rt, &rt, workers)? {
            Some(seen) => print_seen(&rt, workers, seen),
            None => println!(rt; "memory, a file, SQLite or the pool refused"),
        },
        _ => println!(rt; "usage: example_pool N, with N from 1 to 16"),
    }
}

// What is seen of so many workers with databases in a new folder, which is removed then.
fn seen<R: Threads + Wait + Sync>(
    rt: &R,
    host: &HostRuntime,
    workers: u16,
) -> io::Result<Option<Seen>> {
    let folder = Folder::new(host)?;
    Ok(share::<_, Database, _>(rt, host.alloc(), &folder, workers))
}

// Prints what was seen.
fn print_seen(rt: &impl Print, workers: u16, seen: Seen) -> io::Result<()> {
    print!(rt; "{CONNECTIONS} connections went out in the order")?;
    for number in seen.order {
        print!(rt; " {number}")?;
    }
    println!(rt;
        "\n{workers} workers made {} transfers, of the sum {}, and read the balance 0 behind {} of them",
        seen.done.transfers, seen.done.credited, seen.done.balanced
    )?;
    println!(rt; "{} broken connection was replaced", seen.done.replaced)?;
    println!(rt;
        "SQL finds {} transfers, of the sum {}, and the balance {}",
        seen.found.transfers, seen.found.credited, seen.found.balance
    )?;
    println!(rt;
        "it finds what the workers did: {}",
        seen.found.is_of(seen.done)
    )
}
