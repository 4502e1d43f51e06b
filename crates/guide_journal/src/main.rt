//! Two threads that call one semaphore under a journal, which knows afterwards that no call is missing.
#![tactic(auto)]

ghost use Rattle.std.specs.Prelude.{◌≡◌, []};
ghost use Rattle.saa_core_bench.specs.Tickets.{object_of};

use saa_core_bench::bench::CommandOf;
use saa_core_bench::journal::{Journal, Journalled, Share};
use saa_core_bench::semaphore::{SemaphoreCall, SemaphoreCore};
use std::alloc::Global;
use std::io;
use std::marker::Brand;
use std::sync::ledger::Blank;
use std::sync::{Mutex, Wait};
use std::thread::{self, Threads};

fn main(rt: HostRuntime) -> io::Result<()> {
    let core = SemaphoreCore::new(rt.alloc(), 0)?;
    let calls = both::<Brand, HostRuntime>(&rt, rt.alloc(), core, Blank::new(2))?;
    println!(rt; "{calls} calls, and none is missing")
}

// Has two threads call a journal of this core, a share each, and counts the calls by the shares alone.
fn both<J: Journal + Send + Sync, R: Threads + Wait + Sync>(
    rt: &R,
    alloc: Global,
    core: SemaphoreCore,
    blank: Blank,
) -> io::Result<usize>
    requires name { blank.name ≡ J.name }
    requires parts { blank.parts ≡ J.parts }
    requires dealt { blank.parts ≡ 2 }
    requires one_each { J.dealt ≡ J.parts }
    requires opening { object_of core [] ≡ J.opening }
{
    let (journal, mut shares) = Journalled::<SemaphoreCore, J>::new(alloc, core, 0, blank, 2)?;
    let journal = Mutex::new(journal);
    if let (Some(one), Some(other)) = (shares.pop(), shares.pop()) {
        let (one, other) = thread::join(rt, || ask(rt, &journal, one), || ask(rt, &journal, other));
        shares.push(one)?;
        shares.push(other)?;
    }
    Ok(journal.into_inner().gather(shares).unwrap_or(0))
}

// Asks a hundred times, under the journal's lock, and hands the share back.
fn ask<J: Journal, R: Wait>(
    rt: &R,
    journal: &Mutex<Journalled<SemaphoreCore, J>>,
    share: Share<J>,
) -> Share<J> {
    let mut share = share;
    let command = CommandOf::Call(SemaphoreCall::TryAcquireMany(1));
    for _call in 0..100 {
        let _ = journal.lock(rt).call(&command, &mut share);
    }
    share
}
