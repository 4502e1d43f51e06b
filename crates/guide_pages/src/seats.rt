//! A room whose number of seats changes: a release adds some, and permits that are forgotten take some away.
#![tactic(auto)]

use saa_sync::SemaphoreOf;
use std::io;
use std::sync::atomic::Ordering;

#[test]
fn main(rt: HostRuntime) -> io::Result<()> {
    // Ten seats at most, of which two are available; the others are withheld. Room for four waiters.
    let seats = SemaphoreOf::<_, 10>::with_permits(&rt, rt.alloc(), 2, 4)?;
    let is_added = seats.release_many(3);
    println!(rt;
        "three more: {is_added}, {} seats",
        seats.available_permits(Ordering::SeqCst)
    )?;
    // Waits until four are free, and keeps them out for good.
    let Some(mut fewer) = seats.acquire_permits(4)? else {
        return println!(rt; "there never are so many");
    };
    // Not four after all: one of them is free again as this part goes.
    drop(fewer.split(1));
    println!(rt;
        "{} fewer, {} seats",
        fewer.forget(),
        seats.available_permits(Ordering::SeqCst)
    )
}
