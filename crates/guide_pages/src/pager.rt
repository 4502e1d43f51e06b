//! Two pagers that wait in one line while their owner does other things; one gives up.
#![tactic(auto)]

use saa_sync::pager::{Error, Pager};
use saa_sync::{Full, SemaphoreOf};
use std::io;
use std::sync::Wait;

#[test]
fn main(rt: HostRuntime) -> io::Result<()> {
    // One permit, which is out, and room for two waiters.
    let printer = SemaphoreOf::<_, 1>::with_permits(&rt, rt.alloc(), 0, 2)?;
    // Where no slot is free for a second waiter, `?` ends the program, which prints what `Full` says.
    let is_granted = queue(&printer)?;
    println!(rt; "the second has the printer: {is_granted}")
}

// Puts two pagers into the line, takes the first out of it, and gives the printer back.
fn queue<R: Wait + Drop>(printer: &SemaphoreOf<R, 1>) -> Result<bool, Full> {
    let (mut first, mut second) = (Pager::new(), Pager::new());
    let _ = printer.register_pager(&mut first, 1, true)?;
    let _ = printer.register_pager(&mut second, 1, true)?;
    // Nothing sleeps here: a poll that finds no answer says so.
    let waits = second.try_poll() == Err(Error::NotReady);
    // The first leaves the line; so would it where it is dropped.
    first.cancel();
    printer.release();
    // Sleeps until the answer is there, which it is.
    Ok(waits && second.poll_sync() == Ok(()))
}
