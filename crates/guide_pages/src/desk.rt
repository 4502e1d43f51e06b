//! A struct that holds two forms: two seats at a desk, and how many callers were served there.
#![tactic(auto)]

use saa_sync::{AcquireError, Mutex, SemaphoreOf};
use std::alloc::{AllocError, Global};
use std::sync::Wait;
use std::time::{Clock, Duration};
use std::{io, thread};

#[derive(Drop)]
struct Desk<R: Wait + Drop> {
    seats: SemaphoreOf<R, 2>,
    served: Mutex<R, u64>,
}

impl<R: Wait + Clock + Drop + Copy> Desk<R> {
    // Each form takes the permission to block for itself, so `R` is `Copy`, as a reference is.
    fn new(rt: R, alloc: Global, room: u16) -> Result<Desk<R>, AllocError> {
        let seats = SemaphoreOf::new(rt, alloc, room)?;
        let served = Mutex::new(rt, alloc, 0, room)?;
        Ok(Desk { seats, served })
    }

    // Serves a caller. It waits for a seat for a minute at most. The seat is free again once its permit is dropped.
    fn serve(&self) -> Result<bool, AcquireError> {
        let Some(_seat) = self.seats.acquire_permit_for(Duration::from_secs(60))? else {
            return Ok(false);
        };
        let mut served = self.served.lock()?;
        *served = served.saturating_add(1);
        Ok(true)
    }

    // How many were served, once nobody uses the desk any more.
    fn into_served(self) -> u64 {
        let Desk {
            seats: _seats,
            served,
        } = self;
        served.into_inner()
    }
}

#[test]
fn main(rt: HostRuntime) -> io::Result<()> {
    // Room for all four callers at each form.
    let desk = Desk::new(&rt, rt.alloc(), 4)?;
    let _told = thread::map_indices(&rt, rt.alloc(), 4, &|_caller| desk.serve())?;
    println!(rt; "{} callers were served", desk.into_served())
}
