//! As many customers as a parameter says, who pay at whichever of two tills is free.
#![tactic(auto)]

ghost use Rattle.std.specs.Prelude.{◌≡◌, ◌⊎◌, IfOk};

use saa_sync::{Full, Mutex, MutexGuard};
use std::alloc::{AllocError, Global};
use std::io;
use std::sync::Wait;
use std::thread::{self, Threads};

#[test]
fn main(rt: HostRuntime) -> io::Result<()> {
    println!(rt; "{} coins were paid", serve(&rt, rt.alloc(), 6)?)
}

// Lets so many customers pay, each in a thread of its own; what is in both tills then.
fn serve<R: Threads + Wait + Sync>(
    rt: &R,
    alloc: Global,
    customers: u16,
) -> Result<u64, AllocError> {
    // Room for all of them at each till: a room is a `u16`.
    let one = Mutex::new(rt, alloc, 0u64, customers)?;
    let other = Mutex::new(rt, alloc, 0u64, customers)?;
    let _paid = thread::map_indices(
        rt,
        alloc,
        usize::from(customers),
        &|_customer| { pay(&one, &other) },
    )?;
    Ok(one.into_inner().saturating_add(other.into_inner()))
}

// Pays ten coins, one at a time. The error comes only where no slot is free, which these tills have for each customer.
fn pay<R: Wait + Drop>(one: &Mutex<R, u64>, other: &Mutex<R, u64>) -> Result<(), Full> {
    for _coin in 0..10 {
        let mut till = free_till(one, other)?;
        *till = till.saturating_add(1);
    }
    Ok(())
}

// The guard of a till: one that is free, or else the first once it is. The clause says that it is of no third one.
fn free_till<'a, R: Wait + Drop>(
    one: &'a Mutex<R, u64>,
    other: &'a Mutex<R, u64>,
) -> Result<MutexGuard<'a, R, u64>, Full>
    ensures { IfOk result (λ till. (till.turn.lock.now ≡ one.now) ⊎ (till.turn.lock.now ≡ other.now)) }
{
    if let Some(till) = one.try_lock() {
        return Ok(till);
    }
    if let Some(till) = other.try_lock() {
        return Ok(till);
    }
    one.lock()
}
