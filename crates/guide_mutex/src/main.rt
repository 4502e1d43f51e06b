//! Coins that one thread moves while another counts them: it is proved that the count is 100.
#![tactic(auto)]

ghost use Rattle.std.specs.Prelude.{◌≡◌, ◌+◌, IfOk};

use saa_sync::{Full, RwLock};
use std::sync::Wait;
use std::{io, thread};

#[derive(Drop)]
struct Purse {
    left: u64,
    right: u64,
    // Holds whenever nobody writes; a writer that leaves it false isn't built.
    ghost whole: { left + right ≡ 100 },
}

fn main(rt: HostRuntime) -> io::Result<()> {
    // Room for two waiters.
    let purse = Purse {
        left: 100,
        right: 0,
    };
    let purse = RwLock::new(&rt, rt.alloc(), purse, 2)?;
    let (_moved, counted) = thread::join(&rt, || shift(&purse), || count(&purse));
    println!(rt; "{} coins were counted", counted.unwrap_or(0))?;
    println!(rt; "{} is on the right", purse.into_inner().right)
}

// Moves a coin to the right, if there is one on the left. The guard's drop lets the next one in.
fn shift<R: Wait + Drop>(purse: &RwLock<R, Purse>) -> Result<(), Full> {
    let mut guard = purse.write()?;
    let purse = &mut *guard;
    if 0 < purse.left {
        purse.left -= 1;
        purse.right += 1;
    }
    Ok(())
}

// Counts all coins, while other threads move some. The sum can't overflow, since it is 100.
fn count<R: Wait + Drop>(purse: &RwLock<R, Purse>) -> Result<u64, Full>
    ensures { IfOk result (λ coins. coins ≡ 100) }
{
    let purse = purse.read()?;
    Ok(purse.left + purse.right)
}
