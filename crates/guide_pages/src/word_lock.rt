//! Coins that one thread moves while another counts them, behind one atomic word: it is proved that the count is 100.
#![tactic(auto)]

ghost use Rattle.std.specs.Prelude.{◌≡◌, ◌+◌};

use saa_word_forms::{RwLock, RwLockWorker};
use std::sync::Wait;
use std::{io, thread};

#[derive(Drop)]
struct Purse {
    left: u64,
    right: u64,
    // Holds whenever nobody writes; a writer that leaves it false isn't built.
    ghost whole: { left + right ≡ 100 },
}

#[test]
fn main(rt: HostRuntime) -> io::Result<()> {
    let purse = Purse {
        left: 100,
        right: 0,
    };
    // A place for each thread.
    let (purse, mut places) = RwLock::new(rt.alloc(), purse, 2)?;
    let Some(second) = places.pop() else {
        unreachable!()
    };
    let Some(first) = places.pop() else {
        unreachable!()
    };
    let (mover, counter) = (purse.worker(first), purse.worker(second));
    let (_moved, counted) = thread::join(&rt, || shift(&rt, mover), || count(&rt, counter));
    println!(rt; "{counted} coins were counted")?;
    println!(rt; "{} is on the right", purse.into_inner().right)
}

// Moves a coin to the right, if there is one on the left. The guard's drop lets the next one in.
fn shift<R: Wait>(rt: &R, mut worker: RwLockWorker<'_, Purse>) {
    let mut guard = worker.write(rt);
    let purse = &mut *guard;
    if 0 < purse.left {
        purse.left -= 1;
        purse.right += 1;
    }
}

// Counts all coins, while other threads move some. The sum can't overflow, since it is 100.
fn count<R: Wait>(rt: &R, mut worker: RwLockWorker<'_, Purse>) -> u64
    ensures { result ≡ 100 }
{
    let purse = worker.read(rt);
    purse.left + purse.right
}
