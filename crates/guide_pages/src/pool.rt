//! Two threads that share the one value of a pool.
#![tactic(auto)]

use saa_sync_pool::Pool;
use std::sync::Wait;
use std::{io, thread};

#[test]
fn main(rt: HostRuntime) -> io::Result<()> {
    // One value at most, and room for both threads to wait.
    let pool = Pool::<_, u64, 1>::new(&rt, rt.alloc(), 2)?;
    let _added = pool.add(0);
    thread::join(&rt, || work(&pool), || work(&pool));
    pool.close();
    for turns in pool.drain(rt.alloc())? {
        println!(rt; "{turns} turns were taken")?;
    }
    Ok(())
}

// Takes a hundred turns with the value.
fn work<R: Wait>(pool: &Pool<'_, R, u64, 1>) {
    for _turn in 0..100 {
        // Waits in line while the other has it; the guard's drop puts it back, and lets the next one in.
        if let Ok(mut value) = pool.check_out() {
            *value = value.saturating_add(1);
        }
    }
}
