//! A thread that pushes and a thread that pops, until the queue is closed and empty.
#![tactic(auto)]

use saa_sync_queue::Queue;
use std::sync::Wait;
use std::{io, thread};

#[test]
fn main(rt: HostRuntime) -> io::Result<()> {
    // Four items at most, and one task can wait at each end.
    let queue = Queue::<_, u64, 4>::new(&rt, rt.alloc(), 1)?;
    let (sum, ()) = thread::join(&rt, || consume(&rt, &queue), || produce(&queue));
    println!(rt; "the numbers that came have the sum {sum}")
}

// Pushes a hundred numbers, and closes the queue behind them.
fn produce<R: Wait>(queue: &Queue<&R, u64, 4>) {
    for number in 0..100 {
        // Waits while there is no place.
        if queue.push(number).is_err() {
            break;
        }
    }
    queue.close();
}

// Pops until the queue is closed and empty: what is left when it is closed comes out too.
fn consume<R: Wait>(rt: &R, queue: &Queue<&R, u64, 4>) -> u64 {
    let mut sum = 0u64;
    for _item in rt.forever() {
        let Ok(number) = queue.pop() else {
            break;
        };
        sum = sum.saturating_add(number);
    }
    sum
}
