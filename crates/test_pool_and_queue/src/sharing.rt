//! Threads that share the values of a pool, and threads that trade items in a queue.

use crate::places::{Attempt, Host, Place, checked_out};
use saa_sync_pool::{Checkout, Pool};
use saa_sync_queue::Queue;
use std::io;
use std::sync::Wait;
use std::sync::atomic::{AtomicUsize, Ordering};
use std::thread::{self, Threads, yield_now};
use std::time::Duration;
use test_asserts::same;
use test_language::language::Call;
use test_language::reply::unknown;

// How many threads share three values, and how often each tries to have one.
const SHARERS: usize = 6;

const TURNS: usize = 120;

// How many threads trade at each end, and how many items each producer pushes.
const TRADERS: usize = 4;

const ITEMS: usize = 150;

// What threads try in one way or another; timed calls wait for longer than any test lasts.
fn trying(deed: &'static str) -> Attempt<'static> {
    Attempt {
        long: Duration::from_secs(50),
        ..Attempt::of(&Call::of(deed))
    }
}

// The sums of what threads counted.
fn sums(counted: &[[usize; 4]]) -> [usize; 4] {
    let mut sums = [0usize; 4];
    for [first, second, third, fourth] in counted {
        sums = [
            sums[0].saturating_add(*first),
            sums[1].saturating_add(*second),
            sums[2].saturating_add(*third),
            sums[3].saturating_add(*fourth),
        ];
    }
    sums
}

// Has a value for a moment: 1 if another thread has it too.
fn held_with_others(holders: &[AtomicUsize; 3], value: usize) -> usize {
    let Some(holder) = holders.get(value % 10) else {
        return 1;
    };
    let others = holder.fetch_add(1, Ordering::SeqCst);
    yield_now();
    let _ = holder.fetch_sub(1, Ordering::SeqCst);
    others.min(1)
}

// Counts a value up by 10: it is kept for a while, replaced, given up for another, or written and put back by its guard.
fn count_up<H: Wait>(
    pool: &Pool<'_, H, usize, 3>,
    mut checkout: Checkout<'_, '_, H, usize, 3>,
    turn: usize,
) {
    match turn % 7 {
        0 => {
            let kept = checkout.keep();
            yield_now();
            let _ = pool.give_back(kept.wrapping_add(10));
        }
        1 => {
            let _ = checkout.replace(|value: usize| -> Result<usize, ()> {
                Ok(value.wrapping_add(10))
            });
        }
        2 => {
            if let Err(shrunk) = checkout.replace(|value: usize| -> Result<usize, usize> {
                Err(value)
            }) {
                let _ = pool.add(shrunk.error.wrapping_add(10));
            }
        }
        _ => *checkout = checkout.wrapping_add(10),
    }
}

// Takes a value again and again, in each way in turn: how often it had one, how often another thread had it too, and how many calls that wait
// were refused.
fn share<H: Host>(
    rt: &H,
    pool: &Pool<'_, H, usize, 3>,
    holders: &[AtomicUsize; 3],
    thread: usize,
) -> [usize; 4] {
    let [mut had, mut shared, mut refused] = [0usize; 3];
    for turn in 0..TURNS {
        let attempt = trying("check_out").in_turn(turn.wrapping_add(thread), 0);
        if let Ok(Ok(checkout)) = checked_out(rt, pool, &attempt) {
            had = had.saturating_add(1);
            shared = shared.saturating_add(held_with_others(holders, *checkout));
            count_up(pool, checkout, turn);
        } else if attempt.way != "try" {
            refused = refused.saturating_add(1);
        }
    }
    [had, shared, refused, 0]
}

// What comes of threads that share the values 0, 1 and 2: how often one was had twice at once, and a call that waits refused; how many are in
// and out; whether each turn is counted by the pool and in a value; and how many of each value there are, as digits.
fn shared_by_threads<H: Host + Threads + Sync>(rt: &H) -> io::Result<([usize; 5], bool)> {
    let pool = Pool::<_, usize, 3>::new(rt, rt.alloc(), SHARERS as u16)?;
    let holders = [
        AtomicUsize::new(0),
        AtomicUsize::new(0),
        AtomicUsize::new(0),
    ];
    let _ = (pool.add(0), pool.add(1), pool.add(2));
    let counted = thread::map_indices(
        rt,
        rt.alloc(),
        SHARERS,
        &|thread| share(rt, &pool, &holders, thread),
    )?;
    let [turns, shared, refused, _] = sums(counted.as_slice());
    let counts = pool.counts();
    pool.close();
    let (mut tens, mut digits) = (0usize, 0usize);
    for value in pool.drain(rt.alloc())? {
        tens = tens.saturating_add(value / 10);
        digits = digits.saturating_add(*[1, 10, 100].get(value % 10).unwrap_or(&1000));
    }
    let is_counted = (tens, counts.served as usize) == (turns, turns);
    let found = [shared, refused, counts.inside, counts.out, digits];
    Ok((found, is_counted))
}

#[test]
fn threads_never_hold_one_value_at_once_and_lose_none(rt: HostRuntime) {
    let found = shared_by_threads(&rt).expect(&rt, "memory");
    same!(rt; found, ([0, 0, 3, 0, 111], true));
}

// Pushes all items of a producer in each way that waits: how many aren't taken. The last producer closes the queue.
fn produce<H: Host>(
    rt: &H,
    queue: &Queue<&H, usize, 3>,
    producers: &AtomicUsize,
    producer: usize,
) -> [usize; 4] {
    let mut refused = 0usize;
    for own in 0..ITEMS {
        let item = producer.wrapping_mul(1000).wrapping_add(own);
        let attempt = trying("push").in_turn(own.wrapping_add(producer) % 4 + 1, item);
        let answered = queue.attempt(rt, &attempt).unwrap_or(unknown());
        refused = refused.saturating_add(usize::from(!answered.is("ok")));
    }
    if producers.fetch_sub(1, Ordering::SeqCst) == 1 {
        queue.close();
    }
    [0, 0, 0, refused]
}

// Pops in each way that waits until nothing comes: how many items it had, their sum, how many came after a later one of the same producer, and 1 if
// that isn't the end.
fn consume<H: Host>(rt: &H, queue: &Queue<&H, usize, 3>, consumer: usize) -> [usize; 4] {
    let mut next = [0usize; TRADERS];
    let [mut had, mut sum, mut late] = [0usize; 3];
    for turn in 0..usize::MAX {
        let attempt = trying("pop").in_turn(turn.wrapping_add(consumer) % 4 + 1, 0);
        let answered = queue.attempt(rt, &attempt).unwrap_or(unknown());
        let Some(item) = answered.number() else {
            return [had, sum, late, usize::from(!answered.is("closed"))];
        };
        had = had.saturating_add(1);
        sum = sum.saturating_add(item % 1000);
        if let Some(next) = next.get_mut(item / 1000) {
            late = late.saturating_add(usize::from(item % 1000 < *next));
            *next = item % 1000;
        }
    }
    [had, sum, late, 1]
}

// What comes of producers and consumers that trade in a queue for three items, and how many are left.
fn traded<H: Host + Threads + Sync>(rt: &H) -> io::Result<([usize; 4], usize)> {
    let queue = Queue::<_, usize, 3>::new(rt, rt.alloc(), TRADERS as u16)?;
    let producers = AtomicUsize::new(TRADERS);
    let counted = thread::map_indices(
        rt,
        rt.alloc(),
        2 * TRADERS,
        &|thread| {
            if thread < TRADERS {
                produce(rt, &queue, &producers, thread)
            } else {
                consume(rt, &queue, thread)
            }
        },
    )?;
    Ok((sums(counted.as_slice()), queue.len()))
}

#[test]
fn all_that_is_pushed_is_popped_once_and_in_order(rt: HostRuntime) {
    let found = traded(&rt).expect(&rt, "memory");
    same!(rt; found, ([600, 4 * 11_175, 0, 0], 0));
}
