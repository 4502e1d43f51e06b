//! Threads that push and pop, and what they count.

use saa_sync::Mutex;
use saa_sync_queue::{PopError, PushError, Queue};
use std::alloc::{AllocError, Global};
use std::sync::Wait;
use std::thread::{self, Threads};
use std::time::{Clock, Duration};

/// How many items each producer pushes, and for how many the queue has places.
const ITEMS: u16 = 100;

const BOUND: usize = 4;

/// An item: who made it, and the how manieth of that maker it is.
#[derive(Clone, Copy)]
pub struct Item {
    pub producer: u16,
    pub number: u16,
}

/// What the consumers counted together.
#[derive(Clone, Copy, Default, Drop, PartialEq)]
pub struct Tally {
    pub items: u64,
    pub sum: u64,
    /// How many items a consumer got behind a later one of the same producer.
    pub out_of_order: u64,
}

// Counts an item, of which the consumer has seen these before, by producer.
fn count(tally: &mut Tally, seen: &mut [u16; 16], item: Item) {
    tally.items = tally.items.saturating_add(1);
    tally.sum = tally.sum.saturating_add(u64::from(item.number));
    if let Some(next) = seen.get_mut(usize::from(item.producer)) {
        if item.number < *next {
            tally.out_of_order = tally.out_of_order.saturating_add(1);
        }
        *next = item.number.saturating_add(1);
    }
}

/// What producers and consumers share.
#[derive(Drop)]
struct Market<'r, R: Wait> {
    rt: &'r R,
    queue: Queue<&'r R, Item, BOUND>,
    tally: Mutex<&'r R, Tally>,
}

impl<'r, R: Wait> Market<'r, R> {
    // A market with an empty queue.
    fn new(rt: &'r R, alloc: Global) -> Result<Self, AllocError> {
        Ok(Market {
            rt,
            queue: Queue::new(rt, alloc, 32)?,
            tally: Mutex::new(rt, alloc, Tally::default(), 32)?,
        })
    }

    // Pushes all items of one producer; a closed queue ends it.
    fn produce(&self, producer: u16) {
        for number in 0..ITEMS {
            if self.queue.push(Item { producer, number }).is_err() {
                return;
            }
        }
    }

    // Pops until the queue is closed and empty.
    fn consume(&self) {
        let mut seen = [0u16; 16];
        for _item in self.rt.forever() {
            let Ok(item) = self.queue.pop() else {
                return;
            };
            if let Ok(mut tally) = self.tally.lock() {
                count(&mut tally, &mut seen, item);
            }
        }
    }
}

// Starts so many producers, and returns when all have ended. Whether all were started.
fn all_produce<R: Threads + Wait + Sync>(rt: &R, market: &Market<'_, R>, pairs: u16) -> bool {
    thread::scope(thread::scope_env(), rt, |scope| {
        for producer in 0..pairs {
            if scope.spawn(move || market.produce(producer)).is_err() {
                return false;
            }
        }
        true
    })
}

// Starts so many consumers and producers, and closes the queue behind the last item. Whether all were started.
fn all_trade<R: Threads + Wait + Sync>(rt: &R, market: &Market<'_, R>, pairs: u16) -> bool {
    thread::scope(thread::scope_env(), rt, |scope| {
        let mut is_whole = true;
        for _consumer in 0..pairs {
            is_whole = scope.spawn(move || market.consume()).is_ok() && is_whole;
        }
        is_whole = is_whole && all_produce(rt, market, pairs);
        market.queue.close() && is_whole
    })
}

/// Has so many producers push 100 items each, and as many consumers pop them; at most 16.
///
/// The error comes where memory was refused or a thread couldn't be started; all threads have ended then too.
pub fn exchange<R: Threads + Wait + Sync>(
    rt: &R,
    alloc: Global,
    pairs: u16,
) -> Result<Tally, AllocError> {
    let market = Market::new(rt, alloc)?;
    if all_trade(rt, &market, pairs) {
        Ok(market.tally.into_inner())
    } else {
        Err(AllocError)
    }
}

/// Pushes to a queue for one item, which stays full, and pops from it once it is empty, with so much patience; whether both
/// were told that time was up, and what was pushed came out.
pub fn ends_in_time<R: Wait + Clock>(
    rt: &R,
    alloc: Global,
    patience: Duration,
) -> Result<bool, AllocError> {
    let queue = Queue::<_, u8, 1>::new(rt, alloc, 1)?;
    let is_pushed = queue.push_for(1, patience) == Ok(());
    let is_late = queue.push_for(2u8, patience) == Err(PushError::TooLate(2));
    let is_popped = queue.pop_for(patience) == Ok(1);
    let is_empty = queue.pop_for(patience) == Err(PopError::TooLate);
    Ok(is_pushed && is_late && is_popped && is_empty)
}
