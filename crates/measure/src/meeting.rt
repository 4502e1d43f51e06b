//! A meeting: threads wait for one another, take turns at one lock for a while, and are counted only while all are there.
//!
//! With a fixed number of turns for each thread some would be taken before the others begin or after they have ended, where nothing
//! contends. Here the thread that finds that the time is up ends the meeting for all. Or the thread that comes first times how long it
//! waits for its turns, and ends the meeting once it has waited often enough.

use crate::takers::{Taker, Work};
use crate::times::nanos_since;
use std::alloc::Global;
use std::sync::atomic::{AtomicU64, Ordering};
use std::sync::{Mutex, Wait};
use std::thread::yield_now;
use std::time::{Clock, Instant};

// How long a meeting lasts, in nanoseconds.
const LENGTH: u64 = 40_000_000;

// How many turns a thread takes from one look at the clock to the next.
const BETWEEN_LOOKS: u64 = 64;

// How long each thread spins before it begins, in nanoseconds.
const SPREADING: u64 = 20_000_000;

// How often a thread yields while it waits for the others: where threads were refused, they never come.
const YIELDS: u64 = 10_000_000;

// How often the first thread waits, where it times that, and how many adds it makes between two turns.
const WAITS: u16 = 2_000;

const ADDS_BETWEEN: u64 = 500;

/// How a turn is asked for.
#[derive(Clone, Copy)]
pub enum How {
    /// Alone, by one call.
    Called,
    /// Alone, by joining the waiters at once and waiting there.
    Joined,
    /// Shared, by one call.
    Shared,
}

/// How many adds a thread makes in its turn, and between two turns.
#[derive(Clone, Copy)]
pub struct Adds {
    /// In its turn.
    pub inside: u64,
    /// Between two turns.
    pub outside: u64,
}

/// What the threads of a meeting share.
#[derive(Drop)]
pub struct Meeting {
    threads: u16,
    how: How,
    adds: Adds,
    // Whether the thread that comes first times its waits, where all others take turns by one call.
    is_timed: bool,
    arrived: AtomicU64,
    // How long the first thread took for each of its turns, in nanoseconds.
    waits: Mutex<Vec<u64>>,
    // 1 once the meeting is over.
    over: AtomicU64,
    // How many threads saw it to its end, and how many turns they took and how long they were there, all together.
    stayed: AtomicU64,
    turns: AtomicU64,
    nanos: AtomicU64,
}

impl Meeting {
    /// A meeting of so many threads that take turns so, or of which the first times its waits.
    pub fn new(alloc: Global, threads: u16, how: How, adds: Adds, is_timed: bool) -> Self {
        Meeting {
            threads,
            how,
            adds,
            is_timed,
            arrived: AtomicU64::new(0),
            waits: Mutex::new(Vec::new(alloc)),
            over: AtomicU64::new(0),
            stayed: AtomicU64::new(0),
            turns: AtomicU64::new(0),
            nanos: AtomicU64::new(0),
        }
    }

    /// How many threads meet.
    pub fn threads(&self) -> u16 {
        self.threads
    }

    /// Takes turns from when all are there until the meeting is over; or times them, and ends the meeting.
    pub fn attend<R: Wait + Clock, T: Taker>(&self, rt: &R, mut taker: T) {
        let is_first = self.arrived.fetch_add(1, Ordering::SeqCst) == 0;
        if !self.await_all(1) || spread(rt).is_none() {
            return;
        }
        self.arrived.fetch_add(1, Ordering::SeqCst);
        if !self.await_all(2) {
            return;
        }
        if self.is_timed && is_first {
            let _timed = self.time_waits(rt, &mut taker, &mut self.waits.lock(rt));
            self.over.store(1, Ordering::SeqCst);
        } else {
            let _stayed = self.stay(rt, &mut taker);
        }
    }

    // Takes turns until the meeting is over, and counts them.
    fn stay<R: Wait + Clock, T: Taker>(&self, rt: &R, taker: &mut T) -> Option<()> {
        let start = Instant::now(rt).ok()?;
        let turns = self.take_turns(rt, taker, start);
        let nanos = nanos_since(rt, start)?;
        self.turns.fetch_add(turns, Ordering::SeqCst);
        self.nanos.fetch_add(nanos, Ordering::SeqCst);
        self.stayed.fetch_add(1, Ordering::SeqCst);
        Some(())
    }

    /// How long a thousand turns took, in nanoseconds; `None` where a thread or the clock was refused, or no turn was taken.
    pub fn figure(&self, turns: u64) -> Option<u64> {
        let threads = u64::from(self.threads);
        if self.stayed.load(Ordering::SeqCst) != threads {
            return None;
        }
        let nanos = self.nanos.load(Ordering::SeqCst).checked_div(threads)?;
        nanos
            .saturating_mul(turns)
            .checked_div(self.turns.load(Ordering::SeqCst))
    }

    /// How long the first thread took for its turns, in nanoseconds: the median, the 99th percentile, and the longest. `None` where a thread,
    /// memory or the clock was refused.
    pub fn waits<R: Wait>(&self, rt: &R) -> Option<[u64; 3]> {
        percentiles(&mut self.waits.lock(rt))
    }

    // Times turns with nothing inside, and keeps how long each took.
    fn time_waits<R: Wait + Clock, T: Taker>(
        &self,
        rt: &R,
        taker: &mut T,
        waits: &mut Vec<u64>,
    ) -> Option<()> {
        let (nothing, between) = (Work::new(0), Work::new(ADDS_BETWEEN));
        for _ in 0..WAITS {
            let start = Instant::now(rt).ok()?;
            taker.take_turn(rt, self.how, &nothing);
            waits.push(nanos_since(rt, start)?).ok()?;
            between.work();
        }
        Some(())
    }

    // Waits until all have come so often; whether they did.
    fn await_all(&self, times: u64) -> bool {
        for _ in 0..YIELDS {
            if self.arrived.load(Ordering::SeqCst)
                >= u64::from(self.threads).saturating_mul(times)
            {
                return true;
            }
            yield_now();
        }
        false
    }

    // Takes turns until the meeting is over; how many.
    fn take_turns<R: Wait + Clock, T: Taker>(&self, rt: &R, taker: &mut T, start: Instant) -> u64 {
        let (inside, outside) = (Work::new(self.adds.inside), Work::new(self.adds.outside));
        let how = if self.is_timed { How::Called } else { self.how };
        let mut turns = 0u64;
        for _ in rt.forever() {
            if self.is_over(rt, start, turns) {
                break;
            }
            taker.take_turn(rt, how, &inside);
            outside.work();
            turns = turns.saturating_add(1);
        }
        turns
    }

    // Whether the meeting is over, for a thread that took so many turns. It is where the clock is refused.
    fn is_over<R: Clock>(&self, rt: &R, start: Instant, turns: u64) -> bool {
        if self.over.load(Ordering::SeqCst) == 1 {
            return true;
        }
        if self.is_timed || turns % BETWEEN_LOOKS != 0 {
            return false;
        }
        let is_over = nanos_since(rt, start).unwrap_or(LENGTH) >= LENGTH;
        if is_over {
            self.over.store(1, Ordering::SeqCst);
        }
        is_over
    }
}

// Spins for a while, so that the threads are spread over the processors. Threads that yield to one another can share one processor for long, while
// another has nothing to do. `None` where the clock was refused.
fn spread<R: Wait + Clock>(rt: &R) -> Option<()> {
    let start = Instant::now(rt).ok()?;
    for _ in rt.forever() {
        if nanos_since(rt, start)? >= SPREADING {
            break;
        }
    }
    Some(())
}

// The median of all waits, the 99th percentile and the longest; `None` where there aren't as many as there should be.
fn percentiles(waits: &mut [u64]) -> Option<[u64; 3]> {
    waits.sort_unstable();
    let count = waits.len();
    if count != usize::from(WAITS) {
        return None;
    }
    let (median, percentile) = (waits.get(count / 2)?, waits.get(count / 100 * 99)?);
    Some([*median, *percentile, *waits.last()?])
}
