//! Crowds: what a turn costs at one lock at which threads meet, by what a turn has inside, and how long one of them waits for its turn.

use crate::meeting::{Adds, How, Meeting};
use crate::places::{Kind, meet_at};
use crate::takers::Work;
use crate::times::{Case, Figure, PASSES, figure_of, nanos_since};
use std::alloc::Global;
use std::sync::Wait;
use std::thread::Threads;
use std::time::{Clock, Instant};

// How many adds are timed, to find how many take a microsecond.
const ADDS: u64 = 100_000;

// How many kinds of work there are, and each in tenths of a microsecond: in a turn, and between two turns of a thread.
const WORKS: usize = 5;

const TENTHS: [(u64, u64); WORKS] = [(0, 0), (1, 0), (10, 0), (1, 1), (10, 10)];

/// What a turn costs at a lock that threads take so, for each work, where so many adds take a microsecond: the median of all passes.
pub fn crowd<R: Clock + Threads + Wait + Sync>(
    rt: &R,
    alloc: Global,
    kind: Kind,
    how: How,
    case: Case,
    adds: u64,
) -> Option<[Figure; WORKS]> {
    let mut medians = [Figure::of_one(0); WORKS];
    for (median, (inside, outside)) in medians.iter_mut().zip(TENTHS) {
        let adds = Adds {
            inside: adds.saturating_mul(inside) / 10,
            outside: adds.saturating_mul(outside) / 10,
        };
        *median = median_of(rt, alloc, kind, how, case, adds)?;
    }
    Some(medians)
}

// How long so many turns take as the case says: the median of all passes.
fn median_of<R: Clock + Threads + Wait + Sync>(
    rt: &R,
    alloc: Global,
    kind: Kind,
    how: How,
    case: Case,
    adds: Adds,
) -> Option<Figure> {
    let mut times = [0; PASSES];
    for pass in 0..PASSES {
        let meeting = Meeting::new(alloc, threads_of(case), how, adds, false);
        meet_at(rt, alloc, kind, &meeting);
        times[pass] = meeting.figure(case.times)?;
    }
    Some(figure_of(times, false))
}

/// How long a thread waits for a turn with nothing inside that it takes so, while others take turns of so many adds: the median, the 99th
/// percentile and the longest of its waits.
pub fn waits<R: Clock + Threads + Wait + Sync>(
    rt: &R,
    alloc: Global,
    kind: Kind,
    how: How,
    case: Case,
    adds: u64,
) -> Option<[Figure; 3]> {
    let adds = Adds {
        inside: adds,
        outside: 0,
    };
    let meeting = Meeting::new(alloc, threads_of(case), how, adds, true);
    meet_at(rt, alloc, kind, &meeting);
    let [median, percentile, longest] = meeting.waits(rt)?;
    Some([
        Figure::of_one(median),
        Figure::of_one(percentile),
        Figure::of_one(longest),
    ])
}

// How many threads meet.
fn threads_of(case: Case) -> u16 {
    u16::try_from(case.count).unwrap_or(1)
}

/// How many adds of one thread take about a microsecond; `None` where the clock was refused, or showed no time.
pub fn adds_of_a_microsecond<R: Clock>(rt: &R) -> Option<u64> {
    let mut shortest = u64::MAX;
    for _ in 0..PASSES {
        shortest = adds_nanos(rt)?.min(shortest);
    }
    (ADDS * 1_000).checked_div(shortest)
}

// How long many adds take, in nanoseconds.
fn adds_nanos<R: Clock>(rt: &R) -> Option<u64> {
    let work = Work::new(ADDS);
    let start = Instant::now(rt).ok()?;
    work.work();
    nanos_since(rt, start)
}
