//! The measurement: what is compared is measured in turn, several times, so that whatever else the machine does hurts both alike.
//!
//! Of one thread the best time counts, since all that disturbs it makes it longer; of several threads the median.

use std::time::{Clock, Instant};

/// How often each measurement is made.
pub const PASSES: usize = 9;

/// The times of what is measured several times, in nanoseconds.
pub type Times = [u64; PASSES];

/// What one line tells of.
#[derive(Clone, Copy)]
pub struct Case {
    /// Its text.
    pub text: &'static str,
    /// How often it happens in one measurement.
    pub times: u64,
    /// How many threads there are, or how many wait.
    pub count: u64,
}

/// What one measurement gave.
#[derive(Clone, Copy)]
pub struct Timed {
    /// How long it took, in nanoseconds.
    pub nanos: u64,
    /// What the last turn took or asked for, at a core. Saying it keeps the turns from being worked out before they are made, or left out.
    pub last: usize,
}

/// How long it is since then, in nanoseconds; `None` where the clock was refused.
pub fn nanos_since<R: Clock>(rt: &R, start: Instant) -> Option<u64> {
    let elapsed = start.elapsed(rt).ok()?;
    u64::try_from(elapsed.as_nanos()).ok()
}

/// What all passes gave, in nanoseconds.
#[derive(Clone, Copy)]
pub struct Figure {
    /// The median of them, or the best.
    pub nanos: u64,
    /// The least of them, and the most.
    pub least: u64,
    pub most: u64,
}

impl Figure {
    /// What is measured once.
    pub fn of_one(nanos: u64) -> Self {
        Figure {
            nanos,
            least: nanos,
            most: nanos,
        }
    }
}

/// The median of all passes, or the best of them, with their range.
pub fn figure_of(mut times: Times, is_best: bool) -> Figure {
    times.sort_unstable();
    Figure {
        nanos: times[if is_best { 0 } else { PASSES / 2 }],
        least: times[0],
        most: times[PASSES - 1],
    }
}
