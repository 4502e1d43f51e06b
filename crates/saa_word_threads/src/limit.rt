//! How long a wait may last.

use saa_core_waits::Deadline;
use std::time::{Clock, Duration};

/// How long a wait may last.
pub trait Limit {
    /// How much time there is yet; `None` where the time is up.
    fn left(&self) -> Option<Duration>;
}

/// As long as it must.
#[derive(Drop)]
pub(crate) struct Endless;

impl Limit for Endless {
    #[inline(always)]
    fn left(&self) -> Option<Duration> {
        Some(Duration::MAX)
    }
}

/// Until a deadline, by this clock.
#[derive(Drop)]
pub(crate) struct Until<'c, C> {
    clock: &'c C,
    deadline: Deadline,
}

impl<'c, C> Until<'c, C> {
    pub(crate) fn of(clock: &'c C, deadline: Deadline) -> Until<'c, C> {
        Until { clock, deadline }
    }
}

impl<C: Clock> Limit for Until<'_, C> {
    fn left(&self) -> Option<Duration> {
        self.deadline.left(self.clock)
    }
}
