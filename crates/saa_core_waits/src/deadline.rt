//! When a timed wait ends.

ghost use Rattle.std.specs.Prelude.{◌≡◌, None, Some};

use std::time::{Clock, Duration, Instant};

/// When a wait ends, on the runtime's clock.
#[derive(Clone, Copy)]
pub enum Deadline {
    /// At this instant.
    At(Instant),
    /// Never: the clock has no instant that is so late.
    Never,
    /// It has ended: the clock can't be read.
    Passed,
}

impl Deadline {
    /// So long from now. A clock that can't be read gives one that has passed.
    pub fn after(clock: &impl Clock, duration: Duration) -> Deadline {
        match Instant::now(clock) {
            Ok(now) => match now.checked_add(duration) {
                Some(end) => Deadline::At(end),
                None => Deadline::Never,
            },
            Err(_unread) => Deadline::Passed,
        }
    }

    /// How much time there is yet; `None` where there is none, or the clock can't be read.
    pub fn left(self, clock: &impl Clock) -> Option<Duration>
        ensures never { self ≡ Deadline.Never → result ≡ Some Duration.MAX }
        ensures passed { self ≡ Deadline.Passed → result ≡ None }
    {
        match self {
            Deadline::At(end) => {
                let now = Instant::now(clock).ok()?;
                let left = end.checked_duration_since(now)?;
                if left.is_zero() { None } else { Some(left) }
            }
            Deadline::Never => Some(Duration::MAX),
            Deadline::Passed => None,
        }
    }
}
