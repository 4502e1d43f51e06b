//! Clocks that a test sets, and the runtime's as one of them.

use std::io;
use std::sync::Wait;
use std::sync::atomic::{AtomicU64, Ordering};
use std::time::{Clock, Duration};

/// The permission to block of a runtime, and a clock of its own, in nanoseconds, or the runtime's clock.
#[derive(Drop)]
pub struct OnClock<R: Wait + Clock + Drop> {
    pub(crate) rt: R,
    /// Whether it shows the runtime's time.
    pub(crate) is_real: bool,
    now: AtomicU64,
    // How much later each reading is than the last.
    step: u64,
    // What it shows once it was read, or 0 where it doesn't leap.
    leap: AtomicU64,
    readings: AtomicU64,
}

/// The time at which a clock breaks.
pub const BROKEN: u64 = u64::MAX;

impl<R: Wait + Clock + Drop> OnClock<R> {
    /// A clock at 0, of which each reading is so much later than the last.
    pub fn new(rt: R, step: u64) -> Self {
        OnClock {
            rt,
            is_real: false,
            now: AtomicU64::new(0),
            step,
            leap: AtomicU64::new(0),
            readings: AtomicU64::new(0),
        }
    }

    /// The runtime's clock.
    pub fn real(rt: R) -> Self {
        let mut clock = Self::new(rt, 0);
        clock.is_real = true;
        clock
    }

    /// Sets the clock; at [`BROKEN`] it can't be read any more. The runtime's goes on as it does.
    pub fn set(&self, now: u64) {
        self.now.store(now, Ordering::SeqCst);
    }

    /// Has it show this time as soon as it was read once more.
    pub fn leap(&self, then: u64) {
        self.leap.store(then, Ordering::SeqCst);
    }

    // The step of a reading that showed this.
    fn go_on(&self, now: u64) {
        let then = self.leap.swap(0, Ordering::SeqCst);
        if then != 0 {
            self.now.store(then, Ordering::SeqCst);
        } else if self.step != 0 {
            // One that stands still is set by another thread meanwhile, and keeps that.
            self.now
                .store(now.saturating_add(self.step), Ordering::SeqCst);
        }
    }

    /// How often it was read.
    pub fn readings(&self) -> u64 {
        self.readings.load(Ordering::SeqCst)
    }
}

impl<R: Wait + Clock + Drop> Wait for OnClock<R> {}

impl<R: Wait + Clock + Drop> Clock for OnClock<R> {
    fn monotonic(&self) -> io::Result<Duration> {
        self.readings.fetch_add(1, Ordering::SeqCst);
        if self.is_real {
            return self.rt.monotonic();
        }
        let now = self.now.load(Ordering::SeqCst);
        if now == BROKEN {
            return Err(io::Error::from(io::ErrorKind::Other));
        }
        self.go_on(now);
        Ok(Duration::from_nanos(now))
    }

    fn since_1970(&self) -> io::Result<Duration> {
        self.monotonic()
    }
}
