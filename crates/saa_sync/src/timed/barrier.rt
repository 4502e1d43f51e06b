//! Barriers that are waited at in time.

use crate::barrier::{BarrierCore, is_leader};
use crate::form::Form;
use crate::timed::Deadline;
use saa_core::ticket::Full;
use std::sync::Wait;
use std::time::{Clock, Duration, Instant};

impl<R: Wait + Clock + Drop> Form<R, BarrierCore> {
    /// Arrives as [`Self::wait_sync`] does, and waits at most so long.
    ///
    /// `Ok(Some(is_leader))` with the answer of that call. `Ok(None)`: time is up, and the arrival is taken back: the round waits for
    /// one more again. `Full` as there.
    pub fn wait_sync_for(&self, duration: Duration) -> Result<Option<bool>, Full> {
        self.wait_by(Deadline::after(self.rt(), duration))
    }

    /// Arrives as [`Self::wait_sync_for`] does, and waits until this instant.
    pub fn wait_sync_until(&self, deadline: Instant) -> Result<Option<bool>, Full> {
        self.wait_by(Deadline::At(deadline))
    }

    // Arrives, and waits until then.
    fn wait_by(&self, deadline: Deadline) -> Result<Option<bool>, Full> {
        Ok(self.acquire_until((), deadline)?.map(is_leader))
    }
}
