//! Locks that are waited for in time.

use crate::form::Form;
use crate::lock::{LockCore, Mode, is_granted};
use crate::timed::Deadline;
use saa_core::ticket::Full;
use std::sync::Wait;
use std::time::{Clock, Duration, Instant};

impl<R: Wait + Clock + Drop> Form<R, LockCore> {
    /// Takes the lock for one owner alone, and waits for it in the queue at most so long; it joins at once, without a look before it.
    ///
    /// `Ok(Some(true))`: it is granted. `Ok(Some(false))`: the lock is poisoned, or was while this waited. `Ok(None)`: time is up,
    /// and nothing is registered or taken; those behind are granted while they fit. `Full` comes at once, where it would have to wait and
    /// as many slots are held as there is room.
    pub fn lock_sync_for(&self, duration: Duration) -> Result<Option<bool>, Full> {
        self.take_by(Mode::Exclusive, Deadline::after(self.rt(), duration))
    }

    /// Takes the lock as [`Self::lock_sync_for`] does, and waits for it until this instant.
    pub fn lock_sync_until(&self, deadline: Instant) -> Result<Option<bool>, Full> {
        self.take_by(Mode::Exclusive, Deadline::At(deadline))
    }

    /// Takes a share of the lock, and waits for it at most so long; answers as [`Self::lock_sync_for`] does.
    pub fn share_sync_for(&self, duration: Duration) -> Result<Option<bool>, Full> {
        self.take_by(Mode::Shared, Deadline::after(self.rt(), duration))
    }

    /// Takes a share of the lock as [`Self::share_sync_for`] does, and waits for it until this instant.
    pub fn share_sync_until(&self, deadline: Instant) -> Result<Option<bool>, Full> {
        self.take_by(Mode::Shared, Deadline::At(deadline))
    }

    // The lock in this mode, by this time.
    pub(crate) fn take_by(&self, mode: Mode, deadline: Deadline) -> Result<Option<bool>, Full> {
        Ok(self.acquire_until(mode, deadline)?.map(is_granted))
    }
}
