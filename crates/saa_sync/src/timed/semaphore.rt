//! Permits that are waited for in time.

ghost use Rattle.std.specs.Prelude.{◌≡◌, ◌≤◌, ◌<◌, ◌↔◌, false, IfOk, IfSome, IsTrue, Ok, Some};
ghost use Rattle.saa_core_guards.specs.Permits.{IfGranted};

use crate::form::Form;
use crate::permit::{InTime, PermitFrom, PermitOf};
use crate::semaphore::{is_too_many, read_grant};
use crate::timed::Deadline;
use saa_core::semaphore::SemaphoreCoreOf;
use saa_core_waits::AcquireError;
use std::sync::Wait;
use std::time::{Clock, Duration, Instant};

impl<R: Wait + Clock + Drop, const MAX: usize> Form<R, SemaphoreCoreOf<MAX>> {
    /// Takes one permit, and waits for it in the queue at most so long; it joins at once, without a look before it.
    ///
    /// `Ok(Some(()))`: it is granted. `Ok(None)`: time is up, and nothing is registered or taken; those behind are granted while
    /// they fit. `Closed`: the semaphore is shut, or was while this waited. `Full` comes at once, where it would have to wait and as many
    /// slots are held as there is room.
    pub fn acquire_sync_for(&self, duration: Duration) -> Result<Option<()>, AcquireError> {
        self.acquire_by(Deadline::after(self.rt(), duration))
    }

    /// Takes one permit as [`Self::acquire_sync_for`] does, and waits for it until this instant.
    pub fn acquire_sync_until(&self, deadline: Instant) -> Result<Option<()>, AcquireError> {
        self.acquire_by(Deadline::At(deadline))
    }

    /// Takes `count` permits, all together, and waits for them in the queue at most so long; it joins at once, without a look before it.
    ///
    /// `Ok(Some(true))`: they are granted. `Ok(Some(false))` comes at once, exactly where the count is above
    /// [`Self::MAX_PERMITS`]. `Ok(None)`: time is up, and nothing is registered or taken; those behind are granted while they fit.
    /// `Closed`: the semaphore is shut, or was while this waited. `Full` comes at once, where it would have to wait and as many slots are
    /// held as there is room.
    pub fn acquire_many_sync_for(
        &self,
        count: usize,
        duration: Duration,
    ) -> Result<Option<bool>, AcquireError>
        ensures answer { IfOk result (λ reply. IfSome reply (λ is_granted. IsTrue is_granted ↔ (count ≤ MAX))) }
        ensures too_many { MAX < count → result ≡ Ok (Some false) }
    {
        self.acquire_many_by(count, Deadline::after(self.rt(), duration))
    }

    /// Takes `count` permits as [`Self::acquire_many_sync_for`] does, and waits for them until this instant.
    pub fn acquire_many_sync_until(
        &self,
        count: usize,
        deadline: Instant,
    ) -> Result<Option<bool>, AcquireError>
        ensures answer { IfOk result (λ reply. IfSome reply (λ is_granted. IsTrue is_granted ↔ (count ≤ MAX))) }
        ensures too_many { MAX < count → result ≡ Ok (Some false) }
    {
        self.acquire_many_by(count, Deadline::At(deadline))
    }

    /// Takes one permit as [`Self::acquire_sync_for`] does, and gives it back when what is returned goes.
    pub fn acquire_permit_for(
        &self,
        duration: Duration,
    ) -> Result<Option<PermitOf<'_, R, MAX>>, AcquireError>
        ensures semaphore { IfOk result (λ reply. IfSome reply (λ permit. permit.holder.now ≡ self.now)) }
        ensures count { IfOk result (λ reply. IfSome reply (λ permit. permit.count ≡ 1)) }
    {
        PermitFrom::acquire_one_until(self, Deadline::after(self.rt(), duration))
    }

    /// Takes one permit as [`Self::acquire_permit_for`] does, and waits for it until this instant.
    pub fn acquire_permit_until(
        &self,
        deadline: Instant,
    ) -> Result<Option<PermitOf<'_, R, MAX>>, AcquireError>
        ensures semaphore { IfOk result (λ reply. IfSome reply (λ permit. permit.holder.now ≡ self.now)) }
        ensures count { IfOk result (λ reply. IfSome reply (λ permit. permit.count ≡ 1)) }
    {
        PermitFrom::acquire_one_until(self, Deadline::At(deadline))
    }

    /// Takes `count` permits as [`Self::acquire_many_sync_for`] does, and gives them back when what is returned goes.
    pub fn acquire_permits_for(
        &self,
        count: usize,
        duration: Duration,
    ) -> Result<InTime<PermitOf<'_, R, MAX>>, AcquireError>
        ensures semaphore { IfOk result (IfGranted (λ permits. permits.holder.now ≡ self.now)) }
        ensures count { IfOk result (IfGranted (λ permits. permits.count ≡ count)) }
    {
        PermitFrom::acquire_until(self, count, Deadline::after(self.rt(), duration))
    }

    /// Takes `count` permits as [`Self::acquire_permits_for`] does, and waits for them until this instant.
    pub fn acquire_permits_until(
        &self,
        count: usize,
        deadline: Instant,
    ) -> Result<InTime<PermitOf<'_, R, MAX>>, AcquireError>
        ensures semaphore { IfOk result (IfGranted (λ permits. permits.holder.now ≡ self.now)) }
        ensures count { IfOk result (IfGranted (λ permits. permits.count ≡ count)) }
    {
        PermitFrom::acquire_until(self, count, Deadline::At(deadline))
    }

    // One permit, by this time.
    pub(crate) fn acquire_by(&self, deadline: Deadline) -> Result<Option<()>, AcquireError> {
        match self.acquire_until(1, deadline)? {
            Some(value) => {
                read_grant(value)?;
                Ok(Some(()))
            }
            None => Ok(None),
        }
    }

    // So many permits, by this time.
    pub(crate) fn acquire_many_by(
        &self,
        count: usize,
        deadline: Deadline,
    ) -> Result<Option<bool>, AcquireError>
        ensures answer { IfOk result (λ reply. IfSome reply (λ is_granted. IsTrue is_granted ↔ (count ≤ MAX))) }
        ensures too_many { MAX < count → result ≡ Ok (Some false) }
    {
        if is_too_many::<MAX>(count) {
            return Ok(Some(false));
        }
        match self.acquire_until(count, deadline)? {
            Some(value) => {
                read_grant(value)?;
                Ok(Some(true))
            }
            None => Ok(None),
        }
    }
}
