//! Calls that end in time: they wait in the queue at most so long, or until an instant, and join it without a look before.

ghost use Rattle.std.specs.Prelude.{◌≡◌, ◌≤◌, ◌<◌, ◌↔◌, ℕ, false, IfErr, IfOk, IfSome, IsTrue, OnSome, Ok, Result, Some};
ghost use Rattle.saa_core_guards.specs.Permits.{IfGranted};
ghost use Rattle.saa_core_spec.specs.declared.lock.Mode.TheVariants.{Exclusive, Shared};
ghost use Rattle.saa_core_spec.specs.declared.polling.Error.{Error};
ghost use Rattle.saa_word_lock_free.specs.Forms.{IsRefusedBy, WasFull};
ghost use Rattle.saa_word_lock_free.specs.LockCalls.{IsAcquired as IsAcquiredIn, IsAnswered as IsAnsweredIn, in_time};
ghost use Rattle.saa_word_lock_free.specs.SemaphoreCalls.{IsAcquired, IsAnswered, WasGranted, WasRefused, is_closed_answer, many_in_time, one_in_time};

use crate::form::{Form, NoPlace};
use crate::permit::{InTime, PermitFrom, PermitOf};
use crate::waiting::{CLOSED, GRANTED};
use saa_core_spec::request::Full;
use saa_core_waits::{AcquireError, Deadline};
use saa_word_threads::lock::{Error, Lock as LockWord, Mode, Place as LockPlace};
use saa_word_threads::receipt::Receipt;
use saa_word_threads::semaphore::{Place as SemaphorePlace, SemaphoreOf as SemaphoreWord};
use std::sync::Wait;
use std::time::{Clock, Duration, Instant};

impl<R: Wait + Clock + Drop, const MAX: usize> Form<R, SemaphoreWord<MAX>> {
    /// Takes one permit, and waits for it in the queue at most so long.
    ///
    /// `Ok(Some(()))`: it is granted. `Ok(None)`: time is up, and nothing is registered or taken; those behind are granted while they fit. `Full` comes at
    /// once, where it would have to wait and no place is in. `Closed`: the semaphore is shut, or was while this waited; nothing is registered or taken.
    pub fn acquire_sync_for(&self, duration: Duration) -> Result<Option<()>, AcquireError>
        ensures called { IfOk result (λ reply. (answer : Result ℕ Error) × (reply ≡ one_in_time answer) × (is_closed_answer answer ≡ false) × IsAnswered self.now.word 1 answer) }
        ensures refused { IfErr result (WasRefused self.now 1) }
    {
        self.one_by(Deadline::after(self.rt(), duration))
    }

    /// Takes one permit as [`Self::acquire_sync_for`] does, and waits for it until this instant.
    pub fn acquire_sync_until(&self, deadline: Instant) -> Result<Option<()>, AcquireError>
        ensures called { IfOk result (λ reply. (answer : Result ℕ Error) × (reply ≡ one_in_time answer) × (is_closed_answer answer ≡ false) × IsAnswered self.now.word 1 answer) }
        ensures refused { IfErr result (WasRefused self.now 1) }
    {
        self.one_by(Deadline::At(deadline))
    }

    /// Takes `count` permits, all together, and waits for them in the queue at most so long.
    ///
    /// `Ok(Some(true))`: they are granted. `Ok(Some(false))` comes at once, exactly where the count is above
    /// [`Self::MAX_PERMITS`]. `Ok(None)`: time is up, and nothing is registered or taken; those behind are granted while they fit.
    /// `Full` comes at once, where it would have to wait and no place is in. `Closed`: the semaphore is shut, or was while this waited; nothing is
    /// registered or taken.
    pub fn acquire_many_sync_for(
        &self,
        count: usize,
        duration: Duration,
    ) -> Result<Option<bool>, AcquireError>
        ensures refused { IfErr result (WasRefused self.now count) }
        ensures called { count ≤ MAX → IfOk result (λ reply. (answer : Result ℕ Error) × (reply ≡ many_in_time answer) × (is_closed_answer answer ≡ false) × IsAnswered self.now.word count answer) }
        ensures answer { IfOk result (λ reply. IfSome reply (λ is_granted. IsTrue is_granted ↔ (count ≤ MAX))) }
        ensures too_many { MAX < count → result ≡ Ok (Some false) }
    {
        self.many_by(count, Deadline::after(self.rt(), duration))
    }

    /// Takes `count` permits as [`Self::acquire_many_sync_for`] does, and waits for them until this instant.
    pub fn acquire_many_sync_until(
        &self,
        count: usize,
        deadline: Instant,
    ) -> Result<Option<bool>, AcquireError>
        ensures refused { IfErr result (WasRefused self.now count) }
        ensures called { count ≤ MAX → IfOk result (λ reply. (answer : Result ℕ Error) × (reply ≡ many_in_time answer) × (is_closed_answer answer ≡ false) × IsAnswered self.now.word count answer) }
        ensures answer { IfOk result (λ reply. IfSome reply (λ is_granted. IsTrue is_granted ↔ (count ≤ MAX))) }
        ensures too_many { MAX < count → result ≡ Ok (Some false) }
    {
        self.many_by(count, Deadline::At(deadline))
    }

    /// Takes one permit as [`Self::acquire_sync_for`] does, and gives it back when what is returned goes.
    pub fn acquire_permit_for(
        &self,
        duration: Duration,
    ) -> Result<Option<PermitOf<'_, R, MAX>>, AcquireError>
        ensures semaphore { IfOk result (λ reply. IfSome reply (λ permit. permit.holder.now ≡ self.now)) }
        ensures count { IfOk result (λ reply. IfSome reply (λ permit. permit.count ≡ 1)) }
        ensures granted { IfOk result (λ reply. OnSome reply (WasGranted self.now.word 1)) }
    {
        PermitFrom::acquire_one_until(self, Deadline::after(self.rt(), duration))
    }

    /// Takes one permit as [`Self::acquire_permit_for`] does, and waits for it until this instant.
    pub fn acquire_permit_until(
        &self,
        deadline: Instant,
    ) -> Result<Option<PermitOf<'_, R, MAX>>, AcquireError>
        ensures semaphore { IfOk result (λ reply. IfSome reply (λ permit. permit.holder.now ≡ self.now)) }
        ensures count { IfOk result (λ reply. IfSome reply (λ permit. permit.count ≡ 1)) }
        ensures granted { IfOk result (λ reply. OnSome reply (WasGranted self.now.word 1)) }
    {
        PermitFrom::acquire_one_until(self, Deadline::At(deadline))
    }

    /// Takes `count` permits as [`Self::acquire_many_sync_for`] does, and gives them back when what is returned goes.
    pub fn acquire_permits_for(
        &self,
        count: usize,
        duration: Duration,
    ) -> Result<InTime<PermitOf<'_, R, MAX>>, AcquireError>
        ensures semaphore { IfOk result (IfGranted (λ permits. permits.holder.now ≡ self.now)) }
        ensures count { IfOk result (IfGranted (λ permits. permits.count ≡ count)) }
        ensures granted { IfOk result (IfGranted (λ permits. WasGranted self.now.word count)) }
    {
        PermitFrom::acquire_until(self, count, Deadline::after(self.rt(), duration))
    }

    /// Takes `count` permits as [`Self::acquire_permits_for`] does, and waits for them until this instant.
    pub fn acquire_permits_until(
        &self,
        count: usize,
        deadline: Instant,
    ) -> Result<InTime<PermitOf<'_, R, MAX>>, AcquireError>
        ensures semaphore { IfOk result (IfGranted (λ permits. permits.holder.now ≡ self.now)) }
        ensures count { IfOk result (IfGranted (λ permits. permits.count ≡ count)) }
        ensures granted { IfOk result (IfGranted (λ permits. WasGranted self.now.word count)) }
    {
        PermitFrom::acquire_until(self, count, Deadline::At(deadline))
    }

    /// As [`Self::acquire_many_sync_until`], with a receipt of what the call's visitor or its place has seen. `NotReady`: time is up. The number is 0
    /// for a grant, and 2 where the semaphore is or was shut.
    pub fn acquire_many_witnessed_until(
        &self,
        count: usize,
        deadline: Deadline,
    ) -> Result<(Result<u8, Error>, Receipt), NoPlace<SemaphorePlace, SemaphoreWord<MAX>>>
        requires { count ≤ MAX }
        ensures acquired { IfOk result (λ reply. IsAcquired self.now.word count reply.0 reply.1) }
        ensures refused { IfErr result (λ no_place. IsRefusedBy self.now no_place) }
    {
        self.acquire_until(count, deadline)
    }

    // One permit, by this time.
    fn one_by(&self, deadline: Deadline) -> Result<Option<()>, AcquireError>
        ensures called { IfOk result (λ reply. (answer : Result ℕ Error) × (reply ≡ one_in_time answer) × (is_closed_answer answer ≡ false) × IsAnswered self.now.word 1 answer) }
        ensures refused { IfErr result (WasRefused self.now 1) }
    {
        // A semaphore has one permit at least, which its type says.
        let _bounded = self.word();
        match self.acquire_by(1, deadline) {
            Ok(answer) => {
                if is_closed(answer) {
                    return Err(AcquireError::Closed);
                }
                Ok(one_in_time(answer))
            }
            Err(Full) => Err(self.why_full()),
        }
    }

    // So many permits, by this time.
    fn many_by(&self, count: usize, deadline: Deadline) -> Result<Option<bool>, AcquireError>
        ensures refused { IfErr result (WasRefused self.now count) }
        ensures called { count ≤ MAX → IfOk result (λ reply. (answer : Result ℕ Error) × (reply ≡ many_in_time answer) × (is_closed_answer answer ≡ false) × IsAnswered self.now.word count answer) }
        ensures answer { IfOk result (λ reply. IfSome reply (λ is_granted. IsTrue is_granted ↔ (count ≤ MAX))) }
        ensures too_many { MAX < count → result ≡ Ok (Some false) }
    {
        if count > MAX {
            return Ok(Some(false));
        }
        match self.acquire_by(count, deadline) {
            Ok(answer) => {
                if is_closed(answer) {
                    return Err(AcquireError::Closed);
                }
                Ok(many_in_time(answer))
            }
            Err(Full) => Err(self.why_full()),
        }
    }
}

impl<R: Wait + Clock + Drop> Form<R, LockWord> {
    /// Takes the lock for one owner alone, and waits for it in the queue at most so long.
    ///
    /// `Ok(Some(true))`: it is granted. `Ok(Some(false))`: the lock is or was poisoned. `Ok(None)`: time is up, and nothing is registered or taken; those
    /// behind are granted while they fit. `Full` comes at once, where it would have to wait and no place is in.
    pub fn lock_sync_for(&self, duration: Duration) -> Result<Option<bool>, Full>
        ensures called { IfOk result (λ reply. (answer : Result ℕ Error) × (reply ≡ in_time answer) × IsAnsweredIn self.now.word Exclusive answer) }
        ensures full { IfErr result (λ full. WasFull LockPlace self.now) }
    {
        self.take_by(Mode::Exclusive, Deadline::after(self.rt(), duration))
    }

    /// Takes the lock as [`Self::lock_sync_for`] does, and waits for it until this instant.
    pub fn lock_sync_until(&self, deadline: Instant) -> Result<Option<bool>, Full>
        ensures called { IfOk result (λ reply. (answer : Result ℕ Error) × (reply ≡ in_time answer) × IsAnsweredIn self.now.word Exclusive answer) }
        ensures full { IfErr result (λ full. WasFull LockPlace self.now) }
    {
        self.take_by(Mode::Exclusive, Deadline::At(deadline))
    }

    /// Takes a share of the lock, and waits and answers as [`Self::lock_sync_for`] does.
    pub fn share_sync_for(&self, duration: Duration) -> Result<Option<bool>, Full>
        ensures called { IfOk result (λ reply. (answer : Result ℕ Error) × (reply ≡ in_time answer) × IsAnsweredIn self.now.word Shared answer) }
        ensures full { IfErr result (λ full. WasFull LockPlace self.now) }
    {
        self.take_by(Mode::Shared, Deadline::after(self.rt(), duration))
    }

    /// Takes a share as [`Self::share_sync_for`] does, and waits for it until this instant.
    pub fn share_sync_until(&self, deadline: Instant) -> Result<Option<bool>, Full>
        ensures called { IfOk result (λ reply. (answer : Result ℕ Error) × (reply ≡ in_time answer) × IsAnsweredIn self.now.word Shared answer) }
        ensures full { IfErr result (λ full. WasFull LockPlace self.now) }
    {
        self.take_by(Mode::Shared, Deadline::At(deadline))
    }

    /// As [`Self::lock_sync_until`] or, in mode `Shared`, [`Self::share_sync_until`], with a receipt of what the call's visitor or its place has seen.
    /// `NotReady`: time is up.
    pub fn take_witnessed_until(
        &self,
        mode: Mode,
        deadline: Deadline,
    ) -> Result<(Result<u8, Error>, Receipt), NoPlace<LockPlace, LockWord>>
        ensures acquired { IfOk result (λ reply. IsAcquiredIn self.now.word mode reply.0 reply.1) }
        ensures refused { IfErr result (λ no_place. IsRefusedBy self.now no_place) }
    {
        self.acquire_until(mode, deadline)
    }

    // Takes the lock in a mode, by this time.
    fn take_by(&self, mode: Mode, deadline: Deadline) -> Result<Option<bool>, Full>
        ensures called { IfOk result (λ reply. (answer : Result ℕ Error) × (reply ≡ in_time answer) × IsAnsweredIn self.now.word mode answer) }
        ensures full { IfErr result (λ full. WasFull LockPlace self.now) }
    {
        match self.acquire_by(mode, deadline) {
            Ok(answer) => Ok(in_time(answer)),
            Err(full) => Err(full),
        }
    }
}

// Whether a timed call was answered that the semaphore was shut.
fn is_closed(answer: Result<u8, Error>) -> bool
    ensures { result ≡ is_closed_answer answer }
{
    match answer {
        Ok(value) => value == CLOSED,
        Err(_late) => false,
    }
}

// What a timed call for one permit tells.
fn one_in_time(answer: Result<u8, Error>) -> Option<()>
    ensures { result ≡ one_in_time answer }
{
    match answer {
        Ok(_value) => Some(()),
        Err(_late) => None,
    }
}

// What a timed call for many permits tells.
fn many_in_time(answer: Result<u8, Error>) -> Option<bool>
    ensures { result ≡ many_in_time answer }
{
    match answer {
        Ok(_value) => Some(true),
        Err(_late) => None,
    }
}

// What a timed call of a lock tells.
fn in_time(answer: Result<u8, Error>) -> Option<bool>
    ensures { result ≡ in_time answer }
{
    match answer {
        Ok(value) => Some(value == GRANTED),
        Err(_late) => None,
    }
}
