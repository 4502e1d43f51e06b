//! Tries with their releases: of a permit, of a mutex, whose number gets 1 added, and of a reader-writer lock, whose number is read or gets 1 added.

use crate::asks::{PermitsOf, Reads, Writes};
use crate::turns::Turn;
use saa_core_guards::mutex::Mutex;
use saa_core_guards::permit::PermitFrom;
use saa_core_guards::raw_lock::RawLock;
use saa_core_guards::raw_semaphore::RawSemaphore;
use saa_core_guards::rw_lock::RwLock;
use std::sync::{Mutex as StdMutex, RwLock as StdRwLock, Wait};
use tokio::sync::{Mutex as TokioMutex, RwLock as TokioRwLock, Semaphore as TokioSemaphore};

/// What can be tried: a reference to a primitive.
pub trait Tries: Drop {
    /// Takes it if it is there, and gives it back.
    fn try_turn(&self);
}

/// Tries, as turns.
#[derive(Drop)]
pub struct Try<P>(pub P);

impl<P: Tries> Turn for Try<P> {
    #[inline(always)]
    fn take_turn<R: Wait>(&self, _rt: &R) {
        self.0.try_turn();
    }
}

impl<S: RawSemaphore> Tries for PermitsOf<'_, S> {
    #[inline(always)]
    fn try_turn(&self) {
        let _permit = PermitFrom::try_acquire(self.0, 1);
    }
}

impl Tries for &TokioSemaphore {
    #[inline(always)]
    fn try_turn(&self) {
        let _permit = self.try_acquire();
    }
}

// Of each of our locks.
impl<L: RawLock + Drop> Tries for &Mutex<L, u64> {
    #[inline(always)]
    fn try_turn(&self) {
        if let Some(mut number) = self.try_lock() {
            *number = number.wrapping_add(1);
        }
    }
}

impl Tries for &TokioMutex<u64> {
    #[inline(always)]
    fn try_turn(&self) {
        if let Ok(mut number) = self.try_lock() {
            *number = number.wrapping_add(1);
        }
    }
}

impl Tries for &StdMutex<u64> {
    #[inline(always)]
    fn try_turn(&self) {
        if let Some(mut number) = self.try_lock() {
            *number = number.wrapping_add(1);
        }
    }
}

impl<L: RawLock + Drop> Tries for Reads<'_, RwLock<L, u64>> {
    #[inline(always)]
    fn try_turn(&self) {
        if let Some(number) = self.0.try_read() {
            let _seen = *number;
        }
    }
}

impl Tries for Reads<'_, TokioRwLock<u64>> {
    #[inline(always)]
    fn try_turn(&self) {
        if let Ok(number) = self.0.try_read() {
            let _seen = *number;
        }
    }
}

impl Tries for Reads<'_, StdRwLock<u64>> {
    #[inline(always)]
    fn try_turn(&self) {
        if let Some(number) = self.0.try_read() {
            let _seen = *number;
        }
    }
}

impl<L: RawLock + Drop> Tries for Writes<'_, RwLock<L, u64>> {
    #[inline(always)]
    fn try_turn(&self) {
        if let Some(mut number) = self.0.try_write() {
            *number = number.wrapping_add(1);
        }
    }
}

impl Tries for Writes<'_, TokioRwLock<u64>> {
    #[inline(always)]
    fn try_turn(&self) {
        if let Ok(mut number) = self.0.try_write() {
            *number = number.wrapping_add(1);
        }
    }
}

impl Tries for Writes<'_, StdRwLock<u64>> {
    #[inline(always)]
    fn try_turn(&self) {
        if let Some(mut number) = self.0.try_write() {
            *number = number.wrapping_add(1);
        }
    }
}
