//! The word forms that threads share: a semaphore, a lock and, round a value, a mutex and a reader-writer lock, for a fixed set of workers.
//!
//! A program that takes no threaded form may name this crate alone: it has `saa::word` but the machine, under the same names. `Place` and `Left` are the
//! semaphore's, `LockPlace` and `LockLeft` the lock's; a `Visitor` is of either, and has no place; a `Receipt` says what one of them had seen. The
//! semaphore and the lock are `saa_word_threads`'.
//!
//! Here a value is behind that lock. A worker is a place beside the lock that dealt it (`place_at`). A turn (`turn`) is taken where that place was
//! granted the lock, and ends after the hold on the value: the guards are those of `saa_core_guards`. `mutex` and `rw_lock` are the public locks, over
//! `guarded`; `testing` is for tests alone.
#![tactic(auto)]

mod guarded;
pub mod mutex;
mod place_at;
pub mod rw_lock;
pub mod testing;
mod turn;

pub use mutex::{Mutex, MutexGuard, MutexWorker};
pub use rw_lock::{RwLock, RwLockReadGuard, RwLockWorker, RwLockWriteGuard};
pub use saa_core_guards::{Guard, Lowers, Turn, ValueMut, ValueRef, Writing};
pub use saa_word_threads::lock::{Left as LockLeft, Lock, Mode, Place as LockPlace, TryLockError};
pub use saa_word_threads::receipt::Receipt;
pub use saa_word_threads::semaphore::{Error, Left, Place, Semaphore, SemaphoreOf, Words};
pub use saa_word_threads::visitor::Visitor;
