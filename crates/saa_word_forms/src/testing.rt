//! For tests alone: the lock whose turns a value is used in, at which `saa_word_threads::testing` sees which places are parked.
//!
//! A program has no use for this: the lock's calls need a place, and each place is a worker's.

ghost use Rattle.std.specs.Prelude.{◌≡◌};

use crate::mutex::Mutex;
use crate::rw_lock::RwLock;
use saa_word_threads::lock::Lock;

/// The lock of a mutex.
pub fn lock_of_mutex<T>(mutex: &Mutex<T>) -> &Lock
    ensures { result.now ≡ mutex.now }
{
    &mutex.guarded.lock
}

/// The lock of a reader-writer lock.
pub fn lock_of_rw_lock<T>(rwlock: &RwLock<T>) -> &Lock
    ensures { result.now ≡ rwlock.now }
{
    &rwlock.guarded.lock
}
