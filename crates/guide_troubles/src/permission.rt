//! A try at a semaphore.

use saa_sync::Semaphore;
use std::sync::Wait;

/// Whether a permit was there.
pub fn is_left<R: Wait + Drop>(permits: &Semaphore<R>) -> bool {
    permits.try_acquire() && permits.release()
}
