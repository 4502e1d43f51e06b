//! A turn at a semaphore.

use saa_sync::{AcquireError, Semaphore};
use std::sync::Wait;

/// Takes a permit, and gives it back.
pub fn turn<R: Wait + Drop>(permits: &Semaphore<R>) -> Result<(), AcquireError> {
    permits.acquire_sync()?;
    permits.release();
    Ok(())
}
