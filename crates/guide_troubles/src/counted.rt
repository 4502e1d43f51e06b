//! A count behind a mutex.

use saa_sync::{Full, Mutex};
use std::sync::Wait;

/// Adds 1 to what is behind the mutex, but never wraps.
pub fn count<R: Wait + Drop>(seen: &Mutex<R, u64>) -> Result<(), Full> {
    let mut seen = seen.lock()?;
    *seen = seen.saturating_add(1);
    Ok(())
}
