//! A wait that ends in time.

use saa_sync::{Full, Mutex};
use std::sync::Wait;
use std::time::{Clock, Duration};

/// What is behind the mutex, or none where a second was too short.
pub fn look<R: Wait + Clock + Drop>(desk: &Mutex<R, u64>) -> Result<Option<u64>, Full> {
    let guard = desk.lock_for(Duration::from_secs(1))?;
    Ok(guard.map(|seen| *seen))
}
