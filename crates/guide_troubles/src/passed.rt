//! A function that is passed a mutex.

use saa_sync::{Full, Mutex};
use std::sync::Wait;

/// What is behind the mutex.
pub fn seen<R: Wait + Drop>(turns: &Mutex<R, u64>) -> Result<u64, Full> {
    Ok(*turns.lock()?)
}
