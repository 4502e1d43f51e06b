//! A thread that shares a mutex and isn't bound to the function that started it.

use saa_sync::Mutex;
use std::alloc::{AllocError, Global};
use std::sync::{Arc, Wait};
use std::thread::{self, Threads};

/// Whether a new thread finds a new mutex free.
pub fn is_free<R: Threads + Wait + Copy + Send + Sync + Drop + 'static>(
    rt: R,
    alloc: Global,
) -> Result<bool, AllocError> {
    let turns = Arc::new(alloc, Mutex::new(rt, alloc, 0u64, 1)?)?;
    let theirs = Arc::try_clone(&turns)?;
    let child = thread::spawn(&rt, move || theirs.try_lock().is_some())?;
    Ok(child.join(&rt))
}
