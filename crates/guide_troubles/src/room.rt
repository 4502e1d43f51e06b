//! Room for as many waiters as there are names.

use saa_sync::Semaphore;
use std::alloc::{AllocError, Global};
use std::sync::Wait;

/// A semaphore at which each of these can wait.
pub fn desk_for<R: Wait + Drop>(
    rt: R,
    alloc: Global,
    names: &[u64],
) -> Result<Semaphore<R>, AllocError> {
    let room = u16::try_from(names.len()).unwrap_or(u16::MAX);
    Semaphore::new(rt, alloc, room)
}
