//! Permits of one semaphore, which are merged.

use saa_sync::{AcquireError, Semaphore};
use std::sync::Wait;

/// Takes two permits of the desks and one of the seats; how many those of the desks are together.
pub fn taken<'s, R: Wait + Drop>(
    desks: &'s Semaphore<R>,
    seats: &'s Semaphore<R>,
) -> Result<usize, AcquireError> {
    let mut both = desks.acquire_permit()?;
    let _seat = seats.acquire_permit()?;
    let other = desks.acquire_permit()?;
    let _merged = both.merge(other);
    Ok(both.count())
}
