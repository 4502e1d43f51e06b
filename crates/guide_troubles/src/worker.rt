//! A worker that goes on until a hundred turns are taken.

use saa_sync::{Full, Mutex};
use std::sync::Wait;

/// Takes turns until a hundred are taken, by this worker and others.
pub fn work<R: Wait + Drop>(rt: &impl Wait, turns: &Mutex<R, u64>) -> Result<(), Full> {
    for _turn in rt.forever() {
        let mut taken = turns.lock()?;
        if *taken >= 100 {
            return Ok(());
        }
        *taken = taken.saturating_add(1);
    }
    unreachable!()
}
