//! Workers that write a row each, and read the whole table.

ghost use Rattle.saa_word_forms.specs.WordLocks.{IsDealtBy};

use crate::table::Table;
use saa_word_forms::{RwLock, RwLockWorker, RwLockWriteGuard};
use std::alloc::{AllocError, Global};
use std::sync::Wait;
use std::sync::atomic::{AtomicU64, Ordering};
use std::thread::{self, Threads};

// How many readings each worker takes.
const READINGS: u64 = 50;

/// What was seen of a table.
#[derive(Clone, Copy, PartialEq)]
pub struct Seen {
    /// How many readings are in the table at the end.
    pub written: u64,
    /// How often the table had fewer readings than somebody had read before.
    pub lost: u64,
    /// The widest span of a row at the end.
    pub widest: u64,
}

/// Lets so many workers share a table. The error comes only where memory was refused.
pub fn share<R: Threads + Wait + Sync>(
    rt: &R,
    alloc: Global,
    workers: u16,
) -> Result<Seen, AllocError> {
    let (table, places) = RwLock::new(alloc, Table::new(alloc, workers)?, workers)?;
    let rows = AtomicU64::new(0);
    let of_each = thread::map_vec(
        rt,
        places,
        &|place|
            requires { IsDealtBy table place }
        { work(rt, table.worker(place), rows.fetch_add(1, Ordering::SeqCst)) },
    )?;
    let mut lost = 0u64;
    for of_one in of_each {
        lost = lost.saturating_add(of_one);
    }
    let table = table.into_inner();
    Ok(Seen {
        written: table.readings(),
        lost,
        widest: table.widest(),
    })
}

// Takes readings into a row, and goes on to read the table while others may read too; how often it had fewer readings than before.
fn work<R: Wait>(rt: &R, mut worker: RwLockWorker<'_, Table>, row: u64) -> u64 {
    let mut lost = 0u64;
    for reading in 0..READINGS {
        let before = worker.read(rt).readings();
        let mut guard = worker.write(rt);
        guard.record(row as usize, reading);
        let guard = RwLockWriteGuard::downgrade(guard);
        lost = lost.saturating_add(u64::from(guard.readings() <= before));
    }
    lost
}
