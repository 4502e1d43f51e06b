//! Workers that take a buffer again and again, each at a place of its own.

ghost use Rattle.std.specs.Prelude.{◌<◌};
ghost use Rattle.saa_word_forms.specs.WordSemaphores.{IsDealtBy};

use crate::buffers::{Desk, Pool};
use std::alloc::{AllocError, Global};
use std::sync::Wait;
use std::sync::atomic::{AtomicU64, Ordering};
use std::thread::{self, Threads, yield_now};

// How often each worker takes a buffer.
const TURNS: u16 = 50;

/// What was seen of a pool.
#[derive(Clone, Copy)]
pub struct Seen {
    /// How many turns the workers had.
    pub turns: u64,
    /// In how many of them a buffer was changed by another worker.
    pub changed: u64,
    /// How many buffers are free at the end.
    pub free: u16,
}

/// Lets so many workers share `MAX` buffers. The error comes only where memory was refused.
pub fn share<R: Threads + Wait + Sync, const MAX: usize>(
    rt: &R,
    alloc: Global,
    workers: u16,
) -> Result<Seen, AllocError>
    requires bound { 0 < MAX }
    requires narrow { MAX < 65536 }
    requires workers { workers < 65535 }
{
    // One place more, for the look at the end.
    let (pool, mut places) = Pool::<MAX>::new(alloc, workers + 1)?;
    let Some(own) = places.pop() else {
        unreachable!()
    };
    let turns = AtomicU64::new(0);
    let of_each = thread::map_vec(
        rt,
        places,
        &|place|
            requires { IsDealtBy pool.permits place }
        { work(rt, Desk::new(&pool, place), &turns) },
    )?;
    let mut changed = 0u64;
    for of_one in of_each {
        changed = changed.saturating_add(of_one);
    }
    Ok(Seen {
        turns: turns.load(Ordering::SeqCst),
        changed,
        free: Desk::new(&pool, own).free(),
    })
}

// Takes a buffer again and again, and writes the number of its turn into it; counts the turns in which another worker wrote there too.
fn work<R: Wait, const MAX: usize>(rt: &R, mut desk: Desk<'_, MAX>, turns: &AtomicU64) -> u64 {
    let mut changed = 0u64;
    for _turn in 0..TURNS {
        if let Some(buffer) = desk.check_out(rt) {
            let number = turns.fetch_add(1, Ordering::SeqCst);
            buffer.fill(number);
            yield_now();
            changed = changed.saturating_add(u64::from(!buffer.is_full_of(number)));
            desk.give_back(rt, buffer);
        }
    }
    changed
}
