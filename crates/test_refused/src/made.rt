//! Cores, benches, machines, and the forms that threads share: if memory is refused nothing is made.

use crate::outcome::{Outcome, anew_if, only_if, row};
use saa_core::barrier::BarrierCore;
use saa_core::gate::GateCore;
use saa_core::lock::LockCore;
use saa_core::semaphore::{SemaphoreCore, SemaphoreCoreOf};
use saa_core_bench::bench::Bench;
use saa_sync::barrier::Barrier;
use saa_sync::gate::Gate;
use saa_sync::lock::Lock;
use saa_sync::lock_api::{Mutex, RwLock};
use saa_sync::semaphore::{Semaphore, SemaphoreOf};
use saa_word::machine::Machine;
use saa_word_forms::mutex::Mutex as WordMutex;
use saa_word_forms::rw_lock::RwLock as WordRwLock;
use saa_word_threads::lock::Lock as WordLock;
use saa_word_threads::semaphore::Semaphore as WordSemaphore;
use std::alloc::{AllocError, Global};
use std::io;
use std::rt::Runtime;
use std::sync::{Arc, Wait};

/// Makes each, and prints a line for each.
///
/// The value behind a lock is dropped if nothing is made, and with what is made: one owner is left.
pub fn rows<R: Runtime + Wait>(rt: &R, alloc: Global) -> io::Result<()> {
    let (value, outcome) = match Arc::new(alloc, 5u32) {
        Ok(value) => (value, Outcome::AtOnce),
        Err(_) => (Arc::new(alloc, 5u32)?, Outcome::Anew),
    };
    row(rt, "a value with several owners", outcome)?;
    rows_with(rt, alloc, &value)
}

// The same with this value.
fn rows_with<R: Runtime + Wait>(rt: &R, alloc: Global, value: &Arc<u32>) -> io::Result<()> {
    for index in 0..19 {
        let (name, outcome) = made(rt, alloc, index, value);
        row(
            rt,
            name,
            outcome.and(only_if(Arc::strong_count(value) == 1)),
        )?;
    }
    Ok(())
}

// Makes the one of this number, anew if it was refused: its name, and the outcome.
fn made<R: Wait>(rt: &R, alloc: Global, index: u8, value: &Arc<u32>) -> (&'static str, Outcome) {
    match made_once(rt, alloc, index, value) {
        (name, true) => (name, Outcome::AtOnce),
        (name, false) => (name, anew_if(made_once(rt, alloc, index, value).1)),
    }
}

// The same once: its name, and whether it was made.
fn made_once<R: Wait>(rt: &R, alloc: Global, index: u8, value: &Arc<u32>) -> (&'static str, bool) {
    match Arc::try_clone(value) {
        Ok(owner) => made_with(rt, alloc, index, owner),
        Err(_) => ("an owner", false),
    }
}

// The same with this owner of the value.
fn made_with<R: Wait>(rt: &R, alloc: Global, index: u8, owner: Arc<u32>) -> (&'static str, bool) {
    match index {
        0 => ("semaphore core", is_had(SemaphoreCore::new(alloc, 4))),
        1 => (
            "wide semaphore core",
            is_had(SemaphoreCoreOf::<1000>::with_permits(alloc, 5, 4)),
        ),
        2 => ("lock core", is_had(LockCore::new(alloc, 4))),
        3 => ("gate core", is_had(GateCore::new(alloc, 4))),
        4 => ("barrier core", is_had(BarrierCore::with_count(alloc, 3, 4))),
        5 => ("bench", is_had(bench(alloc))),
        6 => (
            "machine of a semaphore",
            is_had(Machine::semaphore(alloc, 7, 3)),
        ),
        7 => ("machine of a lock", is_had(Machine::lock(alloc, 3))),
        8 => ("word semaphore", is_had(WordSemaphore::new(alloc, 7, 3))),
        9 => ("word lock", is_had(WordLock::new(alloc, 3))),
        10 => ("semaphore", is_had(Semaphore::new(rt, alloc, 4))),
        11 => (
            "wide semaphore",
            is_had(SemaphoreOf::<_, 1000>::with_permits(rt, alloc, 5, 4)),
        ),
        12 => ("lock", is_had(Lock::new(rt, alloc, 4))),
        13 => ("gate", is_had(Gate::new(rt, alloc, 4))),
        14 => ("barrier", is_had(Barrier::with_count(rt, alloc, 3, 4))),
        15 => ("mutex", is_had(Mutex::new(rt, alloc, owner, 4))),
        16 => (
            "reader-writer lock",
            is_had(RwLock::new(rt, alloc, owner, 4)),
        ),
        17 => ("word mutex", is_had(WordMutex::new(alloc, owner, 3))),
        _ => (
            "word reader-writer lock",
            is_had(WordRwLock::new(alloc, owner, 3)),
        ),
    }
}

// Whether something was made, which ends here.
fn is_had<T: Drop>(made: Result<T, AllocError>) -> bool {
    made.is_ok()
}

fn bench(alloc: Global) -> Result<Bench<SemaphoreCore>, AllocError> {
    Bench::new(alloc, SemaphoreCore::new(alloc, 4)?, 3)
}
