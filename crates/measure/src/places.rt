//! The locks at which threads meet, each new, and with what each thread takes its turns.

ghost use Rattle.saa_word_threads.specs.Locks.{IsDealtBy};

use crate::meeting::Meeting;
use crate::takers::{At, AtPlace, Enter};
use saa_sync::lock::Lock;
use saa_sync::lock_api;
use saa_sync::spin_policy::SpinPolicy;
use saa_word_forms::mutex::Mutex as WordMutex;
use saa_word_lock_free::lock::Lock as LockFreeLock;
use saa_word_lock_free::lock_api::Mutex as LockFreeMutex;
use saa_word_threads::lock::Lock as WordLock;
use std::alloc::Global;
use std::sync::{Mutex, RwLock, Wait};
use std::thread::{self, Threads};
use std::time::Clock;

// The room of the locks that have one: no less than there are threads.
const ROOM: u16 = 32;

/// The lock at which threads meet.
#[derive(Clone, Copy)]
pub enum Kind {
    /// A lock, with this spin policy.
    Lock(SpinPolicy),
    /// A mutex round a number, with this spin policy.
    Mutex(SpinPolicy),
    /// The word's lock, whose calls spin so.
    WordLock(SpinPolicy),
    /// The mutex round a number on the word's lock.
    WordMutex,
    /// The lock-free lock, with this spin policy.
    LockFreeLock(SpinPolicy),
    /// The lock-free mutex round a number, with this spin policy.
    LockFreeMutex(SpinPolicy),
    /// std's mutex round a number.
    StdMutex,
    /// std's reader-writer lock round a number, which all read.
    StdRwLock,
}

/// The threads of a meeting meet at a new lock. Where memory was refused nobody comes.
pub fn meet_at<R: Threads + Wait + Clock + Sync>(
    rt: &R,
    alloc: Global,
    kind: Kind,
    meeting: &Meeting,
) {
    match kind {
        Kind::Lock(spins) => meet_at_lock(rt, alloc, meeting, spins),
        Kind::Mutex(spins) => meet_at_mutex(rt, alloc, meeting, spins),
        Kind::WordLock(spins) => meet_at_word_lock(rt, alloc, meeting, spins),
        Kind::WordMutex => meet_at_word_mutex(rt, alloc, meeting),
        Kind::LockFreeLock(spins) => meet_at_lock_free_lock(rt, alloc, meeting, spins),
        Kind::LockFreeMutex(spins) => meet_at_lock_free_mutex(rt, alloc, meeting, spins),
        Kind::StdMutex => meet(rt, alloc, meeting, &Mutex::new(0u64)),
        Kind::StdRwLock => meet(rt, alloc, meeting, &RwLock::new(0u64)),
    }
}

fn meet_at_lock<R: Threads + Wait + Clock + Sync>(
    rt: &R,
    alloc: Global,
    meeting: &Meeting,
    spins: SpinPolicy,
) {
    if let Ok(lock) = Lock::with_spin_policy(rt, alloc, ROOM, spins) {
        meet(rt, alloc, meeting, &lock);
    }
}

fn meet_at_mutex<R: Threads + Wait + Clock + Sync>(
    rt: &R,
    alloc: Global,
    meeting: &Meeting,
    spins: SpinPolicy,
) {
    if let Ok(mutex) = lock_api::Mutex::with_spin_policy(rt, alloc, 0u64, ROOM, spins) {
        meet(rt, alloc, meeting, &mutex);
    }
}

fn meet_at_lock_free_lock<R: Threads + Wait + Clock + Sync>(
    rt: &R,
    alloc: Global,
    meeting: &Meeting,
    spins: SpinPolicy,
) {
    if let Ok(lock) = LockFreeLock::with_spin_policy(rt, alloc, ROOM, spins) {
        meet(rt, alloc, meeting, &lock);
    }
}

fn meet_at_lock_free_mutex<R: Threads + Wait + Clock + Sync>(
    rt: &R,
    alloc: Global,
    meeting: &Meeting,
    spins: SpinPolicy,
) {
    if let Ok(mutex) = LockFreeMutex::with_spin_policy(rt, alloc, 0u64, ROOM, spins) {
        meet(rt, alloc, meeting, &mutex);
    }
}

// The threads meet at a lock that they take with no place of their own.
fn meet<R: Threads + Wait + Clock + Sync, L: Enter>(
    rt: &R,
    alloc: Global,
    meeting: &Meeting,
    lock: &L,
) {
    let _met = thread::map_indices(
        rt,
        alloc,
        usize::from(meeting.threads()),
        &|_number| {
            meeting.attend(rt, At { lock });
        },
    );
}

fn meet_at_word_lock<R: Threads + Wait + Clock + Sync>(
    rt: &R,
    alloc: Global,
    meeting: &Meeting,
    spins: SpinPolicy,
) {
    let Ok((lock, places)) = WordLock::new(alloc, meeting.threads()) else {
        return;
    };
    let _met = thread::map_vec(
        rt,
        places,
        &|place|
            requires { IsDealtBy lock place }
        {
            let taker = AtPlace {
                lock: &lock,
                place,
                spins,
            };
            meeting.attend(rt, taker);
        },
    );
}

fn meet_at_word_mutex<R: Threads + Wait + Clock + Sync>(rt: &R, alloc: Global, meeting: &Meeting) {
    let Ok((mutex, places)) = WordMutex::new(alloc, 0u64, meeting.threads()) else {
        return;
    };
    let _met = thread::map_vec(
        rt,
        places,
        &|place|
            requires { IsDealtBy mutex place }
        { meeting.attend(rt, mutex.worker(place)) },
    );
}
