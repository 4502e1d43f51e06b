//! Locks at which threads meet, and what a thread takes its turns with: ours, the word's at a place of the thread's own, and std's.

ghost use Rattle.saa_word_threads.specs.Locks.{IsDealtBy};

use crate::meeting::How;
use saa_sync::lock::{Lock, Mode};
use saa_sync::lock_api;
use saa_sync::pager::Pager;
use saa_sync::spin_policy::{NONE, SpinPolicy};
use saa_word_forms::mutex::MutexWorker;
use saa_word_threads::lock::{Lock as WordLock, Mode as WordMode, Place};
use std::sync::atomic::{AtomicU64, Ordering};
use std::sync::{Mutex, RwLock, Wait};

/// What is done in a turn: so many adds to a number that no other thread has.
#[derive(Drop)]
pub struct Work {
    number: AtomicU64,
    adds: u64,
}

impl Work {
    /// So many adds.
    pub fn new(adds: u64) -> Self {
        Work {
            number: AtomicU64::new(0),
            adds,
        }
    }

    /// Does it once.
    pub fn work(&self) {
        for _ in 0..self.adds {
            self.number.fetch_add(1, Ordering::SeqCst);
        }
    }
}

/// What a thread takes turns at a lock with.
pub trait Taker: Drop {
    /// Takes the lock so, waiting where it must, does the work, and gives the lock back. A lock that can't be asked so is asked as it can be.
    fn take_turn<R: Wait>(&mut self, rt: &R, how: How, work: &Work);
}

/// A lock that any thread takes by itself, with no place.
pub trait Enter: Sync {
    /// Takes the lock so, waiting where it must, does the work, and gives the lock back.
    fn enter<R: Wait>(&self, rt: &R, how: How, work: &Work);
}

impl<S: Wait + Drop + Sync> Enter for Lock<S> {
    #[inline(always)]
    fn enter<R: Wait>(&self, _rt: &R, how: How, work: &Work) {
        match how {
            How::Called => lock_called(self, work),
            How::Joined => lock_joined(self, work),
            How::Shared => lock_shared(self, work),
        }
    }
}

#[inline(always)]
fn lock_called<S: Wait + Drop>(lock: &Lock<S>, work: &Work) {
    if lock.lock_sync() == Ok(true) {
        work.work();
        lock.release_lock();
    }
}

#[inline(always)]
fn lock_joined<S: Wait + Drop>(lock: &Lock<S>, work: &Work) {
    let mut pager = Pager::new();
    if lock.register_pager(&mut pager, Mode::Exclusive, true) == Ok(true)
        && pager.poll_sync() == Ok(true)
    {
        work.work();
        lock.release_lock();
    }
}

#[inline(always)]
fn lock_shared<S: Wait + Drop>(lock: &Lock<S>, work: &Work) {
    if lock.share_sync() == Ok(true) {
        work.work();
        lock.release_share();
    }
}

impl<S: Wait + Drop + Sync> Enter for lock_api::Mutex<S, u64> {
    fn enter<R: Wait>(&self, _rt: &R, _how: How, work: &Work) {
        if let Ok(_guard) = self.lock() {
            work.work();
        }
    }
}

impl Enter for Mutex<u64> {
    fn enter<R: Wait>(&self, rt: &R, _how: How, work: &Work) {
        let _guard = self.lock(rt);
        work.work();
    }
}

// Every turn is shared.
impl Enter for RwLock<u64> {
    fn enter<R: Wait>(&self, rt: &R, _how: How, work: &Work) {
        let _guard = self.read(rt);
        work.work();
    }
}

/// A thread at such a lock.
#[derive(Drop)]
pub struct At<'l, L> {
    /// The lock.
    pub lock: &'l L,
}

impl<L: Enter> Taker for At<'_, L> {
    #[inline(always)]
    fn take_turn<R: Wait>(&mut self, rt: &R, how: How, work: &Work) {
        self.lock.enter(rt, how, work);
    }
}

/// A place of the word's lock, and the lock that dealt it.
#[derive(Drop)]
pub struct AtPlace<'l> {
    /// The lock.
    pub lock: &'l WordLock,
    /// The place.
    pub place: Place,
    /// How long its calls spin before they join the waiters.
    pub spins: SpinPolicy,
    ghost dealt: { IsDealtBy lock.now place },
}

impl AtPlace<'_> {
    // Takes the lock alone, and joins the waiters once so many spins are over.
    #[inline(always)]
    fn take_spinning<R: Wait>(&mut self, rt: &R, spins: SpinPolicy, work: &Work) {
        let (lock, place) = (self.lock, &mut self.place);
        if lock.register_spinning(rt, place, WordMode::Exclusive, spins)
            && self.lock.poll(rt, &mut self.place) == Ok(true)
        {
            work.work();
            self.lock.release_lock(rt, &mut self.place);
        }
    }

    // Shares the lock.
    #[inline(always)]
    fn take_shared<R: Wait>(&mut self, rt: &R, work: &Work) {
        if self.lock.share(rt, &mut self.place) {
            work.work();
            self.lock.release_share(rt, &mut self.place);
        }
    }
}

impl Taker for AtPlace<'_> {
    #[inline(always)]
    fn take_turn<R: Wait>(&mut self, rt: &R, how: How, work: &Work) {
        match how {
            How::Called => self.take_spinning(rt, self.spins, work),
            How::Joined => self.take_spinning(rt, NONE, work),
            How::Shared => self.take_shared(rt, work),
        }
    }
}

impl Taker for MutexWorker<'_, u64> {
    #[inline(always)]
    fn take_turn<R: Wait>(&mut self, rt: &R, _how: How, work: &Work) {
        let _guard = self.lock(rt);
        work.work();
    }
}
