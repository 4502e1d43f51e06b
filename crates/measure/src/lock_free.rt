//! Turns at the lock-free forms, and how their lock is taken where threads meet.

use crate::meeting::How;
use crate::takers::{Enter, Work};
use crate::turns::{TAKEN, Turn};
use saa_word_lock_free::Pager;
use saa_word_lock_free::lock::{Lock, Mode};
use saa_word_lock_free::lock_api::Mutex;
use saa_word_lock_free::semaphore::SemaphoreOf;
use std::sync::Wait;

impl<S: Wait + Drop + Sync, const MAX: usize> Turn for SemaphoreOf<S, MAX> {
    fn take_turn<R: Wait>(&self, _rt: &R, _is_shared: bool) {
        if matches!(self.acquire_many_sync(TAKEN), Ok(true)) {
            self.release_many(TAKEN);
        }
    }
}

impl<S: Wait + Drop + Sync> Turn for Lock<S> {
    #[inline(always)]
    fn take_turn<R: Wait>(&self, _rt: &R, is_shared: bool) {
        if is_shared {
            if self.share_sync() == Ok(true) {
                self.release_share();
            }
        } else if self.lock_sync() == Ok(true) {
            self.release_lock();
        }
    }
}

impl<S: Wait + Drop + Sync> Turn for Mutex<S, u64> {
    #[inline(always)]
    fn take_turn<R: Wait>(&self, _rt: &R, _is_shared: bool) {
        if let Ok(mut number) = self.lock() {
            *number = number.wrapping_add(1);
        }
    }
}

impl<S: Wait + Drop + Sync> Enter for Mutex<S, u64> {
    fn enter<R: Wait>(&self, _rt: &R, _how: How, work: &Work) {
        if let Ok(_guard) = self.lock() {
            work.work();
        }
    }
}

impl<S: Wait + Drop + Sync> Enter for Lock<S> {
    #[inline(always)]
    fn enter<R: Wait>(&self, _rt: &R, how: How, work: &Work) {
        match how {
            How::Called => lock_called(self, work),
            How::Joined => lock_joined(self, work),
            How::Shared => lock_shared(self, work),
        }
    }
}

#[inline(always)]
fn lock_called<S: Wait + Drop>(lock: &Lock<S>, work: &Work) {
    if lock.lock_sync() == Ok(true) {
        work.work();
        lock.release_lock();
    }
}

#[inline(always)]
fn lock_joined<S: Wait + Drop>(lock: &Lock<S>, work: &Work) {
    let mut pager = Pager::new();
    if lock.register_pager(&mut pager, Mode::Exclusive, true) == Ok(true)
        && pager.poll_sync() == Ok(true)
    {
        work.work();
        lock.release_lock();
    }
}

#[inline(always)]
fn lock_shared<S: Wait + Drop>(lock: &Lock<S>, work: &Work) {
    if lock.share_sync() == Ok(true) {
        work.work();
        lock.release_share();
    }
}
