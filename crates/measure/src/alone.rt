//! Calls that one thread makes while no other is there: a try with its release, and a call that may block with its release, at the lock-free
//! forms and at the threaded ones. None of them waits.

use crate::times::{Case, nanos_since};
use saa_sync::lock::Lock;
use saa_sync::semaphore::{Semaphore, SemaphoreOf};
use saa_word_lock_free::lock::Lock as LockFreeLock;
use saa_word_lock_free::semaphore::{
    Semaphore as LockFreeSemaphore, SemaphoreOf as LockFreeSemaphoreOf,
};
use std::alloc::Global;
use std::sync::Wait;
use std::time::{Clock, Instant};

// The room of what is measured, which nobody takes.
const ROOM: u16 = 32;

/// What is asked for.
#[derive(Clone, Copy)]
pub enum Asked {
    /// So many permits.
    Permits(usize),
    /// The lock alone, or a share of it.
    Lock,
    Share,
}

/// By which call it is asked for.
#[derive(Clone, Copy)]
pub enum By {
    /// By a try.
    Try,
    /// By a call that may block.
    Call,
}

/// At which form.
#[derive(Clone, Copy)]
pub enum Form {
    /// A lock-free one.
    LockFree,
    /// One that threads share under a mutex.
    Threaded,
}

/// What one thread takes and gives back.
trait Alone {
    /// What it is asked for.
    type Ask: Copy;

    /// Takes it if it is there, and gives it back.
    fn try_turn(&self, ask: Self::Ask);

    /// Takes it by a call that may block, and gives it back.
    fn turn(&self, ask: Self::Ask);
}

impl<S: Wait + Drop, const MAX: usize> Alone for SemaphoreOf<S, MAX> {
    type Ask = usize;

    #[inline(always)]
    fn try_turn(&self, ask: usize) {
        if self.try_acquire_many(ask) {
            self.release_many(ask);
        }
    }

    #[inline(always)]
    fn turn(&self, ask: usize) {
        if self.acquire_many_sync(ask) == Ok(true) {
            self.release_many(ask);
        }
    }
}

impl<S: Wait + Drop, const MAX: usize> Alone for LockFreeSemaphoreOf<S, MAX> {
    type Ask = usize;

    #[inline(always)]
    fn try_turn(&self, ask: usize) {
        if self.try_acquire_many(ask) {
            self.release_many(ask);
        }
    }

    #[inline(always)]
    fn turn(&self, ask: usize) {
        if self.acquire_many_sync(ask) == Ok(true) {
            self.release_many(ask);
        }
    }
}

// It is asked whether to share it.
impl<S: Wait + Drop> Alone for Lock<S> {
    type Ask = bool;

    #[inline(always)]
    fn try_turn(&self, ask: bool) {
        if ask {
            if self.try_share().is_ok() {
                self.release_share();
            }
        } else if self.try_lock().is_ok() {
            self.release_lock();
        }
    }

    #[inline(always)]
    fn turn(&self, ask: bool) {
        if ask {
            if self.share_sync() == Ok(true) {
                self.release_share();
            }
        } else if self.lock_sync() == Ok(true) {
            self.release_lock();
        }
    }
}

// It is asked whether to share it.
impl<S: Wait + Drop> Alone for LockFreeLock<S> {
    type Ask = bool;

    #[inline(always)]
    fn try_turn(&self, ask: bool) {
        if ask {
            if self.try_share().is_ok() {
                self.release_share();
            }
        } else if self.try_lock().is_ok() {
            self.release_lock();
        }
    }

    #[inline(always)]
    fn turn(&self, ask: bool) {
        if ask {
            if self.share_sync() == Ok(true) {
                self.release_share();
            }
        } else if self.lock_sync() == Ok(true) {
            self.release_lock();
        }
    }
}

/// How long the calls of a case take at a new form, in nanoseconds; `None` where memory or the clock was refused.
pub fn alone_nanos<R: Clock + Wait>(
    rt: &R,
    alloc: Global,
    form: Form,
    asked: Asked,
    by: By,
    case: Case,
) -> Option<u64> {
    match asked {
        Asked::Permits(count) => permits_nanos(rt, alloc, form, count, by, case.times),
        Asked::Lock => lock_nanos(rt, alloc, form, false, by, case.times),
        Asked::Share => lock_nanos(rt, alloc, form, true, by, case.times),
    }
}

fn permits_nanos<R: Clock + Wait>(
    rt: &R,
    alloc: Global,
    form: Form,
    count: usize,
    by: By,
    turns: u64,
) -> Option<u64> {
    match form {
        Form::LockFree => {
            let semaphore = LockFreeSemaphore::new(rt, alloc, ROOM).ok()?;
            turns_nanos(rt, &semaphore, count, by, turns)
        }
        Form::Threaded => {
            let semaphore = Semaphore::new(rt, alloc, ROOM).ok()?;
            turns_nanos(rt, &semaphore, count, by, turns)
        }
    }
}

fn lock_nanos<R: Clock + Wait>(
    rt: &R,
    alloc: Global,
    form: Form,
    is_shared: bool,
    by: By,
    turns: u64,
) -> Option<u64> {
    match form {
        Form::LockFree => {
            let lock = LockFreeLock::new(rt, alloc, ROOM).ok()?;
            turns_nanos(rt, &lock, is_shared, by, turns)
        }
        Form::Threaded => {
            let lock = Lock::new(rt, alloc, ROOM).ok()?;
            turns_nanos(rt, &lock, is_shared, by, turns)
        }
    }
}

// How long so many turns take, in nanoseconds.
fn turns_nanos<R: Clock, A: Alone>(
    rt: &R,
    form: &A,
    ask: A::Ask,
    by: By,
    turns: u64,
) -> Option<u64> {
    let start = Instant::now(rt).ok()?;
    match by {
        By::Try => take_tries(form, ask, turns),
        By::Call => take_turns(form, ask, turns),
    }
    nanos_since(rt, start)
}

// Takes so many turns by tries.
#[inline(never)]
fn take_tries<A: Alone>(form: &A, ask: A::Ask, turns: u64) {
    for _turn in 0..turns {
        form.try_turn(ask);
    }
}

// Takes so many turns by calls that may block.
#[inline(never)]
fn take_turns<A: Alone>(form: &A, ask: A::Ask, turns: u64) {
    for _turn in 0..turns {
        form.turn(ask);
    }
}
