//! Turns: what threads share and take turns at, and how long all turns take together. What is behind a lock of a number adds 1 to it, and a
//! turn that is shared looks at it.

use crate::times::{Case, nanos_since};
use saa_sync::lock::Lock;
use saa_sync::lock_api;
use saa_sync::semaphore::SemaphoreOf;
use std::sync::{Condvar, Mutex, RwLock, Wait};
use std::thread::{self, Threads};
use std::time::{Clock, Instant};

/// The permits of each. Two acquires don't fit beside each other.
pub const PERMITS: usize = 63;

/// What each acquire takes.
pub const TAKEN: usize = 40;

/// Something that threads share, and what a turn at it is.
pub trait Turn: Sync {
    /// Takes it, waiting where it must, and gives it back: alone, or shared where it can be.
    fn take_turn<R: Wait>(&self, rt: &R, is_shared: bool);
}

/// How long all turns take together, in nanoseconds; `None` where the clock was refused. Of those that are mostly shared every fourth is
/// taken alone.
pub fn turns_nanos<R: Clock + Threads + Wait + Sync, T: Turn>(
    rt: &R,
    turn: &T,
    case: Case,
    is_mostly_shared: bool,
) -> Option<u64> {
    let turns = case.times.checked_div(case.count).unwrap_or(0);
    let start = Instant::now(rt).ok()?;
    thread::scope(thread::scope_env(), rt, |scope| {
        for _ in 0..case.count {
            if scope
                .spawn(move || take_turns(rt, turn, turns, is_mostly_shared))
                .is_err()
            {
                take_turns(rt, turn, turns, is_mostly_shared);
            }
        }
    });
    nanos_since(rt, start)
}

/// Takes so many turns.
pub fn take_turns<R: Wait, T: Turn>(rt: &R, turn: &T, turns: u64, is_mostly_shared: bool) {
    for number in 0..turns {
        turn.take_turn(rt, is_mostly_shared && number % 4 != 0);
    }
}

impl<S: Wait + Drop + Sync, const MAX: usize> Turn for SemaphoreOf<S, MAX> {
    fn take_turn<R: Wait>(&self, _rt: &R, _is_shared: bool) {
        if matches!(self.acquire_many_sync(TAKEN), Ok(true)) {
            self.release_many(TAKEN);
        }
    }
}

/// The plain counter: permits under a `Mutex`, and a `Condvar` for the waiters.
#[derive(Drop)]
pub struct Counter {
    left: Mutex<usize>,
    freed: Condvar,
}

impl Counter {
    /// A counter with all permits.
    pub fn new() -> Self {
        Counter {
            left: Mutex::new(PERMITS),
            freed: Condvar::new(),
        }
    }

    // Waits for the permits of a turn, and takes them.
    fn take<R: Wait>(&self, rt: &R) {
        let mut left = self
            .freed
            .wait_while(rt, self.left.lock(rt), |left| *left < TAKEN);
        *left -= TAKEN;
    }

    // Gives them back, and wakes one waiter.
    fn give<R: Wait>(&self, rt: &R) {
        {
            let mut left = self.left.lock(rt);
            *left = left.wrapping_add(TAKEN);
        }
        self.freed.notify_one();
    }
}

impl Turn for Counter {
    fn take_turn<R: Wait>(&self, rt: &R, _is_shared: bool) {
        self.take(rt);
        self.give(rt);
    }
}

/// Two turns at a lock, with a write under each: what every form under a lock pays, as long as nobody waits.
#[derive(Drop)]
pub struct TwoTurns {
    left: Mutex<usize>,
}

impl TwoTurns {
    /// A lock round all permits, which nobody waits for.
    pub fn new() -> Self {
        TwoTurns {
            left: Mutex::new(PERMITS),
        }
    }
}

impl Turn for TwoTurns {
    fn take_turn<R: Wait>(&self, rt: &R, _is_shared: bool) {
        {
            let mut left = self.left.lock(rt);
            *left = left.wrapping_sub(TAKEN);
        }
        let mut left = self.left.lock(rt);
        *left = left.wrapping_add(TAKEN);
    }
}

impl<S: Wait + Drop + Sync> Turn for Lock<S> {
    #[inline(always)]
    fn take_turn<R: Wait>(&self, _rt: &R, is_shared: bool) {
        if is_shared {
            if self.share_sync() == Ok(true) {
                self.release_share();
            }
        } else if self.lock_sync() == Ok(true) {
            self.release_lock();
        }
    }
}

impl Turn for RwLock<()> {
    #[inline(always)]
    fn take_turn<R: Wait>(&self, rt: &R, is_shared: bool) {
        if is_shared {
            drop(self.read(rt));
        } else {
            drop(self.write(rt));
        }
    }
}

impl<S: Wait + Drop + Sync> Turn for lock_api::Mutex<S, u64> {
    #[inline(always)]
    fn take_turn<R: Wait>(&self, _rt: &R, _is_shared: bool) {
        if let Ok(mut number) = self.lock() {
            *number = number.wrapping_add(1);
        }
    }
}

impl Turn for Mutex<u64> {
    #[inline(always)]
    fn take_turn<R: Wait>(&self, rt: &R, _is_shared: bool) {
        let mut number = self.lock(rt);
        *number = number.wrapping_add(1);
    }
}

impl<S: Wait + Drop + Sync> Turn for lock_api::RwLock<S, u64> {
    #[inline(always)]
    fn take_turn<R: Wait>(&self, _rt: &R, is_shared: bool) {
        if is_shared {
            if let Ok(number) = self.read() {
                let _seen = *number;
            }
        } else if let Ok(mut number) = self.write() {
            *number = number.wrapping_add(1);
        }
    }
}

impl Turn for RwLock<u64> {
    #[inline(always)]
    fn take_turn<R: Wait>(&self, rt: &R, is_shared: bool) {
        if is_shared {
            let _seen = *self.read(rt);
        } else {
            let mut number = self.write(rt);
            *number = number.wrapping_add(1);
        }
    }
}
