//! Turns at the word's semaphore, each thread at a place of its own.

ghost use Rattle.saa_word_threads.specs.Semaphores.{IsDealtBy};

use crate::times::{Case, nanos_since};
use crate::turns::TAKEN;
use saa_word_threads::semaphore::{Place, Semaphore};
use std::alloc::Global;
use std::sync::Wait;
use std::thread::{self, Threads};
use std::time::{Clock, Instant};

// A place, and the semaphore that dealt it.
#[derive(Drop)]
struct Worker<'s> {
    permits: &'s Semaphore,
    place: Place,
    ghost dealt: { IsDealtBy permits.now place },
}

impl Worker<'_> {
    // Takes so many turns.
    fn take_turns<R: Wait>(mut self, rt: &R, turns: u64) {
        for _turn in 0..turns {
            self.take_turn(rt);
        }
    }

    // Takes permits, waiting where it must, and gives them back.
    fn take_turn<R: Wait>(&mut self, rt: &R) {
        if self.permits.acquire_many(rt, &mut self.place, TAKEN) {
            self.permits.release_many(rt, &mut self.place, TAKEN);
        }
    }
}

/// How long all turns take together, by as many threads as there are places, in nanoseconds; `None` where memory or the clock was refused.
pub fn words_nanos<R: Clock + Threads + Wait + Sync>(
    rt: &R,
    alloc: Global,
    case: Case,
) -> Option<u64> {
    let threads = u16::try_from(case.count).unwrap_or(1);
    let turns = case.times.checked_div(case.count).unwrap_or(0);
    let (permits, places) = Semaphore::new(alloc, 0, threads).ok()?;
    let start = Instant::now(rt).ok()?;
    let ended = thread::map_vec(
        rt,
        places,
        &|place|
            requires { IsDealtBy permits place }
        {
            let worker = Worker {
                permits: &permits,
                place,
            };
            worker.take_turns(rt, turns);
        },
    );
    if ended.is_ok() {
        nanos_since(rt, start)
    } else {
        None
    }
}
