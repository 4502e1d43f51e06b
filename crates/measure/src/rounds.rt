//! Rounds that are measured: a barrier's, and a gate that lets all waiters pass; and each by a counter under std's
//! `Mutex` and `Condvar`.

use crate::times::{Case, nanos_since};
use crate::turns::{Turn, take_turns};
use saa_sync::barrier::Barrier;
use saa_sync::gate::Gate;
use std::sync::{Condvar, Mutex, Wait};
use std::thread::{self, Threads, yield_now};
use std::time::{Clock, Instant};

impl<S: Wait + Drop + Sync> Turn for Barrier<S> {
    fn take_turn<R: Wait>(&self, _rt: &R, _is_shared: bool) {
        let _answer = self.wait_sync();
    }
}

// How many arrived in this round, and which round it is.
#[derive(Clone, Copy)]
struct Round {
    arrived: usize,
    number: u64,
}

impl Round {
    // The round after this one, at which nobody arrived.
    fn next(self) -> Self {
        Round {
            arrived: 0,
            number: self.number.wrapping_add(1),
        }
    }
}

/// A plain barrier, or a plain gate: a count of arrivals under a `Mutex`, and a `Condvar` for the waiters.
#[derive(Drop)]
pub struct Rounds {
    size: usize,
    round: Mutex<Round>,
    complete: Condvar,
}

impl Rounds {
    /// A barrier for so many tasks. At a gate there are never so many.
    pub fn new(size: usize) -> Self {
        Rounds {
            size,
            round: Mutex::new(Round {
                arrived: 0,
                number: 0,
            }),
            complete: Condvar::new(),
        }
    }

    // Counts this arrival: the number of its round where that isn't complete.
    fn arrived(&self, round: &mut Round) -> Option<u64> {
        round.arrived = round.arrived.saturating_add(1);
        if round.arrived < self.size {
            return Some(round.number);
        }
        *round = round.next();
        None
    }
}

impl Turn for Rounds {
    fn take_turn<R: Wait>(&self, rt: &R, _is_shared: bool) {
        let mut round = self.round.lock(rt);
        if let Some(number) = self.arrived(&mut round) {
            let _passed = self
                .complete
                .wait_while(rt, round, |round| round.number == number);
        } else {
            drop(round);
            self.complete.notify_all();
        }
    }
}

/// A gate that is measured: a turn enters, and waits until it may pass; another thread lets all waiters pass.
pub trait Passage: Turn {
    /// Lets all waiters pass; how many there were.
    fn let_through<R: Wait>(&self, rt: &R) -> usize;
}

impl<S: Wait + Drop + Sync> Turn for Gate<S> {
    fn take_turn<R: Wait>(&self, _rt: &R, _is_shared: bool) {
        let _answer = self.enter_sync();
    }
}

impl<S: Wait + Drop + Sync> Passage for Gate<S> {
    fn let_through<R: Wait>(&self, _rt: &R) -> usize {
        self.permit().unwrap_or(0)
    }
}

impl Passage for Rounds {
    fn let_through<R: Wait>(&self, rt: &R) -> usize {
        let answered = {
            let mut round = self.round.lock(rt);
            let answered = round.arrived;
            *round = round.next();
            answered
        };
        self.complete.notify_all();
        answered
    }
}

/// How long it takes until all have entered as often as they are let pass, in nanoseconds; `None` where the clock was refused.
pub fn passings_nanos<R: Clock + Threads + Wait + Sync, G: Passage>(
    rt: &R,
    gate: &G,
    case: Case,
) -> Option<u64> {
    let times = case.times;
    let start = Instant::now(rt).ok()?;
    thread::scope(thread::scope_env(), rt, |scope| {
        let mut awaited = 0u64;
        for _ in 0..case.count {
            if scope
                .spawn(move || take_turns(rt, gate, times, false))
                .is_ok()
            {
                awaited = awaited.saturating_add(times);
            }
        }
        let_all_through(rt, gate, awaited);
    });
    nanos_since(rt, start)
}

// Lets waiters pass until so many have passed.
fn let_all_through<R: Wait, G: Passage>(rt: &R, gate: &G, all: u64) {
    let mut awaited = all;
    for _ in rt.forever() {
        if awaited == 0 {
            break;
        }
        let passed = gate.let_through(rt) as u64;
        awaited = awaited.saturating_sub(passed);
        if passed == 0 {
            yield_now();
        }
    }
}
