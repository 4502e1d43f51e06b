//! Chaos: threads that enter a gate again, round after round, while all are let in, rejected, opened for, sealed out and left by others.
//!
//! It ends by itself. In the end there is no waiter, and each slot is free again. `test_stories` has the same of the semaphore and the lock, at
//! both forms of each.

use saa_sync::gate::{Error, Gate, State, TimedEntry};
use saa_sync::pager::Pager;
use std::alloc::{AllocError, AllocGlobal, Global};
use std::sync::Wait;
use std::sync::atomic::{AtomicUsize, Ordering};
use std::thread::{Threads, map_indices, yield_now};
use std::time::{Clock, Duration};
use test_asserts::same;

// How many threads there are, how often each does something, and for how many waiters there is room: all of them.
const THREADS: usize = 6;

const ROUNDS: usize = 400;

const ROOM: u16 = 6;

// The gate; how many waiters calls let in and kept out by what they answered, and how many waiters were answered so.
#[derive(Drop)]
struct Passings<R: Wait + Drop> {
    gate: Gate<R>,
    let_in: AtomicUsize,
    kept_out: AtomicUsize,
    came_in: AtomicUsize,
    stayed_out: AtomicUsize,
    // How many pagers were dropped before they took an answer.
    unanswered: AtomicUsize,
    // How many threads have ended.
    ended: AtomicUsize,
    // How many rounds ended as they must.
    done: AtomicUsize,
}

fn add(counter: &AtomicUsize, count: usize) {
    counter.fetch_add(count, Ordering::SeqCst);
}

impl<R: Wait + Clock + Drop> Passings<R> {
    // Counts what a waiter was answered; whether that may be. A call that finds the gate open or sealed is in no count.
    fn is_right(&self, answer: Result<State, Error>) -> bool {
        match answer {
            Ok(State::Controlled) => add(&self.came_in, 1),
            Err(Error::Rejected) => add(&self.stayed_out, 1),
            Ok(State::Open) | Err(Error::Sealed) | Err(Error::SpuriousFailure) => {}
            _ => return false,
        }
        true
    }

    // Enters by a call that may wait for ever.
    fn enter(&self) -> bool {
        match self.gate.enter_sync() {
            Ok(answer) => self.is_right(answer),
            Err(_full) => false,
        }
    }

    // Enters by a call that may be late.
    fn enter_in_time(&self, time: Duration) -> bool {
        match self.gate.enter_sync_for(time) {
            Ok(TimedEntry::Passed(state)) => self.is_right(Ok(state)),
            Ok(TimedEntry::Refused(error)) => self.is_right(Err(error)),
            Ok(TimedEntry::Late) => true,
            Err(_full) => false,
        }
    }

    // Registers a pager, which is dropped, answered or not, after it was polled or not.
    fn drop_pager(&self, turn: usize) -> bool {
        let mut pager = Pager::new();
        if self.gate.register_pager(&mut pager, turn % 2 == 0) != Ok(true) {
            return false;
        }
        let answer = if turn % 9 == 0 {
            pager.try_poll()
        } else {
            Err(Error::NotReady)
        };
        if answer == Err(Error::NotReady) {
            add(&self.unanswered, 1);
            return true;
        }
        self.is_right(answer)
    }

    // Answers all waiters, now in this way and now in that.
    fn answer(&self, turn: usize) {
        match turn % 16 {
            5 | 13 => add(&self.kept_out, self.gate.reject().unwrap_or(0)),
            7 => {
                self.gate.open();
                self.gate.reset();
            }
            11 => {
                self.gate.seal();
                self.gate.reset();
            }
            _ => add(&self.let_in, self.gate.permit().unwrap_or(0)),
        }
    }

    // Goes on until all have ended, so that no thread waits for ever.
    fn lead(&self) {
        for turn in 0..usize::MAX {
            if self.ended.load(Ordering::SeqCst) >= THREADS {
                return;
            }
            self.answer(turn);
            yield_now();
        }
    }

    // What a thread does; the last one leads.
    fn work(&self, number: usize) {
        if number == THREADS {
            return self.lead();
        }
        for round in 0..ROUNDS {
            let turn = round.saturating_add(number);
            let is_done = match turn % 12 {
                0 | 3 | 6 | 9 => self.drop_pager(turn),
                7 | 11 => self.enter_in_time(Duration::from_micros(turn as u64)),
                _ => self.enter(),
            };
            add(&self.done, usize::from(is_done));
        }
        add(&self.ended, 1);
    }

    // Whether what calls said of those that waited was answered to each of them once, but for pagers that were dropped before.
    fn is_sound(&self) -> bool {
        let mo = Ordering::SeqCst;
        let (let_in, kept_out) = (self.let_in.load(mo), self.kept_out.load(mo));
        let (came_in, stayed_out) = (self.came_in.load(mo), self.stayed_out.load(mo));
        let said = let_in.saturating_add(kept_out);
        let answered = came_in.saturating_add(stayed_out);
        came_in <= let_in
            && stayed_out <= kept_out
            && said <= answered.saturating_add(self.unanswered.load(mo))
    }
}

// For how many pagers there is room at a gate at which each has to wait.
fn room_of<R: Wait + Drop>(alloc: Global, gate: &Gate<R>) -> Result<usize, AllocError> {
    let mut pagers = Vec::new(alloc);
    for _waiter in 0..=ROOM {
        let mut pager = Pager::new();
        if gate.register_pager(&mut pager, true) != Ok(true) {
            break;
        }
        pagers.push(pager)?;
    }
    Ok(pagers.len())
}

// In the end, once the gate is controlled again: how many rounds ended as they must, whether what was said was answered, whether nobody waits, and for how
// many there is room.
fn outcome<H>(rt: &H) -> Result<(usize, bool, bool, usize), AllocError>
where
    H: Wait + Clock + Threads + Sync + AllocGlobal,
{
    let passings = Passings {
        gate: Gate::new(rt, rt.alloc(), ROOM)?,
        let_in: AtomicUsize::new(0),
        kept_out: AtomicUsize::new(0),
        came_in: AtomicUsize::new(0),
        stayed_out: AtomicUsize::new(0),
        unanswered: AtomicUsize::new(0),
        ended: AtomicUsize::new(0),
        done: AtomicUsize::new(0),
    };
    let _done = map_indices(rt, rt.alloc(), THREADS + 1, &|number| passings.work(number))?;
    passings.gate.reset();
    Ok((
        passings.done.load(Ordering::SeqCst),
        passings.is_sound(),
        passings.gate.permit() == Ok(0),
        room_of(rt.alloc(), &passings.gate)?,
    ))
}

#[test]
fn each_entry_is_answered_once_beside_pagers_that_are_dropped(rt: HostRuntime) {
    same!(rt; outcome(&rt), Ok((THREADS * ROUNDS, true, true, usize::from(ROOM))));
}
