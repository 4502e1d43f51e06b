//! What a core costs whose line is held by links beside one whose line is a list, where nobody waits and where one does.

use crate::listed::ListedSemaphore;
use crate::times::{Case, Timed, nanos_since};
use saa_core::Primitive;
use saa_core::semaphore::SemaphoreCore;
use saa_core::ticket::{How, Ticket};
use std::time::{Clock, Instant};

// All permits of a core.
const ALL: usize = 63;

/// What is timed at a core of either kind. Both go through the loops below, so that neither is compiled into what stands round it.
pub trait Core {
    /// Tries to take so many permits, and gives back what the turn before took; whether they were taken.
    fn try_turn(&mut self, count: usize, taken: usize) -> bool;

    /// Gives back the permits that the ticket waits for, takes the pending wakes, as a form does before it wakes the waiters, has the ticket
    /// take its answer, and has it wait for so many.
    fn wait_turn(&mut self, ticket: &mut Ticket, asked: usize, count: usize);
}

impl Core for SemaphoreCore {
    #[inline(always)]
    fn try_turn(&mut self, count: usize, taken: usize) -> bool {
        let is_taken = self.try_acquire_many(count);
        let _given = self.release_many(taken);
        is_taken
    }

    #[inline(always)]
    fn wait_turn(&mut self, ticket: &mut Ticket, asked: usize, count: usize) {
        let _given = self.release_many(asked);
        let _told = self.next_answered();
        let _granted = self.poll(ticket, How::Sync);
        let _joined = self.register(ticket, count, true);
    }
}

impl Core for ListedSemaphore {
    #[inline(always)]
    fn try_turn(&mut self, count: usize, taken: usize) -> bool {
        let is_taken = self.try_acquire_many(count);
        let _given = self.release_many(taken);
        is_taken
    }

    #[inline(always)]
    fn wait_turn(&mut self, ticket: &mut Ticket, asked: usize, count: usize) {
        let _given = self.release_many(asked);
        let _told = self.next_answered();
        let _granted = self.poll(ticket, How::Sync);
        let _joined = self.register(ticket, count, true);
    }
}

/// How long many turns take at a core, where one waits in each or none; `None` where the clock was refused.
pub fn core_timed<R: Clock, C: Core>(
    rt: &R,
    core: &mut C,
    case: Case,
    waits: bool,
) -> Option<Timed> {
    let start = Instant::now(rt).ok()?;
    let last = if waits {
        wait_turns(core, case.times)
    } else {
        take_tries(core, case.times)
    };
    let nanos = nanos_since(rt, start)?;
    Some(Timed { nanos, last })
}

// Takes permits in turns, each of which gives back what the one before took, and returns how many the last one took. It stands by
// itself, since two such loops in one function are laid out by what else stands there: the same steps then took up to twice as long.
#[inline(never)]
fn take_tries<C: Core>(core: &mut C, turns: u64) -> usize {
    let mut taken = 0;
    for turn in 0..turns {
        let count = count_of(turn);
        taken = if core.try_turn(count, taken) {
            count
        } else {
            0
        };
    }
    taken
}

// Takes all permits. Then each turn grants the only waiter its permits, has it take its answer, and has it join anew; the first turn
// only joins. Returns the count of the last request. Counts differ by turn, so that joining isn't compiled for one number.
#[inline(never)]
fn wait_turns<C: Core>(core: &mut C, turns: u64) -> usize {
    let mut ticket = Ticket::new();
    let mut asked = 0;
    let _all = core.try_turn(ALL, 0);
    for turn in 0..turns {
        let count = count_of(turn).max(1);
        core.wait_turn(&mut ticket, asked, count);
        asked = count;
    }
    asked
}

// How many permits a turn asks for: not always as many, so that a call isn't worked out before it is made, and few enough for two turns.
fn count_of(turn: u64) -> usize {
    (turn % 32) as usize
}
