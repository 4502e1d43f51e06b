//! A meeting: threads wait for one another, and then take turns at one thing for as long as the pass says.
//!
//! With a fixed number of turns for each thread some would be taken before the others begin or after they have ended, where nothing contends. Here the
//! thread that finds that the time is up ends the meeting for all.

use crate::machine::Machine;
use crate::pass::{Figure, Label, Pass, nanos_since, print_cell};
use crate::turns::Turn;
use std::io;
use std::sync::atomic::{AtomicU64, Ordering};
use std::thread::{join, yield_now};
use std::time::{Clock, Instant};

// How many turns are taken from one look at the clock to the next.
const BETWEEN_LOOKS: u64 = 64;

// How often a thread yields while it waits for the others: where threads were refused, they never come.
const YIELDS: u64 = 10_000_000;

/// Prints how long a turn takes where this thread alone takes turns.
pub fn print_alone<R: Machine, T: Turn>(
    rt: &R,
    pass: Pass,
    label: Label<'_>,
    column: &str,
    work: &T,
) -> io::Result<()> {
    let meeting = Meeting::new(pass, 1);
    meeting.attend(rt, work);
    print_cell(rt, pass, label, column, meeting.figure())
}

/// Prints how long a turn takes where so many threads take turns, which are one, two or four: all turns of all threads count.
pub fn print_turns<R: Machine, T: Turn + Sync>(
    rt: &R,
    pass: Pass,
    label: Label<'_>,
    column: &str,
    threads: u64,
    work: &T,
) -> io::Result<()> {
    let meeting = Meeting::new(pass, threads);
    match threads {
        1 => meeting.attend(rt, work),
        2 => attend_two(rt, &meeting, work),
        _ => attend_four(rt, &meeting, work),
    }
    print_cell(rt, pass, label, column, meeting.figure())
}

// Attends with two threads.
fn attend_two<R: Machine, T: Turn + Sync>(rt: &R, meeting: &Meeting, work: &T) {
    let _both = join(
        rt,
        move || meeting.attend(rt, work),
        move || meeting.attend(rt, work),
    );
}

// Attends with four threads.
fn attend_four<R: Machine, T: Turn + Sync>(rt: &R, meeting: &Meeting, work: &T) {
    let _both = join(
        rt,
        move || attend_two(rt, meeting, work),
        move || attend_two(rt, meeting, work),
    );
}

/// Whether the time of a pass is up that began then, for a thread that took so many turns. It looks at the clock now and then, after some turns for the
/// first time; it is up where the clock is refused.
pub fn is_time<R: Clock>(rt: &R, pass: Pass, start: Instant, turns: u64) -> bool {
    turns % BETWEEN_LOOKS == BETWEEN_LOOKS - 1
        && pass.is_over(nanos_since(rt, start).unwrap_or(u64::MAX))
}

// What the threads of a meeting share.
#[derive(Drop)]
struct Meeting {
    pass: Pass,
    threads: u64,
    arrived: AtomicU64,
    // 1 once the meeting is over.
    over: AtomicU64,
    // How many threads saw it to its end, and how many turns they took and how long they were there, all together.
    stayed: AtomicU64,
    turns: AtomicU64,
    nanos: AtomicU64,
}

impl Meeting {
    // A meeting of so many threads.
    fn new(pass: Pass, threads: u64) -> Self {
        Meeting {
            pass,
            threads,
            arrived: AtomicU64::new(0),
            over: AtomicU64::new(0),
            stayed: AtomicU64::new(0),
            turns: AtomicU64::new(0),
            nanos: AtomicU64::new(0),
        }
    }

    // Takes turns from when all are there until the meeting is over.
    fn attend<R: Machine, T: Turn>(&self, rt: &R, work: &T) {
        self.arrived.fetch_add(1, Ordering::SeqCst);
        if self.await_all() {
            let _stayed = self.stay(rt, work);
        }
    }

    // Waits until all are there; whether they came.
    fn await_all(&self) -> bool {
        for _ in 0..YIELDS {
            if self.arrived.load(Ordering::SeqCst) == self.threads {
                return true;
            }
            yield_now();
        }
        false
    }

    // Takes turns until the meeting is over, and counts them.
    fn stay<R: Machine, T: Turn>(&self, rt: &R, work: &T) -> Option<()> {
        let start = Instant::now(rt).ok()?;
        let turns = self.take_turns(rt, work, start);
        let nanos = nanos_since(rt, start)?;
        self.turns.fetch_add(turns, Ordering::SeqCst);
        self.nanos.fetch_add(nanos, Ordering::SeqCst);
        self.stayed.fetch_add(1, Ordering::SeqCst);
        Some(())
    }

    // Takes turns until the meeting is over; how many.
    fn take_turns<R: Machine, T: Turn>(&self, rt: &R, work: &T, start: Instant) -> u64 {
        let mut turns = 0u64;
        for _ in rt.forever() {
            if self.is_over(rt, start, turns) {
                break;
            }
            work.take_turn(rt);
            turns = turns.saturating_add(1);
        }
        turns
    }

    // Whether the meeting is over, for a thread that took so many turns.
    fn is_over<R: Clock>(&self, rt: &R, start: Instant, turns: u64) -> bool {
        if self.over.load(Ordering::SeqCst) == 1 {
            return true;
        }
        let is_over = is_time(rt, self.pass, start, turns);
        if is_over {
            self.over.store(1, Ordering::SeqCst);
        }
        is_over
    }

    // All turns, and how long the meeting took; `None` where a thread or the clock was refused.
    fn figure(&self) -> Option<Figure> {
        if self.stayed.load(Ordering::SeqCst) != self.threads {
            return None;
        }
        let nanos = self.nanos.load(Ordering::SeqCst);
        let nanos = nanos.checked_div(self.threads)?;
        let turns = self.turns.load(Ordering::SeqCst);
        Some(Figure { turns, nanos })
    }
}
