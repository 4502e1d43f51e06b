//! That the workers run at the same time, what each of them does, and what they count.

use saa::bench::{CommandOf, ReplyOf};
use saa::journal::{Journal, Journalled};
use saa::semaphore::{Semaphore, SemaphoreAnswer, SemaphoreCall, SemaphoreCore};
use saa_run_workers::workers::{Watch, run_with};
use std::alloc::Global;
use std::sync::Wait;
use std::sync::atomic::{AtomicUsize, Ordering};
use std::thread::{self, Threads};
use std::time::{Clock, Duration};
use test_asserts::same;

// For how many milliseconds a worker looks out for another at most: one that was just started may take a while to come.
const PATIENCE: u16 = 10_000;

// How many milliseconds worker 1 is late, where it is to be, and the first that can't be started: time enough for the others to do all that they do
// without it.
const LATE: u64 = 50;

// How many workers there are, how many of them can be started, how many permits are taken for good, one at a time, while a worker holds some, and
// what else is done. `meets`: worker 0 doesn't go on until worker 1 has begun, which it must in time. `keeps`: worker 1 begins late, and the first
// that holds permits keeps all but one until another waits for some, which it must in time.
type Row = (u8, u8, u8, &'static str);

static ROWS: [Row; 8] = [
    // Two run at once.
    (2, 2, 0, "meets"),
    // One has always two of all permits, and each of its journalled calls is granted.
    (1, 1, 0, ""),
    // One keeps all permits but one for a while: the other waits for two, and misses none of its turns.
    (2, 2, 0, "keeps"),
    // Each of 32 has a number of its own, and together they take all 63 permits of the journal's semaphore.
    (32, 32, 0, "keeps"),
    // Permits are counted when all are done: those that were taken for good meanwhile are missing.
    (1, 1, 3, ""),
    // None of three can be started, and nothing is done.
    (3, 0, 0, ""),
    // One or two of three can be started: each ends at the sealed gate, and does nothing else.
    (3, 1, 0, ""),
    (3, 2, 0, ""),
];

// What the workers count (leaders, available permits, the journal's calls), or nothing; and what is counted of them: each counter of a `Tally`.
type Found = (Option<[usize; 3]>, [usize; 6]);

// A bit for each worker up to so many.
fn bits_to(workers: u8) -> usize {
    1usize.wrapping_shl(u32::from(workers)).wrapping_sub(1)
}

// What is found of a row, by hand: one leads in each of 4 rounds of the barrier, and each worker takes two of 63 permits 100 times, and makes 50 calls
// for one permit, of which 63 are granted to all. One that is alone sees 61 left, but only once if others are taken for good then. Where one can't be
// started, those that are only begin.
fn expected(row: &Row) -> Found {
    let (workers, allowed, steals, _) = *row;
    let begun = bits_to(allowed);
    if allowed < workers {
        return (None, [begun, 0, 0, 0, 0, 0]);
    }
    let calls = usize::from(workers).wrapping_mul(50);
    let available = 63usize.wrapping_sub(usize::from(steals));
    let alone = match (workers, steals) {
        (1, 0) => 100,
        (1, _) => 1,
        _ => 0,
    };
    let (holds, granted) = (calls.wrapping_mul(2), calls.min(63));
    (
        Some([4, available, calls]),
        [begun, holds, alone, calls, granted, 0],
    )
}

// What has been counted.
#[derive(Drop)]
struct Tally<'t, R> {
    rt: &'t R,
    row: &'t Row,
    // Which workers have begun, each by a bit of its own: no two have the same, or the sum is another.
    begun: AtomicUsize,
    // How often one has held permits, and how often the only worker held two of 63.
    holds: AtomicUsize,
    alone: AtomicUsize,
    // How many calls the journal has, each to take a permit, and how many of them were granted.
    tries: AtomicUsize,
    granted: AtomicUsize,
    // 1 for each time that one held permits while another worker hadn't begun, 1000 for each permit that couldn't be taken for good, 1,000,000 if
    // nobody waited for permits, or the one that was left was taken, and 1,000,000,000 if worker 0 didn't see worker 1 begin.
    wrong: AtomicUsize,
}

// Counts so many more.
fn add(counter: &AtomicUsize, more: usize) {
    let _ = counter.fetch_add(more, Ordering::SeqCst);
}

fn read(counter: &AtomicUsize) -> usize {
    counter.load(Ordering::SeqCst)
}

impl<'t, R: Clock> Tally<'t, R> {
    fn new(rt: &'t R, row: &'t Row) -> Tally<'t, R> {
        Tally {
            rt,
            row,
            begun: AtomicUsize::new(0),
            holds: AtomicUsize::new(0),
            alone: AtomicUsize::new(0),
            tries: AtomicUsize::new(0),
            granted: AtomicUsize::new(0),
            wrong: AtomicUsize::new(0),
        }
    }

    // Holds worker 0 until worker 1 has begun, or for so long that it surely would have.
    fn meet(&self) {
        for _turn in 0..PATIENCE {
            if read(&self.begun) == 3 {
                return;
            }
            thread::sleep(self.rt, Duration::from_millis(1));
        }
        add(&self.wrong, 1_000_000_000);
    }

    // Keeps all permits but one until somebody waits for some, or for so long that it surely would. Whether it does, and the one is left then: a worker
    // asks for two together.
    fn keep_most<S: Wait + Drop>(&self, permits: &Semaphore<S>) -> bool {
        if permits.acquire_many_sync(60) != Ok(true) {
            return false;
        }
        let mut is_left = false;
        for _turn in 0..PATIENCE {
            if !permits.try_acquire_many(0) {
                is_left = permits.available_permits(Ordering::SeqCst) == 1;
                break;
            }
            thread::sleep(self.rt, Duration::from_millis(1));
        }
        permits.release_many(60);
        is_left
    }
}

impl<R: Clock> Watch for Tally<'_, R> {
    fn may_start(&self, worker: u8) -> bool {
        let (_, allowed, _, _) = *self.row;
        if worker == allowed {
            thread::sleep(self.rt, Duration::from_millis(LATE));
        }
        worker < allowed
    }

    fn begin(&self, worker: u8) {
        let (_, _, _, beside) = *self.row;
        if worker == 1 && beside == "keeps" {
            thread::sleep(self.rt, Duration::from_millis(LATE));
        }
        add(&self.begun, 1usize.wrapping_shl(u32::from(worker)));
        if worker == 0 && beside == "meets" {
            self.meet();
        }
    }

    fn hold<S: Wait + Drop>(&self, permits: &Semaphore<S>) {
        let (workers, allowed, steals, beside) = *self.row;
        let before = self.holds.fetch_add(1, Ordering::SeqCst);
        // Permits come behind the barrier, at which all of them have arrived.
        let are_all = read(&self.begun) == bits_to(allowed);
        add(&self.wrong, usize::from(!are_all));
        let are_two = permits.available_permits(Ordering::SeqCst) == 61;
        add(&self.alone, usize::from(workers == 1 && are_two));
        if before == 0 && beside == "keeps" && !self.keep_most(permits) {
            add(&self.wrong, 1_000_000);
        }
        if before < usize::from(steals) && !permits.try_acquire() {
            add(&self.wrong, 1000);
        }
    }

    fn read<J: Journal>(&self, journal: &Journalled<SemaphoreCore, J>) {
        for (command, reply) in journal.history() {
            let is_try = *command == CommandOf::Call(SemaphoreCall::TryAcquireMany(1));
            let is_granted = *reply == ReplyOf::Answered(SemaphoreAnswer::Bool(true));
            add(&self.tries, usize::from(is_try));
            add(&self.granted, usize::from(is_granted));
        }
    }
}

// Runs the workers of a row: what is found of it.
fn run_row<R: Threads + Wait + Clock + Sync>(rt: &R, alloc: Global, row: &Row) -> Found {
    let tally = Tally::new(rt, row);
    let (workers, _, _, _) = *row;
    let counts = match workers {
        0 => None,
        workers => match run_with(rt, alloc, workers, &tally) {
            Ok(counts) => Some([counts.leaders, counts.available, counts.journal]),
            Err(_refused) => None,
        },
    };
    let counted = [
        read(&tally.begun),
        read(&tally.holds),
        read(&tally.alone),
        read(&tally.tries),
        read(&tally.granted),
        read(&tally.wrong),
    ];
    (counts, counted)
}

#[test]
fn workers_are_watched(rt: HostRuntime) {
    for row in &ROWS {
        let found = run_row(&rt, rt.alloc(), row);
        same!(rt; (*row, found), (*row, expected(row)));
    }
}
