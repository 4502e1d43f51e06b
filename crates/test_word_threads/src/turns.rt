//! Turns of threads that meet: at a semaphore none loses a permit, and at a lock a writer is alone while sharers share.

use crate::scene::{At, Caller, Form};
use saa_word_threads::lock::Mode;
use std::sync::Wait;
use std::sync::atomic::{AtomicU64, Ordering};
use std::thread::yield_now;
use test_language::language::Call;
use test_language::reply::{Reply, number};

// What an owner inside counts as: one that shares, and one that is alone.
const SHARED: u64 = 1;

const ALONE: u64 = 1 << 32;

/// Which owners are inside a lock, two numbers that are equal while no owner writes, how often owners wrote, and how often something wasn't as it has to be.
#[derive(Drop)]
pub struct Inside {
    count: AtomicU64,
    left: AtomicU64,
    right: AtomicU64,
    writes: AtomicU64,
    faults: AtomicU64,
}

impl Inside {
    /// Nobody is inside, and nothing was written.
    pub fn new() -> Self {
        Inside {
            count: AtomicU64::new(0),
            left: AtomicU64::new(0),
            right: AtomicU64::new(0),
            writes: AtomicU64::new(0),
            faults: AtomicU64::new(0),
        }
    }

    /// Counts a fault where something isn't so.
    pub fn check(&self, is_right: bool) {
        if !is_right {
            self.faults.fetch_add(1, Ordering::SeqCst);
        }
    }

    /// How often something wasn't so, or a write is lost.
    pub fn faults(&self) -> u64 {
        let writes = self.writes.load(Ordering::SeqCst);
        let lost = writes.abs_diff(self.left.load(Ordering::SeqCst));
        self.faults.load(Ordering::SeqCst).saturating_add(lost)
    }

    // Comes in: no other owner is inside where it comes alone, and none is alone where it shares.
    fn enter(&self, who: u64) {
        let before = self.count.fetch_add(who, Ordering::SeqCst);
        self.check(before < if who == ALONE { 1 } else { ALONE });
    }

    // Goes, or only shares from now on: it was alone where it came alone, and none is where it shared.
    fn leave(&self, who: u64, becomes: u64) {
        let before = self
            .count
            .fetch_sub(who.wrapping_sub(becomes), Ordering::SeqCst);
        self.check(before <= ALONE && (before == ALONE) == (who == ALONE));
    }

    // Writes 1 more, in four steps in which another writer or a reader would be seen.
    fn write(&self) {
        let left = self.left.load(Ordering::SeqCst);
        self.left.store(left.wrapping_add(1), Ordering::SeqCst);
        let right = self.right.load(Ordering::SeqCst);
        self.right.store(right.wrapping_add(1), Ordering::SeqCst);
        self.check(left == right);
        self.writes.fetch_add(1, Ordering::SeqCst);
    }

    // Reads: no owner writes meanwhile.
    fn read(&self) {
        let left = self.left.load(Ordering::SeqCst);
        self.check(self.right.load(Ordering::SeqCst) == left);
    }
}

// Makes a call; whether this is answered.
fn does<R, F, C: Caller<R, F>>(
    caller: &mut C,
    at: &At<'_, R, F>,
    verb: &str,
    count: usize,
    wanted: &str,
) -> bool {
    caller.make(at, &Call::with(verb, count)).is(wanted)
}

// Registers in a mode of a lock; whether that is made.
fn registers<R, F, C: Caller<R, F>>(caller: &mut C, at: &At<'_, R, F>, mode: Mode) -> bool {
    let mut call = Call::of("register");
    call.mode = mode;
    caller.make(at, &call).is("true")
}

// Gives up what it registered for; whether it is registered as nothing then.
fn cancels<R, F, C: Caller<R, F>>(caller: &mut C, at: &At<'_, R, F>) -> bool {
    does(caller, at, "cancel", 0, "") && does(caller, at, "try_poll", 0, "not_registered")
}

// Takes so many permits and gives them back.
fn takes<R, F, C: Caller<R, F>>(caller: &mut C, at: &At<'_, R, F>, count: usize) -> bool {
    does(caller, at, "acquire", count, "true") && does(caller, at, "release", count, "true")
}

// Takes up to 56 permits in each way and gives them back, or cancels.
fn permits<R, F, C: Caller<R, F>>(caller: &mut C, at: &At<'_, R, F>, turn: usize) -> bool {
    let count = turn % 56 + 1;
    match turn % 4 {
        0 => takes(caller, at, count),
        1 => does(caller, at, "register", count, "true") && cancels(caller, at),
        2 => {
            does(caller, at, "register", count, "true")
                && does(caller, at, "poll", 0, "ok")
                && does(caller, at, "release", count, "true")
        }
        _ => {
            does(caller, at, "try", count, "false") || does(caller, at, "release", count, "true")
        }
    }
}

// Takes up to 56 permits by its place, or by none where they are there, and gives them back by none.
fn visits<R, F, C: Caller<R, F>>(caller: &mut C, at: &At<'_, R, F>, turn: usize) -> bool {
    let count = turn % 56 + 1;
    let is_taken = turn % 2 == 0 && does(caller, at, "visit_try", count, "true");
    (is_taken || does(caller, at, "acquire", count, "true"))
        && does(caller, at, "visit_release", count, "true")
}

// Takes the lock or a share by a wait, a registration that is polled, or a try.
fn takes_lock<R, F, C: Caller<R, F>>(
    caller: &mut C,
    at: &At<'_, R, F>,
    mode: Mode,
    way: usize,
) -> bool {
    let (wait, tried) = match mode {
        Mode::Shared => ("share", "try_share"),
        _ => ("lock", "try_lock"),
    };
    match way % 3 {
        0 => does(caller, at, wait, 0, "true"),
        1 => registers(caller, at, mode) && does(caller, at, "poll", 0, "true"),
        _ => does(caller, at, tried, 0, "ok"),
    }
}

// Takes the lock alone, writes, and gives it back, or makes it a share first. A try may be refused.
fn writes<R, F, C: Caller<R, F>>(caller: &mut C, at: &At<'_, R, F>, turn: usize) -> bool {
    if !takes_lock(caller, at, Mode::Exclusive, turn) {
        return turn % 3 == 2;
    }
    let inside = &at.scene.inside;
    inside.enter(ALONE);
    inside.write();
    if turn % 2 == 0 {
        inside.leave(ALONE, 0);
        return does(caller, at, "release_lock", 0, "true");
    }
    inside.leave(ALONE, SHARED);
    let is_lowered = does(caller, at, "downgrade", 0, "true");
    inside.read();
    inside.leave(SHARED, 0);
    is_lowered && does(caller, at, "release_share", 0, "true")
}

// Takes a share, reads, and gives it back.
fn reads<R, F, C: Caller<R, F>>(caller: &mut C, at: &At<'_, R, F>, turn: usize) -> bool {
    if !takes_lock(caller, at, Mode::Shared, turn) {
        return turn % 3 == 2;
    }
    let inside = &at.scene.inside;
    inside.enter(SHARED);
    inside.read();
    inside.leave(SHARED, 0);
    does(caller, at, "release_share", 0, "true")
}

/// The mode whose turn it is.
pub fn mode_of(turn: usize) -> Mode {
    match turn % 4 {
        0 => Mode::Exclusive,
        1 => Mode::Shared,
        2 => Mode::WaitExclusive,
        _ => Mode::WaitShared,
    }
}

// Writes or reads, or asks in one of the four modes and cancels.
fn owns<R, F, C: Caller<R, F>>(caller: &mut C, at: &At<'_, R, F>, turn: usize) -> bool {
    match turn % 5 {
        0 | 1 => writes(caller, at, turn),
        2 | 3 => reads(caller, at, turn),
        _ => registers(caller, at, mode_of(turn)) && cancels(caller, at),
    }
}

// Takes the lock with no place once it is free, writes, and gives it back.
fn visits_lock<R: Wait, F: Form>(at: &At<'_, R, F>) -> bool {
    let (rt, form) = (at.scene.rt, at.scene.form);
    for _turn in rt.forever() {
        if form.once(rt, "try_lock", 0).is("ok") {
            break;
        }
        yield_now();
    }
    at.scene.inside.enter(ALONE);
    at.scene.inside.write();
    at.scene.inside.leave(ALONE, 0);
    form.once(rt, "release_lock", 0).is("true")
}

/// Takes turns of a kind, one of a crowd; how many were right.
pub fn turns<R: Wait, F: Form, C: Caller<R, F>>(
    caller: &mut C,
    at: &At<'_, R, F>,
    call: &Call<'_>,
) -> Reply {
    at.scene.meet(call.crowd);
    let kind = call.then().verb;
    let mut right = 0usize;
    for turn in 0..call.number().unwrap_or(0) {
        let is_right = match kind {
            "forty" => takes(caller, at, 40),
            "locks" => {
                does(caller, at, "lock", 0, "true") && does(caller, at, "release_lock", 0, "true")
            }
            "permits" => permits(caller, at, turn),
            "visits" => visits(caller, at, turn),
            "owners" => owns(caller, at, turn),
            "visitors" => visits_lock(at),
            _ => false,
        };
        right = right.saturating_add(usize::from(is_right));
    }
    number(right)
}
