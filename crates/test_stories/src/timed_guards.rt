//! Guards that are waited for in time: had at once, late no earlier and no later than asked, refused at once where there is no room, and had again once the
//! holder goes.
//!
//! That such a call is granted while it is parked, beside readers, at locks that are poisoned, and at the lock-free lock is shown by `test_guards`.

use crate::clock::OnClock;
use saa_core::lock::LockCore;
use saa_core::ticket::Full;
use saa_sync::lock::Lock;
use saa_sync::lock_api::{Mutex, RwLock};
use saa_sync::spin_policy::NONE;
use saa_sync::testing::{form_of, mutex_on, rwlock_on};
use std::alloc::{AllocError, AllocGlobal, Global};
use std::io;
use std::sync::Wait;
use std::time::{Clock, Duration, Instant};
use test_asserts::same;

// What a timed call answers: whether it has a guard, which goes at once, or that the room is full.
type Answer = Result<bool, Full>;

// How long a call waits, and how much later each reading of its clock is than the last, in nanoseconds.
const WHILE: u64 = 1_000_000;

const STEP: u64 = 100_000;

// The instant so long behind another one.
fn behind(start: Instant) -> io::Result<Instant> {
    match start.checked_add(Duration::from_nanos(WHILE)) {
        Some(end) => Ok(end),
        None => Err(io::Error::from(io::ErrorKind::Other)),
    }
}

// What a call answers; an error where it isn't answered in its time: late from this instant on, but for less than twice as long, and else before it.
fn answered<G: Drop>(
    clock: &impl Clock,
    end: Instant,
    answer: Result<Option<G>, Full>,
) -> io::Result<Answer> {
    let now = Instant::now(clock)?;
    let answer = match answer {
        Ok(guard) => Ok(guard.is_some()),
        Err(full) => Err(full),
    };
    let is_late = answer == Ok(false);
    if is_late != (now >= end) || now >= behind(end)? {
        return Err(io::Error::from(io::ErrorKind::Other));
    }
    Ok(answer)
}

// What a call answers that waits from now on until that instant.
macro_rules! in_time {
    ($clock:expr, $end:ident, $call:expr) => {{
        let $end = behind(Instant::now($clock)?)?;
        answered($clock, $end, $call)?
    }};
}

// Both timed calls of a mutex.
fn of_mutex<R: Wait + Clock + Drop>(
    clock: &impl Clock,
    mutex: &Mutex<R, u64>,
) -> io::Result<[Answer; 2]> {
    let duration = Duration::from_nanos(WHILE);
    Ok([
        in_time!(clock, end, mutex.lock_for(duration)),
        in_time!(clock, end, mutex.lock_until(end)),
    ])
}

// The four of a reader-writer lock.
fn of_rw_lock<R: Wait + Clock + Drop>(
    clock: &impl Clock,
    lock: &RwLock<R, u64>,
) -> io::Result<[Answer; 4]> {
    let duration = Duration::from_nanos(WHILE);
    Ok([
        in_time!(clock, end, lock.read_for(duration)),
        in_time!(clock, end, lock.read_until(end)),
        in_time!(clock, end, lock.write_for(duration)),
        in_time!(clock, end, lock.write_until(end)),
    ])
}

// A lock with room for so many waiters, which park at once.
fn lock_of<R: Wait + Drop>(clock: R, alloc: Global, room: u16) -> Result<Lock<R>, AllocError> {
    form_of(clock, alloc, LockCore::new(alloc, room)?, room, NONE, NONE)
}

// What the calls of a mutex answer while it is free, while it has an owner, and once it is free again.
fn mutex_in_time<H: Wait + Clock + Drop + AllocGlobal>(
    rt: &H,
    room: u16,
) -> io::Result<[[Answer; 2]; 3]> {
    let clock = OnClock::new(rt, STEP);
    let mutex = mutex_on(lock_of(&clock, rt.alloc(), room)?, 7);
    let free = of_mutex(&clock, &mutex)?;
    let held = mutex.try_lock();
    let late = of_mutex(&clock, &mutex)?;
    drop(held);
    Ok([free, late, of_mutex(&clock, &mutex)?])
}

// The same of a reader-writer lock that has a writer meanwhile.
fn rw_lock_in_time<H: Wait + Clock + Drop + AllocGlobal>(
    rt: &H,
    room: u16,
) -> io::Result<[[Answer; 4]; 3]> {
    let clock = OnClock::new(rt, STEP);
    let lock = rwlock_on(lock_of(&clock, rt.alloc(), room)?, 7);
    let free = of_rw_lock(&clock, &lock)?;
    let held = lock.try_write();
    let late = of_rw_lock(&clock, &lock)?;
    drop(held);
    Ok([free, late, of_rw_lock(&clock, &lock)?])
}

// With room for a waiter a call is late beside an owner, and with none it is refused.
#[test]
fn guards_are_had_in_time_or_not_at_all(rt: HostRuntime) {
    for (room, other) in [(1, Ok(false)), (0, Err(Full))] {
        let mutex = mutex_in_time(&rt, room);
        same!(rt; mutex.ok(), Some([[Ok(true); 2], [other; 2], [Ok(true); 2]]));
        let rw_lock = rw_lock_in_time(&rt, room);
        same!(rt; rw_lock.ok(), Some([[Ok(true); 4], [other; 4], [Ok(true); 4]]));
    }
}
