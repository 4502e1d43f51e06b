//! The player of stories, at a new mutex and a new reader-writer lock of each kind: it finds the first row that is answered otherwise.

use crate::locks::Locks;
use crate::places::Place;
use crate::stories;
use saa_core_guards::guarded::lock_of;
use saa_core_guards::raw_lock::{RawLockAsync, RawLockUntil};
use saa_sync::lock::Lock;
use saa_word_lock_free::lock::Lock as LockFree;
use std::alloc::AllocGlobal;
use std::random::RandomSource;
use std::sync::Wait;
use std::sync::atomic::{AtomicUsize, Ordering};
use std::test::Fail;
use std::thread::Threads;
use std::time::Clock;
use std::{io, thread};
use test_asserts::same;
use test_language::language::{Call, Failed, Move, Subject, moves_for, numbers_of};
use test_language::reply::unknown;

// How many places there are beside the crowd: the story's own, and those of three tasks.
const FEW: usize = 4;

// The number of the story's own thread, behind those of the others.
const OWN: usize = 2;

// More than is ever counted.
const FAILED: usize = 1_000_000;

// Which thread makes a move.
fn maker_of(call: &Call<'_>) -> usize {
    match call.subject {
        Subject::Thread(thread) => thread,
        _ => OWN,
    }
}

// The places at which a move is made, from one up to another.
fn places_of(call: &Call<'_>) -> (usize, usize) {
    let place = match call.subject {
        Subject::Crowd => return (FEW, FEW.saturating_add(call.crowd)),
        Subject::Task(task) => task.saturating_add(1),
        _ => 0,
    };
    (place, place.saturating_add(1))
}

// Makes more places, until there are so many.
fn grow<'s, H: RandomSource + AllocGlobal, L: RawLockAsync + RawLockUntil + Drop>(
    rt: &H,
    places: &mut Vec<Place<'s, L>>,
    wanted: usize,
) -> io::Result<()> {
    for _place in places.len()..wanted {
        places.push(Place::new(rt)?)?;
    }
    Ok(())
}

// Makes the move of a row, at one place or at each of a crowd: this row if it is answered otherwise.
fn failed<'t, 's, H, L>(
    rt: &H,
    locks: &'s Locks<L>,
    count: &AtomicUsize,
    places: &mut Vec<Place<'s, L>>,
    row: &Move<'t>,
) -> io::Result<Option<Failed<'t>>>
where
    H: Wait + Clock + RandomSource + AllocGlobal,
    L: RawLockAsync + RawLockUntil + Drop,
{
    let (from, to) = places_of(&row.call);
    grow(rt, places, to)?;
    for place in from..to {
        let answer = match places.get_mut(place) {
            Some(place) => place.answer(rt, locks, count, &row.call),
            None => unknown(),
        };
        let failed = Failed::unless(row, answer);
        if failed.is_some() {
            return Ok(failed);
        }
    }
    Ok(None)
}

// Makes the moves of one thread; where one is answered otherwise, no other thread waits for a count.
fn played<'t, 's, H, L>(
    rt: &'s H,
    locks: &'s Locks<L>,
    count: &AtomicUsize,
    moves: &[Move<'t>],
    thread: usize,
) -> io::Result<Option<Failed<'t>>>
where
    H: Wait + Clock + RandomSource + AllocGlobal,
    L: RawLockAsync + RawLockUntil + Drop,
{
    let mut places = Vec::new(rt.alloc());
    for row in moves {
        if maker_of(&row.call) == thread {
            let failed = failed(rt, locks, count, &mut places, row)?;
            if failed.is_some() {
                count.store(FAILED, Ordering::SeqCst);
                return Ok(failed);
            }
        }
    }
    Ok(None)
}

// What the threads of a story find, side by side.
fn in_threads<H, F, T>(rt: &H, run: &F) -> io::Result<Option<T>>
where
    H: Threads + Sync + AllocGlobal,
    F: Fn(usize) -> io::Result<Option<T>> + Sync,
    T: Drop + Send,
    requires callable { F.IsAlwaysCallable run.now }
{
    let mut found = thread::map_indices(rt, rt.alloc(), OWN + 1, run)?;
    for _thread in 0..found.len() {
        if let Some(failed) = found.pop() {
            let failed = failed?;
            if failed.is_some() {
                return Ok(failed);
            }
        }
    }
    Ok(None)
}

// A story at these locks, which may be poisoned first. (The threads are begun at each kind by itself: the borrow checker covers none that a function begins
// for any lock.)
macro_rules! at_locks {
    ($rt:expr, $locks:expr, $line:expr, $moves:expr) => {{
        if $line.verb == "poisoned" {
            let (mutex, rwlock) = (lock_of(&$locks.mutex), lock_of(&$locks.rwlock));
            let _are_owned = (mutex.try_lock(), rwlock.try_lock());
            let _are_poisoned = (mutex.poison_lock(), rwlock.poison_lock());
        }
        let count = AtomicUsize::new(0);
        in_threads($rt, &|thread| played($rt, &$locks, &count, $moves, thread))
    }};
}

fn at_threaded<'t, H: Wait + Clock + Threads + Sync + RandomSource + AllocGlobal>(
    rt: &H,
    line: &Call<'_>,
    moves: &[Move<'t>],
) -> io::Result<Option<Failed<'t>>> {
    let locks: Locks<Lock<&H>> = Locks::new(rt, line.number().unwrap_or(0), line.room(1))?;
    at_locks!(rt, locks, line, moves)
}

fn at_lock_free<'t, H: Wait + Clock + Threads + Sync + RandomSource + AllocGlobal>(
    rt: &H,
    line: &Call<'_>,
    moves: &[Move<'t>],
) -> io::Result<Option<Failed<'t>>> {
    let locks: Locks<LockFree<&H>> = Locks::new(rt, line.number().unwrap_or(0), line.room(1))?;
    at_locks!(rt, locks, line, moves)
}

// The first row of a story that is answered otherwise at the threaded locks, or at the lock-free ones, where it is told for this number.
fn first_row<'t, H: Wait + Clock + Threads + Sync + RandomSource + AllocGlobal>(
    rt: &H,
    is_threaded: bool,
    story: &'t str,
    each: usize,
) -> io::Result<Option<Failed<'t>>> {
    let moves = moves_for(rt.alloc(), story, each)?;
    match moves.split_first() {
        Some((first, rows)) if is_threaded => at_threaded(rt, &first.call, rows),
        Some((first, rows)) => at_lock_free(rt, &first.call, rows),
        None => Ok(None),
    }
}

// The first row of these stories that is answered otherwise.
fn first_failed<'t, H: Wait + Clock + Threads + Sync + RandomSource + AllocGlobal>(
    rt: &H,
    is_threaded: bool,
    stories: &'t str,
) -> io::Result<Option<Failed<'t>>> {
    for story in stories.split("\n\n") {
        for each in numbers_of(rt.alloc(), story)? {
            let failed = first_row(rt, is_threaded, story, each)?;
            if failed.is_some() {
                return Ok(failed);
            }
        }
    }
    Ok(None)
}

#[test]
fn guards_answer_one_thread(rt: HostRuntime) -> Result<(), Fail> {
    for alone in stories::ALONE {
        same!(rt; first_failed(&rt, true, alone)?, None);
        same!(rt; first_failed(&rt, false, alone)?, None);
    }
    Ok(())
}

#[test]
fn guards_keep_other_threads_out(rt: HostRuntime) -> Result<(), Fail> {
    same!(rt; first_failed(&rt, true, stories::THREADS)?, None);
    same!(rt; first_failed(&rt, false, stories::THREADS)?, None);
    Ok(())
}

#[test]
fn a_wrong_row_is_found(rt: HostRuntime) -> Result<(), Fail> {
    let failed = first_failed(&rt, true, stories::WRONG)?;
    same!(rt; failed.map(|failed| failed.row), Some("t2 try_lock"));
    Ok(())
}
