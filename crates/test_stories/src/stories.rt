//! The stories are played: each at both forms of its primitive, or at the one that it speaks of.

mod barrier_stories;
mod crowd_stories;
mod gate_stories;
mod lock_stories;
mod semaphore_stories;
mod timed_stories;

use crate::forms::Host;
use crate::played::Kind::{self, LockFree, Threaded, Until};
use crate::played::first_failed;
use crate::player::Outcome;
use std::test::Fail;
use test_asserts::same;
use test_language::language::Failed;
use test_language::reply::{ReplyWord, word};
use test_language::worked;

// At both forms.
static OF_SEMAPHORES: [&str; 3] = [
    semaphore_stories::AT_BOTH,
    worked::SEMAPHORES,
    semaphore_stories::SHUT,
];

static OF_LOCKS: [&str; 2] = [lock_stories::AT_BOTH, worked::LOCKS];

static OF_THREADS: [&str; 3] = [
    crowd_stories::AWAY,
    crowd_stories::CHAOS,
    crowd_stories::STAMPS,
];

// At the lock-free one, which alone has receipts.
static WITH_RECEIPTS: [&str; 2] = [
    semaphore_stories::WITH_RECEIPTS,
    lock_stories::WITH_RECEIPTS,
];

// At the threaded one, which alone has gates and barriers, and says how many sleep.
static OF_THE_THREADED: [&str; 6] = [
    worked::SHUTS,
    gate_stories::ALL,
    worked::GATES,
    barrier_stories::ALL,
    worked::BARRIERS,
    timed_stories::CROWD,
];

static OF_CROWDS: [&str; 5] = [
    crowd_stories::IN_BETWEEN,
    crowd_stories::PASSINGS,
    crowd_stories::TURNS,
    crowd_stories::ARRIVALS,
    crowd_stories::RACES,
];

// By durations, and by instants.
static TIMED: [&str; 4] = [
    timed_stories::ALONE,
    timed_stories::FULL,
    timed_stories::EVERY_CALL,
    timed_stories::ORDER,
];

// The first row of these that is answered otherwise at one of these kinds of form.
fn first_other<H: Host>(rt: &H, kinds: &[Kind], texts: &[&'static str]) -> Outcome<'static> {
    for stories in texts {
        for kind in kinds {
            let failed = first_failed(rt, *kind, stories)?;
            if failed.is_some() {
                return Ok(failed);
            }
        }
    }
    Ok(None)
}

#[test]
fn semaphores_answer(rt: HostRuntime) -> Result<(), Fail> {
    same!(rt; first_other(&rt, &[LockFree, Threaded], &OF_SEMAPHORES)?, None);
    Ok(())
}

#[test]
fn nothing_is_lost_and_nobody_is_passed(rt: HostRuntime) -> Result<(), Fail> {
    same!(rt; first_other(&rt, &[LockFree, Threaded], &OF_THREADS)?, None);
    Ok(())
}

#[test]
fn locks_answer(rt: HostRuntime) -> Result<(), Fail> {
    same!(rt; first_other(&rt, &[LockFree, Threaded], &OF_LOCKS)?, None);
    same!(rt; first_other(&rt, &[LockFree], &WITH_RECEIPTS)?, None);
    Ok(())
}

#[test]
fn threaded_forms_answer(rt: HostRuntime) -> Result<(), Fail> {
    same!(rt; first_other(&rt, &[Threaded], &OF_THE_THREADED)?, None);
    Ok(())
}

#[test]
fn crowds_that_sleep_for_permits_wake(rt: HostRuntime) -> Result<(), Fail> {
    same!(rt; first_other(&rt, &[Threaded], &[crowd_stories::PERMITS])?, None);
    Ok(())
}

#[test]
fn crowds_that_sleep_wake(rt: HostRuntime) -> Result<(), Fail> {
    same!(rt; first_other(&rt, &[Threaded], &OF_CROWDS)?, None);
    Ok(())
}

#[test]
fn timed_calls_end_in_time(rt: HostRuntime) -> Result<(), Fail> {
    same!(rt; first_other(&rt, &[Threaded, Until], &TIMED)?, None);
    Ok(())
}

// This row, which is answered so.
fn wrong(
    line: &'static str,
    row: &'static str,
    expected: &'static str,
    answered: ReplyWord,
) -> Option<Failed<'static>> {
    let answered = word(answered);
    Some(Failed {
        line,
        row,
        expected,
        answered,
    })
}

// The player itself: a row that is answered otherwise is found with its line, what it expects and what was answered, also where another thread is answered.
#[test]
fn a_row_that_is_answered_otherwise_is_found(rt: HostRuntime) -> Result<(), Fail> {
    let failed = first_failed(&rt, Threaded, "semaphore 1 0\ntry 0; try; try")?;
    same!(rt; failed, wrong("try 0; try; try", "try", "done", ReplyWord::False));
    let failed = first_failed(&rt, Threaded, "semaphore 1 0\ntry -> true; try -> full")?;
    same!(rt; failed, wrong("try -> true; try -> full", "try", "full", ReplyWord::False));
    let line = "lock; t1 lock -> false; release_lock; t1 ends";
    let failed = first_failed(
        &rt,
        Threaded,
        "lock 1\nlock; t1 lock -> false; release_lock; t1 ends",
    )?;
    same!(rt; failed, wrong(line, "t1 lock", "false", ReplyWord::True));
    Ok(())
}
