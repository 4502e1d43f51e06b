//! Spins: how calls look before they register, how waiters spin before they park, and which turns they take at the mutex.

mod forms;
mod player;
mod stage;
mod stories;

use crate::spins::player::failed_row;
use crate::spins::stories::{JOINS, LOOKS, STORIES, THAT_LOOK, THAT_WAIT, TIMED, WAITS};
use saa_sync::spin_policy::DEFAULT;
use saa_sync::testing::WAITER;
use std::alloc::AllocGlobal;
use std::io;
use std::random::RandomSource;
use std::sync::Wait;
use std::test::Fail;
use std::thread::Threads;
use std::time::Clock;
use test_asserts::same;
use test_language::language::{Call, Failed, Move, Subject, moves_of};

// The first row of a story that is answered otherwise.
fn failed_story<H>(rt: &H, story: &'static str) -> io::Result<Option<Failed<'static>>>
where
    H: Wait + Clock + Threads + Sync + RandomSource + AllocGlobal,
{
    match moves_of(rt.alloc(), story)?.split_first() {
        Some((form, rows)) => failed_row(rt, &form.call, rows),
        None => Ok(None),
    }
}

// The same of a story that is told of one call beside one holder.
fn failed_of<H>(
    rt: &H,
    (form, holder, call): (&Call<'static>, &Move<'static>, &Move<'static>),
    story: &'static str,
) -> io::Result<Option<Failed<'static>>>
where
    H: Wait + Clock + Threads + Sync + RandomSource + AllocGlobal,
{
    let mut rows = moves_of(rt.alloc(), story)?;
    for row in &mut rows {
        let (named, thread) = match row.call.verb {
            "call" => (call, 0),
            "holder" => (holder, 1),
            _ => continue,
        };
        row.text = named.text;
        row.call = named.call;
        row.call.subject = Subject::Thread(thread);
    }
    failed_row(rt, form, &rows)
}

// The same of a story that is told of each call of a line.
fn failed_of_line<H>(
    rt: &H,
    line: &'static str,
    story: &'static str,
) -> io::Result<Option<Failed<'static>>>
where
    H: Wait + Clock + Threads + Sync + RandomSource + AllocGlobal,
{
    let named = moves_of(rt.alloc(), line)?;
    let Some((form, named)) = named.split_first() else {
        return Ok(None);
    };
    let Some((holder, calls)) = named.split_first() else {
        return Ok(None);
    };
    for call in calls {
        let failed = failed_of(rt, (&form.call, holder, call), story)?;
        if failed.is_some() {
            return Ok(failed);
        }
    }
    Ok(None)
}

#[test]
fn each_call_looks_waits_and_takes_turns_as_its_policy_says(rt: HostRuntime) -> Result<(), Fail> {
    for (calls, story) in [(THAT_LOOK, LOOKS), (TIMED, JOINS), (THAT_WAIT, WAITS)] {
        for line in calls.lines() {
            same!(rt; failed_of_line(&rt, line, story)?, None);
        }
    }
    Ok(())
}

#[test]
fn calls_spin_and_wake_as_the_stories_say(rt: HostRuntime) -> Result<(), Fail> {
    for story in STORIES.split("\n\n") {
        same!(rt; failed_story(&rt, story)?, None);
    }
    Ok(())
}

// The policy of a lock's calls that is made with no other, and of all waiters, as the documents say.
#[test]
fn policies_are_what_is_said_of_them(rt: HostRuntime) {
    same!(rt; (DEFAULT.looks, DEFAULT.yields), (16, 100));
    same!(rt; (WAITER.looks, WAITER.yields), (50, 2_000));
}
