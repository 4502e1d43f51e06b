//! The player: makes the moves of a story at the pool or the queue of its first line, and finds the first row that is answered otherwise.
//!
//! `pool MAX ROOM` and `queue MAX ROOM` are first lines. `repeat 500 add` makes the call for each number up to that. `f0 end` ends a future, and
//! answers the item of a push. `crowd 8 pop 1h push` has eight threads make the call one after another, each in the next way that waits; once all
//! sleep, they are let in one by one.

ghost use Rattle.std.specs.Prelude.{◌<◌};

use crate::places::{Attempt, Host, Place};
use crate::stories::{POOL, QUEUE};
use futures::test::MockTask;
use saa_sync_pool::Pool;
use saa_sync_queue::Queue;
use std::io;
use std::sync::atomic::{AtomicUsize, Ordering};
use std::test::Fail;
use std::thread::{self, Threads, yield_now};
use std::time::Duration;
use test_asserts::same;
use test_language::language::{Call, Failed, Move, Subject, moves_for, numbers_of};
use test_language::reply::{Replies, Reply, ReplyWord, number, unknown, word};

// How many milliseconds a crowd has to fall asleep once the last of it has joined the queue.
const ASLEEP: u64 = 5;

// What is counted where a crowd isn't let in as it must be.
const WRONG: usize = 100;

// A pool or a queue with all that a story needs beside it.
#[derive(Drop)]
struct Player<R, T, F: Drop> {
    rt: R,
    place: T,
    tasks: Vec<MockTask>,
    futures: Vec<Option<F>>,
}

impl<'r, H: Host + Threads + Sync, F: Drop, T: Place<H, F> + Sync> Player<&'r H, T, F> {
    // Makes the move of a row.
    fn answer(&mut self, call: &Call<'_>) -> Reply {
        match call.subject {
            Subject::Task(task) => match self.tasks.get(task) {
                Some(task) => task.is_woken().reply(),
                None => unknown(),
            },
            Subject::Future(name) => self.at_future(name, call),
            Subject::Crowd => crowd(self.rt, self.place, call),
            _ if call.verb == "repeat" => repeated(self.rt, self.place, call),
            _ => self.place.call(self.rt, call),
        }
    }

    // Makes a future, or makes a call at one.
    fn at_future(&mut self, name: usize, call: &Call<'_>) -> Reply {
        let (Some(slot), Some(task)) = (self.futures.get_mut(name), self.tasks.get(call.task))
        else {
            return unknown();
        };
        match (call.verb, slot) {
            ("poll", Some(future)) => self.place.polled(self.rt.alloc(), future, task),
            ("drop", slot) => {
                *slot = None;
                word(ReplyWord::Dropped)
            }
            ("end", slot) => match slot.take() {
                Some(future) => self.place.ended(future),
                None => unknown(),
            },
            (_, slot) => {
                *slot = Some(self.place.begin(call));
                word(ReplyWord::Done)
            }
        }
    }
}

// Makes a call for each number from 1 on: how many are done, or answer their number.
fn repeated<H: Host, F, T: Place<H, F>>(rt: &H, place: T, call: &Call<'_>) -> Reply {
    let mut right = 0usize;
    for own in 1..=call.pager() {
        let answered = place.call(rt, &Call::with(call.then().verb, own));
        let is_right = answered.is("true") || answered.number() == Some(own);
        right = right.saturating_add(usize::from(is_right));
    }
    number(right)
}

// How many of a crowd are answered as they must be.
fn crowd<H, F, T>(rt: &H, place: T, call: &Call<'_>) -> Reply
where
    H: Host + Threads + Sync,
    T: Place<H, F> + Sync,
{
    let ended = AtomicUsize::new(0);
    let right = thread::map_indices(
        rt,
        rt.alloc(),
        call.crowd.saturating_add(1),
        &|own| {
            if own == 0 {
                let_in(rt, place, call, &ended)
            } else {
                sleep(rt, place, call, &ended, own)
            }
        },
    );
    let Ok(right) = right else {
        return unknown();
    };
    let mut sum = 0usize;
    for count in right.iter() {
        sum = sum.saturating_add(*count);
    }
    number(sum)
}

// Waits until so many of a crowd wait, or have ended.
fn await_crowd<H, F, T>(rt: &H, place: T, ended: &AtomicUsize, wanted: usize)
where
    H: Host,
    T: Place<H, F>,
{
    for _ in rt.forever() {
        let waiting = place.call(rt, &Call::of("waiting")).number().unwrap_or(0);
        if waiting.saturating_add(ended.load(Ordering::SeqCst)) >= wanted {
            return;
        }
        yield_now();
    }
}

// One of a crowd, from 1 on, makes the call once those before it wait: 1 if it is let in after them, with its number, or answered `closed`.
fn sleep<H, F, T>(rt: &H, place: T, call: &Call<'_>, ended: &AtomicUsize, own: usize) -> usize
where
    H: Host,
    T: Place<H, F>,
{
    await_crowd(rt, place, ended, own.saturating_sub(1));
    let attempt = Attempt::of(call).in_turn(own % 4 + 1, own);
    let answered = place.attempt(rt, &attempt).unwrap_or(unknown());
    let turn = ended.fetch_add(1, Ordering::SeqCst).saturating_add(1);
    let is_let_in = answered.is("ok") || answered.number() == Some(own);
    usize::from(match call.then().verb {
        "close" => answered.is("closed"),
        _ => turn == own && is_let_in,
    })
}

// Lets a crowd in one by one, or closes: 0 if each call is done, or takes what came before the one that it lets in.
fn let_in<H, F, T>(rt: &H, place: T, call: &Call<'_>, ended: &AtomicUsize) -> usize
where
    H: Host,
    T: Place<H, F>,
{
    await_crowd(rt, place, ended, call.crowd);
    thread::sleep(rt, Duration::from_millis(ASLEEP));
    let then = call.then().verb;
    let calls = if then == "close" { 1 } else { call.crowd };
    let mut wrong = 0usize;
    for own in 1..=calls {
        let answered = place.call(rt, &Call::with(then, own));
        let is_done = answered.is("true") || answered.is("ok");
        if !is_done && answered.number() != Some(own.saturating_sub(1)) {
            wrong = WRONG;
        }
        await_crowd(rt, place, ended, call.crowd);
    }
    wrong
}

type Outcome<'t> = io::Result<Option<Failed<'t>>>;

// Plays a story at a place: the first row that is answered otherwise.
fn played<'t, H, F: Drop, T>(rt: &H, place: T, rows: &[Move<'t>]) -> Outcome<'t>
where
    H: Host + Threads + Sync,
    T: Place<H, F> + Sync + Drop,
{
    let mut tasks = Vec::new(rt.alloc());
    let mut futures = Vec::new(rt.alloc());
    for _name in 0..3 {
        tasks.push(MockTask::new(rt)?)?;
        futures.push(None)?;
    }
    let mut player = Player {
        rt,
        place,
        tasks,
        futures,
    };
    for row in rows {
        let failed = Failed::unless(row, player.answer(&row.call));
        if failed.is_some() {
            return Ok(failed);
        }
    }
    Ok(None)
}

// Plays a story at a pool or a queue for so many.
fn at<'t, H: Host + Threads + Sync, const MAX: usize>(
    rt: &H,
    line: &Call<'_>,
    rows: &[Move<'t>],
) -> Outcome<'t>
    requires bound { 0 < MAX }
    requires narrow { MAX < 65536 }
{
    let room = line.room(1);
    if line.verb == "pool" {
        let pool = Pool::<_, usize, MAX>::new(rt, rt.alloc(), room)?;
        return played(rt, &pool, rows);
    }
    let queue = Queue::<_, usize, MAX>::new(rt, rt.alloc(), room)?;
    played(rt, &queue, rows)
}

// Plays a story for this number, at what its first line makes.
fn played_for<'t, H: Host + Threads + Sync>(rt: &H, story: &'t str, each: usize) -> Outcome<'t> {
    let moves = moves_for(rt.alloc(), story, each)?;
    let Some((first, rows)) = moves.split_first() else {
        return Ok(None);
    };
    match first.call.pager() {
        1 => at::<H, 1>(rt, &first.call, rows),
        2 => at::<H, 2>(rt, &first.call, rows),
        5 => at::<H, 5>(rt, &first.call, rows),
        _ => at::<H, 500>(rt, &first.call, rows),
    }
}

// The first row of these stories that is answered otherwise.
fn first_failed<'t, H: Host + Threads + Sync>(rt: &H, stories: &'t str) -> Outcome<'t> {
    for story in stories.split("\n\n") {
        for each in numbers_of(rt.alloc(), story)? {
            let failed = played_for(rt, story, each)?;
            if failed.is_some() {
                return Ok(failed);
            }
        }
    }
    Ok(None)
}

#[test]
fn a_pool_and_a_queue_answer(rt: HostRuntime) -> Result<(), Fail> {
    same!(rt; first_failed(&rt, POOL)?, None);
    same!(rt; first_failed(&rt, QUEUE)?, None);
    Ok(())
}
