//! A place of a story: a task with its future and its guard, and the moves that are made there.

use crate::locks::{Given, Held, How, Locks, Pending, Way};
use futures::test::MockTask;
use saa_core_guards::raw_lock::{RawLockAsync, RawLockUntil};
use std::alloc::AllocGlobal;
use std::io;
use std::random::RandomSource;
use std::sync::Wait;
use std::sync::atomic::AtomicUsize;
use std::sync::atomic::Ordering::SeqCst;
use std::thread::yield_now;
use std::time::{Clock, Instant};
use test_language::language::{Call, Subject, Time};
use test_language::reply::{Replies, Reply, ReplyWord, number, unknown, word};

// How often a holder gives way to calls that have to wait.
const LOOKS: u32 = 500;

// A task, its future and its guard.
#[derive(Drop)]
pub(crate) struct Place<'s, L: RawLockAsync + RawLockUntil + Drop> {
    task: MockTask,
    pending: Option<Pending<'s, L>>,
    held: Option<Held<'s, L>>,
}

impl<'s, L: RawLockAsync + RawLockUntil + Drop> Place<'s, L> {
    pub(crate) fn new<H: RandomSource + AllocGlobal>(rt: &H) -> io::Result<Self> {
        Ok(Place {
            task: MockTask::new(rt)?,
            pending: None,
            held: None,
        })
    }

    // Makes a move with this place's future, or another one.
    pub(crate) fn answer<H: Wait + Clock>(
        &mut self,
        rt: &H,
        locks: &'s Locks<L>,
        count: &AtomicUsize,
        call: &Call<'_>,
    ) -> Reply {
        match (call.verb, way_of(call.verb)) {
            ("poll", _) => self.poll(call),
            ("woken", _) => self.task.is_woken().reply(),
            ("cancel", _) => self.pending.take().is_some().reply(),
            ("turns", _) => number(torn_turns(locks, call)),
            ("lock_async" | "read_async" | "write_async", Some(way)) => {
                self.pending = Some(locks.future(way));
                self.poll(call)
            }
            (_, Some(way)) => match how_of(rt, call) {
                Ok(how) => self.keep(call, locks.acquire(way, how)),
                Err(_no_clock) => unknown(),
            },
            ("count" | "await" | "counted", _) => counted(rt, count, call),
            _ => self.with_guard(call),
        }
    }

    // Keeps the guard that was given; that of another thread goes at once.
    fn keep(&mut self, call: &Call<'_>, given: Given<Held<'s, L>>) -> Reply {
        match given {
            Ok(held) => {
                let shown = held.shown();
                if !matches!(call.subject, Subject::Thread(_)) {
                    self.held = Some(held);
                }
                number(shown)
            }
            Err(none) => word(none),
        }
    }

    fn poll(&mut self, call: &Call<'_>) -> Reply {
        match &mut self.pending {
            Some(pending) => {
                let given = pending.poll(&self.task);
                self.keep(call, given)
            }
            None => unknown(),
        }
    }

    // Makes a move with this place's guard.
    fn with_guard(&mut self, call: &Call<'_>) -> Reply {
        let Some(mut held) = self.held.take() else {
            return unknown();
        };
        let answer = match call.verb {
            "shows" => number(held.shown()),
            "put" => held.put(call.number().unwrap_or(0)).reply(),
            "downgrade" => {
                self.held = held.lowered();
                return self.held.is_some().reply();
            }
            "unlock_fair" => {
                held.unlock_fair();
                return word(ReplyWord::Done);
            }
            "drop" => return word(ReplyWord::Dropped),
            _ => unknown(),
        };
        self.held = Some(held);
        answer
    }
}

// Which guard a word asks for.
fn way_of(verb: &str) -> Option<Way> {
    let verb = verb.strip_prefix("try_").unwrap_or(verb);
    match verb.split_once("_").unwrap_or((verb, "")) {
        ("lock", _) => Some(Way::Lock),
        ("read", _) => Some(Way::Read),
        ("write", _) => Some(Way::Write),
        _ => None,
    }
}

// By which call; an instant is so long from now.
fn how_of(clock: &impl Clock, call: &Call<'_>) -> io::Result<How> {
    let Time::Lasts(long) = call.time else {
        let is_try = call.verb.starts_with("try_");
        return Ok(if is_try { How::Try } else { How::Wait });
    };
    if call.verb.ends_with("_for") {
        return Ok(How::For(long));
    }
    let now = Instant::now(clock)?;
    Ok(How::Until(now.checked_add(long).unwrap_or(now)))
}

// Counts one, waits until so many are counted, or gives way many times and says how many are.
fn counted(rt: &impl Wait, count: &AtomicUsize, call: &Call<'_>) -> Reply {
    match call.verb {
        "count" => {
            count.fetch_add(1, SeqCst);
        }
        "await" => await_count(rt, count, call.number().unwrap_or(0)),
        _ => {
            for _look in 0..LOOKS {
                yield_now();
            }
            return number(count.load(SeqCst));
        }
    }
    word(ReplyWord::Done)
}

fn await_count(rt: &impl Wait, count: &AtomicUsize, wanted: usize) {
    for _ in rt.forever() {
        if count.load(SeqCst) >= wanted {
            return;
        }
        yield_now();
    }
}

// Has a guard so often; how many turns saw another number than they must.
fn torn_turns<L: RawLockAsync + RawLockUntil + Drop>(locks: &Locks<L>, call: &Call<'_>) -> usize {
    let kind = call.then().verb;
    let mut torn = 0usize;
    for _turn in 0..call.number().unwrap_or(0) {
        torn = torn.saturating_add(usize::from(is_torn(locks, kind)));
    }
    torn
}

// Has a guard once, and makes the number 2 more if it may; whether it saw one that no guard leaves, or in the end another than it left.
fn is_torn<L: RawLockAsync + RawLockUntil + Drop>(locks: &Locks<L>, kind: &str) -> bool {
    let way = way_of(kind).unwrap_or(Way::Write);
    let Ok(mut held) = locks.acquire(way, How::Wait) else {
        return true;
    };
    let (seen, left) = add(&mut held);
    let held = if kind == "downgrade" {
        held.lowered()
    } else {
        Some(held)
    };
    yield_now();
    match held {
        Some(held) => seen % 2 != 0 || held.shown() != left,
        None => true,
    }
}

// Makes the number 2 more if the guard may, by 1 at a time; what it was, and what it is then.
fn add<L: RawLockAsync + RawLockUntil + Drop>(held: &mut Held<'_, L>) -> (usize, usize) {
    let seen = held.shown();
    let (odd, even) = (seen.saturating_add(1), seen.saturating_add(2));
    if !held.put(odd) {
        return (seen, seen);
    }
    yield_now();
    held.put(even);
    (seen, even)
}
