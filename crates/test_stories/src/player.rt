//! The player: makes the moves of one thread of a story at one form, row by row, and finds the first that is answered otherwise than its row says.

use crate::clock::{BROKEN, OnClock};
use crate::forms::{Caller, Form, Host, Reads, Span};
use crate::parts::{Futures, Pagers, Tasks};
use crate::threads::{Stage, has_waiter, is_made_by, let_all_go};
use crate::{chaos, races, stamps};
use saa_core_waits::{Pager, Timed};
use std::alloc::{AllocError, Global};
use std::sync::Wait;
use std::sync::atomic::Ordering;
use std::thread::{self, Threads, yield_now};
use std::time::{Clock, Duration, Instant};
use std::{io, mem};
use test_language::language::{Call, Failed, Move, Subject, Time};
use test_language::reply::{Replies, Reply, ReplyWord, number, unknown, word};

// How many waiters are counted at most.
const WAITERS: usize = 7;

// How late the clock is set for the time of all to be up, in nanoseconds.
const LATE: u64 = 1_000_000_000;

// How long a pause is, and a look whether the clock rests, in milliseconds; how long the player sleeps between two looks, in microseconds; and how often
// one that sleeps may wake for no reason meanwhile, and read its clock.
const PAUSE: u64 = 15;

const WHILE: u64 = 3;

const GLANCE: u64 = 20;

const FEW: u64 = 8;

// What callbacks add to their count where they don't find that the caller waits.
const WRONG: usize = 100;

/// The first row that was answered otherwise, where none was refused memory.
pub(crate) type Outcome<'t> = io::Result<Option<Failed<'t>>>;

fn hour() -> Duration {
    Duration::from_secs(3_600)
}

// A thread of a story with all that it needs beside its form.
#[derive(Drop)]
struct Player<'s, H: Host, S: Form<T, Q> + Drop, T: Drop, Q: Reads> {
    rt: &'s H,
    clock: &'s OnClock<&'s H>,
    form: &'s S,
    stage: &'s Stage,
    // Its number; that of the story's own is behind those of all others.
    thread: usize,
    tasks: Tasks,
    pagers: Pagers<'s, S, T>,
    futures: Futures<'s, S, Q>,
}

impl<'s, H: Host, S: Form<T, Q> + Sync + Drop, T: Drop + Send, Q: Reads> Player<'s, H, S, T, Q> {
    // Makes a row's move in its turn; nothing where it is another thread's, or isn't answered yet.
    fn turn(&mut self, at: usize, row: &Move<'_>) -> Option<Reply> {
        if self.thread < self.stage.others() {
            return self.turn_of_another(at, row);
        }
        match row.call.subject {
            Subject::Thread(_) | Subject::Crowd => {
                self.stage.turn_of(self.rt, self.form, at, &row.call)
            }
            _ if matches!(row.call.verb, "in_turn" | "in_turn_awake") => {
                Some(self.stage.in_turn(self.rt, self.form, at, &row.call))
            }
            _ => Some(self.answer(&row.call)),
        }
    }

    // The same on another thread. The story may have a lock's last place for a moment each time that it looks whether this call has it.
    fn turn_of_another(&mut self, at: usize, row: &Move<'_>) -> Option<Reply> {
        let (rt, stage) = (self.rt, self.stage);
        if !is_made_by(&row.call, self.thread)
            || matches!(row.call.verb, "ends" | "ended" | "joined")
            || !stage.awaits_turn(rt, self.thread, at)
        {
            return None;
        }
        for _ in rt.forever() {
            let answer = self.answer(&row.call);
            if !answer.is("full") || row.wanted == Some("full") {
                return Some(answer);
            }
            yield_now();
        }
        unreachable!()
    }

    // Makes a move.
    fn answer(&mut self, call: &Call<'_>) -> Reply {
        match call.subject {
            Subject::Future(name) => self.at_future(name, call),
            Subject::Task(task) if matches!(call.verb, "woken" | "calm") => {
                self.tasks.answer(task, call)
            }
            Subject::Task(task) => self.with_callback(Caller::Task(self.tasks.get(task)), call),
            _ => self.at_pager(call),
        }
    }

    // Makes a call whose callback counts, and makes a call that lets the caller go on.
    fn with_callback(&self, caller: Caller<'_>, call: &Call<'_>) -> Reply {
        let (form, clock, stage) = (self.form, self.clock, self.stage);
        form.call_with(caller, call, || begin_wait(form, clock, stage, call))
    }

    // Makes a call at a future, or makes one.
    fn at_future(&mut self, name: usize, call: &Call<'_>) -> Reply {
        let form = self.form;
        match call.verb {
            "poll" | "ended" | "drop" => self.futures.answer(&self.tasks, name, call),
            "poll_away" => {
                self.futures
                    .polled_away(self.rt, self.tasks.get(call.task), name)
            }
            "block_on" => self.futures.blocked(self.rt, name),
            verb if verb.ends_with("_with") => self.with_callback(Caller::Nobody, call),
            _ => self.futures.put(name, form.ask(call)),
        }
    }

    // Makes a call at a pager.
    fn at_pager(&mut self, call: &Call<'_>) -> Reply {
        let form = self.form;
        match call.verb {
            "reg" => form.enroll(self.pagers.get(call.pager()), call),
            "try_poll" | "poll_sync" | "poll_async" => self.pagers.polled(call, Span::Ever),
            "registered" | "poll" | "cancel" | "drop" => self.pagers.answer(&self.tasks, call),
            "block_on" => self.pagers.blocked(self.rt, call),
            "drop_away" => dropped_away(self.rt, self.pagers.get(call.pager())),
            _ => self.at_form(call),
        }
    }

    // Makes a call at the form.
    fn at_form(&mut self, call: &Call<'_>) -> Reply {
        let (form, stage) = (self.form, self.stage);
        let count = call.number().unwrap_or(0);
        match call.verb {
            verb if verb.ends_with("_with") => self.with_callback(Caller::Thread, call),
            "room" => room_of(self.rt.alloc(), form).map_or(unknown(), number),
            "try_shares" => shared(form, count),
            "clock" | "late" | "leap" | "pause" | "rests" | "read" | "asleep" => {
                self.at_clock(call)
            }
            "calls" => number(stage.calls.load(Ordering::SeqCst)),
            "chaos" | "chaos_full" => {
                number(chaos::rounds(self.rt, form, &stage.tally, self.thread, call))
            }
            "meetings" => number(stage.tally.meetings.load(Ordering::SeqCst)),
            "stamped" => number(stamps::turns(form, &stage.log, count)),
            "passed" => number(stage.log.passed.load(Ordering::SeqCst)),
            "race" => number(races::in_time(form, &stage.tally, count)),
            "disturb" => number(races::beside(form, &stage.tally)),
            _ => self.in_time(call),
        }
    }

    // Sets the clock, or waits for what is seen of it or of the form.
    fn at_clock(&mut self, call: &Call<'_>) -> Reply {
        let clock = self.clock;
        match call.verb {
            "clock" if call.then().verb == "broken" => clock.set(BROKEN),
            "clock" => clock.set(call.time.nanos()),
            "late" => clock.set(LATE),
            "leap" => clock.leap(call.time.nanos()),
            "pause" => thread::sleep(self.rt, Duration::from_millis(PAUSE)),
            "rests" => return rests(self.rt, clock).reply(),
            _ => self.comes(call),
        }
        word(ReplyWord::Done)
    }

    // Waits until the clock was read so often, or so many sleep.
    fn comes(&mut self, call: &Call<'_>) {
        let wanted = call.number().unwrap_or(0);
        for _ in self.rt.forever() {
            let is_there = if call.verb == "read" {
                self.clock.readings() >= wanted as u64
            } else {
                self.form.call(&Call::of("parked")).number() == Some(wanted)
            };
            if is_there {
                return;
            }
            thread::sleep(self.rt, Duration::from_micros(GLANCE));
        }
    }

    // Makes a call that may be timed: by the runtime's clock it isn't answered early that time is up.
    fn in_time(&mut self, call: &Call<'_>) -> Reply {
        let long = match call.time {
            Time::Lasts(long) => long,
            _ => Duration::ZERO,
        };
        let begun = Instant::now(self.rt);
        let span = span_of(self.clock, self.stage.start, call, long);
        let answer = self.at_span(call, span);
        if answer.is("timed_out") && self.clock.is_real && is_early(self.rt, begun, long) {
            return word(ReplyWord::Early);
        }
        answer
    }

    // Makes a call that lasts so long if it is timed.
    fn at_span(&mut self, call: &Call<'_>, span: Span) -> Reply {
        let form = self.form;
        if matches!(call.verb, "poll_for" | "poll_until") {
            return self.pagers.polled(call, span);
        }
        let answer = form.call_in_time(call, span);
        if answer.is("?") {
            return form.with_permit(call, span, self.pagers.get(call.pager()));
        }
        answer
    }
}

// Whether less than this has passed since then.
fn is_early(rt: &impl Clock, begun: io::Result<Instant>, long: Duration) -> bool {
    let (Ok(begun), Ok(now)) = (begun, Instant::now(rt)) else {
        return true;
    };
    begun.checked_add(long).is_none_or(|end| now < end)
}

// The span of a call that begins now, or then where the clock can't be read. An instant is an hour away at most.
fn span_of(clock: &impl Clock, start: Instant, call: &Call<'_>, long: Duration) -> Span {
    if !call.verb.ends_with("_until") {
        return Span::For(long);
    }
    let now = Instant::now(clock).unwrap_or(start);
    Span::Until(now.checked_add(long.min(hour())).unwrap_or(now))
}

// Whether the clock is hardly read for a while, since the call that is parked sleeps.
fn rests<H: Wait + Clock, R: Wait + Clock + Drop>(rt: &H, clock: &OnClock<R>) -> bool {
    let before = clock.readings();
    thread::sleep(rt, Duration::from_millis(WHILE));
    clock.readings().saturating_sub(before) <= FEW
}

// What a callback does: it counts that the caller waits, makes a call, and counts what that answers. One that has nothing to do lets others run.
fn begin_wait<S: Form<T, Q>, T: Drop, Q: Reads, R: Wait + Clock + Drop>(
    form: &S,
    clock: &OnClock<R>,
    stage: &Stage,
    call: &Call<'_>,
) {
    let then = call.then();
    if matches!(then.verb, "" | "joins") {
        stage.joined.fetch_add(1, Ordering::SeqCst);
        yield_now();
        return;
    }
    let is_waiting = has_waiter(form) && !is_passed(form);
    stage
        .calls
        .fetch_add(if is_waiting { 1 } else { WRONG }, Ordering::SeqCst);
    if then.verb == "late" {
        clock.set(LATE);
        return;
    }
    let answered = form.call(&then).number().unwrap_or(0);
    stage
        .calls
        .fetch_add(answered.saturating_mul(1000), Ordering::SeqCst);
}

// So many tries to share: how many are granted.
fn shared<S: Form<T, Q>, T: Drop, Q: Reads>(form: &S, count: usize) -> Reply {
    let mut granted = 0usize;
    for _try in 0..count {
        if form.call(&Call::of("try_share")).is("ok") {
            granted = granted.saturating_add(1);
        }
    }
    number(granted)
}

// Drops a pager on another thread.
fn dropped_away<H, S, T>(rt: &H, pager: &mut Pager<'_, S, T>) -> Reply
where
    H: Threads + Sync,
    S: Timed<T> + Sync,
    T: Drop + Send,
{
    let pager = mem::replace(pager, Pager::new());
    thread::join(rt, || (), move || drop(pager));
    word(ReplyWord::Dropped)
}

// Whether a shared lock can be shared more: not while there is a waiter.
fn is_passed<S: Form<T, Q>, T: Drop, Q: Reads>(form: &S) -> bool {
    form.call(&Call::of("is_shared")).is("true") && form.call(&Call::of("try_share")).is("ok")
}

// How many more could wait now, 7 at most. It takes all that is available meanwhile, and is for a time at which no other call is made.
fn room_of<S: Form<T, Q>, T: Drop, Q: Reads>(alloc: Global, form: &S) -> Result<usize, AllocError> {
    let available = form.call(&Call::of("available")).number();
    let (take, give) = match available {
        Some(count) => (Call::with("try", count), Call::with("release", count)),
        None => (Call::of("try_lock"), Call::of("release_lock")),
    };
    let taken = form.call(&take);
    let mut pagers = Vec::new(alloc);
    for _waiter in 0..WAITERS {
        let mut pager = Pager::new();
        if !form.enroll(&mut pager, &Call::asking(1)).is("true") {
            break;
        }
        pagers.push(pager)?;
    }
    let room = pagers.len();
    drop(pagers);
    if taken.is("true") || taken.is("ok") {
        form.call(&give);
    }
    Ok(room)
}

// The first row of a thread's moves that is answered otherwise.
fn moved<'t, H: Host, S: Form<T, Q> + Sync + Drop, T: Drop + Send, Q: Reads>(
    player: &mut Player<'_, H, S, T, Q>,
    moves: &[Move<'t>],
) -> Option<Failed<'t>> {
    for (at, row) in moves.iter().enumerate() {
        if let Some(answer) = player.turn(at, row) {
            let failed = Failed::unless(row, answer);
            if failed.is_some() {
                return failed;
            }
        }
        if player.stage.has_failed() {
            return None;
        }
        player.stage.ends(player.thread, at);
    }
    None
}

/// One thread's part of a story. The story's own lets the others end.
pub(crate) fn part_of<'t, 's, H: Host, S: Form<T, Q> + Sync + Drop, T: Drop + Send, Q: Reads>(
    clock: &'s OnClock<&'s H>,
    form: &'s S,
    stage: &'s Stage,
    moves: &[Move<'t>],
    thread: usize,
) -> Outcome<'t> {
    let rt = clock.rt;
    let outcome = match Tasks::new(rt) {
        Ok(tasks) => Ok(moved(
            &mut Player {
                rt,
                clock,
                form,
                stage,
                thread,
                tasks,
                pagers: Pagers::new(),
                futures: Futures::new(),
            },
            moves,
        )),
        Err(error) => Err(error),
    };
    if !matches!(outcome, Ok(None)) || stage.has_failed() {
        stage.has_failed.store(true, Ordering::SeqCst);
        let_all_go(form);
    }
    if thread == stage.others() {
        stage.begun.store(usize::MAX, Ordering::SeqCst);
    }
    outcome
}
