//! Chaos: rounds in which threads take in every way, go in, and give back, while pagers are dropped, unanswered and granted.
//!
//! Each round ends by itself. Never more is out than there is; that all is back in the end, and each place free again, is in the stories' rows.

use crate::forms::{Caller, Form, Reads, Span};
use crate::parts::blocked;
use saa_core_spec::polling::How;
use saa_core_waits::Pager;
use std::alloc::AllocGlobal;
use std::random::RandomSource;
use std::sync::Wait;
use std::sync::atomic::{AtomicBool, AtomicUsize, Ordering};
use std::thread::yield_now;
use std::time::{Clock, Duration, Instant};
use test_language::cores::asked_by;
use test_language::language::{Call, moves_of};
use test_language::reply::{Replies, Reply, ReplyWord, word};

// What is asked for: few, many, and almost all permits, of which most have to wait; the lock alone and shared, and waits for it, which take nothing and are by
// pagers alone.
const PERMITS: &str = "acquire 7; acquire 430; acquire 999; acquire 120; acquire 572";

const TURNS: &str = "lock; share; reg 0 wait_exclusive; share; reg 0 wait_shared";

// How many there are of each.
const KINDS: usize = 5;

// How many permits there are.
const ALL: usize = 1_000;

// What an owner of a lock adds to those inside; a sharer adds one.
const ALONE: usize = 1_000_000;

// The timed call that asks for the same, and what gives back what it took.
fn others_of(call: &Call<'static>) -> (Call<'static>, Call<'static>) {
    let (in_time, end) = match call.verb {
        "acquire" => ("acquire_for", "release"),
        "lock" => ("lock_for", "release_lock"),
        _ => ("share_for", "release_share"),
    };
    let mut timed = *call;
    timed.verb = in_time;
    let mut ended = *call;
    ended.verb = end;
    (timed, ended)
}

// What a call adds to those inside, and how many they may be before it.
fn weight_of(call: &Call<'_>) -> (usize, usize) {
    match (call.verb, call.number()) {
        ("acquire", Some(count)) => (count, ALL.saturating_sub(count)),
        ("lock", _) => (ALONE, 0),
        ("share", _) => (1, ALONE - 1),
        _ => (0, 0),
    }
}

/// What threads find together.
#[derive(Drop)]
pub(crate) struct Tally {
    // How many of them are inside, by what they say.
    inside: AtomicUsize,
    /// How often two were inside that mustn't be, or more than there may be.
    pub(crate) meetings: AtomicUsize,
    /// Whether a race has ended.
    pub(crate) has_raced: AtomicBool,
}

impl Tally {
    pub(crate) fn new() -> Self {
        Tally {
            inside: AtomicUsize::new(0),
            meetings: AtomicUsize::new(0),
            has_raced: AtomicBool::new(false),
        }
    }

    // Goes in with so much, where at most so much may be inside before, and out again.
    fn passes(&self, (weight, most): (usize, usize)) {
        if self.inside.fetch_add(weight, Ordering::SeqCst) > most {
            self.meetings.fetch_add(1, Ordering::SeqCst);
        }
        yield_now();
        self.inside.fetch_sub(weight, Ordering::SeqCst);
    }
}

/// The rounds of one thread: how many ended as they must. A call is full only where the row says that there may be no room.
pub(crate) fn rounds<H, S: Form<T, Q>, T: Drop, Q: Reads>(
    rt: &H,
    form: &S,
    tally: &Tally,
    thread: usize,
    row: &Call<'_>,
) -> usize
where
    H: Wait + Clock + RandomSource + AllocGlobal,
{
    let is_lock = form.call(&Call::of("available")).is("?");
    let Ok(turns) = moves_of(rt.alloc(), if is_lock { TURNS } else { PERMITS }) else {
        return 0;
    };
    let mut right = 0usize;
    for round in 0..row.number().unwrap_or(0) {
        let way = round.wrapping_add(thread.wrapping_mul(11));
        let is_right = match turns.get(way % KINDS) {
            Some(turn) => is_right(rt, form, tally, (row, &turn.call), way),
            None => false,
        };
        right = right.saturating_add(usize::from(is_right));
    }
    right
}

// Whether a round ends as it must.
fn is_right<H, S: Form<T, Q>, T: Drop, Q: Reads>(
    rt: &H,
    form: &S,
    tally: &Tally,
    (row, turn): (&Call<'_>, &Call<'static>),
    way: usize,
) -> bool
where
    H: Wait + Clock + RandomSource + AllocGlobal,
{
    let answer = ask(rt, form, turn, way / KINDS);
    if is_granted(answer) {
        return has(form, tally, turn, way);
    }
    answer.is("timed_out") || answer.is("full") && row.verb == "chaos_full"
}

fn is_granted(answer: Reply) -> bool {
    answer.is("ok") || answer.is("true")
}

// Goes in and out with what it was granted, and gives it back; whether it could. An owner lowers its turn now and then, and goes in as a sharer too.
fn has<S: Form<T, Q>, T: Drop, Q: Reads>(
    form: &S,
    tally: &Tally,
    turn: &Call<'static>,
    way: usize,
) -> bool {
    let weight = weight_of(turn);
    if weight.0 == 0 {
        return true;
    }
    tally.passes(weight);
    if weight.0 != ALONE || way.is_multiple_of(2) {
        return is_granted(form.call(&others_of(turn).1));
    }
    let is_lowered = is_granted(form.call(&Call::of("downgrade")));
    tally.passes((1, ALONE - 1));
    is_lowered && is_granted(form.call(&Call::of("release_share")))
}

// Asks, in a way of this kind; in a wait mode by pagers alone. Each second call in time waits long enough.
fn ask<H, S: Form<T, Q>, T: Drop, Q: Reads>(
    rt: &H,
    form: &S,
    turn: &Call<'static>,
    kind: usize,
) -> Reply
where
    H: Wait + Clock + RandomSource + AllocGlobal,
{
    let long = if (kind / 8).is_multiple_of(2) {
        Duration::from_secs(50)
    } else {
        Duration::from_micros(kind as u64)
    };
    let in_time = others_of(turn).0;
    let way = if turn.verb != "reg" {
        kind % 8
    } else {
        kind % 3
    };
    match way {
        0 => page(form, turn, How::Sync),
        1 => page(form, turn, How::Try),
        2 => page(form, turn, How::Async),
        3 => form.call(turn),
        4 => form.call_in_time(&in_time, Span::For(long)),
        5 => until(rt, form, &in_time.until(), long),
        6 => form.call_with(Caller::Thread, turn, || yield_now()),
        _ => blocked(rt, form.ask(turn)),
    }
}

// Asks by a call that ends so long from now.
fn until<H: Clock, S: Form<T, Q>, T: Drop, Q: Reads>(
    rt: &H,
    form: &S,
    call: &Call<'_>,
    long: Duration,
) -> Reply {
    match Instant::now(rt) {
        Ok(now) => {
            let end = now.checked_add(long).unwrap_or(now);
            form.call_in_time(call, Span::Until(end))
        }
        Err(_no_clock) => word(ReplyWord::Unknown),
    }
}

// Asks by a pager, which waits for its answer, or is dropped after it was polled once, or wasn't: granted or not.
fn page<S: Form<T, Q>, T: Drop, Q: Reads>(form: &S, turn: &Call<'static>, how: How) -> Reply {
    let asked = match turn.verb {
        "reg" => *turn,
        _ => asked_by(turn),
    };
    let mut pager = Pager::new();
    let registered = form.enroll(&mut pager, &asked.of_pager(0, how != How::Async));
    if !registered.is("true") {
        return registered;
    }
    match how {
        How::Sync => pager.poll_sync().reply(),
        How::Try if is_granted(pager.try_poll().reply()) => word(ReplyWord::Ok),
        _ => word(ReplyWord::TimedOut),
    }
}
