//! What a pool and a queue answer to the words of a story, and the ways to wait.
//!
//! `check_out`, `push` and `pop` are said in each way: `try_pop`, `pop`, `pop_for 1h`, `pop_until 1h`, `pop_async`; and `pop_by 4` in the way of that
//! turn. In place of `check_out`, whose guard puts the value back, `keep` keeps it, `replace` has one ten times as large, and `shrink` none. A refusal
//! that doesn't say why as it must answers `another text`, and a refused push that didn't hand its item back `?`.

use futures::executor::block_on;
use futures::task::Poll;
use futures::test::MockTask;
use saa_sync_pool::{CheckingOut, Checkout, Pool, Refused};
use saa_sync_queue::{PopError, Popping, PushError, Pushing, Queue};
use std::alloc::{AllocGlobal, Global};
use std::fmt::{Debug, Display};
use std::io;
use std::random::RandomSource;
use std::sync::Wait;
use std::time::{Clock, Duration, Instant};
use test_language::language::Call;
use test_language::reply::{Replies, Reply, ReplyWord, number, unknown, word};

/// A runtime on which stories are played; a crowd needs `Threads` and `Sync` of it, too.
pub(crate) trait Host: Wait + Clock + RandomSource + AllocGlobal {}

impl<H: Wait + Clock + RandomSource + AllocGlobal> Host for H {}

// The ending of a verb for each way of waiting: `pop_for`, `pop_until`, `pop_async`, and none for a wait without a limit. `try` is in front: `try_pop`.
static WAYS: [&str; 5] = ["try", "_for", "_until", "_async", ""];

/// What is tried: in which way, what is done, with which item, and for how long a timed call waits.
#[derive(Clone, Copy, Debug)]
pub(crate) struct Attempt<'t> {
    pub(crate) way: &'static str,
    pub(crate) deed: &'t str,
    pub(crate) item: usize,
    pub(crate) long: Duration,
}

impl<'t> Attempt<'t> {
    /// What a call tries.
    pub(crate) fn of(call: &Call<'t>) -> Self {
        let (way, deed) = way_of(call);
        Attempt {
            way,
            deed,
            item: call.pager(),
            long: Duration::from_nanos(call.time.nanos()),
        }
    }

    /// The same with this item, in the way of this turn.
    pub(crate) fn in_turn(self, turn: usize, item: usize) -> Self {
        Attempt {
            way: way_in(turn),
            item,
            ..self
        }
    }
}

// The way of this turn.
fn way_in(turn: usize) -> &'static str {
    *WAYS.get(turn % 5).unwrap_or(&"")
}

// In which way a verb is said, and what is done.
fn way_of<'t>(call: &Call<'t>) -> (&'static str, &'t str) {
    if let Some(deed) = call.verb.strip_prefix("try_") {
        return ("try", deed);
    }
    if let Some(deed) = call.verb.strip_suffix("_by") {
        return (way_in(call.pager()), deed);
    }
    for way in &WAYS {
        if let Some(deed) = call.verb.strip_suffix(*way) {
            return (*way, deed);
        }
    }
    ("", call.verb)
}

/// A pool or a queue, by reference, whose futures are these.
pub(crate) trait Place<H, F>: Copy {
    /// Makes a call that may wait. An error is the clock's, or the executor's.
    fn attempt(self, rt: &H, attempt: &Attempt<'_>) -> io::Result<Reply>;

    /// Makes a call that doesn't wait, or one that may.
    fn call(self, rt: &H, call: &Call<'_>) -> Reply;

    /// A future.
    fn begin(self, call: &Call<'_>) -> F;

    /// What one poll of a future by a task answers.
    fn polled(self, alloc: Global, future: &mut F, task: &MockTask) -> Reply;

    /// Ends a future: the item that it hands back, or none.
    fn ended(self, future: F) -> Reply;
}

// The instant at which the time of a call is up.
fn end<H: Clock>(rt: &H, long: Duration) -> io::Result<Instant> {
    let now = Instant::now(rt)?;
    Ok(now.checked_add(long).unwrap_or(now))
}

/// What is checked out of a pool.
pub(crate) fn checked_out<'p, 'r, H: Host, const MAX: usize>(
    rt: &H,
    pool: &'p Pool<'r, H, usize, MAX>,
    attempt: &Attempt<'_>,
) -> io::Result<Result<Checkout<'p, 'r, H, usize, MAX>, Refused>> {
    Ok(match attempt.way {
        "try" => pool.try_check_out(),
        "_for" => pool.check_out_for(attempt.long),
        "_until" => pool.check_out_until(end(rt, attempt.long)?),
        "_async" => block_on(rt, pool.check_out_async())?,
        _ => pool.check_out(),
    })
}

// What a refusal of a pool, a push or a pop answers, by its name, if it says why.
fn refused<E: Debug + Display>(alloc: Global, of: &str, why: &E) -> Reply {
    let Ok(text) = format!(in alloc; "{why:?}: {why}") else {
        return unknown();
    };
    let (name, said) = text.as_str().split_once(": ").unwrap_or(("", ""));
    let (name, _item) = name.split_once('(').unwrap_or((name, ""));
    word(match (of, name, said) {
        ("pool", "Closed", "the pool is closed") => ReplyWord::Closed,
        ("push", "Closed", "the queue is closed") => ReplyWord::Closed,
        ("pop", "Closed", "the queue is closed, and all items were taken") => ReplyWord::Closed,
        ("pool", "WouldWait", "no value is in, and the caller doesn't wait") =>
            ReplyWord::WouldBlock,
        ("push", "WouldWait", "there is no place, and the caller doesn't wait") =>
            ReplyWord::WouldBlock,
        ("pop", "WouldWait", "there is no item, and the caller doesn't wait") =>
            ReplyWord::WouldBlock,
        (_, "TooLate", "the caller waited for as long as it would") => ReplyWord::TimedOut,
        (_, "Full", "it would have to wait, and every slot for waiters is held") => ReplyWord::Full,
        _ => ReplyWord::AnotherText,
    })
}

// What is done with a value that is checked out, if it is: its number is answered, or how many are left.
fn done<H: Wait, const MAX: usize>(
    alloc: Global,
    checked_out: Result<Checkout<'_, '_, H, usize, MAX>, Refused>,
    deed: &str,
) -> Reply {
    let checkout = match checked_out {
        Ok(checkout) => checkout,
        Err(why) => return refused(alloc, "pool", &why),
    };
    match deed {
        "keep" => number(checkout.keep()),
        "replace" => match checkout.replace(|value: usize| -> Result<usize, ()> {
            Ok(value.wrapping_mul(10))
        }) {
            Ok(checkout) => number(*checkout),
            Err(_shrunk) => unknown(),
        },
        "shrink" => match checkout.replace(|value: usize| -> Result<usize, usize> { Err(value) }) {
            Ok(_checkout) => unknown(),
            Err(shrunk) => number(shrunk.left),
        },
        _ => number(*checkout),
    }
}

// The values that are drained, as the digits of a number, the oldest first; nothing without memory.
fn drained<H: Wait, const MAX: usize>(
    alloc: Global,
    pool: &Pool<'_, H, usize, MAX>,
) -> Option<usize> {
    let mut digits = 0usize;
    for value in pool.drain(alloc).ok()? {
        digits = digits.wrapping_mul(10).wrapping_add(value);
    }
    Some(digits)
}

type AtPool<'p, 'r, H, const MAX: usize> = CheckingOut<'p, 'r, H, usize, MAX>;

impl<'p, 'r, H: Host, const MAX: usize> Place<H, AtPool<'p, 'r, H, MAX>>
    for &'p Pool<'r, H, usize, MAX> {
    fn attempt(self, rt: &H, attempt: &Attempt<'_>) -> io::Result<Reply> {
        let checked_out = checked_out(rt, self, attempt)?;
        Ok(done(rt.alloc(), checked_out, attempt.deed))
    }

    fn call(self, rt: &H, call: &Call<'_>) -> Reply {
        let counts = self.counts();
        match call.verb {
            "add" => self.add(call.pager()).is_ok().reply(),
            "give_back" => self.give_back(call.pager()).is_ok().reply(),
            "close" => self.close().reply(),
            "is_closed" => self.is_closed().reply(),
            "drain" => drained(rt.alloc(), self).map_or(unknown(), number),
            "inside" => number(counts.inside),
            "out" => number(self.out()),
            "values" => number(counts.values()),
            "kept" => number(counts.kept),
            "waiting" => number(counts.waiting),
            "served" => number(counts.served as usize),
            "timed_out" => number(counts.timed_out as usize),
            _ => self.attempt(rt, &Attempt::of(call)).unwrap_or(unknown()),
        }
    }

    fn begin(self, _call: &Call<'_>) -> AtPool<'p, 'r, H, MAX> {
        self.check_out_async()
    }

    fn polled(self, alloc: Global, future: &mut AtPool<'p, 'r, H, MAX>, task: &MockTask) -> Reply {
        match task.poll(future) {
            Poll::Ready(checked_out) => done(alloc, checked_out, ""),
            Poll::Pending => word(ReplyWord::Pending),
        }
    }

    fn ended(self, _future: AtPool<'p, 'r, H, MAX>) -> Reply {
        word(ReplyWord::None)
    }
}

// What a push of this item answers, which hands it back if it is refused.
fn push_reply(alloc: Global, pushed: Result<(), PushError<usize>>, item: usize) -> Reply {
    let Err(why) = pushed else {
        return word(ReplyWord::Ok);
    };
    let answered = refused(alloc, "push", &why);
    if why.into_item() == item {
        answered
    } else {
        unknown()
    }
}

// What a pop answers.
fn pop_reply(alloc: Global, popped: Result<usize, PopError>) -> Reply {
    match popped {
        Ok(item) => number(item),
        Err(why) => refused(alloc, "pop", &why),
    }
}

/// A future of a push with its item, or of a pop.
#[derive(Drop)]
pub(crate) enum Trading<I, O> {
    Push(usize, I),
    Pop(O),
}

impl<I, O> Trading<I, O> {
    // The item of a push.
    fn item(&self) -> usize {
        match self {
            Trading::Push(item, _push) => *item,
            Trading::Pop(_pop) => 0,
        }
    }
}

type AtQueue<'q, 'r, H, const MAX: usize> = Trading<
    Pushing<'q, &'r H, usize, MAX>,
    Popping<'q, &'r H, usize, MAX>,
>;

impl<'q, 'r, H: Host, const MAX: usize> Place<H, AtQueue<'q, 'r, H, MAX>>
    for &'q Queue<&'r H, usize, MAX> {
    fn attempt(self, rt: &H, attempt: &Attempt<'_>) -> io::Result<Reply> {
        let (item, long) = (attempt.item, attempt.long);
        if attempt.deed == "push" {
            let pushed = match attempt.way {
                "try" => self.try_push(item),
                "_for" => self.push_for(item, long),
                "_until" => self.push_until(item, end(rt, long)?),
                "_async" => block_on(rt, self.push_async(item))?,
                _ => self.push(item),
            };
            return Ok(push_reply(rt.alloc(), pushed, item));
        }
        let popped = match attempt.way {
            "try" => self.try_pop(),
            "_for" => self.pop_for(long),
            "_until" => self.pop_until(end(rt, long)?),
            "_async" => block_on(rt, self.pop_async())?,
            _ => self.pop(),
        };
        Ok(pop_reply(rt.alloc(), popped))
    }

    fn call(self, rt: &H, call: &Call<'_>) -> Reply {
        let (producers, consumers) = (self.waiting_producers(), self.waiting_consumers());
        match call.verb {
            "close" => self.close().reply(),
            "is_closed" => self.is_closed().reply(),
            "len" => number(self.len()),
            "is_empty" => self.is_empty().reply(),
            "producers" => number(producers),
            "consumers" => number(consumers),
            "waiting" => number(producers.saturating_add(consumers)),
            _ => self.attempt(rt, &Attempt::of(call)).unwrap_or(unknown()),
        }
    }

    fn begin(self, call: &Call<'_>) -> AtQueue<'q, 'r, H, MAX> {
        match call.verb {
            "push" => Trading::Push(call.pager(), self.push_async(call.pager())),
            _ => Trading::Pop(self.pop_async()),
        }
    }

    fn polled(self, alloc: Global, future: &mut AtQueue<'q, 'r, H, MAX>, task: &MockTask) -> Reply {
        let item = future.item();
        match future {
            Trading::Push(_item, push) => match task.poll(push) {
                Poll::Ready(pushed) => push_reply(alloc, pushed, item),
                Poll::Pending => word(ReplyWord::Pending),
            },
            Trading::Pop(pop) => match task.poll(pop) {
                Poll::Ready(popped) => pop_reply(alloc, popped),
                Poll::Pending => word(ReplyWord::Pending),
            },
        }
    }

    fn ended(self, future: AtQueue<'q, 'r, H, MAX>) -> Reply {
        match future {
            Trading::Push(_item, push) => push.into_item().map_or(word(ReplyWord::None), number),
            Trading::Pop(_pop) => word(ReplyWord::None),
        }
    }
}
