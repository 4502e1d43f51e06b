//! The turns of a story's threads: each makes its own moves in its turn, and one whose call sleeps lets the story go on.

use crate::chaos::Tally;
use crate::forms::{Form, Reads};
use crate::stamps::Log;
use saa_core_waits::Pager;
use std::alloc::{AllocError, Global};
use std::sync::Wait;
use std::sync::atomic::{AtomicBool, AtomicUsize, Ordering};
use std::thread::{self, yield_now};
use std::time::{Clock, Duration, Instant};
use test_language::language::{Call, Move, Subject};
use test_language::reply::{Reply, ReplyWord, number, word};

// How many threads have names, ahead of the crowd; and how long one of the crowd sleeps between two looks for its turn, in microseconds.
const NAMED: usize = 2;

const GLANCE: u64 = 200;

/// How far a story is.
#[derive(Drop)]
pub(crate) struct Stage {
    pub(crate) start: Instant,
    /// How many moves may have begun, and for each other thread how many moves of its part have ended, or are another's.
    pub(crate) begun: AtomicUsize,
    ended: Vec<AtomicUsize>,
    /// How many of the crowd have said by a callback that they joined the queue.
    pub(crate) joined: AtomicUsize,
    /// What the callbacks of the story's own thread have counted.
    pub(crate) calls: AtomicUsize,
    pub(crate) tally: Tally,
    pub(crate) log: Log,
    /// Then nothing more is waited for.
    pub(crate) has_failed: AtomicBool,
}

impl Stage {
    /// The stage of these moves, which begin now.
    pub(crate) fn new(
        alloc: Global,
        start: Instant,
        moves: &[Move<'_>],
    ) -> Result<Self, AllocError> {
        let mut ended = Vec::new(alloc);
        for _thread in 0..others_of(moves) {
            ended.push(AtomicUsize::new(0))?;
        }
        Ok(Stage {
            start,
            begun: AtomicUsize::new(0),
            ended,
            joined: AtomicUsize::new(0),
            calls: AtomicUsize::new(0),
            tally: Tally::new(),
            log: Log::new(),
            has_failed: AtomicBool::new(false),
        })
    }

    /// How many other threads make moves.
    pub(crate) fn others(&self) -> usize {
        self.ended.len()
    }

    // Whether a thread is done with its moves up to this one.
    fn has_ended(&self, thread: usize, at: usize) -> bool {
        match self.ended.get(thread) {
            Some(ended) => ended.load(Ordering::SeqCst) > at,
            None => true,
        }
    }

    // How many of the threads that make a move are done with those up to this one.
    fn ended_of(&self, call: &Call<'_>, at: usize) -> usize {
        let mut count = 0usize;
        for thread in 0..self.others() {
            if is_made_by(call, thread) && self.has_ended(thread, at) {
                count = count.saturating_add(1);
            }
        }
        count
    }

    // How many threads are in a call.
    fn busy(&self, at: usize) -> usize {
        let mut count = 0usize;
        for thread in 0..self.others() {
            if !self.has_ended(thread, at) {
                count = count.saturating_add(1);
            }
        }
        count
    }

    /// Whether a row of another thread was answered otherwise.
    pub(crate) fn has_failed(&self) -> bool {
        self.has_failed.load(Ordering::SeqCst)
    }

    /// This thread is done with its moves up to this one.
    pub(crate) fn ends(&self, thread: usize, at: usize) {
        if let Some(ended) = self.ended.get(thread) {
            ended.store(at.saturating_add(1), Ordering::SeqCst);
        }
    }

    /// Gives threads their turn: the story goes on once that call has ended, or sleeps. A wait for its end is answered, and so is how many have ended, or
    /// have joined the queue.
    pub(crate) fn turn_of<S: Form<T, Q>, T: Drop, Q: Reads>(
        &self,
        rt: &impl Wait,
        form: &S,
        at: usize,
        call: &Call<'_>,
    ) -> Option<Reply> {
        match call.verb {
            "ended" => return Some(number(self.ended_of(call, at.saturating_sub(1)))),
            "joined" => return Some(number(self.joined.load(Ordering::SeqCst))),
            _ => {}
        }
        self.begun.store(at.saturating_add(1), Ordering::SeqCst);
        let makers = makers_of(call);
        let is_end = call.verb == "ends";
        for _ in rt.forever() {
            let have_ended = self.ended_of(call, at) == makers;
            let is_away = !is_end && self.is_away(form, at, call, makers);
            if have_ended || is_away || self.has_failed() {
                return is_end.then_some(word(ReplyWord::Done));
            }
            yield_now();
        }
        unreachable!()
    }

    // Whether these threads are done with their moves before this one, and the call looks, has joined the queue or sleeps, as its row says.
    fn is_away<S: Form<T, Q>, T: Drop, Q: Reads>(
        &self,
        form: &S,
        at: usize,
        call: &Call<'_>,
        makers: usize,
    ) -> bool {
        if at != 0 && self.ended_of(call, at.saturating_sub(1)) != makers {
            return false;
        }
        match call.then().verb {
            "begins" => true,
            "holds" => form.call(&Call::of("available")).number() == Some(0),
            "looks" => form.call(&Call::of("lookers")).number() != Some(0),
            "joins" if call.subject == Subject::Crowd => {
                self.joined.load(Ordering::SeqCst) == makers
            }
            "joins" => form.call(&Call::with("try", 0)).is("false"),
            _ => has_joined(form, self.busy(at)),
        }
    }

    /// Makes a call so often, each of which answers one of the crowd: how often that was so, and no other was woken or notified.
    pub(crate) fn in_turn<S: Form<T, Q>, T: Drop, Q: Reads>(
        &self,
        rt: &impl Wait,
        form: &S,
        at: usize,
        call: &Call<'_>,
    ) -> Reply {
        let crowd = call.number().unwrap_or(0);
        let counted = |verb| form.call(&Call::of(verb)).number();
        let mut right = 0usize;
        for answered in 1..=crowd {
            form.call(&call.then());
            let asleep = crowd.saturating_sub(answered);
            self.await_busy(rt, at, asleep);
            let is_right = self.busy(at) == asleep
                && counted("notified") == Some(answered)
                && (call.verb == "in_turn_awake" || counted("parked") == Some(asleep));
            right = right.saturating_add(usize::from(is_right));
        }
        number(right)
    }

    // Waits until no more threads than so many are in a call.
    fn await_busy(&self, rt: &impl Wait, at: usize, most: usize) {
        for _ in rt.forever() {
            if self.busy(at) <= most || self.has_failed() {
                return;
            }
            yield_now();
        }
    }

    /// Waits for the turn of a move; whether it comes. A crowd leaves the processors to others meanwhile.
    pub(crate) fn awaits_turn(&self, rt: &(impl Wait + Clock), thread: usize, at: usize) -> bool {
        for _ in rt.forever() {
            if self.has_failed() {
                return false;
            }
            if self.begun.load(Ordering::SeqCst) > at {
                return true;
            }
            if thread < NAMED {
                yield_now();
            } else {
                thread::sleep(rt, Duration::from_micros(GLANCE));
            }
        }
        unreachable!()
    }
}

/// Whether there is a waiter: then a semaphore doesn't even grant 0 permits, and a lock that is taken, of which one place was left, has none. A gate and a
/// barrier don't say.
pub(crate) fn has_waiter<S: Form<T, Q>, T: Drop, Q: Reads>(form: &S) -> bool {
    if form.call(&Call::of("is_open")).is("?") && form.call(&Call::of("is_free")).is("?") {
        return true;
    }
    let answer = form.call(&Call::with("try", 0));
    if !answer.is("?") {
        return answer.is("false");
    }
    let mut pager = Pager::new();
    !form.enroll(&mut pager, &Call::of("reg")).is("true")
}

// Whether so many calls sleep, or one waits at a form that doesn't say how many sleep.
fn has_joined<S: Form<T, Q>, T: Drop, Q: Reads>(form: &S, calls: usize) -> bool {
    match form.call(&Call::of("parked")).number() {
        Some(parked) => parked >= calls,
        None => has_waiter(form),
    }
}

/// Gives all that waiters can want, where a story went wrong.
pub(crate) fn let_all_go<S: Form<T, Q>, T: Drop, Q: Reads>(form: &S) {
    for verb in ["release_lock", "poison_lock", "open"] {
        form.call(&Call::of(verb));
    }
    for _permit in 0..u16::MAX {
        if !form.call(&Call::of("release")).is("true") {
            break;
        }
    }
    let mut arrival = Pager::new();
    let _registered = form.enroll(&mut arrival, &Call::of("reg"));
}

// How many threads make a move.
fn makers_of(call: &Call<'_>) -> usize {
    match call.subject {
        Subject::Thread(_) => 1,
        Subject::Crowd => call.crowd,
        _ => 0,
    }
}

/// Whether this thread makes a move.
pub(crate) fn is_made_by(call: &Call<'_>, thread: usize) -> bool {
    match call.subject {
        Subject::Thread(maker) => thread == maker,
        Subject::Crowd => thread >= NAMED && thread.saturating_sub(NAMED) < call.crowd,
        _ => false,
    }
}

// How many other threads make these moves.
fn others_of(moves: &[Move<'_>]) -> usize {
    let mut others = 0usize;
    for row in moves {
        others = others.max(match row.call.subject {
            Subject::Thread(_) => NAMED,
            Subject::Crowd => NAMED.saturating_add(row.call.crowd),
            _ => 0,
        });
    }
    others
}
