//! Order by a shared clock: a call that has joined the queue is passed by no later call.
//!
//! Threads take turns, by pagers and by calls that block. A call that began after another one was registered has its turn after that one, whatever the spin
//! policy: a call that spins is in no queue, and overtakes nobody who is.

use crate::forms::{Form, Reads};
use saa_core_waits::Pager;
use std::sync::atomic::{AtomicUsize, Ordering};
use std::thread::yield_now;
use test_language::language::Call;
use test_language::reply::{Replies, Reply, ReplyWord, word};

/// The clock, the latest beginning of the calls that have had their turn, and how often a turn was passed.
#[derive(Drop)]
pub(crate) struct Log {
    clock: AtomicUsize,
    latest: AtomicUsize,
    pub(crate) passed: AtomicUsize,
}

impl Log {
    pub(crate) fn new() -> Self {
        Log {
            clock: AtomicUsize::new(0),
            latest: AtomicUsize::new(0),
            passed: AtomicUsize::new(0),
        }
    }

    // The time, which goes on.
    fn now(&self) -> usize {
        self.clock.fetch_add(1, Ordering::SeqCst)
    }

    // A call that began and was registered then has its turn: it was passed if one that began later has had its own.
    fn has_turn(&self, began: usize, registered: usize) {
        if self.latest.fetch_max(began, Ordering::SeqCst) > registered {
            self.passed.fetch_add(1, Ordering::SeqCst);
        }
    }
}

/// The turns of one thread, each second one by a call that blocks, which doesn't say when it is registered: how many were had.
pub(crate) fn turns<S: Form<T, Q>, T: Drop, Q: Reads>(form: &S, log: &Log, rounds: usize) -> usize {
    let is_lock = form.call(&Call::of("available")).is("?");
    let (call, end) = if is_lock {
        ("lock", "release_lock")
    } else {
        ("acquire", "release")
    };
    let mut had = 0usize;
    for round in 0..rounds {
        let began = log.now();
        let (answer, registered) = if round.is_multiple_of(2) {
            paged(form, log)
        } else {
            (form.call(&Call::of(call)), usize::MAX)
        };
        if answer.is("true") || answer.is("ok") {
            log.has_turn(began, registered);
            had = had.saturating_add(1);
            yield_now();
            form.call(&Call::of(end));
        }
    }
    had
}

// A turn by a pager, of one permit or of the lock alone: its answer, and when it was registered.
fn paged<S: Form<T, Q>, T: Drop, Q: Reads>(form: &S, log: &Log) -> (Reply, usize) {
    let mut pager = Pager::new();
    if !form.enroll(&mut pager, &Call::asking(1)).is("true") {
        return (word(ReplyWord::Full), usize::MAX);
    }
    let registered = log.now();
    let answer = pager.poll_sync().reply();
    (answer, registered)
}
