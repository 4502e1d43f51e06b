//! Words of stories for places: `p1 acquire 5` is a call of the place 1, `crowd 24 poll` one of each of the places 1 to 24, and a move that names no place
//! is the story's own, by a visitor that comes for it.
//!
//! Each place has a thread of its own. The next move is made once the call has ended, or sleeps, is held, or yields on and on since it is blocked; then
//! `p1 ends` waits for its end, and the call's row says what it answers.
//!
//! | Words | Mean |
//! |---|---|
//! | `semaphore 63 2`, `lock 2`, `rwlock` | a semaphore of which so many permits are withheld, with places; a lock; a reader-writer lock with two places, of the value 5 |
//! | `register 5`, `register shared`, `register_each` | a registration, that of the lock in a mode, or in the mode whose turn it is; a crowd makes them one after another |
//! | `watched_release 5`, `watched_acquire`, .. | the call beside a watch, with the spin policy that `spins 12 3` (looks and yields) sets |
//! | `poll_for 1h`, `poll_now`, `poll_within 2002`, `poll_task a` | a poll by a duration, until now, with a limit that is up once it was asked so often, and for a task |
//! | `p1 looks`, `rests`, `parks`, .. | how often a watched call of the place did so ([`crate::tally`]); `in_order`: rests grew, and came before yields |
//! | `p1 marked`, `p1 deferred`, `crowd 24 ended` | its mark is set; it was blocked, and yielded each time, 100 times at least; how many have ended their calls |
//! | `at_looks 3 pass`, `at_takes 1 try_lock` | at that moment of a watched call, the so manieth or each (0), a visitor makes a call; `refused` says how often in vain |
//! | `at_publishes 1 hold`, `go` | the first to publish is held there; it goes on |
//! | `faults` | how often something was otherwise at a moment than it has to be, or at a turn inside the lock |
//! | `crowd 4 turns 2000 permits` | turns of a kind ([`crate::turns`]): how many were right |
//! | `in_turn 24 release 1` | makes the call so often, of which each answers so many of the crowd: how often these ended, and no others |
//! | `p0 keep_write 6`, `p1 holds` | takes a guard, writes 6, keeps it until `go`, and answers the value that it found; waits until it is kept |
//! | `main`, `line_word 1`, `answer_word 1`, `value` | words and the value at the end, once all places have left, or are dropped (`stay`) |

use crate::tally::WORDS;
use test_language::language::{Call, Subject};

/// The places that a move names: the first, and how many.
pub fn places_of(call: &Call<'_>) -> (usize, usize) {
    if call.subject == Subject::Crowd {
        return (1, call.crowd);
    }
    let number = call.verb.strip_prefix('p').unwrap_or("");
    match number.parse::<usize>() {
        Ok(place) => (place, 1),
        Err(_other) => (0, 0),
    }
}

/// What a move says of the places that it names.
pub fn call_of<'t>(call: &Call<'t>) -> Call<'t> {
    if call.subject == Subject::Crowd || places_of(call).1 == 0 {
        return *call;
    }
    let mut of_place = call.then();
    of_place.mode = call.mode;
    of_place.time = call.time;
    of_place.task = call.task;
    of_place
}

/// Whether a place makes the call of this name: all but what is read of it.
pub fn is_made(verb: &str) -> bool {
    let is_read = matches!(
        verb,
        "ends" | "ended" | "marked" | "deferred" | "in_order" | "holds"
    );
    !is_read && !WORDS.split(' ').any(|word| word == verb)
}

/// Whether a move is no call, but says what a story is like, or its end.
pub fn is_setting(verb: &str) -> bool {
    verb.starts_with("at_")
        || matches!(
            verb,
            "spins" | "stay" | "main" | "line_word" | "answer_word" | "value"
        )
}
