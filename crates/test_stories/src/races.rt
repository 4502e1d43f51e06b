//! Time that is up as the grant comes: whichever is first, no permit is lost and none is made.

use crate::chaos::Tally;
use crate::forms::{Form, Reads, Span};
use std::hint::spin_loop;
use std::sync::atomic::Ordering;
use std::time::Duration;
use test_language::language::Call;

// After how many readings of its clock at most the time of a wait is up, one a microsecond.
const READINGS: usize = 40;

// How long a release waits at most, in turns.
const RESTS: u64 = 64;

/// Asks for a permit with times of all lengths, and gives back what it was granted; how often it was, or was late.
pub(crate) fn in_time<S: Form<T, Q>, T: Drop, Q: Reads>(
    form: &S,
    tally: &Tally,
    rounds: usize,
) -> usize {
    let mut answered = 0usize;
    for round in 0..rounds {
        let span = Span::For(Duration::from_micros((round % READINGS) as u64));
        let answer = form.call_in_time(&Call::of("acquire_for"), span);
        let is_given_back = answer.is("ok") && form.call(&Call::of("release")).is("true");
        if is_given_back || answer.is("timed_out") {
            answered = answered.saturating_add(1);
        }
    }
    tally.has_raced.store(true, Ordering::SeqCst);
    answered
}

/// Takes the permit and gives it back, with rests of all lengths, until the other has ended; how often it couldn't give it back.
pub(crate) fn beside<S: Form<T, Q>, T: Drop, Q: Reads>(form: &S, tally: &Tally) -> usize {
    let mut refused = 0usize;
    for round in 0..u64::MAX {
        if tally.has_raced.load(Ordering::SeqCst) {
            break;
        }
        if form.call(&Call::of("try")).is("true") {
            for _turn in 0..round.saturating_mul(7) % RESTS {
                spin_loop();
            }
            let is_back = form.call(&Call::of("release")).is("true");
            refused = refused.saturating_add(usize::from(!is_back));
        }
    }
    refused
}
