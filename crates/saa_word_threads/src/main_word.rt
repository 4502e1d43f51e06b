//! What a call that goes straight reads off the main word, and what it writes there.
//!
//! Held to `specs/Straight.antt`: which words grant an ask by one exchange, which make it join the
//! waiters, and which let something be given back by one.

ghost use Rattle.std.specs.Prelude.{◌≡◌, ◌==◌, ◌||◌, false, not};
ghost use Rattle.saa_word_threads.specs.Pending.{needs};
ghost use Rattle.saa_word_threads.specs.Straight.{grants_at, joins_at, lowers_to, takes_flag};

use crate::form::Form;
use saa_core_words::word::Word;
use saa_word_steps::place::Ask;

impl Form {
    // Whether a word grants an ask by an exchange: there is no waiter, it isn't poisoned, and what is asked for takes something and fits.
    pub(crate) fn grants(&self, seen: Word, ask: Ask) -> bool
        ensures { result ≡ grants_at (needs self.now) seen ask }
    {
        !seen.is_poisoned
            && seen.tail == 0
            && self.rules.fits(seen.count, ask.request)
            && self.rules.takes(ask.request) != 0
    }

    // Whether a place that waits must join the waiters by a word: it isn't poisoned, and there is a waiter or what is asked for doesn't fit.
    pub(crate) fn must_join(&self, seen: Word, request: u16) -> bool
        ensures { result ≡ joins_at (needs self.now) seen request }
    {
        !seen.is_poisoned && (seen.tail != 0 || !self.rules.fits(seen.count, request))
    }

    // The count of a word once a request is given back by an exchange: where it isn't poisoned or shut, and so much is taken. At a shut semaphore a
    // release goes step by step.
    pub(crate) fn lowers(&self, seen: Word, request: u16) -> Option<u16>
        ensures { result ≡ lowers_to (needs self.now) seen request }
    {
        if seen.is_poisoned {
            return None;
        }
        self.rules.less(seen.count, request)
    }
}

// Whether who lowers a word holds the flag then.
pub(crate) fn takes_flag(seen: Word) -> bool
    ensures { result ≡ takes_flag seen }
{
    seen.tail != 0 && !seen.is_flagged
}

// A word with this count, and the flag set where there are waiters.
pub(crate) fn lowered(seen: Word, count: u16) -> Word
    ensures { result ≡ record { count = count; is_flagged = seen.is_flagged || not (seen.tail == 0); is_poisoned = false; tail = seen.tail } }
{
    Word {
        count,
        is_flagged: seen.is_flagged || seen.tail != 0,
        is_poisoned: false,
        tail: seen.tail,
    }
}
