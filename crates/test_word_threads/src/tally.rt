//! Counts of the moments and the pauses of a call, by the words of stories.

use saa_word_threads::testing::{Made, Moment, Pause};
use std::alloc::{AllocError, Global};
use std::sync::atomic::{AtomicU64, Ordering};

/// What is counted of a place that asks: its looks, the turns of its rests, its yields, and how often it was about to take what it asked for; of one that
/// waits: its looks for its answer, its spins and yields after these, and how often it was about to park and came back; of one whose step was blocked, how
/// often, and its yields after that; and of one that answers: how often it was about to publish, to write an answer, had written one, and was about to wake a
/// place; and how often one that polls was about to leave its waker, and had left it.
pub const WORDS: &str =
    "looks rests yields takes answer_looks answer_spins answer_yields parks backs blocks defers publishes writes answers wakes keeps polls";

/// The word of a moment.
pub fn word_of(moment: Moment) -> &'static str {
    match moment {
        Moment::Looks => "looks",
        Moment::Takes => "takes",
        Moment::Publishes => "publishes",
        Moment::IsBlocked => "blocks",
        Moment::LooksForAnswer => "answer_looks",
        Moment::Parks => "parks",
        Moment::IsBack => "backs",
        Moment::Keeps => "keeps",
        Moment::Polls => "polls",
        Moment::Writes(_) => "writes",
        Moment::Answers(_) => "answers",
        Moment::Wakes(_) => "wakes",
    }
}

// The word of a pause, and as how much it counts.
fn counted_as(pause: Pause) -> (&'static str, u64) {
    match pause {
        Pause::Rests(turns) => ("rests", u64::from(turns)),
        Pause::Yields => ("yields", 1),
        Pause::Defers => ("defers", 1),
        Pause::SpinsForAnswer => ("answer_spins", 1),
        Pause::YieldsForAnswer => ("answer_yields", 1),
    }
}

/// How often each word of this came, and whether pauses came in order.
#[derive(Drop)]
pub struct Tally {
    counts: Vec<AtomicU64>,
    last_rest: AtomicU64,
    disorders: AtomicU64,
}

impl Tally {
    /// Nothing was counted yet.
    pub fn new(alloc: Global) -> Result<Self, AllocError> {
        let mut counts = Vec::new(alloc);
        for _word in WORDS.split(' ') {
            counts.push(AtomicU64::new(0))?;
        }
        Ok(Tally {
            counts,
            last_rest: AtomicU64::new(0),
            disorders: AtomicU64::new(0),
        })
    }

    // The count of a word, if it has one.
    fn count(&self, word: &str) -> Option<&AtomicU64> {
        let at = WORDS.split(' ').position(|name| name == word)?;
        self.counts.get(at)
    }

    /// How often a word came; none where it isn't counted.
    pub fn read(&self, word: &str) -> Option<u64> {
        let count = self.count(word)?;
        Some(count.load(Ordering::SeqCst))
    }

    fn add(&self, word: &str, more: u64) {
        if let Some(count) = self.count(word) {
            count.fetch_add(more, Ordering::SeqCst);
        }
    }

    /// Counts a moment.
    pub fn at(&self, moment: Moment) {
        self.add(word_of(moment), 1);
    }

    /// Counts a pause.
    pub fn paused(&self, made: &Made) {
        let pause = made.pause();
        if self.is_late(pause) {
            self.disorders.fetch_add(1, Ordering::SeqCst);
        }
        let (word, more) = counted_as(pause);
        self.add(word, more);
    }

    // Whether a pause comes too late: a rest after a longer one, or a rest or a spin after a yield.
    fn is_late(&self, pause: Pause) -> bool {
        match pause {
            Pause::Rests(turns) => {
                let before = self.last_rest.swap(u64::from(turns), Ordering::SeqCst);
                before > u64::from(turns) || self.read("yields") != Some(0)
            }
            Pause::SpinsForAnswer => self.read("answer_yields") != Some(0),
            Pause::Yields | Pause::Defers | Pause::YieldsForAnswer => false,
        }
    }

    /// Whether no rest was shorter than the one before, and none and no spin came after a yield.
    pub fn is_in_order(&self) -> bool {
        self.disorders.load(Ordering::SeqCst) == 0
    }
}
