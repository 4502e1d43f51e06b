//! What a thread may see of a core without its mutex, while a call looks.
//!
//! A call looks before it registers. As long as one does, whatever may let it in shows the core's main word here as it leaves the
//! mutex of a form (`Form::leave`); where no call looks that costs one load. Calls that only take or only read show nothing: one
//! that looks is misled by that to try once in vain, and shows the word itself.
//!
//! Nothing rests on a hint: a call that finds that it may have what it asks for tries, through the core and under the mutex.

use crate::rest::Spent;
use saa_core::primitive::Primitive;
use std::sync::atomic::{AtomicU64, Ordering};

// The parts of the counts: how many calls look, in the low bits, and above them how often those looked that no longer look. They stand
// in one number, so that the end of a look changes both at once. The upper part wraps around.
const LOOKER: u64 = 1;

const LOOK: u64 = 1 << 24;

// The parts of the rests: how many spin hints were given, in the low bits, and above them how often calls yielded. Both wrap around.
const YIELD: u64 = 1 << 40;

// The parts of what calls spent before they blocked at the mutex: how many spin hints they gave, in the low bits, above them how often they
// tried, and above that how often they yielded. All wrap around.
const TRY: u64 = 1 << 32;

const TRIER_YIELD: u64 = 1 << 48;

/// The main word of a core as it was when the mutex was left last, and how many calls look at it.
#[derive(Drop)]
pub(crate) struct Hint {
    word: AtomicU64,
    counts: AtomicU64,
    rests: AtomicU64,
    blocked: AtomicU64,
}

impl Hint {
    /// A hint that no call looks at.
    pub(crate) fn new() -> Self {
        Hint {
            word: AtomicU64::new(0),
            counts: AtomicU64::new(0),
            rests: AtomicU64::new(0),
            blocked: AtomicU64::new(0),
        }
    }

    /// How many calls look.
    pub(crate) fn lookers(&self) -> u64 {
        self.counts.load(Ordering::SeqCst) % LOOK
    }

    /// How often calls looked, of those that no longer look.
    pub(crate) fn looked(&self) -> u64 {
        self.counts.load(Ordering::SeqCst) / LOOK
    }

    /// How many spin hints calls gave and how often they yielded, of those that no longer look.
    pub(crate) fn rested(&self) -> (u64, u64) {
        let rests = self.rests.load(Ordering::SeqCst);
        (rests % YIELD, rests / YIELD)
    }

    /// How often calls tried for a mutex that others had, how many spin hints they gave and how often they yielded, of those that then went
    /// on to block there.
    pub(crate) fn blocked(&self) -> (u64, u64, u64) {
        let blocked = self.blocked.load(Ordering::SeqCst);
        let tries = blocked % TRIER_YIELD / TRY;
        (tries, blocked % TRY, blocked / TRIER_YIELD)
    }

    /// Tells what a call spent that is about to block at the mutex. It is told before, so that a test can hold the mutex until then.
    pub(crate) fn block(&self, spent: &Spent) {
        let (tries, spins, yields) = spent.counts();
        let tried = tries.wrapping_mul(TRY);
        let yielded = yields.wrapping_mul(TRIER_YIELD);
        let sum = spins.wrapping_add(tried).wrapping_add(yielded);
        self.blocked.fetch_add(sum, Ordering::SeqCst);
    }

    /// Whether a call looks.
    #[inline(always)]
    pub(crate) fn is_watched(&self) -> bool {
        self.lookers() != 0
    }

    /// The word that was shown last.
    pub(crate) fn word(&self) -> u64 {
        self.word.load(Ordering::SeqCst)
    }

    /// Shows the main word of a core, which only the owner of the mutex can hand in: of two words that were shown without it the older
    /// one could stay.
    #[inline(always)]
    pub(crate) fn show(&self, core: &impl Primitive) {
        self.word.store(core.word(), Ordering::SeqCst);
    }

    /// Begins to look. The first call to look finds what was shown to others before it, so it has to enter the mutex once itself.
    pub(crate) fn arrive(&self) -> bool {
        self.counts.fetch_add(LOOKER, Ordering::SeqCst) % LOOK == 0
    }

    /// Ends to look, after so many looks and rests. A call that was let in at its first look has no rest to tell.
    pub(crate) fn depart(&self, spent: &Spent) {
        let (looks, spins, yields) = spent.counts();
        let rests = spins.wrapping_add(yields.wrapping_mul(YIELD));
        if rests != 0 {
            self.rests.fetch_add(rests, Ordering::SeqCst);
        }
        let ended = looks.wrapping_mul(LOOK);
        self.counts
            .fetch_add(ended.wrapping_sub(LOOKER), Ordering::SeqCst);
    }
}
