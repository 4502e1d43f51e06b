//! Hints of the slots in which values rest, so that a call need not look at every slot.
//!
//! A leaf has a bit for each of 64 slots, set after a value has been put there, and cleared by the call that goes to take it. A summary has a bit for
//! each of 64 leaves, set while the leaf has any. Nothing is proved of what the bits say, and a call that goes by them is never misled for long: the
//! word of a slot decides what it finds there.

ghost use Rattle.std.specs.Prelude.{◌≡◌, ◌+◌, ◌*◌, ◌/◌, ◌<◌, ◌≤◌, IfOk, IfSome, vec_len};

use std::alloc::{AllocError, Global};
use std::sync::atomic::AtomicU64;
use std::sync::atomic::Ordering::SeqCst;

// How many bits a word has.
const BITS: usize = 64;

/// A bit for each of so many slots.
#[derive(Drop)]
pub(crate) struct Hints {
    leaves: Vec<AtomicU64>,
    summaries: Vec<AtomicU64>,
    slots: u16,
    ghost wide: { (slots ≤ vec_len leaves * 64) × (vec_len leaves ≤ vec_len summaries * 64) },
    ghost bounded: { (vec_len leaves < 1025) × (vec_len summaries < 17) },
}

impl Hints {
    /// Hints of so many slots, in each of which a value rests. Costs O(slots).
    pub(crate) fn new(alloc: Global, slots: u16) -> Result<Hints, AllocError>
        ensures { IfOk result (λ hints. hints.slots ≡ slots) }
    {
        let leaves = all_set(alloc, usize::from(slots))?;
        let summaries = all_set(alloc, leaves.len())?;
        Ok(Hints {
            leaves,
            summaries,
            slots,
        })
    }

    /// A slot in which a value rests, as its bit says, which is cleared. `None` if no bit was found at a glance, or another call cleared it first.
    ///
    /// Costs O(1): it looks at 16 summaries at most, and at one leaf.
    pub(crate) fn claim(&self) -> Option<u16>
        ensures { IfSome result (λ slot. slot < self.now.slots) }
    {
        let leaf = self.find_leaf()?;
        let word = self.leaves[leaf].load(SeqCst);
        if word == 0 {
            self.hide(leaf);
            return None;
        }
        let place = word.trailing_zeros() as usize % BITS;
        let bit = 1u64 << place;
        let was = self.leaves[leaf].fetch_and(!bit, SeqCst);
        if was & bit == 0 {
            return None;
        }
        if was == bit {
            self.hide(leaf);
        }
        let slot = leaf * BITS + place;
        if slot < usize::from(self.slots) {
            Some(slot as u16)
        } else {
            None
        }
    }

    /// A value rests in this slot again.
    pub(crate) fn show(&self, slot: u16)
        requires { slot < self.now.slots }
    {
        let leaf = usize::from(slot) / BITS;
        let bit = 1u64 << (usize::from(slot) % BITS);
        if self.leaves[leaf].fetch_or(bit, SeqCst) == 0 && self.leaves.len() > 1 {
            self.summaries[leaf / BITS].fetch_or(1u64 << (leaf % BITS), SeqCst);
        }
    }

    // The value of this slot was taken by a call that didn't go by its bit.
    pub(crate) fn clear(&self, slot: u16)
        requires { slot < self.now.slots }
    {
        let leaf = usize::from(slot) / BITS;
        let bit = 1u64 << (usize::from(slot) % BITS);
        if self.leaves[leaf].fetch_and(!bit, SeqCst) == bit {
            self.hide(leaf);
        }
    }

    // A leaf that has a bit, as the summaries say.
    fn find_leaf(&self) -> Option<usize>
        ensures { IfSome result (λ leaf. leaf < vec_len self.now.leaves) }
    {
        for summary in 0..self.summaries.len() {
            let word = self.summaries[summary].load(SeqCst);
            if word != 0 {
                let leaf = summary * BITS + word.trailing_zeros() as usize;
                return (leaf < self.leaves.len()).then_some(leaf);
            }
        }
        None
    }

    // A leaf has no bit any more, so its summary says. A call may have set a bit there just before, so look again. A single leaf is always looked at.
    fn hide(&self, leaf: usize)
        requires { leaf < vec_len self.now.leaves }
    {
        if self.leaves.len() == 1 {
            return;
        }
        let bit = 1u64 << (leaf % BITS);
        self.summaries[leaf / BITS].fetch_and(!bit, SeqCst);
        if self.leaves[leaf].load(SeqCst) != 0 {
            self.summaries[leaf / BITS].fetch_or(bit, SeqCst);
        }
    }
}

// Words with so many bits, all of which are set.
fn all_set(alloc: Global, bits: usize) -> Result<Vec<AtomicU64>, AllocError>
    requires { bits < 65536 }
    ensures { IfOk result (λ words. vec_len words ≡ (bits + 63) / 64) }
{
    let count = (bits + (BITS - 1)) / BITS;
    let mut words = Vec::with_capacity(alloc, count)?;
    for word in 0..count {
        let left = bits - word * BITS;
        words.push_reserved(AtomicU64::new(lowest(left.min(BITS))));
    }
    Ok(words)
}

// A word whose lowest so many bits are set.
fn lowest(count: usize) -> u64
    requires { count ≤ 64 }
{
    if count == BITS {
        u64::MAX
    } else {
        (1u64 << count) - 1
    }
}
