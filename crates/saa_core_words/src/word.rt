//! The main word: what is held, whether somebody works on the line, poison, and the newest waiter.

ghost use Rattle.std.specs.Prelude.{◌≡◌};
ghost use Rattle.saa_core_words.specs.Words.{count_bits, word_number, word_of};

// How many counts a main word tells apart: 2 to the number of bits that it has for them.
const COUNTS: u64 = 65_536;

/// The parts of a main word.
///
/// What its parts mean together, where it is the word of a semaphore or a lock:
///
/// | Count | Flag | Poison | Tail | |
/// |---|---|---|---|---|
/// | 0 | clear | clear | 0 | Nothing is held, and nobody waits. |
/// | n | clear | clear | 0 | n permits are out, or a lock is held: 63 by one owner, else by n. Nobody waits. |
/// | n | clear | clear | t | The same, and t is the newest waiter. The line is settled: its oldest doesn't fit. |
/// | n | set | clear | t | A place works on the line: something was given back or left since it was settled. |
/// | 0 | clear | set | 0 | A poisoned lock: nothing is held, and nobody waits. |
///
/// No other combination occurs: the flag is set only while there is a waiter, and a poisoned lock's word is one number.
#[derive(Clone, Copy, Debug, Eq, PartialEq)]
pub struct Word {
    /// What is held: the permits that are out; of a lock 63 for one owner alone, and else how many share it.
    pub count: u16,
    /// Whether somebody works on the line.
    pub is_flagged: bool,
    /// Whether a lock is poisoned.
    pub is_poisoned: bool,
    /// The newest waiter, by its place plus 1; 0 where there is no waiter.
    pub tail: u16,
}

impl Word {
    /// The number of a word: from bit 0 the count, in 16 bits, then the flag, then poison, and from bit 18 the tail.
    /// It is read back by [`Self::unpack`].
    pub fn pack(self) -> u64
        ensures number { result ≡ word_number count_bits self }
        ensures read { word_of count_bits result ≡ self }
    {
        let marks = u64::from(self.is_flagged) + 2 * u64::from(self.is_poisoned);
        u64::from(self.count) + COUNTS * (marks + 4 * u64::from(self.tail))
    }

    /// The word of a number; bits behind the tail are passed over.
    pub fn unpack(number: u64) -> Word
        ensures { result ≡ word_of count_bits number }
    {
        let above = number / COUNTS;
        Word {
            count: (number % COUNTS) as u16,
            is_flagged: above % 2 == 1,
            is_poisoned: above / 2 % 2 == 1,
            tail: (above / 4 % 65_536) as u16,
        }
    }
}
