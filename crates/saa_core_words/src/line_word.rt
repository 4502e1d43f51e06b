//! The line word of a place: what it asks, and its neighbours in the line.

ghost use Rattle.std.specs.Prelude.{◌≡◌};
ghost use Rattle.saa_core_words.specs.Words.{line_number, line_word_of};

/// The parts of a line word. A neighbour stands there by its place plus 1; 0 is none.
#[derive(Clone, Copy, Debug, Eq, PartialEq)]
pub struct LineWord {
    /// The number of what is asked.
    pub request: u16,
    /// Who joined the line right before.
    pub older: u16,
    /// Who joined the line right behind.
    pub newer: u16,
}

impl LineWord {
    /// The number of a line word: from bit 0 the request, from bit 16 the older neighbour, from bit 32 the newer one.
    /// It is read back by [`Self::unpack`].
    pub fn pack(self) -> u64
        ensures number { result ≡ line_number self }
        ensures read { line_word_of result ≡ self }
    {
        u64::from(self.request) + 65_536 * (u64::from(self.older) + 65_536 * u64::from(self.newer))
    }

    /// The line word of a number; bits from 48 on are passed over.
    pub fn unpack(number: u64) -> LineWord
        ensures { result ≡ line_word_of number }
    {
        LineWord {
            request: (number % 65_536) as u16,
            older: (number / 65_536 % 65_536) as u16,
            newer: (number / 4_294_967_296 % 65_536) as u16,
        }
    }
}
