//! The answer word of a place: 0 for none, and else the value of the answer plus 1.

ghost use Rattle.std.specs.Prelude.{◌≡◌};
ghost use Rattle.saa_core_words.specs.Words.{answer_number, answer_of};

use std::marker::Model;

/// The answer of a place, or none, in one number. Contracts see what it answers.
#[derive(Drop)]
pub struct AnswerWord {
    number: u16,
}

impl Model for AnswerWord {
    ghost use Rattle.std.specs.Prelude.{ℕ, Option};
    ghost use Rattle.saa_core_words.specs.Words.{answer_of};

    ghost Value = { Option ℕ };

    ghost view = { λ word. answer_of word.number };
}

impl AnswerWord {
    /// The word of an answer, or of none.
    pub fn new(answer: Option<u8>) -> AnswerWord
        ensures { result ≡ answer }
    {
        AnswerWord {
            number: pack(answer),
        }
    }

    /// What the word answers.
    pub fn answer(&self) -> Option<u8>
        ensures { result ≡ self.now }
    {
        unpack(self.number)
    }
}

/// The number of an answer, or of none. It is read back by [`unpack`].
pub fn pack(answer: Option<u8>) -> u16
    ensures number { result ≡ answer_number answer }
    ensures read { answer_of result ≡ answer }
{
    match answer {
        None => 0,
        Some(value) => u16::from(value) + 1,
    }
}

/// The answer of a number; of the value the lowest 8 bits count.
pub fn unpack(number: u16) -> Option<u8>
    ensures { result ≡ answer_of number }
{
    if number == 0 {
        return None;
    }
    Some(((number - 1) % 256) as u8)
}
