//! The moves of a machine, and what each of them answers.

use saa_word_steps::call::{Answer, WordCall};

/// A move of one place, named by its number.
#[derive(Clone, Copy, Debug, Eq, PartialEq)]
pub enum Move {
    /// Starts a call.
    Start(u16, WordCall),
    /// Makes the one atomic step that is next in the place's call.
    Go(u16),
}

/// What a move did.
#[derive(Clone, Copy, Debug, Eq, PartialEq)]
pub enum Step {
    /// Nothing: the place is in no call.
    Idle,
    /// Nothing: the place is in the middle of a call.
    Busy,
    /// The place is in the middle of its call now.
    Going,
    /// Another place has to move first. The place is as it was.
    Waits,
    /// The call is done, and this is its answer.
    Done(Answer),
}
