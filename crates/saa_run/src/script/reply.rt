//! What a script's lines are replied, by all four primitives.
//!
//! Held to `specs/ScriptReplies.antt`. The words take no memory; how they are written is `saa_run_text`'s.
ghost use Rattle.std.specs.Prelude.{◌≡◌, ◌≤◌, ◌++◌, ◌∷◌, decimal, length};
ghost use Rattle.saa_run.specs.Replies.{error_word, truth_word};
ghost use Rattle.saa_run.specs.GateWords.{state_word, gate_error_word};

use itoa::Buffer;
use saa::gate::{self, State};
use saa::ticket::Error;
use saa_run_text::reply::{ReplyText, ReplyWords, joined, numbered, word};

/// What a reply says.
#[derive(Clone, Copy)]
pub enum ScriptReply {
    /// `true` or `false`.
    Truth(bool),
    /// A number.
    Number(usize),
    /// `full`.
    Full,
    /// `ok`.
    Taken,
    /// Why a poll has no answer.
    Refused(Error),
    /// `dropped`.
    Dropped,
    /// `would_block`.
    WouldBlock,
    /// `poisoned`.
    Poisoned,
    /// A gate's state.
    GateState(State),
    /// `none`.
    NoState,
    /// `ok N`: so many were answered.
    Answered(usize),
    /// `err STATE`: the gate isn't controlled.
    Turned(State),
    /// `STATE N`: the state before, and how many were answered.
    Moved(State, usize),
    /// `ok STATE`: the state of the gate that was passed.
    Passed(State),
    /// Why a poll of a gate has no state.
    Barred(gate::Error),
}

impl ReplyWords for ScriptReply {
    ghost use Rattle.saa_run.specs.ScriptReplies.{script_words};

    ghost words = { script_words };

    fn text(self) -> ReplyText {
        match self {
            ScriptReply::Truth(truth) => word(truth_text(truth)),
            ScriptReply::Number(number) => numbered("", number),
            ScriptReply::Full => word("full"),
            ScriptReply::Taken => word("ok"),
            ScriptReply::Refused(error) => word(error_text(error)),
            ScriptReply::Dropped => word("dropped"),
            ScriptReply::WouldBlock => word("would_block"),
            ScriptReply::Poisoned => word("poisoned"),
            ScriptReply::GateState(state) => word(state_text(state)),
            ScriptReply::NoState => word("none"),
            ScriptReply::Answered(number) => numbered("ok ", number),
            ScriptReply::Turned(state) => joined("err ", state_text(state)),
            ScriptReply::Moved(state, number) => moved_text(state, number),
            ScriptReply::Passed(state) => joined("ok ", state_text(state)),
            ScriptReply::Barred(error) => word(gate_error_text(error)),
        }
    }
}

/// The word of a truth value.
pub fn truth_text(truth: bool) -> &'static str
    ensures word { result.now ≡ truth_word truth }
    ensures short { length result.now ≤ 5 }
{
    match truth {
        true => "true",
        false => "false",
    }
}

/// Why a poll has no answer, or that the semaphore was shut, in a word.
pub fn error_text(error: Error) -> &'static str
    ensures word { result.now ≡ error_word error }
    ensures short { length result.now ≤ 14 }
{
    match error {
        Error::NotRegistered => "not_registered",
        Error::WrongMode => "wrong_mode",
        Error::NotReady => "not_ready",
        Error::Closed => "closed",
    }
}

/// The word of a gate's state.
fn state_text(state: State) -> &'static str
    ensures word { result.now ≡ state_word state }
    ensures short { length result.now ≤ 10 }
{
    match state {
        State::Controlled => "controlled",
        State::Sealed => "sealed",
        State::Open => "open",
    }
}

/// A gate's state and a number, with a space between them.
fn moved_text(state: State, number: usize) -> ReplyText
    ensures text { result.bytes ≡ state_word state ++ 32 ∷ decimal number }
    ensures short { length result.bytes ≤ 63 }
{
    let mut digits = Buffer::new();
    let mut line = ReplyText::new();
    line.push_str(state_text(state));
    line.push_str(" ");
    line.push_str(digits.format(number));
    line
}

/// Why a poll of a gate has no state, in a word.
fn gate_error_text(error: gate::Error) -> &'static str
    ensures word { result.now ≡ gate_error_word error }
    ensures short { length result.now ≤ 14 }
{
    match error {
        gate::Error::Rejected => "rejected",
        gate::Error::Sealed => "sealed",
        gate::Error::SpuriousFailure => "spurious",
        gate::Error::NotRegistered => "not_registered",
        gate::Error::WrongMode => "wrong_mode",
        gate::Error::NotReady => "not_ready",
    }
}
