//! What a move answers, in the words of the language.

use crate::language::number_of;
use futures::task::Poll;
use saa_core::gate::{Error as GateError, State};
use saa_core::lock::TryLockError;
use saa_core_spec::polling::Error;
use saa_core_spec::request::Full;
use saa_core_waits::AcquireError;

/// A word that is answered.
///
/// Replies hold this and no text: functions that are generic in a callback return them, and the borrow checker covers none of these whose reply holds a
/// reference.
#[derive(Clone, Copy, Debug, Eq, PartialEq)]
pub enum ReplyWord {
    /// The move was made, and answers nothing.
    Done,
    Ok,
    True,
    False,
    None,
    Full,
    Closed,
    Left,
    Dropped,
    TimedOut,
    Early,
    Pending,
    Poisoned,
    WouldBlock,
    Rejected,
    Spurious,
    NotRegistered,
    WrongMode,
    NotReady,
    Controlled,
    Sealed,
    Open,
    OkControlled,
    OkSealed,
    OkOpen,
    ErrControlled,
    ErrSealed,
    ErrOpen,
    /// A core's text isn't what the row says.
    AnotherText,
    /// No form knows the call.
    Unknown,
}

impl ReplyWord {
    // As it is in a row.
    fn text(self) -> &'static str {
        match self {
            ReplyWord::Done => "",
            ReplyWord::Ok => "ok",
            ReplyWord::True => "true",
            ReplyWord::False => "false",
            ReplyWord::None => "none",
            ReplyWord::Full => "full",
            ReplyWord::Closed => "closed",
            ReplyWord::Left => "left",
            ReplyWord::Dropped => "dropped",
            ReplyWord::TimedOut => "timed_out",
            ReplyWord::Early => "early",
            ReplyWord::Pending => "pending",
            ReplyWord::Poisoned => "poisoned",
            ReplyWord::WouldBlock => "would_block",
            ReplyWord::Rejected => "rejected",
            ReplyWord::Spurious => "spurious",
            ReplyWord::NotRegistered => "not_registered",
            ReplyWord::WrongMode => "wrong_mode",
            ReplyWord::NotReady => "not_ready",
            ReplyWord::Controlled => "controlled",
            ReplyWord::Sealed => "sealed",
            ReplyWord::Open => "open",
            ReplyWord::OkControlled => "ok controlled",
            ReplyWord::OkSealed => "ok sealed",
            ReplyWord::OkOpen => "ok open",
            ReplyWord::ErrControlled => "err controlled",
            ReplyWord::ErrSealed => "err sealed",
            ReplyWord::ErrOpen => "err open",
            ReplyWord::AnotherText => "another text",
            ReplyWord::Unknown => "?",
        }
    }
}

/// A word, a number, or both.
#[derive(Clone, Copy, Debug, Eq, PartialEq)]
pub struct Reply {
    word: ReplyWord,
    number: Option<usize>,
}

/// A word alone.
pub fn word(word: ReplyWord) -> Reply {
    Reply { word, number: None }
}

/// A number alone.
pub fn number(number: usize) -> Reply {
    Reply {
        word: ReplyWord::Done,
        number: Some(number),
    }
}

/// A word, and a number after it.
fn counted(word: ReplyWord, number: usize) -> Reply {
    Reply {
        word,
        number: Some(number),
    }
}

/// What is replied to a word that isn't known.
pub fn unknown() -> Reply {
    word(ReplyWord::Unknown)
}

impl Reply {
    /// Whether this word alone is answered.
    pub fn is(self, word: &str) -> bool {
        self.number.is_none() && self.word.text() == word
    }

    /// The number that is answered.
    pub fn number(self) -> Option<usize> {
        self.number
    }

    /// Whether it is what a row wants, where `N` is this number: this text, or that the move was done where the row says nothing.
    pub fn is_wanted(self, wanted: Option<&str>, each: usize) -> bool {
        match wanted {
            Some(text) => self.is_text(text, each),
            None => self.is("")
                || self.is("ok")
                || self.is("true")
                || self.is("dropped")
                || self.is("left"),
        }
    }

    // Whether it reads so.
    fn is_text(self, text: &str, each: usize) -> bool {
        let Some(number) = self.number else {
            return self.word.text() == text;
        };
        let (word, digits) = text.split_once(' ').unwrap_or(("", text));
        self.word.text() == word && number_of(digits, each) == Some(number)
    }
}

/// What a call answers, as a reply.
pub trait Replies: Sized {
    fn reply(self) -> Reply;

    /// The same where it is granted, and where it is refused.
    fn granted(self) -> Reply {
        self.reply()
    }

    fn refused(self) -> Reply {
        self.reply()
    }
}

impl Replies for () {
    fn reply(self) -> Reply {
        word(ReplyWord::Ok)
    }
}

impl Replies for bool {
    fn reply(self) -> Reply {
        word(if self {
            ReplyWord::True
        } else {
            ReplyWord::False
        })
    }
}

// The number of an answer: 0 is a grant.
impl Replies for u8 {
    fn reply(self) -> Reply {
        number(usize::from(self))
    }
}

// How many waiters a gate answered.
impl Replies for usize {
    fn reply(self) -> Reply {
        number(self)
    }

    fn granted(self) -> Reply {
        counted(ReplyWord::Ok, self)
    }
}

impl Replies for State {
    fn reply(self) -> Reply {
        word(match self {
            State::Controlled => ReplyWord::Controlled,
            State::Sealed => ReplyWord::Sealed,
            State::Open => ReplyWord::Open,
        })
    }

    fn granted(self) -> Reply {
        word(match self {
            State::Controlled => ReplyWord::OkControlled,
            State::Sealed => ReplyWord::OkSealed,
            State::Open => ReplyWord::OkOpen,
        })
    }

    fn refused(self) -> Reply {
        word(match self {
            State::Controlled => ReplyWord::ErrControlled,
            State::Sealed => ReplyWord::ErrSealed,
            State::Open => ReplyWord::ErrOpen,
        })
    }
}

// A gate's state before, and how many waiters it answered.
impl Replies for (State, usize) {
    fn reply(self) -> Reply {
        counted(self.0.reply().word, self.1)
    }
}

impl Replies for Full {
    fn reply(self) -> Reply {
        word(ReplyWord::Full)
    }
}

impl Replies for AcquireError {
    fn reply(self) -> Reply {
        word(match self {
            AcquireError::Full => ReplyWord::Full,
            AcquireError::Closed => ReplyWord::Closed,
        })
    }
}

impl Replies for Error {
    fn reply(self) -> Reply {
        word(match self {
            Error::NotRegistered => ReplyWord::NotRegistered,
            Error::WrongMode => ReplyWord::WrongMode,
            Error::NotReady => ReplyWord::NotReady,
            Error::Closed => ReplyWord::Closed,
        })
    }
}

impl Replies for GateError {
    fn reply(self) -> Reply {
        word(match self {
            GateError::Rejected => ReplyWord::Rejected,
            GateError::Sealed => ReplyWord::Sealed,
            GateError::SpuriousFailure => ReplyWord::Spurious,
            GateError::NotRegistered => ReplyWord::NotRegistered,
            GateError::WrongMode => ReplyWord::WrongMode,
            GateError::NotReady => ReplyWord::NotReady,
        })
    }
}

impl Replies for TryLockError {
    fn reply(self) -> Reply {
        word(match self {
            TryLockError::Poisoned => ReplyWord::Poisoned,
            TryLockError::WouldBlock => ReplyWord::WouldBlock,
        })
    }
}

impl<T: Replies, E: Replies> Replies for Result<T, E> {
    fn reply(self) -> Reply {
        match self {
            Ok(answer) => answer.granted(),
            Err(error) => error.refused(),
        }
    }
}

// A timed call.
impl<T: Replies> Replies for Option<T> {
    fn reply(self) -> Reply {
        match self {
            Some(answer) => answer.granted(),
            None => word(ReplyWord::TimedOut),
        }
    }
}

impl<T: Replies> Replies for Poll<T> {
    fn reply(self) -> Reply {
        match self {
            Poll::Ready(answer) => answer.granted(),
            Poll::Pending => word(ReplyWord::Pending),
        }
    }
}
