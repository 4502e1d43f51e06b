//! A place: what it is registered as, and where it stands in its call, with all that it remembers.
//!
//! Each stage is one operation on one word. Which one, and how the place goes on with the word that it finds, stands in
//! `specs/Steps.antt`, a clause for each stage.
//!
//! A place that stands in a word or is remembered stands there by its link, its number plus 1; 0 is nobody.

use crate::call::Answer;
use saa_core_words::line_word::LineWord;
use saa_core_words::word::Word;

/// What a place is registered as.
#[derive(Clone, Copy, Debug, Eq, PartialEq)]
pub enum Registration {
    /// It is idle.
    Idle,
    /// It was answered as it asked: the value, and the number of what it asked.
    AnsweredAtOnce(u8, u16),
    /// It joined the line, and asked this. It waits, or is to be answered, or has an answer.
    Queued(u16),
}

/// What a place asks for.
#[derive(Clone, Copy, Debug, Eq, PartialEq)]
pub struct Ask {
    /// The number of the request.
    pub request: u16,
    /// Whether it joins the line where it must wait, and else is refused.
    pub joins: bool,
}

/// What a place gives back.
#[derive(Clone, Copy, Debug, Eq, PartialEq)]
pub enum ReleaseAmount {
    /// What a request took, by the request's number.
    Requested(u16),
    /// All that one owner of a lock has but a share.
    AllButAShare,
}

/// How a place that shows answers goes on behind the last.
#[derive(Clone, Copy, Debug, Eq, PartialEq)]
pub enum AfterShow {
    /// It is done with the line.
    Ends,
    /// It keeps the flag, and walks again from the word that it saw.
    Again(Word),
}

/// What a place does that worked on the line, once it is done with it.
#[derive(Clone, Copy, Debug, Eq, PartialEq)]
pub enum AfterWalk {
    /// It answers that it gave something back, poisoned the lock, or shut the semaphore.
    Tells,
    /// It answers that it gave its registration up.
    Ends,
    /// It takes its own answer, of a registration that asked this, and cancels that: it didn't find itself in the line.
    Takes(u16),
}

/// What a reading call wants to know.
#[derive(Clone, Copy, Debug, Eq, PartialEq)]
pub enum Reading {
    /// How many permits of a semaphore are available.
    Available,
    /// Whether a lock is free.
    IsFree,
    /// Whether one owner has a lock alone.
    IsLocked,
    /// Whether a lock is shared.
    IsShared,
    /// Whether a lock is poisoned, or a semaphore shut.
    IsPoisoned,
}

/// What a place does that takes its own answer.
#[derive(Clone, Copy, Debug, Eq, PartialEq)]
pub enum PollMode {
    /// It polls, and answers too where there is none yet.
    Tries,
    /// It polls, and waits for it.
    Awaits,
    /// It waits for it to cancel it, of a registration that asked this.
    Gives(u16),
}

/// Where a place stands in its call: what it does next, with what it remembers.
#[derive(Clone, Copy, Debug, Eq, PartialEq)]
pub enum Stage {
    /// It is in no call.
    Quiet,
    /// It loads the main word to read it.
    ReadLoad {
        reading: Reading,
    },
    /// It loads the main word to ask.
    AcquireLoad {
        ask: Ask,
    },
    /// It exchanges the word that it saw for one with the count raised.
    AcquireExchange {
        ask: Ask,
        seen: Word,
    },
    /// It writes its own line word, behind the tail that it saw.
    Prepare {
        request: u16,
        seen: Word,
    },
    /// It exchanges the word that it saw for one with itself as the tail.
    Join {
        request: u16,
        seen: Word,
    },
    /// It loads the main word to give something back.
    ReleaseLoad {
        given: ReleaseAmount,
    },
    /// It exchanges the word that it saw for one with the count lowered.
    ReleaseExchange {
        given: ReleaseAmount,
        seen: Word,
    },
    /// It holds the flag, and loads a line word on its way from the tail to the oldest.
    BackLoad {
        seen: Word,
        current: u16,
        newer: u16,
    },
    /// It writes there the newer neighbour.
    BackStore {
        seen: Word,
        current: u16,
        newer: u16,
        line: LineWord,
    },
    /// It loads a line word on its way from the oldest to the tail, with what fits so far added to the count.
    Forward {
        seen: Word,
        current: u16,
        count: u16,
    },
    /// It cuts the oldest who stays off those before it, to close the line.
    CutToClose {
        seen: Word,
        current: u16,
        count: u16,
        line: LineWord,
    },
    /// It cuts the last one off those before it, to retry.
    CutForRetry {
        seen: Word,
        current: u16,
        count: u16,
        line: LineWord,
    },
    /// It exchanges the word that it saw for one with what was granted and the flag clear; `top` is the newest of those.
    Close {
        seen: Word,
        count: u16,
        top: u16,
    },
    /// It exchanges the word that it saw for one with all granted, nobody in line and the flag clear.
    Empty {
        seen: Word,
        current: u16,
        count: u16,
        line: LineWord,
    },
    /// It adds what was granted to the count, and keeps the flag; `top` is the newest of those.
    Retry {
        seen: Word,
        count: u16,
        top: u16,
    },
    /// It loads the line word of a place whose answer is to be shown.
    ShowLoad {
        current: u16,
        value: u8,
        afterwards: AfterShow,
    },
    /// It writes that place's answer; `next` is the place right before it.
    ShowStore {
        current: u16,
        next: u16,
        value: u8,
        afterwards: AfterShow,
    },
    /// It takes its own answer.
    Take {
        taking: PollMode,
    },
    /// It loads the main word to set the flag, since it cancels.
    FlagLoad,
    /// It exchanges the word that it saw for one with the flag set.
    FlagExchange {
        seen: Word,
    },
    /// It holds the flag, and loads a line word on its way from the tail to itself; `previous` is the line word that it wrote last.
    LookLoad {
        seen: Word,
        current: u16,
        newer: u16,
        previous: LineWord,
    },
    /// It writes there the newer neighbour.
    LookStore {
        seen: Word,
        current: u16,
        newer: u16,
        line: LineWord,
    },
    /// It found itself, and links its newer neighbour to its older one.
    Unlink {
        seen: Word,
        newer: u16,
        line: LineWord,
        older: u16,
    },
    /// It found itself as the tail, and exchanges the word that it saw for one whose tail is its older neighbour.
    DropTail {
        seen: Word,
        older: u16,
    },
    /// It loads the main word to poison the lock, or to shut the semaphore.
    PoisonLoad,
    /// It exchanges the word that it saw for that of a poisoned lock, or of a shut semaphore.
    PoisonExchange {
        seen: Word,
    },
    /// It exchanges the word of a poisoned lock for that of a free one.
    Clear,
}

/// A place.
#[derive(Clone, Copy, Debug, Eq, PartialEq)]
pub struct Place {
    /// What it is registered as.
    pub registration: Registration,
    /// Where it stands in its call.
    pub stage: Stage,
    /// What it does once it is done with the line, where it works on that.
    pub back: AfterWalk,
}

/// How a place goes on behind a step.
#[derive(Clone, Copy, Debug, Eq, PartialEq)]
pub enum Next {
    /// It is in the middle of its call.
    Going(Place),
    /// Another place has to move first. It is as it was.
    Waits,
    /// It is done, and answers.
    Done(Place, Answer),
}
