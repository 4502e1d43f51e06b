//! The words of a machine's calls, answers, steps and kinds of step, as `saa-run machine` writes them.

use crate::forms::Asks;
use crate::reading::Request;
use crate::script_core::lock::{mode_text, try_text};
use crate::script_core::semaphore::error_text;
use saa_core_words::word::Word;
use saa_word::kind::Kind;
use saa_word::moves::Step;
use saa_word_steps::call::{Answer, WordCall};
use std::alloc::{AllocError, Global};

/// The kinds of step, and their words.
pub static KINDS: [(&str, Kind); 13] = [
    ("ask", Kind::Ask),
    ("prepare", Kind::Prepare),
    ("join", Kind::Join),
    ("release", Kind::Release),
    ("walk", Kind::Walk),
    ("publish", Kind::Publish),
    ("show", Kind::Show),
    ("take", Kind::Take),
    ("flag", Kind::Flag),
    ("unlink", Kind::Unlink),
    ("tail", Kind::Tail),
    ("poison", Kind::Poison),
    ("clear", Kind::Clear),
];

/// The word of a kind.
pub fn kind_text(kind: Kind) -> &'static str {
    for (word, known) in &KINDS {
        if *known == kind {
            return word;
        }
    }
    ""
}

/// The call of a form in words that a line asks for; `None` where it is none of its kind.
pub fn call_of(is_lock: bool, request: Request) -> Option<WordCall> {
    match request.asks {
        Asks::TryPoll => Some(WordCall::TryPoll),
        Asks::Poll => Some(WordCall::Poll),
        Asks::Cancel => Some(WordCall::Cancel),
        _ if is_lock => lock_call(request),
        _ => semaphore_call(request),
    }
}

fn semaphore_call(request: Request) -> Option<WordCall> {
    match request.asks {
        Asks::Try => Some(WordCall::Try(request.count)),
        Asks::Register => Some(WordCall::Register(request.count)),
        Asks::Release => Some(WordCall::Release(request.count)),
        Asks::Available => Some(WordCall::Available),
        Asks::Shut => Some(WordCall::Shut),
        Asks::IsShut => Some(WordCall::IsShut),
        _ => None,
    }
}

fn lock_call(request: Request) -> Option<WordCall> {
    match request.asks {
        Asks::TryLock => Some(WordCall::TryLock),
        Asks::TryShare => Some(WordCall::TryShare),
        Asks::Register => Some(WordCall::RegisterMode(request.mode)),
        Asks::ReleaseLock => Some(WordCall::ReleaseLock),
        Asks::ReleaseShare => Some(WordCall::ReleaseShare),
        Asks::Downgrade => Some(WordCall::Downgrade),
        Asks::PoisonLock => Some(WordCall::PoisonLock),
        Asks::ClearPoison => Some(WordCall::ClearPoison),
        Asks::IsFree => Some(WordCall::IsFree),
        Asks::IsLocked => Some(WordCall::IsLocked),
        Asks::IsShared => Some(WordCall::IsShared),
        Asks::IsPoisoned => Some(WordCall::IsPoisoned),
        _ => None,
    }
}

/// A call as a line of a schedule has it.
pub fn call_text(alloc: Global, call: WordCall) -> Result<String, AllocError> {
    match call {
        WordCall::Try(count) => format!(in alloc; "try {count}"),
        WordCall::Register(count) => format!(in alloc; "reg {count}"),
        WordCall::Release(count) => format!(in alloc; "release {count}"),
        WordCall::RegisterMode(mode) => format!(in alloc; "reg {}", mode_text(mode)),
        other => String::from_str(alloc, lone_call_text(other)),
    }
}

fn lone_call_text(call: WordCall) -> &'static str {
    match call {
        WordCall::Available => "available",
        WordCall::Shut => "shut",
        WordCall::IsShut => "is_shut",
        WordCall::TryLock => "try_lock",
        WordCall::TryShare => "try_share",
        WordCall::ReleaseLock => "release_lock",
        WordCall::ReleaseShare => "release_share",
        WordCall::Downgrade => "downgrade",
        WordCall::PoisonLock => "poison_lock",
        WordCall::ClearPoison => "clear_poison",
        WordCall::IsFree => "is_free",
        WordCall::IsLocked => "is_locked",
        WordCall::IsShared => "is_shared",
        WordCall::IsPoisoned => "is_poisoned",
        WordCall::TryPoll => "try_poll",
        WordCall::Poll => "poll",
        WordCall::Cancel => "cancel",
        _ => "",
    }
}

/// What a call answered; nothing of a cancel.
pub fn answer_text(alloc: Global, is_lock: bool, answer: Answer) -> Result<String, AllocError> {
    match answer {
        Answer::Bool(is_so) => format!(in alloc; "{is_so}"),
        Answer::Number(number) => format!(in alloc; "{number}"),
        Answer::Tried(tried) => String::from_str(alloc, try_text(tried)),
        Answer::Taken(Ok(is_granted)) => match (is_lock, is_granted) {
            (true, _) => format!(in alloc; "{is_granted}"),
            (false, true) => String::from_str(alloc, "ok"),
            (false, false) => String::from_str(alloc, "closed"),
        },
        Answer::Taken(Err(error)) => String::from_str(alloc, error_text(error)),
        Answer::Unit => Ok(String::new(alloc)),
    }
}

/// What a step replies.
pub fn step_text(alloc: Global, is_lock: bool, step: Step) -> Result<String, AllocError> {
    match step {
        Step::Idle => String::from_str(alloc, "idle"),
        Step::Busy => String::from_str(alloc, "busy"),
        Step::Going => String::from_str(alloc, "going"),
        Step::Waits => String::from_str(alloc, "waits"),
        Step::Done(Answer::Unit) => String::from_str(alloc, "done"),
        Step::Done(answer) => {
            let answer = answer_text(alloc, is_lock, answer)?;
            format!(in alloc; "done {answer}")
        }
    }
}

/// The parts of a main word: count, flag, poison and tail.
pub fn main_text(alloc: Global, number: u64) -> Result<String, AllocError> {
    let word = Word::unpack(number);
    let flag = u8::from(word.is_flagged);
    let poison = u8::from(word.is_poisoned);
    format!(in alloc; "{} {flag} {poison} {}", word.count, word.tail)
}
