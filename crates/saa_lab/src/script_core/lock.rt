//! A lock as scripts call it.

use crate::forms::{Asks, Form, OF_A_LOCK};
use crate::reading::Request;
use crate::script_core::ScriptCore;
use crate::script_core::semaphore::error_text;
use saa_core::lock::{LockAnswer, LockCall, LockCore, Mode, TryLockError};
use saa_core::primitive::Primitive;
use saa_core::ticket::Error;
use saa_core_words::word::Word;
use std::alloc::{AllocError, Global};

impl ScriptCore for LockCore {
    fn owner() -> &'static str {
        "a lock"
    }

    fn forms() -> &'static [Form] {
        &OF_A_LOCK
    }

    fn call_of(asks: Asks, _count: usize) -> Option<LockCall> {
        match asks {
            Asks::TryLock => Some(LockCall::TryLock),
            Asks::TryShare => Some(LockCall::TryShare),
            Asks::ReleaseLock => Some(LockCall::ReleaseLock),
            Asks::ReleaseShare => Some(LockCall::ReleaseShare),
            Asks::Downgrade => Some(LockCall::Downgrade),
            Asks::PoisonLock => Some(LockCall::PoisonLock),
            Asks::ClearPoison => Some(LockCall::ClearPoison),
            Asks::IsFree => Some(LockCall::IsFree),
            Asks::IsLocked => Some(LockCall::IsLocked),
            Asks::IsShared => Some(LockCall::IsShared),
            Asks::IsPoisoned => Some(LockCall::IsPoisoned),
            _ => None,
        }
    }

    fn ask_of(request: Request) -> Mode {
        request.mode
    }

    fn ask_text(alloc: Global, ask: Mode) -> Result<String, AllocError> {
        String::from_str(alloc, mode_text(ask))
    }

    fn answer_text(alloc: Global, answer: LockAnswer) -> Result<String, AllocError> {
        match answer {
            LockAnswer::Bool(is_so) => format!(in alloc; "{is_so}"),
            LockAnswer::Tried(tried) => String::from_str(alloc, try_text(tried)),
        }
    }

    fn poll_text(alloc: Global, value: Result<bool, Error>) -> Result<String, AllocError> {
        match value {
            Ok(is_granted) => format!(in alloc; "{is_granted}"),
            Err(error) => String::from_str(alloc, error_text(error)),
        }
    }

    fn held_text(&mut self, alloc: Global) -> Result<String, AllocError> {
        let word = Word::unpack(self.word());
        if word.is_poisoned {
            return String::from_str(alloc, "poisoned");
        }
        match word.count {
            0 => String::from_str(alloc, "free"),
            63 => String::from_str(alloc, "one owner"),
            1 => String::from_str(alloc, "1 sharer"),
            sharers => format!(in alloc; "{sharers} sharers"),
        }
    }
}

/// The word of a mode.
pub fn mode_text(mode: Mode) -> &'static str {
    match mode {
        Mode::Exclusive => "exclusive",
        Mode::Shared => "shared",
        Mode::WaitExclusive => "wait_exclusive",
        Mode::WaitShared => "wait_shared",
    }
}

/// What a try of a lock answers, as `saa-run` writes it.
pub fn try_text(tried: Result<(), TryLockError>) -> &'static str {
    match tried {
        Ok(()) => "ok",
        Err(TryLockError::WouldBlock) => "would_block",
        Err(TryLockError::Poisoned) => "poisoned",
    }
}
