//! A semaphore as scripts call it.

use crate::forms::{Asks, Form, OF_A_SEMAPHORE};
use crate::reading::Request;
use crate::script_core::ScriptCore;
use saa_core::primitive::Primitive;
use saa_core::semaphore::{SemaphoreAnswer, SemaphoreCall, SemaphoreCoreOf};
use saa_core::ticket::Error;
use std::alloc::{AllocError, Global};

impl<const MAX: usize> ScriptCore for SemaphoreCoreOf<MAX> {
    fn owner() -> &'static str {
        "a semaphore"
    }

    fn forms() -> &'static [Form] {
        &OF_A_SEMAPHORE
    }

    fn call_of(asks: Asks, count: usize) -> Option<SemaphoreCall> {
        match asks {
            Asks::Try => Some(SemaphoreCall::TryAcquireMany(count)),
            Asks::Release => Some(SemaphoreCall::ReleaseMany(count)),
            Asks::Available => Some(SemaphoreCall::AvailablePermits),
            Asks::IsOpen => Some(SemaphoreCall::IsOpen),
            Asks::IsClosed => Some(SemaphoreCall::IsClosed),
            Asks::Shut => Some(SemaphoreCall::Shut),
            Asks::IsShut => Some(SemaphoreCall::IsShut),
            _ => None,
        }
    }

    fn ask_of(request: Request) -> usize {
        request.count
    }

    fn ask_text(alloc: Global, ask: usize) -> Result<String, AllocError> {
        format!(in alloc; "{ask}")
    }

    fn answer_text(alloc: Global, answer: SemaphoreAnswer) -> Result<String, AllocError> {
        match answer {
            SemaphoreAnswer::Bool(is_so) => format!(in alloc; "{is_so}"),
            SemaphoreAnswer::Number(number) => format!(in alloc; "{number}"),
        }
    }

    fn poll_text(alloc: Global, value: Result<(), Error>) -> Result<String, AllocError> {
        let text = match value {
            Ok(()) => "ok",
            Err(error) => error_text(error),
        };
        String::from_str(alloc, text)
    }

    fn held_text(&mut self, alloc: Global) -> Result<String, AllocError> {
        let free = self.available_permits();
        if self.is_shut() {
            return format!(in alloc; "{free} of {MAX} free, shut");
        }
        format!(in alloc; "{free} of {MAX} free")
    }
}

/// Why a poll has no answer, as `saa-run` writes it.
pub fn error_text(error: Error) -> &'static str {
    match error {
        Error::NotRegistered => "not_registered",
        Error::WrongMode => "wrong_mode",
        Error::NotReady => "not_ready",
        Error::Closed => "closed",
    }
}
