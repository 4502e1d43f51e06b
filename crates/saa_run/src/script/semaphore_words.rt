//! What scripts say to a semaphore, and what it answers. Held to `specs/SemaphoreWords.antt`.
ghost use Rattle.std.specs.Prelude.{◌≡◌};
ghost use Rattle.std.specs.Option.{option_map};
ghost use Rattle.saa_run.specs.Language.{ask_in, counted_call_in, lone_call_in};
ghost use Rattle.saa_run.specs.SemaphoreWords.{semaphore_answer, semaphore_poll, semaphore_readings};

use crate::script::reply::ScriptReply;
use crate::script::script_core::ScriptCore;
use crate::words::meaning;
use saa::semaphore::{SemaphoreAnswer, SemaphoreCall, SemaphoreCoreOf};
use saa::ticket::Error;
use saa_run_text::fields::count;

impl<const MAX: usize> ScriptCore for SemaphoreCoreOf<MAX> {
    ghost readings = { semaphore_readings };

    ghost answer_words = { semaphore_answer };

    ghost poll_words = { semaphore_poll };

    fn lone_call(word: &[u8]) -> Option<SemaphoreCall> {
        lone_call(word)
    }

    fn counted_call(word: &[u8], count: usize) -> Option<SemaphoreCall> {
        counted_call(word, count)
    }

    fn ask(field: Option<&[u8]>) -> Option<usize> {
        ask(field)
    }

    fn answer_reply(answer: SemaphoreAnswer) -> ScriptReply {
        match answer {
            SemaphoreAnswer::Bool(truth) => ScriptReply::Truth(truth),
            SemaphoreAnswer::Number(number) => ScriptReply::Number(number),
        }
    }

    fn poll_reply(answer: Result<(), Error>) -> ScriptReply {
        match answer {
            Ok(()) => ScriptReply::Taken,
            Err(error) => ScriptReply::Refused(error),
        }
    }
}

/// The words of the calls that are one word.
static CALLS: [(&str, SemaphoreCall); 5] = [
    ("available", SemaphoreCall::AvailablePermits),
    ("is_open", SemaphoreCall::IsOpen),
    ("is_closed", SemaphoreCall::IsClosed),
    ("shut", SemaphoreCall::Shut),
    ("is_shut", SemaphoreCall::IsShut),
];

/// A call that is one word.
#[tactic(auto, unfolding(crate::specs::Language::lone_call_in))]
fn lone_call(word: &[u8]) -> Option<SemaphoreCall>
    ensures { result ≡ lone_call_in semaphore_readings word.now }
{
    meaning(&CALLS, word)
}

/// A call that is a word and a number.
#[tactic(auto, unfolding(crate::specs::Language::counted_call_in))]
fn counted_call(word: &[u8], count: usize) -> Option<SemaphoreCall>
    ensures { result ≡ counted_call_in semaphore_readings word.now count }
{
    if word == b"try".as_slice() {
        return Some(SemaphoreCall::TryAcquireMany(count));
    }
    if word == b"release".as_slice() {
        return Some(SemaphoreCall::ReleaseMany(count));
    }
    None
}

/// What a registration asks: a number of permits.
#[tactic(auto, unfolding(crate::specs::Language::ask_in))]
fn ask(field: Option<&[u8]>) -> Option<usize>
    ensures { result ≡ ask_in semaphore_readings (option_map (λ bytes. bytes.now) field.entry) }
{
    match field {
        Some(field) => count(field),
        None => None,
    }
}
