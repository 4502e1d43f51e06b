//! What scripts say to a lock, and what it answers. Held to `specs/LockWords.antt`.
ghost use Rattle.std.specs.Prelude.{◌≡◌};
ghost use Rattle.std.specs.Option.{option_map};
ghost use Rattle.saa_run.specs.Language.{ask_in, lone_call_in};
ghost use Rattle.saa_run.specs.LockWords.{lock_answer, lock_readings};
ghost use Rattle.saa_run.specs.Replies.{truth_poll};
ghost use Rattle.saa_run.specs.ScriptReplies.{script_words};

use crate::script::reply::ScriptReply;
use crate::script::script_core::{ScriptCore, truth_reply};
use crate::words::meaning;
use saa::lock::{LockAnswer, LockCall, LockCore, Mode, TryLockError};
use saa::ticket::Error;

impl ScriptCore for LockCore {
    ghost readings = { lock_readings };

    ghost answer_words = { lock_answer };

    ghost poll_words = { truth_poll };

    fn lone_call(word: &[u8]) -> Option<LockCall> {
        lone_call(word)
    }

    #[tactic(auto, unfolding(crate::specs::Language::counted_call_in))]
    fn counted_call(_word: &[u8], _count: usize) -> Option<LockCall> {
        None
    }

    fn ask(field: Option<&[u8]>) -> Option<Mode> {
        ask(field)
    }

    fn answer_reply(answer: LockAnswer) -> ScriptReply {
        answer_reply(answer)
    }

    fn poll_reply(answer: Result<bool, Error>) -> ScriptReply {
        truth_reply(answer)
    }
}

/// The words of the calls.
static CALLS: [(&str, LockCall); 11] = [
    ("try_lock", LockCall::TryLock),
    ("try_share", LockCall::TryShare),
    ("release_lock", LockCall::ReleaseLock),
    ("release_share", LockCall::ReleaseShare),
    ("downgrade", LockCall::Downgrade),
    ("poison_lock", LockCall::PoisonLock),
    ("clear_poison", LockCall::ClearPoison),
    ("is_free", LockCall::IsFree),
    ("is_locked", LockCall::IsLocked),
    ("is_shared", LockCall::IsShared),
    ("is_poisoned", LockCall::IsPoisoned),
];

/// A call that is one word.
#[tactic(auto, unfolding(crate::specs::Language::lone_call_in))]
pub fn lone_call(word: &[u8]) -> Option<LockCall>
    ensures { result ≡ lone_call_in lock_readings word.now }
{
    meaning(&CALLS, word)
}

/// The words of the modes.
static MODES: [(&str, Mode); 4] = [
    ("exclusive", Mode::Exclusive),
    ("shared", Mode::Shared),
    ("wait_exclusive", Mode::WaitExclusive),
    ("wait_shared", Mode::WaitShared),
];

/// What a registration asks: one of the modes.
#[tactic(auto, unfolding(crate::specs::Language::ask_in))]
pub fn ask(field: Option<&[u8]>) -> Option<Mode>
    ensures { result ≡ ask_in lock_readings (option_map (λ bytes. bytes.now) field.entry) }
{
    meaning(&MODES, field?)
}

/// What a call's answer says.
fn answer_reply(answer: LockAnswer) -> ScriptReply
    ensures { script_words result ≡ lock_answer answer }
{
    match answer {
        LockAnswer::Bool(truth) => ScriptReply::Truth(truth),
        LockAnswer::Tried(Ok(())) => ScriptReply::Taken,
        LockAnswer::Tried(Err(TryLockError::WouldBlock)) => ScriptReply::WouldBlock,
        LockAnswer::Tried(Err(TryLockError::Poisoned)) => ScriptReply::Poisoned,
    }
}
