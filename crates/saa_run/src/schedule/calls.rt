//! The calls of a schedule: which call of a semaphore or of a lock some fields are.
//!
//! Held to `specs/ScheduleCalls.antt`. The words of a lock's calls and of its modes are those of scripts, in `script::lock_words`.
ghost use Rattle.std.specs.Prelude.{◌≡◌, Bool, true, false, IfSome};
ghost use Rattle.saa_word_steps.specs.Readings.{is_taken};
ghost use Rattle.saa_run.specs.ScheduleCalls.{call_of_both, counted_call_of, in_steps, lock_call, lone_call_of, mode_call_of, paired_call_of, semaphore_call};

use crate::script::lock_words;
use saa::lock::LockCall;
use saa::word::machine::WordCall;
use saa_run_text::fields::count;

/// A lock's call as a machine makes it.
fn in_steps(call: LockCall) -> WordCall
    ensures call { result ≡ in_steps call }
    ensures taken { is_taken true result ≡ true }
{
    match call {
        LockCall::TryLock => WordCall::TryLock,
        LockCall::TryShare => WordCall::TryShare,
        LockCall::ReleaseLock => WordCall::ReleaseLock,
        LockCall::ReleaseShare => WordCall::ReleaseShare,
        LockCall::Downgrade => WordCall::Downgrade,
        LockCall::PoisonLock => WordCall::PoisonLock,
        LockCall::ClearPoison => WordCall::ClearPoison,
        LockCall::IsFree => WordCall::IsFree,
        LockCall::IsLocked => WordCall::IsLocked,
        LockCall::IsShared => WordCall::IsShared,
        LockCall::IsPoisoned => WordCall::IsPoisoned,
    }
}

/// A call of both that is one word.
#[tactic(auto, unfolding(crate::specs::ScheduleCalls::call_of_both))]
fn call_of_both(word: &[u8]) -> Option<WordCall>
    ensures call { result ≡ call_of_both word.now }
    ensures taken { IfSome result (λ call. (is_lock : Bool) → is_taken is_lock call ≡ true) }
{
    if word == b"try_poll".as_slice() {
        return Some(WordCall::TryPoll);
    }
    if word == b"poll".as_slice() {
        return Some(WordCall::Poll);
    }
    if word == b"cancel".as_slice() {
        return Some(WordCall::Cancel);
    }
    None
}

/// A call of a semaphore that is one word.
#[tactic(auto, unfolding(crate::specs::ScheduleCalls::semaphore_call))]
fn semaphore_call(word: &[u8]) -> Option<WordCall>
    ensures call { result ≡ semaphore_call word.now }
    ensures taken { IfSome result (λ call. is_taken false call ≡ true) }
{
    if word == b"available".as_slice() {
        return Some(WordCall::Available);
    }
    if word == b"shut".as_slice() {
        return Some(WordCall::Shut);
    }
    if word == b"is_shut".as_slice() {
        return Some(WordCall::IsShut);
    }
    None
}

/// A call of a lock that is one word.
#[tactic(auto, unfolding(crate::specs::ScheduleCalls::lock_call))]
fn lock_call(word: &[u8]) -> Option<WordCall>
    ensures call { result ≡ lock_call word.now }
    ensures taken { IfSome result (λ call. is_taken true call ≡ true) }
{
    match lock_words::lone_call(word) {
        Some(call) => Some(in_steps(call)),
        None => None,
    }
}

/// A call that is one word, of a lock or of a semaphore.
#[tactic(auto, unfolding(crate::specs::ScheduleCalls::lone_call_of))]
pub fn lone_call(is_lock: bool, word: &[u8]) -> Option<WordCall>
    ensures call { result ≡ lone_call_of is_lock word.now }
    ensures taken { IfSome result (λ call. is_taken is_lock call ≡ true) }
{
    match call_of_both(word) {
        Some(call) => Some(call),
        None => match is_lock {
            true => lock_call(word),
            false => semaphore_call(word),
        },
    }
}

/// A call of a semaphore that is a word and a number.
#[tactic(auto, unfolding(crate::specs::ScheduleCalls::counted_call_of))]
fn counted_call(word: &[u8], number: usize) -> Option<WordCall>
    ensures call { result ≡ counted_call_of word.now number }
    ensures taken { IfSome result (λ call. is_taken false call ≡ true) }
{
    if word == b"try".as_slice() {
        return Some(WordCall::Try(number));
    }
    if word == b"reg".as_slice() {
        return Some(WordCall::Register(number));
    }
    if word == b"release".as_slice() {
        return Some(WordCall::Release(number));
    }
    None
}

/// A registration at a lock: the word `reg` and a mode.
#[tactic(auto, unfolding(crate::specs::ScheduleCalls::mode_call_of))]
fn mode_call(word: &[u8], mode: &[u8]) -> Option<WordCall>
    ensures call { result ≡ mode_call_of word.now mode.now }
    ensures taken { IfSome result (λ call. is_taken true call ≡ true) }
{
    if word == b"reg".as_slice() {
        return Some(WordCall::RegisterMode(lock_words::ask(Some(mode))?));
    }
    None
}

/// A call that is a word and a field, of a lock or of a semaphore.
#[tactic(auto, unfolding(crate::specs::ScheduleCalls::paired_call_of))]
pub fn paired_call(is_lock: bool, word: &[u8], field: &[u8]) -> Option<WordCall>
    ensures call { result ≡ paired_call_of is_lock word.now field.now }
    ensures taken { IfSome result (λ call. is_taken is_lock call ≡ true) }
{
    match is_lock {
        true => mode_call(word, field),
        false => counted_call(word, count(field)?),
    }
}
