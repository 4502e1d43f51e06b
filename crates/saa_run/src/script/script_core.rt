//! What a kind of primitive adds to the language of scripts: how its calls and what its registrations ask are read,
//! and what its answers say.
//!
//! Held to the definitions of its kind, as `specs/SemaphoreWords.antt`. The lines that all kinds share are read in
//! `command`, and spoken to a bench in `bench_script`.
ghost use Rattle.std.specs.Prelude.{◌≡◌, ◌∷◌, [], ℕ, List};
ghost use Rattle.std.specs.Option.{option_map, option_map_or};
ghost use Rattle.saa_run.specs.Language.{Readings, ask_in, counted_call_in, lone_call_in};
ghost use Rattle.saa_run.specs.Replies.{reply_words, no_ask, truth_poll};
ghost use Rattle.saa_run.specs.ScriptReplies.{script_words};

use crate::script::reply::ScriptReply;
use saa::bench::{Primitive, Reply, ReplyOf};
use saa::ticket::Error;

/// A primitive that scripts reply_to to.
pub trait ScriptCore: Primitive {
    // How its lines are read, and the words of its calls' answers and of its polls'.
    ghost readings: { Readings Self.Call Self.Ask };

    ghost answer_words: { Self.Answer → List ℕ };

    ghost poll_words: { Self.Value → List ℕ };

    /// The call that is this word.
    fn lone_call(word: &[u8]) -> Option<Self::Call>
        ensures { result ≡ lone_call_in readings word.now };

    /// The call that is this word and a number.
    fn counted_call(word: &[u8], count: usize) -> Option<Self::Call>
        ensures { result ≡ counted_call_in readings word.now count };

    /// What a registration asks, by the field between its pager and its mode, where there is one.
    fn ask(field: Option<&[u8]>) -> Option<Self::Ask>
        ensures { result ≡ ask_in readings (option_map (λ bytes. bytes.now) field.entry) };

    /// What a call's answer says.
    fn answer_reply(answer: Self::Answer) -> ScriptReply
        ensures { script_words result ≡ answer_words answer };

    /// What a poll's answer says.
    fn poll_reply(answer: Self::Value) -> ScriptReply
        ensures { script_words result ≡ poll_words answer };
}

/// What a reply says.
pub fn replied<P: ScriptCore>(reply: Reply<P>) -> ScriptReply
    ensures { script_words result ≡ reply_words P.answer_words P.poll_words reply }
{
    match reply {
        ReplyOf::Answered(answer) => P::answer_reply(answer),
        ReplyOf::Registered(Ok(truth)) => ScriptReply::Truth(truth),
        ReplyOf::Registered(Err(_)) => ScriptReply::Full,
        ReplyOf::Polled(answer) => P::poll_reply(answer),
        ReplyOf::Dropped => ScriptReply::Dropped,
    }
}

/// Of a kind whose registrations ask nothing: only no field is good.
pub fn nothing_asked(field: Option<&[u8]>) -> Option<()>
    ensures { result ≡ no_ask (option_map_or (λ bytes. bytes.now ∷ []) field.entry []) }
{
    match field {
        None => Some(()),
        Some(_) => None,
    }
}

/// What a poll's answer says where it is a truth.
pub fn truth_reply(answer: Result<bool, Error>) -> ScriptReply
    ensures { script_words result ≡ truth_poll answer }
{
    match answer {
        Ok(truth) => ScriptReply::Truth(truth),
        Err(error) => ScriptReply::Refused(error),
    }
}
