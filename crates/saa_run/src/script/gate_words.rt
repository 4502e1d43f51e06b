//! What scripts say to a gate, and what it answers. Held to `specs/GateWords.antt`.
ghost use Rattle.std.specs.Prelude.{◌≡◌};
ghost use Rattle.saa_run.specs.Language.{counted_call_in, lone_call_in};
ghost use Rattle.saa_run.specs.GateWords.{gate_answer, gate_poll, gate_readings};
ghost use Rattle.saa_run.specs.ScriptReplies.{script_words};

use crate::script::reply::ScriptReply;
use crate::script::script_core::{ScriptCore, nothing_asked};
use crate::words::meaning;
use saa::gate::{Error, GateAnswer, GateCall, GateCore, State};

impl ScriptCore for GateCore {
    ghost readings = { gate_readings };

    ghost answer_words = { gate_answer };

    ghost poll_words = { gate_poll };

    fn lone_call(word: &[u8]) -> Option<GateCall> {
        lone_call(word)
    }

    fn counted_call(word: &[u8], count: usize) -> Option<GateCall> {
        counted_call(word, count)
    }

    #[tactic(auto, unfolding(crate::specs::Language::ask_in))]
    fn ask(field: Option<&[u8]>) -> Option<()> {
        nothing_asked(field)
    }

    fn answer_reply(answer: GateAnswer) -> ScriptReply {
        answer_reply(answer)
    }

    fn poll_reply(answer: Result<State, Error>) -> ScriptReply {
        poll_reply(answer)
    }
}

/// The words of the calls that are one word.
static CALLS: [(&str, GateCall); 6] = [
    ("state", GateCall::State),
    ("reset", GateCall::Reset),
    ("permit", GateCall::Permit),
    ("reject", GateCall::Reject),
    ("open", GateCall::Open),
    ("seal", GateCall::Seal),
];

/// A call that is one word.
#[tactic(auto, unfolding(crate::specs::Language::lone_call_in))]
fn lone_call(word: &[u8]) -> Option<GateCall>
    ensures { result ≡ lone_call_in gate_readings word.now }
{
    meaning(&CALLS, word)
}

/// A call that is a word and a number.
#[tactic(auto, unfolding(crate::specs::Language::counted_call_in))]
fn counted_call(word: &[u8], count: usize) -> Option<GateCall>
    ensures { result ≡ counted_call_in gate_readings word.now count }
{
    if word == b"permit_many".as_slice() {
        return Some(GateCall::PermitMany(count));
    }
    None
}

/// What a call's answer says.
fn answer_reply(answer: GateAnswer) -> ScriptReply
    ensures { script_words result ≡ gate_answer answer }
{
    match answer {
        GateAnswer::State(state) => ScriptReply::GateState(state),
        GateAnswer::Reset(None) => ScriptReply::NoState,
        GateAnswer::Reset(Some(state)) => ScriptReply::GateState(state),
        GateAnswer::Answered(Ok(number)) => ScriptReply::Answered(number),
        GateAnswer::Answered(Err(state)) => ScriptReply::Turned(state),
        GateAnswer::Moved(state, number) => ScriptReply::Moved(state, number),
    }
}

/// What a poll's answer says.
fn poll_reply(answer: Result<State, Error>) -> ScriptReply
    ensures { script_words result ≡ gate_poll answer }
{
    match answer {
        Ok(state) => ScriptReply::Passed(state),
        Err(error) => ScriptReply::Barred(error),
    }
}
