//! What scripts say to a barrier, and what it answers. Held to `specs/BarrierWords.antt`.
//!
//! A poll that answers true or false, and a registration that says nothing of what it asks, are here too: a lock and a
//! gate share them.
ghost use Rattle.std.specs.Prelude.{◌≡◌};
ghost use Rattle.saa_run.specs.Language.{lone_call_in};
ghost use Rattle.saa_run.specs.BarrierWords.{barrier_answer, barrier_readings};
ghost use Rattle.saa_run.specs.Replies.{truth_poll};
ghost use Rattle.saa_run.specs.ScriptReplies.{script_words};

use crate::script::reply::ScriptReply;
use crate::script::script_core::{ScriptCore, nothing_asked, truth_reply};
use crate::words::meaning;
use saa::barrier::{BarrierAnswer, BarrierCall, BarrierCore};
use saa::ticket::Error;

impl ScriptCore for BarrierCore {
    ghost readings = { barrier_readings };

    ghost answer_words = { barrier_answer };

    ghost poll_words = { truth_poll };

    fn lone_call(word: &[u8]) -> Option<BarrierCall> {
        lone_call(word)
    }

    #[tactic(auto, unfolding(crate::specs::Language::counted_call_in))]
    fn counted_call(_word: &[u8], _count: usize) -> Option<BarrierCall> {
        None
    }

    #[tactic(auto, unfolding(crate::specs::Language::ask_in))]
    fn ask(field: Option<&[u8]>) -> Option<()> {
        nothing_asked(field)
    }

    fn answer_reply(answer: BarrierAnswer) -> ScriptReply {
        answer_reply(answer)
    }

    fn poll_reply(answer: Result<bool, Error>) -> ScriptReply {
        truth_reply(answer)
    }
}

/// The words of the calls.
static CALLS: [(&str, BarrierCall); 5] = [
    ("count", BarrierCall::Count),
    ("arrive", BarrierCall::Arrive),
    ("join", BarrierCall::Join),
    ("leave_barrier", BarrierCall::Leave),
    ("round", BarrierCall::Round),
];

/// A call.
#[tactic(auto, unfolding(crate::specs::Language::lone_call_in))]
fn lone_call(word: &[u8]) -> Option<BarrierCall>
    ensures { result ≡ lone_call_in barrier_readings word.now }
{
    meaning(&CALLS, word)
}

/// What a call's answer says.
fn answer_reply(answer: BarrierAnswer) -> ScriptReply
    ensures { script_words result ≡ barrier_answer answer }
{
    match answer {
        BarrierAnswer::Count(number) => ScriptReply::Number(number),
        BarrierAnswer::Bool(truth) => ScriptReply::Truth(truth),
        BarrierAnswer::Round(number) => ScriptReply::Number(number as usize),
    }
}
