//! A gate as scripts call it.

use crate::forms::{Asks, Form, OF_A_GATE};
use crate::reading::Request;
use crate::script_core::ScriptCore;
use saa_core::gate::{Error, GateAnswer, GateCall, GateCore, State};
use saa_core::primitive::Primitive;
use std::alloc::{AllocError, Global};

impl ScriptCore for GateCore {
    fn owner() -> &'static str {
        "a gate"
    }

    fn forms() -> &'static [Form] {
        &OF_A_GATE
    }

    fn call_of(asks: Asks, count: usize) -> Option<GateCall> {
        match asks {
            Asks::State => Some(GateCall::State),
            Asks::Reset => Some(GateCall::Reset),
            Asks::Permit => Some(GateCall::Permit),
            Asks::PermitMany => Some(GateCall::PermitMany(count)),
            Asks::Reject => Some(GateCall::Reject),
            Asks::Open => Some(GateCall::Open),
            Asks::Seal => Some(GateCall::Seal),
            _ => None,
        }
    }

    fn ask_of(_request: Request) {}

    fn ask_text(alloc: Global, _ask: ()) -> Result<String, AllocError> {
        Ok(String::new(alloc))
    }

    fn answer_text(alloc: Global, answer: GateAnswer) -> Result<String, AllocError> {
        match answer {
            GateAnswer::State(state) => String::from_str(alloc, state_text(state)),
            GateAnswer::Reset(None) => String::from_str(alloc, "none"),
            GateAnswer::Reset(Some(state)) => String::from_str(alloc, state_text(state)),
            GateAnswer::Answered(Ok(count)) => format!(in alloc; "ok {count}"),
            GateAnswer::Answered(Err(state)) => format!(in alloc; "err {}", state_text(state)),
            GateAnswer::Moved(state, count) => format!(in alloc; "{} {count}", state_text(state)),
        }
    }

    fn poll_text(alloc: Global, value: Result<State, Error>) -> Result<String, AllocError> {
        match value {
            Ok(state) => format!(in alloc; "ok {}", state_text(state)),
            Err(error) => String::from_str(alloc, error_text(error)),
        }
    }

    fn held_text(&mut self, alloc: Global) -> Result<String, AllocError> {
        String::from_str(alloc, state_text(self.state()))
    }
}

/// The word of a gate's state.
fn state_text(state: State) -> &'static str {
    match state {
        State::Controlled => "controlled",
        State::Sealed => "sealed",
        State::Open => "open",
    }
}

/// Why a poll of a gate isn't let through, as `saa-run` writes it.
fn error_text(error: Error) -> &'static str {
    match error {
        Error::Rejected => "rejected",
        Error::Sealed => "sealed",
        Error::SpuriousFailure => "spurious",
        Error::NotRegistered => "not_registered",
        Error::WrongMode => "wrong_mode",
        Error::NotReady => "not_ready",
    }
}
