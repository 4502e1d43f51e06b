//! A barrier as scripts call it.

use crate::forms::{Asks, Form, OF_A_BARRIER};
use crate::reading::Request;
use crate::script_core::ScriptCore;
use crate::script_core::semaphore::error_text;
use saa_core::barrier::{BarrierAnswer, BarrierCall, BarrierCore};
use saa_core::primitive::Primitive;
use saa_core::ticket::Error;
use std::alloc::{AllocError, Global};

impl ScriptCore for BarrierCore {
    fn owner() -> &'static str {
        "a barrier"
    }

    fn forms() -> &'static [Form] {
        &OF_A_BARRIER
    }

    fn call_of(asks: Asks, _count: usize) -> Option<BarrierCall> {
        match asks {
            Asks::Arrivals => Some(BarrierCall::Count),
            Asks::Arrive => Some(BarrierCall::Arrive),
            Asks::Join => Some(BarrierCall::Join),
            Asks::LeaveBarrier => Some(BarrierCall::Leave),
            Asks::Round => Some(BarrierCall::Round),
            _ => None,
        }
    }

    fn ask_of(_request: Request) {}

    fn ask_text(alloc: Global, _ask: ()) -> Result<String, AllocError> {
        Ok(String::new(alloc))
    }

    fn answer_text(alloc: Global, answer: BarrierAnswer) -> Result<String, AllocError> {
        match answer {
            BarrierAnswer::Count(count) => format!(in alloc; "{count}"),
            BarrierAnswer::Bool(truth) => format!(in alloc; "{truth}"),
            BarrierAnswer::Round(number) => format!(in alloc; "{number}"),
        }
    }

    fn poll_text(alloc: Global, value: Result<bool, Error>) -> Result<String, AllocError> {
        match value {
            Ok(is_leader) => format!(in alloc; "{is_leader}"),
            Err(error) => String::from_str(alloc, error_text(error)),
        }
    }

    fn held_text(&mut self, alloc: Global) -> Result<String, AllocError> {
        match self.count() {
            1 => String::from_str(alloc, "1 arrival to come"),
            count => format!(in alloc; "{count} arrivals to come"),
        }
    }
}
