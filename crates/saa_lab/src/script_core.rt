//! A core as scripts call it: the forms of its lines, and the words for what it answers.

pub mod barrier;
pub mod gate;
pub mod lock;
pub mod semaphore;

use crate::forms::{Asks, Form};
use crate::reading::Request;
use saa_core::primitive::Primitive;
use std::alloc::{AllocError, Global};

/// A primitive whose core scripts call.
pub trait ScriptCore: Primitive {
    /// What one is called, as `a semaphore`.
    fn owner() -> &'static str;

    /// The forms of its lines.
    fn forms() -> &'static [Form];

    /// The call that a line asks for; `None` where it asks for none of this primitive's.
    fn call_of(asks: Asks, count: usize) -> Option<Self::Call>;

    /// What a registration asks.
    fn ask_of(request: Request) -> Self::Ask;

    /// What a registration asks, in words.
    fn ask_text(alloc: Global, ask: Self::Ask) -> Result<String, AllocError>;

    /// What a call answers, as `saa-run` writes it.
    fn answer_text(alloc: Global, answer: Self::Answer) -> Result<String, AllocError>;

    /// What a poll answers, as `saa-run` writes it.
    fn poll_text(alloc: Global, value: Self::Value) -> Result<String, AllocError>;

    /// What is held, in words.
    fn held_text(&mut self, alloc: Global) -> Result<String, AllocError>;
}
