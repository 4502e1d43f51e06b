//! Single steps of a form that is kept in words: what a place is about to do to which word, and how it goes on with what it finds.
//!
//! Both are pure, over plain data, so that a machine that takes one step at a time and threads that share the words can use the
//! same functions. `docs/PROTOCOL.md` tells the protocol, and `specs/AbstractState.antt` what the whole is at each moment.
#![tactic(auto)]

pub mod call;
pub mod event;
pub mod laws;
mod leave;
pub mod operation;
pub mod place;
mod poison;
pub mod resume;
pub mod rules;
pub mod start;
