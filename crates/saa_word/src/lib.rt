//! Forms that are kept in words: a machine that makes one atomic step at a time, of any number of places.
//!
//! What a place does next, and how it goes on with what it finds, is `saa_word_steps`'. Here stand the words that the steps are
//! made on, and who may touch them. `docs/PROTOCOL.md` tells the protocol.
#![tactic(auto)]

mod cell;
mod count;
pub mod kind;
pub mod laws;
pub mod machine;
pub mod moves;
mod words;
