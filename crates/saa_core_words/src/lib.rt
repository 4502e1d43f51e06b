//! Words: what is held, the waiters, their links and what is answered, in numbers.
//!
//! A main word keeps the count of what is held, a flag, poison, and the newest waiter. Each place has a line word, which
//! keeps what it asks and its two neighbours, and an answer word. Rule: docs/PROTOCOL.md, "The words".
#![tactic(auto)]

pub mod answer_word;
pub mod line_word;
pub mod links;
pub mod requests;
pub mod word;
