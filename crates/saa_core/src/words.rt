//! The numbers that keep and show what is held, the waiters and their answers: a main word, the line words and the answer words.
//! Rule: docs/PROTOCOL.md, "The words".

pub use saa_core_words::{answer_word, line_word, links, requests, word};
