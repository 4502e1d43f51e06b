//! The language of stories, what a move answers in its words, and the player of stories at a core.
//!
//! `test_core` plays stories at the cores, `test_stories` at the forms.
#![tactic(auto)]

pub mod cores;
pub mod language;
pub mod reply;
pub mod worked;
