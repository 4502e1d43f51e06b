//! Lines of any language: an input is read a line at a time, each good line is answered on a line of its own, and the first bad
//! one is told.
//!
//! The engine under the two languages of `saa_run`; it knows no primitive and no machine. `transfer` moves
//! bytes, `fields` parts a line, `reply` writes what is said, `steps` answers the lines behind the first one by one, and `run` is
//! the whole, over any reader and writer. A language is an `header::Header`, which makes a `steps::Session`, whose replies are a
//! `reply::Reply`.
#![tactic(auto)]

pub mod ended;
pub mod fields;
pub mod header;
pub mod reply;
pub mod run;
pub mod steps;
pub mod transfer;
