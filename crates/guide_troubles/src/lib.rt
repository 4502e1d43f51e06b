//! The programs of docs/TROUBLES.md, as they are once they are mended: a module each.
//!
//! What each was before is an edit. Those of `refused/` the front end refuses, and those of `must-fail/` the prover; the line `says:` of
//! each is what is said of it, which scripts/check_troubles compares.
#![tactic(auto)]

pub mod clock;
pub mod combined;
pub mod counted;
pub mod merged;
pub mod named;
pub mod passed;
pub mod permission;
pub mod room;
pub mod spawned;
pub mod told;
pub mod worker;
