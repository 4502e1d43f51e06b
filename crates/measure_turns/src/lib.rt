//! How long turns take: at the locks and semaphores that `saa_core_guards` knows, whatever their form, and at primitives of the kit.
//!
//! `tries` says what is tried, `asks` what tasks ask for, and `turns` what threads take turns at. `polls` polls futures by hand, `tasks` runs tasks that
//! take turns, `meeting` has threads take turns at one thing for some time, and `sides` times two threads that need one another. `prints` prints what
//! they give, `forms` the rows of any form of this library, and `kit` those of `tokio`, `crossbeam_utils` and std. A program says which forms, and in which
//! order rows come.
#![tactic(auto)]

pub mod asks;
pub mod forms;
pub mod kit;
pub mod machine;
pub mod meeting;
pub mod pass;
pub mod polls;
pub mod prints;
pub mod sides;
pub mod tasks;
pub mod tries;
pub mod turns;
