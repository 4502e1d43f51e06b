//! A pool of values without a lock: a call takes one out and gives it back, and is refused where all are out.
//!
//! A count says how many values a call may still take, each value rests in a slot of a table while it is in, and hints say which slots to look at.
//! The count decides whether a call gets one, and the word of a slot decides who gets the value there, so a hint may be wrong.
#![tactic(auto)]

mod hints;
mod pool;
mod table;

pub use pool::{AllOut, Borrowed, Pool, Receipt};
pub use table::{AnyValue, Part, PoolRule, Resting, View};
