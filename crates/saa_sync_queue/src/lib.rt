//! A bounded queue with back pressure: producers wait while it is full, and consumers while it is empty. Items are FIFO, and so are the waiters at
//! both ends.
//!
//! `queue` has the queue and its calls, and `future` the waits of tasks at both ends. `items` has the items, under one mutex: what no call may get
//! wrong is proved there. Two semaphores count free places and items, and decide which task is let in, in which order, and how each kind of call waits.
#![tactic(auto)]

mod future;
mod items;
mod pop_error;
mod push_error;
mod queue;

pub use future::{Popping, PoppingFrom, Pushing, PushingTo};
pub use pop_error::PopError;
pub use push_error::PushError;
pub use queue::Queue;
