//! A pool of values that tasks in threads check out and give back. Waiters are FIFO, and so are the values.
//!
//! `pool` has the pool and its calls, `checkout` a value that is out and comes back as its guard goes, and `future` the wait of a task.
//! `shelf` has the values that are in and the counts, under one mutex: what no call may get wrong is proved there. A semaphore decides which task gets
//! a value, in which order, and how each kind of call waits.
#![tactic(auto)]

mod checkout;
mod counts;
mod future;
mod pool;
mod refused;
mod shelf;

pub use checkout::{Checkout, Shrunk};
pub use circular_buffer::IntoIter as Drained;
pub use counts::Counts;
pub use future::CheckingOut;
pub use pool::Pool;
pub use refused::Refused;
