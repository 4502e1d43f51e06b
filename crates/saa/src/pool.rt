//! A pool of values that tasks in threads check out and give back.

pub use saa_sync_pool::{CheckingOut, Checkout, Counts, Drained, Pool, Refused, Shrunk};
