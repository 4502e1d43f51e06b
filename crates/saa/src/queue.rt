//! A bounded queue with back pressure that threads and tasks push to and pop from.

pub use saa_sync_queue::{PopError, Popping, PoppingFrom, PushError, Pushing, PushingTo, Queue};
