//! Calls that wait for a while: beside each call that may wait for ever, but those with a callback, one that ends in time.
//!
//! They ask for a clock, `R: Wait + Clock + Drop`, as `&HostRuntime` is one. Each registers at once, without a look before it, waits, and
//! where the time is up polls once more: an answer that is there then is returned, and else what is registered is dropped, under the
//! same lock, with what the drop does. So no grant is lost and none is answered twice, and `None` says that nothing is registered any
//! more. It comes only once the time is up; how long after that isn't bounded, by the mutex and the scheduler.
//!
//! A duration of 0, or an instant that has passed, is a registration with two polls and no spin; it takes a slot for that time, and its
//! end cancels as any other does. A poll of a pager is another case: it registers and drops nothing, `None` leaves the pager as it was, and
//! of no time it is one poll. A clock that can't be read ends a wait at once, as if the time were up.

mod barrier;
mod gate;
mod lock;
mod semaphore;

pub use gate::TimedEntry;
pub use saa_core_waits::{Deadline, Timed};
