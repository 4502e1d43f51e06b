//! Named futures: registrations that tasks poll, each dropped as a cancel.
//!
//! Each is `Acquiring`, or `AcquiringWith` where a callback comes with it, at a form and with a reader of its answers; the calls that make
//! them are those of the forms whose names end in `_async` and `_async_with`. What a poll does to the core and answers is said by the contracts
//! of `poll_on` and `cancel_on` (`PollOn`), over `specs/Futures.antt` of `saa_core` and the readings here.

pub mod barrier;
pub mod gate;
pub mod lock;
mod poll_on;
pub mod semaphore;

pub use crate::future::barrier::{Arrival, ArriveFuture, ArriveFutureWith};
pub use crate::future::gate::{Enter, EnterWith, Passing};
pub use crate::future::lock::{LockFuture, LockFutureWith, ShareFuture, ShareFutureWith, Turn};
pub use crate::future::semaphore::{
    Acquire, AcquireMany, AcquireManyOf, AcquireManyWith, AcquireManyWithOf, AcquireOf,
    AcquireWith, AcquireWithOf, ManyPermits, OnePermit,
};
pub use crate::lock_api::{MutexFuture, ReadFuture, WriteFuture};
pub use crate::pager::PollPager;
pub use poll_on::PollOn;
pub use saa_core::future::{PendingRegistration, Progress};
pub use saa_core_waits::future::{Acquiring, AcquiringWith, AnswerReader};
