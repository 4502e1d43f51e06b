//! Pagers, at the threaded forms: see `saa_core_waits::pager`. A pager of a form is registered by the form's `register_pager`.

pub use saa_core::ticket::{Error, How, Ticket};
pub use saa_core_waits::SyncResult;

/// A place in a primitive's queue that outlives the call that took it: registered by the primitive's `register_pager`, then polled.
pub type Pager<'s, S> = saa_core_waits::Pager<'s, S, Ticket>;

/// The future of a pager's answer.
pub type PollPager<'p, 's, S> = saa_core_waits::PollPager<'p, 's, S, Ticket>;
