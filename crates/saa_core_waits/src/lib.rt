//! Waits at any form: what a form has to offer, and what is built on that once for all forms.
//!
//! A form is what tasks share: it is asked for something, and answers in its own time. `waitable` says what it offers: a registration is made,
//! polled, waited for and cancelled. On that stand calls that block, also until a deadline (`blocking`), futures (`future`), and waits that are
//! kept outside a call (`pager`). `spin_policy` says how long a call looks before it registers, `acquire_error` why one that waits for permits has none. Nothing here names a mutex, a core or a word, so a form may keep its queue as it likes.
#![tactic(auto)]

pub mod acquire_error;
pub mod blocking;
pub mod deadline;
pub mod future;
pub mod pager;
pub mod spin_policy;
pub mod sync_result;
pub mod waitable;

pub use acquire_error::AcquireError;
pub use deadline::Deadline;
pub use future::{Acquiring, AcquiringWith, AnswerReader};
pub use pager::{Pager, PollPager};
pub use spin_policy::SpinPolicy;
pub use sync_result::{SyncResult, Timed};
pub use waitable::{CallStart, Pends, Waitable, WaitableUntil};
