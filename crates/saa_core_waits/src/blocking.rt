//! Calls that block: a registration as sync, and the wait for its answer. Nothing stays registered, whatever they answer.
//!
//! An answer is the number that the form answered, or why there is none: `NotRegistered` where the registration is false, or where the form doesn't
//! know what it registered. `Full`: it would have to wait, and there is no slot for one more waiter.

ghost use Rattle.std.specs.Prelude.{◌≡◌, true, false, IfOk};
ghost use Rattle.saa_core_spec.specs.declared.polling.How.TheVariants.{Sync};
ghost use Rattle.saa_core_spec.specs.Errors.{error_of, is_not_ready};
ghost use Rattle.saa_core_waits.specs.Waits.{IsAcquired};

use crate::deadline::Deadline;
use crate::waitable::{CallStart, Waitable, WaitableUntil};
use saa_core_spec::polling::Error;
use saa_core_spec::request::Full;

/// Asks, waits for the answer where it isn't there at once, and takes it.
pub fn acquire<S: Waitable>(
    form: &S,
    registration: &mut S::Registration,
    ask: S::Ask,
) -> Result<Result<u8, Error>, Full>
    requires { S.admits form.now registration.old }
    ensures acquired { IsAcquired (S.registers ask true) (S.polls Sync) S.cancels registration.old registration.new result }
    ensures waited { IfOk result (λ answer. is_not_ready (error_of answer) ≡ false) }
    ensures admitted { S.admits form.now registration.new }
{
    match form.start(registration, ask)? {
        CallStart::Refused => Ok(Err(Error::NotRegistered)),
        CallStart::Answered(value) => Ok(Ok(value)),
        CallStart::Joined => Ok(form.finish(registration)),
    }
}

/// As [`acquire`], and calls `begin_wait` where it joins the queue: once, after the join and before the wait, and never otherwise.
pub fn acquire_with<S: Waitable, F: FnOnce() + Drop>(
    form: &S,
    registration: &mut S::Registration,
    ask: S::Ask,
    begin_wait: F,
) -> Result<Result<u8, Error>, Full>
    requires admitted { S.admits form.now registration.old }
    requires callable { F.pre begin_wait }
    ensures acquired { IsAcquired (S.registers ask true) (S.polls Sync) S.cancels registration.old registration.new result }
    ensures waited { IfOk result (λ answer. is_not_ready (error_of answer) ≡ false) }
    ensures admitted { S.admits form.now registration.new }
{
    match form.start(registration, ask)? {
        CallStart::Refused => Ok(Err(Error::NotRegistered)),
        CallStart::Answered(value) => Ok(Ok(value)),
        CallStart::Joined => {
            begin_wait();
            Ok(form.finish(registration))
        }
    }
}

/// As [`acquire`], and waits until the deadline. `NotReady`: time is up.
pub fn acquire_until<S: WaitableUntil>(
    form: &S,
    registration: &mut S::Registration,
    ask: S::Ask,
    deadline: Deadline,
) -> Result<Result<u8, Error>, Full>
    requires { S.admits form.now registration.old }
    ensures acquired { IsAcquired (S.registers ask true) (S.polls Sync) S.cancels registration.old registration.new result }
    ensures admitted { S.admits form.now registration.new }
{
    match form.start(registration, ask)? {
        CallStart::Refused => Ok(Err(Error::NotRegistered)),
        CallStart::Answered(value) => Ok(Ok(value)),
        CallStart::Joined => Ok(form.finish_until(registration, deadline)),
    }
}
