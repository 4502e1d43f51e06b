//! What a pager asks of a primitive: how its answers read, what an idle registration is, and a poll and a cancel of a registration.
//!
//! The type of a registration is a parameter of these traits, and the rest of a form is left out, so that what is generic in a form knows one
//! associated type of it: of more the toolchain proves no call that hands a pager's future on.

ghost use Rattle.std.specs.Prelude.{◌≡◌, ℕ, ⊤, Bool, false, Option, None, Some, IfSome, IsNone, Result, Err};
ghost use Rattle.futures.specs.Poll.{IfReady, OnPending};
ghost use Rattle.futures.specs.Task.{Hears, IsArmed, Keeps};
ghost use Rattle.saa_core_spec.specs.declared.polling.Error.{Error};
ghost use Rattle.saa_core_spec.specs.declared.polling.How.{How};
ghost use Rattle.saa_core_spec.specs.declared.polling.How.TheVariants.{Async, Sync};
ghost use Rattle.saa_core_spec.specs.Errors.{error_of, is_not_ready};
ghost use Rattle.saa_core_waits.specs.Waits.{HasPolled, ReadsAs, poll_fault};

use crate::deadline::Deadline;
use futures::task::{Context, Poll};
use saa_core_spec::polling::{Error, How};
use std::time::Duration;

/// A primitive that pagers wait at, with registrations of the type `T`.
pub trait SyncResult<T: Drop>: Sized {
    /// What a poll answers.
    type Result: Copy + Eq;

    // Which values may be read, which are answers, what an answer reads as, and which readings are an error of the poll.
    ghost is_value: { ℕ → Type 0 };

    ghost is_answer: { ℕ → Type 0 };

    ghost answer: { ℕ → Option Error → Self.Result };

    ghost fault: { Self.Result → Option Error };

    // What a poll is told, by the number that the primitive answered, or by why there is none; an error reads as in `answer`.
    ghost reading: { Result ℕ Error → Self.Result };

    ghost errors: { (value : ℕ) (error : Error) → answer value (Some error) ≡ reading (Err error) };

    // The registrations that are its own, and what a task that polls here waits for.
    ghost admits: { Self → T → Type 0 };

    ghost source: { Self → ℕ };

    // A registration that isn't registered, and whether one is; whether a way to poll one is that of the other mode; and the number
    // that one was answered at once, if it was.
    ghost idle: { T };

    ghost is_busy: { T → Bool };

    ghost is_wrong_mode: { How → T → Bool };

    ghost at_once: { T → Option ℕ };

    // How an answer came to be, by what was registered, and how what was registered was withdrawn; anything will do unless a primitive says more.
    ghost answers: { T → ℕ → Type 0 } = { λ _ _. ⊤ };

    ghost withdraws: { T → Type 0 } = { λ _. ⊤ };

    // An idle registration is taken everywhere, is the one that isn't registered, and has no answer.
    ghost admits_idle: { (form : Self) → admits form idle };

    ghost idle_is_free: { is_busy idle ≡ false };

    ghost free_is_idle: { (registration : T) → is_busy registration ≡ false → registration ≡ idle };

    ghost idle_is_unanswered: { at_once idle ≡ None };

    /// What a poll answers, by the value of an answer, or by the error if there is one; then the value isn't read.
    ///
    /// Without an error a primitive may ask that the value is one that it answers (a condition; each says which). A
    /// value that it answers never reads as an error of a poll.
    fn to_result(value: u8, pager_error: Option<Error>) -> Self::Result
        requires { pager_error ≡ None → is_value value }
        ensures answer { result ≡ answer value pager_error }
        ensures fault { (pager_error ≡ None → is_answer value) → fault result ≡ poll_fault pager_error };

    /// What a poll answers, by the number that the primitive answered, or by why there is none.
    fn read(polled: Result<u8, Error>) -> Self::Result
        ensures reads { result ≡ reading polled }
        ensures error { fault result ≡ error_of polled };

    /// A registration that isn't registered.
    fn unregistered() -> T
        ensures { result ≡ idle };

    /// Whether a registration is registered: it waits, or its answer isn't taken yet.
    fn is_registered_as(registration: &T) -> bool
        ensures { result ≡ is_busy registration.now };

    /// Polls a registration that was made here.
    ///
    /// `How::Sync` waits for the answer; `How::Try` and `How::Async` never sleep for one, and answer `NotReady` where
    /// it isn't there. `NotRegistered`: it is idle, or isn't known here. `WrongMode`: it was registered
    /// as async and is polled as sync, or the other way round. These three leave it as it was; every other
    /// answer leaves it idle. So one that was registered in the other mode is never answered, and one that was
    /// registered as sync is waited for to the end: no wait of it ends by `WrongMode`. May wait for the lock.
    ///
    /// A registration is used with the primitive that it was made at. One from elsewhere isn't told apart where it
    /// was answered at once, or where its slot's number is held here too: it is polled as if it were from here.
    fn take(&self, registration: &mut T, how: How) -> Self::Result
        requires { admits self.now registration.old }
        ensures polled { HasPolled is_busy is_wrong_mode at_once how registration.old registration.new (fault result) }
        ensures answer { ReadsAs (at_once registration.old) (answers registration.old) reading fault result }
        ensures waited { how ≡ Sync → is_not_ready (fault result) ≡ false }
        ensures admitted { admits self.now registration.new };

    /// As [`Self::take`] as async, for a task.
    ///
    /// Where the answer isn't there yet the poll stays pending, and the task is woken once the
    /// answer is there. Where no waker can be made, the task is woken at once.
    /// Every other answer is ready, the three errors of a poll among them. May wait for the lock.
    fn poll_task(&self, registration: &mut T, cx: &mut Context<'_>) -> Poll<Self::Result>
        requires { admits self.now registration.old }
        ensures ready { IfReady result (λ answer. HasPolled is_busy is_wrong_mode at_once Async registration.old registration.new (fault answer)) }
        ensures answer { IfReady result (λ answer. ReadsAs (at_once registration.old) (answers registration.old) reading fault answer) }
        ensures waited { IfReady result (λ answer. is_not_ready (fault answer) ≡ false) }
        ensures pending { OnPending result (registration.new ≡ registration.old) }
        ensures armed { OnPending result (IsArmed cx.new) }
        ensures heard { OnPending result (Hears cx.new (source self.now)) }
        ensures kept { Keeps cx.old cx.new }
        ensures admitted { admits self.now registration.new };

    /// Drops what a registration of this primitive is registered for, and wakes each waiter that this answers; it is idle afterwards.
    ///
    /// May wait for the lock. Of a registration from elsewhere what it was granted at once is given back here, and a slot of its number that
    /// is held here is freed.
    fn cancel(&self, registration: &mut T)
        requires { admits self.now registration.old }
        ensures cancelled { registration.new ≡ idle }
        ensures withdrawn { withdraws registration.old };
}

/// A primitive that was made with a clock, at which the polls of pagers end in time.
pub trait Timed<T: Drop>: SyncResult<T> {
    /// So long from now, by its clock. A clock that can't be read gives a deadline that has passed.
    fn after(&self, duration: Duration) -> Deadline;

    /// As [`SyncResult::take`] as sync, at most until the deadline. `None`: time is up, and the registration is as it was.
    fn take_until(&self, registration: &mut T, deadline: Deadline) -> Option<Self::Result>
        requires { Self.admits self.now registration.old }
        ensures polled { IfSome result (λ answer. HasPolled Self.is_busy Self.is_wrong_mode Self.at_once Sync registration.old registration.new (Self.fault answer)) }
        ensures answer { IfSome result (λ answer. ReadsAs (Self.at_once registration.old) (Self.answers registration.old) Self.reading Self.fault answer) }
        ensures waited { IfSome result (λ answer. is_not_ready (Self.fault answer) ≡ false) }
        ensures late { IsNone result → registration.new ≡ registration.old }
        ensures admitted { Self.admits self.now registration.new };
}
