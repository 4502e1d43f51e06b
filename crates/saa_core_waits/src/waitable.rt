//! What a form offers to waits of every kind.
//!
//! What is pending for a task stays with the task, in a registration: a ticket at a core, or a place at a word. A form says by relations what each
//! call does to a registration. What a call does to the form itself is the form's to say, by these relations too where it can.

ghost use Rattle.std.specs.Prelude.{◌≡◌, ◌&&◌, ℕ, ⊤, Bool, true, false, not, Err, IfErr, IfOk, Option, Result};
ghost use Rattle.futures.specs.Poll.{IfReady, OnPending};
ghost use Rattle.futures.specs.Task.{Hears, IsArmed, Keeps};
ghost use Rattle.saa_core_spec.specs.declared.polling.Error.{Error};
ghost use Rattle.saa_core_spec.specs.declared.polling.Error.TheVariants.{NotReady};
ghost use Rattle.saa_core_spec.specs.declared.polling.How.{How};
ghost use Rattle.saa_core_spec.specs.declared.polling.How.TheVariants.{Async, Sync};
ghost use Rattle.saa_core_spec.specs.declared.request.Full.{Full};
ghost use Rattle.saa_core_spec.specs.declared.request.Request.{Request};
ghost use Rattle.saa_core_spec.specs.Errors.{error_of, is_not_ready};
ghost use Rattle.saa_core_waits.specs.Waits.{HasEnded, HasStarted};

use crate::deadline::Deadline;
use futures::task::{Context, Poll};
use saa_core_spec::polling::{Error, How};
use saa_core_spec::request::Full;

/// How a call that may block began.
#[derive(Drop)]
pub enum CallStart {
    /// The registration is false: nothing is registered.
    Refused,
    /// It was answered at once, with this number.
    Answered(u8),
    /// It joined the queue.
    Joined,
}

/// A form at which tasks wait.
///
/// Each registration is used with the form that it was made at. A number that a poll answers is what the form's documents say.
pub trait Waitable: Sized {
    /// What a registration asks.
    type Ask: Copy;

    /// What a task keeps of its registration.
    type Registration: Drop;

    // The registrations that a form takes: those that are its own.
    ghost admits: { Self → Self.Registration → Type 0 };

    // What the registration of an ask does to a registration, as sync or as async, with what it answers; what a poll does, and a cancel.
    ghost registers: { Self.Ask → Bool → Self.Registration → Self.Registration → Result Bool Full → Type 0 };

    ghost polls: { How → Self.Registration → Self.Registration → Result ℕ Error → Type 0 };

    ghost cancels: { Self.Registration → Self.Registration → Type 0 };

    /// Registers for what is asked, to be polled as sync or as async. Never waits for an answer.
    ///
    /// `Ok(true)`: it is answered at once, or has joined the queue. `Ok(false)`: it is registered already, or asks for more than there ever is.
    /// `Full`: it would have to wait, and there is no slot for one more waiter. All but `Ok(true)` leave the registration as it was.
    fn register(
        &self,
        registration: &mut Self::Registration,
        ask: Self::Ask,
        is_sync: bool,
    ) -> Result<bool, Full>
        requires { admits self.now registration.old }
        ensures registered { registers ask is_sync registration.old registration.new result }
        ensures admitted { admits self.now registration.new };

    /// Registers as sync as [`Self::register`] does, and takes the answer where it is there at once.
    fn start(
        &self,
        registration: &mut Self::Registration,
        ask: Self::Ask,
    ) -> Result<CallStart, Full>
        requires { admits self.now registration.old }
        ensures started { HasStarted (registers ask true) (polls Sync) registration.old registration.new result }
        ensures admitted { admits self.now registration.new };

    /// Polls a registration: as sync it waits until there is an answer, and else it says `NotReady` where there is none yet.
    ///
    /// An answer is taken by that. An error leaves the registration as it was.
    fn poll(&self, registration: &mut Self::Registration, how: How) -> Result<u8, Error>
        requires { admits self.now registration.old }
        ensures polled { polls how registration.old registration.new result }
        ensures waited { how ≡ Sync → is_not_ready (error_of result) ≡ false }
        ensures admitted { admits self.now registration.new };

    /// Waits for the answer of a registration as sync, and takes it; or cancels, where none comes.
    ///
    /// An error says why none comes: the registration isn't known here. It is cancelled then.
    fn finish(&self, registration: &mut Self::Registration) -> Result<u8, Error>
        requires { admits self.now registration.old }
        ensures ended { HasEnded (polls Sync) cancels registration.old registration.new result }
        ensures waited { is_not_ready (error_of result) ≡ false }
        ensures admitted { admits self.now registration.new };

    /// Drops what it is registered for, and wakes each waiter that this answers. Where it isn't registered, it only stays so.
    fn cancel_registration(&self, registration: &mut Self::Registration)
        requires { admits self.now registration.old }
        ensures cancelled { cancels registration.old registration.new }
        ensures admitted { admits self.now registration.new };
}

/// A form that was made with a clock, at which waits end in time.
pub trait WaitableUntil: Waitable {
    /// Polls a registration as sync, and waits for its answer until the deadline. `NotReady`: time is up, and the registration is as it was.
    fn poll_until(
        &self,
        registration: &mut Self::Registration,
        deadline: Deadline,
    ) -> Result<u8, Error>
        requires { Self.admits self.now registration.old }
        ensures polled { Self.polls Sync registration.old registration.new result }
        ensures admitted { Self.admits self.now registration.new };

    /// As [`Waitable::finish`], and waits until the deadline. `NotReady`: time is up, and the registration is cancelled.
    ///
    /// It looks once more before it cancels, so that an answer which came in time is told.
    fn finish_until(
        &self,
        registration: &mut Self::Registration,
        deadline: Deadline,
    ) -> Result<u8, Error>
        requires { Self.admits self.now registration.old }
        ensures ended { HasEnded (Self.polls Sync) Self.cancels registration.old registration.new result }
        ensures admitted { Self.admits self.now registration.new };
}

/// A form at which tasks wait by futures.
pub trait Pends: Waitable {
    /// What a task keeps of a future: what it asks, its registration once it has joined, and whether it has ended.
    type Pending: Drop;

    // What may be pending at a form: that of which the registration is its own.
    ghost admits_pending: { Self → Self.Pending → Type 0 };

    // What a task that polls here waits for; and of what is pending, what it asks, whether it is registered, and whether it has ended.
    ghost source: { Self → ℕ };

    ghost asked: { Self.Pending → Request };

    ghost is_registered: { Self.Pending → Bool };

    ghost has_ended: { Self.Pending → Bool };

    // What a form says of an answer, by what was pending: how it came to be.
    ghost answers: { Self → Self.Pending → Option ℕ → Type 0 } = { λ _ _ _. ⊤ };

    // How what was pending was withdrawn.
    ghost withdraws: { Self → Self.Pending → Type 0 } = { λ _ _. ⊤ };

    // And what it says of itself where it refuses a wait, `Full`.
    ghost refuses: { Self → Type 0 } = { λ _. ⊤ };

    /// Whether it has ended: by an answer, by `Full`, or by a cancel. Then nothing of it is registered.
    fn has_ended(pending: &Self::Pending) -> bool
        ensures { result ≡ has_ended pending.now };

    /// One with nothing pending, which takes the place of one while that is polled.
    fn vacant(pending: &Self::Pending) -> Self::Pending
        ensures { (form : Self) → admits_pending form result };

    /// Polls what is pending for a task: the first time it registers as async. Says too whether it joined the queue by that.
    ///
    /// `None` in place of a number says that its registration is false. While the answer isn't there the poll stays pending, and the task is
    /// woken once it is: its waker is kept at the form, in place of that of a task which polled before. Where no waker can be made, it is woken at once.
    fn advance(
        &self,
        pending: &mut Self::Pending,
        cx: &mut Context<'_>,
    ) -> (Poll<Result<Option<u8>, Full>>, bool)
        requires admitted { admits_pending self.now pending.old }
        requires unended { has_ended pending.old ≡ false }
        ensures answered { IfReady result.0 (λ reply. IfOk reply (answers self.now pending.old)) }
        ensures full { IfReady result.0 (λ reply. IfErr reply (λ full. refuses self.now)) }
        ensures same { OnPending result.0 ((answer : Option ℕ) → answers self.now pending.new answer → answers self.now pending.old answer) }
        ensures armed { OnPending result.0 (IsArmed cx.new) }
        ensures heard { OnPending result.0 (Hears cx.new (source self.now)) }
        ensures kept { Keeps cx.old cx.new }
        ensures ended { IfReady result.0 (λ answer. has_ended pending.new ≡ true) }
        ensures pending { OnPending result.0 (has_ended pending.new ≡ false) }
        ensures joined { result.1 ≡ (not (is_registered pending.old) && is_registered pending.new) }
        ensures asked { asked pending.new ≡ asked pending.old }
        ensures admitted { admits_pending self.now pending.new };

    /// Polls a registration as async for a task: where the answer isn't there yet, the poll stays pending, and the task is woken once it is there.
    ///
    /// Of several tasks that polled, the last is woken. Where no waker can be made, the task is woken at once. Every other answer is ready, the errors
    /// of a poll among them.
    fn poll_async(
        &self,
        registration: &mut Self::Registration,
        cx: &mut Context<'_>,
    ) -> Poll<Result<u8, Error>>
        requires { Self.admits self.now registration.old }
        ensures ready { IfReady result (λ answer. Self.polls Async registration.old registration.new answer) }
        ensures waited { IfReady result (λ answer. is_not_ready (error_of answer) ≡ false) }
        ensures pending { OnPending result (Self.polls Async registration.old registration.new (Err NotReady)) }
        ensures armed { OnPending result (IsArmed cx.new) }
        ensures heard { OnPending result (Hears cx.new (source self.now)) }
        ensures kept { Keeps cx.old cx.new }
        ensures admitted { Self.admits self.now registration.new };

    /// Drops what is pending: a waiter leaves the queue and disturbs nobody by it, and what was granted and not told yet is given back.
    fn give_up(&self, pending: &mut Self::Pending)
        requires { admits_pending self.now pending.old }
        ensures left { is_registered pending.new ≡ false }
        ensures withdrawn { withdraws self.now pending.old };
}
