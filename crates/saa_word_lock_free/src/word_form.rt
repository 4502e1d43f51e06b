//! What a word form offers to the forms here: tries by visitors, and registrations at places.
//!
//! A form says by relations what each call does, in the terms of its own history; nothing above reads them apart. Both word forms implement it, in
//! `of_semaphore` and `of_lock`.

use futures::task::{Context, Poll};
use saa_core_waits::{Deadline, SpinPolicy};
use saa_word_threads::lock::{Error, TryLockError};
use saa_word_threads::receipt::Receipt;
use saa_word_threads::visitor::Visitor;
use std::sync::Wait;
use std::time::Clock;

/// A word form, whose places rest in a pool until a call has to wait.
pub trait WordForm: Sized + Drop {
    ghost use Rattle.std.specs.Prelude.{◌≡◌, ◌≢◌, ◌↔◌, ℕ, Bool, Err, IfOk, IsTrue, Result, false, true};
    ghost use Rattle.atomic_table.specs.Seated.{TableId};
    ghost use Rattle.futures.specs.Poll.{IfReady, OnPending};
    ghost use Rattle.futures.specs.Task.{Hears, IsArmed, Keeps};
    ghost use Rattle.saa_core_spec.specs.declared.lock.TryLockError.{TryLockError};
    ghost use Rattle.saa_core_spec.specs.declared.polling.Error.{Error};
    ghost use Rattle.saa_core_spec.specs.declared.polling.Error.TheVariants.{Closed, NotReady};
    ghost use Rattle.saa_core_spec.specs.declared.request.Request.{Request};
    ghost use Rattle.saa_core_spec.specs.Errors.{error_of, is_not_ready, says_not_registered, says_wrong_mode};
    ghost use Rattle.saa_word_threads.specs.declared.receipt.Receipt.{Receipt};
    ghost use Rattle.saa_word_threads.specs.declared.visitor.Visitor.{Visitor};
    ghost use Rattle.saa_word_lock_free.specs.Places.{table_of};
    ghost use Rattle.saa_word_lock_free.specs.WordCalls.{WordCalls};

    /// What a call asks for.
    type Ask: Copy;

    /// A place of the form.
    type Place: Drop;

    // What an ask is, as a request of the specification, and whether it is for no more than there ever is.
    ghost request: { Self.Ask → Request };

    ghost fits: { Self.Ask → Type 0 };

    // Which of all tables its words are, and what tasks that poll there wait for.
    ghost table: { Self → TableId };

    ghost source: { Self → ℕ };

    // Which table a place is of, and whether it is registered as nothing.
    ghost home: { Self.Place → TableId };

    ghost rests: { Self.Place → Type 0 };

    // What the calls do; a place of the word's table that is registered as nothing may rest in a pool.
    ghost calls: { Self → WordCalls Self.Ask Self.Place };

    ghost rests_here: { (word : Self) (place : Self.Place) → home place ≡ table word → rests place → (calls word).rests place };

    /// Whether an ask is for no more than there ever is.
    fn may_succeed(ask: Self::Ask) -> bool
        ensures { IsTrue result ↔ fits ask };

    /// Asks once, with no place, and waits for nothing. What can't be asked so is refused.
    fn try_once<R: Wait>(&self, rt: &R, ask: Self::Ask) -> (Result<(), TryLockError>, Visitor)
        ensures tried { (calls self.now).tries ask result.0 result.1 }
        ensures ours { table_of result.1 ≡ table self.now };

    /// Gives back what an ask took, by a visitor.
    fn give_back<R: Wait>(&self, rt: &R, ask: Self::Ask) -> Visitor
        ensures { (calls self.now).gives_back ask result };

    /// Registers a place, which looks and yields first, as often as the spin policy says.
    fn register<R: Wait>(
        &self,
        rt: &R,
        place: &mut Self::Place,
        ask: Self::Ask,
        spin_policy: SpinPolicy,
    ) -> bool
        requires { home place.old ≡ table self.now }
        ensures registered { (calls self.now).registers ask place.old result place.new }
        ensures sure { rests place.old → fits ask → result ≡ true }
        ensures refused { result ≡ false → rests place.old → rests place.new }
        ensures waits { result ≡ true → rests place.new → ⊥ }
        ensures home { home place.new ≡ home place.old };

    /// Whether a place waits in the queue, or has an answer there that it hasn't taken.
    fn has_joined(place: &Self::Place) -> bool;

    /// Waits for the answer of a place, and takes it.
    fn poll<R: Wait>(&self, rt: &R, place: &mut Self::Place) -> Result<u8, Error>
        requires { home place.old ≡ table self.now }
        ensures polled { (calls self.now).polls place.old result place.new }
        ensures waited { is_not_ready (error_of result) ≡ false }
        ensures not_closed { result ≢ Err Closed }
        ensures rests { rests place.new }
        ensures known { (rests place.old → ⊥) → says_not_registered (error_of result) ≡ false }
        ensures right { says_wrong_mode (error_of result) ≡ false }
        ensures home { home place.new ≡ home place.old };

    /// Takes the answer of a place if it is there.
    fn try_poll(&self, place: &mut Self::Place) -> Result<u8, Error>
        requires { home place.old ≡ table self.now }
        ensures polled { (calls self.now).polls place.old result place.new }
        ensures rests { is_not_ready (error_of result) ≡ false → rests place.new }
        ensures waits { is_not_ready (error_of result) ≡ true → rests place.new → rests place.old }
        ensures known { (rests place.old → ⊥) → says_not_registered (error_of result) ≡ false }
        ensures right { says_wrong_mode (error_of result) ≡ false }
        ensures home { home place.new ≡ home place.old };

    /// Waits for the answer of a place until the deadline, and takes it if it is there then.
    fn poll_until<R: Wait + Clock>(
        &self,
        rt: &R,
        place: &mut Self::Place,
        deadline: Deadline,
    ) -> Result<u8, Error>
        requires { home place.old ≡ table self.now }
        ensures polled { (calls self.now).polls place.old result place.new }
        ensures rests { is_not_ready (error_of result) ≡ false → rests place.new }
        ensures waits { is_not_ready (error_of result) ≡ true → rests place.new → rests place.old }
        ensures known { (rests place.old → ⊥) → says_not_registered (error_of result) ≡ false }
        ensures right { says_wrong_mode (error_of result) ≡ false }
        ensures home { home place.new ≡ home place.old };

    /// Takes the answer of a place for a task, which is woken once it is there.
    fn poll_task(&self, place: &mut Self::Place, cx: &mut Context<'_>) -> Poll<Result<u8, Error>>
        requires { home place.old ≡ table self.now }
        ensures ready { IfReady result (λ answer. (calls self.now).polls place.old answer place.new) }
        ensures rests { IfReady result (λ answer. rests place.new) }
        ensures waited { IfReady result (λ answer. is_not_ready (error_of answer) ≡ false) }
        ensures not_closed { IfReady result (λ answer. answer ≢ Err Closed) }
        ensures known { (rests place.old → ⊥) → IfReady result (λ answer. says_not_registered (error_of answer) ≡ false) }
        ensures right { IfReady result (λ answer. says_wrong_mode (error_of answer) ≡ false) }
        ensures pending { OnPending result ((calls self.now).polls place.old (Err NotReady) place.new) }
        ensures waits { OnPending result (rests place.new → rests place.old) }
        ensures home { home place.new ≡ home place.old }
        ensures armed { OnPending result (IsArmed cx.new) }
        ensures heard { OnPending result (Hears cx.new (source self.now)) }
        ensures kept { Keeps cx.old cx.new };

    /// Cancels what a place is registered for.
    fn cancel<R: Wait>(&self, rt: &R, place: &mut Self::Place)
        requires { home place.old ≡ table self.now }
        ensures cancelled { (calls self.now).cancels place.old place.new }
        ensures rests { rests place.new }
        ensures home { home place.new ≡ home place.old };

    /// A receipt of what a visitor has seen.
    fn receipt_by(&self, visitor: &mut Visitor) -> Receipt
        requires { table_of visitor.old ≡ table self.now }
        ensures same { visitor.new ≡ visitor.old }
        ensures received { (calls self.now).receives_by visitor.old result };

    /// A receipt of what a place has seen.
    fn receipt(&self, place: &mut Self::Place) -> Receipt
        requires { home place.old ≡ table self.now }
        ensures same { place.new ≡ place.old }
        ensures received { (calls self.now).receives place.new result };
}
