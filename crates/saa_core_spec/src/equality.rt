//! The laws of comparing: the contracts of functions that do nothing.
//!
//! In Rattle `==` means what its `impl` computes. These clauses say that on each enum of this crate it is equality of
//! values, and that a gate's states and errors are ordered and told apart by their numbers.

ghost use Rattle.std.specs.Prelude.{◌≡◌, ◌↔◌, IsTrue};
ghost use Rattle.std.specs.Ordering.{nat_cmp};
ghost use Rattle.saa_core_spec.specs.declared.gate.Error.{Error as GateError};
ghost use Rattle.saa_core_spec.specs.declared.gate.State.{State};
ghost use Rattle.saa_core_spec.specs.declared.semaphore.SemaphoreCall.{SemaphoreCall};
ghost use Rattle.saa_core_spec.specs.declared.semaphore.SemaphoreAnswer.{SemaphoreAnswer};
ghost use Rattle.saa_core_spec.specs.declared.lock.LockCall.{LockCall};
ghost use Rattle.saa_core_spec.specs.declared.lock.LockAnswer.{LockAnswer};
ghost use Rattle.saa_core_spec.specs.declared.gate.GateCall.{GateCall};
ghost use Rattle.saa_core_spec.specs.declared.gate.GateAnswer.{GateAnswer};
ghost use Rattle.saa_core_spec.specs.declared.barrier.BarrierCall.{BarrierCall};
ghost use Rattle.saa_core_spec.specs.declared.barrier.BarrierAnswer.{BarrierAnswer};
ghost use Rattle.saa_core_spec.specs.declared.lock.Mode.{Mode};
ghost use Rattle.saa_core_spec.specs.declared.lock.TryLockError.{TryLockError};
ghost use Rattle.saa_core_spec.specs.declared.request.Request.{Request};
ghost use Rattle.saa_core_spec.specs.declared.polling.Error.{Error};
ghost use Rattle.saa_core_spec.specs.declared.request.Full.{Full};
ghost use Rattle.saa_core_spec.specs.declared.polling.How.{How};
ghost use Rattle.saa_core_spec.specs.Values.{state_number, number_state, error_number, number_error};

use crate::barrier::{BarrierAnswer, BarrierCall};
use crate::gate;
use crate::gate::{GateAnswer, GateCall, State};
use crate::lock::{LockAnswer, LockCall, Mode, TryLockError};
use crate::polling::{Error, How};
use crate::request::{Full, Request};
use crate::run::{CommandOf, ReplyOf};
use crate::semaphore::{SemaphoreAnswer, SemaphoreCall};

/// Two codes are `==` exactly where they are the same value: the same variant, and for `Permits`
/// the same number.
///
/// The states and the errors of a gate compare as their numbers do, and each is read back from its
/// number.
pub fn codes()
    ensures request { (a b : Request) → IsTrue (⟦<Request as PartialEq>⟧.eq a b) ↔ (a ≡ b) }
    ensures how { (a b : How) → IsTrue (⟦<How as PartialEq>⟧.eq a b) ↔ (a ≡ b) }
    ensures error { (a b : Error) → IsTrue (⟦<Error as PartialEq>⟧.eq a b) ↔ (a ≡ b) }
    ensures full { (a b : Full) → IsTrue (⟦<Full as PartialEq>⟧.eq a b) ↔ (a ≡ b) }
    ensures mode { (a b : Mode) → IsTrue (⟦<Mode as PartialEq>⟧.eq a b) ↔ (a ≡ b) }
    ensures try_lock_error { (a b : TryLockError) → IsTrue (⟦<TryLockError as PartialEq>⟧.eq a b) ↔ (a ≡ b) }
    ensures state { (a b : State) → IsTrue (⟦<State as PartialEq>⟧.eq a b) ↔ (a ≡ b) }
    ensures gate_error { (a b : GateError) → IsTrue (⟦<gate::Error as PartialEq>⟧.eq a b) ↔ (a ≡ b) }
    ensures state_order { (a b : State) → ⟦<State as Ord>⟧.cmp a b ≡ nat_cmp (state_number a) (state_number b) }
    ensures error_order { (a b : GateError) → ⟦<gate::Error as Ord>⟧.cmp a b ≡ nat_cmp (error_number a) (error_number b) }
    ensures state_read_back { (state : State) → number_state (state_number state) ≡ state }
    ensures error_read_back { (error : GateError) → number_error (error_number error) ≡ error }
{}

/// Two calls, and two answers of calls, are `==` exactly where they are the same value.
pub fn calls()
    ensures semaphore_call { (a b : SemaphoreCall) → IsTrue (⟦<SemaphoreCall as PartialEq>⟧.eq a b) ↔ (a ≡ b) }
    ensures semaphore_answer { (a b : SemaphoreAnswer) → IsTrue (⟦<SemaphoreAnswer as PartialEq>⟧.eq a b) ↔ (a ≡ b) }
    ensures lock_call { (a b : LockCall) → IsTrue (⟦<LockCall as PartialEq>⟧.eq a b) ↔ (a ≡ b) }
    ensures lock_answer { (a b : LockAnswer) → IsTrue (⟦<LockAnswer as PartialEq>⟧.eq a b) ↔ (a ≡ b) }
    ensures gate_call { (a b : GateCall) → IsTrue (⟦<GateCall as PartialEq>⟧.eq a b) ↔ (a ≡ b) }
    ensures gate_answer { (a b : GateAnswer) → IsTrue (⟦<GateAnswer as PartialEq>⟧.eq a b) ↔ (a ≡ b) }
    ensures barrier_call { (a b : BarrierCall) → IsTrue (⟦<BarrierCall as PartialEq>⟧.eq a b) ↔ (a ≡ b) }
    ensures barrier_answer { (a b : BarrierAnswer) → IsTrue (⟦<BarrierAnswer as PartialEq>⟧.eq a b) ↔ (a ≡ b) }
{}

/// Two commands, and two replies, are `==` exactly where they are the same value, if that holds of the calls, asks,
/// answers and values that they are made of.
pub fn commands<C: PartialEq, K: PartialEq>()
    requires calls { (a b : C) → IsTrue (C.eq a b) ↔ (a ≡ b) }
    requires asks { (a b : K) → IsTrue (K.eq a b) ↔ (a ≡ b) }
    ensures command { (a b : _) → IsTrue (⟦<CommandOf<C, K> as PartialEq>⟧.eq a b) ↔ (a ≡ b) }
    ensures reply { (a b : _) → IsTrue (⟦<ReplyOf<C, K> as PartialEq>⟧.eq a b) ↔ (a ≡ b) }
{}
