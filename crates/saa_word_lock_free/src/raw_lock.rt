//! What the lock-free lock offers to the mutexes round it (`saa_core_guards::raw_lock`): each turn keeps a receipt of its grant.

ghost use Rattle.std.specs.Prelude.{◌≡◌, IfOk, true};

use crate::form::Form;
use crate::tasks::Pending;
use crate::waiting::GRANTED;
use crate::word_form::WordForm;
use futures::task::{Context, Poll};
use saa_core_guards::raw_lock::{MadeWith, RawLock, RawLockAsync, RawLockUntil};
use saa_core_spec::request::Full;
use saa_core_waits::{Deadline, Pends, SpinPolicy};
use saa_word_threads::lock::{Lock as Word, Mode};
use saa_word_threads::receipt::Receipt;
use std::alloc::{AllocError, Global};
use std::sync::{RwLock, RwLockReadGuard, RwLockWriteGuard, Wait};
use std::time::{Clock, Duration};

impl<R: Wait + Drop> RawLock for Form<R, Word> {
    ghost use Rattle.saa_word_threads.specs.declared.lock.Place.{Place};
    ghost use Rattle.saa_word_lock_free.specs.Forms.{WasFull};
    ghost use Rattle.saa_word_lock_free.specs.Turns.{IsTurn};

    type Witness = Receipt;

    ghost granted = { λ lock. IsTurn lock.word };

    ghost is_full = { WasFull Place };

    #[inline(always)]
    fn try_take(&self, mode: Mode) -> Option<Receipt> {
        let (reply, receipt) = self.try_witnessed(mode);
        match reply {
            Ok(()) => Some(receipt),
            Err(_refused) => None,
        }
    }

    /// Waits for a turn. A lock that says it is poisoned, as none in a mutex ever is, is cleared and asked again.
    #[inline(always)]
    fn take(&self, mode: Mode) -> Result<Receipt, Full> {
        for _ in self.rt().forever() {
            match self.take_witnessed(mode) {
                Ok((value, receipt)) => {
                    if value == GRANTED {
                        return Ok(receipt);
                    }
                }
                Err(_no_place) => return Err(Full),
            }
            self.clear_poison();
        }
        unreachable!()
    }

    #[inline(always)]
    fn give_back(&self, mode: Mode, _witness: &Receipt) {
        self.word().give_back(self.rt(), mode);
    }

    /// Where the lock is no one owner's, as it never is in a turn of one, a share is waited for.
    fn lower(&self, _witness: Receipt) -> Receipt {
        let (is_lowered, receipt) = self.downgrade_witnessed();
        if is_lowered {
            receipt
        } else {
            self.await_share()
        }
    }

    #[inline(always)]
    fn read<'l, T>(&self, value: &'l RwLock<T>) -> RwLockReadGuard<'l, T> {
        value.read(self.rt())
    }

    #[inline(always)]
    fn write<'l, T>(&self, value: &'l RwLock<T>) -> RwLockWriteGuard<'l, T> {
        value.write(self.rt())
    }
}

impl<R: Wait + Drop> Form<R, Word> {
    ghost use Rattle.saa_core_spec.specs.declared.lock.Mode.TheVariants.{Shared};
    ghost use Rattle.saa_word_lock_free.specs.Turns.{IsTurn};

    // Waits for a share, and where no place is in for that too.
    fn await_share(&self) -> Receipt
        ensures { ∥ IsTurn self.now.word Shared result ∥₁ }
    {
        for _ in self.rt().forever() {
            if let Ok(receipt) = RawLock::take(self, Mode::Shared) {
                return receipt;
            }
        }
        unreachable!()
    }
}

impl<R: Wait + Drop> MadeWith<R> for Form<R, Word> {
    ghost use Rattle.std.specs.Prelude.{◌≡◌};
    ghost use Rattle.saa_word_steps.specs.declared.rules.Rules.TheVariants.{Modes};
    ghost use Rattle.saa_word_threads.specs.Locks.{about_of};

    ghost is_made = { λ lock room spin_policy. (about_of lock.word ≡ record { rules = Modes; withheld = 0; places = room }) × (lock.spin_policy ≡ spin_policy) };

    ghost takes_no_memory = { λ room. ⊥ };

    fn make(rt: R, alloc: Global, room: u16, spin_policy: SpinPolicy) -> Result<Self, AllocError> {
        Self::with_spin_policy(rt, alloc, room, spin_policy)
    }
}

impl<R: Wait + Clock + Drop> RawLockUntil for Form<R, Word> {
    fn after(&self, duration: Duration) -> Deadline {
        Deadline::after(self.rt(), duration)
    }

    fn take_until(&self, mode: Mode, deadline: Deadline) -> Result<Option<Receipt>, Full> {
        for _ in self.rt().forever() {
            let (answer, receipt) = match self.take_witnessed_until(mode, deadline) {
                Ok(reply) => reply,
                Err(_no_place) => return Err(Full),
            };
            match answer {
                Ok(value) => {
                    if value == GRANTED {
                        return Ok(Some(receipt));
                    }
                }
                Err(_late) => return Ok(None),
            }
            self.clear_poison();
        }
        unreachable!()
    }
}

impl<R: Wait + Drop> RawLockAsync for Form<R, Word> {
    ghost use Rattle.std.specs.Prelude.{◌≡◌, None};

    ghost is_idle = { λ pending. pending.borrowed ≡ None };

    fn pending(mode: Mode) -> Pending<Word> {
        Pending::new(mode)
    }

    fn poll_turn(
        &self,
        pending: &mut Pending<Word>,
        mode: Mode,
        cx: &mut Context<'_>,
    ) -> Poll<Result<Receipt, Full>> {
        if pending.has_ended {
            return cx.yield_now();
        }
        let (reply, _has_joined) = self.advance_witnessed(pending, cx);
        match reply {
            Poll::Ready(Ok(Some((value, receipt)))) => {
                if value == GRANTED {
                    Poll::Ready(Ok(receipt))
                } else {
                    cx.yield_now()
                }
            }
            Poll::Ready(Ok(None)) => cx.yield_now(),
            Poll::Ready(Err(full)) => Poll::Ready(Err(full)),
            Poll::Pending => Poll::Pending,
        }
    }
}
