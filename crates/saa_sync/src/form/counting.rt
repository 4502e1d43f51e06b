//! What tests and measurements may see of a form: counts of what its calls spent and where its waiters are.

ghost use Rattle.std.specs.Prelude.{◌≡◌};

use super::Form;
use saa_core::primitive::Primitive;
use std::marker::Model;
use std::sync::Wait;

/// Counts of a form, and no call of its core. Contracts see the form.
#[derive(Drop)]
pub struct Counts<'a, R: Wait + Drop, P: Primitive> {
    form: &'a Form<R, P>,
}

impl<'a, R: Wait + Drop, P: Primitive> Model for Counts<'a, R, P> {
    ghost use Rattle.std.specs.Borrow.{Bor};
    ghost use Rattle.saa_sync.specs.declared.form.Form.{Form};

    ghost Value = { Bor (Form R P P.Call P.Ask P.Answer P.Value) };

    ghost view = { λ counts. counts.form };
}

impl<R: Wait + Drop, P: Primitive> Form<R, P> {
    // Counts one more call that looks, and never ends to.
    pub(crate) fn add_looker(&self) {
        let _is_first = self.hint.arrive();
    }
}

impl<'a, R: Wait + Drop, P: Primitive> Counts<'a, R, P> {
    // The counts of a form.
    pub(crate) fn of(form: &'a Form<R, P>) -> Self
        ensures { result.now ≡ form.now }
    {
        Counts { form }
    }

    /// How often calls locked the mutex, these for tests aside.
    pub fn turns(&self) -> u64 {
        self.form.mutex.lock(&self.form.rt).turns
    }

    /// How many waiters are parked; all those have let go of the mutex.
    pub fn parked(&self) -> usize {
        let _locked = self.form.mutex.lock(&self.form.rt);
        self.form
            .parkers
            .iter()
            .filter(|parker| parker.is_parked())
            .count()
    }

    /// Whether the waiter of a slot is notified: whether the slot may have been answered since it joined.
    pub fn is_notified(&self, slot: u16) -> bool {
        match self.form.parker(slot) {
            Some(parker) => parker.is_notified(),
            None => false,
        }
    }

    /// How many parkers are notified.
    pub fn notified(&self) -> usize {
        self.form
            .parkers
            .iter()
            .filter(|parker| parker.is_notified())
            .count()
    }

    /// How many calls look, of those that haven't registered.
    pub fn lookers(&self) -> u64 {
        self.form.hint.lookers()
    }

    /// How often calls looked, of those that found nothing at once and no longer look.
    pub fn looked(&self) -> u64 {
        self.form.hint.looked()
    }

    /// How many spin hints these calls gave, and how often they yielded.
    pub fn rested(&self) -> (u64, u64) {
        self.form.hint.rested()
    }

    /// How often calls tried for a mutex that others had, how many spin hints they gave and how often they yielded: of those that then
    /// went on to block there. Takes no turn at the mutex.
    pub fn blocked(&self) -> (u64, u64, u64) {
        self.form.hint.blocked()
    }

    /// The same of those that had the mutex at one of these tries.
    pub fn contended(&self) -> (u64, u64, u64) {
        self.form.mutex.lock(&self.form.rt).contended.counts()
    }

    /// How often waiters looked at their parkers, how many spin hints they gave there and how often they yielded: of those that were
    /// answered or parked since.
    pub fn spun(&self) -> (u64, u64, u64) {
        self.form.mutex.lock(&self.form.rt).spun.counts()
    }
}
