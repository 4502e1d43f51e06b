//! A place that asks looks for a while before it joins the waiters.
//!
//! What it asks for may be there in a moment, and joining costs more than that: once one place waits, each turn is handed on to one that waits. So
//! `acquire_many`, `lock` and `share` look at the main word, take what they ask for where the word grants it, and join once their spins are over. Their order
//! begins as they join.
//!
//! A look that finds that the place would have to join is no step of it: nothing has happened, and its place is at the stage where it was.

ghost use Rattle.std.specs.Prelude.{◌≡◌, ◌==◌, ℕ, false, true};
ghost use Rattle.saa_word_steps.specs.declared.operation.Operation.TheVariants.{Load, Exchange};
ghost use Rattle.saa_word_steps.specs.Steps.{next_of, operation_of};
ghost use Rattle.saa_word_threads.specs.Pending.{GoesOn, HasEnded, HasFound, IsPending, IsSameSeat, about_of, needs};
ghost use Rattle.saa_word_threads.specs.Moves.{prepares, unless_joining};

use crate::call::Pending;
use crate::form::Form;
use crate::table::{LookOnly, Mover, View};
use crate::watch::{Moment, Pause, Watch};
use atomic_table::Seat;
use saa_core_waits::SpinPolicy;
use saa_core_words::word::Word;
use saa_word_steps::call::Answer;
use saa_word_steps::place::{Next, Place as Position, Stage};
use std::marker::Brand;
use std::snapshot::Snapshot;
use std::sync::Wait;

impl Form {
    // Goes on with an ask to its end: it looks for as long as its spins last and never joins meanwhile, and then joins where it must.
    pub(crate) fn look_on<R: Wait, W: Watch>(
        &self,
        rt: &R,
        watch: &W,
        seat: &mut Seat<(), View>,
        first: Position,
        spin_policy: SpinPolicy,
        pending: Pending,
    ) -> (Position, Answer)
        requires { IsPending self.now pending first seat.old }
        ensures same { IsSameSeat seat.old seat.new }
        ensures ended { HasEnded self.now pending result.0 result.1 seat.new }
    {
        let mut place = first;
        for turn in 0..spin_policy.turns() {
            Pause::of(spin_policy.rest(turn)).make(watch);
            watch.at(Moment::Looks);
            if !self.may_get_on(place.stage) {
                continue;
            }
            match self.seek::<Brand, W>(watch, seat, place, &pending) {
                Next::Going(next) => place = next,
                Next::Waits => continue,
                Next::Done(behind, answer) => return (behind, answer),
            }
        }
        self.join_on(rt, watch, seat, place, pending)
    }

    // Whether a look may let a place at this stage get on. An exchange that must fail would take the main word's cache line.
    pub(crate) fn may_get_on(&self, stage: Stage) -> bool {
        if let Stage::AcquireExchange { ask, .. } = stage {
            let seen = Word::unpack(self.table.shared.peek(0));
            return seen.is_poisoned || self.grants(seen, ask);
        }
        true
    }

    // Makes the operation of the stage that a pending call's place is at, and goes on with the number found, unless the place would go on to join.
    fn seek<M: Mover, W: Watch>(
        &self,
        watch: &W,
        seat: &mut Seat<(), View>,
        place: Position,
        pending: &Pending,
    ) -> Next
        requires mover { (M.about ≡ about_of self.now) × (M.place ≡ place) × (M.me ≡ pending.now.me) }
        requires pending { IsPending self.now pending.now place seat.old }
        ensures same { IsSameSeat seat.old seat.new }
        ensures next { GoesOn self.now pending.now place result seat.new }
    {
        let at = Snapshot::of(&place);
        match place.stage {
            Stage::AcquireLoad { .. } => {
                let found = self.seek_by_load::<M>(seat, at, pending);
                unless_joining(place, place.resume(self.rules, pending.me, found))
            }
            Stage::AcquireExchange { ask, seen } => {
                let count = self.rules.plus(seen.count, ask.request);
                let old = seen.pack();
                let raised = Word { count, ..seen };
                let new = raised.pack();
                watch.at(Moment::Takes);
                let found = self.seek_by_exchange::<M>(seat, at, pending, old, new);
                unless_joining(place, place.resume(self.rules, pending.me, found))
            }
            _ => self.act::<M, W>(watch, seat, place, pending),
        }
    }

    // Loads the main word, for a place at this stage of a call.
    #[inline(always)]
    pub(crate) fn seek_by_load<M: Mover>(
        &self,
        seat: &mut Seat<(), View>,
        at: Snapshot<Position>,
        pending: &Pending,
    ) -> u64
        requires mover { (M.about ≡ about_of self.now) × (M.place ≡ at.value) × (M.me ≡ pending.now.me) }
        requires pending { IsPending self.now pending.now at.value seat.old }
        requires loads { operation_of (needs self.now) self.now.places pending.now.me at.value.stage ≡ Load 0 }
        ensures same { IsSameSeat seat.old seat.new }
        ensures found { HasFound self.now pending.now at.value result seat.new }
    {
        self.table.shared.load::<LookOnly<M>>(seat, 0)
    }

    // Exchanges the main word, for a place at this stage of a call. Where the exchange is made the place doesn't join.
    #[inline(always)]
    pub(crate) fn seek_by_exchange<M: Mover>(
        &self,
        seat: &mut Seat<(), View>,
        at: Snapshot<Position>,
        pending: &Pending,
        old: u64,
        new: u64,
    ) -> u64
        requires mover { (M.about ≡ about_of self.now) × (M.place ≡ at.value) × (M.me ≡ pending.now.me) }
        requires pending { IsPending self.now pending.now at.value seat.old }
        requires exchanges { operation_of (needs self.now) self.now.places pending.now.me at.value.stage ≡ Exchange 0 old new }
        requires made { (found : ℕ) → prepares (next_of (needs self.now) pending.now.me at.value at.value.stage found) ≡ true → (found == old) ≡ false }
        ensures same { IsSameSeat seat.old seat.new }
        ensures found { HasFound self.now pending.now at.value result seat.new }
    {
        self.table
            .shared
            .compare_exchange::<LookOnly<M>>(seat, 0, old, new)
    }
}

// How a place goes on that looks again in place of joining.
pub(crate) fn unless_joining(place: Position, next: Next) -> Next
    ensures { result ≡ unless_joining place next }
{
    if let Next::Going(behind) = next
        && let Stage::Prepare { .. } = behind.stage
    {
        return Next::Going(place);
    }
    next
}
