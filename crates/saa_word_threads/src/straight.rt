//! The straight path of an uncontended call: it loads the main word, and exchanges it.
//!
//! These are the very steps of `seek`, of the same stages, but the stages that the place is at are seen by contracts alone, so that nothing is
//! built or copied. Where an ask finds a waiter, or an exchange fails, the call goes on from the stage that it has reached (`contended`); a release
//! that finds waiters exchanges the word too, and settles the queue then.

ghost use Rattle.std.specs.Prelude.{◌≡◌, false};
ghost use Rattle.saa_word_steps.specs.declared.call.WordCall.TheVariants.{Poll};
ghost use Rattle.saa_word_steps.specs.declared.call.Answer.{Answer};
ghost use Rattle.saa_word_steps.specs.declared.call.Answer.TheVariants.{Bool as Says};
ghost use Rattle.saa_word_steps.specs.declared.place.Next.TheVariants.{Done};
ghost use Rattle.saa_word_steps.specs.declared.place.Stage.TheVariants.{AcquireLoad};
ghost use Rattle.saa_word_steps.specs.declared.place.ReleaseAmount.TheVariants.{Requested};
ghost use Rattle.saa_word_steps.specs.Steps.{going, released_as, started};
ghost use Rattle.saa_word_threads.specs.SpinPolicies.{none};
ghost use Rattle.saa_word_threads.specs.Pending.{IsAt, IsCalledAt, Takes, needs};
ghost use Rattle.saa_word_threads.specs.Public.{IsSamePlace, is_granted, is_yes, spin_policy_of};

use crate::answers::{granted, yes};
use crate::call::Pending;
use crate::form::Form;
use crate::main_word::{lowered, takes_flag};
use crate::place::Place;
use crate::table::View;
use crate::watch::{Moment, Watch};
use atomic_table::Seat;
use saa_core_waits::spin_policy::{NONE, SpinPolicy};
use saa_core_words::word::Word;
use saa_word_steps::call::{Answer, WordCall};
use saa_word_steps::place::{
    AfterWalk, Ask, Place as Position, Registration, ReleaseAmount, Stage,
};
use std::marker::Brand;
use std::snapshot::Snapshot;
use std::sync::Wait;

// The value of the answer that grants.
const GRANTED: u8 = 0;

/// The spin policy of the last call that asked at a place, or tried.
///
/// Other modules make one only for a seat that they own, never for a place that they borrowed. So a call says a spin policy only by an ask that has it
/// (`ask`), or by one that is refused before it would look (`refuse`).
#[derive(Drop)]
pub struct LastAsk {
    spin_policy: SpinPolicy,
}

impl LastAsk {
    // None yet, at this seat.
    pub(crate) fn none(seat: Seat<(), View>) -> (Seat<(), View>, LastAsk)
        ensures seat { result.0 ≡ seat }
        ensures spin_policy { result.1.spin_policy ≡ none }
    {
        (seat, LastAsk { spin_policy: NONE })
    }
}

impl Form {
    // Asks for something that is refused at its start, whatever the spin policy.
    pub(crate) fn refuse<R: Wait, W: Watch>(
        &self,
        rt: &R,
        watch: &W,
        place: &mut Place,
        call: WordCall,
        spin_policy: SpinPolicy,
    ) -> Answer
        requires dealt { IsAt self.now place.old.seat }
        requires takes { Takes self.now call }
        requires refused { started (needs self.now) place.old.position call ≡ Done place.old.position (Says false) }
        ensures same { IsSamePlace place.old place.new }
        ensures spin_policy { spin_policy_of place.new ≡ spin_policy }
        ensures called { IsCalledAt self.now call place.old result place.new }
    {
        place.last_ask = LastAsk { spin_policy };
        self.call(rt, watch, place, call)
    }

    // Asks for something: of a word that grants it by one exchange.
    #[inline(always)]
    pub(crate) fn ask<R: Wait, W: Watch>(
        &self,
        rt: &R,
        watch: &W,
        place: &mut Place,
        call: WordCall,
        ask: Ask,
        spin_policy: SpinPolicy,
    ) -> Answer
        requires dealt { IsAt self.now place.old.seat }
        requires takes { Takes self.now call }
        requires starts { started (needs self.now) place.old.position call ≡ going place.old.position (AcquireLoad ask) }
        ensures same { IsSamePlace place.old place.new }
        ensures spin_policy { spin_policy_of place.new ≡ spin_policy }
        ensures called { IsCalledAt self.now call place.old result place.new }
    {
        place.last_ask = LastAsk { spin_policy };
        let pending = Pending::of(call, place);
        let looking = Snapshot::of(&Position {
            stage: Stage::AcquireLoad { ask },
            ..place.position
        });
        watch.at(Moment::Looks);
        let found = self.seek_by_load::<Brand>(&mut place.seat, looking, &pending);
        let seen = Word::unpack(found);
        if !self.grants(seen, ask) {
            let (seat, position) = (&mut place.seat, &mut place.position);
            return self.ask_on(rt, watch, seat, position, ask, found, spin_policy, pending);
        }
        let changing = Snapshot::of(&Position {
            stage: Stage::AcquireExchange { ask, seen },
            ..place.position
        });
        let count = self.rules.plus(seen.count, ask.request);
        let old = seen.pack();
        let raised = Word { count, ..seen };
        let new = raised.pack();
        watch.at(Moment::Takes);
        let seat = &mut place.seat;
        let other = self.seek_by_exchange::<Brand>(seat, changing, &pending, old, new);
        if other != old {
            let (seat, position) = (&mut place.seat, &mut place.position);
            return self.ask_anew(
                rt,
                watch,
                seat,
                position,
                ask,
                (found, other),
                spin_policy,
                pending,
            );
        }
        if ask.joins {
            place.position.registration = Registration::AnsweredAtOnce(GRANTED, ask.request);
            return Answer::Bool(true);
        }
        self.granted_try()
    }

    // Waits for the answer of a registration where it must, and takes it: at once where it was given at once. Whether it grants.
    #[inline(always)]
    pub(crate) fn await_grant<R: Wait, W: Watch>(
        &self,
        rt: &R,
        watch: &W,
        place: &mut Place,
    ) -> bool
        requires dealt { IsAt self.now place.old.seat }
        ensures same { IsSamePlace place.old place.new }
        ensures spin_policy { spin_policy_of place.new ≡ spin_policy_of place.old }
        ensures called { (answer : Answer) × (result ≡ is_granted answer) × IsCalledAt self.now Poll place.old answer place.new }
    {
        if let Registration::AnsweredAtOnce(value, _request) = place.position.registration {
            place.position.registration = Registration::Idle;
            return value == GRANTED;
        }
        granted(self.take_awaited(rt, watch, place))
    }

    // Gives back what a request took, by one exchange, and settles the queue where there are waiters. Whether the answer is yes.
    #[inline(always)]
    pub(crate) fn give<R: Wait, W: Watch>(
        &self,
        rt: &R,
        watch: &W,
        place: &mut Place,
        call: WordCall,
        request: u16,
    ) -> bool
        requires dealt { IsAt self.now place.old.seat }
        requires takes { Takes self.now call }
        requires starts { started (needs self.now) place.old.position call ≡ released_as place.old.position (Requested request) }
        ensures same { IsSamePlace place.old place.new }
        ensures called { (answer : Answer) × (result ≡ is_yes answer) × IsCalledAt self.now call place.old answer place.new }
    {
        let pending = Pending::of(call, place);
        let given = ReleaseAmount::Requested(request);
        let looking = Snapshot::of(&Position {
            stage: Stage::ReleaseLoad { given },
            back: AfterWalk::Tells,
            ..place.position
        });
        let found = self.seek_by_load::<Brand>(&mut place.seat, looking, &pending);
        let seen = Word::unpack(found);
        place.position.back = AfterWalk::Tells;
        let Some(count) = self.lowers(seen, request) else {
            let (seat, position) = (&mut place.seat, &mut place.position);
            return yes(self.give_on(rt, watch, seat, position, request, found, pending));
        };
        let changing = Snapshot::of(&Position {
            stage: Stage::ReleaseExchange { given, seen },
            ..place.position
        });
        let old = seen.pack();
        let new = lowered(seen, count).pack();
        let seat = &mut place.seat;
        let other = self.seek_by_exchange::<Brand>(seat, changing, &pending, old, new);
        if other != old {
            let (seat, position) = (&mut place.seat, &mut place.position);
            return yes(self.give_anew(rt, watch, seat, position, request, (found, other), pending));
        }
        if takes_flag(seen) {
            let (seat, position) = (&mut place.seat, &mut place.position);
            return yes(self.give_settling(
                rt,
                watch,
                seat,
                position,
                lowered(seen, count),
                pending,
            ));
        }
        true
    }
}
