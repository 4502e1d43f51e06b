//! Where a call can't go straight: it goes on step by step, from the stage that it has reached.
//!
//! The stage is built here, so that the straight path (`straight`) builds none.

ghost use Rattle.std.specs.Prelude.{◌≡◌};
ghost use Rattle.saa_core_words.specs.Words.{count_bits, word_of};
ghost use Rattle.saa_word_steps.specs.declared.place.AfterWalk.TheVariants.{Tells};
ghost use Rattle.saa_word_steps.specs.declared.place.ReleaseAmount.TheVariants.{Requested};
ghost use Rattle.saa_word_steps.specs.declared.place.Stage.TheVariants.{AcquireLoad, AcquireExchange, BackLoad, ReleaseLoad, ReleaseExchange};
ghost use Rattle.saa_word_steps.specs.Steps.{IsRanged};
ghost use Rattle.saa_word_threads.specs.Pending.{HasEnded, HasFound, IsPending, IsSameSeat, needs};

use crate::call::Pending;
use crate::form::Form;
use crate::looking::unless_joining;
use crate::table::View;
use crate::walk::Walk;
use crate::watch::Watch;
use atomic_table::Seat;
use saa_core_waits::spin_policy::{NONE, SpinPolicy};
use saa_core_words::word::Word;
use saa_word_steps::call::Answer;
use saa_word_steps::place::{Ask, Next, Place as Position, ReleaseAmount, Stage};
use std::sync::Wait;

impl Form {
    // Goes on with an ask that has found a word which doesn't grant it: one without spins joins at once where it must.
    #[cold]
    pub(crate) fn ask_on<R: Wait, W: Watch>(
        &self,
        rt: &R,
        watch: &W,
        seat: &mut Seat<(), View>,
        position: &mut Position,
        ask: Ask,
        found: u64,
        spin_policy: SpinPolicy,
        pending: Pending,
    ) -> Answer
        requires found { HasFound self.now pending (record position.old { stage = AcquireLoad ask }) found seat.old }
        ensures same { IsSameSeat seat.old seat.new }
        ensures ended { HasEnded self.now pending position.new result seat.new }
    {
        let stage = Stage::AcquireLoad { ask };
        if ask.joins
            && spin_policy.turns() == 0
            && self.must_join(Word::unpack(found), ask.request)
        {
            let place = Position { stage, ..*position };
            let (behind, answer) = self.join_on(rt, watch, seat, place, pending);
            *position = behind;
            return answer;
        }
        self.follow(
            rt,
            watch,
            seat,
            position,
            stage,
            found,
            spin_policy,
            pending,
        )
    }

    // Goes on with an ask whose exchange failed: the word that it had seen, and the one that it found.
    #[cold]
    pub(crate) fn ask_anew<R: Wait, W: Watch>(
        &self,
        rt: &R,
        watch: &W,
        seat: &mut Seat<(), View>,
        position: &mut Position,
        ask: Ask,
        exchanged: (u64, u64),
        spin_policy: SpinPolicy,
        pending: Pending,
    ) -> Answer
        requires ranged { IsRanged (needs self.now) (AcquireExchange ask (word_of count_bits exchanged.0)) }
        requires found { HasFound self.now pending (record position.old { stage = AcquireExchange ask (word_of count_bits exchanged.0) }) exchanged.1 seat.old }
        ensures same { IsSameSeat seat.old seat.new }
        ensures ended { HasEnded self.now pending position.new result seat.new }
    {
        let (first, found) = exchanged;
        let seen = Word::unpack(first);
        let stage = Stage::AcquireExchange { ask, seen };
        self.follow(
            rt,
            watch,
            seat,
            position,
            stage,
            found,
            spin_policy,
            pending,
        )
    }

    // Goes on with a release that has found a word which it can't lower by an exchange.
    #[cold]
    pub(crate) fn give_on<R: Wait, W: Watch>(
        &self,
        rt: &R,
        watch: &W,
        seat: &mut Seat<(), View>,
        position: &mut Position,
        request: u16,
        found: u64,
        pending: Pending,
    ) -> Answer
        requires found { HasFound self.now pending (record position.old { stage = ReleaseLoad (Requested request) }) found seat.old }
        ensures same { IsSameSeat seat.old seat.new }
        ensures ended { HasEnded self.now pending position.new result seat.new }
    {
        let given = ReleaseAmount::Requested(request);
        let stage = Stage::ReleaseLoad { given };
        self.follow(rt, watch, seat, position, stage, found, NONE, pending)
    }

    // Goes on with a release whose exchange failed: the word that it had seen, and the one that it found.
    #[cold]
    pub(crate) fn give_anew<R: Wait, W: Watch>(
        &self,
        rt: &R,
        watch: &W,
        seat: &mut Seat<(), View>,
        position: &mut Position,
        request: u16,
        exchanged: (u64, u64),
        pending: Pending,
    ) -> Answer
        requires ranged { IsRanged (needs self.now) (ReleaseExchange (Requested request) (word_of count_bits exchanged.0)) }
        requires found { HasFound self.now pending (record position.old { stage = ReleaseExchange (Requested request) (word_of count_bits exchanged.0) }) exchanged.1 seat.old }
        ensures same { IsSameSeat seat.old seat.new }
        ensures ended { HasEnded self.now pending position.new result seat.new }
    {
        let (first, found) = exchanged;
        let (given, seen) = (ReleaseAmount::Requested(request), Word::unpack(first));
        let stage = Stage::ReleaseExchange { given, seen };
        self.follow(rt, watch, seat, position, stage, found, NONE, pending)
    }

    // Settles the queue for a place that gave something back and holds the flag.
    pub(crate) fn give_settling<R: Wait, W: Watch>(
        &self,
        rt: &R,
        watch: &W,
        seat: &mut Seat<(), View>,
        position: &mut Position,
        first: Word,
        pending: Pending,
    ) -> Answer
        requires back { position.old.back ≡ Tells }
        requires pending { IsPending self.now pending (record position.old { stage = BackLoad first first.tail 0 }) seat.old }
        ensures same { IsSameSeat seat.old seat.new }
        ensures ended { HasEnded self.now pending position.new result seat.new }
    {
        let walk = Walk {
            course: &pending,
            place: *position,
        };
        self.settle(rt, watch, seat, &walk, first, first.tail, 0);
        position.stage = Stage::Quiet;
        Answer::Bool(true)
    }

    // Goes on with a call whose place has just found this number at this stage: it looks on while its spins last, and then joins where it must.
    fn follow<R: Wait, W: Watch>(
        &self,
        rt: &R,
        watch: &W,
        seat: &mut Seat<(), View>,
        position: &mut Position,
        stage: Stage,
        found: u64,
        spin_policy: SpinPolicy,
        pending: Pending,
    ) -> Answer
        requires ranged { IsRanged (needs self.now) stage }
        requires found { HasFound self.now pending (record position.old { stage = stage }) found seat.old }
        ensures same { IsSameSeat seat.old seat.new }
        ensures ended { HasEnded self.now pending position.new result seat.new }
    {
        let place = Position { stage, ..*position };
        match unless_joining(place, place.resume(self.rules, pending.me, found)) {
            Next::Going(next) => {
                let (behind, answer) = self.look_on(rt, watch, seat, next, spin_policy, pending);
                *position = behind;
                answer
            }
            Next::Waits => {
                let (behind, answer) = self.go_on(rt, watch, seat, place, pending);
                *position = behind;
                answer
            }
            Next::Done(behind, answer) => {
                *position = behind;
                answer
            }
        }
    }
}
