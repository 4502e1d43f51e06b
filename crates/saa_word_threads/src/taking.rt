//! The straight path of a poll that waits: it takes the own answer by a swap, and looks for it by the same swap while it spins.
//!
//! The swap is the very step of `act`, of the same stage, but contracts alone see the stage. A swap that finds nothing changes nothing; and once the
//! answer is there, the swap that finds it has it. A look that only reads would bring the word's cache line here, and the swap behind it would have to
//! claim the line once more. A place whose spins are over only reads, while it yields or parks.

ghost use Rattle.std.specs.Prelude.{◌≡◌};
ghost use Rattle.saa_word_steps.specs.declared.call.WordCall.TheVariants.{Poll};
ghost use Rattle.saa_word_steps.specs.declared.operation.Operation.TheVariants.{Swap};
ghost use Rattle.saa_word_steps.specs.declared.place.PollMode.TheVariants.{Awaits};
ghost use Rattle.saa_word_steps.specs.declared.place.Stage.TheVariants.{Take};
ghost use Rattle.saa_word_steps.specs.Steps.{next_of, operation_of, taken_answer};
ghost use Rattle.saa_word_threads.specs.Pending.{GoesOn, HasEnded, IsAt, IsCalledAt, IsPending, IsSameSeat, about_of, needs};
ghost use Rattle.saa_word_threads.specs.Public.{IsSamePlace, spin_policy_of};
ghost use Rattle.saa_word_threads.specs.Walks.{at_stage};

use crate::call::Pending;
use crate::form::Form;
use crate::limit::Endless;
use crate::place::Place;
use crate::table::{Mover, View};
use crate::waiting::LOOKS;
use crate::watch::{Moment, Pause, Watch};
use atomic_table::Seat;
use saa_core_words::answer_word;
use saa_word_steps::call::{Answer, WordCall};
use saa_word_steps::place::{Place as Position, PollMode, Registration, Stage};
use std::marker::Brand;
use std::snapshot::Snapshot;
use std::sync::Wait;

// The value of the answer that grants.
const GRANTED: u8 = 0;

impl Form {
    // Polls, and waits where it must.
    pub(crate) fn take_awaited<R: Wait, W: Watch>(
        &self,
        rt: &R,
        watch: &W,
        place: &mut Place,
    ) -> Answer
        requires dealt { IsAt self.now place.old.seat }
        ensures same { IsSamePlace place.old place.new }
        ensures spin_policy { spin_policy_of place.new ≡ spin_policy_of place.old }
        ensures called { IsCalledAt self.now Poll place.old result place.new }
    {
        if !place.has_joined() {
            return self.call(rt, watch, place, WordCall::Poll);
        }
        let pending = Pending::of(WordCall::Poll, place);
        let (seat, position) = (&mut place.seat, &mut place.position);
        self.await_and_take(rt, watch, seat, position, pending)
    }

    // Waits until the own answer is there, and takes it. The place is registered as nothing then.
    fn await_and_take<R: Wait, W: Watch>(
        &self,
        rt: &R,
        watch: &W,
        seat: &mut Seat<(), View>,
        position: &mut Position,
        pending: Pending,
    ) -> Answer
        requires { IsPending self.now pending (at_stage position.old (Take Awaits)) seat.old }
        ensures same { IsSameSeat seat.old seat.new }
        ensures ended { HasEnded self.now pending position.new result seat.new }
    {
        for _ in rt.forever() {
            if let Some(value) = self.spin_and_take(watch, seat, *position, &pending) {
                position.registration = Registration::Idle;
                position.stage = Stage::Quiet;
                return Answer::Taken(Ok(value == GRANTED));
            }
            self.await_changed(rt, watch, pending.me, &Endless);
        }
        unreachable!()
    }

    // Takes the own answer: at once, or while it spins. Its value, or `None` where it isn't there in that time.
    fn spin_and_take<W: Watch>(
        &self,
        watch: &W,
        seat: &mut Seat<(), View>,
        position: Position,
        pending: &Pending,
    ) -> Option<u8>
        requires { IsPending self.now pending.now (at_stage position (Take Awaits)) seat.old }
        ensures same { IsSameSeat seat.old seat.new }
        ensures next { GoesOn self.now pending.now (at_stage position (Take Awaits)) (taken_answer (needs self.now) (at_stage position (Take Awaits)) Awaits result) seat.new }
    {
        if let Some(value) = self.take_shown(seat, position, pending) {
            return Some(value);
        }
        watch.at(Moment::IsBlocked);
        for _turn in 0..LOOKS {
            watch.at(Moment::LooksForAnswer);
            if let Some(value) = self.take_shown(seat, position, pending) {
                return Some(value);
            }
            Pause::SpinsForAnswer.make(watch);
        }
        None
    }

    // Takes the own answer by a swap: its value, or `None` where it isn't there.
    #[inline(always)]
    fn take_shown(
        &self,
        seat: &mut Seat<(), View>,
        position: Position,
        pending: &Pending,
    ) -> Option<u8>
        requires { IsPending self.now pending.now (at_stage position (Take Awaits)) seat.old }
        ensures same { IsSameSeat seat.old seat.new }
        ensures next { GoesOn self.now pending.now (at_stage position (Take Awaits)) (taken_answer (needs self.now) (at_stage position (Take Awaits)) Awaits result) seat.new }
    {
        let taking = PollMode::Awaits;
        let at = Snapshot::of(&Position {
            stage: Stage::Take { taking },
            ..position
        });
        let index = usize::from(self.places) + usize::from(pending.me) + 1;
        let found = self.pending_swap::<Brand>(seat, at, pending, index);
        answer_word::unpack((found % 65_536) as u16)
    }

    // Swaps a word for nothing, at this stage of a pending call.
    #[inline(always)]
    fn pending_swap<M: Mover>(
        &self,
        seat: &mut Seat<(), View>,
        at: Snapshot<Position>,
        pending: &Pending,
        index: usize,
    ) -> u64
        requires mover { (M.about ≡ about_of self.now) × (M.place ≡ at.value) × (M.me ≡ pending.now.me) }
        requires pending { IsPending self.now pending.now at.value seat.old }
        requires swaps { operation_of (needs self.now) self.now.places pending.now.me at.value.stage ≡ Swap index 0 }
        ensures same { IsSameSeat seat.old seat.new }
        ensures next { GoesOn self.now pending.now at.value (next_of (needs self.now) pending.now.me at.value at.value.stage result) seat.new }
    {
        self.swap::<M>(seat, index, 0)
    }
}
