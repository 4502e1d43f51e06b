//! A whole call of a place: the steps from its start to its answer.

ghost use Rattle.std.specs.Prelude.{◌≡◌, true};
ghost use Rattle.saa_word_steps.specs.Steps.{finished};
ghost use Rattle.saa_word_threads.specs.Called.{is_single};
ghost use Rattle.saa_word_threads.specs.Pending.{BeganAt, GoesOn, HasEnded, IsAt, IsCalledAt, IsPending, IsSameSeat, Takes, needs, withheld};
ghost use Rattle.saa_word_threads.specs.Public.{HasLeft, IsSamePlace, spin_policy_of};

use crate::form::Form;
use crate::place::{Left, Place};
use crate::table::View;
use crate::walk::{Course, Walk};
use crate::watch::{Moment, Unwatched, Watch};
use atomic_table::Seat;
use saa_word_steps::call::{Answer, WordCall};
use saa_word_steps::place::{AfterWalk, Next, Place as Position, PollMode, Registration, Stage};
use std::marker::Brand;
use std::snapshot::Snapshot;
use std::sync::Wait;

// A call of a place that is pending: the place's number, and what it began with, which contracts alone see and which takes no bytes.
#[derive(Drop)]
pub(crate) struct Pending {
    pub(crate) me: u16,
    call: Snapshot<WordCall>,
    registered: Snapshot<Registration>,
    seat: Snapshot<Seat<(), View>>,
}

impl Pending {
    // A call that begins at a place.
    #[inline(always)]
    pub(crate) fn of(call: WordCall, place: &Place) -> Pending
        ensures { BeganAt result call place.now }
    {
        Pending {
            me: place.number,
            call: Snapshot::of(&call),
            registered: Snapshot::of(&place.position.registration),
            seat: Snapshot::of(&place.seat),
        }
    }
}

impl Course for Pending {
    ghost begun = { λ pending. record { call = pending.call.value; was = pending.registered.value; view = pending.seat.value.me.0 } };
}

impl Form {
    // Makes a call at a place, and waits where it must.
    pub(crate) fn call<R: Wait, W: Watch>(
        &self,
        rt: &R,
        watch: &W,
        place: &mut Place,
        call: WordCall,
    ) -> Answer
        requires dealt { IsAt self.now place.old.seat }
        requires takes { Takes self.now call }
        ensures same { IsSamePlace place.old place.new }
        ensures spin_policy { spin_policy_of place.new ≡ spin_policy_of place.old }
        ensures called { IsCalledAt self.now call place.old result place.new }
    {
        match place.position.start(self.rules, call) {
            Next::Done(position, answer) => {
                place.position = position;
                answer
            }
            Next::Going(first) => {
                let pending = Pending::of(call, place);
                let (position, answer) = self.go_on(rt, watch, &mut place.seat, first, pending);
                place.position = position;
                answer
            }
            Next::Waits => unreachable!(),
        }
    }

    // Makes a call of one step at most, which never blocks.
    pub(crate) fn call_at_once(&self, place: &mut Place, call: WordCall) -> Answer
        requires dealt { IsAt self.now place.old.seat }
        requires takes { Takes self.now call }
        requires single { is_single call ≡ true }
        ensures same { IsSamePlace place.old place.new }
        ensures called { IsCalledAt self.now call place.old result place.new }
    {
        match place.position.start(self.rules, call) {
            Next::Done(position, answer) => {
                place.position = position;
                answer
            }
            Next::Going(first) => {
                let pending = Pending::of(call, place);
                match self.act::<Brand, Unwatched>(&Unwatched, &mut place.seat, first, &pending) {
                    Next::Done(position, answer) => {
                        place.position = position;
                        answer
                    }
                    _ => unreachable!(),
                }
            }
            Next::Waits => unreachable!(),
        }
    }

    // A place leaves; it cancels first.
    pub(crate) fn leave<R: Wait, W: Watch>(&self, rt: &R, watch: &W, mut place: Place) -> Left
        requires dealt { IsAt self.now place.seat }
        ensures left { HasLeft (needs self.now) (withheld self.now) place result }
    {
        self.cancel(rt, watch, &mut place);
        let Place {
            seat,
            number,
            position: _,
            last_ask: _,
        } = place;
        Left { seat, number }
    }

    // Makes the next step of a pending call; where that begins a walk or a look for itself, it makes the whole of it.
    fn go<R: Wait, W: Watch>(
        &self,
        rt: &R,
        watch: &W,
        seat: &mut Seat<(), View>,
        place: Position,
        pending: &Pending,
    ) -> Next
        requires { IsPending self.now pending.now place seat.old }
        ensures same { IsSameSeat seat.old seat.new }
        ensures next { GoesOn self.now pending.now place result seat.new }
    {
        match place.stage {
            Stage::BackLoad {
                seen,
                current,
                newer,
            } => {
                let walk = Walk {
                    course: pending,
                    place,
                };
                self.settle(rt, watch, seat, &walk, seen, current, newer);
                finish(place)
            }
            Stage::LookLoad {
                seen,
                current,
                newer,
                previous,
            } => self.look_back(
                rt, watch, seat, place, pending, seen, current, newer, previous,
            ),
            _ => self.act::<Brand, W>(watch, seat, place, pending),
        }
    }

    // Goes on with a call to its end, from the stage that its place is at.
    pub(crate) fn go_on<R: Wait, W: Watch>(
        &self,
        rt: &R,
        watch: &W,
        seat: &mut Seat<(), View>,
        first: Position,
        pending: Pending,
    ) -> (Position, Answer)
        requires { IsPending self.now pending first seat.old }
        ensures same { IsSameSeat seat.old seat.new }
        ensures ended { HasEnded self.now pending result.0 result.1 seat.new }
    {
        let mut place = first;
        for _ in rt.forever() {
            if publishes(place.stage) {
                watch.at(Moment::Publishes);
            }
            match self.go(rt, watch, seat, place, &pending) {
                Next::Going(next) => place = next,
                Next::Waits => {
                    watch.at(Moment::IsBlocked);
                    self.wait(rt, watch, pending.me, place.stage);
                }
                Next::Done(behind, answer) => return (behind, answer),
            }
        }
        unreachable!()
    }
}

// Whether a place is about to publish what it has granted.
pub(crate) fn publishes(stage: Stage) -> bool {
    matches!(
        stage,
        Stage::Close { .. } | Stage::Empty { .. } | Stage::Retry { .. }
    )
}

// How a place goes on that is done with the queue.
pub(crate) fn finish(place: Position) -> Next
    ensures { result ≡ finished place place.back }
{
    let quiet = Position {
        stage: Stage::Quiet,
        ..place
    };
    match place.back {
        AfterWalk::Tells => Next::Done(quiet, Answer::Bool(true)),
        AfterWalk::Ends => Next::Done(quiet, Answer::Unit),
        AfterWalk::Takes(request) => {
            let taking = PollMode::Gives(request);
            Next::Going(Position {
                stage: Stage::Take { taking },
                ..place
            })
        }
    }
}
