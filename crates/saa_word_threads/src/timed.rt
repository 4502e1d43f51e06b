//! Polls of a place that take its answer if it is there: at once, and once a while has passed.

ghost use Rattle.std.specs.Prelude.{◌≡◌};
ghost use Rattle.saa_word_steps.specs.declared.call.WordCall.TheVariants.{Cancel, Poll, TryPoll};
ghost use Rattle.saa_word_threads.specs.Pending.{IsAt, IsCalledAt};
ghost use Rattle.saa_word_threads.specs.Public.{IsSamePlace};

use crate::form::Form;
use crate::limit::Limit;
use crate::place::Place;
use crate::watch::Watch;
use saa_word_steps::call::{Answer, WordCall};
use std::sync::Wait;

impl Form {
    // Polls once.
    pub(crate) fn try_poll(&self, place: &mut Place) -> Answer
        requires dealt { IsAt self.now place.old.seat }
        ensures same { IsSamePlace place.old place.new }
        ensures called { IsCalledAt self.now TryPoll place.old result place.new }
    {
        let answer = self.call_at_once(place, WordCall::TryPoll);
        self.forget_answered(place);
        answer
    }

    // Waits until the answer is there or the time is up, and polls once then. A wait is no step.
    pub(crate) fn poll_until<R: Wait, W: Watch, L: Limit>(
        &self,
        rt: &R,
        watch: &W,
        place: &mut Place,
        limit: &L,
    ) -> Answer
        requires dealt { IsAt self.now place.old.seat }
        ensures same { IsSamePlace place.old place.new }
        ensures called { IsCalledAt self.now TryPoll place.old result place.new }
    {
        if place.has_joined() {
            self.await_until(rt, watch, place.number, limit);
        }
        self.try_poll(place)
    }

    // Polls, and waits where it must.
    pub(crate) fn poll<R: Wait, W: Watch>(&self, rt: &R, watch: &W, place: &mut Place) -> Answer
        requires dealt { IsAt self.now place.old.seat }
        ensures same { IsSamePlace place.old place.new }
        ensures called { IsCalledAt self.now Poll place.old result place.new }
    {
        let answer = self.take_awaited(rt, watch, place);
        self.forget_answered(place);
        answer
    }

    // Cancels.
    pub(crate) fn cancel<R: Wait, W: Watch>(&self, rt: &R, watch: &W, place: &mut Place) -> Answer
        requires dealt { IsAt self.now place.old.seat }
        ensures same { IsSamePlace place.old place.new }
        ensures called { IsCalledAt self.now Cancel place.old result place.new }
    {
        let answer = self.call(rt, watch, place, WordCall::Cancel);
        self.forget_answered(place);
        answer
    }

    // Drops the waker that is kept for a place, where it is registered as nothing.
    pub(crate) fn forget_answered(&self, place: &Place)
        requires dealt { IsAt self.now place.now.seat }
    {
        if place.is_idle() {
            self.forget(place.number);
        }
    }
}
