//! Polls of tasks: where the answer isn't there, the task's waker is kept beside its place.

ghost use Rattle.std.specs.Prelude.{◌≡◌, ◌≢◌, ◌<◌, true, Err};
ghost use Rattle.saa_core_spec.specs.declared.polling.Error.TheVariants.{NotReady};
ghost use Rattle.saa_word_steps.specs.declared.call.Answer.TheVariants.{Taken};
ghost use Rattle.saa_word_steps.specs.declared.call.WordCall.TheVariants.{TryPoll};
ghost use Rattle.saa_word_threads.specs.Pending.{IsAt, IsCalledAt};
ghost use Rattle.saa_word_threads.specs.Public.{IsSamePlace};
ghost use Rattle.futures.specs.Task.{Hears, IsArmed, Keeps};
ghost use Rattle.futures.specs.Poll.{IfReady, OnPending};

use crate::form::Form;
use crate::place::Place;
use crate::watch::{Moment, Watch};
use futures::task::{Context, Poll};
use saa_word_steps::call::{Answer, Error};

impl Form {
    // Polls once for a task. Where the answer isn't there, the task's waker is kept, and the poll is pending.
    pub(crate) fn poll_task<W: Watch>(
        &self,
        watch: &W,
        place: &mut Place,
        cx: &mut Context<'_>,
    ) -> Poll<Answer>
        requires dealt { IsAt self.now place.old.seat }
        ensures same { IsSamePlace place.old place.new }
        ensures ready { IfReady result (λ answer. IsCalledAt self.now TryPoll place.old answer place.new) }
        ensures waited { IfReady result (λ answer. answer ≢ Taken (Err NotReady)) }
        ensures pending { OnPending result (IsCalledAt self.now TryPoll place.old (Taken (Err NotReady)) place.new) }
        ensures armed { OnPending result (IsArmed cx.new) }
        ensures heard { OnPending result (Hears cx.new self.now.wakers.source.id) }
        ensures kept { Keeps cx.old cx.new }
    {
        // Why this order: the call that answers looks at the place's mark once the answer is written, and this poll looks at the answer once the
        // waker is kept and the mark set. The other way round nobody would wake the task for an answer between the two.
        let is_kept = place.has_joined()
            && !self.is_answered(place.number)
            && self.keep_waker(watch, place.number, cx);
        match self.try_poll(place) {
            Answer::Taken(Err(Error::NotReady)) => {
                if is_kept {
                    Poll::Pending
                } else {
                    cx.yield_now()
                }
            }
            answer => Poll::Ready(answer),
        }
    }

    // Keeps a task's waker at a place, or wakes the task at once; then it is so.
    fn keep_waker<W: Watch>(&self, watch: &W, me: u16, cx: &mut Context<'_>) -> bool
        requires { me < self.now.places }
        ensures done { result ≡ true }
        ensures armed { IsArmed cx.new }
        ensures heard { Hears cx.new self.now.wakers.source.id }
        ensures kept { Keeps cx.old cx.new }
    {
        let place = usize::from(me);
        watch.at(Moment::Keeps);
        let _pending = self.wakers.keep::<()>(place, cx);
        self.marks.set_polled(place);
        watch.at(Moment::Polls);
        true
    }
}
