//! The straight path of an ask that joins the waiters: it writes its line word behind the tail, and exchanges the main word for one with itself as the tail.
//!
//! These are the very steps of `act`, of the same stages, but contracts alone see the stages: no position is built or copied. Where the exchange finds a
//! word by which it needn't join, the call goes on step by step, from the stage that it has reached.

ghost use Rattle.std.specs.Prelude.{◌≡◌};
ghost use Rattle.saa_word_steps.specs.declared.operation.Operation.TheVariants.{Exchange, Load, Store};
ghost use Rattle.saa_word_steps.specs.declared.place.Stage.TheVariants.{Join, Prepare};
ghost use Rattle.saa_word_steps.specs.Steps.{IsRanged, next_of, operation_of};
ghost use Rattle.saa_word_threads.specs.Pending.{GoesOn, HasEnded, IsPending, IsSameSeat, about_of, needs};
ghost use Rattle.saa_word_threads.specs.Walks.{at_stage};

use crate::call::Pending;
use crate::form::Form;
use crate::table::{Mover, View};
use crate::watch::Watch;
use atomic_table::Seat;
use saa_core_words::line_word::LineWord;
use saa_core_words::word::Word;
use saa_word_steps::call::Answer;
use saa_word_steps::place::{Next, Place as Position, Registration, Stage};
use std::marker::Brand;
use std::snapshot::Snapshot;
use std::sync::Wait;

impl Form {
    // Goes on to its end with an ask whose looks are over: it joins the waiters where it must.
    pub(crate) fn join_on<R: Wait, W: Watch>(
        &self,
        rt: &R,
        watch: &W,
        seat: &mut Seat<(), View>,
        place: Position,
        pending: Pending,
    ) -> (Position, Answer)
        requires { IsPending self.now pending place seat.old }
        ensures same { IsSameSeat seat.old seat.new }
        ensures ended { HasEnded self.now pending result.0 result.1 seat.new }
    {
        let Stage::AcquireLoad { ask } = place.stage else {
            let next = self.act::<Brand, W>(watch, seat, place, &pending);
            return self.join_behind(rt, watch, seat, place, next, pending);
        };
        let at = Snapshot::of(&place);
        let found = self.pending_load::<Brand>(seat, at, &pending, 0);
        let seen = Word::unpack(found);
        if ask.joins && self.must_join(seen, ask.request) {
            return self.enqueue(rt, watch, seat, place, ask.request, seen, pending);
        }
        let next = place.resume(self.rules, pending.me, found);
        self.go_behind(rt, watch, seat, place, next, pending)
    }

    // Goes on to its end with an ask behind a step of its place, which joins the waiters where that is next.
    fn join_behind<R: Wait, W: Watch>(
        &self,
        rt: &R,
        watch: &W,
        seat: &mut Seat<(), View>,
        place: Position,
        next: Next,
        pending: Pending,
    ) -> (Position, Answer)
        requires { GoesOn self.now pending place next seat.old }
        ensures same { IsSameSeat seat.old seat.new }
        ensures ended { HasEnded self.now pending result.0 result.1 seat.new }
    {
        if let Next::Going(behind) = next
            && let Stage::Prepare { request, seen } = behind.stage
        {
            return self.enqueue(rt, watch, seat, behind, request, seen, pending);
        }
        self.go_behind(rt, watch, seat, place, next, pending)
    }

    // Goes on with a call to its end, step by step, behind a step of its place.
    fn go_behind<R: Wait, W: Watch>(
        &self,
        rt: &R,
        watch: &W,
        seat: &mut Seat<(), View>,
        place: Position,
        next: Next,
        pending: Pending,
    ) -> (Position, Answer)
        requires { GoesOn self.now pending place next seat.old }
        ensures same { IsSameSeat seat.old seat.new }
        ensures ended { HasEnded self.now pending result.0 result.1 seat.new }
    {
        match next {
            Next::Going(behind) => self.go_on(rt, watch, seat, behind, pending),
            Next::Waits => self.go_on(rt, watch, seat, place, pending),
            Next::Done(behind, answer) => (behind, answer),
        }
    }

    // Joins the waiters, behind the tail of the word that it has seen or of a later one.
    fn enqueue<R: Wait, W: Watch>(
        &self,
        rt: &R,
        watch: &W,
        seat: &mut Seat<(), View>,
        place: Position,
        request: u16,
        first: Word,
        pending: Pending,
    ) -> (Position, Answer)
        requires { IsPending self.now pending (at_stage place (Prepare request first)) seat.old }
        ensures same { IsSameSeat seat.old seat.new }
        ensures ended { HasEnded self.now pending result.0 result.1 seat.new }
    {
        let mut seen = first;
        for _ in rt.forever() {
            let found = self.enqueue_behind(watch, seat, place, request, seen, &pending);
            if found == seen.pack() {
                let registration = Registration::Queued(request);
                let stage = Stage::Quiet;
                let back = place.back;
                let joined = Position {
                    registration,
                    stage,
                    back,
                };
                return (joined, Answer::Bool(true));
            }
            let now = Word::unpack(found);
            if !self.must_join(now, request) {
                let stage = Stage::Join { request, seen };
                let place = Position { stage, ..place };
                let next = place.resume(self.rules, pending.me, found);
                return self.go_behind(rt, watch, seat, place, next, pending);
            }
            seen = now;
        }
        unreachable!()
    }

    // Writes its own line word behind the tail of a word, and exchanges that for one with itself as the tail. What the exchange finds.
    #[inline(always)]
    fn enqueue_behind<W: Watch>(
        &self,
        watch: &W,
        seat: &mut Seat<(), View>,
        place: Position,
        request: u16,
        seen: Word,
        pending: &Pending,
    ) -> u64
        requires { IsPending self.now pending.now (at_stage place (Prepare request seen)) seat.old }
        ensures same { IsSameSeat seat.old seat.new }
        ensures ranged { IsRanged (needs self.now) (Join request seen) }
        ensures next { GoesOn self.now pending.now (at_stage place (Join request seen)) (next_of (needs self.now) pending.now.me (at_stage place (Join request seen)) (Join request seen) result) seat.new }
    {
        let link = pending.me + 1;
        let line = LineWord {
            request,
            older: seen.tail,
            newer: 0,
        };
        let preparing = Snapshot::of(&Position {
            stage: Stage::Prepare { request, seen },
            ..place
        });
        self.pending_store::<Brand, W>(
            watch,
            seat,
            preparing,
            pending,
            usize::from(link),
            line.pack(),
        );
        let joining = Snapshot::of(&Position {
            stage: Stage::Join { request, seen },
            ..place
        });
        let behind = Word { tail: link, ..seen };
        self.pending_exchange::<Brand>(seat, joining, pending, seen.pack(), behind.pack())
    }

    // Loads a word, at this stage of a pending call.
    #[inline(always)]
    pub(crate) fn pending_load<M: Mover>(
        &self,
        seat: &mut Seat<(), View>,
        at: Snapshot<Position>,
        pending: &Pending,
        index: usize,
    ) -> u64
        requires mover { (M.about ≡ about_of self.now) × (M.place ≡ at.value) × (M.me ≡ pending.now.me) }
        requires pending { IsPending self.now pending.now at.value seat.old }
        requires loads { operation_of (needs self.now) self.now.places pending.now.me at.value.stage ≡ Load index }
        ensures same { IsSameSeat seat.old seat.new }
        ensures next { GoesOn self.now pending.now at.value (next_of (needs self.now) pending.now.me at.value at.value.stage result) seat.new }
    {
        self.load::<M>(seat, index)
    }

    // Writes a word, at this stage of a pending call.
    #[inline(always)]
    pub(crate) fn pending_store<M: Mover, W: Watch>(
        &self,
        watch: &W,
        seat: &mut Seat<(), View>,
        at: Snapshot<Position>,
        pending: &Pending,
        index: usize,
        number: u64,
    ) -> u64
        requires mover { (M.about ≡ about_of self.now) × (M.place ≡ at.value) × (M.me ≡ pending.now.me) }
        requires pending { IsPending self.now pending.now at.value seat.old }
        requires stores { operation_of (needs self.now) self.now.places pending.now.me at.value.stage ≡ Store index number }
        ensures same { IsSameSeat seat.old seat.new }
        ensures next { GoesOn self.now pending.now at.value (next_of (needs self.now) pending.now.me at.value at.value.stage result) seat.new }
    {
        self.store::<M, W>(watch, seat, index, number)
    }

    // Exchanges the main word, at this stage of a pending call.
    #[inline(always)]
    fn pending_exchange<M: Mover>(
        &self,
        seat: &mut Seat<(), View>,
        at: Snapshot<Position>,
        pending: &Pending,
        old: u64,
        new: u64,
    ) -> u64
        requires mover { (M.about ≡ about_of self.now) × (M.place ≡ at.value) × (M.me ≡ pending.now.me) }
        requires pending { IsPending self.now pending.now at.value seat.old }
        requires exchanges { operation_of (needs self.now) self.now.places pending.now.me at.value.stage ≡ Exchange 0 old new }
        ensures same { IsSameSeat seat.old seat.new }
        ensures next { GoesOn self.now pending.now at.value (next_of (needs self.now) pending.now.me at.value at.value.stage result) seat.new }
    {
        self.exchange::<M>(seat, 0, old, new)
    }
}
