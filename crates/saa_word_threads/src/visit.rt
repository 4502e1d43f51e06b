//! The calls of visitors: the same steps as those of places, with no word of their own.

ghost use Rattle.std.specs.Prelude.{◌≡◌, false};
ghost use Rattle.saa_word_steps.specs.declared.call.Answer.{Answer};
ghost use Rattle.saa_word_steps.specs.declared.operation.Operation.TheVariants.{Load, Exchange};
ghost use Rattle.saa_word_steps.specs.declared.place.ReleaseAmount.TheVariants.{Requested};
ghost use Rattle.saa_word_steps.specs.declared.place.Next.TheVariants.{Going};
ghost use Rattle.saa_word_steps.specs.declared.place.Stage.TheVariants.{AcquireLoad, BackLoad, ReadLoad};
ghost use Rattle.saa_word_steps.specs.Steps.{IsRanged, going, operation_of, released_as, started};
ghost use Rattle.saa_word_proofs.specs.Promises.{idle_place};
ghost use Rattle.saa_word_proofs.specs.Refinement.{IsVisiting};
ghost use Rattle.saa_word_threads.specs.Pending.{IsAt, IsCalledBy, IsSameVisitor, IsVisitPending, IsVisitorSeat, Takes, VisitGoesOn, VisitHasEnded, VisitHasFound, about_of, needs};
ghost use Rattle.saa_word_threads.specs.Public.{is_yes};
ghost use Rattle.saa_word_threads.specs.Visits.{IsEntering, IsNewVisitor};

use crate::answers::yes;
use crate::call::{finish, publishes};
use crate::form::Form;
use crate::main_word::{lowered, takes_flag};
use crate::table::{Entered, Mover, View};
use crate::visitor::Visitor;
use crate::walk::{Course, Walk};
use crate::watch::{Moment, Pause, Watch};
use atomic_table::Seat;
use saa_core_words::word::Word;
use saa_word_steps::call::{Answer, WordCall};
use saa_word_steps::place::{
    AfterWalk, Ask, Next, Place as Position, Reading, Registration, ReleaseAmount, Stage,
};
use std::marker::Brand;
use std::snapshot::Snapshot;
use std::sync::Wait;

// A call of a visitor that is pending: what it began with. Contracts alone see it; it takes no bytes.
#[derive(Drop)]
pub(crate) struct Visit {
    call: Snapshot<WordCall>,
    seat: Snapshot<Seat<(), View>>,
}

impl Visit {
    // A call that begins at a visitor.
    #[inline(always)]
    fn of(call: WordCall, visitor: &Visitor) -> Visit
        ensures call { result.call.value ≡ call }
        ensures seat { result.seat.value ≡ visitor.now.seat }
    {
        Visit {
            call: Snapshot::of(&call),
            seat: Snapshot::of(&visitor.seat),
        }
    }
}

impl Course for Visit {
    ghost use Rattle.saa_word_steps.specs.declared.place.Registration.TheVariants.{Idle};

    ghost begun = { λ visit. record { call = visit.call.value; was = Idle; view = visit.seat.value.me.0 } };
}

impl Form {
    // A visitor enters, by a load.
    #[inline(always)]
    pub(crate) fn enter(&self) -> Visitor
        ensures { IsNewVisitor self.now.table.shared.table_id self.now.places result }
    {
        let seat = self.enter_as::<Brand>();
        Visitor { seat }
    }

    #[inline(always)]
    fn enter_as<M: Mover>(&self) -> Seat<(), View>
        requires mover { M.about ≡ about_of self.now }
        ensures table { IsAt self.now result }
        ensures new { IsEntering self.now.places result.me.0 }
    {
        let (_found, seat) = self.table.shared.load_new_seat::<Entered<M>>(0);
        seat
    }

    // Asks for something at a visitor: of a word that grants it by one exchange.
    #[inline(always)]
    pub(crate) fn visit_ask<R: Wait, W: Watch>(
        &self,
        rt: &R,
        watch: &W,
        visitor: &mut Visitor,
        call: WordCall,
        request: u16,
    ) -> Answer
        requires entered { IsAt self.now visitor.old.seat }
        requires takes { Takes self.now call }
        requires starts { started (needs self.now) idle_place call ≡ going idle_place (AcquireLoad (record { request = request; joins = false })) }
        ensures same { visitor.new.seat.table_id ≡ visitor.old.seat.table_id }
        ensures called { IsCalledBy self.now call visitor.old result visitor.new }
    {
        let visit = Visit::of(call, visitor);
        let ask = Ask {
            request,
            joins: false,
        };
        let looking = Snapshot::of(&standing(Stage::AcquireLoad { ask }));
        watch.at(Moment::Looks);
        let found = self.visit_look::<Brand>(&mut visitor.seat, looking, &visit);
        let seen = Word::unpack(found);
        if !self.grants(seen, ask) {
            let stage = Stage::AcquireLoad { ask };
            return self.visit_follow(rt, watch, &mut visitor.seat, stage, found, visit);
        }
        let changing = Snapshot::of(&standing(Stage::AcquireExchange { ask, seen }));
        let count = self.rules.plus(seen.count, ask.request);
        let old = seen.pack();
        let raised = Word { count, ..seen };
        let new = raised.pack();
        watch.at(Moment::Takes);
        let other = self.visit_change::<Brand>(&mut visitor.seat, changing, old, new, &visit);
        if other != old {
            let stage = Stage::AcquireExchange { ask, seen };
            return self.visit_follow(rt, watch, &mut visitor.seat, stage, other, visit);
        }
        self.granted_try()
    }

    // Gives back what a request took, at a visitor, by one exchange, and settles the queue where there are waiters. Whether the answer is yes.
    #[inline(always)]
    pub(crate) fn visit_give<R: Wait, W: Watch>(
        &self,
        rt: &R,
        watch: &W,
        visitor: &mut Visitor,
        call: WordCall,
        request: u16,
    ) -> bool
        requires entered { IsAt self.now visitor.old.seat }
        requires takes { Takes self.now call }
        requires starts { started (needs self.now) idle_place call ≡ released_as idle_place (Requested request) }
        ensures same { visitor.new.seat.table_id ≡ visitor.old.seat.table_id }
        ensures called { (answer : Answer) × (result ≡ is_yes answer) × IsCalledBy self.now call visitor.old answer visitor.new }
    {
        let visit = Visit::of(call, visitor);
        let given = ReleaseAmount::Requested(request);
        let looking = Snapshot::of(&standing(Stage::ReleaseLoad { given }));
        let found = self.visit_look::<Brand>(&mut visitor.seat, looking, &visit);
        let seen = Word::unpack(found);
        let Some(count) = self.lowers(seen, request) else {
            let stage = Stage::ReleaseLoad { given };
            return yes(self.visit_follow(rt, watch, &mut visitor.seat, stage, found, visit));
        };
        let changing = Snapshot::of(&standing(Stage::ReleaseExchange { given, seen }));
        let old = seen.pack();
        let new = lowered(seen, count).pack();
        let other = self.visit_change::<Brand>(&mut visitor.seat, changing, old, new, &visit);
        if other != old {
            let stage = Stage::ReleaseExchange { given, seen };
            return yes(self.visit_follow(rt, watch, &mut visitor.seat, stage, other, visit));
        }
        if takes_flag(seen) {
            let first = lowered(seen, count);
            return yes(self.visit_settling(rt, watch, &mut visitor.seat, first, visit));
        }
        true
    }

    // Makes a call of a visitor from its first stage, step by step.
    pub(crate) fn visit_call<R: Wait, W: Watch>(
        &self,
        rt: &R,
        watch: &W,
        visitor: &mut Visitor,
        call: WordCall,
        stage: Stage,
    ) -> Answer
        requires entered { IsAt self.now visitor.old.seat }
        requires takes { Takes self.now call }
        requires starts { started (needs self.now) idle_place call ≡ Going (record idle_place { stage = stage }) }
        requires visits { IsVisiting stage }
        ensures same { visitor.new.seat.table_id ≡ visitor.old.seat.table_id }
        ensures called { IsCalledBy self.now call visitor.old result visitor.new }
    {
        let visit = Visit::of(call, visitor);
        self.visit_on(rt, watch, &mut visitor.seat, standing(stage), visit)
    }

    // Reads the main word, at a visitor.
    pub(crate) fn visit_read(
        &self,
        visitor: &mut Visitor,
        call: WordCall,
        reading: Reading,
    ) -> Answer
        requires entered { IsAt self.now visitor.old.seat }
        requires takes { Takes self.now call }
        requires starts { started (needs self.now) idle_place call ≡ going idle_place (ReadLoad reading) }
        ensures same { visitor.new.seat.table_id ≡ visitor.old.seat.table_id }
        ensures called { IsCalledBy self.now call visitor.old result visitor.new }
    {
        let visit = Visit::of(call, visitor);
        let place = standing(Stage::ReadLoad { reading });
        let looking = Snapshot::of(&place);
        let found = self.visit_look::<Brand>(&mut visitor.seat, looking, &visit);
        match place.resume(self.rules, 0, found) {
            Next::Done(_behind, answer) => answer,
            _ => unreachable!(),
        }
    }

    // Loads the main word, for a visitor at this stage.
    #[inline(always)]
    fn visit_look<M: Mover>(
        &self,
        seat: &mut Seat<(), View>,
        at: Snapshot<Position>,
        visit: &Visit,
    ) -> u64
        requires table { IsVisitorSeat self.now seat.old }
        requires mover { (M.about ≡ about_of self.now) × (M.place ≡ at.value) × (M.me ≡ seat.old.me.0.number) }
        requires in_call { IsVisitPending self.now visit.now at.value seat.old }
        requires loads { operation_of (needs self.now) self.now.places 0 at.value.stage ≡ Load 0 }
        ensures same { IsSameVisitor seat.old seat.new }
        ensures in_call { VisitHasFound self.now visit.now at.value result seat.new }
    {
        self.load::<M>(seat, 0)
    }

    // Exchanges the main word, for a visitor at this stage.
    #[inline(always)]
    fn visit_change<M: Mover>(
        &self,
        seat: &mut Seat<(), View>,
        at: Snapshot<Position>,
        old: u64,
        new: u64,
        visit: &Visit,
    ) -> u64
        requires table { IsVisitorSeat self.now seat.old }
        requires mover { (M.about ≡ about_of self.now) × (M.place ≡ at.value) × (M.me ≡ seat.old.me.0.number) }
        requires in_call { IsVisitPending self.now visit.now at.value seat.old }
        requires exchanges { operation_of (needs self.now) self.now.places 0 at.value.stage ≡ Exchange 0 old new }
        ensures same { IsSameVisitor seat.old seat.new }
        ensures in_call { VisitHasFound self.now visit.now at.value result seat.new }
    {
        self.exchange::<M>(seat, 0, old, new)
    }

    // Settles the queue for a visitor that gave something back and holds the flag.
    fn visit_settling<R: Wait, W: Watch>(
        &self,
        rt: &R,
        watch: &W,
        seat: &mut Seat<(), View>,
        first: Word,
        visit: Visit,
    ) -> Answer
        requires table { IsVisitorSeat self.now seat.old }
        requires in_call { IsVisitPending self.now visit (record idle_place { stage = BackLoad first first.tail 0 }) seat.old }
        ensures same { IsSameVisitor seat.old seat.new }
        ensures ended { VisitHasEnded self.now visit result seat.new }
    {
        let walk = Walk {
            course: &visit,
            place: standing(Stage::Quiet),
        };
        self.settle(rt, watch, seat, &walk, first, first.tail, 0);
        Answer::Bool(true)
    }

    // Goes on with a call of a visitor that has just found this number at a stage, step by step.
    #[cold]
    fn visit_follow<R: Wait, W: Watch>(
        &self,
        rt: &R,
        watch: &W,
        seat: &mut Seat<(), View>,
        stage: Stage,
        found: u64,
        visit: Visit,
    ) -> Answer
        requires table { IsVisitorSeat self.now seat.old }
        requires ranged { IsRanged (needs self.now) stage }
        requires in_call { VisitHasFound self.now visit (record idle_place { stage = stage }) found seat.old }
        ensures same { IsSameVisitor seat.old seat.new }
        ensures ended { VisitHasEnded self.now visit result seat.new }
    {
        let place = standing(stage);
        match place.resume(self.rules, 0, found) {
            Next::Going(next) => self.visit_on(rt, watch, seat, next, visit),
            Next::Waits => self.visit_on(rt, watch, seat, place, visit),
            Next::Done(_behind, answer) => answer,
        }
    }

    // Goes on with a call of a visitor to its end.
    fn visit_on<R: Wait, W: Watch>(
        &self,
        rt: &R,
        watch: &W,
        seat: &mut Seat<(), View>,
        first: Position,
        visit: Visit,
    ) -> Answer
        requires table { IsVisitorSeat self.now seat.old }
        requires in_call { IsVisitPending self.now visit first seat.old }
        ensures same { IsSameVisitor seat.old seat.new }
        ensures ended { VisitHasEnded self.now visit result seat.new }
    {
        let mut place = first;
        for _ in rt.forever() {
            if publishes(place.stage) {
                watch.at(Moment::Publishes);
            }
            match self.visit_go(rt, watch, seat, place, &visit) {
                Next::Going(next) => place = next,
                Next::Waits => {
                    watch.at(Moment::IsBlocked);
                    Pause::Defers.make(watch);
                }
                Next::Done(_behind, answer) => return answer,
            }
        }
        unreachable!()
    }

    // Makes the next step of a visitor's call; where that begins a walk, it makes the whole walk.
    fn visit_go<R: Wait, W: Watch>(
        &self,
        rt: &R,
        watch: &W,
        seat: &mut Seat<(), View>,
        place: Position,
        visit: &Visit,
    ) -> Next
        requires table { IsVisitorSeat self.now seat.old }
        requires in_call { IsVisitPending self.now visit.now place seat.old }
        ensures same { IsSameVisitor seat.old seat.new }
        ensures in_call { VisitGoesOn self.now visit.now place result seat.new }
    {
        let Stage::BackLoad {
            seen,
            current,
            newer,
        } = place.stage
        else {
            return self.visit_act::<Brand, W>(watch, seat, place, visit);
        };
        let walk = Walk {
            course: visit,
            place,
        };
        self.settle(rt, watch, seat, &walk, seen, current, newer);
        finish(place)
    }

    // Makes the operation of the stage that a visitor is at, and goes on with the number found.
    fn visit_act<M: Mover, W: Watch>(
        &self,
        watch: &W,
        seat: &mut Seat<(), View>,
        place: Position,
        visit: &Visit,
    ) -> Next
        requires table { IsVisitorSeat self.now seat.old }
        requires mover { (M.about ≡ about_of self.now) × (M.place ≡ place) × (M.me ≡ seat.old.me.0.number) }
        requires in_call { IsVisitPending self.now visit.now place seat.old }
        ensures same { IsSameVisitor seat.old seat.new }
        ensures in_call { VisitGoesOn self.now visit.now place result seat.new }
    {
        let operation = place.stage.operation(self.rules, self.places, 0);
        let found = self.perform::<M, W>(watch, seat, operation);
        place.resume(self.rules, 0, found)
    }
}

// A visitor at this stage.
#[inline(always)]
fn standing(stage: Stage) -> Position
    ensures { result ≡ record idle_place { stage = stage } }
{
    Position {
        registration: Registration::Idle,
        stage,
        back: AfterWalk::Tells,
    }
}
