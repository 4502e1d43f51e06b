//! One step of one place.
//!
//! Each operation has a function of its own, of the place and the stage that its caller names in contracts alone; `act` makes the one that a
//! place's stage says.

ghost use Rattle.std.specs.Prelude.{◌≡◌, ◌+◌, ◌<◌, ℕ};
ghost use Rattle.saa_word_steps.specs.Steps.{next_of};
ghost use Rattle.saa_word_steps.specs.declared.operation.Operation.TheVariants.{Load, Exchange, Add, Swap, Store};
ghost use Rattle.saa_word_threads.specs.Pending.{GoesOn, HasMoved, IsAt, IsPending, IsSameSeat, MakesNext, about_of, needs};

use crate::call::Pending;
use crate::form::Form;
use crate::table::{Moved, Mover, View};
use crate::watch::{Moment, Watch};
use atomic_table::Seat;
use saa_word_steps::operation::Operation;
use saa_word_steps::place::{Next, Place as Position};

impl Form {
    // Makes the operation of the stage that a pending call's place is at, and goes on with the number found.
    pub(crate) fn act<M: Mover, W: Watch>(
        &self,
        watch: &W,
        seat: &mut Seat<(), View>,
        place: Position,
        pending: &Pending,
    ) -> Next
        requires mover { (M.about ≡ about_of self.now) × (M.place ≡ place) × (M.me ≡ pending.now.me) }
        requires pending { IsPending self.now pending.now place seat.old }
        ensures same { IsSameSeat seat.old seat.new }
        ensures next { GoesOn self.now pending.now place result seat.new }
        ensures found { (found : ℕ) × (result ≡ next_of (needs self.now) pending.now.me place place.stage found) }
    {
        let operation = place.stage.operation(self.rules, self.places, pending.me);
        let found = self.perform::<M, W>(watch, seat, operation);
        place.resume(self.rules, pending.me, found)
    }

    // Makes an operation, and answers the number that it found.
    pub(crate) fn perform<M: Mover, W: Watch>(
        &self,
        watch: &W,
        seat: &mut Seat<(), View>,
        operation: Operation,
    ) -> u64
        requires table { IsAt self.now seat.old × (M.about ≡ about_of self.now) }
        requires next { MakesNext self.now M.me M.place operation seat.old }
        ensures same { IsSameSeat seat.old seat.new }
        ensures moved { HasMoved self.now M.me M.place result seat.old seat.new }
    {
        match operation {
            Operation::Load { index } => self.load::<M>(seat, index),
            Operation::Exchange { index, old, new } => self.exchange::<M>(seat, index, old, new),
            Operation::Add { index, number } => self.add::<M>(seat, index, number),
            Operation::Store { index, number } => self.store::<M, W>(watch, seat, index, number),
            Operation::Swap { index, number } => self.swap::<M>(seat, index, number),
        }
    }

    // Loads a word.
    pub(crate) fn load<M: Mover>(&self, seat: &mut Seat<(), View>, index: usize) -> u64
        requires table { IsAt self.now seat.old × (M.about ≡ about_of self.now) }
        requires next { MakesNext self.now M.me M.place (Load index) seat.old }
        ensures same { IsSameSeat seat.old seat.new }
        ensures moved { HasMoved self.now M.me M.place result seat.old seat.new }
    {
        self.table.shared.load::<Moved<M>>(seat, self.cell(index))
    }

    // Writes `new` where a word is `old`.
    pub(crate) fn exchange<M: Mover>(
        &self,
        seat: &mut Seat<(), View>,
        index: usize,
        old: u64,
        new: u64,
    ) -> u64
        requires table { IsAt self.now seat.old × (M.about ≡ about_of self.now) }
        requires next { MakesNext self.now M.me M.place (Exchange index old new) seat.old }
        ensures same { IsSameSeat seat.old seat.new }
        ensures moved { HasMoved self.now M.me M.place result seat.old seat.new }
    {
        self.table
            .shared
            .compare_exchange::<Moved<M>>(seat, self.cell(index), old, new)
    }

    // Adds a number to a word.
    pub(crate) fn add<M: Mover>(&self, seat: &mut Seat<(), View>, index: usize, number: u64) -> u64
        requires table { IsAt self.now seat.old × (M.about ≡ about_of self.now) }
        requires next { MakesNext self.now M.me M.place (Add index number) seat.old }
        ensures same { IsSameSeat seat.old seat.new }
        ensures moved { HasMoved self.now M.me M.place result seat.old seat.new }
    {
        self.table
            .shared
            .fetch_add::<Moved<M>>(seat, self.cell(index), number)
    }

    // Writes a word, and wakes the place that waits for it, if any does.
    pub(crate) fn store<M: Mover, W: Watch>(
        &self,
        watch: &W,
        seat: &mut Seat<(), View>,
        index: usize,
        number: u64,
    ) -> u64
        requires table { IsAt self.now seat.old × (M.about ≡ about_of self.now) }
        requires next { MakesNext self.now M.me M.place (Store index number) seat.old }
        ensures same { IsSameSeat seat.old seat.new }
        ensures moved { HasMoved self.now M.me M.place result seat.old seat.new }
    {
        self.tell(watch, index);
        let (found, written) = self.write::<M>(seat, index, number);
        self.wake(watch, written);
        found
    }

    // Writes a word.
    pub(crate) fn swap<M: Mover>(&self, seat: &mut Seat<(), View>, index: usize, number: u64) -> u64
        requires table { IsAt self.now seat.old × (M.about ≡ about_of self.now) }
        requires next { MakesNext self.now M.me M.place (Swap index number) seat.old }
        ensures same { IsSameSeat seat.old seat.new }
        ensures moved { HasMoved self.now M.me M.place result seat.old seat.new }
    {
        self.table
            .shared
            .swap::<Moved<M>>(seat, self.cell(index), number)
    }

    // Tells that an answer is about to be written, where this is an answer word.
    fn tell<W: Watch>(&self, watch: &W, index: usize)
        requires { index < self.now.places + self.now.places + 1 }
    {
        let places = usize::from(self.places);
        if index > places {
            watch.at(Moment::Writes((index - places - 1) as u16));
        }
    }
}
