//! The table that places share: what a seat of it knows, and what is always so of its words and seats.
//!
//! Held to `specs/Kept.antt`: there is one legal history that leads to the words, and each place knows its part of it. What a step tells
//! its place is `specs/Moves.antt`.

use atomic_table::{Join, Play, Split, TableRule};
use saa_word_steps::event::Event;
use saa_word_steps::place::Place as Position;
use saa_word_steps::rules::Rules;
use std::collections::LinkedList;
use std::marker::{Brand, PhantomData};

/// What a seat is: the dealer's, that of a place or of a visitor that makes calls, a receipt of what such a one had seen, or that of a place that has left
/// and whose view another one has gathered. The last two make no step.
pub enum Role {
    Dealer,
    Acting,
    Receipt,
    Spent,
}

/// Of a place that has left, or that gave a receipt, as a visitor can: its number, the history as it was at its last event, and its own events in it.
pub struct Departed {
    pub number: u16,
    pub seen: LinkedList<(u16, Event)>,
    pub part: LinkedList<Event>,
}

/// What a seat knows. The dealer: how many places it has dealt. A place or a visitor: its number, where it stood behind its last step, the history as
/// it was at its last event, its own events in it, and what it has gathered of places that have left. A receipt: the same of the place or visitor that gave
/// it, and of the receipts that were joined to it. No value of it is made.
pub struct View {
    pub role: Role,
    pub number: u16,
    pub position: Position,
    pub seen: LinkedList<(u16, Event)>,
    pub part: LinkedList<Event>,
    pub gathered: LinkedList<Departed>,
}

/// What a table is told when it is made: the rules, how much is taken from the start, and how many places there are.
#[derive(Drop)]
pub struct About {
    pub rules: Rules,
    pub withheld: u16,
    pub places: u16,
}

/// The rule of a table: one history leads to its words.
pub struct OneHistory;

impl TableRule<(), View, About> for OneHistory {
    ghost use Rattle.saa_word_threads.specs.Kept.{Kept, dealer};

    ghost holds = { λ about. Kept about };

    ghost first = { λ about. dealer 0 };
}

/// Of which table a step is, and which place makes it from where. The call picks it.
pub trait Mover {
    ghost use Rattle.std.specs.Prelude.{ℕ};
    ghost use Rattle.saa_word_threads.specs.declared.table.About.{About};
    ghost use Rattle.saa_word_steps.specs.declared.place.Place.{Place};

    ghost about: { About };

    ghost place: { Place };

    ghost me: { ℕ };
}

impl Mover for Brand {
    ghost use Rattle.saa_word_steps.specs.declared.rules.Rules.TheVariants.{Modes};
    ghost use Rattle.saa_word_proofs.specs.Promises.{idle_place};

    ghost about = { record { rules = Modes; withheld = 0; places = 0 } };

    ghost place = { idle_place };

    ghost me = { 0 };
}

/// A step of a place.
pub struct Moved<M> {
    of: PhantomData<M>,
}

impl<M: Mover> Play<(), View> for Moved<M> {
    ghost use Rattle.saa_word_threads.specs.Moves.{moved};

    ghost then = { moved M.about M.place M.me };
}

/// A step of a place that asks: no step at all, and the place is at the stage where it was, if it would have to join for what is found.
pub struct LookOnly<M> {
    of: PhantomData<M>,
}

impl<M: Mover> Play<(), View> for LookOnly<M> {
    ghost use Rattle.saa_word_threads.specs.Moves.{look_only};

    ghost then = { look_only M.about M.place M.me };
}

/// A visitor enters, with a number that no place has.
pub struct Entered<M> {
    of: PhantomData<M>,
}

impl<M: Mover> Play<(), View> for Entered<M> {
    ghost use Rattle.saa_word_threads.specs.Visits.{IsEntering};

    ghost then = { λ _ _ _ after. IsEntering M.about.places after.0 };
}

/// The dealer deals one more place.
pub struct Dealt;

impl Split<View> for Dealt {
    ghost use Rattle.std.specs.Prelude.{◌+◌};
    ghost use Rattle.saa_word_threads.specs.Kept.{dealer, fresh_view};

    ghost left = { λ v. dealer (v.number + 1) };

    ghost right = { λ v. fresh_view v.number };
}

/// A place or a visitor gives a receipt of what it has seen, and stays as it is.
pub struct Witnessed;

impl Split<View> for Witnessed {
    ghost use Rattle.saa_word_threads.specs.Kept.{receipt_of};

    ghost left = { λ v. v };

    ghost right = { receipt_of };
}

/// Which receipt is joined to another one. The call picks it.
pub trait Received {
    ghost use Rattle.saa_word_threads.specs.declared.table.View.{View};

    ghost view: { View };
}

impl Received for Brand {
    ghost use Rattle.saa_word_threads.specs.Kept.{fresh_view};

    ghost view = { fresh_view 0 };
}

/// A receipt says what another one says, too.
pub struct JoinedReceipt<M> {
    of: PhantomData<M>,
}

impl<M: Received> Join<View> for JoinedReceipt<M> {
    ghost use Rattle.saa_word_threads.specs.Kept.{with_receipt};

    ghost both = { with_receipt };

    ghost spent = { M.view };
}

/// Which view another one gathers. The call picks it.
pub trait Leaver {
    ghost use Rattle.saa_word_threads.specs.declared.table.View.{View};

    ghost view: { View };
}

impl Leaver for Brand {
    ghost use Rattle.saa_word_threads.specs.Kept.{fresh_view};

    ghost view = { fresh_view 0 };
}

/// A place that has left gathers what another one that has left had seen.
pub struct Gathered<M> {
    of: PhantomData<M>,
}

impl<M: Leaver> Join<View> for Gathered<M> {
    ghost use Rattle.saa_word_threads.specs.Kept.{gathering, spent};

    ghost both = { gathering };

    ghost spent = { spent M.view };
}
