//! A form is made, with its places, and closed.

ghost use Rattle.std.specs.Prelude.{◌^◌, ◌≡◌, ◌+◌, ◌<◌, ◌≤◌, false, List, [], ◌∷◌, ◌++◌, IfOk, Some, replicate, slice_set, vec_capacity, vec_len};
ghost use Rattle.saa_core_words.specs.Words.{count_bits};
ghost use Rattle.saa_word_steps.specs.Needs.{needs_of};
ghost use Rattle.saa_word_proofs.specs.Registering.{is_slot};
ghost use Rattle.saa_word_threads.specs.declared.table.Role.TheVariants.{Acting};
ghost use Rattle.saa_word_threads.specs.declared.table.View.{View};
ghost use Rattle.saa_word_threads.specs.Cells.{cells_of};
ghost use Rattle.saa_word_threads.specs.Kept.{dealer, gathering};
ghost use Rattle.saa_word_threads.specs.Gathered.{IsWitness};
ghost use Rattle.saa_word_threads.specs.Dealt.{AreLedTo, AreNew, IsLedTo, IsNew, numbers};

use crate::form::Form;
use crate::mark::Marks;
use crate::place::{Left, Place};
use crate::straight::LastAsk;
use crate::table::{About, Dealt, Gathered, Leaver, View};
use crate::visitor::Visitor;
use crate::wakers::Wakers;
use crate::words::Words;
use atomic_table::{Seat, Table};
use saa_word_steps::place::{AfterWalk, Place as Position, Registration, Stage};
use saa_word_steps::rules::Rules;
use std::alloc::{AllocError, Global};
use std::marker::Brand;
use std::sync::atomic::AtomicU8;

impl Form {
    // A form of these rules of which so much is taken from the start, and its places.
    pub(crate) fn open(
        alloc: Global,
        rules: Rules,
        withheld: u16,
        places: u16,
    ) -> Result<(Form, Vec<Place>), AllocError>
        requires wide { (needs_of rules).top < 2 ^ count_bits }
        requires count { withheld ≤ (needs_of rules).top }
        ensures made { IfOk result (λ made. (made.0.rules ≡ rules) × (made.0.places ≡ places) × (made.0.table.shared.key.withheld ≡ withheld)) }
        ensures dealt { IfOk result (λ made. (vec_len made.1 ≡ places) × AreNew made.0.table.shared.table_id 0 made.1.items) }
    {
        let words = opening_words(alloc, withheld, places)?;
        let marks = Marks::of(opening_marks(alloc, places)?);
        let wakers = Wakers::with_room(alloc, places)?;
        let about = About {
            rules,
            withheld,
            places,
        };
        let (table, dealer) = Table::of_words(alloc, words.as_slice(), &about)?;
        let form = Form {
            table,
            rules,
            places,
            marks,
            wakers,
        };
        let room = Vec::with_capacity(alloc, usize::from(places))?;
        let dealt = form.deal(dealer, room);
        Ok((form, dealt))
    }

    // Deals all places, in order, into an empty list with room for them.
    fn deal(&self, mut seat: Seat<(), View>, room: Vec<Place>) -> Vec<Place>
        requires table { seat.table_id ≡ self.now.table.shared.table_id }
        requires dealer { seat.me.0 ≡ dealer 0 }
        requires room { (room.items ≡ []) × (vec_len room ≡ 0) × (self.now.places ≤ vec_capacity room) }
        ensures count { vec_len result ≡ self.now.places }
        ensures dealt { AreNew self.now.table.shared.table_id 0 result.items }
    {
        let mut dealt = room;
        for number in 0..self.places {
            let place = self.deal_one(&mut seat, number);
            dealt.push_reserved(place);
        }
        dealt
    }

    // Deals the place of this number.
    fn deal_one(&self, dealing: &mut Seat<(), View>, number: u16) -> Place
        requires table { dealing.old.table_id ≡ self.now.table.shared.table_id }
        requires dealer { dealing.old.me.0 ≡ dealer number }
        requires within { number < self.now.places }
        ensures table { dealing.new.table_id ≡ dealing.old.table_id }
        ensures dealer { dealing.new.me.0 ≡ dealer (number + 1) }
        ensures dealt { IsNew self.now.table.shared.table_id number result }
    {
        let seat = self.table.shared.split_seat::<Dealt>(dealing);
        let (seat, last_ask) = LastAsk::none(seat);
        let position = Position {
            registration: Registration::Idle,
            stage: Stage::Quiet,
            back: AfterWalk::Tells,
        };
        Place {
            seat,
            number,
            position,
            last_ask,
        }
    }

    // The words at the end. They are those that the one history leads to, of which this place knows its part.
    pub(crate) fn close(self, left: Left) -> Words
        requires { left.seat.table_id ≡ self.table.shared.table_id }
        ensures places { result.places ≡ self.places }
        ensures led { IsLedTo self.table.shared.key (numbers result) left.seat.me.0 }
    {
        let Form {
            table,
            rules: _,
            places,
            marks: _,
            wakers: _,
        } = self;
        let Left { seat, number: _ } = left;
        let closed = table.close_with(seat);
        Words { closed, places }
    }

    // The same with a visitor.
    pub(crate) fn close_by(self, visitor: Visitor) -> Words
        requires { visitor.seat.table_id ≡ self.table.shared.table_id }
        ensures places { result.places ≡ self.places }
        ensures led { IsLedTo self.table.shared.key (numbers result) visitor.seat.me.0 }
    {
        let Form {
            table,
            rules: _,
            places,
            marks: _,
            wakers: _,
        } = self;
        let Visitor { seat } = visitor;
        let closed = table.close_with(seat);
        Words { closed, places }
    }

    // What places that have left had seen, in one of them: what the witness knew, and what this place had seen.
    pub(crate) fn gather(&self, witness: Option<Left>, left: Left) -> Left
        requires table { left.seat.table_id ≡ self.now.table.shared.table_id }
        requires witness { (views : List View) × IsWitness self.now.table.shared.table_id witness views }
        ensures known { (views : List View) → IsWitness self.now.table.shared.table_id witness views → IsWitness self.now.table.shared.table_id (Some result) (views ++ left.seat.me.0 ∷ []) }
    {
        let Some(mut gathering) = witness else {
            return left;
        };
        let Left { seat, number: _ } = left;
        self.join::<Brand>(&mut gathering.seat, seat);
        gathering
    }

    // A place's view gathers another one, which is spent.
    fn join<M: Leaver>(&self, seat: &mut Seat<(), View>, other: Seat<(), View>)
        requires table { (seat.old.table_id ≡ self.now.table.shared.table_id) × (other.table_id ≡ self.now.table.shared.table_id) }
        requires acting { (seat.old.me.0.role ≡ Acting) × (other.me.0.role ≡ Acting) }
        requires out { is_slot other.me.0.position.registration ≡ false }
        requires empty { other.me.1 ≡ [] }
        requires gone { M.view ≡ other.me.0 }
        ensures table { (seat.new.table_id ≡ seat.old.table_id) × (seat.new.id ≡ seat.old.id) × (seat.new.me.1 ≡ seat.old.me.1) }
        ensures gathered { seat.new.me.0 ≡ gathering seat.old.me.0 other.me.0 }
    {
        self.table.shared.join_seat::<Gathered<M>>(seat, other);
    }

    // The words at the end. They are those that the one history leads to, of which the witness knows all these parts.
    pub(crate) fn close_over(self, witness: Option<Left>) -> Words
        requires { (views : List View) × IsWitness self.table.shared.table_id witness views }
        ensures places { result.places ≡ self.places }
        ensures led { (views : List View) → IsWitness self.table.shared.table_id witness views → AreLedTo self.table.shared.key (numbers result) views }
    {
        let Form {
            table,
            rules: _,
            places,
            marks: _,
            wakers: _,
        } = self;
        let Some(Left { seat, number: _ }) = witness else {
            let closed = table.close();
            return Words { closed, places };
        };
        let closed = table.close_with(seat);
        Words { closed, places }
    }
}

// The words of a form of which so much is taken from the start: all are 0 but the main word.
fn opening_words(alloc: Global, withheld: u16, places: u16) -> Result<Vec<u64>, AllocError>
    ensures { IfOk result (λ words. words.items ≡ slice_set (replicate (cells_of places) 0) 0 withheld) }
{
    let count = 9 * usize::from(places) + 16;
    let mut words = Vec::from_elem(alloc, 0u64, count)?;
    words[0] = u64::from(withheld);
    Ok(words)
}

// A mark for each place, that it isn't parked and no task polls there.
fn opening_marks(alloc: Global, places: u16) -> Result<Vec<AtomicU8>, AllocError>
    ensures { IfOk result (λ marks. vec_len marks ≡ places) }
{
    let mut marks = Vec::with_capacity(alloc, usize::from(places))?;
    for _place in 0..places {
        marks.push_reserved(AtomicU8::new(0));
    }
    Ok(marks)
}
