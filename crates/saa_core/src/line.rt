//! The line of a primitive: its waiters, oldest first, the answers that aren't taken yet, and the pending wakes.
//!
//! A slot is held from `join` until its answer is taken (`take`) or it cancels (`leave`). An answered slot has a pending
//! wake until that is reported (`next_answered`). All memory is reserved when a line is made, and no later call takes any or
//! can fail. What is seen of a line is `specs/Slots.antt`; how its parts agree is `specs/LineParts.antt`. How it keeps the
//! order of the waiters is left to an `Order`, which requests fit to the cores, and the waking to the threaded forms.

pub mod laws;
pub mod order;
mod wakes;

ghost use Rattle.std.specs.Prelude.{◌≡◌, ℕ, ◌<◌, ◌≤◌, ◌↔◌, [], ◌∷◌, ◌++◌, false, None, length, replicate, nat_lt, vec_capacity, IsTrue, IsNone, IsOk, IfOk, IfSome, IfNone, slice_get, slice_set};
ghost use Rattle.std.specs.Bool.{OnTrue, OnFalse};
ghost use Rattle.saa_core_spec.specs.Object.{one_if, times, without};
ghost use Rattle.saa_core.specs.Slots.{count_of, room_of, answer_in, held_slots, held_times, IsSound, empty_slots, slots_answered, all_slots_answered, wake_taken};
ghost use Rattle.saa_core.specs.LineParts.{with_pending};

use crate::line::order::{Order, Queue};
use crate::line::wakes::Wakes;
use saa_core_spec::request::Request;
use saa_core_words::answer_word::AnswerWord;
use saa_core_words::links::Links;
use std::alloc::{AllocError, Global};
use std::marker::Model;

/// A line that keeps its waiters in a list.
pub type Line = LineOf<Queue>;

/// A line that keeps its waiters by links, so that a slot leaves in O(1) at any position; its requests are those of
/// one form.
pub type LinkedLine<K> = LineOf<Links<K>>;

/// The slots of the waiters, oldest first, and the answers that aren't taken yet.
///
/// A slot is a number below the room. It is free, or waits, or has an answer.
#[derive(Drop)]
pub struct LineOf<O: Order> {
    order: O,
    answers: Vec<AnswerWord>,
    waiting: Vec<bool>,
    free: Vec<u16>,
    wakes: Wakes,
}

impl<O: Order> Model for LineOf<O> {
    ghost use Rattle.std.specs.Prelude.{◌≡◌, ◌≤◌, length, vec_capacity};
    ghost use Rattle.saa_core.specs.Slots.{Slots};
    ghost use Rattle.saa_core.specs.LineParts.{IsLine, ArePending};

    ghost Value = { Slots };

    ghost view = { λ l. record { line = (O.waiters l.order).line; answers = l.answers.items; pending_wakes = l.wakes.slots } };

    ghost invariant = { λ l. record {
      agrees : IsLine (O.waiters l.order).line l.answers.items l.free.items l.waiting.items;
      order_room : (O.waiters l.order).room ≡ length l.answers.items;
      free_reserved : length l.answers.items ≤ vec_capacity l.free;
      wakes_room : l.wakes.room ≡ length l.answers.items;
      pending_wakes : ArePending l.wakes.slots (length l.answers.items);
    } };
}

impl<O: Order> LineOf<O> {
    /// A line of `room` slots, none of them held. Costs O(`room`).
    ///
    /// Reserves all the memory that the line will ever need; the error comes only where that was refused, and so never
    /// for room 0, which takes none.
    pub fn with_room(alloc: Global, room: u16) -> Result<Self, AllocError>
        ensures made { IfOk result (λ line. line ≡ empty_slots room) }
        ensures no_room { room ≡ 0 → IsOk result }
        ensures sound { IfOk result IsSound }
    {
        let order = O::with_room(alloc, room)?;
        let wakes = Wakes::with_room(alloc, room)?;
        let answers = no_answers(alloc, room)?;
        let waiting = no_marks(alloc, room)?;
        let free = free_slots(alloc, room)?;
        Ok(LineOf {
            order,
            answers,
            waiting,
            free,
            wakes,
        })
    }

    /// Joins the line as its last, and answers the slot, which nobody held. Costs O(1).
    ///
    /// `None` comes exactly where every slot of the room is held, and changes nothing. Asks for nothing that the order can't
    /// keep.
    pub fn join(&mut self, request: Request) -> Option<u16>
        requires { O.keeps request }
        ensures full { IsNone result ↔ (held_slots self.old ≡ room_of self.old) }
        ensures unchanged { IfNone result (self.new ≡ self.old) }
        ensures was_free { IfSome result (λ slot. held_times self.old slot ≡ 0) }
        ensures within { IfSome result (λ slot. slot < room_of self.old) }
        ensures joined { IfSome result (λ slot.
            self.new ≡ record self.old { line = self.old.line ++ (slot, request) ∷ [] }) }
        ensures sound { IsSound self.new }
    {
        let slot = self.free.pop()?;
        self.waiting[usize::from(slot)] = true;
        self.order.push(slot, request);
        Some(slot)
    }

    /// The oldest slot that waits, with what it asks; `None` where there is no waiter. Costs O(1).
    pub fn oldest(&self) -> Option<(u16, Request)>
        ensures { result ≡ slice_get self.now.line 0 }
    {
        self.order.oldest()
    }

    /// Answers the `k` oldest with 0: they leave the line, hold their slots still, and have a wake pending. Costs O(`k`).
    ///
    /// At least `k` wait, as [`Line::waiting`] says.
    pub fn grant_front(&mut self, k: u16)
        requires { k ≤ length self.old.line }
        ensures granted { self.new ≡ slots_answered 0 k self.old }
        ensures sound { IsSound self.new }
    {
        self.answer_front(k, 0);
    }

    /// Answers all waiters with `value`: the line is empty, and they hold their slots still, and have a wake pending.
    /// Costs O(how many wait).
    pub fn answer_all(&mut self, value: u8)
        ensures answered { self.new ≡ all_slots_answered value self.old }
        ensures sound { IsSound self.new }
    {
        self.answer_front(self.waiting(), value);
    }

    /// Takes a slot that waits out of the line and frees it. Pending wakes stay so. Costs what it costs the order:
    /// O(1) by links, O(how many wait) in a list.
    ///
    /// `false` comes exactly where the slot doesn't wait, and changes nothing.
    pub fn leave(&mut self, slot: u16) -> bool
        ensures waited { IsTrue result ↔ (0 < times slot self.old.line) }
        ensures left { OnTrue result (self.new ≡ record self.old { line = without slot self.old.line }) }
        ensures unchanged { OnFalse result (self.new ≡ self.old) }
        ensures sound { IsSound self.new }
    {
        if !self.waits(slot) {
            return false;
        }
        self.order.remove(slot);
        self.waiting[usize::from(slot)] = false;
        self.free.push_reserved(slot);
        true
    }

    /// Takes the answer of a slot and frees it. Pending wakes stay so, its own among them. Costs O(1).
    ///
    /// `None` comes where the slot has no answer, and changes nothing.
    pub fn take(&mut self, slot: u16) -> Option<u8>
        ensures answer { result ≡ answer_in self.old.answers slot }
        ensures taken { self.new ≡ record self.old { answers = slice_set self.old.answers slot None } }
        ensures unchanged { IfNone result (self.new ≡ self.old) }
        ensures sound { IsSound self.new }
    {
        let value = self.answer(slot)?;
        self.answers[usize::from(slot)] = AnswerWord::new(None);
        self.free.push_reserved(slot);
        Some(value)
    }

    /// How many slots are held: those that wait, and those whose answer isn't taken yet. Costs O(1).
    pub fn used(&self) -> u16
        ensures { result ≡ held_slots self.now }
    {
        (self.answers.len() - self.free.len()) as u16
    }

    /// How many wait. Costs O(1).
    pub fn waiting(&self) -> u16
        ensures { result ≡ length self.now.line }
    {
        self.order.waiting() as u16
    }

    /// How many slots there are, held or free. Costs O(1).
    pub fn room(&self) -> u16
        ensures { result ≡ room_of self.now }
    {
        self.answers.len() as u16
    }

    /// The waiters, as their order keeps them. Costs O(1).
    pub fn waiters(&self) -> &O
        ensures { O.waiters result.now ≡ record { line = self.now.line; room = room_of self.now } }
    {
        &self.order
    }

    /// The answer of a slot, which stays; `None` where it has none. Costs O(1).
    pub fn answer(&self, slot: u16) -> Option<u8>
        ensures answer { result ≡ answer_in self.now.answers slot }
        ensures sound { IsSound self.now }
    {
        let word = self.answers.get(usize::from(slot))?;
        word.answer()
    }

    /// Whether a slot waits. Costs O(1).
    pub fn waits(&self, slot: u16) -> bool
        ensures { result ≡ nat_lt 0 (times slot self.now.line) }
    {
        let place = usize::from(slot);
        place < self.waiting.len() && self.waiting[place]
    }

    /// Reports the oldest pending wake and takes it out: of the slots that weren't reported yet, the one that was answered
    /// first. `None` exactly where none is pending. Costs O(1).
    ///
    /// A slot that was answered more than once in between comes once, and one whose answer is taken already still
    /// comes.
    pub fn next_answered(&mut self) -> Option<u16>
        ensures oldest { result ≡ slice_get self.old.pending_wakes 0 }
        ensures taken { self.new ≡ wake_taken self.old }
        ensures within { IfSome result (λ slot. slot < room_of self.old) }
        ensures sound { IsSound self.new }
    {
        let slot = self.wakes.next();
        // The proof learns that the parts agree where a part is read.
        let _order = &self.order;
        slot
    }

    // Answers the `k` oldest with `value`.
    fn answer_front(&mut self, k: u16, value: u8)
        requires { k ≤ length self.old.line }
        ensures answered { self.new ≡ slots_answered value k self.old }
        ensures sound { IsSound self.new }
    {
        for _turn in 0..k {
            self.answer_oldest(value);
        }
        // The proof learns that the parts agree where a part is read.
        let _order = &self.order;
    }

    // Answers the oldest with `value`.
    fn answer_oldest(&mut self, value: u8)
        requires { 0 < length self.old.line }
        ensures { self.new ≡ slots_answered value 1 self.old }
    {
        let Some((slot, _request)) = self.order.pop() else {
            return;
        };
        self.waiting[usize::from(slot)] = false;
        give(&mut self.answers, &mut self.wakes, slot, value);
    }
}

// An empty answer for each slot. Each of a line's parts is made apart: a loop beside the parts that an error drops costs a proof much.
fn no_answers(alloc: Global, room: u16) -> Result<Vec<AnswerWord>, AllocError>
    ensures made { IfOk result (λ answers. answers.items ≡ replicate room None) }
    ensures no_room { room ≡ 0 → IsOk result }
{
    let mut answers = Vec::with_capacity(alloc, usize::from(room))?;
    for _slot in 0..room {
        answers.push_reserved(AnswerWord::new(None));
    }
    Ok(answers)
}

// An unset mark for each slot.
fn no_marks(alloc: Global, room: u16) -> Result<Vec<bool>, AllocError>
    ensures made { IfOk result (λ marks. marks.items ≡ replicate room false) }
    ensures no_room { room ≡ 0 → IsOk result }
{
    let mut marks = Vec::with_capacity(alloc, usize::from(room))?;
    for _slot in 0..room {
        marks.push_reserved(false);
    }
    Ok(marks)
}

// Each slot, once, with memory for all of them.
fn free_slots(alloc: Global, room: u16) -> Result<Vec<u16>, AllocError>
    ensures each { IfOk result (λ free. (slot : ℕ) → count_of slot free.items ≡ one_if (nat_lt slot room)) }
    ensures total { IfOk result (λ free. length free.items ≡ room) }
    ensures reserved { IfOk result (λ free. room ≤ vec_capacity free) }
    ensures no_room { room ≡ 0 → IsOk result }
{
    let mut free = Vec::with_capacity(alloc, usize::from(room))?;
    for slot in 0..room {
        free.push_reserved(slot);
    }
    Ok(free)
}

// Writes the answer of a slot, whose wake is pending from then on: no answer is written without.
fn give(answers: &mut Vec<AnswerWord>, wakes: &mut Wakes, slot: u16, value: u8)
    requires within { slot < length answers.old.items }
    requires within_wakes { slot < wakes.old.room }
    ensures given { answers.new.items ≡ slice_set answers.old.items slot (Some value) }
    ensures pending_wakes { wakes.new ≡ with_pending slot wakes.old }
{
    answers[usize::from(slot)] = AnswerWord::new(Some(value));
    wakes.push(slot);
}
