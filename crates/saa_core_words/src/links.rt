//! A line that is held by links: each place has a line word, in which its two neighbours stand.
//!
//! Joining, leaving and being answered write the words of a place and of its neighbours alone, wherever the place stands, so
//! none of them walks the line. What is seen of it is a list; how the words hold it stands in `specs/Links.antt`.

ghost use Rattle.std.specs.Prelude.{◌≡◌, ℕ, ◌+◌, ◌<◌, ◌≤◌, ◌↔◌, [], ◌∷◌, ◌++◌, length, drop, IsOk, IfOk, IfSome, ◌==◌, if◌then◌else◌, slice_get};
ghost use Rattle.saa_core_spec.specs.Object.{times, without};
ghost use Rattle.saa_core_spec.specs.Held.{request_number};
ghost use Rattle.saa_core_words.specs.Links.{last_link, words_in};

use crate::line_word::LineWord;
use crate::requests::{Requests, request_number};
use saa_core_spec::request::Request;
use std::alloc::{AllocError, Global};
use std::marker::{Model, PhantomData};

/// The waiters, oldest first, each at a place below the room, with what it asks.
#[derive(Drop)]
pub struct Links<K: Requests> {
    words: Vec<u64>,
    // It is before the two ends since that was faster: a try with its release took 2.2 to 2.4 ns so, and 2.8 to 3.6 with the ends
    // first (2026-11-24). Why isn't known.
    waiting: u16,
    oldest: u16,
    newest: u16,
    asked: PhantomData<K>,
}

impl<K: Requests> Model for Links<K> {
    ghost use Rattle.std.specs.Prelude.{length};
    ghost use Rattle.saa_core_words.specs.Links.{Waiters, IsLinked, followed, words_in};

    ghost Value = { Waiters };

    ghost view = { λ l. record {
      line = followed (words_in l.words.items) K.read l.waiting l.oldest;
      room = length l.words.items;
    } };

    ghost invariant = { λ l. IsLinked K.read l.words.items l.oldest l.newest l.waiting
        (followed (words_in l.words.items) K.read l.waiting l.oldest) };
}

impl<K: Requests> Links<K> {
    /// A line of so many places, at which nobody waits. Costs O(`room`).
    ///
    /// Reserves all the memory that it will ever need; the error comes only where that was refused, and so never for room
    /// 0, which takes none.
    pub fn with_room(alloc: Global, room: u16) -> Result<Self, AllocError>
        ensures made { IfOk result (λ links. links ≡ record { line = []; room = room }) }
        ensures no_room { room ≡ 0 → IsOk result }
    {
        let mut words = Vec::with_capacity(alloc, usize::from(room))?;
        for _place in 0..room {
            words.push_reserved(0);
        }
        Ok(Links {
            words,
            waiting: 0,
            oldest: 0,
            newest: 0,
            asked: PhantomData,
        })
    }

    /// A place that doesn't wait joins as the last, with what it asks. Costs O(1).
    pub fn push(&mut self, place: u16, request: Request)
        requires within { place < self.old.room }
        requires absent { times place self.old.line ≡ 0 }
        requires rest { length self.old.line < self.old.room }
        requires asked { K.read (request_number request) ≡ request }
        ensures { self.new ≡ record self.old { line = self.old.line ++ (place, request) ∷ [] } }
    {
        let older = self.newest;
        let link = place + 1;
        let word = LineWord {
            request: request_number(request),
            older,
            newer: 0,
        };
        set_newer(&mut self.words, older, link);
        store(&mut self.words, place, word);
        self.oldest = end_after(self.oldest, link, self.oldest);
        self.newest = link;
        self.waiting += 1;
    }

    /// A place that waits leaves, at any position. Costs O(1).
    pub fn remove(&mut self, place: u16)
        requires { times place self.old.line ≡ 1 }
        ensures { self.new ≡ record self.old { line = without place self.old.line } }
    {
        let word = load(&self.words, place);
        set_newer(&mut self.words, word.older, word.newer);
        set_older(&mut self.words, word.newer, word.older);
        self.oldest = end_after(word.older, word.newer, self.oldest);
        self.newest = end_after(word.newer, word.older, self.newest);
        self.waiting -= 1;
    }

    /// The oldest waiter leaves; `None` where there is no waiter. Costs O(1).
    pub fn pop(&mut self) -> Option<(u16, Request)>
        ensures oldest { result ≡ slice_get self.old.line 0 }
        ensures left { self.new ≡ record self.old { line = drop 1 self.old.line } }
    {
        let (place, request) = self.oldest()?;
        self.remove(place);
        Some((place, request))
    }

    /// The oldest waiter, with what it asks; `None` where there is no waiter. Costs O(1).
    pub fn oldest(&self) -> Option<(u16, Request)>
        ensures oldest { result ≡ slice_get self.now.line 0 }
        ensures once { IfSome result (λ waiter. times waiter.0 self.now.line ≡ 1) }
    {
        if self.waiting == 0 {
            return None;
        }
        let place = self.oldest - 1;
        Some((place, K::read(load(&self.words, place).request)))
    }

    /// The newest waiter, by its place plus 1; 0 where there is no waiter. Costs O(1).
    pub fn tail(&self) -> u16
        ensures newest { result ≡ last_link 0 self.now.line }
        ensures nobody { (result ≡ 0) ↔ (self.now.line ≡ []) }
        ensures within { result ≤ self.now.room }
    {
        let Links { newest, .. } = self;
        *newest
    }

    /// How many wait. Costs O(1).
    pub fn waiting(&self) -> u16
        ensures { result ≡ length self.now.line }
    {
        let Links { waiting, .. } = self;
        *waiting
    }
}

// The line word of a place.
fn load(words: &Vec<u64>, place: u16) -> LineWord
    requires { place < length words.now.items }
    ensures { result ≡ words_in words.now.items place }
{
    LineWord::unpack(words[usize::from(place)])
}

// Writes the line word of a place.
fn store(words: &mut Vec<u64>, place: u16, word: LineWord)
    requires { place < length words.old.items }
    ensures size { length words.new.items ≡ length words.old.items }
    ensures written { words_in words.new.items place ≡ word }
    ensures same { (other : ℕ) → (other ≡ place → ⊥) → words_in words.new.items other ≡ words_in words.old.items other }
{
    words[usize::from(place)] = word.pack();
}

// Writes who stands right behind the place of a link, which may be nobody's.
fn set_newer(words: &mut Vec<u64>, link: u16, newer: u16)
    requires { link ≤ length words.old.items }
    ensures size { length words.new.items ≡ length words.old.items }
    ensures written { (other : ℕ) → other + 1 ≡ link → words_in words.new.items other ≡ record (words_in words.old.items other) { newer = newer } }
    ensures same { (other : ℕ) → (other + 1 ≡ link → ⊥) → words_in words.new.items other ≡ words_in words.old.items other }
{
    if link == 0 {
        return;
    }
    let mut word = load(words, link - 1);
    word.newer = newer;
    store(words, link - 1, word);
}

// Writes who stands right before the place of a link, which may be nobody's.
fn set_older(words: &mut Vec<u64>, link: u16, older: u16)
    requires { link ≤ length words.old.items }
    ensures size { length words.new.items ≡ length words.old.items }
    ensures written { (other : ℕ) → other + 1 ≡ link → words_in words.new.items other ≡ record (words_in words.old.items other) { older = older } }
    ensures same { (other : ℕ) → (other + 1 ≡ link → ⊥) → words_in words.new.items other ≡ words_in words.old.items other }
{
    if link == 0 {
        return;
    }
    let mut word = load(words, link - 1);
    word.older = older;
    store(words, link - 1, word);
}

// An end of the line: another one where a link is nobody's, and else the one that it was.
fn end_after(link: u16, other: u16, end: u16) -> u16
    ensures { result ≡ if link == 0 then other else end }
{
    if link == 0 { other } else { end }
}
