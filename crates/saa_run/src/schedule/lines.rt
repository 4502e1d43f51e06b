//! The lines of a schedule: which first line they follow, and which move each of them is.
//!
//! Held to `specs/Schedules.antt`. What a move does is left to the machine.
ghost use Rattle.std.specs.Prelude.{◌≡◌, ◌<◌, Bool, IfSome};
ghost use Rattle.saa_run.specs.Schedules.{IsLineOf, bound_of, bounded_made, first_schedule_of, four_fields, kind_of_word, lock_made, place_below, places_of, schedule_line_of, semaphore_made, three_fields, two_fields};

use crate::schedule::calls::{lone_call, paired_call};
use crate::words::meaning;
use saa::word::machine::{Kind, WordCall};
use saa_run_text::fields::{count, first_field, number};
use std::marker::Model;

/// The bound of a machine: 1 to 65535.
#[derive(Clone, Copy)]
pub struct MachineBound {
    number: u16,
}

impl Model for MachineBound {
    ghost use Rattle.std.specs.Prelude.{ℕ, ◌<◌};

    ghost Value = { ℕ };

    ghost view = { λ bound. bound.number };

    ghost inverse = { λ number. record { number = number } };

    ghost invariant = { λ bound. 0 < bound.number };
}

impl MachineBound {
    /// Its number.
    pub fn get(self) -> u16
        ensures number { result ≡ self }
        ensures some { 0 < result }
    {
        self.number
    }
}

/// The first line of a schedule: which machine is made, with 1 to 100 places.
#[derive(Clone, Copy)]
pub enum FirstOfSchedule {
    /// `semaphore W PLACES`: a semaphore of which W permits are withheld.
    Semaphore {
        withheld: usize,
        places: u16,
    },
    /// `bounded MAX W PLACES`: the same of a semaphore whose bound is MAX.
    Bounded {
        bound: MachineBound,
        withheld: usize,
        places: u16,
    },
    /// `lock PLACES`: a free lock.
    Lock {
        places: u16,
    },
}

/// A line behind the first. A place is below the number of places.
#[derive(Clone, Copy)]
pub enum ScheduleLine {
    /// `start P CALL`: starts a call.
    Start(u16, WordCall),
    /// `go P`: one step.
    Go(u16),
    /// `end P`: steps until the call is done or has to wait.
    End(u16),
    /// `until P KIND`: steps until the next one is of this kind.
    Until(u16, Kind),
    /// `word`: reads the main word.
    Word,
}

/// The place that a field is, of so many.
#[tactic(auto, unfolding(crate::specs::Schedules::place_below))]
fn place(places: u16, field: &[u8]) -> Option<u16>
    ensures place { result ≡ place_below places field.now }
    ensures within { IfSome result (λ me. me < places) }
{
    match number(field) {
        Some(n) if n < u32::from(places) => Some(n as u16),
        _ => None,
    }
}

/// The number of places that a field is: 1 to 100.
#[tactic(auto, unfolding(crate::specs::Schedules::places_of))]
fn places(field: &[u8]) -> Option<u16>
    ensures { result ≡ places_of field.now }
{
    match number(field) {
        Some(n) if n >= 1 && n <= 100 => Some(n as u16),
        _ => None,
    }
}

/// The bound that a field is: 1 to 65535.
#[tactic(auto, unfolding(crate::specs::Schedules::bound_of))]
fn bound(field: &[u8]) -> Option<MachineBound>
    ensures { result ≡ bound_of field.now }
{
    match number(field) {
        Some(n) if n >= 1 && n <= 65535 => Some(MachineBound { number: n as u16 }),
        _ => None,
    }
}

/// The words of the kinds of step.
static KINDS: [(&str, Kind); 13] = [
    ("ask", Kind::Ask),
    ("prepare", Kind::Prepare),
    ("join", Kind::Join),
    ("release", Kind::Release),
    ("walk", Kind::Walk),
    ("publish", Kind::Publish),
    ("show", Kind::Show),
    ("take", Kind::Take),
    ("flag", Kind::Flag),
    ("unlink", Kind::Unlink),
    ("tail", Kind::Tail),
    ("poison", Kind::Poison),
    ("clear", Kind::Clear),
];

/// The kind of step that a word is.
#[tactic(auto, unfolding(crate::specs::Schedules::kind_of_word))]
fn kind(word: &[u8]) -> Option<Kind>
    ensures { result ≡ kind_of_word word.now }
{
    meaning(&KINDS, word)
}

/// A line that is two fields: `go P` or `end P`.
#[tactic(auto, unfolding(crate::specs::Schedules::two_fields))]
fn two_words(places: u16, word: &[u8], of: &[u8]) -> Option<ScheduleLine>
    ensures line { result ≡ two_fields places word.now of.now }
    ensures within { IfSome result (λ line. (is_lock : Bool) → IsLineOf is_lock places line) }
{
    let place = place(places, of)?;
    if word == b"go".as_slice() {
        return Some(ScheduleLine::Go(place));
    }
    if word == b"end".as_slice() {
        return Some(ScheduleLine::End(place));
    }
    None
}

/// A line that is three fields: `start P CALL` or `until P KIND`.
#[tactic(auto, unfolding(crate::specs::Schedules::three_fields))]
fn three_words(
    is_lock: bool,
    places: u16,
    word: &[u8],
    of: &[u8],
    third: &[u8],
) -> Option<ScheduleLine>
    ensures line { result ≡ three_fields is_lock places word.now of.now third.now }
    ensures within { IfSome result (λ line. IsLineOf is_lock places line) }
{
    let place = place(places, of)?;
    if word == b"start".as_slice() {
        return Some(ScheduleLine::Start(place, lone_call(is_lock, third)?));
    }
    if word == b"until".as_slice() {
        return Some(ScheduleLine::Until(place, kind(third)?));
    }
    None
}

/// A line that is four fields: `start P CALL N` or `start P CALL MODE`.
#[tactic(auto, unfolding(crate::specs::Schedules::four_fields))]
fn four_words(
    is_lock: bool,
    places: u16,
    word: &[u8],
    of: &[u8],
    call: &[u8],
    field: &[u8],
) -> Option<ScheduleLine>
    ensures line { result ≡ four_fields is_lock places word.now of.now call.now field.now }
    ensures within { IfSome result (λ line. IsLineOf is_lock places line) }
{
    if word == b"start".as_slice() {
        let me = place(places, of)?;
        return Some(ScheduleLine::Start(me, paired_call(is_lock, call, field)?));
    }
    None
}

/// The line that these bytes are behind the first line, of a machine of so many places that is a lock or a semaphore.
#[tactic(auto, using(saa_run_text::proofs::FieldLemmas::some_field), unfolding(crate::specs::Schedules::schedule_line_of))]
pub fn parse_schedule(is_lock: bool, places: u16, line: &[u8]) -> Option<ScheduleLine>
    ensures line { result ≡ schedule_line_of is_lock places line.now }
    ensures within { IfSome result (λ line. IsLineOf is_lock places line) }
{
    if line.len() > 80 {
        return None;
    }
    let (word, rest) = first_field(line);
    let Some(rest) = rest else {
        return if word == b"word".as_slice() {
            Some(ScheduleLine::Word)
        } else {
            None
        };
    };
    let (second, rest) = first_field(rest);
    let Some(rest) = rest else {
        return two_words(places, word, second);
    };
    let (third, rest) = first_field(rest);
    let Some(rest) = rest else {
        return three_words(is_lock, places, word, second, third);
    };
    let (fourth, rest) = first_field(rest);
    match rest {
        Some(_) => None,
        None => four_words(is_lock, places, word, second, third, fourth),
    }
}

/// The first line `lock PLACES`.
#[tactic(auto, unfolding(crate::specs::Schedules::lock_made))]
fn first_lock(word: &[u8], of: &[u8]) -> Option<FirstOfSchedule>
    ensures { result ≡ lock_made word.now of.now }
{
    if word == b"lock".as_slice() {
        let places = places(of)?;
        return Some(FirstOfSchedule::Lock { places });
    }
    None
}

/// The first line `semaphore W PLACES`.
#[tactic(auto, unfolding(crate::specs::Schedules::semaphore_made))]
fn first_semaphore(word: &[u8], withheld: &[u8], of: &[u8]) -> Option<FirstOfSchedule>
    ensures { result ≡ semaphore_made word.now withheld.now of.now }
{
    if word == b"semaphore".as_slice() {
        let withheld = count(withheld)?;
        let places = places(of)?;
        return Some(FirstOfSchedule::Semaphore { withheld, places });
    }
    None
}

/// The first line `bounded MAX W PLACES`.
#[tactic(auto, unfolding(crate::specs::Schedules::bounded_made))]
fn first_bounded(
    word: &[u8],
    bound_field: &[u8],
    withheld: &[u8],
    of: &[u8],
) -> Option<FirstOfSchedule>
    ensures { result ≡ bounded_made word.now bound_field.now withheld.now of.now }
{
    if word == b"bounded".as_slice() {
        let bound = bound(bound_field)?;
        let withheld = count(withheld)?;
        let places = places(of)?;
        return Some(FirstOfSchedule::Bounded {
            bound,
            withheld,
            places,
        });
    }
    None
}

/// The first line of a schedule that these bytes are.
#[tactic(auto, using(saa_run_text::proofs::FieldLemmas::some_field), unfolding(crate::specs::Schedules::first_schedule_of))]
pub fn parse_first_of_schedule(line: &[u8]) -> Option<FirstOfSchedule>
    ensures { result ≡ first_schedule_of line.now }
{
    if line.len() > 80 {
        return None;
    }
    let (word, rest) = first_field(line);
    let Some(rest) = rest else {
        return None;
    };
    let (second, rest) = first_field(rest);
    let Some(rest) = rest else {
        return first_lock(word, second);
    };
    let (third, rest) = first_field(rest);
    let Some(rest) = rest else {
        return first_semaphore(word, second, third);
    };
    let (fourth, rest) = first_field(rest);
    match rest {
        Some(_) => None,
        None => first_bounded(word, second, third, fourth),
    }
}
