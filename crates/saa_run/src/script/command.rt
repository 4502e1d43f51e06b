//! The lines of a script: which first line they follow, and which command each of them is.
//!
//! Held to `specs/Language.antt`: a line is good exactly where it is a command's spelling, which
//! `laws` proves. The lines that all primitives share are here; a kind's own words are a `ScriptCore`'s. What a
//! command does is left to the primitive's core.
ghost use Rattle.std.specs.Prelude.{◌≡◌};
ghost use Rattle.saa_run_text.specs.Fields.{either};
ghost use Rattle.saa_run.specs.Language.{pager_of, room_of, bound_of, mode_of, lone_line, counted_line, pager_line, registration, line_of, roomed_made, counted_made, bounded_made, first_line_of};
ghost use Rattle.saa_run_text.specs.Fields.{number_of};

use crate::script::script_core::ScriptCore;
use crate::words::meaning;
use saa::bench::{CommandOf, Primitive};
use saa_run_text::fields::{count, first_field, number};

/// The bounds of a semaphore that a script can name.
#[derive(Clone, Copy)]
pub enum Bound {
    /// 1 permit.
    One,
    /// 1000 permits.
    Thousand,
    /// 65535 permits: no bound is greater.
    Greatest,
}

/// The first line of a script: which primitive is made.
#[derive(Clone, Copy)]
pub enum FirstLine {
    /// `semaphore P ROOM`: a semaphore that has at most P permits available.
    Semaphore {
        permits: usize,
        room: u16,
    },
    /// `bounded MAX P ROOM`: the same of a semaphore whose bound is MAX.
    Bounded {
        bound: Bound,
        permits: usize,
        room: u16,
    },
    /// `lock ROOM`: a free lock.
    Lock {
        room: u16,
    },
    /// `gate ROOM`: a controlled gate.
    Gate {
        room: u16,
    },
    /// `barrier N ROOM`: a barrier for at most N tasks, and at most 63.
    Barrier {
        size: usize,
        room: u16,
    },
}

/// A line behind the first, over the calls `C` of a primitive and what its registrations ask, `K`.
#[derive(Drop)]
pub enum ScriptLine<C, K> {
    /// A command of the run.
    Do(CommandOf<C, K>),
    /// `registered P`: asks whether a pager is registered, and does nothing.
    Registered(u16),
}

/// A line behind the first line of a primitive.
pub type LineOf<P> = ScriptLine<<P as Primitive>::Call, <P as Primitive>::Ask>;

/// The pager that a field is: 0 to 99.
#[tactic(auto, unfolding(crate::specs::Language::pager_of))]
fn pager(field: &[u8]) -> Option<u16>
    ensures { result ≡ pager_of field.now }
{
    match number(field) {
        Some(n) if n < 100 => Some(n as u16),
        _ => None,
    }
}

/// The room that a field is: at most 65535.
#[tactic(auto, unfolding(crate::specs::Language::room_of))]
fn room(field: &[u8]) -> Option<u16>
    ensures { result ≡ room_of field.now }
{
    match number(field) {
        Some(n) if n < 65536 => Some(n as u16),
        _ => None,
    }
}

/// The bounds, as they are written.
static BOUNDS: [(&str, Bound); 3] = [
    ("1", Bound::One),
    ("1000", Bound::Thousand),
    ("65535", Bound::Greatest),
];

/// The bound that a field is: 1, 1000 or 65535.
#[tactic(auto, unfolding(crate::specs::Language::bound_of))]
fn named_bound(field: &[u8]) -> Option<Bound>
    ensures { result ≡ bound_of field.now }
{
    meaning(&BOUNDS, field)
}

/// The words of the modes of a registration: whether it is sync.
static MODES: [(&str, bool); 2] = [("sync", true), ("async", false)];

/// Whether a field says that a registration is sync, or async.
#[tactic(auto, unfolding(crate::specs::Language::mode_of))]
fn mode(field: &[u8]) -> Option<bool>
    ensures { result ≡ mode_of field.now }
{
    meaning(&MODES, field)
}

/// A line that is one word.
#[tactic(auto, unfolding(crate::specs::Language::lone_line))]
fn lone_word<P: ScriptCore>(word: &[u8]) -> Option<LineOf<P>>
    ensures { result ≡ lone_line P.readings word.now }
{
    match P::lone_call(word) {
        Some(call) => Some(ScriptLine::Do(CommandOf::Call(call))),
        None => None,
    }
}

/// A line that is a word and a number.
#[tactic(auto, unfolding(crate::specs::Language::counted_line))]
fn counted_words<P: ScriptCore>(word: &[u8], field: &[u8]) -> Option<LineOf<P>>
    ensures { result ≡ counted_line P.readings word.now field.now }
{
    match P::counted_call(word, count(field)?) {
        Some(call) => Some(ScriptLine::Do(CommandOf::Call(call))),
        None => None,
    }
}

/// A line that is a word and a pager.
#[tactic(auto, unfolding(crate::specs::Language::pager_line))]
fn pager_words<C, K>(word: &[u8], field: &[u8]) -> Option<ScriptLine<C, K>>
    ensures { result ≡ pager_line word.now field.now }
{
    let pager = pager(field)?;
    if word == b"try_poll".as_slice() {
        return Some(ScriptLine::Do(CommandOf::TryPoll(pager)));
    }
    if word == b"poll_sync".as_slice() {
        return Some(ScriptLine::Do(CommandOf::PollSync(pager)));
    }
    if word == b"poll_async".as_slice() {
        return Some(ScriptLine::Do(CommandOf::PollAsync(pager)));
    }
    if word == b"registered".as_slice() {
        return Some(ScriptLine::Registered(pager));
    }
    if word == b"drop".as_slice() {
        return Some(ScriptLine::Do(CommandOf::Drop(pager)));
    }
    if word == b"leave".as_slice() {
        return Some(ScriptLine::Do(CommandOf::Leave(pager)));
    }
    None
}

/// A registration: the word `reg`, a pager, what it asks, and the mode.
#[tactic(auto, unfolding(crate::specs::Language::registration))]
fn registration_words<C, K: Copy>(
    word: &[u8],
    pager: Option<u16>,
    ask: Option<K>,
    is_sync: Option<bool>,
) -> Option<ScriptLine<C, K>>
    ensures { result ≡ registration word.now pager ask is_sync }
{
    if word == b"reg".as_slice() {
        return Some(ScriptLine::Do(CommandOf::Register(pager?, ask?, is_sync?)));
    }
    None
}

/// A line that is two fields.
fn two_words<P: ScriptCore>(word: &[u8], field: &[u8]) -> Option<LineOf<P>>
    ensures { result ≡ either (pager_line word.now field.now) (counted_line P.readings word.now field.now) }
{
    match pager_words(word, field) {
        Some(line) => Some(line),
        None => counted_words::<P>(word, field),
    }
}

/// The line of a script that these bytes are, behind the first line.
#[tactic(auto, using(saa_run_text::proofs::FieldLemmas::some_field), unfolding(crate::specs::Language::line_of))]
pub fn parse_line<P: ScriptCore>(line: &[u8]) -> Option<LineOf<P>>
    ensures { result ≡ line_of P.readings line.now }
{
    if line.len() > 80 {
        return None;
    }
    let (word, rest) = first_field(line);
    let Some(rest) = rest else {
        return lone_word::<P>(word);
    };
    let (second, rest) = first_field(rest);
    let Some(rest) = rest else {
        return two_words::<P>(word, second);
    };
    let (third, rest) = first_field(rest);
    let Some(rest) = rest else {
        return registration_words(word, pager(second), P::ask(None), mode(third));
    };
    let (fourth, rest) = first_field(rest);
    match rest {
        Some(_) => None,
        None => registration_words(word, pager(second), P::ask(Some(third)), mode(fourth)),
    }
}

/// A first line that is a word and a room: `lock ROOM` or `gate ROOM`.
#[tactic(auto, unfolding(crate::specs::Language::roomed_made))]
fn roomed_words(word: &[u8], room_field: &[u8]) -> Option<FirstLine>
    ensures { result ≡ roomed_made word.now (room_of room_field.now) }
{
    let room = room(room_field)?;
    if word == b"lock".as_slice() {
        return Some(FirstLine::Lock { room });
    }
    if word == b"gate".as_slice() {
        return Some(FirstLine::Gate { room });
    }
    None
}

/// A first line that is a word, a number and a room: `semaphore P ROOM` or `barrier N ROOM`.
#[tactic(auto, unfolding(crate::specs::Language::counted_made))]
fn counted_first_words(word: &[u8], field: &[u8], room_field: &[u8]) -> Option<FirstLine>
    ensures { result ≡ counted_made word.now (number_of field.now) (room_of room_field.now) }
{
    let number = count(field)?;
    let room = room(room_field)?;
    if word == b"semaphore".as_slice() {
        return Some(FirstLine::Semaphore {
            permits: number,
            room,
        });
    }
    if word == b"barrier".as_slice() {
        return Some(FirstLine::Barrier { size: number, room });
    }
    None
}

/// A first line that is a word, a bound, a number and a room: `bounded MAX P ROOM`.
#[tactic(auto, unfolding(crate::specs::Language::bounded_made))]
fn bounded_words(
    word: &[u8],
    bound_field: &[u8],
    field: &[u8],
    room_field: &[u8],
) -> Option<FirstLine>
    ensures { result ≡ bounded_made word.now (bound_of bound_field.now) (number_of field.now) (room_of room_field.now) }
{
    if word == b"bounded".as_slice() {
        let bound = named_bound(bound_field)?;
        let permits = count(field)?;
        let room = room(room_field)?;
        return Some(FirstLine::Bounded {
            bound,
            permits,
            room,
        });
    }
    None
}

/// The first line of a script that these bytes are.
#[tactic(auto, using(saa_run_text::proofs::FieldLemmas::some_field), unfolding(crate::specs::Language::first_line_of))]
pub fn parse_first(line: &[u8]) -> Option<FirstLine>
    ensures { result ≡ first_line_of line.now }
{
    if line.len() > 80 {
        return None;
    }
    let (word, rest) = first_field(line);
    let Some(rest) = rest else {
        return None;
    };
    let (second, rest) = first_field(rest);
    let Some(rest) = rest else {
        return roomed_words(word, second);
    };
    let (third, rest) = first_field(rest);
    let Some(rest) = rest else {
        return counted_first_words(word, second, third);
    };
    let (fourth, rest) = first_field(rest);
    match rest {
        Some(_) => None,
        None => bounded_words(word, second, third, fourth),
    }
}
