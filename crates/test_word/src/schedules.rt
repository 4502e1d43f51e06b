//! Schedules of the machine as text: which place makes its next step, which kind of step that is, what it does, and the main word after it.
//!
//! A schedule has a first line as of `saa-run machine`, and rows divided by `; `. A row is what one place does, move after move:
//!
//! ```text
//! semaphore 63 3
//! 0 reg 10: ask prepare join 63/0/0/1 true; 1 release 5: .. publish; 1: .. 58/0/0/1 true
//! ```
//!
//! | Words | Mean |
//! |---|---|
//! | `P CALL: ..`, `P: ..` | the first move of place P starts a call, of the calls of `saa-run machine`; it goes on with its call |
//! | `ask`, `walk` | a move, after which the next step of the place is of this kind |
//! | `true`, `not_ready`, `3`, `done` | a move that ends the call with this answer, or with none; a poll's are `granted` and `refused`, poisoned or shut |
//! | `waits`, `busy`, `idle` | a move that does nothing, and why |
//! | `..` | as many moves as it takes until the next word is so |
//! | `58/1/0/3` | ahead of a move: count, flag, poison and tail of the main word from that move on; it is compared after each move that a word names |

use crate::worked;
use saa_word::machine::{Answer, Error, Kind, Machine, Move, Step, WordCall};
use saa_word_steps::call::{Mode, TryLockError};
use std::alloc::{AllocError, Global};
use std::test::Fail;
use test_asserts::same;

static KINDS: [(&str, Kind); 13] = [
    ("ask", Kind::Ask),
    ("prepare", Kind::Prepare),
    ("join", Kind::Join),
    ("release", Kind::Release),
    ("walk", Kind::Walk),
    ("publish", Kind::Publish),
    ("show", Kind::Show),
    ("take", Kind::Take),
    ("flag", Kind::Flag),
    ("unlink", Kind::Unlink),
    ("tail", Kind::Tail),
    ("poison", Kind::Poison),
    ("clear", Kind::Clear),
];

static ANSWERS: [(&str, Answer); 10] = [
    ("true", Answer::Bool(true)),
    ("false", Answer::Bool(false)),
    ("done", Answer::Unit),
    ("ok", Answer::Tried(Ok(()))),
    ("would_block", Answer::Tried(Err(TryLockError::WouldBlock))),
    ("poisoned", Answer::Tried(Err(TryLockError::Poisoned))),
    ("granted", Answer::Taken(Ok(true))),
    ("refused", Answer::Taken(Ok(false))),
    ("not_ready", Answer::Taken(Err(Error::NotReady))),
    ("not_registered", Answer::Taken(Err(Error::NotRegistered))),
];

static CALLS: [(&str, WordCall); 17] = [
    ("try_poll", WordCall::TryPoll),
    ("poll", WordCall::Poll),
    ("cancel", WordCall::Cancel),
    ("available", WordCall::Available),
    ("shut", WordCall::Shut),
    ("is_shut", WordCall::IsShut),
    ("try_lock", WordCall::TryLock),
    ("try_share", WordCall::TryShare),
    ("release_lock", WordCall::ReleaseLock),
    ("release_share", WordCall::ReleaseShare),
    ("downgrade", WordCall::Downgrade),
    ("poison_lock", WordCall::PoisonLock),
    ("clear_poison", WordCall::ClearPoison),
    ("is_free", WordCall::IsFree),
    ("is_locked", WordCall::IsLocked),
    ("is_shared", WordCall::IsShared),
    ("is_poisoned", WordCall::IsPoisoned),
];

static MODES: [(&str, Mode); 4] = [
    ("exclusive", Mode::Exclusive),
    ("shared", Mode::Shared),
    ("wait_exclusive", Mode::WaitExclusive),
    ("wait_shared", Mode::WaitShared),
];

// What a word means in a table.
fn meaning<T: Copy>(table: &[(&str, T)], word: &str) -> Option<T> {
    for (name, meaning) in table {
        if *name == word {
            return Some(*meaning);
        }
    }
    None
}

// The number that a word is, or 0.
fn number(word: Option<&str>) -> u16 {
    word.unwrap_or("").parse::<u16>().unwrap_or(0)
}

// The call that a word is, with the word after it, which may be empty.
fn call_of(word: &str, other: &str) -> Option<WordCall> {
    if let Some(call) = meaning(&CALLS, word) {
        return Some(call);
    }
    if let Some(mode) = meaning(&MODES, other) {
        return (word == "reg").then_some(WordCall::RegisterMode(mode));
    }
    let count = other.parse::<usize>().ok()?;
    match word {
        "try" => Some(WordCall::Try(count)),
        "reg" => Some(WordCall::Register(count)),
        "release" => Some(WordCall::Release(count)),
        _ => None,
    }
}

// The main word whose parts these are, `COUNT/FLAG/POISON/TAIL`.
fn main_word(parts: &str) -> Option<u64> {
    let (count, parts) = parts.split_once('/')?;
    let (flag, parts) = parts.split_once('/')?;
    let (poison, tail) = parts.split_once('/')?;
    let count = u64::from(number(Some(count)));
    let flag = u64::from(number(Some(flag)));
    let poison = u64::from(number(Some(poison)));
    let tail = u64::from(number(Some(tail)));
    Some(count | flag << 16 | poison << 17 | tail << 18)
}

// What a move does if it is as a word says, and the kind of the step that is next at its place; this kind was next before the move.
fn wanted(word: &str, before: Option<Kind>) -> Option<(Step, Option<Kind>)> {
    if let Some(kind) = meaning(&KINDS, word) {
        return Some((Step::Going, Some(kind)));
    }
    if let Some(answer) = meaning(&ANSWERS, word) {
        return Some((Step::Done(answer), None));
    }
    match word {
        "waits" => Some((Step::Waits, before)),
        "busy" => Some((Step::Busy, before)),
        "idle" => Some((Step::Idle, None)),
        _ => {
            let number = word.parse::<u16>().ok()?;
            Some((Step::Done(Answer::Number(number)), None))
        }
    }
}

// A machine, and the main word as the rows said last.
#[derive(Drop)]
struct Played {
    machine: Machine,
    main: u64,
}

impl Played {
    // The machine that a first line makes, if it is one.
    fn new(alloc: Global, line: &str) -> Result<Option<Played>, AllocError> {
        let mut words = line.split_whitespace();
        let form = words.next().unwrap_or("");
        let first = number(words.next());
        let second = number(words.next());
        let third = number(words.next());
        let main = match form {
            "semaphore" => first,
            "bounded" => second,
            _ => 0,
        };
        let withheld = usize::from(main);
        let machine = match form {
            "semaphore" => Machine::semaphore(alloc, withheld, second)?,
            "bounded" => Machine::semaphore_of(alloc, first.max(1), withheld, third)?,
            "lock" => Machine::lock(alloc, first)?,
            _ => return Ok(None),
        };
        let main = u64::from(main);
        Ok(Some(Played { machine, main }))
    }

    fn next_kind(&self, me: u16) -> Option<Kind> {
        if me >= self.machine.places() {
            return None;
        }
        self.machine.next_kind(me)
    }

    // Makes a move; none if the machine doesn't have its place or its call.
    fn make(&mut self, next: Move) -> Option<Step> {
        match next {
            Move::Start(me, call) => {
                if me >= self.machine.places() || !self.machine.takes(call) {
                    return None;
                }
                Some(self.machine.go(Move::Start(me, call)))
            }
            Move::Go(me) => {
                if me >= self.machine.places() {
                    return None;
                }
                Some(self.machine.go(Move::Go(me)))
            }
        }
    }

    // Makes a move, and goes on for `most` moves at most: whether one is as the word says, and leaves the main word as the rows say.
    fn does(&mut self, first: Move, word: &str, most: u16) -> bool {
        let (Move::Start(me, _) | Move::Go(me)) = first;
        let mut next = first;
        for _move in 0..most {
            let before = self.next_kind(me);
            let Some(step) = self.make(next) else {
                return false;
            };
            if wanted(word, before) == Some((step, self.next_kind(me))) {
                return self.machine.word() == self.main;
            }
            if step != Step::Going {
                return false;
            }
            next = Move::Go(me);
        }
        false
    }

    // Plays a row: the first word that isn't so, or all of a row that can't be read.
    fn play<'t>(&mut self, row: &'t str) -> Result<(), &'t str> {
        let (head, moves) = row.split_once(':').ok_or(row)?;
        let mut words = head.split_whitespace();
        let me = number(words.next());
        let mut next = match words.next() {
            Some(word) => {
                let other = words.next().unwrap_or("");
                Move::Start(me, call_of(word, other).ok_or(row)?)
            }
            None => Move::Go(me),
        };
        let mut most = 1;
        for word in moves.split_whitespace() {
            if word == ".." {
                most = 1_000;
            } else if let Some(main) = main_word(word) {
                self.main = main;
            } else if self.does(next, word, most) {
                next = Move::Go(me);
                most = 1;
            } else {
                return Err(word);
            }
        }
        Ok(())
    }

    // Plays the rows of a line: the first that isn't so, and the word of it.
    fn play_line<'t>(&mut self, line: &'t str) -> Option<(&'t str, &'t str)> {
        for row in line.split(';') {
            if let Err(word) = self.play(row) {
                return Some((row, word));
            }
        }
        None
    }
}

// Plays schedules: the first row that isn't so, and the word of it.
fn first_other(
    alloc: Global,
    schedules: &'static str,
) -> Result<Option<(&'static str, &'static str)>, AllocError> {
    let mut played = Played {
        machine: Machine::lock(alloc, 0)?,
        main: 0,
    };
    for line in schedules.lines() {
        if line.starts_with('#') || line.is_empty() {
            continue;
        }
        match Played::new(alloc, line)? {
            Some(new) => played = new,
            None => {
                if let Some(other) = played.play_line(line) {
                    return Ok(Some(other));
                }
            }
        }
    }
    Ok(None)
}

#[test]
fn schedules_are_played(rt: HostRuntime) -> Result<(), Fail> {
    same!(rt; first_other(rt.alloc(), worked::SEMAPHORES)?, None);
    same!(rt; first_other(rt.alloc(), worked::LOCKS)?, None);
    Ok(())
}

// A place takes two permits, and another one is in no call.
static MOVES: [Move; 4] = [
    Move::Start(0, WordCall::Try(2)),
    Move::Go(0),
    Move::Go(0),
    Move::Go(1),
];

const YES: Step = Step::Done(Answer::Bool(true));

// What these moves do at once at a semaphore of 63 permits.
fn at_once(alloc: Global) -> Result<[Step; 4], AllocError> {
    let mut machine = Machine::semaphore(alloc, 0, 2)?;
    let mut steps = [Step::Busy; 4];
    machine.run(&MOVES, &mut steps);
    Ok(steps)
}

#[test]
fn moves_are_made_at_once(rt: HostRuntime) -> Result<(), Fail> {
    same!(rt; at_once(rt.alloc())?, [Step::Going, Step::Going, YES, Step::Idle]);
    Ok(())
}
