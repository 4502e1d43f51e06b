//! The language of stories: that of the program `saa-run`, with words for threads, tasks, futures, and time.
//!
//! A story is a paragraph: comments (`# ..`), a first line that makes the form (`semaphore N ROOM`, `bounded MAX N ROOM`, `lock ROOM`, `gate ROOM`,
//! `barrier N ROOM`), and lines of moves. Moves are divided by `; `, and a move that must answer something else than that it was done (`true`, `ok`, or
//! nothing) says what after ` -> `:
//!
//! ```text
//! # No later call passes a waiter.
//! semaphore 0 4
//! reg 0 3 sync; try 0 -> false; release 2; available -> 2; acquire_for 2ms -> timed_out
//! t1 lock; t2 lock_for 5ms -> timed_out; t1 release_lock
//! ```
//!
//! | Words | Mean |
//! |---|---|
//! | lines of a script | what they mean to the program; `drop P` has a pager go out of scope |
//! | `try`, `release`, `acquire`, with a number or none | the calls for so many permits, or the short ones for one |
//! | `acquire_for 5ms`, `acquire_until 5ms` | a timed call, by a duration and by an instant; a time in `h`, `s`, `ms`, `us`, `ns`, or `ever`; `any` is each of seven |
//! | `acquire_with 3 release 3` | a call with a callback, which makes the second call and counts: `calls` is one for each run, and 1000 times the numbers that the second calls answered |
//! | `cancel P`, `drop_away P`, `poll P a`, `poll_for P 5ms`, `block_on P` | of a pager: cancelled, dropped by another thread, polled by the task `a`, in time, by an executor |
//! | `f0 acquire 3`, `f0 poll a`, `f0 ended`, `f0 drop`, `f0 block_on` | a future is made, polled by the task `a`, looked at, dropped, and awaited by an executor |
//! | `a acquire_with 3 release 3`, `f0 acquire_with release` | a future with a callback is made, and polled by the task `a`, again if it was woken; or dropped with no poll |
//! | `f0 poll_away a` | a future is polled by the task `a` on another thread |
//! | `a woken`, `a calm` | whether the task `a` was woken since its last poll, and a poll of it that polls nothing |
//! | `t1 acquire 3`, `t1 ends` | a call on another thread: the next move is made once it has ended, or sleeps; and the wait for its end; a callback there only yields |
//! | `t1 acquire looks`, `t1 acquire_for 1h joins`, `t1 poll_sync 0 begins` | the next move is made once the call spins, or has joined the queue, since it never sleeps, or at once |
//! | `crowd 48 acquire`, `crowd 48 ends`, `crowd 48 ended -> 0` | so many threads make the call, each as `t1` does, and `joins` is for calls with a callback; the wait for their ends; how many calls have ended |
//! | `in_turn 48 release` | makes the call so often, each time waits until one more of the crowd is done, and answers how often no other one was woken |
//! | `each 1 2 48`, `N`, `N+1` | ahead of the first line: the story is played for each of these numbers, which is `N` in it |
//! | `semaphore 0 2 1ns sleepy` | a clock of which each reading is so much later than the last (of `0ns` it stands still), and a spin policy: waiters park at once (`sleepy`), spin at their parker (`awake`), or yield there (`yielding`), and calls spin for ever before they join (`looking`, and with the last two) |
//! | `clock 5ms`, `late`, `leap 1h`, `clock broken` | that clock is set, to a second, once it was read again, and can't be read |
//! | `pause`, `read 100`, `rests`, `asleep 2`, `parked` | a while passes; the clock was read so often; it is hardly read; so many sleep, which is waited for; how many do |
//! | `crowd 257 reg 0 5`, `next`, `prints -> ..` | at a core: so many tickets register and go out of scope; the slot of the next pending wake; its text |
//! | `room`, `notified` | how many more could wait now, 7 at most; how many parkers are notified |

use crate::reply::Reply;
use saa_core::lock::Mode;
use std::alloc::{AllocError, Global};
use std::time::Duration;

/// Who makes a move.
#[derive(Clone, Copy, Debug, Eq, PartialEq)]
pub enum Subject {
    Story,
    Thread(usize),
    Crowd,
    Future(usize),
    Task(usize),
}

/// How long a call waits.
#[derive(Clone, Copy, Debug)]
pub enum Time {
    Untimed,
    Lasts(Duration),
    Any,
}

impl Time {
    /// So many nanoseconds, or all there can be.
    pub fn nanos(self) -> u64 {
        let Time::Lasts(long) = self else {
            return 0;
        };
        let whole = long.as_secs().saturating_mul(1_000_000_000);
        whole.saturating_add(u64::from(long.subsec_nanos()))
    }
}

/// A call: its words, and what they say.
#[derive(Clone, Copy, Debug)]
pub struct Call<'t> {
    pub subject: Subject,
    /// How many of the crowd make it.
    pub crowd: usize,
    pub verb: &'t str,
    // The numbers after it, and how many they are.
    numbers: [usize; 3],
    count: usize,
    pub mode: Mode,
    pub is_sync: bool,
    pub time: Time,
    pub task: usize,
    // What a callback does, or another word.
    then: &'t str,
    then_number: Option<usize>,
}

/// A move as it is written, the line that it is of, what it must answer, and for which number its story is played.
#[derive(Clone, Copy, Debug)]
pub struct Move<'t> {
    pub line: &'t str,
    pub text: &'t str,
    pub wanted: Option<&'t str>,
    pub each: usize,
    pub call: Call<'t>,
}

/// The first row that was answered otherwise.
#[derive(Clone, Copy, Debug, Eq, PartialEq)]
pub struct Failed<'t> {
    /// The whole line.
    pub line: &'t str,
    /// The move.
    pub row: &'t str,
    /// What it must answer.
    pub expected: &'t str,
    /// What it did answer.
    pub answered: Reply,
}

impl<'t> Failed<'t> {
    /// This row, where that isn't what it says.
    pub fn unless(row: &Move<'t>, answered: Reply) -> Option<Failed<'t>> {
        (!answered.is_wanted(row.wanted, row.each)).then_some(Failed::of(row, answered))
    }

    /// This row, which was answered so.
    pub fn of(row: &Move<'t>, answered: Reply) -> Failed<'t> {
        Failed {
            line: row.line,
            row: row.text,
            expected: row.wanted.unwrap_or("done"),
            answered,
        }
    }
}

static SUBJECTS: [(&str, Subject); 9] = [
    ("t1", Subject::Thread(0)),
    ("t2", Subject::Thread(1)),
    ("crowd", Subject::Crowd),
    ("f0", Subject::Future(0)),
    ("f1", Subject::Future(1)),
    ("f2", Subject::Future(2)),
    ("a", Subject::Task(0)),
    ("b", Subject::Task(1)),
    ("c", Subject::Task(2)),
];

static MODES: [(&str, Mode); 4] = [
    ("exclusive", Mode::Exclusive),
    ("shared", Mode::Shared),
    ("wait_exclusive", Mode::WaitExclusive),
    ("wait_shared", Mode::WaitShared),
];

static WAYS: [(&str, bool); 2] = [("sync", true), ("async", false)];

static UNITS: [(&str, u64); 5] = [
    ("ns", 1),
    ("us", 1_000),
    ("ms", 1_000_000),
    ("s", 1_000_000_000),
    ("h", 3_600_000_000_000),
];

// The timed call by an instant, in place of the one by a duration.
fn verb_until(verb: &str) -> Option<&'static str> {
    match verb {
        "acquire_for" => Some("acquire_until"),
        "permit_for" => Some("permit_until"),
        "lock_for" => Some("lock_until"),
        "share_for" => Some("share_until"),
        "enter_for" => Some("enter_until"),
        "wait_for" => Some("wait_until"),
        "poll_for" => Some("poll_until"),
        _ => None,
    }
}

/// The number that a word is where `N` is this one: `7`, `N` or `N+1`.
pub fn number_of(word: &str, each: usize) -> Option<usize> {
    match word.strip_prefix('N') {
        Some("") => Some(each),
        Some(more) => {
            let more = more.strip_prefix('+')?.parse::<usize>().ok()?;
            Some(each.saturating_add(more))
        }
        None => word.parse::<usize>().ok(),
    }
}

// What a word means in a table.
fn meaning<T: Copy>(table: &[(&str, T)], word: &str) -> Option<T> {
    for (name, meaning) in table {
        if *name == word {
            return Some(*meaning);
        }
    }
    None
}

// The time that a word is.
fn time_of(word: &str) -> Option<Time> {
    match word {
        "ever" => return Some(Time::Lasts(Duration::MAX)),
        "any" => return Some(Time::Any),
        _ => {}
    }
    for (name, nanos) in &UNITS {
        let number = word.strip_suffix(*name).unwrap_or("");
        if let Ok(number) = number.parse::<u64>() {
            return Some(Time::Lasts(Duration::from_nanos(number.saturating_mul(*nanos))));
        }
    }
    None
}

impl<'t> Call<'t> {
    /// A call of one word, that says nothing else.
    pub fn of(verb: &'t str) -> Self {
        Call {
            subject: Subject::Story,
            crowd: 0,
            verb,
            numbers: [0; 3],
            count: 0,
            mode: Mode::Exclusive,
            is_sync: true,
            time: Time::Untimed,
            task: 0,
            then: "",
            then_number: None,
        }
    }

    /// A call of a word and a number.
    pub fn with(verb: &'t str, number: usize) -> Self {
        let mut call = Call::of(verb);
        call.push(number);
        call
    }

    /// The registration of the first pager for so many permits, as sync.
    pub fn asking(count: usize) -> Self {
        let mut call = Call::of("reg");
        call.push(0);
        call.push(count);
        call
    }

    /// The same of another pager, as sync or as async.
    pub fn of_pager(mut self, pager: usize, is_sync: bool) -> Self {
        self.numbers[0] = pager;
        self.is_sync = is_sync;
        self
    }

    /// The same with an instant in place of a duration.
    pub fn until(mut self) -> Self {
        if let Some(verb) = verb_until(self.verb) {
            self.verb = verb;
        }
        self
    }

    /// Its numbers: those that it lacks are 0.
    pub fn numbers(&self) -> [usize; 3] {
        self.numbers
    }

    /// One of its numbers as the room of a form, as large as a room can be.
    pub fn room(&self, at: usize) -> u16 {
        let room = self.numbers.get(at).copied().unwrap_or(0);
        u16::try_from(room).unwrap_or(u16::MAX)
    }

    /// Its first number.
    pub fn number(&self) -> Option<usize> {
        (self.count != 0).then_some(self.numbers[0])
    }

    /// The pager that it names, or 0.
    pub fn pager(&self) -> usize {
        self.numbers[0]
    }

    /// How many permits a registration asks for.
    pub fn asked(&self) -> usize {
        self.numbers[1]
    }

    /// What its callback does.
    pub fn then(&self) -> Self {
        match self.then_number {
            Some(number) => Call::with(self.then, number),
            None => Call::of(self.then),
        }
    }

    fn push(&mut self, number: usize) {
        match self.count {
            0 => self.numbers[0] = number,
            1 => self.numbers[1] = number,
            _ => self.numbers[2] = number,
        }
        self.count = self.count.saturating_add(1);
    }

    // Reads one more word, in a story that is played for this number.
    fn read(&mut self, word: &'t str, each: usize) {
        if let Some(number) = number_of(word, each) {
            self.read_number(number);
        } else if let Some(subject) = meaning(&SUBJECTS, word) {
            self.read_subject(subject);
        } else if let Some(time) = time_of(word) {
            self.time = time;
        } else {
            self.read_word(word);
        }
    }

    // One after the crowd and ahead of the verb is how many they are.
    fn read_number(&mut self, number: usize) {
        if self.verb.is_empty() {
            self.crowd = number;
        } else if self.then.is_empty() {
            self.push(number);
        } else {
            self.then_number = Some(number);
        }
    }

    // The first is who makes the move; a task after the verb polls.
    fn read_subject(&mut self, subject: Subject) {
        match subject {
            Subject::Task(task) if !self.verb.is_empty() => self.task = task,
            _ => self.subject = subject,
        }
    }

    fn read_word(&mut self, word: &'t str) {
        if let Some(mode) = meaning(&MODES, word) {
            self.mode = mode;
        } else if let Some(is_sync) = meaning(&WAYS, word) {
            self.is_sync = is_sync;
        } else if self.verb.is_empty() {
            self.verb = word;
        } else {
            self.then = word;
        }
    }
}

// The call that a text says.
fn call_of(text: &str, each: usize) -> Call<'_> {
    let mut call = Call::of("");
    for word in text.split_whitespace() {
        call.read(word, each);
    }
    call
}

// The move that a part of a line is.
fn one_move<'t>(line: &'t str, part: &'t str, each: usize) -> Move<'t> {
    let (text, wanted) = match part.split_once(" -> ") {
        Some((text, wanted)) => (text, Some(wanted.trim())),
        None => (part, None),
    };
    Move {
        line,
        text: text.trim(),
        wanted,
        each,
        call: call_of(text, each),
    }
}

// Adds the moves of a line.
fn read_line<'t>(moves: &mut Vec<Move<'t>>, line: &'t str, each: usize) -> Result<(), AllocError> {
    for part in line.split(';') {
        moves.push(one_move(line, part, each))?;
    }
    Ok(())
}

/// The moves of a story, of which the first makes its form.
pub fn moves_of(alloc: Global, story: &str) -> Result<Vec<Move<'_>>, AllocError> {
    moves_for(alloc, story, 0)
}

/// The same of a story that is played for this number.
pub fn moves_for(alloc: Global, story: &str, each: usize) -> Result<Vec<Move<'_>>, AllocError> {
    let mut moves = Vec::new(alloc);
    for line in story.lines() {
        if !line.starts_with('#') && !line.starts_with(EACH) && !line.is_empty() {
            read_line(&mut moves, line, each)?;
        }
    }
    Ok(moves)
}

// How the line begins that says for which numbers a story is played.
const EACH: &str = "each ";

/// The numbers for which a story is played: 0 alone if no line says them.
pub fn numbers_of(alloc: Global, story: &str) -> Result<Vec<usize>, AllocError> {
    let mut numbers = Vec::new(alloc);
    for line in story.lines() {
        for word in line.strip_prefix(EACH).unwrap_or("").split_whitespace() {
            numbers.push(word.parse::<usize>().unwrap_or(0))?;
        }
    }
    if numbers.is_empty() {
        numbers.push(0)?;
    }
    Ok(numbers)
}
