//! What is printed: a table of lines for each part.
//!
//! A heading is above the rows that it is of. A row is printed for each of its counts.

use crate::alone::{Asked, By, Form};
use crate::lines::Action;
use crate::loads::Load;
use crate::meeting::How;
use crate::places::Kind;
use saa_sync::spin_policy::{DEFAULT, NONE};

/// What a line says.
#[derive(Clone, Copy)]
pub enum Line {
    /// Its text alone.
    Text,
    /// What two loads cost that are measured in turn, and their ratio.
    Beside(Load, Load),
    /// The same, and below it what the last turn of each took.
    BesideAndLast(Load, Load, &'static str),
    /// How often tasks that contend are polled for nothing.
    IdlePolls,
    /// What a turn costs that threads take so at one lock, for each work of a turn.
    Crowd(Kind, How),
    /// How long a thread waits for its turn, which is empty, among others that take turns of so many tenths of a microsecond.
    Waits(Kind, How, u64),
    /// How many adds take a microsecond.
    Adds,
}

/// A line's text, what it says, how often what it times happens in one measurement, and its counts: of threads, or of waiters.
pub type Entry = (&'static str, Line, u64, &'static [u64]);

/// What the argument calls each part.
pub const PARTS: [&str; 6] = ["threads", "alone", "lines", "cores", "crowds", "waits"];

/// The lines of a part.
pub fn entries_of(part: &str) -> &'static [Entry] {
    match part {
        "threads" => &THREADS,
        "alone" => &ALONE,
        "lines" => &LINES,
        "cores" => &CORES,
        "crowds" => &CROWDS,
        _ => &WAITS,
    }
}

// How many turns all threads of one measurement take together, how many arrivals at a barrier there are, and how often a gate lets all
// pass: each of those costs some wakes.
const TURNS: u64 = 200_000;

const ARRIVALS: u64 = 20_000;

const PASSINGS: u64 = 1_000;

// How many turns tasks take together that contend.
const POLLED: u64 = 50_000;

// How often it happens in a line; and at a core, of what takes a nanosecond more often.
const CHANGES: u64 = 50_000;

const TRIES: u64 = 5_000_000;

const GRANTS: u64 = 1_000_000;

// How often in a line that each change walks.
const WALKS: u64 = 2_000;

// How many turns a figure of a crowd is of, so that it has parts of a nanosecond.
const COUNTED: u64 = 1_000;

// Once, where nothing is counted.
const ONCE: &[u64] = &[1];

const TO_FOUR: &[u64] = &[1, 2, 4];

const FROM_TWO: &[u64] = &[2, 4, 8];

const TO_EIGHT: &[u64] = &[1, 2, 4, 8];

// How many wait in a line.
const LENGTHS: &[u64] = &[64, 1_024, 4_096, 16_384];

const WALKED: &[u64] = &[1, 64, 4_096];

// Turns, rounds and futures, by the number of threads: a semaphore beside a plain counter, the word's semaphore beside both, a lock
// beside std's `RwLock`, a number behind our locks beside one behind std's, an arrival at a barrier, of which each last one of a round
// wakes all others, and a gate that lets so many pass, until all have. Then what a shell costs where nobody waits, a turn as a future
// beside one as a call, and the lock-free forms: beside what stands above them here, and the semaphore beside the two others.
static THREADS: [Entry; 20] = [
    (
        "what                    threads     ours ns      std ns  ratio",
        Line::Text,
        1,
        ONCE,
    ),
    (
        "semaphore, 40 of 63",
        Line::Beside(Load::Semaphore, Load::Counter),
        TURNS,
        TO_EIGHT,
    ),
    (
        "word, beside semaphore",
        Line::Beside(Load::Word, Load::Semaphore),
        TURNS,
        TO_EIGHT,
    ),
    (
        "word, 40 of 63",
        Line::Beside(Load::Word, Load::Counter),
        TURNS,
        TO_EIGHT,
    ),
    (
        "lock, all exclusive",
        Line::Beside(Load::Lock, Load::StdLock),
        TURNS,
        TO_FOUR,
    ),
    (
        "lock, 3 of 4 share",
        Line::Beside(Load::LockShared, Load::StdLockShared),
        TURNS,
        TO_FOUR,
    ),
    (
        "mutex, add 1",
        Line::Beside(Load::Mutex, Load::StdMutex),
        TURNS,
        TO_FOUR,
    ),
    (
        "rwlock, 3 of 4 read",
        Line::Beside(Load::RwLock, Load::StdRwLock),
        TURNS,
        TO_FOUR,
    ),
    (
        "barrier, an arrival",
        Line::Beside(Load::Barrier, Load::StdBarrier),
        ARRIVALS,
        &[4, 8],
    ),
    (
        "gate, all pass",
        Line::Beside(Load::Gate, Load::StdGate),
        PASSINGS,
        &[8, 32],
    ),
    (
        "semaphore, two Mutexes",
        Line::Beside(Load::Semaphore, Load::TwoTurns),
        TURNS,
        ONCE,
    ),
    (
        "lock, two Mutexes",
        Line::Beside(Load::Lock, Load::TwoTurns),
        TURNS,
        ONCE,
    ),
    (
        "future, beside a call",
        Line::Beside(Load::Future, Load::Semaphore),
        TURNS,
        ONCE,
    ),
    (
        "lock-free, 40 of 63",
        Line::Beside(Load::LockFreeSemaphore, Load::Counter),
        TURNS,
        TO_EIGHT,
    ),
    (
        "lock-free, beside semaphore",
        Line::Beside(Load::LockFreeSemaphore, Load::Semaphore),
        TURNS,
        TO_EIGHT,
    ),
    (
        "lock-free, beside word",
        Line::Beside(Load::LockFreeSemaphore, Load::Word),
        TURNS,
        TO_EIGHT,
    ),
    (
        "lock-free, all exclusive",
        Line::Beside(Load::LockFreeLock, Load::StdLock),
        TURNS,
        TO_FOUR,
    ),
    (
        "lock-free, 3 of 4 share",
        Line::Beside(Load::LockFreeLockShared, Load::StdLockShared),
        TURNS,
        TO_FOUR,
    ),
    (
        "lock-free, add 1",
        Line::Beside(Load::LockFreeMutex, Load::StdMutex),
        TURNS,
        TO_FOUR,
    ),
    ("tasks in threads", Line::IdlePolls, POLLED, FROM_TWO),
];

// A call with its release by one thread alone, at the lock-free form beside the threaded one.
static ALONE: [Entry; 9] = [
    (
        "uncontended             threads  lock-free ns  threaded ns  ratio",
        Line::Text,
        1,
        ONCE,
    ),
    (
        "try 1 of 63",
        Line::Beside(
            Load::Alone(Form::LockFree, Asked::Permits(1), By::Try),
            Load::Alone(Form::Threaded, Asked::Permits(1), By::Try),
        ),
        TURNS,
        ONCE,
    ),
    (
        "acquire 1 of 63",
        Line::Beside(
            Load::Alone(Form::LockFree, Asked::Permits(1), By::Call),
            Load::Alone(Form::Threaded, Asked::Permits(1), By::Call),
        ),
        TURNS,
        ONCE,
    ),
    (
        "try 40 of 63",
        Line::Beside(
            Load::Alone(Form::LockFree, Asked::Permits(40), By::Try),
            Load::Alone(Form::Threaded, Asked::Permits(40), By::Try),
        ),
        TURNS,
        ONCE,
    ),
    (
        "acquire 40 of 63",
        Line::Beside(
            Load::Alone(Form::LockFree, Asked::Permits(40), By::Call),
            Load::Alone(Form::Threaded, Asked::Permits(40), By::Call),
        ),
        TURNS,
        ONCE,
    ),
    (
        "try the lock",
        Line::Beside(
            Load::Alone(Form::LockFree, Asked::Lock, By::Try),
            Load::Alone(Form::Threaded, Asked::Lock, By::Try),
        ),
        TURNS,
        ONCE,
    ),
    (
        "take the lock",
        Line::Beside(
            Load::Alone(Form::LockFree, Asked::Lock, By::Call),
            Load::Alone(Form::Threaded, Asked::Lock, By::Call),
        ),
        TURNS,
        ONCE,
    ),
    (
        "try a share",
        Line::Beside(
            Load::Alone(Form::LockFree, Asked::Share, By::Try),
            Load::Alone(Form::Threaded, Asked::Share, By::Try),
        ),
        TURNS,
        ONCE,
    ),
    (
        "take a share",
        Line::Beside(
            Load::Alone(Form::LockFree, Asked::Share, By::Call),
            Load::Alone(Form::Threaded, Asked::Share, By::Call),
        ),
        TURNS,
        ONCE,
    ),
];

// What it costs in a line in which many wait to drop one from the middle, to drop the newest, and to grant the oldest, beside the shortest
// line; at the core and at the form that threads share. Then the same in the line of a lock-free form, and to drop the oldest, beside one
// that is shared: a lock-free form walks its line for each change, so there are fewer.
static LINES: [Entry; 13] = [
    (
        "in the line of a core   waiting          ns    of 64 ns  ratio",
        Line::Text,
        1,
        ONCE,
    ),
    (
        "drop the middle",
        Line::Beside(
            Load::CoreLine(Action::DropMiddle),
            Load::ShortCoreLine(Action::DropMiddle),
        ),
        CHANGES,
        LENGTHS,
    ),
    (
        "drop the newest",
        Line::Beside(
            Load::CoreLine(Action::DropNewest),
            Load::ShortCoreLine(Action::DropNewest),
        ),
        CHANGES,
        LENGTHS,
    ),
    (
        "grant the oldest",
        Line::Beside(
            Load::CoreLine(Action::Grant),
            Load::ShortCoreLine(Action::Grant),
        ),
        CHANGES,
        LENGTHS,
    ),
    (
        "in one that is shared   waiting          ns    of 64 ns  ratio",
        Line::Text,
        1,
        ONCE,
    ),
    (
        "drop the middle",
        Line::Beside(
            Load::SharedLine(Action::DropMiddle),
            Load::ShortSharedLine(Action::DropMiddle),
        ),
        CHANGES,
        LENGTHS,
    ),
    (
        "drop the newest",
        Line::Beside(
            Load::SharedLine(Action::DropNewest),
            Load::ShortSharedLine(Action::DropNewest),
        ),
        CHANGES,
        LENGTHS,
    ),
    (
        "grant the oldest",
        Line::Beside(
            Load::SharedLine(Action::Grant),
            Load::ShortSharedLine(Action::Grant),
        ),
        CHANGES,
        LENGTHS,
    ),
    (
        "in a lock-free line     waiting  lock-free ns  threaded ns  ratio",
        Line::Text,
        1,
        ONCE,
    ),
    (
        "drop the oldest",
        Line::Beside(
            Load::LockFreeLine(Action::DropOldest),
            Load::SharedLine(Action::DropOldest),
        ),
        WALKS,
        WALKED,
    ),
    (
        "drop the middle",
        Line::Beside(
            Load::LockFreeLine(Action::DropMiddle),
            Load::SharedLine(Action::DropMiddle),
        ),
        WALKS,
        WALKED,
    ),
    (
        "drop the newest",
        Line::Beside(
            Load::LockFreeLine(Action::DropNewest),
            Load::SharedLine(Action::DropNewest),
        ),
        WALKS,
        WALKED,
    ),
    (
        "grant the oldest",
        Line::Beside(
            Load::LockFreeLine(Action::Grant),
            Load::SharedLine(Action::Grant),
        ),
        WALKS,
        WALKED,
    ),
];

// What a turn at a core of links costs beside a list, where nobody waits and where one does.
static CORES: [Entry; 3] = [
    (
        "at a core               threads    links ns     list ns  ratio",
        Line::Text,
        1,
        ONCE,
    ),
    (
        "try and release",
        Line::BesideAndLast(
            Load::Linked { waits: false },
            Load::Listed { waits: false },
            "took",
        ),
        TRIES,
        ONCE,
    ),
    (
        "wait and be granted",
        Line::BesideAndLast(
            Load::Linked { waits: true },
            Load::Listed { waits: true },
            "asked for",
        ),
        GRANTS,
        ONCE,
    ),
];

// What a turn costs at one lock at which threads meet.
static CROWDS: [Entry; 18] = [
    (
        "at one lock             threads      nothing ns    100 inside ns  1,000 inside ns     100 both ns   1,000 both ns",
        Line::Text,
        1,
        ONCE,
    ),
    (
        "Lock",
        Line::Crowd(Kind::Lock(DEFAULT), How::Called),
        COUNTED,
        TO_EIGHT,
    ),
    (
        "Lock, strict",
        Line::Crowd(Kind::Lock(NONE), How::Called),
        COUNTED,
        TO_EIGHT,
    ),
    (
        "Lock, shared",
        Line::Crowd(Kind::Lock(DEFAULT), How::Shared),
        COUNTED,
        TO_EIGHT,
    ),
    (
        "Mutex",
        Line::Crowd(Kind::Mutex(DEFAULT), How::Called),
        COUNTED,
        TO_EIGHT,
    ),
    (
        "Mutex, strict",
        Line::Crowd(Kind::Mutex(NONE), How::Called),
        COUNTED,
        TO_EIGHT,
    ),
    (
        "word::Lock",
        Line::Crowd(Kind::WordLock(DEFAULT), How::Called),
        COUNTED,
        TO_EIGHT,
    ),
    (
        "word::Lock, strict",
        Line::Crowd(Kind::WordLock(NONE), How::Called),
        COUNTED,
        TO_EIGHT,
    ),
    (
        "word::Lock, shared",
        Line::Crowd(Kind::WordLock(DEFAULT), How::Shared),
        COUNTED,
        TO_EIGHT,
    ),
    (
        "word::Mutex",
        Line::Crowd(Kind::WordMutex, How::Called),
        COUNTED,
        TO_EIGHT,
    ),
    (
        "lock_free::Lock",
        Line::Crowd(Kind::LockFreeLock(DEFAULT), How::Called),
        COUNTED,
        TO_EIGHT,
    ),
    (
        "lock_free::Lock, strict",
        Line::Crowd(Kind::LockFreeLock(NONE), How::Called),
        COUNTED,
        TO_EIGHT,
    ),
    (
        "lock_free::Lock, shared",
        Line::Crowd(Kind::LockFreeLock(DEFAULT), How::Shared),
        COUNTED,
        TO_EIGHT,
    ),
    (
        "lock_free::Mutex",
        Line::Crowd(Kind::LockFreeMutex(DEFAULT), How::Called),
        COUNTED,
        TO_EIGHT,
    ),
    (
        "lock_free::Mutex, strict",
        Line::Crowd(Kind::LockFreeMutex(NONE), How::Called),
        COUNTED,
        TO_EIGHT,
    ),
    (
        "std::sync::Mutex",
        Line::Crowd(Kind::StdMutex, How::Called),
        COUNTED,
        TO_EIGHT,
    ),
    (
        "std::sync::RwLock, read",
        Line::Crowd(Kind::StdRwLock, How::Shared),
        COUNTED,
        TO_EIGHT,
    ),
    ("adds", Line::Adds, 1, ONCE),
];

// How long a thread waits for its turn, which is empty, among others that take turns with nothing or a microsecond inside.
static WAITS: [Entry; 30] = [
    (
        "a wait, turns of nothing   threads       median ns          99% ns      longest ns",
        Line::Text,
        1,
        ONCE,
    ),
    (
        "Lock",
        Line::Waits(Kind::Lock(DEFAULT), How::Called, 0),
        1,
        TO_EIGHT,
    ),
    (
        "Lock, joined",
        Line::Waits(Kind::Lock(DEFAULT), How::Joined, 0),
        1,
        TO_EIGHT,
    ),
    (
        "Lock, strict",
        Line::Waits(Kind::Lock(NONE), How::Called, 0),
        1,
        TO_EIGHT,
    ),
    (
        "Mutex",
        Line::Waits(Kind::Mutex(DEFAULT), How::Called, 0),
        1,
        TO_EIGHT,
    ),
    (
        "Mutex, strict",
        Line::Waits(Kind::Mutex(NONE), How::Called, 0),
        1,
        TO_EIGHT,
    ),
    (
        "word::Lock",
        Line::Waits(Kind::WordLock(DEFAULT), How::Called, 0),
        1,
        TO_EIGHT,
    ),
    (
        "word::Lock, joined",
        Line::Waits(Kind::WordLock(DEFAULT), How::Joined, 0),
        1,
        TO_EIGHT,
    ),
    (
        "word::Lock, strict",
        Line::Waits(Kind::WordLock(NONE), How::Called, 0),
        1,
        TO_EIGHT,
    ),
    (
        "lock_free::Lock",
        Line::Waits(Kind::LockFreeLock(DEFAULT), How::Called, 0),
        1,
        TO_EIGHT,
    ),
    (
        "lock_free::Lock, joined",
        Line::Waits(Kind::LockFreeLock(DEFAULT), How::Joined, 0),
        1,
        TO_EIGHT,
    ),
    (
        "lock_free::Lock, strict",
        Line::Waits(Kind::LockFreeLock(NONE), How::Called, 0),
        1,
        TO_EIGHT,
    ),
    (
        "lock_free::Mutex",
        Line::Waits(Kind::LockFreeMutex(DEFAULT), How::Called, 0),
        1,
        TO_EIGHT,
    ),
    (
        "lock_free::Mutex, strict",
        Line::Waits(Kind::LockFreeMutex(NONE), How::Called, 0),
        1,
        TO_EIGHT,
    ),
    (
        "std::sync::Mutex",
        Line::Waits(Kind::StdMutex, How::Called, 0),
        1,
        TO_EIGHT,
    ),
    (
        "a wait, turns of 1,000 ns  threads       median ns          99% ns      longest ns",
        Line::Text,
        1,
        ONCE,
    ),
    (
        "Lock",
        Line::Waits(Kind::Lock(DEFAULT), How::Called, 10),
        1,
        TO_EIGHT,
    ),
    (
        "Lock, joined",
        Line::Waits(Kind::Lock(DEFAULT), How::Joined, 10),
        1,
        TO_EIGHT,
    ),
    (
        "Lock, strict",
        Line::Waits(Kind::Lock(NONE), How::Called, 10),
        1,
        TO_EIGHT,
    ),
    (
        "Mutex",
        Line::Waits(Kind::Mutex(DEFAULT), How::Called, 10),
        1,
        TO_EIGHT,
    ),
    (
        "Mutex, strict",
        Line::Waits(Kind::Mutex(NONE), How::Called, 10),
        1,
        TO_EIGHT,
    ),
    (
        "word::Lock",
        Line::Waits(Kind::WordLock(DEFAULT), How::Called, 10),
        1,
        TO_EIGHT,
    ),
    (
        "word::Lock, joined",
        Line::Waits(Kind::WordLock(DEFAULT), How::Joined, 10),
        1,
        TO_EIGHT,
    ),
    (
        "word::Lock, strict",
        Line::Waits(Kind::WordLock(NONE), How::Called, 10),
        1,
        TO_EIGHT,
    ),
    (
        "lock_free::Lock",
        Line::Waits(Kind::LockFreeLock(DEFAULT), How::Called, 10),
        1,
        TO_EIGHT,
    ),
    (
        "lock_free::Lock, joined",
        Line::Waits(Kind::LockFreeLock(DEFAULT), How::Joined, 10),
        1,
        TO_EIGHT,
    ),
    (
        "lock_free::Lock, strict",
        Line::Waits(Kind::LockFreeLock(NONE), How::Called, 10),
        1,
        TO_EIGHT,
    ),
    (
        "lock_free::Mutex",
        Line::Waits(Kind::LockFreeMutex(DEFAULT), How::Called, 10),
        1,
        TO_EIGHT,
    ),
    (
        "lock_free::Mutex, strict",
        Line::Waits(Kind::LockFreeMutex(NONE), How::Called, 10),
        1,
        TO_EIGHT,
    ),
    (
        "std::sync::Mutex",
        Line::Waits(Kind::StdMutex, How::Called, 10),
        1,
        TO_EIGHT,
    ),
];
