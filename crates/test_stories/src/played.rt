//! Stories are played at new forms: what their first lines make, and the first row that is answered otherwise.

ghost use Rattle.std.specs.Prelude.{◌<◌};

use crate::clock::OnClock;
use crate::forms::Host;
use crate::player::{Outcome, part_of};
use crate::threads::Stage;
use saa_core::barrier::BarrierCore;
use saa_core::gate::GateCore;
use saa_core::lock::LockCore;
use saa_core::semaphore::SemaphoreCoreOf;
use saa_core_waits::spin_policy::{DEFAULT, NONE, SpinPolicy};
use saa_sync::testing::{WAITER, form_of};
use saa_word_lock_free::lock::Lock as LockFreeLock;
use saa_word_lock_free::semaphore::SemaphoreOf as LockFree;
use std::time::Instant;
use std::{io, thread};
use test_language::language::{Call, Move, Time, moves_for, numbers_of};

/// Which form of a primitive a story is played at.
#[derive(Clone, Copy, Debug, Eq, PartialEq)]
pub(crate) enum Kind {
    LockFree,
    Threaded,
    /// The threaded one, where each timed call has an instant in place of a duration.
    Until,
}

// What the first line says of a form but its primitive: its permits or tasks, for how many waiters there is room, and how calls and waiters spin.
#[derive(Clone, Copy)]
struct Made {
    size: usize,
    room: u16,
    calls: SpinPolicy,
    waiters: SpinPolicy,
}

fn policy(looks: u32, yields: u32) -> SpinPolicy {
    SpinPolicy { looks, yields }
}

// The last of the first line's numbers is the room, the one before it the size. How calls and waiters spin is said by a word behind them, if at all.
fn made_of(line: &Call<'_>) -> Made {
    let then = line.then();
    let [first, second, _] = line.numbers();
    let (size, room) = match line.verb {
        "bounded" => (second, line.room(2)),
        "lock" | "gate" => (0, line.room(0)),
        _ => (first, line.room(1)),
    };
    // Longer than any test lasts.
    let (looks_on, yields_on) = (policy(u32::MAX, 0), policy(0, u32::MAX));
    let (calls, waiters) = match then.verb {
        "sleepy" => (DEFAULT, NONE),
        "looking" => (yields_on, NONE),
        "awake" => (yields_on, looks_on),
        "looking_long" => (yields_on, policy(1_000_000, 0)),
        "yielding" => (yields_on, yields_on),
        "yielding_alone" => (NONE, yields_on),
        "yields" => (NONE, policy(0, u32::from(then.room(0)))),
        "spins" if then.number() == Some(0) => (NONE, WAITER),
        _ if line.verb == "lock" || then.verb == "spins" => (DEFAULT, WAITER),
        _ => (NONE, WAITER),
    };
    Made {
        size,
        room,
        calls,
        waiters,
    }
}

// What the threads of a story find, side by side: so many others, and the story's own, which is the last.
fn in_threads<H, F, T>(rt: &H, others: usize, run: &F) -> io::Result<Option<T>>
where
    H: Host,
    F: Fn(usize) -> io::Result<Option<T>> + Sync,
    T: Drop + Send,
    requires callable { F.IsAlwaysCallable run.now }
{
    let mut found = thread::map_indices(rt, rt.alloc(), others.saturating_add(1), run)?;
    for _thread in 0..found.len() {
        if let Some(outcome) = found.pop() {
            let outcome = outcome?;
            if outcome.is_some() {
                return Ok(outcome);
            }
        }
    }
    Ok(None)
}

// The moves of a story at this form. The threads are begun for each form by itself: the borrow checker covers none that a function begins for any form.
macro_rules! at_form {
    ($clock:expr, $form:expr, $moves:expr) => {{
        let rt = $clock.rt;
        let stage = Stage::new(rt.alloc(), Instant::now($clock)?, $moves)?;
        match stage.others() {
            0 => part_of($clock, &$form, &stage, $moves, 0),
            others => in_threads(
                rt,
                others,
                &|thread| part_of($clock, &$form, &stage, $moves, thread),
            ),
        }
    }};
}

// A story at a threaded semaphore of this bound.
fn at_permits<'t, H: Host, const MAX: usize>(
    clock: &OnClock<&H>,
    made: Made,
    moves: &[Move<'t>],
) -> Outcome<'t>
    requires bound { 0 < MAX }
    requires narrow { MAX < 65536 }
{
    let alloc = clock.rt.alloc();
    let core = SemaphoreCoreOf::<MAX>::with_permits(alloc, made.size, made.room)?;
    let form = form_of(clock, alloc, core, made.room, made.calls, made.waiters)?;
    at_form!(clock, form, moves)
}

// A story at a lock-free semaphore of this bound.
fn at_free_permits<'t, H: Host, const MAX: usize>(
    clock: &OnClock<&H>,
    made: Made,
    moves: &[Move<'t>],
) -> Outcome<'t>
    requires bound { 0 < MAX }
    requires narrow { MAX < 65536 }
{
    let (alloc, size, room) = (clock.rt.alloc(), made.size, made.room);
    let form = LockFree::<_, MAX>::with_spin_policy(clock, alloc, size, room, made.calls)?;
    at_form!(clock, form, moves)
}

// A story at a threaded lock.
fn at_a_lock<'t, H: Host>(clock: &OnClock<&H>, made: Made, moves: &[Move<'t>]) -> Outcome<'t> {
    let alloc = clock.rt.alloc();
    let core = LockCore::new(alloc, made.room)?;
    let form = form_of(clock, alloc, core, made.room, made.calls, made.waiters)?;
    at_form!(clock, form, moves)
}

// A story at a lock-free lock.
fn at_a_free_lock<'t, H: Host>(clock: &OnClock<&H>, made: Made, moves: &[Move<'t>]) -> Outcome<'t> {
    let alloc = clock.rt.alloc();
    let form = LockFreeLock::with_spin_policy(clock, alloc, made.room, made.calls)?;
    at_form!(clock, form, moves)
}

// A story at a gate.
fn at_a_gate<'t, H: Host>(clock: &OnClock<&H>, made: Made, moves: &[Move<'t>]) -> Outcome<'t> {
    let alloc = clock.rt.alloc();
    let core = GateCore::new(alloc, made.room)?;
    let form = form_of(clock, alloc, core, made.room, NONE, made.waiters)?;
    at_form!(clock, form, moves)
}

// A story at a barrier of this size.
fn at_a_barrier<'t, H: Host>(clock: &OnClock<&H>, made: Made, moves: &[Move<'t>]) -> Outcome<'t> {
    let alloc = clock.rt.alloc();
    let core = BarrierCore::with_count(alloc, made.size, made.room)?;
    let form = form_of(clock, alloc, core, made.room, NONE, made.waiters)?;
    at_form!(clock, form, moves)
}

// A story at the form that its first line makes.
fn at_first_line<'t, H: Host>(
    rt: &H,
    kind: Kind,
    line: &Call<'_>,
    moves: &[Move<'t>],
) -> Outcome<'t> {
    let clock = match line.time {
        Time::Lasts(_) => OnClock::new(rt, line.time.nanos()),
        _ => OnClock::real(rt),
    };
    let made = made_of(line);
    let [bound, _, _] = line.numbers();
    match (line.verb, kind) {
        ("semaphore", _) => at_a_bound(&clock, kind, 63, made, moves),
        ("bounded", _) => at_a_bound(&clock, kind, bound, made, moves),
        ("lock", Kind::LockFree) => at_a_free_lock(&clock, made, moves),
        ("lock", _) => at_a_lock(&clock, made, moves),
        ("gate", _) => at_a_gate(&clock, made, moves),
        _ => at_a_barrier(&clock, made, moves),
    }
}

// A story at a semaphore of this bound.
fn at_a_bound<'t, H: Host>(
    clock: &OnClock<&H>,
    kind: Kind,
    bound: usize,
    made: Made,
    moves: &[Move<'t>],
) -> Outcome<'t> {
    match (bound, kind) {
        (1, Kind::LockFree) => at_free_permits::<H, 1>(clock, made, moves),
        (63, Kind::LockFree) => at_free_permits::<H, 63>(clock, made, moves),
        (1_000, Kind::LockFree) => at_free_permits::<H, 1_000>(clock, made, moves),
        (_, Kind::LockFree) => at_free_permits::<H, 65_535>(clock, made, moves),
        (1, _) => at_permits::<H, 1>(clock, made, moves),
        (63, _) => at_permits::<H, 63>(clock, made, moves),
        (1_000, _) => at_permits::<H, 1_000>(clock, made, moves),
        _ => at_permits::<H, 65_535>(clock, made, moves),
    }
}

// The first row of a story that is answered otherwise at this kind of form, where it is played for this number. It begins with the head of its paragraph.
fn first_row<'t, H: Host>(
    rt: &H,
    kind: Kind,
    head: &'t str,
    story: &'t str,
    each: usize,
) -> Outcome<'t> {
    let mut moves = moves_for(rt.alloc(), head, each)?;
    for row in moves_for(rt.alloc(), story, each)?.iter() {
        moves.push(*row)?;
    }
    if kind == Kind::Until {
        for row in &mut moves {
            row.call = row.call.until();
        }
    }
    match moves.split_first() {
        Some((first, rows)) => at_first_line(rt, kind, &first.call, rows),
        None => Ok(None),
    }
}

// The same of a paragraph for this number: of one story, or of one for each line that begins with a dash.
fn first_of_paragraph<'t, H: Host>(
    rt: &H,
    kind: Kind,
    paragraph: &'t str,
    each: usize,
) -> Outcome<'t> {
    let (head, stories) = paragraph.split_once("\n- ").unwrap_or((paragraph, ""));
    for story in stories.split("\n- ") {
        let failed = first_row(rt, kind, head, story, each)?;
        if failed.is_some() {
            return Ok(failed);
        }
    }
    Ok(None)
}

/// The first row of these stories that is answered otherwise at this kind of form.
pub(crate) fn first_failed<'t, H: Host>(rt: &H, kind: Kind, stories: &'t str) -> Outcome<'t> {
    for paragraph in stories.split("\n\n") {
        for each in numbers_of(rt.alloc(), paragraph)? {
            let failed = first_of_paragraph(rt, kind, paragraph, each)?;
            if failed.is_some() {
                return Ok(failed);
            }
        }
    }
    Ok(None)
}
