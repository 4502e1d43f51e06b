//! The player of stories of spins: the story's own moves, in its thread, and the calls of the others.
//!
//! | Words | Mean |
//! |---|---|
//! | `lock few_none` | the story is of the lock; calls spin by the first policy before they register, and waiters by the second |
//! | `lock`, `acquire 63`, `try_lock`, .. | a call that gives back what it took; `lower` takes the lock alone and shares it; `take`, `downgrade`, `release_share`, .. are parts of one |
//! | `leave`, `drop_future` | a pager waits for the lock, and is cancelled; a future does, and is dropped |
//! | `t1 lock`, `crowd lock` | a thread begins the call, and the story goes on; the crowd is a third thread |
//! | `t2 lock holds`, `t2 goes` | the call keeps what it took until the second row; of `t2 page keeps` the story doesn't wait until it has that |
//! | `t1 lock until_blocked` | the mutex is held as the call begins, until one blocks there; `until_looked`: until it has looked 13 times; `until_looker`: until it looks, and for a while |
//! | `t1 ends` | the story waits for the end of the thread's calls |
//! | `turns`, `parked`, `looked`, .. | a count of the form |
//! | `until 13 looked`, `stays 6 turns` | that count is waited for; it stays this for a while |
//! | `often 4000 lock` | the call is made so often; how often it was granted |
//! | `look`, `look_beside` | what a call finds that looks at the lock, alone or beside one that looks on; `timed_out` as its looks are over |
//! | `meets` | turns at the mutex, until one of them was had at a later try |

use crate::spins::forms::{Forms, call, forms_of, meets, often};
use crate::spins::stage::{Keep, Stage, THREADS};
use saa_sync::lock::Mode;
use saa_sync::testing::{add_looker, call_untold, look_on};
use std::alloc::AllocGlobal;
use std::io;
use std::random::RandomSource;
use std::sync::Wait;
use std::thread::{Threads, map_indices, yield_now};
use std::time::Clock;
use test_language::language::{Call, Failed, Move, Subject};
use test_language::reply::{Replies, Reply, number};

// How often the story gives way to others before it says what it sees, and how long a count has to stay as it is. A call needs a few turns of its thread.
const MOST_TURNS: u32 = 3_000_000;

const STAYS: u32 = 500;

// The thread that makes a move, if it isn't the story's own.
fn thread_of(call: &Call<'_>) -> Option<usize> {
    match call.subject {
        Subject::Thread(thread) => Some(thread),
        Subject::Crowd => Some(2),
        _ => None,
    }
}

// Gives way until a count is so large; whether it is.
fn comes<R: Wait + Drop>(forms: &Forms<'_, R>, what: &str, least: u64) -> bool {
    for _turn in 0..MOST_TURNS {
        if forms.count(what) >= Some(least) {
            return true;
        }
        yield_now();
    }
    false
}

// Gives way for a while; whether a count is this all the while.
fn stays<R: Wait + Drop>(forms: &Forms<'_, R>, what: &str, wanted: u64) -> bool {
    let mut stays = true;
    for _turn in 0..STAYS {
        stays &= forms.count(what) == Some(wanted);
        yield_now();
    }
    stays
}

// Holds the lock's mutex from before a move begins until this count is so large, and for a while if it is one of calls that look; whether it was.
fn hold<R: Wait + Drop>(
    forms: &Forms<'_, R>,
    stage: &Stage,
    at: usize,
    what: &str,
    least: u64,
) -> bool {
    call_untold(&forms.lock, |_core| {
        stage.begin(at);
        comes(forms, what, least) && (what != "lookers" || stays(forms, what, least))
    })
}

// The story's part of a thread's move; whether all came that it waits for.
fn lead<R: Wait + Drop>(
    rt: &impl Wait,
    forms: &Forms<'_, R>,
    stage: &Stage,
    at: usize,
    (call, thread): (&Call<'_>, usize),
) -> bool {
    match (call.verb, call.then().verb) {
        ("ends", _) => stage.awaits_end(rt, thread, at),
        ("goes", _) => stage.set_held(false),
        (_, "until_blocked") => return hold(forms, stage, at, "blocked", 1),
        (_, "until_looked") => return hold(forms, stage, at, "looked", 13),
        (_, "until_looker") => return hold(forms, stage, at, "lookers", 1),
        (_, "holds") => {
            stage.begin(at);
            stage.awaits_held(rt, true);
        }
        _ => stage.begin(at),
    }
    true
}

// Makes the move of a row, in any thread.
fn answer<H, R>(rt: &H, forms: &Forms<'_, R>, row: &Call<'_>, keep: Keep<'_>) -> Reply
where
    H: Wait + Clock + Threads + RandomSource + AllocGlobal,
    R: Wait + Clock + Drop,
{
    let wanted = row.number().unwrap_or(0);
    match row.verb {
        "until" => comes(forms, row.then().verb, wanted as u64).reply(),
        "stays" => stays(forms, row.then().verb, wanted as u64).reply(),
        "often" => number(often(rt, forms, row)),
        "look" => look_on(&forms.lock, Mode::Exclusive).reply(),
        "look_beside" => {
            add_looker(&forms.lock);
            look_on(&forms.lock, Mode::Exclusive).reply()
        }
        "meets" => meets(rt, forms).reply(),
        _ => match forms.count(row.verb) {
            Some(count) => number(count as usize),
            None => call(rt, forms, row, keep).reply(),
        },
    }
}

// Makes the moves of one thread beside the story's own; the first that was answered otherwise, which ends the story.
fn act<'t, H, R>(
    rt: &H,
    forms: &Forms<'_, R>,
    stage: &Stage,
    moves: &[Move<'t>],
    thread: usize,
) -> Option<Failed<'t>>
where
    H: Wait + Clock + Threads + RandomSource + AllocGlobal,
    R: Wait + Clock + Drop,
{
    for (at, row) in moves.iter().enumerate() {
        let is_call = !matches!(row.call.verb, "ends" | "goes");
        if is_call && thread_of(&row.call) == Some(thread) {
            if !stage.awaits_turn(rt, at) {
                return None;
            }
            let keep = match row.call.then().verb {
                "holds" | "keeps" => Keep::Holds(stage),
                _ => Keep::Nothing,
            };
            let failed = Failed::unless(row, answer(rt, forms, &row.call, keep));
            if failed.is_some() {
                stage.fail();
                return failed;
            }
        }
        stage.end(thread, at);
    }
    None
}

// Makes the story's own moves.
fn lead_all<'t, H, R>(
    rt: &H,
    forms: &Forms<'_, R>,
    stage: &Stage,
    moves: &[Move<'t>],
) -> Option<Failed<'t>>
where
    H: Wait + Clock + Threads + RandomSource + AllocGlobal,
    R: Wait + Clock + Drop,
{
    for (at, row) in moves.iter().enumerate() {
        let failed = match thread_of(&row.call) {
            Some(thread) if lead(rt, forms, stage, at, (&row.call, thread)) => None,
            Some(_) => Some(Failed::of(row, false.reply())),
            None => Failed::unless(row, answer(rt, forms, &row.call, Keep::Nothing)),
        };
        if failed.is_some() || stage.has_failed() {
            stage.fail();
            return failed;
        }
    }
    None
}

/// The first row that is answered otherwise of a story of this form.
pub(crate) fn failed_row<'t, H>(
    rt: &H,
    form: &Call<'t>,
    rows: &[Move<'t>],
) -> io::Result<Option<Failed<'t>>>
where
    H: Wait + Clock + Threads + Sync + RandomSource + AllocGlobal,
{
    let forms = forms_of(rt, rt.alloc(), form)?;
    let stage = Stage::new(rt.alloc())?;
    let mut parts = map_indices(
        rt,
        rt.alloc(),
        THREADS + 1,
        &|thread| {
            if thread == THREADS {
                return lead_all(rt, &forms, &stage, rows);
            }
            act(rt, &forms, &stage, rows, thread)
        },
    )?;
    for _thread in 0..parts.len() {
        if let Some(Some(failed)) = parts.pop() {
            return Ok(Some(failed));
        }
    }
    Ok(None)
}
