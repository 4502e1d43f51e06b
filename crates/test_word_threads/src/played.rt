//! Stories are told at new forms: what their first lines make, the first row that is answered otherwise, and the words at the end.

ghost use Rattle.std.specs.Prelude.{All};
ghost use Rattle.saa_word_threads.specs.Locks.{IsDealtBy as IsDealtByLock};
ghost use Rattle.saa_word_threads.specs.Semaphores.{IsDealtBy};

use crate::locks::{self, Owner, owners_of};
use crate::player::{Member, members_of, play};
use crate::scene::{Caller, Form, MOST, Scene, narrow};
use crate::semaphores::{self, Worker, workers_of};
use saa_word_forms::rw_lock::{RwLock, RwLockWorker};
use saa_word_forms::testing::lock_of_rw_lock;
use saa_word_threads::lock::{Lock, Place as LockPlace};
use saa_word_threads::semaphore::{Place, Semaphore, Words};
use std::alloc::AllocGlobal;
use std::io;
use std::random::RandomSource;
use std::sync::{Mutex, Wait};
use std::thread::{self, Threads};
use std::time::Clock;
use test_language::language::{Call, Failed, Move, moves_of};
use test_language::reply::{ReplyWord, number, word};

// What the members of a story found: the first row that was answered otherwise.
type Found = Option<Failed<'static>>;

// The value that the guards of stories find first.
const VALUE: u64 = 5;

// The first that was found.
fn first_of(found: Vec<Found>) -> Found {
    for failed in found {
        if failed.is_some() {
            return failed;
        }
    }
    None
}

// The first row on the words and the value at the end that isn't so.
fn first_at_end(moves: &[Move<'static>], words: &Words, value: Option<u64>) -> Found {
    for row in moves {
        let place = row.call.room(0);
        let found = match row.call.verb {
            "main" => Some(words.main()),
            "line_word" => words.line(place),
            "answer_word" => words.answer(place),
            "value" => value,
            _ => continue,
        };
        let reply = match found {
            Some(found) => number(found as usize),
            None => word(ReplyWord::None),
        };
        let failed = Failed::unless(row, reply);
        if failed.is_some() {
            return failed;
        }
    }
    None
}

// One of the members plays: the first row that it found answered otherwise.
fn play_next<R: Wait + Clock, F: Form, C: Caller<R, F> + Drop>(
    scene: &Scene<'_, R, F>,
    members: &Mutex<Vec<Member<C>>>,
) -> Found {
    let member = members.lock(scene.rt).pop();
    match member {
        Some(member) => play(scene, member),
        None => None,
    }
}

// The members play, each on a thread of its own: the first row that was answered otherwise.
fn play_workers<R: Wait + Clock + Threads + Sync + AllocGlobal>(
    scene: &Scene<'_, R, Semaphore>,
    members: Vec<Member<Worker<'_, 63>>>,
) -> io::Result<Found> {
    let (rt, count, members) = (scene.rt, members.len(), Mutex::new(members));
    let found = thread::map_indices(rt, rt.alloc(), count, &|_thread| play_next(scene, &members))?;
    Ok(first_of(found))
}

fn play_owners<R: Wait + Clock + Threads + Sync + AllocGlobal>(
    scene: &Scene<'_, R, Lock>,
    members: Vec<Member<Owner<'_, R>>>,
) -> io::Result<Found> {
    let (rt, count, members) = (scene.rt, members.len(), Mutex::new(members));
    let found = thread::map_indices(rt, rt.alloc(), count, &|_thread| play_next(scene, &members))?;
    Ok(first_of(found))
}

fn play_guards<R: Wait + Clock + Threads + Sync + AllocGlobal>(
    scene: &Scene<'_, R, Lock>,
    members: Vec<Member<RwLockWorker<'_, u64>>>,
) -> io::Result<Found> {
    let (rt, count, members) = (scene.rt, members.len(), Mutex::new(members));
    let found = thread::map_indices(rt, rt.alloc(), count, &|_thread| play_next(scene, &members))?;
    Ok(first_of(found))
}

// A story at a semaphore that dealt these places.
fn with_workers<R: Wait + Clock + Threads + Sync + RandomSource + AllocGlobal>(
    rt: &R,
    host: HostRuntime,
    semaphore: &Semaphore,
    places: Vec<Place>,
    moves: &[Move<'static>],
) -> io::Result<Found>
    requires { All (IsDealtBy semaphore.now) places.items }
{
    let count = narrow(places.len());
    let scene = Scene::new(rt, host, semaphore, moves, count)?;
    let workers = workers_of(rt.alloc(), semaphore, places, count.min(MOST))?;
    let members = members_of(rt.alloc(), workers, count)?;
    play_workers(&scene, members)
}

fn at_semaphore<R: Wait + Clock + Threads + Sync + RandomSource + AllocGlobal>(
    rt: &R,
    host: HostRuntime,
    line: &Call<'_>,
    moves: &[Move<'static>],
) -> io::Result<Found> {
    let [withheld, _, _] = line.numbers();
    let count = line.room(1).saturating_add(1);
    let (semaphore, mut places) = Semaphore::new(rt.alloc(), withheld, count)?;
    let witness = semaphores::last_of(&semaphore, &mut places);
    let found = with_workers(rt, host, &semaphore, places, moves)?;
    let Some(witness) = witness else {
        return Ok(found);
    };
    let left = semaphore.leave(rt, witness);
    let words = semaphore.close(left);
    Ok(found.or(first_at_end(moves, &words, None)))
}

// The same at a lock.
fn with_owners<R: Wait + Clock + Threads + Sync + RandomSource + AllocGlobal>(
    rt: &R,
    host: HostRuntime,
    lock: &Lock,
    places: Vec<LockPlace>,
    moves: &[Move<'static>],
) -> io::Result<Found>
    requires { All (IsDealtByLock lock.now) places.items }
{
    let count = narrow(places.len());
    let scene = Scene::new(rt, host, lock, moves, count)?;
    let owners = owners_of(rt.alloc(), lock, &scene, places, count.min(MOST))?;
    let members = members_of(rt.alloc(), owners, count)?;
    play_owners(&scene, members)
}

fn at_lock<R: Wait + Clock + Threads + Sync + RandomSource + AllocGlobal>(
    rt: &R,
    host: HostRuntime,
    line: &Call<'_>,
    moves: &[Move<'static>],
) -> io::Result<Found> {
    let (lock, mut places) = Lock::new(rt.alloc(), line.room(0).saturating_add(1))?;
    let witness = locks::last_of(&lock, &mut places);
    let found = with_owners(rt, host, &lock, places, moves)?;
    let Some(witness) = witness else {
        return Ok(found);
    };
    let left = lock.leave(rt, witness);
    let words = lock.close(left);
    Ok(found.or(first_at_end(moves, &words, None)))
}

// At a reader-writer lock with two workers, and one that leaves at the end.
fn at_rw_lock<R: Wait + Clock + Threads + Sync + RandomSource + AllocGlobal>(
    rt: &R,
    host: HostRuntime,
    moves: &[Move<'static>],
) -> io::Result<Found> {
    let (rwlock, mut places) = RwLock::new(rt.alloc(), VALUE, 3)?;
    let (Some(witness), Some(second), Some(first)) = (places.pop(), places.pop(), places.pop())
    else {
        unreachable!()
    };
    let mut workers = Vec::new(rt.alloc());
    workers.push(rwlock.worker(second))?;
    workers.push(rwlock.worker(first))?;
    let found = with_rw_lock(rt, host, lock_of_rw_lock(&rwlock), workers, moves)?;
    let left = rwlock.worker(witness).leave(rt);
    let (value, words) = rwlock.close(left);
    Ok(found.or(first_at_end(moves, &words, Some(value))))
}

fn with_rw_lock<R: Wait + Clock + Threads + Sync + RandomSource + AllocGlobal>(
    rt: &R,
    host: HostRuntime,
    lock: &Lock,
    workers: Vec<RwLockWorker<'_, u64>>,
    moves: &[Move<'static>],
) -> io::Result<Found> {
    let scene = Scene::new(rt, host, lock, moves, 2)?;
    let members = members_of(rt.alloc(), workers, 2)?;
    play_guards(&scene, members)
}

/// The first row of these stories that is answered otherwise.
pub fn first_failed<R: Wait + Clock + Threads + Sync + RandomSource + AllocGlobal>(
    rt: &R,
    host: HostRuntime,
    stories: &'static str,
) -> io::Result<Found> {
    for story in stories.split("\n\n") {
        let moves = moves_of(rt.alloc(), story)?;
        let Some((first, rows)) = moves.split_first() else {
            continue;
        };
        let found = match first.call.verb {
            "semaphore" => at_semaphore(rt, host, &first.call, rows)?,
            "lock" => at_lock(rt, host, &first.call, rows)?,
            _ => at_rw_lock(rt, host, rows)?,
        };
        if found.is_some() {
            return Ok(found);
        }
    }
    Ok(None)
}
