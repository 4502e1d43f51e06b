//! The word's semaphore in stories: the calls of its places, and of visitors.

ghost use Rattle.std.specs.Prelude.{All, IfSome};
ghost use Rattle.saa_word_threads.specs.Semaphores.{IsDealtBy};

use crate::scene::{At, Caller, Form, narrow};
use futures::Future;
use futures::task::{Context, Poll};
use saa_word_threads::semaphore::{Error, Place, SemaphoreOf};
use saa_word_threads::testing::{
    acquire_with_policy, cancel_watched, is_parked_at, release_watched,
};
use std::alloc::{AllocError, Global};
use std::sync::Wait;
use std::time::Clock;
use test_language::language::{Call, Time};
use test_language::reply::{Replies, Reply, ReplyWord, number, unknown, word};

/// A place, and the semaphore that dealt it.
#[derive(Drop)]
pub struct Worker<'s, const MAX: usize> {
    semaphore: &'s SemaphoreOf<MAX>,
    place: Place,
    ghost dealt: { IsDealtBy semaphore.now place },
}

impl<const MAX: usize> Form for SemaphoreOf<MAX> {
    fn once<R: Wait>(&self, rt: &R, verb: &str, count: usize) -> Reply {
        match verb {
            "try" => self.try_acquire_many_once(rt, count).0.reply(),
            "release" => self.release_many_once(rt, count).0.reply(),
            "available" => number(usize::from(self.available_permits_once().0)),
            "shut" => self.shut_once(rt).0.reply(),
            "is_shut" => self.is_shut_once().0.reply(),
            _ => unknown(),
        }
    }

    fn is_marked(&self, place: usize) -> bool {
        is_parked_at(self, narrow(place))
    }

    // It doesn't say.
    fn is_answered(&self, _place: usize) -> Option<bool> {
        None
    }

    fn let_all_go<R: Wait>(&self, rt: &R) {
        let _was_open = self.shut_once(rt);
    }
}

// Makes a call of a place that the semaphore dealt.
fn make<R: Wait, const MAX: usize>(
    rt: &R,
    semaphore: &SemaphoreOf<MAX>,
    place: &mut Place,
    call: &Call<'_>,
) -> Reply
    requires { IsDealtBy semaphore.now place.old }
    ensures { IsDealtBy semaphore.now place.new }
{
    let count = call.number().unwrap_or(0);
    match call.verb {
        "try" => semaphore.try_acquire_many(rt, place, count).reply(),
        "register" => semaphore.register(rt, place, count).reply(),
        "acquire" => semaphore.acquire_many(rt, place, count).reply(),
        "release" => semaphore.release_many(rt, place, count).reply(),
        "try_poll" => semaphore.try_poll(place).reply(),
        "poll" => semaphore.poll(rt, place).reply(),
        "cancel" => {
            semaphore.cancel(rt, place);
            word(ReplyWord::Done)
        }
        "available" => number(usize::from(semaphore.available_permits(place))),
        "shut" => semaphore.shut(rt, place).reply(),
        "is_shut" => semaphore.is_shut(place).reply(),
        other => semaphore.once(rt, other.strip_prefix("visit_").unwrap_or(""), count),
    }
}

// Makes a call that may be timed, or is watched.
fn make_at<R: Wait + Clock, const MAX: usize>(
    at: &At<'_, R, SemaphoreOf<MAX>>,
    semaphore: &SemaphoreOf<MAX>,
    place: &mut Place,
    call: &Call<'_>,
) -> Reply
    requires { IsDealtBy semaphore.now place.old }
    ensures { IsDealtBy semaphore.now place.new }
{
    let rt = at.scene.rt;
    let count = call.number().unwrap_or(0);
    match (call.verb, call.time) {
        ("poll_for", Time::Lasts(long)) => semaphore.poll_for(rt, place, long).reply(),
        ("watched_release", _) => release_watched(semaphore, rt, at, place, count).reply(),
        ("watched_cancel", _) => {
            cancel_watched(semaphore, rt, at, place);
            word(ReplyWord::Done)
        }
        ("watched_acquire", _) => {
            let spin_policy = at.scene.spin_policy();
            acquire_with_policy(semaphore, rt, at, place, count, spin_policy).reply()
        }
        _ => make(rt, semaphore, place, call),
    }
}

impl<const MAX: usize> Worker<'_, MAX> {
    /// Makes a call that is neither timed nor watched.
    pub fn call<R: Wait>(&mut self, rt: &R, call: &Call<'_>) -> Reply {
        make(rt, self.semaphore, &mut self.place, call)
    }
}

impl<const MAX: usize> Future for Worker<'_, MAX> {
    type Output = Result<(), Error>;

    fn poll(&mut self, cx: &mut Context<'_>) -> Poll<Result<(), Error>> {
        self.semaphore.poll_task(&mut self.place, cx)
    }
}

impl<R: Wait + Clock, const MAX: usize> Caller<R, SemaphoreOf<MAX>> for Worker<'_, MAX> {
    fn make(&mut self, at: &At<'_, R, SemaphoreOf<MAX>>, call: &Call<'_>) -> Reply {
        if call.verb == "poll_task" {
            return at.scene.task(call.task).poll(self).reply();
        }
        make_at(at, self.semaphore, &mut self.place, call)
    }

    fn leave(self, rt: &R) {
        let Worker { semaphore, place } = self;
        let _left = semaphore.leave(rt, place);
    }
}

/// Takes the last of the places that a semaphore dealt, which has the greatest number.
pub fn last_of<const MAX: usize>(
    semaphore: &SemaphoreOf<MAX>,
    places: &mut Vec<Place>,
) -> Option<Place>
    requires { All (IsDealtBy semaphore.now) places.old.items }
    ensures rest { All (IsDealtBy semaphore.now) places.new.items }
    ensures last { IfSome result (λ place. IsDealtBy semaphore.now place) }
{
    let _shared = semaphore;
    places.pop()
}

/// A worker at so many of the last places that a semaphore dealt, the last first.
pub fn workers_of<'s, const MAX: usize>(
    alloc: Global,
    semaphore: &'s SemaphoreOf<MAX>,
    mut places: Vec<Place>,
    count: u16,
) -> Result<Vec<Worker<'s, MAX>>, AllocError>
    requires { All (IsDealtBy semaphore.now) places.items }
{
    let mut workers = Vec::new(alloc);
    for _place in 0..count {
        if let Some(place) = last_of(semaphore, &mut places) {
            workers.push(Worker { semaphore, place })?;
        }
    }
    Ok(workers)
}
