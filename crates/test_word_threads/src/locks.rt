//! The word's lock in stories: the calls of its places, and of visitors.

ghost use Rattle.std.specs.Prelude.{All, IfSome};
ghost use Rattle.saa_word_threads.specs.Locks.{IsDealtBy};

use crate::scene::{At, Caller, Form, Scene, narrow};
use crate::turns::mode_of;
use futures::Future;
use futures::task::{Context, Poll};
use saa_word_threads::lock::{Error, Lock, Mode, Place};
use saa_word_threads::testing::{
    Limit, is_answered, is_parked, may_exchange, poll_task_watched, poll_within,
    register_with_policy, release_share_watched, try_share_watched, wait_with_policy,
};
use std::alloc::{AllocError, Global};
use std::sync::Wait;
use std::sync::atomic::{AtomicUsize, Ordering};
use std::time::{Clock, Duration, Instant};
use test_language::language::{Call, Time};
use test_language::reply::{Replies, Reply, ReplyWord, unknown, word};

// Time that is up once it was asked for so often.
#[derive(Drop)]
struct Asked {
    left: AtomicUsize,
}

impl Limit for Asked {
    fn left(&self) -> Option<Duration> {
        let left = self.left.load(Ordering::SeqCst);
        if left == 0 {
            return None;
        }
        self.left.store(left.saturating_sub(1), Ordering::SeqCst);
        Some(Duration::from_millis(1))
    }
}

/// A place, the lock that dealt it, and its story.
#[derive(Drop)]
pub struct Owner<'l, R> {
    lock: &'l Lock,
    scene: &'l Scene<'l, R, Lock>,
    number: usize,
    place: Place,
    ghost dealt: { IsDealtBy lock.now place },
}

impl Form for Lock {
    fn once<R: Wait>(&self, rt: &R, verb: &str, _count: usize) -> Reply {
        match verb {
            "try_lock" => self.try_lock_once(rt).0.reply(),
            "try_share" => self.try_share_once(rt).0.reply(),
            "release_lock" => self.release_lock_once(rt).0.reply(),
            "release_share" => self.release_share_once(rt).0.reply(),
            "downgrade" => self.downgrade_once(rt).0.reply(),
            "poison" => self.poison_lock_once(rt).0.reply(),
            "clear" => self.clear_poison_once(rt).0.reply(),
            "is_free" => self.is_free_once().0.reply(),
            "is_locked" => self.is_locked_once().0.reply(),
            "is_shared" => self.is_shared_once().0.reply(),
            "is_poisoned" => self.is_poisoned_once().0.reply(),
            "may_exchange" => may_exchange(self).reply(),
            // Takes a share and gives it back; whether it is granted.
            "pass" => {
                (self.try_share_once(rt).0.is_ok() && self.release_share_once(rt).0).reply()
            }
            _ => unknown(),
        }
    }

    fn is_marked(&self, place: usize) -> bool {
        is_parked(self, narrow(place))
    }

    fn is_answered(&self, place: usize) -> Option<bool> {
        Some(is_answered(self, narrow(place)))
    }

    fn let_all_go<R: Wait>(&self, rt: &R) {
        for _share in 0..Lock::MAX_SHARED_OWNERS {
            let _was_shared = self.release_share_once(rt);
        }
        let _was_free = self.try_lock_once(rt);
        let _was_owned = self.poison_lock_once(rt);
    }
}

// Makes a call of a place that the lock dealt.
fn make<R: Wait>(rt: &R, lock: &Lock, place: &mut Place, call: &Call<'_>) -> Reply
    requires { IsDealtBy lock.now place.old }
    ensures { IsDealtBy lock.now place.new }
{
    match call.verb {
        "try_lock" => lock.try_lock(rt, place).reply(),
        "try_share" => lock.try_share(rt, place).reply(),
        "lock" => lock.lock(rt, place).reply(),
        "share" => lock.share(rt, place).reply(),
        "release_lock" => lock.release_lock(rt, place).reply(),
        "release_share" => lock.release_share(rt, place).reply(),
        "downgrade" => lock.downgrade(rt, place).reply(),
        "register" => lock.register(rt, place, call.mode).reply(),
        "try_poll" => lock.try_poll(place).reply(),
        "poll" => lock.poll(rt, place).reply(),
        "cancel" => {
            lock.cancel(rt, place);
            word(ReplyWord::Done)
        }
        "is_free" => lock.is_free(place).reply(),
        "is_locked" => lock.is_locked(place).reply(),
        "is_shared" => lock.is_shared(place).reply(),
        "is_poisoned" => lock.is_poisoned(place).reply(),
        "poison" => lock.poison_lock(rt, place).reply(),
        "clear" => lock.clear_poison(rt, place).reply(),
        _ => unknown(),
    }
}

// Makes a call that is watched, or may be timed.
fn make_at<R: Wait + Clock>(
    at: &At<'_, R, Lock>,
    lock: &Lock,
    place: &mut Place,
    call: &Call<'_>,
) -> Reply
    requires { IsDealtBy lock.now place.old }
    ensures { IsDealtBy lock.now place.new }
{
    let rt = at.scene.rt;
    let spin_policy = at.scene.spin_policy();
    match (call.verb, call.time) {
        ("watched_try_share", _) => try_share_watched(lock, rt, at, place).reply(),
        ("watched_release_share", _) => release_share_watched(lock, rt, at, place).reply(),
        ("watched_register", _) => {
            register_with_policy(lock, rt, at, place, call.mode, spin_policy).reply()
        }
        ("watched_wait", _) => {
            wait_with_policy(lock, rt, at, place, call.mode, spin_policy).reply()
        }
        ("poll_within", _) => {
            let limit = Asked {
                left: AtomicUsize::new(call.number().unwrap_or(0)),
            };
            poll_within(lock, rt, at, place, &limit).reply()
        }
        ("poll_for", Time::Lasts(long)) => lock.poll_for(rt, place, long).reply(),
        ("poll_now", _) => match Instant::now(rt) {
            Ok(now) => lock.poll_until(rt, place, now).reply(),
            Err(_unread) => unknown(),
        },
        _ => make(rt, lock, place, call),
    }
}

impl<R: Wait> Future for Owner<'_, R> {
    type Output = Result<bool, Error>;

    fn poll(&mut self, cx: &mut Context<'_>) -> Poll<Result<bool, Error>> {
        let watch = At {
            scene: self.scene,
            place: self.number,
        };
        poll_task_watched(self.lock, &watch, &mut self.place, cx)
    }
}

impl<R: Wait + Clock> Caller<R, Lock> for Owner<'_, R> {
    fn make(&mut self, at: &At<'_, R, Lock>, call: &Call<'_>) -> Reply {
        if call.verb == "poll_task" {
            return at.scene.task(call.task).poll(self).reply();
        }
        let mut call = *call;
        if call.verb == "register_each" {
            call.verb = "register";
            call.mode = mode_of(self.number);
        }
        make_at(at, self.lock, &mut self.place, &call)
    }

    fn leave(self, rt: &R) {
        let Owner {
            lock,
            scene: _,
            number: _,
            place,
        } = self;
        let _left = lock.leave(rt, place);
    }
}

/// Takes the last of the places that a lock dealt, which has the greatest number.
pub fn last_of(lock: &Lock, places: &mut Vec<Place>) -> Option<Place>
    requires { All (IsDealtBy lock.now) places.old.items }
    ensures rest { All (IsDealtBy lock.now) places.new.items }
    ensures last { IfSome result (λ place. IsDealtBy lock.now place) }
{
    let _shared = lock;
    places.pop()
}

/// An owner at so many of the last places that a lock dealt, the last first.
pub fn owners_of<'l, R>(
    alloc: Global,
    lock: &'l Lock,
    scene: &'l Scene<'l, R, Lock>,
    mut places: Vec<Place>,
    count: u16,
) -> Result<Vec<Owner<'l, R>>, AllocError>
    requires { All (IsDealtBy lock.now) places.items }
{
    let mut owners = Vec::new(alloc);
    let mut number = places.len();
    for _place in 0..count {
        if let Some(place) = last_of(lock, &mut places) {
            number = number.saturating_sub(1);
            owners.push(Owner {
                lock,
                scene,
                number,
                place,
            })?;
        }
    }
    Ok(owners)
}
