//! A semaphore and a lock are closed with all their places, of which some waited, and by a visitor. The words are those of what was held. On receipts they are
//! closed by the forms above (`test_lock_free`).

ghost use Rattle.std.specs.Prelude.{All};
ghost use Rattle.saa_word_threads.specs.Semaphores.{IsDealtBy, IsLeftOf};

use saa_word_threads::lock::Lock;
use saa_word_threads::semaphore::{Left, Place, Semaphore};
use std::alloc::{AllocError, AllocGlobal};
use std::sync::Wait;
use test_asserts::same;

// A place leaves a semaphore, beside others that have left it.
fn leave(
    rt: &impl Wait,
    semaphore: &Semaphore,
    place: Place,
    lefts: &mut Vec<Left>,
) -> Result<(), AllocError>
    requires dealt { IsDealtBy semaphore.now place }
    requires ours { All (IsLeftOf semaphore.now) lefts.old.items }
    ensures ours { All (IsLeftOf semaphore.now) lefts.new.items }
{
    lefts.push(semaphore.leave(rt, place))?;
    Ok(())
}

// A place waits behind another one, which then gives back what it took: its answer is given back as it leaves. Whether each call is made, and the main word.
fn with_places<R: Wait + AllocGlobal>(rt: &R) -> Result<([bool; 3], u64), AllocError> {
    let (semaphore, mut places) = Semaphore::new(rt.alloc(), 5, 2)?;
    let (Some(mut second), Some(mut first)) = (places.pop(), places.pop()) else {
        unreachable!()
    };
    let answers = [
        semaphore.try_acquire_many(rt, &mut first, 50),
        semaphore.register(rt, &mut second, 20),
        semaphore.release_many(rt, &mut first, 30),
    ];
    let mut lefts = Vec::new(rt.alloc());
    leave(rt, &semaphore, second, &mut lefts)?;
    leave(rt, &semaphore, first, &mut lefts)?;
    Ok((answers, semaphore.close_all(lefts).main()))
}

// The same of a place that has a share of a lock.
fn with_one_place<R: Wait + AllocGlobal>(rt: &R) -> Result<(bool, u64), AllocError> {
    let (lock, mut places) = Lock::new(rt.alloc(), 1)?;
    let Some(mut place) = places.pop() else {
        unreachable!()
    };
    let is_shared = lock.try_share(rt, &mut place).is_ok();
    let mut lefts = Vec::new(rt.alloc());
    lefts.push(lock.leave(rt, place))?;
    Ok((is_shared, lock.close_all(lefts).main()))
}

// Calls by one visitor, which is the witness as the semaphore is closed: what they answer, and the main word then.
fn by_visitor<R: Wait + AllocGlobal>(rt: &R) -> Result<([bool; 4], u64), AllocError> {
    let (semaphore, _places) = Semaphore::new(rt.alloc(), 5, 0)?;
    let mut visitor = semaphore.visit();
    let answers = [
        semaphore.try_acquire_many_by(rt, &mut visitor, 50),
        semaphore.try_acquire_many_by(rt, &mut visitor, 9),
        semaphore.release_many_by(rt, &mut visitor, 30),
        semaphore.try_acquire_many_by(rt, &mut visitor, 9),
    ];
    Ok((answers, semaphore.close_by(visitor).main()))
}

#[test]
fn closes_with_all_places_and_by_a_visitor(rt: HostRuntime) {
    // 5 are withheld, and 20 are out.
    same!(rt; with_places(&rt).ok(), Some(([true; 3], 25)));
    // One share is out.
    same!(rt; with_one_place(&rt).ok(), Some((true, 1)));
    // 5 are withheld, and 50 less 30, and 9, are out.
    same!(rt; by_visitor(&rt).ok(), Some(([true, false, true, true], 34)));
}
