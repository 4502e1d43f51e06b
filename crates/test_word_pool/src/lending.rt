//! All values of a pool are taken, each once, and then none; the one that is given back is taken again; threads never hold one value at once; and what is
//! taken out of a pool with a rule belongs to it.
//!
//! Every test joins its threads and ends by itself.

use crate::held::{Held, Numbers, count_at_end, numbers, take_all, take_one};
use saa_word_pool::{Pool, PoolRule};
use std::alloc::{AllocError, Global};
use std::sync::Wait;
use std::sync::atomic::AtomicBool;
use std::sync::atomic::Ordering::SeqCst;
use std::test::Fail;
use std::thread;
use test_asserts::{holds, same};

// Pools of no value, of one, of a few, and of as many as there can be; and again after all are given back.
#[test]
fn each_is_taken_once_and_then_none(rt: HostRuntime) -> Result<(), Fail> {
    for count in [0u16, 1, 2, 63, 64, 65, 128, 4096, 4097, u16::MAX] {
        let pool = numbers(rt.alloc(), count)?;
        for _round in 0..2 {
            let taken = take_all(&rt, rt.alloc(), &pool)?;
            same!(rt; taken.len(), usize::from(count));
            let sum: u64 = taken
                .iter()
                .fold(0u64, |sum, held| sum.wrapping_add(held.number()));
            let wanted = u64::from(count) * u64::from(count.saturating_sub(1)) / 2;
            same!(rt; sum, wanted);
        }
        same!(rt; count_at_end(rt.alloc(), pool)?, usize::from(count));
    }
    Ok(())
}

// Gives back one of all that are out, and takes one again: whether it is that one.
fn is_taken_again<'p, R: Wait>(
    rt: &R,
    pool: &'p Numbers,
    taken: &mut Vec<Held<'p>>,
    index: usize,
) -> Result<bool, AllocError> {
    if index >= taken.len() {
        return Ok(false);
    }
    let given = taken.remove(index);
    let number = given.number();
    drop(given);
    let Some(again) = take_one(rt, pool) else {
        return Ok(false);
    };
    let is_same = again.number() == number;
    taken.push(again)?;
    Ok(is_same)
}

// Two of three values, in every order.
#[test]
fn the_one_that_is_given_back_is_taken(rt: HostRuntime) -> Result<(), Fail> {
    for order in 0..9usize {
        let pool = numbers(rt.alloc(), 3)?;
        let mut taken = take_all(&rt, rt.alloc(), &pool)?;
        for index in [order / 3, order % 3] {
            holds!(rt; is_taken_again(&rt, &pool, &mut taken, index)?);
        }
        holds!(rt; take_one(&rt, &pool).is_none());
    }
    Ok(())
}

// Takes and gives 2,000 times, and counts how often another thread had the same number.
fn clashes<R: Wait>(rt: &R, pool: &Numbers, in_use: &[AtomicBool]) -> u32 {
    let mut clashes = 0u32;
    for _turn in 0..2000 {
        if let Some(held) = take_one(rt, pool) {
            let number = held.number() as usize;
            if number < in_use.len() {
                if in_use[number].swap(true, SeqCst) {
                    clashes = clashes.wrapping_add(1);
                }
                in_use[number].store(false, SeqCst);
            }
            drop(held);
        }
    }
    clashes
}

fn flags(alloc: Global, count: u16) -> Result<Vec<AtomicBool>, AllocError> {
    let mut flags = Vec::new(alloc);
    for _flag in 0..count {
        flags.push(AtomicBool::new(false))?;
    }
    Ok(flags)
}

#[test]
fn threads_never_hold_one_number_at_once(rt: HostRuntime) -> Result<(), Fail> {
    for count in [1u16, 3, 70] {
        let pool = numbers(rt.alloc(), count)?;
        let in_use = flags(rt.alloc(), count)?;
        let in_use = in_use.as_slice();
        let both = thread::join(
            &rt,
            || clashes(&rt, &pool, in_use),
            || clashes(&rt, &pool, in_use),
        );
        same!(rt; both, (0, 0));
        same!(rt; count_at_end(rt.alloc(), pool)?, usize::from(count));
    }
    Ok(())
}

// Numbers below the key.
struct Below;

impl PoolRule<u64, u64> for Below {
    ghost use Rattle.std.specs.Prelude.{◌<◌};

    ghost belongs = { λ key value. value < key };
}

// A number that is taken out is an index of an array that is as long as the key says; one that is changed is given back while it is below the key.
#[test]
fn what_is_taken_out_belongs(rt: HostRuntime) -> Result<(), Fail> {
    let letters = [b'a', b'b', b'c'];
    let values = Vec::from_elem(rt.alloc(), 2u64, 1)?;
    let pool: Pool<u64, u64, Below> = Pool::new(rt.alloc(), values, &3)?;
    match pool.take(&rt) {
        Ok(mut borrowed) => {
            same!(rt; letters[borrowed.value as usize], b'c');
            borrowed.value = 1;
            drop(pool.give(borrowed));
        }
        Err(all_out) => {
            drop(all_out);
            holds!(rt; false);
        }
    }
    let room = Vec::with_capacity(rt.alloc(), usize::from(pool.places()))?;
    same!(rt; pool.close(room).as_slice(), [1u64].as_slice());
    Ok(())
}
