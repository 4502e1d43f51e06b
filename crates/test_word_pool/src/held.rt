//! A number out of a pool, which goes back by itself.

ghost use Rattle.saa_word_pool.specs.Pools.{IsFrom};

use saa_word_pool::{AnyValue, Borrowed, Pool};
use std::alloc::{AllocError, Global};
use std::cell::Cell;
use std::sync::Wait;

/// A number in a cell, which threads can't share: a pool of it crosses threads nevertheless, since each value is with one of them at a time.
pub(crate) type Number = Cell<u64>;

/// A pool of numbers, in which any may lie.
pub(crate) type Numbers = Pool<Number, (), AnyValue>;

/// A number that is out, and the pool that it goes back to.
pub(crate) struct Held<'p> {
    pool: &'p Numbers,
    borrowed: Borrowed<Number, ()>,
    ghost ours: { IsFrom pool.now borrowed },
}

impl Held<'_> {
    /// The number.
    pub(crate) fn number(&self) -> u64 {
        self.borrowed.value.get()
    }
}

impl Drop for Held<'_> {
    fn drop(self) {
        let Held { pool, borrowed } = self;
        let receipt = pool.give(borrowed);
        drop(receipt);
    }
}

/// A pool of the numbers from 0 on.
pub(crate) fn numbers(alloc: Global, count: u16) -> Result<Numbers, AllocError> {
    let mut values = Vec::with_capacity(alloc, usize::from(count))?;
    for number in 0..count {
        values.push(Cell::new(u64::from(number)))?;
    }
    if values.len() > usize::from(u16::MAX) {
        return Err(AllocError);
    }
    Pool::new(alloc, values, &())
}

/// Takes a number out; `None` if all are out.
pub(crate) fn take_one<'p, R: Wait>(rt: &R, pool: &'p Numbers) -> Option<Held<'p>> {
    match pool.take(rt) {
        Ok(borrowed) => Some(Held { pool, borrowed }),
        Err(all_out) => {
            drop(all_out);
            None
        }
    }
}

/// Takes numbers out until none is in.
pub(crate) fn take_all<'p, R: Wait>(
    rt: &R,
    alloc: Global,
    pool: &'p Numbers,
) -> Result<Vec<Held<'p>>, AllocError> {
    let mut taken = Vec::new(alloc);
    for _turn in 0..u32::MAX {
        let Some(held) = take_one(rt, pool) else {
            break;
        };
        taken.push(held)?;
    }
    Ok(taken)
}

/// How many numbers are in at the end.
pub(crate) fn count_at_end(alloc: Global, pool: Numbers) -> Result<usize, AllocError> {
    let room = Vec::with_capacity(alloc, usize::from(pool.places()))?;
    Ok(pool.close(room).len())
}
