//! The table of a pool: what is always so of its words, its slots and its seats, and what each step tells.

use atomic_table::{Play, TableRule};
use std::marker::PhantomData;

/// Which values may lie in a pool, by the key that is fixed when it is made.
pub trait PoolRule<T, K> {
    ghost belongs: { K → T → Type 0 };
}

/// Any value may lie in the pool.
pub struct AnyValue;

impl<T> PoolRule<T, ()> for AnyValue {
    ghost use Rattle.std.specs.Prelude.{⊤};

    ghost belongs = { λ key value. ⊤ };
}

/// How far a call has come: it has taken nothing yet; it was refused, since all were out; it has taken one from the count and none out of a slot yet;
/// it has the value of this slot; it has put that back and not counted it yet; it has given it back. No value of it is made.
pub enum Part {
    Coming,
    Refused,
    Reserved,
    Holding(u16),
    Returning,
    Returned,
}

/// What a seat of the table knows: the key, and how far its call has come. No value of it is made.
pub struct View<K> {
    pub key: K,
    pub part: Part,
}

/// The rule of a pool.
pub struct Resting<P> {
    rule: PhantomData<P>,
}

impl<T, K, P: PoolRule<T, K>> TableRule<Option<T>, View<K>, K> for Resting<P> {
    ghost use Rattle.saa_word_pool.specs.Kept.{IsPool, coming};

    ghost holds = { λ key. IsPool (P.belongs key) };

    ghost first = { coming };
}

/// A call comes, and looks at the count.
pub(crate) struct Looked;

impl<T, K> Play<Option<T>, View<K>> for Looked {
    ghost use Rattle.saa_word_pool.specs.Kept.{HasLooked};

    ghost then = { λ step before found after. HasLooked before.0.key found after };
}

/// A call takes one from the count, if the count is what it has seen.
pub(crate) struct Counted;

impl<T, K> Play<Option<T>, View<K>> for Counted {
    ghost use Rattle.saa_word_pool.specs.Kept.{HasCounted};

    ghost then = { λ step before found after. HasCounted before.0.key step.first found after };
}

/// A call takes what is at home in a slot.
pub(crate) struct Taken<P> {
    rule: PhantomData<P>,
}

impl<T, K, P: PoolRule<T, K>> Play<Option<T>, View<K>> for Taken<P> {
    ghost use Rattle.saa_word_pool.specs.Kept.{HasTaken};

    ghost then = { λ step before found after. HasTaken P.belongs before step.word found after };
}

/// A value is put back into its slot.
pub(crate) struct PutBack;

impl<T, K> Play<Option<T>, View<K>> for PutBack {
    ghost use Rattle.saa_word_pool.specs.Kept.{HasPutBack};

    ghost then = { λ step before found after. HasPutBack before.0.key after };
}

/// A value that is in its slot again is counted.
pub(crate) struct CountedBack;

impl<T, K> Play<Option<T>, View<K>> for CountedBack {
    ghost use Rattle.saa_word_pool.specs.Kept.{HasCountedBack};

    ghost then = { λ step before found after. HasCountedBack before.0.key after };
}
