//! The one form of both primitives: a word form, and the pool in which its places rest.
//!
//! A call that needn't wait is made by a visitor, and takes no place. One that has to wait takes a place out of the pool, and gives it back with the answer
//! or with the cancel; where none is in it is refused, `Full`. So any number of tasks use a form, and as many wait at once as it has places.

ghost use Rattle.std.specs.Prelude.{◌≡◌, ◌<◌, All, IfErr, IfOk, vec_len};
ghost use Rattle.saa_word_lock_free.specs.Places.{RestsAt};

use crate::word_form::WordForm;
use saa_core_waits::SpinPolicy;
use saa_word_pool::{AllOut, Borrowed, Pool, PoolRule};
use std::alloc::{AllocError, Global};
use std::marker::{Model, PhantomData};
use std::sync::Wait;

/// What rests in the pool of a form.
pub struct AtRest<W> {
    word: PhantomData<W>,
}

impl<W: WordForm> PoolRule<W::Place, W> for AtRest<W> {
    ghost belongs = { RestsAt W.table W.home W.rests };
}

/// A place that is out of the pool.
pub type BorrowedPlace<P, W> = Borrowed<P, W>;

/// The witness that all places were out of the pool.
pub type NoPlace<P, W> = AllOut<P, W>;

/// A primitive in one atomic word, which any task uses by `&self`, and the room of its waiters.
///
/// Programs name it by its word: [`Semaphore`](crate::semaphore::Semaphore), [`SemaphoreOf`](crate::semaphore::SemaphoreOf) with a bound of its own, and
/// [`Lock`](crate::lock::Lock). `R` is the permission to block, and `W` the word.
#[derive(Drop)]
pub struct Form<R: Wait + Drop, W: WordForm> {
    // (open to the crate, since `close` takes a form apart)
    pub(crate) rt: R,
    pub(crate) word: W,
    pub(crate) places: Pool<W::Place, W, AtRest<W>>,
    // How often a call that may block looks, at its place, before that joins the queue.
    pub(crate) spin_policy: SpinPolicy,
}

impl<R: Wait + Drop, W: WordForm> Model for Form<R, W> {
    ghost use Rattle.std.specs.Prelude.{◌≡◌};
    ghost use Rattle.saa_word_pool.specs.Pools.{key_of};
    ghost use Rattle.saa_word_lock_free.specs.Forms.{FormState};

    ghost Value = { FormState W };

    ghost view = { λ form. record { word = form.word; spin_policy = form.spin_policy; pool = form.places.table.shared.table_id } };

    ghost invariant = { λ form. key_of form.places ≡ form.word };
}

impl<R: Wait + Drop, W: WordForm> Form<R, W> {
    ghost use Rattle.saa_word_lock_free.specs.Forms.{IsOut, IsRefusedBy};

    // The form of a word with these places, none of which is in use.
    pub(crate) fn of_word(
        rt: R,
        alloc: Global,
        word: W,
        places: Vec<W::Place>,
        spin_policy: SpinPolicy,
    ) -> Result<Self, AllocError>
        requires bounded { vec_len places < 65536 }
        requires ours { All (λ place. (W.home place ≡ W.table word) × W.rests place) places.items }
        ensures word { IfOk result (λ form. form.word ≡ word) }
        ensures spin_policy { IfOk result (λ form. form.spin_policy ≡ spin_policy) }
    {
        let places = Pool::new(alloc, places, &word)?;
        Ok(Form {
            rt,
            word,
            places,
            spin_policy,
        })
    }

    /// For how many waiters there are places: the room that it was made with. Costs no step at the word.
    pub fn room(&self) -> usize {
        usize::from(self.places.places())
    }

    // The permission to block.
    #[inline(always)]
    pub(crate) fn rt(&self) -> &R {
        &self.rt
    }

    // The word.
    #[inline(always)]
    pub(crate) fn word(&self) -> &W
        ensures { result.now ≡ self.now.word }
    {
        &self.word
    }

    // How often a call that may block looks before its place joins the queue.
    pub(crate) fn spin_policy(&self) -> SpinPolicy
        ensures { result ≡ self.now.spin_policy }
    {
        self.spin_policy
    }

    // Takes a place out of the pool; it is registered as nothing.
    pub(crate) fn borrow(&self) -> Result<BorrowedPlace<W::Place, W>, NoPlace<W::Place, W>>
        ensures out { IfOk result (λ borrowed. IsOut W.table W.home self.now borrowed × W.rests borrowed.value) }
        ensures refused { IfErr result (λ no_place. IsRefusedBy self.now no_place) }
    {
        self.places.take(&self.rt)
    }

    // Gives a place back to the pool.
    pub(crate) fn give(&self, borrowed: BorrowedPlace<W::Place, W>)
        requires out { IsOut W.table W.home self.now borrowed }
        requires rests { W.rests borrowed.value }
    {
        let _receipt = self.places.give(borrowed);
    }
}
