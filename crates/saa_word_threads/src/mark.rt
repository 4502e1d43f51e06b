//! The mark of each place, that it may be parked or that a task polls there, and the one look at it that decides a wake.
//!
//! A waiter sets its mark, and looks at its answer word for the last time as it parks; a task's waker is kept and its mark set before it looks. The call that
//! answers it writes that word, and then looks at the mark. So one of the two sees the other. The second order is kept by types: only `write` makes
//! a `Written`, in a module (`written`) that can't read a mark, and nothing but `wake` takes it. Beside that a place reads its own mark as its wait ends
//! (`forget`), and tests do.

ghost use Rattle.std.specs.Prelude.{◌≡◌, ◌+◌, ◌<◌, vec_len};

use crate::form::Form;
use crate::lock::Lock;
use crate::semaphore::SemaphoreOf;
use crate::watch::{Moment, Watch};
use crate::written::Written;
use std::sync::atomic::{AtomicU8, Ordering};

// What a mark says: its place may be parked, and a task may have polled there since it was registered.
const PARKED: u8 = 1;

const POLLED: u8 = 2;

/// Of each place whether it may be parked, and whether a task polls there.
#[derive(Drop)]
pub struct Marks {
    marks: Vec<AtomicU8>,
}

impl Marks {
    // These marks, of the places in the order of their numbers.
    pub(crate) fn of(marks: Vec<AtomicU8>) -> Marks
        ensures { result.marks ≡ marks }
    {
        Marks { marks }
    }

    // A place is about to park.
    pub(crate) fn set_parked(&self, place: usize)
        requires { place < vec_len self.now.marks }
    {
        self.marks[place].fetch_or(PARKED, Ordering::SeqCst);
    }

    // It is back.
    pub(crate) fn clear_parked(&self, place: usize)
        requires { place < vec_len self.now.marks }
    {
        self.marks[place].fetch_and(POLLED, Ordering::SeqCst);
    }

    // A task's waker is kept at a place.
    pub(crate) fn set_polled(&self, place: usize)
        requires { place < vec_len self.now.marks }
    {
        self.marks[place].fetch_or(POLLED, Ordering::SeqCst);
    }

    // It has gone.
    fn clear_polled(&self, place: usize)
        requires { place < vec_len self.now.marks }
    {
        self.marks[place].fetch_and(PARKED, Ordering::SeqCst);
    }

    // What the mark of the place of this number says. Nothing for a number of no place.
    fn at(&self, place: usize) -> u8 {
        match self.marks.get(place) {
            Some(mark) => mark.load(Ordering::SeqCst),
            None => 0,
        }
    }

    // Whether the place of this number may be parked, and whether a task polls there.
    fn is_parked(&self, place: usize) -> bool {
        self.at(place) & PARKED != 0
    }

    fn is_polled(&self, place: usize) -> bool {
        self.at(place) & POLLED != 0
    }
}

/// A wake. This module alone makes one, and so takes what was written.
#[derive(Drop)]
pub(crate) struct Wake {
    nothing: (),
}

impl Form {
    // Wakes the place whose answer word was written, where it may be parked there or a task polls for it.
    pub(crate) fn wake<W: Watch>(&self, watch: &W, written: Written)
        requires { written.index < self.now.places + self.now.places + 1 }
    {
        let index = written.taken_by(Wake { nothing: () });
        let places = usize::from(self.places);
        if index <= places {
            return;
        }
        let place = index - places - 1;
        watch.at(Moment::Answers(place as u16));
        let mark = self.marks.at(place);
        if mark == 0 {
            return;
        }
        watch.at(Moment::Wakes(place as u16));
        if mark & PARKED != 0 {
            self.table.shared.wake_one(self.cell(index));
        }
        if mark & POLLED != 0 {
            drop(self.wakers.take(place));
        }
    }

    // Drops the waker of a place that has its answer, or waits no more.
    pub(crate) fn forget(&self, me: u16)
        requires { me < self.now.places }
    {
        let place = usize::from(me);
        if self.marks.is_polled(place) {
            self.marks.clear_polled(place);
            drop(self.wakers.take(place));
        }
    }
}

/// Whether the place of this number is parked, or about to park: whether it has set its mark for that. `false` for a number of no place.
pub fn is_parked(lock: &Lock, place: u16) -> bool {
    lock.form.marks.is_parked(usize::from(place))
}

/// The same at a semaphore.
pub fn is_parked_at<const MAX: usize>(semaphore: &SemaphoreOf<MAX>, place: u16) -> bool {
    semaphore.form.marks.is_parked(usize::from(place))
}
