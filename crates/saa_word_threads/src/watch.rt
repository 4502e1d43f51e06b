//! What a call tells its watch, and the pauses that it makes.
//!
//! Each moment is told by the thread that makes the call. So a test can count moments, and hold a call at one. No step rests on it, and
//! with no watch it costs nothing.
//!
//! A call makes each of its pauses by `Pause::make`, which makes it and then tells it by a `Made`, which nothing else makes. So a call can't tell of a pause
//! that it leaves out, no watch can leave one out, and what a test counts is what a call rests with no watch. That a pause which is made lasts is
//! read off the body of `make`.

use saa_core_waits::spin_policy::Rest;
use std::hint::spin_loop;
use std::thread::yield_now;

/// A moment of a call, as its watch is told it.
#[derive(Clone, Copy, PartialEq)]
pub enum Moment {
    /// A place that asks is about to look at the main word.
    Looks,
    /// It is about to exchange the main word that it has looked at.
    Takes,
    /// The flag's holder is about to publish what a walk has granted, by an exchange or an addition.
    Publishes,
    /// A step, or a look at the place's own answer word, has found that another place must move first.
    IsBlocked,
    /// A waiter is about to look at its answer word.
    LooksForAnswer,
    /// A waiter has found no answer, and is about to park. Its mark is set.
    Parks,
    /// A waiter has come back from parking.
    IsBack,
    /// A task that polls has found no answer, and is about to leave its waker.
    Keeps,
    /// It has left its waker, or is woken at once, and is about to look for its answer.
    Polls,
    /// An answer is about to be written for this place.
    Writes(u16),
    /// An answer was written for this place, which isn't woken yet.
    Answers(u16),
    /// This place may be parked, or a task polls there, and is about to be woken.
    Wakes(u16),
}

/// A pause of a call, beside parking.
#[derive(Clone, Copy, PartialEq)]
pub enum Pause {
    /// A place that asks couldn't have what it asks for, and rests for so many turns before it looks again.
    Rests(u32),
    /// It couldn't have what it asks for, and yields before it looks again.
    Yields,
    /// A place whose step is blocked yields, since another one holds the flag.
    Defers,
    /// A waiter has found no answer, and spins for one turn.
    SpinsForAnswer,
    /// A waiter has found no answer, and yields.
    YieldsForAnswer,
}

/// Says that a pause was made; only [`Pause::make`] makes one.
#[derive(Drop)]
pub struct Made {
    pause: Pause,
}

impl Made {
    /// Which it was.
    #[inline(always)]
    pub fn pause(&self) -> Pause {
        self.pause
    }
}

impl Pause {
    // The pause of a call between two looks.
    pub(crate) fn of(rest: Rest) -> Pause {
        match rest {
            Rest::Spins(hints) => Pause::Rests(hints),
            Rest::Yields => Pause::Yields,
        }
    }

    /// Makes it, and then tells it.
    #[inline(always)]
    pub fn make<W: Watch>(self, watch: &W) {
        match self {
            Pause::Rests(turns) => {
                for _turn in 0..turns {
                    spin_loop();
                }
            }
            Pause::SpinsForAnswer => spin_loop(),
            Pause::Yields | Pause::Defers | Pause::YieldsForAnswer => yield_now(),
        }
        watch.paused(&Made { pause: self });
    }
}

/// Is told what a call does as it is made.
pub trait Watch {
    /// Called at each moment.
    fn at(&self, moment: Moment);

    /// Called behind each pause of the call.
    #[inline(always)]
    fn paused(&self, _made: &Made) {}
}

/// No watch.
pub(crate) struct Unwatched;

impl Watch for Unwatched {
    #[inline(always)]
    fn at(&self, _moment: Moment) {}
}
