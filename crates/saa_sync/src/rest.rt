//! The two rests of a thread that stays awake, and what a call spends on them.
//!
//! A rest makes a token, which only the functions here can make and which can't be dropped. So what is counted is what was made, and a
//! rest that isn't counted doesn't compile. That `spin` gives the hint and `give_way` yields is read off their bodies: one line each.

use saa_core_waits::spin_policy::Rest;
use std::hint::spin_loop;
use std::marker::PhantomData;
use std::thread::yield_now;

/// Says that a spin hint was given; only that makes one.
struct Spun {
    by: PhantomData<()>,
}

/// Says that a thread yielded; only that makes one.
struct Yielded {
    by: PhantomData<()>,
}

/// Gives one spin hint.
#[inline(always)]
fn spin() -> Spun {
    spin_loop();
    Spun { by: PhantomData }
}

/// Yields once.
#[inline(always)]
fn give_way() -> Yielded {
    yield_now();
    Yielded { by: PhantomData }
}

impl Spun {
    /// How many spin hints there are with this one. It wraps around.
    #[inline(always)]
    fn count(self, before: u32) -> u32 {
        let Spun { by: _by } = self;
        before.wrapping_add(1)
    }
}

impl Yielded {
    /// How many yields there are with this one. It wraps around.
    #[inline(always)]
    fn count(self, before: u32) -> u32 {
        let Yielded { by: _by } = self;
        before.wrapping_add(1)
    }
}

/// What a call spent where it stayed awake, which tests read. A rest is counted by the token that it was made.
#[derive(Drop)]
pub(crate) struct Spent {
    looks: u32,
    spins: u32,
    yields: u32,
}

impl Spent {
    /// Nothing yet.
    pub(crate) fn new() -> Self {
        Spent {
            looks: 0,
            spins: 0,
            yields: 0,
        }
    }

    /// How often it looked, how many spin hints it gave, and how often it yielded.
    pub(crate) fn counts(&self) -> (u64, u64, u64) {
        (
            u64::from(self.looks),
            u64::from(self.spins),
            u64::from(self.yields),
        )
    }

    /// Counts a look.
    pub(crate) fn look(&mut self) {
        self.looks = self.looks.wrapping_add(1);
    }

    /// Adds what another call spent. Each count wraps around.
    pub(crate) fn add(&mut self, other: &Spent) {
        self.looks = self.looks.wrapping_add(other.looks);
        self.spins = self.spins.wrapping_add(other.spins);
        self.yields = self.yields.wrapping_add(other.yields);
    }

    /// Rests between two looks.
    pub(crate) fn rest(&mut self, rest: Rest) {
        match rest {
            Rest::Spins(hints) => {
                for _hint in 0..hints {
                    self.spin();
                }
            }
            Rest::Yields => self.give_way(),
        }
    }

    /// Gives one spin hint.
    pub(crate) fn spin(&mut self) {
        self.spins = spin().count(self.spins);
    }

    /// Yields once.
    pub(crate) fn give_way(&mut self) {
        self.yields = give_way().count(self.yields);
    }
}
