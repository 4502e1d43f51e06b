//! How often a call looks and yields that can't have what it asks for, before it registers or parks.

ghost use Rattle.std.specs.Prelude.{◌≡◌, ◌≤◌, ◌<◌, ◌+◌, ◌-◌, ◌^◌, min};
ghost use Rattle.saa_core_waits.specs.declared.spin_policy.Rest.TheVariants.{Spins, Yields};
ghost use Rattle.saa_core_waits.specs.SpinPolicies.{hints_of};

/// How often a call looks, and then yields, before it does what costs more.
///
/// A call that isn't registered yet has one, at a form that is made with one or at a word: it looks, tries where what it
/// asks for may be there, and registers once its spins are over. With 0 of both it registers at its first step there, so that
/// grants come in the order of these steps, which is no order of calls.
#[derive(Clone, Copy, Debug, Eq, PartialEq)]
pub struct SpinPolicy {
    /// How often it looks, before it begins to yield.
    pub looks: u32,
    /// How often it yields after that.
    pub yields: u32,
}

/// The spin policy of a lock's call that isn't registered yet, where it has no other. A semaphore's has [`NONE`].
///
/// The rests between the looks are 10,232 spin hints, 50 to 60 microseconds on the machines where that was measured; a yield lasts as
/// long as the scheduler makes it. Measured with 2, 4 and 8 threads on 4 processors: where turns take a microsecond or less, mostly no
/// queue forms. With more looks turns of a microsecond cost a few per cent less, and a call that finds others at the lock again and again
/// waits longer before it registers.
pub const DEFAULT: SpinPolicy = SpinPolicy {
    looks: 16,
    yields: 100,
};

/// Registers at the call's first step at the form: grants come in the order of these steps.
pub const NONE: SpinPolicy = SpinPolicy {
    looks: 0,
    yields: 0,
};

/// What a call does between two looks.
#[derive(Clone, Copy, Debug, Eq, PartialEq)]
pub enum Rest {
    /// It gives so many spin hints.
    Spins(u32),
    /// It yields once.
    Yields,
}

impl SpinPolicy {
    /// How often a call looks in all, `u32::MAX` times at most.
    pub fn turns(self) -> u32
        ensures { result ≡ min (self.looks + self.yields) (2 ^ 32 - 1) }
    {
        self.looks.saturating_add(self.yields)
    }

    /// How it rests after a look, by its number from 0; it yields after the last ones.
    ///
    /// Each rest is longer than the one before, up to a bound, since each look takes the hint's cache line, or the word's, from the task that has its turn:
    /// with looks that follow one another at once, four threads took twice as long for their turns.
    pub fn rest(self, turn: u32) -> Rest
        ensures looks { turn < self.looks → result ≡ Spins (hints_of turn) }
        ensures yields { self.looks ≤ turn → result ≡ Yields }
    {
        if turn < self.looks {
            Rest::Spins(hints_of(turn))
        } else {
            Rest::Yields
        }
    }
}

/// The spin hints of a rest, by its number from 0: 8, and twice as many each time, up to 1,024.
pub fn hints_of(turn: u32) -> u32
    ensures { result ≡ hints_of turn }
{
    8 << turn.min(7)
}
