//! Assertions of tests whose proofs are short.
//!
//! An assertion of std writes a branch and both texts into the test at each place, and the test's proof grows with each. These write two
//! calls: a comparison, and the `expect` of what it found. One that fails names the line of the test and both values.
#![tactic(auto)]

ghost use Rattle.std.specs.Prelude.{◌≡◌, true, IsOk};

use std::fmt::Debug;

/// What was told isn't what was wanted.
#[derive(Debug, Drop)]
pub struct Differs<T> {
    /// What was told.
    pub told: T,
    /// What was wanted.
    pub wanted: T,
}

/// What had to be true is false.
#[derive(Clone, Copy, Debug)]
pub struct IsFalse;

/// Compares what was told with what was wanted.
pub fn compared<T: PartialEq + Debug + Drop>(told: T, wanted: T) -> Result<(), Differs<T>> {
    if told == wanted {
        Ok(())
    } else {
        Err(Differs { told, wanted })
    }
}

/// Looks whether this is true.
pub fn looked(fact: bool) -> Result<(), IsFalse>
    ensures { IsOk result → fact ≡ true }
{
    if fact { Ok(()) } else { Err(IsFalse) }
}

/// Fails the test where the two differ, and says both: `same!(rt; told, wanted)`.
#[macro_export]
macro_rules! same {
    ($rt:expr; $told:expr, $wanted:expr) => {
        $crate::compared($told, $wanted).expect(&$rt, "not the same")
    };
}

/// Fails the test where this is false: `holds!(rt; fact)`.
#[macro_export]
macro_rules! holds {
    ($rt:expr; $fact:expr) => {
        $crate::looked($fact).expect(&$rt, "it doesn't hold")
    };
}
