//! The laws of comparing, of the values of this crate that have `==`: the contract of a function that does nothing.
//!
//! Those of the specification's values are in `saa_core_spec::equality`.

ghost use Rattle.std.specs.Prelude.{◌≡◌, ◌↔◌, IsTrue};
ghost use Rattle.saa_core.specs.declared.future.Progress.{Progress};
ghost use Rattle.saa_core.specs.declared.ticket.Registration.{Registration};

use crate::future::Progress;
use crate::ticket::Registration;

/// Two progresses of a future, and two registrations, are `==` exactly where they are the same value; of progresses, if that holds of
/// the values that they end with.
pub fn values<T: PartialEq>()
    requires ends { (a b : T) → IsTrue (T.eq a b) ↔ (a ≡ b) }
    ensures progress { (a b : Progress T) → IsTrue (⟦<Progress<T> as PartialEq>⟧.eq a b) ↔ (a ≡ b) }
    ensures registration { (a b : Registration) → IsTrue (⟦<Registration as PartialEq>⟧.eq a b) ↔ (a ≡ b) }
{
    // The law of the request that a registration has.
    saa_core_spec::equality::codes();
}
