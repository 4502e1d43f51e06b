//! A count that exists in contracts alone. It takes no bytes, and its functions do nothing at run time.

ghost use Rattle.std.specs.Prelude.{◌≡◌, ℕ, ◌+◌};
ghost use Rattle.std.specs.Borrow.{ftrue};

use std::marker::Model;

// How many operations were made on words.
#[derive(Drop)]
pub(crate) struct Count {
    pub ghost number: { ℕ },
}

impl Model for Count {
    ghost also_owns = { λ _. ftrue };
}

impl Count {
    // None yet.
    pub(crate) fn none() -> Count
        ensures { result.number ≡ 0 }
    {
        Count {}
    }

    // One more than before.
    pub(crate) fn more(_before: &Count) -> Count
        ensures { result.number ≡ _before.now.number + 1 }
    {
        Count {}
    }
}
