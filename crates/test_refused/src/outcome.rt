//! The outcome of something that takes memory.

use std::fmt::{self, Display, Formatter, Write};
use std::io;
use std::rt::Runtime;

/// The outcome.
#[derive(Clone, Copy)]
pub enum Outcome {
    /// It was done at once.
    AtOnce,
    /// Memory was refused, nothing was changed, and it was done when it was asked for anew.
    Anew,
    /// Something else.
    Wrong,
}

impl Outcome {
    /// The outcome of both: wrong if one is, and anew if one had to be.
    pub fn and(self, other: Outcome) -> Outcome {
        match (self, other) {
            (Outcome::Wrong, _) | (_, Outcome::Wrong) => Outcome::Wrong,
            (Outcome::Anew, _) | (_, Outcome::Anew) => Outcome::Anew,
            _ => Outcome::AtOnce,
        }
    }
}

/// Wrong but for this.
pub fn only_if(is_right: bool) -> Outcome {
    if is_right {
        Outcome::AtOnce
    } else {
        Outcome::Wrong
    }
}

/// Wrong but for this, which was refused before.
pub fn anew_if(is_right: bool) -> Outcome {
    Outcome::Anew.and(only_if(is_right))
}

/// Prints the outcome of something.
pub fn row<R: Runtime>(rt: &R, name: &str, outcome: Outcome) -> io::Result<()> {
    println!(rt; "{name}: {outcome}")
}

impl Display for Outcome {
    fn fmt<W: Write>(&self, f: &mut Formatter<W>) -> fmt::Result {
        f.write_str(match self {
            Outcome::AtOnce => "at once",
            Outcome::Anew => "refused, then done",
            Outcome::Wrong => "WRONG",
        })
    }
}
