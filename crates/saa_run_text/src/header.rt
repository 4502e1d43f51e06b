//! What a first line may say, and what it opens: the rest of a run is the same for every language.
ghost use Rattle.std.specs.Prelude.{◌≡◌, ◌<◌, ℕ, List, [], length, Option, None};
ghost use Rattle.saa_run_text.specs.Text.{Answer};
ghost use Rattle.saa_run_text.specs.Steps.{no_lines};
ghost use Rattle.saa_run_text.specs.Outcome.{OpensWith};

use crate::ended::Ended;
use std::alloc::{AllocError, Global};
use std::io::{Read, Write};

/// The good first lines of a language.
pub trait Header: Copy {
    // Which of them some bytes are, and what the lines behind it are answered.
    ghost reads: { List ℕ → Option Self };

    ghost behind: { Self → List (List ℕ) → Answer };

    /// The first line that these bytes are.
    fn parse(line: &[u8]) -> Option<Self>
        ensures { result ≡ reads line.now };

    /// Makes what the line says, and answers the lines behind it. All memory is taken here.
    fn open<R: Read, W: Write>(
        self,
        alloc: Global,
        reader: &mut R,
        writer: &mut W,
    ) -> Result<Ended, AllocError>
        ensures { OpensWith result (behind self)
            (R.remaining reader.old) (R.remaining reader.new) (W.contents writer.old) (W.contents writer.new) };

    // A line of more than 80 bytes is none of them, nor is the empty one; and where no line stands behind one there is no answer.
    ghost too_long: { (line : List ℕ) → 80 < length line → reads line ≡ None };

    ghost not_empty: { reads [] ≡ None };

    ghost at_end: { (first : Self) → behind first [] ≡ no_lines };
}
