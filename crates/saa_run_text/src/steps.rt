//! The lines behind the first: each is read, answered, and the answers stand one behind the other
//! until the run ends.
//!
//! No command is known here: what a line says is left to a `Session`. Held to `specs/Steps.antt`.
ghost use Rattle.std.specs.Prelude.{◌≡◌, ◌+◌, ◌<◌, ℕ, List, [], ◌∷◌, length, Option, None, IfSome, IfNone};
ghost use Rattle.saa_run_text.specs.Text.{Answer, on_bytes, bad_line, with_front, reply_line};
ghost use Rattle.saa_run_text.specs.Steps.{no_lines, IsBadAt, AnswersLine, TakesStep, EndsLine};
ghost use Rattle.saa_run_text.specs.Outcome.{Runs};

use crate::ended::Ended;
use crate::reply::{ReplyWords, put_bad_line, put_reply};
use crate::transfer::{Cut, LineBytes, read_line};
use std::io::{Read, Write};

/// What the lines behind the first reply_to to, as a bench of some primitive.
pub trait Session {
    /// What it says of a good line.
    type Reply: ReplyWords;

    /// What lines are answered from here, where the first of them has this number.
    ghost answer_to: { Self → ℕ → List (List ℕ) → Answer };

    /// Does what a line says. A line that means nothing is bad, and changes nothing.
    fn reply_to(&mut self, line: &[u8]) -> Option<Self::Reply>
        ensures good { IfSome result (λ said. (number : ℕ) → (others : List (List ℕ))
            → answer_to self.old number (line.now ∷ others)
            ≡ with_front (reply_line (Self.Reply.words said)) (answer_to self.new (number + 1) others)) }
        ensures bad { IfNone result ((number : ℕ) → IsBadAt number (answer_to self.old number) line.now) };

    /// Where there is no line there is no answer.
    ghost at_end: { (session : Self) → (number : ℕ) → answer_to session number [] ≡ no_lines };

    /// A line of more than 80 bytes is bad.
    ghost too_long: { (session : Self) → (number : ℕ) → (line : List ℕ) → 80 < length line
        → IsBadAt number (answer_to session number) line };
}

/// Tells that a line is bad.
pub fn end_at<W: Write>(writer: &mut W, number: u64) -> Ended
    ensures { EndsLine result (W.contents writer.old) (W.contents writer.new) (bad_line number) }
{
    match put_bad_line(writer, number) {
        Ok(()) => Ended::BadLine,
        Err(_) => Ended::WriteFailed,
    }
}

/// Answers one line.
fn answer_line<S: Session, W: Write>(
    session: &mut S,
    number: u64,
    line: &[u8],
    writer: &mut W,
) -> Option<Ended>
    ensures { AnswersLine result (S.answer_to session.old number) (S.answer_to session.new (number + 1))
        number line.now (W.contents writer.old) (W.contents writer.new) }
{
    match session.reply_to(line) {
        None => Some(end_at(writer, number)),
        Some(said) => match put_reply(writer, said) {
            Ok(()) => None,
            Err(_) => Some(Ended::WriteFailed),
        },
    }
}

/// Reads one line and answers it.
fn step<S: Session, R: Read, W: Write>(
    session: &mut S,
    number: u64,
    reader: &mut R,
    writer: &mut W,
) -> Option<Ended>
    ensures { TakesStep result (S.answer_to session.old number) (S.answer_to session.new (number + 1))
        (R.remaining reader.old) (R.remaining reader.new) (W.contents writer.old) (W.contents writer.new) }
{
    let mut line = LineBytes::new();
    match read_line(reader, &mut line) {
        Cut::Failed => return Some(Ended::ReadFailed),
        Cut::Long => return Some(end_at(writer, number)),
        Cut::Newline => return answer_line(session, number, line.as_slice(), writer),
        Cut::End => {}
    }
    if line.is_empty() {
        return Some(Ended::Done);
    }
    match answer_line(session, number, line.as_slice(), writer) {
        None => Some(Ended::Done),
        Some(ended) => Some(ended),
    }
}

/// Reads the lines behind the first and answers them, until the run ends.
pub fn run_lines<S: Session, R: Read, W: Write>(
    session: &mut S,
    reader: &mut R,
    writer: &mut W,
) -> Ended
    ensures { Runs result (on_bytes (S.answer_to session.old 2))
        (R.remaining reader.old) (R.remaining reader.new) (W.contents writer.old) (W.contents writer.new) }
{
    for number in 2..u64::MAX {
        if let Some(ended) = step(session, number, reader, writer) {
            return ended;
        }
    }
    Ended::Endless
}
