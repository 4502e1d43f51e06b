//! What is written: replies, each on a line of its own, and the line that tells of a bad line.
//!
//! Held to `specs/Text.antt`. What may be replied is each language's own: here a reply is anything that has words. Each line is
//! handed to the writer as one piece, so that who reads along never sees half a line.
ghost use Rattle.std.specs.Prelude.{◌≡◌, ◌≤◌, ◌++◌, ℕ, List, decimal, length};
ghost use Rattle.saa_run_text.specs.Transfer.{Puts};
ghost use Rattle.saa_run_text.specs.Text.{bad_line, reply_line};

use crate::transfer::{WriteFailed, put};
use arrayvec::ArrayString;
use itoa::Buffer;
use std::io::Write;

/// A line before it is written, with room for its newline. It takes no memory.
pub type ReplyText = ArrayString<64>;

/// What a language replies to its lines.
pub trait ReplyWords: Copy {
    // What it says, without the newline behind it.
    ghost words: { Self → List ℕ };

    /// Its words as they are written.
    fn text(self) -> ReplyText
        ensures words { result.bytes ≡ words self }
        ensures short { length result.bytes ≤ 63 };
}

/// A reply of one word, or of words that are put together already.
pub fn word(text: &str) -> ReplyText
    requires { length text.now ≤ 40 }
    ensures text { result.bytes ≡ text.now }
    ensures short { length result.bytes ≤ 63 }
{
    joined("", text)
}

/// A reply of two texts, with nothing between them.
pub fn joined(front: &str, back: &str) -> ReplyText
    requires front { length front.now ≤ 10 }
    requires back { length back.now ≤ 40 }
    ensures text { result.bytes ≡ front.now ++ back.now }
    ensures short { length result.bytes ≤ 63 }
{
    let mut line = ReplyText::new();
    line.push_str(front);
    line.push_str(back);
    line
}

/// A reply of a text and a number in plain decimal, with nothing between them.
pub fn numbered(front: &str, number: usize) -> ReplyText
    requires { length front.now ≤ 10 }
    ensures text { result.bytes ≡ front.now ++ decimal number }
    ensures short { length result.bytes ≤ 63 }
{
    let mut digits = Buffer::new();
    joined(front, digits.format(number))
}

/// Writes a reply on a line of its own.
pub fn put_reply<A: ReplyWords, W: Write>(writer: &mut W, said: A) -> Result<(), WriteFailed>
    ensures { Puts result (W.contents writer.old) (W.contents writer.new) (reply_line (A.words said)) }
{
    let mut line = said.text();
    line.push_str("\n");
    put(writer, line.as_str().as_bytes())
}

/// Writes that a line is bad, by its number.
pub fn put_bad_line<W: Write>(writer: &mut W, number: u64) -> Result<(), WriteFailed>
    ensures { Puts result (W.contents writer.old) (W.contents writer.new) (bad_line number) }
{
    let mut digits = Buffer::new();
    let mut line = ReplyText::new();
    line.push_str("bad line ");
    line.push_str(digits.format(number));
    line.push_str("\n");
    put(writer, line.as_str().as_bytes())
}
