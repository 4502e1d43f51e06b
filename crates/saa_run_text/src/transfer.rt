//! Bytes in and bytes out: one line read, one text written.
//!
//! The reader and the writer may be any. Held to what `specs/Transfer.antt` says of a line that
//! was cut off an input and of a text that was put out: both say what a failure left. What a line
//! means is left to the languages.
ghost use Rattle.saa_run_text.specs.Transfer.{CutsLine, Puts};

use arrayvec::ArrayVec;
use std::io::{Read, Write};

/// A line as it is read: a line has at most 80 bytes, and one byte more shows that it has not.
pub type LineBytes = ArrayVec<u8, 81>;

/// Where the reading of a line stopped.
#[derive(Clone, Copy)]
pub enum Cut {
    /// At the newline behind it, which was read too.
    Newline,
    /// At the end of the input.
    End,
    /// Behind its byte number 81: it is too long, wherever it ends.
    Long,
    /// At a read that failed: the rest of the line is not known.
    Failed,
}

/// A write that failed, or that took no byte.
#[derive(Clone, Copy, Debug)]
pub struct WriteFailed;

/// Reads a line, byte by byte, and nothing behind it.
pub fn read_line<R: Read>(reader: &mut R, line: &mut LineBytes) -> Cut
    ensures { CutsLine result (R.remaining reader.old) (R.remaining reader.new) line.new.items }
{
    line.clear();
    for _ in 0..81u8 {
        let mut byte = [0u8; 1];
        match reader.read(&mut byte) {
            Err(_) => return Cut::Failed,
            Ok(0) => return Cut::End,
            Ok(_) => {}
        }
        let next = byte[0];
        if next == b'\n' {
            return Cut::Newline;
        }
        line.push(next);
    }
    Cut::Long
}

/// Writes a text, at once where the writer takes it at once. Where a write fails, what went out is a beginning of it.
pub fn put<W: Write>(writer: &mut W, text: &[u8]) -> Result<(), WriteFailed>
    ensures { Puts result (W.contents writer.old) (W.contents writer.new) text.now }
{
    let mut at = 0;
    while at < text.len() {
        match writer.write(&text[at..]) {
            Err(_) => return Err(WriteFailed),
            Ok(0) => return Err(WriteFailed),
            Ok(n) => at += n,
        }
    }
    Ok(())
}
