//! A run of an input, from the bytes read to the bytes written, over any reader and any writer.
//!
//! Held to `specs/Outcome.antt`, which speaks of the text of an input in `specs/Text.antt`. Which first lines are good, and what
//! they open, is an `Header`'s.
ghost use Rattle.std.specs.Prelude.{◌≡◌, ◌⊎◌};
ghost use Rattle.std.specs.Io.KnownBytes.{Keeps};
ghost use Rattle.saa_run_text.specs.Outcome.{Starts, Tells, Finishes, RunsWhole, no_memory as no_memory_text};
ghost use Rattle.saa_run_text.specs.Text.{answer_by, on_bytes};

use crate::ended::Ended;
use crate::header::Header;
use crate::steps::end_at;
use crate::transfer::{Cut, LineBytes, put, read_line};
use std::alloc::{AllocError, Global};
use std::io::{Read, Write};

/// Runs an input: reads its lines, answers each good one on a line of its own, and tells of the first bad one. Answers the
/// status of the program.
///
/// The status is 0 where the input was read to its end and has no bad line, 2 at a bad line, 3 with `no memory` where memory
/// was refused, which only a good first line can meet, and 4 where a read, a write or a flush failed or the input has no end.
pub fn run_input<O: Header, R: Read, W: Write>(alloc: Global, reader: &mut R, writer: &mut W) -> u8
    ensures { RunsWhole O.reads (on_bytes (answer_by O.reads O.behind)) result
        (R.remaining reader.old) (R.remaining reader.new) (W.contents writer.old) (W.contents writer.new) }
{
    let started = start::<O, R, W>(alloc, reader, writer);
    finish(started, writer)
}

/// Reads the first line, makes what it says, and answers the lines behind it.
fn start<O: Header, R: Read, W: Write>(
    alloc: Global,
    reader: &mut R,
    writer: &mut W,
) -> Result<Ended, AllocError>
    ensures { Starts O.reads (on_bytes (answer_by O.reads O.behind)) result
        (R.remaining reader.old) (R.remaining reader.new) (W.contents writer.old) (W.contents writer.new) }
{
    let mut line = LineBytes::new();
    match read_line(reader, &mut line) {
        Cut::Failed => Ok(Ended::ReadFailed),
        Cut::Long => Ok(end_at(writer, 1)),
        Cut::End => match O::parse(line.as_slice()) {
            None => Ok(end_at(writer, 1)),
            Some(_) => Ok(Ended::Done),
        },
        Cut::Newline => match O::parse(line.as_slice()) {
            None => Ok(end_at(writer, 1)),
            Some(first) => first.open(alloc, reader, writer),
        },
    }
}

/// The status of a run that ended, and what is said of refused memory. Whatever the status, what was written is flushed.
fn finish<W: Write>(started: Result<Ended, AllocError>, writer: &mut W) -> u8
    ensures { Finishes started result (W.contents writer.old) (W.contents writer.new) }
{
    match started {
        Ok(Ended::Done) => flushed(writer, 0),
        Ok(Ended::BadLine) => flushed(writer, 2),
        Ok(Ended::ReadFailed | Ended::WriteFailed | Ended::Endless) => flushed(writer, 4),
        Err(_) => no_memory(writer),
    }
}

/// Writes a last text and flushes, and answers the status, or 4 where a write or the flush fails.
pub fn tell<W: Write>(writer: &mut W, text: &[u8], status: u8) -> u8
    ensures { Tells result status text.now (W.contents writer.old) (W.contents writer.new) }
{
    match put(writer, text) {
        Ok(()) => flushed(writer, status),
        Err(_) => 4,
    }
}

/// Writes `no memory`, and answers 3, or 4 where the write fails.
pub fn no_memory<W: Write>(writer: &mut W) -> u8
    ensures { Tells result 3 no_memory_text (W.contents writer.old) (W.contents writer.new) }
{
    tell(writer, b"no memory\n", 3)
}

/// Flushes, and answers a status.
fn flushed<W: Write>(writer: &mut W, status: u8) -> u8
    ensures kept { Keeps (W.contents writer.old) (W.contents writer.new) }
    ensures status { (result ≡ status) ⊎ (result ≡ 4) }
{
    match writer.flush() {
        Ok(()) => status,
        Err(_) => 4,
    }
}
