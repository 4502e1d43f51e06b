//! What the program does for each wish: runs a script or a schedule over any reader and any writer, or workers on threads; and
//! what its arguments ask for.
//!
//! A run and its statuses are `saa_run_text`'s. Held to `Scripts` and `Plays` of the languages, and to `specs/Wants.antt`.
ghost use Rattle.std.specs.Prelude.{◌≡◌, ◌<◌, ◌≤◌, map, string_bytes};
ghost use Rattle.saa_run_text.specs.Fields.{number_of};
ghost use Rattle.saa_run_text.specs.Outcome.{Tells};
ghost use Rattle.saa_run.specs.ScriptText.{Scripts};
ghost use Rattle.saa_run.specs.Played.{Plays};
ghost use Rattle.saa_run.specs.Counts.{Counted};
ghost use Rattle.saa_run.specs.Wants.{threads_of, usage_text, wanted_of};

use crate::counts::written;
use crate::schedule::lines::FirstOfSchedule;
use crate::script::command::FirstLine;
pub use crate::wants::Wanted;
use saa_run_text::fields::number;
use saa_run_text::run::{no_memory, run_input, tell};
use saa_run_workers::workers;
use std::alloc::Global;
use std::io::{Read, Write};
use std::sync::Wait;
use std::thread::Threads;

/// Writes how the program is used, and answers 2, or 4 where the write fails.
pub fn usage<W: Write>(writer: &mut W) -> u8
    ensures { Tells result 2 usage_text (W.contents writer.old) (W.contents writer.new) }
{
    tell(writer, b"usage: saa-run script | machine | threads N\n", 2)
}

/// What the program's arguments ask for, its name not among them.
///
/// Exactly `script`, exactly `machine`, or `threads` and a number from 1 to 32 in plain decimal; all else asks how the program is used.
pub fn wanted(args: &[String]) -> Wanted
    ensures { result ≡ wanted_of (map string_bytes args.now) }
{
    match args {
        [word] if word.as_str() == "script" => Wanted::Script,
        [word] if word.as_str() == "machine" => Wanted::Machine,
        [word, count] if word.as_str() == "threads" => threads_wanted(count.as_str()),
        _ => Wanted::Usage,
    }
}

/// So many threads as a text says, from 1 to 32.
fn threads_wanted(count: &str) -> Wanted
    ensures { result ≡ threads_of (number_of count.now) }
{
    match number(count.as_bytes()) {
        Some(count @ 1..=32) => Wanted::Threads(count as u8),
        _ => Wanted::Usage,
    }
}

/// Runs a script: reads its lines, answers each good one on a line of its own, and tells of the first
/// bad one. Answers the status of the program.
///
/// The status is 0 where the input was read to its end and has no bad line, 2 at a bad line, 3 where
/// memory was refused, which only a good first line can meet, and 4 where a read, a write or a flush failed
/// or the input has no end. What is written is a beginning of the input's text, whatever follows what was
/// read; a line that a failed read cut off isn't judged. `docs/LANGUAGES.md` has the language.
pub fn script<R: Read, W: Write>(alloc: Global, reader: &mut R, writer: &mut W) -> u8
    ensures { Scripts result (R.remaining reader.old) (R.remaining reader.new)
        (W.contents writer.old) (W.contents writer.new) }
{
    run_input::<FirstLine, R, W>(alloc, reader, writer)
}

/// Runs a schedule of a machine: reads its lines, answers each good one on a line of its own, and tells of the first
/// bad one. Answers the status of the program, which is as a script's.
pub fn machine<R: Read, W: Write>(alloc: Global, reader: &mut R, writer: &mut W) -> u8
    ensures { Plays result (R.remaining reader.old) (R.remaining reader.new)
        (W.contents writer.old) (W.contents writer.new) }
{
    run_input::<FirstOfSchedule, R, W>(alloc, reader, writer)
}

/// Runs workers on so many threads, and writes what they counted. Answers the status of the program.
///
/// All start through one gate; each passes one barrier 4 times, takes and gives back 2 of 63 permits 100 times, and makes 50
/// calls by one journal. What is written is how often a worker was the last at the barrier, `leaders 4`; how many permits
/// are available in the end, `available 63`; and how many calls the journal has, 50 for each thread. The status is 0 then, 3
/// with `no memory` where memory was refused or a thread couldn't be started, and 4 where a write or a flush failed.
pub fn threads<R: Threads + Wait + Sync, W: Write>(
    rt: &R,
    alloc: Global,
    count: u8,
    writer: &mut W,
) -> u8
    requires some { 0 < count }
    requires many { count ≤ 32 }
    ensures { Counted result count (W.contents writer.old) (W.contents writer.new) }
{
    match workers::run(rt, alloc, count) {
        Ok(counts) => tell(writer, written(counts).as_str().as_bytes(), 0),
        Err(_) => no_memory(writer),
    }
}
