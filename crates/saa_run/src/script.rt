//! A script's first line, and what it opens: a core, and a bench that speaks of it.
//!
//! Held to `specs/ScriptText.antt`. The run round it is `saa_run_text`'s.
mod barrier_words;
mod bench_script;
pub mod command;
mod gate_words;
pub mod laws;
pub mod lock_words;
pub mod reply;
pub mod script_core;
mod semaphore_words;

ghost use Rattle.std.specs.Prelude.{◌<◌, replicate};
ghost use Rattle.saa_run_text.specs.Outcome.{OpensWith};
ghost use Rattle.saa_core.specs.declared.ticket.Registration.TheVariants.{Unregistered};
ghost use Rattle.saa_core_spec.specs.Semaphore.{new_semaphore};
ghost use Rattle.saa_core_spec.specs.Lock.{new_lock};
ghost use Rattle.saa_core_spec.specs.Gate.{new_gate};
ghost use Rattle.saa_core_spec.specs.Barrier.{new_barrier};
ghost use Rattle.saa_core.specs.Tickets.{object_of};
ghost use Rattle.saa_run.specs.Language.{bound_number, line_of};
ghost use Rattle.saa_run.specs.Replies.{line_does, reply_words};
ghost use Rattle.saa_run.specs.SemaphoreWords.{semaphore_does, semaphore_readings};
ghost use Rattle.saa_run.specs.LockWords.{lock_does, lock_readings};
ghost use Rattle.saa_run.specs.GateWords.{gate_does, gate_readings};
ghost use Rattle.saa_run.specs.BarrierWords.{barrier_does, barrier_readings};
ghost use Rattle.saa_run.specs.ScriptText.{answer_from, pagers};

use crate::script::bench_script::BenchScript;
use crate::script::command::{Bound, FirstLine, parse_first};
use crate::script::script_core::ScriptCore;
use saa::barrier::BarrierCore;
use saa::gate::GateCore;
use saa::lock::LockCore;
use saa::semaphore::SemaphoreCoreOf;
use saa_run_text::ended::Ended;
use saa_run_text::header::Header;
use saa_run_text::steps::run_lines;
use std::alloc::{AllocError, Global};
use std::io::{Read, Write};

impl Header for FirstLine {
    ghost use Rattle.saa_run.specs.Language.{first_line_of};
    ghost use Rattle.saa_run.specs.ScriptText.{answer_behind};
    ghost use Rattle.saa_run.specs.FirstLaws.{behind-none, first-empty, first-long};

    ghost reads = { first_line_of };

    ghost behind = { answer_behind };

    ghost too_long = { first-long };

    ghost not_empty = { first-empty };

    ghost at_end = { behind-none };

    fn parse(line: &[u8]) -> Option<FirstLine> {
        parse_first(line)
    }

    fn open<R: Read, W: Write>(
        self,
        alloc: Global,
        reader: &mut R,
        writer: &mut W,
    ) -> Result<Ended, AllocError> {
        match self {
            FirstLine::Semaphore { permits, room } => {
                open_semaphore::<63, R, W>(alloc, permits, room, reader, writer)
            }
            FirstLine::Bounded {
                bound,
                permits,
                room,
            } => open_bounded(alloc, bound, permits, room, reader, writer),
            FirstLine::Lock { room } => open_lock(alloc, room, reader, writer),
            FirstLine::Gate { room } => open_gate(alloc, room, reader, writer),
            FirstLine::Barrier { size, room } => open_barrier(alloc, size, room, reader, writer),
        }
    }
}

/// Makes a semaphore of a bound that a script named, and answers the lines behind the first.
fn open_bounded<R: Read, W: Write>(
    alloc: Global,
    bound: Bound,
    permits: usize,
    room: u16,
    reader: &mut R,
    writer: &mut W,
) -> Result<Ended, AllocError>
    ensures { OpensWith result (answer_from (line_of semaphore_readings) semaphore_does 2 (new_semaphore (bound_number bound) permits room pagers))
        (R.remaining reader.old) (R.remaining reader.new) (W.contents writer.old) (W.contents writer.new) }
{
    match bound {
        Bound::One => open_semaphore::<1, R, W>(alloc, permits, room, reader, writer),
        Bound::Thousand => open_semaphore::<1000, R, W>(alloc, permits, room, reader, writer),
        Bound::Greatest => open_semaphore::<65535, R, W>(alloc, permits, room, reader, writer),
    }
}

/// Makes a semaphore of at most `MAX` permits, and answers the lines behind the first.
fn open_semaphore<const MAX: usize, R: Read, W: Write>(
    alloc: Global,
    permits: usize,
    room: u16,
    reader: &mut R,
    writer: &mut W,
) -> Result<Ended, AllocError>
    requires bound { 0 < MAX }
    requires narrow { MAX < 65536 }
    ensures { OpensWith result (answer_from (line_of semaphore_readings) semaphore_does 2 (new_semaphore MAX permits room pagers))
        (R.remaining reader.old) (R.remaining reader.new) (W.contents writer.old) (W.contents writer.new) }
{
    match SemaphoreCoreOf::<MAX>::with_permits(alloc, permits, room) {
        Ok(core) => run_core(alloc, core, reader, writer),
        Err(refused) => Err(refused),
    }
}

/// Makes a lock, and answers the lines behind the first.
fn open_lock<R: Read, W: Write>(
    alloc: Global,
    room: u16,
    reader: &mut R,
    writer: &mut W,
) -> Result<Ended, AllocError>
    ensures { OpensWith result (answer_from (line_of lock_readings) lock_does 2 (new_lock room pagers))
        (R.remaining reader.old) (R.remaining reader.new) (W.contents writer.old) (W.contents writer.new) }
{
    match LockCore::new(alloc, room) {
        Ok(core) => run_core(alloc, core, reader, writer),
        Err(refused) => Err(refused),
    }
}

/// Makes a gate, and answers the lines behind the first.
fn open_gate<R: Read, W: Write>(
    alloc: Global,
    room: u16,
    reader: &mut R,
    writer: &mut W,
) -> Result<Ended, AllocError>
    ensures { OpensWith result (answer_from (line_of gate_readings) gate_does 2 (new_gate room pagers))
        (R.remaining reader.old) (R.remaining reader.new) (W.contents writer.old) (W.contents writer.new) }
{
    match GateCore::new(alloc, room) {
        Ok(core) => run_core(alloc, core, reader, writer),
        Err(refused) => Err(refused),
    }
}

/// Makes a barrier, and answers the lines behind the first.
fn open_barrier<R: Read, W: Write>(
    alloc: Global,
    size: usize,
    room: u16,
    reader: &mut R,
    writer: &mut W,
) -> Result<Ended, AllocError>
    ensures { OpensWith result (answer_from (line_of barrier_readings) barrier_does 2 (new_barrier size room pagers))
        (R.remaining reader.old) (R.remaining reader.new) (W.contents writer.old) (W.contents writer.new) }
{
    match BarrierCore::with_count(alloc, size, room) {
        Ok(core) => run_core(alloc, core, reader, writer),
        Err(refused) => Err(refused),
    }
}

/// Answers the lines behind the first, from the core that the first line made.
fn run_core<P: ScriptCore, R: Read, W: Write>(
    alloc: Global,
    core: P,
    reader: &mut R,
    writer: &mut W,
) -> Result<Ended, AllocError>
    ensures { OpensWith result (answer_from (line_of P.readings)
        (line_does (reply_words P.answer_words P.poll_words) P.request P.step P.value) 2
        (object_of (P.core core) (replicate pagers Unregistered)))
        (R.remaining reader.old) (R.remaining reader.new) (W.contents writer.old) (W.contents writer.new) }
{
    match BenchScript::new(alloc, core) {
        Ok(mut script) => Ok(run_lines(&mut script, reader, writer)),
        Err(refused) => Err(refused),
    }
}
