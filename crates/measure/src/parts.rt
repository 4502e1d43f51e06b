//! The parts of what is printed: all of them, or the one that the argument names.

use crate::crowds::{adds_of_a_microsecond, crowd, waits};
use crate::loads::beside;
use crate::polls::idle_polls;
use crate::print::{print_adds, print_compared, print_figures, print_polls, print_text};
use crate::tables::{Entry, Line, PARTS, entries_of};
use crate::times::Case;
use std::alloc::{AllocGlobal, Global};
use std::env;
use std::io::{self, Print};
use std::random::RandomSource;
use std::rt::Runtime;
use std::sync::Wait;
use std::thread::Threads;
use std::time::Clock;

/// Prints what the last argument chooses, or how to run it.
pub fn print_chosen<R: Runtime + RandomSource + AllocGlobal + Threads + Wait + Sync>(
    rt: &R,
    alloc: Global,
) -> io::Result<()> {
    match env::args(rt)?.skip(1).last() {
        Some(word) => print_parts(rt, alloc, word.as_str()),
        None => print_parts(rt, alloc, ""),
    }
}

// Prints the parts that a word chooses, or how to run it where there is none.
fn print_parts<R: Print + Clock + RandomSource + AllocGlobal + Threads + Wait + Sync>(
    rt: &R,
    alloc: Global,
    word: &str,
) -> io::Result<()> {
    let mut is_found = false;
    for part in PARTS {
        if word == "measure" || word == part {
            is_found = true;
            print_entries(rt, alloc, entries_of(part))?;
        }
    }
    if is_found {
        return Ok(());
    }
    print_text(
        rt,
        "run with: measure, or a part of it: threads, alone, lines, cores, crowds, waits",
    )
}

// Prints the lines of a part.
fn print_entries<R: Print + Clock + RandomSource + AllocGlobal + Threads + Wait + Sync>(
    rt: &R,
    alloc: Global,
    entries: &[Entry],
) -> io::Result<()> {
    let adds = adds_of_a_microsecond(rt).unwrap_or(0);
    for entry in entries {
        print_entry(rt, alloc, entry, adds)?;
    }
    Ok(())
}

// Prints a line for each count.
fn print_entry<R: Print + Clock + RandomSource + AllocGlobal + Threads + Wait + Sync>(
    rt: &R,
    alloc: Global,
    entry: &Entry,
    adds: u64,
) -> io::Result<()> {
    let (text, line, times, counts) = *entry;
    for count in counts {
        let case = Case {
            text,
            times,
            count: *count,
        };
        print_line(rt, alloc, line, case, adds)?;
    }
    Ok(())
}

// Measures what a line says, and prints it.
fn print_line<R: Print + Clock + RandomSource + AllocGlobal + Threads + Wait + Sync>(
    rt: &R,
    alloc: Global,
    line: Line,
    case: Case,
    adds: u64,
) -> io::Result<()> {
    match line {
        Line::Text => print_text(rt, case.text),
        Line::Beside(ours, theirs) => {
            print_compared(rt, case, beside(rt, alloc, ours, theirs, case), "")
        }
        Line::BesideAndLast(ours, theirs, did) => {
            print_compared(rt, case, beside(rt, alloc, ours, theirs, case), did)
        }
        Line::IdlePolls => print_polls(rt, case, idle_polls(rt, alloc, case)),
        Line::Crowd(kind, how) => {
            print_figures(rt, case, crowd(rt, alloc, kind, how, case, adds))
        }
        Line::Waits(kind, how, tenths) => {
            let inside = adds.saturating_mul(tenths) / 10;
            print_figures(rt, case, waits(rt, alloc, kind, how, case, inside))
        }
        Line::Adds => print_adds(rt, adds),
    }
}
