//! How a line is printed.

use crate::loads::Compared;
use crate::times::{Case, Figure};
use std::io::{self, Print};

/// Prints a line of this text alone.
pub fn print_text<R: Print>(rt: &R, text: &str) -> io::Result<()> {
    println!(rt; "{text}")
}

/// Prints a row with the times of both and their ratio, and below it what the last turn of each did, where a word for that is given.
pub fn print_compared<R: Print>(
    rt: &R,
    case: Case,
    compared: Option<Compared>,
    did: &str,
) -> io::Result<()> {
    let Some(compared) = compared else {
        return print_refused(rt, case);
    };
    print_cells(rt, case, "  ", &compared.figures)?;
    let [first, second] = compared.figures;
    print_ratio(rt, [first.nanos, second.nanos])?;
    if did.is_empty() {
        return Ok(());
    }
    print_last(rt, did, compared.last)
}

/// Prints a row of figures.
pub fn print_figures<R: Print, const N: usize>(
    rt: &R,
    case: Case,
    figures: Option<[Figure; N]>,
) -> io::Result<()> {
    let Some(figures) = figures else {
        return print_refused(rt, case);
    };
    print_cells(rt, case, "      ", &figures)?;
    print_text(rt, "")
}

/// Prints how often tasks were polled for nothing.
pub fn print_polls<R: Print>(rt: &R, case: Case, polls: Option<u64>) -> io::Result<()> {
    let Some(idle) = polls else {
        return print_refused(rt, case);
    };
    let (threads, turns) = (case.count, case.times);
    println!(rt; "tasks in {threads} threads, {turns} turns: {idle} polls for nothing")
}

/// Prints how many adds take a microsecond.
pub fn print_adds<R: Print>(rt: &R, adds: u64) -> io::Result<()> {
    println!(rt;
        "{adds} adds to an atomic number of the thread's own are about a microsecond of work"
    )
}

// Prints that something wasn't measured.
fn print_refused<R: Print>(rt: &R, case: Case) -> io::Result<()> {
    let (text, count) = (case.text, case.count);
    println!(rt; "{text}, {count}: memory, a thread or the clock was refused")
}

// Prints the beginning of a row: its text, its count, and, each behind a gap, what one takes by each of these figures.
fn print_cells<R: Print>(rt: &R, case: Case, gap: &str, figures: &[Figure]) -> io::Result<()> {
    let (text, count) = (case.text, case.count);
    print!(rt; "{text:<22}  {count:>7}")?;
    for figure in figures {
        let (whole, part) = quotient(figure.nanos, case.times, 10);
        print!(rt; "{gap}{whole:>8}.{part}")?;
        print_range(rt, *figure, case.times)?;
    }
    Ok(())
}

// Prints the least and the most of a figure's passes, where they differ.
fn print_range<R: Print>(rt: &R, figure: Figure, times: u64) -> io::Result<()> {
    if figure.least == figure.most {
        return Ok(());
    }
    let (least, part_of_least) = quotient(figure.least, times, 10);
    let (most, part_of_most) = quotient(figure.most, times, 10);
    print!(rt; " ({least}.{part_of_least}..{most}.{part_of_most})")
}

// Prints the end of a row: how often the second is in the first.
fn print_ratio<R: Print>(rt: &R, nanos: [u64; 2]) -> io::Result<()> {
    let (whole, part) = quotient(nanos[0], nanos[1], 100);
    println!(rt; "  {whole:>2}.{part:02}")
}

// Prints what the last turns did.
fn print_last<R: Print>(rt: &R, did: &str, last: [usize; 2]) -> io::Result<()> {
    let (first, second) = (last[0], last[1]);
    println!(rt; "of which the last turn {did} {first} and {second}")
}

// How often the second is in the first: the whole part, and so many parts of one.
fn quotient(first: u64, second: u64, parts: u64) -> (u64, u64) {
    let all = first.saturating_mul(parts).checked_div(second).unwrap_or(0);
    (
        all.checked_div(parts).unwrap_or(0),
        all.checked_rem(parts).unwrap_or(0),
    )
}
