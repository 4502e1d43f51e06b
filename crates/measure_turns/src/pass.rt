//! One pass over all rows: how long each cell is measured, and how it is printed.

use std::io::{self, Print};
use std::time::{Clock, Instant};

// The fewest turns of a cell whose turns are counted beforehand.
const FEWEST: u64 = 16;

// About how long two threads take to wake one another, in nanoseconds.
const WAKE_NANOS: u64 = 10_000;

/// How long a pass measures each cell, and what it prints of it.
#[derive(Clone, Copy)]
pub struct Pass {
    // How long a cell is measured, in nanoseconds.
    nanos: u64,
    // Whether the time of a turn is printed; else only that turns were taken.
    has_times: bool,
}

impl Pass {
    /// A pass that measures each cell for so many nanoseconds.
    pub fn of(nanos: u64) -> Self {
        Pass {
            nanos,
            has_times: true,
        }
    }

    /// A pass that takes a few turns of each cell, and prints no time.
    pub fn without_times() -> Self {
        Pass {
            nanos: 0,
            has_times: false,
        }
    }

    /// Whether a cell has been measured for long enough that began so many nanoseconds ago.
    pub fn is_over(self, nanos: u64) -> bool {
        nanos >= self.nanos
    }

    /// How many turns to take of which each takes about so many nanoseconds.
    pub fn turns_of(self, nanos: u64) -> u64 {
        self.nanos.checked_div(nanos).unwrap_or(0).max(FEWEST)
    }

    /// How many rounds two threads take that wake one another, of so many turns each.
    pub fn rounds(self, turns: u64) -> Rounds {
        Rounds {
            count: self.turns_of(WAKE_NANOS),
            turns,
        }
    }
}

/// How many rounds there are, and how many turns in each.
#[derive(Clone, Copy)]
pub struct Rounds {
    /// How many rounds there are.
    pub count: u64,
    /// How many turns are in each.
    pub turns: u64,
}

/// A table, and the name of one of its rows.
#[derive(Clone, Copy)]
pub struct Label<'l> {
    /// The table.
    pub table: &'l str,
    /// The name of the row.
    pub name: &'l str,
}

/// Turns, and how long they took together.
#[derive(Clone, Copy)]
pub struct Figure {
    /// How many turns were taken.
    pub turns: u64,
    /// How long they took, in nanoseconds.
    pub nanos: u64,
}

impl Figure {
    // How long one turn took: whole nanoseconds, and tenths of one.
    fn of_a_turn(self) -> (u64, u64) {
        let tenths = self.nanos.saturating_mul(10);
        let tenths = tenths.checked_div(self.turns).unwrap_or(0);
        (tenths / 10, tenths % 10)
    }
}

/// How long it is since then, in nanoseconds; `None` where the clock was refused.
pub fn nanos_since<R: Clock>(rt: &R, start: Instant) -> Option<u64> {
    let elapsed = start.elapsed(rt).ok()?;
    u64::try_from(elapsed.as_nanos()).ok()
}

/// The figure of so many turns that began then and are over now; `None` where the clock was refused.
pub fn figure_since<R: Clock>(rt: &R, start: Instant, turns: u64) -> Option<Figure> {
    let nanos = nanos_since(rt, start)?;
    Some(Figure { turns, nanos })
}

/// Prints a cell: its table, its row and its column, and how long one turn took.
pub fn print_cell<R: Print>(
    rt: &R,
    pass: Pass,
    label: Label<'_>,
    column: &str,
    figure: Option<Figure>,
) -> io::Result<()> {
    let (table, name) = (label.table, label.name);
    print!(rt; "{table} | {name} | {column}")?;
    let Some(figure) = figure else {
        return println!(rt; ": the clock or a thread was refused");
    };
    if !pass.has_times {
        return println!(rt; "");
    }
    let (whole, part) = figure.of_a_turn();
    println!(rt; " | {whole}.{part}")
}
