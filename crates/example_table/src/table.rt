//! The table: a row for each worker, with its lowest and its highest reading.

ghost use Rattle.std.specs.Prelude.{◌≡◌, ◌-◌, ◌≤◌};

use std::alloc::{AllocError, Global};

/// The lowest and the highest of some readings, and how many there were.
#[derive(Drop)]
pub struct Row {
    low: u64,
    high: u64,
    readings: u64,
    // Holds whenever nobody writes, so a span is never below 0: a writer that leaves it false isn't built.
    ghost ordered: { low ≤ high },
}

impl Row {
    /// A row with no reading yet: it begins at 0.
    pub fn new() -> Self {
        Row {
            low: 0,
            high: 0,
            readings: 0,
        }
    }

    /// Takes one more reading.
    pub fn record(&mut self, reading: u64) {
        self.low = self.low.min(reading);
        self.high = self.high.max(reading);
        self.readings = self.readings.saturating_add(1);
    }

    /// How far apart the readings are.
    pub fn span(&self) -> u64
        ensures { result ≡ self.now.high - self.now.low }
    {
        self.high - self.low
    }

    /// How many readings there were.
    pub fn readings(&self) -> u64
        ensures { result ≡ self.now.readings }
    {
        self.readings
    }
}

/// A row for each worker.
#[derive(Drop)]
pub struct Table {
    rows: Vec<Row>,
}

impl Table {
    /// So many rows. The error comes only where memory was refused.
    pub fn new(alloc: Global, rows: u16) -> Result<Self, AllocError> {
        let mut table = Table {
            rows: Vec::with_capacity(alloc, usize::from(rows))?,
        };
        for _row in 0..rows {
            table.rows.push(Row::new())?;
        }
        Ok(table)
    }

    /// Takes one more reading into a row, if there is one of that number.
    pub fn record(&mut self, row: usize, reading: u64) {
        if let Some(row) = self.rows.get_mut(row) {
            row.record(reading);
        }
    }

    /// How many readings there were in all rows.
    pub fn readings(&self) -> u64 {
        let mut all = 0u64;
        for row in &self.rows {
            all = all.saturating_add(row.readings());
        }
        all
    }

    /// The widest span of a row.
    pub fn widest(&self) -> u64 {
        let mut widest = 0;
        for row in &self.rows {
            widest = row.span().max(widest);
        }
        widest
    }
}
