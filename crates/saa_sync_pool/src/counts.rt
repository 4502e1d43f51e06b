//! What a pool counts.

/// What a pool counts, for a dashboard.
#[derive(Clone, Copy, Debug, Eq, PartialEq)]
pub struct Counts {
    /// How many values are in.
    pub inside: usize,
    /// How many are out: in guards, or kept.
    pub out: usize,
    /// How many of those that are out are kept.
    pub kept: usize,
    /// How many tasks wait for one. It is read after the others, so it may be of a later moment.
    pub waiting: usize,
    /// How often a value was checked out. It stays at `u64::MAX` once it is there.
    pub served: u64,
    /// How many timed waits ended with no value. It stays at `u64::MAX` once it is there.
    pub timed_out: u64,
}

impl Counts {
    /// How many values there are, in and out; those of a closed pool that were drained are none of them.
    pub fn values(&self) -> usize {
        self.inside.saturating_add(self.out)
    }
}
