//! A ring of cells in two buffers: one that is read, and one that is written.

ghost use Rattle.std.specs.Prelude.{◌≤◌, max};

use std::alloc::{AllocError, Global};
use std::sync::atomic::{AtomicBool, AtomicU64, Ordering};

/// How many cells there are.
pub const CELLS: usize = 96;

/// How hot one cell is at first; all others are cold.
pub const HEAT: u64 = 1_000_000_000;

/// What a cell has after a step: half of its own heat, and a quarter of each neighbour's.
pub fn spread(left: u64, own: u64, right: u64) -> u64
    ensures { result ≤ max left (max own right) }
{
    left / 4 + own / 2 + right / 4
}

/// The cells, which threads share.
#[derive(Drop)]
pub struct Ring {
    front: Vec<AtomicU64>,
    back: Vec<AtomicU64>,
    is_swapped: AtomicBool,
}

impl Ring {
    /// A ring with one hot cell.
    pub fn new(alloc: Global) -> Result<Self, AllocError> {
        let (mut front, mut back) = (Vec::new(alloc), Vec::new(alloc));
        for cell in 0..CELLS {
            let heat = if cell == 0 { HEAT } else { 0 };
            front.push(AtomicU64::new(heat))?;
            back.push(AtomicU64::new(0))?;
        }
        Ok(Ring {
            front,
            back,
            is_swapped: AtomicBool::new(false),
        })
    }

    // The buffer that is read now, and the one that is written.
    fn buffers(&self) -> (&[AtomicU64], &[AtomicU64]) {
        if self.is_swapped.load(Ordering::SeqCst) {
            (&self.back, &self.front)
        } else {
            (&self.front, &self.back)
        }
    }

    /// Computes one cell for the next step.
    pub fn compute(&self, cell: usize) {
        let (now, next) = self.buffers();
        let left = heat(now, cell.checked_sub(1).unwrap_or(CELLS - 1));
        let right = heat(now, cell.saturating_add(1) % CELLS);
        if let Some(place) = next.get(cell) {
            place.store(spread(left, heat(now, cell), right), Ordering::SeqCst);
        }
    }

    /// What was written is read from now on.
    pub fn swap(&self) {
        let is_swapped = self.is_swapped.load(Ordering::SeqCst);
        self.is_swapped.store(!is_swapped, Ordering::SeqCst);
    }

    /// How hot the hottest cell is.
    pub fn hottest(&self) -> u64 {
        let mut most = 0u64;
        for place in self.buffers().0 {
            most = most.max(place.load(Ordering::SeqCst));
        }
        most
    }

    /// How many cells are not as hot as in another ring.
    pub fn differences(&self, other: &Ring) -> usize {
        let (own, others) = (self.buffers().0, other.buffers().0);
        let mut different = 0usize;
        for cell in 0..CELLS {
            let is_same = heat(own, cell) == heat(others, cell);
            different = different.saturating_add(usize::from(!is_same));
        }
        different
    }
}

// How hot a cell is.
fn heat(cells: &[AtomicU64], cell: usize) -> u64 {
    match cells.get(cell) {
        Some(place) => place.load(Ordering::SeqCst),
        None => 0,
    }
}
