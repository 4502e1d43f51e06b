//! Cores of the fewest permits and of the most: one of none, or of more, is refused by the check.

use saa_core::semaphore::SemaphoreCoreOf;
use std::alloc::{AllocError, Global};

/// The core of the fewest permits.
pub type Fewest = SemaphoreCoreOf<1>;

/// The core of the most permits.
pub type Most = SemaphoreCoreOf<65_535>;

/// All of the fewest permits are available.
pub fn fewest(alloc: Global, room: u16) -> Result<Fewest, AllocError> {
    Fewest::new(alloc, room)
}

/// So many of the most permits are available.
pub fn most(alloc: Global, permits: usize, room: u16) -> Result<Most, AllocError> {
    Most::with_permits(alloc, permits, room)
}
