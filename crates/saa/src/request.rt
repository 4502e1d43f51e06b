//! What is asked of a core, and the refusal of a full room.

pub use saa_core::ticket::{Full, Request};
