//! Benches that run commands over any core.

pub use saa_core::primitive::Primitive;
pub use saa_core_bench::bench::{Bench, Command, CommandOf, Reply, ReplyOf};
pub use saa_core_laws::runs::laws;
