//! How often a call looks and yields that can't have what it asks for, before it registers or parks: see `saa_core_waits::spin_policy`.
//!
//! A lock and a semaphore have one for calls that aren't registered yet (`with_spin_policy`).

pub use saa_core_waits::spin_policy::{DEFAULT, NONE, SpinPolicy};
