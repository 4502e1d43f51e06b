//! What a measurement is made with.

use std::alloc::AllocGlobal;
use std::io::Print;
use std::random::RandomSource;
use std::sync::Wait;
use std::thread::Threads;
use std::time::Clock;

/// A clock, memory and threads, and a place to print to.
pub trait Machine: Print + Clock + RandomSource + AllocGlobal + Threads + Wait + Sync {}

impl<R: Print + Clock + RandomSource + AllocGlobal + Threads + Wait + Sync> Machine for R {}
