//! The steps, by one thread and by many.

ghost use Rattle.std.specs.Prelude.{◌<◌};

use crate::ring::{CELLS, Ring};
use saa_sync::{Barrier, Gate};
use std::alloc::{AllocError, Global};
use std::sync::Wait;
use std::thread::{self, Threads};

// How many steps there are.
const STEPS: u16 = 500;

/// All steps, by the thread that calls.
pub fn alone(ring: &Ring) {
    for _step in 0..STEPS {
        for cell in 0..CELLS {
            ring.compute(cell);
        }
        ring.swap();
    }
}

/// Where threads start together, and meet at each step.
#[derive(Drop)]
struct Phases<'r, R: Wait> {
    start: Gate<&'r R>,
    step: Barrier<&'r R>,
}

impl<'r, R: Wait> Phases<'r, R> {
    // Phases for so many threads, which don't start yet.
    fn new(rt: &'r R, alloc: Global, threads: u16) -> Result<Self, AllocError> {
        Ok(Phases {
            start: Gate::new(rt, alloc, threads)?,
            step: Barrier::with_count(rt, alloc, usize::from(threads), threads)?,
        })
    }

    // All steps for each so manieth cell, from the first of them on.
    //
    // Nobody reads a buffer that somebody still writes: all meet when the step is computed, where one of them swaps the
    // buffers, and once more when that is done.
    fn compute(&self, ring: &Ring, first: usize, every: usize) {
        for _step in 0..STEPS {
            for cell in (first..CELLS).step_by(every.max(1)) {
                ring.compute(cell);
            }
            if self.step.wait_sync() == Ok(true) {
                ring.swap();
            }
            let _ = self.step.wait_sync();
        }
    }

    // The same, once the gate is opened; nothing where it is sealed.
    fn compute_behind_gate(&self, ring: &Ring, first: usize, every: usize) {
        if let Ok(Ok(_open)) = self.start.enter_sync() {
            self.compute(ring, first, every);
        }
    }
}

// All steps, by the thread that calls and others that it starts. Whether all were started: threads that were started find the
// gate sealed where one couldn't be, so that none waits at the barrier for one that never comes.
fn all_compute<R: Threads + Wait + Sync>(
    rt: &R,
    phases: &Phases<'_, R>,
    ring: &Ring,
    every: usize,
) -> bool {
    thread::scope(thread::scope_env(), rt, |scope| {
        for first in 1..every {
            let work = move || phases.compute_behind_gate(ring, first, every);
            if scope.spawn(work).is_err() {
                let _ = phases.start.seal();
                return false;
            }
        }
        let _ = phases.start.open();
        phases.compute(ring, 0, every);
        true
    })
}

// All steps, by so many threads beside each other. The error comes where memory was refused or a thread couldn't be started.
fn together<R: Threads + Wait + Sync>(
    rt: &R,
    alloc: Global,
    ring: &Ring,
    threads: u16,
) -> Result<(), AllocError>
    requires { 0 < threads }
{
    let phases = Phases::new(rt, alloc, threads)?;
    if all_compute(rt, &phases, ring, usize::from(threads)) {
        Ok(())
    } else {
        Err(AllocError)
    }
}

/// What is seen of a ring that many threads computed.
#[derive(Clone, Copy)]
pub struct Seen {
    /// How hot its hottest cell is.
    pub hottest: u64,
    /// How many cells differ from what one thread computes.
    pub different: usize,
}

/// Computes one ring by so many threads, and another by one thread.
///
/// The error comes where memory was refused or a thread couldn't be started.
pub fn compare<R: Threads + Wait + Sync>(
    rt: &R,
    alloc: Global,
    threads: u16,
) -> Result<Seen, AllocError>
    requires { 0 < threads }
{
    let by_many = Ring::new(alloc)?;
    together(rt, alloc, &by_many, threads)?;
    let by_one = Ring::new(alloc)?;
    alone(&by_one);
    Ok(Seen {
        hottest: by_many.hottest(),
        different: by_many.differences(&by_one),
    })
}
