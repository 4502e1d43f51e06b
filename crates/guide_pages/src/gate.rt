//! Two workers that start together when a gate opens, and are turned away once it is sealed.
#![tactic(auto)]

use saa_sync::gate::{Gate, State};
use std::sync::Wait;
use std::{io, thread};

#[test]
fn main(rt: HostRuntime) -> io::Result<()> {
    // A controlled gate, and room for two waiters.
    let gate = Gate::new(&rt, rt.alloc(), 2)?;
    // A worker that comes early waits; one that comes once it is open passes at once.
    let (started, _before) = thread::join(&rt, || both(&rt, &gate), || gate.open());
    println!(rt; "{started} started")?;
    let (_before, waiting) = gate.seal();
    println!(rt; "{waiting} waited when it was sealed")?;
    println!(rt; "{} passed after that", both(&rt, &gate))
}

// Sends two workers to the gate, and counts those that passed.
fn both<R: thread::Threads, G: Wait + Drop + Sync>(rt: &R, gate: &Gate<G>) -> u64 {
    let (one, other) = thread::join(rt, || passes(gate), || passes(gate));
    u64::from(one).saturating_add(u64::from(other))
}

// Whether a worker passes; it waits in line while the gate is controlled.
fn passes<R: Wait + Drop>(gate: &Gate<R>) -> bool {
    gate.enter_sync() == Ok(Ok(State::Open))
}
