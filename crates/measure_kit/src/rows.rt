//! All rows, in the order of their tables: what is compared is measured one after another.

use crate::{lock_free, threaded};
use measure_turns::kit;
use measure_turns::machine::Machine;
use measure_turns::pass::Pass;
use std::io;

/// Measures all once, and prints a line for each cell.
pub fn print_pass<R: Machine>(rt: &R, pass: Pass) -> io::Result<()> {
    permits(rt, pass)?;
    mutexes(rt, pass)?;
    rw_locks(rt, pass)?;
    waits(rt, pass)?;
    threads(rt, pass)?;
    signals(rt, pass)?;
    barriers(rt, pass)
}

fn permits<R: Machine>(rt: &R, pass: Pass) -> io::Result<()> {
    threaded::permits(rt, pass)?;
    threaded::permits_apart(rt, pass)?;
    lock_free::permits(rt, pass)?;
    lock_free::permits_apart(rt, pass)?;
    kit::permits(rt, pass)
}

fn mutexes<R: Machine>(rt: &R, pass: Pass) -> io::Result<()> {
    threaded::mutexes(rt, pass)?;
    threaded::mutexes_apart(rt, pass)?;
    lock_free::mutexes(rt, pass)?;
    lock_free::mutexes_apart(rt, pass)?;
    kit::mutexes(rt, pass)
}

fn rw_locks<R: Machine>(rt: &R, pass: Pass) -> io::Result<()> {
    threaded::rw_locks(rt, pass)?;
    lock_free::rw_locks(rt, pass)?;
    kit::rw_locks(rt, pass)?;
    kit::std_rw_locks(rt, pass)
}

fn waits<R: Machine>(rt: &R, pass: Pass) -> io::Result<()> {
    threaded::gates(rt, pass)?;
    kit::notifies(rt, pass)?;
    threaded::arrivals(rt, pass)?;
    kit::arrivals(rt, pass)
}

fn threads<R: Machine>(rt: &R, pass: Pass) -> io::Result<()> {
    threaded::threads(rt, pass)?;
    threaded::strict_threads(rt, pass)?;
    lock_free::threads(rt, pass)?;
    kit::threads(rt, pass)
}

fn signals<R: Machine>(rt: &R, pass: Pass) -> io::Result<()> {
    threaded::signals(rt, pass)?;
    lock_free::signals(rt, pass)?;
    kit::signals(rt, pass)?;
    kit::crossbeam_signals(rt, pass)
}

fn barriers<R: Machine>(rt: &R, pass: Pass) -> io::Result<()> {
    threaded::barriers(rt, pass)?;
    threaded::left_arrivals(rt, pass)?;
    kit::barriers(rt, pass)?;
    kit::groups(rt, pass)
}
